//! Why a line isn't allowed in a trace, in words.
//!
//! It stands on hp_text and hp_base. A `Recalling` source gives what its source gives, and keeps what it gave last; so that
//! the line that a reader refused can be shown. What is said of a line is for people: `gate/reasons.py` shows it, and nothing rests on it.
#![tactic(auto)]

mod near;
mod reason;
mod recalling;
mod showing;

pub use reason::{Reason, loose_reason_of, reason_of};
pub use recalling::{Line, Recalling, Recalls};
pub use showing::{WrongLine, wrong_line};
