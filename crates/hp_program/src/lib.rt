//! What commands share: an output that is watched, flushed behind what is written, and handed back; what is answered then; a replay; and the
//! lines of a fault.
//!
//! It stands on hp_replay, hp_text and hp_diagnostics. It promises of an output that all of it was written unless a write or the flush
//! failed (`Output.antt`), and of a replay what `hp_replay::replay` promises; the text of a fault's lines is only tested. It knows no
//! words of a command line.
#![tactic(auto)]

mod errors;
mod flushing;
mod leaving;
mod noted;
mod replaying;
mod tracing;

pub use errors::{write_error, write_fault};
pub use flushing::{flush_gathered, flush_plain, flushed_answer, gather};
pub use leaving::{Heard, LEFT, has_left, is_left};
pub use noted::Noted;
pub use replaying::run_replay;
pub use tracing::text_of;
