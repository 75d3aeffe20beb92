//! A run that is followed, event by event: where its calls stand, who holds up whom, and what each event did.
//!
//! It stands on hp_core, which makes the steps. It promises that of each event the outcome is the machine's, that each task's holder is
//! the one by whom its next step would be blocked there, and that what an event did in Linux is told by the phase from which it was made.
//! What prints, draws or searches runs stands on it, and lists none of that itself.
#![tactic(auto)]

mod asked;
mod call_word;
mod calls;
mod linux;
mod passing;
mod run;

pub use asked::{is_held_up, stands_at};
pub use call_word::{CallWord, word_of};
pub use calls::{Calls, EndedCall, TaskCalls};
pub use linux::{linux_of_op, linux_of_step};
pub use passing::{can_leave, may_pass, may_wait, no_calls, phase_after};
pub use run::{Run, phase_in, stood_at};
