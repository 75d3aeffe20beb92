//! The core: one state machine over events, which holds the parts of a pool and the state of each task.
//!
//! It stands on hp_fault and hp_remove, whose steps it drives, and on hp_laws, whose theorems it inherits. A core is seen
//! as its parts and task states, read as a state of hp_machine; its invariant is that a run of the machine reached
//! that state. So each event is a row of the machine, and whatever is proved of every run holds of every core.
//! It knows no text, no thread and no client.
#![tactic(auto)]

pub mod acquiring;
pub mod core_state;
mod duplicate;
mod events;
mod hands;
pub mod holding;
mod in_flight;
mod inside;
mod laws;
mod opening;
mod owing;
mod picture;
pub mod readers;
mod refusing;
mod resizing;
pub mod run;
mod run_laws;
mod standing;
pub mod task_state;
pub mod waiting;
pub mod words;

pub use acquiring::Acquired;
pub use core_state::Core;
pub use holding::Holding;
pub use hp_audit::{FilePicture, Finding, Picture, audit};
pub use hp_base::Answer;
pub use hp_machine::{Life, Outcome, Phase, Refusal};
pub use readers::Tally;
pub use refusing::is_exit;
pub use run::RunFault;
pub use task_state::TaskState;
pub use waiting::Readiness;
