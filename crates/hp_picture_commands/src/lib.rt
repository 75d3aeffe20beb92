//! Commands for a pool's state as text: `audit` reads one, and `replay --picture` writes one.
//!
//! It stands on hp_picture, which reads and writes states, on hp_judge, which finds what is wrong with one, on hp_core, whose pools have
//! them, on hp_agree, by which hp_judge finds nothing in these, and on hp_program's frame for outputs. It promises what is answered, and
//! what was read and written then (`Auditing.antt`, `States.antt`). It knows no words of a command line.
#![tactic(auto)]

mod auditing;
mod flattening;
mod laws;
mod states;

pub use auditing::run_audit;
pub use laws::{a_cores_picture_is_listed, a_state_has_no_finding, a_state_passes_the_audit};
pub use states::run_state;
