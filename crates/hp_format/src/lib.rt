//! The loose form of a trace, which people write: it has comments and blank lines, ends its lines as it likes, and has steps that are
//! repeated, or made until a phase is reached.
//!
//! It stands on hp_text, whose strict lines it understands, and on hp_core, which runs a trace as far as it is written, so that it is
//! known when a phase is reached. It promises that what is read is a trace that the lines ask for, one after the other, and that a
//! strict trace stays as it is. It knows no files.
#![tactic(auto)]

mod asked;
mod draft;
mod fault;
mod laws;
mod lines;
mod loosening;
mod tidying;

pub use asked::{Asked, Goal, asked_of};
pub use draft::{Draft, Unadded, core_after, reaches};
pub use fault::{LooseFault, Reason};
pub use hp_phases::phase_named;
pub use laws::{a_strict_trace_has_no_fault, a_strict_trace_stays};
pub use loosening::read_loose;
pub use tidying::tidy;
