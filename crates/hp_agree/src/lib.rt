//! The two audits of a pool's state agree.
//!
//! It stands on hp_audit, in whose pictures files have lists of their own, and on hp_judge, whose pictures are lines. It says which lines
//! a picture is, and promises that the audits find the same in both. It knows no core, and its functions do nothing.
#![tactic(auto)]

mod laws;

pub use laws::{the_audits_agree, they_find_the_same};
