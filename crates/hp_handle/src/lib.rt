//! A pool's core as a handle that a program in C keeps and never looks into.
//!
//! It stands on hp_core. A `Box` can't cross to C, and neither can a struct that holds one; so a box is taken apart into its pointer, which
//! C keeps with a flag that tells whether there is one, and put together again. All raw pointers of the repository are here. What a
//! caller in C owes: it hands back a handle that is all zeroes or that a call here left behind, the handle itself and no copy of its bytes,
//! to one call at a time.
#![tactic(auto)]

mod handle;
mod keeping;
mod kept_core;
mod parts;

pub use handle::Handle;
pub use kept_core::KeptCore;
