//! Work at many places, done by several workers side by side.
//!
//! It stands on no other crate of the pool. It promises that what stands in a slot is right at its own place, whoever made it, and that
//! where all is wanted, all is there, in order. It must not know what is made. No clause tells who makes what, or when.
#![tactic(auto)]

mod ahead;
mod claims;
mod progress;
mod work;

pub use ahead::{made_ahead, take_or_make};
pub use claims::{all_made, found_or_made, side_by_side};
pub use progress::{FIRST_PART, Progress, next_part};
pub use work::Work;

#[cfg(test)]
mod tests;
