//! The frames of a pool and the global count of reserved pages (Linux: `hstate.resv_huge_pages`).
//!
//! It stands on hp_base. A bank is seen as a list that says of each frame whether it is free, in a
//! call's hand, a page with its word or retired, beside the counts, and for how many frames it has taken
//! memory, which it does when it is made and when it grows by new numbers: no order of the free frames
//! shows. Each call says exactly what it does to the frames and to the counts, and the reserve count never
//! exceeds the free frames. A frame in a hand is a token, `Held`, which only this crate makes and which is
//! spent once. It keeps one record a frame, and links the free frames and the retired ones through their
//! records, so that a step on a frame looks at no other. It knows nothing of files, tasks or calls.
#![tactic(auto)]

pub mod bank;
pub mod fault;
pub mod frame;
mod record;

pub use bank::{Bank, Held, Retired};
pub use fault::Fault;
pub use frame::FrameState;
