//! The machine: what each event may do to a pool. This is the meaning of the product.
//!
//! It stands on the vocabulary of hp_base and on the two tokens, a frame in a call's hand (hp_frames)
//! and a change in progress (hp_region). The phases of each operation are Rust types that the steps
//! of the calls move through; `specs/` has the state as functions of numbers, and one file of rows
//! for each operation, where of the conditions of a row the first that holds decides. Of its
//! rows it promises nothing: the steps above it cite them, and hp_laws proves what every run of them
//! keeps. What it promises is the text of outcomes. It knows no memory, and no list but a task's mappings.
#![tactic(auto)]

pub mod alloc;
pub mod call;
pub mod exit;
pub mod map;
pub mod outcome;
pub mod phase;
pub mod punch;
pub mod touch;
pub mod truncate;
pub mod unmap;

pub use alloc::AllocPhase;
pub use call::{Call, Stopped, Turn};
pub use exit::ExitPhase;
pub use map::MapPhase;
pub use outcome::{Life, Outcome, Refusal};
pub use phase::Phase;
pub use punch::PunchPhase;
pub use touch::TouchPhase;
pub use truncate::TruncatePhase;
pub use unmap::UnmapPhase;
