//! The vocabulary that every layer of the pool speaks: numbers of frames, files, tasks and pages, a
//! pool's sizes within their limits, and what a task may ask, do and be answered.
//!
//! It stands on nothing but std and knows no state. A number is a newtype that contracts see as the
//! number itself; operations, events and answers are plain enums, and the text that `Display`
//! writes of them is their one spelling in a trace. The laws of counting indices are here too, so
//! that every crate above counts with the same words.
#![tactic(auto)]

pub mod answer;
pub mod config;
pub mod event;
pub mod limits;
pub mod mapping;
pub mod mode;
pub mod numbers;

pub use answer::Answer;
pub use config::{Config, Fault};
pub use event::{Event, Op};
pub use limits::{LIMIT, VPNS};
pub use mapping::Mapping;
pub use mode::Mode;
pub use numbers::{File, Frame, Index, Task, Vpn};
