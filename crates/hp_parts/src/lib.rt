//! The parts of a pool that all calls share, read as the machine's functions, and what each call does with them: to start,
//! and to take and leave the locks of files and the slots of indices.
//!
//! It stands on the parts (bank, reserve maps, page caches, holders, spaces) and on hp_machine. The steps of calls stand on
//! it, those that bring pages in (hp_fault) beside those that take them away (hp_remove). `view` reads the parts as the
//! machine's pool; `MemoryStays` (`specs/Capacity.antt`) says that there are as many of each thing as before, and that none of
//! them took memory. It knows no operation.
#![tactic(auto)]

pub mod locks;
pub mod parts;

pub use locks::{carry, is_bad_range, leave_lock, leave_slot, start, want_slot};
pub use parts::{FileState, Parts};
