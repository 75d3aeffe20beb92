//! The running pool: one core under one lock, used by many threads, with a journal of all that happened.
//!
//! One event of the core is one hold of the lock. Each hold that changed something leaves an entry in the pool's
//! journal and in the list of the seat that made it. Whenever the lock is free the core is the end of the run that
//! the journal tells, so whatever is proved of every run of the machine holds there. At the end, and at each cut,
//! the lists of all seats are compared with the journal. It stands on hp_core, and knows no text and no client.
#![tactic(auto)]

pub mod calls;
pub mod closing;
mod cutting;
pub mod entry;
pub mod fault;
pub mod halting;
pub mod order;
pub mod pool;
mod same;
pub mod seat;
pub mod shared;
mod waiting_room;

pub use calls::{Gate, Open, call, resume};
pub use cutting::Part;
pub use entry::Entry;
pub use fault::{CallFault, CloseFault, CutFault, Reply};
pub use halting::Halting;
pub use order::{Listed, interleaved, interleaved_from};
pub use pool::{Closed, Pool};
pub use seat::Seat;
pub use shared::{CloseRefused, Hold, Shared, missing_seat};
