//! Holders of places: the slots of the fault mutex table, and the file locks.
//!
//! It stands on hp_base. A table is seen as the list of its places' holders, each a task or none; it has
//! capacity for these places and for no more. A place has one holder at most by its form: `try_take` takes a place
//! only where it is vacant, and `leave` frees that place alone. `slot_number` says which slot is a page's. It knows
//! neither what a place stands for nor who waits for it.
#![tactic(auto)]

pub mod table;

pub use table::{Fault, SlotTable, slot_number};
