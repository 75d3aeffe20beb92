//! Client calls: what carries calls of tasks to a pool, calls with byte offsets, and the eleven workloads.
//!
//! It stands on hp_core, whose steps a `CoreDriver` makes, and on theorems of hp_laws. A driver's value is the list of the
//! calls that were answered (`heard`); whatever runs over one is said by what that list gains. Of a core's driver it is
//! said besides which events a round is, in which order, and that each round comes to an end. It knows no thread and
//! nothing of how a step is made.
#![tactic(auto)]

pub mod bytes;
pub mod core_driver;
pub mod crew;
pub mod driver;
pub mod fault;
pub mod heard;
pub mod pool_driver;
pub mod rounds;
pub mod table;
pub mod work;

pub use core_driver::CoreDriver;
pub use crew::{Crew, Team, Work};
pub use driver::Driver;
pub use fault::ClientFault;
pub use heard::note_calls;
pub use pool_driver::PoolDriver;
pub use rounds::{Asked, ask};
pub use table::Workload;
pub use work::{Report, config_of, run_workload, workload_named};
