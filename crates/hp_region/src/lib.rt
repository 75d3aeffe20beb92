//! The reserve map of a file: the set of page indices that have a reservation, changed in two
//! phases (Linux: `struct resv_map`).
//!
//! It stands on hp_base. A map is seen as its sorted list of regions, the changes in progress, the
//! regions for which capacity is prepared, and for how many it has taken memory; the set is the test
//! whether an index lies in a region. `change` prepares capacity, so that `commit` and `abort` take no
//! memory and always succeed, whatever comes between. It knows nothing of pages, frames or tasks.
#![tactic(auto)]

mod bits;
mod fault;
mod map;
mod region;
mod walk;

pub use fault::{ChangeFault, DelFault};
pub use map::RegionMap;
pub use map::change::Pending;
pub use region::Region;
