//! The phases of a punched hole (Linux: `hugetlbfs_punch_hole`, `remove_inode_hugepages`).
use hp_base::{File, Index, Task};
use hp_frames::Held;

/// The indices that are to lose their pages: `len` of the file from index `from` on.
#[derive(Clone, Copy, Debug, PartialEq, Eq)]
pub struct Hole {
    pub file: File,
    pub from: Index,
    pub len: u32,
}

/// To check the range and to take the file's lock.
#[derive(Debug, Drop)]
pub struct Start {
    pub hole: Hole,
}

/// To take the slot of the index.
#[derive(Debug, Drop)]
pub struct Want {
    pub hole: Hole,
    pub index: Index,
}

/// The slot is held: to look for the page.
#[derive(Debug, Drop)]
pub struct Locked {
    pub hole: Hole,
    pub index: Index,
}

/// There is a page: to clear that task's entries of it.
#[derive(Debug, Drop)]
pub struct Unmap {
    pub hole: Hole,
    pub index: Index,
    pub task: Task,
}

/// No task translates the page: to take it out of the cache.
#[derive(Debug, Drop)]
pub struct Evict {
    pub hole: Hole,
    pub index: Index,
}

/// To take the index out of the reserve map.
#[derive(Debug, Drop)]
pub struct Delete {
    pub hole: Hole,
    pub index: Index,
    pub held: Held,
}

/// To free the frame; where the delete was denied its reservation stays.
#[derive(Debug, Drop)]
pub struct Free {
    pub hole: Hole,
    pub index: Index,
    pub held: Held,
    pub denied: bool,
}

/// To leave the slot.
#[derive(Debug, Drop)]
pub struct Unslot {
    pub hole: Hole,
    pub index: Index,
}

/// To leave the file's lock.
#[derive(Debug, Drop)]
pub struct Leave {
    pub hole: Hole,
}

/// Where a punch stands. `index` is the index at which it works.
#[derive(Debug, Drop)]
pub enum PunchPhase {
    Start(Start),
    Want(Want),
    Locked(Locked),
    Unmap(Unmap),
    Evict(Evict),
    Delete(Delete),
    Free(Free),
    Unslot(Unslot),
    Leave(Leave),
}
