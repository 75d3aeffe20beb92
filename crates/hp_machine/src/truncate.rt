//! The phases of a truncation (Linux: `hugetlb_vmtruncate`, `remove_inode_hugepages`).
use hp_base::{File, Index, Task};
use hp_frames::Held;

/// The file is to have `new` pages.
#[derive(Clone, Copy, Debug, PartialEq, Eq)]
pub struct Truncation {
    pub file: File,
    pub new: u32,
}

/// To check the range and to take the file's lock.
#[derive(Debug, Drop)]
pub struct Start {
    pub truncation: Truncation,
}

/// To set the size.
#[derive(Debug, Drop)]
pub struct Size {
    pub truncation: Truncation,
}

/// To take the slot of the index.
#[derive(Debug, Drop)]
pub struct Want {
    pub truncation: Truncation,
    pub index: Index,
    pub evicted: u32,
}

/// The slot is held: to look for the page.
#[derive(Debug, Drop)]
pub struct Locked {
    pub truncation: Truncation,
    pub index: Index,
    pub evicted: u32,
}

/// There is a page: to clear that task's entries of it.
#[derive(Debug, Drop)]
pub struct Unmap {
    pub truncation: Truncation,
    pub index: Index,
    pub evicted: u32,
    pub task: Task,
}

/// No task translates the page: to take it out of the cache.
#[derive(Debug, Drop)]
pub struct Evict {
    pub truncation: Truncation,
    pub index: Index,
    pub evicted: u32,
}

/// To free the frame.
#[derive(Debug, Drop)]
pub struct Free {
    pub truncation: Truncation,
    pub index: Index,
    pub evicted: u32,
    pub held: Held,
}

/// To leave the slot.
#[derive(Debug, Drop)]
pub struct Unslot {
    pub truncation: Truncation,
    pub index: Index,
    pub evicted: u32,
}

/// No page is left: to take the tail out of the reserve map.
#[derive(Debug, Drop)]
pub struct Tail {
    pub truncation: Truncation,
    pub evicted: u32,
}

/// `excess` of the indices that went had no page: to give their reservations back. The others are those whose
/// pages were `evicted`; none of them is used any more.
#[derive(Debug, Drop)]
pub struct Settle {
    pub truncation: Truncation,
    pub excess: u32,
    pub evicted: u32,
}

/// To leave the file's lock.
#[derive(Debug, Drop)]
pub struct Leave {
    pub truncation: Truncation,
}

/// Where a truncation stands. `index` is the index at which it works, from the top down; `evicted` is how
/// many pages it took out of the cache.
#[derive(Debug, Drop)]
pub enum TruncatePhase {
    Start(Start),
    Size(Size),
    Want(Want),
    Locked(Locked),
    Unmap(Unmap),
    Evict(Evict),
    Free(Free),
    Unslot(Unslot),
    Tail(Tail),
    Settle(Settle),
    Leave(Leave),
}
