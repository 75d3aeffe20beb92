//! The phases of an allocation of pages (Linux: `hugetlbfs_fallocate`).
use hp_base::{Answer, File, Index};
use hp_frames::Held;
use hp_region::Pending;

/// What is to be allocated: `len` pages of the file from index `from` on.
#[derive(Clone, Copy, Debug, PartialEq, Eq)]
pub struct Allocation {
    pub file: File,
    pub from: Index,
    pub len: u32,
    /// Whether the file's size stays (Linux: `FALLOC_FL_KEEP_SIZE`).
    pub keep: bool,
}

/// To check the range and to take the file's lock.
#[derive(Debug, Drop)]
pub struct Start {
    pub allocation: Allocation,
}

/// To begin with the next index.
#[derive(Debug, Drop)]
pub struct Head {
    pub allocation: Allocation,
    pub index: Index,
}

/// To take the slot of the index.
#[derive(Debug, Drop)]
pub struct Want {
    pub allocation: Allocation,
    pub index: Index,
}

/// The slot is held: to look for the page.
#[derive(Debug, Drop)]
pub struct Locked {
    pub allocation: Allocation,
    pub index: Index,
}

/// There is no page: to begin a change of the reserve map.
#[derive(Debug, Drop)]
pub struct Missing {
    pub allocation: Allocation,
    pub index: Index,
}

/// The change is begun: to take a frame.
#[derive(Debug, Drop)]
pub struct Changed {
    pub allocation: Allocation,
    pub index: Index,
    pub pending: Pending,
}

/// To take the change back.
#[derive(Debug, Drop)]
pub struct Abort {
    pub allocation: Allocation,
    pub index: Index,
    pub pending: Pending,
    pub answer: Answer,
}

/// A frame is taken: to commit the change.
#[derive(Debug, Drop)]
pub struct Taken {
    pub allocation: Allocation,
    pub index: Index,
    pub pending: Pending,
    pub held: Held,
}

/// Another call reserved the index meanwhile: to give one reservation back.
#[derive(Debug, Drop)]
pub struct Settle {
    pub allocation: Allocation,
    pub index: Index,
    pub held: Held,
}

/// The index is reserved: to place the frame.
#[derive(Debug, Drop)]
pub struct Committed {
    pub allocation: Allocation,
    pub index: Index,
    pub held: Held,
}

/// The frame can't be placed: to give it back, with its reservation.
#[derive(Debug, Drop)]
pub struct Restore {
    pub allocation: Allocation,
    pub index: Index,
    pub held: Held,
    pub answer: Answer,
}

/// To leave the slot; with an answer the allocation goes no further.
#[derive(Debug, Drop)]
pub struct Unslot {
    pub allocation: Allocation,
    pub index: Index,
    pub answer: Option<Answer>,
}

/// Every page is there: to raise the file's size.
#[derive(Debug, Drop)]
pub struct Extend {
    pub allocation: Allocation,
}

/// To leave the file's lock.
#[derive(Debug, Drop)]
pub struct Leave {
    pub allocation: Allocation,
    pub answer: Answer,
}

/// Where an allocation stands. `index` is the index at which it works.
#[derive(Debug, Drop)]
pub enum AllocPhase {
    Start(Start),
    Head(Head),
    Want(Want),
    Locked(Locked),
    Missing(Missing),
    Changed(Changed),
    Abort(Abort),
    Taken(Taken),
    Settle(Settle),
    Committed(Committed),
    Restore(Restore),
    Unslot(Unslot),
    Extend(Extend),
    Leave(Leave),
}
