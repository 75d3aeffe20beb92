//! The phases of a touch: a load or a store (Linux: `hugetlb_fault`, `hugetlb_no_page`).
//!
//! A phase with a change in progress owns its `Pending`, and one with a frame in its hand its `Held`:
//! a step that spends either twice doesn't compile, and one that loses it isn't proved.
use hp_base::{Answer, File, Index, Vpn};
use hp_frames::Held;
use hp_region::Pending;

/// What is done with the page's word.
#[derive(Clone, Copy, Debug, PartialEq, Eq)]
pub enum Access {
    Load,
    Store(u64),
}

/// A touch whose virtual page was found in a mapping.
#[derive(Clone, Copy, Debug, PartialEq, Eq)]
pub struct Touch {
    pub vpn: Vpn,
    pub access: Access,
    pub file: File,
    pub index: Index,
}

/// To look for the virtual page's mapping and for its translation.
#[derive(Debug, Drop)]
pub struct Look {
    pub vpn: Vpn,
    pub access: Access,
}

/// To take the slot of the index.
#[derive(Debug, Drop)]
pub struct Want {
    pub touch: Touch,
}

/// The slot is held: to look for the page.
#[derive(Debug, Drop)]
pub struct Locked {
    pub touch: Touch,
}

/// There is no page: to begin a change of the reserve map.
#[derive(Debug, Drop)]
pub struct Missing {
    pub touch: Touch,
}

/// The change is begun: to take a frame.
#[derive(Debug, Drop)]
pub struct Changed {
    pub touch: Touch,
    pub pending: Pending,
}

/// To take the change back.
#[derive(Debug, Drop)]
pub struct Abort {
    pub touch: Touch,
    pub pending: Pending,
    pub answer: Answer,
}

/// A frame is taken: to commit the change.
#[derive(Debug, Drop)]
pub struct Taken {
    pub touch: Touch,
    pub pending: Pending,
    pub held: Held,
}

/// Another call reserved the index meanwhile: to give one reservation back.
#[derive(Debug, Drop)]
pub struct Settle {
    pub touch: Touch,
    pub held: Held,
}

/// The index is reserved: to place the frame.
#[derive(Debug, Drop)]
pub struct Committed {
    pub touch: Touch,
    pub held: Held,
}

/// The frame can't be placed: to give it back, with its reservation.
#[derive(Debug, Drop)]
pub struct Restore {
    pub touch: Touch,
    pub held: Held,
    pub answer: Answer,
}

/// There is a page: to translate, and to read or write its word.
#[derive(Debug, Drop)]
pub struct Found {
    pub touch: Touch,
}

/// To leave the slot.
#[derive(Debug, Drop)]
pub struct Leave {
    pub touch: Touch,
    pub answer: Answer,
}

/// Where a touch stands.
#[derive(Debug, Drop)]
pub enum TouchPhase {
    Look(Look),
    Want(Want),
    Locked(Locked),
    Missing(Missing),
    Changed(Changed),
    Abort(Abort),
    Taken(Taken),
    Settle(Settle),
    Committed(Committed),
    Restore(Restore),
    Found(Found),
    Leave(Leave),
}
