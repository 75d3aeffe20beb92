//! The phases of a map, with and without a reservation (Linux: `hugetlbfs_file_mmap`, `hugetlb_reserve_pages`).
use hp_base::{Answer, File, Index, Vpn};
use hp_region::Pending;

/// What is to be mapped: `len` pages of the file from index `from` on.
#[derive(Clone, Copy, Debug, PartialEq, Eq)]
pub struct MapRequest {
    /// Whether the pages are to be reserved (Linux: no `MAP_NORESERVE`).
    pub reserve: bool,
    pub file: File,
    pub from: Index,
    pub len: u32,
}

/// To check the range and to take the file's lock.
#[derive(Debug, Drop)]
pub struct Start {
    pub map: MapRequest,
}

/// To look for virtual pages, and to prepare capacity for the mapping.
#[derive(Debug, Drop)]
pub struct Room {
    pub map: MapRequest,
}

/// To begin a change of the reserve map.
#[derive(Debug, Drop)]
pub struct Missing {
    pub map: MapRequest,
    pub base: Vpn,
}

/// The change is begun: to account for what is missing.
#[derive(Debug, Drop)]
pub struct Changed {
    pub map: MapRequest,
    pub base: Vpn,
    pub pending: Pending,
}

/// To take the change back.
#[derive(Debug, Drop)]
pub struct Abort {
    pub map: MapRequest,
    pub pending: Pending,
    pub answer: Answer,
}

/// The frames are accounted for: to commit the change.
#[derive(Debug, Drop)]
pub struct Accounted {
    pub map: MapRequest,
    pub base: Vpn,
    pub pending: Pending,
}

/// Others reserved `excess` of the indices meanwhile: to give those reservations back.
#[derive(Debug, Drop)]
pub struct Settle {
    pub map: MapRequest,
    pub base: Vpn,
    pub excess: u32,
}

/// To enter the mapping.
#[derive(Debug, Drop)]
pub struct Enter {
    pub map: MapRequest,
    pub base: Vpn,
}

/// To leave the file's lock.
#[derive(Debug, Drop)]
pub struct Leave {
    pub map: MapRequest,
    pub answer: Answer,
}

/// Where a map stands.
#[derive(Debug, Drop)]
pub enum MapPhase {
    Start(Start),
    Room(Room),
    Missing(Missing),
    Changed(Changed),
    Abort(Abort),
    Accounted(Accounted),
    Settle(Settle),
    Enter(Enter),
    Leave(Leave),
}
