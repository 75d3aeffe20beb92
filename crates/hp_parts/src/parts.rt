//! What all calls share.
use hp_chunks::PageCache;
use hp_frames::Bank;
use hp_region::RegionMap;
use hp_slots::SlotTable;
use hp_table::Space;

/// A file: its size in pages, the map of its reservations, and its pages.
#[derive(Drop)]
pub struct FileState {
    pub size: u32,
    pub map: RegionMap,
    pub cache: PageCache,
}

/// What all calls of a pool share. A step is lent it as `&mut Parts`.
#[derive(Drop)]
pub struct Parts {
    pub bank: Bank,
    pub files: Vec<FileState>,
    /// The fault mutex table.
    pub slots: SlotTable,
    /// The locks of the files; a place is the number of a file.
    pub locks: SlotTable,
    /// The space of each task; that of task 1 comes first.
    pub spaces: Vec<Space>,
}
