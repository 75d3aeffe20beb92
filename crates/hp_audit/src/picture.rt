//! A pool's state as plain data.
use hp_base::{File, Frame, Index, Task};

/// A pool's state at one moment. Nothing is promised of it: it may be wrong.
#[derive(Debug, PartialEq, Eq, Drop)]
pub struct Picture {
    /// The free frames.
    pub free: Vec<Frame>,
    /// The retired frames.
    pub retired: Vec<Frame>,
    /// The reserve count (Linux: `resv_huge_pages`).
    pub resv: u32,
    /// What the calls in flight owe to the reserve count: it is this much above the reserved indices
    /// without a page.
    pub owed: i64,
    /// The used count (Linux: `used_hpages` of a subpool).
    pub used: u32,
    /// What the calls in flight owe to the used count: it is this much above the reserved indices.
    pub used_owed: i64,
    /// The most that may be used, where that is limited (Linux: `max_hpages` of a subpool).
    pub quota: Option<u32>,
    /// The frames in the hands of calls in flight.
    pub hands: Vec<Frame>,
    /// The files in order of their numbers, from 0 on.
    pub files: Vec<FilePicture>,
    /// Each translation: whose it is, of which file's which index, and to which frame.
    pub tables: Vec<(Task, File, Index, Frame)>,
}

/// A file's state at one moment.
#[derive(Debug, PartialEq, Eq, Drop)]
pub struct FilePicture {
    /// Its size in pages.
    pub size: u32,
    /// Whether some call holds its lock.
    pub locked: bool,
    /// The reserved ranges of indices: where each begins, and one more than its last.
    pub regions: Vec<(Index, Index)>,
    /// The indices that have a page, and the frame of each.
    pub pages: Vec<(Index, Frame)>,
}
