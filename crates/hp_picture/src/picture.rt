//! A picture: counts, and lists of numbers.
use std::marker::Model;

/// The counts of a pool. Nothing is promised of them.
#[derive(Clone, Copy, Debug, PartialEq, Eq)]
pub struct Counts {
    /// The reserve count (Linux: `resv_huge_pages`), which may have gone below zero.
    pub resv: i64,
    /// What others owe to it: it is this much above the reserved indices without a page.
    pub owed: i64,
    /// The used count (Linux: `used_hpages` of a subpool).
    pub used: i64,
    /// What others owe to it: it is this much above the reserved indices.
    pub used_owed: i64,
    /// The most that may be used, where that is limited.
    pub quota: Option<u32>,
}

/// Where frames are, and what files have reserved. Nothing is promised of it.
#[derive(Debug, Drop)]
pub struct Places {
    /// The free frames.
    pub free: Vec<u32>,
    /// The retired frames.
    pub retired: Vec<u32>,
    /// The frames that are in use, and in no file.
    pub hands: Vec<u32>,
    /// The files, counted from 0: the size of each in pages, and whether some call holds its lock.
    pub files: Vec<(u32, bool)>,
    /// The reserved ranges: the file, where it begins, and one more than its last index.
    pub regions: Vec<(u32, u32, u32)>,
    /// The pages: the file, the index, and the frame.
    pub pages: Vec<(u32, u32, u32)>,
    /// The translations: whose it is, the file, the index, and the frame.
    pub tables: Vec<(u32, u32, u32, u32)>,
}

impl Model for Places {
    ghost use Rattle.hp_picture.specs.Pictures.{PlacesState};

    ghost Value = { PlacesState };

    ghost view = { λ p. record {
      free = p.free.items;
      retired = p.retired.items;
      hands = p.hands.items;
      files = p.files.items;
      regions = p.regions.items;
      pages = p.pages.items;
      tables = p.tables.items;
    } };
}

/// A pool's state at one moment.
#[derive(Debug, Drop)]
pub struct Picture {
    pub counts: Counts,
    pub places: Places,
}
