//! The pages of a file: which of its indices have one, and in which frame (Linux: the page cache of an inode, `i_pages`).
//! Each index lies below `LIMIT`; whether one is reserved, and who else owns a frame, a cache doesn't know.
ghost use Rattle.std.specs.Prelude.{◌≡◌, ◌<◌, ◌≤◌, OnOk, OnErr, IfOk, Some, None, IsSome, is_some, All};
ghost use Rattle.std.specs.FinMap as map;
ghost use Rattle.hp_base.specs.Indices.{count_below};
ghost use Rattle.hp_base.specs.Pages.{IsPagesEnd};
ghost use Rattle.hp_chunks.specs.Framed.{no_chunks, NoMoreChunks};

use crate::chunk::PLACES;
use crate::frame_map::FrameMap;
use hp_base::{Frame, Index, LIMIT};
use std::alloc::{AllocError, Global};
use std::marker::Model;

// How many chunks there can be: as many as the indices below `LIMIT` fill.
const CHUNKS: usize = LIMIT as usize / PLACES;

/// The frame of each index of a file that has a page.
#[derive(Drop)]
pub struct PageCache {
    frames: FrameMap<CHUNKS>,
}

impl Model for PageCache {
    ghost use Rattle.hp_chunks.specs.Cached.{Cached, cached_code};

    ghost Value = { Cached };

    ghost coded = { cached_code };

    ghost view = { λ c. record { pages = c.frames.frames; capacity = c.frames.capacity } };
}

impl PageCache {
    /// The cache of a file with no page.
    pub fn new(alloc: Global) -> Self
        ensures pages { result.pages ≡ map.empty }
        ensures capacity { result.capacity ≡ no_chunks }
    {
        PageCache {
            frames: FrameMap::new(alloc),
        }
    }

    /// The frame of an index, where it has a page (Linux: `find_lock_page`). It takes a look at one chunk.
    pub fn get(&self, index: Index) -> Option<Frame>
        ensures { result ≡ map.get self.now.pages index }
    {
        self.frames.get(index.number())
    }

    /// Puts a page into the cache (Linux: `hugetlb_add_to_page_cache`). Memory is wanted for the first page of a chunk.
    pub fn place(&mut self, index: Index, frame: Frame) -> Result<(), AllocError>
        requires vacant { map.get self.old.pages index ≡ None }
        requires in_file { index < LIMIT }
        ensures ok { OnOk result (self.new.pages ≡ map.insert self.old.pages index frame) }
        ensures err { OnErr result (self.new ≡ self.old) }
    {
        self.frames.insert(index.number(), frame)
    }

    /// Takes a page out of the cache and tells its frame (Linux: `hugetlb_delete_from_page_cache`). With the last
    /// page of a chunk its memory is given back.
    pub fn evict(&mut self, index: Index) -> Frame
        requires present { IsSome (map.get self.old.pages index) }
        ensures frame { map.get self.old.pages index ≡ Some result }
        ensures pages { self.new.pages ≡ map.remove self.old.pages index }
        ensures capacity { NoMoreChunks self.new.capacity self.old.capacity }
    {
        self.frames.remove(index.number())
    }

    /// One more than the highest index that has a page, 0 where none has. It looks for the highest chunk, and in it
    /// for the highest place.
    pub fn top(&self) -> u32
        ensures end { IsPagesEnd (map.get self.now.pages) result }
        ensures in_limit { result ≤ LIMIT }
    {
        self.frames.end()
    }

    /// A copy of the pages, in order of their indices.
    pub fn pages(&self, alloc: Global) -> Result<Vec<(Index, Frame)>, AllocError>
        ensures pages { IfOk result (λ pages. pages.items ≡ map.entries self.now.pages) }
        ensures in_file { IfOk result (λ pages. All (λ page. page.0 < LIMIT) pages.items) }
    {
        let mut pages = Vec::with_capacity(alloc, self.frames.count() as usize)?;
        for (number, frame) in self.frames.iter() {
            pages.push((Index::new(number), frame))?;
        }
        Ok(pages)
    }

    /// How many indices have a page (Linux: `nrpages`).
    pub fn count(&self) -> u32
        ensures count { result ≡ count_below (λ i. is_some (map.get self.now.pages i)) LIMIT }
        ensures in_limit { result ≤ LIMIT }
    {
        self.frames.count()
    }

    /// A cache with the same pages. A running pool keeps the core of its last cut, to compare histories from there
    /// on.
    pub fn copy(&self, alloc: Global) -> Result<Self, AllocError>
        ensures { IfOk result (λ copy. copy.pages ≡ self.now.pages) }
    {
        let frames = self.frames.copy(alloc)?;
        Ok(PageCache { frames })
    }
}
