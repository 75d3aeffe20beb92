//! The space of a task.
ghost use Rattle.std.specs.Prelude.{◌≡◌, ◌+◌, ◌<◌, ◌≤◌, ◌↔◌, [], ℕ, None, length, true, false, IsTrue, IsSome, IfOk, OnOk, OnErr, IfSome, IfNone, All, is_some};
ghost use Rattle.std.specs.FinMap as map;
ghost use Rattle.std.specs.Iterator.{YieldsFirst, item_count};
ghost use Rattle.hp_base.specs.Indices.{count_below};
ghost use Rattle.hp_base.specs.Mappings.{find, base_of, is_base, is_there, fits, entered, in_mapping, first_base, without, without_index};
ghost use Rattle.hp_base.specs.Mappings.{without_mapping, IsRoom, IsSpread};
ghost use Rattle.hp_table.specs.Table.{no_capacity, NoMoreCapacity, Table};

use crate::gaps::{self, Gap};
use crate::places::{self, Place};
use crate::search;
use hp_base::{File, Frame, Index, LIMIT, Mapping, VPNS, Vpn};
use hp_chunks::{FrameMap, Frames, PLACES};
use std::alloc::{AllocError, Global};
use std::collections::BTreeSet;
use std::marker::Model;

// How many chunks of entries there can be: as many as the pages below `VPNS` fill.
const CHUNKS: usize = VPNS as usize / PLACES;

/// The mappings of a task, and its page table.
#[derive(Drop)]
pub struct Space {
    // in order of their bases
    mappings: Vec<Mapping>,
    // the gaps below each of these, in order
    gaps: Vec<Gap>,
    // the frame of each virtual page that is translated, and that lies in a mapping
    entries: FrameMap<CHUNKS>,
    // for each of these the file and the index for which it stands, so that those of an index are found
    places: BTreeSet<Place, Global>,
    // whether capacity for one mapping more is prepared
    ready: bool,
}

impl Model for Space {
    ghost use Rattle.std.specs.Prelude.{◌≡◌, ◌+◌, ◌<◌, ◌≤◌, ℕ, IsTrue, IsSome, All, vec_len, vec_capacity};
    ghost use Rattle.std.specs.FinMap as map;
    ghost use Rattle.hp_base.specs.declared.limits.TheConstants.{LIMIT, VPNS};
    ghost use Rattle.hp_base.specs.Mappings.{find, IsSpread};
    ghost use Rattle.std.specs.BTreeSet.{btree_set_len};
    ghost use Rattle.hp_table.specs.Gaps.{gaps_of};
    ghost use Rattle.hp_table.specs.Places.{Agrees};
    ghost use Rattle.hp_table.specs.Table.{Table, table_code};

    ghost Value = { Table };

    ghost coded = { table_code };

    ghost view = { λ s. record {
      mappings = s.mappings.items;
      entries = s.entries.frames;
      ready = s.ready;
      capacity = record {
        mappings = vec_capacity s.mappings;
        gaps = vec_capacity s.gaps;
        entries = s.entries.capacity;
        places = btree_set_len s.places;
      };
    } };

    ghost invariant = { λ s. record {
      spread : IsSpread VPNS 0 s.mappings.items;
      in_files : All (λ m. m.from + m.len ≤ LIMIT) s.mappings.items;
      mapped : (vpn : ℕ) → IsSome (map.get s.entries.frames vpn) → IsSome (find s.mappings.items vpn);
      agree : Agrees (find s.mappings.items) (map.get s.entries.frames) s.places;
      gaps : s.gaps.items ≡ gaps_of 0 s.mappings.items;
      places : vec_len s.mappings ≤ vec_capacity s.gaps;
      capacity : IsTrue s.ready → (vec_len s.mappings < vec_capacity s.mappings) × (vec_len s.mappings < vec_capacity s.gaps);
    } };
}

impl Space {
    /// A space with no mapping.
    pub fn new(alloc: Global) -> Self
        ensures mappings { result.mappings ≡ [] }
        ensures entries { result.entries ≡ map.empty }
        ensures ready { result.ready ≡ false }
        ensures capacity { result.capacity ≡ no_capacity }
    {
        Space {
            mappings: Vec::new(alloc),
            gaps: Vec::new(alloc),
            entries: FrameMap::new(alloc),
            places: BTreeSet::new(alloc),
            ready: false,
        }
    }

    /// The least base at which a mapping of that length fits. The gaps between mappings are looked at in order, up to
    /// the first that is long enough; where the mappings stand side by side there is none (Linux:
    /// `hugetlb_get_unmapped_area`).
    pub fn room(&self, len: u32) -> Option<Vpn>
        ensures { IsRoom VPNS self.now.mappings len result }
    {
        gaps::room(&self.gaps, &self.mappings, len)
    }

    /// Prepares capacity for one mapping more, and for the gap that there can be below it. Where one of the two finds no
    /// memory, neither list was changed.
    pub fn prepare(&mut self) -> Result<(), AllocError>
        ensures ok { OnOk result (self.new ≡ record self.old { ready = true; capacity = self.new.capacity }) }
        ensures err { OnErr result (self.new ≡ self.old) }
    {
        if self.mappings.len() < self.gaps.capacity() {
            self.mappings.reserve(1)?;
        } else {
            let places = 2 * (self.mappings.len() + 1);
            let gaps = gaps::copy(&self.gaps, places, *self.gaps.allocator())?;
            self.mappings.reserve(1)?;
            self.gaps = gaps;
        }
        self.ready = true;
        Ok(())
    }

    /// Whether capacity for one mapping more is prepared: from `prepare` to the next `enter`.
    pub fn ready(&self) -> bool
        ensures { result ≡ self.now.ready }
    {
        self.ready
    }

    /// Maps `len` pages from `base` on to the indices of the file from `from` on, in the capacity that
    /// was prepared. Its place is found by binary search.
    pub fn enter(&mut self, base: Vpn, file: File, from: Index, len: u32)
        requires ready { IsTrue self.old.ready }
        requires some { 1 ≤ len }
        requires fits { fits VPNS self.old.mappings base len ≡ true }
        requires in_file { from + len ≤ LIMIT }
        ensures mappings { self.new.mappings ≡ entered self.old.mappings (record { base = base; file = file; from = from; len = len }) }
        ensures entries { self.new.entries ≡ self.old.entries }
        ensures ready { self.new.ready ≡ false }
        ensures capacity { self.new.capacity ≡ self.old.capacity }
    {
        let at = search::begun(&self.mappings, base);
        let mapping = Mapping {
            base,
            file,
            from,
            len,
        };
        self.mappings.insert(at, mapping).unwrap();
        gaps::fill(&mut self.gaps, &self.mappings, at);
        self.ready = false;
    }

    /// The file and the index that a virtual page stands for, where a mapping has it. It is found by
    /// binary search, which looks at O(log n) of n mappings (Linux: `vma_hugecache_offset`).
    pub fn find(&self, vpn: Vpn) -> Option<(File, Index)>
        ensures found { result ≡ find self.now.mappings vpn }
        ensures in_file { IfSome result (λ place. place.1 < LIMIT) }
    {
        let mapping = search::holder(&self.mappings, vpn)?;
        let index = mapping.from.number() + (vpn.number() - mapping.base.number());
        Some((mapping.file, Index::new(index)))
    }

    /// The base of the mapping that has a virtual page, found as `find` does.
    pub fn base_of(&self, vpn: Vpn) -> Option<Vpn>
        ensures base { result ≡ base_of self.now.mappings vpn }

        // It is the page itself exactly where a mapping begins there.
        ensures begins { (result ≡ Some vpn) ↔ IsTrue (is_base self.now.mappings vpn) }
    {
        let holder = search::holder(&self.mappings, vpn)?;
        Some(holder.base)
    }

    /// The frame that a virtual page is translated to, at which it looks at once (Linux: `huge_pte_offset`).
    pub fn translate(&self, vpn: Vpn) -> Option<Frame>
        ensures { result ≡ map.get self.now.entries vpn }
    {
        self.entries.get(vpn.number())
    }

    /// Translates a mapped virtual page to a frame (Linux: `set_huge_pte_at`). No other entry is looked at.
    pub fn install(&mut self, vpn: Vpn, frame: Frame) -> Result<(), AllocError>
        requires mapped { IsSome (find self.old.mappings vpn) }
        requires bare { map.get self.old.entries vpn ≡ None }
        ensures ok { OnOk result
            (self.new ≡ record self.old { entries = map.insert self.old.entries vpn frame; capacity = self.new.capacity }) }
        ensures err { OnErr result (self.new ≡ self.old) }
    {
        let (file, index) = self.find(vpn).unwrap();
        places::add(&mut self.places, file, index, vpn)?;
        if let Err(refused) = self.entries.insert(vpn.number(), frame) {
            places::take(&mut self.places, file, index, vpn);
            return Err(refused);
        }
        Ok(())
    }

    // Clears the entry of a page that has one.
    fn clear(&mut self, vpn: Vpn)
        requires { IsSome (map.get self.old.entries vpn) }
        ensures mappings { self.new.mappings ≡ self.old.mappings }
        ensures entries { self.new.entries ≡ map.remove self.old.entries vpn }
        ensures ready { self.new.ready ≡ self.old.ready }
        ensures capacity { NoMoreCapacity self.new.capacity self.old.capacity }
    {
        let (file, index) = self.find(vpn).unwrap();
        places::take(&mut self.places, file, index, vpn);
        self.entries.remove(vpn.number());
    }

    // A page that has an entry and stands for that index of the file.
    fn page_of(&self, file: File, index: Index) -> Option<Vpn>
        ensures found { IfSome result (λ vpn. IsSome (map.get self.now.entries vpn)
            × (is_there (find self.now.mappings vpn) file index ≡ true)) }
        ensures none { IfNone result ((vpn : ℕ) → is_there (find self.now.mappings vpn) file index ≡ true
            → map.get self.now.entries vpn ≡ None) }
    {
        let vpn = places::first(&self.places, file, index)?;
        Some(vpn)
    }

    /// Clears every entry that stands for that index of the file, and no other. Each is found in a balanced tree
    /// (Linux: `hugetlb_vmdelete_list`).
    pub fn clear_index(&mut self, file: File, index: Index)
        ensures mappings { self.new.mappings ≡ self.old.mappings }
        ensures entries { map.get self.new.entries ≡ without_index self.old.mappings (map.get self.old.entries) file index }
        ensures ready { self.new.ready ≡ self.old.ready }
        ensures capacity { NoMoreCapacity self.new.capacity self.old.capacity }
    {
        while let Some(vpn) = self.page_of(file, index) {
            self.clear(vpn);
        }
    }

    /// Clears the entries of the mapping that begins at that base, where one does. It is found by binary search, and
    /// its entries by a look at its chunks (Linux: `unmap_vmas`).
    pub fn clear_mapping(&mut self, base: Vpn)
        ensures mappings { self.new.mappings ≡ self.old.mappings }
        ensures entries { map.get self.new.entries ≡ without_mapping self.old.mappings (map.get self.old.entries) base }
        ensures ready { self.new.ready ≡ self.old.ready }
        ensures capacity { NoMoreCapacity self.new.capacity self.old.capacity }
    {
        let Some(at) = search::place_of(&self.mappings, base) else {
            return;
        };
        let end = base.number() + self.mappings[at].len;
        let mut next = base.number();
        while let Some((vpn, _)) = self.entries.first_within(next, end) {
            self.clear(Vpn::new(vpn));
            next = vpn + 1;
        }
    }

    /// The mapping that begins at that base goes, where one does (Linux: `remove_vma`).
    pub fn drop_mapping(&mut self, base: Vpn)
        requires bare { (vpn : ℕ) → IsTrue (in_mapping self.old.mappings base vpn) → map.get self.old.entries vpn ≡ None }
        ensures mappings { self.new.mappings ≡ without self.old.mappings base }
        ensures entries { self.new.entries ≡ self.old.entries }
        ensures ready { self.new.ready ≡ self.old.ready }
        ensures capacity { self.new.capacity ≡ self.old.capacity }
    {
        if let Some(at) = search::place_of(&self.mappings, base) {
            gaps::merge(&mut self.gaps, &self.mappings, at);
            self.mappings.remove(at);
        }
    }

    /// The least base of a mapping.
    pub fn first(&self) -> Option<Vpn>
        ensures { result ≡ first_base self.now.mappings }
    {
        self.mappings.first().map(|mapping| mapping.base)
    }

    /// The number of mappings.
    pub fn mappings(&self) -> usize
        ensures value { result ≡ length self.now.mappings }

        // They stand in order, share no page, and end within the space and within their files.
        ensures spread { IsSpread VPNS 0 self.now.mappings }
        ensures in_files { All (λ m. m.from + m.len ≤ LIMIT) self.now.mappings }
    {
        self.mappings.len()
    }

    /// The translations in order of the virtual pages. No memory is taken.
    pub fn translations(&self) -> Translations<'_>
        ensures { result ≡ map.entries self.now.entries }
    {
        Translations {
            entries: self.entries.iter(),
        }
    }

    /// The number of virtual pages that are translated.
    pub fn entries(&self) -> usize
        ensures value { result ≡ map.len self.now.entries }
        ensures count { result ≡ count_below (λ vpn. is_some (map.get self.now.entries vpn)) VPNS }

        // Each of them lies in a mapping.
        ensures mapped { (vpn : ℕ) → IsSome (map.get self.now.entries vpn) → IsSome (find self.now.mappings vpn) }
    {
        self.entries.count() as usize
    }

    /// A space with the same mappings and translations, for which memory is taken. No capacity for a mapping is prepared
    /// in it, also where it is here. A running pool keeps the core of its last cut, to compare histories from there
    /// on.
    pub fn copy(&self, alloc: Global) -> Result<Self, AllocError>
        ensures { IfOk result (λ copy. copy ≡ record self.now { ready = false; capacity = copy.capacity }) }
    {
        let mut copy = Space::new(alloc);
        copy.mappings.extend_from_slice(&self.mappings)?;
        copy.gaps = gaps::copy(&self.gaps, self.mappings.len(), alloc)?;
        copy.entries = self.entries.copy(alloc)?;
        copy.places = places::copy(&self.places)?;
        Ok(copy)
    }
}

/// The translations of a space, in order of the virtual pages, seen as the list of those that are left.
#[derive(Drop)]
pub struct Translations<'a> {
    entries: Frames<'a, CHUNKS>,
}

impl<'a> Model for Translations<'a> {
    ghost use Rattle.std.specs.Prelude.{ℕ, List};

    ghost Value = { List (ℕ × ℕ) };

    ghost view = { λ it. it.entries };
}

impl<'a> Iterator for Translations<'a> {
    type Item = (Vpn, Frame);

    ghost next_gives = { YieldsFirst (λ entries. entries) };

    ghost remaining = { item_count (λ entries. entries) };

    fn next(&mut self) -> Option<(Vpn, Frame)> {
        let (number, frame) = self.entries.next()?;
        Some((Vpn::new(number), frame))
    }
}
