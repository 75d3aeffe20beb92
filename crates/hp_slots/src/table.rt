//! The table of holders.
ghost use Rattle.std.specs.Prelude.{◌≡◌, ℕ, ◌<◌, ◌≤◌, ◌↔◌, IsOk, IfErr, OnOk, OnErr, IfOk, Some, None, List, Option, length};
ghost use Rattle.std.specs.Prelude.{replicate, slice_set, slice_index_or};
ghost use Rattle.hp_slots.specs.Holders.{holder_of, holder_in, slot_number};

use hp_base::{File, Index, Task};
use std::alloc::{AllocError, Global};
use std::marker::Model;
use thiserror::Error;

/// Why a place isn't taken.
#[derive(Clone, Copy, Debug, PartialEq, Eq, Error)]
pub enum Fault {
    /// That task holds it.
    #[error("task {0} holds the place")]
    Busy(Task),
}

impl Fault {
    /// Who holds the place.
    pub fn holder(self) -> Task
        ensures { result ≡ holder_in self }
    {
        match self {
            Fault::Busy(holder) => holder,
        }
    }
}

/// The place of a page's fault mutex among so many (Linux: `hugetlb_fault_mutex_hash`). Where their number is a power of
/// two, as Linux makes it, a mask takes the place of a division, for which a step would wait.
pub fn slot_number(slots: u32, file: File, index: Index) -> u32
    requires { 1 ≤ slots }
    ensures number { result ≡ slot_number slots file index }
    ensures within { result < slots }
{
    let places = u64::from(slots);
    let number = u64::from(index.number()) + 31 * u64::from(file.number());
    if places.is_power_of_two() {
        (number & (places - 1)) as u32
    } else {
        (number % places) as u32
    }
}

/// Who holds each of some places.
#[derive(Drop)]
pub struct SlotTable {
    holders: Vec<Option<Task>>,
}

impl Model for SlotTable {
    ghost use Rattle.std.specs.Prelude.{◌≡◌, ◌<◌, ◌^◌, ℕ, List, Option, length, vec_capacity};

    ghost Value = { List (Option ℕ) };

    ghost view = { λ table. table.holders.items };

    // There is capacity for the places and for no more: a table that took memory would have another number of places.
    ghost invariant = { λ table. record {
      some : 0 < length table.holders.items;
      few : length table.holders.items < 2 ^ 32;
      capacity : vec_capacity table.holders ≡ length table.holders.items;
    } };
}

impl SlotTable {
    /// A table of `places` places that nobody holds.
    pub fn new(alloc: Global, places: u32) -> Result<Self, AllocError>
        requires { 1 ≤ places }
        ensures { IfOk result (λ table. table ≡ replicate places None) }
    {
        let mut holders = Vec::with_capacity(alloc, places as usize)?;
        for _ in 0..places {
            holders.push_reserved(None);
        }
        Ok(SlotTable { holders })
    }

    /// Copies the holders into a table of its own, for which it takes memory. A running pool whose journal is cut keeps
    /// the core of its last cut so, to compare histories from there on.
    pub fn copy(&self, alloc: Global) -> Result<SlotTable, AllocError>
        ensures { IfOk result (λ copy. copy ≡ self.now) }
    {
        let mut copy = SlotTable::new(alloc, self.holders.len() as u32)?;
        copy.holders.copy_from_slice(&self.holders);
        Ok(copy)
    }

    /// The place of a page's fault mutex.
    pub fn slot_of(&self, file: File, index: Index) -> u32
        ensures number { result ≡ slot_number (length self.now) file index }
        ensures within { result < length self.now }
    {
        slot_number(self.holders.len() as u32, file, index)
    }

    /// Takes the place for the task, where nobody holds it.
    pub fn try_take(&mut self, place: u32, task: Task) -> Result<(), Fault>
        requires { place < length self.old }
        ensures taken { OnOk result (self.new ≡ slice_set self.old place (Some task)) }
        ensures vacant { IsOk result ↔ (holder_of self.old place ≡ None) }
        ensures busy { IfErr result (λ fault. holder_of self.old place ≡ Some (holder_in fault)) }
        ensures err { OnErr result (self.new ≡ self.old) }
    {
        if let Some(holder) = self.holders[place as usize] {
            return Err(Fault::Busy(holder));
        }
        self.holders[place as usize] = Some(task);
        Ok(())
    }

    /// Leaves the place, which the task holds.
    pub fn leave(&mut self, place: u32, task: Task)
        requires { holder_of self.old place ≡ Some task }
        ensures { self.new ≡ slice_set self.old place None }
    {
        let _ = task;
        self.holders[place as usize] = None;
    }

    /// Who holds the place; none where it isn't there.
    pub fn holder(&self, place: u32) -> Option<Task>
        ensures { result ≡ holder_of self.now place }
    {
        match self.holders.get(place as usize) {
            Some(&holder) => holder,
            None => None,
        }
    }
}
