//! The map, and what reads it.
ghost use Rattle.std.specs.Prelude.{◌≡◌, ℕ, Bool, List, ◌+◌, ◌^◌, ◌<◌, ◌≤◌, [], length, nat_le, slice_get, count_by, IsTrue, IfOk};
ghost use Rattle.std.specs.Option.{option_map};
ghost use Rattle.hp_base.specs.Indices.{count_below, missing, region_count, HasAllWithin};
ghost use Rattle.hp_region.specs.Regions.{is_member, IsApartFrom};

use crate::bits::Bits;
use crate::region::Region;
use crate::walk;
use hp_base::{Index, LIMIT};
use std::alloc::{AllocError, Global};
use std::marker::Model;

pub mod change;
mod remove;

/// The indices of a file that have a reservation, as a set that is changed in two phases: `change`
/// tells what is missing and prepares capacity, and `commit` adds the range, which takes no memory then,
/// or `abort` gives the change up. Calls on regions find the first by binary search. The set is kept a
/// second time, a bit for each index: so what is missing is counted 64 indices at once.
#[derive(Drop)]
pub struct RegionMap {
    regions: Vec<Region>,
    bits: Bits,
    count: u32,
    pending: usize,
    spare: usize,
}

impl Model for RegionMap {
    ghost use Rattle.std.specs.Prelude.{◌≡◌, ◌+◌, ◌≤◌, vec_len, vec_capacity};
    ghost use Rattle.hp_base.specs.Indices.{count_below};
    ghost use Rattle.hp_base.specs.declared.limits.TheConstants.{LIMIT};
    ghost use Rattle.hp_region.specs.Bits.{has_bit};
    ghost use Rattle.hp_region.specs.Regions.{is_member, IsApartFrom};
    ghost use Rattle.hp_region.specs.Reserved.{Reserved};

    ghost Value = { Reserved };

    ghost view = { λ m. record { regions = m.regions.items; pending = m.pending; spare = m.spare; capacity = vec_capacity m.regions } };

    ghost invariant = { λ m. record {
      apart : IsApartFrom 0 m.regions.items;
      marked : has_bit m.bits ≡ is_member m.regions.items;
      counted : m.count ≡ count_below (is_member m.regions.items) LIMIT;
      covered : m.pending ≤ m.spare;
      capacity : vec_len m.regions + m.spare ≤ vec_capacity m.regions;
    } };
}

impl RegionMap {
    /// The empty map.
    pub fn new(alloc: Global) -> Self
        ensures regions { result.regions ≡ [] }
        ensures pending { result.pending ≡ 0 }
        ensures spare { result.spare ≡ 0 }
        ensures capacity { result.capacity ≡ 0 }
    {
        RegionMap {
            regions: Vec::new(alloc),
            bits: Bits::new(),
            count: 0,
            pending: 0,
            spare: 0,
        }
    }

    /// The same set and the same prepared capacity in a map of its own, for which memory is taken. It is for a running
    /// pool whose journal is cut: the pool keeps the core of its last cut, to compare histories from there on. No
    /// change may be in progress, since its token could end it in only one of the two maps.
    pub fn copy(&self, alloc: Global) -> Result<RegionMap, AllocError>
        requires { self.now.pending ≡ 0 }
        ensures { IfOk result (λ copy. copy ≡ record self.now { capacity = copy.capacity }) }
    {
        let mut regions = Vec::with_capacity(alloc, self.regions.len() + self.spare)?;
        regions.extend_from_slice(&self.regions)?;
        Ok(RegionMap {
            regions,
            bits: self.bits.copy(),
            count: self.count,
            pending: self.pending,
            spare: self.spare,
        })
    }

    /// How many indices of [from, to) are not in the set. Their bits are looked at, 64 at once.
    pub fn missing(&self, from: Index, to: Index) -> u32
        requires in_order { from ≤ to }
        requires in_limit { to ≤ LIMIT }
        ensures counted { result ≡ missing (is_member self.now.regions) from to }

        // A set that has all that another has in the range misses no more of it.
        ensures no_more { (other : ℕ → Bool) → HasAllWithin other (is_member self.now.regions) from to → result ≤ missing other from to }
    {
        to.number() - from.number() - self.bits.count(from, to)
    }

    /// How many indices are in the set. The map keeps this number.
    pub fn count(&self) -> u32
        ensures counted { result ≡ count_below (is_member self.now.regions) LIMIT }
        ensures in_limit { result ≤ LIMIT }
    {
        self.count
    }

    /// Whether an index is in the set.
    pub fn contains(&self, index: Index) -> bool
        ensures member { result ≡ is_member self.now.regions index }
        ensures in_limit { IsTrue result → index < LIMIT }
    {
        self.bits.has(index)
    }

    /// How many regions end at or below an index, which is the place of the first that ends above
    /// it, and how many regions were looked at to tell.
    pub fn seek(&self, index: Index) -> (usize, u32)
        ensures ended { result.0 ≡ count_by (λ r. nat_le r.to index) self.now.regions }

        // The number of looks that is told: at most the binary digits of the number of regions.
        ensures looked { (digits : ℕ) → length self.now.regions < 2 ^ digits → result.1 ≤ digits }
    {
        walk::seek(&self.regions, index)
    }

    /// The number of changes in progress.
    pub fn pending(&self) -> usize
        ensures value { result ≡ self.now.pending }
        ensures covered { result ≤ self.now.spare }
    {
        self.pending
    }

    /// The number of regions for which there is capacity beside those in the map.
    pub fn spare(&self) -> usize
        ensures value { result ≡ self.now.spare }
        ensures covers { self.now.pending ≤ result }
    {
        self.spare
    }

    /// The number of regions: of the longest runs of indices that are in the set.
    pub fn regions(&self) -> usize
        ensures value { result ≡ length self.now.regions }
        ensures runs { result ≡ region_count LIMIT (is_member self.now.regions) }

        // They stand in order, and two of them neither overlap nor touch.
        ensures apart { IsApartFrom 0 self.now.regions }

        // So the set alone tells them.
        ensures told { (other : List Region) → IsApartFrom 0 other → is_member other ≡ is_member self.now.regions
            → other ≡ self.now.regions }
    {
        self.regions.len()
    }

    /// The region at a place in their order.
    pub fn region(&self, place: usize) -> Option<(Index, Index)>
        ensures { result ≡ option_map (λ r. (r.from, r.to)) (slice_get self.now.regions place) }
    {
        self.regions
            .get(place)
            .map(|region| (region.from, region.to))
    }
}
