//! The two phases of a change: begun by `change`, and ended by `commit` or `abort`.
ghost use Rattle.std.specs.Prelude.{◌≡◌, ◌+◌, ◌-◌, ◌<◌, ◌≤◌, ◌↔◌, max, false, IsTrue, IfOk, OnOk, OnErr, IsErrOf, if◌then◌else◌};
ghost use Rattle.hp_base.specs.Indices.{missing, add_range, touches};
ghost use Rattle.hp_region.specs.Regions.{is_member};

use super::RegionMap;
use crate::fault::ChangeFault;
use crate::walk;
use hp_base::{Index, LIMIT};
use std::marker::Model;

/// A change that was begun and neither committed nor aborted. Only `RegionMap::change` makes one, and
/// it is neither `Copy` nor `Clone`: the call that ends it spends it.
#[derive(Debug, Drop)]
pub struct Pending {
    from: Index,
    to: Index,
    missing: u32,
}

impl Model for Pending {
    ghost use Rattle.std.specs.Prelude.{◌<◌, ◌≤◌, ◌-◌};
    ghost use Rattle.hp_base.specs.declared.limits.TheConstants.{LIMIT};
    ghost use Rattle.hp_region.specs.Change.{Change};

    ghost Value = { Change };

    ghost view = { λ p. record { from = p.from; to = p.to; missing = p.missing } };

    ghost invariant = { λ p. record {
      in_order : p.from < p.to;
      in_limit : p.to ≤ LIMIT;
      at_most : p.missing ≤ p.to - p.from;
    } };
}

impl Pending {
    /// The first index of the range that is to be added.
    pub fn from(&self) -> Index
        ensures value { result ≡ self.now.from }
        ensures in_order { result < self.now.to }
    {
        self.from
    }

    /// The end of the range.
    pub fn to(&self) -> Index
        ensures value { result ≡ self.now.to }
        ensures in_limit { result ≤ LIMIT }
    {
        self.to
    }

    /// How many indices of the range were missing when the change was begun.
    pub fn missing(&self) -> u32
        ensures value { result ≡ self.now.missing }
        ensures at_most { result ≤ self.now.to - self.now.from }
    {
        self.missing
    }
}

impl RegionMap {
    /// Begins to add [from, to): tells how many of its indices are missing, and prepares capacity for one
    /// region more. Growth is wanted only where all capacity is promised to other changes (Linux:
    /// `region_chg`).
    pub fn change(&mut self, grant: bool, from: Index, to: Index) -> Result<Pending, ChangeFault>
        requires in_order { from < to }
        requires in_limit { to ≤ LIMIT }

        // A change is in progress, with capacity of its own. The set stays.
        ensures from { IfOk result (λ change. change.from ≡ from) }
        ensures to { IfOk result (λ change. change.to ≡ to) }
        ensures missing { IfOk result (λ change. change.missing ≡ missing (is_member self.old.regions) from to) }
        ensures regions { OnOk result (self.new.regions ≡ self.old.regions) }
        ensures pending { OnOk result (self.new.pending ≡ self.old.pending + 1) }
        ensures spare { OnOk result (self.new.spare ≡ max self.old.spare (self.old.pending + 1)) }

        ensures denied { IsErrOf result ChangeFault.Denied ↔ ((self.old.spare ≡ self.old.pending) × (grant ≡ false)) }
        ensures memory { IsErrOf result ChangeFault.Memory → (self.old.spare ≡ self.old.pending) × IsTrue grant }
        ensures err { OnErr result (self.new ≡ self.old) }

        // Memory is taken only where that is granted and all capacity is promised.
        ensures capacity { ¬ (IsTrue grant × (self.old.spare ≡ self.old.pending)) → self.new.capacity ≡ self.old.capacity }
    {
        let missing = self.missing(from, to);
        if self.spare == self.pending {
            if !grant {
                return Err(ChangeFault::Denied);
            }
            if self.regions.reserve(self.spare + 1).is_err() {
                return Err(ChangeFault::Memory);
            }
            self.spare += 1;
        }
        self.pending += 1;
        Ok(Pending { from, to, missing })
    }

    /// Ends a change by adding its range, and tells how many indices were added. It takes no memory:
    /// the capacity that `change` prepared is used where no region overlaps or touches the range (Linux:
    /// `region_add`).
    pub fn commit(&mut self, change: Pending) -> u32
        requires { 0 < self.old.pending }
        ensures in_order { change.from < change.to }
        ensures in_limit { change.to ≤ LIMIT }
        ensures added { result ≡ missing (is_member self.old.regions) change.from change.to }
        ensures members { is_member self.new.regions ≡ add_range (is_member self.old.regions) change.from change.to }
        ensures pending { self.new.pending ≡ self.old.pending - 1 }
        ensures spare { self.new.spare ≡ (if touches (is_member self.old.regions) change.from change.to then self.old.spare
            else self.old.spare - 1) }
        ensures capacity { self.new.capacity ≡ self.old.capacity }
    {
        let Pending { from, to, .. } = change;
        let added = walk::missing(&self.regions, from, to);
        let alone = walk::add(&mut self.regions, from, to);
        self.bits.add_range(from, to);
        self.count += added;
        self.spare -= usize::from(alone);
        self.pending -= 1;
        added
    }

    /// Ends a change and leaves the set as it is. It takes no memory (Linux: `region_abort`).
    pub fn abort(&mut self, change: Pending)
        requires { 0 < self.old.pending }
        ensures regions { self.new.regions ≡ self.old.regions }
        ensures pending { self.new.pending ≡ self.old.pending - 1 }
        ensures spare { self.new.spare ≡ self.old.spare }
        ensures capacity { self.new.capacity ≡ self.old.capacity }
    {
        drop(change);
        self.pending -= 1;
    }
}
