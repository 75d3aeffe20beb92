//! What takes indices out of the set (Linux: `region_del`).
ghost use Rattle.std.specs.Prelude.{◌≡◌, ◌+◌, ◌-◌, ◌<◌, ◌≤◌, ◌↔◌, ◌&&◌, nat_lt, false, IsTrue, IfOk, OnOk, OnErr, IsErrOf};
ghost use Rattle.std.specs.Prelude.{vec_len, vec_capacity, if◌then◌else◌};
ghost use Rattle.hp_base.specs.Indices.{count_within, cut_tail, splits};
ghost use Rattle.hp_base.specs.Numbers.{put};
ghost use Rattle.hp_region.specs.Regions.{is_member};

use super::RegionMap;
use crate::fault::DelFault;
use crate::region::Region;
use crate::walk;
use hp_base::{Index, LIMIT};

impl RegionMap {
    /// Removes every index at or above `from`, and tells how many they were. It takes no memory.
    pub fn remove_tail(&mut self, from: Index) -> u32
        ensures removed { result ≡ count_within (is_member self.old.regions) from LIMIT }
        ensures members { is_member self.new.regions ≡ cut_tail (is_member self.old.regions) from }
        ensures pending { self.new.pending ≡ self.old.pending }
        ensures spare { self.new.spare ≡ self.old.spare }
        ensures capacity { self.new.capacity ≡ self.old.capacity }
    {
        let removed = walk::held(&self.regions, from, Index::new(LIMIT));
        walk::cut(&mut self.regions, from);
        self.bits.cut_tail(from);
        self.count -= removed;
        removed
    }

    /// Removes one index, and tells whether it was there by 1 or 0. A region that falls apart needs
    /// capacity for one region more: spare capacity that no change in progress needs, and else a growth.
    pub fn remove_one(&mut self, grant: bool, index: Index) -> Result<u32, DelFault>
        // The index alone leaves the set.
        ensures removed { IfOk result (λ n. n ≡ (if is_member self.old.regions index then 1 else 0)) }
        ensures members { OnOk result (is_member self.new.regions ≡ put (is_member self.old.regions) index false) }
        ensures pending { OnOk result (self.new.pending ≡ self.old.pending) }
        ensures spare { OnOk result
            (self.new.spare ≡ (if splits (is_member self.old.regions) index && nat_lt self.old.pending self.old.spare
            then self.old.spare - 1 else self.old.spare)) }

        ensures denied { IsErrOf result DelFault.Denied ↔
            (IsTrue (splits (is_member self.old.regions) index) × (self.old.spare ≡ self.old.pending) × (grant ≡ false)) }
        ensures memory { IsErrOf result DelFault.Memory
            → IsTrue (splits (is_member self.old.regions) index) × (self.old.spare ≡ self.old.pending) × IsTrue grant }
        ensures err { OnErr result (self.new ≡ self.old) }

        // Memory is taken only where that is granted, a region falls apart, and all capacity is promised.
        ensures capacity { ¬ (IsTrue grant × IsTrue (splits (is_member self.old.regions) index) × (self.old.spare ≡ self.old.pending))
            → self.new.capacity ≡ self.old.capacity }
    {
        let Some(at) = walk::find(&self.regions, index) else {
            return Ok(0);
        };
        if walk::is_split(&self.regions, at, index) {
            take_capacity(&mut self.regions, &mut self.spare, self.pending, grant)?;
        }
        walk::carve(&mut self.regions, at, index);
        self.bits.take(index);
        self.count -= 1;
        Ok(1)
    }
}

// Takes capacity for one region beside those in the map and those that changes in progress need.
fn take_capacity(
    regions: &mut Vec<Region>,
    spare: &mut usize,
    pending: usize,
    grant: bool,
) -> Result<(), DelFault>
    requires covered { pending ≤ spare.old }
    requires capacity { vec_len regions.old + spare.old ≤ vec_capacity regions.old }
    ensures items { regions.new.items ≡ regions.old.items }
    ensures len { vec_len regions.new ≡ vec_len regions.old }
    ensures capacity { vec_capacity regions.old ≤ vec_capacity regions.new }
    ensures enough { OnOk result (vec_len regions.new + spare.new < vec_capacity regions.new) }
    ensures spare { spare.new ≡ (if nat_lt pending spare.old then spare.old - 1 else spare.old) }
    ensures denied { IsErrOf result DelFault.Denied ↔ ((spare.old ≡ pending) × (grant ≡ false)) }
    ensures memory { IsErrOf result DelFault.Memory → (spare.old ≡ pending) × IsTrue grant }
    ensures err { OnErr result ((spare.old ≡ pending) × (vec_capacity regions.new ≡ vec_capacity regions.old)) }
    ensures kept { ¬ (IsTrue grant × (spare.old ≡ pending)) → vec_capacity regions.new ≡ vec_capacity regions.old }
{
    if *spare > pending {
        *spare -= 1;
        return Ok(());
    }
    if !grant {
        return Err(DelFault::Denied);
    }
    if regions.reserve(*spare + 1).is_err() {
        return Err(DelFault::Memory);
    }
    Ok(())
}
