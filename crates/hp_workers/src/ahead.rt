//! Places of which several workers make some ahead, before they are asked for in order.
ghost use Rattle.std.specs.Prelude.{◌<◌, IfOk, OnOk};
ghost use Rattle.hp_workers.specs.Claims.{AreOwn, CanMakeAll};

use crate::claims::{found_or_made, side_by_side};
use crate::work::Work;
use std::alloc::{AllocError, Global};
use std::thread::Threads;

/// Fewer places are soon done: to begin the threads takes as long.
const FEW: u32 = 64;

/// What workers make of so many places, if these are worth it.
pub fn made_ahead<W: Work + Sync>(
    rt: &(impl Threads + Sync),
    alloc: Global,
    work: &W,
    places: u32,
) -> Result<Vec<Option<W::Made>>, AllocError>
    requires each { CanMakeAll (W.can_make work.now) places }
    ensures own { IfOk result (λ slots. AreOwn (W.is_right work.now) slots.items) }
{
    if places < FEW {
        return Ok(Vec::new(alloc));
    }
    side_by_side(rt, alloc, work, places)
}

/// What was made ahead at a place, or else is made now.
pub fn take_or_make<W: Work>(
    alloc: Global,
    work: &W,
    slots: &mut Vec<Option<W::Made>>,
    place: u32,
) -> Result<W::Made, AllocError>
    requires there { W.can_make work.now place }
    requires own { AreOwn (W.is_right work.now) slots.old.items }
    ensures right { IfOk result (W.is_right work.now place) }
    ensures own { OnOk result (AreOwn (W.is_right work.now) slots.new.items) }
{
    let at = place as usize;
    if slots.len() <= at {
        return work.make(alloc, place);
    }
    let slot = slots[at].take();
    found_or_made(alloc, work, place, slot)
}
