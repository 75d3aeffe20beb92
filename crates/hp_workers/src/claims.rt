//! Places that are claimed by several workers. Some take longer than others, and some processors are slower: so each worker claims a place,
//! and the next when it is done, until all are claimed or one of them made the last that is wanted.
//!
//! A counter that all workers share has what nobody has claimed yet. It is a mere hint: no clause knows what it has. What is made is right
//! since each claimed place has its own, and what nobody made is made when it is asked for.
ghost use Rattle.std.specs.Prelude.{◌≡◌, None, Ok, IfOk, IfSome, All, length, replicate};
ghost use Rattle.std.specs.List.{AllZip, range_with_len};
ghost use Rattle.hp_workers.specs.Claims.{AreClaimed, AreOwn, CanMakeAll, IsClaimed};

use crate::work::Work;
use rayon::current_num_threads;
use rayon::prelude::*;
use std::alloc::{AllocError, Global};
use std::sync::atomic::{AtomicU32, Ordering};
use std::thread::Threads;

/// A place that was claimed, and what was made there.
#[derive(Drop)]
struct Claimed<M> {
    place: u32,
    made: M,
}

/// The places that one worker claims, one after the other, with what it makes there.
fn claim_places<W: Work>(
    alloc: Global,
    work: &W,
    places: u32,
    next: &AtomicU32,
) -> Result<Vec<Claimed<W::Made>>, AllocError>
    requires each { CanMakeAll (W.can_make work.now) places }
    ensures { IfOk result (λ claimed. AreClaimed (W.is_right work.now) places claimed.items) }
{
    let mut claimed = Vec::new(alloc);
    for _ in 0..places {
        let place = next.fetch_add(1, Ordering::SeqCst);
        if place >= places {
            return Ok(claimed);
        }
        let made = work.make(alloc, place)?;
        if work.is_last(&made) {
            next.store(places, Ordering::SeqCst);
        }
        claimed.push(Claimed { place, made })?;
    }
    Ok(claimed)
}

/// What each worker claims: there is one for each processor, but no more than places.
fn claim_all<W: Work + Sync>(
    rt: &(impl Threads + Sync),
    alloc: Global,
    work: &W,
    places: u32,
) -> Result<Vec<Vec<Claimed<W::Made>>>, AllocError>
    requires each { CanMakeAll (W.can_make work.now) places }
    ensures { IfOk result (λ found. All (λ claimed. AreClaimed (W.is_right work.now) places claimed.items) found.items) }
{
    let next = &AtomicU32::new(0);
    let workers = current_num_threads(rt).min(places as usize);
    let found: Result<Vec<Vec<Claimed<W::Made>>>, AllocError> = (0..workers)
        .into_par_iter()
        .with_min_len(1)
        .map(
            |_worker: usize| -> Result<Vec<Claimed<W::Made>>, AllocError>
                requires each { CanMakeAll (W.can_make work.now) places }
                ensures { IfOk result (λ claimed. AreClaimed (W.is_right work.entry.now) places claimed.items) }
            { claim_places(alloc, work, places, next) },
        )
        .collect(rt, alloc)?;
    found
}

/// So many slots, with nothing in them.
fn empty_slots<M: Drop>(alloc: Global, places: u32) -> Result<Vec<Option<M>>, AllocError>
    ensures { IfOk result (λ slots. slots.items ≡ replicate places None) }
{
    let mut slots = Vec::new(alloc);
    for _ in 0..places {
        slots.push(None)?;
    }
    Ok(slots)
}

/// Puts what was made at a place into its slot.
fn fill_slot<W: Work>(work: &W, slots: &mut Vec<Option<W::Made>>, claimed: Claimed<W::Made>)
    requires own { AreOwn (W.is_right work.now) slots.old.items }
    requires claimed { IsClaimed (W.is_right work.now) (length slots.old.items) claimed }
    ensures long { length slots.new.items ≡ length slots.old.items }
    ensures own { AreOwn (W.is_right work.now) slots.new.items }
{
    let Claimed { place, made } = claimed;
    slots[place as usize] = Some(made);
}

/// Puts what was made at each place into its slot.
fn fill_slots<W: Work>(
    work: &W,
    slots: &mut Vec<Option<W::Made>>,
    mut claimed: Vec<Claimed<W::Made>>,
)
    requires own { AreOwn (W.is_right work.now) slots.old.items }
    requires claimed { AreClaimed (W.is_right work.now) (length slots.old.items) claimed.items }
    ensures long { length slots.new.items ≡ length slots.old.items }
    ensures own { AreOwn (W.is_right work.now) slots.new.items }
{
    while let Some(one) = claimed.pop() {
        fill_slot(work, slots, one);
    }
}

/// A slot for each of so many places: with what a worker made there, or empty where nobody claimed it.
pub fn side_by_side<W: Work + Sync>(
    rt: &(impl Threads + Sync),
    alloc: Global,
    work: &W,
    places: u32,
) -> Result<Vec<Option<W::Made>>, AllocError>
    requires each { CanMakeAll (W.can_make work.now) places }
    ensures long { IfOk result (λ slots. length slots.items ≡ places) }
    ensures own { IfOk result (λ slots. AreOwn (W.is_right work.now) slots.items) }
{
    let mut found = claim_all(rt, alloc, work, places)?;
    let mut slots = empty_slots(alloc, places)?;
    while let Some(claimed) = found.pop() {
        fill_slots(work, &mut slots, claimed);
    }
    Ok(slots)
}

/// What stands in the slot of this place, or else is made here.
pub fn found_or_made<W: Work>(
    alloc: Global,
    work: &W,
    place: u32,
    slot: Option<W::Made>,
) -> Result<W::Made, AllocError>
    requires there { W.can_make work.now place }
    requires own { IfSome slot (λ made. W.is_right work.now place made) }
    ensures right { IfOk result (λ made. W.is_right work.now place made) }
    ensures found { IfSome slot (λ made. result ≡ Ok made) }
{
    match slot {
        Some(made) => Ok(made),
        None => work.make(alloc, place),
    }
}

/// What is made at so many places, in order.
pub fn all_made<W: Work + Sync>(
    rt: &(impl Threads + Sync),
    alloc: Global,
    work: &W,
    places: u32,
) -> Result<Vec<W::Made>, AllocError>
    requires each { CanMakeAll (W.can_make work.now) places }
    ensures { IfOk result (λ all. AllZip (W.is_right work.now) (range_with_len 0 places) all.items) }
{
    let mut slots = side_by_side(rt, alloc, work, places)?;
    let mut all = Vec::with_capacity(alloc, places as usize)?;
    for place in 0..places {
        let slot = slots[place as usize].take();
        all.push(found_or_made(alloc, work, place, slot)?)?;
    }
    Ok(all)
}
