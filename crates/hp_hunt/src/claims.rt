//! Runs that are searched by several workers, until one of them meets the conditions.
//!
//! A counter that all workers share tells how many turns they made. It is a mere hint: no clause knows what it tells. A run that meets all
//! conditions needn't be the first that does: the first is looked for at the end, in order.
ghost use Rattle.std.specs.Prelude.{◌≡◌, ◌<◌, None, IfOk, IfSome, is_some};
ghost use Rattle.hp_hunt.specs.Claims.{AllMiss, IsFirstOf, IsBatch, TellsOf};

use crate::condition::Condition;
use crate::finding::{Found, explore_run};
use hp_base::{Event, Op};
use hp_explore::Plan;
use hp_text::{Script, Trace};
use hp_workers::{Work, found_or_made, side_by_side};
use std::alloc::{AllocError, Global};
use std::sync::atomic::{AtomicU64, Ordering};
use std::thread::Threads;

/// Which runs are searched, and for what.
#[derive(Clone, Copy, Drop)]
pub(crate) struct Batch<'a> {
    pub(crate) script: &'a Script,
    pub(crate) plan: &'a Plan,
    pub(crate) seed: u64,
    pub(crate) conditions: &'a [Condition],
    pub(crate) first: u32,
    pub(crate) count: u32,
}

/// Room for the events of a run of so many turns is taken at once. A longer one takes more as it is made.
const USUAL_TURNS: usize = 256;

/// The search of a batch, and a counter of the turns that are made.
#[derive(Clone, Copy, Drop)]
struct Search<'a> {
    batch: Batch<'a>,
    turns: &'a AtomicU64,
}

impl Work for Search<'_> {
    type Made = Option<Vec<Event>>;

    ghost can_make = { λ search place. IsBatch search.batch × (place < search.batch.count) };

    ghost is_right = { λ search place events. TellsOf search.batch place events };

    /// The events of the run at this place, where it meets all conditions.
    fn make(&self, alloc: Global, place: u32) -> Result<Option<Vec<Event>>, AllocError> {
        let batch = self.batch;
        let mut events = Vec::with_capacity(alloc, USUAL_TURNS)?;
        let met = explore_run(
            alloc,
            batch.script,
            batch.plan,
            batch.seed,
            batch.first + place,
            batch.conditions,
            &mut events,
        )?;
        self.turns.fetch_add(events.len() as u64, Ordering::SeqCst);
        Ok(if met { Some(events) } else { None })
    }

    /// No run behind one that meets them is the first.
    fn is_last(&self, events: &Option<Vec<Event>>) -> bool
        ensures { result ≡ is_some events.now }
    {
        events.is_some()
    }
}

/// The first of these runs that meets all conditions, as a trace. The turns that are made are added to `turns`.
pub(crate) fn search_batch(
    rt: &(impl Threads + Sync),
    alloc: Global,
    batch: Batch,
    turns: &AtomicU64,
) -> Result<Option<Found>, AllocError>
    requires { IsBatch batch }
    ensures found { IfOk result (λ result. IfSome result (IsFirstOf batch.entry)) }
    ensures none { IfOk result (λ result. result ≡ None → AllMiss batch.entry) }
{
    let search = Search { batch, turns };
    let mut slots = side_by_side(rt, alloc, &search, batch.count)?;
    for place in 0..batch.count {
        let slot = slots[place as usize].take();
        if let Some(events) = found_or_made(alloc, &search, place, slot)? {
            let run = batch.first + place;
            let trace = Trace {
                config: batch.script.config,
                events,
            };
            return Ok(Some(Found { run, trace }));
        }
    }
    Ok(None)
}
