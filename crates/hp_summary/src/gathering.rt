//! The facts of many runs, gathered by several workers, and counted in order.
ghost use Rattle.std.specs.Prelude.{◌≡◌, ◌+◌, ◌<◌, IfOk, OnOk};
ghost use Rattle.hp_explore.specs.Schedule.{plan_of};
ghost use Rattle.hp_summary.specs.Facts.{IsFactsOf};
ghost use Rattle.hp_summary.specs.Gathering.{AreCounted, AreFactsAt, AreRuns};

use crate::facts::RunFacts;
use crate::noting::Notes;
use crate::tally::Tally;
use hp_base::{Answer, Event, Op};
use hp_core::Outcome;
use hp_explore::{Chances, Plan, ScheduledRun};
use hp_text::Script;
use hp_watch::EndedCall;
use hp_workers::{Work, all_made};
use std::alloc::{AllocError, Global};
use std::thread::Threads;

/// Which runs of a script are summarized.
#[derive(Clone, Copy, Debug, PartialEq, Eq)]
pub struct Survey {
    /// Run k goes by the generator that is seeded with this and k.
    pub seed: u64,
    /// So many runs, from run 0 on.
    pub runs: u32,
    pub chances: Chances,
}

/// Runs that are explored at once.
#[derive(Clone, Copy, Drop)]
pub(crate) struct Batch<'a> {
    pub(crate) script: &'a Script,
    pub(crate) plan: &'a Plan,
    pub(crate) seed: u64,
    pub(crate) first: u32,
    pub(crate) count: u32,
}

/// The facts of one run.
fn facts_of_run(
    alloc: Global,
    script: &Script,
    plan: &Plan,
    seed: u64,
    run: u32,
) -> Result<RunFacts, AllocError>
    requires { plan.now ≡ plan_of script.now plan.now.deny plan.now.kill }
    ensures { IfOk result (λ facts. IsFactsOf script.now seed plan.now.deny plan.now.kill run facts) }
{
    // The checker of borrows asks for a mention of the types that a turn may hold.
    let _none: (Option<Event>, Option<Op>, Option<Outcome>, Option<Answer>) = (
        None, None, None, None,
    );
    let mut notes = Notes::new(alloc, script.config.tasks)?;
    let mut turns = ScheduledRun::begin(alloc, script, plan, seed, run)?;
    while let Some(turned) = turns.turn(plan)? {
        notes.see(&turned.event, &turned.outcome, turns.core())?;
    }
    let line = turns.line(plan, run);
    let Notes {
        mut ended,
        held,
        met,
        ..
    } = notes;
    ended.sort_by_key(|call: &EndedCall| call.task.number())?;
    Ok(RunFacts {
        line,
        ended,
        held,
        met,
    })
}

impl Work for Batch<'_> {
    type Made = RunFacts;

    ghost can_make = { λ batch place. AreRuns batch × (place < batch.count) };

    ghost is_right = { λ batch place facts. AreFactsAt batch (batch.first + place) facts };

    /// The facts of the run at this place.
    fn make(&self, alloc: Global, place: u32) -> Result<RunFacts, AllocError> {
        facts_of_run(alloc, self.script, self.plan, self.seed, self.first + place)
    }

    /// All runs are counted.
    fn is_last(&self, _facts: &RunFacts) -> bool {
        false
    }
}

/// Counts these runs, in order, whoever explored them.
pub(crate) fn count_batch(
    rt: &(impl Threads + Sync),
    alloc: Global,
    batch: Batch,
    tally: &mut Tally,
) -> Result<(), AllocError>
    requires runs { AreRuns batch }
    requires counted { AreCounted batch batch.first tally.old }
    ensures { OnOk result (AreCounted batch.entry (batch.entry.first + batch.entry.count) tally.new) }
{
    let gathered = all_made(rt, alloc, &batch, batch.count)?;
    for place in 0..batch.count {
        tally.add(alloc, &gathered[place as usize])?;
    }
    Ok(())
}
