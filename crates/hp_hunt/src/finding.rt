//! The first run of a script that meets conditions.
ghost use Rattle.std.specs.Prelude.{◌≡◌, ◌≤◌, None, IfErr, IfOk, IfSome, MatchBool, length};
ghost use Rattle.hp_explore.specs.Schedule.{plan_of};
ghost use Rattle.hp_hunt.specs.Hunting.{IsFound, NoneMeets, RunMeets, RunMisses};

use crate::claims::{Batch, search_batch};
use crate::condition::Condition;
use crate::watching::Watches;
use hp_base::{Answer, Event, Op};
use hp_core::Outcome;
use hp_explore::{Chances, Plan, ScheduledRun};
use hp_text::{ReplayFault, Script, Trace};
use hp_workers::{FIRST_PART, Progress, next_part};
use std::alloc::{AllocError, Global};
use std::sync::atomic::{AtomicU64, Ordering};
use std::thread::Threads;

/// Which runs of a script are searched.
#[derive(Clone, Copy, Debug, PartialEq, Eq)]
pub struct Hunt {
    /// Run k goes by the generator that is seeded with this and k.
    pub seed: u64,
    /// So many runs, from run 0 on.
    pub limit: u32,
    pub chances: Chances,
}

/// A run that was found.
#[derive(Debug, Drop)]
pub struct Found {
    /// The run's number, from 0.
    pub run: u32,
    /// What it made.
    pub trace: Trace,
}

/// Explores one run, and keeps its events. Tells whether it meets all conditions.
pub(crate) fn explore_run(
    alloc: Global,
    script: &Script,
    plan: &Plan,
    seed: u64,
    run: u32,
    conditions: &[Condition],
    events: &mut Vec<Event>,
) -> Result<bool, AllocError>
    requires { plan.now ≡ plan_of script.now plan.now.deny plan.now.kill }
    ensures met { IfOk result (λ met. MatchBool met
        (RunMeets script.now seed plan.now.deny plan.now.kill conditions.now run events.new.items)
        (RunMisses script.now seed plan.now.deny plan.now.kill conditions.now run)) }
    ensures few { IfOk result (λ met. length events.new.items ≤ 1000000) }
{
    // The checker of borrows asks for a mention of the types that a turn may hold.
    let _none: (Option<Event>, Option<Op>, Option<Outcome>, Option<Answer>) = (
        None, None, None, None,
    );
    events.clear();
    let mut watches = Watches::new(alloc, conditions)?;
    let mut turns = ScheduledRun::begin(alloc, script, plan, seed, run)?;
    while let Some(turned) = turns.turn(plan)? {
        watches.see(&turned.event, &turned.outcome, turns.core())?;
        events.push(turned.event)?;
    }
    Ok(watches.are_met(turns.core()))
}

/// How many runs are handed to the workers at once, at most.
const MOST_PART: u32 = 16_384;

/// The first run of a script, among so many, that meets all conditions, as a trace. Run k goes by the generator that is seeded
/// with `hunt.seed + k`, wrapping. However many threads there are, it is the same. After some thousands of runs, fewer where they are
/// long, it tells how far it is. Nothing in it waits.
pub fn find(
    rt: &(impl Threads + Sync),
    alloc: Global,
    script: &Script,
    hunt: Hunt,
    conditions: &[Condition],
    progress: &mut impl Progress,
) -> Result<Option<Found>, ReplayFault>
    ensures found { IfOk result (λ result. IfSome result (IsFound script.now hunt conditions.now)) }
    ensures none { IfOk result (λ result. result ≡ None → NoneMeets script.now hunt conditions.now hunt.limit) }
    ensures memory { IfErr result (λ fault. fault ≡ ReplayFault.Memory) }
{
    let plan = &Plan::new(alloc, script, hunt.chances)?;
    let turns = AtomicU64::new(0);
    let (mut first, mut size) = (0, FIRST_PART);
    while first < hunt.limit {
        let count = (hunt.limit - first).min(size);
        let batch = Batch {
            script,
            plan,
            seed: hunt.seed,
            conditions,
            first,
            count,
        };
        if let Some(found) = search_batch(rt, alloc, batch, &turns)? {
            return Ok(Some(found));
        }
        let made = turns.swap(0, Ordering::SeqCst);
        size = next_part(size, MOST_PART, script.config.tasks, made);
        first += count;
        progress.explored(first, hunt.limit);
    }
    Ok(None)
}

/// The same search, by the caller alone: it starts no thread.
pub fn find_alone(
    alloc: Global,
    script: &Script,
    hunt: Hunt,
    conditions: &[Condition],
) -> Result<Option<Found>, ReplayFault>
    ensures found { IfOk result (λ result. IfSome result (IsFound script.now hunt conditions.now)) }
    ensures none { IfOk result (λ result. result ≡ None → NoneMeets script.now hunt conditions.now hunt.limit) }
    ensures memory { IfErr result (λ fault. fault ≡ ReplayFault.Memory) }
{
    let plan = &Plan::new(alloc, script, hunt.chances)?;
    let mut events = Vec::new(alloc);
    for run in 0..hunt.limit {
        if explore_run(alloc, script, plan, hunt.seed, run, conditions, &mut events)? {
            let config = script.config;
            return Ok(Some(Found {
                run,
                trace: Trace { config, events },
            }));
        }
    }
    Ok(None)
}
