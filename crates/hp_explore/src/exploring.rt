//! The line of one run, and the events of one.
ghost use Rattle.std.specs.Prelude.{◌≡◌, ◌≤◌, IfOk, length};
ghost use Rattle.hp_explore.specs.Schedule.{plan_of};
ghost use Rattle.hp_explore.specs.Explored.{EndsWell, IsExplored, IsLine};
ghost use Rattle.hp_explore.specs.declared.line.RunLine.{RunLine};

use crate::line::{Finish, RunLine};
use crate::plan::{Chances, Plan};
use crate::runnable_tasks::RunnableTasks;
use crate::walk::Walk;
use hp_audit::Finding;
use hp_base::{Answer, Event, Op};
use hp_core::Outcome;
use hp_text::Script;
use std::alloc::{AllocError, Global};

/// After so many turns a run is ended.
pub(crate) const TURN_LIMIT: u32 = 1_000_000;

/// Whether the audit of the core's picture is run on every turn. It passes, so the lines are the same.
#[derive(Clone, Copy, Debug, PartialEq, Eq)]
pub enum Audit {
    LeftOut,
    EachTurn,
}

/// What the audit of a turn finds, where it is asked for.
fn found_where(alloc: Global, walk: &Walk, audit: Audit) -> Result<Option<Finding>, AllocError>
    ensures { IfOk result (λ found. found ≡ None) }
{
    match audit {
        Audit::LeftOut => Ok(None),
        Audit::EachTurn => walk.audit(alloc),
    }
}

/// One run, to its line.
pub(crate) fn explore_one(
    alloc: Global,
    script: &Script,
    plan: &Plan,
    seed: u64,
    run: u32,
    audit: Audit,
) -> Result<RunLine, AllocError>
    requires { plan.now ≡ plan_of script.now plan.now.deny plan.now.kill }
    ensures line { IfOk result (λ line. IsLine script.now seed plan.now.deny plan.now.kill run line) }
    ensures ends { IfOk result (λ line. EndsWell line.finish) }
{
    // The checker of borrows asks for a mention of the types that a turn may hold.
    let _none: (Option<Event>, Option<Op>, Option<Outcome>, Option<Answer>) = (
        None, None, None, None,
    );
    let mut walk = Walk::new(alloc, script, seed.wrapping_add(u64::from(run)))?;
    let mut tasks = RunnableTasks::new();
    walk.list_runnable(plan, &mut tasks);
    for turn in 0..TURN_LIMIT {
        let turned = walk.turn(plan, &mut tasks)?;
        if turned.is_none() {
            return Ok(walk.line(run, walk.idle_finish(plan)));
        }
        walk.is_clean();
        if let Some(found) = found_where(alloc, &walk, audit)? {
            return Ok(walk.line(run, Finish::Found(found)));
        }
    }
    let finish = walk.last_finish(plan, &tasks);
    Ok(walk.line(run, finish))
}

/// The events of the run that is seeded so, to its end.
fn events_of(
    alloc: Global,
    script: &Script,
    plan: &Plan,
    seed: u64,
) -> Result<Vec<Event>, AllocError>
    requires { plan.now ≡ plan_of script.now plan.now.deny plan.now.kill }
    ensures line { IfOk result (λ events. (line : RunLine) × IsExplored script.now seed plan.now.deny plan.now.kill 0 events.items line) }
    ensures few { IfOk result (λ events. length events.items ≤ 1000000) }
{
    // The checker of borrows asks for a mention of the types that a turn may hold.
    let _none: (Option<Event>, Option<Op>, Option<Outcome>, Option<Answer>) = (
        None, None, None, None,
    );
    let mut walk = Walk::new(alloc, script, seed)?;
    let mut tasks = RunnableTasks::new();
    walk.list_runnable(plan, &mut tasks);
    let mut events = Vec::new(alloc);
    for made in 0..TURN_LIMIT {
        match walk.turn(plan, &mut tasks)? {
            Some(turned) => events.push(turned.event)?,
            None => return Ok(events),
        }
        walk.is_clean();
    }
    let _finish = walk.last_finish(plan, &tasks);
    Ok(events)
}

/// The events of run 0 of the script's runs that are seeded from `seed` on. Whoever replays them sees that run, to the
/// counts that its line tells.
pub(crate) fn first_run(
    alloc: Global,
    script: &Script,
    seed: u64,
    chances: Chances,
) -> Result<Vec<Event>, AllocError>
    ensures line { IfOk result (λ events. (line : RunLine) × IsExplored script.now seed chances.deny chances.kill 0 events.items line) }
    ensures few { IfOk result (λ events. length events.items ≤ 1000000) }
{
    let plan = Plan::new(alloc, script, chances)?;
    events_of(alloc, script, &plan, seed)
}
