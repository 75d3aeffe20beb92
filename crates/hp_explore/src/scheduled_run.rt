//! One run of a script, made turn by turn by whoever watches it.
ghost use Rattle.std.specs.Prelude.{◌≡◌, ◌+◌, ◌<◌, [], None, IfOk, IfSome, OnOk};
ghost use Rattle.hp_core.specs.Runs.{IsOpening, Row};
ghost use Rattle.hp_explore.specs.Schedule.{plan_of};
ghost use Rattle.hp_explore.specs.Explored.{EndsWell};
ghost use Rattle.hp_explore.specs.SoFar.{Ends, EndsAs, GoesOn, IsBetweenTurns, IsOver, IsSoFar};

use crate::exploring::TURN_LIMIT;
use crate::line::RunLine;
use crate::plan::Plan;
use crate::runnable_tasks::RunnableTasks;
use crate::turned::Turned;
use crate::walk::Walk;
use hp_base::{Answer, Op};
use hp_core::Core;
use hp_text::Script;
use std::alloc::{AllocError, Global};
use std::marker::Model;

/// A run between two turns, and the tasks that may take the next. Run k goes by the generator that is seeded with `seed + k`,
/// wrapping. It makes the turns of which `explore` tells, one whenever it is asked.
#[derive(Drop)]
pub struct ScheduledRun {
    walk: Walk,
    tasks: RunnableTasks,
}

impl Model for ScheduledRun {
    ghost use Rattle.std.specs.Coded.{codes, coded_ℕ};
    ghost use Rattle.std.specs.FinMap as map;
    ghost use Rattle.std.specs.Ordering.{nat_cmp};
    ghost use Rattle.hp_explore.specs.SoFar.{RunState};

    ghost Value = { RunState };

    ghost view = { λ r. record { world = r.walk; tasks = r.tasks } };

    ghost coded = { Prim.hlevel (codes, map.code {R = nat_cmp} coded_ℕ coded_ℕ) };
}

impl ScheduledRun {
    /// Run number `run` of the script, before its first turn. The plan is that of all runs.
    pub fn begin(
        alloc: Global,
        script: &Script,
        plan: &Plan,
        seed: u64,
        run: u32,
    ) -> Result<ScheduledRun, AllocError>
        requires { plan.now ≡ plan_of script.now plan.now.deny plan.now.kill }
        ensures so_far { IfOk result (λ r. IsSoFar script.now seed plan.now.deny plan.now.kill run [] r) }
        ensures between { IfOk result (λ r. IsBetweenTurns plan.now r) }
        ensures opening { IfOk result (λ r. IsOpening script.now.config r.world.core) }
        ensures turns { IfOk result (λ r. r.world.turns ≡ 0) }
    {
        let walk = Walk::new(alloc, script, seed.wrapping_add(u64::from(run)))?;
        let mut tasks = RunnableTasks::new();
        walk.list_runnable(plan, &mut tasks);
        Ok(ScheduledRun { walk, tasks })
    }

    /// One turn: its event, and what came of it. There is none where no task may take one, or a million turns were made: then the
    /// run is over.
    #[inline(always)]
    pub fn turn(&mut self, plan: &Plan) -> Result<Option<Turned>, AllocError>
        requires { IsBetweenTurns plan.now self.old }
        ensures row { IfOk result (λ turn. IfSome turn (λ turned.
            Row self.old.world.core turned.event turned.outcome self.new.world.core)) }
        ensures turns { IfOk result (λ turn. IfSome turn (λ turned. self.new.world.turns ≡ self.old.world.turns + 1)) }
        ensures few { IfOk result (λ turn. IfSome turn (λ turned. self.old.world.turns < 1000000)) }
        ensures goes_on { IfOk result (λ turn. IfSome turn (λ turned. GoesOn plan.now self.old turned.event self.new)) }
        ensures between { OnOk result (IsBetweenTurns plan.now self.new) }
        ensures ends { IfOk result (λ turn. turn ≡ None → Ends plan.now self.old) }
        ensures stays { IfOk result (λ turn. turn ≡ None → self.new.world ≡ self.old.world) }
        ensures over { IfOk result (λ turn. turn ≡ None → IsOver plan.now self.new) }
    {
        // The checker of borrows asks for a mention of the types that a turn may hold.
        let _none: (Option<Op>, Option<Answer>) = (None, None);
        if self.walk.turns() >= TURN_LIMIT {
            return Ok(None);
        }
        let turned = self.walk.turn(plan, &mut self.tasks)?;
        self.walk.is_clean();
        Ok(turned)
    }

    /// The line of run number `run`, which is over.
    pub fn line(&self, plan: &Plan, run: u32) -> RunLine
        requires between { IsBetweenTurns plan.now self.now }
        requires over { IsOver plan.now self.now }
        ensures line { EndsAs plan.now self.now run result }
        ensures ends { EndsWell result.finish }
    {
        let finish = self.walk.last_finish(plan, &self.tasks);
        self.walk.line(run, finish)
    }

    /// The core between the turns.
    #[inline(always)]
    pub fn core(&self) -> &Core
        ensures { result.now ≡ self.now.world.core }
    {
        self.walk.core()
    }
}
