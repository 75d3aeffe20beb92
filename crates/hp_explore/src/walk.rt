//! One run, turn by turn. A turn takes about a hundred nanoseconds, so what it calls is inlined: a call that isn't passes
//! what it answers through memory.
ghost use Rattle.std.specs.Prelude.{◌≡◌, ◌+◌, ◌-◌, ◌<◌, ◌≤◌, ◌^◌, true, false, [], None, Some, IfOk, IfSome, OnErr, OnOk};
ghost use Rattle.std.specs.Prelude.{◌⊎◌, ℕ, IsSome, All, filter, is_some, length, slice_index, slice_set};
ghost use Rattle.std.specs.List.{list_all};
ghost use Rattle.hp_machine.specs.State.{is_alive};
ghost use Rattle.hp_core.specs.Readers.{config_of, life_of, phase_of};
ghost use Rattle.hp_core.specs.Runs.{Row};
ghost use Rattle.hp_machine.specs.declared.outcome.Outcome.{Outcome};
ghost use Rattle.hp_laws.specs.Laws.{IsOf};
ghost use Rattle.hp_core.specs.Waiting.{WaitsFor};
ghost use Rattle.hp_explore.specs.Schedule.{IsPlan, IsStart, Turn, CanTurn, AreRunnable, choice_at, next_call, in_call};
ghost use Rattle.hp_explore.specs.Schedule.{ended, is_over, may_begin, next_needs};
ghost use Rattle.hp_core.specs.Passing.{task_may_leave};
ghost use Rattle.hp_explore.specs.CanNow.{can_now};
ghost use Rattle.hp_explore.specs.Explored.{EndsWell, IsClean, idle_finish, last_finish, line_of};

use crate::line::{Finish, RunLine};
use crate::plan::Plan;
use crate::runnable_tasks::RunnableTasks;
use crate::turned::Turned;
use hp_audit::{Finding, audit};
use hp_base::{Event, Op, Task};
use hp_core::{Answer, Core, Life, Outcome, Phase};
use hp_text::{Need, Script};
use hp_watch::{can_leave, may_pass, may_wait, no_calls, phase_after};
use rand_core::SeedableRng;
use rand_core::utils::NextWord;
use rand_pcg::Lcg64Xsh32;
use std::alloc::{AllocError, Global};
use std::marker::Model;

/// A run between two turns.
#[derive(Drop)]
pub struct Walk {
    core: Core,
    // where the call of each task stands, as the core would tell it
    phases: Vec<Option<Phase>>,
    made: Vec<usize>,
    rng: Lcg64Xsh32,
    turns: u32,
}

impl Model for Walk {
    ghost use Rattle.std.specs.Prelude.{◌≡◌, ◌≤◌, length};
    ghost use Rattle.std.specs.Coded.{codes, coded_ℕ};
    ghost use Rattle.std.specs.FinMap as map;
    ghost use Rattle.std.specs.Ordering.{nat_cmp};
    ghost use Rattle.hp_core.specs.Readers.{config_of};
    ghost use Rattle.hp_watch.specs.Phases.{ArePhases};
    ghost use Rattle.hp_explore.specs.Schedule.{World};

    ghost Value = { World };

    ghost view = { λ w. record { core = w.core; made = w.made.items; rng = w.rng; turns = w.turns } };

    ghost coded = { Prim.hlevel (codes, map.code {R = nat_cmp} coded_ℕ coded_ℕ) };

    ghost invariant = { λ w. record {
      few : length w.made.items ≤ 64;
      tasks : (config_of w.core).tasks ≡ length w.made.items;
      long : length w.phases.items ≡ length w.made.items;
      phases : ArePhases w.core w.phases.items;
    } };
}

impl Walk {
    /// Before the first turn, with the generator that is seeded so.
    pub fn new(alloc: Global, script: &Script, seed: u64) -> Result<Walk, AllocError>
        ensures { IfOk result (λ walk. IsStart script.now seed walk) }
    {
        let config = script.config;
        Ok(Walk {
            core: Core::new(alloc, config)?,
            phases: no_calls(alloc, config.tasks)?,
            made: vec![in alloc; 0usize; config.tasks as usize]?,
            rng: Lcg64Xsh32::seed_from_u64(seed),
            turns: 0,
        })
    }

    /// Where the task's call stands, if one is in flight.
    #[tactic(auto, unfolding(hp_watch::specs::Phases::ArePhases))]
    #[inline(always)]
    fn phase(&self, task: u32) -> Option<Phase>
        requires { (1 ≤ task) × (task ≤ length self.now.made) }
        ensures { result ≡ phase_of self.now.core task }
    {
        self.phases[task as usize - 1]
    }

    /// Whether the task has a call in flight.
    #[inline(always)]
    pub fn in_call(&self, task: u32) -> bool
        requires { (1 ≤ task) × (task ≤ length self.now.made) }
        ensures { result ≡ in_call self.now task }
    {
        self.phase(task).is_some()
    }

    /// Whether the next step of the task's call is blocked by nobody.
    #[inline(always)]
    fn is_free(&self, task: u32) -> bool
        requires { (1 ≤ task) × (task ≤ length self.now.made) }
        ensures free { result ≡ true → WaitsFor self.now.core task None }
        ensures held { result ≡ false → (holder : ℕ) × WaitsFor self.now.core task (Some holder) }
    {
        self.core.waits_for(Task::new(task)).is_none()
    }

    /// The call that the task makes next, if it has one left.
    #[inline(always)]
    pub fn next_call(&self, plan: &Plan, task: u32) -> Option<Op>
        requires { (1 ≤ task) × (task ≤ length self.now.made) }
        ensures call { result ≡ next_call plan.now self.now.made task }
        ensures more { IsSome result → slice_index self.now.made (task - 1) + 1 < 2 ^ 64 }
    {
        plan.call(task, self.made[task as usize - 1])
    }

    /// How many of its calls the task at this place has ended.
    fn ended(&self, place: u32) -> usize
        ensures { result ≡ ended self.now (place + 1) }
    {
        match self.made.get(place as usize) {
            Some(made) => made.saturating_sub(usize::from(self.in_call(place + 1))),
            None => 0,
        }
    }

    /// Whether that many calls have ended.
    fn is_over(&self, need: Need) -> bool
        ensures { result ≡ is_over self.now need }
    {
        self.ended(need.place) >= need.calls
    }

    /// Whether all is over that the call waits for that the task makes next.
    #[inline(always)]
    fn are_over(&self, plan: &Plan, task: u32) -> bool
        requires { (1 ≤ task) × (task ≤ length self.now.made) }
        ensures { result ≡ list_all (is_over self.now) (next_needs plan.now self.now.made task) }
    {
        let needs = plan.needs(task, self.made[task as usize - 1]);
        for need in needs {
            if !self.is_over(*need) {
                return false;
            }
        }
        true
    }

    /// Whether the task may begin a call.
    #[inline(always)]
    fn may_begin(&self, plan: &Plan, task: u32) -> bool
        requires { (1 ≤ task) × (task ≤ length self.now.made) }
        ensures { result ≡ may_begin plan.now self.now task }
    {
        let has_next = self.next_call(plan, task).is_some();
        if !plan.has_waits() {
            return has_next;
        }
        has_next && self.are_over(plan, task)
    }

    /// Whether the task may take a turn.
    #[inline(always)]
    pub fn can_turn(&self, plan: &Plan, task: u32) -> bool
        requires { (1 ≤ task) × (task ≤ length self.now.made) }
        ensures can { result ≡ true → CanTurn plan.now self.now task }
        ensures cannot { result ≡ false → ¬ CanTurn plan.now self.now task }
    {
        match self.phase(task) {
            None => self.may_begin(plan, task),
            Some(at) => !may_wait(at) || self.is_free(task),
        }
    }

    /// Lists the tasks that may take a turn, in ascending order.
    pub(crate) fn list_runnable(&self, plan: &Plan, tasks: &mut RunnableTasks)
        ensures tasks { AreRunnable plan.now self.now tasks.new }
        ensures in_range { All (λ t. (1 ≤ t) × (t ≤ length self.now.made)) tasks.new }
    {
        tasks.clear();
        for place in 0..self.made.len() as u32 {
            let can = self.can_turn(plan, place + 1);
            tasks.push_if(place + 1, can);
        }
    }

    /// Strikes the tasks off the list that can't take a turn now.
    fn strike(&self, plan: &Plan, tasks: &mut RunnableTasks)
        requires { All (λ t. (1 ≤ t) × (t ≤ length self.now.made)) tasks.old }
        ensures { tasks.new ≡ filter (can_now plan.now self.now) tasks.old }
    {
        let before = tasks.copy();
        tasks.clear();
        for place in 0..before.len() {
            let task = before.at(place);
            let can = self.can_turn(plan, task);
            tasks.push_if(task, can);
        }
    }

    /// What a turn of the task does.
    #[inline(always)]
    fn choose(&mut self, plan: &Plan, task: u32) -> Event
        requires { (1 ≤ task) × (task ≤ length self.old.made) }
        ensures event { result ≡ (choice_at plan.now self.old task self.old.rng).event }
        ensures left { self.new ≡ record self.old {
          made = (choice_at plan.now self.old task self.old.rng).made;
          rng = (choice_at plan.now self.old task self.old.rng).rng;
        } }
    {
        let kill = plan.chances.kill;
        let killed = kill != 0 && self.rng.next_word() % 1000 < kill;
        if killed && self.is_alive(task) {
            return Event::Kill(Task::new(task));
        }
        if !self.in_call(task) {
            if let Some(op) = self.next_call(plan, task) {
                self.count_begun(task);
                return Event::Begin(Task::new(task), op);
            }
        }
        let granted = self.rng.next_word() % 1000 >= plan.chances.deny;
        Event::Step(Task::new(task), granted)
    }

    /// One call more of the task's is begun.
    #[inline(always)]
    pub fn count_begun(&mut self, task: u32)
        requires task { (1 ≤ task) × (task ≤ length self.old.made) }
        requires fits { slice_index self.old.made (task - 1) + 1 < 2 ^ 64 }
        ensures { self.new ≡ record self.old { made = slice_set self.old.made (task - 1) (slice_index self.old.made (task - 1) + 1) } }
    {
        self.made[task as usize - 1] += 1;
    }

    /// Whether the task is alive.
    #[inline(always)]
    pub fn is_alive(&self, task: u32) -> bool
        requires { (1 ≤ task) × (task ≤ length self.now.made) }
        ensures { result ≡ is_alive (life_of self.now.core task) }
    {
        match self.core.life(Task::new(task)) {
            Life::Alive => true,
            Life::Killed | Life::Dead => false,
        }
    }

    /// Whether a turn of the task, whose call stood there before it, may let others go on: it may leave a slot or a lock, or
    /// end a call for which others wait.
    #[inline(always)]
    fn may_release(&self, plan: &Plan, at: Option<Phase>, task: u32) -> bool
        requires { (1 ≤ task) × (task ≤ length self.now.made) }
        ensures keeps { result ≡ false → task_may_leave at ≡ false }
        ensures goes_on { result ≡ false → (plan.now.needs ≡ []) ⊎ ((is_some at ≡ true) × (in_call self.now task ≡ true)) }
    {
        can_leave(at) || (plan.has_waits() && (at.is_none() || !self.in_call(task)))
    }

    /// One turn, of one of these tasks. Where it may let others go on, the tasks are listed anew. Where its call may take a slot
    /// or a lock, or where its task can't take another turn, some of these may be held up: they are struck off. Else the same
    /// can take a turn as before.
    #[inline(always)]
    fn turn_of(&mut self, plan: &Plan, tasks: &mut RunnableTasks) -> Result<Turned, AllocError>
        requires runnable { AreRunnable plan.now self.old tasks.old }
        requires in_range { All (λ t. (1 ≤ t) × (t ≤ length self.old.made)) tasks.old }
        requires some { 0 < length tasks.old }
        requires turns { self.old.turns < 1000000 }
        ensures turn { IfOk result (λ turned. Turn plan.now self.old turned.event self.new) }
        ensures row { IfOk result (λ turned. Row self.old.core turned.event turned.outcome self.new.core) }
        ensures runnable { OnOk result (AreRunnable plan.now self.new tasks.new) }
        ensures in_range { OnOk result (All (λ t. (1 ≤ t) × (t ≤ length self.new.made)) tasks.new) }
    {
        let place = plan.remainders.of(self.rng.next_word(), tasks.len());
        let task = tasks.at(place);
        let at = self.phase(task);
        let event = self.choose(plan, task);
        self.core.is_reached();
        let outcome = self.make(&event, task)?;
        if self.may_release(plan, at, task) {
            self.list_runnable(plan, tasks);
        } else if may_pass(at) || !self.can_turn(plan, task) {
            self.strike(plan, tasks);
        }
        Ok(Turned { event, outcome })
    }

    /// Makes an event, which is one of this task alone. It isn't counted as a turn. Without memory nothing changes.
    #[inline(always)]
    pub fn apply(&mut self, event: &Event, task: u32) -> Result<Outcome, AllocError>
        requires task { (1 ≤ task) × (task ≤ length self.old.made) }
        requires alone { (u : ℕ) → IsOf u event.now → u ≡ task }
        ensures row { IfOk result (λ outcome. Row self.old.core event.now outcome self.new.core) }
        ensures stays { OnOk result (self.new ≡ record self.old { core = self.new.core }) }
        ensures err { OnErr result (self.new ≡ self.old) }
    {
        // The checker of borrows asks for a mention of the type that an outcome may hold.
        let _none: Option<Answer> = None;
        self.core.is_reached();
        let outcome = self.core.step(*event)?;
        self.phases[task as usize - 1] = phase_after(&self.core, Task::new(task), &outcome);
        Ok(outcome)
    }

    /// Makes the turn's event, which is one of this task alone.
    #[inline(always)]
    fn make(&mut self, event: &Event, task: u32) -> Result<Outcome, AllocError>
        requires turns { self.old.turns < 1000000 }
        requires task { (1 ≤ task) × (task ≤ length self.old.made) }
        requires alone { (u : ℕ) → IsOf u event.now → u ≡ task }
        ensures row { IfOk result (λ outcome. Row self.old.core event.now outcome self.new.core) }
        ensures turns { OnOk result (self.new.turns ≡ self.old.turns + 1) }
        ensures made { OnOk result (self.new.made ≡ self.old.made) }
        ensures rng { OnOk result (self.new.rng ≡ self.old.rng) }
    {
        let outcome = self.apply(event, task)?;
        self.turns += 1;
        Ok(outcome)
    }

    /// One turn, if a task may take one: its event and what came of it. `tasks` lists those that may, before and behind it.
    #[inline(always)]
    pub(crate) fn turn(
        &mut self,
        plan: &Plan,
        tasks: &mut RunnableTasks,
    ) -> Result<Option<Turned>, AllocError>
        requires turns { self.old.turns < 1000000 }
        requires runnable { AreRunnable plan.now self.old tasks.old }
        requires in_range { All (λ t. (1 ≤ t) × (t ≤ length self.old.made)) tasks.old }
        ensures turn { IfOk result (λ turn. IfSome turn (λ turned. Turn plan.now self.old turned.event self.new)) }
        ensures row { IfOk result (λ turn. IfSome turn (λ turned.
            Row self.old.core turned.event turned.outcome self.new.core)) }
        ensures idle { IfOk result (λ turn. turn ≡ None → AreRunnable plan.now self.old []) }
        ensures stays { IfOk result (λ turn. turn ≡ None → self.new ≡ self.old) }
        ensures runnable { OnOk result (AreRunnable plan.now self.new tasks.new) }
        ensures in_range { OnOk result (All (λ t. (1 ≤ t) × (t ≤ length self.new.made)) tasks.new) }
    {
        if tasks.is_empty() {
            return Ok(None);
        }
        let turned = self.turn_of(plan, tasks)?;
        Ok(Some(turned))
    }

    /// How many of its calls each task has begun, from task 1 on.
    pub fn made(&self) -> &[usize]
        ensures made { result.now ≡ self.now.made }
        ensures few { length result.now ≤ 64 }
    {
        &self.made
    }

    /// The core between the turns.
    pub fn core(&self) -> &Core
        ensures core { result.now ≡ self.now.core }
        ensures tasks { (config_of result.now).tasks ≡ length self.now.made }
    {
        &self.core
    }

    /// How many turns were made.
    #[inline(always)]
    pub(crate) fn turns(&self) -> u32
        ensures { result ≡ self.now.turns }
    {
        self.turns
    }

    /// How the run ends where no turn is left. These are the tasks that could take one.
    pub(crate) fn last_finish(&self, plan: &Plan, tasks: &RunnableTasks) -> Finish
        requires runnable { AreRunnable plan.now self.now tasks.now }
        requires planned { IsPlan plan.now (length self.now.made) }
        ensures finish { result ≡ last_finish plan.now self.now tasks.now }
        ensures ends { EndsWell result }
    {
        if tasks.is_empty() {
            self.idle_finish(plan)
        } else {
            Finish::Limit
        }
    }

    /// What the audit of the core finds: nothing.
    pub(crate) fn audit(&self, alloc: Global) -> Result<Option<Finding>, AllocError>
        ensures { IfOk result (λ found. found ≡ None) }
    {
        Ok(audit(&self.core.picture(alloc)?).err())
    }

    /// Every picture of the core passes the audit. There is nothing to run.
    pub(crate) fn is_clean(&self)
        ensures { IsClean self.now.core }
    {
        self.core.every_picture_is_right();
    }

    /// How the run ends where no task may take a turn: no call is left or in flight then, since some call in flight
    /// is never blocked, and of the calls that are left the one on the first line waits for nothing that isn't over.
    pub(crate) fn idle_finish(&self, plan: &Plan) -> Finish
        requires idle { AreRunnable plan.now self.now [] }
        requires planned { IsPlan plan.now (length self.now.made) }
        ensures finish { result ≡ idle_finish plan.now self.now }
        ensures finished { result ≡ Finish.Finished }
    {
        self.core.is_reached();
        self.core.always();
        let _ = plan;
        Finish::Finished
    }

    pub(crate) fn line(&self, run: u32, finish: Finish) -> RunLine
        ensures { result ≡ line_of run finish self.now }
    {
        RunLine {
            run,
            finish,
            turns: self.turns,
            free: self.core.free(),
            resv: self.core.resv(),
        }
    }
}
