//! A place in a schedule, and what conditions have seen on the way there.
ghost use Rattle.std.specs.Prelude.{◌≡◌, ◌<◌, ◌≤◌, ◌++◌, ◌∷◌, ◌↔◌, ◌⊎◌, [], ℕ, Contains, IfOk, IfSome, IsTrue, None, OnOk};
ghost use Rattle.hp_core.specs.Runs.{IsOpening};
ghost use Rattle.hp_explore.specs.Explored.{is_done};
ghost use Rattle.hp_hunt.specs.Watching.{AllKnow, known_of};
ghost use Rattle.hp_layers.specs.Named.{AreApart};
ghost use Rattle.hp_every.specs.Eager.{AreTried, IsEager, MayBegin, MayGoFirst, MayStepAlone};
ghost use Rattle.hp_every.specs.Schedules.{IsTask, MayTurn, first_place, world};
ghost use Rattle.hp_every.specs.declared.turn.Turn.{Turn};
ghost use Rattle.hp_every.specs.declared.turn.Turn.TheVariants as turn;
ghost use Rattle.hp_every.specs.Turns.{AreAllTurns, IsChosen, task_of};
ghost use Rattle.hp_search.specs.Searching.{IsMade, place_of};

use crate::answers::Answers;
use crate::growth::step_wants;
use crate::private::step_is_private;
use crate::query::Query;
use hp_base::{Answer, Event, Op, Task};
use hp_core::Outcome;
use hp_every::Turn;
use hp_explore::{Plan, Walk};
use hp_hunt::Watches;
use std::alloc::{AllocError, Global};

/// Where a run of turns stands.
#[derive(Drop)]
pub(crate) struct Position {
    pub(crate) walk: Walk,
    /// What has been seen of the conditions.
    pub(crate) watches: Watches,
    /// The calls that ended.
    pub(crate) answers: Answers,
    /// So many steps may still be denied, and so many tasks killed.
    pub(crate) denials: u32,
    pub(crate) kills: u32,
}

/// Lists the turn behind the others, if it may be made.
fn push_if(turns: &mut Vec<Turn>, turn: Turn, may: bool) -> Result<(), AllocError>
    ensures added { OnOk result ((turns.new.items ≡ turns.old.items) ⊎ (turns.new.items ≡ turns.old.items ++ turn ∷ [])) }
    ensures listed { OnOk result ((t : Turn) → (Contains turns.new.items t ↔ (Contains turns.old.items t ⊎ (IsTrue may × (t ≡ turn))))) }
{
    if may {
        turns.push(turn)?;
    }
    Ok(())
}

impl Position {
    /// Before any turn.
    pub(crate) fn first(alloc: Global, query: Query) -> Result<Position, AllocError>
        ensures opening { IfOk result (λ p. IsOpening query.entry.script.now.config p.walk.core) }
        ensures place { IfOk result (λ p. place_of p ≡ first_place query.entry.script.now query.entry.denials query.entry.kills p.walk.core) }
        ensures know { IfOk result (λ p. AllKnow query.entry.conditions.now (known_of p.watches) []) }
        ensures answers { IfOk result (λ p. p.answers.ended.items ≡ []) }
    {
        Ok(Position {
            walk: Walk::new(alloc, query.script, 0)?,
            watches: Watches::new(alloc, query.conditions)?,
            answers: Answers::new(alloc),
            denials: query.denials,
            kills: query.kills,
        })
    }

    /// What the task asks for as it goes on. The call that it begins is counted.
    fn go_on(&mut self, plan: &Plan, task: u8) -> Event
        requires { MayTurn plan.now (place_of self.old) (turn.Next task) }
        ensures chosen { IsChosen plan.now (place_of self.old) (turn.Next task) result (place_of self.new) }
        ensures core { self.new.walk.core ≡ self.old.walk.core }
        ensures watches { self.new.watches ≡ self.old.watches }
        ensures answers { self.new.answers ≡ self.old.answers }
    {
        let number = u32::from(task);
        if !self.walk.in_call(number) {
            if let Some(op) = self.walk.next_call(plan, number) {
                self.walk.count_begun(number);
                return Event::Begin(Task::new(number), op);
            }
        }
        Event::Step(Task::new(number), true)
    }

    /// What the turn asks for. What it takes of the calls, the denials and the kills is taken.
    fn choose(&mut self, plan: &Plan, turn: Turn) -> Event
        requires { MayTurn plan.now (place_of self.old) turn }
        ensures chosen { IsChosen plan.now (place_of self.old) turn result (place_of self.new) }
        ensures core { self.new.walk.core ≡ self.old.walk.core }
        ensures watches { self.new.watches ≡ self.old.watches }
        ensures answers { self.new.answers ≡ self.old.answers }
    {
        match turn {
            Turn::Next(task) => self.go_on(plan, task),
            Turn::Denied(task) => {
                self.denials -= 1;
                Event::Step(Task::new(u32::from(task)), false)
            }
            Turn::Killed(task) => {
                self.kills -= 1;
                Event::Kill(Task::new(u32::from(task)))
            }
        }
    }

    /// Makes the turn. Tells its event.
    pub(crate) fn make(&mut self, plan: &Plan, turn: Turn) -> Result<Event, AllocError>
        requires { MayTurn plan.now (place_of self.old) turn }
        ensures { IfOk result (λ event. IsMade plan.now self.old turn event self.new) }
    {
        // The checker of borrows asks for a mention of the types that a turn may hold.
        let _none: (Option<Op>, Option<Outcome>, Option<Answer>) = (None, None, None);
        let event = self.choose(plan, turn);
        let outcome = self.walk.apply(&event, turn.task())?;
        let ended = self.watches.calls().ended_by(&event, &outcome);
        self.watches.see(&event, &outcome, self.walk.core())?;
        self.answers.see(ended)?;
        Ok(event)
    }

    /// Whether the task has no call in flight and none left.
    fn is_done(&self, plan: &Plan, task: u32) -> bool
        requires { IsTask (place_of self.now) task }
        ensures { result ≡ is_done plan.now (world (place_of self.now)) task }
    {
        !self.walk.in_call(task) && self.walk.next_call(plan, task).is_none()
    }

    /// Whether the task may go on.
    fn may_go_on(&self, plan: &Plan, task: u32) -> bool
        requires { IsTask (place_of self.now) task }
        ensures { IsTrue result ↔ MayTurn plan.now (place_of self.now) (turn.Next task) }
    {
        self.walk.can_turn(plan, task)
    }

    /// Whether a step of the task may be denied.
    fn may_deny(&self, plan: &Plan, task: u32) -> bool
        requires { IsTask (place_of self.now) task }
        ensures { IsTrue result ↔ MayTurn plan.now (place_of self.now) (turn.Denied task) }
    {
        self.denials > 0
            && self.walk.in_call(task)
            && self.may_go_on(plan, task)
            && step_wants(self.walk.core(), Task::new(task))
    }

    /// Whether the task may be killed.
    fn may_kill(&self, plan: &Plan, task: u32) -> bool
        requires { IsTask (place_of self.now) task }
        ensures { IsTrue result ↔ MayTurn plan.now (place_of self.now) (turn.Killed task) }
    {
        self.kills > 0 && self.walk.is_alive(task) && !self.is_done(plan, task)
    }

    /// Lists the turns of the task that may be made, behind those that are listed.
    fn push_turns(&self, plan: &Plan, task: u8, turns: &mut Vec<Turn>) -> Result<(), AllocError>
        requires { IsTask (place_of self.now) task }
        ensures listed { OnOk result ((t : Turn) → (Contains turns.new.items t
            ↔ (Contains turns.old.items t ⊎ ((task_of t ≡ task) × MayTurn plan.now (place_of self.now) t)))) }
        ensures apart { OnOk result (AreApart turns.old.items → ((t : Turn) → Contains turns.old.items t → task_of t < task)
            → AreApart turns.new.items) }
    {
        let number = u32::from(task);
        push_if(turns, Turn::Next(task), self.may_go_on(plan, number))?;
        push_if(turns, Turn::Denied(task), self.may_deny(plan, number))?;
        push_if(turns, Turn::Killed(task), self.may_kill(plan, number))?;
        Ok(())
    }

    /// All turns that may be made, each once.
    pub(crate) fn next_turns(&self, alloc: Global, plan: &Plan) -> Result<Vec<Turn>, AllocError>
        ensures all { IfOk result (λ turns. AreAllTurns plan.now (place_of self.now) turns.items) }
        ensures apart { IfOk result (λ turns. AreApart turns.items) }
    {
        let tasks = self.walk.made().len();
        let mut turns = Vec::new(alloc);
        for place in 0..tasks {
            self.push_turns(plan, place as u8 + 1, &mut turns)?;
        }
        Ok(turns)
    }

    /// Whether the task may begin its next call, and is alive.
    fn may_begin(&self, plan: &Plan, task: u32) -> bool
        requires { IsTask (place_of self.now) task }
        ensures { IsTrue result ↔ MayBegin plan.now (place_of self.now) task }
    {
        !self.walk.in_call(task) && self.walk.is_alive(task) && self.may_go_on(plan, task)
    }

    /// Whether the task is alive, and the next step of its call is private.
    fn may_step_alone(&self, task: u32) -> bool
        requires { IsTask (place_of self.now) task }
        ensures { IsTrue result ↔ MayStepAlone (place_of self.now) task }
    {
        self.walk.is_alive(task) && step_is_private(self.walk.core(), Task::new(task))
    }

    /// Whether the task may do one of both.
    fn may_go_first(&self, plan: &Plan, task: u32) -> bool
        requires { IsTask (place_of self.now) task }
        ensures { IsTrue result ↔ MayGoFirst plan.now (place_of self.now) task }
    {
        self.may_begin(plan, task) || self.may_step_alone(task)
    }

    /// The task that is eager to go first, if one is.
    fn eager_task(&self, plan: &Plan) -> Option<u8>
        ensures some { IfSome result (λ task. IsEager plan.now (place_of self.now) task) }
        ensures none { result ≡ None → (task : ℕ) → ¬ IsEager plan.now (place_of self.now) task }
    {
        if self.denials > 0 || self.kills > 0 {
            return None;
        }
        for place in 0..self.walk.made().len() {
            if self.may_go_first(plan, place as u32 + 1) {
                return Some(place as u8 + 1);
            }
        }
        None
    }

    /// The turns that may be made and are tried.
    pub(crate) fn turns_to_try(&self, alloc: Global, query: Query) -> Result<Vec<Turn>, AllocError>
        ensures { IfOk result (λ turns. AreTried query.entry.plan.now (place_of self.now) query.entry.eager turns.items) }
    {
        if query.eager {
            if let Some(task) = self.eager_task(query.plan) {
                let mut turns = Vec::new(alloc);
                turns.push(Turn::Next(task))?;
                return Ok(turns);
            }
        }
        let turns = self.next_turns(alloc, query.plan)?;
        Ok(turns)
    }
}
