//! Events that change nothing: refused, or blocked.
ghost use Rattle.std.specs.Prelude.{◌≡◌, MatchOption};
ghost use Rattle.hp_base.specs.declared.event.Event.TheVariants as event;
ghost use Rattle.hp_parts.specs.State.{state_of, IsSized};
ghost use Rattle.hp_machine.specs.Events.{is_exit};
ghost use Rattle.hp_core.specs.HeldBack.{HeldBack, event_blocker, idle_outcome};
ghost use Rattle.hp_core.specs.Refusals.{refusal_of};
ghost use Rattle.hp_core.specs.State.{no_task_state, task_state_at};

use crate::core_state::Core;
use crate::task_state::{TaskState, is_dead, is_killed};
use crate::waiting::task_state_blocker;
use hp_base::{Config, Event, Op, Task};
use hp_machine::{Life, Outcome, Refusal};
use hp_parts::Parts;

// The state of a task that is there.
fn task_state_of(task_states: &[TaskState], task: Task) -> Option<&TaskState>
    ensures { MatchOption result (task_state_at task_states.now task ≡ no_task_state)
        (λ task_state. task_state.now ≡ task_state_at task_states.now task) }
{
    if task.number() == 0 {
        return None;
    }
    task_states.get(task.place())
}

/// Whether the operation is the end of its task.
pub fn is_exit(op: &Op) -> bool
    ensures { result ≡ is_exit op.now }
{
    matches!(op, Op::Exit)
}

fn begin_refusal(task_states: &[TaskState], task: Task, op: &Op) -> Option<Refusal>
    ensures { result ≡ refusal_of task_states.now (event.Begin task op.now) }
{
    let Some(task_state) = task_state_of(task_states, task) else {
        return Some(Refusal::NotAlive);
    };
    if is_dead(task_state.life) {
        return Some(Refusal::NotAlive);
    }
    if task_state.call.is_some() {
        return Some(Refusal::InCall);
    }
    (is_killed(task_state.life) && !is_exit(op)).then_some(Refusal::NotAlive)
}

fn step_refusal(task_states: &[TaskState], task: Task, grant: bool) -> Option<Refusal>
    ensures { result ≡ refusal_of task_states.now (event.Step task grant) }
{
    let _ = grant;
    match task_state_of(task_states, task) {
        Some(task_state) if !is_dead(task_state.life) => task_state
            .call
            .is_none()
            .then_some(Refusal::Idle),
        _ => Some(Refusal::NotAlive),
    }
}

fn kill_refusal(task_states: &[TaskState], task: Task) -> Option<Refusal>
    ensures { result ≡ refusal_of task_states.now (event.Kill task) }
{
    let Some(task_state) = task_state_of(task_states, task) else {
        return Some(Refusal::NotAlive);
    };
    match task_state.life {
        Life::Alive => None,
        Life::Killed | Life::Dead => Some(Refusal::NotAlive),
    }
}

/// Why the event is refused, if it is.
pub fn refusal(task_states: &[TaskState], event: &Event) -> Option<Refusal>
    ensures { result ≡ refusal_of task_states.now event.now }
{
    match event {
        Event::Begin(task, op) => begin_refusal(task_states, *task, op),
        Event::Step(task, grant) => step_refusal(task_states, *task, *grant),
        Event::Kill(task) => kill_refusal(task_states, *task),
        Event::Resize(frames) => {
            (*frames == 0 || *frames > Config::MAX_FRAMES).then_some(Refusal::BadSize)
        }
    }
}

// Who holds up the event.
fn event_blocker(parts: &Parts, task_states: &[TaskState], event: &Event) -> Option<Task>
    requires { IsSized (state_of parts.now) }
    ensures { result ≡ event_blocker (state_of parts.now) task_states.now event.now }
{
    match event {
        Event::Step(task, _) => task_state_blocker(parts, task_state_of(task_states, *task)?),
        Event::Begin(..) | Event::Kill(_) | Event::Resize(_) => None,
    }
}

// The outcome of an event that is refused, or blocked.
fn idle_outcome(refusal: Option<Refusal>, holder: Option<Task>) -> Option<Outcome>
    ensures { result ≡ idle_outcome refusal holder }
{
    match refusal {
        Some(refusal) => Some(Outcome::Refused(refusal)),
        None => Some(Outcome::Blocked(holder?)),
    }
}

impl Core {
    /// The outcome of the event if it changes nothing: that it is refused, or that its step is blocked. An event of
    /// which this tells nothing changes the pool, unless it finds no memory. So a caller knows, before it takes memory of
    /// its own for an event, whether it will have one to keep.
    pub fn held_back(&self, event: Event) -> Option<Outcome>
        ensures { HeldBack self.now event result }
    {
        let refusal = refusal(&self.task_states, &event);
        let holder = event_blocker(&self.parts, &self.task_states, &event);
        idle_outcome(refusal, holder)
    }
}
