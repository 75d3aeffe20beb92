//! A task's life and its call in flight, and one step of it.
ghost use Rattle.std.specs.Prelude.{◌≡◌, true, IfOk, IfSome, IsSomeAnd, OnErr, IsSome, Some, ◌≤◌, ◌&&◌};
ghost use Rattle.std.specs.Prelude.{if◌then◌else◌};
ghost use Rattle.hp_base.specs.Numbers.{is_none};
ghost use Rattle.hp_machine.specs.Events.{CallRow};
ghost use Rattle.hp_machine.specs.State as machine;
ghost use Rattle.hp_machine.specs.Wants.{Wants};
ghost use Rattle.hp_parts.specs.State.{state_of};
ghost use Rattle.hp_parts.specs.Capacity.{MemoryStaysUnless};
ghost use Rattle.hp_parts.specs.View.{view};
ghost use Rattle.hp_core.specs.Fits.{CallFits};
ghost use Rattle.hp_machine.specs.Standings.{standing};
ghost use Rattle.hp_parts.specs.Turns.{IfWanting};
ghost use Rattle.hp_core.specs.Turns.{life_after, IfOutcomeBlocked, Settles};

use crate::in_flight::InFlight;
use crate::words::phase_word;
use hp_base::Task;
use hp_fault::{step_alloc, step_map, step_touch};
use hp_machine::{Call, Life, Outcome, Stopped, Turn};
use hp_parts::Parts;
use hp_remove::{step_exit, step_punch, step_truncate, step_unmap};
use std::alloc::AllocError;

/// What the core keeps of a task.
#[derive(Drop)]
pub struct TaskState {
    pub life: Life,
    pub call: Option<Call>,
}

/// Whether the task is killed and has yet to end.
pub fn is_killed(life: Life) -> bool
    ensures { result ≡ machine.is_killed life }
{
    match life {
        Life::Killed => true,
        Life::Alive | Life::Dead => false,
    }
}

/// Whether the task is dead.
pub fn is_dead(life: Life) -> bool
    ensures { result ≡ machine.is_dead life }
{
    match life {
        Life::Dead => true,
        Life::Alive | Life::Killed => false,
    }
}

// What a step makes of the task's call, and its outcome. It writes the call where it is to stand: a call that were
// handed on would be copied once more for each hand. A task whose call is its end (`exits`) is dead once that is over.
fn settle<P: InFlight>(
    task_state: &mut TaskState,
    exits: bool,
    stepped: Result<Turn<P>, Stopped<P>>,
) -> Result<Outcome, AllocError>
    ensures call { Settles P.call_of stepped result task_state.new.call }
    ensures life { task_state.new.life ≡ (if exits && is_none task_state.new.call then Life.Dead else task_state.old.life) }
{
    match stepped {
        Ok(Turn::Moved(phase)) => {
            let call = phase.into_call();
            let word = phase_word(&call);
            task_state.call = Some(call);
            Ok(Outcome::Moved(word))
        }
        Ok(Turn::Blocked(phase, holder)) => {
            task_state.call = Some(phase.into_call());
            Ok(Outcome::Blocked(holder))
        }
        Ok(Turn::Ended(answer)) => {
            task_state.call = None;
            if exits {
                task_state.life = Life::Dead;
            }
            Ok(Outcome::Ended(answer))
        }
        Err(stopped) => {
            task_state.call = Some(stopped.phase.into_call());
            Err(AllocError)
        }
    }
}

/// One step of the task's call, to what it leaves there. Without memory nothing changed, and the call stands as it did.
pub fn step_call(
    parts: &mut Parts,
    task_state: &mut TaskState,
    task: Task,
    grant: bool,
) -> Result<Outcome, AllocError>
    requires there { IsSome task_state.old.call }
    requires fits { IfSome task_state.old.call (λ call. CallFits (state_of parts.old) task call) }
    ensures row { IfOk result (λ outcome. IfSome task_state.old.call (λ call.
        CallRow (view parts.old) task (machine.is_killed task_state.old.life) grant call outcome (view parts.new) task_state.new.call)) }
    ensures blocked { IfOk result (λ outcome. IfOutcomeBlocked outcome (IfSome task_state.old.call
        (λ call. IfWanting (standing call).wants ((state_of parts.new ≡ state_of parts.old) × (task_state.new ≡ task_state.old))))) }
    ensures life { IfSome task_state.old.call (λ call. task_state.new.life ≡ life_after task_state.old.life call task_state.new.call) }
    ensures memory { MemoryStaysUnless grant (IsSomeAnd task_state.old.call (λ call. Wants (view parts.old) task call))
        parts.old parts.new }
    ensures err { OnErr result ((state_of parts.new ≡ state_of parts.old) × (task_state.new ≡ task_state.old)) }
    ensures growth { OnErr result (grant ≡ true) }
    ensures wanted { OnErr result (IsSomeAnd task_state.old.call (λ call. Wants (view parts.old) task call)) }
{
    let killed = is_killed(task_state.life);
    match task_state.call.take() {
        Some(Call::Touch(phase)) => {
            let turn = step_touch(parts, task, killed, grant, phase);
            settle(task_state, false, turn)
        }
        Some(Call::Map(phase)) => {
            let turn = step_map(parts, task, killed, grant, phase);
            settle(task_state, false, turn)
        }
        Some(Call::Alloc(phase)) => {
            let turn = step_alloc(parts, task, killed, grant, phase);
            settle(task_state, false, turn)
        }
        Some(Call::Punch(phase)) => {
            let turn = step_punch(parts, task, killed, grant, phase);
            settle(task_state, false, turn)
        }
        Some(Call::Truncate(phase)) => {
            let turn = step_truncate(parts, task, killed, grant, phase);
            settle(task_state, false, Ok(turn))
        }
        Some(Call::Unmap(phase)) => {
            let turn = step_unmap(parts, task, killed, grant, phase);
            settle(task_state, false, Ok(turn))
        }
        Some(Call::Exit(phase)) => {
            let turn = step_exit(parts, task, killed, grant, phase);
            settle(task_state, true, Ok(turn))
        }
        None => unreachable!(),
    }
}
