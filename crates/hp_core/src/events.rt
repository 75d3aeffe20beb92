//! What an event does to the parts and the task states.
ghost use Rattle.std.specs.Prelude.{◌≡◌, true, None, IfOk, IfSome, IsSome, OnErr, length, vec_capacity};
ghost use Rattle.hp_machine.specs.Events as rows;
ghost use Rattle.hp_parts.specs.State.{state_of, SizesStay};
ghost use Rattle.hp_parts.specs.Capacity.{CapacityStays, MemoryStaysUnless};
ghost use Rattle.hp_core.specs.Fits.{EventFits, StepFits};
ghost use Rattle.hp_core.specs.Refusals.{refusal_of};
ghost use Rattle.hp_core.specs.TaskStates.{HasTaskState, with_call, with_kill};
ghost use Rattle.hp_core.specs.TaskStates.{StepTaskStates, AdmittedTaskStates, EventTaskStates, BlockedStays};
ghost use Rattle.hp_core.specs.Turns.{IfOutcomeBlocked};
ghost use Rattle.hp_base.specs.declared.event.Event.TheVariants.{Step};
ghost use Rattle.hp_core.specs.State.{task_state_at};
ghost use Rattle.hp_core.specs.Runs.{StepWants, WantsGrowth};

use crate::refusing::refusal;
use crate::resizing::resize;
use crate::task_state::{TaskState, step_call};
use hp_base::{Event, File, Index, Op, Task, Vpn};
use hp_machine::alloc::{AllocPhase, Allocation};
use hp_machine::exit::ExitPhase;
use hp_machine::map::{MapPhase, MapRequest};
use hp_machine::punch::{Hole, PunchPhase};
use hp_machine::touch::{Access, Look, TouchPhase};
use hp_machine::truncate::{TruncatePhase, Truncation};
use hp_machine::unmap::UnmapPhase;
use hp_machine::{Call, Life, Outcome, alloc, map, punch, truncate, unmap};
use hp_parts::Parts;
use std::alloc::AllocError;

// Where a call of the operation begins.
fn first_call(op: Op) -> Call
    ensures { result ≡ rows.first op }
{
    match op {
        Op::Map { file, from, len } => first_map(true, file, from, len),
        Op::MapNoReserve { file, from, len } => first_map(false, file, from, len),
        Op::Unmap { base } => Call::Unmap(UnmapPhase::Start(unmap::Start { base })),
        Op::Load { vpn } => first_touch(vpn, Access::Load),
        Op::Store { vpn, word } => first_touch(vpn, Access::Store(word)),
        Op::Alloc {
            file,
            from,
            len,
            keep,
        } => {
            let allocation = Allocation {
                file,
                from,
                len,
                keep,
            };
            Call::Alloc(AllocPhase::Start(alloc::Start { allocation }))
        }
        Op::Punch { file, from, len } => {
            let hole = Hole { file, from, len };
            Call::Punch(PunchPhase::Start(punch::Start { hole }))
        }
        Op::Truncate { file, new } => {
            let truncation = Truncation { file, new };
            Call::Truncate(TruncatePhase::Start(truncate::Start { truncation }))
        }
        Op::Exit => Call::Exit(ExitPhase::Start),
    }
}

fn first_map(reserve: bool, file: File, from: Index, len: u32) -> Call
    ensures { result ≡ Call.Map (MapPhase.Start (record { map = record { reserve = reserve; file = file; from = from; len = len } })) }
{
    let map = MapRequest {
        reserve,
        file,
        from,
        len,
    };
    Call::Map(MapPhase::Start(map::Start { map }))
}

fn first_touch(vpn: Vpn, access: Access) -> Call
    ensures { result ≡ Call.Touch (TouchPhase.Look (record { vpn = vpn; access = access })) }
{
    Call::Touch(TouchPhase::Look(Look { vpn, access }))
}

// A Begin of an operation: the task's call is in flight.
fn begin(task_states: &mut Vec<TaskState>, task: Task, op: Op)
    requires { HasTaskState task_states.old.items task }
    ensures task_states { task_states.new.items ≡ with_call task_states.old.items task op }
    ensures list { vec_capacity task_states.new ≡ vec_capacity task_states.old }
{
    task_states[task.place()].call = Some(first_call(op));
}

// A Kill of a task.
fn kill(task_states: &mut Vec<TaskState>, task: Task)
    requires { HasTaskState task_states.old.items task }
    ensures task_states { task_states.new.items ≡ with_kill task_states.old.items task }
    ensures list { vec_capacity task_states.new ≡ vec_capacity task_states.old }
{
    task_states[task.place()].life = Life::Killed;
}

// A Step of a task, whose call is in flight.
#[tactic(auto, unfolding(crate::specs::TaskStates::StepTaskStates))]
fn step_task(
    parts: &mut Parts,
    task_states: &mut Vec<TaskState>,
    task: Task,
    grant: bool,
) -> Result<Outcome, AllocError>
    requires there { HasTaskState task_states.old.items task }
    requires called { IsSome (task_state_at task_states.old.items task).call }
    requires fits { StepFits (state_of parts.old) task_states.old.items task }
    ensures row { IfOk result (λ outcome.
        StepTaskStates (state_of parts.old) task_states.old.items task grant outcome (state_of parts.new) task_states.new.items) }
    ensures blocked { IfOk result (λ outcome. IfOutcomeBlocked outcome
        (BlockedStays (state_of parts.old) task_states.old.items (Step task grant) (state_of parts.new) task_states.new.items)) }
    ensures memory { MemoryStaysUnless grant (StepWants (state_of parts.old) task_states.old.items task) parts.old parts.new }
    ensures task_states { length task_states.new.items ≡ length task_states.old.items }
    ensures list { vec_capacity task_states.new ≡ vec_capacity task_states.old }
    ensures err { OnErr result ((state_of parts.new ≡ state_of parts.old) × (task_states.new.items ≡ task_states.old.items)) }
    ensures growth { OnErr result (grant ≡ true) }
    ensures wanted { OnErr result (StepWants (state_of parts.old) task_states.old.items task) }
{
    step_call(parts, &mut task_states[task.place()], task, grant)
}

// An event that isn't refused.
#[tactic(auto, unfolding(crate::specs::TaskStates::AdmittedTaskStates))]
fn step_admitted(
    parts: &mut Parts,
    task_states: &mut Vec<TaskState>,
    event: Event,
) -> Result<Outcome, AllocError>
    requires admitted { refusal_of task_states.old.items event ≡ None }
    requires fits { EventFits (state_of parts.old) task_states.old.items event }
    ensures row { IfOk result (λ outcome.
        AdmittedTaskStates (state_of parts.old) task_states.old.items event outcome (state_of parts.new) task_states.new.items) }
    ensures blocked { IfOk result (λ outcome. IfOutcomeBlocked outcome
        (BlockedStays (state_of parts.old) task_states.old.items event (state_of parts.new) task_states.new.items)) }
    ensures sizes { SizesStay (state_of parts.old) (state_of parts.new) }
    ensures capacity { ¬ WantsGrowth (state_of parts.old) task_states.old.items event
        → CapacityStays (state_of parts.old) (state_of parts.new) }
    ensures task_states { length task_states.new.items ≡ length task_states.old.items }
    ensures list { vec_capacity task_states.new ≡ vec_capacity task_states.old }
    ensures err { OnErr result ((state_of parts.new ≡ state_of parts.old) × (task_states.new.items ≡ task_states.old.items)) }
    ensures growth { OnErr result (WantsGrowth (state_of parts.old) task_states.old.items event) }
{
    match event {
        Event::Begin(task, op) => {
            begin(task_states, task, op);
            Ok(Outcome::Begun)
        }
        Event::Step(task, grant) => step_task(parts, task_states, task, grant),
        Event::Kill(task) => {
            kill(task_states, task);
            Ok(Outcome::Marked)
        }
        Event::Resize(frames) => resize(parts, frames),
    }
}

/// One event. One that is refused changes nothing, nor does one that finds no memory.
pub fn step_event(
    parts: &mut Parts,
    task_states: &mut Vec<TaskState>,
    event: Event,
) -> Result<Outcome, AllocError>
    requires { EventFits (state_of parts.old) task_states.old.items event }
    ensures row { IfOk result (λ outcome.
        EventTaskStates (state_of parts.old) task_states.old.items event outcome (state_of parts.new) task_states.new.items) }
    ensures blocked { IfOk result (λ outcome. IfOutcomeBlocked outcome
        (BlockedStays (state_of parts.old) task_states.old.items event (state_of parts.new) task_states.new.items)) }
    ensures sizes { SizesStay (state_of parts.old) (state_of parts.new) }
    ensures capacity { ¬ WantsGrowth (state_of parts.old) task_states.old.items event
        → CapacityStays (state_of parts.old) (state_of parts.new) }
    ensures task_states { length task_states.new.items ≡ length task_states.old.items }
    ensures list { vec_capacity task_states.new ≡ vec_capacity task_states.old }
    ensures err { OnErr result ((state_of parts.new ≡ state_of parts.old) × (task_states.new.items ≡ task_states.old.items)) }
    ensures growth { OnErr result (WantsGrowth (state_of parts.old) task_states.old.items event) }
{
    match refusal(task_states, &event) {
        Some(why) => Ok(Outcome::Refused(why)),
        None => step_admitted(parts, task_states, event),
    }
}
