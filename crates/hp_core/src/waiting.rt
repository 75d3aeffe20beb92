//! Whom a task waits for.
ghost use Rattle.std.specs.Prelude.{◌≡◌, ◌≤◌, length};
ghost use Rattle.hp_parts.specs.State.{state_of, IsSized};
ghost use Rattle.hp_core.specs.Blockers.{lock_blocker, slot_blocker, touch_blocker, map_blocker, alloc_blocker, punch_blocker};
ghost use Rattle.hp_core.specs.Blockers.{truncate_blocker, call_blocker, task_blocker};
ghost use Rattle.hp_core.specs.Readers.{config_of};
ghost use Rattle.hp_core.specs.Waiting.{WaitsFor, IsReady};

use crate::core_state::Core;
use crate::task_state::{TaskState, is_dead, is_killed};
use hp_base::{File, Index, LIMIT, Task};
use hp_machine::Call;
use hp_machine::alloc::AllocPhase;
use hp_machine::map::MapPhase;
use hp_machine::punch::PunchPhase;
use hp_machine::touch::TouchPhase;
use hp_machine::truncate::TruncatePhase;
use hp_parts::{Parts, is_bad_range};

/// What a task may do next.
#[derive(Clone, Copy, Debug, PartialEq, Eq)]
pub enum Readiness {
    /// No call of it is in flight: to begin one.
    Idle,
    /// Its call's next step isn't blocked.
    Free,
    /// Its call's next step is blocked by this holder.
    HeldUp(Task),
}

// Who holds the lock that a call on the file would take at its start, unless it ends there.
fn lock_blocker(parts: &Parts, killed: bool, file: File, is_bad: bool) -> Option<Task>
    requires { IsSized (state_of parts.now) }
    ensures { result ≡ lock_blocker (state_of parts.now) killed file is_bad }
{
    let files = parts.files.len();
    if file.number() as usize >= files || is_bad || killed {
        return None;
    }
    parts.locks.holder(file.number())
}

// Who holds the slot of the index.
fn slot_blocker(parts: &Parts, file: File, index: Index) -> Option<Task>
    ensures { result ≡ slot_blocker (state_of parts.now) file index }
{
    let slot = parts.slots.slot_of(file, index);
    parts.slots.holder(slot)
}

fn touch_blocker(parts: &Parts, killed: bool, phase: &TouchPhase) -> Option<Task>
    ensures { result ≡ touch_blocker (state_of parts.now) killed phase.now }
{
    match phase {
        TouchPhase::Want(want) if !killed => {
            slot_blocker(parts, want.touch.file, want.touch.index)
        }
        _ => None,
    }
}

fn map_blocker(parts: &Parts, killed: bool, phase: &MapPhase) -> Option<Task>
    requires { IsSized (state_of parts.now) }
    ensures { result ≡ map_blocker (state_of parts.now) killed phase.now }
{
    match phase {
        MapPhase::Start(start) => {
            let is_bad = is_bad_range(start.map.from, start.map.len);
            lock_blocker(parts, killed, start.map.file, is_bad)
        }
        _ => None,
    }
}

fn alloc_blocker(parts: &Parts, killed: bool, phase: &AllocPhase) -> Option<Task>
    requires { IsSized (state_of parts.now) }
    ensures { result ≡ alloc_blocker (state_of parts.now) killed phase.now }
{
    match phase {
        AllocPhase::Start(start) => {
            let is_bad = is_bad_range(start.allocation.from, start.allocation.len);
            lock_blocker(parts, killed, start.allocation.file, is_bad)
        }
        AllocPhase::Want(want) if !killed => {
            slot_blocker(parts, want.allocation.file, want.index)
        }
        _ => None,
    }
}

fn punch_blocker(parts: &Parts, killed: bool, phase: &PunchPhase) -> Option<Task>
    requires { IsSized (state_of parts.now) }
    ensures { result ≡ punch_blocker (state_of parts.now) killed phase.now }
{
    match phase {
        PunchPhase::Start(start) => {
            let is_bad = is_bad_range(start.hole.from, start.hole.len);
            lock_blocker(parts, killed, start.hole.file, is_bad)
        }
        PunchPhase::Want(want) => slot_blocker(parts, want.hole.file, want.index),
        _ => None,
    }
}

fn truncate_blocker(parts: &Parts, killed: bool, phase: &TruncatePhase) -> Option<Task>
    requires { IsSized (state_of parts.now) }
    ensures { result ≡ truncate_blocker (state_of parts.now) killed phase.now }
{
    match phase {
        TruncatePhase::Start(start) => {
            let is_bad = start.truncation.new > LIMIT;
            lock_blocker(parts, killed, start.truncation.file, is_bad)
        }
        TruncatePhase::Want(want) => slot_blocker(parts, want.truncation.file, want.index),
        _ => None,
    }
}

fn call_blocker(parts: &Parts, killed: bool, call: &Call) -> Option<Task>
    requires { IsSized (state_of parts.now) }
    ensures { result ≡ call_blocker (state_of parts.now) killed call.now }
{
    match call {
        Call::Touch(phase) => touch_blocker(parts, killed, phase),
        Call::Map(phase) => map_blocker(parts, killed, phase),
        Call::Alloc(phase) => alloc_blocker(parts, killed, phase),
        Call::Punch(phase) => punch_blocker(parts, killed, phase),
        Call::Truncate(phase) => truncate_blocker(parts, killed, phase),
        Call::Unmap(_) | Call::Exit(_) => None,
    }
}

/// Who holds up the task's next step.
pub fn task_state_blocker(parts: &Parts, task_state: &TaskState) -> Option<Task>
    requires { IsSized (state_of parts.now) }
    ensures { result ≡ task_blocker (state_of parts.now) task_state.now }
{
    if is_dead(task_state.life) {
        return None;
    }
    match &task_state.call {
        Some(call) => call_blocker(parts, is_killed(task_state.life), call),
        None => None,
    }
}

impl Core {
    /// The holder that the task's next step would be blocked by, if any: of a slot or a file lock.
    pub fn waits_for(&self, task: Task) -> Option<Task>
        requires first { 1 ≤ task }
        requires last { task ≤ (config_of self.now).tasks }
        ensures { WaitsFor self.now task result }
    {
        task_state_blocker(&self.parts, &self.task_states[task.place()])
    }

    /// Whether a call of the task is in flight, and whether its next step is blocked: in one look.
    pub fn readiness(&self, task: Task) -> Readiness
        requires first { 1 ≤ task }
        requires last { task ≤ (config_of self.now).tasks }
        ensures { IsReady self.now task result }
    {
        if self.phase(task).is_none() {
            return Readiness::Idle;
        }
        match self.waits_for(task) {
            Some(holder) => Readiness::HeldUp(holder),
            None => Readiness::Free,
        }
    }
}
