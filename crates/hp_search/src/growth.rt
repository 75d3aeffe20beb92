//! Whether the next step of a call wants memory. The step may be denied just there.
ghost use Rattle.std.specs.Prelude.{◌≡◌, ◌↔◌, ◌≤◌, ◌<◌, IsTrue, length};
ghost use Rattle.hp_base.specs.Indices.{splits};
ghost use Rattle.hp_core.specs.Readers.{config_of};
ghost use Rattle.hp_core.specs.Runs.{StepWants};
ghost use Rattle.hp_machine.specs.Wants as wants;
ghost use Rattle.hp_search.specs.Searching.{HasRoom};
ghost use Rattle.hp_parts.specs.State.{state_of};
ghost use Rattle.hp_parts.specs.View.{pendings_of, pool_of, sets_of, sizes_of, spares_of};

use hp_base::{File, Index, Task};
use hp_core::Core;
use hp_machine::Call;
use hp_machine::alloc::AllocPhase;
use hp_machine::map::MapPhase;
use hp_machine::punch::PunchPhase;
use hp_machine::touch::TouchPhase;
use hp_parts::Parts;

/// Whether a change of the file's reserve map wants a descriptor. A file that isn't there has no spare one.
#[tactic(auto, unfolding(hp_parts::specs::View::spares_of, hp_parts::specs::View::pendings_of))]
fn change_wants(parts: &Parts, file: File) -> bool
    ensures { IsTrue result ↔ wants.ChangeWants (pool_of (state_of parts.now)) file }
{
    match parts.files.get(file.number() as usize) {
        Some(state) => state.map.spare() == state.map.pending(),
        None => true,
    }
}

/// Whether the index lies in the file.
#[tactic(auto, unfolding(hp_parts::specs::View::sizes_of))]
fn is_inside(parts: &Parts, file: File, index: Index) -> bool
    ensures { IsTrue result ↔ (index < sizes_of parts.now.files.items file) }
{
    match parts.files.get(file.number() as usize) {
        Some(state) => index.number() < state.size,
        None => false,
    }
}

fn touch_wants(parts: &Parts, phase: &TouchPhase) -> bool
    ensures { IsTrue result ↔ wants.touch_wants (pool_of (state_of parts.now)) phase.now }
{
    match phase {
        TouchPhase::Missing(at) => change_wants(parts, at.touch.file),
        TouchPhase::Committed(at) => is_inside(parts, at.touch.file, at.touch.index),
        TouchPhase::Found(at) => is_inside(parts, at.touch.file, at.touch.index),
        _ => false,
    }
}

/// Whether the task has room for a mapping of so many pages.
#[tactic(auto, unfolding(hp_parts::specs::View::mappings_by_task))]
fn has_room(parts: &Parts, task: Task, len: u32) -> bool
    requires { (1 ≤ task) × (task ≤ length parts.now.spaces.items) }
    ensures { IsTrue result ↔ HasRoom (pool_of (state_of parts.now)) task len }
{
    parts.spaces[task.place()].room(len).is_some()
}

fn map_wants(parts: &Parts, task: Task, phase: &MapPhase) -> bool
    requires { (1 ≤ task) × (task ≤ length parts.now.spaces.items) }
    ensures { IsTrue result ↔ wants.map_wants (pool_of (state_of parts.now)) task phase.now }
{
    match phase {
        MapPhase::Room(at) => has_room(parts, task, at.map.len),
        MapPhase::Missing(at) => change_wants(parts, at.map.file),
        _ => false,
    }
}

fn alloc_wants(parts: &Parts, phase: &AllocPhase) -> bool
    ensures { IsTrue result ↔ wants.alloc_wants (pool_of (state_of parts.now)) phase.now }
{
    match phase {
        AllocPhase::Missing(at) => change_wants(parts, at.allocation.file),
        AllocPhase::Committed(_) => true,
        _ => false,
    }
}

/// Whether the hole's index is inside of a region, with reserved indices at both sides.
#[tactic(auto, unfolding(hp_parts::specs::View::sets_of))]
fn is_split(parts: &Parts, file: File, index: Index) -> bool
    ensures { result ≡ splits (sets_of parts.now.files.items file) index }
{
    let Some(state) = parts.files.get(file.number() as usize) else {
        return false;
    };
    let number = index.number();
    if number == 0 || !state.map.contains(index) {
        return false;
    }
    state.map.contains(Index::new(number - 1)) && state.map.contains(Index::new(number + 1))
}

/// Whether the file has no spare descriptor that isn't pending.
#[tactic(auto, unfolding(hp_parts::specs::View::spares_of, hp_parts::specs::View::pendings_of))]
fn lacks_spare(parts: &Parts, file: File) -> bool
    ensures { IsTrue result ↔ (spares_of parts.now.files.items file ≤ pendings_of parts.now.files.items file) }
{
    match parts.files.get(file.number() as usize) {
        Some(state) => state.map.spare() <= state.map.pending(),
        None => true,
    }
}

fn punch_wants(parts: &Parts, phase: &PunchPhase) -> bool
    ensures { IsTrue result ↔ wants.punch_wants (pool_of (state_of parts.now)) phase.now }
{
    match phase {
        PunchPhase::Delete(at) => {
            is_split(parts, at.hole.file, at.index) && lacks_spare(parts, at.hole.file)
        }
        _ => false,
    }
}

/// Whether the next step of a call wants memory.
fn call_wants(parts: &Parts, task: Task, call: &Call) -> bool
    requires { (1 ≤ task) × (task ≤ length parts.now.spaces.items) }
    ensures { IsTrue result ↔ wants.Wants (pool_of (state_of parts.now)) task call.now }
{
    match call {
        Call::Touch(phase) => touch_wants(parts, phase),
        Call::Map(phase) => map_wants(parts, task, phase),
        Call::Alloc(phase) => alloc_wants(parts, phase),
        Call::Punch(phase) => punch_wants(parts, phase),
        Call::Truncate(_) | Call::Unmap(_) | Call::Exit(_) => false,
    }
}

/// Whether the task has a call in flight whose next step wants memory.
pub(crate) fn step_wants(core: &Core, task: Task) -> bool
    requires { (1 ≤ task) × (task ≤ (config_of core.now).tasks) }
    ensures { IsTrue result ↔ StepWants core.now.parts core.now.task_states task }
{
    let parts = core.parts();
    match &core.task_states()[task.place()].call {
        Some(call) => call_wants(parts, task, call),
        None => false,
    }
}
