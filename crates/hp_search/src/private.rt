//! Whether the next step of a call is private: it looks at what its own task alone changes, and changes nothing but where the call stands.
ghost use Rattle.std.specs.Prelude.{◌≡◌, ◌↔◌, ◌≤◌, None, IsTrue, length};
ghost use Rattle.hp_core.specs.Readers.{config_of};
ghost use Rattle.hp_every.specs.Private as private;
ghost use Rattle.hp_parts.specs.State.{state_of};
ghost use Rattle.hp_parts.specs.View.{entries_of, pool_of};

use hp_base::{Task, Vpn};
use hp_core::Core;
use hp_machine::Call;
use hp_machine::alloc::AllocPhase;
use hp_machine::exit::ExitPhase;
use hp_machine::touch::TouchPhase;
use hp_machine::unmap::UnmapPhase;
use hp_parts::Parts;

/// Whether the task has no translation of the page.
#[tactic(auto, unfolding(hp_parts::specs::View::entries_of))]
fn lacks_page(parts: &Parts, task: Task, vpn: Vpn) -> bool
    requires { (1 ≤ task) × (task ≤ length parts.now.spaces.items) }
    ensures { IsTrue result ↔ ((pool_of (state_of parts.now)).entries task vpn ≡ None) }
{
    parts.spaces[task.place()].translate(vpn).is_none()
}

/// Whether the next step of a touch is private.
fn touch_is_private(parts: &Parts, task: Task, phase: &TouchPhase) -> bool
    requires { (1 ≤ task) × (task ≤ length parts.now.spaces.items) }
    ensures { IsTrue result ↔ private.touch_is_private (pool_of (state_of parts.now)) task phase.now }
{
    match phase {
        TouchPhase::Look(at) => lacks_page(parts, task, at.vpn),
        _ => false,
    }
}

/// Whether that of an allocation is.
fn alloc_is_private(phase: &AllocPhase) -> bool
    ensures { IsTrue result ↔ private.alloc_is_private phase.now }
{
    matches!(phase, AllocPhase::Head(_))
}

/// Whether that of an unmap is.
fn unmap_is_private(phase: &UnmapPhase) -> bool
    ensures { IsTrue result ↔ private.unmap_is_private phase.now }
{
    matches!(phase, UnmapPhase::Start(_))
}

/// Whether that of an exit is.
fn exit_is_private(phase: &ExitPhase) -> bool
    ensures { IsTrue result ↔ private.exit_is_private phase.now }
{
    matches!(phase, ExitPhase::Start)
}

/// Whether the next step of a call is private.
fn call_is_private(parts: &Parts, task: Task, call: &Call) -> bool
    requires { (1 ≤ task) × (task ≤ length parts.now.spaces.items) }
    ensures { IsTrue result ↔ private.IsPrivate (pool_of (state_of parts.now)) task call.now }
{
    match call {
        Call::Touch(phase) => touch_is_private(parts, task, phase),
        Call::Alloc(phase) => alloc_is_private(phase),
        Call::Unmap(phase) => unmap_is_private(phase),
        Call::Exit(phase) => exit_is_private(phase),
        Call::Map(_) | Call::Punch(_) | Call::Truncate(_) => false,
    }
}

/// Whether the task has a call in flight whose next step is private.
pub(crate) fn step_is_private(core: &Core, task: Task) -> bool
    requires { (1 ≤ task) × (task ≤ (config_of core.now).tasks) }
    ensures { IsTrue result ↔ private.StepIsPrivate core.now.parts core.now.task_states task }
{
    let parts = core.parts();
    match &core.task_states()[task.place()].call {
        Some(call) => call_is_private(parts, task, call),
        None => false,
    }
}
