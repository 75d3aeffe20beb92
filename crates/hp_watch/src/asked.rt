//! What is asked of one task at one moment. Of a task that the pool doesn't have nothing is so.
ghost use Rattle.std.specs.Prelude.{◌≡◌, ◌↔◌, ◌≤◌, ℕ, Some, IsTrue};
ghost use Rattle.hp_core.specs.Readers.{config_of, phase_of};
ghost use Rattle.hp_core.specs.Waiting.{WaitsFor};

use hp_base::Task;
use hp_core::{Core, Phase};

/// Whether the pool has the task.
fn has_task(core: &Core, task: Task) -> bool
    ensures { IsTrue result ↔ ((1 ≤ task) × (task ≤ (config_of core.now).tasks)) }
{
    let number = task.number();
    1 <= number && number <= core.config().tasks
}

/// Whether the next step of the task's call is blocked by somebody.
#[inline]
pub fn is_held_up(core: &Core, task: Task) -> bool
    ensures { IsTrue result ↔ ((holder : ℕ) × WaitsFor core.now task (Some holder)) }
{
    core.is_reached();
    core.always();
    has_task(core, task) && core.waits_for(task).is_some()
}

/// Whether the task's call stands in that phase.
#[inline]
pub fn stands_at(core: &Core, task: Task, phase: Phase) -> bool
    ensures { IsTrue result ↔ (phase_of core.now task ≡ Some phase) }
{
    core.is_reached();
    core.always();
    has_task(core, task) && core.phase(task) == Some(phase)
}
