//! What calls in flight are to take next.
ghost use Rattle.std.specs.Prelude.{◌≡◌, ◌≤◌};
ghost use Rattle.hp_core.specs.Acquiring.{acquired_of};
ghost use Rattle.hp_core.specs.Readers.{config_of};

use crate::core_state::Core;
use crate::standing::standing_of;
use hp_base::{File, Index, Task};

/// What the next step of a task's call has to take.
#[derive(Clone, Copy, Debug, PartialEq, Eq)]
pub enum Acquired {
    Nothing,
    /// The lock of the file.
    Lock(File),
    /// The slot of the index.
    Slot(File, Index),
}

impl Core {
    /// The lock or the slot that the next step of the task's call has to take, if it has to take one. Who holds it, if
    /// anyone, holds the step up.
    pub fn acquiring(&self, task: Task) -> Acquired
        requires first { 1 ≤ task }
        requires last { task ≤ (config_of self.now).tasks }
        ensures { result ≡ acquired_of self.now task }
    {
        standing_of(&self.task_states[task.place()].call).wants
    }
}
