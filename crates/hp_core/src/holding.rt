//! What calls in flight hold.
ghost use Rattle.std.specs.Prelude.{◌≡◌, ◌≤◌};
ghost use Rattle.hp_core.specs.Holding.{holding_of};
ghost use Rattle.hp_core.specs.Readers.{config_of};

use crate::core_state::Core;
use crate::standing::standing_of;
use hp_base::{File, Index, Task};

/// What a task's call in flight holds.
#[derive(Clone, Copy, Debug, PartialEq, Eq)]
pub struct Holding {
    /// The file and the index whose slot it holds.
    pub slot: Option<(File, Index)>,
    /// The file whose lock it holds.
    pub lock: Option<File>,
}

impl Core {
    /// The slot and the lock that the task's call holds. Whom the other tasks wait for changes only where this does.
    pub fn holding(&self, task: Task) -> Holding
        requires first { 1 ≤ task }
        requires last { task ≤ (config_of self.now).tasks }
        ensures { result ≡ holding_of self.now task }
    {
        let standing = standing_of(&self.task_states[task.place()].call);
        Holding {
            slot: standing.slot,
            lock: standing.lock,
        }
    }
}
