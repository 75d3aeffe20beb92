//! What a core is made of, for readers of its whole state.
ghost use Rattle.std.specs.Prelude.{◌≡◌};
ghost use Rattle.hp_parts.specs.State.{state_of};
ghost use Rattle.hp_core.specs.Sound.{IsKept};

use crate::core_state::Core;
use crate::task_state::TaskState;
use hp_parts::Parts;

impl Core {
    /// The parts of the pool: its frames, files, slots, locks and spaces. There are as many as the config says.
    pub fn parts(&self) -> &Parts
        ensures parts { state_of result.now ≡ self.now.parts }
        ensures kept { IsKept self.now }
    {
        &self.parts
    }

    /// The life of each task and its call in flight, in order of the tasks' numbers.
    pub fn task_states(&self) -> &[TaskState]
        ensures { result.now ≡ self.now.task_states }
    {
        &self.task_states
    }
}
