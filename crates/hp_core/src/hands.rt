//! The frames in the hands of calls.
ghost use Rattle.std.specs.Prelude.{◌≡◌, IfOk, filter_map};
ghost use Rattle.hp_machine.specs.Views.{hand};

use crate::standing::standing_of;
use crate::task_state::TaskState;
use hp_base::Frame;
use std::alloc::{AllocError, Global};

/// The frames in the hands of all calls in flight, in order of their tasks.
pub fn hands(alloc: Global, task_states: &[TaskState]) -> Result<Vec<Frame>, AllocError>
    ensures { IfOk result (λ hands. hands.items ≡ filter_map (λ task_state. hand task_state.call) task_states.now) }
{
    let mut hands = Vec::new(alloc);
    for task_state in task_states {
        if let Some(frame) = standing_of(&task_state.call).hand {
            hands.push(frame)?;
        }
    }
    Ok(hands)
}
