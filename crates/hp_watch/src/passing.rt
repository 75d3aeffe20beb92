//! Where calls stand, kept beside a core as words: where each may wait, and what an outcome tells of it.
//!
//! A search makes millions of steps, and lists no holders. These are inlined: a call that isn't passes what it answers through memory.
ghost use Rattle.std.specs.Prelude.{◌≡◌, ◌≤◌, None, IfOk, replicate};
ghost use Rattle.hp_core.specs.Passing.{may_wait, task_may_leave, task_may_pass};
ghost use Rattle.hp_core.specs.Readers.{config_of, phase_of};
ghost use Rattle.hp_watch.specs.Phases.{Agrees};

use hp_base::{Answer, Task};
use hp_core::{Core, Outcome, Phase};
use std::alloc::{AllocError, Global};

/// Whether the next step of a call that stands there may be blocked. That of any other can't.
#[inline(always)]
pub fn may_wait(at: Phase) -> bool
    ensures { result ≡ may_wait at }
{
    matches!(at, Phase::Start | Phase::Want)
}

/// Whether the next turn of a task whose call stands there may take or leave a slot or a lock. That of any other leaves
/// what the call holds.
#[inline(always)]
pub fn may_pass(at: Option<Phase>) -> bool
    ensures { result ≡ task_may_pass at }
{
    matches!(
        at,
        Some(Phase::Start | Phase::Want | Phase::Unslot | Phase::Leave)
    )
}

/// Whether the next turn of a task whose call stands there may leave a slot or a lock. That of any other keeps what the
/// call holds.
#[inline(always)]
pub fn can_leave(at: Option<Phase>) -> bool
    ensures { result ≡ task_may_leave at }
{
    matches!(at, Some(Phase::Unslot | Phase::Leave))
}

/// Where the task's call stands after its event. Most outcomes tell it.
#[inline(always)]
pub fn phase_after(core: &Core, task: Task, outcome: &Outcome) -> Option<Phase>
    requires there { (1 ≤ task) × (task ≤ (config_of core.now).tasks) }
    requires agrees { Agrees outcome.now (phase_of core.now task) }
    ensures { result ≡ phase_of core.now task }
{
    match outcome {
        Outcome::Moved(at) => Some(*at),
        Outcome::Ended(_) => None,
        _ => core.phase(task),
    }
}

/// Where the calls of so many tasks stand before any has begun one.
pub fn no_calls(alloc: Global, tasks: u32) -> Result<Vec<Option<Phase>>, AllocError>
    ensures { IfOk result (λ phases. phases.items ≡ replicate tasks None) }
{
    let mut phases = Vec::with_capacity(alloc, tasks as usize)?;
    for _ in 0..tasks {
        phases.push_reserved(None);
    }
    Ok(phases)
}
