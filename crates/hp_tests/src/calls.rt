//! Events and whole calls, without what the core promises of them: a proof that doesn't ask for it is many times as fast.
use hp_base::{Answer, Event, Op, Task};
use hp_core::{Core, Outcome, Picture, RunFault};
use std::alloc::{AllocError, Global};

/// One event. The tests ask for what comes of it, and not for its row.
pub(crate) fn happens(core: &mut Core, event: Event) -> Result<Outcome, AllocError> {
    core.step(event)
}

/// Begins a call and steps it until it ends, within 32 steps.
pub(crate) fn call(core: &mut Core, task: Task, op: Op) -> Result<Option<Answer>, AllocError> {
    happens(core, Event::Begin(task, op))?;
    for _ in 0..32 {
        if let Outcome::Ended(answer) = happens(core, Event::Step(task, true))? {
            return Ok(Some(answer));
        }
    }
    Ok(None)
}

/// A run. The tests ask for what it tells, and not for its rows.
pub(crate) fn told_of(
    core: &mut Core,
    alloc: Global,
    events: &[Event],
) -> Result<Vec<Outcome>, RunFault> {
    core.run(alloc, events)
}

/// The pool's picture. The tests ask for what it shows, and not for what the core promises of it.
pub(crate) fn pictured(core: &Core, alloc: Global) -> Result<Picture, AllocError> {
    core.picture(alloc)
}
