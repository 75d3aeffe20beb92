//! The next event of a core.
ghost use Rattle.std.specs.Prelude.{◌≡◌, IfOk, IfSome, OnErr};
ghost use Rattle.hp_core.specs.Runs.{Row, WantsGrowth};

use hp_base::Event;
use hp_core::Core;
use hp_machine::Outcome;
use std::alloc::AllocError;

/// The outcome of an event that is held back, where it is looked for. Such an event changes nothing.
#[inline(always)]
fn look(core: &Core, event: &Event, is_looked_for: bool) -> Option<Outcome>
    ensures { IfSome result (λ outcome. Row core.now event.now outcome core.now) }
{
    if !is_looked_for {
        return None;
    }
    core.held_back(*event)
}

/// Runs an event, and tells what came of it. A look costs less than a step that is held back, and more than nothing: so it is taken where
/// the event before was held back, too.
#[inline(always)]
pub fn next_outcome(
    core: &mut Core,
    event: Event,
    was_held_back: bool,
) -> Result<Outcome, AllocError>
    ensures row { IfOk result (λ outcome. Row core.old event outcome core.new) }
    ensures err { OnErr result (core.new ≡ core.old) }
    ensures growth { OnErr result (WantsGrowth core.old.parts core.old.task_states event) }
{
    if let Some(outcome) = look(core, &event, was_held_back) {
        return Ok(outcome);
    }
    core.step(event)
}
