//! Whether a list of events meets conditions.
ghost use Rattle.std.specs.Prelude.{IfOk, MatchBool};
ghost use Rattle.hp_hunt.specs.Conditions.{SomeRunMeets, SomeRunMisses};

use crate::condition::Condition;
use crate::watching::Watches;
use hp_base::{Answer, Config, Event};
use hp_core::Core;
use std::alloc::{AllocError, Global};

/// Whether a run of these events, from a new core on, meets all conditions.
pub fn meets(
    alloc: Global,
    config: Config,
    events: &[Event],
    conditions: &[Condition],
) -> Result<bool, AllocError>
    ensures { IfOk result (λ met. MatchBool met
        (SomeRunMeets config events.now conditions.now) (SomeRunMisses config events.now conditions.now)) }
{
    // The checker of borrows asks for a mention of the type that an outcome may hold.
    let _none: Option<Answer> = None;
    let mut watches = Watches::new(alloc, conditions)?;
    let mut core = Core::new(alloc, config)?;
    for event in events {
        let outcome = core.step(*event)?;
        watches.see(event, &outcome, &core)?;
    }
    Ok(watches.are_met(&core))
}
