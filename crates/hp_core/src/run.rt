//! A list of events, one after the other.
ghost use Rattle.std.specs.Prelude.{◌≡◌, ◌<◌, ◌⊎◌, List, HoldsAt, IfOk, IfErr, length, take};
ghost use Rattle.hp_machine.specs.declared.outcome.Outcome.{Outcome};
ghost use Rattle.hp_core.specs.Runs.{Run, Headline, WantsGrowth};

use crate::core_state::Core;
use hp_base::{Answer, Event};
use hp_machine::Outcome;
use std::alloc::Global;
use thiserror::Error;

/// A run found no memory: the core is that after the first `done` events.
#[derive(Clone, Copy, Debug, PartialEq, Eq, Error)]
#[error("out of memory after {done} events")]
pub struct RunFault {
    pub done: usize,
}

impl Core {
    /// The events, one after the other, with their outcomes.
    pub fn run(&mut self, alloc: Global, events: &[Event]) -> Result<Vec<Outcome>, RunFault>
        ensures run { IfOk result (λ outcomes. Run self.old events.now outcomes.items self.new) }
        ensures within { IfErr result (λ fault. fault.done < length events.now) }
        // There was no memory for the outcomes, or the event that didn't happen wants growth.
        ensures wanted { IfErr result (λ fault. (fault.done ≡ 0)
            ⊎ HoldsAt (λ event. WantsGrowth self.new.parts self.new.task_states event) events.now fault.done) }
        ensures stopped { IfErr result (λ fault. (outcomes : List Outcome) × Run self.old (take fault.done events.now) outcomes self.new) }
        ensures headline { Headline self.new }
    {
        self.always();
        // The checker of borrows asks for a mention of the type that an outcome may hold.
        let _none: Option<Answer> = None;
        let mut outcomes = Vec::new(alloc);
        if events.is_empty() {
            return Ok(outcomes);
        }
        if outcomes.reserve(events.len()).is_err() {
            return Err(RunFault { done: 0 });
        }
        for event in events {
            match self.step(*event) {
                Ok(outcome) => outcomes.push_reserved(outcome),
                Err(_) => return Err(RunFault {
                    done: outcomes.len(),
                }),
            }
        }
        Ok(outcomes)
    }
}
