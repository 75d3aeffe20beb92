//! A core of one thread, to which happens again what happened to a pool.
ghost use Rattle.std.specs.Prelude.{◌≡◌, IfOk, true};
ghost use Rattle.hp_core.specs.Runs.{IsOpening};
ghost use Rattle.hp_shared.specs.Journal.{Follows};
ghost use Rattle.hp_race.specs.Parts.{GoesOn};

use hp_base::Config;
use hp_core::{Core, Outcome};
use hp_shared::{Entry, Part};
use std::alloc::{AllocError, Global};

/// A core to which all happened that happened to the pool up to its last cut, and how many entries that were.
#[derive(Drop)]
pub(crate) struct Again {
    pub(crate) core: Core,
    pub(crate) entries: u64,
}

// Whether the entry has this outcome.
fn has_outcome(entry: &Entry, outcome: Outcome) -> bool
    ensures { result ≡ true → outcome ≡ entry.now.outcome }
{
    outcome == entry.outcome
}

// Makes the entries' events. Whether each has the outcome that its entry tells.
fn happens(core: &mut Core, entries: &[Entry]) -> Result<bool, AllocError>
    ensures { IfOk result (λ same. same ≡ true → Follows core.old entries.now core.new) }
{
    for entry in entries {
        let outcome = core.step(entry.event)?;
        if !has_outcome(entry, outcome) {
            return Ok(false);
        }
    }
    Ok(true)
}

impl Again {
    /// A core to which nothing happened.
    pub(crate) fn new(alloc: Global, config: Config) -> Result<Again, AllocError>
        ensures core { IfOk result (λ again. IsOpening config again.core) }
        ensures entries { IfOk result (λ again. again.entries ≡ 0) }
    {
        Ok(Again {
            core: Core::new(alloc, config)?,
            entries: 0,
        })
    }

    /// Makes what happened in the part. Whether it begins where the one before ended, and all comes of it again that it tells.
    pub(crate) fn takes(&mut self, part: &Part) -> Result<bool, AllocError>
        ensures { IfOk result (λ goes. goes ≡ true
            → GoesOn self.old.entries self.old.core part.now.first part.now.entries.items self.new.entries self.new.core) }
    {
        if part.first != self.entries {
            return Ok(false);
        }
        if !happens(&mut self.core, part.entries.as_slice())? {
            return Ok(false);
        }
        let Some(entries) = self.entries.checked_add(part.entries.len() as u64) else {
            return Ok(false);
        };
        self.entries = entries;
        Ok(true)
    }
}
