//! A driver of a core.
ghost use Rattle.std.specs.Prelude.{◌≡◌, ◌≢◌, ◌++◌, [], IfOk, OnOk, IfErr, OnErr, length};
ghost use Rattle.hp_core.specs.Readers.{calls_of};
ghost use Rattle.hp_core.specs.Runs.{IsOpening};
ghost use Rattle.hp_shared.specs.States.{tally_of};
ghost use Rattle.hp_client.specs.Heard.{DriverState, heard_of, AreApart};
ghost use Rattle.hp_client.specs.Rounds.{Ends, Round, RoundStops, FinishStops, in_flight};
ghost use Rattle.hp_client.specs.declared.fault.ClientFault.TheVariants.{Stuck};

use crate::driver::Driver;
use crate::fault::ClientFault;
use crate::heard::note_calls;
use crate::rounds::{end_calls, run_round};
use hp_base::{Answer, Config, Op, Task};
use hp_core::{Core, Tally};
use std::alloc::{AllocError, Global};
use std::marker::Model;

/// A driver of a core that it has to itself.
#[derive(Drop)]
pub struct CoreDriver {
    core: Core,
    heard: Vec<(Task, Op, Answer)>,
}

impl Model for CoreDriver {
    ghost use Rattle.std.specs.Coded.{codes, coded_ℕ};
    ghost use Rattle.std.specs.FinMap as map;
    ghost use Rattle.std.specs.Ordering.{nat_cmp};
    ghost use Rattle.hp_client.specs.Heard.{DriverState};

    ghost Value = { DriverState };

    ghost coded = { Prim.hlevel (codes, map.code {R = nat_cmp} coded_ℕ coded_ℕ) };

    ghost view = { λ driver. record { core = driver.core; heard = driver.heard.items } };
}

impl CoreDriver {
    /// A driver of this core.
    pub fn new(alloc: Global, core: Core) -> Self
        requires { calls_of core ≡ 0 }
        ensures core { result.core ≡ core }
        ensures heard { result.heard ≡ [] }
    {
        CoreDriver {
            core,
            heard: Vec::new(alloc),
        }
    }

    /// A driver of a new pool of these sizes.
    pub fn open(alloc: Global, config: Config) -> Result<Self, AllocError>
        ensures core { IfOk result (λ driver. IsOpening config driver.core) }
        ensures calls { IfOk result (λ driver. calls_of driver.core ≡ 0) }
        ensures heard { IfOk result (λ driver. driver.heard ≡ []) }
    {
        let core = Core::new(alloc, config)?;
        Ok(CoreDriver::new(alloc, core))
    }
}

/// A round makes room for what will be heard, begins its calls in the list's order, and then gives each call that hasn't
/// ended one granted step in turn, in that order, until all have ended. The first fault ends it. It is stuck only where
/// calls that aren't of the round were in flight.
impl Driver for CoreDriver {
    ghost heard_by = { λ driver. driver.heard };

    ghost makes = { λ old calls answers new. Round old.core calls answers new.core };

    ghost stops = { λ fault old calls new. RoundStops fault old.core calls new.core };

    ghost can_tell = { λ driver tally. tally ≡ tally_of driver.core };

    fn round(&mut self, alloc: Global, calls: &[(Task, Op)]) -> Result<Vec<Answer>, ClientFault>
        requires apart { AreApart calls.now }
        ensures answers { IfOk result (λ answers. length answers.items ≡ length calls.now) }
        ensures heard { IfOk result (λ answers. self.new.heard ≡ self.old.heard ++ heard_of calls.now answers.items) }
        ensures err { OnErr result (self.new.heard ≡ self.old.heard) }
        ensures round { IfOk result (λ answers. Round self.old.core calls.now answers.items self.new.core) }
        ensures stopped { IfErr result (λ fault. RoundStops fault self.old.core calls.now self.new.core) }
        ensures free { calls_of self.old.core ≡ 0 → IfErr result (λ fault. fault ≢ Stuck) }
        ensures done { calls_of self.old.core ≡ 0 → OnOk result (calls_of self.new.core ≡ 0) }
    {
        self.heard.reserve(calls.len())?;
        let answers = run_round(&mut self.core, alloc, calls)?;
        note_calls(&mut self.heard, calls, &answers);
        Ok(answers)
    }

    /// Memory is refused to it before anything happens, or to a step.
    fn finish(&mut self, alloc: Global) -> Result<(), ClientFault>
        ensures heard { self.new.heard ≡ self.old.heard }
        ensures ended { OnOk result (Ends self.old.core (in_flight self.old.core) self.new.core) }
        ensures calls { OnOk result (calls_of self.new.core ≡ 0) }
        ensures stopped { IfErr result (λ fault. FinishStops fault self.old.core self.new.core) }
    {
        end_calls(&mut self.core, alloc)
    }

    fn tally(&self) -> Tally {
        self.core.tally()
    }

    fn heard(&self) -> &[(Task, Op, Answer)] {
        self.heard.as_slice()
    }
}
