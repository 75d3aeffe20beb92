//! What carries calls to a pool.
ghost use Rattle.std.specs.Prelude.{◌≡◌, ℕ, ◌++◌, ◌∷◌, [], List, IfOk, IfErr, OnErr, length};
ghost use Rattle.hp_client.specs.Heard.{heard_of, AreApart};

use crate::fault::ClientFault;
use hp_base::{Answer, Op, Task};
use hp_core::Tally;
use std::alloc::Global;

/// What carries calls to a pool, and keeps the list of all that were answered.
pub trait Driver {
    ghost use Rattle.std.specs.Prelude.{⊤};
    ghost use Rattle.hp_core.specs.declared.readers.Tally.{Tally};
    ghost use Rattle.hp_client.specs.Driving.{Hears, Rounds, Stops};

    ghost heard_by: { Hears Self };

    // The rounds that it makes.
    ghost makes: { Rounds Self };

    // What becomes of it by a round that has no end.
    ghost stops: { Stops Self };

    ghost can_tell: { Self → Tally → Type 0 };

    // What the driver needs of what it was given: nothing, where it says nothing else.
    ghost rests_on: { Type 0 } = { ⊤ };

    /// Calls of distinct tasks, at once. Their answers are in the list's order. After a fault, calls that have begun
    /// and haven't ended stay in flight.
    fn round(&mut self, alloc: Global, calls: &[(Task, Op)]) -> Result<Vec<Answer>, ClientFault>
        requires apart { AreApart calls.now }
        requires rests { rests_on }
        ensures answers { IfOk result (λ answers. length answers.items ≡ length calls.now) }
        ensures made { IfOk result (λ answers. makes self.old calls.now answers.items self.new) }
        ensures heard { IfOk result (λ answers. heard_by self.new ≡ heard_by self.old ++ heard_of calls.now answers.items) }
        ensures stopped { IfErr result (λ fault. stops fault self.old calls.now self.new) }
        ensures err { OnErr result (heard_by self.new ≡ heard_by self.old) };

    /// Takes the calls in flight to their ends, and drops their answers.
    fn finish(&mut self, alloc: Global) -> Result<(), ClientFault>
        requires { rests_on }
        ensures { heard_by self.new ≡ heard_by self.old };

    /// The numbers of the pool.
    fn tally(&self) -> Tally
        ensures { can_tell self.now result };

    /// All calls that were answered, in order, each with its task and its answer.
    fn heard(&self) -> &[(Task, Op, Answer)]
        ensures { result.now ≡ heard_by self.now };

    /// One call: a round of one.
    fn call(&mut self, alloc: Global, task: Task, op: Op) -> Result<Answer, ClientFault>
        requires { rests_on }
        ensures made { IfOk result (λ answer. makes self.old ((task, op) ∷ []) (answer ∷ []) self.new) }
        ensures heard { IfOk result (λ answer. heard_by self.new ≡ heard_by self.old ++ (task, op, answer) ∷ []) }
        ensures stopped { IfErr result (λ fault. stops fault self.old ((task, op) ∷ []) self.new) }
        ensures err { OnErr result (heard_by self.new ≡ heard_by self.old) }
    {
        let answers = self.round(alloc, &[(task, op)])?;
        Ok(answers[0])
    }
}
