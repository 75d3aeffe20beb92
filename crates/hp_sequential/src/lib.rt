//! What calls mean, beyond the headline: frames don't show, and a call that runs alone does what its
//! operation is for.
//!
//! Which frame a page gets, and which frames a resize retires or frees, is chosen freely, and nobody
//! can tell: no outcome depends on the choice, and the states that different choices lead to are each
//! other with their frames renamed. And where no other call is in flight, an operation's many steps come
//! to one plain change, which `specs/` tells as a table. It stands on the machine's rows (hp_machine) and
//! on what every run of them keeps (hp_laws), and knows no code. As in hp_laws, each theorem is the
//! contract of a public function with an empty body.
#![tactic(auto)]

ghost use Rattle.std.specs.Prelude.{◌≡◌, ℕ, List};
ghost use Rattle.hp_base.specs.declared.event.Event.{Event};
ghost use Rattle.hp_machine.specs.State.{Geometry, State};
ghost use Rattle.hp_machine.specs.Events.{IsReached, Run, opening};
ghost use Rattle.hp_machine.specs.declared.outcome.Outcome.{Outcome};
ghost use Rattle.hp_sequential.specs.Meaning.{CallsAloneMean};
ghost use Rattle.hp_laws.specs.Histories.{events_of};
ghost use Rattle.hp_sequential.specs.Renaming.{Alike};

/// Frames don't show: two runs of one pool with the same events, resizes among them, have the same
/// outcomes, and their states are equal up to a renaming of the frames that there are then.
pub fn frames_do_not_show()
    ensures { (g : Geometry) (frames : ℕ) (es fs : List (Event × Outcome)) (s n : State)
        → Run (opening g frames) es s → Run (opening g frames) fs n → events_of fs ≡ events_of es
        → (fs ≡ es) × Alike s n }
{}

/// Where no call is in flight, a call of an alive task, run alone by granted steps to its end, has the
/// answer and leads to the state that the table tells of its operation. Nothing is said of spare
/// descriptors, nor of capacity prepared for a mapping.
pub fn a_call_alone_has_its_plain_meaning()
    ensures { (s : State) → IsReached s → CallsAloneMean s }
{}
