//! What is proved of the numbers.
ghost use Rattle.std.specs.Prelude.{◌≡◌, Some};
ghost use Rattle.hp_base.specs.declared.event.Event.{Event};
ghost use Rattle.hp_machine.specs.declared.outcome.Outcome.{Outcome};
ghost use Rattle.hp_machine.specs.declared.outcome.Refusal.{Refusal};
ghost use Rattle.hp_words.specs.Words.{event_named, event_words, outcome_named, outcome_words, refusal_number};

/// Each event has numbers that name it.
pub fn each_event_is_named()
    ensures { (event : Event) → event_named (event_words event) ≡ Some event }
{}

/// Different events have different numbers.
pub fn events_have_their_own_words()
    ensures { (some other : Event) → event_words some ≡ event_words other → some ≡ other }
{}

/// Each outcome has numbers that name it.
pub fn each_outcome_is_named()
    ensures { (outcome : Outcome) → outcome_named (outcome_words outcome) ≡ Some outcome }
{}

/// Different outcomes have different numbers.
pub fn outcomes_have_their_own_words()
    ensures { (some other : Outcome) → outcome_words some ≡ outcome_words other → some ≡ other }
{}

/// Different refusals have different numbers.
pub fn refusals_have_their_own_numbers()
    ensures { (some other : Refusal) → refusal_number some ≡ refusal_number other → some ≡ other }
{}
