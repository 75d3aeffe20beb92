//! What follows from the definitions.
ghost use Rattle.std.specs.Prelude.{◌≡◌, ℕ, List};
ghost use Rattle.hp_base.specs.Text.{Sizes};
ghost use Rattle.hp_base.specs.declared.event.Event.{Event};
ghost use Rattle.hp_format.specs.Loose.{IsLoose, IsWrongAt};
ghost use Rattle.hp_format.specs.declared.fault.Reason.{Reason};
ghost use Rattle.hp_text.specs.Traces.{Spells};

/// The text of a strict trace asks for that trace, and for no other.
pub fn a_strict_trace_stays()
    ensures { (text : List ℕ) (s : Sizes) (events : List Event) (z : Sizes) (more : List Event) → Spells text s events
        → IsLoose text z more → (z ≡ s) × (more ≡ events) }
{}

/// Nothing is wrong with any line of it.
pub fn a_strict_trace_has_no_fault()
    ensures { (text : List ℕ) (s : Sizes) (events : List Event) (n : ℕ) (why : Reason) → Spells text s events
        → IsWrongAt text n why → ⊥ }
{}
