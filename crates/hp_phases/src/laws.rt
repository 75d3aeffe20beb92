//! What is proved of the numbers.
ghost use Rattle.std.specs.Prelude.{◌≡◌};
ghost use Rattle.hp_machine.specs.declared.phase.Phase.{Phase};
ghost use Rattle.hp_phases.specs.Phases.{phase_number};

/// Different phases have different numbers, none of which is 0.
pub fn phases_have_their_own_numbers()
    ensures own { (some other : Phase) → phase_number some ≡ phase_number other → some ≡ other }
    ensures there { (phase : Phase) → (phase_number phase ≡ 0) → ⊥ }
{}
