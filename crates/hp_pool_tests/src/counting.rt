//! Which events are counted.
ghost use Rattle.std.specs.Prelude.{◌≡◌};
ghost use Rattle.hp_pool_tests.specs.Counting.{is_of_a_call};

use hp_core::Outcome;

/// Whether what an event was told says that a call went on: it began, moved or ended.
pub fn is_of_a_call(outcome: Outcome) -> bool
    ensures { result ≡ is_of_a_call outcome }
{
    match outcome {
        Outcome::Begun | Outcome::Moved(_) | Outcome::Ended(_) => true,
        Outcome::Blocked(_) | Outcome::Marked | Outcome::Resized(_) | Outcome::Refused(_) => false,
    }
}
