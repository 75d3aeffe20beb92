//! Whether a search for conditions may be eager.
ghost use Rattle.std.specs.Prelude.{◌≡◌, ◌↔◌, true, All, IsTrue};
ghost use Rattle.hp_every.specs.Eager.{IsKept, MayBeEager};

use crate::path::has_final;
use hp_hunt::{Condition, Sought};

/// Whether what is sought is found as well where a task begins its call or makes a private step sooner.
fn is_kept(sought: &Sought) -> bool
    ensures { IsTrue result ↔ IsKept sought.now }
{
    match sought {
        Sought::Answer(answer) => answer.counted.is_none(),
        Sought::Blocked(_) | Sought::Meet { .. } => false,
        Sought::Final(_) => true,
    }
}

fn are_kept(conditions: &[Condition]) -> bool
    ensures { result ≡ true → All (λ c. IsKept c.sought) conditions.now }
{
    for condition in conditions {
        if !is_kept(&condition.sought) {
            return false;
        }
    }
    true
}

/// Whether each condition is kept, and one is on a whole schedule.
pub(crate) fn may_be_eager(conditions: &[Condition]) -> bool
    ensures { result ≡ true → MayBeEager conditions.now }
{
    are_kept(conditions) && has_final(conditions)
}
