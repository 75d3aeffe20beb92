//! The phases in which calls stand, and which two of them met.
ghost use Rattle.std.specs.Prelude.{◌≡◌, ◌<◌, ◌⊎◌, ◌↔◌, length};
ghost use Rattle.hp_summary.specs.Phases.{ArePair, IsMarked, MeetsBelow, beside, pair_place};
ghost use Rattle.hp_machine.specs.declared.phase.Phase.{Phase};

use hp_core::Phase;
use hp_phases::{PHASES, place_of};

/// How many pairs of phases there are, each two in both orders.
pub(crate) const PAIRS: usize = PHASES * PHASES;

/// The place of the two phases among all pairs.
pub(crate) fn pair_place(one: Phase, other: Phase) -> usize
    ensures place { result ≡ pair_place one other }
    ensures within { result < 729 }
{
    place_of(one) * PHASES + place_of(other)
}

/// Marks two phases, in both orders.
fn mark_pair(met: &mut [bool], one: Phase, other: Phase)
    requires { length met.old ≡ 729 }
    ensures long { length met.new ≡ 729 }
    ensures marked { (p q : Phase) → IsMarked met.new p q ↔ (IsMarked met.old p q ⊎ ArePair p q one other) }
{
    met[pair_place(one, other)] = true;
    met[pair_place(other, one)] = true;
}

/// Where another task than the one at this place stands.
fn beside(phases: &[Option<Phase>], place: usize, other: usize) -> Option<Phase>
    requires { other < length phases.now }
    ensures { result ≡ beside phases.now place other }
{
    if other == place {
        return None;
    }
    phases[other]
}

/// Marks where the task at this place stands with where each other does. It is lent a slice, so that its place is known in each round.
fn mark_all(met: &mut [bool], phases: &[Option<Phase>], place: usize)
    requires long { length met.old ≡ 729 }
    requires there { place < length phases.now }
    ensures long { length met.new ≡ 729 }
    ensures marked { (p q : Phase) → IsMarked met.new p q
        ↔ (IsMarked met.old p q ⊎ MeetsBelow phases.now place (length phases.now) p q) }
{
    let Some(at) = phases[place] else {
        return;
    };
    for other in 0..phases.len() {
        if let Some(standing) = beside(phases, place, other) {
            mark_pair(met, at, standing);
        }
    }
}

/// Marks where the task at this place stands with where each other does.
pub(crate) fn mark_meetings(met: &mut Vec<bool>, phases: &[Option<Phase>], place: usize)
    requires long { length met.old.items ≡ 729 }
    requires there { place < length phases.now }
    ensures long { length met.new.items ≡ 729 }
    ensures marked { (p q : Phase) → IsMarked met.new.items p q
        ↔ (IsMarked met.old.items p q ⊎ MeetsBelow phases.now place (length phases.now) p q) }
{
    mark_all(met.as_mut_slice(), phases, place);
}
