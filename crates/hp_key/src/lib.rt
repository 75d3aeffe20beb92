//! The key of a core: one list of numbers, in which all that the machine sees of the core stands once, but for the names of frames.
//!
//! It stands on hp_core, whose parts and task states it reads, and takes nothing: frames in hands and changes in progress stay where they
//! are. Two cores with equal keys differ in the names of frames alone (`equal_keys_are_alike`), and no call has a frame's name in its answer:
//! so a search that has seen the key of a core has seen whatever can happen to it. `specs/Key.antt` has the layout. Which frame is free next
//! isn't in it, nor what memory is taken. It knows no run and no script.
#![tactic(auto)]

mod carried;
mod lists;
mod making;
mod numbers;
mod packing;

ghost use Rattle.std.specs.Prelude.{◌≡◌, ℕ, List};
ghost use Rattle.hp_machine.specs.Events.{IsReached};
ghost use Rattle.hp_sequential.specs.Renaming.{Alike};
ghost use Rattle.hp_core.specs.State.{CoreState, as_state};
ghost use Rattle.hp_key.specs.Key.{key_words};
ghost use Rattle.hp_key.specs.Packed.{packed};

pub use making::push_key;
pub use numbers::{push_answer, push_wide};
pub use packing::pack;

/// The states of two cores with equal keys are alike: the frames of the one have other names in the other. Words, files, mappings, which
/// pages are translated, holders, lives, calls and counts are the same. So whatever can happen to the one can happen to the other.
pub fn equal_keys_are_alike()
    ensures { (s n : CoreState) → IsReached (as_state s) → IsReached (as_state n) → key_words s ≡ key_words n
        → Alike (as_state s) (as_state n) }
{}

/// Words are told by their bytes.
pub fn equal_bytes_are_of_equal_words()
    ensures { (some other : List ℕ) → packed some ≡ packed other → some ≡ other }
{}

#[cfg(test)]
mod tests;
