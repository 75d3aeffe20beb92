//! What has turns: what may come after a state, and which states are as good as each other.
ghost use Rattle.std.specs.Prelude.{◌≡◌, ◌↔◌, ℕ, true, Bool, IfOk, IsTrue};
ghost use Rattle.hp_layers.specs.Layers.{AreAllAfter, IsAsGood};

use std::alloc::{AllocError, Global};
use std::hash::Hash;

/// A system whose runs are explored.
pub trait Turns {
    type State: Drop + Send + Sync;

    /// What tells states apart: where two have equal keys, either is kept.
    type Key: Eq + Hash + Drop + Send + Sync;

    // a state of this system: what it keeps of itself, as its path, is right
    ghost valid: { Self → Self.State → Type 0 };

    // one turn leads from the one state to the other
    ghost turn: { Self → Self.State → Self.State → Type 0 };

    // what is looked for holds of the state
    ghost meets: { Self → Self.State → Type 0 };

    // the second state is as good as the first: whatever comes after the first comes after it, up to this
    ghost alike: { Self → Self.State → Self.State → Type 0 };

    ghost key_of: { Self → Self.State → Self.Key };

    // how many bytes the state takes, with its key
    ghost bytes_of: { Self → Self.State → ℕ };

    /// States that one turn leads to. Each that it may lead to is there, or one that is as good. It is called once for each state of a
    /// layer, and looks at no other state.
    fn after(&self, alloc: Global, state: &Self::State) -> Result<Vec<Self::State>, AllocError>
        requires { valid self.now state.now }
        ensures { IfOk result (λ next. AreAllAfter (turn self.now) (alike self.now) state.now next.items) };

    /// The key of the state.
    fn key(&self, alloc: Global, state: &Self::State) -> Result<Self::Key, AllocError>
        ensures { IfOk result (λ key. key ≡ key_of self.now state.now) };

    /// How many bytes the state takes, with its key.
    fn bytes(&self, state: &Self::State) -> u64
        ensures { result ≡ bytes_of self.now state.now };

    /// Whether what is looked for holds of the state.
    fn is_met(&self, state: &Self::State) -> bool
        ensures { IsTrue result ↔ meets self.now state.now };

    ghost as_good: { (m : Self) → IsAsGood (valid m) (turn m) (meets m) (alike m) };

    ghost same_key: { (m : Self) (s t : Self.State) → valid m s → valid m t → Self.Key.eq (key_of m t) (key_of m s) ≡ true → alike m s t };
}
