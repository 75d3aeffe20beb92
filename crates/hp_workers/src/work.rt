//! Work that is done place by place.
ghost use Rattle.std.specs.Prelude.{ℕ, IfOk};

use std::alloc::{AllocError, Global};

/// Work at places that are numbered from 0. What is made at one depends on no other: so it doesn't matter who makes it, or when.
pub trait Work {
    /// What is made at a place.
    type Made: Drop + Send;

    // the work may be done at that place
    ghost can_make: { Self → ℕ → Type 0 };

    // that is what has to be made at that place
    ghost is_right: { Self → ℕ → Self.Made → Type 0 };

    /// Does the work at one place.
    fn make(&self, alloc: Global, place: u32) -> Result<Self::Made, AllocError>
        requires { can_make self.now place }
        ensures { IfOk result (λ made. is_right self.now place made) };

    /// Whether nothing behind this is wanted. A mere hint: no worker claims a further place then.
    fn is_last(&self, made: &Self::Made) -> bool;
}
