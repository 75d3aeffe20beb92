//! What C keeps of a pool.
ghost use Rattle.std.specs.Prelude.{◌≡◌, is_some};

use crate::kept_core::KeptCore;

/// An open pool, or a closed one. All of zeroes it is closed.
#[repr(C)]
#[derive(Drop)]
pub struct Handle {
    pub core: KeptCore,
    pub is_open: bool,
    /// Whether the last event changed nothing: then the next one may be such, too.
    pub was_held_back: bool,
    pub ghost same: { is_open ≡ is_some core.held },
}
