//! A pool to begin with.
ghost use Rattle.std.specs.Prelude.{◌≡◌, IfOk, None};
ghost use Rattle.hp_core.specs.Readers.{config_of};

use hp_base::Config;
use hp_core::Core;
use std::alloc::{AllocError, Global};

/// A pool of four frames, one file, four slots and one task, that nothing has happened to.
pub fn new_pool(alloc: Global) -> Result<Core, AllocError>
    ensures { IfOk result (λ core. config_of core
        ≡ record { frames = 4; files = 1; slots = 4; tasks = 1; quota = None }) }
{
    let config = Config::new(4, 1, 4, 1).unwrap();
    Core::new(alloc, config)
}
