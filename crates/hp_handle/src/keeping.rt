//! A core goes to C, and comes back.
ghost use Rattle.std.specs.Prelude.{◌≡◌, Some, None};
ghost use Rattle.std.specs.Fn.{FnOnceReturnsAt};
ghost use Rattle.std.specs.Option.{option_map};
ghost use Rattle.hp_handle.specs.Held.{Reads, held};

use crate::handle::Handle;
use crate::kept_core::KeptCore;
use hp_core::Core;
use std::alloc::Global;

impl Handle {
    pub fn closed(alloc: Global) -> Handle
        ensures { held result ≡ None }
    {
        Handle {
            core: KeptCore::none(alloc),
            is_open: false,
            was_held_back: false,
        }
    }

    /// The core of the box, for C to keep.
    pub fn open(core: Box<Core>) -> Handle
        ensures { held result ≡ Some core.value }
    {
        Handle {
            core: KeptCore::of(core),
            is_open: true,
            was_held_back: false,
        }
    }

    /// The core that is kept, if the pool is open. The pool is closed then.
    pub fn take(&mut self, alloc: Global) -> Option<Box<Core>>
        ensures core { option_map (λ core. core.value) result ≡ held self.old }
        ensures closed { held self.new ≡ None }
    {
        let Handle { core, is_open, .. } = std::mem::replace(self, Handle::closed(alloc));
        if is_open { Some(core.into_box()) } else { None }
    }

    /// What `read` returns of the core that is kept, if the pool is open. The core stays.
    pub fn read<W, F: FnOnce(&Core) -> W>(&mut self, alloc: Global, read: F) -> Option<W>
        requires { F.IsAlwaysCallable read }
        ensures same { held self.new ≡ held self.old }
        ensures read { Reads (λ core words. FnOnceReturnsAt F.FnOnce read core words) (held self.old) result }
    {
        let Some(core) = self.take(alloc) else {
            return None;
        };
        let words = read(&core);
        *self = Handle::open(core);
        Some(words)
    }
}
