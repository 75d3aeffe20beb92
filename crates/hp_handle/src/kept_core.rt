//! A core on the heap, as a pointer that C may keep, or none.
ghost use Rattle.std.specs.Prelude.{◌≡◌, Option, Some, None, IsSome};
ghost use Rattle.hp_core.specs.State.{CoreState};
ghost use Rattle.hp_handle.specs.Owned.{core_owned, held_coded};

use crate::parts::Parts;
use hp_core::Core;
use std::alloc::Global;
use std::marker::Model;

/// A core on the heap, as a pointer that C may keep, or none.
#[repr(C)]
#[derive(Drop)]
pub struct KeptCore {
    at: *mut u8,
    alloc: Global,
    pub ghost held: { Option CoreState } by { held_coded },
}

impl Model for KeptCore {
    ghost also_owns = { λ l. core_owned l.alloc l.at l.held };
}

impl KeptCore {
    /// None.
    pub fn none(alloc: Global) -> KeptCore
        ensures { result.held ≡ None }
    {
        KeptCore {
            at: std::ptr::null_mut(),
            alloc,
        }
    }

    fn of_parts(parts: Parts<Core, Global>) -> KeptCore
        ensures { result.held ≡ Some parts.value }
    {
        let Parts { ptr, alloc } = parts;
        KeptCore {
            at: ptr as *mut u8,
            alloc,
        }
    }

    fn into_parts(self) -> Parts<Core, Global>
        requires { IsSome self.held }
        ensures { self.held ≡ Some result.value }
    {
        let KeptCore { at, alloc } = self;
        Parts {
            ptr: at as *mut Core,
            alloc,
        }
    }

    /// The core of the box.
    pub fn of(core: Box<Core>) -> KeptCore
        ensures { result.held ≡ Some core.value }
    {
        KeptCore::of_parts(Parts::of(core))
    }

    /// The box again.
    pub fn into_box(self) -> Box<Core>
        requires { IsSome self.held }
        ensures { self.held ≡ Some result.value }
    {
        self.into_parts().into_box()
    }
}
