//! Of each operation, the call that stands in one of its phases.
ghost use Rattle.std.specs.Prelude.{◌≡◌};
ghost use Rattle.hp_machine.specs.declared.call.Call.{Call};

use hp_machine::Call;
use hp_machine::alloc::AllocPhase;
use hp_machine::exit::ExitPhase;
use hp_machine::map::MapPhase;
use hp_machine::punch::PunchPhase;
use hp_machine::touch::TouchPhase;
use hp_machine::truncate::TruncatePhase;
use hp_machine::unmap::UnmapPhase;

/// The phases of one operation.
pub trait InFlight {
    ghost call_of: { Self → Call };

    /// The call that stands in this phase.
    fn into_call(self) -> Call
        ensures { result ≡ call_of self };
}

impl InFlight for TouchPhase {
    ghost call_of = { Call.Touch };

    fn into_call(self) -> Call {
        Call::Touch(self)
    }
}

impl InFlight for MapPhase {
    ghost call_of = { Call.Map };

    fn into_call(self) -> Call {
        Call::Map(self)
    }
}

impl InFlight for AllocPhase {
    ghost call_of = { Call.Alloc };

    fn into_call(self) -> Call {
        Call::Alloc(self)
    }
}

impl InFlight for PunchPhase {
    ghost call_of = { Call.Punch };

    fn into_call(self) -> Call {
        Call::Punch(self)
    }
}

impl InFlight for TruncatePhase {
    ghost call_of = { Call.Truncate };

    fn into_call(self) -> Call {
        Call::Truncate(self)
    }
}

impl InFlight for UnmapPhase {
    ghost call_of = { Call.Unmap };

    fn into_call(self) -> Call {
        Call::Unmap(self)
    }
}

impl InFlight for ExitPhase {
    ghost call_of = { Call.Exit };

    fn into_call(self) -> Call {
        Call::Exit(self)
    }
}
