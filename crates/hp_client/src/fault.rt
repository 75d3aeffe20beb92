//! Why a call has no answer.
ghost use Rattle.std.specs.Prelude.{◌≡◌};

use hp_core::Refusal;
use std::alloc::AllocError;
use thiserror::Error;

/// Why a call has no answer.
#[derive(Clone, Copy, Debug, PartialEq, Eq, Error)]
pub enum ClientFault {
    /// An offset, a length or an address is no multiple of the page size.
    #[error("not a multiple of the page size")]
    Unaligned,
    /// The mode has bits that aren't known, or punches without keeping the size.
    #[error("not supported")]
    NotSupported,
    /// Memory was refused: to the core's step that wanted it, or to the driver before anything happened.
    #[error("out of memory")]
    Memory,
    /// The core refused to begin a call of the round.
    #[error("refused")]
    Refused(Refusal),
    /// A whole turn of a round in which every call that hadn't ended was blocked, by calls that aren't of the round.
    #[error("stuck")]
    Stuck,
}

impl From<AllocError> for ClientFault {
    ghost use Rattle.hp_client.specs.declared.fault.ClientFault.TheVariants.{Memory};

    ghost from_gives = { λ _ fault. fault ≡ Memory };

    fn from(_: AllocError) -> Self {
        ClientFault::Memory
    }
}
