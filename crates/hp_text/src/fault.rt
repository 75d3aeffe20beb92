//! Why a trace is not taken to its end.
ghost use Rattle.std.specs.Prelude.{◌≡◌};

use std::alloc::AllocError;
use thiserror::Error;

/// Why a trace was not read, written or replayed to its end.
#[derive(Clone, Copy, Debug, PartialEq, Eq, Error)]
pub enum ReplayFault {
    /// The first line that is no event, is cut, or is one too many. Lines count from 1.
    #[error("line {0} is not allowed here")]
    BadLine(u32),
    /// The first line is missing, cut, or no header.
    #[error("line 1 is not a pool header")]
    BadHeader,
    /// The reader answered an error.
    #[error("reading failed")]
    Read,
    /// The writer answered an error, or took no byte.
    #[error("writing failed")]
    Write,
    /// Memory was refused.
    #[error("out of memory")]
    Memory,
}

impl From<AllocError> for ReplayFault {
    ghost use Rattle.hp_text.specs.declared.fault.ReplayFault.TheVariants.{Memory};

    ghost from_gives = { λ _ fault. fault ≡ Memory };

    fn from(_: AllocError) -> Self {
        ReplayFault::Memory
    }
}
