//! Why a picture is not read.
ghost use Rattle.std.specs.Prelude.{◌≡◌};

use hp_text::ReplayFault;
use std::alloc::AllocError;
use thiserror::Error;

/// Why a picture is not read.
#[derive(Clone, Copy, Debug, PartialEq, Eq, Error)]
pub enum PictureFault {
    /// The text couldn't be read, or there was no memory for it.
    #[error("{0}")]
    Stream(ReplayFault),
    /// The first line that isn't one of a picture, or that may not stand there; where the text ends too early, the line that is
    /// missing. Lines count from 1.
    #[error("line {0} is not one of a picture")]
    Line(u64),
}

impl From<AllocError> for PictureFault {
    ghost use Rattle.hp_text.specs.declared.fault.ReplayFault.TheVariants.{Memory};
    ghost use Rattle.hp_picture.specs.declared.fault.PictureFault.TheVariants.{Stream};

    ghost from_gives = { λ _ fault. fault ≡ Stream Memory };

    fn from(_error: AllocError) -> PictureFault {
        PictureFault::Stream(ReplayFault::Memory)
    }
}

impl From<ReplayFault> for PictureFault {
    ghost use Rattle.hp_picture.specs.declared.fault.PictureFault.TheVariants.{Stream};

    ghost from_gives = { λ fault picture. picture ≡ Stream fault };

    fn from(fault: ReplayFault) -> PictureFault {
        PictureFault::Stream(fault)
    }
}
