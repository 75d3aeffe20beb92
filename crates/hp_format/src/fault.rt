//! What is wrong with a text in the loose form.
ghost use Rattle.std.specs.Prelude.{◌≡◌};
ghost use Rattle.hp_text.specs.declared.fault.ReplayFault.TheVariants.{Memory};
ghost use Rattle.hp_format.specs.declared.fault.LooseFault.TheVariants.{Stream};

use hp_base::{Answer, Task};
use hp_core::Refusal;
use hp_text::ReplayFault;
use std::alloc::AllocError;
use thiserror::Error;

/// Why a line asks for nothing that can be written.
#[derive(Clone, Copy, Debug, PartialEq, Eq, Error)]
pub enum Reason {
    /// No pool's header comes first.
    #[error("is not a pool header")]
    Header,
    /// The words are no event, and no steps that are repeated.
    #[error("is not an event")]
    NoEvent,
    /// More events than a trace has.
    #[error("makes more than 1000000 events")]
    TooMany,
    /// The call of the task ended otherwise than it was asked for.
    #[error("names a phase that the call doesn't reach: it ended {0}")]
    Ended(Answer),
    /// Before that is reached, the next step waits for another task.
    #[error("names a step that is blocked by task {0}")]
    Blocked(Task),
    /// The task makes no step.
    #[error("names a step that is refused with {0}")]
    Refused(Refusal),
}

/// What is wrong with a text in the loose form.
#[derive(Clone, Copy, Debug, PartialEq, Eq, Error)]
pub enum LooseFault {
    /// The text couldn't be read, or there was no memory for it.
    #[error("{0}")]
    Stream(ReplayFault),
    /// The first line that is wrong, counted from 1, and why.
    #[error("line {0} {1}")]
    Line(u64, Reason),
}

impl From<AllocError> for LooseFault {
    ghost from_gives = { λ _ fault. fault ≡ Stream Memory };

    fn from(_error: AllocError) -> LooseFault {
        LooseFault::Stream(ReplayFault::Memory)
    }
}

impl From<ReplayFault> for LooseFault {
    ghost from_gives = { λ fault loose. loose ≡ Stream fault };

    fn from(fault: ReplayFault) -> LooseFault {
        LooseFault::Stream(fault)
    }
}
