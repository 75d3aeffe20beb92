//! What comes of a call on a running pool, and why one of the pool's own calls answers nothing.
use hp_base::{Answer, Task};
use hp_machine::Refusal;
use thiserror::Error;

/// What a call came to.
#[derive(Clone, Copy, Debug, PartialEq, Eq)]
pub enum Reply {
    Ended(Answer),
    /// The pool refused to begin the call, or to go on with it.
    Refused(Refusal),
}

/// Why a call has no reply.
#[derive(Clone, Copy, Debug, PartialEq, Eq, Error)]
pub enum CallFault {
    /// Memory was wanted. Where `begun` is false nothing changed; else the call stays in flight, and `resume` goes on
    /// with it.
    #[error("out of memory")]
    Memory { begun: bool },
}

/// Why a pool isn't closed.
#[derive(Clone, Copy, Debug, PartialEq, Eq, Error)]
pub enum CloseFault {
    /// The least task without a seat among those given.
    #[error("the seat of task {0} is missing")]
    SeatMissing(Task),
    /// The first position at which the journal isn't an interleaving of the seats' lists.
    #[error("the seats' lists and the journal disagree at position {0}")]
    Disagree(u64),
    /// What lay under the lock isn't of the sizes that the pool was opened with. It can't come to that: no clause can say so.
    #[error("the pool isn't of the sizes that it was opened with")]
    OtherSizes,
    #[error("out of memory")]
    Memory,
}

/// Why a journal isn't cut. Nothing changed.
#[derive(Clone, Copy, Debug, PartialEq, Eq, Error)]
pub enum CutFault {
    /// The least task without a seat among those given.
    #[error("the seat of task {0} is missing")]
    SeatMissing(Task),
    /// The least task that has a call in flight.
    #[error("task {0} has a call in flight")]
    InFlight(Task),
    /// 2^63 or more entries were made.
    #[error("no position is left")]
    Full,
    /// The first position at which the journal isn't an interleaving of the seats' lists.
    #[error("the seats' lists and the journal disagree at position {0}")]
    Disagree(u64),
    #[error("out of memory")]
    Memory,
}
