//! Why a map stayed as it was.
use thiserror::Error;

/// Why a change was not begun.
#[derive(Clone, Copy, Debug, PartialEq, Eq, Error)]
pub enum ChangeFault {
    #[error("room for a region is wanted and was not granted")]
    Denied,
    #[error("no memory for a region")]
    Memory,
}

/// Why an index was not removed.
#[derive(Clone, Copy, Debug, PartialEq, Eq, Error)]
pub enum DelFault {
    #[error("room to split a region is wanted and was not granted")]
    Denied,
    #[error("no memory to split a region")]
    Memory,
}
