//! The phases of the end of a task (Linux: `exit_mmap`).
use hp_base::Vpn;

/// To clear the entries of the mapping that begins at `base`.
#[derive(Debug, Drop)]
pub struct Clear {
    pub base: Vpn,
}

/// To take that mapping away.
#[derive(Debug, Drop)]
pub struct Drop {
    pub base: Vpn,
}

/// Where an exit stands.
#[derive(Debug, Drop)]
pub enum ExitPhase {
    /// To look for a mapping.
    Start,
    Clear(Clear),
    Drop(Drop),
    /// No mapping is left: the task dies.
    Leave,
}
