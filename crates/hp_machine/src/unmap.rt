//! The phases of an unmap of a whole mapping (Linux: `unmap_region`).
use hp_base::Vpn;

/// To look for the mapping that begins at `base`.
#[derive(Debug, Drop)]
pub struct Start {
    pub base: Vpn,
}

/// To clear the mapping's entries.
#[derive(Debug, Drop)]
pub struct Clear {
    pub base: Vpn,
}

/// To take the mapping away.
#[derive(Debug, Drop)]
pub struct Drop {
    pub base: Vpn,
}

/// Where an unmap stands.
#[derive(Debug, Drop)]
pub enum UnmapPhase {
    Start(Start),
    Clear(Clear),
    Drop(Drop),
}
