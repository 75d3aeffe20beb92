//! A region of a map.
use hp_base::Index;

/// The indices from `from` up to `to`, which is not one of them (Linux: `struct file_region`).
#[derive(Clone, Copy, Debug, PartialEq, Eq)]
pub struct Region {
    pub from: Index,
    pub to: Index,
}
