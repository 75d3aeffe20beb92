//! A range of a task's virtual pages that stands for a range of a file.
use crate::numbers::{File, Index, Vpn};

/// `len` virtual pages from `base` on stand for the indices of `file` from `from` on
/// (Linux: a `vm_area_struct` of a hugetlbfs file).
#[derive(Clone, Copy, Debug, PartialEq, Eq)]
pub struct Mapping {
    pub base: Vpn,
    pub file: File,
    pub from: Index,
    pub len: u32,
}
