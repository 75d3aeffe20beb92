//! Names that no command prints.
use crate::{Kernel, Locks, linux_name, phase_named};
use hp_machine::Phase;
use std::test::Fail;

#[test]
fn a_kernel_has_its_own_names(rt: HostRuntime) -> Result<(), Fail> {
    let older = linux_name(Kernel::Linux6_1, Phase::Changed, Locks::Slot);
    assert_eq!(rt; older, "alloc_huge_page");
    let newer = linux_name(Kernel::Linux6_18, Phase::Changed, Locks::Slot);
    assert_eq!(rt; newer, "alloc_hugetlb_folio");
    Ok(())
}

#[test]
fn a_word_with_more_behind_it_is_none(rt: HostRuntime) -> Result<(), Fail> {
    assert!(rt; phase_named(b"unslot") == Some(Phase::Unslot));
    assert!(rt; phase_named(b"unslots").is_none());
    Ok(())
}
