//! What does in Linux what a step of a call does.
ghost use Rattle.std.specs.Prelude.{◌≡◌};
ghost use Rattle.hp_phases.specs.Linux.{linux_word};

use crate::table::most_do;
use hp_machine::Phase;

/// By which version of Linux functions are named.
#[derive(Clone, Copy, Debug, PartialEq, Eq)]
pub enum Kernel {
    Linux6_1,
    Linux6_18,
}

/// Which locks a call holds. In some phases those that hold others call other functions.
#[derive(Clone, Copy, Debug, PartialEq, Eq)]
pub enum Locks {
    /// None.
    Neither,
    /// The slot of an index.
    Slot,
    /// A file's lock.
    File,
    /// Both.
    Both,
}

/// The function of Linux that does what a step from that phase does: the table "The phases in Linux" of `docs/MACHINE.md`. The call holds
/// these locks behind the step; where it ends by it, it held them before.
pub fn linux_name(kernel: Kernel, phase: Phase, locks: Locks) -> &'static str
    ensures { result.now ≡ linux_word kernel phase locks }
{
    match (phase, locks) {
        (Phase::Start, Locks::Neither) => "find_vma",
        (Phase::Changed, Locks::File) => "hugetlb_acct_memory",
        (Phase::Leave, Locks::Neither) => "do_exit",
        (Phase::Leave, Locks::Slot) => "mutex_unlock",
        _ => most_do(kernel, phase),
    }
}
