//! The one table of phases: a row each.
ghost use Rattle.std.specs.Prelude.{◌≡◌, ◌↔◌, ◌<◌, ℕ, None, IfSome, IsTrue, slice_index_or};
ghost use Rattle.hp_machine.specs.Text.{phase_word};
ghost use Rattle.hp_machine.specs.declared.phase.Phase.{Phase};
ghost use Rattle.hp_phases.specs.Linux.{most_do};
ghost use Rattle.hp_phases.specs.Phases.{all_phases, moved_line, phase_number, place_of};

use crate::linux::Kernel;
use hp_machine::Phase;

/// How many phases there are.
pub const PHASES: usize = 27;

/// What is known of a phase.
struct Row {
    phase: Phase,
    // what a replay prints of a move to it
    line: &'static [u8],
    // the function of Linux that does what the next step of most calls does, as 6.1 and 6.18 name it
    linux_6_1: &'static str,
    linux_6_18: &'static str,
}

/// All phases, in the order in which they are numbered.
static TABLE: [Row; PHASES] = [
    Row {
        phase: Phase::Start,
        line: b"moved start\n",
        linux_6_1: "inode_lock",
        linux_6_18: "inode_lock",
    },
    Row {
        phase: Phase::Look,
        line: b"moved look\n",
        linux_6_1: "hugetlb_fault",
        linux_6_18: "hugetlb_fault",
    },
    Row {
        phase: Phase::Want,
        line: b"moved want\n",
        linux_6_1: "hugetlb_fault_mutex_hash",
        linux_6_18: "hugetlb_fault_mutex_hash",
    },
    Row {
        phase: Phase::Locked,
        line: b"moved locked\n",
        linux_6_1: "find_lock_page",
        linux_6_18: "filemap_lock_hugetlb_folio",
    },
    Row {
        phase: Phase::Missing,
        line: b"moved missing\n",
        linux_6_1: "region_chg",
        linux_6_18: "region_chg",
    },
    Row {
        phase: Phase::Changed,
        line: b"moved changed\n",
        linux_6_1: "alloc_huge_page",
        linux_6_18: "alloc_hugetlb_folio",
    },
    Row {
        phase: Phase::Abort,
        line: b"moved abort\n",
        linux_6_1: "region_abort",
        linux_6_18: "region_abort",
    },
    Row {
        phase: Phase::Taken,
        line: b"moved taken\n",
        linux_6_1: "region_add",
        linux_6_18: "region_add",
    },
    Row {
        phase: Phase::Settle,
        line: b"moved settle\n",
        linux_6_1: "hugetlb_acct_memory",
        linux_6_18: "hugetlb_acct_memory",
    },
    Row {
        phase: Phase::Committed,
        line: b"moved committed\n",
        linux_6_1: "hugetlb_add_to_page_cache",
        linux_6_18: "hugetlb_add_to_page_cache",
    },
    Row {
        phase: Phase::Restore,
        line: b"moved restore\n",
        linux_6_1: "restore_reserve_on_error",
        linux_6_18: "restore_reserve_on_error",
    },
    Row {
        phase: Phase::Found,
        line: b"moved found\n",
        linux_6_1: "set_huge_pte_at",
        linux_6_18: "set_huge_pte_at",
    },
    Row {
        phase: Phase::Leave,
        line: b"moved leave\n",
        linux_6_1: "inode_unlock",
        linux_6_18: "inode_unlock",
    },
    Row {
        phase: Phase::Room,
        line: b"moved room\n",
        linux_6_1: "get_unmapped_area",
        linux_6_18: "get_unmapped_area",
    },
    Row {
        phase: Phase::Accounted,
        line: b"moved accounted\n",
        linux_6_1: "region_add",
        linux_6_18: "region_add",
    },
    Row {
        phase: Phase::Enter,
        line: b"moved enter\n",
        linux_6_1: "mmap_region",
        linux_6_18: "mmap_region",
    },
    Row {
        phase: Phase::Head,
        line: b"moved head\n",
        linux_6_1: "hugetlbfs_fallocate",
        linux_6_18: "hugetlbfs_fallocate",
    },
    Row {
        phase: Phase::Unslot,
        line: b"moved unslot\n",
        linux_6_1: "mutex_unlock",
        linux_6_18: "mutex_unlock",
    },
    Row {
        phase: Phase::Extend,
        line: b"moved extend\n",
        linux_6_1: "i_size_write",
        linux_6_18: "i_size_write",
    },
    Row {
        phase: Phase::Unmap,
        line: b"moved unmap\n",
        linux_6_1: "hugetlb_unmap_file_folio",
        linux_6_18: "hugetlb_unmap_file_folio",
    },
    Row {
        phase: Phase::Evict,
        line: b"moved evict\n",
        linux_6_1: "hugetlb_delete_from_page_cache",
        linux_6_18: "hugetlb_delete_from_page_cache",
    },
    Row {
        phase: Phase::Delete,
        line: b"moved delete\n",
        linux_6_1: "region_del",
        linux_6_18: "region_del",
    },
    Row {
        phase: Phase::Free,
        line: b"moved free\n",
        linux_6_1: "free_huge_page",
        linux_6_18: "free_huge_folio",
    },
    Row {
        phase: Phase::Size,
        line: b"moved size\n",
        linux_6_1: "i_size_write",
        linux_6_18: "i_size_write",
    },
    Row {
        phase: Phase::Tail,
        line: b"moved tail\n",
        linux_6_1: "region_del",
        linux_6_18: "region_del",
    },
    Row {
        phase: Phase::Clear,
        line: b"moved clear\n",
        linux_6_1: "unmap_vmas",
        linux_6_18: "unmap_vmas",
    },
    Row {
        phase: Phase::Drop,
        line: b"moved drop\n",
        linux_6_1: "remove_vma",
        linux_6_18: "remove_vma",
    },
];

/// The place of the phase among all.
#[inline(always)]
pub fn place_of(phase: Phase) -> usize
    ensures place { result ≡ place_of phase }
    ensures within { result < 27 }
{
    phase as usize
}

/// The phase at this place among all.
pub fn phase_at(place: usize) -> Phase
    requires { place < 27 }
    ensures { result ≡ slice_index_or all_phases place Phase.Start }
{
    TABLE[place].phase
}

/// The number of a phase, counted from 1.
pub fn phase_number(phase: Phase) -> u32
    ensures { result ≡ phase_number phase }
{
    phase as u32 + 1
}

/// What a replay prints of a move to the phase: `moved`, its word, and a line end.
#[inline(always)]
pub fn moved_line(phase: Phase) -> &'static [u8]
    ensures { result.now ≡ moved_line phase }
{
    TABLE[phase as usize].line
}

/// The function of Linux that does what the next step of most calls in that phase does.
pub(crate) fn most_do(kernel: Kernel, phase: Phase) -> &'static str
    ensures { result.now ≡ most_do kernel phase }
{
    match kernel {
        Kernel::Linux6_1 => TABLE[phase as usize].linux_6_1,
        Kernel::Linux6_18 => TABLE[phase as usize].linux_6_18,
    }
}

/// Whether the phase is called so.
fn is_called(phase: Phase, word: &[u8]) -> bool
    ensures { IsTrue result ↔ (phase_word phase ≡ word.now) }
{
    let line = moved_line(phase);
    let name = &line[6..line.len() - 1];
    name == word
}

/// The phase that is called so, as a replay prints it behind `moved`.
pub fn phase_named(word: &[u8]) -> Option<Phase>
    ensures some { IfSome result (λ phase. phase_word phase ≡ word.now) }
    ensures none { result ≡ None → (phase : Phase) → phase_word phase ≡ word.now → ⊥ }
{
    for place in 0..PHASES {
        let phase = phase_at(place);
        if is_called(phase, word) {
            return Some(phase);
        }
    }
    None
}
