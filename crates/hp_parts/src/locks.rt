//! How a call on a file starts, and how the locks of files and the slots of indices are taken and left.
ghost use Rattle.std.specs.Prelude.{◌≡◌, ◌+◌, ◌==◌, ◌||◌, nat_lt, Some};
ghost use Rattle.hp_machine.specs.State.{slot_of};
ghost use Rattle.hp_machine.specs.Parts.{StartRow, WantSlotRow, unslotted, unlocked};
ghost use Rattle.hp_parts.specs.View.{view};
ghost use Rattle.hp_parts.specs.State.{state_of, IsSized};
ghost use Rattle.hp_parts.specs.Capacity.{MemoryStays};
ghost use Rattle.hp_parts.specs.Turns.{carried, IfBlocked};

use crate::parts::Parts;
use hp_base::{Answer, File, Index, LIMIT, Task};
use hp_machine::Turn;

/// Whether the range of `len` pages from index `from` on is empty, or ends above the limit of a file.
pub fn is_bad_range(from: Index, len: u32) -> bool
    ensures { result ≡ ((len == 0) || nat_lt LIMIT (from + len)) }
{
    len == 0 || u64::from(from.number()) + u64::from(len) > u64::from(LIMIT)
}

/// The start of a call on a file. It ends with `BadFile` where there is no such file, with `BadRange` where
/// `is_bad`, and with `at_kill` where the task was killed, in that order. Else it takes the file's lock, or is
/// blocked by the task that holds it (Linux: `inode_lock`).
#[tactic(auto, using(crate::proofs::Laws::lock_laws))]
pub fn start(
    parts: &mut Parts,
    task: Task,
    killed: bool,
    file: File,
    is_bad: bool,
    at_kill: Answer,
) -> Turn<()>
    requires { IsSized (state_of parts.old) }
    ensures row { StartRow (view parts.old) task killed file is_bad at_kill tt tt result (view parts.new) }
    ensures memory { MemoryStays parts.old parts.new }
    ensures same { IfBlocked result (λ _. state_of parts.new ≡ state_of parts.old) }
{
    let files = parts.files.len();
    if file.number() as usize >= files {
        return Turn::Ended(Answer::BadFile);
    }
    if is_bad {
        return Turn::Ended(Answer::BadRange);
    }
    if killed {
        return Turn::Ended(at_kill);
    }
    match parts.locks.try_take(file.number(), task) {
        Ok(()) => Turn::Moved(()),
        Err(fault) => Turn::Blocked((), fault.holder()),
    }
}

/// Takes the slot of an index, or tells who holds it (Linux: `hugetlb_fault_mutex_table`).
#[tactic(auto, using(crate::proofs::Laws::lock_laws))]
pub fn want_slot(parts: &mut Parts, task: Task, file: File, index: Index) -> Turn<()>
    ensures row { WantSlotRow (view parts.old) task file index tt tt result (view parts.new) }
    ensures memory { MemoryStays parts.old parts.new }
    ensures same { IfBlocked result (λ _. state_of parts.new ≡ state_of parts.old) }
{
    let slot = parts.slots.slot_of(file, index);
    match parts.slots.try_take(slot, task) {
        Ok(()) => Turn::Moved(()),
        Err(fault) => Turn::Blocked((), fault.holder()),
    }
}

/// The turn of a call that stands at `here` and moves to `next`.
pub fn carry<P: Drop>(turn: Turn<()>, here: P, next: P) -> Turn<P>
    ensures { result ≡ carried here next turn }
{
    match turn {
        Turn::Moved(()) => Turn::Moved(next),
        Turn::Blocked((), holder) => Turn::Blocked(here, holder),
        Turn::Ended(answer) => Turn::Ended(answer),
    }
}

/// Leaves the slot of an index, which the task holds.
#[tactic(auto, using(crate::proofs::Laws::lock_laws))]
pub fn leave_slot(parts: &mut Parts, task: Task, file: File, index: Index)
    requires { (view parts.old).slots (slot_of (view parts.old).geometry file index) ≡ Some task }
    ensures left { view parts.new ≡ unslotted (view parts.old) file index }
    ensures memory { MemoryStays parts.old parts.new }
{
    let slot = parts.slots.slot_of(file, index);
    parts.slots.leave(slot, task);
}

/// Leaves the file's lock, which the task holds (Linux: `inode_unlock`).
#[tactic(auto, using(crate::proofs::Laws::lock_laws))]
pub fn leave_lock(parts: &mut Parts, task: Task, file: File)
    requires { (view parts.old).locks file ≡ Some task }
    ensures left { view parts.new ≡ unlocked (view parts.old) file }
    ensures memory { MemoryStays parts.old parts.new }
{
    parts.locks.leave(file.number(), task);
}
