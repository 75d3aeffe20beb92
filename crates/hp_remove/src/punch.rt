//! One function for each phase of a punch (Linux: `hugetlbfs_punch_hole`, `remove_inode_hugepages`).
ghost use Rattle.std.specs.Prelude.{◌≡◌, ◌≤◌, ◌<◌, ◌+◌, ◌^◌, true, false, Some, IfOk, IfErr, OnErr};
ghost use Rattle.hp_machine.specs.State.{slot_of};
ghost use Rattle.hp_machine.specs.PunchRows.{PunchRow, PunchStartRow, PunchWantRow, PunchLockedRow, PunchUnmapRow, PunchEvictRow};
ghost use Rattle.hp_machine.specs.PunchRows.{PunchDeleteRow, PunchFreeRow, PunchUnslotRow, PunchLeaveRow};
ghost use Rattle.hp_machine.specs.Wants.{punch_wants};
ghost use Rattle.hp_machine.specs.Standings.{standing};
ghost use Rattle.hp_machine.specs.declared.call.Call.TheVariants as call;
ghost use Rattle.hp_parts.specs.Turns.{IfBlocked, IfWanting};
ghost use Rattle.hp_parts.specs.View.{view};
ghost use Rattle.hp_parts.specs.State.{state_of, IsSized};
ghost use Rattle.hp_parts.specs.Capacity.{MemoryStays, MemoryStaysUnless};
ghost use Rattle.hp_parts.specs.Fits.{IsTaskOf, IsFileOf, IsHeld, HasPage};
ghost use Rattle.hp_remove.specs.Fits.{PunchFits};

use crate::pages::{clear_index, evict_page};
use hp_base::{Answer, Index, LIMIT, Task};
use hp_frames::Held;
pub use hp_machine::punch::{
    Delete, Evict, Free, Hole, Leave, Locked, PunchPhase, Start, Unmap, Unslot, Want,
};
use hp_machine::{Stopped, Turn};
use hp_parts::{Parts, carry, is_bad_range, leave_lock, leave_slot, start, want_slot};
use hp_region::DelFault;

/// One step of a punch. Where it finds no memory nothing changed, and the phase is handed back. A kill is noticed
/// at its start alone.
pub fn step_punch(
    parts: &mut Parts,
    task: Task,
    killed: bool,
    grant: bool,
    phase: PunchPhase,
) -> Result<Turn<PunchPhase>, Stopped<PunchPhase>>
    requires sized { IsSized (state_of parts.old) }
    requires fits { PunchFits (view parts.old) task phase }
    ensures row { IfOk result (λ turn. PunchRow (view parts.old) task killed grant phase turn (view parts.new)) }
    ensures memory { MemoryStaysUnless grant (punch_wants (view parts.old) phase) parts.old parts.new }
    ensures blocked { IfOk result (λ turn. IfWanting (standing (call.Punch phase)).wants
        (IfBlocked turn (λ again. (again ≡ phase) × (state_of parts.new ≡ state_of parts.old)))) }
    ensures phase { IfErr result (λ stopped. stopped.phase ≡ phase) }
    ensures err { OnErr result (state_of parts.new ≡ state_of parts.old) }
    ensures growth { OnErr result (grant ≡ true) }
    ensures wanted { OnErr result (punch_wants (view parts.old) phase) }
{
    match phase {
        PunchPhase::Start(phase) => Ok(from_start(parts, task, killed, phase)),
        PunchPhase::Want(phase) => Ok(from_want(parts, task, phase)),
        PunchPhase::Locked(phase) => Ok(from_locked(parts, phase)),
        PunchPhase::Unmap(phase) => Ok(from_unmap(parts, phase)),
        PunchPhase::Evict(phase) => Ok(from_evict(parts, phase)),
        PunchPhase::Delete(phase) => from_delete(parts, grant, phase).map_err(|again| Stopped {
            phase: PunchPhase::Delete(again),
        }),
        PunchPhase::Free(phase) => Ok(from_free(parts, phase)),
        PunchPhase::Unslot(phase) => Ok(from_unslot(parts, task, phase)),
        PunchPhase::Leave(phase) => Ok(from_leave(parts, task, phase)),
    }
}

#[tactic(auto, using(hp_parts::proofs::Carrying::carry_start, hp_parts::proofs::Carrying::carry_blocked))]
fn from_start(parts: &mut Parts, task: Task, killed: bool, phase: Start) -> Turn<PunchPhase>
    requires { IsSized (state_of parts.old) }
    ensures row { PunchStartRow (view parts.old) task killed phase result (view parts.new) }
    ensures memory { MemoryStays parts.old parts.new }
    ensures same { IfBlocked result (λ again. (again ≡ PunchPhase.Start phase) × (state_of parts.new ≡ state_of parts.old)) }
{
    let hole = phase.hole;
    let index = hole.from;
    let is_bad = is_bad_range(index, hole.len);
    let turn = start(parts, task, killed, hole.file, is_bad, Answer::Killed);
    let next = PunchPhase::Want(Want { hole, index });
    carry(turn, PunchPhase::Start(phase), next)
}

#[tactic(auto, using(hp_parts::proofs::Carrying::carry_want, hp_parts::proofs::Carrying::carry_blocked))]
fn from_want(parts: &mut Parts, task: Task, phase: Want) -> Turn<PunchPhase>
    ensures row { PunchWantRow (view parts.old) task phase result (view parts.new) }
    ensures memory { MemoryStays parts.old parts.new }
    ensures same { IfBlocked result (λ again. (again ≡ PunchPhase.Want phase) × (state_of parts.new ≡ state_of parts.old)) }
{
    let (hole, index) = (phase.hole, phase.index);
    let turn = want_slot(parts, task, hole.file, index);
    let next = PunchPhase::Locked(Locked { hole, index });
    carry(turn, PunchPhase::Want(phase), next)
}

#[tactic(auto, using(hp_parts::proofs::Laws::page_laws))]
fn from_locked(parts: &mut Parts, phase: Locked) -> Turn<PunchPhase>
    requires { IsFileOf (view parts.old) phase.hole.file }
    ensures row { PunchLockedRow (view parts.old) phase result (view parts.new) }
    ensures memory { MemoryStays parts.old parts.new }
{
    let Locked { hole, index } = phase;
    match parts.files[hole.file.number() as usize].cache.get(index) {
        Some(_) => Turn::Moved(PunchPhase::Unmap(Unmap {
            hole,
            index,
            task: Task::new(1),
        })),
        None => Turn::Moved(PunchPhase::Unslot(Unslot { hole, index })),
    }
}

fn from_unmap(parts: &mut Parts, phase: Unmap) -> Turn<PunchPhase>
    requires task { IsTaskOf (view parts.old) phase.task }
    requires few { (view parts.old).geometry.tasks < 2 ^ 32 }
    ensures row { PunchUnmapRow (view parts.old) phase result (view parts.new) }
    ensures memory { MemoryStays parts.old parts.new }
{
    let Unmap { hole, index, task } = phase;
    clear_index(parts, task, hole.file, index);
    if (task.number() as usize) < parts.spaces.len() {
        let task = Task::new(task.number() + 1);
        Turn::Moved(PunchPhase::Unmap(Unmap { hole, index, task }))
    } else {
        Turn::Moved(PunchPhase::Evict(Evict { hole, index }))
    }
}

fn from_evict(parts: &mut Parts, phase: Evict) -> Turn<PunchPhase>
    requires file { IsFileOf (view parts.old) phase.hole.file }
    requires page { HasPage (view parts.old) phase.hole.file phase.index }
    ensures row { PunchEvictRow (view parts.old) phase result (view parts.new) }
    ensures memory { MemoryStays parts.old parts.new }
{
    let Evict { hole, index } = phase;
    let held = evict_page(parts, hole.file, index);
    Turn::Moved(PunchPhase::Delete(Delete { hole, index, held }))
}

#[tactic(auto, using(hp_parts::proofs::Laws::delete_laws))]
fn from_delete(parts: &mut Parts, grant: bool, phase: Delete) -> Result<Turn<PunchPhase>, Delete>
    requires file { IsFileOf (view parts.old) phase.hole.file }
    requires spared { (view parts.old).pending phase.hole.file ≤ (view parts.old).spare phase.hole.file }
    ensures row { IfOk result (λ turn. PunchDeleteRow (view parts.old) grant phase turn (view parts.new)) }
    ensures memory { MemoryStaysUnless grant (punch_wants (view parts.old) (PunchPhase.Delete phase)) parts.old parts.new }
    ensures phase { IfErr result (λ again. again ≡ phase) }
    ensures err { OnErr result (state_of parts.new ≡ state_of parts.old) }
    ensures growth { OnErr result (grant ≡ true) }
    ensures wanted { OnErr result (punch_wants (view parts.old) (PunchPhase.Delete phase)) }
{
    let Delete { hole, index, held } = phase;
    let file = &mut parts.files[hole.file.number() as usize];
    match file.map.remove_one(grant, index) {
        Ok(_) => Ok(free(hole, index, held, false)),
        Err(DelFault::Denied) => Ok(free(hole, index, held, true)),
        Err(DelFault::Memory) => Err(Delete { hole, index, held }),
    }
}

// Where the delete was denied the index is still reserved, and its page used. Else it isn't, so the page no longer is
// (Linux: `hugepage_subpool_put_pages`).
#[tactic(auto, using(hp_parts::proofs::Laws::frame_laws))]
fn from_free(parts: &mut Parts, phase: Free) -> Turn<PunchPhase>
    requires held { IsHeld (view parts.old) phase.held }
    requires used { phase.denied ≡ false → 1 ≤ (view parts.old).used }
    ensures row { PunchFreeRow (view parts.old) phase result (view parts.new) }
    ensures memory { MemoryStays parts.old parts.new }
{
    let Free {
        hole,
        index,
        held,
        denied,
    } = phase;
    if denied {
        parts.bank.restore(held);
    } else {
        parts.bank.give(held);
        parts.bank.drop_used(1);
    }
    Turn::Moved(PunchPhase::Unslot(Unslot { hole, index }))
}

fn from_unslot(parts: &mut Parts, task: Task, phase: Unslot) -> Turn<PunchPhase>
    requires held { (view parts.old).slots (slot_of (view parts.old).geometry phase.hole.file phase.index) ≡ Some task }
    requires in_limit { phase.hole.from + phase.hole.len ≤ LIMIT }
    requires index { phase.index < LIMIT }
    ensures row { PunchUnslotRow (view parts.old) phase result (view parts.new) }
    ensures memory { MemoryStays parts.old parts.new }
{
    let Unslot { hole, index } = phase;
    leave_slot(parts, task, hole.file, index);
    let next = index.number() + 1;
    if next < hole.from.number() + hole.len {
        let index = Index::new(next);
        Turn::Moved(PunchPhase::Want(Want { hole, index }))
    } else {
        Turn::Moved(PunchPhase::Leave(Leave { hole }))
    }
}

fn from_leave(parts: &mut Parts, task: Task, phase: Leave) -> Turn<PunchPhase>
    requires { (view parts.old).locks phase.hole.file ≡ Some task }
    ensures row { PunchLeaveRow (view parts.old) phase result (view parts.new) }
    ensures memory { MemoryStays parts.old parts.new }
{
    let Leave { hole } = phase;
    leave_lock(parts, task, hole.file);
    Turn::Ended(Answer::Done)
}

// To the free phase, with the frame.
fn free(hole: Hole, index: Index, held: Held, denied: bool) -> Turn<PunchPhase>
    ensures { result ≡ Turn.Moved (PunchPhase.Free (record { hole = hole; index = index; held = held; denied = denied })) }
{
    Turn::Moved(PunchPhase::Free(Free {
        hole,
        index,
        held,
        denied,
    }))
}
