//! One function for each phase of a truncation (Linux: `hugetlb_vmtruncate`, `remove_inode_hugepages`).
ghost use Rattle.std.specs.Prelude.{◌≡◌, ◌≤◌, ◌<◌, ◌+◌, ◌^◌, ℕ, Some, max};
ghost use Rattle.hp_base.specs.Indices.{count_within};
ghost use Rattle.hp_base.specs.Numbers.{put};
ghost use Rattle.hp_base.specs.Pages.{IsPagesEnd};
ghost use Rattle.hp_machine.specs.State.{slot_of};
ghost use Rattle.hp_machine.specs.TruncateRows.{TruncateRow, TruncateStartRow, TruncateSizeRow, TruncateWantRow};
ghost use Rattle.hp_machine.specs.TruncateRows.{TruncateLockedRow, TruncateUnmapRow, TruncateEvictRow, TruncateFreeRow};
ghost use Rattle.hp_machine.specs.TruncateRows.{TruncateUnslotRow, TruncateTailRow, TruncateSettleRow, TruncateLeaveRow};
ghost use Rattle.hp_machine.specs.Standings.{standing};
ghost use Rattle.hp_machine.specs.declared.call.Call.TheVariants as call;
ghost use Rattle.hp_parts.specs.Turns.{IfBlocked, IfWanting};
ghost use Rattle.hp_parts.specs.View.{view};
ghost use Rattle.hp_parts.specs.State.{state_of, IsSized};
ghost use Rattle.hp_parts.specs.Capacity.{MemoryStays};
ghost use Rattle.hp_parts.specs.Fits.{IsTaskOf, IsFileOf, IsHeld, HasPage};
ghost use Rattle.hp_remove.specs.Fits.{TruncateFits};

use crate::pages::{clear_index, evict_page};
use hp_base::{Answer, File, Index, LIMIT, Task};
use hp_machine::Turn;
pub use hp_machine::truncate::{
    Evict, Free, Leave, Locked, Settle, Size, Start, Tail, TruncatePhase, Unmap, Unslot, Want,
};
use hp_parts::{Parts, carry, leave_lock, leave_slot, start, want_slot};

/// One step of a truncation. It wants no memory, so `grant`, which every step takes, changes nothing; a kill is
/// noticed at its start alone.
pub fn step_truncate(
    parts: &mut Parts,
    task: Task,
    killed: bool,
    grant: bool,
    phase: TruncatePhase,
) -> Turn<TruncatePhase>
    requires sized { IsSized (state_of parts.old) }
    requires fits { TruncateFits (view parts.old) task phase }
    ensures row { TruncateRow (view parts.old) task killed grant phase result (view parts.new) }
    ensures memory { MemoryStays parts.old parts.new }
    ensures blocked { IfWanting (standing (call.Truncate phase)).wants
        (IfBlocked result (λ again. (again ≡ phase) × (state_of parts.new ≡ state_of parts.old))) }
{
    let _ = grant;
    match phase {
        TruncatePhase::Start(phase) => from_start(parts, task, killed, phase),
        TruncatePhase::Size(phase) => from_size(parts, phase),
        TruncatePhase::Want(phase) => from_want(parts, task, phase),
        TruncatePhase::Locked(phase) => from_locked(parts, phase),
        TruncatePhase::Unmap(phase) => from_unmap(parts, phase),
        TruncatePhase::Evict(phase) => from_evict(parts, phase),
        TruncatePhase::Free(phase) => from_free(parts, phase),
        TruncatePhase::Unslot(phase) => from_unslot(parts, task, phase),
        TruncatePhase::Tail(phase) => from_tail(parts, phase),
        TruncatePhase::Settle(phase) => from_settle(parts, phase),
        TruncatePhase::Leave(phase) => from_leave(parts, task, phase),
    }
}

#[tactic(auto, using(hp_parts::proofs::Carrying::carry_start, hp_parts::proofs::Carrying::carry_blocked))]
fn from_start(parts: &mut Parts, task: Task, killed: bool, phase: Start) -> Turn<TruncatePhase>
    requires { IsSized (state_of parts.old) }
    ensures row { TruncateStartRow (view parts.old) task killed phase result (view parts.new) }
    ensures memory { MemoryStays parts.old parts.new }
    ensures same { IfBlocked result (λ again. (again ≡ TruncatePhase.Start phase) × (state_of parts.new ≡ state_of parts.old)) }
{
    let truncation = phase.truncation;
    let is_bad = truncation.new > LIMIT;
    let turn = start(parts, task, killed, truncation.file, is_bad, Answer::Killed);
    let next = TruncatePhase::Size(Size { truncation });
    carry(turn, TruncatePhase::Start(phase), next)
}

#[tactic(auto, using(crate::proofs::Leading::size_row))]
fn from_size(parts: &mut Parts, phase: Size) -> Turn<TruncatePhase>
    requires { IsFileOf (view parts.old) phase.truncation.file }
    ensures row { TruncateSizeRow (view parts.old) phase result (view parts.new) }
    ensures memory { MemoryStays parts.old parts.new }
{
    let Size { truncation } = phase;
    let top = set_size(parts, truncation.file, truncation.new);
    if truncation.new < top {
        Turn::Moved(TruncatePhase::Want(Want {
            truncation,
            index: Index::new(top - 1),
            evicted: 0,
        }))
    } else {
        Turn::Moved(TruncatePhase::Tail(Tail {
            truncation,
            evicted: 0,
        }))
    }
}

// Sets the file's size, and tells where the sweep begins: the larger of the old size and the end of the
// pages.
#[tactic(auto, using(hp_parts::proofs::Laws::size_laws, hp_parts::proofs::Laws::pages_are))]
fn set_size(parts: &mut Parts, file: File, new: u32) -> u32
    requires { IsFileOf (view parts.old) file }
    ensures top { (end : ℕ) × IsPagesEnd ((view parts.old).pages file) end × (result ≡ max ((view parts.old).size file) end) }
    ensures after { view parts.new ≡ record (view parts.old) { size = put (view parts.old).size file new } }
    ensures memory { MemoryStays parts.old parts.new }
{
    let file = &mut parts.files[file.number() as usize];
    let top = file.size.max(file.cache.top());
    file.size = new;
    top
}

#[tactic(auto, using(hp_parts::proofs::Carrying::carry_want, hp_parts::proofs::Carrying::carry_blocked))]
fn from_want(parts: &mut Parts, task: Task, phase: Want) -> Turn<TruncatePhase>
    ensures row { TruncateWantRow (view parts.old) task phase result (view parts.new) }
    ensures memory { MemoryStays parts.old parts.new }
    ensures same { IfBlocked result (λ again. (again ≡ TruncatePhase.Want phase) × (state_of parts.new ≡ state_of parts.old)) }
{
    let (truncation, index, evicted) = (phase.truncation, phase.index, phase.evicted);
    let turn = want_slot(parts, task, truncation.file, index);
    let next = TruncatePhase::Locked(Locked {
        truncation,
        index,
        evicted,
    });
    carry(turn, TruncatePhase::Want(phase), next)
}

#[tactic(auto, using(hp_parts::proofs::Laws::page_laws))]
fn from_locked(parts: &mut Parts, phase: Locked) -> Turn<TruncatePhase>
    requires { IsFileOf (view parts.old) phase.truncation.file }
    ensures row { TruncateLockedRow (view parts.old) phase result (view parts.new) }
    ensures memory { MemoryStays parts.old parts.new }
{
    let Locked {
        truncation,
        index,
        evicted,
    } = phase;
    match parts.files[truncation.file.number() as usize]
        .cache
        .get(index)
    {
        Some(_) => Turn::Moved(TruncatePhase::Unmap(Unmap {
            truncation,
            index,
            evicted,
            task: Task::new(1),
        })),
        None => Turn::Moved(TruncatePhase::Unslot(Unslot {
            truncation,
            index,
            evicted,
        })),
    }
}

fn from_unmap(parts: &mut Parts, phase: Unmap) -> Turn<TruncatePhase>
    requires task { IsTaskOf (view parts.old) phase.task }
    requires few { (view parts.old).geometry.tasks < 2 ^ 32 }
    ensures row { TruncateUnmapRow (view parts.old) phase result (view parts.new) }
    ensures memory { MemoryStays parts.old parts.new }
{
    let Unmap {
        truncation,
        index,
        evicted,
        task,
    } = phase;
    clear_index(parts, task, truncation.file, index);
    if (task.number() as usize) < parts.spaces.len() {
        Turn::Moved(TruncatePhase::Unmap(Unmap {
            truncation,
            index,
            evicted,
            task: Task::new(task.number() + 1),
        }))
    } else {
        Turn::Moved(TruncatePhase::Evict(Evict {
            truncation,
            index,
            evicted,
        }))
    }
}

fn from_evict(parts: &mut Parts, phase: Evict) -> Turn<TruncatePhase>
    requires file { IsFileOf (view parts.old) phase.truncation.file }
    requires page { HasPage (view parts.old) phase.truncation.file phase.index }
    requires few { phase.evicted ≤ LIMIT }
    ensures row { TruncateEvictRow (view parts.old) phase result (view parts.new) }
    ensures memory { MemoryStays parts.old parts.new }
{
    let Evict {
        truncation,
        index,
        evicted,
    } = phase;
    let held = evict_page(parts, truncation.file, index);
    Turn::Moved(TruncatePhase::Free(Free {
        truncation,
        index,
        evicted: evicted + 1,
        held,
    }))
}

#[tactic(auto, using(hp_parts::proofs::Laws::frame_laws))]
fn from_free(parts: &mut Parts, phase: Free) -> Turn<TruncatePhase>
    requires { IsHeld (view parts.old) phase.held }
    ensures row { TruncateFreeRow (view parts.old) phase result (view parts.new) }
    ensures memory { MemoryStays parts.old parts.new }
{
    let Free {
        truncation,
        index,
        evicted,
        held,
    } = phase;
    parts.bank.give(held);
    Turn::Moved(TruncatePhase::Unslot(Unslot {
        truncation,
        index,
        evicted,
    }))
}

fn from_unslot(parts: &mut Parts, task: Task, phase: Unslot) -> Turn<TruncatePhase>
    requires { (view parts.old).slots (slot_of (view parts.old).geometry phase.truncation.file phase.index) ≡ Some task }
    ensures row { TruncateUnslotRow (view parts.old) phase result (view parts.new) }
    ensures memory { MemoryStays parts.old parts.new }
{
    let Unslot {
        truncation,
        index,
        evicted,
    } = phase;
    leave_slot(parts, task, truncation.file, index);
    if truncation.new < index.number() {
        Turn::Moved(TruncatePhase::Want(Want {
            truncation,
            index: Index::new(index.number() - 1),
            evicted,
        }))
    } else {
        Turn::Moved(TruncatePhase::Tail(Tail {
            truncation,
            evicted,
        }))
    }
}

#[tactic(auto, using(hp_parts::proofs::Laws::tail_laws))]
fn from_tail(parts: &mut Parts, phase: Tail) -> Turn<TruncatePhase>
    requires file { IsFileOf (view parts.old) phase.truncation.file }
    requires evicted { phase.evicted ≤ count_within ((view parts.old).reserved phase.truncation.file) phase.truncation.new LIMIT }
    ensures row { TruncateTailRow (view parts.old) phase result (view parts.new) }
    ensures memory { MemoryStays parts.old parts.new }
{
    let Tail {
        truncation,
        evicted,
    } = phase;
    let file = &mut parts.files[truncation.file.number() as usize];
    let removed = file.map.remove_tail(Index::new(truncation.new));
    let excess = removed - evicted;
    Turn::Moved(TruncatePhase::Settle(Settle {
        truncation,
        excess,
        evicted,
    }))
}

// The indices that went and had no page give their reservations back; neither they nor those whose pages were evicted
// are used any more (Linux: `hugetlb_unreserve_pages`, `hugepage_subpool_put_pages`).
fn from_settle(parts: &mut Parts, phase: Settle) -> Turn<TruncatePhase>
    requires resv { phase.excess ≤ (view parts.old).resv }
    requires used { phase.excess + phase.evicted ≤ (view parts.old).used }
    ensures row { TruncateSettleRow (view parts.old) phase result (view parts.new) }
    ensures memory { MemoryStays parts.old parts.new }
{
    let Settle {
        truncation,
        excess,
        evicted,
    } = phase;
    parts.bank.settle(excess);
    parts.bank.drop_used(evicted);
    Turn::Moved(TruncatePhase::Leave(Leave { truncation }))
}

fn from_leave(parts: &mut Parts, task: Task, phase: Leave) -> Turn<TruncatePhase>
    requires { (view parts.old).locks phase.truncation.file ≡ Some task }
    ensures row { TruncateLeaveRow (view parts.old) phase result (view parts.new) }
    ensures memory { MemoryStays parts.old parts.new }
{
    let Leave { truncation } = phase;
    leave_lock(parts, task, truncation.file);
    Turn::Ended(Answer::Done)
}
