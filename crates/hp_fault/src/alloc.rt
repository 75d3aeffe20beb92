//! One function for each phase of an allocation (Linux: `hugetlbfs_fallocate`).
ghost use Rattle.std.specs.Prelude.{◌≡◌, ◌≤◌, ◌<◌, ◌+◌, ◌^◌, true, None, Some, IfOk, IfErr, OnErr};
ghost use Rattle.hp_machine.specs.State.{Pool, slot_of};
ghost use Rattle.hp_machine.specs.AllocRows.{AllocRow, AllocStartRow, AllocHeadRow, AllocWantRow, AllocLockedRow};
ghost use Rattle.hp_machine.specs.AllocRows.{AllocMissingRow, AllocChangedRow, AllocAbortRow, AllocTakenRow, AllocSettleRow};
ghost use Rattle.hp_machine.specs.AllocRows.{AllocCommittedRow, AllocRestoreRow, AllocUnslotRow, AllocExtendRow, AllocLeaveRow};
ghost use Rattle.hp_machine.specs.Wants.{alloc_wants};
ghost use Rattle.hp_machine.specs.Standings.{standing};
ghost use Rattle.hp_machine.specs.declared.call.Call.TheVariants as call;
ghost use Rattle.hp_parts.specs.Turns.{IfBlocked, IfWanting};
ghost use Rattle.hp_parts.specs.View.{view};
ghost use Rattle.hp_parts.specs.State.{state_of, IsSized};
ghost use Rattle.hp_parts.specs.Capacity.{MemoryStays, MemoryStaysUnless};
ghost use Rattle.hp_fault.specs.Fits.{AllocFits};
ghost use Rattle.hp_parts.specs.Fits.{IsFileOf, IsHeld};

use crate::pages::{place_page, take_frame};
use hp_base::{Answer, Index, LIMIT, Task};
pub use hp_machine::alloc::{
    Abort, AllocPhase, Allocation, Changed, Committed, Extend, Head, Leave, Locked, Missing,
    Restore, Settle, Start, Taken, Unslot, Want,
};
use hp_machine::{Stopped, Turn};
use hp_parts::{Parts, carry, is_bad_range, leave_lock, leave_slot, start, want_slot};
use hp_region::{ChangeFault, Pending};

/// One step of an allocation. Where it finds no memory nothing changed, and the phase is handed back. A kill is
/// noticed at its start, between two indices, where it wants a slot, and where it would take a frame.
pub fn step_alloc(
    parts: &mut Parts,
    task: Task,
    killed: bool,
    grant: bool,
    phase: AllocPhase,
) -> Result<Turn<AllocPhase>, Stopped<AllocPhase>>
    requires sized { IsSized (state_of parts.old) }
    requires fits { AllocFits (view parts.old) task phase }
    ensures row { IfOk result (λ turn. AllocRow (view parts.old) task killed grant phase turn (view parts.new)) }
    ensures memory { MemoryStaysUnless grant (alloc_wants (view parts.old) phase) parts.old parts.new }
    ensures blocked { IfOk result (λ turn. IfWanting (standing (call.Alloc phase)).wants
        (IfBlocked turn (λ again. (again ≡ phase) × (state_of parts.new ≡ state_of parts.old)))) }
    ensures phase { IfErr result (λ stopped. stopped.phase ≡ phase) }
    ensures err { OnErr result (state_of parts.new ≡ state_of parts.old) }
    ensures growth { OnErr result (grant ≡ true) }
    ensures wanted { OnErr result (alloc_wants (view parts.old) phase) }
{
    match phase {
        AllocPhase::Start(phase) => Ok(from_start(parts, task, killed, phase)),
        AllocPhase::Head(phase) => Ok(from_head(killed, phase)),
        AllocPhase::Want(phase) => Ok(from_want(parts, task, killed, phase)),
        AllocPhase::Locked(phase) => Ok(from_locked(parts, phase)),
        AllocPhase::Missing(phase) => from_missing(parts, grant, phase).map_err(|again| Stopped {
            phase: AllocPhase::Missing(again),
        }),
        AllocPhase::Changed(phase) => Ok(from_changed(parts, killed, phase)),
        AllocPhase::Abort(phase) => Ok(from_abort(parts, phase)),
        AllocPhase::Taken(phase) => Ok(from_taken(parts, phase)),
        AllocPhase::Settle(phase) => Ok(from_settle(parts, phase)),
        AllocPhase::Committed(phase) => from_committed(parts, grant, phase).map_err(
            |again| Stopped {
                phase: AllocPhase::Committed(again),
            },
        ),
        AllocPhase::Restore(phase) => Ok(from_restore(parts, phase)),
        AllocPhase::Unslot(phase) => Ok(from_unslot(parts, task, phase)),
        AllocPhase::Extend(phase) => Ok(from_extend(parts, phase)),
        AllocPhase::Leave(phase) => Ok(from_leave(parts, task, phase)),
    }
}

#[tactic(auto, using(hp_parts::proofs::Carrying::carry_start, hp_parts::proofs::Carrying::carry_blocked))]
fn from_start(parts: &mut Parts, task: Task, killed: bool, phase: Start) -> Turn<AllocPhase>
    requires { IsSized (state_of parts.old) }
    ensures row { AllocStartRow (view parts.old) task killed phase result (view parts.new) }
    ensures memory { MemoryStays parts.old parts.new }
    ensures same { IfBlocked result (λ again. (again ≡ AllocPhase.Start phase) × (state_of parts.new ≡ state_of parts.old)) }
{
    let allocation = phase.allocation;
    let index = allocation.from;
    let is_bad = is_bad_range(index, allocation.len);
    let turn = start(
        parts,
        task,
        killed,
        allocation.file,
        is_bad,
        Answer::Interrupted,
    );
    let next = AllocPhase::Head(Head { allocation, index });
    carry(turn, AllocPhase::Start(phase), next)
}

fn from_head(killed: bool, phase: Head) -> Turn<AllocPhase>
    ensures { (s : Pool) → AllocHeadRow s killed phase result s }
{
    let Head { allocation, index } = phase;
    if killed {
        return leave(allocation, Answer::Interrupted);
    }
    Turn::Moved(AllocPhase::Want(Want { allocation, index }))
}

#[tactic(auto, using(hp_parts::proofs::Carrying::carry_want, hp_parts::proofs::Carrying::carry_blocked))]
fn from_want(parts: &mut Parts, task: Task, killed: bool, phase: Want) -> Turn<AllocPhase>
    ensures row { AllocWantRow (view parts.old) task killed phase result (view parts.new) }
    ensures memory { MemoryStays parts.old parts.new }
    ensures same { IfBlocked result (λ again. (again ≡ AllocPhase.Want phase) × (state_of parts.new ≡ state_of parts.old)) }
{
    let (allocation, index) = (phase.allocation, phase.index);
    if killed {
        return leave(allocation, Answer::Interrupted);
    }
    let turn = want_slot(parts, task, allocation.file, index);
    let next = AllocPhase::Locked(Locked { allocation, index });
    carry(turn, AllocPhase::Want(phase), next)
}

#[tactic(auto, using(hp_parts::proofs::Laws::page_laws))]
fn from_locked(parts: &mut Parts, phase: Locked) -> Turn<AllocPhase>
    requires { IsFileOf (view parts.old) phase.allocation.file }
    ensures row { AllocLockedRow (view parts.old) phase result (view parts.new) }
    ensures memory { MemoryStays parts.old parts.new }
{
    let Locked { allocation, index } = phase;
    let file = &parts.files[allocation.file.number() as usize];
    match file.cache.get(index) {
        Some(_) => unslot(allocation, index, None),
        None => Turn::Moved(AllocPhase::Missing(Missing { allocation, index })),
    }
}

#[tactic(auto, using(hp_parts::proofs::Laws::change_laws))]
fn from_missing(parts: &mut Parts, grant: bool, phase: Missing) -> Result<Turn<AllocPhase>, Missing>
    requires file { IsFileOf (view parts.old) phase.allocation.file }
    requires in_limit { phase.index < LIMIT }
    ensures row { IfOk result (λ turn. AllocMissingRow (view parts.old) grant phase turn (view parts.new)) }
    ensures memory { MemoryStaysUnless grant ((view parts.old).spare phase.allocation.file ≡ (view parts.old).pending phase.allocation.file)
        parts.old parts.new }
    ensures phase { IfErr result (λ again. again ≡ phase) }
    ensures err { OnErr result (state_of parts.new ≡ state_of parts.old) }
    ensures growth { OnErr result (grant ≡ true) }
    ensures wanted { OnErr result ((view parts.old).spare phase.allocation.file ≡ (view parts.old).pending phase.allocation.file) }
{
    let Missing { allocation, index } = phase;
    let file = &mut parts.files[allocation.file.number() as usize];
    let to = Index::new(index.number() + 1);
    match file.map.change(grant, index, to) {
        Ok(pending) => Ok(Turn::Moved(AllocPhase::Changed(Changed {
            allocation,
            index,
            pending,
        }))),
        Err(ChangeFault::Denied) => Ok(unslot(allocation, index, Some(Answer::NoMemory))),
        Err(ChangeFault::Memory) => Err(Missing { allocation, index }),
    }
}

#[tactic(auto, using(hp_parts::proofs::Laws::take_laws))]
fn from_changed(parts: &mut Parts, killed: bool, phase: Changed) -> Turn<AllocPhase>
    requires reserved { phase.pending.missing ≡ 0 → 1 ≤ (view parts.old).resv }
    requires used { (view parts.old).used + 1 < 2 ^ 32 }
    ensures row { AllocChangedRow (view parts.old) killed phase result (view parts.new) }
    ensures memory { MemoryStays parts.old parts.new }
{
    let Changed {
        allocation,
        index,
        pending,
    } = phase;
    if killed {
        return abort(allocation, index, pending, Answer::Interrupted);
    }
    match take_frame(&mut parts.bank, pending.missing()) {
        Ok(held) => Turn::Moved(AllocPhase::Taken(Taken {
            allocation,
            index,
            pending,
            held,
        })),
        Err(answer) => abort(allocation, index, pending, answer),
    }
}

#[tactic(auto, using(hp_parts::proofs::Laws::change_laws))]
fn from_abort(parts: &mut Parts, phase: Abort) -> Turn<AllocPhase>
    requires file { IsFileOf (view parts.old) phase.allocation.file }
    requires pending { 1 ≤ (view parts.old).pending phase.allocation.file }
    ensures row { AllocAbortRow (view parts.old) phase result (view parts.new) }
    ensures memory { MemoryStays parts.old parts.new }
{
    let Abort {
        allocation,
        index,
        pending,
        answer,
    } = phase;
    parts.files[allocation.file.number() as usize]
        .map
        .abort(pending);
    unslot(allocation, index, Some(answer))
}

#[tactic(auto, using(hp_parts::proofs::Laws::commit_laws))]
fn from_taken(parts: &mut Parts, phase: Taken) -> Turn<AllocPhase>
    requires file { IsFileOf (view parts.old) phase.allocation.file }
    requires pending { 1 ≤ (view parts.old).pending phase.allocation.file }
    ensures row { AllocTakenRow (view parts.old) phase result (view parts.new) }
    ensures memory { MemoryStays parts.old parts.new }
{
    let Taken {
        allocation,
        index,
        pending,
        held,
    } = phase;
    let missing = pending.missing();
    let added = parts.files[allocation.file.number() as usize]
        .map
        .commit(pending);
    if added < missing {
        Turn::Moved(AllocPhase::Settle(Settle {
            allocation,
            index,
            held,
        }))
    } else {
        Turn::Moved(AllocPhase::Committed(Committed {
            allocation,
            index,
            held,
        }))
    }
}

fn from_settle(parts: &mut Parts, phase: Settle) -> Turn<AllocPhase>
    requires resv { 1 ≤ (view parts.old).resv }
    requires used { 1 ≤ (view parts.old).used }
    ensures row { AllocSettleRow (view parts.old) phase result (view parts.new) }
    ensures memory { MemoryStays parts.old parts.new }
{
    let Settle {
        allocation,
        index,
        held,
    } = phase;
    parts.bank.settle(1);
    Turn::Moved(AllocPhase::Committed(Committed {
        allocation,
        index,
        held,
    }))
}

fn from_committed(
    parts: &mut Parts,
    grant: bool,
    phase: Committed,
) -> Result<Turn<AllocPhase>, Committed>
    requires file { IsFileOf (view parts.old) phase.allocation.file }
    requires in_limit { phase.index < LIMIT }
    requires bare { (view parts.old).pages phase.allocation.file phase.index ≡ None }
    requires held { IsHeld (view parts.old) phase.held }
    ensures row { IfOk result (λ turn. AllocCommittedRow (view parts.old) grant phase turn (view parts.new)) }
    ensures memory { MemoryStaysUnless grant (alloc_wants (view parts.old) (AllocPhase.Committed phase)) parts.old parts.new }
    ensures phase { IfErr result (λ again. again ≡ phase) }
    ensures err { OnErr result (state_of parts.new ≡ state_of parts.old) }
    ensures growth { OnErr result (grant ≡ true) }
{
    let Committed {
        allocation,
        index,
        held,
    } = phase;
    if !grant {
        return Ok(Turn::Moved(AllocPhase::Restore(Restore {
            allocation,
            index,
            held,
            answer: Answer::NoMemory,
        })));
    }
    match place_page(parts, allocation.file, index, held) {
        Ok(()) => Ok(unslot(allocation, index, None)),
        Err(held) => Err(Committed {
            allocation,
            index,
            held,
        }),
    }
}

#[tactic(auto, using(hp_parts::proofs::Laws::frame_laws))]
fn from_restore(parts: &mut Parts, phase: Restore) -> Turn<AllocPhase>
    requires { IsHeld (view parts.old) phase.held }
    ensures row { AllocRestoreRow (view parts.old) phase result (view parts.new) }
    ensures memory { MemoryStays parts.old parts.new }
{
    let Restore {
        allocation,
        index,
        held,
        answer,
    } = phase;
    parts.bank.restore(held);
    unslot(allocation, index, Some(answer))
}

fn from_unslot(parts: &mut Parts, task: Task, phase: Unslot) -> Turn<AllocPhase>
    requires held { (view parts.old).slots (slot_of (view parts.old).geometry phase.allocation.file phase.index) ≡ Some task }
    requires in_limit { phase.allocation.from + phase.allocation.len ≤ LIMIT }
    requires index { phase.index < LIMIT }
    ensures row { AllocUnslotRow (view parts.old) phase result (view parts.new) }
    ensures memory { MemoryStays parts.old parts.new }
{
    let Unslot {
        allocation,
        index,
        answer,
    } = phase;
    leave_slot(parts, task, allocation.file, index);
    if let Some(carried) = answer {
        return leave(allocation, carried);
    }
    let next = index.number() + 1;
    if next < allocation.from.number() + allocation.len {
        let index = Index::new(next);
        return Turn::Moved(AllocPhase::Head(Head { allocation, index }));
    }
    if allocation.keep {
        leave(allocation, Answer::Done)
    } else {
        Turn::Moved(AllocPhase::Extend(Extend { allocation }))
    }
}

#[tactic(auto, using(hp_parts::proofs::Laws::size_laws))]
fn from_extend(parts: &mut Parts, phase: Extend) -> Turn<AllocPhase>
    requires file { IsFileOf (view parts.old) phase.allocation.file }
    requires in_limit { phase.allocation.from + phase.allocation.len ≤ LIMIT }
    ensures row { AllocExtendRow (view parts.old) phase result (view parts.new) }
    ensures memory { MemoryStays parts.old parts.new }
{
    let Extend { allocation } = phase;
    let file = &mut parts.files[allocation.file.number() as usize];
    file.size = file.size.max(allocation.from.number() + allocation.len);
    leave(allocation, Answer::Done)
}

fn from_leave(parts: &mut Parts, task: Task, phase: Leave) -> Turn<AllocPhase>
    requires { (view parts.old).locks phase.allocation.file ≡ Some task }
    ensures row { AllocLeaveRow (view parts.old) phase result (view parts.new) }
    ensures memory { MemoryStays parts.old parts.new }
{
    let Leave { allocation, answer } = phase;
    leave_lock(parts, task, allocation.file);
    Turn::Ended(answer)
}

// To the leave phase, with the answer.
fn leave(allocation: Allocation, answer: Answer) -> Turn<AllocPhase>
    ensures { result ≡ Turn.Moved (AllocPhase.Leave (record { allocation = allocation; answer = answer })) }
{
    Turn::Moved(AllocPhase::Leave(Leave { allocation, answer }))
}

// To the unslot phase, with the answer that is carried, if there is one.
fn unslot(allocation: Allocation, index: Index, answer: Option<Answer>) -> Turn<AllocPhase>
    ensures { result ≡ Turn.Moved (AllocPhase.Unslot (record { allocation = allocation; index = index; answer = answer })) }
{
    Turn::Moved(AllocPhase::Unslot(Unslot {
        allocation,
        index,
        answer,
    }))
}

// To the abort phase, with the answer.
fn abort(allocation: Allocation, index: Index, pending: Pending, answer: Answer) -> Turn<AllocPhase>
    ensures { result ≡ Turn.Moved
        (AllocPhase.Abort (record { allocation = allocation; index = index; pending = pending; answer = answer })) }
{
    Turn::Moved(AllocPhase::Abort(Abort {
        allocation,
        index,
        pending,
        answer,
    }))
}
