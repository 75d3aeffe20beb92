//! One function for each phase of a touch: a load or a store (Linux: `hugetlb_fault`, `hugetlb_no_page`).
ghost use Rattle.std.specs.Prelude.{◌≡◌, ◌≤◌, ◌<◌, ◌+◌, ◌^◌, ℕ, true, None, Some, IfOk, IfErr, IfSome, IsSome, OnErr};
ghost use Rattle.hp_machine.specs.State.{slot_of};
ghost use Rattle.hp_machine.specs.TouchRows.{TouchRow, TouchLookRow, TouchWantRow, TouchLockedRow, TouchMissingRow};
ghost use Rattle.hp_machine.specs.TouchRows.{TouchChangedRow, TouchAbortRow, TouchTakenRow, TouchSettleRow, TouchCommittedRow};
ghost use Rattle.hp_machine.specs.TouchRows.{TouchRestoreRow, TouchFoundRow, TouchLeaveRow};
ghost use Rattle.hp_machine.specs.Wants.{touch_wants};
ghost use Rattle.hp_base.specs.Mappings.{find};
ghost use Rattle.hp_machine.specs.Standings.{standing};
ghost use Rattle.hp_machine.specs.declared.call.Call.TheVariants as call;
ghost use Rattle.hp_parts.specs.Turns.{IfBlocked, IfWanting};
ghost use Rattle.hp_parts.specs.View.{view};
ghost use Rattle.hp_parts.specs.State.{state_of};
ghost use Rattle.hp_parts.specs.Capacity.{MemoryStays, MemoryStaysUnless};
ghost use Rattle.hp_fault.specs.Fits.{TouchFits};
ghost use Rattle.hp_parts.specs.Fits.{IsTaskOf, IsFileOf, IsHeld, IsPage, HasPage};

use crate::pages::{place_page, take_frame, use_page};
use hp_base::{Answer, Index, LIMIT, Task};
use hp_frames::Held;
pub use hp_machine::touch::{
    Abort, Access, Changed, Committed, Found, Leave, Locked, Look, Missing, Restore, Settle, Taken,
    Touch, TouchPhase, Want,
};
use hp_machine::{Stopped, Turn};
use hp_parts::{Parts, carry, leave_slot, want_slot};
use hp_region::{ChangeFault, Pending};

/// One step of a load or a store. Where it finds no memory nothing changed, and the phase is handed back. A kill is
/// noticed where it wants the slot, and where it would take a frame.
pub fn step_touch(
    parts: &mut Parts,
    task: Task,
    killed: bool,
    grant: bool,
    phase: TouchPhase,
) -> Result<Turn<TouchPhase>, Stopped<TouchPhase>>
    requires { TouchFits (view parts.old) task phase }
    ensures row { IfOk result (λ turn. TouchRow (view parts.old) task killed grant phase turn (view parts.new)) }
    ensures memory { MemoryStaysUnless grant (touch_wants (view parts.old) phase) parts.old parts.new }
    ensures blocked { IfOk result (λ turn. IfWanting (standing (call.Touch phase)).wants
        (IfBlocked turn (λ again. (again ≡ phase) × (state_of parts.new ≡ state_of parts.old)))) }
    ensures phase { IfErr result (λ stopped. stopped.phase ≡ phase) }
    ensures err { OnErr result (state_of parts.new ≡ state_of parts.old) }
    ensures growth { OnErr result (grant ≡ true) }
    ensures wanted { OnErr result (touch_wants (view parts.old) phase) }
{
    match phase {
        TouchPhase::Look(phase) => Ok(from_look(parts, task, phase)),
        TouchPhase::Want(phase) => Ok(from_want(parts, task, killed, phase)),
        TouchPhase::Locked(phase) => Ok(from_locked(parts, phase)),
        TouchPhase::Missing(phase) => from_missing(parts, grant, phase).map_err(|again| Stopped {
            phase: TouchPhase::Missing(again),
        }),
        TouchPhase::Changed(phase) => Ok(from_changed(parts, killed, phase)),
        TouchPhase::Abort(phase) => Ok(from_abort(parts, phase)),
        TouchPhase::Taken(phase) => Ok(from_taken(parts, phase)),
        TouchPhase::Settle(phase) => Ok(from_settle(parts, phase)),
        TouchPhase::Committed(phase) => from_committed(parts, grant, phase).map_err(
            |again| Stopped {
                phase: TouchPhase::Committed(again),
            },
        ),
        TouchPhase::Restore(phase) => Ok(from_restore(parts, phase)),
        TouchPhase::Found(phase) => from_found(parts, task, grant, phase).map_err(
            |again| Stopped {
                phase: TouchPhase::Found(again),
            },
        ),
        TouchPhase::Leave(phase) => Ok(from_leave(parts, task, phase)),
    }
}

#[tactic(auto, using(hp_parts::proofs::Laws::look_laws))]
fn from_look(parts: &mut Parts, task: Task, phase: Look) -> Turn<TouchPhase>
    requires task { IsTaskOf (view parts.old) task }
    requires page { IfSome ((view parts.old).entries task phase.vpn) (λ x. IsPage (view parts.old) x) }
    ensures row { TouchLookRow (view parts.old) task phase result (view parts.new) }
    ensures memory { MemoryStays parts.old parts.new }
{
    let Look { vpn, access } = phase;
    let space = &parts.spaces[task.place()];
    let Some((file, index)) = space.find(vpn) else {
        return Turn::Ended(Answer::Segv);
    };
    match space.translate(vpn) {
        Some(frame) => Turn::Ended(use_page(&mut parts.bank, frame, access)),
        None => Turn::Moved(TouchPhase::Want(Want {
            touch: Touch {
                vpn,
                access,
                file,
                index,
            },
        })),
    }
}

#[tactic(auto, using(hp_parts::proofs::Carrying::carry_want, hp_parts::proofs::Carrying::carry_blocked))]
fn from_want(parts: &mut Parts, task: Task, killed: bool, phase: Want) -> Turn<TouchPhase>
    ensures row { TouchWantRow (view parts.old) task killed phase result (view parts.new) }
    ensures memory { MemoryStays parts.old parts.new }
    ensures same { IfBlocked result (λ again. (again ≡ TouchPhase.Want phase) × (state_of parts.new ≡ state_of parts.old)) }
{
    if killed {
        return Turn::Ended(Answer::Killed);
    }
    let touch = phase.touch;
    let turn = want_slot(parts, task, touch.file, touch.index);
    let next = TouchPhase::Locked(Locked { touch });
    carry(turn, TouchPhase::Want(phase), next)
}

#[tactic(auto, using(hp_parts::proofs::Laws::page_laws))]
fn from_locked(parts: &mut Parts, phase: Locked) -> Turn<TouchPhase>
    requires { IsFileOf (view parts.old) phase.touch.file }
    ensures row { TouchLockedRow (view parts.old) phase result (view parts.new) }
    ensures memory { MemoryStays parts.old parts.new }
{
    let Locked { touch } = phase;
    let file = &parts.files[touch.file.number() as usize];
    if touch.index.number() >= file.size {
        return leave(touch, Answer::Beyond);
    }
    match file.cache.get(touch.index) {
        Some(_) => Turn::Moved(TouchPhase::Found(Found { touch })),
        None => Turn::Moved(TouchPhase::Missing(Missing { touch })),
    }
}

#[tactic(auto, using(hp_parts::proofs::Laws::change_laws))]
fn from_missing(parts: &mut Parts, grant: bool, phase: Missing) -> Result<Turn<TouchPhase>, Missing>
    requires file { IsFileOf (view parts.old) phase.touch.file }
    requires in_limit { phase.touch.index < LIMIT }
    ensures row { IfOk result (λ turn. TouchMissingRow (view parts.old) grant phase turn (view parts.new)) }
    ensures memory { MemoryStaysUnless grant ((view parts.old).spare phase.touch.file ≡ (view parts.old).pending phase.touch.file)
        parts.old parts.new }
    ensures phase { IfErr result (λ again. again ≡ phase) }
    ensures err { OnErr result (state_of parts.new ≡ state_of parts.old) }
    ensures growth { OnErr result (grant ≡ true) }
    ensures wanted { OnErr result ((view parts.old).spare phase.touch.file ≡ (view parts.old).pending phase.touch.file) }
{
    let Missing { touch } = phase;
    let file = &mut parts.files[touch.file.number() as usize];
    let to = Index::new(touch.index.number() + 1);
    match file.map.change(grant, touch.index, to) {
        Ok(pending) => Ok(Turn::Moved(TouchPhase::Changed(Changed { touch, pending }))),
        Err(ChangeFault::Denied) => Ok(leave(touch, Answer::NoMemory)),
        Err(ChangeFault::Memory) => Err(Missing { touch }),
    }
}

#[tactic(auto, using(hp_parts::proofs::Laws::take_laws))]
fn from_changed(parts: &mut Parts, killed: bool, phase: Changed) -> Turn<TouchPhase>
    requires reserved { phase.pending.missing ≡ 0 → 1 ≤ (view parts.old).resv }
    requires used { (view parts.old).used + 1 < 2 ^ 32 }
    ensures row { TouchChangedRow (view parts.old) killed phase result (view parts.new) }
    ensures memory { MemoryStays parts.old parts.new }
{
    let Changed { touch, pending } = phase;
    if killed {
        return abort(touch, pending, Answer::Killed);
    }
    match take_frame(&mut parts.bank, pending.missing()) {
        Ok(held) => Turn::Moved(TouchPhase::Taken(Taken {
            touch,
            pending,
            held,
        })),
        Err(answer) => abort(touch, pending, answer),
    }
}

#[tactic(auto, using(hp_parts::proofs::Laws::change_laws))]
fn from_abort(parts: &mut Parts, phase: Abort) -> Turn<TouchPhase>
    requires file { IsFileOf (view parts.old) phase.touch.file }
    requires pending { 1 ≤ (view parts.old).pending phase.touch.file }
    ensures row { TouchAbortRow (view parts.old) phase result (view parts.new) }
    ensures memory { MemoryStays parts.old parts.new }
{
    let Abort {
        touch,
        pending,
        answer,
    } = phase;
    parts.files[touch.file.number() as usize].map.abort(pending);
    leave(touch, answer)
}

#[tactic(auto, using(hp_parts::proofs::Laws::commit_laws))]
fn from_taken(parts: &mut Parts, phase: Taken) -> Turn<TouchPhase>
    requires file { IsFileOf (view parts.old) phase.touch.file }
    requires pending { 1 ≤ (view parts.old).pending phase.touch.file }
    ensures row { TouchTakenRow (view parts.old) phase result (view parts.new) }
    ensures memory { MemoryStays parts.old parts.new }
{
    let Taken {
        touch,
        pending,
        held,
    } = phase;
    let missing = pending.missing();
    let added = parts.files[touch.file.number() as usize]
        .map
        .commit(pending);
    if added < missing {
        Turn::Moved(TouchPhase::Settle(Settle { touch, held }))
    } else {
        Turn::Moved(TouchPhase::Committed(Committed { touch, held }))
    }
}

fn from_settle(parts: &mut Parts, phase: Settle) -> Turn<TouchPhase>
    requires resv { 1 ≤ (view parts.old).resv }
    requires used { 1 ≤ (view parts.old).used }
    ensures row { TouchSettleRow (view parts.old) phase result (view parts.new) }
    ensures memory { MemoryStays parts.old parts.new }
{
    let Settle { touch, held } = phase;
    parts.bank.settle(1);
    Turn::Moved(TouchPhase::Committed(Committed { touch, held }))
}

#[tactic(auto, using(hp_parts::proofs::Laws::sizes_at))]
fn from_committed(
    parts: &mut Parts,
    grant: bool,
    phase: Committed,
) -> Result<Turn<TouchPhase>, Committed>
    requires file { IsFileOf (view parts.old) phase.touch.file }
    requires in_limit { phase.touch.index < LIMIT }
    requires bare { (view parts.old).pages phase.touch.file phase.touch.index ≡ None }
    requires held { IsHeld (view parts.old) phase.held }
    ensures row { IfOk result (λ turn. TouchCommittedRow (view parts.old) grant phase turn (view parts.new)) }
    ensures memory { MemoryStaysUnless grant (phase.touch.index < (view parts.old).size phase.touch.file) parts.old parts.new }
    ensures phase { IfErr result (λ again. again ≡ phase) }
    ensures err { OnErr result (state_of parts.new ≡ state_of parts.old) }
    ensures growth { OnErr result (grant ≡ true) }
    ensures wanted { OnErr result (phase.touch.index < (view parts.old).size phase.touch.file) }
{
    let Committed { touch, held } = phase;
    if touch.index.number() >= parts.files[touch.file.number() as usize].size {
        return Ok(restore(touch, held, Answer::Beyond));
    }
    if !grant {
        return Ok(restore(touch, held, Answer::NoMemory));
    }
    match place_page(parts, touch.file, touch.index, held) {
        Ok(()) => Ok(Turn::Moved(TouchPhase::Found(Found { touch }))),
        Err(held) => Err(Committed { touch, held }),
    }
}

#[tactic(auto, using(hp_parts::proofs::Laws::frame_laws))]
fn from_restore(parts: &mut Parts, phase: Restore) -> Turn<TouchPhase>
    requires { IsHeld (view parts.old) phase.held }
    ensures row { TouchRestoreRow (view parts.old) phase result (view parts.new) }
    ensures memory { MemoryStays parts.old parts.new }
{
    let Restore {
        touch,
        held,
        answer,
    } = phase;
    parts.bank.restore(held);
    leave(touch, answer)
}

#[tactic(auto, using(hp_parts::proofs::Laws::install_laws))]
fn from_found(
    parts: &mut Parts,
    task: Task,
    grant: bool,
    phase: Found,
) -> Result<Turn<TouchPhase>, Found>
    requires task { IsTaskOf (view parts.old) task }
    requires file { IsFileOf (view parts.old) phase.touch.file }
    requires mapped { IsSome (find ((view parts.old).mappings task) phase.touch.vpn) }
    requires untranslated { (view parts.old).entries task phase.touch.vpn ≡ None }
    requires page { HasPage (view parts.old) phase.touch.file phase.touch.index }
    ensures row { IfOk result (λ turn. TouchFoundRow (view parts.old) task grant phase turn (view parts.new)) }
    ensures memory { MemoryStaysUnless grant (phase.touch.index < (view parts.old).size phase.touch.file) parts.old parts.new }
    ensures phase { IfErr result (λ again. again ≡ phase) }
    ensures err { OnErr result (state_of parts.new ≡ state_of parts.old) }
    ensures growth { OnErr result (grant ≡ true) }
    ensures wanted { OnErr result (phase.touch.index < (view parts.old).size phase.touch.file) }
{
    let Found { touch } = phase;
    let file = &parts.files[touch.file.number() as usize];
    if touch.index.number() >= file.size {
        return Ok(leave(touch, Answer::Beyond));
    }
    if !grant {
        return Ok(leave(touch, Answer::NoMemory));
    }
    let Some(frame) = file.cache.get(touch.index) else {
        unreachable!()
    };
    let space = &mut parts.spaces[task.place()];
    if space.install(touch.vpn, frame).is_err() {
        return Err(Found { touch });
    }
    let answer = use_page(&mut parts.bank, frame, touch.access);
    Ok(leave(touch, answer))
}

fn from_leave(parts: &mut Parts, task: Task, phase: Leave) -> Turn<TouchPhase>
    requires { (view parts.old).slots (slot_of (view parts.old).geometry phase.touch.file phase.touch.index) ≡ Some task }
    ensures row { TouchLeaveRow (view parts.old) phase result (view parts.new) }
    ensures memory { MemoryStays parts.old parts.new }
{
    let Leave { touch, answer } = phase;
    leave_slot(parts, task, touch.file, touch.index);
    Turn::Ended(answer)
}

// To the leave phase, with the answer.
fn leave(touch: Touch, answer: Answer) -> Turn<TouchPhase>
    ensures { result ≡ Turn.Moved (TouchPhase.Leave (record { touch = touch; answer = answer })) }
{
    Turn::Moved(TouchPhase::Leave(Leave { touch, answer }))
}

// To the abort phase, with the answer.
fn abort(touch: Touch, pending: Pending, answer: Answer) -> Turn<TouchPhase>
    ensures { result ≡ Turn.Moved (TouchPhase.Abort (record { touch = touch; pending = pending; answer = answer })) }
{
    Turn::Moved(TouchPhase::Abort(Abort {
        touch,
        pending,
        answer,
    }))
}

// To the restore phase, with the answer.
fn restore(touch: Touch, held: Held, answer: Answer) -> Turn<TouchPhase>
    ensures { result ≡ Turn.Moved (TouchPhase.Restore (record { touch = touch; held = held; answer = answer })) }
{
    Turn::Moved(TouchPhase::Restore(Restore {
        touch,
        held,
        answer,
    }))
}
