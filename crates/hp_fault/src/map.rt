//! One function for each phase of a map (Linux: `hugetlb_reserve_pages`, `hugetlbfs_file_mmap`).
ghost use Rattle.std.specs.Prelude.{◌≡◌, ◌≤◌, ◌<◌, ◌+◌, ◌^◌, true, Some, IfOk, IfErr, OnErr};
ghost use Rattle.hp_machine.specs.MapRows.{MapRow, MapStartRow, MapRoomRow, MapMissingRow, MapChangedRow, MapAbortRow};
ghost use Rattle.hp_machine.specs.MapRows.{MapAccountedRow, MapSettleRow, MapEnterRow, MapLeaveRow};
ghost use Rattle.hp_machine.specs.Wants.{map_wants};
ghost use Rattle.hp_base.specs.Mappings.{fits};
ghost use Rattle.hp_machine.specs.Standings.{standing};
ghost use Rattle.hp_machine.specs.declared.call.Call.TheVariants as call;
ghost use Rattle.hp_parts.specs.Turns.{IfBlocked, IfWanting};
ghost use Rattle.hp_parts.specs.View.{view};
ghost use Rattle.hp_parts.specs.State.{state_of, IsSized};
ghost use Rattle.hp_parts.specs.Capacity.{MemoryStays, MemoryStaysUnless};
ghost use Rattle.hp_fault.specs.Fits.{MapFits};
ghost use Rattle.hp_parts.specs.Fits.{IsTaskOf, IsFileOf};

use crate::pages::refused;
use hp_base::{Answer, Index, LIMIT, Task, VPNS};
pub use hp_machine::map::{
    Abort, Accounted, Changed, Enter, Leave, MapPhase, MapRequest, Missing, Room, Settle, Start,
};
use hp_machine::{Stopped, Turn};
use hp_parts::{Parts, carry, is_bad_range, leave_lock, start};
use hp_region::{ChangeFault, Pending};

/// One step of a map. Where it finds no memory nothing changed, and the phase is handed back.
pub fn step_map(
    parts: &mut Parts,
    task: Task,
    killed: bool,
    grant: bool,
    phase: MapPhase,
) -> Result<Turn<MapPhase>, Stopped<MapPhase>>
    requires sized { IsSized (state_of parts.old) }
    requires fits { MapFits (view parts.old) task phase }
    ensures row { IfOk result (λ turn. MapRow (view parts.old) task killed grant phase turn (view parts.new)) }
    ensures memory { MemoryStaysUnless grant (map_wants (view parts.old) task phase) parts.old parts.new }
    ensures blocked { IfOk result (λ turn. IfWanting (standing (call.Map phase)).wants
        (IfBlocked turn (λ again. (again ≡ phase) × (state_of parts.new ≡ state_of parts.old)))) }
    ensures phase { IfErr result (λ stopped. stopped.phase ≡ phase) }
    ensures err { OnErr result (state_of parts.new ≡ state_of parts.old) }
    ensures growth { OnErr result (grant ≡ true) }
    ensures wanted { OnErr result (map_wants (view parts.old) task phase) }
{
    match phase {
        MapPhase::Start(phase) => Ok(from_start(parts, task, killed, phase)),
        MapPhase::Room(phase) => from_room(parts, task, grant, phase).map_err(|again| Stopped {
            phase: MapPhase::Room(again),
        }),
        MapPhase::Missing(phase) => from_missing(parts, grant, phase).map_err(|again| Stopped {
            phase: MapPhase::Missing(again),
        }),
        MapPhase::Changed(phase) => Ok(from_changed(parts, killed, phase)),
        MapPhase::Abort(phase) => Ok(from_abort(parts, phase)),
        MapPhase::Accounted(phase) => Ok(from_accounted(parts, phase)),
        MapPhase::Settle(phase) => Ok(from_settle(parts, phase)),
        MapPhase::Enter(phase) => Ok(from_enter(parts, task, phase)),
        MapPhase::Leave(phase) => Ok(from_leave(parts, task, phase)),
    }
}

#[tactic(auto, using(hp_parts::proofs::Carrying::carry_start, hp_parts::proofs::Carrying::carry_blocked))]
fn from_start(parts: &mut Parts, task: Task, killed: bool, phase: Start) -> Turn<MapPhase>
    requires { IsSized (state_of parts.old) }
    ensures row { MapStartRow (view parts.old) task killed phase result (view parts.new) }
    ensures memory { MemoryStays parts.old parts.new }
    ensures same { IfBlocked result (λ again. (again ≡ MapPhase.Start phase) × (state_of parts.new ≡ state_of parts.old)) }
{
    let map = phase.map;
    let is_bad = is_bad_range(map.from, map.len);
    let turn = start(parts, task, killed, map.file, is_bad, Answer::Killed);
    let next = MapPhase::Room(Room { map });
    carry(turn, MapPhase::Start(phase), next)
}

#[tactic(auto, using(hp_parts::proofs::Laws::room_laws))]
fn from_room(
    parts: &mut Parts,
    task: Task,
    grant: bool,
    phase: Room,
) -> Result<Turn<MapPhase>, Room>
    requires { IsTaskOf (view parts.old) task }
    ensures row { IfOk result (λ turn. MapRoomRow (view parts.old) task grant phase turn (view parts.new)) }
    ensures memory { MemoryStaysUnless grant (map_wants (view parts.old) task (MapPhase.Room phase)) parts.old parts.new }
    ensures phase { IfErr result (λ again. again ≡ phase) }
    ensures err { OnErr result (state_of parts.new ≡ state_of parts.old) }
    ensures growth { OnErr result (grant ≡ true) }
    ensures wanted { OnErr result (map_wants (view parts.old) task (MapPhase.Room phase)) }
{
    let Room { map } = phase;
    let space = &mut parts.spaces[task.place()];
    let Some(base) = space.room(map.len) else {
        return Ok(leave(map, Answer::NoAddress));
    };
    if !grant {
        return Ok(leave(map, Answer::NoMemory));
    }
    if space.prepare().is_err() {
        return Err(Room { map });
    }
    if map.reserve {
        Ok(Turn::Moved(MapPhase::Missing(Missing { map, base })))
    } else {
        Ok(Turn::Moved(MapPhase::Enter(Enter { map, base })))
    }
}

#[tactic(auto, using(hp_parts::proofs::Laws::change_laws))]
fn from_missing(parts: &mut Parts, grant: bool, phase: Missing) -> Result<Turn<MapPhase>, Missing>
    requires file { IsFileOf (view parts.old) phase.map.file }
    requires some { 1 ≤ phase.map.len }
    requires in_limit { phase.map.from + phase.map.len ≤ LIMIT }
    ensures row { IfOk result (λ turn. MapMissingRow (view parts.old) grant phase turn (view parts.new)) }
    ensures memory { MemoryStaysUnless grant ((view parts.old).spare phase.map.file ≡ (view parts.old).pending phase.map.file)
        parts.old parts.new }
    ensures phase { IfErr result (λ again. again ≡ phase) }
    ensures err { OnErr result (state_of parts.new ≡ state_of parts.old) }
    ensures growth { OnErr result (grant ≡ true) }
    ensures wanted { OnErr result ((view parts.old).spare phase.map.file ≡ (view parts.old).pending phase.map.file) }
{
    let Missing { map, base } = phase;
    let file = &mut parts.files[map.file.number() as usize];
    let to = Index::new(map.from.number() + map.len);
    match file.map.change(grant, map.from, to) {
        Ok(pending) => Ok(Turn::Moved(MapPhase::Changed(Changed { map, base, pending }))),
        Err(ChangeFault::Denied) => Ok(leave(map, Answer::NoMemory)),
        Err(ChangeFault::Memory) => Err(Missing { map, base }),
    }
}

#[tactic(auto, using(hp_parts::proofs::Laws::free_frames_is))]
fn from_changed(parts: &mut Parts, killed: bool, phase: Changed) -> Turn<MapPhase>
    requires used { (view parts.old).used + phase.pending.missing < 2 ^ 32 }
    ensures row { MapChangedRow (view parts.old) killed phase result (view parts.new) }
    ensures memory { MemoryStays parts.old parts.new }
{
    let Changed { map, base, pending } = phase;
    if killed {
        return abort(map, pending, Answer::Killed);
    }
    match parts.bank.account(pending.missing()) {
        Ok(()) => Turn::Moved(MapPhase::Accounted(Accounted { map, base, pending })),
        Err(fault) => abort(map, pending, refused(fault)),
    }
}

#[tactic(auto, using(hp_parts::proofs::Laws::change_laws))]
fn from_abort(parts: &mut Parts, phase: Abort) -> Turn<MapPhase>
    requires file { IsFileOf (view parts.old) phase.map.file }
    requires pending { 1 ≤ (view parts.old).pending phase.map.file }
    ensures row { MapAbortRow (view parts.old) phase result (view parts.new) }
    ensures memory { MemoryStays parts.old parts.new }
{
    let Abort {
        map,
        pending,
        answer,
    } = phase;
    parts.files[map.file.number() as usize].map.abort(pending);
    leave(map, answer)
}

#[tactic(auto, using(hp_parts::proofs::Laws::commit_laws))]
fn from_accounted(parts: &mut Parts, phase: Accounted) -> Turn<MapPhase>
    requires file { IsFileOf (view parts.old) phase.map.file }
    requires pending { 1 ≤ (view parts.old).pending phase.map.file }
    ensures row { MapAccountedRow (view parts.old) phase result (view parts.new) }
    ensures memory { MemoryStays parts.old parts.new }
{
    let Accounted { map, base, pending } = phase;
    let missing = pending.missing();
    let added = parts.files[map.file.number() as usize].map.commit(pending);
    if added < missing {
        let excess = missing - added;
        Turn::Moved(MapPhase::Settle(Settle { map, base, excess }))
    } else {
        Turn::Moved(MapPhase::Enter(Enter { map, base }))
    }
}

fn from_settle(parts: &mut Parts, phase: Settle) -> Turn<MapPhase>
    requires resv { phase.excess ≤ (view parts.old).resv }
    requires used { phase.excess ≤ (view parts.old).used }
    ensures row { MapSettleRow (view parts.old) phase result (view parts.new) }
    ensures memory { MemoryStays parts.old parts.new }
{
    let Settle { map, base, excess } = phase;
    parts.bank.settle(excess);
    Turn::Moved(MapPhase::Enter(Enter { map, base }))
}

#[tactic(auto, using(hp_parts::proofs::Laws::enter_laws))]
fn from_enter(parts: &mut Parts, task: Task, phase: Enter) -> Turn<MapPhase>
    requires task { IsTaskOf (view parts.old) task }
    requires file { IsFileOf (view parts.old) phase.map.file }
    requires some { 1 ≤ phase.map.len }
    requires in_limit { phase.map.from + phase.map.len ≤ LIMIT }
    requires ready { (view parts.old).ready task ≡ true }
    requires fits { fits VPNS ((view parts.old).mappings task) phase.base phase.map.len ≡ true }
    ensures row { MapEnterRow (view parts.old) task phase result (view parts.new) }
    ensures memory { MemoryStays parts.old parts.new }
{
    let Enter { map, base } = phase;
    let space = &mut parts.spaces[task.place()];
    space.enter(base, map.file, map.from, map.len);
    let file = &mut parts.files[map.file.number() as usize];
    file.size = file.size.max(map.from.number() + map.len);
    leave(map, Answer::Mapped(base))
}

fn from_leave(parts: &mut Parts, task: Task, phase: Leave) -> Turn<MapPhase>
    requires { (view parts.old).locks phase.map.file ≡ Some task }
    ensures row { MapLeaveRow (view parts.old) phase result (view parts.new) }
    ensures memory { MemoryStays parts.old parts.new }
{
    let Leave { map, answer } = phase;
    leave_lock(parts, task, map.file);
    Turn::Ended(answer)
}

// To the leave phase, with the answer.
fn leave(map: MapRequest, answer: Answer) -> Turn<MapPhase>
    ensures { result ≡ Turn.Moved (MapPhase.Leave (record { map = map; answer = answer })) }
{
    Turn::Moved(MapPhase::Leave(Leave { map, answer }))
}

// To the abort phase, with the answer.
fn abort(map: MapRequest, pending: Pending, answer: Answer) -> Turn<MapPhase>
    ensures { result ≡ Turn.Moved (MapPhase.Abort (record { map = map; pending = pending; answer = answer })) }
{
    Turn::Moved(MapPhase::Abort(Abort {
        map,
        pending,
        answer,
    }))
}
