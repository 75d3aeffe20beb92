//! What a call in flight owes, holds and wants, by the phase in which it stands: one table, a line a phase, the
//! mirror of that of the machine (`hp_machine/specs/Standings.antt`).
ghost use Rattle.std.specs.Prelude.{◌≡◌, ◌≤◌, ◌^◌, Some};
ghost use Rattle.hp_machine.specs.Standings.{unencumbered, in_touch, in_truncate, standing, standing_of};
ghost use Rattle.hp_core.specs.Standing.{standing_as};

use crate::acquiring::Acquired;
use hp_base::{File, Frame, Index};
use hp_machine::Call;
use hp_machine::alloc::{AllocPhase, Allocation};
use hp_machine::map::{MapPhase, MapRequest};
use hp_machine::punch::{Hole, PunchPhase};
use hp_machine::touch::{Touch, TouchPhase};
use hp_machine::truncate::{TruncatePhase, Truncation};

/// What a call in flight owes, holds and wants.
#[derive(Clone, Copy, Debug, PartialEq, Eq)]
pub struct Standing {
    // the reservations that are still counted for pages which it took or took away
    pub behind: u32,
    // the reservations that it counted for indices which it hasn't entered, or has taken away
    pub ahead: u32,
    // the indices that the used count has, and that it hasn't entered, or has taken away
    pub used_ahead: u64,
    // the frame in its hand
    pub hand: Option<Frame>,
    // the file whose lock it holds
    pub lock: Option<File>,
    // the file and the index whose slot it holds
    pub slot: Option<(File, Index)>,
    // what its next step has to take
    pub wants: Acquired,
}

// A call that owes, holds and wants nothing; the lines below name what differs.
fn unencumbered() -> Standing
    ensures { result ≡ standing_as unencumbered }
{
    Standing {
        behind: 0,
        ahead: 0,
        used_ahead: 0,
        hand: None,
        lock: None,
        slot: None,
        wants: Acquired::Nothing,
    }
}

fn in_touch(touch: &Touch) -> Standing
    ensures { result ≡ standing_as (in_touch touch.now) }
{
    Standing {
        slot: Some((touch.file, touch.index)),
        ..unencumbered()
    }
}

fn in_file(file: File) -> Standing
    ensures { result ≡ standing_as (record unencumbered { lock = Some file }) }
{
    Standing {
        lock: Some(file),
        ..unencumbered()
    }
}

fn in_file_at(file: File, index: Index) -> Standing
    ensures { result ≡ standing_as (record unencumbered { lock = Some file; slot = Some (file, index) }) }
{
    Standing {
        slot: Some((file, index)),
        ..in_file(file)
    }
}

fn touch_standing(phase: &TouchPhase) -> Standing
    ensures standing { result ≡ standing_as (standing (Call.Touch phase.now)) }
    ensures few { result.used_ahead ≤ 2 ^ 33 }
{
    match phase {
        TouchPhase::Look(_) => unencumbered(),
        TouchPhase::Want(at) => Standing {
            wants: Acquired::Slot(at.touch.file, at.touch.index),
            ..unencumbered()
        },
        TouchPhase::Locked(at) => in_touch(&at.touch),
        TouchPhase::Missing(at) => in_touch(&at.touch),
        TouchPhase::Changed(at) => in_touch(&at.touch),
        TouchPhase::Abort(at) => in_touch(&at.touch),
        TouchPhase::Taken(at) => Standing {
            hand: Some(at.held.frame()),
            behind: u32::from(at.pending.missing() == 0),
            used_ahead: u64::from(at.pending.missing()),
            ..in_touch(&at.touch)
        },
        TouchPhase::Settle(at) => Standing {
            hand: Some(at.held.frame()),
            used_ahead: 1,
            ..in_touch(&at.touch)
        },
        TouchPhase::Committed(at) => Standing {
            hand: Some(at.held.frame()),
            behind: 1,
            ..in_touch(&at.touch)
        },
        TouchPhase::Restore(at) => Standing {
            hand: Some(at.held.frame()),
            behind: 1,
            ..in_touch(&at.touch)
        },
        TouchPhase::Found(at) => in_touch(&at.touch),
        TouchPhase::Leave(at) => in_touch(&at.touch),
    }
}

fn map_standing(phase: &MapPhase) -> Standing
    ensures standing { result ≡ standing_as (standing (Call.Map phase.now)) }
    ensures few { result.used_ahead ≤ 2 ^ 33 }
{
    match phase {
        MapPhase::Start(at) => Standing {
            wants: Acquired::Lock(at.map.file),
            ..unencumbered()
        },
        MapPhase::Room(at) => in_file(at.map.file),
        MapPhase::Missing(at) => in_file(at.map.file),
        MapPhase::Changed(at) => in_file(at.map.file),
        MapPhase::Abort(at) => in_file(at.map.file),
        MapPhase::Accounted(at) => Standing {
            ahead: at.pending.missing(),
            used_ahead: u64::from(at.pending.missing()),
            ..in_file(at.map.file)
        },
        MapPhase::Settle(at) => Standing {
            ahead: at.excess,
            used_ahead: u64::from(at.excess),
            ..in_file(at.map.file)
        },
        MapPhase::Enter(at) => in_file(at.map.file),
        MapPhase::Leave(at) => in_file(at.map.file),
    }
}

fn alloc_standing(phase: &AllocPhase) -> Standing
    ensures standing { result ≡ standing_as (standing (Call.Alloc phase.now)) }
    ensures few { result.used_ahead ≤ 2 ^ 33 }
{
    match phase {
        AllocPhase::Start(at) => Standing {
            wants: Acquired::Lock(at.allocation.file),
            ..unencumbered()
        },
        AllocPhase::Head(at) => in_file(at.allocation.file),
        AllocPhase::Want(at) => Standing {
            wants: Acquired::Slot(at.allocation.file, at.index),
            ..in_file(at.allocation.file)
        },
        AllocPhase::Locked(at) => in_file_at(at.allocation.file, at.index),
        AllocPhase::Missing(at) => in_file_at(at.allocation.file, at.index),
        AllocPhase::Changed(at) => in_file_at(at.allocation.file, at.index),
        AllocPhase::Abort(at) => in_file_at(at.allocation.file, at.index),
        AllocPhase::Taken(at) => Standing {
            hand: Some(at.held.frame()),
            behind: u32::from(at.pending.missing() == 0),
            used_ahead: u64::from(at.pending.missing()),
            ..in_file_at(at.allocation.file, at.index)
        },
        AllocPhase::Settle(at) => Standing {
            hand: Some(at.held.frame()),
            used_ahead: 1,
            ..in_file_at(at.allocation.file, at.index)
        },
        AllocPhase::Committed(at) => Standing {
            hand: Some(at.held.frame()),
            behind: 1,
            ..in_file_at(at.allocation.file, at.index)
        },
        AllocPhase::Restore(at) => Standing {
            hand: Some(at.held.frame()),
            behind: 1,
            ..in_file_at(at.allocation.file, at.index)
        },
        AllocPhase::Unslot(at) => in_file_at(at.allocation.file, at.index),
        AllocPhase::Extend(at) => in_file(at.allocation.file),
        AllocPhase::Leave(at) => in_file(at.allocation.file),
    }
}

fn punch_standing(phase: &PunchPhase) -> Standing
    ensures standing { result ≡ standing_as (standing (Call.Punch phase.now)) }
    ensures few { result.used_ahead ≤ 2 ^ 33 }
{
    match phase {
        PunchPhase::Start(at) => Standing {
            wants: Acquired::Lock(at.hole.file),
            ..unencumbered()
        },
        PunchPhase::Want(at) => Standing {
            wants: Acquired::Slot(at.hole.file, at.index),
            ..in_file(at.hole.file)
        },
        PunchPhase::Locked(at) => in_file_at(at.hole.file, at.index),
        PunchPhase::Unmap(at) => in_file_at(at.hole.file, at.index),
        PunchPhase::Evict(at) => in_file_at(at.hole.file, at.index),
        PunchPhase::Delete(at) => Standing {
            hand: Some(at.held.frame()),
            behind: 1,
            ..in_file_at(at.hole.file, at.index)
        },
        PunchPhase::Free(at) => Standing {
            hand: Some(at.held.frame()),
            behind: u32::from(at.denied),
            used_ahead: u64::from(!at.denied),
            ..in_file_at(at.hole.file, at.index)
        },
        PunchPhase::Unslot(at) => in_file_at(at.hole.file, at.index),
        PunchPhase::Leave(at) => in_file(at.hole.file),
    }
}

// A truncation on its way down still owes what it evicted.
fn in_sweep(truncation: &Truncation, evicted: u32) -> Standing
    ensures { result ≡ standing_as (record (in_truncate truncation.now) { behind = evicted }) }
{
    Standing {
        behind: evicted,
        ..in_file(truncation.file)
    }
}

fn in_sweep_at(truncation: &Truncation, index: Index, evicted: u32) -> Standing
    ensures { result ≡ standing_as (record (in_truncate truncation.now) { behind = evicted; slot = Some (truncation.now.file, index) }) }
{
    Standing {
        slot: Some((truncation.file, index)),
        ..in_sweep(truncation, evicted)
    }
}

fn truncate_standing(phase: &TruncatePhase) -> Standing
    ensures standing { result ≡ standing_as (standing (Call.Truncate phase.now)) }
    ensures few { result.used_ahead ≤ 2 ^ 33 }
{
    match phase {
        TruncatePhase::Start(at) => Standing {
            wants: Acquired::Lock(at.truncation.file),
            ..unencumbered()
        },
        TruncatePhase::Size(at) => in_file(at.truncation.file),
        TruncatePhase::Want(at) => Standing {
            wants: Acquired::Slot(at.truncation.file, at.index),
            ..in_sweep(&at.truncation, at.evicted)
        },
        TruncatePhase::Locked(at) => in_sweep_at(&at.truncation, at.index, at.evicted),
        TruncatePhase::Unmap(at) => in_sweep_at(&at.truncation, at.index, at.evicted),
        TruncatePhase::Evict(at) => in_sweep_at(&at.truncation, at.index, at.evicted),
        TruncatePhase::Free(at) => Standing {
            hand: Some(at.held.frame()),
            ..in_sweep_at(&at.truncation, at.index, at.evicted)
        },
        TruncatePhase::Unslot(at) => in_sweep_at(&at.truncation, at.index, at.evicted),
        TruncatePhase::Tail(at) => in_sweep(&at.truncation, at.evicted),
        TruncatePhase::Settle(at) => Standing {
            ahead: at.excess,
            used_ahead: u64::from(at.excess) + u64::from(at.evicted),
            ..in_file(at.truncation.file)
        },
        TruncatePhase::Leave(at) => in_file(at.truncation.file),
    }
}

fn call_standing(call: &Call) -> Standing
    ensures standing { result ≡ standing_as (standing call.now) }
    ensures few { result.used_ahead ≤ 2 ^ 33 }
{
    match call {
        Call::Touch(phase) => touch_standing(phase),
        Call::Map(phase) => map_standing(phase),
        Call::Alloc(phase) => alloc_standing(phase),
        Call::Punch(phase) => punch_standing(phase),
        Call::Truncate(phase) => truncate_standing(phase),
        Call::Unmap(_) | Call::Exit(_) => unencumbered(),
    }
}

/// The standing of a task's call, and of nothing where it has none.
pub fn standing_of(call: &Option<Call>) -> Standing
    ensures standing { result ≡ standing_as (standing_of call.now) }
    ensures few { result.used_ahead ≤ 2 ^ 33 }
{
    match call {
        Some(call) => call_standing(call),
        None => unencumbered(),
    }
}
