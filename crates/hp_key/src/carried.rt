//! What a call in flight carries, as plain numbers.
ghost use Rattle.std.specs.Prelude.{◌≡◌, Some};
ghost use Rattle.hp_machine.specs.declared.call.Call.{Call};
ghost use Rattle.hp_key.specs.Carried.{at_phase, carried, change_of, in_alloc, in_alloc_at, in_exit, in_map, in_punch, in_punch_at};
ghost use Rattle.hp_key.specs.Carried.{in_sweep, in_touch, in_truncate, in_unmap};

use hp_base::{Answer, File, Frame, Index, Task, Vpn};
use hp_frames::Held;
use hp_machine::Call;
use hp_machine::alloc::{AllocPhase, Allocation};
use hp_machine::exit::ExitPhase;
use hp_machine::map::{MapPhase, MapRequest};
use hp_machine::punch::{Hole, PunchPhase};
use hp_machine::touch::{Access, Touch, TouchPhase};
use hp_machine::truncate::{TruncatePhase, Truncation};
use hp_machine::unmap::UnmapPhase;
use hp_region::Pending;

/// A change of a reserve map that is in progress: its range, and how many indices of it were missing.
#[derive(Clone, Copy)]
pub(crate) struct Change {
    pub from: Index,
    pub to: Index,
    pub missing: u32,
}

/// What a call in flight carries. What its phase doesn't have is 0, or none.
#[derive(Clone, Copy)]
pub(crate) struct Carried {
    /// Which operation it is, and in which of its phases; both are counted from 0.
    pub operation: u32,
    pub phase: u32,
    /// The virtual page of a touch; the base of a mapping.
    pub page: Vpn,
    pub file: File,
    pub from: Index,
    /// How many pages; of a truncation, how many the file is to have.
    pub len: u32,
    pub index: Index,
    /// The task whose entries are to be cleared.
    pub task: Task,
    pub evicted: u32,
    pub excess: u32,
    /// Whether a map reserves, an allocation keeps the size, or a punch's delete was denied.
    pub flag: bool,
    pub access: Access,
    pub change: Option<Change>,
    /// The frame in its hand.
    pub frame: Option<Frame>,
    pub answer: Option<Answer>,
}

impl Carried {
    fn with_change(self, pending: &Pending) -> Self
        ensures { result ≡ record self { change = Some (change_of pending.now) } }
    {
        let change = Change {
            from: pending.from(),
            to: pending.to(),
            missing: pending.missing(),
        };
        Carried {
            change: Some(change),
            ..self
        }
    }

    fn with_frame(self, held: &Held) -> Self
        ensures { result ≡ record self { frame = Some held.now } }
    {
        Carried {
            frame: Some(held.frame()),
            ..self
        }
    }

    fn with_answer(self, answer: Answer) -> Self
        ensures { result ≡ record self { answer = Some answer } }
    {
        Carried {
            answer: Some(answer),
            ..self
        }
    }
}

// A call that carries nothing; the lines below name what it has.
fn at_phase(operation: u32, phase: u32) -> Carried
    ensures { result ≡ at_phase operation phase }
{
    Carried {
        operation,
        phase,
        page: Vpn::new(0),
        file: File::new(0),
        from: Index::new(0),
        len: 0,
        index: Index::new(0),
        task: Task::new(0),
        evicted: 0,
        excess: 0,
        flag: false,
        access: Access::Load,
        change: None,
        frame: None,
        answer: None,
    }
}

fn in_touch(phase: u32, touch: &Touch) -> Carried
    ensures { result ≡ in_touch phase touch.now }
{
    Carried {
        page: touch.vpn,
        file: touch.file,
        index: touch.index,
        access: touch.access,
        ..at_phase(0, phase)
    }
}

fn in_map(phase: u32, map: &MapRequest) -> Carried
    ensures { result ≡ in_map phase map.now }
{
    Carried {
        file: map.file,
        from: map.from,
        len: map.len,
        flag: map.reserve,
        ..at_phase(1, phase)
    }
}

fn in_alloc(phase: u32, allocation: &Allocation) -> Carried
    ensures { result ≡ in_alloc phase allocation.now }
{
    Carried {
        file: allocation.file,
        from: allocation.from,
        len: allocation.len,
        flag: allocation.keep,
        ..at_phase(2, phase)
    }
}

fn in_alloc_at(phase: u32, allocation: &Allocation, index: Index) -> Carried
    ensures { result ≡ in_alloc_at phase allocation.now index }
{
    Carried {
        index,
        ..in_alloc(phase, allocation)
    }
}

fn in_punch(phase: u32, hole: &Hole) -> Carried
    ensures { result ≡ in_punch phase hole.now }
{
    Carried {
        file: hole.file,
        from: hole.from,
        len: hole.len,
        ..at_phase(3, phase)
    }
}

fn in_punch_at(phase: u32, hole: &Hole, index: Index) -> Carried
    ensures { result ≡ in_punch_at phase hole.now index }
{
    Carried {
        index,
        ..in_punch(phase, hole)
    }
}

fn in_truncate(phase: u32, truncation: &Truncation) -> Carried
    ensures { result ≡ in_truncate phase truncation.now }
{
    Carried {
        file: truncation.file,
        len: truncation.new,
        ..at_phase(4, phase)
    }
}

fn in_sweep(phase: u32, truncation: &Truncation, index: Index, evicted: u32) -> Carried
    ensures { result ≡ in_sweep phase truncation.now index evicted }
{
    Carried {
        index,
        evicted,
        ..in_truncate(phase, truncation)
    }
}

fn in_unmap(phase: u32, base: Vpn) -> Carried
    ensures { result ≡ in_unmap phase base }
{
    Carried {
        page: base,
        ..at_phase(5, phase)
    }
}

fn in_exit(phase: u32, base: Vpn) -> Carried
    ensures { result ≡ in_exit phase base }
{
    Carried {
        page: base,
        ..at_phase(6, phase)
    }
}

fn touch_carried(phase: &TouchPhase) -> Carried
    ensures { result ≡ carried (Call.Touch phase.now) }
{
    match phase {
        TouchPhase::Look(at) => Carried {
            page: at.vpn,
            access: at.access,
            ..at_phase(0, 0)
        },
        TouchPhase::Want(at) => in_touch(1, &at.touch),
        TouchPhase::Locked(at) => in_touch(2, &at.touch),
        TouchPhase::Missing(at) => in_touch(3, &at.touch),
        TouchPhase::Changed(at) => in_touch(4, &at.touch).with_change(&at.pending),
        TouchPhase::Abort(at) => in_touch(5, &at.touch)
            .with_change(&at.pending)
            .with_answer(at.answer),
        TouchPhase::Taken(at) => in_touch(6, &at.touch)
            .with_change(&at.pending)
            .with_frame(&at.held),
        TouchPhase::Settle(at) => in_touch(7, &at.touch).with_frame(&at.held),
        TouchPhase::Committed(at) => in_touch(8, &at.touch).with_frame(&at.held),
        TouchPhase::Restore(at) => in_touch(9, &at.touch)
            .with_frame(&at.held)
            .with_answer(at.answer),
        TouchPhase::Found(at) => in_touch(10, &at.touch),
        TouchPhase::Leave(at) => in_touch(11, &at.touch).with_answer(at.answer),
    }
}

fn map_carried(phase: &MapPhase) -> Carried
    ensures { result ≡ carried (Call.Map phase.now) }
{
    match phase {
        MapPhase::Start(at) => in_map(0, &at.map),
        MapPhase::Room(at) => in_map(1, &at.map),
        MapPhase::Missing(at) => Carried {
            page: at.base,
            ..in_map(2, &at.map)
        },
        MapPhase::Changed(at) => Carried {
            page: at.base,
            ..in_map(3, &at.map).with_change(&at.pending)
        },
        MapPhase::Abort(at) => in_map(4, &at.map)
            .with_change(&at.pending)
            .with_answer(at.answer),
        MapPhase::Accounted(at) => Carried {
            page: at.base,
            ..in_map(5, &at.map).with_change(&at.pending)
        },
        MapPhase::Settle(at) => Carried {
            page: at.base,
            excess: at.excess,
            ..in_map(6, &at.map)
        },
        MapPhase::Enter(at) => Carried {
            page: at.base,
            ..in_map(7, &at.map)
        },
        MapPhase::Leave(at) => in_map(8, &at.map).with_answer(at.answer),
    }
}

fn alloc_carried(phase: &AllocPhase) -> Carried
    ensures { result ≡ carried (Call.Alloc phase.now) }
{
    match phase {
        AllocPhase::Start(at) => in_alloc(0, &at.allocation),
        AllocPhase::Head(at) => in_alloc_at(1, &at.allocation, at.index),
        AllocPhase::Want(at) => in_alloc_at(2, &at.allocation, at.index),
        AllocPhase::Locked(at) => in_alloc_at(3, &at.allocation, at.index),
        AllocPhase::Missing(at) => in_alloc_at(4, &at.allocation, at.index),
        AllocPhase::Changed(at) => in_alloc_at(5, &at.allocation, at.index).with_change(
            &at.pending,
        ),
        AllocPhase::Abort(at) => in_alloc_at(6, &at.allocation, at.index)
            .with_change(&at.pending)
            .with_answer(at.answer),
        AllocPhase::Taken(at) => in_alloc_at(7, &at.allocation, at.index)
            .with_change(&at.pending)
            .with_frame(&at.held),
        AllocPhase::Settle(at) => in_alloc_at(8, &at.allocation, at.index).with_frame(&at.held),
        AllocPhase::Committed(at) => in_alloc_at(9, &at.allocation, at.index).with_frame(&at.held),
        AllocPhase::Restore(at) => in_alloc_at(10, &at.allocation, at.index)
            .with_frame(&at.held)
            .with_answer(at.answer),
        AllocPhase::Unslot(at) => Carried {
            answer: at.answer,
            ..in_alloc_at(11, &at.allocation, at.index)
        },
        AllocPhase::Extend(at) => in_alloc(12, &at.allocation),
        AllocPhase::Leave(at) => in_alloc(13, &at.allocation).with_answer(at.answer),
    }
}

fn punch_carried(phase: &PunchPhase) -> Carried
    ensures { result ≡ carried (Call.Punch phase.now) }
{
    match phase {
        PunchPhase::Start(at) => in_punch(0, &at.hole),
        PunchPhase::Want(at) => in_punch_at(1, &at.hole, at.index),
        PunchPhase::Locked(at) => in_punch_at(2, &at.hole, at.index),
        PunchPhase::Unmap(at) => Carried {
            task: at.task,
            ..in_punch_at(3, &at.hole, at.index)
        },
        PunchPhase::Evict(at) => in_punch_at(4, &at.hole, at.index),
        PunchPhase::Delete(at) => in_punch_at(5, &at.hole, at.index).with_frame(&at.held),
        PunchPhase::Free(at) => Carried {
            flag: at.denied,
            ..in_punch_at(6, &at.hole, at.index).with_frame(&at.held)
        },
        PunchPhase::Unslot(at) => in_punch_at(7, &at.hole, at.index),
        PunchPhase::Leave(at) => in_punch(8, &at.hole),
    }
}

fn truncate_carried(phase: &TruncatePhase) -> Carried
    ensures { result ≡ carried (Call.Truncate phase.now) }
{
    match phase {
        TruncatePhase::Start(at) => in_truncate(0, &at.truncation),
        TruncatePhase::Size(at) => in_truncate(1, &at.truncation),
        TruncatePhase::Want(at) => in_sweep(2, &at.truncation, at.index, at.evicted),
        TruncatePhase::Locked(at) => in_sweep(3, &at.truncation, at.index, at.evicted),
        TruncatePhase::Unmap(at) => Carried {
            task: at.task,
            ..in_sweep(4, &at.truncation, at.index, at.evicted)
        },
        TruncatePhase::Evict(at) => in_sweep(5, &at.truncation, at.index, at.evicted),
        TruncatePhase::Free(at) => in_sweep(6, &at.truncation, at.index, at.evicted).with_frame(
            &at.held,
        ),
        TruncatePhase::Unslot(at) => in_sweep(7, &at.truncation, at.index, at.evicted),
        TruncatePhase::Tail(at) => Carried {
            evicted: at.evicted,
            ..in_truncate(8, &at.truncation)
        },
        TruncatePhase::Settle(at) => Carried {
            excess: at.excess,
            evicted: at.evicted,
            ..in_truncate(9, &at.truncation)
        },
        TruncatePhase::Leave(at) => in_truncate(10, &at.truncation),
    }
}

fn unmap_carried(phase: &UnmapPhase) -> Carried
    ensures { result ≡ carried (Call.Unmap phase.now) }
{
    match phase {
        UnmapPhase::Start(at) => in_unmap(0, at.base),
        UnmapPhase::Clear(at) => in_unmap(1, at.base),
        UnmapPhase::Drop(at) => in_unmap(2, at.base),
    }
}

fn exit_carried(phase: &ExitPhase) -> Carried
    ensures { result ≡ carried (Call.Exit phase.now) }
{
    match phase {
        ExitPhase::Start => at_phase(6, 0),
        ExitPhase::Clear(at) => in_exit(1, at.base),
        ExitPhase::Drop(at) => in_exit(2, at.base),
        ExitPhase::Leave => at_phase(6, 3),
    }
}

/// What the call carries.
pub(crate) fn carried_by(call: &Call) -> Carried
    ensures { result ≡ carried call.now }
{
    match call {
        Call::Touch(phase) => touch_carried(phase),
        Call::Map(phase) => map_carried(phase),
        Call::Alloc(phase) => alloc_carried(phase),
        Call::Punch(phase) => punch_carried(phase),
        Call::Truncate(phase) => truncate_carried(phase),
        Call::Unmap(phase) => unmap_carried(phase),
        Call::Exit(phase) => exit_carried(phase),
    }
}
