//! The word of the phase in which a call stands.
ghost use Rattle.std.specs.Prelude.{◌≡◌};
ghost use Rattle.hp_machine.specs.Events.{word_of};

use hp_machine::alloc::AllocPhase;
use hp_machine::exit::ExitPhase;
use hp_machine::map::MapPhase;
use hp_machine::punch::PunchPhase;
use hp_machine::touch::TouchPhase;
use hp_machine::truncate::TruncatePhase;
use hp_machine::unmap::UnmapPhase;
use hp_machine::{Call, Phase};

/// The word of the phase.
#[inline(always)]
pub fn phase_word(call: &Call) -> Phase
    ensures { result ≡ word_of call.now }
{
    match call {
        Call::Touch(phase) => touch_word(phase),
        Call::Map(phase) => map_word(phase),
        Call::Alloc(phase) => alloc_word(phase),
        Call::Punch(phase) => punch_word(phase),
        Call::Truncate(phase) => truncate_word(phase),
        Call::Unmap(phase) => unmap_word(phase),
        Call::Exit(phase) => exit_word(phase),
    }
}

#[inline(always)]
fn touch_word(phase: &TouchPhase) -> Phase
    ensures { result ≡ word_of (Call.Touch phase.now) }
{
    match phase {
        TouchPhase::Look(_) => Phase::Look,
        TouchPhase::Want(_) => Phase::Want,
        TouchPhase::Locked(_) => Phase::Locked,
        TouchPhase::Missing(_) => Phase::Missing,
        TouchPhase::Changed(_) => Phase::Changed,
        TouchPhase::Abort(_) => Phase::Abort,
        TouchPhase::Taken(_) => Phase::Taken,
        TouchPhase::Settle(_) => Phase::Settle,
        TouchPhase::Committed(_) => Phase::Committed,
        TouchPhase::Restore(_) => Phase::Restore,
        TouchPhase::Found(_) => Phase::Found,
        TouchPhase::Leave(_) => Phase::Leave,
    }
}

#[inline(always)]
fn map_word(phase: &MapPhase) -> Phase
    ensures { result ≡ word_of (Call.Map phase.now) }
{
    match phase {
        MapPhase::Start(_) => Phase::Start,
        MapPhase::Room(_) => Phase::Room,
        MapPhase::Missing(_) => Phase::Missing,
        MapPhase::Changed(_) => Phase::Changed,
        MapPhase::Abort(_) => Phase::Abort,
        MapPhase::Accounted(_) => Phase::Accounted,
        MapPhase::Settle(_) => Phase::Settle,
        MapPhase::Enter(_) => Phase::Enter,
        MapPhase::Leave(_) => Phase::Leave,
    }
}

#[inline(always)]
fn alloc_word(phase: &AllocPhase) -> Phase
    ensures { result ≡ word_of (Call.Alloc phase.now) }
{
    match phase {
        AllocPhase::Start(_) => Phase::Start,
        AllocPhase::Head(_) => Phase::Head,
        AllocPhase::Want(_) => Phase::Want,
        AllocPhase::Locked(_) => Phase::Locked,
        AllocPhase::Missing(_) => Phase::Missing,
        AllocPhase::Changed(_) => Phase::Changed,
        AllocPhase::Abort(_) => Phase::Abort,
        AllocPhase::Taken(_) => Phase::Taken,
        AllocPhase::Settle(_) => Phase::Settle,
        AllocPhase::Committed(_) => Phase::Committed,
        AllocPhase::Restore(_) => Phase::Restore,
        AllocPhase::Unslot(_) => Phase::Unslot,
        AllocPhase::Extend(_) => Phase::Extend,
        AllocPhase::Leave(_) => Phase::Leave,
    }
}

#[inline(always)]
fn punch_word(phase: &PunchPhase) -> Phase
    ensures { result ≡ word_of (Call.Punch phase.now) }
{
    match phase {
        PunchPhase::Start(_) => Phase::Start,
        PunchPhase::Want(_) => Phase::Want,
        PunchPhase::Locked(_) => Phase::Locked,
        PunchPhase::Unmap(_) => Phase::Unmap,
        PunchPhase::Evict(_) => Phase::Evict,
        PunchPhase::Delete(_) => Phase::Delete,
        PunchPhase::Free(_) => Phase::Free,
        PunchPhase::Unslot(_) => Phase::Unslot,
        PunchPhase::Leave(_) => Phase::Leave,
    }
}

#[inline(always)]
fn truncate_word(phase: &TruncatePhase) -> Phase
    ensures { result ≡ word_of (Call.Truncate phase.now) }
{
    match phase {
        TruncatePhase::Start(_) => Phase::Start,
        TruncatePhase::Size(_) => Phase::Size,
        TruncatePhase::Want(_) => Phase::Want,
        TruncatePhase::Locked(_) => Phase::Locked,
        TruncatePhase::Unmap(_) => Phase::Unmap,
        TruncatePhase::Evict(_) => Phase::Evict,
        TruncatePhase::Free(_) => Phase::Free,
        TruncatePhase::Unslot(_) => Phase::Unslot,
        TruncatePhase::Tail(_) => Phase::Tail,
        TruncatePhase::Settle(_) => Phase::Settle,
        TruncatePhase::Leave(_) => Phase::Leave,
    }
}

#[inline(always)]
fn unmap_word(phase: &UnmapPhase) -> Phase
    ensures { result ≡ word_of (Call.Unmap phase.now) }
{
    match phase {
        UnmapPhase::Start(_) => Phase::Start,
        UnmapPhase::Clear(_) => Phase::Clear,
        UnmapPhase::Drop(_) => Phase::Drop,
    }
}

#[inline(always)]
fn exit_word(phase: &ExitPhase) -> Phase
    ensures { result ≡ word_of (Call.Exit phase.now) }
{
    match phase {
        ExitPhase::Start => Phase::Start,
        ExitPhase::Clear(_) => Phase::Clear,
        ExitPhase::Drop(_) => Phase::Drop,
        ExitPhase::Leave => Phase::Leave,
    }
}
