//! A call in flight, and what one step of it did.
use crate::alloc::AllocPhase;
use crate::exit::ExitPhase;
use crate::map::MapPhase;
use crate::punch::PunchPhase;
use crate::touch::TouchPhase;
use crate::truncate::TruncatePhase;
use crate::unmap::UnmapPhase;
use hp_base::{Answer, Task};

/// A call in flight, in the phase in which it stands.
#[derive(Debug, Drop)]
pub enum Call {
    Touch(TouchPhase),
    Map(MapPhase),
    Alloc(AllocPhase),
    Punch(PunchPhase),
    Truncate(TruncatePhase),
    Unmap(UnmapPhase),
    Exit(ExitPhase),
}

/// What one step of a call did.
#[derive(Debug, Drop)]
pub enum Turn<P> {
    /// The call stands in that phase now.
    Moved(P),
    /// Nothing changed: that task holds what the step wants.
    Blocked(P, Task),
    /// The call is over.
    Ended(Answer),
}

/// There was no memory. The step didn't happen, and this is the phase that it was to begin from.
#[derive(Debug, Drop)]
pub struct Stopped<P> {
    pub phase: P,
}
