//! What is noted of a run while it is made.
ghost use Rattle.std.specs.Prelude.{◌≡◌, ◌↔◌, ◌⊎◌, ◌+◌, ◌<◌, ◌≤◌, ◌^◌, ℕ, true, false, List, [], ◌∷◌, IsTrue, Option, None};
ghost use Rattle.std.specs.Prelude.{IfOk, IfSome, OnOk, length, slice_index_or};
ghost use Rattle.hp_base.specs.declared.config.Config.{Config};
ghost use Rattle.hp_base.specs.declared.event.Event.{Event};
ghost use Rattle.hp_machine.specs.declared.outcome.Outcome.{Outcome};
ghost use Rattle.hp_laws.specs.Laws.{IsOf};
ghost use Rattle.hp_core.specs.Readers.{config_of};
ghost use Rattle.hp_core.specs.Runs.{IsOpening, Row};
ghost use Rattle.hp_core.specs.State.{CoreState};
ghost use Rattle.hp_summary.specs.Facts.{IsHeldUp};
ghost use Rattle.hp_watch.specs.Moments.{Moment};
ghost use Rattle.hp_summary.specs.Noting.{AreLong, AreMet, AreNotes, CameBy, IsLookedAt, IsQuiet};
ghost use Rattle.hp_watch.specs.Phases.{ArePhases};

use crate::phases::{PAIRS, mark_meetings};
use hp_base::{Answer, Event, Op, Task};
use hp_core::{Core, Outcome, Phase};
use hp_watch::{Calls, EndedCall, is_held_up, may_pass, may_wait, no_calls, phase_after};
use std::alloc::{AllocError, Global};

/// What is noted of a run while it is made.
#[derive(Drop)]
pub(crate) struct Notes {
    // where the call of each task stands
    phases: Vec<Option<Phase>>,
    // the calls that each task has begun
    calls: Calls,
    // the calls that ended, in the order in which they did
    pub(crate) ended: Vec<EndedCall>,
    // whether each task was held up
    pub(crate) held: Vec<bool>,
    // which phases met
    pub(crate) met: Vec<bool>,
}

/// The task whose event it is.
fn task_of(event: &Event) -> Option<Task>
    ensures some { IfSome result (λ task. (u : ℕ) → IsOf u event.now → u ≡ task) }
    ensures none { result ≡ None → (u : ℕ) → ¬ IsOf u event.now }
{
    match event {
        Event::Begin(task, _) | Event::Step(task, _) | Event::Kill(task) => Some(*task),
        Event::Resize(_) => None,
    }
}

/// The task whose event it is, where it is one of so many.
fn task_among(event: &Event, tasks: u32) -> Option<Task>
    ensures there { IfSome result (λ task. (1 ≤ task) × (task ≤ tasks)) }
    ensures some { IfSome result (λ task. (u : ℕ) → IsOf u event.now → u ≡ task) }
    ensures none { result ≡ None → (u : ℕ) → 1 ≤ u → u ≤ tasks → ¬ IsOf u event.now }
{
    match task_of(event) {
        Some(task) if 1 <= task.number() && task.number() <= tasks => Some(task),
        _ => None,
    }
}

/// The place of the event's task, where its call, of those that stood so, takes and leaves nothing by it: then nobody else is held up
/// who wasn't before.
#[inline(always)]
fn quiet_place(event: &Event, phases: &[Option<Phase>], tasks: u32) -> Option<u32>
    requires { length phases.now ≡ tasks }
    ensures there { IfSome result (λ place. place < tasks) }
    ensures quiet { IfSome result (λ place. IsQuiet event.now phases.now place) }
{
    match task_among(event, tasks) {
        Some(task) if !may_pass(phases[task.place()]) => Some(task.number() - 1),
        _ => None,
    }
}

/// Whether the next step of the call of the task at this place is blocked by somebody.
#[inline(always)]
fn is_waiting(core: &Core, phases: &[Option<Phase>], place: u32) -> bool
    requires phases { ArePhases core.now phases.now }
    requires there { place < length phases.now }
    requires fits { place + 1 < 2 ^ 32 }
    ensures { IsTrue result ↔ IsHeldUp core.now (place + 1) }
{
    match phases[place as usize] {
        Some(at) => may_wait(at) && is_held_up(core, Task::new(place + 1)),
        None => false,
    }
}

/// Marks each task that is held up. It is lent a slice, so that its place is known in each round.
fn mark_held(held: &mut [bool], phases: &[Option<Phase>], core: &Core, tasks: u32)
    requires phases { ArePhases core.now phases.now }
    requires tasks { length phases.now ≡ tasks }
    requires long { length held.old ≡ tasks }
    ensures long { length held.new ≡ tasks }
    ensures marked { (k : ℕ) → k < tasks → (slice_index_or held.new k false ≡ true
        ↔ ((slice_index_or held.old k false ≡ true) ⊎ IsHeldUp core.now (k + 1))) }
{
    for place in 0..tasks {
        if !held[place as usize] && is_waiting(core, phases, place) {
            held[place as usize] = true;
        }
    }
}

/// Marks the task at this place, if it is held up.
fn mark_own(held: &mut [bool], phases: &[Option<Phase>], core: &Core, place: u32)
    requires phases { ArePhases core.now phases.now }
    requires there { place < length phases.now }
    requires fits { place + 1 < 2 ^ 32 }
    requires long { length held.old ≡ length phases.now }
    ensures long { length held.new ≡ length held.old }
    ensures marked { (k : ℕ) → (slice_index_or held.new k false ≡ true
        ↔ ((slice_index_or held.old k false ≡ true) ⊎ ((k ≡ place) × IsHeldUp core.now (k + 1)))) }
{
    if !held[place as usize] && is_waiting(core, phases, place) {
        held[place as usize] = true;
    }
}

/// Marks each task that is held up; or where a place is given, only the task there, if it is.
fn mark_waiting(
    held: &mut Vec<bool>,
    phases: &[Option<Phase>],
    core: &Core,
    tasks: u32,
    quiet: Option<u32>,
)
    requires phases { ArePhases core.now phases.now }
    requires tasks { length phases.now ≡ tasks }
    requires long { length held.old.items ≡ tasks }
    requires there { IfSome quiet (λ place. place < tasks) }
    ensures long { length held.new.items ≡ tasks }
    ensures marked { (k : ℕ) → k < tasks → (slice_index_or held.new.items k false ≡ true
        ↔ ((slice_index_or held.old.items k false ≡ true) ⊎ (IsLookedAt quiet k × IsHeldUp core.now (k + 1)))) }
{
    match quiet {
        Some(place) => mark_own(held.as_mut_slice(), phases, core, place),
        None => mark_held(held.as_mut_slice(), phases, core, tasks),
    }
}

/// Notes where the event leaves its task's call, and which others it meets there.
fn note_phase(
    phases: &mut Vec<Option<Phase>>,
    met: &mut Vec<bool>,
    event: &Event,
    outcome: &Outcome,
    core: &Core,
    tasks: u32,
)
    requires sized { tasks ≡ (config_of core.now).tasks }
    requires tasks { length phases.old.items ≡ tasks }
    requires pairs { length met.old.items ≡ 729 }
    requires came { CameBy phases.old.items event.now outcome.now core.now }
    ensures tasks { length phases.new.items ≡ tasks }
    ensures pairs { length met.new.items ≡ 729 }
    ensures phases { ArePhases core.now phases.new.items }
    ensures met { (old : CoreState) (before : List Moment) → Row old event.now outcome.now core.now → AreMet met.old.items old before
        → AreMet met.new.items core.now (record { event = event.now; outcome = outcome.now; core = core.now } ∷ before) }
{
    core.is_reached();
    core.always();
    if let Some(task) = task_among(event, tasks) {
        phases[task.place()] = phase_after(core, task, outcome);
        mark_meetings(met, phases.as_slice(), task.place());
    }
}

impl Notes {
    /// Before any event.
    pub(crate) fn new(alloc: Global, tasks: u32) -> Result<Notes, AllocError>
        ensures long { IfOk result (λ notes. AreLong notes tasks) }
        ensures knows { IfOk result (λ notes. (config : Config) (core : CoreState) → IsOpening config core → AreNotes notes core []) }
    {
        Ok(Notes {
            phases: no_calls(alloc, tasks)?,
            calls: Calls::new(alloc),
            ended: Vec::new(alloc),
            held: vec![in alloc; false; tasks as usize]?,
            met: vec![in alloc; false; PAIRS]?,
        })
    }

    /// One moment more: this event came, with this outcome, and led to that core.
    #[inline(always)]
    pub(crate) fn see(
        &mut self,
        event: &Event,
        outcome: &Outcome,
        core: &Core,
    ) -> Result<(), AllocError>
        requires long { AreLong self.old (config_of core.now).tasks }
        requires came { CameBy self.old.phases.items event.now outcome.now core.now }
        ensures long { OnOk result (AreLong self.new (config_of core.now).tasks) }
        ensures knows { OnOk result ((old : CoreState) (before : List Moment) → Row old event.now outcome.now core.now
            → AreNotes self.old old before
            → AreNotes self.new core.now (record { event = event.now; outcome = outcome.now; core = core.now } ∷ before)) }
    {
        // The checker of borrows asks for a mention of the types that an event and an outcome may hold.
        let _none: (Option<Op>, Option<Answer>) = (None, None);
        let tasks = core.config().tasks;
        core.is_reached();
        core.always();
        let ended = self.calls.ended_by(event, outcome);
        let quiet = quiet_place(event, self.phases.as_slice(), tasks);
        self.calls.see(event, outcome)?;
        note_phase(&mut self.phases, &mut self.met, event, outcome, core, tasks);
        mark_waiting(&mut self.held, self.phases.as_slice(), core, tasks, quiet);
        if let Some(ended) = ended {
            self.ended.push(ended)?;
        }
        Ok(())
    }
}
