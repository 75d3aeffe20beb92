//! Watches: each looks for one condition, moment by moment.
ghost use Rattle.std.specs.Prelude.{◌≡◌, ◌↔◌, ◌≤◌, ℕ, true, false, List, [], ◌∷◌, All, IsTrue, IfOk, OnOk, map, length};
ghost use Rattle.hp_core.specs.State.{CoreState};
ghost use Rattle.hp_hunt.specs.Conditions.{Finds, IsMetAt, IsSomeBlocked, Meets, MeetsAll, MeetsChoice};
ghost use Rattle.hp_watch.specs.Calls.{AreCalls};
ghost use Rattle.hp_watch.specs.Moments.{Moment, last_of};
ghost use Rattle.hp_hunt.specs.Watching.{AllKnow, Knows, known_of, of_watch};
ghost use Rattle.hp_hunt.specs.declared.condition.Condition.{Condition};

use crate::answering::is_answered;
use crate::comparing::has_count;
use crate::condition::{Condition, Sought};
use hp_base::{Event, Task};
use hp_core::{Core, Outcome};
use hp_watch::{Calls, is_held_up, stands_at};
use std::alloc::{AllocError, Global};

/// Whether some task's next step is blocked by somebody.
fn is_any_held_up(core: &Core) -> bool
    ensures { IsTrue result ↔ IsSomeBlocked None core.now }
{
    core.is_reached();
    core.always();
    let tasks = core.config().tasks;
    for place in 0..tasks {
        if is_held_up(core, Task::new(place + 1)) {
            return true;
        }
    }
    false
}

/// Whether the task's next step is blocked by somebody; that of any task where none is given.
fn is_blocked(core: &Core, task: Option<Task>) -> bool
    ensures { IsTrue result ↔ IsSomeBlocked task core.now }
{
    match task {
        Some(one) => is_held_up(core, one),
        None => is_any_held_up(core),
    }
}

/// Whether what is sought is found at this moment. The calls are those before it.
fn is_met_at(sought: Sought, calls: &Calls, event: &Event, outcome: &Outcome, core: &Core) -> bool
    ensures { (before : List Moment) → AreCalls calls.now.tasks.items before
        → (IsTrue result ↔ IsMetAt sought before (record { event = event.now; outcome = outcome.now; core = core.now })) }
{
    match sought {
        Sought::Answer(answer) => is_answered(answer, calls, event, outcome, core),
        Sought::Blocked(task) => is_blocked(core, task),
        Sought::Meet {
            task,
            phase,
            other,
            other_phase,
        } => stands_at(core, task, phase) && stands_at(core, other, other_phase),
        Sought::Final(_) => false,
    }
}

/// Looks for one condition, moment by moment.
#[derive(Clone, Copy, Debug)]
pub struct Watch {
    condition: Condition,
    // whether what it seeks was found at a moment
    seen: bool,
}

impl Watch {
    /// Before any event.
    fn new(condition: Condition) -> Watch
        ensures condition { result.condition ≡ condition }
        ensures knows { Knows result [] }
    {
        Watch {
            condition,
            seen: false,
        }
    }

    /// Whether what it seeks was found at a moment.
    pub fn is_seen(&self) -> bool
        ensures { result ≡ self.now.seen }
    {
        self.seen
    }

    /// One moment more: this event came, with this outcome, and led to that core. The calls are those before it.
    fn see(&mut self, calls: &Calls, event: &Event, outcome: &Outcome, core: &Core)
        ensures condition { self.new.condition ≡ self.old.condition }
        ensures knows { (before : List Moment) → AreCalls calls.now.tasks.items before → Knows self.old before
            → Knows self.new (record { event = event.now; outcome = outcome.now; core = core.now } ∷ before) }
    {
        let is_met = is_met_at(self.condition.sought, calls, event, outcome, core);
        self.seen = self.seen || is_met;
    }

    /// Whether what it seeks is found in a run that ends here.
    fn is_found(&self, core: &Core) -> bool
        ensures { (first : CoreState) (moments : List Moment) → core.now ≡ last_of first moments → Knows self.now moments
            → (IsTrue result ↔ Finds first moments self.now.condition.sought) }
    {
        match self.condition.sought {
            Sought::Final(comparison) => has_count(core, comparison),
            Sought::Answer(_) | Sought::Blocked(_) | Sought::Meet { .. } => self.seen,
        }
    }

    /// Whether its condition is met by a run that ends here.
    fn is_met(&self, core: &Core) -> bool
        ensures { (first : CoreState) (moments : List Moment) → core.now ≡ last_of first moments → Knows self.now moments
            → (IsTrue result ↔ Meets first moments self.now.condition) }
    {
        self.is_found(core) == self.condition.wanted
    }
}

/// A watch for each condition.
fn watch_each(alloc: Global, conditions: &[Condition]) -> Result<Vec<Watch>, AllocError>
    ensures of { IfOk result (λ watches. map of_watch watches.items ≡ conditions.now) }
    ensures each { IfOk result (λ watches. All (λ watch. Knows watch []) watches.items) }
{
    let mut watches = Vec::with_capacity(alloc, conditions.len())?;
    for condition in conditions {
        watches.push(Watch::new(*condition))?;
    }
    Ok(watches)
}

/// One moment more, for each watch. The calls are those before it.
fn see_each(watches: &mut [Watch], calls: &Calls, event: &Event, outcome: &Outcome, core: &Core)
    ensures of { map of_watch watches.new ≡ map of_watch watches.old }
    ensures each { (before : List Moment) → AreCalls calls.now.tasks.items before → All (λ watch. Knows watch before) watches.old
        → All (λ watch. Knows watch (record { event = event.now; outcome = outcome.now; core = core.now } ∷ before)) watches.new }
{
    for place in 0..watches.len() {
        watches[place].see(calls, event, outcome, core);
    }
}

/// Looks for conditions, moment by moment.
#[derive(Debug, Drop)]
pub struct Watches {
    // the calls so far, which answers are asked of
    calls: Calls,
    // one for each condition
    watches: Vec<Watch>,
}

impl Watches {
    /// Before any event.
    pub fn new(alloc: Global, conditions: &[Condition]) -> Result<Watches, AllocError>
        ensures { IfOk result (λ watches. AllKnow conditions.now (known_of watches) []) }
    {
        Ok(Watches {
            calls: Calls::new(alloc),
            watches: watch_each(alloc, conditions)?,
        })
    }

    /// One for each condition.
    pub fn watches(&self) -> &[Watch]
        ensures { result.now ≡ self.now.watches.items }
    {
        self.watches.as_slice()
    }

    /// The calls so far.
    pub fn calls(&self) -> &Calls
        ensures { result.now ≡ self.now.calls }
    {
        &self.calls
    }

    /// One moment more: this event came, with this outcome, and led to that core. Without memory nothing is known any more.
    #[inline(always)]
    pub fn see(&mut self, event: &Event, outcome: &Outcome, core: &Core) -> Result<(), AllocError>
        ensures { OnOk result ((conditions : List Condition) (before : List Moment) → AllKnow conditions (known_of self.old) before
            → AllKnow conditions (known_of self.new) (record { event = event.now; outcome = outcome.now; core = core.now } ∷ before)) }
    {
        see_each(
            self.watches.as_mut_slice(),
            &self.calls,
            event,
            outcome,
            core,
        );
        self.calls.see(event, outcome)
    }

    /// Whether one of the alternatives of that number is met by a run that ends here.
    fn is_choice_met(&self, choice: u32, core: &Core) -> bool
        ensures { (conditions : List Condition) (first : CoreState) (moments : List Moment)
            → core.now ≡ last_of first moments → AllKnow conditions (known_of self.now) moments
            → (IsTrue result ↔ MeetsChoice conditions first moments choice) }
    {
        for watch in &self.watches {
            if watch.condition.choice == choice && watch.is_met(core) {
                return true;
            }
        }
        false
    }

    /// Whether all conditions are met by a run that ends here.
    pub fn are_met(&self, core: &Core) -> bool
        ensures met { result ≡ true → (conditions : List Condition) (first : CoreState) (moments : List Moment)
            → core.now ≡ last_of first moments → AllKnow conditions (known_of self.now) moments → MeetsAll conditions first moments }
        ensures missed { result ≡ false → (conditions : List Condition) (first : CoreState) (moments : List Moment)
            → core.now ≡ last_of first moments → AllKnow conditions (known_of self.now) moments → ¬ MeetsAll conditions first moments }
    {
        for watch in &self.watches {
            if !self.is_choice_met(watch.condition.choice, core) {
                return false;
            }
        }
        true
    }
}
