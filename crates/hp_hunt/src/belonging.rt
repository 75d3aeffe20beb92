//! Events that belong together, and are dropped together: those of a task, and those of one of its calls.
ghost use Rattle.std.specs.Prelude.{◌≡◌, ◌↔◌, IfOk, IsTrue, OnOk};
ghost use Rattle.hp_laws.specs.Laws.{IsOf};
ghost use Rattle.hp_hunt.specs.Conditions.{SomeRunMeets};
ghost use Rattle.hp_hunt.specs.Cutting.{IsSubsequence};

use crate::condition::Condition;
use crate::cutting::{Shrinking, keep_if_met};
use hp_base::{Config, Event, Task};
use std::alloc::{AllocError, Global};

/// Whether it is an event of the task.
fn is_of(event: &Event, task: Task) -> bool
    ensures { IsTrue result ↔ IsOf task event.now }
{
    match event {
        Event::Begin(other, _) | Event::Step(other, _) | Event::Kill(other) => *other == task,
        Event::Resize(_) => false,
    }
}

/// The task that begins a call by the event.
fn beginner(event: &Event) -> Option<Task> {
    match event {
        Event::Begin(task, _) => Some(*task),
        Event::Step(..) | Event::Kill(_) | Event::Resize(_) => None,
    }
}

/// The place from that one on where the task begins its next call, or behind the last event.
fn next_begin(events: &[Event], from: usize, task: Task) -> usize {
    for place in from..events.len() {
        if beginner(&events[place]) == Some(task) {
            return place;
        }
    }
    events.len()
}

/// The events but for those of the task from one place up to another.
fn without_task(
    alloc: Global,
    events: &[Event],
    task: Task,
    from: usize,
    to: usize,
) -> Result<Vec<Event>, AllocError>
    ensures { IfOk result (λ left. IsSubsequence left.items events.now) }
{
    let mut left = Vec::with_capacity(alloc, events.len())?;
    for place in 0..events.len() {
        let event = &events[place];
        let is_to_go = from <= place && place < to && is_of(event, task);
        if !is_to_go {
            left.push(*event)?;
        }
    }
    Ok(left)
}

/// Drops all events of each task without which a run of the others still meets the conditions.
pub(crate) fn cut_tasks(
    alloc: Global,
    config: Config,
    events: &mut Vec<Event>,
    conditions: &[Condition],
    watcher: &mut impl Shrinking,
) -> Result<(), AllocError>
    requires { SomeRunMeets config events.old.items conditions.now }
    ensures left { OnOk result (IsSubsequence events.new.items events.old.items) }
    ensures meets { OnOk result (SomeRunMeets config events.new.items conditions.now) }
{
    for number in 0..config.tasks {
        let task = Task::new(number + 1);
        let left = without_task(alloc, events.as_slice(), task, 0, events.len())?;
        keep_if_met(alloc, config, events, left, conditions, watcher)?;
    }
    Ok(())
}

/// Drops the call that begins at the place, if one does, and a run of the other events still meets the conditions.
fn try_call(
    alloc: Global,
    config: Config,
    events: &mut Vec<Event>,
    place: usize,
    conditions: &[Condition],
    watcher: &mut impl Shrinking,
) -> Result<(), AllocError>
    requires { SomeRunMeets config events.old.items conditions.now }
    ensures left { OnOk result (IsSubsequence events.new.items events.old.items) }
    ensures meets { OnOk result (SomeRunMeets config events.new.items conditions.now) }
{
    let Some(task) = events.get(place).and_then(beginner) else {
        return Ok(());
    };
    let to = next_begin(events.as_slice(), place.saturating_add(1), task);
    let left = without_task(alloc, events.as_slice(), task, place, to)?;
    keep_if_met(alloc, config, events, left, conditions, watcher)?;
    Ok(())
}

/// Goes once over the calls, from the last on, and drops each that can go: its begin, and the task's events behind it up to its next.
pub(crate) fn cut_calls(
    alloc: Global,
    config: Config,
    events: &mut Vec<Event>,
    conditions: &[Condition],
    watcher: &mut impl Shrinking,
) -> Result<(), AllocError>
    requires { SomeRunMeets config events.old.items conditions.now }
    ensures left { OnOk result (IsSubsequence events.new.items events.old.items) }
    ensures meets { OnOk result (SomeRunMeets config events.new.items conditions.now) }
{
    let mut place = events.len();
    while place > 0 {
        place -= 1;
        try_call(alloc, config, events, place, conditions, watcher)?;
    }
    Ok(())
}
