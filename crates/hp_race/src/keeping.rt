//! Whether the calls of a journal waited for what the script has them wait for.
//!
//! It is asked when a race is closed, so what a closed race is said to have kept doesn't rest on how its threads waited.
ghost use Rattle.std.specs.Prelude.{◌≡◌, ◌-◌, IfOk, map};
ghost use Rattle.std.specs.List.{list_all};
ghost use Rattle.hp_race.specs.Keeping.{behind, behind_step, is_in_turn, is_over, keeps_waits, may_begin, may_come, noted_of, progress_at};

use crate::waiting::needs_at;
use hp_base::{Event, Task};
use hp_core::{Outcome, is_exit};
use hp_shared::Entry;
use hp_text::{Need, Script, needs_of};
use std::alloc::{AllocError, Global};

/// What a journal tells of a task: how many calls it has begun and ended, whether the last is an exit, and whether it was killed or has
/// exited, so that nobody waits for it any more.
#[derive(Clone, Copy, Debug, PartialEq, Eq)]
pub(crate) struct Progress {
    begun: usize,
    ended: usize,
    exits: bool,
    left: bool,
}

// Of a task that isn't there.
const ABSENT: Progress = Progress {
    begun: 0,
    ended: 0,
    exits: false,
    left: true,
};

// Of one that has begun no call.
const FRESH: Progress = Progress {
    begun: 0,
    ended: 0,
    exits: false,
    left: false,
};

// The place of a task of that number.
fn place_of(task: Task) -> usize
    ensures { result ≡ task - 1 }
{
    (task.number() as usize).saturating_sub(1)
}

fn progress_at(tasks: &[Progress], place: usize) -> Progress
    ensures { result ≡ progress_at tasks.now place }
{
    match tasks.get(place) {
        Some(progress) => *progress,
        None => ABSENT,
    }
}

// Whether the task at that place has ended so many calls, or is waited for no longer.
fn is_over(tasks: &[Progress], need: Need) -> bool
    ensures { result ≡ is_over tasks.now need }
{
    let progress = progress_at(tasks, need.place as usize);
    progress.left || progress.ended >= need.calls
}

// Whether all of these are over.
fn are_over(tasks: &[Progress], needs: &[Need]) -> bool
    ensures { result ≡ list_all (is_over tasks.now) needs.now }
{
    needs.iter().all(|need| is_over(tasks, *need))
}

// Whether all is over that the task's next call waits for.
fn may_begin(needs: &[Vec<Vec<Need>>], tasks: &[Progress], task: Task) -> bool
    ensures { result ≡ may_begin (map (λ calls. map (λ needs. needs.items) calls.items) needs.now) tasks.now task }
{
    let own = progress_at(tasks, place_of(task));
    if own.left {
        return true;
    }
    are_over(tasks, needs_at(needs, task, own.begun))
}

// Whether all is over that the event waits for.
fn may_come(needs: &[Vec<Vec<Need>>], tasks: &[Progress], event: &Event) -> bool
    ensures { result ≡ may_come (map (λ calls. map (λ needs. needs.items) calls.items) needs.now) tasks.now event.now }
{
    match event {
        Event::Begin(task, _) => may_begin(needs, tasks, *task),
        Event::Step(..) | Event::Kill(_) | Event::Resize(_) => true,
    }
}

// What is known of a task behind a step of it.
fn behind_step(progress: Progress, outcome: &Outcome) -> Progress
    ensures { result ≡ behind_step progress outcome.now }
{
    match outcome {
        Outcome::Ended(_) => Progress {
            ended: progress.ended.saturating_add(1),
            left: progress.left || progress.exits,
            ..progress
        },
        _ => progress,
    }
}

fn note(tasks: &mut [Progress], task: Task, progress: Progress)
    ensures { tasks.new ≡ noted_of tasks.old task progress }
{
    let place = place_of(task);
    if place < tasks.len() {
        tasks[place] = progress;
    }
}

// What is known of all tasks behind an event.
fn note_event(tasks: &mut [Progress], event: &Event, outcome: &Outcome)
    ensures { tasks.new ≡ behind tasks.old event.now outcome.now }
{
    match event {
        Event::Begin(task, op) => {
            let own = progress_at(tasks, place_of(*task));
            let begun = own.begun.saturating_add(1);
            let exits = is_exit(op);
            note(
                tasks,
                *task,
                Progress {
                    begun,
                    exits,
                    ..own
                },
            );
        }
        Event::Step(task, _) => {
            let own = progress_at(tasks, place_of(*task));
            note(tasks, *task, behind_step(own, outcome));
        }
        Event::Kill(task) => {
            let own = progress_at(tasks, place_of(*task));
            note(tasks, *task, Progress { left: true, ..own });
        }
        Event::Resize(_) => {}
    }
}

// Whether each entry comes when all is over that it waits for.
fn is_in_turn(needs: &[Vec<Vec<Need>>], tasks: &mut [Progress], entries: &[Entry]) -> bool
    ensures { result ≡ is_in_turn (map (λ calls. map (λ needs. needs.items) calls.items) needs.now) tasks.old entries.now }
{
    for entry in entries {
        if !may_come(needs, tasks, &entry.event) {
            return false;
        }
        note_event(tasks, &entry.event, &entry.outcome);
    }
    true
}

/// Whether no call of the journal begins before those have ended for which the script has it wait.
pub(crate) fn keeps_waits(
    alloc: Global,
    script: &Script,
    journal: &[Entry],
) -> Result<bool, AllocError>
    ensures { IfOk result (λ keeps. keeps ≡ keeps_waits script.now journal.now) }
{
    let needs = needs_of(alloc, script)?;
    let mut tasks = vec![in alloc; FRESH; script.config.tasks as usize]?;
    Ok(is_in_turn(needs.as_slice(), &mut tasks, journal))
}
