//! What is written of a pool that is driven line by line.
ghost use Rattle.std.specs.Prelude.{◌≡◌, ◌≤◌};
ghost use Rattle.hp_core.specs.Readers.{config_of};

use hp_base::{Answer, Event, Op, Task};
use hp_core::{Core, Life, Outcome};
use hp_diagnostics::WrongLine;
use hp_format::{Asked, Draft, Goal, Reason, Unadded, reaches};
use hp_program::text_of;
use hp_text::{MOST_EVENTS, Trace};
use std::alloc::{AllocError, Global};

/// What help prints.
pub(crate) const HELP: &str =
    "pool FRAMES FILES SLOTS TASKS [QUOTA]  a new pool, in place of the one before
begin, step, deny, kill, resize ..     an event, as in a trace; prints its outcome
step TASK *N, step TASK until PHASE    several steps, as in the input of hugepool format
?                                      prints where each call stands, and the outcome of its next step
undo, undo N                           undoes the last event, or the last N
redo, redo N                           makes the event anew that was undone last, or N of them
state                                  prints the pool's state, as hugepool replay does
trace                                  prints the trace so far
load FILE                              goes on from the trace in a file
save FILE, save                        writes the trace so far into a file, or into the last one
quit                                   ends, as the end of the input does
";

/// Lets an event happen, and lays its outcome out, or why it couldn't.
pub(crate) fn lay_event(
    draft: &mut Draft,
    event: &Event,
    text: &mut String,
) -> Result<Option<Outcome>, AllocError> {
    // The checker of borrows asks for a mention of the types that an event and an outcome may hold.
    let _none: (Option<Answer>, Option<Op>, Option<Reason>) = (None, None, None);
    match draft.add(event) {
        Ok(outcome) => {
            writeln!(text, "{outcome}")?;
            Ok(Some(outcome))
        }
        Err(Unadded::Memory) => Err(AllocError),
        Err(Unadded::Reason(why)) => {
            writeln!(text, "the line {why}")?;
            Ok(None)
        }
    }
}

/// Lets an event happen, so many times.
fn lay_times(
    draft: &mut Draft,
    event: &Event,
    times: u32,
    text: &mut String,
) -> Result<(), AllocError> {
    // The checker of borrows asks for a mention of the types that an event and an outcome may hold.
    let _none: (Option<Answer>, Option<Op>, Option<Reason>) = (None, None, None);
    for _ in 0..times {
        if lay_event(draft, event, text)?.is_none() {
            return Ok(());
        }
    }
    Ok(())
}

/// Makes steps of the task's call, until one reaches the goal, or it shows that none will.
fn lay_until(
    draft: &mut Draft,
    task: Task,
    goal: Goal,
    text: &mut String,
) -> Result<(), AllocError> {
    // The checker of borrows asks for a mention of the types that an event and an outcome may hold.
    let _none: (Option<Answer>, Option<Op>, Option<Reason>) = (None, None, None);
    let step = Event::Step(task, true);
    for _ in 0..MOST_EVENTS {
        let Some(outcome) = lay_event(draft, &step, text)? else {
            return Ok(());
        };
        match reaches(goal, &outcome) {
            Ok(true) => return Ok(()),
            Ok(false) => {}
            Err(why) => return writeln!(text, "the line {why}"),
        }
    }
    Ok(())
}

/// Lets what was asked for happen, and lays out what came of it.
pub(crate) fn lay_asked(
    draft: &mut Draft,
    asked: &Asked,
    text: &mut String,
) -> Result<(), AllocError> {
    match asked {
        Asked::Nothing => Ok(()),
        Asked::Times(event, times) => lay_times(draft, event, *times, text),
        Asked::Until(task, goal) => lay_until(draft, *task, *goal, text),
    }
}

/// Lays out where the task's call stands, and what its next step would come to.
fn lay_next(alloc: Global, draft: &Draft, task: Task, text: &mut String) -> Result<(), AllocError>
    requires first { 1 ≤ task }
    requires last { task ≤ (config_of draft.now.core).tasks }
{
    // The checker of borrows asks for a mention of the types that an event and an outcome may hold.
    let _none: (Option<Answer>, Option<Op>) = (None, None);
    let Some(phase) = draft.core().phase(task) else {
        return match draft.core().life(task) {
            Life::Dead => writeln!(text, "task {task}: dead"),
            Life::Alive | Life::Killed => writeln!(text, "task {task}: no call"),
        };
    };
    let outcome = draft.would(alloc, task)?;
    writeln!(text, "task {task} at {phase}: {outcome}")
}

/// Lays out the same of each task.
pub(crate) fn lay_all_next(
    alloc: Global,
    draft: &Draft,
    text: &mut String,
) -> Result<(), AllocError> {
    let config = draft.core().config();
    for number in 0..config.tasks {
        lay_next(alloc, draft, Task::new(number + 1), text)?;
    }
    Ok(())
}

/// The trace so far.
pub(crate) fn trace_of(alloc: Global, draft: &Draft) -> Result<Vec<u8>, AllocError> {
    // The checker of borrows asks for a mention of the types that an event may hold.
    let _none: (Option<Op>, Option<Task>) = (None, None);
    let events = draft.events().to_vec(alloc)?;
    let config = draft.core().config();
    match text_of(alloc, &Trace { config, events }) {
        Ok(text) => Ok(text),
        Err(_) => Err(AllocError),
    }
}

/// Appends who waits for whom, of the task's call.
fn push_wait(core: &Core, task: Task, text: &mut String) -> Result<(), AllocError>
    requires first { 1 ≤ task }
    requires last { task ≤ (config_of core.now).tasks }
{
    match core.waits_for(task) {
        Some(holder) => write!(text, ", {task} waits for {holder}"),
        None => Ok(()),
    }
}

/// Appends the counts, and who waits for whom.
fn push_counts(core: &Core, text: &mut String) -> Result<(), AllocError> {
    let (free, resv, calls) = (core.free(), core.resv(), core.calls());
    write!(text, "free {free} resv {resv} calls {calls}")?;
    let config = core.config();
    for number in 0..config.tasks {
        push_wait(core, Task::new(number + 1), text)?;
    }
    Ok(())
}

/// Appends what asks for the next line, at a terminal.
pub(crate) fn push_prompt(draft: Option<&Draft>, text: &mut String) -> Result<(), AllocError> {
    if let Some(draft) = draft {
        push_counts(draft.core(), text)?;
    }
    text.push_str("> ")
}

/// Says what is wrong with a line that isn't understood.
pub(crate) fn lay_wrong(words: &[u8], text: &mut String) -> Result<(), AllocError> {
    match WrongLine::of_loose(words, 2, words.starts_with(b"pool ")) {
        Some(wrong) => writeln!(text, "{wrong}; help lists the commands"),
        None => text.push_str("the line is not an event; help lists the commands\n"),
    }
}

/// Appends bytes that are text.
pub(crate) fn push_bytes(text: &mut String, bytes: &[u8]) -> Result<(), AllocError> {
    match str::from_utf8(bytes) {
        Ok(more) => text.push_str(more),
        Err(_) => Ok(()),
    }
}
