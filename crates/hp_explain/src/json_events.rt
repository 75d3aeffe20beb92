//! The keys of an event and of what came of it.
ghost use Rattle.std.specs.Prelude.{◌≡◌, ◌≤◌, ◌++◌, Option, OnOk, string_bytes};
ghost use Rattle.hp_core.specs.Readers.{config_of};
ghost use Rattle.hp_explain.specs.JsonEvents.{answer_keys, by_key, event_key, event_keys, frames_key, linux_key, number_key, op_keys};
ghost use Rattle.hp_explain.specs.JsonEvents.{outcome_key, outcome_keys, phase_key, place_in, place_of, reason_key, task_key};

use hp_base::{Event, File, Index, Op, Task};
use hp_core::{Acquired, Answer, Core, Outcome, Phase, Refusal};
use hp_text::column_of;
use hp_watch::linux_of_step;
use std::alloc::AllocError;

/// Appends the operation's word and its numbers.
#[tactic(auto, unfolding(crate::specs::JsonEvents::op_keys))]
fn push_op(op: &Op, text: &mut String) -> Result<(), AllocError>
    ensures { OnOk result (string_bytes text.new ≡ string_bytes text.old ++ op_keys op.now) }
{
    match op {
        Op::Map { file, from, len } => write!(
            text,
            ",\"op\":\"map\",\"numbers\":[{file},{from},{len}]"
        ),
        Op::MapNoReserve { file, from, len } => write!(
            text,
            ",\"op\":\"mapn\",\"numbers\":[{file},{from},{len}]"
        ),
        Op::Unmap { base } => write!(text, ",\"op\":\"unmap\",\"numbers\":[{base}]"),
        Op::Load { vpn } => write!(text, ",\"op\":\"load\",\"numbers\":[{vpn}]"),
        Op::Store { vpn, word } => write!(text, ",\"op\":\"store\",\"numbers\":[{vpn},{word}]"),
        Op::Alloc {
            file,
            from,
            len,
            keep: false,
        } => write!(text, ",\"op\":\"alloc\",\"numbers\":[{file},{from},{len}]"),
        Op::Alloc {
            file,
            from,
            len,
            keep: true,
        } => write!(text, ",\"op\":\"allock\",\"numbers\":[{file},{from},{len}]"),
        Op::Punch { file, from, len } => write!(
            text,
            ",\"op\":\"punch\",\"numbers\":[{file},{from},{len}]"
        ),
        Op::Truncate { file, new } => write!(text, ",\"op\":\"trunc\",\"numbers\":[{file},{new}]"),
        Op::Exit => text.push_str(",\"op\":\"exit\",\"numbers\":[]"),
    }
}

/// Appends the event's task.
#[tactic(auto, unfolding(crate::specs::JsonEvents::task_key))]
fn push_task(task: Task, text: &mut String) -> Result<(), AllocError>
    ensures { OnOk result (string_bytes text.new ≡ string_bytes text.old ++ task_key task) }
{
    write!(text, ",\"task\":{task}")
}

/// Appends the event's word.
#[tactic(auto, unfolding(crate::specs::JsonEvents::event_key))]
fn push_event_word(word: &str, text: &mut String) -> Result<(), AllocError>
    ensures { OnOk result (string_bytes text.new ≡ string_bytes text.old ++ event_key word.now) }
{
    write!(text, ",\"event\":\"{word}\"")
}

/// Appends the frames that were asked for.
#[tactic(auto, unfolding(crate::specs::JsonEvents::frames_key))]
fn push_frames(frames: u32, text: &mut String) -> Result<(), AllocError>
    ensures { OnOk result (string_bytes text.new ≡ string_bytes text.old ++ frames_key frames) }
{
    write!(text, ",\"frames\":{frames}")
}

/// Appends the event's task, its word, and what stands behind it in a trace.
pub(crate) fn push_event(event: &Event, text: &mut String) -> Result<(), AllocError>
    ensures { OnOk result (string_bytes text.new ≡ string_bytes text.old ++ event_keys event.now) }
{
    match event {
        Event::Begin(task, op) => {
            push_task(*task, text)?;
            push_event_word("begin", text)?;
            push_op(op, text)
        }
        Event::Step(task, true) => {
            push_task(*task, text)?;
            push_event_word("step", text)
        }
        Event::Step(task, false) => {
            push_task(*task, text)?;
            push_event_word("deny", text)
        }
        Event::Kill(task) => {
            push_task(*task, text)?;
            push_event_word("kill", text)
        }
        Event::Resize(frames) => {
            push_event_word("resize", text)?;
            push_frames(*frames, text)
        }
    }
}

/// Appends the phase in which a call stands now.
#[tactic(auto, unfolding(crate::specs::JsonEvents::phase_key))]
fn push_phase(phase: Phase, text: &mut String) -> Result<(), AllocError>
    ensures { OnOk result (string_bytes text.new ≡ string_bytes text.old ++ phase_key phase) }
{
    write!(text, ",\"phase\":\"{phase}\"")
}

/// Appends what a step did in Linux. It was made from that phase, and led to that core.
#[tactic(auto, unfolding(crate::specs::JsonEvents::linux_key))]
fn push_linux(
    core: &Core,
    column: u32,
    from: Option<Phase>,
    text: &mut String,
) -> Result<(), AllocError>
    requires { column ≤ (config_of core.now).tasks }
    ensures { OnOk result (string_bytes text.new ≡ string_bytes text.old ++ linux_key core.now column from) }
{
    let Some(from) = from else {
        return Ok(());
    };
    let linux = linux_of_step(core, column, from);
    write!(text, ",\"linux\":\"{linux}\"")
}

/// Appends the place whose slot a call holds, or else wants.
fn push_place(
    held: Option<(File, Index)>,
    wanted: Acquired,
    text: &mut String,
) -> Result<(), AllocError>
    ensures { OnOk result (string_bytes text.new ≡ string_bytes text.old ++ place_of held wanted) }
{
    match (held, wanted) {
        (Some((file, index)), _) | (None, Acquired::Slot(file, index)) => {
            write!(text, ",\"file\":{file},\"index\":{index}")
        }
        (None, Acquired::Nothing | Acquired::Lock(_)) => Ok(()),
    }
}

/// Appends the place at which the call of the task in that column works.
#[tactic(auto, unfolding(crate::specs::JsonEvents::place_in))]
fn push_place_in(core: &Core, column: u32, text: &mut String) -> Result<(), AllocError>
    requires { column ≤ (config_of core.now).tasks }
    ensures { OnOk result (string_bytes text.new ≡ string_bytes text.old ++ place_in core.now column) }
{
    if column == 0 {
        return Ok(());
    }
    let task = Task::new(column);
    push_place(core.holding(task).slot, core.acquiring(task), text)
}

/// Appends the answer's word, and its number where it has one.
#[tactic(auto, unfolding(crate::specs::JsonEvents::answer_keys))]
fn push_answer(answer: Answer, text: &mut String) -> Result<(), AllocError>
    ensures { OnOk result (string_bytes text.new ≡ string_bytes text.old ++ answer_keys answer) }
{
    match answer {
        Answer::Mapped(base) => write!(text, ",\"answer\":\"mapped\",\"number\":{base}"),
        Answer::Word(word) => write!(text, ",\"answer\":\"word\",\"number\":{word}"),
        _ => write!(text, ",\"answer\":\"{answer}\""),
    }
}

/// Appends the outcome's word.
#[tactic(auto, unfolding(crate::specs::JsonEvents::outcome_key))]
fn push_outcome_word(word: &str, text: &mut String) -> Result<(), AllocError>
    ensures { OnOk result (string_bytes text.new ≡ string_bytes text.old ++ outcome_key word.now) }
{
    write!(text, ",\"outcome\":\"{word}\"")
}

/// Appends by whom a step was blocked.
#[tactic(auto, unfolding(crate::specs::JsonEvents::by_key))]
fn push_by(holder: Task, text: &mut String) -> Result<(), AllocError>
    ensures { OnOk result (string_bytes text.new ≡ string_bytes text.old ++ by_key holder) }
{
    write!(text, ",\"by\":{holder}")
}

/// Appends how many frames the pool has.
#[tactic(auto, unfolding(crate::specs::JsonEvents::number_key))]
fn push_number(frames: u32, text: &mut String) -> Result<(), AllocError>
    ensures { OnOk result (string_bytes text.new ≡ string_bytes text.old ++ number_key frames) }
{
    write!(text, ",\"number\":{frames}")
}

/// Appends why an event was refused.
#[tactic(auto, unfolding(crate::specs::JsonEvents::reason_key))]
fn push_reason(refusal: Refusal, text: &mut String) -> Result<(), AllocError>
    ensures { OnOk result (string_bytes text.new ≡ string_bytes text.old ++ reason_key refusal) }
{
    write!(text, ",\"reason\":\"{refusal}\"")
}

/// Appends what came of an event. `core` is the one that it led to, and `from` is where its task's call stood before it.
pub(crate) fn push_outcome(
    core: &Core,
    event: &Event,
    from: Option<Phase>,
    outcome: Outcome,
    text: &mut String,
) -> Result<(), AllocError>
    ensures { OnOk result (string_bytes text.new ≡ string_bytes text.old ++ outcome_keys core.now event.now from outcome) }
{
    match outcome {
        Outcome::Begun => push_outcome_word("begun", text),
        Outcome::Moved(phase) => {
            let config = core.config();
            let column = column_of(config.tasks, event);
            push_outcome_word("moved", text)?;
            push_phase(phase, text)?;
            push_linux(core, column, from, text)?;
            push_place_in(core, column, text)
        }
        Outcome::Blocked(holder) => {
            push_outcome_word("blocked", text)?;
            push_by(holder, text)
        }
        Outcome::Ended(answer) => {
            push_outcome_word("ended", text)?;
            push_answer(answer, text)
        }
        Outcome::Marked => push_outcome_word("marked", text),
        Outcome::Resized(frames) => {
            push_outcome_word("resized", text)?;
            push_number(frames, text)
        }
        Outcome::Refused(refusal) => {
            push_outcome_word("refused", text)?;
            push_reason(refusal, text)
        }
    }
}
