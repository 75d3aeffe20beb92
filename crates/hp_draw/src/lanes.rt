//! The lanes of tasks, and the stays in them.
ghost use Rattle.std.specs.Prelude.{◌≡◌, ◌++◌, ◌+◌, ◌/◌, ◌<◌, ◌^◌, OnOk, codes, string_bytes, length};
ghost use Rattle.hp_machine.specs.Text.{phase_word};
ghost use Rattle.hp_draw.specs.Lanes.{call_text, class_of, ended_words, label_of, label_text, lane_at, lane_place, lane_text};
ghost use Rattle.hp_draw.specs.Lanes.{lanes_text, linux_text, name_of, phase_of, phase_text, place_of, stay_text, stood_text, told_text};
ghost use Rattle.hp_draw.specs.Shapes.{texts, words_text};

use crate::following::{Next, OpenStay, Stay};
use crate::layout::{LEFT, Layout};
use crate::shapes::{Place, push_box, push_upright, push_words};
use hp_base::Op;
use hp_core::Phase;
use hp_watch::linux_of_op;
use std::alloc::AllocError;

/// How wide a letter is.
const LETTER: u64 = 6;

/// The class of an operation's colour.
fn class_of(op: Op) -> &'static str
    ensures { result.now ≡ class_of op }
{
    match op {
        Op::Map { .. } => "stay map",
        Op::MapNoReserve { .. } => "stay mapn",
        Op::Unmap { .. } => "stay unmap",
        Op::Load { .. } => "stay load",
        Op::Store { .. } => "stay store",
        Op::Alloc { .. } => "stay alloc",
        Op::Punch { .. } => "stay punch",
        Op::Truncate { .. } => "stay trunc",
        Op::Exit => "stay exit",
    }
}

/// Lays out what stands at the left of a lane.
fn lay_name(column: usize, word: &mut String) -> Result<(), AllocError>
    ensures { OnOk result (string_bytes word.new ≡ name_of column) }
{
    word.clear();
    if column == 0 {
        return word.push_str("pool");
    }
    write!(word, "task {column}")
}

/// The place of a lane that begins there.
#[tactic(auto, unfolding(crate::specs::Lanes::lane_place))]
fn lane_place(layout: &Layout, top: u32) -> Place
    ensures { result ≡ lane_place layout.now top }
{
    Place {
        x: LEFT,
        y: u64::from(top),
        width: layout.width(0, layout.events),
        height: u64::from(layout.tall),
    }
}

/// Appends the name of a column, at a lane that begins there.
fn push_name(
    layout: &Layout,
    column: usize,
    top: u32,
    word: &mut String,
    text: &mut String,
) -> Result<(), AllocError>
    ensures { OnOk result (string_bytes text.new
        ≡ string_bytes text.old ++ words_text (codes "name") 8 (top + layout.now.tall / 2 + 4) (name_of column)) }
{
    let y = u64::from(top) + u64::from(layout.tall) / 2 + 4;
    lay_name(column, word)?;
    push_words("name", 8, y, word.as_str(), text)
}

/// Appends a lane that begins there.
#[tactic(auto, unfolding(crate::specs::Lanes::lane_at))]
fn push_lane_at(
    layout: &Layout,
    column: usize,
    top: u32,
    word: &mut String,
    text: &mut String,
) -> Result<(), AllocError>
    ensures { OnOk result (string_bytes text.new ≡ string_bytes text.old ++ lane_at layout.now column top) }
{
    push_box("lane", lane_place(layout, top), text)?;
    push_name(layout, column, top, word, text)
}

/// Appends the lane of a column, if it has one.
fn push_lane(
    layout: &Layout,
    column: usize,
    top: Option<u32>,
    word: &mut String,
    text: &mut String,
) -> Result<(), AllocError>
    ensures { OnOk result (string_bytes text.new ≡ string_bytes text.old ++ lane_text layout.now column top) }
{
    match top {
        Some(top) => push_lane_at(layout, column, top, word, text),
        None => Ok(()),
    }
}

/// Appends the lane of each column that has one.
pub(crate) fn push_lanes(
    layout: &Layout,
    word: &mut String,
    text: &mut String,
) -> Result<(), AllocError>
    ensures { OnOk result (string_bytes text.new ≡ string_bytes text.old ++ lanes_text layout.now (length layout.now.tops.items)) }
{
    for column in 0..layout.tops.len() {
        push_lane(layout, column, layout.lane(column), word, text)?;
    }
    Ok(())
}

/// Where the box of a stay is.
#[tactic(auto, unfolding(crate::specs::Lanes::place_of))]
fn place_of(layout: &Layout, stay: &Stay) -> Place
    ensures { result ≡ place_of layout.now stay.now }
{
    Place {
        x: layout.x(stay.open_stay.since),
        y: layout.top(stay.column),
        width: layout.width(stay.open_stay.since, stay.until),
        height: u64::from(layout.tall),
    }
}

/// Appends how the call ended behind a stay, if it did.
fn push_ended(next: Next, until: u32, text: &mut String) -> Result<(), AllocError>
    ensures { OnOk result (string_bytes text.new ≡ string_bytes text.old ++ ended_words next until) }
{
    let line = u64::from(until) + 2;
    match next {
        Next::Ended(answer) => write!(text, ", ended in line {line}: {answer}"),
        Next::GoesOn | Next::InFlight => Ok(()),
    }
}

/// Appends which call stands where.
#[tactic(auto, unfolding(crate::specs::Lanes::stood_text))]
fn push_stood(column: usize, open_stay: &OpenStay, text: &mut String) -> Result<(), AllocError>
    ensures { OnOk result (string_bytes text.new ≡ string_bytes text.old ++ stood_text column open_stay.now) }
{
    let OpenStay {
        op,
        begun: _,
        since,
        phase,
    } = *open_stay;
    let line = u64::from(since) + 2;
    write!(
        text,
        "<g><title>line {line}: {op} of task {column} at {phase}"
    )
}

/// Appends what does in Linux what the next step of such a call does.
fn push_linux(op: &Op, phase: Phase, text: &mut String) -> Result<(), AllocError>
    ensures { OnOk result (string_bytes text.new ≡ string_bytes text.old ++ linux_text op.now phase) }
{
    let name = linux_of_op(op, phase);
    write!(text, " (Linux: {name})")
}

/// Appends what is told of a stay where the pointer rests on it.
#[tactic(auto, unfolding(crate::specs::Lanes::told_text))]
fn push_told(stay: &Stay, text: &mut String) -> Result<(), AllocError>
    ensures { OnOk result (string_bytes text.new ≡ string_bytes text.old ++ told_text stay.now) }
{
    push_stood(stay.column, &stay.open_stay, text)?;
    push_linux(&stay.open_stay.op, stay.open_stay.phase, text)?;
    push_ended(stay.next, stay.until, text)?;
    text.push_str("</title>")
}

/// Appends the phase's name: along the box, upright in it, or not at all, as there is room.
#[tactic(auto, unfolding(crate::specs::Lanes::phase_text, crate::specs::Lanes::place_of))]
fn push_phase(
    layout: &Layout,
    stay: &Stay,
    phase: &str,
    text: &mut String,
) -> Result<(), AllocError>
    ensures { OnOk result (string_bytes text.new ≡ string_bytes text.old ++ phase_text (place_of layout.now stay.now) phase.now) }
{
    let width = layout.width(stay.open_stay.since, stay.until);
    let x = layout.x(stay.open_stay.since) + width / 2;
    let y = layout.top(stay.column) + u64::from(layout.tall) / 2;
    if width >= 58 {
        return push_words("in", x, y + 3, phase, text);
    }
    if width >= 12 {
        return push_upright("in", x + 3, y, phase, text);
    }
    Ok(())
}

/// Lays out the name of a phase.
fn lay_phase(phase: Phase, word: &mut String) -> Result<(), AllocError>
    ensures { OnOk result (string_bytes word.new ≡ phase_word phase) }
{
    word.clear();
    write!(word, "{phase}")
}

/// Appends a stay: its box, coloured by operation, and what is told of it.
fn push_stay(layout: &Layout, stay: &Stay, text: &mut String) -> Result<(), AllocError>
    ensures { OnOk result (string_bytes text.new ≡ string_bytes text.old ++ stay_text layout.now stay.now) }
{
    push_told(stay, text)?;
    push_box(class_of(stay.open_stay.op), place_of(layout, stay), text)?;
    text.push_str("</g>\n")
}

/// Appends the boxes of all stays.
pub(crate) fn push_stays(
    layout: &Layout,
    stays: &[Stay],
    text: &mut String,
) -> Result<(), AllocError>
    ensures { OnOk result (string_bytes text.new ≡ string_bytes text.old ++ texts (stay_text layout.now) stays.now) }
{
    for stay in stays {
        push_stay(layout, stay, text)?;
    }
    Ok(())
}

/// Appends the name of the phase of a stay. `word` is where it is laid out.
fn push_phase_of(
    layout: &Layout,
    stay: &Stay,
    word: &mut String,
    text: &mut String,
) -> Result<(), AllocError>
    ensures { OnOk result (string_bytes text.new ≡ string_bytes text.old ++ phase_of layout.now stay.now) }
{
    lay_phase(stay.open_stay.phase, word)?;
    push_phase(layout, stay, word.as_str(), text)
}

/// Appends the names of the phases of all stays.
pub(crate) fn push_phases(
    layout: &Layout,
    stays: &[Stay],
    word: &mut String,
    text: &mut String,
) -> Result<(), AllocError>
    ensures { OnOk result (string_bytes text.new ≡ string_bytes text.old ++ texts (phase_of layout.now) stays.now) }
{
    for stay in stays {
        push_phase_of(layout, stay, word, text)?;
    }
    Ok(())
}

/// Lays out the words over a call: with its answer where they have room, else without.
fn lay_label(op: Op, next: Next, room: u64, word: &mut String) -> Result<(), AllocError>
    ensures { OnOk result (string_bytes word.new ≡ label_of op next room) }
{
    word.clear();
    match next {
        Next::GoesOn => Ok(()),
        Next::InFlight => write!(word, "{op}"),
        Next::Ended(answer) => {
            write!(word, "{op}: {answer}")?;
            if word.len() as u64 <= room {
                return Ok(());
            }
            word.clear();
            write!(word, "{op}")
        }
    }
}

/// Appends the words over a call that stand there, where there is room.
fn push_over(x: u64, y: u64, room: u64, words: &str, text: &mut String) -> Result<(), AllocError>
    ensures { OnOk result (string_bytes text.new ≡ string_bytes text.old ++ label_text x y room words.now) }
{
    if words.len() as u64 > room {
        return Ok(());
    }
    push_words("call", x, y, words, text)
}

/// Appends the words over a call, at its last stay, where there is room.
fn push_call(
    layout: &Layout,
    stay: &Stay,
    word: &mut String,
    text: &mut String,
) -> Result<(), AllocError>
    ensures { OnOk result (string_bytes text.new ≡ string_bytes text.old ++ call_text layout.now stay.now) }
{
    let room = layout.width(stay.open_stay.begun, stay.until) / LETTER;
    let x = layout.x(stay.open_stay.begun) + 1;
    let y = layout.top(stay.column).saturating_sub(4);
    match stay.next {
        Next::GoesOn => Ok(()),
        Next::Ended(_) | Next::InFlight => {
            lay_label(stay.open_stay.op, stay.next, room, word)?;
            push_over(x, y, room, word.as_str(), text)
        }
    }
}

/// Appends the words over all calls.
pub(crate) fn push_calls(
    layout: &Layout,
    stays: &[Stay],
    word: &mut String,
    text: &mut String,
) -> Result<(), AllocError>
    ensures { OnOk result (string_bytes text.new ≡ string_bytes text.old ++ texts (call_text layout.now) stays.now) }
{
    for stay in stays {
        push_call(layout, stay, word, text)?;
    }
    Ok(())
}
