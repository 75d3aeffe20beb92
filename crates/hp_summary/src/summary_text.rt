//! A summary as text: a line for each fact, whose first word says which kind of fact it is.
ghost use Rattle.std.specs.Prelude.{◌≡◌, ◌+◌, ◌<◌, ◌++◌, ◌^◌, ◌%◌, OnOk, IfErr, IfOk, length, string_bytes};
ghost use Rattle.std.specs.Io.KnownBytes.{Appends};
ghost use Rattle.std.specs.List.{flat_map};
ghost use Rattle.hp_summary.specs.SummaryText.{any_line, call_text, ending_line, held_line, held_text, met_line, met_text, other_line};
ghost use Rattle.hp_summary.specs.SummaryText.{runs_line, summary_text, turns_line};
ghost use Rattle.hp_phases.specs.Phases.{all_phases};
ghost use Rattle.hp_text.specs.Streams.{TellsWrites};
ghost use Rattle.hp_text.specs.Writing.{IsWriteFault, Wrote};

use crate::phases::pair_place;
use crate::summary::Summary;
use crate::tally::Ending;
use hp_base::Answer;
use hp_core::Phase;
use hp_phases::{PHASES, phase_at, place_of};
use hp_text::{ReplayFault, Sink, write_text};
use hp_watch::EndedCall;
use std::alloc::{AllocError, Global};

/// Lays out how runs ended.
fn push_runs(summary: &Summary, text: &mut String) -> Result<(), AllocError>
    ensures { OnOk result (string_bytes text.new ≡ string_bytes text.old ++ runs_line summary.now) }
{
    let runs = summary.runs;
    let finished = summary.finished;
    let limit = runs.saturating_sub(finished);
    writeln!(text, "runs {runs} finished {finished} limit {limit}")
}

/// Lays out how many turns they made.
fn push_turns(summary: &Summary, text: &mut String) -> Result<(), AllocError>
    ensures { OnOk result (string_bytes text.new ≡ string_bytes text.old ++ turns_line summary.now) }
{
    let least = summary.least;
    let median = summary.median;
    let most = summary.most;
    writeln!(text, "turns least {least} median {median} most {most}")
}

/// Lays out in how many some task was held up.
fn push_any(summary: &Summary, text: &mut String) -> Result<(), AllocError>
    ensures { OnOk result (string_bytes text.new ≡ string_bytes text.old ++ any_line summary.now) }
{
    let runs = summary.some_held;
    writeln!(text, "held-up any {runs}")
}

/// Lays out in how many runs the task at this place was held up.
fn push_held_line(held: &[u32], place: usize, text: &mut String) -> Result<(), AllocError>
    requires { place < length held.now }
    ensures { OnOk result (string_bytes text.new ≡ string_bytes text.old ++ held_line held.now place) }
{
    let task = place + 1;
    let runs = held[place];
    writeln!(text, "held-up {task} {runs}")
}

/// Lays out in how many runs each task was held up.
fn push_held(held: &[u32], text: &mut String) -> Result<(), AllocError>
    ensures { OnOk result (string_bytes text.new ≡ string_bytes text.old ++ held_text held.now) }
{
    for place in 0..held.len() {
        push_held_line(held, place, text)?;
    }
    Ok(())
}

/// Lays out in how many runs the two phases met, where they did.
fn push_pair(met: &[u32], one: Phase, other: Phase, text: &mut String) -> Result<(), AllocError>
    requires { length met.now ≡ 729 }
    ensures { OnOk result (string_bytes text.new ≡ string_bytes text.old ++ met_line met.now one other) }
{
    let runs = met[pair_place(one, other)];
    if place_of(one) <= place_of(other) && 0 < runs {
        return writeln!(text, "met {one} {other} {runs}");
    }
    Ok(())
}

/// Lays out in how many runs the phase met each.
fn push_pairs(met: &[u32], one: Phase, text: &mut String) -> Result<(), AllocError>
    requires { length met.now ≡ 729 }
    ensures { OnOk result (string_bytes text.new ≡ string_bytes text.old ++ flat_map (met_line met.now one) all_phases) }
{
    for place in 0..PHASES {
        push_pair(met, one, phase_at(place), text)?;
    }
    Ok(())
}

/// Lays out in how many runs which phases met.
fn push_met(met: &[u32], text: &mut String) -> Result<(), AllocError>
    requires { length met.now ≡ 729 }
    ensures { OnOk result (string_bytes text.new ≡ string_bytes text.old ++ met_text met.now) }
{
    for place in 0..PHASES {
        push_pairs(met, phase_at(place), text)?;
    }
    Ok(())
}

/// Lays out a call that ended.
fn push_call(call: EndedCall, text: &mut String) -> Result<(), AllocError>
    ensures { OnOk result (string_bytes text.new ≡ string_bytes text.old ++ call_text call) }
{
    let EndedCall { task, call, answer } = call;
    write!(text, " | {task} {call} {answer}")
}

/// Lays out calls that ended: ` | T CALL ANSWER` for each.
pub fn push_calls(ended: &[EndedCall], text: &mut String) -> Result<(), AllocError>
    ensures { OnOk result (string_bytes text.new ≡ string_bytes text.old ++ flat_map call_text ended.now) }
{
    for call in ended {
        push_call(*call, text)?;
    }
    Ok(())
}

/// Lays out a way in which runs ended.
fn push_ending(seed: u64, ending: &Ending, text: &mut String) -> Result<(), AllocError>
    ensures { OnOk result (string_bytes text.new ≡ string_bytes text.old ++ ending_line seed ending.now) }
{
    // The checker of borrows asks for a mention of the type that an ending may hold.
    let _none: Option<Answer> = None;
    let runs = ending.runs;
    let first = ending.first;
    let seed = seed.wrapping_add(u64::from(first));
    write!(text, "ending {runs} run {first} seed {seed}")?;
    push_calls(ending.ended.as_slice(), text)?;
    text.push('\n')
}

/// Lays out the ways in which runs ended.
fn push_endings(seed: u64, endings: &[Ending], text: &mut String) -> Result<(), AllocError>
    ensures { OnOk result (string_bytes text.new ≡ string_bytes text.old ++ flat_map (ending_line seed) endings.now) }
{
    for ending in endings {
        push_ending(seed, ending, text)?;
    }
    Ok(())
}

/// Lays out how many runs ended in other ways, where any did.
fn push_other(other: u32, text: &mut String) -> Result<(), AllocError>
    ensures { OnOk result (string_bytes text.new ≡ string_bytes text.old ++ other_line other) }
{
    if 0 < other {
        return writeln!(text, "ending {other} other");
    }
    Ok(())
}

/// Lays out a summary of runs that are seeded from `seed` on.
fn lay_out(alloc: Global, seed: u64, summary: &Summary) -> Result<String, AllocError>
    requires { length summary.now.met.items ≡ 729 }
    ensures { IfOk result (λ text. string_bytes text ≡ summary_text seed summary.now) }
{
    let mut text = String::new(alloc);
    push_runs(summary, &mut text)?;
    push_turns(summary, &mut text)?;
    push_any(summary, &mut text)?;
    push_held(summary.held.as_slice(), &mut text)?;
    push_met(summary.met.as_slice(), &mut text)?;
    push_endings(seed, summary.endings.as_slice(), &mut text)?;
    push_other(summary.other, &mut text)?;
    Ok(text)
}

/// Writes the summary of runs that are seeded from `seed` on, all at once. Nothing is tried again after an error.
pub fn write_summary<W: Sink>(
    alloc: Global,
    seed: u64,
    summary: &Summary,
    writer: &mut W,
) -> Result<(), ReplayFault>
    requires { length summary.now.met.items ≡ 729 }
    ensures ok { OnOk result (Appends (W.contents writer.old) (W.contents writer.new) (summary_text seed summary.now)) }
    ensures err { IfErr result (λ fault. IsWriteFault fault
        × Wrote (W.contents writer.old) (W.contents writer.new) (summary_text seed summary.now)) }
    ensures writes { TellsWrites result (W.failures writer.old) (W.failures writer.new) }
{
    let text = lay_out(alloc, seed, summary)?;
    write_text(writer, text.as_bytes())
}
