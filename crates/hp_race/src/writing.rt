//! Writes a line for each race.
ghost use Rattle.std.specs.Prelude.{◌≡◌, [], OnOk, IfErr, IfOk, string_bytes};
ghost use Rattle.std.specs.Int.NonZero.{non_zero_u32_get};
ghost use Rattle.std.specs.Io.KnownBytes.{Appends};
ghost use Rattle.std.specs.Option.{option_map};
ghost use Rattle.hp_race.specs.Calls.{is_mortal};
ghost use Rattle.hp_race.specs.Parts.{IsToldBy};
ghost use Rattle.hp_race.specs.Text.{run_line};
ghost use Rattle.hp_race.specs.Writing.{WroteRaces, WroteSomeRaces, WroteSomeTrace, WroteTrace, is_closed};
ghost use Rattle.hp_text.specs.Streams.{TellsWrites};
ghost use Rattle.hp_text.specs.Writing.{IsWriteFault, Wrote};

use crate::chances::Chances;
use crate::line::{Race, Verdict};
use crate::parts::race_in_parts;
use crate::racing::{race, race_trace};
use hp_text::{ReplayFault, Script, Sink, write_text, write_trace};
use std::alloc::{AllocError, Global};
use std::num::NonZeroU32;
use std::sync::Wait;
use std::thread::Threads;

/// Writes the line of a race.
fn write_race<W: Sink>(
    alloc: Global,
    run: u32,
    race: Race,
    writer: &mut W,
) -> Result<(), ReplayFault>
    ensures ok { OnOk result (Appends (W.contents writer.old) (W.contents writer.new) (run_line run race)) }
    ensures err { IfErr result (λ fault. IsWriteFault fault
        × Wrote (W.contents writer.old) (W.contents writer.new) (run_line run race)) }
    ensures writes { TellsWrites result (W.failures writer.old) (W.failures writer.new) }
{
    let mut text = String::new(alloc);
    writeln!(text, "run {run} {race}")?;
    write_text(writer, text.as_bytes())
}

fn is_closed(race: &Race) -> bool
    ensures { result ≡ is_closed race.now }
{
    race.verdict == Verdict::Closed
}

// One race. Where a number is given, its journal is cut behind so many calls of each task.
fn race_once<R: Threads + Wait + Sync>(
    rt: &R,
    alloc: Global,
    script: &Script,
    chances: Chances,
    cut: Option<NonZeroU32>,
) -> Result<Race, AllocError>
    ensures { IfOk result (λ race. IsToldBy (is_mortal chances) script.now (option_map non_zero_u32_get cut) race) }
{
    match cut {
        None => race(rt, alloc, script, chances),
        Some(most) => race_in_parts(rt, alloc, script, chances, most),
    }
}

/// Races the script's calls so many times, and writes each race's line before the next begins. Where `cut` is a number, the
/// journal is cut behind so many calls of each task. Tells whether all were closed. Nothing is tried again after an error.
pub fn write_races<R: Threads + Wait + Sync, W: Sink>(
    rt: &R,
    alloc: Global,
    script: &Script,
    chances: Chances,
    cut: Option<NonZeroU32>,
    times: u32,
    writer: &mut W,
) -> Result<bool, ReplayFault>
    ensures ok { IfOk result (λ closed. WroteRaces (is_mortal chances) script.now (option_map non_zero_u32_get cut) times closed
        (W.contents writer.old) (W.contents writer.new)) }
    ensures err { IfErr result (λ fault. IsWriteFault fault
        × WroteSomeRaces (is_mortal chances) script.now (option_map non_zero_u32_get cut) times
        (W.contents writer.old) (W.contents writer.new)) }
    ensures writes { TellsWrites result (W.failures writer.old) (W.failures writer.new) }
{
    let mut closed = true;
    for run in 0..times {
        let ended = race_once(rt, alloc, script, chances.of_race(run), cut)?;
        write_race(alloc, run, ended, writer)?;
        closed &= is_closed(&ended);
    }
    Ok(closed)
}

/// Races the script's calls once, and writes what happened to the pool as a trace. Tells whether the race was closed: where it
/// wasn't, nothing is written. Nothing is tried again after an error.
pub fn write_race_trace<R: Threads + Wait + Sync, W: Sink>(
    rt: &R,
    alloc: Global,
    script: &Script,
    chances: Chances,
    writer: &mut W,
) -> Result<bool, ReplayFault>
    ensures ok { IfOk result (λ closed. WroteTrace (is_mortal chances) script.now closed (W.contents writer.old) (W.contents writer.new)) }
    ensures err { IfErr result (λ fault. IsWriteFault fault
        × WroteSomeTrace (is_mortal chances) script.now (W.contents writer.old) (W.contents writer.new)) }
    ensures writes { TellsWrites result (W.failures writer.old) (W.failures writer.new) }
{
    let Some(trace) = race_trace(rt, alloc, script, chances)? else {
        return Ok(false);
    };
    write_trace(alloc, &trace, writer)?;
    Ok(true)
}
