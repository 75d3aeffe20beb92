//! `hugepool explore --every`: all ways in which the schedules of a script end.
ghost use Rattle.std.specs.Io.KnownBytes.{Appends, Keeps};
ghost use Rattle.std.specs.List.{flat_map};
ghost use Rattle.std.specs.Option.{option_map};
ghost use Rattle.std.specs.Prelude.{◌≡◌, ◌++◌, true, IfErr, IfOk, IfSome, MatchBool, OnOk, codes, string_bytes};
ghost use Rattle.hp_base.specs.Text.{sizes};
ghost use Rattle.hp_program.specs.Answers.{NotDone};
ghost use Rattle.hp_script_commands.specs.Tabling.{AnsweredTable, IsCutShort, Tabulates, TabulatesPartly};
ghost use Rattle.hp_script_commands.specs.Tabling.{limits_of, row_line, schedules_of, schedules_text, table_text};
ghost use Rattle.hp_search.specs.Endings.{AreAllEndings, AreWithin};
ghost use Rattle.hp_text.specs.ScriptLines.{HasLinesFault, ReadsScript};
ghost use Rattle.hp_text.specs.Streams.{TellsReads, TellsWrites};
ghost use Rattle.hp_text.specs.Writing.{IsWriteFault, Wrote};

use crate::progress::{ProgressLine, Report};
use crate::scheduling::tell_ignored;
use crate::searching::MOST_TURNS;
use hp_base::{Answer, Event, Op};
use hp_command::EveryBounds;
use hp_layers::Limits;
use hp_program::{flush_gathered, flushed_answer, gather};
use hp_search::{Budget, EndingRow, EndingRows, explore_every};
use hp_summary::push_calls;
use hp_text::{ReplayFault, Script, Sink, Source, read_any_script, write_text};
use std::alloc::{AllocError, Global};
use std::io::Write;
use std::thread::Threads;
use std::time::Clock;

/// Lays out how many schedules end so.
fn push_schedules(schedules: u128, text: &mut String) -> Result<(), AllocError>
    ensures { OnOk result (string_bytes text.new ≡ string_bytes text.old ++ schedules_text schedules) }
{
    if schedules == u128::MAX {
        return write!(text, ">={schedules}");
    }
    write!(text, "{schedules}")
}

/// Lays out a way in which schedules end.
fn push_row(row: &EndingRow, text: &mut String) -> Result<(), AllocError>
    ensures { OnOk result (string_bytes text.new ≡ string_bytes text.old ++ row_line row.now) }
{
    // The checker of borrows asks for a mention of the types that a row may hold.
    let _none: (Option<Answer>, Option<Event>, Option<Op>) = (None, None, None);
    let turns = row.events.len();
    let free = row.free;
    let resv = row.resv;
    let used = row.used;
    text.push_str("ending ")?;
    push_schedules(row.schedules, text)?;
    write!(text, " turns {turns} free {free} resv {resv} used {used}")?;
    push_calls(row.ended.as_slice(), text)?;
    text.push('\n')
}

/// Lays out all ways in which schedules end.
fn push_rows(rows: &[EndingRow], text: &mut String) -> Result<(), AllocError>
    ensures { OnOk result (string_bytes text.new ≡ string_bytes text.old ++ flat_map row_line rows.now) }
{
    for row in rows {
        push_row(row, text)?;
    }
    Ok(())
}

/// Lays out the table of them.
fn lay_out(alloc: Global, rows: &[EndingRow]) -> Result<String, AllocError>
    ensures { IfOk result (λ text. string_bytes text ≡ table_text rows.now) }
{
    let mut text = String::new(alloc);
    let endings = rows.len();
    writeln!(text, "endings {endings}")?;
    push_rows(rows, &mut text)?;
    Ok(text)
}

/// Writes the table of them, all at once.
fn write_table<W: Sink>(
    alloc: Global,
    rows: &[EndingRow],
    writer: &mut W,
) -> Result<bool, ReplayFault>
    ensures ok { OnOk result (Appends (W.contents writer.old) (W.contents writer.new) (table_text rows.now)) }
    ensures done { IfOk result (λ done. done ≡ true) }
    ensures err { IfErr result (λ fault. IsWriteFault fault × Wrote (W.contents writer.old) (W.contents writer.new) (table_text rows.now)) }
    ensures writes { TellsWrites result (W.failures writer.old) (W.failures writer.new) }
{
    let text = lay_out(alloc, rows)?;
    write_text(writer, text.as_bytes())?;
    Ok(true)
}

/// Reads a script, and explores all its schedules.
pub(crate) fn all_endings<R: Source>(
    rt: &(impl Clock + Threads + Sync),
    alloc: Global,
    bounds: EveryBounds,
    reader: &mut R,
    errors: &mut impl Report,
) -> Result<(Script, EndingRows), ReplayFault>
    ensures script { IfOk result (λ r. ReadsScript (R.remaining reader.old) (R.remaining reader.new) (sizes r.0.config) r.0.calls.items
        r.0.waits.items) }
    ensures endings { IfOk result (λ r. AreAllEndings (schedules_of bounds r.0) r.1) }
    ensures within { IfOk result (λ r. AreWithin (schedules_of bounds r.0) (limits_of bounds) r.1) }
    ensures bad { IfErr result (λ fault. IfSome (R.remaining reader.old) (λ bytes. HasLinesFault bytes fault)) }
    ensures reads { TellsReads result (R.failures reader.old) (R.failures reader.new) }
{
    let script = read_any_script(alloc, reader)?;
    tell_ignored(&script, errors);
    let budget = Budget {
        denials: bounds.denials,
        kills: bounds.kills,
    };
    let limits = Limits {
        turns: MOST_TURNS,
        states: bounds.states as usize,
        bytes: bounds.memory,
    };
    let mut progress = ProgressLine::new(rt, errors);
    let every = explore_every(rt, alloc, &script, budget, limits, &mut progress);
    progress.end();
    Ok((script, every?))
}

/// Reads a script, and writes the table of all endings of its schedules. Tells whether it did; if the limits ran out before, `cut` tells
/// of how many turns the schedules are that were not looked at.
fn tabulate_script<R: Source, W: Sink>(
    rt: &(impl Clock + Threads + Sync),
    alloc: Global,
    bounds: EveryBounds,
    reader: &mut R,
    writer: &mut W,
    cut: &mut Option<u32>,
    errors: &mut impl Report,
) -> Result<bool, ReplayFault>
    ensures ok { IfOk result (λ done. MatchBool done
        (Tabulates bounds (R.remaining reader.old) (R.remaining reader.new) (W.contents writer.old) (W.contents writer.new))
        (IsCutShort bounds cut.new (R.remaining reader.old) (R.remaining reader.new) × Keeps (W.contents writer.old) (W.contents writer.new))) }
    ensures err { IfErr result (λ fault. NotDone (TabulatesPartly bounds (R.remaining reader.old) (R.remaining reader.new)
        (W.contents writer.old) (W.contents writer.new)) fault
        (W.failures writer.old) (W.failures writer.new) (W.contents writer.old) (W.contents writer.new)) }
    ensures bad { IfErr result (λ fault. IfSome (R.remaining reader.old) (λ bytes. HasLinesFault bytes fault)) }
    ensures reads { TellsReads result (R.failures reader.old) (R.failures reader.new) }
    ensures writes { OnOk result (W.failures writer.new ≡ W.failures writer.old) }
{
    *cut = None;
    let (_script, every) = all_endings(rt, alloc, bounds, reader, errors)?;
    match every {
        EndingRows::Whole(rows) => write_table(alloc, rows.as_slice(), writer),
        EndingRows::Cut { turns } => {
            *cut = Some(turns);
            Ok(false)
        }
    }
}

/// Tabulates all endings of a script's schedules. Answers whether the table was written. If it wasn't since the limits ran out, `cut` tells
/// of how many turns the schedules are that were not looked at. Output is buffered.
pub fn run_explore_every<R: Source, W: Write + Drop>(
    rt: &(impl Clock + Threads + Sync),
    alloc: Global,
    bounds: EveryBounds,
    reader: &mut R,
    out: W,
    cut: &mut Option<u32>,
    errors: &mut impl Report,
) -> (Result<bool, ReplayFault>, Option<W>)
    ensures { AnsweredTable bounds cut.new result.0 (R.remaining reader.old) (R.remaining reader.new) (R.failures reader.old)
        (R.failures reader.new) (W.contents out) (option_map W.contents result.1) }
{
    let Ok(mut sink) = gather(alloc, out) else {
        return (Err(ReplayFault::Memory), None);
    };
    let done = tabulate_script(rt, alloc, bounds, reader, &mut sink, cut, errors);
    let (flushed, out) = flush_gathered(sink);
    (flushed_answer(done, flushed), Some(out))
}
