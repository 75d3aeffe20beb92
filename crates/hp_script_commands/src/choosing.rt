//! `hugepool schedule --every`: a shortest schedule that ends in one way, as a trace.
ghost use Rattle.std.specs.Io.KnownBytes.{Keeps};
ghost use Rattle.std.specs.Option.{option_map};
ghost use Rattle.std.specs.Prelude.{◌≡◌, ◌<◌, ◌≤◌, All, IfErr, IfOk, IfSome, MatchBool, OnOk, length};
ghost use Rattle.hp_base.specs.Text.{sizes};
ghost use Rattle.hp_program.specs.Answers.{NotDone};
ghost use Rattle.hp_script_commands.specs.Choosing.{AnsweredChoice, Chooses, ChoosesPartly, MissesEnding, WritesRow, WritesRowPartly};
ghost use Rattle.hp_text.specs.ScriptLines.{HasLinesFault};
ghost use Rattle.hp_text.specs.Streams.{TellsReads, TellsWrites};
ghost use Rattle.hp_text.specs.Writing.{IsWriteFault};

use crate::progress::Report;
use crate::searching::write_shortest;
use crate::tabling::all_endings;
use hp_base::{Config, Event, Op};
use hp_command::EndingChoice;
use hp_program::{flush_gathered, flushed_answer, gather};
use hp_search::{EndingRow, EndingRows};
use hp_text::{ReplayFault, Sink, Source, Trace};
use std::alloc::Global;
use std::io::Write;
use std::thread::Threads;
use std::time::Clock;

/// Writes the schedule of that row, if there is one, as a trace. Tells whether it did.
fn write_row<W: Sink>(
    alloc: Global,
    config: Config,
    mut rows: Vec<EndingRow>,
    place: u32,
    writer: &mut W,
) -> Result<bool, ReplayFault>
    requires few { All (λ row. length row.events.items < 1000000) rows.items }
    ensures ok { IfOk result (λ done. MatchBool done
        (WritesRow (sizes config) rows.items place (W.contents writer.old) (W.contents writer.new))
        ((length rows.items ≤ place) × Keeps (W.contents writer.old) (W.contents writer.new))) }
    ensures err { IfErr result (λ fault. IsWriteFault fault
        × WritesRowPartly (sizes config) rows.items place (W.contents writer.old) (W.contents writer.new)) }
    ensures writes { TellsWrites result (W.failures writer.old) (W.failures writer.new) }
{
    // The checker of borrows asks for a mention of the types that an event may hold.
    let _none: (Option<Event>, Option<Op>) = (None, None);
    let place = place as usize;
    if rows.len() <= place {
        return Ok(false);
    }
    let EndingRow { events, .. } = rows.swap_remove(place);
    write_shortest(alloc, &Trace { config, events }, writer)
}

/// Reads a script, and writes a shortest schedule of it that ends in one way. Tells whether there is one; if the limits ran out before,
/// `cut` tells of how many turns the schedules are that were not looked at.
fn choose_ending<R: Source, W: Sink>(
    rt: &(impl Clock + Threads + Sync),
    alloc: Global,
    choice: EndingChoice,
    reader: &mut R,
    writer: &mut W,
    cut: &mut Option<u32>,
    errors: &mut impl Report,
) -> Result<bool, ReplayFault>
    ensures ok { IfOk result (λ done. MatchBool done
        (Chooses choice (R.remaining reader.old) (R.remaining reader.new) (W.contents writer.old) (W.contents writer.new))
        (MissesEnding choice cut.new (R.remaining reader.old) (R.remaining reader.new)
        × Keeps (W.contents writer.old) (W.contents writer.new))) }
    ensures err { IfErr result (λ fault. NotDone (ChoosesPartly choice (R.remaining reader.old) (R.remaining reader.new)
        (W.contents writer.old) (W.contents writer.new)) fault
        (W.failures writer.old) (W.failures writer.new) (W.contents writer.old) (W.contents writer.new)) }
    ensures bad { IfErr result (λ fault. IfSome (R.remaining reader.old) (λ bytes. HasLinesFault bytes fault)) }
    ensures reads { TellsReads result (R.failures reader.old) (R.failures reader.new) }
    ensures writes { OnOk result (W.failures writer.new ≡ W.failures writer.old) }
{
    *cut = None;
    let (script, every) = all_endings(rt, alloc, choice.bounds, reader, errors)?;
    match every {
        EndingRows::Whole(rows) => write_row(alloc, script.config, rows, choice.run, writer),
        EndingRows::Cut { turns } => {
            *cut = Some(turns);
            Ok(false)
        }
    }
}

/// Writes a shortest schedule of a script that ends as one line of the table of all endings says. Answers whether there is such a line. If it
/// isn't known since the limits ran out, `cut` tells of how many turns the schedules are that were not looked at. Output is buffered.
pub fn run_schedule_every<R: Source, W: Write + Drop>(
    rt: &(impl Clock + Threads + Sync),
    alloc: Global,
    choice: EndingChoice,
    reader: &mut R,
    out: W,
    cut: &mut Option<u32>,
    errors: &mut impl Report,
) -> (Result<bool, ReplayFault>, Option<W>)
    ensures { AnsweredChoice choice cut.new result.0 (R.remaining reader.old) (R.remaining reader.new) (R.failures reader.old)
        (R.failures reader.new) (W.contents out) (option_map W.contents result.1) }
{
    let Ok(mut sink) = gather(alloc, out) else {
        return (Err(ReplayFault::Memory), None);
    };
    let done = choose_ending(rt, alloc, choice, reader, &mut sink, cut, errors);
    let (flushed, out) = flush_gathered(sink);
    (flushed_answer(done, flushed), Some(out))
}
