//! `hugepool find --every`: the shortest schedule of a script that meets conditions, as a trace, or that none does.
ghost use Rattle.std.specs.Io.KnownBytes.{Appends, Keeps};
ghost use Rattle.std.specs.Option.{option_map};
ghost use Rattle.std.specs.Prelude.{◌≡◌, ◌≤◌, true, IfErr, IfOk, IfSome, MatchBool, OnOk, length};
ghost use Rattle.hp_base.specs.Text.{sizes};
ghost use Rattle.hp_program.specs.Answers.{NotDone};
ghost use Rattle.hp_script_commands.specs.Searching.{AnsweredEvery, FindsEvery, FindsEveryPartly, MissesEvery};
ghost use Rattle.hp_text.specs.ScriptLines.{HasLinesFault};
ghost use Rattle.hp_text.specs.Streams.{TellsReads, TellsWrites};
ghost use Rattle.hp_text.specs.Traces.{trace_text};
ghost use Rattle.hp_text.specs.Writing.{IsWriteFault, Wrote};

use crate::progress::{ProgressLine, Report};
use crate::scheduling::tell_ignored;
use hp_command::EverySearch;
use hp_layers::Limits;
use hp_program::{flush_gathered, flushed_answer, gather};
use hp_search::{Budget, Reachability, find_every};
use hp_text::{ReplayFault, Sink, Source, Trace, read_any_script, write_trace};
use std::alloc::Global;
use std::io::Write;
use std::thread::Threads;
use std::time::Clock;

/// No schedule has as many turns: an explored run is ended there, too.
pub(crate) const MOST_TURNS: u32 = 1_000_000;

/// Writes the trace of a schedule that was found.
pub(crate) fn write_shortest<W: Sink>(
    alloc: Global,
    trace: &Trace,
    writer: &mut W,
) -> Result<bool, ReplayFault>
    requires { length trace.now.events.items ≤ 1000000 }
    ensures ok { OnOk result (Appends (W.contents writer.old) (W.contents writer.new)
        (trace_text (sizes trace.now.config) trace.now.events.items)) }
    ensures met { IfOk result (λ met. met ≡ true) }
    ensures err { IfErr result (λ fault. IsWriteFault fault × Wrote (W.contents writer.old) (W.contents writer.new)
        (trace_text (sizes trace.now.config) trace.now.events.items)) }
    ensures writes { TellsWrites result (W.failures writer.old) (W.failures writer.new) }
{
    write_trace(alloc, trace, writer)?;
    Ok(true)
}

/// Reads a script, and writes the shortest schedule of it that meets the conditions. Tells whether one does. Where the limits ran out
/// before, `cut` tells of how many turns none does.
fn find_in_all<R: Source, W: Sink>(
    rt: &(impl Clock + Threads + Sync),
    alloc: Global,
    search: &EverySearch,
    reader: &mut R,
    writer: &mut W,
    cut: &mut Option<u32>,
    errors: &mut impl Report,
) -> Result<bool, ReplayFault>
    ensures ok { IfOk result (λ met. MatchBool met
        (FindsEvery search.now (R.remaining reader.old) (R.remaining reader.new) (W.contents writer.old) (W.contents writer.new))
        (MissesEvery search.now cut.new (R.remaining reader.old) (R.remaining reader.new)
        × Keeps (W.contents writer.old) (W.contents writer.new))) }
    ensures err { IfErr result (λ fault. NotDone (FindsEveryPartly search.now (R.remaining reader.old) (R.remaining reader.new)
        (W.contents writer.old) (W.contents writer.new)) fault
        (W.failures writer.old) (W.failures writer.new) (W.contents writer.old) (W.contents writer.new)) }
    ensures bad { IfErr result (λ fault. IfSome (R.remaining reader.old) (λ bytes. HasLinesFault bytes fault)) }
    ensures reads { TellsReads result (R.failures reader.old) (R.failures reader.new) }
    ensures writes { OnOk result (W.failures writer.new ≡ W.failures writer.old) }
{
    *cut = None;
    let script = read_any_script(alloc, reader)?;
    tell_ignored(&script, errors);
    let budget = Budget {
        denials: search.denials,
        kills: search.kills,
    };
    let limits = Limits {
        turns: MOST_TURNS,
        states: search.states as usize,
        bytes: search.memory,
    };
    let conditions = search.conditions.as_slice();
    let mut progress = ProgressLine::new(rt, errors);
    let every = find_every(
        rt,
        alloc,
        &script,
        budget,
        conditions,
        limits,
        &mut progress,
    );
    progress.end();
    match every? {
        Reachability::Met(trace) => write_shortest(alloc, &trace, writer),
        Reachability::Never => Ok(false),
        Reachability::Cut { turns } => {
            *cut = Some(turns);
            Ok(false)
        }
    }
}

/// Searches all schedules of a script. Answers whether one meets the conditions. If none was found since the limits ran out, `cut` tells
/// of how many turns none does. Output is buffered.
pub fn run_find_every<R: Source, W: Write + Drop>(
    rt: &(impl Clock + Threads + Sync),
    alloc: Global,
    search: &EverySearch,
    reader: &mut R,
    out: W,
    cut: &mut Option<u32>,
    errors: &mut impl Report,
) -> (Result<bool, ReplayFault>, Option<W>)
    ensures { AnsweredEvery search.now cut.new result.0 (R.remaining reader.old) (R.remaining reader.new) (R.failures reader.old)
        (R.failures reader.new) (W.contents out) (option_map W.contents result.1) }
{
    let Ok(mut sink) = gather(alloc, out) else {
        return (Err(ReplayFault::Memory), None);
    };
    let met = find_in_all(rt, alloc, search, reader, &mut sink, cut, errors);
    let (flushed, out) = flush_gathered(sink);
    (flushed_answer(met, flushed), Some(out))
}
