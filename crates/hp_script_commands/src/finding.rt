//! `hugepool find`: the first run of a script that meets conditions, as a trace.
ghost use Rattle.std.specs.Prelude.{◌≡◌, ◌≤◌, Ok, true, Err, OnOk, IfOk, MatchBool, Some, IfErr, IfSome, length};
ghost use Rattle.std.specs.Io.KnownBytes.{Appends, Keeps};
ghost use Rattle.std.specs.Option.{option_map};
ghost use Rattle.hp_base.specs.Text.{sizes};
ghost use Rattle.hp_text.specs.ScriptLines.{HasLinesFault};
ghost use Rattle.hp_text.specs.Streams.{TellsReads, TellsWrites};
ghost use Rattle.hp_text.specs.Traces.{trace_text};
ghost use Rattle.hp_text.specs.Writing.{IsWriteFault, Wrote};
ghost use Rattle.hp_program.specs.Answers.{NotDone};
ghost use Rattle.hp_script_commands.specs.Hunting.{AnsweredFind, Finds, FindsNone, FindsPartly};

use crate::progress::{ProgressLine, Report};
use crate::scheduling::tell_ignored;
use hp_command::Search;
use hp_hunt::{Found, Hunt, find};
use hp_program::{flush_gathered, flushed_answer, gather};
use hp_text::{ReplayFault, Sink, Source, read_any_script, write_trace};
use std::alloc::Global;
use std::io;
use std::io::Write;
use std::thread::Threads;
use std::time::Clock;

// Writes the line that says which run was found.
fn tell_run(hunt: Hunt, run: u32, errors: &mut impl Write) -> io::Result<()> {
    let seed = hunt.seed.wrapping_add(u64::from(run));
    write!(
        errors,
        "hugepool: run {run} (seed {seed}) is the first to meet all conditions\n"
    )
}

// Says which run was found, once its trace is written and flushed. Whether it can be said changes nothing.
fn tell_found(hunt: Hunt, run: Option<u32>, flushed: &io::Result<()>, errors: &mut impl Write) {
    if let (Ok(()), Some(run)) = (flushed, run) {
        let _ = tell_run(hunt, run, errors);
    }
}

// Writes the trace of a run that was found.
fn write_found<W: Sink>(
    alloc: Global,
    found: &Found,
    writer: &mut W,
    run: &mut Option<u32>,
) -> Result<bool, ReplayFault>
    requires { length found.now.trace.events.items ≤ 1000000 }
    ensures ok { OnOk result (Appends (W.contents writer.old) (W.contents writer.new)
        (trace_text (sizes found.now.trace.config) found.now.trace.events.items)) }
    ensures met { IfOk result (λ met. met ≡ true) }
    ensures err { IfErr result (λ fault. IsWriteFault fault × Wrote (W.contents writer.old) (W.contents writer.new)
        (trace_text (sizes found.now.trace.config) found.now.trace.events.items)) }
    ensures writes { TellsWrites result (W.failures writer.old) (W.failures writer.new) }
{
    write_trace(alloc, &found.trace, writer)?;
    *run = Some(found.run);
    Ok(true)
}

/// Reads a script, and writes the trace of the first run that meets the conditions. Tells whether one does, and in `run` which it is.
fn find_script<R: Source, W: Sink>(
    rt: &(impl Clock + Threads + Sync),
    alloc: Global,
    search: &Search,
    reader: &mut R,
    writer: &mut W,
    run: &mut Option<u32>,
    errors: &mut impl Report,
) -> Result<bool, ReplayFault>
    ensures ok { IfOk result (λ met. MatchBool met
        (Finds search.now (R.remaining reader.old) (R.remaining reader.new) (W.contents writer.old) (W.contents writer.new))
        (FindsNone search.now (R.remaining reader.old) (R.remaining reader.new)
        × Keeps (W.contents writer.old) (W.contents writer.new))) }
    ensures err { IfErr result (λ fault. NotDone (FindsPartly search.now (R.remaining reader.old) (R.remaining reader.new)
        (W.contents writer.old) (W.contents writer.new)) fault
        (W.failures writer.old) (W.failures writer.new) (W.contents writer.old) (W.contents writer.new)) }
    ensures bad { IfErr result (λ fault. IfSome (R.remaining reader.old) (λ bytes. HasLinesFault bytes fault)) }
    ensures reads { TellsReads result (R.failures reader.old) (R.failures reader.new) }
    ensures writes { OnOk result (W.failures writer.new ≡ W.failures writer.old) }
{
    let script = read_any_script(alloc, reader)?;
    tell_ignored(&script, errors);
    let mut progress = ProgressLine::new(rt, errors);
    let found = find(
        rt,
        alloc,
        &script,
        search.hunt,
        search.conditions.as_slice(),
        &mut progress,
    );
    progress.end();
    match found? {
        Some(found) => write_found(alloc, &found, writer, run),
        None => Ok(false),
    }
}

/// Finds a run of a script. Answers whether there is one. Output is buffered.
pub fn run_find<R: Source, W: Write + Drop>(
    rt: &(impl Clock + Threads + Sync),
    alloc: Global,
    search: &Search,
    reader: &mut R,
    out: W,
    errors: &mut impl Report,
) -> (Result<bool, ReplayFault>, Option<W>)
    ensures { AnsweredFind search.now result.0 (R.remaining reader.old) (R.remaining reader.new) (R.failures reader.old)
        (R.failures reader.new) (W.contents out) (option_map W.contents result.1) }
{
    let Ok(mut sink) = gather(alloc, out) else {
        return (Err(ReplayFault::Memory), None);
    };
    let mut run = None;
    let met = find_script(rt, alloc, search, reader, &mut sink, &mut run, errors);
    let (flushed, out) = flush_gathered(sink);
    tell_found(search.hunt, run, &flushed, errors);
    (flushed_answer(met, flushed), Some(out))
}
