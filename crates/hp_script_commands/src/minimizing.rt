//! `hugepool minimize`: of a trace that meets conditions a small one that still does.
ghost use Rattle.std.specs.Prelude.{◌≡◌, ◌≤◌, Ok, true, Err, OnOk, IfOk, MatchBool, Some, IfErr, IfSome, length};
ghost use Rattle.std.specs.Io.KnownBytes.{Appends, Keeps};
ghost use Rattle.std.specs.Option.{option_map};
ghost use Rattle.hp_base.specs.Text.{sizes};
ghost use Rattle.hp_text.specs.Streams.{TellsReads, TellsWrites};
ghost use Rattle.hp_text.specs.Traces.{HasFault, trace_text};
ghost use Rattle.hp_text.specs.Writing.{IsWriteFault, Wrote};
ghost use Rattle.hp_program.specs.Answers.{NotDone};
ghost use Rattle.hp_script_commands.specs.Hunting.{AnsweredMinimize, Minimizes, MinimizesNone, MinimizesPartly};

use crate::progress::{ProgressLine, Report};
use hp_hunt::{Condition, minimize};
use hp_program::{flush_gathered, flushed_answer, gather};
use hp_text::{ReplayFault, Sink, Source, Trace, read_trace, write_trace};
use std::alloc::Global;
use std::io::Write;
use std::time::Clock;

// Writes what is left of a trace.
fn write_small<W: Sink>(alloc: Global, small: &Trace, writer: &mut W) -> Result<bool, ReplayFault>
    requires { length small.now.events.items ≤ 1000000 }
    ensures ok { OnOk result (Appends (W.contents writer.old) (W.contents writer.new)
        (trace_text (sizes small.now.config) small.now.events.items)) }
    ensures met { IfOk result (λ met. met ≡ true) }
    ensures err { IfErr result (λ fault. IsWriteFault fault × Wrote (W.contents writer.old) (W.contents writer.new)
        (trace_text (sizes small.now.config) small.now.events.items)) }
    ensures writes { TellsWrites result (W.failures writer.old) (W.failures writer.new) }
{
    write_trace(alloc, small, writer)?;
    Ok(true)
}

/// Reads a trace, and writes a small one that still meets the conditions. Tells whether the trace does.
fn minimize_trace<R: Source, W: Sink>(
    rt: &impl Clock,
    alloc: Global,
    conditions: &[Condition],
    reader: &mut R,
    writer: &mut W,
    errors: &mut impl Report,
) -> Result<bool, ReplayFault>
    ensures ok { IfOk result (λ met. MatchBool met
        (Minimizes conditions.now (R.remaining reader.old) (R.remaining reader.new) (W.contents writer.old) (W.contents writer.new))
        (MinimizesNone conditions.now (R.remaining reader.old) (R.remaining reader.new)
        × Keeps (W.contents writer.old) (W.contents writer.new))) }
    ensures err { IfErr result (λ fault. NotDone (MinimizesPartly conditions.now (R.remaining reader.old) (R.remaining reader.new)
        (W.contents writer.old) (W.contents writer.new)) fault
        (W.failures writer.old) (W.failures writer.new) (W.contents writer.old) (W.contents writer.new)) }
    ensures bad { IfErr result (λ fault. IfSome (R.remaining reader.old) (λ bytes. HasFault bytes fault)) }
    ensures reads { TellsReads result (R.failures reader.old) (R.failures reader.new) }
    ensures writes { OnOk result (W.failures writer.new ≡ W.failures writer.old) }
{
    let trace = read_trace(alloc, reader)?;
    let mut progress = ProgressLine::new(rt, errors);
    let small = minimize(alloc, &trace, conditions, &mut progress);
    progress.end();
    match small? {
        Some(small) => write_small(alloc, &small, writer),
        None => Ok(false),
    }
}

/// Minimizes a trace. Answers whether it meets the conditions. Output is buffered.
pub fn run_minimize<R: Source, W: Write + Drop>(
    rt: &impl Clock,
    alloc: Global,
    conditions: &[Condition],
    reader: &mut R,
    out: W,
    errors: &mut impl Report,
) -> (Result<bool, ReplayFault>, Option<W>)
    ensures { AnsweredMinimize conditions.now result.0 (R.remaining reader.old) (R.remaining reader.new) (R.failures reader.old)
        (R.failures reader.new) (W.contents out) (option_map W.contents result.1) }
{
    let Ok(mut sink) = gather(alloc, out) else {
        return (Err(ReplayFault::Memory), None);
    };
    let met = minimize_trace(rt, alloc, conditions, reader, &mut sink, errors);
    let (flushed, out) = flush_gathered(sink);
    (flushed_answer(met, flushed), Some(out))
}
