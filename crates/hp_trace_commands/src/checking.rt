//! `hugepool check`: how many events a trace has.
ghost use Rattle.std.specs.Prelude.{◌≡◌, Ok, Err, IfOk, IfErr, OnErr, OnOk, Some, IfSome};
ghost use Rattle.std.specs.Option.{option_map};
ghost use Rattle.hp_text.specs.Traces.{HasFault};
ghost use Rattle.hp_text.specs.Streams.{TellsReads};
ghost use Rattle.hp_program.specs.Answers.{NotDone};
ghost use Rattle.hp_trace_commands.specs.Traces.{AnsweredCheck, Checks, ChecksPartly};

use hp_program::{flush_plain, flushed_answer};
use hp_text::{ReplayFault, Sink, Source, Watched, check_trace, write_count};
use std::alloc::Global;
use std::io::Write;

/// Counts the events of a trace.
fn count_events<R: Source, W: Sink>(
    alloc: Global,
    reader: &mut R,
    writer: &mut W,
) -> Result<(), ReplayFault>
    ensures ok { OnOk result (Checks (R.remaining reader.old) (R.remaining reader.new) (W.contents writer.old) (W.contents writer.new)) }
    ensures err { IfErr result (λ fault. NotDone
        (ChecksPartly (R.remaining reader.old) (R.remaining reader.new) (W.contents writer.old) (W.contents writer.new)) fault
        (W.failures writer.old) (W.failures writer.new) (W.contents writer.old) (W.contents writer.new)) }
    ensures bad { IfErr result (λ fault. IfSome (R.remaining reader.old) (λ bytes. HasFault bytes fault)) }
    ensures reads { TellsReads result (R.failures reader.old) (R.failures reader.new) }
    ensures writes { OnOk result (W.failures writer.new ≡ W.failures writer.old) }
{
    let events = check_trace(reader)?;
    write_count(alloc, events, writer)
}

/// Checks a trace, and flushes the line.
pub fn run_check<R: Source, W: Write + Drop>(
    alloc: Global,
    reader: &mut R,
    out: W,
) -> (Result<(), ReplayFault>, Option<W>)
    ensures { AnsweredCheck result.0 (R.remaining reader.old) (R.remaining reader.new) (R.failures reader.old)
        (R.failures reader.new) (W.contents out) (option_map W.contents result.1) }
{
    let mut sink = Watched::new(out);
    let counted = count_events(alloc, reader, &mut sink);
    let (flushed, out) = flush_plain(sink);
    (flushed_answer(counted, flushed), Some(out))
}
