//! Explains a trace.
ghost use Rattle.std.specs.Prelude.{◌≡◌, ◌≤◌, OnOk, IfErr, IfSome, length};
ghost use Rattle.hp_base.specs.Text.{sizes};
ghost use Rattle.hp_explain.specs.Explaining.{Explained, NotExplained, PartlyExplained, WroteExplanation};
ghost use Rattle.hp_explain.specs.Views.{events_until};
ghost use Rattle.hp_text.specs.Streams.{TellsReads, TellsWrites};
ghost use Rattle.hp_text.specs.Traces.{HasFault};
ghost use Rattle.hp_text.specs.Writing.{IsWriteFault};

use crate::ending::write_end;
use crate::measuring::measure;
use crate::rows::{write_head, write_rows};
use crate::view::View;
use hp_text::{MOST_EVENTS, ReplayFault, Sink, Source, Trace, read_trace};
use hp_watch::Run;
use std::alloc::Global;

/// Runs the trace up to the last line that is asked for. Writes a row for each event that is, with what came of it, the counts behind
/// it, and the tasks whose wait began or ended by it, then a line for each call in flight, and those of the state. Nothing is tried
/// again after an error.
pub fn explain_trace<W: Sink>(
    alloc: Global,
    view: &View,
    trace: &Trace,
    writer: &mut W,
) -> Result<(), ReplayFault>
    requires { length trace.now.events.items ≤ MOST_EVENTS }
    ensures ok { OnOk result (WroteExplanation view.now (sizes trace.now.config) (events_until view.now trace.now.events.items)
        (W.contents writer.old) (W.contents writer.new)) }
    ensures err { IfErr result (λ fault. IsWriteFault fault × PartlyExplained view.now (sizes trace.now.config)
        (events_until view.now trace.now.events.items)
        (W.contents writer.old) (W.contents writer.new)) }
    ensures writes { TellsWrites result (W.failures writer.old) (W.failures writer.new) }
{
    let mut cell = String::new(alloc);
    let mut line = String::new(alloc);
    let events = view.until(trace.events.as_slice());
    let widths = measure(alloc, view, trace.config, events, &mut cell)?;
    let widths = widths.as_slice();
    let mut run = Run::new(alloc, trace.config)?;
    write_head(
        view.compact,
        trace.config.quota,
        widths,
        &mut cell,
        &mut line,
        writer,
    )?;
    write_rows(view, widths, events, &mut run, &mut cell, &mut line, writer)?;
    write_end(&run.core, &mut line, writer)
}

/// Reads the trace that the bytes spell, all of it, and then explains it.
pub fn explain<R: Source, W: Sink>(
    alloc: Global,
    view: &View,
    reader: &mut R,
    writer: &mut W,
) -> Result<(), ReplayFault>
    ensures ok { OnOk result (Explained view.now (R.remaining reader.old) (R.remaining reader.new)
        (W.contents writer.old) (W.contents writer.new)) }
    ensures err { IfErr result (λ fault. NotExplained view.now fault (R.remaining reader.old) (R.remaining reader.new)
        (W.contents writer.old) (W.contents writer.new)) }
    ensures bad { IfErr result (λ fault. IfSome (R.remaining reader.old) (λ bytes. HasFault bytes fault)) }
    ensures reads { TellsReads result (R.failures reader.old) (R.failures reader.new) }
    ensures writes { TellsWrites result (W.failures writer.old) (W.failures writer.new) }
{
    let trace = read_trace(alloc, reader)?;
    explain_trace(alloc, view, &trace, writer)
}
