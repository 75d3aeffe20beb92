//! Writes the page of a trace.
ghost use Rattle.std.specs.Prelude.{◌≡◌, ◌≤◌, OnOk, IfErr, IfSome, length};
ghost use Rattle.std.specs.Io.KnownBytes.{Appends};
ghost use Rattle.std.specs.List.{flat_map};
ghost use Rattle.hp_base.specs.Text.{sizes};
ghost use Rattle.hp_html.specs.HtmlPages.{IsHtmlPage, NotPaged, WroteHtmlPage, WroteSomeHtmlPage, head_text, tail_text};
ghost use Rattle.hp_text.specs.Streams.{TellsReads, TellsWrites};
ghost use Rattle.hp_text.specs.Traces.{HasFault};
ghost use Rattle.hp_text.specs.Writing.{IsWriteFault, Wrote};

use crate::body::BODY;
use crate::front::FRONT;
use crate::help::{HELP, HELP_BEGIN};
use crate::legend::LEGEND;
use crate::page_script::PAGE_SCRIPT;
use crate::page_style::PAGE_STYLE;
use crate::picture_script::PICTURE_SCRIPT;
use crate::run_script::RUN_SCRIPT;
use crate::search_form::SEARCH_FORM;
use crate::tail::TAIL;
use crate::tools::{TOOLS, TOOLS_END};
use crate::viewer_script::VIEWER_SCRIPT;
use crate::viewer_style::VIEWER_STYLE;
use hp_explain::{View, write_objects};
use hp_text::{MOST_EVENTS, ReplayFault, Sink, Source, Trace, read_trace, write_text};
use std::alloc::Global;

/// Writes these texts.
fn write_texts<W: Sink>(writer: &mut W, texts: &[&str]) -> Result<(), ReplayFault>
    ensures ok { OnOk result (Appends (W.contents writer.old) (W.contents writer.new) (flat_map (λ text. text.now) texts.now)) }
    ensures err { IfErr result (λ fault. IsWriteFault fault
        × Wrote (W.contents writer.old) (W.contents writer.new) (flat_map (λ text. text.now) texts.now)) }
    ensures writes { TellsWrites result (W.failures writer.old) (W.failures writer.new) }
{
    for text in texts {
        write_text(writer, text.as_bytes())?;
    }
    Ok(())
}

/// Writes what stands before the data.
#[tactic(auto, unfolding(crate::specs::HtmlPages::head_text))]
fn write_head<W: Sink>(writer: &mut W) -> Result<(), ReplayFault>
    ensures ok { OnOk result (Appends (W.contents writer.old) (W.contents writer.new) head_text) }
    ensures err { IfErr result (λ fault. IsWriteFault fault × Wrote (W.contents writer.old) (W.contents writer.new) head_text) }
    ensures writes { TellsWrites result (W.failures writer.old) (W.failures writer.new) }
{
    write_texts(
        writer,
        &[
            FRONT,
            VIEWER_STYLE,
            PAGE_STYLE,
            TOOLS,
            SEARCH_FORM,
            TOOLS_END,
            LEGEND,
            HELP_BEGIN,
            HELP,
            BODY,
            RUN_SCRIPT,
            PICTURE_SCRIPT,
            VIEWER_SCRIPT,
            PAGE_SCRIPT,
        ],
    )
}

/// Writes what stands behind them.
#[tactic(auto, unfolding(crate::specs::HtmlPages::tail_text))]
fn write_tail<W: Sink>(writer: &mut W) -> Result<(), ReplayFault>
    ensures ok { OnOk result (Appends (W.contents writer.old) (W.contents writer.new) tail_text) }
    ensures err { IfErr result (λ fault. IsWriteFault fault × Wrote (W.contents writer.old) (W.contents writer.new) tail_text) }
    ensures writes { TellsWrites result (W.failures writer.old) (W.failures writer.new) }
{
    write_text(writer, TAIL.as_bytes())
}

/// Runs the trace, and writes its page: the head, the run's objects of JSON, a line each, and the tail. The objects have no `<`, so the
/// element in which they stand ends where the tail begins. Nothing is tried again after an error.
pub fn write_html_page<W: Sink>(
    alloc: Global,
    trace: &Trace,
    writer: &mut W,
) -> Result<(), ReplayFault>
    requires { length trace.now.events.items ≤ MOST_EVENTS }
    ensures ok { OnOk result (WroteHtmlPage (sizes trace.now.config) trace.now.events.items
        (W.contents writer.old) (W.contents writer.new)) }
    ensures err { IfErr result (λ fault. IsWriteFault fault × WroteSomeHtmlPage (sizes trace.now.config) trace.now.events.items
        (W.contents writer.old) (W.contents writer.new)) }
    ensures writes { TellsWrites result (W.failures writer.old) (W.failures writer.new) }
{
    write_head(writer)?;
    write_objects(alloc, &View::whole(), trace, writer)?;
    write_tail(writer)
}

/// Reads the trace that the bytes spell, all of it, and then writes its page.
pub fn html_page<R: Source, W: Sink>(
    alloc: Global,
    reader: &mut R,
    writer: &mut W,
) -> Result<(), ReplayFault>
    ensures ok { OnOk result (IsHtmlPage (R.remaining reader.old) (R.remaining reader.new)
        (W.contents writer.old) (W.contents writer.new)) }
    ensures err { IfErr result (λ fault. NotPaged fault (R.remaining reader.old) (R.remaining reader.new)
        (W.contents writer.old) (W.contents writer.new)) }
    ensures bad { IfErr result (λ fault. IfSome (R.remaining reader.old) (λ bytes. HasFault bytes fault)) }
    ensures reads { TellsReads result (R.failures reader.old) (R.failures reader.new) }
    ensures writes { TellsWrites result (W.failures writer.old) (W.failures writer.new) }
{
    let trace = read_trace(alloc, reader)?;
    write_html_page(alloc, &trace, writer)
}
