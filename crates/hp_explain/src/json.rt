//! Explains a trace in lines of JSON, an object each.
ghost use Rattle.std.specs.Prelude.{◌≡◌, ◌≤◌, ◌++◌, ◌⊎◌, OnOk, IfErr, IfSome, length, string_bytes};
ghost use Rattle.std.specs.Io.KnownBytes.{Appends, Keeps};
ghost use Rattle.hp_base.specs.Text.{sizes};
ghost use Rattle.hp_core.specs.Readers.{config_of};
ghost use Rattle.hp_explain.specs.Happenings.{EventPartlyTold, EventTold, EventsPartlyTold, EventsTold};
ghost use Rattle.hp_explain.specs.JsonObjects.{end_object, object_text, pool_object, quota_key, shown_object};
ghost use Rattle.hp_explain.specs.JsonRuns.{ExplainedJson, NotExplainedJson, WroteObjects, WroteSomeObjects};
ghost use Rattle.hp_explain.specs.Views.{events_until};
ghost use Rattle.hp_watch.specs.Holders.{AreHolders};
ghost use Rattle.hp_text.specs.Streams.{TellsReads, TellsWrites};
ghost use Rattle.hp_text.specs.Traces.{HasFault};
ghost use Rattle.hp_text.specs.Writing.{IsWriteFault, Wrote};

use crate::json_calls::{push_call_in, push_counts, push_waits};
use crate::json_end::lay_end;
use crate::json_events::{push_event, push_outcome};
use crate::view::View;
use hp_base::{Config, Event};
use hp_core::{Core, Outcome};
use hp_text::{MOST_EVENTS, ReplayFault, Sink, Source, Trace, column_of, read_trace, write_text};
use hp_watch::Run;
use std::alloc::{AllocError, Global};

/// Appends the quota, if there is one.
fn push_quota(quota: Option<u32>, text: &mut String) -> Result<(), AllocError>
    ensures { OnOk result (string_bytes text.new ≡ string_bytes text.old ++ quota_key quota) }
{
    match quota {
        Some(pages) => write!(text, ",\"quota\":{pages}"),
        None => Ok(()),
    }
}

/// Lays out the object of a pool.
fn lay_pool(config: Config, text: &mut String) -> Result<(), AllocError>
    ensures { OnOk result (string_bytes text.new ≡ pool_object (sizes config)) }
{
    text.clear();
    let Config {
        frames,
        files,
        slots,
        tasks,
        quota,
    } = config;
    write!(
        text,
        "{{\"pool\":{{\"frames\":{frames},\"files\":{files},\"slots\":{slots},\"tasks\":{tasks}"
    )?;
    push_quota(quota, text)?;
    text.push_str("}}\n")
}

/// Lays out the object of an event, which led to where the run stands. `waits` is where its waits are laid out.
fn lay_object(
    line: u32,
    run: &Run,
    event: &Event,
    outcome: Outcome,
    waits: &mut String,
    text: &mut String,
) -> Result<(), AllocError>
    requires before { length run.now.before.items ≡ (config_of run.now.core).tasks }
    requires holders { length run.now.holders.items ≡ (config_of run.now.core).tasks }
    ensures { OnOk result (string_bytes text.new ≡ object_text line run.now.before.items
        (record { event = event.now; outcome = outcome; core = run.now.core; holders = run.now.holders.items; from = run.now.from })) }
{
    text.clear();
    let config = run.core.config();
    write!(text, "{{\"line\":{line}")?;
    push_event(event, text)?;
    push_outcome(&run.core, event, run.from, outcome, text)?;
    push_call_in(&run.core, column_of(config.tasks, event), text)?;
    push_counts(&run.core, text)?;
    push_waits(
        &run.core,
        run.before.as_slice(),
        run.holders.as_slice(),
        waits,
        text,
    )?;
    text.push_str("}\n")
}

/// Lays out the same, if the event is shown.
fn lay_shown(
    view: &View,
    line: u32,
    run: &Run,
    event: &Event,
    outcome: Outcome,
    waits: &mut String,
    text: &mut String,
) -> Result<(), AllocError>
    requires before { length run.now.before.items ≡ (config_of run.now.core).tasks }
    requires holders { length run.now.holders.items ≡ (config_of run.now.core).tasks }
    ensures { OnOk result (string_bytes text.new ≡ shown_object view.now line run.now.before.items
        (record { event = event.now; outcome = outcome; core = run.now.core; holders = run.now.holders.items; from = run.now.from })) }
{
    if view.shows(line, event) {
        return lay_object(line, run, event, outcome, waits, text);
    }
    text.clear();
    Ok(())
}

/// Lets an event happen, and writes its object, if it is shown.
fn write_object<W: Sink>(
    view: &View,
    line: u32,
    event: Event,
    run: &mut Run,
    waits: &mut String,
    text: &mut String,
    writer: &mut W,
) -> Result<(), ReplayFault>
    requires { length run.old.holders.items ≡ (config_of run.old.core).tasks }
    ensures ok { OnOk result (EventTold (shown_object view.now) line event run.old.core run.new.core run.old.holders.items
        run.new.holders.items
        (W.contents writer.old) (W.contents writer.new)) }
    ensures err { IfErr result (λ fault. IsWriteFault fault × (Keeps (W.contents writer.old) (W.contents writer.new)
        ⊎ EventPartlyTold (shown_object view.now) line event run.old.core run.old.holders.items (W.contents writer.old)
        (W.contents writer.new))) }
    ensures holders { OnOk result (AreHolders run.new.core run.new.holders.items) }
    ensures writes { TellsWrites result (W.failures writer.old) (W.failures writer.new) }
{
    let outcome = run.happen(event)?;
    lay_shown(view, line, run, &event, outcome, waits, text)?;
    write_text(writer, text.as_bytes())
}

/// Lets the events happen one after the other, and writes the object of each before the next.
fn write_events<W: Sink>(
    view: &View,
    events: &[Event],
    run: &mut Run,
    waits: &mut String,
    text: &mut String,
    writer: &mut W,
) -> Result<(), ReplayFault>
    requires few { length events.now ≤ MOST_EVENTS }
    requires holders { AreHolders run.old.core run.old.holders.items }
    ensures ok { OnOk result (EventsTold (shown_object view.now) 2 events.now run.old.core run.new.core run.old.holders.items
        (W.contents writer.old) (W.contents writer.new)) }
    ensures err { IfErr result (λ fault. IsWriteFault fault
        × EventsPartlyTold (shown_object view.now) 2 events.now run.old.core run.old.holders.items (W.contents writer.old)
        (W.contents writer.new)) }
    ensures writes { TellsWrites result (W.failures writer.old) (W.failures writer.new) }
{
    let mut line = 2;
    for event in events {
        write_object(view, line, *event, run, waits, text, writer)?;
        line += 1;
    }
    Ok(())
}

/// Writes the object of a pool.
fn write_pool<W: Sink>(config: Config, text: &mut String, writer: &mut W) -> Result<(), ReplayFault>
    ensures ok { OnOk result (Appends (W.contents writer.old) (W.contents writer.new) (pool_object (sizes config))) }
    ensures err { IfErr result (λ fault. IsWriteFault fault
        × Wrote (W.contents writer.old) (W.contents writer.new) (pool_object (sizes config))) }
    ensures writes { TellsWrites result (W.failures writer.old) (W.failures writer.new) }
{
    lay_pool(config, text)?;
    write_text(writer, text.as_bytes())
}

/// Writes the object of the state.
fn write_state<W: Sink>(core: &Core, text: &mut String, writer: &mut W) -> Result<(), ReplayFault>
    ensures ok { OnOk result (Appends (W.contents writer.old) (W.contents writer.new) (end_object core.now)) }
    ensures err { IfErr result (λ fault. IsWriteFault fault
        × Wrote (W.contents writer.old) (W.contents writer.new) (end_object core.now)) }
    ensures writes { TellsWrites result (W.failures writer.old) (W.failures writer.new) }
{
    lay_end(core, text)?;
    write_text(writer, text.as_bytes())
}

/// Runs the trace up to the last line that is asked for. Writes lines of JSON: an object of the pool; one of each event that is asked
/// for, with what came of it, where its task's call stands then, the counts behind it, and the tasks whose wait began, changed or ended
/// by it; and one of the state. How rows of words are laid out makes no difference. Nothing is tried again after an error.
pub fn write_objects<W: Sink>(
    alloc: Global,
    view: &View,
    trace: &Trace,
    writer: &mut W,
) -> Result<(), ReplayFault>
    requires { length trace.now.events.items ≤ MOST_EVENTS }
    ensures ok { OnOk result (WroteObjects view.now (sizes trace.now.config) (events_until view.now trace.now.events.items)
        (W.contents writer.old) (W.contents writer.new)) }
    ensures err { IfErr result (λ fault. IsWriteFault fault × WroteSomeObjects view.now (sizes trace.now.config)
        (events_until view.now trace.now.events.items)
        (W.contents writer.old) (W.contents writer.new)) }
    ensures writes { TellsWrites result (W.failures writer.old) (W.failures writer.new) }
{
    let mut waits = String::new(alloc);
    let mut text = String::new(alloc);
    let events = view.until(trace.events.as_slice());
    let mut run = Run::new(alloc, trace.config)?;
    write_pool(trace.config, &mut text, writer)?;
    write_events(view, events, &mut run, &mut waits, &mut text, writer)?;
    write_state(&run.core, &mut text, writer)
}

/// Reads the trace that the bytes spell, all of it, and then explains it in lines of JSON.
pub fn explain_json<R: Source, W: Sink>(
    alloc: Global,
    view: &View,
    reader: &mut R,
    writer: &mut W,
) -> Result<(), ReplayFault>
    ensures ok { OnOk result (ExplainedJson view.now (R.remaining reader.old) (R.remaining reader.new)
        (W.contents writer.old) (W.contents writer.new)) }
    ensures err { IfErr result (λ fault. NotExplainedJson view.now fault (R.remaining reader.old) (R.remaining reader.new)
        (W.contents writer.old) (W.contents writer.new)) }
    ensures bad { IfErr result (λ fault. IfSome (R.remaining reader.old) (λ bytes. HasFault bytes fault)) }
    ensures reads { TellsReads result (R.failures reader.old) (R.failures reader.new) }
    ensures writes { TellsWrites result (W.failures writer.old) (W.failures writer.new) }
{
    let trace = read_trace(alloc, reader)?;
    write_objects(alloc, view, &trace, writer)
}
