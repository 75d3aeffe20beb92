//! The rows of a run.
ghost use Rattle.std.specs.Prelude.{◌≡◌, ◌≤◌, ◌++◌, ◌⊎◌, OnOk, IfErr, length, string_bytes};
ghost use Rattle.hp_explain.specs.Happenings.{EventTold, EventPartlyTold, EventsTold, EventsPartlyTold};
ghost use Rattle.hp_explain.specs.Rows.{cells, counts, head_text, row_text, shown_text, used_count};
ghost use Rattle.hp_watch.specs.Holders.{AreHolders};
ghost use Rattle.hp_core.specs.Readers.{config_of, quota_of};
ghost use Rattle.hp_text.specs.Streams.{TellsWrites};
ghost use Rattle.hp_text.specs.Writing.{IsWriteFault, Wrote};
ghost use Rattle.std.specs.Io.KnownBytes.{Appends, Keeps};

use crate::layout::{push_columns, push_titles};
use crate::view::{View, column_in};
use crate::waits::push_changes;
use crate::words::lay_cell;
use hp_base::Event;
use hp_core::{Core, Outcome, Phase};
use hp_text::{MOST_EVENTS, ReplayFault, Sink, write_text};
use hp_watch::Run;
use std::alloc::AllocError;

/// Writes what stands over the rows.
pub(crate) fn write_head<W: Sink>(
    compact: bool,
    quota: Option<u32>,
    widths: &[usize],
    word: &mut String,
    line: &mut String,
    writer: &mut W,
) -> Result<(), ReplayFault>
    ensures ok { OnOk result (Appends (W.contents writer.old) (W.contents writer.new) (head_text compact quota widths.now)) }
    ensures err { IfErr result (λ fault. IsWriteFault fault
        × Wrote (W.contents writer.old) (W.contents writer.new) (head_text compact quota widths.now)) }
    ensures writes { TellsWrites result (W.failures writer.old) (W.failures writer.new) }
{
    lay_head(compact, quota, widths, word, line)?;
    write_text(writer, line.as_bytes())
}

fn lay_head(
    compact: bool,
    quota: Option<u32>,
    widths: &[usize],
    word: &mut String,
    line: &mut String,
) -> Result<(), AllocError>
    ensures { OnOk result (string_bytes line.new ≡ head_text compact quota widths.now) }
{
    line.clear();
    line.push_str("   line  ")?;
    push_titles(compact, widths, word, line)?;
    line.push_str("free  resv  owed")?;
    match quota {
        Some(_) => line.push_str("  used\n"),
        None => line.push_str("\n"),
    }
}

/// Appends the event and what came of it, in the column of its task. `cell` is where it is laid out.
fn push_cells(
    view: &View,
    widths: &[usize],
    core: &Core,
    event: &Event,
    from: Option<Phase>,
    outcome: Outcome,
    cell: &mut String,
    row: &mut String,
) -> Result<(), AllocError>
    ensures { OnOk result (string_bytes row.new ≡ string_bytes row.old
        ++ cells view.now widths.now core.now event.now from outcome) }
{
    lay_cell(view.linux, core, event, from, outcome, cell)?;
    let config = core.config();
    push_columns(
        widths,
        column_in(view.compact, config.tasks, event),
        cell.as_str(),
        row,
    )
}

/// Appends the used count, where the pool has a quota.
fn push_used(core: &Core, row: &mut String) -> Result<(), AllocError>
    ensures { OnOk result (string_bytes row.new ≡ string_bytes row.old ++ used_count (quota_of core.now) core.now) }
{
    match core.quota() {
        Some(_) => {
            let used = core.used();
            write!(row, "  {used:>4}")
        }
        None => Ok(()),
    }
}

/// Appends free frames, the reserve count, what is owed to it, and the used count.
fn push_counts(core: &Core, row: &mut String) -> Result<(), AllocError>
    ensures { OnOk result (string_bytes row.new ≡ string_bytes row.old ++ counts core.now) }
{
    let free = core.free();
    let resv = core.resv();
    let owed = core.owed();
    write!(row, "{free:>4}  {resv:>4}  {owed:>4}")?;
    push_used(core, row)
}

/// Lays out the row of an event, which led to where the run stands.
fn lay_row(
    view: &View,
    widths: &[usize],
    line: u32,
    run: &Run,
    event: &Event,
    outcome: Outcome,
    cell: &mut String,
    row: &mut String,
) -> Result<(), AllocError>
    requires before { length run.now.before.items ≡ (config_of run.now.core).tasks }
    requires holders { length run.now.holders.items ≡ (config_of run.now.core).tasks }
    ensures { OnOk result (string_bytes row.new ≡ row_text view.now widths.now line run.now.before.items
        (record { event = event.now; outcome = outcome; core = run.now.core; holders = run.now.holders.items; from = run.now.from })) }
{
    row.clear();
    write!(row, "{line:>7}  ")?;
    push_cells(view, widths, &run.core, event, run.from, outcome, cell, row)?;
    push_counts(&run.core, row)?;
    push_changes(
        view.compact,
        &run.core,
        run.before.as_slice(),
        run.holders.as_slice(),
        row,
    )?;
    row.push('\n')
}

/// Lays out the same, if the event has a row.
fn lay_shown(
    view: &View,
    widths: &[usize],
    line: u32,
    run: &Run,
    event: &Event,
    outcome: Outcome,
    cell: &mut String,
    row: &mut String,
) -> Result<(), AllocError>
    requires before { length run.now.before.items ≡ (config_of run.now.core).tasks }
    requires holders { length run.now.holders.items ≡ (config_of run.now.core).tasks }
    ensures { OnOk result (string_bytes row.new ≡ shown_text view.now widths.now line run.now.before.items
        (record { event = event.now; outcome = outcome; core = run.now.core; holders = run.now.holders.items; from = run.now.from })) }
{
    if view.shows(line, event) {
        return lay_row(view, widths, line, run, event, outcome, cell, row);
    }
    row.clear();
    Ok(())
}

/// Lets an event happen, and writes its row, if it has one.
fn write_row<W: Sink>(
    view: &View,
    widths: &[usize],
    line: u32,
    event: Event,
    run: &mut Run,
    cell: &mut String,
    row: &mut String,
    writer: &mut W,
) -> Result<(), ReplayFault>
    requires { length run.old.holders.items ≡ (config_of run.old.core).tasks }
    ensures ok { OnOk result (EventTold (shown_text view.now widths.now) line event run.old.core run.new.core run.old.holders.items
        run.new.holders.items
        (W.contents writer.old) (W.contents writer.new)) }
    ensures err { IfErr result (λ fault. IsWriteFault fault × (Keeps (W.contents writer.old) (W.contents writer.new)
        ⊎ EventPartlyTold (shown_text view.now widths.now) line event run.old.core run.old.holders.items (W.contents writer.old)
        (W.contents writer.new))) }
    ensures holders { OnOk result (AreHolders run.new.core run.new.holders.items) }
    ensures writes { TellsWrites result (W.failures writer.old) (W.failures writer.new) }
{
    let outcome = run.happen(event)?;
    lay_shown(view, widths, line, run, &event, outcome, cell, row)?;
    write_text(writer, row.as_bytes())
}

/// Lets the events happen one after the other, and writes the row of each before the next.
pub(crate) fn write_rows<W: Sink>(
    view: &View,
    widths: &[usize],
    events: &[Event],
    run: &mut Run,
    cell: &mut String,
    row: &mut String,
    writer: &mut W,
) -> Result<(), ReplayFault>
    requires few { length events.now ≤ MOST_EVENTS }
    requires holders { AreHolders run.old.core run.old.holders.items }
    ensures ok { OnOk result (EventsTold (shown_text view.now widths.now) 2 events.now run.old.core run.new.core run.old.holders.items
        (W.contents writer.old) (W.contents writer.new)) }
    ensures err { IfErr result (λ fault. IsWriteFault fault
        × EventsPartlyTold (shown_text view.now widths.now) 2 events.now run.old.core run.old.holders.items (W.contents writer.old)
        (W.contents writer.new)) }
    ensures writes { TellsWrites result (W.failures writer.old) (W.failures writer.new) }
{
    let mut line = 2;
    for event in events {
        write_row(view, widths, line, *event, run, cell, row, writer)?;
        line += 1;
    }
    Ok(())
}
