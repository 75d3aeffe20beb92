//! How wide the columns are to be.
ghost use Rattle.std.specs.Prelude.{◌≡◌, ◌≤◌, ◌<◌, ◌+◌, ◌-◌, ◌^◌, IfOk, IsTrue, OnOk, length, min, slice_index_or};
ghost use Rattle.hp_base.specs.Text.{sizes};
ghost use Rattle.hp_core.specs.Readers.{config_of};
ghost use Rattle.hp_explain.specs.Views.{column_count, is_shown};
ghost use Rattle.hp_explain.specs.Widths.{HasRoom, HaveRoom, NoneNarrower};

use crate::view::{View, column_in, tasks_apart};
use crate::words::lay_cell;
use hp_base::{Answer, Config, Event};
use hp_core::{Core, Outcome, Phase};
use hp_text::MOST_EVENTS;
use hp_watch::stood_at;
use std::alloc::{AllocError, Global};

/// A column for what is of no task and one for each task that has its own, each of no width.
fn no_columns(alloc: Global, tasks: u32) -> Result<Vec<usize>, AllocError>
    ensures { IfOk result (λ widths. length widths.items ≡ tasks + 1) }
{
    let mut widths = Vec::new(alloc);
    widths.push(0)?;
    for _task in 0..tasks {
        widths.push(0)?;
    }
    Ok(widths)
}

/// Makes room for a text in a column, with a space behind it.
fn widen(widths: &mut [usize], column: usize, text: &str)
    ensures grows { NoneNarrower widths.old widths.new }
    ensures room { column < length widths.old → min (length text.now + 1) (2 ^ 64 - 1) ≤ slice_index_or widths.new column 0 }
{
    if column < widths.len() {
        let width = text.len().saturating_add(1);
        widths[column] = widths[column].max(width);
    }
}

/// Lets an event happen. Where its task's call stood before it, and what came of it.
fn happen(core: &mut Core, event: Event) -> Result<(Option<Phase>, Outcome), AllocError>
    ensures { OnOk result (config_of core.new ≡ config_of core.old) }
{
    // The checker of borrows asks for a mention of the types that an outcome may hold.
    let _no_answer: Option<Answer> = None;
    let from = stood_at(core, &event);
    let outcome: Outcome = core.step(event)?;
    Ok((from, outcome))
}

/// Lets an event happen, and makes room for what is told of it, if it has a row.
fn measure_event(
    view: &View,
    line: u32,
    event: Event,
    core: &mut Core,
    widths: &mut [usize],
    cell: &mut String,
) -> Result<(), AllocError>
    requires { length widths.old ≡ column_count view.now.compact (config_of core.old).tasks }
    ensures grows { OnOk result (NoneNarrower widths.old widths.new) }
    ensures room { OnOk result (IsTrue (is_shown view.now line event)
        → HasRoom view.now.compact (config_of core.old).tasks widths.new event) }
    ensures config { OnOk result (config_of core.new ≡ config_of core.old) }
{
    // The checker of borrows asks for a mention of the types that an outcome may hold.
    let _no_answer: Option<Answer> = None;
    let (from, outcome) = happen(core, event)?;
    if !view.shows(line, &event) {
        return Ok(());
    }
    lay_cell(view.linux, core, &event, from, outcome, cell)?;
    let config = core.config();
    widen(
        widths,
        column_in(view.compact, config.tasks, &event),
        cell.as_str(),
    );
    Ok(())
}

/// Runs the events once, only to see how wide the texts of each column are. A column in which nothing stands has no width.
pub(crate) fn measure(
    alloc: Global,
    view: &View,
    config: Config,
    events: &[Event],
    cell: &mut String,
) -> Result<Vec<usize>, AllocError>
    requires { length events.now ≤ MOST_EVENTS }
    ensures count { IfOk result (λ widths. length widths.items ≡ column_count view.now.compact (sizes config).tasks) }
    ensures rooms { IfOk result (λ widths. HaveRoom view.now (sizes config).tasks widths.items events.now) }
{
    let mut widths = no_columns(alloc, tasks_apart(view.compact, config.tasks))?;
    let mut core = Core::new(alloc, config)?;
    let mut line = 2;
    for event in events {
        measure_event(view, line, *event, &mut core, widths.as_mut_slice(), cell)?;
        line += 1;
    }
    Ok(widths)
}
