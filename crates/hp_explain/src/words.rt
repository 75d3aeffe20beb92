//! What came of an event, in words.
ghost use Rattle.std.specs.Prelude.{◌≡◌, ◌≤◌, ◌++◌, Option, OnOk, string_bytes};
ghost use Rattle.hp_core.specs.Readers.{config_of};
ghost use Rattle.hp_explain.specs.Words.{cell_text, index_in, index_text, linux_part};
ghost use Rattle.hp_explain.specs.Words.{lock_text, slot_text, outcome_words, wanted_in, wanted_text};

use hp_base::{Event, File, Index, Task};
use hp_core::{Acquired, Core, Outcome, Phase};
use hp_slots::slot_number;
use hp_text::column_of;
use hp_watch::linux_of_step;
use std::alloc::AllocError;

/// Appends the slot of an index, as `slot 3, file 0 index 0`.
pub(crate) fn push_slot(
    core: &Core,
    file: File,
    index: Index,
    text: &mut String,
) -> Result<(), AllocError>
    ensures { OnOk result (string_bytes text.new ≡ string_bytes text.old ++ slot_text core.now file index) }
{
    let slot = slot_number(core.config().slots, file, index);
    write!(text, "slot {slot}, file {file} index {index}")
}

/// Appends what a call wants.
pub(crate) fn push_acquired(
    core: &Core,
    wanted: Acquired,
    text: &mut String,
) -> Result<(), AllocError>
    ensures { OnOk result (string_bytes text.new ≡ string_bytes text.old ++ wanted_text core.now wanted) }
{
    match wanted {
        Acquired::Nothing => text.push_str("nothing"),
        Acquired::Lock(file) => write!(text, "lock of file {file}"),
        Acquired::Slot(file, index) => push_slot(core, file, index, text),
    }
}

/// What the call of the task in that column wants.
fn wanted_in(core: &Core, column: u32) -> Acquired
    requires { column ≤ (config_of core.now).tasks }
    ensures { result ≡ wanted_in core.now column }
{
    if column == 0 {
        return Acquired::Nothing;
    }
    core.acquiring(Task::new(column))
}

/// Appends the index whose slot a call holds, or else wants.
fn push_index(
    held: Option<(File, Index)>,
    wanted: Acquired,
    text: &mut String,
) -> Result<(), AllocError>
    ensures { OnOk result (string_bytes text.new ≡ string_bytes text.old ++ index_text held wanted) }
{
    match (held, wanted) {
        (Some((_, index)), _) | (None, Acquired::Slot(_, index)) => {
            write!(text, ", index {index}")
        }
        (None, Acquired::Nothing | Acquired::Lock(_)) => Ok(()),
    }
}

/// Appends the index at which the call of the task in that column works.
fn push_index_in(core: &Core, column: u32, text: &mut String) -> Result<(), AllocError>
    requires { column ≤ (config_of core.now).tasks }
    ensures { OnOk result (string_bytes text.new ≡ string_bytes text.old ++ index_in core.now column) }
{
    if column == 0 {
        return Ok(());
    }
    let task = Task::new(column);
    push_index(core.holding(task).slot, core.acquiring(task), text)
}

/// Appends what a step did in Linux, where that is asked for. It was made from that phase, and led to that core.
fn push_linux(
    linux: bool,
    core: &Core,
    column: u32,
    from: Option<Phase>,
    text: &mut String,
) -> Result<(), AllocError>
    requires { column ≤ (config_of core.now).tasks }
    ensures { OnOk result (string_bytes text.new ≡ string_bytes text.old ++ linux_part linux core.now column from) }
{
    let Some(from) = from else {
        return Ok(());
    };
    if linux {
        let name = linux_of_step(core, column, from);
        return write!(text, " ({name})");
    }
    Ok(())
}

/// Appends what came of an event: the outcome; where a step was made, the index at which the call works; and where one was blocked,
/// by whom and on what.
fn push_outcome(
    linux: bool,
    core: &Core,
    event: &Event,
    from: Option<Phase>,
    outcome: Outcome,
    text: &mut String,
) -> Result<(), AllocError>
    ensures { OnOk result (string_bytes text.new ≡ string_bytes text.old ++ outcome_words linux core.now event.now from outcome) }
{
    match outcome {
        Outcome::Blocked(holder) => {
            let config = core.config();
            let wanted = wanted_in(core, column_of(config.tasks, event));
            write!(text, "blocked by {holder}: ")?;
            push_acquired(core, wanted, text)
        }
        Outcome::Moved(_) => {
            let config = core.config();
            let column = column_of(config.tasks, event);
            write!(text, "{outcome}")?;
            push_linux(linux, core, column, from, text)?;
            push_index_in(core, column, text)
        }
        _ => write!(text, "{outcome}"),
    }
}

/// Lays out an event and what came of it. `core` is the one that it led to, and `from` is where its task's call stood before it.
pub(crate) fn lay_cell(
    linux: bool,
    core: &Core,
    event: &Event,
    from: Option<Phase>,
    outcome: Outcome,
    text: &mut String,
) -> Result<(), AllocError>
    ensures { OnOk result (string_bytes text.new ≡ cell_text linux core.now event.now from outcome) }
{
    text.clear();
    write!(text, "{event}: ")?;
    push_outcome(linux, core, event, from, outcome, text)
}
