//! What is told where it changes whom a task waits for.
ghost use Rattle.std.specs.Prelude.{◌≡◌, ◌≤◌, ◌++◌, OnOk, length, string_bytes};
ghost use Rattle.hp_core.specs.Readers.{config_of};
ghost use Rattle.hp_explain.specs.Waits.{change_text, changes_text, end_of_wait_text, lead, wait_text};

use crate::words::push_acquired;
use hp_base::Task;
use hp_core::Core;
use std::alloc::AllocError;

/// Appends that the task waits for a holder now, and what for.
fn push_wait(core: &Core, task: Task, holder: Task, row: &mut String) -> Result<(), AllocError>
    requires first { 1 ≤ task }
    requires last { task ≤ (config_of core.now).tasks }
    ensures { OnOk result (string_bytes row.new ≡ string_bytes row.old ++ wait_text core.now task holder) }
{
    let wanted = core.acquiring(task);
    write!(row, "task {task} waits for {holder}: ")?;
    push_acquired(core, wanted, row)
}

/// Appends what stands before each change: two spaces, or a line of its own.
fn push_lead(compact: bool, row: &mut String) -> Result<(), AllocError>
    ensures { OnOk result (string_bytes row.new ≡ string_bytes row.old ++ lead compact) }
{
    if compact {
        return row.push_str("\n         ");
    }
    row.push_str("  ")
}

/// Appends that the task waits for nobody any more.
fn push_end_of_wait(task: Task, row: &mut String) -> Result<(), AllocError>
    ensures { OnOk result (string_bytes row.new ≡ string_bytes row.old ++ end_of_wait_text task) }
{
    write!(row, "task {task} waits no more")
}

/// Appends what is told of a task where its wait began, changed or ended.
fn push_change(
    compact: bool,
    core: &Core,
    task: Task,
    before: Option<Task>,
    after: Option<Task>,
    row: &mut String,
) -> Result<(), AllocError>
    requires first { 1 ≤ task }
    requires last { task ≤ (config_of core.now).tasks }
    ensures { OnOk result (string_bytes row.new ≡ string_bytes row.old ++ change_text compact core.now task before after) }
{
    match (before, after) {
        (None, None) => Ok(()),
        (Some(_), None) => {
            push_lead(compact, row)?;
            push_end_of_wait(task, row)
        }
        (None, Some(holder)) => {
            push_lead(compact, row)?;
            push_wait(core, task, holder, row)
        }
        (Some(earlier), Some(holder)) => {
            if earlier == holder {
                return Ok(());
            }
            push_lead(compact, row)?;
            push_wait(core, task, holder, row)
        }
    }
}

/// Appends what is told of each task whose wait began, changed or ended by the last event.
pub(crate) fn push_changes(
    compact: bool,
    core: &Core,
    before: &[Option<Task>],
    after: &[Option<Task>],
    row: &mut String,
) -> Result<(), AllocError>
    requires before { length before.now ≡ (config_of core.now).tasks }
    requires after { length after.now ≡ (config_of core.now).tasks }
    ensures { OnOk result (string_bytes row.new
        ≡ string_bytes row.old ++ changes_text compact core.now before.now after.now (config_of core.now).tasks) }
{
    let config = core.config();
    for number in 0..config.tasks {
        let place = number as usize;
        push_change(
            compact,
            core,
            Task::new(number + 1),
            before[place],
            after[place],
            row,
        )?;
    }
    Ok(())
}
