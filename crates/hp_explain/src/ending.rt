//! What stands at the end of a run: the calls in flight, and the state.
ghost use Rattle.std.specs.Prelude.{◌≡◌, ◌≤◌, ◌++◌, OnOk, IfErr, string_bytes};
ghost use Rattle.hp_core.specs.Readers.{config_of, phase_of};
ghost use Rattle.hp_explain.specs.Rows.{calls_text, end_text, holding_text, if_in_flight, in_flight_text};
ghost use Rattle.hp_text.specs.Streams.{TellsWrites};
ghost use Rattle.hp_text.specs.Writing.{IsWriteFault, Wrote};
ghost use Rattle.std.specs.Io.KnownBytes.{Appends};

use crate::words::{push_acquired, push_slot};
use hp_base::Task;
use hp_core::{Core, Holding, Phase};
use hp_replay::push_state;
use hp_text::{ReplayFault, Sink, write_text};
use std::alloc::AllocError;

/// Appends what a call holds.
fn push_holding(core: &Core, holding: Holding, text: &mut String) -> Result<(), AllocError>
    ensures { OnOk result (string_bytes text.new ≡ string_bytes text.old ++ holding_text core.now holding) }
{
    let Holding { slot, lock } = holding;
    let Some(file) = lock else {
        return match slot {
            Some((file, index)) => push_slot(core, file, index, text),
            None => text.push_str("nothing"),
        };
    };
    write!(text, "lock of file {file}")?;
    match slot {
        Some((file, index)) => {
            text.push_str(" and ")?;
            push_slot(core, file, index, text)
        }
        None => Ok(()),
    }
}

/// Appends the line of a call in flight.
fn push_call(core: &Core, task: Task, phase: Phase, text: &mut String) -> Result<(), AllocError>
    requires first { 1 ≤ task }
    requires last { task ≤ (config_of core.now).tasks }
    ensures { OnOk result (string_bytes text.new ≡ string_bytes text.old ++ in_flight_text core.now task phase) }
{
    write!(text, "task {task} is at {phase}: holds ")?;
    push_holding(core, core.holding(task), text)?;
    text.push_str(", wants ")?;
    push_acquired(core, core.acquiring(task), text)?;
    let owed = core.owed_by(task);
    writeln!(text, ", owes {owed}")
}

/// Appends the line of the task's call, if one is in flight.
fn push_task(core: &Core, task: Task, text: &mut String) -> Result<(), AllocError>
    requires first { 1 ≤ task }
    requires last { task ≤ (config_of core.now).tasks }
    ensures { OnOk result (string_bytes text.new
        ≡ string_bytes text.old ++ if_in_flight core.now task (phase_of core.now task)) }
{
    match core.phase(task) {
        Some(phase) => push_call(core, task, phase, text),
        None => Ok(()),
    }
}

/// Appends the lines of the calls in flight of the first tasks.
fn push_calls(core: &Core, tasks: u32, text: &mut String) -> Result<(), AllocError>
    requires { tasks ≤ (config_of core.now).tasks }
    ensures { OnOk result (string_bytes text.new ≡ string_bytes text.old ++ calls_text core.now tasks) }
{
    for task in 0..tasks {
        push_task(core, Task::new(task + 1), text)?;
    }
    Ok(())
}

fn lay_end(core: &Core, text: &mut String) -> Result<(), AllocError>
    ensures { OnOk result (string_bytes text.new ≡ end_text core.now) }
{
    text.clear();
    let config = core.config();
    push_calls(core, config.tasks, text)?;
    push_state(core, text)
}

/// Writes a line for each call in flight, and those of the state.
pub(crate) fn write_end<W: Sink>(
    core: &Core,
    text: &mut String,
    writer: &mut W,
) -> Result<(), ReplayFault>
    ensures ok { OnOk result (Appends (W.contents writer.old) (W.contents writer.new) (end_text core.now)) }
    ensures err { IfErr result (λ fault. IsWriteFault fault
        × Wrote (W.contents writer.old) (W.contents writer.new) (end_text core.now)) }
    ensures writes { TellsWrites result (W.failures writer.old) (W.failures writer.new) }
{
    lay_end(core, text)?;
    write_text(writer, text.as_bytes())
}
