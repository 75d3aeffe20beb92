//! Calls, counts and waits, as keys and objects.
ghost use Rattle.std.specs.Prelude.{◌≡◌, ◌≤◌, ◌++◌, OnOk, length, string_bytes};
ghost use Rattle.hp_core.specs.Acquiring.{owed_by_of};
ghost use Rattle.hp_core.specs.Readers.{config_of, phase_of, quota_of};
ghost use Rattle.hp_explain.specs.JsonCalls.{at_key, awaited_keys, call_keys, call_keys_in, call_keys_of, comma_behind, count_keys, end_of_wait_object};
ghost use Rattle.hp_explain.specs.JsonCalls.{held_keys, holds_key, owes_key, slot_keys, used_key, wait_object, waits_key, waits_objects, wanted_keys, wants_key, with_wait};

use hp_base::{File, Index, Task};
use hp_core::{Acquired, Core, Holding, Phase};
use hp_slots::slot_number;
use std::alloc::AllocError;

/// Appends the slot of an index.
#[tactic(auto, unfolding(crate::specs::JsonCalls::slot_keys))]
fn push_slot(core: &Core, file: File, index: Index, text: &mut String) -> Result<(), AllocError>
    ensures { OnOk result (string_bytes text.new ≡ string_bytes text.old ++ slot_keys core.now file index) }
{
    let slot = slot_number(core.config().slots, file, index);
    write!(text, "\"slot\":{slot},\"file\":{file},\"index\":{index}")
}

/// Appends what a call holds.
#[tactic(auto, unfolding(crate::specs::JsonCalls::held_keys))]
fn push_held(core: &Core, holding: Holding, text: &mut String) -> Result<(), AllocError>
    ensures { OnOk result (string_bytes text.new ≡ string_bytes text.old ++ held_keys core.now holding.slot holding.lock) }
{
    let Holding { slot, lock } = holding;
    match (slot, lock) {
        (None, None) => Ok(()),
        (None, Some(file)) => write!(text, "\"lock\":{file}"),
        (Some((file, index)), None) => push_slot(core, file, index, text),
        (Some((file, index)), Some(locked)) => {
            push_slot(core, file, index, text)?;
            write!(text, ",\"lock\":{locked}")
        }
    }
}

/// Appends what its next step wants to take.
#[tactic(auto, unfolding(crate::specs::JsonCalls::wanted_keys))]
fn push_wanted(core: &Core, wanted: Acquired, text: &mut String) -> Result<(), AllocError>
    ensures { OnOk result (string_bytes text.new ≡ string_bytes text.old ++ wanted_keys core.now wanted) }
{
    match wanted {
        Acquired::Nothing => Ok(()),
        Acquired::Lock(file) => write!(text, "\"lock\":{file}"),
        Acquired::Slot(file, index) => push_slot(core, file, index, text),
    }
}

/// Appends the phase in which a call stands.
#[tactic(auto, unfolding(crate::specs::JsonCalls::at_key))]
fn push_at(phase: Phase, text: &mut String) -> Result<(), AllocError>
    ensures { OnOk result (string_bytes text.new ≡ string_bytes text.old ++ at_key phase) }
{
    write!(text, ",\"at\":\"{phase}\"")
}

/// Appends the key of what a call holds.
#[tactic(auto, unfolding(crate::specs::JsonCalls::holds_key))]
fn push_holds(core: &Core, holding: Holding, text: &mut String) -> Result<(), AllocError>
    ensures { OnOk result (string_bytes text.new ≡ string_bytes text.old ++ holds_key core.now holding) }
{
    text.push_str(",\"holds\":{")?;
    push_held(core, holding, text)?;
    text.push_str("}")
}

/// Appends the key of what its next step wants to take.
#[tactic(auto, unfolding(crate::specs::JsonCalls::wants_key))]
fn push_wants(core: &Core, wanted: Acquired, text: &mut String) -> Result<(), AllocError>
    ensures { OnOk result (string_bytes text.new ≡ string_bytes text.old ++ wants_key core.now wanted) }
{
    text.push_str(",\"wants\":{")?;
    push_wanted(core, wanted, text)?;
    text.push_str("}")
}

/// Appends what the task's call owes to the reserve count.
#[tactic(auto, unfolding(crate::specs::JsonCalls::owes_key))]
fn push_owes(core: &Core, task: Task, text: &mut String) -> Result<(), AllocError>
    requires first { 1 ≤ task }
    requires last { task ≤ (config_of core.now).tasks }
    ensures { OnOk result (string_bytes text.new ≡ string_bytes text.old ++ owes_key (owed_by_of core.now task)) }
{
    let owed = core.owed_by(task);
    write!(text, ",\"owes\":{owed}")
}

/// Appends where the task's call stands: its phase, what it holds, wants and owes.
#[tactic(auto, unfolding(crate::specs::JsonCalls::call_keys))]
fn push_standing(core: &Core, task: Task, phase: Phase, text: &mut String) -> Result<(), AllocError>
    requires first { 1 ≤ task }
    requires last { task ≤ (config_of core.now).tasks }
    ensures { OnOk result (string_bytes text.new ≡ string_bytes text.old ++ call_keys core.now task phase) }
{
    push_at(phase, text)?;
    push_holds(core, core.holding(task), text)?;
    push_wants(core, core.acquiring(task), text)?;
    push_owes(core, task, text)?;
    Ok(())
}

/// Appends the same, if a call of the task is in flight.
pub(crate) fn push_call(core: &Core, task: Task, text: &mut String) -> Result<(), AllocError>
    requires first { 1 ≤ task }
    requires last { task ≤ (config_of core.now).tasks }
    ensures { OnOk result (string_bytes text.new ≡ string_bytes text.old ++ call_keys_of core.now task) }
{
    match core.phase(task) {
        Some(phase) => push_standing(core, task, phase, text),
        None => Ok(()),
    }
}

/// Appends the same of the task in that column.
pub(crate) fn push_call_in(core: &Core, column: u32, text: &mut String) -> Result<(), AllocError>
    requires { column ≤ (config_of core.now).tasks }
    ensures { OnOk result (string_bytes text.new ≡ string_bytes text.old ++ call_keys_in core.now column) }
{
    if column == 0 {
        return Ok(());
    }
    push_call(core, Task::new(column), text)
}

/// Appends the used count, where the pool has a quota.
fn push_used(core: &Core, text: &mut String) -> Result<(), AllocError>
    ensures { OnOk result (string_bytes text.new ≡ string_bytes text.old ++ used_key (quota_of core.now) core.now) }
{
    match core.quota() {
        Some(_) => {
            let used = core.used();
            write!(text, ",\"used\":{used}")
        }
        None => Ok(()),
    }
}

/// Appends free frames, the reserve count, what is owed to it, and the used count.
#[tactic(auto, unfolding(crate::specs::JsonCalls::count_keys))]
pub(crate) fn push_counts(core: &Core, text: &mut String) -> Result<(), AllocError>
    ensures { OnOk result (string_bytes text.new ≡ string_bytes text.old ++ count_keys core.now) }
{
    let free = core.free();
    let resv = core.resv();
    let owed = core.owed();
    write!(text, ",\"free\":{free},\"resv\":{resv},\"owed\":{owed}")?;
    push_used(core, text)
}

/// Appends what a task waits for.
#[tactic(auto, unfolding(crate::specs::JsonCalls::awaited_keys))]
fn push_awaited(core: &Core, wanted: Acquired, text: &mut String) -> Result<(), AllocError>
    ensures { OnOk result (string_bytes text.new ≡ string_bytes text.old ++ awaited_keys core.now wanted) }
{
    match wanted {
        Acquired::Nothing => Ok(()),
        Acquired::Lock(file) => write!(text, ",\"lock\":{file}"),
        Acquired::Slot(file, index) => {
            text.push_str(",")?;
            push_slot(core, file, index, text)
        }
    }
}

/// Appends a comma, if something stands before it.
#[tactic(auto, unfolding(crate::specs::JsonCalls::comma_behind))]
fn push_comma_behind(text: &mut String) -> Result<(), AllocError>
    ensures { OnOk result (string_bytes text.new ≡ comma_behind (string_bytes text.old)) }
{
    if text.is_empty() {
        return Ok(());
    }
    text.push_str(",")
}

/// Appends the object of a wait that goes on, behind those of other tasks.
#[tactic(auto, unfolding(crate::specs::JsonCalls::wait_object))]
fn push_wait(core: &Core, task: Task, holder: Task, waits: &mut String) -> Result<(), AllocError>
    requires first { 1 ≤ task }
    requires last { task ≤ (config_of core.now).tasks }
    ensures { OnOk result (string_bytes waits.new ≡ comma_behind (string_bytes waits.old) ++ wait_object core.now task holder) }
{
    push_comma_behind(waits)?;
    write!(waits, "{{\"task\":{task},\"for\":{holder}")?;
    push_awaited(core, core.acquiring(task), waits)?;
    waits.push_str("}")
}

/// Appends the object of a wait that is over.
#[tactic(auto, unfolding(crate::specs::JsonCalls::end_of_wait_object))]
fn push_end_of_wait(task: Task, waits: &mut String) -> Result<(), AllocError>
    ensures { OnOk result (string_bytes waits.new ≡ comma_behind (string_bytes waits.old) ++ end_of_wait_object task) }
{
    push_comma_behind(waits)?;
    write!(waits, "{{\"task\":{task},\"for\":null}}")
}

/// Appends the object of a task's wait, where it began, changed or ended.
fn push_change(
    core: &Core,
    task: Task,
    before: Option<Task>,
    after: Option<Task>,
    waits: &mut String,
) -> Result<(), AllocError>
    requires first { 1 ≤ task }
    requires last { task ≤ (config_of core.now).tasks }
    ensures { OnOk result (string_bytes waits.new ≡ with_wait (string_bytes waits.old) core.now task before after) }
{
    match (before, after) {
        (None, None) => Ok(()),
        (Some(_), None) => push_end_of_wait(task, waits),
        (None, Some(holder)) => push_wait(core, task, holder, waits),
        (Some(earlier), Some(holder)) => {
            if earlier == holder {
                return Ok(());
            }
            push_wait(core, task, holder, waits)
        }
    }
}

/// Lays out the objects of the waits that the last event began, changed or ended.
fn lay_waits(
    core: &Core,
    before: &[Option<Task>],
    after: &[Option<Task>],
    waits: &mut String,
) -> Result<(), AllocError>
    requires before { length before.now ≡ (config_of core.now).tasks }
    requires after { length after.now ≡ (config_of core.now).tasks }
    ensures { OnOk result (string_bytes waits.new ≡ waits_objects core.now before.now after.now (config_of core.now).tasks) }
{
    waits.clear();
    let config = core.config();
    for number in 0..config.tasks {
        let place = number as usize;
        push_change(
            core,
            Task::new(number + 1),
            before[place],
            after[place],
            waits,
        )?;
    }
    Ok(())
}

/// Appends the key of these waits, if there are any.
#[tactic(auto, unfolding(crate::specs::JsonCalls::waits_key))]
fn push_waits_key(waits: &str, text: &mut String) -> Result<(), AllocError>
    ensures { OnOk result (string_bytes text.new ≡ string_bytes text.old ++ waits_key waits.now) }
{
    if waits.is_empty() {
        return Ok(());
    }
    write!(text, ",\"waits\":[{waits}]")
}

/// Appends the waits that the last event began, changed or ended, if there are any. `waits` is where they are laid out.
pub(crate) fn push_waits(
    core: &Core,
    before: &[Option<Task>],
    after: &[Option<Task>],
    waits: &mut String,
    text: &mut String,
) -> Result<(), AllocError>
    requires before { length before.now ≡ (config_of core.now).tasks }
    requires after { length after.now ≡ (config_of core.now).tasks }
    ensures { OnOk result (string_bytes text.new ≡ string_bytes text.old
        ++ waits_key (waits_objects core.now before.now after.now (config_of core.now).tasks)) }
{
    lay_waits(core, before, after, waits)?;
    push_waits_key(waits.as_str(), text)
}
