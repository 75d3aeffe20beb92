//! The object of the state at the end of a run.
ghost use Rattle.std.specs.Prelude.{◌≡◌, ◌≤◌, ◌<◌, ◌++◌, OnOk, string_bytes};
ghost use Rattle.hp_core.specs.Readers.{config_of};
ghost use Rattle.hp_explain.specs.JsonObjects.{calls_key, comma_before, end_object, file_keys, file_object, files_key, files_objects, page_keys};
ghost use Rattle.hp_explain.specs.JsonObjects.{task_keys, task_object, tasks_key, tasks_objects};

use crate::json_calls::{push_call, push_counts};
use hp_base::{File, Task};
use hp_core::Core;
use std::alloc::AllocError;

/// Appends a comma before all but the first.
fn push_comma_before(number: u32, text: &mut String) -> Result<(), AllocError>
    ensures { OnOk result (string_bytes text.new ≡ string_bytes text.old ++ comma_before number) }
{
    if number == 0 {
        return Ok(());
    }
    text.push_str(",")
}

/// Appends the size of a file and what is reserved of it.
#[tactic(auto, unfolding(crate::specs::JsonObjects::file_keys))]
fn push_file_keys(core: &Core, file: File, text: &mut String) -> Result<(), AllocError>
    requires { file < (config_of core.now).files }
    ensures { OnOk result (string_bytes text.new ≡ string_bytes text.old ++ file_keys core.now file) }
{
    let size = core.size(file);
    let reserved = core.reserved(file);
    let regions = core.regions(file);
    write!(
        text,
        "\"file\":{file},\"size\":{size},\"reserved\":{reserved},\"regions\":{regions}"
    )
}

/// Appends its pages, and the changes and spare descriptors of its reserve map.
#[tactic(auto, unfolding(crate::specs::JsonObjects::page_keys))]
fn push_page_keys(core: &Core, file: File, text: &mut String) -> Result<(), AllocError>
    requires { file < (config_of core.now).files }
    ensures { OnOk result (string_bytes text.new ≡ string_bytes text.old ++ page_keys core.now file) }
{
    let pages = core.pages(file);
    let changes = core.changes(file);
    let spare = core.spare(file);
    write!(
        text,
        ",\"pages\":{pages},\"changes\":{changes},\"spare\":{spare}"
    )
}

/// Appends the object of a file.
#[tactic(auto, unfolding(crate::specs::JsonObjects::file_object))]
fn push_file(core: &Core, file: File, text: &mut String) -> Result<(), AllocError>
    requires { file < (config_of core.now).files }
    ensures { OnOk result (string_bytes text.new ≡ string_bytes text.old ++ file_object core.now file) }
{
    text.push_str("{")?;
    push_file_keys(core, file, text)?;
    push_page_keys(core, file, text)?;
    text.push_str("}")?;
    Ok(())
}

/// Appends what is told of a task without its call.
#[tactic(auto, unfolding(crate::specs::JsonObjects::task_keys))]
fn push_task_keys(core: &Core, task: Task, text: &mut String) -> Result<(), AllocError>
    requires first { 1 ≤ task }
    requires last { task ≤ (config_of core.now).tasks }
    ensures { OnOk result (string_bytes text.new ≡ string_bytes text.old ++ task_keys core.now task) }
{
    let life = core.life(task);
    let mappings = core.mappings(task);
    let entries = core.entries(task);
    write!(
        text,
        "\"task\":{task},\"life\":\"{life}\",\"mappings\":{mappings},\"entries\":{entries}"
    )
}

/// Appends the object of a task.
#[tactic(auto, unfolding(crate::specs::JsonObjects::task_object))]
fn push_task(core: &Core, task: Task, text: &mut String) -> Result<(), AllocError>
    requires first { 1 ≤ task }
    requires last { task ≤ (config_of core.now).tasks }
    ensures { OnOk result (string_bytes text.new ≡ string_bytes text.old ++ task_object core.now task) }
{
    text.push_str("{")?;
    push_task_keys(core, task, text)?;
    push_call(core, task, text)?;
    text.push_str("}")?;
    Ok(())
}

/// Appends the objects of the first files.
fn push_files(core: &Core, files: u32, text: &mut String) -> Result<(), AllocError>
    requires { files ≤ (config_of core.now).files }
    ensures { OnOk result (string_bytes text.new ≡ string_bytes text.old ++ files_objects core.now files) }
{
    for file in 0..files {
        push_comma_before(file, text)?;
        push_file(core, File::new(file), text)?;
    }
    Ok(())
}

/// Appends the objects of the first tasks.
fn push_tasks(core: &Core, tasks: u32, text: &mut String) -> Result<(), AllocError>
    requires { tasks ≤ (config_of core.now).tasks }
    ensures { OnOk result (string_bytes text.new ≡ string_bytes text.old ++ tasks_objects core.now tasks) }
{
    for task in 0..tasks {
        push_comma_before(task, text)?;
        push_task(core, Task::new(task + 1), text)?;
    }
    Ok(())
}

/// Appends how many calls are in flight.
#[tactic(auto, unfolding(crate::specs::JsonObjects::calls_key))]
fn push_calls(core: &Core, text: &mut String) -> Result<(), AllocError>
    ensures { OnOk result (string_bytes text.new ≡ string_bytes text.old ++ calls_key core.now) }
{
    let calls = core.calls();
    write!(text, "\"calls\":{calls}")
}

/// Appends the key of the files.
#[tactic(auto, unfolding(crate::specs::JsonObjects::files_key))]
fn push_files_key(core: &Core, text: &mut String) -> Result<(), AllocError>
    ensures { OnOk result (string_bytes text.new ≡ string_bytes text.old ++ files_key core.now) }
{
    let config = core.config();
    text.push_str(",\"files\":[")?;
    push_files(core, config.files, text)?;
    text.push_str("]")
}

/// Appends the key of the tasks.
#[tactic(auto, unfolding(crate::specs::JsonObjects::tasks_key))]
fn push_tasks_key(core: &Core, text: &mut String) -> Result<(), AllocError>
    ensures { OnOk result (string_bytes text.new ≡ string_bytes text.old ++ tasks_key core.now) }
{
    let config = core.config();
    text.push_str(",\"tasks\":[")?;
    push_tasks(core, config.tasks, text)?;
    text.push_str("]")
}

/// Lays out the object of the state.
#[tactic(auto, unfolding(crate::specs::JsonObjects::end_object))]
pub(crate) fn lay_end(core: &Core, text: &mut String) -> Result<(), AllocError>
    ensures { OnOk result (string_bytes text.new ≡ end_object core.now) }
{
    text.clear();
    text.push_str("{\"end\":{")?;
    push_calls(core, text)?;
    push_counts(core, text)?;
    push_files_key(core, text)?;
    push_tasks_key(core, text)?;
    text.push_str("}}\n")?;
    Ok(())
}
