//! The lines that tell a pool's state.
ghost use Rattle.std.specs.Prelude.{◌≡◌, ◌<◌, ◌≤◌, ◌++◌, OnOk, string_bytes};
ghost use Rattle.hp_core.specs.Readers.{config_of};
ghost use Rattle.hp_replay.specs.Outcomes.{pool_line, file_line, task_line, files_text, tasks_text, state_text};

use hp_base::{File, Task};
use hp_core::Core;
use std::alloc::AllocError;

fn push_pool(core: &Core, text: &mut String) -> Result<(), AllocError>
    ensures { OnOk result (string_bytes text.new ≡ string_bytes text.old ++ pool_line core.now) }
{
    let free = core.free();
    let resv = core.resv();
    let calls = core.calls();
    if core.quota().is_none() {
        return writeln!(text, "free {free} resv {resv} calls {calls}");
    }
    let used = core.used();
    writeln!(text, "free {free} resv {resv} calls {calls} used {used}")
}

fn push_file(core: &Core, file: File, text: &mut String) -> Result<(), AllocError>
    requires { file < (config_of core.now).files }
    ensures { OnOk result (string_bytes text.new ≡ string_bytes text.old ++ file_line core.now file) }
{
    let size = core.size(file);
    let reserved = core.reserved(file);
    let regions = core.regions(file);
    let pages = core.pages(file);
    let changes = core.changes(file);
    let spare = core.spare(file);
    writeln!(
        text,
        "file {file} size {size} reserved {reserved} regions {regions} pages {pages} changes {changes} spare {spare}"
    )
}

fn push_task(core: &Core, task: Task, text: &mut String) -> Result<(), AllocError>
    requires first { 1 ≤ task }
    requires last { task ≤ (config_of core.now).tasks }
    ensures { OnOk result (string_bytes text.new ≡ string_bytes text.old ++ task_line core.now task) }
{
    let life = core.life(task);
    let mappings = core.mappings(task);
    let entries = core.entries(task);
    writeln!(
        text,
        "task {task} {life} mappings {mappings} entries {entries}"
    )
}

fn push_files(core: &Core, files: u32, text: &mut String) -> Result<(), AllocError>
    requires { files ≤ (config_of core.now).files }
    ensures { OnOk result (string_bytes text.new ≡ string_bytes text.old ++ files_text core.now files) }
{
    for file in 0..files {
        push_file(core, File::new(file), text)?;
    }
    Ok(())
}

fn push_tasks(core: &Core, tasks: u32, text: &mut String) -> Result<(), AllocError>
    requires { tasks ≤ (config_of core.now).tasks }
    ensures { OnOk result (string_bytes text.new ≡ string_bytes text.old ++ tasks_text core.now tasks) }
{
    for task in 0..tasks {
        push_task(core, Task::new(task + 1), text)?;
    }
    Ok(())
}

/// Appends the pool's line, one for each file, and one for each task.
pub fn push_state(core: &Core, text: &mut String) -> Result<(), AllocError>
    ensures { OnOk result (string_bytes text.new ≡ string_bytes text.old ++ state_text core.now) }
{
    let config = core.config();
    push_pool(core, text)?;
    push_files(core, config.files, text)?;
    push_tasks(core, config.tasks, text)
}
