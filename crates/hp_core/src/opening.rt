//! The parts and task states of a pool that nothing has happened to.
ghost use Rattle.std.specs.Prelude.{◌≡◌, IfOk, All, length};
ghost use Rattle.hp_core.specs.Opening.{IsFresh, IsVacant};
ghost use Rattle.hp_core.specs.State.{CoreState};
ghost use Rattle.hp_parts.specs.View.{no_table};

use crate::task_state::TaskState;
use hp_chunks::PageCache;
use hp_machine::Life;
use hp_parts::FileState;
use hp_region::RegionMap;
use hp_table::Space;
use std::alloc::{AllocError, Global};

/// So many files, all empty.
pub fn new_files(alloc: Global, count: u32) -> Result<Vec<FileState>, AllocError>
    ensures count { IfOk result (λ files. length files.items ≡ count) }
    ensures fresh { IfOk result (λ files. All IsFresh files.items) }
{
    let mut files = Vec::new(alloc);
    for _ in 0..count {
        files.push(FileState {
            size: 0,
            map: RegionMap::new(alloc),
            cache: PageCache::new(alloc),
        })?;
    }
    Ok(files)
}

/// So many spaces, each with no mapping.
pub fn new_spaces(alloc: Global, count: u32) -> Result<Vec<Space>, AllocError>
    ensures count { IfOk result (λ spaces. length spaces.items ≡ count) }
    ensures fresh { IfOk result (λ spaces. All (λ table. table ≡ no_table) spaces.items) }
{
    let mut spaces = Vec::new(alloc);
    for _ in 0..count {
        spaces.push(Space::new(alloc))?;
    }
    Ok(spaces)
}

/// So many task states, each of a task that is alive and has no call.
pub fn new_task_states(alloc: Global, count: u32) -> Result<Vec<TaskState>, AllocError>
    ensures count { IfOk result (λ task_states. length task_states.items ≡ count) }
    ensures fresh { IfOk result (λ task_states. All IsVacant task_states.items) }
{
    let mut task_states = Vec::new(alloc);
    for _ in 0..count {
        task_states.push(TaskState {
            life: Life::Alive,
            call: None,
        })?;
    }
    Ok(task_states)
}
