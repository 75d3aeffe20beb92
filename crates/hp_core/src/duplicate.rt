//! A copy of a core at rest.
ghost use Rattle.std.specs.Prelude.{◌≡◌, IfOk, None, All};
ghost use Rattle.std.specs.List.{AllZip};
ghost use Rattle.hp_core.specs.Duplicates.{IsSameFile, IsSameTable};
ghost use Rattle.hp_core.specs.Readers.{calls_of, config_of};
ghost use Rattle.hp_core.specs.State.{as_state};

use crate::core_state::Core;
use crate::task_state::TaskState;
use hp_parts::{FileState, Parts};
use hp_table::Space;
use std::alloc::{AllocError, Global};

// The same files, none of whose maps is being changed.
fn copy_files(alloc: Global, files: &[FileState]) -> Result<Vec<FileState>, AllocError>
    requires { All (λ file. file.map.pending ≡ 0) files.now }
    ensures { IfOk result (λ copies. AllZip IsSameFile files.now copies.items) }
{
    let mut copies = Vec::with_capacity(alloc, files.len())?;
    for file in files {
        copies.push(FileState {
            size: file.size,
            map: file.map.copy(alloc)?,
            cache: file.cache.copy(alloc)?,
        })?;
    }
    Ok(copies)
}

// The same space, with capacity prepared where it is prepared there.
fn copy_space(alloc: Global, space: &Space) -> Result<Space, AllocError>
    ensures { IfOk result (λ copy. IsSameTable space.now copy) }
{
    let mut copy = space.copy(alloc)?;
    if space.ready() {
        copy.prepare()?;
    }
    Ok(copy)
}

// The same spaces.
fn copy_spaces(alloc: Global, spaces: &[Space]) -> Result<Vec<Space>, AllocError>
    ensures { IfOk result (λ copies. AllZip IsSameTable spaces.now copies.items) }
{
    let mut copies = Vec::with_capacity(alloc, spaces.len())?;
    for space in spaces {
        copies.push(copy_space(alloc, space)?)?;
    }
    Ok(copies)
}

// The same task states, none of which has a call.
fn copy_task_states(alloc: Global, task_states: &[TaskState]) -> Result<Vec<TaskState>, AllocError>
    requires { All (λ task_state. task_state.call ≡ None) task_states.now }
    ensures { IfOk result (λ copies. copies.items ≡ task_states.now) }
{
    let mut copies = Vec::with_capacity(alloc, task_states.len())?;
    for task_state in task_states {
        copies.push(TaskState {
            life: task_state.life,
            call: None,
        })?;
    }
    Ok(copies)
}

impl Core {
    /// Copies the pool into memory of its own: whatever happens to one of the two from here on, the other doesn't see
    /// it. A running pool whose journal is cut keeps the core of its last cut so, to compare histories from there on.
    /// No call may be in flight, since what a call holds could be given back to only one of the two.
    pub fn copy(&self, alloc: Global) -> Result<Core, AllocError>
        requires { calls_of self.now ≡ 0 }

        // Frames, words, reserve maps, pages, mappings, translations, lives and counts are the same.
        ensures state { IfOk result (λ copy. as_state copy ≡ as_state self.now) }
        ensures config { IfOk result (λ copy. config_of copy ≡ config_of self.now) }
    {
        hp_laws::a_pool_at_rest_holds_nothing();
        let parts = Parts {
            bank: self.parts.bank.copy(alloc)?,
            files: copy_files(alloc, &self.parts.files)?,
            slots: self.parts.slots.copy(alloc)?,
            locks: self.parts.locks.copy(alloc)?,
            spaces: copy_spaces(alloc, &self.parts.spaces)?,
        };
        let task_states = copy_task_states(alloc, &self.task_states)?;
        Ok(Core {
            config: self.config,
            parts,
            task_states,
        })
    }
}
