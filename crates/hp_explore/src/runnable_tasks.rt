//! The tasks that may take a turn.
ghost use Rattle.std.specs.Prelude.{◌≡◌, ◌<◌, ◌≤◌, ◌++◌, ◌∷◌, ◌==◌, if◌then◌else◌, [], length, slice_index};

use crate::remainders::MOST_TASKS;
use std::marker::Model;

/// Tasks, in the order in which they were listed. As many find room as a pool can have, in a byte each.
#[derive(Drop)]
pub(crate) struct RunnableTasks {
    tasks: [u8; MOST_TASKS],
    len: usize,
}

impl Model for RunnableTasks {
    ghost use Rattle.std.specs.Prelude.{ℕ, List, take, ◌≤◌};

    ghost Value = { List ℕ };

    ghost view = { λ r. take r.len r.tasks };

    ghost invariant = { λ r. r.len ≤ 64 };
}

impl RunnableTasks {
    pub(crate) fn new() -> Self
        ensures { result ≡ [] }
    {
        RunnableTasks {
            tasks: [0; MOST_TASKS],
            len: 0,
        }
    }

    pub(crate) fn copy(&self) -> Self
        ensures { result ≡ self.now }
    {
        RunnableTasks {
            tasks: self.tasks,
            len: self.len,
        }
    }

    pub(crate) fn clear(&mut self)
        ensures { self.new ≡ [] }
    {
        self.len = 0;
    }

    /// Lists a task, if it can take a turn. Which it is can't be foretold, so there is no branch.
    #[inline(always)]
    pub(crate) fn push_if(&mut self, task: u32, can: bool)
        requires room { length self.old < 64 }
        requires task { task < 256 }
        ensures { self.new ≡ (if can then self.old ++ task ∷ [] else self.old) }
    {
        self.tasks[self.len] = task as u8;
        self.len += usize::from(can);
    }

    pub(crate) fn is_empty(&self) -> bool
        ensures { result ≡ (length self.now == 0) }
    {
        self.len == 0
    }

    pub(crate) fn len(&self) -> u32
        ensures len { result ≡ length self.now }
        ensures few { result ≤ 64 }
    {
        self.len as u32
    }

    pub(crate) fn at(&self, place: u32) -> u32
        requires { place < length self.now }
        ensures task { result ≡ slice_index self.now place }
        ensures small { result < 256 }
    {
        u32::from(self.tasks[place as usize])
    }
}
