//! A turn of a schedule, as a search keeps it.
ghost use Rattle.std.specs.Prelude.{◌≡◌};
ghost use Rattle.hp_every.specs.Turns.{task_of};

/// A turn of a schedule, in two bytes. What it asks the core for, the place tells in which it is made.
#[derive(Clone, Copy, Debug, PartialEq, Eq)]
pub enum Turn {
    /// The task goes on: it begins its next call, or its call makes a step, which is granted.
    Next(u8),
    /// The task's call makes a step that wants memory, and that is denied.
    Denied(u8),
    /// The task is killed.
    Killed(u8),
}

impl Turn {
    /// The task whose turn it is.
    pub fn task(self) -> u32
        ensures { result ≡ task_of self }
    {
        match self {
            Turn::Next(task) | Turn::Denied(task) | Turn::Killed(task) => u32::from(task),
        }
    }
}
