//! What a run may be asked for.
use hp_base::{File, Task};
use hp_core::Phase;
use hp_watch::CallWord;

/// The first word of an answer, as a replay prints it: its number, where it has one, doesn't matter.
#[derive(Clone, Copy, Debug, PartialEq, Eq)]
pub enum AnswerWord {
    Mapped,
    Word,
    Done,
    Segv,
    Beyond,
    NoFrame,
    NoQuota,
    NoMemory,
    Interrupted,
    Killed,
    BadFile,
    BadRange,
    NotMapped,
    NoAddress,
}

/// What Linux tells a program in place of some answers. It depends on the call.
#[derive(Clone, Copy, Debug, PartialEq, Eq)]
pub enum LinuxAnswer {
    Sigsegv,
    Sigbus,
    Enospc,
    Enomem,
    Eintr,
}

/// An answer, by its word or as Linux names it.
#[derive(Clone, Copy, Debug, PartialEq, Eq)]
pub enum AnswerName {
    Word(AnswerWord),
    Linux(LinuxAnswer),
}

/// Which of the calls of a task.
#[derive(Clone, Copy, Debug, PartialEq, Eq)]
pub enum CallChoice {
    Any,
    /// That of this number, counted from 1. A call that is refused when it is begun isn't counted.
    Number(u32),
    /// Each of this name.
    Named(CallWord),
}

/// A count of a pool.
#[derive(Clone, Copy, Debug, PartialEq, Eq)]
pub enum PoolCount {
    /// The reserve count.
    Resv,
    /// Free frames.
    Free,
    /// The used count.
    Used,
    /// Calls in flight.
    Calls,
    /// Reserved indices of a file. A file that the pool doesn't have has none.
    Reserved(File),
    /// Pages of a file. A file that the pool doesn't have has none.
    Pages(File),
}

/// How a count compares with a number.
#[derive(Clone, Copy, Debug, PartialEq, Eq)]
pub enum Relation {
    Below,
    AtMost,
    Equal,
    AtLeast,
    Above,
}

/// A count that compares so with a number.
#[derive(Clone, Copy, Debug, PartialEq, Eq)]
pub struct Comparison {
    pub count: PoolCount,
    pub relation: Relation,
    pub number: u32,
}

/// An answer that is sought.
#[derive(Clone, Copy, Debug, PartialEq, Eq)]
pub struct SoughtAnswer {
    /// Whose call it ends; that of any task where none is given.
    pub task: Option<Task>,
    pub call: CallChoice,
    pub name: AnswerName,
    /// How the pool is to stand behind the step that ends the call.
    pub counted: Option<Comparison>,
}

/// What is sought in a run. Of a task that the pool doesn't have nothing is found.
#[derive(Clone, Copy, Debug, PartialEq, Eq)]
pub enum Sought {
    /// A step ends a call with such an answer.
    Answer(SoughtAnswer),
    /// Behind some event the next step of the task's call is blocked by somebody; of any task's call where none is given.
    Blocked(Option<Task>),
    /// Behind some event both tasks' calls stand in these phases.
    Meet {
        task: Task,
        phase: Phase,
        other: Task,
        other_phase: Phase,
    },
    /// At the run's end the pool stands so.
    Final(Comparison),
}

/// What a run may be asked for.
#[derive(Clone, Copy, Debug, PartialEq, Eq)]
pub struct Condition {
    pub sought: Sought,
    /// Whether it is to be found, or not to be found.
    pub wanted: bool,
    /// Conditions with the same number are alternatives: one of them suffices.
    pub choice: u32,
}
