//! What the lines of a script say, in either of its forms.
use hp_base::{Config, Op, Task};

/// The two forms of a script.
#[derive(Clone, Copy, Debug, PartialEq, Eq)]
pub(crate) enum ScriptForm {
    /// Behind the word `pool`: calls alone, and so a trace.
    Plain,
    /// Behind the word `script`: calls that may wait.
    Waiting,
}

/// What a script begins with.
#[derive(Clone, Copy, Debug, PartialEq, Eq)]
pub(crate) struct ScriptHead {
    pub(crate) form: ScriptForm,
    pub(crate) config: Config,
}

/// A line behind the header.
#[derive(Clone, Copy, Debug, PartialEq, Eq)]
pub(crate) enum ScriptLine {
    /// The task makes this call.
    Call(Task, Op),
    /// The next call waits for the calls of this task that stand on earlier lines.
    After(Task),
}
