//! What a summary is told of one run.
use hp_explore::RunLine;
use hp_watch::EndedCall;

/// What a summary is told of one run.
#[derive(Debug, Drop)]
pub struct RunFacts {
    pub line: RunLine,
    /// The calls that ended, task by task, those of a task in the order in which they did.
    pub ended: Vec<EndedCall>,
    /// Of each task, from task 1 on, whether it was held up at some moment.
    pub held: Vec<bool>,
    /// Of each two phases, whether calls of two tasks stood in them at some moment.
    pub met: Vec<bool>,
}
