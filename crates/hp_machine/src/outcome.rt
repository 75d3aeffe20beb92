//! What comes of an event, and how a task lives.
ghost use Rattle.std.specs.Prelude.{Some};
ghost use Rattle.hp_machine.specs.Text.{life_word, outcome_text, refusal_word};

use crate::phase::Phase;
use hp_base::{Answer, Task};
use std::fmt;

/// Why an event was refused. A refused event changes nothing.
#[derive(Clone, Copy, Debug, PartialEq, Eq)]
pub enum Refusal {
    /// No such task, or it is dead, or killed where only a living one may go on.
    NotAlive,
    /// The task has a call in flight.
    InCall,
    /// The task has no call in flight.
    Idle,
    /// A pool has 1 to 4,096 frames.
    BadSize,
}

/// What came of an event.
#[derive(Clone, Copy, Debug, PartialEq, Eq)]
pub enum Outcome {
    /// The call is in flight.
    Begun,
    /// The call stands in that phase now.
    Moved(Phase),
    /// Nothing changed: that task holds what the step wants.
    Blocked(Task),
    /// The call is over.
    Ended(Answer),
    /// The task is killed.
    Marked,
    /// So many frames aren't retired now.
    Resized(u32),
    Refused(Refusal),
}

/// How a task lives. One that is killed goes on until its call notices, and may then only exit.
#[derive(Clone, Copy, Debug, PartialEq, Eq)]
pub enum Life {
    Alive,
    Killed,
    Dead,
}

impl fmt::Display for Refusal {
    ghost output = { λ refusal. Some (refusal_word refusal) };

    fn fmt<W: fmt::Write>(&self, f: &mut fmt::Formatter<W>) -> fmt::Result {
        f.write_str(match self {
            Refusal::NotAlive => "notalive",
            Refusal::InCall => "incall",
            Refusal::Idle => "idle",
            Refusal::BadSize => "badsize",
        })
    }
}

/// The outcome's line in the text of a run, without its end, as `blocked 2`.
impl fmt::Display for Outcome {
    ghost output = { λ outcome. Some (outcome_text outcome) };

    fn fmt<W: fmt::Write>(&self, f: &mut fmt::Formatter<W>) -> fmt::Result {
        match self {
            Outcome::Begun => write!(f, "begun"),
            Outcome::Moved(phase) => write!(f, "moved {phase}"),
            Outcome::Blocked(task) => write!(f, "blocked {task}"),
            Outcome::Ended(answer) => write!(f, "ended {answer}"),
            Outcome::Marked => write!(f, "marked"),
            Outcome::Resized(frames) => write!(f, "resized {frames}"),
            Outcome::Refused(refusal) => write!(f, "refused {refusal}"),
        }
    }
}

impl fmt::Display for Life {
    ghost output = { λ life. Some (life_word life) };

    fn fmt<W: fmt::Write>(&self, f: &mut fmt::Formatter<W>) -> fmt::Result {
        f.write_str(match self {
            Life::Alive => "alive",
            Life::Killed => "killed",
            Life::Dead => "dead",
        })
    }
}
