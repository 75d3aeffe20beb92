//! An outcome as numbers.
ghost use Rattle.std.specs.Prelude.{◌≡◌, ◌↔◌, IsTrue};
ghost use Rattle.hp_words.specs.Words.{IsHeldBack, answered, life_number, no_outcome, outcome_words, refusal_number};

use hp_base::Answer;
use hp_machine::{Life, Outcome, Refusal};
use hp_phases::phase_number;

/// What came of an event. `kind` says which outcome it is; `phase`, `task`, `answer`, `frames` or `refusal` what it names, and `page` or
/// `word` what its answer names. All else is 0.
#[repr(C)]
#[derive(Clone, Copy, Debug, PartialEq, Eq)]
pub struct OutcomeWords {
    pub word: u64,
    pub kind: u32,
    pub phase: u32,
    pub task: u32,
    pub answer: u32,
    pub page: u32,
    pub frames: u32,
    pub refusal: u32,
}

/// All of it 0, but for the kind.
fn no_outcome(kind: u32) -> OutcomeWords
    ensures { result ≡ no_outcome kind }
{
    OutcomeWords {
        word: 0,
        kind,
        phase: 0,
        task: 0,
        answer: 0,
        page: 0,
        frames: 0,
        refusal: 0,
    }
}

/// The number of a way to live, counted from 0.
pub fn life_number(life: Life) -> u32
    ensures { result ≡ life_number life }
{
    match life {
        Life::Alive => 0,
        Life::Killed => 1,
        Life::Dead => 2,
    }
}

fn refusal_number(refusal: Refusal) -> u32
    ensures { result ≡ refusal_number refusal }
{
    match refusal {
        Refusal::NotAlive => 1,
        Refusal::InCall => 2,
        Refusal::Idle => 3,
        Refusal::BadSize => 4,
    }
}

/// An answer that names nothing else.
fn answered(answer: u32) -> OutcomeWords
    ensures { result ≡ answered answer }
{
    OutcomeWords {
        answer,
        ..no_outcome(3)
    }
}

fn answer_words(answer: Answer) -> OutcomeWords
    ensures { result ≡ outcome_words (Outcome.Ended answer) }
{
    match answer {
        Answer::Mapped(base) => OutcomeWords {
            page: base.number(),
            ..answered(1)
        },
        Answer::Word(word) => OutcomeWords {
            word,
            ..answered(2)
        },
        Answer::Done => answered(3),
        Answer::Segv => answered(4),
        Answer::Beyond => answered(5),
        Answer::NoFrame => answered(6),
        Answer::NoQuota => answered(7),
        Answer::NoMemory => answered(8),
        Answer::Interrupted => answered(9),
        Answer::Killed => answered(10),
        Answer::BadFile => answered(11),
        Answer::BadRange => answered(12),
        Answer::NotMapped => answered(13),
        Answer::NoAddress => answered(14),
    }
}

impl OutcomeWords {
    /// The outcome in numbers.
    pub fn of(outcome: Outcome) -> OutcomeWords
        ensures { result ≡ outcome_words outcome }
    {
        match outcome {
            Outcome::Begun => no_outcome(0),
            Outcome::Moved(phase) => OutcomeWords {
                phase: phase_number(phase),
                ..no_outcome(1)
            },
            Outcome::Blocked(task) => OutcomeWords {
                task: task.number(),
                ..no_outcome(2)
            },
            Outcome::Ended(answer) => answer_words(answer),
            Outcome::Marked => no_outcome(4),
            Outcome::Resized(frames) => OutcomeWords {
                frames,
                ..no_outcome(5)
            },
            Outcome::Refused(refusal) => OutcomeWords {
                refusal: refusal_number(refusal),
                ..no_outcome(6)
            },
        }
    }

    /// Whether nothing changed: the step was blocked, or the event refused.
    pub fn is_held_back(&self) -> bool
        ensures { IsTrue result ↔ IsHeldBack self.now }
    {
        self.kind == 2 || self.kind == 6
    }
}
