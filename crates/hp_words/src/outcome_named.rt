//! The outcome that numbers name.
ghost use Rattle.std.specs.Prelude.{◌≡◌};
ghost use Rattle.std.specs.Option.{option_map};
ghost use Rattle.hp_words.specs.Words.{answer_named, outcome_named, phase_numbered, refusal_numbered};

use crate::outcome_words::OutcomeWords;
use hp_base::{Answer, Task, Vpn};
use hp_machine::{Outcome, Phase, Refusal};
use hp_phases::phase_at;

/// The phase of that number, counted from 1.
fn phase_numbered(number: u32) -> Option<Phase>
    ensures { result ≡ phase_numbered number }
{
    if number >= 1 && number <= 27 {
        Some(phase_at(number as usize - 1))
    } else {
        None
    }
}

fn refusal_numbered(number: u32) -> Option<Refusal>
    ensures { result ≡ refusal_numbered number }
{
    match number {
        1 => Some(Refusal::NotAlive),
        2 => Some(Refusal::InCall),
        3 => Some(Refusal::Idle),
        4 => Some(Refusal::BadSize),
        _ => None,
    }
}

impl OutcomeWords {
    fn answer(&self) -> Option<Answer>
        ensures { result ≡ answer_named self.now }
    {
        match self.answer {
            1 => Some(Answer::Mapped(Vpn::new(self.page))),
            2 => Some(Answer::Word(self.word)),
            3 => Some(Answer::Done),
            4 => Some(Answer::Segv),
            5 => Some(Answer::Beyond),
            6 => Some(Answer::NoFrame),
            7 => Some(Answer::NoQuota),
            8 => Some(Answer::NoMemory),
            9 => Some(Answer::Interrupted),
            10 => Some(Answer::Killed),
            11 => Some(Answer::BadFile),
            12 => Some(Answer::BadRange),
            13 => Some(Answer::NotMapped),
            14 => Some(Answer::NoAddress),
            _ => None,
        }
    }

    fn ended(&self) -> Option<Outcome>
        ensures { result ≡ option_map Outcome.Ended (answer_named self.now) }
    {
        Some(Outcome::Ended(self.answer()?))
    }

    /// The outcome that the numbers name, if they name one. Those that it doesn't name aren't looked at.
    pub fn outcome(&self) -> Option<Outcome>
        ensures { result ≡ outcome_named self.now }
    {
        match self.kind {
            0 => Some(Outcome::Begun),
            1 => Some(Outcome::Moved(phase_numbered(self.phase)?)),
            2 => Some(Outcome::Blocked(Task::new(self.task))),
            3 => self.ended(),
            4 => Some(Outcome::Marked),
            5 => Some(Outcome::Resized(self.frames)),
            6 => Some(Outcome::Refused(refusal_numbered(self.refusal)?)),
            _ => None,
        }
    }
}
