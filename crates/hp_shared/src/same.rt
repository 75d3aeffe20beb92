//! When two events are one and the same, two outcomes, and two pools' sizes.
ghost use Rattle.std.specs.Bool.{Decides};
ghost use Rattle.std.specs.Prelude.{◌≡◌, MatchBool};
ghost use Rattle.hp_base.specs.Text.{sizes};

use crate::entry::Entry;
use hp_base::{Answer, Config, Event, Op};
use hp_machine::{Outcome, Phase, Refusal};

fn same_op(a: Op, b: Op) -> bool
    ensures { Decides result (a ≡ b) }
{
    a == b
}

fn same_event(a: &Event, b: &Event) -> bool
    ensures { Decides result (a.now ≡ b.now) }
{
    match a {
        Event::Begin(task, op) => match b {
            Event::Begin(other, wanted) => task.number() == other.number() && same_op(*op, *wanted),
            _ => false,
        },
        Event::Step(task, grant) => match b {
            Event::Step(other, granted) => task.number() == other.number() && *grant == *granted,
            _ => false,
        },
        Event::Kill(task) => match b {
            Event::Kill(other) => task.number() == other.number(),
            _ => false,
        },
        Event::Resize(frames) => match b {
            Event::Resize(others) => *frames == *others,
            _ => false,
        },
    }
}

fn same_answer(a: Answer, b: Answer) -> bool
    ensures { Decides result (a ≡ b) }
{
    a == b
}

fn same_phase(a: Phase, b: Phase) -> bool
    ensures { Decides result (a ≡ b) }
{
    a == b
}

fn same_refusal(a: Refusal, b: Refusal) -> bool
    ensures { Decides result (a ≡ b) }
{
    a == b
}

fn same_outcome(a: &Outcome, b: &Outcome) -> bool
    ensures { Decides result (a.now ≡ b.now) }
{
    match a {
        Outcome::Begun => matches!(b, Outcome::Begun),
        Outcome::Moved(phase) => match b {
            Outcome::Moved(other) => same_phase(*phase, *other),
            _ => false,
        },
        Outcome::Blocked(task) => match b {
            Outcome::Blocked(other) => task.number() == other.number(),
            _ => false,
        },
        Outcome::Ended(answer) => match b {
            Outcome::Ended(other) => same_answer(*answer, *other),
            _ => false,
        },
        Outcome::Marked => matches!(b, Outcome::Marked),
        Outcome::Resized(frames) => match b {
            Outcome::Resized(others) => *frames == *others,
            _ => false,
        },
        Outcome::Refused(refusal) => match b {
            Outcome::Refused(other) => same_refusal(*refusal, *other),
            _ => false,
        },
    }
}

/// Whether two entries are one and the same.
pub fn same_entry(a: &Entry, b: &Entry) -> bool
    ensures { Decides result (a.now ≡ b.now) }
{
    a.position == b.position
        && same_event(&a.event, &b.event)
        && same_outcome(&a.outcome, &b.outcome)
}

/// Whether two pools are of the same sizes.
pub(crate) fn same_sizes(a: &Config, b: &Config) -> bool
    ensures { MatchBool result (sizes a.now ≡ sizes b.now) (¬ (sizes a.now ≡ sizes b.now)) }
{
    a.frames == b.frames
        && a.files == b.files
        && a.slots == b.slots
        && a.tasks == b.tasks
        && a.quota == b.quota
}
