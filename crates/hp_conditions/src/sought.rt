//! What a condition seeks, as the value of an option spells it.
ghost use Rattle.std.specs.Prelude.{◌≡◌};
ghost use Rattle.std.specs.Option.{option_map};
ghost use Rattle.hp_conditions.specs.Sought.{answer_at, call_at, counted_answer_at, ended_at, meeting_at, sought_at, standing_at, task_at};

use crate::counts::comparison_at;
use crate::kind::Kind;
use crate::numbers::counted_at;
use crate::pieces::split;
use crate::words::{answer_named, call_named, linux_named, phase_at};
use hp_base::Task;
use hp_core::Phase;
use hp_hunt::{AnswerName, CallChoice, Comparison, Sought, SoughtAnswer};

/// A task, or any.
#[tactic(auto, unfolding(crate::specs::Sought::task_at))]
fn task_at(text: &[u8]) -> Option<Option<Task>>
    ensures { result ≡ task_at text.now }
{
    match text {
        b"*" => Some(None),
        _ => Some(Some(Task::new(counted_at(text)?))),
    }
}

/// A call of a task, each of a name, or any.
#[tactic(auto, unfolding(crate::specs::Sought::call_at))]
fn call_at(text: &[u8]) -> Option<CallChoice>
    ensures { result ≡ call_at text.now }
{
    match (text, call_named(text)) {
        (b"*", _) => Some(CallChoice::Any),
        (_, Some(word)) => Some(CallChoice::Named(word)),
        (_, None) => Some(CallChoice::Number(counted_at(text)?)),
    }
}

/// An answer's name.
#[tactic(auto, unfolding(crate::specs::Sought::answer_at))]
fn answer_at(text: &[u8]) -> Option<AnswerName>
    ensures { result ≡ answer_at text.now }
{
    if let Some(linux) = linux_named(text) {
        return Some(AnswerName::Linux(linux));
    }
    Some(AnswerName::Word(answer_named(text)?))
}

/// `T:K=WORD`.
#[tactic(auto, unfolding(crate::specs::Sought::ended_at))]
fn ended_at(counted: Option<Comparison>, text: &[u8]) -> Option<SoughtAnswer>
    ensures { result ≡ ended_at counted text.now }
{
    let (of, word) = split(b"=", text)?;
    let (task, call) = split(b":", of)?;
    Some(SoughtAnswer {
        task: task_at(task)?,
        call: call_at(call)?,
        name: answer_at(word)?,
        counted,
    })
}

/// `T:K=WORD COUNT=N`.
#[tactic(auto, unfolding(crate::specs::Sought::counted_answer_at))]
fn counted_answer_at(text: &[u8]) -> Option<Sought>
    ensures { result ≡ counted_answer_at text.now }
{
    let (answer, count) = split(b" ", text)?;
    let counted = comparison_at(count)?;
    Some(Sought::Answer(ended_at(Some(counted), answer)?))
}

/// `T:P`.
#[tactic(auto, unfolding(crate::specs::Sought::standing_at))]
fn standing_at(text: &[u8]) -> Option<(Task, Phase)>
    ensures { option_map (λ s. (s.0, s.1)) result ≡ standing_at text.now }
{
    let (task, phase) = split(b":", text)?;
    let task = Task::new(counted_at(task)?);
    Some((task, phase_at(phase)?))
}

/// `T:P,U:Q`.
#[tactic(auto, unfolding(crate::specs::Sought::meeting_at))]
fn meeting_at(text: &[u8]) -> Option<Sought>
    ensures { result ≡ meeting_at text.now }
{
    let (one, other) = split(b",", text)?;
    let (task, phase) = standing_at(one)?;
    let (other, other_phase) = standing_at(other)?;
    Some(Sought::Meet {
        task,
        phase,
        other,
        other_phase,
    })
}

/// What the value of such an option seeks.
pub(crate) fn sought_at(kind: Kind, text: &[u8]) -> Option<Sought>
    ensures { result ≡ sought_at kind text.now }
{
    Some(match kind {
        Kind::Answer => Sought::Answer(ended_at(None, text)?),
        Kind::At => counted_answer_at(text)?,
        Kind::Blocked => Sought::Blocked(task_at(text)?),
        Kind::Meet => meeting_at(text)?,
        Kind::Final => Sought::Final(comparison_at(text)?),
    })
}
