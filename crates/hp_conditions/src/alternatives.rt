//! The alternatives of an option's value.
ghost use Rattle.std.specs.Prelude.{◌≡◌, None, Some, IfOk, MatchBool};
ghost use Rattle.hp_conditions.specs.Lines.{at_rest, must_rest};
ghost use Rattle.hp_conditions.specs.Sought.{alternatives_behind, condition_at, next_choice, wanted_at};

use crate::kind::Kind;
use crate::pieces::split_alternative;
use crate::sought::sought_at;
use hp_base::{File, Task};
use hp_core::Phase;
use hp_hunt::{
    AnswerName, AnswerWord, CallChoice, Comparison, Condition, LinuxAnswer, PoolCount, Relation,
    Sought, SoughtAnswer,
};
use hp_text::after_word;
use hp_watch::CallWord;
use std::alloc::AllocError;

/// Whether it is to be found, and what: behind `not ` it is not to be found.
fn wanted_at(text: &[u8]) -> (bool, &[u8])
    ensures wanted { result.0 ≡ (wanted_at text.now).0 }
    ensures form { result.1.now ≡ (wanted_at text.now).1 }
{
    match after_word(b"not ", text) {
        Some(form) => (false, form),
        None => (true, text),
    }
}

/// One alternative.
#[tactic(auto, unfolding(crate::specs::Sought::condition_at))]
fn condition_at(kind: Kind, choice: u32, text: &[u8]) -> Option<Condition>
    ensures { result ≡ condition_at kind choice text.now }
{
    let (wanted, form) = wanted_at(text);
    Some(Condition {
        sought: sought_at(kind, form)?,
        wanted,
        choice,
    })
}

/// The number of the next alternatives: no two of those that are given have one.
pub fn next_choice(conditions: &[Condition]) -> u32
    ensures { result ≡ next_choice conditions.now }
{
    conditions.len().min(u32::MAX as usize) as u32
}

/// Adds the alternatives of an option's value. Tells whether it has such; where it hasn't, some may have been added.
pub fn push_alternatives(
    kind: Kind,
    text: &[u8],
    conditions: &mut Vec<Condition>,
) -> Result<bool, AllocError>
    ensures { IfOk result (λ read. MatchBool read
        (alternatives_behind kind conditions.old.items text.now ≡ Some conditions.new.items)
        (alternatives_behind kind conditions.old.items text.now ≡ None)) }
{
    // The checker of borrows asks for a mention of the types that a condition may hold.
    let _parts: (Option<Task>, Option<File>, Option<Phase>, Option<Sought>) = (
        None, None, None, None,
    );
    let _counts: (Option<PoolCount>, Option<Comparison>) = (None, None);
    let _answers: (Option<SoughtAnswer>, Option<CallChoice>, Option<AnswerName>) = (
        None, None, None,
    );
    let _names: (Option<CallWord>, Option<AnswerWord>, Option<LinuxAnswer>) = (None, None, None);
    let choice = next_choice(conditions.as_slice());
    let mut left = Some(text);
    while let Some(text) = left {
        let (one, behind) = split_alternative(text);
        let Some(condition) = condition_at(kind, choice, one) else {
            return Ok(false);
        };
        conditions.push(condition)?;
        left = behind;
    }
    Ok(true)
}

/// That no call is in flight at the end.
pub fn at_rest(choice: u32) -> Condition
    ensures { result ≡ at_rest choice }
{
    Condition {
        sought: Sought::Final(Comparison {
            count: PoolCount::Calls,
            relation: Relation::Equal,
            number: 0,
        }),
        wanted: true,
        choice,
    }
}

/// Whether that is asked for: it is said, or counts at the end are asked for, and it isn't said that calls may be in flight there.
pub fn must_rest(rest: bool, counts: bool, anywhere: bool) -> bool
    ensures { result ≡ must_rest rest counts anywhere }
{
    rest || counts && !anywhere
}
