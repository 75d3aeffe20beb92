//! Numbers as words of 32 bits.
ghost use Rattle.std.specs.Prelude.{◌≡◌, ◌++◌, OnOk};
ghost use Rattle.hp_key.specs.Numbers.{access_words, answer_value, answer_number, answer_words, change_words, maybe, number_words, wide};

use crate::carried::Change;
use hp_base::Answer;
use hp_machine::touch::Access;
use std::alloc::AllocError;

// One more than what a word can hold.
const WORDS: u64 = 1 << 32;

/// A number of 64 bits: the lower half, and then the upper one.
pub fn push_wide(words: &mut Vec<u32>, number: u64) -> Result<(), AllocError>
    ensures { OnOk result (words.new.items ≡ words.old.items ++ wide number) }
{
    words.push((number % WORDS) as u32)?;
    words.push((number / WORDS) as u32)?;
    Ok(())
}

/// A number that may be there.
pub(crate) fn push_maybe(words: &mut Vec<u32>, number: Option<u32>) -> Result<(), AllocError>
    ensures { OnOk result (words.new.items ≡ words.old.items ++ maybe number_words number) }
{
    match number {
        None => words.push(0)?,
        Some(number) => {
            words.push(1)?;
            words.push(number)?;
        }
    }
    Ok(())
}

/// What a touch does with its page's word.
pub(crate) fn push_access(words: &mut Vec<u32>, access: Access) -> Result<(), AllocError>
    ensures { OnOk result (words.new.items ≡ words.old.items ++ access_words access) }
{
    match access {
        Access::Load => words.push(0)?,
        Access::Store(word) => {
            words.push(1)?;
            push_wide(words, word)?;
        }
    }
    Ok(())
}

/// A change of a reserve map that may be in progress.
pub(crate) fn push_change(words: &mut Vec<u32>, change: Option<Change>) -> Result<(), AllocError>
    ensures { OnOk result (words.new.items ≡ words.old.items ++ maybe change_words change) }
{
    match change {
        None => words.push(0)?,
        Some(change) => {
            words.push(1)?;
            words.push(change.from.number())?;
            words.push(change.to.number())?;
            words.push(change.missing)?;
        }
    }
    Ok(())
}

// Which answer it is.
fn answer_number(answer: &Answer) -> u32
    ensures { result ≡ answer_number answer.now }
{
    match answer {
        Answer::Mapped(_) => 0,
        Answer::Word(_) => 1,
        Answer::Done => 2,
        Answer::Segv => 3,
        Answer::Beyond => 4,
        Answer::NoFrame => 5,
        Answer::NoQuota => 6,
        Answer::NoMemory => 7,
        Answer::Interrupted => 8,
        Answer::Killed => 9,
        Answer::BadFile => 10,
        Answer::BadRange => 11,
        Answer::NotMapped => 12,
        Answer::NoAddress => 13,
    }
}

// The number that it names, if any.
fn answer_value(answer: &Answer) -> u64
    ensures { result ≡ answer_value answer.now }
{
    match answer {
        Answer::Mapped(base) => u64::from(base.number()),
        Answer::Word(word) => *word,
        _ => 0,
    }
}

/// An answer.
pub fn push_answer(words: &mut Vec<u32>, answer: Answer) -> Result<(), AllocError>
    ensures { OnOk result (words.new.items ≡ words.old.items ++ answer_words answer) }
{
    words.push(answer_number(&answer))?;
    push_wide(words, answer_value(&answer))?;
    Ok(())
}

/// An answer that a call may have, and is yet to give.
pub(crate) fn push_pending_answer(
    words: &mut Vec<u32>,
    answer: Option<Answer>,
) -> Result<(), AllocError>
    ensures { OnOk result (words.new.items ≡ words.old.items ++ maybe answer_words answer) }
{
    match answer {
        None => words.push(0)?,
        Some(answer) => {
            words.push(1)?;
            push_answer(words, answer)?;
        }
    }
    Ok(())
}
