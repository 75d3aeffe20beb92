//! What a line asks for.
ghost use Rattle.std.specs.Prelude.{◌≡◌, ℕ, None, Some, IfOk, IfSome};
ghost use Rattle.std.specs.Option.{option_map};
ghost use Rattle.hp_format.specs.Asked.{AreAsked, AreAskedOf, AskedFits, HasNoReading, HaveNoReading, IsAsked, goal_word, step_verb};
ghost use Rattle.hp_format.specs.Reading.{is_few, repeated_at, times_at, until_at};
ghost use Rattle.hp_text.specs.Fits.{IsShort};
ghost use Rattle.hp_text.specs.Reading.{event_at};

use crate::tidying::tidy;
use hp_base::{Event, Task};
use hp_machine::Phase;
use hp_phases::phase_named;
use hp_text::{MOST_EVENTS, after_word, event_at, last_at, short_at};
use std::alloc::AllocError;

/// What steps are made until.
#[derive(Clone, Copy, Debug, PartialEq, Eq)]
pub enum Goal {
    /// The call stands in that phase.
    Stands(Phase),
    /// The call has ended.
    Ended,
}

/// What a line behind the header asks for.
#[derive(Clone, Copy, Debug, PartialEq, Eq)]
pub enum Asked {
    /// Nothing: it is blank, or a comment alone.
    Nothing,
    /// The event, so many times, one after the other.
    Times(Event, u32),
    /// Steps of the task's call, the last of which is the first that reaches that.
    Until(Task, Goal),
}

/// What steps are made until that is called so.
fn goal_named(word: &[u8]) -> Option<Goal>
    ensures word { IfSome result (λ goal. goal_word goal ≡ word.now) }
    ensures none { result ≡ None → (goal : Goal) → goal_word goal ≡ word.now → ⊥ }
{
    match word {
        b"ended" => Some(Goal::Ended),
        _ => Some(Goal::Stands(phase_named(word)?)),
    }
}

/// The verb of a step, as memory is granted to it or denied.
fn step_verb(granted: bool) -> &'static [u8]
    ensures { result.now ≡ step_verb granted }
{
    if granted { b"step " } else { b"deny " }
}

/// Whether a step may be repeated so many times.
fn is_few(times: u32) -> bool
    ensures { result ≡ is_few times }
{
    times >= 1 && times as usize <= MOST_EVENTS
}

/// How many times a step is to be made, as the last of a line.
#[tactic(auto, unfolding(crate::specs::Reading::times_at))]
fn times_at(words: &[u8]) -> Option<u32>
    ensures { result ≡ times_at words.now }
{
    let times = last_at(after_word(b" *", words)?)?;
    if is_few(times) { Some(times) } else { None }
}

/// Steps that are repeated, if the words are such.
#[tactic(auto, unfolding(crate::specs::Reading::repeated_at))]
fn repeated_at(granted: bool, words: &[u8]) -> Option<Asked>
    ensures asked { IfSome result (AreAsked words.now) }
    ensures read { result ≡ repeated_at granted words.now }
{
    let (task, rest) = short_at(after_word(step_verb(granted), words)?)?;
    let times = times_at(rest)?;
    Some(Asked::Times(Event::Step(Task::new(task), granted), times))
}

/// The task whose steps are made until something is reached, and the word of that, if the words are such.
#[tactic(auto, unfolding(crate::specs::Reading::until_at))]
fn until_word_at(words: &[u8]) -> Option<(u32, &[u8])>
    ensures { option_map (λ found. (found.0, found.1.now)) result ≡ until_at words.now }
{
    let (task, rest) = short_at(after_word(b"step ", words)?)?;
    let word = after_word(b" until ", rest)?;
    Some((task, word))
}

/// Steps until something is reached, if the words are such.
fn until_at(words: &[u8]) -> Option<Asked>
    ensures asked { IfSome result (AreAsked words.now) }
    ensures none { result ≡ None → (task : ℕ) (goal : Goal) → IsShort task → AreAsked words.now (Asked.Until task goal) → ⊥ }
{
    let (task, word) = until_word_at(words)?;
    let goal = goal_named(word)?;
    Some(Asked::Until(Task::new(task), goal))
}

/// What words ask for that are no event.
fn other_at(words: &[u8]) -> Option<Asked>
    ensures asked { IfSome result (AreAsked words.now) }
    ensures none { result ≡ None → HaveNoReading words.now }
{
    if words.is_empty() {
        return Some(Asked::Nothing);
    }
    if let Some(asked) = repeated_at(true, words) {
        return Some(asked);
    }
    if let Some(asked) = repeated_at(false, words) {
        return Some(asked);
    }
    until_at(words)
}

/// What words ask for.
fn words_ask(words: &[u8]) -> Option<Asked>
    ensures asked { IfSome result (AreAskedOf (event_at words.now) words.now) }
    ensures none { result ≡ None → (asked : Asked) → AskedFits asked → AreAskedOf (event_at words.now) words.now asked → ⊥ }
{
    match event_at(words) {
        Some(event) => Some(Asked::Times(event, 1)),
        None => other_at(words),
    }
}

/// What a line asks for, if it is one of the loose form. `words` is where its words are laid out.
pub fn asked_of(line: &[u8], words: &mut Vec<u8>) -> Result<Option<Asked>, AllocError>
    ensures asked { IfOk result (λ asked. IfSome asked (IsAsked line.now)) }
    ensures strict { IfOk result (λ asked. IfSome (event_at line.now) (λ event. asked ≡ Some (Asked.Times event 1))) }
    ensures none { IfOk result (λ asked. asked ≡ None → HasNoReading line.now) }
{
    if let Some(event) = event_at(line) {
        return Ok(Some(Asked::Times(event, 1)));
    }
    tidy(line, words)?;
    Ok(words_ask(words.as_slice()))
}
