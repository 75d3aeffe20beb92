//! What a search keeps of a schedule.
ghost use Rattle.std.specs.Prelude.{◌≡◌, ◌↔◌, ◌++◌, ◌∷◌, ◌<◌, ◌≤◌, [], ℕ, true, false, List, All, IfOk, IsTrue, OnOk, length, slice_index_or};
ghost use Rattle.std.specs.List.{flat_map};
ghost use Rattle.hp_core.specs.State.{CoreState};
ghost use Rattle.hp_hunt.specs.Watching.{AllKnow, known_of};
ghost use Rattle.hp_key.specs.Numbers.{counted, wide};
ghost use Rattle.hp_watch.specs.Moments.{Moment, last_of};
ghost use Rattle.hp_layers.specs.Layers.{AreAllAfter};
ghost use Rattle.hp_every.specs.Eager.{Tries};
ghost use Rattle.hp_every.specs.Search.{AreAsGood, AreBehind, IsPath, MayGoOn, MeetsHere, call_number, calls_words, search_key, search_words, watch_words};
ghost use Rattle.hp_every.specs.Schedules.{IsFinal};
ghost use Rattle.hp_search.specs.Searching.{IsAt, IsQuery, question_of, path_bytes, place_of};
ghost use Rattle.hp_hunt.specs.declared.condition.Condition.{Condition};
ghost use Rattle.hp_every.specs.declared.turn.Turn.{Turn};
ghost use Rattle.hp_base.specs.declared.event.Event.{Event};

use crate::following::follow;
use crate::key::Key;
use crate::position::Position;
use crate::query::Query;
use hp_base::{Event, Op};
use hp_every::Turn;
use hp_hunt::{Condition, Sought, Watch};
use hp_key::{pack, push_key, push_wide};
use hp_watch::{CallWord, TaskCalls};
use std::alloc::{AllocError, Global};
use std::marker::Model;

/// A schedule: its turns, the key of the place in which it stands and of what was seen on the way, and whether it meets all conditions.
#[derive(Drop)]
pub(crate) struct Path {
    pub(crate) turns: Vec<Turn>,
    pub(crate) key: Key,
    pub(crate) met: bool,
}

impl Model for Path {
    ghost use Rattle.hp_every.specs.Search.{PathState};

    ghost Value = { PathState };

    ghost view = { λ p. record { turns = p.turns.items; key = p.key; met = p.met } };
}

// What holds the lists of a schedule that a search keeps, and its place in a table of keys.
const KEPT: u64 = 200;

impl Path {
    /// How many bytes a search keeps of it.
    pub(crate) fn bytes(&self) -> u64
        ensures { result ≡ path_bytes self.now }
    {
        let keys = (self.key.bytes.len() as u64).saturating_mul(2);
        let turns = (self.turns.len() as u64).saturating_mul(2);
        keys.saturating_add(turns).saturating_add(KEPT)
    }
}

/// Which call it is, as a word.
pub(crate) fn call_number(word: CallWord) -> u32
    ensures { result ≡ call_number word }
{
    match word {
        CallWord::Nothing => 0,
        CallWord::Map => 1,
        CallWord::MapNoReserve => 2,
        CallWord::Unmap => 3,
        CallWord::Load => 4,
        CallWord::Store => 5,
        CallWord::Alloc => 6,
        CallWord::AllocKeep => 7,
        CallWord::Punch => 8,
        CallWord::Truncate => 9,
        CallWord::Exit => 10,
    }
}

/// What is known of the calls of each task, as words.
fn push_calls(words: &mut Vec<u32>, calls: &[TaskCalls]) -> Result<(), AllocError>
    ensures { OnOk result (words.new.items ≡ words.old.items ++ flat_map calls_words calls.now) }
{
    for call in calls {
        words.push(call_number(call.last))?;
        words.push(call.begun)?;
    }
    Ok(())
}

/// What the watches have seen, as words.
fn push_watches(words: &mut Vec<u32>, watches: &[Watch]) -> Result<(), AllocError>
    ensures { OnOk result (words.new.items ≡ words.old.items ++ flat_map watch_words watches.now) }
{
    for watch in watches {
        words.push(u32::from(watch.is_seen()))?;
    }
    Ok(())
}

/// How many calls each task has begun, as words.
fn push_made(words: &mut Vec<u32>, made: &[usize]) -> Result<(), AllocError>
    requires { length made.now ≤ 64 }
    ensures { OnOk result (words.new.items ≡ words.old.items ++ counted wide made.now) }
{
    words.push(made.len() as u32)?;
    for calls in made {
        push_wide(words, *calls as u64)?;
    }
    Ok(())
}

// Room for the words of a small pool.
const ROOM: usize = 256;

/// The words of a place, and of what was seen on the way.
fn search_words(alloc: Global, position: &Position) -> Result<Vec<u32>, AllocError>
    ensures { IfOk result (λ words. words.items ≡ search_words (known_of position.now.watches) (place_of position.now)) }
{
    let mut words = Vec::with_capacity(alloc, ROOM)?;
    let calls = position.watches.calls().tasks();
    push_wide(&mut words, calls.len() as u64)?;
    push_calls(&mut words, calls)?;
    push_watches(&mut words, position.watches.watches())?;
    words.push(position.denials)?;
    words.push(position.kills)?;
    push_made(&mut words, position.walk.made())?;
    push_key(&mut words, position.walk.core())?;
    Ok(words)
}

/// The key of a place, and of what was seen on the way there.
fn search_key(alloc: Global, position: &Position) -> Result<Key, AllocError>
    ensures { IfOk result (λ key. key ≡ search_key (known_of position.now.watches) (place_of position.now)) }
{
    let words = search_words(alloc, position)?;
    let bytes = pack(alloc, &words)?;
    Ok(Key { bytes })
}

/// Whether the condition is one on a whole schedule.
fn is_final(condition: &Condition) -> bool
    ensures { IsTrue result ↔ IsFinal condition.now }
{
    !condition.wanted || matches!(condition.sought, Sought::Final(_))
}

pub(crate) fn has_final(conditions: &[Condition]) -> bool
    ensures some { result ≡ true → (k : ℕ) × (k < length conditions.now) × ((d : Condition) → IsFinal (slice_index_or conditions.now k d)) }
    ensures none { result ≡ false → All (λ c. ¬ IsFinal c) conditions.now }
{
    for condition in conditions {
        if is_final(condition) {
            return true;
        }
    }
    false
}

/// Whether the schedule meets all conditions in the place where it stands.
fn is_met(alloc: Global, query: Query, position: &Position) -> Result<bool, AllocError>
    ensures { IfOk result (λ met. (first : CoreState) (moments : List Moment) → position.now.walk.core ≡ last_of first moments
        → AllKnow query.entry.conditions.now (known_of position.now.watches) moments
        → (met ≡ true ↔ MeetsHere query.entry.plan.now query.entry.conditions.now first moments (place_of position.now))) }
{
    if !position.watches.are_met(position.walk.core()) {
        return Ok(false);
    }
    if !has_final(query.conditions) {
        return Ok(true);
    }
    let turns = position.next_turns(alloc, query.plan)?;
    Ok(turns.as_slice().is_empty())
}

/// The schedule of these turns, which stands there.
pub(crate) fn path_at(
    alloc: Global,
    query: Query,
    turns: Vec<Turn>,
    position: &Position,
) -> Result<Path, AllocError>
    requires planned { IsQuery query }
    requires at { (events : List Event) × IsAt (question_of query) turns.items events position.now }
    ensures path { IfOk result (IsPath (question_of query.entry)) }
    ensures turns { IfOk result (λ path. path.turns ≡ turns.items) }
{
    let key = search_key(alloc, position)?;
    let met = is_met(alloc, query, position)?;
    Ok(Path { turns, key, met })
}

/// The turns, and one more behind them.
fn with_one_more(alloc: Global, turns: &[Turn], turn: Turn) -> Result<Vec<Turn>, AllocError>
    ensures { IfOk result (λ longer. longer.items ≡ turns.now ++ turn ∷ []) }
{
    let mut longer = Vec::with_capacity(alloc, turns.len().saturating_add(1))?;
    longer.extend_from_slice(turns)?;
    longer.push(turn)?;
    Ok(longer)
}

/// Makes one turn more, of a schedule of these turns that stands there. Tells all its turns.
pub(crate) fn make_one(
    alloc: Global,
    query: Query,
    turns: &[Turn],
    position: &mut Position,
    turn: Turn,
) -> Result<Vec<Turn>, AllocError>
    requires planned { IsQuery query }
    requires may { MayGoOn (question_of query) turns.now turn }
    requires at { (events : List Event) × IsAt (question_of query) turns.now events position.old }
    ensures at { IfOk result (λ made. (events : List Event) × IsAt (question_of query.entry) made.items events position.new) }
    ensures turns { IfOk result (λ made. made.items ≡ turns.now ++ turn ∷ []) }
{
    // The checker of borrows asks for a mention of the type that an event may hold.
    let _none: (Option<Event>, Option<Op>) = (None, None);
    position.make(query.plan, turn)?;
    let longer = with_one_more(alloc, turns, turn)?;
    Ok(longer)
}

/// The schedule with one turn more. It is made from where the schedule stands.
fn path_behind(
    alloc: Global,
    query: Query,
    turns: &[Turn],
    position: &mut Position,
    turn: Turn,
) -> Result<Path, AllocError>
    requires planned { IsQuery query }
    requires may { MayGoOn (question_of query) turns.now turn }
    requires at { (events : List Event) × IsAt (question_of query) turns.now events position.old }
    ensures path { IfOk result (IsPath (question_of query.entry)) }
    ensures turns { IfOk result (λ next. next.turns ≡ turns.now ++ turn ∷ []) }
{
    let turns = make_one(alloc, query, turns, position, turn)?;
    path_at(alloc, query, turns, position)
}

/// The schedule with one turn more, made again from the first place on.
fn path_again(alloc: Global, query: Query, turns: &[Turn], turn: Turn) -> Result<Path, AllocError>
    requires planned { IsQuery query }
    requires may { MayGoOn (question_of query) turns.now turn }
    ensures path { IfOk result (IsPath (question_of query.entry)) }
    ensures turns { IfOk result (λ next. next.turns ≡ turns.now ++ turn ∷ []) }
{
    let mut events = Vec::with_capacity(alloc, turns.len())?;
    let mut position = follow(alloc, query, turns, &mut events)?;
    path_behind(alloc, query, turns, &mut position, turn)
}

/// The schedules with one of these turns more. The position is where the schedule stands; the last of the turns is made from there, and for
/// each of the others the schedule is made again.
fn paths_behind(
    alloc: Global,
    query: Query,
    path: &Path,
    position: &mut Position,
    turns: &[Turn],
) -> Result<Vec<Path>, AllocError>
    requires planned { IsQuery query }
    requires at { (events : List Event) × IsAt (question_of query) path.now.turns events position.old }
    requires may { All (MayGoOn (question_of query) path.now.turns) turns.now }
    ensures { IfOk result (λ next. AreBehind (question_of query.entry) path.now turns.now next.items) }
{
    let mut next = Vec::with_capacity(alloc, turns.len())?;
    let Some(last) = turns.len().checked_sub(1) else {
        return Ok(next);
    };
    for place in 0..last {
        let path = path_again(alloc, query, &path.turns, turns[place])?;
        next.push(path)?;
    }
    let path = path_behind(alloc, query, &path.turns, position, turns[last])?;
    next.push(path)?;
    Ok(next)
}

/// The schedules with one turn more, one for each turn that is tried from where the schedule stands.
pub(crate) fn all_behind(
    alloc: Global,
    query: Query,
    path: &Path,
    position: &mut Position,
) -> Result<Vec<Path>, AllocError>
    requires planned { IsQuery query }
    requires at { (events : List Event) × IsAt (question_of query) path.now.turns events position.old }
    ensures { IfOk result (λ next. AreAllAfter (Tries (question_of query.entry) query.entry.eager) (AreAsGood (question_of query.entry))
        path.now next.items) }
{
    let turns = position.turns_to_try(alloc, query)?;
    let next = paths_behind(alloc, query, path, position, &turns)?;
    Ok(next)
}
