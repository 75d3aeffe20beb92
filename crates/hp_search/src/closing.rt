//! What a table of endings keeps of a schedule.
ghost use Rattle.std.specs.Prelude.{◌≡◌, ◌++◌, ◌∷◌, [], List, All, IfOk, OnOk};
ghost use Rattle.std.specs.List.{AllZip, flat_map};
ghost use Rattle.hp_base.specs.declared.event.Event.{Event};
ghost use Rattle.hp_watch.specs.Moments.{Moment};
ghost use Rattle.hp_layers.specs.Named.{AreEach};
ghost use Rattle.hp_every.specs.Endings.{GoesBy, IsEnding, IsEndState, answers_in, answers_words, ended_call_words, ended_key};
ghost use Rattle.hp_every.specs.Search.{MayGoOn};
ghost use Rattle.hp_every.specs.declared.turn.Turn.{Turn};
ghost use Rattle.hp_key.specs.Packed.{packed};
ghost use Rattle.hp_search.specs.Endings.{end_bytes};
ghost use Rattle.hp_search.specs.Searching.{IsAt, IsQuery, ended_here, place_of, question_of};

use crate::following::follow;
use crate::key::Key;
use crate::path::{Path, call_number, make_one, path_at};
use crate::position::Position;
use crate::query::Query;
use hp_every::Turn;
use hp_key::{pack, push_answer, push_wide};
use hp_watch::EndedCall;
use std::alloc::{AllocError, Global};
use std::marker::Model;

/// A schedule, what tells it apart by its answers, too, and how it ends, as a key, if it has come to its end.
#[derive(Drop)]
pub(crate) struct EndPath {
    pub(crate) path: Path,
    pub(crate) key: Key,
    pub(crate) ending: Option<Key>,
}

impl Model for EndPath {
    ghost use Rattle.hp_every.specs.Endings.{EndState};

    ghost Value = { EndState };

    ghost view = { λ p. record { path = p.path; key = p.key; ending = p.ending } };
}

// What holds the lists of a schedule that a table keeps besides.
const KEPT: u64 = 200;

impl EndPath {
    /// How many bytes a table keeps of it.
    pub(crate) fn bytes(&self) -> u64
        ensures { result ≡ end_bytes self.now }
    {
        let keys = (self.key.bytes.len() as u64).saturating_mul(2);
        self.path.bytes().saturating_add(keys).saturating_add(KEPT)
    }
}

/// The calls that ended, as words.
fn push_ended(words: &mut Vec<u32>, ended: &[EndedCall]) -> Result<(), AllocError>
    ensures { OnOk result (words.new.items ≡ words.old.items ++ flat_map ended_call_words ended.now) }
{
    for call in ended {
        words.push(call.task.number())?;
        words.push(call_number(call.call))?;
        push_answer(words, call.answer)?;
    }
    Ok(())
}

/// How many calls ended, and which, as words.
fn push_answers(words: &mut Vec<u32>, ended: &[EndedCall]) -> Result<(), AllocError>
    ensures { OnOk result (words.new.items ≡ words.old.items ++ answers_words ended.now) }
{
    push_wide(words, ended.len() as u64)?;
    push_ended(words, ended)?;
    Ok(())
}

/// The answers and the key of the place, as one key.
fn end_key(alloc: Global, position: &Position, key: &Key) -> Result<Key, AllocError>
    ensures { IfOk result (λ longer. longer ≡ packed (answers_words position.now.answers.ended.items) ++ key.now) }
{
    let mut words = Vec::new(alloc);
    push_answers(&mut words, &position.answers.ended)?;
    let mut bytes = pack(alloc, &words)?;
    bytes.extend_from_slice(&key.bytes)?;
    Ok(Key { bytes })
}

/// How a schedule ends that stands there, as a key.
fn ended_key(alloc: Global, position: &Position) -> Result<Key, AllocError>
    ensures { IfOk result (λ key. key ≡ ended_key (ended_here position.now)) }
{
    let core = position.walk.core();
    let mut words = Vec::new(alloc);
    words.push(core.free())?;
    words.push(core.resv())?;
    words.push(core.used())?;
    push_answers(&mut words, &position.answers.ended)?;
    let bytes = pack(alloc, &words)?;
    Ok(Key { bytes })
}

/// How a schedule ends that stands there, as a key, if no turn may be made.
fn ending_at(alloc: Global, query: Query, position: &Position) -> Result<Option<Key>, AllocError>
    ensures { IfOk result (λ ending. (moments : List Moment) → position.now.answers.ended.items ≡ answers_in moments
        → IsEnding query.entry.plan.now moments (place_of position.now) ending) }
{
    let turns = position.next_turns(alloc, query.plan)?;
    if !turns.is_empty() {
        return Ok(None);
    }
    let key = ended_key(alloc, position)?;
    Ok(Some(key))
}

/// The schedule of these turns, which stands there.
pub(crate) fn end_path_at(
    alloc: Global,
    query: Query,
    turns: Vec<Turn>,
    position: &Position,
) -> Result<EndPath, AllocError>
    requires planned { IsQuery query }
    requires at { (events : List Event) × IsAt (question_of query) turns.items events position.now }
    ensures state { IfOk result (IsEndState (question_of query.entry)) }
    ensures turns { IfOk result (λ s. s.path.turns ≡ turns.items) }
{
    let path = path_at(alloc, query, turns, position)?;
    let key = end_key(alloc, position, &path.key)?;
    let ending = ending_at(alloc, query, position)?;
    Ok(EndPath { path, key, ending })
}

/// The schedule with one turn more. It is made from where the schedule stands.
fn end_path_behind(
    alloc: Global,
    query: Query,
    turns: &[Turn],
    position: &mut Position,
    turn: Turn,
) -> Result<EndPath, AllocError>
    requires planned { IsQuery query }
    requires may { MayGoOn (question_of query) turns.now turn }
    requires at { (events : List Event) × IsAt (question_of query) turns.now events position.old }
    ensures state { IfOk result (IsEndState (question_of query.entry)) }
    ensures turns { IfOk result (λ next. next.path.turns ≡ turns.now ++ turn ∷ []) }
{
    let turns = make_one(alloc, query, turns, position, turn)?;
    end_path_at(alloc, query, turns, position)
}

/// The schedule with one turn more, made again from the first place on.
fn end_path_again(
    alloc: Global,
    query: Query,
    turns: &[Turn],
    turn: Turn,
) -> Result<EndPath, AllocError>
    requires planned { IsQuery query }
    requires may { MayGoOn (question_of query) turns.now turn }
    ensures state { IfOk result (IsEndState (question_of query.entry)) }
    ensures turns { IfOk result (λ next. next.path.turns ≡ turns.now ++ turn ∷ []) }
{
    let mut events = Vec::with_capacity(alloc, turns.len())?;
    let mut position = follow(alloc, query, turns, &mut events)?;
    end_path_behind(alloc, query, turns, &mut position, turn)
}

/// The schedules with one of these turns more. The position is where the schedule stands; the last of the turns is made from there, and for
/// each of the others the schedule is made again.
fn end_paths_behind(
    alloc: Global,
    query: Query,
    from: &EndPath,
    position: &mut Position,
    turns: &[Turn],
) -> Result<Vec<EndPath>, AllocError>
    requires planned { IsQuery query }
    requires at { (events : List Event) × IsAt (question_of query) from.now.path.turns events position.old }
    requires may { All (MayGoOn (question_of query) from.now.path.turns) turns.now }
    ensures { IfOk result (λ next. AllZip (GoesBy (question_of query.entry) from.now) turns.now next.items) }
{
    let mut next = Vec::with_capacity(alloc, turns.len())?;
    let Some(last) = turns.len().checked_sub(1) else {
        return Ok(next);
    };
    for place in 0..last {
        let path = end_path_again(alloc, query, &from.path.turns, turns[place])?;
        next.push(path)?;
    }
    let path = end_path_behind(alloc, query, &from.path.turns, position, turns[last])?;
    next.push(path)?;
    Ok(next)
}

/// The schedules with one turn more, one for each turn that may be made from where the schedule stands.
pub(crate) fn all_ends_behind(
    alloc: Global,
    query: Query,
    from: &EndPath,
    position: &mut Position,
) -> Result<Vec<EndPath>, AllocError>
    requires planned { IsQuery query }
    requires at { (events : List Event) × IsAt (question_of query) from.now.path.turns events position.old }
    ensures { IfOk result (λ next. AreEach (λ s turn t. GoesBy (question_of query.entry) s turn t) from.now next.items) }
{
    let turns = position.next_turns(alloc, query.plan)?;
    let next = end_paths_behind(alloc, query, from, position, &turns)?;
    Ok(next)
}
