//! All ways in which the schedules of a script end, with how many schedules end so.
ghost use Rattle.std.specs.Prelude.{◌≡◌, ◌∷◌, [], IfOk};
ghost use Rattle.std.specs.Cmp.Lexicographic.{bytes_decides};
ghost use Rattle.std.proofs.Common.{sym};
ghost use Rattle.hp_layers.specs.Named.{AreEach};
ghost use Rattle.hp_every.proofs.Endings.{as_good_ends, ends_alike, ends_by_key, named_ends};
ghost use Rattle.hp_every.specs.Endings.{AreEndsAlike, GoesBy, GoesOnBy, IsEndState};
ghost use Rattle.hp_every.specs.Search.{HasTurns};
ghost use Rattle.hp_search.specs.Endings.{AreAllEndings, AreRowsOf, AreStates, AreWithin, IsRowAt, end_bytes};
ghost use Rattle.hp_search.specs.Searching.{IsQuery, question, question_of};

use crate::closing::{EndPath, all_ends_behind, end_path_at};
use crate::endings::{EndingRow, EndingRows};
use crate::finding::Budget;
use crate::following::follow;
use crate::key::Key;
use crate::position::Position;
use crate::query::Query;
use hp_base::{Event, Op};
use hp_every::Turn;
use hp_explore::{Chances, Plan};
use hp_layers::{EndingTable, Ends, Limits, Progress, RunCounts, Turns, endings};
use hp_text::Script;
use std::alloc::{AllocError, Global};
use std::thread::Threads;

/// Schedules that are told apart by their answers, too.
#[derive(Clone, Copy, Drop)]
pub(crate) struct EndQuery<'a> {
    query: Query<'a>,
}

impl EndQuery<'_> {
    /// The schedules behind one, one for each turn that may be made.
    fn goes_on(&self, alloc: Global, from: &EndPath) -> Result<Vec<EndPath>, AllocError>
        requires { IsQuery self.now.query × IsEndState (question_of self.now.query) from.now }
        ensures { IfOk result (λ next. AreEach (λ s turn t. GoesBy (question_of self.now.query) s turn t) from.now next.items) }
    {
        // The checker of borrows asks for a mention of the types that an event may hold.
        let _none: (Option<Event>, Option<Op>) = (None, None);
        let query = self.query;
        let mut events = Vec::with_capacity(alloc, from.path.turns.len())?;
        let mut position = follow(alloc, query, &from.path.turns, &mut events)?;
        all_ends_behind(alloc, query, from, &mut position)
    }
}

impl Turns for EndQuery<'_> {
    type State = EndPath;

    type Key = Key;

    ghost valid = { λ q s. IsQuery q.query × IsEndState (question_of q.query) s };

    ghost turn = { λ q s t. GoesOnBy (question_of q.query) s t };

    ghost meets = { λ q s. ⊥ };

    ghost alike = { λ q s t. AreEndsAlike (question_of q.query) s t };

    ghost key_of = { λ q s. s.key };

    ghost bytes_of = { λ q s. end_bytes s };

    fn after(&self, alloc: Global, from: &EndPath) -> Result<Vec<EndPath>, AllocError> {
        self.goes_on(alloc, from)
    }

    fn key(&self, alloc: Global, from: &EndPath) -> Result<Key, AllocError> {
        from.key.copy(alloc)
    }

    fn bytes(&self, from: &EndPath) -> u64 {
        from.bytes()
    }

    fn is_met(&self, from: &EndPath) -> bool {
        let _ = from;
        false
    }

    ghost as_good = { λ q. as_good_ends (question_of q.query) (IsQuery q.query) };

    ghost same_key = { λ q s t valid other e. ends_by_key (question_of q.query) s t valid.1 other.1 (sym ((bytes_decides t.key s.key).0 e)) };
}

impl Ends for EndQuery<'_> {
    type Ending = Key;

    type Name = Turn;

    ghost ending_of = { λ q s. s.ending };

    ghost step = { λ q s turn t. GoesBy (question_of q.query) s turn t };

    fn ending(&self, alloc: Global, from: &EndPath) -> Result<Option<Key>, AllocError> {
        match &from.ending {
            Some(key) => Ok(Some(key.copy(alloc)?)),
            None => Ok(None),
        }
    }

    fn each_after(&self, alloc: Global, from: &EndPath) -> Result<Vec<EndPath>, AllocError> {
        self.goes_on(alloc, from)
    }

    ghost ends_alike = { λ q. ends_alike (question_of q.query) };

    ghost are_named = { λ q. named_ends (question_of q.query) };
}

/// The row of an ending: of the schedule that came there first, and of so many schedules.
fn row_of(
    alloc: Global,
    query: Query,
    turns: &[Turn],
    schedules: u128,
) -> Result<EndingRow, AllocError>
    requires planned { IsQuery query }
    requires may { HasTurns (question_of query) turns.now }
    ensures { IfOk result (IsRowAt (question_of query.entry) turns.now schedules) }
{
    let mut events = Vec::with_capacity(alloc, turns.len())?;
    let Position { walk, answers, .. } = follow(alloc, query, turns, &mut events)?;
    let core = walk.core();
    Ok(EndingRow {
        ended: answers.ended,
        free: core.free(),
        resv: core.resv(),
        used: core.used(),
        schedules,
        events,
    })
}

/// The rows of all endings.
fn rows_of(
    alloc: Global,
    query: Query,
    counts: &RunCounts<EndPath>,
) -> Result<Vec<EndingRow>, AllocError>
    requires planned { IsQuery query }
    requires states { AreStates (question_of query) counts.now }
    ensures { IfOk result (λ rows. AreRowsOf (question_of query.entry) counts.now rows.items) }
{
    // The checker of borrows asks for a mention of the types that an event may hold.
    let _none: (Option<Event>, Option<Op>) = (None, None);
    let mut rows = Vec::with_capacity(alloc, counts.states.len())?;
    for place in 0..counts.states.len() {
        let row = row_of(
            alloc,
            query,
            &counts.states[place].path.turns,
            counts.ways[place],
        )?;
        rows.push(row)?;
    }
    Ok(rows)
}

/// The schedule of no turn.
fn first_end_path(alloc: Global, query: Query) -> Result<EndPath, AllocError>
    requires planned { IsQuery query }
    ensures state { IfOk result (IsEndState (question_of query.entry)) }
    ensures turns { IfOk result (λ s. s.path.turns ≡ []) }
{
    let position = Position::first(alloc, query)?;
    let path = end_path_at(alloc, query, Vec::new(alloc), &position)?;
    Ok(path)
}

/// All ways in which the schedules of the script end, of each a shortest schedule, and how many end so. Schedules that lead to the same
/// place with the same answers are looked at once, however many they are. It takes time and memory for as many places as there are, up to
/// the limits.
pub fn explore_every(
    rt: &(impl Threads + Sync),
    alloc: Global,
    script: &Script,
    budget: Budget,
    limits: Limits,
    progress: &mut impl Progress,
) -> Result<EndingRows, AllocError>
    ensures endings { IfOk result (AreAllEndings (question script.now budget [])) }
    // It doesn't give up before.
    ensures within { IfOk result (AreWithin (question script.now budget []) limits) }
{
    let plan = &Plan::new(alloc, script, Chances { deny: 0, kill: 0 })?;
    let query = Query {
        script,
        plan,
        conditions: &[],
        denials: budget.denials,
        kills: budget.kills,
        eager: false,
    };
    let first = first_end_path(alloc, query)?;
    match endings(rt, alloc, &EndQuery { query }, first, limits, progress)? {
        EndingTable::Whole(counts) => Ok(EndingRows::Whole(rows_of(alloc, query, &counts)?)),
        EndingTable::Cut { turns, .. } => Ok(EndingRows::Cut { turns }),
    }
}
