//! The shortest schedule that meets conditions, or that there is none.
ghost use Rattle.std.specs.Prelude.{◌≡◌, [], true, IfOk};
ghost use Rattle.std.proofs.Common.{sym};
ghost use Rattle.std.specs.Cmp.Lexicographic.{bytes_decides};
ghost use Rattle.hp_every.proofs.Good.{by_key};
ghost use Rattle.hp_every.proofs.Tried.{as_good_tried};
ghost use Rattle.hp_every.specs.Eager.{Tries};
ghost use Rattle.hp_every.specs.Search.{AreAsGood, HasTurns, IsPath};
ghost use Rattle.hp_search.specs.Searching.{HasEvents, IsAnswer, IsQuery, IsSearched, IsWithin, path_bytes, question, question_of};

use crate::eager::may_be_eager;
use crate::following::follow;
use crate::key::Key;
use crate::path::{Path, all_behind, path_at};
use crate::position::Position;
use crate::query::Query;
use crate::reachability::Reachability;
use hp_base::{Event, Op};
use hp_every::Turn;
use hp_explore::{Chances, Plan};
use hp_hunt::Condition;
use hp_layers::{Limits, Progress, Turns, Verdict, search};
use hp_text::{Script, Trace};
use std::alloc::{AllocError, Global};
use std::thread::Threads;

impl Turns for Query<'_> {
    type State = Path;

    type Key = Key;

    ghost valid = { λ query s. IsQuery query × IsPath (question_of query) s };

    ghost turn = { λ query s t. Tries (question_of query) query.eager s t };

    ghost meets = { λ query s. s.met ≡ true };

    ghost alike = { λ query s t. AreAsGood (question_of query) s t };

    ghost key_of = { λ query s. s.key };

    ghost bytes_of = { λ query s. path_bytes s };

    fn after(&self, alloc: Global, path: &Path) -> Result<Vec<Path>, AllocError> {
        // The checker of borrows asks for a mention of the types that an event may hold.
        let _none: (Option<Event>, Option<Op>) = (None, None);
        let query = *self;
        let mut events = Vec::with_capacity(alloc, path.turns.len())?;
        let mut position = follow(alloc, query, &path.turns, &mut events)?;
        all_behind(alloc, query, path, &mut position)
    }

    fn key(&self, alloc: Global, path: &Path) -> Result<Key, AllocError> {
        path.key.copy(alloc)
    }

    fn bytes(&self, path: &Path) -> u64 {
        path.bytes()
    }

    fn is_met(&self, path: &Path) -> bool {
        path.met
    }

    ghost as_good = { λ query. as_good_tried (question_of query) query.eager (IsQuery query) };

    ghost same_key = { λ query s t valid other e. by_key (question_of query) s t valid.1 other.1 (sym ((bytes_decides t.key s.key).0 e)) };
}

/// So many steps may be denied, and so many tasks killed, in each schedule.
#[derive(Clone, Copy, Debug, PartialEq, Eq)]
pub struct Budget {
    pub denials: u32,
    pub kills: u32,
}

/// The schedule of no turn.
pub(crate) fn first_path(alloc: Global, query: Query) -> Result<Path, AllocError>
    requires planned { IsQuery query }
    ensures path { IfOk result (IsPath (question_of query.entry)) }
    ensures turns { IfOk result (λ path. path.turns ≡ []) }
{
    let position = Position::first(alloc, query)?;
    let path = path_at(alloc, query, Vec::new(alloc), &position)?;
    Ok(path)
}

/// The events of a schedule of these turns.
fn events_of(alloc: Global, query: Query, turns: &[Turn]) -> Result<Vec<Event>, AllocError>
    requires planned { IsQuery query }
    requires may { HasTurns (question_of query) turns.now }
    ensures { IfOk result (λ events. HasEvents (question_of query.entry) turns.now events.items) }
{
    // The checker of borrows asks for a mention of the type that an event may hold.
    let _none: Option<Op> = None;
    let mut events = Vec::with_capacity(alloc, turns.len())?;
    follow(alloc, query, turns, &mut events)?;
    Ok(events)
}

/// What a search says of the schedules that are asked for.
pub(crate) fn reachability_of(
    alloc: Global,
    query: Query,
    verdict: Verdict<Path>,
) -> Result<Reachability, AllocError>
    requires planned { IsQuery query }
    requires searched { (limits : Limits) × IsSearched (question_of query) query.eager limits verdict }
    ensures answer { IfOk result (IsAnswer (question_of query.entry)) }
    ensures within { IfOk result (λ answer. (limits : Limits) → IsSearched (question_of query.entry) query.entry.eager limits verdict
        → IsWithin (question_of query.entry) limits answer) }
{
    match verdict {
        Verdict::Never => Ok(Reachability::Never),
        Verdict::Cut { turns } => Ok(Reachability::Cut { turns }),
        Verdict::Met { state, .. } => {
            let _none: Option<Op> = None;
            let events = events_of(alloc, query, &state.turns)?;
            let config = query.script.config;
            Ok(Reachability::Met(Trace { config, events }))
        }
    }
}

/// The shortest schedule of the script that meets all conditions, or that none does. Each place that schedules reach in so many turns is
/// looked at once. It takes time and memory for as many as there are, up to the limits.
pub fn find_every(
    rt: &(impl Threads + Sync),
    alloc: Global,
    script: &Script,
    budget: Budget,
    conditions: &[Condition],
    limits: Limits,
    progress: &mut impl Progress,
) -> Result<Reachability, AllocError>
    ensures answer { IfOk result (IsAnswer (question script.now budget conditions.now)) }
    ensures within { IfOk result (IsWithin (question script.now budget conditions.now) limits) }
{
    let plan = &Plan::new(alloc, script, Chances { deny: 0, kill: 0 })?;
    let query = Query {
        script,
        plan,
        conditions,
        denials: budget.denials,
        kills: budget.kills,
        eager: may_be_eager(conditions),
    };
    let first = first_path(alloc, query)?;
    let verdict = search(rt, alloc, &query, first, limits, progress)?;
    reachability_of(alloc, query, verdict)
}
