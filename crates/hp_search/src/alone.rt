//! The same search without threads, for the library.
ghost use Rattle.std.specs.Prelude.{IfOk};
ghost use Rattle.hp_search.specs.Searching.{IsAnswer, IsWithin, question};

use crate::eager::may_be_eager;
use crate::finding::{Budget, first_path, reachability_of};
use crate::query::Query;
use crate::reachability::Reachability;
use hp_explore::{Chances, Plan};
use hp_hunt::Condition;
use hp_layers::{Limits, Progress, search_alone};
use hp_text::Script;
use std::alloc::{AllocError, Global};

/// What `find_every` says, found by the caller alone: it starts no thread.
pub fn find_every_alone(
    alloc: Global,
    script: &Script,
    budget: Budget,
    conditions: &[Condition],
    limits: Limits,
    progress: &mut impl Progress,
) -> Result<Reachability, AllocError>
    ensures answer { IfOk result (IsAnswer (question script.now budget conditions.now)) }
    ensures within { IfOk result (IsWithin (question script.now budget conditions.now) limits) }
{
    let plan = &Plan::new(alloc, script, Chances { deny: 0, kill: 0 })?;
    let query = Query {
        script,
        plan,
        conditions,
        denials: budget.denials,
        kills: budget.kills,
        eager: may_be_eager(conditions),
    };
    let first = first_path(alloc, query)?;
    let verdict = search_alone(alloc, &query, first, limits, progress)?;
    reachability_of(alloc, query, verdict)
}
