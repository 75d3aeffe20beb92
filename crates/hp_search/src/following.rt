//! Turns that are made again, from the first place on.
ghost use Rattle.std.specs.Prelude.{IfOk};
ghost use Rattle.hp_every.specs.Search.{HasTurns};
ghost use Rattle.hp_search.specs.Searching.{IsAt, IsQuery, question_of};

use crate::position::Position;
use crate::query::Query;
use hp_base::{Event, Op};
use hp_every::Turn;
use std::alloc::{AllocError, Global};

/// Makes the turns, and lists their events.
pub(crate) fn follow(
    alloc: Global,
    query: Query,
    turns: &[Turn],
    events: &mut Vec<Event>,
) -> Result<Position, AllocError>
    requires planned { IsQuery query }
    requires may { HasTurns (question_of query) turns.now }
    ensures { IfOk result (λ p. IsAt (question_of query.entry) turns.now events.new.items p) }
{
    // The checker of borrows asks for a mention of the type that an event may hold.
    let _none: Option<Op> = None;
    events.clear();
    let mut position = Position::first(alloc, query)?;
    for turn in turns {
        let event = position.make(query.plan, *turn)?;
        events.push(event)?;
    }
    Ok(position)
}
