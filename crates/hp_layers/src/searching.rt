//! The search, layer by layer.
ghost use Rattle.std.specs.Prelude.{IfOk};
ghost use Rattle.hp_layers.specs.Layers.{IsCutAtLimits, IsRight};

use crate::layer::{first_layer, first_met, next_layer, room_behind};
use crate::limits::Limits;
use crate::progress::Progress;
use crate::turns::Turns;
use crate::verdict::Verdict;
use std::alloc::{AllocError, Global};
use std::thread::Threads;

/// Looks for a state that meets what is looked for, in layers of more and more turns, up to the limits.
pub fn search<M: Turns + Sync>(
    rt: &(impl Threads + Sync),
    alloc: Global,
    system: &M,
    first: M::State,
    limits: Limits,
    progress: &mut impl Progress,
) -> Result<Verdict<M::State>, AllocError>
    requires { M.valid system.now first }
    ensures right { IfOk result (IsRight (M.turn system.now) (M.meets system.now) first) }
    // It doesn't give up before.
    ensures cut { IfOk result (IsCutAtLimits M.Key.eq (M.key_of system.now) (M.turn system.now) (M.bytes_of system.now) first limits) }
{
    let mut layer = first_layer(alloc, system, first)?;
    for turns in 0..limits.turns {
        if layer.states.is_empty() {
            return Ok(Verdict::Never);
        }
        progress.layer(turns, layer.states.len(), layer.bytes);
        if let Some(place) = first_met(system, &layer.states) {
            let state = layer.states.swap_remove(place);
            return Ok(Verdict::Met { state, turns });
        }
        let room = room_behind(limits, layer.states.len(), layer.bytes);
        let Some(next) = next_layer(rt, alloc, system, &layer.states, room)? else {
            return Ok(Verdict::Cut { turns: turns + 1 });
        };
        layer = next;
    }
    let turns = limits.turns;
    Ok(Verdict::Cut { turns })
}
