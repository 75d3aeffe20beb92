//! The search by the caller alone, which starts no thread.
ghost use Rattle.std.specs.Prelude.{◌⊎◌, List, IfNone, IfOk, IfSome, length};
ghost use Rattle.hp_layers.specs.Layers.{AreBytes, AreKeysOf, AreNext, AreValid, IsCutAtLimits, Fits, IsRight, LacksBytes, LacksRoom};

use crate::layer::{Layer, Room, add_all, exceeds, first_layer, first_met, no_layer, room_behind};
use crate::limits::Limits;
use crate::progress::Progress;
use crate::turns::Turns;
use crate::verdict::Verdict;
use std::alloc::{AllocError, Global};
use std::collections::HashSet;

/// The layer behind this one, unless there isn't room for it.
fn next_layer_alone<M: Turns>(
    alloc: Global,
    system: &M,
    layer: &[M::State],
    room: Room,
) -> Result<Option<Layer<M::State>>, AllocError>
    requires layer { AreValid (M.valid system.now) layer.now }
    ensures next { IfOk result (λ next. IfSome next (λ behind.
        AreNext (M.turn system.now) (M.alike system.now) layer.now behind.states.items)) }
    ensures keys { IfOk result (λ next. IfSome next (λ behind.
        (keys : List M.Key) × AreKeysOf M.Key.eq (M.key_of system.now) keys behind.states.items)) }
    ensures bytes { IfOk result (λ next. IfSome next (λ behind. AreBytes (M.bytes_of system.now) behind.states.items behind.bytes)) }
    ensures fits { IfOk result (λ next. IfSome next (λ behind. Fits (length behind.states.items) behind.bytes room.states room.bytes)) }
    ensures none { IfOk result (λ next. IfNone next (LacksRoom M.Key.eq (M.key_of system.now) (M.turn system.now) layer.now room.states
        ⊎ LacksBytes M.Key.eq (M.key_of system.now) (M.turn system.now) (M.bytes_of system.now) layer.now room.bytes)) }
{
    let mut seen = HashSet::new(alloc);
    let mut next = no_layer(alloc);
    for place in 0..layer.len() {
        let after = system.after(alloc, &layer[place])?;
        add_all(alloc, system, &mut seen, &mut next, after)?;
        if exceeds(next.states.len(), next.bytes, room) {
            return Ok(None);
        }
    }
    Ok(Some(next))
}

/// The same search as `search`, without threads.
pub fn search_alone<M: Turns>(
    alloc: Global,
    system: &M,
    first: M::State,
    limits: Limits,
    progress: &mut impl Progress,
) -> Result<Verdict<M::State>, AllocError>
    requires { M.valid system.now first }
    ensures right { IfOk result (IsRight (M.turn system.now) (M.meets system.now) first) }
    // It doesn't give up before.
    ensures cut { IfOk result (IsCutAtLimits M.Key.eq (M.key_of system.now) (M.turn system.now) (M.bytes_of system.now) first limits) }
{
    let mut layer = first_layer(alloc, system, first)?;
    for turns in 0..limits.turns {
        if layer.states.is_empty() {
            return Ok(Verdict::Never);
        }
        progress.layer(turns, layer.states.len(), layer.bytes);
        if let Some(place) = first_met(system, &layer.states) {
            let state = layer.states.swap_remove(place);
            return Ok(Verdict::Met { state, turns });
        }
        let room = room_behind(limits, layer.states.len(), layer.bytes);
        let Some(next) = next_layer_alone(alloc, system, &layer.states, room)? else {
            return Ok(Verdict::Cut { turns: turns + 1 });
        };
        layer = next;
    }
    let turns = limits.turns;
    Ok(Verdict::Cut { turns })
}
