//! One layer from the one before it.
ghost use Rattle.std.specs.Prelude.{◌≡◌, ◌↔◌, ◌++◌, ◌⊎◌, ◌∷◌, [], ◌+◌, ◌-◌, ◌<◌, ◌≤◌, List, IfNone, IfOk, IfSome, IsTrue, None, OnOk, false, length, take, true};
ghost use Rattle.hp_workers.specs.Claims.{AreOwn};
ghost use Rattle.std.specs.HashSet.{contains};
ghost use Rattle.std.specs.Option.{option_map};
ghost use Rattle.hp_layers.specs.Layers.{AddsAll, AddsSome, AreBytes, AreCounted, AreKeysOf, AreNext, AreValid, IsCovered, KeysStand};
ghost use Rattle.hp_layers.specs.Layers.{Fits, IsBehind, IsGathered, IsOver, LacksBytes, LacksRoom, MeetsAt, NoneIsMet};

use crate::limits::Limits;
use crate::parts::{After, part_end};
use crate::turns::Turns;
use hp_workers::{made_ahead, take_or_make};
use std::alloc::{AllocError, Global};
use std::collections::HashSet;
use std::thread::{Threads, join_mut};

/// The states of a layer, and how many bytes they take: the largest number stands for as many or more.
#[derive(Drop)]
pub(crate) struct Layer<S> {
    pub(crate) states: Vec<S>,
    pub(crate) bytes: u64,
}

/// A layer of no state.
pub(crate) fn no_layer<S: Drop>(alloc: Global) -> Layer<S>
    ensures states { result.states.items ≡ [] }
    ensures bytes { result.bytes ≡ 0 }
{
    let states = Vec::new(alloc);
    Layer { states, bytes: 0 }
}

/// The layer of the first state.
pub(crate) fn first_layer<M: Turns>(
    alloc: Global,
    system: &M,
    first: M::State,
) -> Result<Layer<M::State>, AllocError>
    ensures states { IfOk result (λ layer. layer.states.items ≡ first ∷ []) }
    ensures bytes { IfOk result (λ layer. AreBytes (M.bytes_of system.now) layer.states.items layer.bytes) }
{
    let bytes = system.bytes(&first);
    let mut states = Vec::new(alloc);
    states.push(first)?;
    Ok(Layer { states, bytes })
}

/// How many states there may be in a layer, and how many bytes they may take.
#[derive(Clone, Copy)]
pub(crate) struct Room {
    pub(crate) states: usize,
    pub(crate) bytes: Option<u64>,
}

/// Whether a layer of so many states and bytes has more than there is room for.
pub(crate) fn exceeds(states: usize, bytes: u64, room: Room) -> bool
    ensures { IsTrue result ↔ (room.states < states) ⊎ IsOver bytes room.bytes }
{
    match room.bytes {
        Some(most) => states > room.states || bytes > most,
        None => states > room.states,
    }
}

/// The room that this layer leaves for the one behind it.
pub(crate) fn room_behind(limits: Limits, states: usize, bytes: u64) -> Room
    ensures states { result.states ≡ limits.states - states }
    ensures bytes { result.bytes ≡ option_map (λ most. most - bytes) limits.bytes }
{
    Room {
        states: limits.states.saturating_sub(states),
        bytes: match limits.bytes {
            Some(most) => Some(most.saturating_sub(bytes)),
            None => None,
        },
    }
}

/// Adds the state to those that come next, unless one with its key is among them.
fn add<M: Turns>(
    alloc: Global,
    system: &M,
    seen: &mut HashSet<M::Key>,
    next: &mut Layer<M::State>,
    state: M::State,
) -> Result<(), AllocError>
    requires state { M.valid system.now state }
    requires next { AreValid (M.valid system.now) next.old.states.items }
    requires stand { KeysStand (M.Key.eq) (M.key_of system.now) (contains M.Key.eq seen.old) next.old.states.items }
    requires counted { AreCounted M.Key.eq seen.old.keys next.old.states.items }
    requires bytes { AreBytes (M.bytes_of system.now) next.old.states.items next.old.bytes }
    ensures next { OnOk result (AreValid (M.valid system.now) next.new.states.items) }
    ensures stand { OnOk result (KeysStand (M.Key.eq) (M.key_of system.now) (contains M.Key.eq seen.new) next.new.states.items) }
    ensures counted { OnOk result (AreCounted M.Key.eq seen.new.keys next.new.states.items) }
    ensures bytes { OnOk result (AreBytes (M.bytes_of system.now) next.new.states.items next.new.bytes) }
    ensures covered { OnOk result (IsCovered (M.alike system.now) next.new.states.items state) }
    ensures grows { OnOk result (AddsSome next.old.states.items state next.new.states.items) }
{
    let key = system.key(alloc, &state)?;
    if seen.insert(key)? {
        next.bytes = next.bytes.saturating_add(system.bytes(&state));
        next.states.push(state)?;
    }
    Ok(())
}

/// Adds each of the states, unless one with its key is there.
pub(crate) fn add_all<M: Turns>(
    alloc: Global,
    system: &M,
    seen: &mut HashSet<M::Key>,
    next: &mut Layer<M::State>,
    states: Vec<M::State>,
) -> Result<(), AllocError>
    requires states { AreValid (M.valid system.now) states.items }
    requires next { AreValid (M.valid system.now) next.old.states.items }
    requires stand { KeysStand (M.Key.eq) (M.key_of system.now) (contains M.Key.eq seen.old) next.old.states.items }
    requires counted { AreCounted M.Key.eq seen.old.keys next.old.states.items }
    requires bytes { AreBytes (M.bytes_of system.now) next.old.states.items next.old.bytes }
    ensures next { OnOk result (AreValid (M.valid system.now) next.new.states.items) }
    ensures stand { OnOk result (KeysStand (M.Key.eq) (M.key_of system.now) (contains M.Key.eq seen.new) next.new.states.items) }
    ensures counted { OnOk result (AreCounted M.Key.eq seen.new.keys next.new.states.items) }
    ensures bytes { OnOk result (AreBytes (M.bytes_of system.now) next.new.states.items next.new.bytes) }
    ensures added { OnOk result (AddsAll (M.alike system.now) next.old.states.items states.items next.new.states.items) }
{
    let mut left = states;
    while let Some(state) = left.pop() {
        add(alloc, system, seen, next, state)?;
    }
    Ok(())
}

/// What workers made of the states of a part.
pub(crate) type Made<S> = Vec<Option<Vec<S>>>;

/// What workers make of the part that begins here, if it is worth it.
fn ahead_of<M: Turns + Sync>(
    rt: &(impl Threads + Sync),
    alloc: Global,
    system: &M,
    layer: &[M::State],
    begin: usize,
) -> Result<Made<M::State>, AllocError>
    requires layer { AreValid (M.valid system.now) layer.now }
    requires within { begin ≤ length layer.now }
    ensures own { IfOk result (λ made. AreOwn (IsBehind (M.turn system.now) (M.alike system.now) layer.now begin) made.items) }
{
    let part = After {
        system,
        layer,
        begin,
    };
    let places = part_end(begin, layer.len()) - begin;
    made_ahead(rt, alloc, &part, places as u32)
}

/// Adds the states behind those of a part, of which workers made some, and tells
/// whether there was room for them.
fn add_part<M: Turns + Sync>(
    alloc: Global,
    system: &M,
    layer: &[M::State],
    begin: usize,
    end: usize,
    made: &mut Made<M::State>,
    room: Room,
    seen: &mut HashSet<M::Key>,
    next: &mut Layer<M::State>,
) -> Result<bool, AllocError>
    requires layer { AreValid (M.valid system.now) layer.now }
    requires order { begin ≤ end }
    requires within { end ≤ length layer.now }
    requires few { end ≤ begin + 1024 }
    requires own { AreOwn (IsBehind (M.turn system.now) (M.alike system.now) layer.now begin) made.old.items }
    requires gathered { IsGathered M.Key.eq (M.key_of system.now) (M.valid system.now) (M.turn system.now) (M.alike system.now)
        (M.bytes_of system.now) room.states room.bytes
        (take begin layer.now) (contains M.Key.eq seen.old) seen.old.keys next.old.states.items next.old.bytes }
    ensures gathered { IfOk result (λ fits. fits ≡ true
        → IsGathered M.Key.eq (M.key_of system.now) (M.valid system.now) (M.turn system.now) (M.alike system.now)
        (M.bytes_of system.now) room.states room.bytes
        (take end layer.now) (contains M.Key.eq seen.new) seen.new.keys next.new.states.items next.new.bytes) }
    ensures none { IfOk result (λ fits. fits ≡ false
        → LacksRoom M.Key.eq (M.key_of system.now) (M.turn system.now) layer.now room.states
        ⊎ LacksBytes M.Key.eq (M.key_of system.now) (M.turn system.now) (M.bytes_of system.now) layer.now room.bytes) }
{
    let part = After {
        system,
        layer,
        begin,
    };
    for place in 0..end - begin {
        let after = take_or_make(alloc, &part, made, place as u32)?;
        add_all(alloc, system, seen, next, after)?;
        if exceeds(next.states.len(), next.bytes, room) {
            return Ok(false);
        }
    }
    Ok(true)
}

/// Adds the states behind those of a part, and has workers go on from the part behind it meanwhile. Gives what they made, and tells whether
/// there was room.
fn add_beside<M: Turns + Sync>(
    rt: &(impl Threads + Sync),
    alloc: Global,
    system: &M,
    layer: &[M::State],
    begin: usize,
    end: usize,
    mut made: Made<M::State>,
    room: Room,
    seen: &mut HashSet<M::Key>,
    next: &mut Layer<M::State>,
) -> Result<(Made<M::State>, bool), AllocError>
    requires layer { AreValid (M.valid system.now) layer.now }
    requires order { begin ≤ end }
    requires within { end ≤ length layer.now }
    requires few { end ≤ begin + 1024 }
    requires own { AreOwn (IsBehind (M.turn system.now) (M.alike system.now) layer.now begin) made.items }
    requires gathered { IsGathered M.Key.eq (M.key_of system.now) (M.valid system.now) (M.turn system.now) (M.alike system.now)
        (M.bytes_of system.now) room.states room.bytes
        (take begin layer.now) (contains M.Key.eq seen.old) seen.old.keys next.old.states.items next.old.bytes }
    ensures own { IfOk result (λ done. AreOwn (IsBehind (M.turn system.now) (M.alike system.now) layer.now end) done.0.items) }
    ensures gathered { IfOk result (λ done. done.1 ≡ true
        → IsGathered M.Key.eq (M.key_of system.now) (M.valid system.now) (M.turn system.now) (M.alike system.now)
        (M.bytes_of system.now) room.states room.bytes
        (take end layer.now) (contains M.Key.eq seen.new) seen.new.keys next.new.states.items next.new.bytes) }
    ensures none { IfOk result (λ done. done.1 ≡ false
        → LacksRoom M.Key.eq (M.key_of system.now) (M.turn system.now) layer.now room.states
        ⊎ LacksBytes M.Key.eq (M.key_of system.now) (M.turn system.now) (M.bytes_of system.now) layer.now room.bytes) }
{
    if end == layer.len() {
        let fits = add_part(
            alloc, system, layer, begin, end, &mut made, room, seen, next,
        )?;
        return Ok((Vec::new(alloc), fits));
    }
    let (ahead, fits) = join_mut(
        rt,
        &mut || -> Result<Made<M::State>, AllocError>
            requires layer { AreValid (M.valid system.now) layer.now }
            requires within { end ≤ length layer.now }
        { ahead_of(rt, alloc, system, layer, end) },
        &mut || -> Result<bool, AllocError>
            requires layer { AreValid (M.valid system.now) layer.now }
            requires order { begin ≤ end }
            requires within { end ≤ length layer.now }
            requires few { end ≤ begin + 1024 }
            requires own { AreOwn (IsBehind (M.turn system.now) (M.alike system.now) layer.now begin) made.items }
            requires gathered { IsGathered M.Key.eq (M.key_of system.now) (M.valid system.now) (M.turn system.now) (M.alike system.now)
                (M.bytes_of system.now) room.states room.bytes (take begin layer.now) (contains M.Key.eq seen.now) seen.now.keys
                next.now.states.items next.now.bytes }
            ensures gathered { IfOk result (λ fits. fits ≡ true
                → IsGathered M.Key.eq (M.key_of system.entry.now) (M.valid system.entry.now) (M.turn system.entry.now) (M.alike system.entry.now)
                (M.bytes_of system.entry.now) room.states room.bytes (take end layer.entry.now) (contains M.Key.eq seen.exit.now)
                seen.exit.now.keys next.exit.now.states.items next.exit.now.bytes) }
            ensures none { IfOk result (λ fits. fits ≡ false
                → LacksRoom M.Key.eq (M.key_of system.entry.now) (M.turn system.entry.now) layer.entry.now room.states
                ⊎ LacksBytes M.Key.eq (M.key_of system.entry.now) (M.turn system.entry.now) (M.bytes_of system.entry.now) layer.entry.now
                room.bytes) }
        {
            add_part(
                alloc, system, layer, begin, end, &mut made, room, seen, next,
            )
        },
    );
    let ahead = ahead?;
    let fits = fits?;
    Ok((ahead, fits))
}

/// The layer behind this one, unless there isn't room for it.
pub(crate) fn next_layer<M: Turns + Sync>(
    rt: &(impl Threads + Sync),
    alloc: Global,
    system: &M,
    layer: &[M::State],
    room: Room,
) -> Result<Option<Layer<M::State>>, AllocError>
    requires layer { AreValid (M.valid system.now) layer.now }
    ensures next { IfOk result (λ next. IfSome next (λ behind.
        AreNext (M.turn system.now) (M.alike system.now) layer.now behind.states.items)) }
    ensures keys { IfOk result (λ next. IfSome next (λ behind.
        (keys : List M.Key) × AreKeysOf M.Key.eq (M.key_of system.now) keys behind.states.items)) }
    ensures bytes { IfOk result (λ next. IfSome next (λ behind. AreBytes (M.bytes_of system.now) behind.states.items behind.bytes)) }
    ensures fits { IfOk result (λ next. IfSome next (λ behind. Fits (length behind.states.items) behind.bytes room.states room.bytes)) }
    ensures none { IfOk result (λ next. IfNone next (LacksRoom M.Key.eq (M.key_of system.now) (M.turn system.now) layer.now room.states
        ⊎ LacksBytes M.Key.eq (M.key_of system.now) (M.turn system.now) (M.bytes_of system.now) layer.now room.bytes)) }
{
    let mut seen = HashSet::new(alloc);
    let mut next = no_layer(alloc);
    let mut made = ahead_of(rt, alloc, system, layer, 0)?;
    let mut begin = 0;
    while begin < layer.len() {
        let end = part_end(begin, layer.len());
        let (ahead, fits) = add_beside(
            rt, alloc, system, layer, begin, end, made, room, &mut seen, &mut next,
        )?;
        if !fits {
            return Ok(None);
        }
        made = ahead;
        begin = end;
    }
    Ok(Some(next))
}

/// The place of the first state of the layer that meets what is looked for.
pub(crate) fn first_met<M: Turns>(system: &M, layer: &[M::State]) -> Option<usize>
    ensures met { IfSome result (λ place. MeetsAt (M.meets system.now) layer.now place) }
    ensures none { result ≡ None → NoneIsMet (M.meets system.now) layer.now }
{
    for (place, state) in layer.iter().enumerate() {
        if system.is_met(state) {
            return Some(place);
        }
    }
    None
}
