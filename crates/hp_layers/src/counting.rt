//! In how many ways runs lead to states, layer by layer.
ghost use Rattle.std.specs.Prelude.{◌≡◌, ◌+◌, ◌≤◌, ◌⊎◌, [], IfNone, IfOk, IfSome, List, OnOk, false, length, min, take, true};
ghost use Rattle.hp_workers.specs.Claims.{AreOwn};
ghost use Rattle.std.specs.HashMap.{get};
ghost use Rattle.hp_layers.specs.Layers.{AddsAll, AreBytes, AreKeysOf, AreNext, AreValid, Fits, LacksBytes, LacksRoom};
ghost use Rattle.hp_layers.specs.Named.{AddsEach, AddsWays, GoOn, IsTallied, IsEachBehind, IsIndexed, KeepsPlaces};
ghost use Rattle.hp_layers.specs.Weighed.{AreWithin};

use crate::ending::Ends;
use crate::layer::{Made, Room, exceeds};
use crate::parts::{EachAfter, part_end};
use hp_workers::{made_ahead, take_or_make};
use std::alloc::{AllocError, Global};
use std::collections::HashMap;
use std::hash::Hash;
use std::thread::{Threads, join_mut};

/// States, and for each in how many ways runs lead there. The largest number counts as that many or more.
#[derive(Debug, Drop)]
pub struct RunCounts<S> {
    pub states: Vec<S>,
    pub ways: Vec<u128>,
}

/// No state yet.
pub(crate) fn no_counts<S: Drop>(alloc: Global) -> RunCounts<S>
    ensures states { result.states.items ≡ [] }
    ensures ways { result.ways.items ≡ [] }
{
    RunCounts {
        states: Vec::new(alloc),
        ways: Vec::new(alloc),
    }
}

/// Adds so many ways to those of the state at the key's place, or to the end with the state.
pub(crate) fn add_ways<K: Eq + Hash + Drop, S: Drop>(
    places: &mut HashMap<K, usize>,
    counts: &mut RunCounts<S>,
    key: K,
    state: S,
    more: u128,
) -> Result<(), AllocError>
    requires long { length counts.old.ways.items ≡ length counts.old.states.items }
    requires within { AreWithin (get K.eq places.old) (length counts.old.states.items) }
    ensures long { OnOk result (length counts.new.ways.items ≡ length counts.new.states.items) }
    ensures added { OnOk result (AddsWays K.eq (get K.eq places.old) (get K.eq places.new) key state more counts.old counts.new) }
{
    let place = places.get(&key).copied();
    match place {
        Some(at) => {
            counts.ways[at] = counts.ways[at].saturating_add(more);
        }
        None => {
            places.insert(key, counts.states.len())?;
            counts.states.push(state)?;
            counts.ways.push(more)?;
        }
    }
    Ok(())
}

/// The states of a layer with their ways, and how many bytes they take: the largest number stands for as many or more.
#[derive(Drop)]
pub(crate) struct CountedLayer<S> {
    pub(crate) counts: RunCounts<S>,
    pub(crate) bytes: u64,
}

/// Adds so many bytes, unless there are as many states as before.
fn bytes_with(bytes: u64, more: u64, before: usize, now: usize) -> u64
    ensures same { before ≡ now → result ≡ bytes }
    ensures more { ¬ (before ≡ now) → result ≡ min (bytes + more) 18446744073709551615 }
{
    if now == before {
        bytes
    } else {
        bytes.saturating_add(more)
    }
}

/// Adds each of the states behind one, in so many ways.
fn add_each<M: Ends>(
    alloc: Global,
    system: &M,
    places: &mut HashMap<M::Key, usize>,
    next: &mut CountedLayer<M::State>,
    states: Vec<M::State>,
    more: u128,
) -> Result<(), AllocError>
    requires states { AreValid (M.valid system.now) states.items }
    requires valid { AreValid (M.valid system.now) next.old.counts.states.items }
    requires long { length next.old.counts.ways.items ≡ length next.old.counts.states.items }
    requires indexed { IsIndexed M.Key.eq (λ s k. M.key_of system.now s ≡ k) (get M.Key.eq places.old) next.old.counts.states.items }
    requires bytes { AreBytes (M.bytes_of system.now) next.old.counts.states.items next.old.bytes }
    ensures valid { OnOk result (AreValid (M.valid system.now) next.new.counts.states.items) }
    ensures long { OnOk result (length next.new.counts.ways.items ≡ length next.new.counts.states.items) }
    ensures indexed { OnOk result
        (IsIndexed M.Key.eq (λ s k. M.key_of system.now s ≡ k) (get M.Key.eq places.new) next.new.counts.states.items) }
    ensures bytes { OnOk result (AreBytes (M.bytes_of system.now) next.new.counts.states.items next.new.bytes) }
    ensures kept { OnOk result (KeepsPlaces (get M.Key.eq places.old) (get M.Key.eq places.new)) }
    ensures added { OnOk result (AddsAll (M.alike system.now) next.old.counts.states.items states.items next.new.counts.states.items) }
    ensures each { OnOk result (AddsEach (M.key_of system.now) (get M.Key.eq places.new) states.items more
        next.old.counts.ways.items next.new.counts.ways.items) }
{
    let mut left = states;
    while let Some(state) = left.pop() {
        let key = system.key(alloc, &state)?;
        let bytes = system.bytes(&state);
        let before = next.counts.states.len();
        add_ways(places, &mut next.counts, key, state, more)?;
        next.bytes = bytes_with(next.bytes, bytes, before, next.counts.states.len());
    }
    Ok(())
}

/// What workers make of the part that begins here, if it is worth it.
fn ahead_of<M: Ends + Sync>(
    rt: &(impl Threads + Sync),
    alloc: Global,
    system: &M,
    layer: &[M::State],
    begin: usize,
) -> Result<Made<M::State>, AllocError>
    requires layer { AreValid (M.valid system.now) layer.now }
    requires within { begin ≤ length layer.now }
    ensures own { IfOk result (λ made. AreOwn (IsEachBehind (M.step system.now) layer.now begin) made.items) }
{
    let part = EachAfter {
        system,
        layer,
        begin,
    };
    let places = part_end(begin, layer.len()) - begin;
    made_ahead(rt, alloc, &part, places as u32)
}

/// Adds the states behind those of a part, of which workers made some, each in the ways of the state before it. Tells
/// whether there was room for them.
fn add_part<M: Ends + Sync>(
    alloc: Global,
    system: &M,
    layer: &[M::State],
    ways: &[u128],
    begin: usize,
    end: usize,
    made: &mut Made<M::State>,
    room: Room,
    seats: &mut HashMap<M::Key, usize>,
    next: &mut CountedLayer<M::State>,
) -> Result<bool, AllocError>
    requires layer { AreValid (M.valid system.now) layer.now }
    requires order { begin ≤ end }
    requires within { end ≤ length layer.now }
    requires few { end ≤ begin + 1024 }
    requires ways { length ways.now ≡ length layer.now }
    requires own { AreOwn (IsEachBehind (M.step system.now) layer.now begin) made.old.items }
    requires tallied { IsTallied (M.step system.now) M.Key.eq (M.key_of system.now) (M.valid system.now) (M.turn system.now) (M.alike system.now)
        (M.bytes_of system.now) room.states room.bytes
        (take begin layer.now) (take begin ways.now) (get M.Key.eq seats.old) next.old.counts next.old.bytes }
    ensures tallied { IfOk result (λ fits. fits ≡ true
        → IsTallied (M.step system.now) M.Key.eq (M.key_of system.now) (M.valid system.now) (M.turn system.now) (M.alike system.now)
        (M.bytes_of system.now) room.states room.bytes
        (take end layer.now) (take end ways.now) (get M.Key.eq seats.new) next.new.counts next.new.bytes) }
    ensures none { IfOk result (λ fits. fits ≡ false
        → LacksRoom M.Key.eq (M.key_of system.now) (M.turn system.now) layer.now room.states
        ⊎ LacksBytes M.Key.eq (M.key_of system.now) (M.turn system.now) (M.bytes_of system.now) layer.now room.bytes) }
{
    let part = EachAfter {
        system,
        layer,
        begin,
    };
    for place in 0..end - begin {
        let after = take_or_make(alloc, &part, made, place as u32)?;
        let more = ways[begin + place];
        add_each(alloc, system, seats, next, after, more)?;
        let many = next.counts.states.len();
        if exceeds(many, next.bytes, room) {
            return Ok(false);
        }
    }
    Ok(true)
}

/// Adds the states behind those of a part, and has workers go on from the part behind it meanwhile. Gives what they made, and tells whether
/// there was room.
fn add_beside<M: Ends + Sync>(
    rt: &(impl Threads + Sync),
    alloc: Global,
    system: &M,
    layer: &[M::State],
    ways: &[u128],
    begin: usize,
    end: usize,
    mut made: Made<M::State>,
    room: Room,
    seats: &mut HashMap<M::Key, usize>,
    next: &mut CountedLayer<M::State>,
) -> Result<(Made<M::State>, bool), AllocError>
    requires layer { AreValid (M.valid system.now) layer.now }
    requires order { begin ≤ end }
    requires within { end ≤ length layer.now }
    requires few { end ≤ begin + 1024 }
    requires ways { length ways.now ≡ length layer.now }
    requires own { AreOwn (IsEachBehind (M.step system.now) layer.now begin) made.items }
    requires tallied { IsTallied (M.step system.now) M.Key.eq (M.key_of system.now) (M.valid system.now) (M.turn system.now) (M.alike system.now)
        (M.bytes_of system.now) room.states room.bytes
        (take begin layer.now) (take begin ways.now) (get M.Key.eq seats.old) next.old.counts next.old.bytes }
    ensures own { IfOk result (λ done. AreOwn (IsEachBehind (M.step system.now) layer.now end) done.0.items) }
    ensures tallied { IfOk result (λ done. done.1 ≡ true
        → IsTallied (M.step system.now) M.Key.eq (M.key_of system.now) (M.valid system.now) (M.turn system.now) (M.alike system.now)
        (M.bytes_of system.now) room.states room.bytes
        (take end layer.now) (take end ways.now) (get M.Key.eq seats.new) next.new.counts next.new.bytes) }
    ensures none { IfOk result (λ done. done.1 ≡ false
        → LacksRoom M.Key.eq (M.key_of system.now) (M.turn system.now) layer.now room.states
        ⊎ LacksBytes M.Key.eq (M.key_of system.now) (M.turn system.now) (M.bytes_of system.now) layer.now room.bytes) }
{
    if end == layer.len() {
        let fits = add_part(
            alloc, system, layer, ways, begin, end, &mut made, room, seats, next,
        )?;
        return Ok((Vec::new(alloc), fits));
    }
    let (ahead, fits) = join_mut(
        rt,
        &mut || -> Result<Made<M::State>, AllocError>
            requires layer { AreValid (M.valid system.now) layer.now }
            requires within { end ≤ length layer.now }
        { ahead_of(rt, alloc, system, layer, end) },
        &mut || -> Result<bool, AllocError>
            requires layer { AreValid (M.valid system.now) layer.now }
            requires order { begin ≤ end }
            requires within { end ≤ length layer.now }
            requires few { end ≤ begin + 1024 }
            requires ways { length ways.now ≡ length layer.now }
            requires own { AreOwn (IsEachBehind (M.step system.now) layer.now begin) made.items }
            requires tallied { IsTallied (M.step system.now) M.Key.eq (M.key_of system.now) (M.valid system.now) (M.turn system.now)
                (M.alike system.now) (M.bytes_of system.now) room.states room.bytes (take begin layer.now) (take begin ways.now)
                (get M.Key.eq seats.now) next.now.counts next.now.bytes }
            ensures tallied { IfOk result (λ fits. fits ≡ true
                → IsTallied (M.step system.entry.now) M.Key.eq (M.key_of system.entry.now) (M.valid system.entry.now) (M.turn system.entry.now)
                (M.alike system.entry.now) (M.bytes_of system.entry.now) room.states room.bytes (take end layer.entry.now)
                (take end ways.entry.now) (get M.Key.eq seats.exit.now) next.exit.now.counts next.exit.now.bytes) }
            ensures none { IfOk result (λ fits. fits ≡ false
                → LacksRoom M.Key.eq (M.key_of system.entry.now) (M.turn system.entry.now) layer.entry.now room.states
                ⊎ LacksBytes M.Key.eq (M.key_of system.entry.now) (M.turn system.entry.now) (M.bytes_of system.entry.now) layer.entry.now
                room.bytes) }
        {
            add_part(
                alloc, system, layer, ways, begin, end, &mut made, room, seats, next,
            )
        },
    );
    let ahead = ahead?;
    let fits = fits?;
    Ok((ahead, fits))
}

/// The states behind a layer, with their ways, unless there isn't room for them.
pub(crate) fn next_counts<M: Ends + Sync>(
    rt: &(impl Threads + Sync),
    alloc: Global,
    system: &M,
    layer: &RunCounts<M::State>,
    room: Room,
) -> Result<Option<CountedLayer<M::State>>, AllocError>
    requires valid { AreValid (M.valid system.now) layer.now.states.items }
    requires long { length layer.now.ways.items ≡ length layer.now.states.items }
    ensures long { IfOk result (λ next. IfSome next (λ behind. length behind.counts.ways.items ≡ length behind.counts.states.items)) }
    ensures next { IfOk result (λ next. IfSome next (λ behind.
        AreNext (M.turn system.now) (M.alike system.now) layer.now.states.items behind.counts.states.items)) }
    ensures keys { IfOk result (λ next. IfSome next (λ behind.
        (keys : List M.Key) × AreKeysOf M.Key.eq (M.key_of system.now) keys behind.counts.states.items)) }
    ensures goes { IfOk result (λ next. IfSome next (λ behind. GoOn (M.step system.now) (M.alike system.now) layer.now behind.counts)) }
    ensures bytes { IfOk result (λ next. IfSome next (λ behind.
        AreBytes (M.bytes_of system.now) behind.counts.states.items behind.bytes)) }
    ensures fits { IfOk result (λ next. IfSome next (λ behind.
        Fits (length behind.counts.states.items) behind.bytes room.states room.bytes)) }
    ensures none { IfOk result (λ next. IfNone next
        (LacksRoom M.Key.eq (M.key_of system.now) (M.turn system.now) layer.now.states.items room.states
        ⊎ LacksBytes M.Key.eq (M.key_of system.now) (M.turn system.now) (M.bytes_of system.now) layer.now.states.items room.bytes)) }
{
    let mut seats = HashMap::new(alloc);
    let mut next = CountedLayer {
        counts: no_counts(alloc),
        bytes: 0,
    };
    let states = layer.states.as_slice();
    let mut made = ahead_of(rt, alloc, system, states, 0)?;
    let mut begin = 0;
    while begin < states.len() {
        let end = part_end(begin, states.len());
        let ways = layer.ways.as_slice();
        let (ahead, fits) = add_beside(
            rt, alloc, system, states, ways, begin, end, made, room, &mut seats, &mut next,
        )?;
        if !fits {
            return Ok(None);
        }
        made = ahead;
        begin = end;
    }
    Ok(Some(next))
}
