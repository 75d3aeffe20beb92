//! Events that can go from a trace that meets conditions.
ghost use Rattle.std.specs.Prelude.{◌≡◌, ◌≤◌, ◌<◌, ◌+◌, ℕ, true, false, IfOk, OnOk, length};
ghost use Rattle.hp_hunt.specs.Conditions.{SomeRunMeets, SomeRunMisses};
ghost use Rattle.hp_hunt.specs.Cutting.{IsCut, IsSubsequence, cut};

use crate::belonging::{cut_calls, cut_tasks};
use crate::condition::Condition;
use crate::meeting::meets;
use hp_base::{Config, Event};
use std::alloc::{AllocError, Global};

/// The events without so many of them from that place on.
fn without(
    alloc: Global,
    events: &[Event],
    from: usize,
    len: usize,
) -> Result<Vec<Event>, AllocError>
    requires { from + len ≤ length events.now }
    ensures { IfOk result (λ left. left.items ≡ cut events.now from len) }
{
    let mut left = events[..from].to_vec(alloc)?;
    for event in &events[from + len..] {
        left.push(*event)?;
    }
    Ok(left)
}

/// Who watches how a trace becomes smaller.
pub trait Shrinking {
    /// So many events are left.
    fn left(&mut self, events: usize);
}

/// Takes what is left in the place of the events where a run of it meets the conditions. Tells whether one does.
pub(crate) fn keep_if_met(
    alloc: Global,
    config: Config,
    events: &mut Vec<Event>,
    left: Vec<Event>,
    conditions: &[Condition],
    watcher: &mut impl Shrinking,
) -> Result<bool, AllocError>
    ensures taken { IfOk result (λ met. met ≡ true → (events.new.items ≡ left.items)
        × SomeRunMeets config left.items conditions.now) }
    ensures kept { IfOk result (λ met. met ≡ false → (events.new.items ≡ events.old.items)
        × SomeRunMisses config left.items conditions.now) }
{
    let met = meets(alloc, config, left.as_slice(), conditions)?;
    if met {
        *events = left;
    }
    watcher.left(events.len());
    Ok(met)
}

/// Drops these events where a run of the others still meets the conditions. Tells whether it did.
fn try_cut(
    alloc: Global,
    config: Config,
    events: &mut Vec<Event>,
    from: usize,
    len: usize,
    conditions: &[Condition],
    watcher: &mut impl Shrinking,
) -> Result<bool, AllocError>
    requires { from + len ≤ length events.old.items }
    ensures dropped { IfOk result (λ done. done ≡ true → (events.new.items ≡ cut events.old.items from len)
        × SomeRunMeets config events.new.items conditions.now) }
    ensures kept { IfOk result (λ done. done ≡ false → (events.new.items ≡ events.old.items)
        × SomeRunMisses config (cut events.old.items from len) conditions.now) }
{
    let left = without(alloc, events.as_slice(), from, len)?;
    keep_if_met(alloc, config, events, left, conditions, watcher)
}

/// Goes once over the events, from the last on, and drops each chunk of so many that can go.
fn cut_chunks(
    alloc: Global,
    config: Config,
    events: &mut Vec<Event>,
    chunk: usize,
    conditions: &[Condition],
    watcher: &mut impl Shrinking,
) -> Result<(), AllocError>
    requires some { 0 < chunk }
    requires meets { SomeRunMeets config events.old.items conditions.now }
    ensures left { OnOk result (IsSubsequence events.new.items events.old.items) }
    ensures meets { OnOk result (SomeRunMeets config events.new.items conditions.now) }
{
    let mut place = events.len();
    while place > 0 {
        let from = place.saturating_sub(chunk);
        try_cut(
            alloc,
            config,
            events,
            from,
            place - from,
            conditions,
            watcher,
        )?;
        place = from;
    }
    Ok(())
}

/// Drops chunks that can go: halves, then quarters, and so on down to two events.
fn cut_halves(
    alloc: Global,
    config: Config,
    events: &mut Vec<Event>,
    conditions: &[Condition],
    watcher: &mut impl Shrinking,
) -> Result<(), AllocError>
    requires { SomeRunMeets config events.old.items conditions.now }
    ensures left { OnOk result (IsSubsequence events.new.items events.old.items) }
    ensures meets { OnOk result (SomeRunMeets config events.new.items conditions.now) }
{
    let mut chunk = events.len() / 2;
    while chunk > 1 {
        cut_chunks(alloc, config, events, chunk, conditions, watcher)?;
        chunk /= 2;
    }
    Ok(())
}

/// Goes once over the events, from the last on, and drops each that can go. Tells whether one did.
fn cut_each(
    alloc: Global,
    config: Config,
    events: &mut Vec<Event>,
    conditions: &[Condition],
    watcher: &mut impl Shrinking,
) -> Result<bool, AllocError>
    requires { SomeRunMeets config events.old.items conditions.now }
    ensures left { IfOk result (λ done. IsSubsequence events.new.items events.old.items) }
    ensures meets { IfOk result (λ done. SomeRunMeets config events.new.items conditions.now) }
    ensures fewer { IfOk result (λ done. done ≡ true → length events.new.items < length events.old.items) }
    ensures none { IfOk result (λ done. done ≡ false → (place : ℕ) → place < length events.new.items
        → SomeRunMisses config (cut events.new.items place 1) conditions.now) }
{
    let mut done = false;
    let mut place = events.len();
    while place > 0 {
        place -= 1;
        if try_cut(alloc, config, events, place, 1, conditions, watcher)? {
            done = true;
        }
    }
    Ok(done)
}

/// Drops what can go, until no event can: whole tasks, chunks, whole calls, and single events.
pub(crate) fn cut_all(
    alloc: Global,
    config: Config,
    events: &mut Vec<Event>,
    conditions: &[Condition],
    watcher: &mut impl Shrinking,
) -> Result<(), AllocError>
    requires { SomeRunMeets config events.old.items conditions.now }
    ensures { OnOk result (IsCut config events.old.items conditions.now events.new.items) }
{
    cut_tasks(alloc, config, events, conditions, watcher)?;
    cut_halves(alloc, config, events, conditions, watcher)?;
    cut_calls(alloc, config, events, conditions, watcher)?;
    while cut_each(alloc, config, events, conditions, watcher)? {}
    Ok(())
}
