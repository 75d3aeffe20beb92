//! Numbers that can be smaller in a trace that meets conditions.
ghost use Rattle.std.specs.Prelude.{◌≡◌, ◌<◌, ◌-◌, ◌≤◌, ℕ, true, false, IfOk, OnOk, length};
ghost use Rattle.hp_hunt.specs.Conditions.{SomeRunMeets, SomeRunMisses};
ghost use Rattle.hp_hunt.specs.Lowering.{IsLowest, sum_of};
ghost use Rattle.hp_hunt.specs.Numbers.{IsLeft, number_at, with_number};

use crate::condition::Condition;
use crate::cutting::{Shrinking, keep_if_met};
use crate::numbers::{Which, number_of, replaced};
use hp_base::{Config, Event};
use std::alloc::{AllocError, Global};

/// That number of the event at the place.
fn number_at(events: &[Event], place: usize, which: Which) -> u64
    requires { place < length events.now }
    ensures { result ≡ number_at events.now place which }
{
    number_of(&events[place], which)
}

/// The events with a smaller number there.
fn with_number(
    alloc: Global,
    events: &[Event],
    place: usize,
    which: Which,
    number: u64,
) -> Result<Vec<Event>, AllocError>
    requires there { place < length events.now }
    requires smaller { number ≤ number_at events.now place which }
    ensures { IfOk result (λ lowered. lowered.items ≡ with_number events.now place which number) }
{
    let mut lowered = events.to_vec(alloc)?;
    lowered[place] = replaced(&events[place], which, number);
    Ok(lowered)
}

/// Makes the number smaller where a run of the events still meets the conditions. Tells whether it did.
fn try_number(
    alloc: Global,
    config: Config,
    events: &mut Vec<Event>,
    place: usize,
    which: Which,
    number: u64,
    conditions: &[Condition],
    watcher: &mut impl Shrinking,
) -> Result<bool, AllocError>
    requires there { place < length events.old.items }
    requires smaller { number ≤ number_at events.old.items place which }
    ensures lowered { IfOk result (λ done. done ≡ true → (events.new.items ≡ with_number events.old.items place which number)
        × SomeRunMeets config events.new.items conditions.now) }
    ensures kept { IfOk result (λ done. done ≡ false → (events.new.items ≡ events.old.items)
        × SomeRunMisses config (with_number events.old.items place which number) conditions.now) }
{
    let lowered = with_number(alloc, events.as_slice(), place, which, number)?;
    keep_if_met(alloc, config, events, lowered, conditions, watcher)
}

/// Makes the number as small as may be, by steps that are halved where one is too large: then one less is too small. Tells whether it is
/// smaller now.
fn lower_number(
    alloc: Global,
    config: Config,
    events: &mut Vec<Event>,
    place: usize,
    which: Which,
    conditions: &[Condition],
    watcher: &mut impl Shrinking,
) -> Result<bool, AllocError>
    requires there { place < length events.old.items }
    requires meets { SomeRunMeets config events.old.items conditions.now }
    ensures left { IfOk result (λ done. IsLeft events.new.items events.old.items) }
    ensures meets { IfOk result (λ done. SomeRunMeets config events.new.items conditions.now) }
    ensures count { IfOk result (λ done. length events.new.items ≡ length events.old.items) }
    ensures smaller { IfOk result (λ done. done ≡ true → sum_of events.new.items < sum_of events.old.items) }
    ensures same { IfOk result (λ done. done ≡ false → events.new.items ≡ events.old.items) }
    ensures lowest { IfOk result (λ done. IsLowest config conditions.now events.new.items place which) }
{
    let mut done = false;
    let mut step = number_at(events, place, which);
    while step > 0 {
        let number = number_at(events, place, which) - step;
        if try_number(
            alloc, config, events, place, which, number, conditions, watcher,
        )? {
            done = true;
            step = step.min(number);
        } else {
            step /= 2;
        }
    }
    Ok(done)
}

/// Makes the numbers of the event at the place as small as may be, one after the other. Tells whether one is smaller now.
fn lower_event(
    alloc: Global,
    config: Config,
    events: &mut Vec<Event>,
    place: usize,
    conditions: &[Condition],
    watcher: &mut impl Shrinking,
) -> Result<bool, AllocError>
    requires there { place < length events.old.items }
    requires meets { SomeRunMeets config events.old.items conditions.now }
    ensures left { IfOk result (λ done. IsLeft events.new.items events.old.items) }
    ensures meets { IfOk result (λ done. SomeRunMeets config events.new.items conditions.now) }
    ensures count { IfOk result (λ done. length events.new.items ≡ length events.old.items) }
    ensures smaller { IfOk result (λ done. done ≡ true → sum_of events.new.items < sum_of events.old.items) }
    ensures same { IfOk result (λ done. done ≡ false → events.new.items ≡ events.old.items) }
    ensures lowest { IfOk result (λ done. done ≡ false
        → (which : Which) → IsLowest config conditions.now events.new.items place which) }
{
    let first = lower_number(
        alloc,
        config,
        events,
        place,
        Which::First,
        conditions,
        watcher,
    )?;
    let second = lower_number(
        alloc,
        config,
        events,
        place,
        Which::Second,
        conditions,
        watcher,
    )?;
    let third = lower_number(
        alloc,
        config,
        events,
        place,
        Which::Third,
        conditions,
        watcher,
    )?;
    Ok(first || second || third)
}

/// Goes once over the events, from the last on, and makes their numbers as small as may be. Tells whether one is smaller now.
pub(crate) fn lower_each(
    alloc: Global,
    config: Config,
    events: &mut Vec<Event>,
    conditions: &[Condition],
    watcher: &mut impl Shrinking,
) -> Result<bool, AllocError>
    requires { SomeRunMeets config events.old.items conditions.now }
    ensures left { IfOk result (λ done. IsLeft events.new.items events.old.items) }
    ensures meets { IfOk result (λ done. SomeRunMeets config events.new.items conditions.now) }
    ensures smaller { IfOk result (λ done. done ≡ true → sum_of events.new.items < sum_of events.old.items) }
    ensures same { IfOk result (λ done. done ≡ false → events.new.items ≡ events.old.items) }
    ensures lowest { IfOk result (λ done. done ≡ false → (place : ℕ) (which : Which)
        → IsLowest config conditions.now events.new.items place which) }
{
    let mut done = false;
    let mut place = events.len();
    while place > 0 {
        place -= 1;
        if lower_event(alloc, config, events, place, conditions, watcher)? {
            done = true;
        }
    }
    Ok(done)
}
