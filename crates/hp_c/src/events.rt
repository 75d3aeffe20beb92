//! Events of a pool.
ghost use Rattle.std.specs.Prelude.{◌≡◌, ◌↔◌, ◌<◌, Some, None, IfOk, IfErr, IfSome, ⊤, length, take, drop};
ghost use Rattle.hp_core.specs.State.{CoreState};
ghost use Rattle.hp_core.specs.HeldBack.{HeldBack};
ghost use Rattle.hp_words.specs.Words.{event_named, outcome_words};
ghost use Rattle.hp_handle.specs.Held.{held};
ghost use Rattle.hp_c.specs.Answers.{Answered, Happened, IsEventRefused, IsLookRefused, LooksAhead, SeenAhead};
ghost use Rattle.hp_c.specs.Runs.{Ran, RanOn, IsRunRefused};

use crate::codes::{IS_CLOSED, NO_MEMORY, NO_SUCH, OK, TOO_SMALL};
use hp_base::{Answer, Event, Op};
use hp_core::Core;
use hp_handle::Handle;
use hp_machine::Outcome;
use hp_replay::next_outcome;
use hp_words::{EventWords, OutcomeWords};
use std::alloc::Global;

/// The event of the core that the numbers name.
fn happen(core: &mut Core, event: EventWords, was_held_back: bool) -> Result<OutcomeWords, u32>
    ensures ok { IfOk result (λ words. Happened (Some core.old) (event_named event) words (Some core.new)) }
    ensures err { IfErr result (λ code. core.new ≡ core.old) }
    ensures code { IfErr result (λ code. IsEventRefused (Some core.old) (event_named event) code) }
{
    // The checker of borrows asks for a mention of the types that an event and an outcome may hold.
    let _none: (Option<Answer>, Option<Op>) = (None, None);
    let Some(event) = event.event() else {
        return Err(NO_SUCH);
    };
    match next_outcome(core, event, was_held_back) {
        Ok(outcome) => Ok(OutcomeWords::of(outcome)),
        Err(_) => Err(NO_MEMORY),
    }
}

/// One event: a row of the machine, with its outcome. Where the pool is closed, the numbers name no event, or there is no memory for
/// what the event wants, nothing changes and nothing is told.
#[unsafe(no_mangle)]
pub extern "C" fn hugepool_event(
    alloc: Global,
    pool: &mut Handle,
    event: &EventWords,
    outcome: &mut OutcomeWords,
) -> u32
    ensures happened { Answered result (Happened (held pool.old) (event_named event.now) outcome.new (held pool.new))
        (held pool.new ≡ held pool.old) }
    ensures kept { Answered result ⊤ (outcome.new ≡ outcome.old) }
    ensures code { Answered result ⊤ (IsEventRefused (held pool.old) (event_named event.now) result) }
{
    let was_held_back = pool.was_held_back;
    let Some(mut core) = pool.take(alloc) else {
        return IS_CLOSED;
    };
    let happened = happen(&mut core, *event, was_held_back);
    *pool = Handle::open(core);
    match happened {
        Ok(words) => {
            pool.was_held_back = words.is_held_back();
            *outcome = words;
            OK
        }
        Err(code) => code,
    }
}

/// Events of the core, one after the other, until all happened, or one can't, or there is no room for its outcome: how many happened,
/// and the code.
fn happen_all(core: &mut Core, events: &[EventWords], outcomes: &mut [OutcomeWords]) -> (usize, u32)
    ensures ran { RanOn core.old (take result.0 events.now) (take result.0 outcomes.new) core.new }
    ensures rest { drop result.0 outcomes.new ≡ drop result.0 outcomes.old }
    ensures code { Answered result.1 (result.0 ≡ length events.now)
        (IsRunRefused (Some core.new) events.now (length outcomes.old) result.0 result.1) }
{
    let mut done = 0;
    let mut was_held_back = false;
    for event in events {
        if done == outcomes.len() {
            return (done, TOO_SMALL);
        }
        match happen(core, *event, was_held_back) {
            Ok(words) => {
                was_held_back = words.is_held_back();
                outcomes[done] = words;
            }
            Err(code) => return (done, code),
        }
        done += 1;
    }
    (done, OK)
}

/// Events, one after the other, with their outcomes. It stops at the first that can't happen, as a single event couldn't, and where there
/// is no room for an outcome; `done` is how many happened.
#[unsafe(no_mangle)]
pub extern "C" fn hugepool_events(
    alloc: Global,
    pool: &mut Handle,
    events: &[EventWords],
    outcomes: &mut [OutcomeWords],
    done: &mut usize,
) -> u32
    ensures ran { Ran (held pool.old) (take done.new events.now) (take done.new outcomes.new) (held pool.new) }
    ensures rest { drop done.new outcomes.new ≡ drop done.new outcomes.old }
    ensures code { Answered result (done.new ≡ length events.now)
        (IsRunRefused (held pool.new) events.now (length outcomes.old) done.new result) }
{
    let Some(mut core) = pool.take(alloc) else {
        *done = 0;
        return IS_CLOSED;
    };
    let (count, code) = happen_all(&mut core, events, outcomes);
    *pool = Handle::open(core);
    *done = count;
    code
}

/// What the event would come to, where it would change nothing. Of numbers that name no event there is nothing to say.
fn look_ahead(core: &Core, event: &EventWords) -> Option<Option<Outcome>>
    ensures { SeenAhead core.now (event_named event.now) result }
{
    match event.event() {
        Some(event) => Some(core.held_back(event)),
        None => None,
    }
}

/// Looks whether the event would change nothing: whether it would be refused, or its step is blocked. `is_held_back` tells, and then
/// `outcome` what would come of it. The pool is as it was.
#[unsafe(no_mangle)]
pub extern "C" fn hugepool_held_back(
    alloc: Global,
    pool: &mut Handle,
    event: &EventWords,
    is_held_back: &mut bool,
    outcome: &mut OutcomeWords,
) -> u32
    ensures pool { held pool.new ≡ held pool.old }
    ensures looked { Answered result (LooksAhead (held pool.old) (event_named event.now) is_held_back.new outcome.old outcome.new)
        (outcome.new ≡ outcome.old) }
    ensures kept { Answered result ⊤ (is_held_back.new ≡ is_held_back.old) }
    ensures code { Answered result ⊤ (IsLookRefused (held pool.old) (event_named event.now) result) }
{
    // The checker of borrows asks for a mention of the types that an event and an outcome may hold.
    let _none: (Option<Answer>, Option<Op>) = (None, None);
    let Some(read) = pool.read(alloc, |core| look_ahead(core, event)) else {
        return IS_CLOSED;
    };
    let Some(seen) = read else {
        return NO_SUCH;
    };
    *is_held_back = seen.is_some();
    if let Some(seen) = seen {
        *outcome = OutcomeWords::of(seen);
    }
    OK
}
