//! What is told of a pool at the end of a race.
ghost use Rattle.std.specs.Prelude.{◌≡◌, ◌≢◌, ◌≤◌, IfOk, IfSome, MatchBool, None, length, take};
ghost use Rattle.hp_shared.specs.Journal.{events_of};
ghost use Rattle.hp_race.specs.Calls.{is_mortal};
ghost use Rattle.hp_race.specs.Racers.{AreFound, are_gone_in, is_gone_in};
ghost use Rattle.hp_race.specs.Parts.{IsAgain, IsVerdictOnParts};
ghost use Rattle.hp_race.specs.Races.{Counts, IsKept, IsKeptOf, IsOnFound, IsTold, IsToldOfRefused};

use crate::again::Again;
use crate::chances::Chances;
use crate::keeping::keeps_waits;
use crate::line::{Race, Verdict};
use crate::racer::{Found, Ran};
use hp_base::{Event, Task};
use hp_core::{Core, Life, Tally};
use hp_shared::{CloseFault, Closed, Entry, Shared};
use hp_text::{MOST_EVENTS, Script, Trace};
use std::alloc::{AllocError, Global};
use std::sync::Wait;
use std::sync::ledger::Ledger;

// Whether the core has the task, and it is dead or killed.
fn is_gone(core: &Core, task: Task) -> bool
    ensures { result ≡ is_gone_in core.now task }
{
    let number = task.number();
    if number == 0 || number > core.config().tasks {
        return false;
    }
    core.life(task) != Life::Alive
}

/// Whether so it is of all these tasks.
pub(crate) fn are_gone(core: &Core, tasks: &[Task]) -> bool
    ensures { result ≡ are_gone_in core.now tasks.now }
{
    tasks.iter().all(|task| is_gone(core, *task))
}

// The verdict on a pool that was closed: with all its entries it is the one that was opened, since it has its sizes.
fn verdict(
    alloc: Global,
    script: &Script,
    found: &Found,
    closed: &Closed,
) -> Result<Verdict, AllocError>
    ensures { IfOk result
        (IsOnFound script.now found.now closed.now.core closed.now.last.first closed.now.last.entries.items) }
{
    if found.astray {
        return Ok(Verdict::Astray);
    }
    if found.late {
        return Ok(Verdict::Late);
    }
    let gone = are_gone(&closed.core, found.refused.as_slice());
    let waited = keeps_waits(alloc, script, closed.last.entries.as_slice())?;
    Ok(if gone && waited && closed.last.first == 0 {
        Verdict::Closed
    } else {
        Verdict::Astray
    })
}

// A race of which this was found, with the counts of what was closed.
fn race_of(found: Verdict, closed: &Closed) -> Race
    ensures verdict { result.verdict ≡ found }
    ensures counts { Counts result closed.now.entries closed.now.core }
{
    Race {
        verdict: found,
        entries: closed.entries,
        free: closed.core.free(),
        resv: closed.core.resv(),
    }
}

// What is told of it.
fn told_of_closed(
    alloc: Global,
    script: &Script,
    found: &Found,
    closed: &Closed,
) -> Result<Race, AllocError>
    ensures verdict { IfOk result (λ race.
        IsOnFound script.now found.now closed.now.core closed.now.last.first closed.now.last.entries.items race.verdict) }
    ensures counts { IfOk result (λ race. Counts race closed.now.entries closed.now.core) }
{
    Ok(race_of(verdict(alloc, script, found, closed)?, closed))
}

// Whether what was closed is what happened again, with nothing in its journal.
fn is_again(again: &Again, closed: &Closed) -> bool
    ensures { MatchBool result
        (IsAgain again.now.entries again.now.core closed.now.last.first closed.now.last.entries.items closed.now.core)
        (¬ (IsAgain again.now.entries again.now.core closed.now.last.first closed.now.last.entries.items closed.now.core)) }
{
    closed.last.first == again.entries
        && closed.last.entries.is_empty()
        && closed.core.tally() == again.core.tally()
}

/// What is told of a pool that was closed behind the last part, where all parts were made or one went wrong.
pub(crate) fn told_of_parts(made: bool, again: &Again, closed: &Closed) -> Race
    ensures verdict { IsVerdictOnParts made
        (IsAgain again.now.entries again.now.core closed.now.last.first closed.now.last.entries.items closed.now.core)
        result.verdict }
    ensures counts { Counts result closed.now.entries closed.now.core }
{
    let found = if made && is_again(again, closed) {
        Verdict::Closed
    } else {
        Verdict::Astray
    };
    race_of(found, closed)
}

/// What is told of a pool that wasn't.
pub(crate) fn told_of_refused(fault: CloseFault, tally: Tally) -> Result<Race, AllocError>
    ensures { IfOk result (λ race. IsToldOfRefused fault tally race) }
{
    let (verdict, entries) = match fault {
        CloseFault::Disagree(position) => (Verdict::Disagree(position), position),
        CloseFault::SeatMissing(_) | CloseFault::OtherSizes => (Verdict::Astray, 0),
        CloseFault::Memory => return Err(AllocError),
    };
    Ok(Race {
        verdict,
        entries,
        free: tally.free,
        resv: tally.resv,
    })
}

/// Closes the pool, where each seat has made its calls or some have strayed, and tells what was found.
pub(crate) fn tell<L: Ledger, R: Wait>(
    rt: &R,
    alloc: Global,
    script: &Script,
    chances: Chances,
    shared: Shared<L>,
    ran: Ran<L>,
) -> Result<Race, AllocError>
    requires config { shared.config ≡ script.now.config }
    requires count { length ran.seats.items ≡ script.now.config.tasks }
    requires calls { AreFound (is_mortal chances) script.now ran.found ran.seats.items }
    ensures { IfOk result (λ race. IsTold (is_mortal chances) script.now race) }
{
    let Ran { seats, found } = ran;
    let tally = shared.tally(rt);
    match shared.close(alloc, seats) {
        Ok(closed) => told_of_closed(alloc, script, &found, &closed),
        Err(refused) => told_of_refused(refused.fault, tally),
    }
}

// The events of the entries.
fn events_of(alloc: Global, entries: &[Entry]) -> Result<Vec<Event>, AllocError>
    ensures { IfOk result (λ events. events.items ≡ events_of entries.now) }
{
    entries.iter().map(|entry| entry.event).collect(alloc)
}

// As many of the entries as a trace may have.
fn front(entries: &[Entry]) -> &[Entry]
    ensures { result.now ≡ take MOST_EVENTS entries.now }
{
    if entries.len() <= MOST_EVENTS {
        entries
    } else {
        &entries[..MOST_EVENTS]
    }
}

/// Closes the pool, and keeps the journal's events where the race was closed.
pub(crate) fn keep<L: Ledger>(
    alloc: Global,
    script: &Script,
    chances: Chances,
    shared: Shared<L>,
    ran: Ran<L>,
) -> Result<Option<Trace>, AllocError>
    requires config { shared.config ≡ script.now.config }
    requires count { length ran.seats.items ≡ script.now.config.tasks }
    requires calls { AreFound (is_mortal chances) script.now ran.found ran.seats.items }
    ensures race { IfOk result (λ kept. IsKept (is_mortal chances) script.now kept) }
    ensures few { IfOk result (λ kept. IfSome kept (λ trace. length trace.events.items ≤ MOST_EVENTS)) }
{
    let Ran { seats, found } = ran;
    match shared.close(alloc, seats) {
        Ok(closed) => kept_of(alloc, script, &found, &closed),
        Err(refused) => nothing_kept(refused.fault),
    }
}

// Nothing is kept of a pool that wasn't closed, unless memory was wanting: then that is told.
fn nothing_kept(fault: CloseFault) -> Result<Option<Trace>, AllocError>
    ensures { IfOk result (λ kept. (kept ≡ None) × (fault ≢ CloseFault.Memory)) }
{
    match fault {
        CloseFault::Memory => Err(AllocError),
        CloseFault::SeatMissing(_) | CloseFault::Disagree(_) | CloseFault::OtherSizes => Ok(None),
    }
}

// The same of a pool that was closed.
fn kept_of(
    alloc: Global,
    script: &Script,
    found: &Found,
    closed: &Closed,
) -> Result<Option<Trace>, AllocError>
    ensures { IfOk result
        (IsKeptOf script.now found.now closed.now.core closed.now.last.first closed.now.last.entries.items) }
{
    match verdict(alloc, script, found, closed)? {
        Verdict::Closed => {
            let events = events_of(alloc, front(closed.last.entries.as_slice()))?;
            Ok(Some(Trace {
                config: script.config,
                events,
            }))
        }
        Verdict::Disagree(_) | Verdict::Astray | Verdict::Late => Ok(None),
    }
}
