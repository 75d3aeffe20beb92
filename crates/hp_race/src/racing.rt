//! One race, from the opening of its pool to its end.
ghost use Rattle.std.specs.Prelude.{◌≡◌, ◌≤◌, IfOk, IfSome, length};
ghost use Rattle.hp_race.specs.Calls.{is_mortal};
ghost use Rattle.hp_race.specs.Racers.{AreFound};
ghost use Rattle.hp_race.specs.Races.{IsKept, IsTold};

use crate::call_range::CallRange;
use crate::chances::Chances;
use crate::line::Race;
use crate::racer::{Ran, Track, make_range};
use crate::telling::{keep, tell};
use hp_shared::Shared;
use hp_text::{MOST_EVENTS, Script, Trace};
use std::alloc::{AllocError, Global};
use std::marker::Brand;
use std::sync::Wait;
use std::sync::ledger::{Blank, Ledger};
use std::thread::Threads;

/// Races the script's calls: on a new running pool each task that has calls makes them in a thread of its own, in their
/// order. At the end the pool is closed, which compares all histories. Where memory is wanted all threads stop.
pub fn race<R: Threads + Wait + Sync>(
    rt: &R,
    alloc: Global,
    script: &Script,
    chances: Chances,
) -> Result<Race, AllocError>
    ensures { IfOk result (λ race. IsTold (is_mortal chances) script.now race) }
{
    let blank = Blank::new(u64::from(script.config.tasks));
    race_by::<Brand, _>(rt, alloc, blank, script, chances)
}

/// Races them, and gives what happened to the pool as a trace, where the race was closed: whoever replays it sees that race.
/// A journal that is longer than a trace may be is cut.
pub fn race_trace<R: Threads + Wait + Sync>(
    rt: &R,
    alloc: Global,
    script: &Script,
    chances: Chances,
) -> Result<Option<Trace>, AllocError>
    ensures race { IfOk result (λ kept. IsKept (is_mortal chances) script.now kept) }
    ensures few { IfOk result (λ kept. IfSome kept (λ trace. length trace.events.items ≤ MOST_EVENTS)) }
{
    let blank = Blank::new(u64::from(script.config.tasks));
    trace_by::<Brand, _>(rt, alloc, blank, script, chances)
}

// The same of each, by the ledger of that blank.
fn race_by<L: Ledger + Send + Sync, R: Threads + Wait + Sync>(
    rt: &R,
    alloc: Global,
    blank: Blank,
    script: &Script,
    chances: Chances,
) -> Result<Race, AllocError>
    requires name { blank.name ≡ L.name }
    requires parts { (blank.parts ≡ L.parts) × (blank.parts ≡ script.now.config.tasks) }
    ensures { IfOk result (λ race. IsTold (is_mortal chances) script.now race) }
{
    let (shared, ran) = run_by::<L, _>(rt, alloc, blank, script, chances)?;
    tell(rt, alloc, script, chances, shared, ran)
}

fn trace_by<L: Ledger + Send + Sync, R: Threads + Wait + Sync>(
    rt: &R,
    alloc: Global,
    blank: Blank,
    script: &Script,
    chances: Chances,
) -> Result<Option<Trace>, AllocError>
    requires name { blank.name ≡ L.name }
    requires parts { (blank.parts ≡ L.parts) × (blank.parts ≡ script.now.config.tasks) }
    ensures race { IfOk result (λ kept. IsKept (is_mortal chances) script.now kept) }
    ensures few { IfOk result (λ kept. IfSome kept (λ trace. length trace.events.items ≤ MOST_EVENTS)) }
{
    let (shared, ran) = run_by::<L, _>(rt, alloc, blank, script, chances)?;
    keep(alloc, script, chances, shared, ran)
}

// Opens a pool and makes all calls. Hands out the pool, and what came of the calls.
fn run_by<L: Ledger + Send + Sync, R: Threads + Wait + Sync>(
    rt: &R,
    alloc: Global,
    blank: Blank,
    script: &Script,
    chances: Chances,
) -> Result<(Shared<L>, Ran<L>), AllocError>
    requires name { blank.name ≡ L.name }
    requires parts { (blank.parts ≡ L.parts) × (blank.parts ≡ script.now.config.tasks) }
    ensures config { IfOk result (λ ran. ran.0.config ≡ script.now.config) }
    ensures count { IfOk result (λ ran. length ran.1.seats.items ≡ script.now.config.tasks) }
    ensures calls { IfOk result (λ ran. AreFound (is_mortal chances) script.now ran.1.found ran.1.seats.items) }
{
    let (shared, seats) = Shared::<L>::new(alloc, blank, script.config)?;
    // No task has more calls than the script.
    let all = CallRange {
        from: 0,
        most: script.calls.len(),
    };
    let track = Track {
        shared: &shared,
        chances,
    };
    let ran = make_range(rt, alloc, &track, script, all, seats)?;
    Ok((shared, ran))
}
