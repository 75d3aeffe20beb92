//! One race whose journal is cut: part after part, each of some calls of each task.
ghost use Rattle.std.specs.Prelude.{◌≡◌, ◌≤◌, ◌<◌, ◌+◌, ◌^◌, ℕ, List, All, IfOk, true, length, map};
ghost use Rattle.std.specs.Int.NonZero.{non_zero_u32_get};
ghost use Rattle.hp_shared.specs.Cutting.{emptied};
ghost use Rattle.hp_shared.specs.Journal.{Follows, Interleaves};
ghost use Rattle.hp_shared.specs.Seats.{lists_of};
ghost use Rattle.hp_shared.specs.declared.entry.Entry.{Entry};
ghost use Rattle.hp_race.specs.Calls.{is_mortal};
ghost use Rattle.hp_race.specs.Racers.{IsNew};
ghost use Rattle.hp_race.specs.Parts.{AreRaceParts, IsRacePart, IsToTheEnd, IsToldInParts, RacePart};

use crate::again::Again;
use crate::call_range::CallRange;
use crate::chances::Chances;
use crate::line::Race;
use crate::racer::{Ran, Track, make_range};
use crate::telling::{are_gone, told_of_parts, told_of_refused};
use hp_base::Task;
use hp_shared::{CutFault, Seat, Shared, missing_seat};
use hp_text::Script;
use std::alloc::{AllocError, Global};
use std::marker::Brand;
use std::num::NonZeroU32;
use std::sync::Wait;
use std::sync::ledger::{Blank, Ledger};
use std::thread::Threads;

/// Races the script's calls as `race` does, but in parts of so many calls of each task. Behind each part all threads have ended,
/// and the pool's journal is compared with what each task did, and cut off. So the pool never keeps more than a part. What
/// was cut off happens once more to a core of one thread, which has to come to the same.
pub fn race_in_parts<R: Threads + Wait + Sync>(
    rt: &R,
    alloc: Global,
    script: &Script,
    chances: Chances,
    most: NonZeroU32,
) -> Result<Race, AllocError>
    ensures { IfOk result (λ race. IsToldInParts (is_mortal chances) script.now (non_zero_u32_get most) race) }
{
    let blank = Blank::new(u64::from(script.config.tasks));
    parts_by::<Brand, _>(rt, alloc, blank, script, chances, most.get() as usize)
}

// The same, by the ledger of that blank.
fn parts_by<L: Ledger + Send + Sync, R: Threads + Wait + Sync>(
    rt: &R,
    alloc: Global,
    blank: Blank,
    script: &Script,
    chances: Chances,
    most: usize,
) -> Result<Race, AllocError>
    requires name { blank.name ≡ L.name }
    requires parts { (blank.parts ≡ L.parts) × (blank.parts ≡ script.now.config.tasks) }
    requires some { 0 < most }
    requires few { most < 2 ^ 32 }
    ensures { IfOk result (λ race. IsToldInParts (is_mortal chances) script.now most race) }
{
    let (shared, seats) = Shared::<L>::new(alloc, blank, script.config)?;
    let mut again = Again::new(alloc, script.config)?;
    let track = Track {
        shared: &shared,
        chances,
    };
    let (made, seats) = make_parts(rt, alloc, script, most, &track, &mut again, seats)?;
    let tally = shared.tally(rt);
    match shared.close(alloc, seats) {
        Ok(closed) => Ok(told_of_parts(made, &again, &closed)),
        Err(refused) => told_of_refused(refused.fault, tally),
    }
}

// One part after the other, as long as all goes well. Whether all calls were made.
fn make_parts<L: Ledger + Send + Sync, R: Threads + Wait + Sync>(
    rt: &R,
    alloc: Global,
    script: &Script,
    most: usize,
    track: &Track<'_, L>,
    again: &mut Again,
    seats: Vec<Seat<L>>,
) -> Result<(bool, Vec<Seat<L>>), AllocError>
    requires some { 0 < most }
    requires few { most < 2 ^ 32 }
    requires new { All IsNew seats.items }
    requires count { length seats.items ≡ script.now.config.tasks }
    ensures count { IfOk result (λ ran. length ran.1.items ≡ script.now.config.tasks) }
    ensures parts { IfOk result (λ ran. ran.0 ≡ true → (parts : List RacePart)
        × AreRaceParts (is_mortal track.now.chances) script.now most 0 again.old.entries again.old.core parts
        again.new.entries again.new.core) }
{
    let longest = longest(alloc, script)?;
    let mut seats = seats;
    let mut from = 0;
    while from < longest {
        let call_range = CallRange { from, most };
        let (is_made, back) = make_part(rt, alloc, script, call_range, track, again, seats)?;
        if !is_made {
            return Ok((false, back));
        }
        seats = back;
        from += most;
    }
    Ok((true, seats))
}

// Makes the calls of the range, and cuts the journal. Whether all went well.
fn make_part<L: Ledger + Send + Sync, R: Threads + Wait + Sync>(
    rt: &R,
    alloc: Global,
    script: &Script,
    call_range: CallRange,
    track: &Track<'_, L>,
    again: &mut Again,
    seats: Vec<Seat<L>>,
) -> Result<(bool, Vec<Seat<L>>), AllocError>
    requires new { All IsNew seats.items }
    requires count { length seats.items ≡ script.now.config.tasks }
    ensures count { IfOk result (λ ran. length ran.1.items ≡ script.now.config.tasks) }
    ensures new { IfOk result (λ ran. ran.0 ≡ true → All IsNew ran.1.items) }
    ensures part { IfOk result (λ ran. ran.0 ≡ true → (part : RacePart)
        × IsRacePart (is_mortal track.now.chances) script.now call_range again.old.entries again.old.core part
        × (again.new.entries ≡ again.old.entries + length part.entries)
        × (again.new.core ≡ part.core)) }
{
    let ran = make_range(rt, alloc, track, script, call_range, seats)?;
    let Ran { mut seats, found } = ran;
    if !found.is_made() {
        return Ok((false, seats));
    }
    if missing_seat(script.config.tasks, seats.as_slice()).is_some() {
        return Ok((false, seats));
    }
    if !cut_part(rt, alloc, track.shared, again, &mut seats)? {
        return Ok((false, seats));
    }
    let gone = are_gone(&again.core, found.refused.as_slice());
    Ok((gone, seats))
}

// Cuts the journal, which compares it with the seats' lists. Whether it is cut, and what is cut off goes on from what was before.
fn cut_part<L: Ledger, R: Wait>(
    rt: &R,
    alloc: Global,
    shared: &Shared<L>,
    again: &mut Again,
    seats: &mut [Seat<L>],
) -> Result<bool, AllocError>
    ensures count { length seats.new ≡ length seats.old }
    ensures seats { IfOk result (λ cut. cut ≡ true → seats.new ≡ map emptied seats.old) }
    ensures part { IfOk result (λ cut. cut ≡ true → (entries : List Entry)
        × Interleaves again.old.entries entries (lists_of seats.old)
        × Follows again.old.core entries again.new.core
        × (again.new.entries ≡ again.old.entries + length entries)) }
{
    match shared.cut(rt, alloc, seats) {
        Ok(part) => again.takes(&part),
        Err(CutFault::Memory) => Err(AllocError),
        Err(_) => Ok(false),
    }
}

// The most calls that a task has.
fn longest(alloc: Global, script: &Script) -> Result<usize, AllocError>
    ensures end { IfOk result (λ most. IsToTheEnd script.now most) }
    ensures few { IfOk result (λ most. most ≤ length script.now.calls.items) }
{
    let mut longest = 0;
    for number in 0..script.config.tasks {
        let calls = script.calls_of(alloc, Task::new(number + 1))?;
        longest = calls.len().max(longest);
    }
    Ok(longest)
}
