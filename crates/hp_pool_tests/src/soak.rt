//! The soak, and what it finds at each cut and at the end.
ghost use Rattle.std.specs.Prelude.{◌≡◌};

use crate::dice::{Dice, FILES, TASKS};
use hp_base::{Answer, Config, Op};
use hp_core::{Core, Outcome, Refusal};
use hp_shared::{
    CallFault, Closed, Entry, Open, Part, Reply, Seat, Shared, call, interleaved_from,
};
use std::alloc::{AllocError, Global};
use std::marker::Brand;
use std::sync::Wait;
use std::sync::atomic::{AtomicBool, AtomicUsize, Ordering};
use std::sync::ledger::{Blank, Ledger};
use std::test::Fail;
use std::thread::{Threads, for_each_chunk_mut};

/// Calls in all, entries after which the journal is cut for the first time and later, and tasks of a thread: one after the other,
/// where one was killed.
const CALLS: usize = 100_000;

const FIRST_ENTRIES: usize = 110_000;

const ENTRIES: usize = 10_000;

const TASKS_OF_A_THREAD: usize = 4;
/// More cuts than there can be.
const CUTS: u64 = 1_000;

/// How many calls were begun in all, how many entries made since the last cut, and how many are made before the next; how many tasks
/// were killed; and whether memory was wanted.
#[derive(Drop)]
struct Soaking {
    calls: AtomicUsize,
    entries: AtomicUsize,
    most: AtomicUsize,
    kills: AtomicUsize,
    lacked: AtomicBool,
}

impl Soaking {
    fn new() -> Soaking {
        Soaking {
            calls: AtomicUsize::new(0),
            entries: AtomicUsize::new(0),
            most: AtomicUsize::new(FIRST_ENTRIES),
            kills: AtomicUsize::new(0),
            lacked: AtomicBool::new(false),
        }
    }

    fn is_over(&self) -> bool {
        self.calls.load(Ordering::SeqCst) >= CALLS
    }

    // Whether one call more is to be made before the next cut.
    fn goes_on(&self) -> bool {
        self.entries.load(Ordering::SeqCst) < self.most.load(Ordering::SeqCst)
            && self.calls.fetch_add(1, Ordering::SeqCst) < CALLS
    }
}

// A call of the seat's task, or a kill of any task. Tells whether the task has ended: one that was killed exits.
fn make_turn<L: Ledger, R: Wait>(
    rt: &R,
    shared: &Shared<L>,
    seat: &mut Seat<L>,
    dice: &mut Dice,
    soaking: &Soaking,
) -> Result<bool, CallFault> {
    if dice.below(5_000) == 0 {
        if shared.kill(rt, seat, dice.task())? == Outcome::Marked {
            soaking.kills.fetch_add(1, Ordering::SeqCst);
        }
        return Ok(false);
    }
    let reply = call(shared, rt, seat, dice.op(), &Open)?;
    if reply == Reply::Refused(Refusal::NotAlive) {
        call(shared, rt, seat, Op::Exit, &Open)?;
        return Ok(true);
    }
    Ok(false)
}

// Calls of the tasks of these seats until the next cut, each task's until it ends.
fn make_calls<L: Ledger, R: Wait>(
    rt: &R,
    shared: &Shared<L>,
    seats: &mut [Seat<L>],
    dice: Dice,
    soaking: &Soaking,
) -> Result<(), CallFault> {
    let mut dice = dice;
    let mut at = 0;
    for _ in 0..CALLS {
        let Some(seat) = seats.get_mut(at) else {
            return Ok(());
        };
        if !soaking.goes_on() {
            return Ok(());
        }
        let before = seat.list().len();
        let has_ended = make_turn(rt, shared, seat, &mut dice, soaking)?;
        let made = seat.list().len().saturating_sub(before);
        soaking.entries.fetch_add(made, Ordering::SeqCst);
        at = next_of(at, has_ended);
    }
    Ok(())
}

fn next_of(at: usize, has_ended: bool) -> usize {
    if has_ended { at.saturating_add(1) } else { at }
}

// A thread's calls up to the next cut. Whether memory was wanted is told to all.
fn run_thread<L: Ledger, R: Wait>(
    rt: &R,
    shared: &Shared<L>,
    seats: &mut [Seat<L>],
    dice: Dice,
    soaking: &Soaking,
) {
    if make_calls(rt, shared, seats, dice, soaking).is_err() {
        soaking.lacked.store(true, Ordering::SeqCst);
    }
}

// What a thread's calls up to the next cut are drawn by.
fn dice_of(part: u64, thread: usize) -> Dice {
    Dice::new(part.wrapping_mul(64).wrapping_add(thread as u64))
}

// All threads' calls up to the next cut.
fn run_part<L: Ledger + Send + Sync, R: Threads + Wait + Sync>(
    rt: &R,
    shared: &Shared<L>,
    seats: &mut [Seat<L>],
    soaking: &Soaking,
    part: u64,
) {
    for_each_chunk_mut(
        rt,
        seats,
        TASKS_OF_A_THREAD,
        &|thread: usize, seats: &mut [Seat<L>]| {
            run_thread(rt, shared, seats, dice_of(part, thread), soaking)
        },
    );
}

fn lists_of<L: Ledger>(alloc: Global, seats: &[Seat<L>]) -> Result<Vec<Vec<Entry>>, AllocError> {
    let mut lists = Vec::new(alloc);
    for seat in seats {
        lists.push(seat.list().to_vec(alloc)?)?;
    }
    Ok(lists)
}

// Whether the part is an interleaving of the lists.
fn agreement(
    alloc: Global,
    first: u64,
    journal: &[Entry],
    lists: &[Vec<Entry>],
) -> Result<Result<(), u64>, Fail> {
    if first >= 1 << 62 {
        return Err("so many entries".into());
    }
    Ok(interleaved_from(alloc, first, journal, lists)?)
}

// Goes through the entries on a core of one thread.
fn replay(core: &mut Core, entries: &[Entry]) -> Result<(), Fail> {
    for entry in entries {
        if core.step(entry.event)? != entry.outcome {
            return Err("another outcome".into());
        }
    }
    Ok(())
}

// A journal without the entry in the middle, and one with two swapped there, are told from there on.
fn damage_is_found(alloc: Global, part: &Part, lists: &[Vec<Entry>]) -> Result<bool, Fail> {
    let middle = part.entries.len() / 2;
    let mut fewer = part.entries.as_slice().to_vec(alloc)?;
    let mut swapped = part.entries.as_slice().to_vec(alloc)?;
    if middle + 1 >= fewer.len() || middle + 1 >= swapped.len() {
        return Err("a longer part".into());
    }
    fewer.remove(middle);
    swapped.swap(middle, middle + 1);
    let there = Err(part.first.wrapping_add(middle as u64));
    Ok(
        agreement(alloc, part.first, fewer.as_slice(), lists)? == there
            && agreement(alloc, part.first, swapped.as_slice(), lists)? == there,
    )
}

// Cuts the journal, and looks at the part, and at the numbers that were told before; at the first, also whether damage is found.
fn cut_and_look<L: Ledger, R: Wait>(
    rt: &R,
    alloc: Global,
    shared: &Shared<L>,
    seats: &mut [Seat<L>],
    core: &mut Core,
) -> Result<(), Fail> {
    let lists = lists_of(alloc, seats)?;
    let told = shared.tally(rt);
    let part = shared.cut(rt, alloc, seats)?;
    if agreement(alloc, part.first, part.entries.as_slice(), lists.as_slice())? != Ok(()) {
        return Err("a part that isn't the interleaving of the lists".into());
    }
    if part.first == 0 && !damage_is_found(alloc, &part, lists.as_slice())? {
        return Err("a damaged part passes".into());
    }
    replay(core, part.entries.as_slice())?;
    if told != core.tally() {
        return Err("other numbers than those of the pool".into());
    }
    Ok(())
}

// Parts, and behind each but the last a cut. Tells how many cuts there were.
fn run_parts<L: Ledger + Send + Sync, R: Threads + Wait + Sync>(
    rt: &R,
    alloc: Global,
    shared: &Shared<L>,
    seats: &mut [Seat<L>],
    soaking: &Soaking,
    core: &mut Core,
) -> Result<u64, Fail> {
    for part in 0..CUTS {
        soaking.entries.store(0, Ordering::SeqCst);
        run_part(rt, shared, seats, soaking, part);
        if soaking.lacked.load(Ordering::SeqCst) {
            return Err("out of memory".into());
        }
        if soaking.is_over() {
            return Ok(part);
        }
        cut_and_look(rt, alloc, shared, seats, core)?;
        soaking.most.store(ENTRIES, Ordering::SeqCst);
    }
    Err("not so many cuts".into())
}

// The end of a pool whose histories agree.
fn end_of<L: Ledger + Send + Sync>(
    alloc: Global,
    shared: Shared<L>,
    seats: Vec<Seat<L>>,
) -> Result<Closed, Fail> {
    match shared.close(alloc, seats) {
        Ok(closed) => Ok(closed),
        Err(_) => Err("the histories agree".into()),
    }
}

fn are_alike(alloc: Global, one: &Core, other: &Core) -> Result<bool, AllocError> {
    Ok(one.picture(alloc)? == other.picture(alloc)?)
}

// Whether the core of one thread, which has gone through all that was cut, comes to the pool's state with what is left.
fn is_same(alloc: Global, core: Core, closed: &Closed) -> Result<bool, Fail> {
    let mut core = core;
    replay(&mut core, closed.last.entries.as_slice())?;
    Ok(are_alike(alloc, &core, &closed.core)?)
}

// What a soak came to: how many cuts and kills there were, and whether the pool's state is that of the replay.
#[derive(Drop)]
struct Soaked {
    cuts: u64,
    kills: usize,
    is_same: bool,
}

fn soak<L: Ledger + Send + Sync, R: Threads + Wait + Sync>(
    rt: &R,
    alloc: Global,
    blank: Blank,
    config: Config,
) -> Result<Soaked, Fail>
    requires name { blank.name ≡ L.name }
    requires parts { (blank.parts ≡ L.parts) × (blank.parts ≡ config.tasks) }
{
    let (shared, mut seats) = Shared::<L>::new(alloc, blank, config)?;
    let mut core = Core::new(alloc, config)?;
    let soaking = Soaking::new();
    let cuts = run_parts(rt, alloc, &shared, &mut seats, &soaking, &mut core)?;
    let closed = end_of(alloc, shared, seats)?;
    Ok(Soaked {
        cuts,
        kills: soaking.kills.load(Ordering::SeqCst),
        is_same: is_same(alloc, core, &closed)?,
    })
}

#[test]
fn many_calls_with_kills_and_cuts(rt: HostRuntime) -> Result<(), Fail> {
    // The checker of borrows asks for a mention of the type that a reply may hold.
    let _none: Option<Answer> = None;
    let config = Config::new(24, FILES, 8, TASKS)?;
    let soaked = soak::<Brand, _>(&rt, rt.alloc(), Blank::new(u64::from(TASKS)), config)?;
    assert!(rt; soaked.cuts >= 20);
    assert!(rt; soaked.kills >= 5);
    assert!(rt; soaked.is_same);
    Ok(())
}
