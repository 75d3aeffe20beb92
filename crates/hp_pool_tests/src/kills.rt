//! Calls that overlap: one that is held between two of its holds, and one that is killed while it sleeps.
ghost use Rattle.std.specs.Prelude.{◌≡◌};

use crate::gates::{HeldAt, Signal, Telling, let_sleep};
use hp_base::{Answer, Config, Event, File, Index, Op, Task, Vpn};
use hp_core::{Outcome, Phase};
use hp_shared::{CallFault, Halting, Hold, Open, Reply, Seat, Shared, call};
use std::alloc::Global;
use std::marker::Brand;
use std::process::Abort;
use std::sync::Wait;
use std::sync::ledger::{Blank, Ledger};
use std::test::Fail;
use std::thread::{Threads, join};

fn map(len: u32) -> Op {
    Op::Map {
        file: File::new(0),
        from: Index::new(0),
        len,
    }
}

fn store(vpn: u32, word: u64) -> Op {
    Op::Store {
        vpn: Vpn::new(vpn),
        word,
    }
}

fn load(vpn: u32) -> Op {
    Op::Load { vpn: Vpn::new(vpn) }
}

// A task maps the first pages of the file, and has them from its page 0 on.
fn maps<L: Ledger, R: Wait>(
    rt: &R,
    shared: &Shared<L>,
    seat: &mut Seat<L>,
    len: u32,
) -> Result<(), Fail> {
    let reply = call(shared, rt, seat, map(len), &Open)?;
    if reply == Reply::Ended(Answer::Mapped(Vpn::new(0))) {
        Ok(())
    } else {
        Err("a map from page 0 on".into())
    }
}

// Both tasks map the same pages.
fn both_map<L: Ledger, R: Wait>(
    rt: &R,
    shared: &Shared<L>,
    first: &mut Seat<L>,
    second: &mut Seat<L>,
    len: u32,
) -> Result<(), Fail> {
    maps(rt, shared, first, len)?;
    maps(rt, shared, second, len)
}

// A store that is begun once another is held, which goes on when this one has ended.
fn store_meanwhile<L: Ledger, H: Hold<L>, R: Wait>(
    rt: &R,
    hold: &H,
    seat: &mut Seat<L>,
    store: Op,
    held: &HeldAt,
) -> Result<Reply, CallFault> {
    held.there.wait();
    let reply = call(hold, rt, seat, store, &Open);
    held.released.give();
    reply
}

// What came of two stores and of a load after them; and whether nobody waited in vain.
#[derive(Drop)]
struct Stores {
    first: Reply,
    second: Reply,
    loaded: Reply,
    came: bool,
}

// The first task's store is held at `changed` until the second's store to the next page has ended.
fn two_stores<L: Ledger + Send + Sync, R: Threads + Wait + Sync>(
    rt: &R,
    shared: &Shared<L>,
    seats: &mut [Seat<L>],
) -> Result<Stores, Fail> {
    let (first, rest) = seats.split_first_mut().ok_or("a seat")?;
    let second = rest.first_mut().ok_or("a seat")?;
    both_map(rt, shared, first, second, 2)?;
    let gate = HeldAt::new(Phase::Changed);
    let held = &gate;
    let (one, two) = join(
        rt,
        || call(shared, rt, first, store(0, 41), held),
        || store_meanwhile(rt, shared, second, store(1, 42), held),
    );
    let came = gate.there.came() && gate.released.came();
    Ok(Stores {
        first: one?,
        second: two?,
        loaded: call(shared, rt, second, load(0), &Open)?,
        came,
    })
}

// That, and the free frames and the reserve count at the end.
fn a_pool_of_two<L: Ledger + Send + Sync, R: Threads + Wait + Sync>(
    rt: &R,
    alloc: Global,
    blank: Blank,
    config: Config,
) -> Result<(Stores, u32, u32), Fail>
    requires name { blank.name ≡ L.name }
    requires parts { (blank.parts ≡ L.parts) × (blank.parts ≡ config.tasks) }
{
    let (shared, mut seats) = Shared::<L>::new(alloc, blank, config)?;
    let told = two_stores(rt, &shared, &mut seats)?;
    match shared.close(alloc, seats) {
        Ok(closed) => Ok((told, closed.core.free(), closed.core.resv())),
        Err(_) => Err("the histories agree".into()),
    }
}

#[test]
fn a_gate_between_two_stores(rt: HostRuntime) -> Result<(), Fail> {
    let config = Config::new(4, 1, 4, 2)?;
    let (told, free, resv) = a_pool_of_two::<Brand, _>(&rt, rt.alloc(), Blank::new(2), config)?;
    assert_eq!(rt; told.first, Reply::Ended(Answer::Done));
    assert_eq!(rt; told.second, Reply::Ended(Answer::Done));
    assert_eq!(rt; told.loaded, Reply::Ended(Answer::Word(41)));
    assert_eq!(rt; (free, resv), (2, 0));
    assert!(rt; told.came);
    Ok(())
}

// What came of two stores to one page and of the kill of the task that waits; how often that one was blocked; and whether nobody
// waited in vain.
#[derive(Drop)]
struct Killing {
    holder: Reply,
    waiter: Reply,
    kill: Outcome,
    blocked: usize,
    came: bool,
}

// The second task's store waits, and is killed by the third, once it waits.
fn wait_and_kill<L: Ledger + Send + Sync, H: Hold<L> + Sync, R: Threads + Wait + Sync>(
    rt: &R,
    hold: &H,
    telling: &Telling<'_, H>,
    second: &mut Seat<L>,
    third: &mut Seat<L>,
    held: &HeldAt,
    waiting: &Signal,
) -> (Result<Reply, CallFault>, Result<Outcome, CallFault>) {
    join(
        rt,
        || store_meanwhile(rt, telling, second, store(0, 2), held),
        || {
            waiting.wait();
            let_sleep();
            hold.attempt(rt, third, Event::Kill(Task::new(2)))
        },
    )
}

// The first task's store is held where it has the slot, until the second's store has ended, which waits for that slot and
// is killed by the third. Nothing but the kill can wake it: the slot is held until it has ended.
fn a_waiter_killed<L: Ledger + Send + Sync, H: Hold<L> + Sync, R: Threads + Wait + Sync>(
    rt: &R,
    shared: &Shared<L>,
    hold: &H,
    seats: &mut [Seat<L>],
) -> Result<Killing, Fail> {
    let (first, rest) = seats.split_first_mut().ok_or("a seat")?;
    let (second, rest) = rest.split_first_mut().ok_or("a seat")?;
    let third = rest.first_mut().ok_or("a seat")?;
    both_map(rt, shared, first, second, 1)?;
    let holding = HeldAt::new(Phase::Locked);
    let waiting = Signal::new();
    let told = Telling::new(hold, &waiting);
    let (held, telling) = (&holding, &told);
    let (one, (two, kill)) = join(
        rt,
        || call(hold, rt, first, store(0, 1), held),
        || wait_and_kill(rt, hold, telling, second, third, held, &waiting),
    );
    let came = holding.there.came() && holding.released.came() && waiting.came();
    Ok(Killing {
        holder: one?,
        waiter: two?,
        kill: kill?,
        blocked: told.blocked(),
        came,
    })
}

// That, over the holds of a pool, and whether the histories agree at the end.
fn a_pool_of_three<L: Ledger + Send + Sync, R: Threads + Wait + Sync>(
    rt: &R,
    alloc: Global,
    blank: Blank,
    config: Config,
) -> Result<(Killing, bool), Fail>
    requires name { blank.name ≡ L.name }
    requires parts { (blank.parts ≡ L.parts) × (blank.parts ≡ config.tasks) }
{
    let (shared, mut seats) = Shared::<L>::new(alloc, blank, config)?;
    let told = a_waiter_killed(rt, &shared, &shared, &mut seats)?;
    Ok((told, shared.close(alloc, seats).is_ok()))
}

// The same over holds that stop for all once one of them finds no memory.
fn a_halting_pool_of_three<L: Ledger + Send + Sync, R: Threads + Wait + Sync>(
    rt: &R,
    alloc: Global,
    blank: Blank,
    config: Config,
) -> Result<Killing, Fail>
    requires name { blank.name ≡ L.name }
    requires parts { (blank.parts ≡ L.parts) × (blank.parts ≡ config.tasks) }
{
    let (shared, mut seats) = Shared::<L>::new(alloc, blank, config)?;
    let hold = Halting::new(&shared);
    a_waiter_killed(rt, &shared, &hold, &mut seats)
}

// The store that waited was blocked once, and ended since its task was killed.
fn woke(rt: &impl Abort, told: &Killing, done: Reply, marked: Outcome) {
    assert_eq!(rt; told.waiter, Reply::Ended(Answer::Killed));
    assert_eq!(rt; told.holder, done);
    assert_eq!(rt; told.kill, marked);
    assert_eq!(rt; told.blocked, 1);
    assert!(rt; told.came);
}

#[test]
fn a_kill_wakes_a_store_that_waits(rt: HostRuntime) -> Result<(), Fail> {
    let config = Config::new(1, 1, 4, 3)?;
    let (told, agree) = a_pool_of_three::<Brand, _>(&rt, rt.alloc(), Blank::new(3), config)?;
    woke(&rt, &told, Reply::Ended(Answer::Done), Outcome::Marked);
    assert!(rt; agree);
    Ok(())
}

/// Races and rounds of clients run on such holds alone.
#[test]
fn a_kill_wakes_over_holds_that_halt(rt: HostRuntime) -> Result<(), Fail> {
    let config = Config::new(1, 1, 4, 3)?;
    let told = a_halting_pool_of_three::<Brand, _>(&rt, rt.alloc(), Blank::new(3), config)?;
    woke(&rt, &told, Reply::Ended(Answer::Done), Outcome::Marked);
    Ok(())
}
