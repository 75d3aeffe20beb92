//! How a call waits: it sleeps while another holds the slot that it wants, and it goes on once that slot is free.
ghost use Rattle.std.specs.Prelude.{◌≡◌};

use crate::gates::{BetweenSlots, Telling};
use hp_base::{Answer, Config, File, Index, Op, Task, Vpn};
use hp_shared::{Halting, Hold, Open, Reply, Seat, Shared, call};
use std::alloc::Global;
use std::marker::Brand;
use std::process::Abort;
use std::sync::Wait;
use std::sync::ledger::{Blank, Ledger};
use std::test::Fail;
use std::thread::{Threads, join};

fn map(len: u32) -> Op {
    Op::Map {
        file: File::new(0),
        from: Index::new(0),
        len,
    }
}

fn store(vpn: u32, word: u64) -> Op {
    Op::Store {
        vpn: Vpn::new(vpn),
        word,
    }
}

fn punch(len: u32) -> Op {
    Op::Punch {
        file: File::new(0),
        from: Index::new(0),
        len,
    }
}

// Both tasks map two pages, and the first makes them be there.
fn two_pages<L: Ledger, R: Wait>(
    rt: &R,
    shared: &Shared<L>,
    first: &mut Seat<L>,
    second: &mut Seat<L>,
) -> Result<(), Fail> {
    call(shared, rt, first, map(2), &Open)?;
    call(shared, rt, second, map(2), &Open)?;
    call(shared, rt, first, store(0, 1), &Open)?;
    call(shared, rt, first, store(1, 2), &Open)?;
    Ok(())
}

// What came of a punch and of a store that waits for it, how often the store was blocked, and whether nobody waited in vain.
#[derive(Drop)]
struct Waiting {
    punched: Reply,
    stored: Reply,
    blocked: usize,
    came: bool,
}

// The first task's punch of both pages is held where it has the slot of one, until the second's store to that page waits; and
// where it wants the slot of the other, until the store has ended.
fn a_store_waits<L: Ledger + Send + Sync, H: Hold<L> + Sync, R: Threads + Wait + Sync>(
    rt: &R,
    hold: &H,
    first: &mut Seat<L>,
    second: &mut Seat<L>,
) -> Result<Waiting, Fail> {
    let gate = BetweenSlots::new();
    let told = Telling::new(hold, &gate.waiting);
    let (held, telling) = (&gate, &told);
    let (one, two) = join(
        rt,
        || call(hold, rt, first, punch(2), held),
        || {
            held.there.wait();
            let reply = call(telling, rt, second, store(0, 42), &Open);
            held.ended.give();
            reply
        },
    );
    Ok(Waiting {
        punched: one?,
        stored: two?,
        blocked: told.blocked(),
        came: gate.came(),
    })
}

// That, over the holds of a pool, by the first of its tasks and the last.
fn a_pool_waits<L: Ledger + Send + Sync, R: Threads + Wait + Sync>(
    rt: &R,
    alloc: Global,
    blank: Blank,
    config: Config,
) -> Result<Waiting, Fail>
    requires name { blank.name ≡ L.name }
    requires parts { (blank.parts ≡ L.parts) × (blank.parts ≡ config.tasks) }
{
    let (shared, mut seats) = Shared::<L>::new(alloc, blank, config)?;
    let (last, rest) = seats.split_last_mut().ok_or("a seat")?;
    let first = rest.first_mut().ok_or("a seat")?;
    two_pages(rt, &shared, first, last)?;
    a_store_waits(rt, &shared, first, last)
}

// That, over holds that stop for all once one of them finds no memory.
fn a_halting_pool_of_two<L: Ledger + Send + Sync, R: Threads + Wait + Sync>(
    rt: &R,
    alloc: Global,
    blank: Blank,
    config: Config,
) -> Result<Waiting, Fail>
    requires name { blank.name ≡ L.name }
    requires parts { (blank.parts ≡ L.parts) × (blank.parts ≡ config.tasks) }
{
    let (shared, mut seats) = Shared::<L>::new(alloc, blank, config)?;
    let (first, rest) = seats.split_first_mut().ok_or("a seat")?;
    let second = rest.first_mut().ok_or("a seat")?;
    two_pages(rt, &shared, first, second)?;
    let hold = Halting::new(&shared);
    a_store_waits(rt, &hold, first, second)
}

// The store ended while the punch still wanted its next slot, and it was blocked once: it asked no more until its slot was free.
fn slept(rt: &impl Abort, told: &Waiting, done: Reply) {
    assert_eq!(rt; told.punched, done);
    assert_eq!(rt; told.stored, done);
    assert_eq!(rt; told.blocked, 1);
    assert!(rt; told.came);
}

#[test]
fn a_store_sleeps_until_its_slot_is_free(rt: HostRuntime) -> Result<(), Fail> {
    let config = Config::new(4, 1, 4, 2)?;
    let told = a_pool_waits::<Brand, _>(&rt, rt.alloc(), Blank::new(2), config)?;
    slept(&rt, &told, Reply::Ended(Answer::Done));
    Ok(())
}

/// So does the last of as many tasks as a pool can have.
#[test]
fn a_store_of_the_last_task_sleeps(rt: HostRuntime) -> Result<(), Fail> {
    let config = Config::new(4, 1, 4, 64)?;
    let told = a_pool_waits::<Brand, _>(&rt, rt.alloc(), Blank::new(64), config)?;
    slept(&rt, &told, Reply::Ended(Answer::Done));
    Ok(())
}

/// Races and rounds of clients run on such holds alone.
#[test]
fn a_store_sleeps_over_holds_that_halt(rt: HostRuntime) -> Result<(), Fail> {
    let config = Config::new(4, 1, 4, 2)?;
    let told = a_halting_pool_of_two::<Brand, _>(&rt, rt.alloc(), Blank::new(2), config)?;
    slept(&rt, &told, Reply::Ended(Answer::Done));
    Ok(())
}
