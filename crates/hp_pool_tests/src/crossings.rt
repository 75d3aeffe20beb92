//! Two stores of one round that have to overlap: in threads they do, and one after the other they can't.
ghost use Rattle.std.specs.Prelude.{◌≡◌};

use crate::gates::Crossing;
use crate::numbers::tally;
use hp_base::{Answer, Config, File, Index, Op, Task, Vpn};
use hp_client::{ClientFault, Crew, Driver, PoolDriver};
use hp_core::Tally;
use hp_shared::{Open, Reply, Seat, Shared, call};
use std::alloc::Global;
use std::marker::Brand;
use std::process::Abort;
use std::sync::Wait;
use std::sync::ledger::{Blank, Ledger};
use std::test::Fail;
use std::thread::Threads;

fn map() -> Op {
    Op::Map {
        file: File::new(0),
        from: Index::new(0),
        len: 2,
    }
}

fn store(vpn: u32, word: u64) -> Op {
    Op::Store {
        vpn: Vpn::new(vpn),
        word,
    }
}

fn load() -> Op {
    Op::Load { vpn: Vpn::new(0) }
}

// Both tasks map the same pages.
fn both_map<D: Driver>(alloc: Global, driver: &mut D) -> Result<(Answer, Answer), ClientFault>
    requires { D.rests_on }
{
    let one = driver.call(alloc, Task::new(1), map())?;
    let two = driver.call(alloc, Task::new(2), map())?;
    Ok((one, two))
}

// Each stores to a page of its own, in one round, and the second loads what the first stored.
fn both_store<D: Driver>(
    alloc: Global,
    driver: &mut D,
) -> Result<(Vec<Answer>, Answer), ClientFault>
    requires { D.rests_on }
{
    let (one, two) = (Task::new(1), Task::new(2));
    let stored = driver.round(alloc, &[(one, store(0, 41)), (two, store(1, 42))])?;
    let loaded = driver.call(alloc, two, load())?;
    Ok((stored, loaded))
}

// What rounds came to, the pool's numbers behind them, and whether nobody waited in vain.
#[derive(Drop)]
struct Rounds {
    mapped: (Answer, Answer),
    stored: Vec<Answer>,
    loaded: Answer,
    tally: Tally,
    came: bool,
}

fn in_threads<L: Ledger + Send + Sync, R: Threads + Wait + Sync>(
    rt: &R,
    alloc: Global,
    blank: Blank,
    config: Config,
) -> Result<Rounds, ClientFault>
    requires name { blank.name ≡ L.name }
    requires parts { (blank.parts ≡ L.parts) × (blank.parts ≡ config.tasks) }
{
    let crew = Crew::<L, Crossing>::open(alloc, blank, config, Crossing::new())?;
    let mut driver = PoolDriver::new(
        alloc,
        rt,
        crew,
        |crew: &mut Crew<L, Crossing>, rt: &R| crew.run(rt),
    );
    let mapped = both_map(alloc, &mut driver)?;
    driver.crew().gate().begin();
    let (stored, loaded) = both_store(alloc, &mut driver)?;
    Ok(Rounds {
        mapped,
        stored,
        loaded,
        tally: driver.tally(),
        came: driver.crew().gate().came(),
    })
}

fn answers_are_right(rt: &impl Abort, told: &Rounds) {
    assert_eq!(rt; told.mapped.0, Answer::Mapped(Vpn::new(0)));
    assert_eq!(rt; told.mapped.1, Answer::Mapped(Vpn::new(0)));
    assert_eq!(rt;
        told.stored.as_slice(),
        [Answer::Done, Answer::Done].as_slice()
    );
    assert_eq!(rt; told.loaded, Answer::Word(41));
}

#[test]
fn calls_of_a_round_overlap(rt: HostRuntime) -> Result<(), Fail> {
    let config = Config::new(4, 1, 4, 2)?;
    let told = in_threads::<Brand, _>(&rt, rt.alloc(), Blank::new(2), config)?;
    answers_are_right(&rt, &told);
    assert_eq!(rt; told.tally, tally(2, 0, 2, 2));
    assert!(rt; told.came);
    Ok(())
}

// The same two stores through the same gate, one after the other.
fn in_turn<L: Ledger, R: Wait>(
    rt: &R,
    shared: &Shared<L>,
    seats: &mut [Seat<L>],
) -> Result<(Reply, Reply, bool), Fail> {
    let (first, rest) = seats.split_first_mut().ok_or("a seat")?;
    let second = rest.first_mut().ok_or("a seat")?;
    call(shared, rt, first, map(), &Open)?;
    call(shared, rt, second, map(), &Open)?;
    let gate = Crossing::new();
    gate.begin();
    let one = call(shared, rt, first, store(0, 41), &gate)?;
    let two = call(shared, rt, second, store(1, 42), &gate)?;
    Ok((one, two, gate.came()))
}

fn a_pool_of_two<L: Ledger, R: Wait>(
    rt: &R,
    alloc: Global,
    blank: Blank,
    config: Config,
) -> Result<(Reply, Reply, bool), Fail>
    requires name { blank.name ≡ L.name }
    requires parts { (blank.parts ≡ L.parts) × (blank.parts ≡ config.tasks) }
{
    let (shared, mut seats) = Shared::<L>::new(alloc, blank, config)?;
    in_turn(rt, &shared, &mut seats)
}

/// Where calls don't overlap, the first waits in vain.
#[test]
fn calls_in_turn_wait_in_vain(rt: HostRuntime) -> Result<(), Fail> {
    let config = Config::new(4, 1, 4, 2)?;
    let told = a_pool_of_two::<Brand, _>(&rt, rt.alloc(), Blank::new(2), config)?;
    assert_eq!(rt; told.0, Reply::Ended(Answer::Done));
    assert_eq!(rt; told.1, Reply::Ended(Answer::Done));
    assert!(rt; !told.2);
    Ok(())
}
