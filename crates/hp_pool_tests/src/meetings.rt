//! Calls of one round, of which each is held until all are in flight: in a thread each they are, and otherwise they can't be.
ghost use Rattle.std.specs.Prelude.{◌≡◌};

use crate::gates::Meeting;
use hp_base::{Answer, Config, File, Index, Op, Task, Vpn};
use hp_client::{ClientFault, Crew, Team};
use std::alloc::Global;
use std::marker::Brand;
use std::sync::Wait;
use std::sync::ledger::{Blank, Ledger};
use std::test::Fail;
use std::thread::Threads;

fn map(index: u32) -> Op {
    Op::Map {
        file: File::new(0),
        from: Index::new(index),
        len: 1,
    }
}

fn store(number: u32) -> (Task, Op) {
    let store = Op::Store {
        vpn: Vpn::new(0),
        word: 7,
    };
    (Task::new(number), store)
}

// Whether the task's call was done.
fn is_done<L: Ledger>(crew: &Crew<L, Meeting>, task: Task) -> bool {
    matches!(crew.answer_of(task), Ok(Answer::Done))
}

// Each task maps a page of its own.
fn all_map<L: Ledger + Send + Sync, R: Threads + Wait + Sync>(
    rt: &R,
    crew: &mut Crew<L, Meeting>,
    tasks: u32,
) -> Result<(), ClientFault> {
    for number in 1..=tasks {
        let call = [(Task::new(number), map(number))];
        crew.give(&call).map_err(ClientFault::Refused)?;
        crew.run(rt);
    }
    Ok(())
}

// How many stores were done that all tasks made at once, one each, and whether all were in flight at once.
fn a_round<L: Ledger + Send + Sync, R: Threads + Wait + Sync>(
    rt: &R,
    alloc: Global,
    blank: Blank,
    config: Config,
) -> Result<(usize, bool), ClientFault>
    requires name { blank.name ≡ L.name }
    requires parts { (blank.parts ≡ L.parts) × (blank.parts ≡ config.tasks) }
{
    let gate = Meeting::new(config.tasks as usize);
    let mut crew = Crew::<L, Meeting>::open(alloc, blank, config, gate)?;
    all_map(rt, &mut crew, config.tasks)?;
    crew.gate().begin();
    let calls: Vec<(Task, Op)> = (1..=config.tasks).map(store).collect(alloc)?;
    crew.give(calls.as_slice()).map_err(ClientFault::Refused)?;
    crew.run(rt);
    let mut done = 0_usize;
    for number in 1..=config.tasks {
        if is_done(&crew, Task::new(number)) {
            done = done.saturating_add(1);
        }
    }
    Ok((done, crew.gate().met()))
}

#[test]
fn calls_of_seventeen_tasks_are_in_flight_at_once(rt: HostRuntime) -> Result<(), Fail> {
    let config = Config::new(64, 1, 64, 17)?;
    let told = a_round::<Brand, _>(&rt, rt.alloc(), Blank::new(17), config)?;
    assert_eq!(rt; told, (17, true));
    Ok(())
}

/// So are those of as many tasks as a pool can have.
#[test]
fn calls_of_all_tasks_are_in_flight_at_once(rt: HostRuntime) -> Result<(), Fail> {
    let config = Config::new(64, 1, 64, 64)?;
    let told = a_round::<Brand, _>(&rt, rt.alloc(), Blank::new(64), config)?;
    assert_eq!(rt; told, (64, true));
    Ok(())
}
