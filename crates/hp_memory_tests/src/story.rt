//! The story, call by call. What memory is refused to is told, and tried again, but for the two stores.
use hp_base::{Answer, Config, File, Index, Op, Task, Vpn};
use hp_client::{ClientFault, CoreDriver, Driver};
use std::alloc::Global;
use std::io;

/// A driver of a new pool for which there was no memory at first.
fn open_again(rt: &impl Print, alloc: Global, config: Config) -> io::Result<CoreDriver> {
    println!(rt; "open: {}", ClientFault::Memory)?;
    Ok(CoreDriver::open(alloc, config)?)
}

/// A driver of a new pool of two frames, one file and two tasks.
fn open(rt: &impl Print, alloc: Global) -> io::Result<CoreDriver> {
    let config = match Config::new(2, 1, 4, 2) {
        Ok(config) => config,
        Err(_) => unreachable!(),
    };
    match CoreDriver::open(alloc, config) {
        Ok(driver) => Ok(driver),
        Err(_) => open_again(rt, alloc, config),
    }
}

/// Tells what a call came to.
fn told(rt: &impl Print, name: &str, answer: Result<Answer, ClientFault>) -> io::Result<()> {
    match answer {
        Ok(answer) => println!(rt; "{name}: {answer}"),
        Err(ClientFault::Refused(refusal)) => println!(rt; "{name}: refused {refusal}"),
        Err(fault) => println!(rt; "{name}: {fault}"),
    }
}

/// Takes the calls in flight to their ends. Whatever keeps it from that is told.
fn finish(rt: &impl Print, driver: &mut CoreDriver, alloc: Global) -> io::Result<()> {
    match driver.finish(alloc) {
        Ok(()) => Ok(()),
        Err(fault) => println!(rt; "finish: {fault}"),
    }
}

/// A call, of which is told what came of it. Returns whether it was answered, or refused by anything but want of memory.
fn is_made(
    rt: &impl Print,
    driver: &mut CoreDriver,
    alloc: Global,
    name: &str,
    call: (Task, Op),
) -> io::Result<bool> {
    match driver.call(alloc, call.0, call.1) {
        Err(ClientFault::Memory) => {
            println!(rt; "{name}: {}", ClientFault::Memory)?;
            Ok(false)
        }
        answer => {
            told(rt, name, answer)?;
            Ok(true)
        }
    }
}

/// A map of a page without a reservation. Where memory is refused to it, it is taken to its end, and then made again.
fn map(
    rt: &impl Print,
    driver: &mut CoreDriver,
    alloc: Global,
    name: &str,
    task: Task,
) -> io::Result<()> {
    if is_made(rt, driver, alloc, name, (task, map_of_a_page()))? {
        return Ok(());
    }
    finish(rt, driver, alloc)?;
    told(rt, name, driver.call(alloc, task, map_of_a_page()))
}

fn map_of_a_page() -> Op {
    Op::MapNoReserve {
        file: File::new(0),
        from: Index::new(0),
        len: 1,
    }
}

fn store(word: u64) -> Op {
    Op::Store {
        vpn: Vpn::new(0),
        word,
    }
}

fn load() -> Op {
    Op::Load { vpn: Vpn::new(0) }
}

/// Tells the numbers of the pool: free frames, the reserve count, reserved indices and pages.
fn tell_tally(rt: &impl Print, driver: &CoreDriver) -> io::Result<()> {
    let tally = driver.tally();
    println!(rt;
        "tally {} {} {} {}",
        tally.free, tally.resv, tally.reserved, tally.pages
    )
}

/// Both tasks map a page without a reservation.
fn map_both(rt: &impl Print, driver: &mut CoreDriver, alloc: Global) -> io::Result<()> {
    map(rt, driver, alloc, "map of 1", Task::new(1))?;
    map(rt, driver, alloc, "map of 2", Task::new(2))
}

/// Both store to it. Where memory is refused to the first, the second comes before it is taken to its end.
fn store_both(rt: &impl Print, driver: &mut CoreDriver, alloc: Global) -> io::Result<()> {
    told(rt, "store of 1", driver.call(alloc, Task::new(1), store(5)))?;
    tell_tally(rt, driver)?;
    told(rt, "store of 2", driver.call(alloc, Task::new(2), store(6)))?;
    finish(rt, driver, alloc)?;
    tell_tally(rt, driver)
}

/// The first task ends, and can't load then. Memory may be refused to either before anything happened.
fn end(rt: &impl Print, driver: &mut CoreDriver, alloc: Global) -> io::Result<()> {
    if !is_made(rt, driver, alloc, "exit of 1", (Task::new(1), Op::Exit))? {
        told(rt, "exit of 1", driver.call(alloc, Task::new(1), Op::Exit))?;
    }
    if !is_made(rt, driver, alloc, "load of 1", (Task::new(1), load()))? {
        told(rt, "load of 1", driver.call(alloc, Task::new(1), load()))?;
    }
    Ok(())
}

/// The story: the maps, the stores, and the end of the first task, which can't load then.
pub(crate) fn tell(rt: &impl Print, alloc: Global) -> io::Result<()> {
    let mut driver = open(rt, alloc)?;
    map_both(rt, &mut driver, alloc)?;
    store_both(rt, &mut driver, alloc)?;
    end(rt, &mut driver, alloc)
}
