//! A task that waits for another's call, until the input ends.
ghost use Rattle.std.specs.Prelude.{◌≡◌};

use anyhow::{Context, Result};
use hp_base::{Config, Event, File, Index, Op};
use hp_shared::{Hold, Open, Seat, Shared, call, resume};
use std::alloc::Global;
use std::io::Read;
use std::marker::Brand;
use std::sync::Wait;
use std::sync::ledger::{Blank, Ledger};
use std::thread::{Threads, join};

fn page() -> Op {
    Op::Alloc {
        file: File::new(0),
        from: Index::new(0),
        len: 1,
        keep: true,
    }
}

// Reads to the end of the input.
fn read_all<R: Input>(rt: &R) {
    let mut line = [0; 64];
    for _ in 0..u64::MAX {
        match rt.reader().read(&mut line) {
            Ok(0) | Err(_) => return,
            Ok(_) => {}
        }
    }
}

// The first task's call has the file's lock, and goes on when the input has ended. The second's waits for it.
fn wait_for<L: Ledger + Send + Sync, R: Threads + Wait + Input + Sync>(
    rt: &R,
    shared: &Shared<L>,
    seats: &mut [Seat<L>],
) -> Result<()> {
    let (first, rest) = seats.split_first_mut().context("a seat")?;
    let second = rest.first_mut().context("a seat")?;
    let task = first.task();
    shared.attempt(rt, first, Event::Begin(task, page()))?;
    shared.attempt(rt, first, Event::Step(task, true))?;
    let (waited, held) = join(
        rt,
        || call(shared, rt, second, page(), &Open),
        || {
            read_all(rt);
            resume(shared, rt, first, &Open)
        },
    );
    waited?;
    held?;
    Ok(())
}

fn wait_by<L: Ledger + Send + Sync, R: Threads + Wait + Input + Sync>(
    rt: &R,
    alloc: Global,
    blank: Blank,
    config: Config,
) -> Result<u64>
    requires name { blank.name ≡ L.name }
    requires parts { (blank.parts ≡ L.parts) × (blank.parts ≡ config.tasks) }
{
    let (shared, mut seats) = Shared::<L>::new(alloc, blank, config)?;
    wait_for(rt, &shared, &mut seats)?;
    let closed = shared
        .close(alloc, seats)
        .ok()
        .context("the histories agree")?;
    Ok(closed.entries)
}

/// Tells how many entries the pool has when both calls have ended.
pub(crate) fn wait<R: Threads + Wait + Input + Sync>(rt: &R, alloc: Global) -> Result<u64> {
    let config = Config::new(2, 1, 4, 2)?;
    wait_by::<Brand, _>(rt, alloc, Blank::new(u64::from(config.tasks)), config)
}
