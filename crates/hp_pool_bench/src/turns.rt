//! Threads that make calls as fast as they can.
ghost use Rattle.std.specs.Prelude.{◌≡◌};

use anyhow::{Context, Result, anyhow};
use hp_base::{Config, File, Index, Op, Vpn};
use hp_shared::{CallFault, Open, Seat, Shared, call};
use std::alloc::Global;
use std::marker::Brand;
use std::sync::Wait;
use std::sync::atomic::{AtomicBool, Ordering};
use std::sync::ledger::{Blank, Ledger};
use std::thread;
use std::thread::Threads;

/// How many threads make calls, on one file or on one each; in how many parts, between which the journal is cut; and how many
/// turns each of them makes in a part.
#[derive(Clone, Copy)]
pub(crate) struct Asked {
    pub(crate) threads: u32,
    pub(crate) is_one_file: bool,
    pub(crate) parts: u32,
    pub(crate) turns: u32,
}

impl Asked {
    fn file_of<L: Ledger>(&self, seat: &Seat<L>) -> File {
        if self.is_one_file {
            return File::new(0);
        }
        File::new(seat.task().number().saturating_sub(1))
    }

    fn files(&self) -> u32 {
        if self.is_one_file { 1 } else { self.threads }
    }
}

// A page of the file that has to be there, which takes the file's lock and the page's slot.
fn page(file: File) -> Op {
    Op::Alloc {
        file,
        from: Index::new(0),
        len: 1,
        keep: true,
    }
}

// A word that is stored to it.
fn store() -> Op {
    Op::Store {
        vpn: Vpn::new(0),
        word: 1,
    }
}

fn map(file: File) -> Op {
    Op::Map {
        file,
        from: Index::new(0),
        len: 1,
    }
}

fn make_turns<L: Ledger, R: Wait>(
    rt: &R,
    shared: &Shared<L>,
    seat: &mut Seat<L>,
    file: File,
    turns: u32,
) -> Result<(), CallFault> {
    for _ in 0..turns {
        call(shared, rt, seat, page(file), &Open)?;
        call(shared, rt, seat, store(), &Open)?;
    }
    Ok(())
}

// All tasks' turns of a part, each task's in a thread of its own. Tells whether memory was wanted.
fn make_part<L: Ledger + Send + Sync, R: Threads + Wait + Sync>(
    rt: &R,
    shared: &Shared<L>,
    seats: &mut [Seat<L>],
    asked: Asked,
) -> bool {
    let lacked = AtomicBool::new(false);
    let count = seats.len();
    if count == 0 {
        return false;
    }
    thread::for_each_mut(
        rt,
        seats,
        count,
        &|_: usize, seat: &mut Seat<L>| {
            let file = asked.file_of(seat);
            if make_turns(rt, shared, seat, file, asked.turns).is_err() {
                lacked.store(true, Ordering::SeqCst);
            }
        },
    );
    lacked.load(Ordering::SeqCst)
}

// Each task maps the page that its calls are about.
fn map_all<L: Ledger, R: Wait>(
    rt: &R,
    shared: &Shared<L>,
    seats: &mut [Seat<L>],
    asked: Asked,
) -> Result<(), CallFault> {
    for seat in seats.iter_mut() {
        let file = asked.file_of(seat);
        call(shared, rt, seat, map(file), &Open)?;
    }
    Ok(())
}

fn race_by<L: Ledger + Send + Sync, R: Threads + Wait + Sync>(
    rt: &R,
    alloc: Global,
    blank: Blank,
    config: Config,
    asked: Asked,
) -> Result<u64>
    requires name { blank.name ≡ L.name }
    requires parts { (blank.parts ≡ L.parts) × (blank.parts ≡ config.tasks) }
{
    let (shared, mut seats) = Shared::<L>::new(alloc, blank, config)?;
    map_all(rt, &shared, &mut seats, asked)?;
    for part in 0..asked.parts {
        if make_part(rt, &shared, &mut seats, asked) {
            return Err(anyhow!("out of memory"));
        }
        if part + 1 < asked.parts {
            shared.cut(rt, alloc, &mut seats)?;
        }
    }
    let closed = shared
        .close(alloc, seats)
        .ok()
        .context("the histories agree")?;
    Ok(closed.entries)
}

/// Makes all turns, and tells how many entries the pool has.
pub(crate) fn race<R: Threads + Wait + Sync>(rt: &R, alloc: Global, asked: Asked) -> Result<u64> {
    let config = Config::new(4, asked.files(), 64, asked.threads)?;
    race_by::<Brand, _>(
        rt,
        alloc,
        Blank::new(u64::from(config.tasks)),
        config,
        asked,
    )
}
