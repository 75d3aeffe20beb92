//! Two stores on a running pool, in two threads: a gate holds the first until the second has ended, or is held up by it.
ghost use Rattle.std.specs.Prelude.{◌≡◌};

use crate::gates::{HeldAt, Opener, Opening};
use crate::seats::{Made, end, make, tell_made, try_call};
use hp_base::{Config, File, Index, Op, Vpn};
use hp_core::Phase;
use hp_shared::{Open, Seat, Shared};
use std::alloc::Global;
use std::io;
use std::sync::Wait;
use std::sync::ledger::{Blank, Ledger};
use std::thread::{Threads, join};

/// Where the first store is held, and the page of the second: the first's is page 0.
#[derive(Clone, Copy)]
pub(crate) struct Meeting {
    pub(crate) phase: Phase,
    pub(crate) page: u32,
}

/// What came of both stores, and what had the gate opened.
#[derive(Drop)]
struct Stores {
    first: Made,
    second: Made,
    opening: Opening,
}

fn map() -> Op {
    Op::Map {
        file: File::new(0),
        from: Index::new(0),
        len: 2,
    }
}

fn store(page: u32, word: u64) -> Op {
    Op::Store {
        vpn: Vpn::new(page),
        word,
    }
}

/// Makes both stores. Where one finds no memory its thread makes it again, or goes on with it.
fn store_both<L: Ledger + Send + Sync, R: Threads + Wait + Sync>(
    rt: &R,
    shared: &Shared<L>,
    first: &mut Seat<L>,
    second: &mut Seat<L>,
    meeting: Meeting,
) -> Stores {
    let gate = HeldAt::new(meeting.phase);
    let held = &gate;
    let (one, two) = join(
        rt,
        || try_call(rt, shared, first, &store(0, 41), held),
        || {
            held.wait_for_call();
            let opener = Opener { shared, gate: held };
            let made = try_call(rt, &opener, second, &store(meeting.page, 42), &Open);
            held.open();
            made
        },
    );
    Stores {
        first: one,
        second: two,
        opening: gate.opening(),
    }
}

fn tell_stores(rt: &impl Print, stores: &Stores) -> io::Result<()> {
    tell_made(rt, "store of 1", &stores.first)?;
    tell_made(rt, "store of 2", &stores.second)?;
    match stores.opening {
        Opening::Wait => println!(rt; "gate: opened as store of 2 waited"),
        Opening::End => println!(rt; "gate: opened as store of 2 had ended"),
        Opening::Patience => println!(rt; "gate: no second thread"),
    }
}

/// Both tasks map, both store, and the second loads what the first stored, or what it stored over it.
fn tell_calls<L: Ledger + Send + Sync, R: Threads + Wait + Sync + Print>(
    rt: &R,
    shared: &Shared<L>,
    first: &mut Seat<L>,
    second: &mut Seat<L>,
    meeting: Meeting,
) -> io::Result<()> {
    make(rt, shared, first, "map of 1", &map())?;
    make(rt, shared, second, "map of 2", &map())?;
    let stores = store_both(rt, shared, first, second, meeting);
    tell_stores(rt, &stores)?;
    let load = Op::Load { vpn: Vpn::new(0) };
    make(rt, shared, second, "load of 2", &load)
}

/// The story. Returns whether there was a pool.
pub(crate) fn tell<L: Ledger + Send + Sync, R: Threads + Wait + Sync + Print>(
    rt: &R,
    alloc: Global,
    blank: Blank,
    config: Config,
    meeting: Meeting,
) -> io::Result<bool>
    requires name { blank.name ≡ L.name }
    requires parts { (blank.parts ≡ L.parts) × (blank.parts ≡ config.tasks) }
{
    let Ok((shared, mut seats)) = Shared::<L>::new(alloc, blank, config) else {
        println!(rt; "open: out of memory")?;
        return Ok(false);
    };
    if let [first, second] = seats.as_mut_slice() {
        tell_calls(rt, &shared, first, second, meeting)?;
    }
    end(rt, alloc, shared, seats)?;
    Ok(true)
}
