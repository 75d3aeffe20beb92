//! A program for the check: stories in which any one growth of memory may be refused, and is told and tried again.
//!
//! It stands on hp_client, hp_shared and hp_replay. The first byte of its input says which story it tells: `p`, as a trace
//! begins, that trace on a core; `c` a journal that is cut; `r` a running pool that is resized; `g` and `w` two stores in threads, of
//! which a gate holds the first until the second has ended, and until it waits for the first; else two stores over a driver. Before
//! those it takes memory as many times as its input has bytes: so in runs whose Nth growth is refused, a shorter input has it
//! refused later in the story. `gate/growths.py` has it refused everywhere, and compares what is told.
#![tactic(auto)]

ghost use Rattle.std.specs.Prelude.{◌≡◌, ◌≤◌};

mod cut;
mod gates;
mod resized;
mod seats;
mod stores;
mod story;
mod trace;

use hp_base::Config;
use hp_core::Phase;
use std::alloc::{AllocError, Global};
use std::io;
use std::io::Read;
use std::marker::Brand;
use std::sync::Wait;
use std::sync::ledger::Blank;
use std::thread::Threads;
use stores::Meeting;

/// Takes memory so many times, and gives it back.
fn take_memory(alloc: Global, times: usize) -> Result<(), AllocError> {
    for _ in 0..times {
        let _taken = Box::new(alloc, 0u64)?;
    }
    Ok(())
}

/// A config of four frames.
fn config_for(tasks: u32) -> Config
    requires range { (1 ≤ tasks) × (tasks ≤ 2) }
    ensures { result.tasks ≡ tasks }
{
    Config::new(4, 1, 4, tasks).unwrap()
}

/// Tells the story of the journal. It is begun anew where there was no pool.
fn tell_cut<R: Wait + Print>(rt: &R, alloc: Global) -> io::Result<()> {
    for _ in 0..2 {
        if cut::tell::<Brand, _>(rt, alloc, Blank::new(2), config_for(2))? {
            return Ok(());
        }
    }
    Ok(())
}

/// Tells of the pool that is resized, twice at most.
fn tell_resized<R: Wait + Print>(rt: &R, alloc: Global) -> io::Result<()> {
    for _ in 0..2 {
        if resized::tell::<Brand, _>(rt, alloc, Blank::new(1), config_for(1))? {
            return Ok(());
        }
    }
    Ok(())
}

/// Tells of the stores in threads, twice at most.
fn tell_stores<R: Threads + Wait + Sync + Print>(
    rt: &R,
    alloc: Global,
    phase: Phase,
    page: u32,
) -> io::Result<()> {
    let meeting = Meeting { phase, page };
    for _ in 0..2 {
        if stores::tell::<Brand, _>(rt, alloc, Blank::new(2), config_for(2), meeting)? {
            return Ok(());
        }
    }
    Ok(())
}

fn main(rt: HostRuntime) -> io::Result<()> {
    let mut input = [0; 1000];
    let mut reader = rt.stdin();
    let read = reader.read(&mut input)?;
    match input[0] {
        b'p' => {
            let first = input.get(..read).unwrap_or(&[]);
            trace::tell(&rt, rt.alloc(), first, &mut reader)
        }
        b'c' => tell_cut(&rt, rt.alloc()),
        b'r' => tell_resized(&rt, rt.alloc()),
        b'g' => tell_stores(&rt, rt.alloc(), Phase::Changed, 1),
        b'w' => tell_stores(&rt, rt.alloc(), Phase::Locked, 0),
        _ => {
            take_memory(rt.alloc(), read)?;
            story::tell(&rt, rt.alloc())
        }
    }
}
