//! A journal that is cut.
ghost use Rattle.std.specs.Prelude.{◌≡◌};

use crate::seats::{again, end, tell as tell_reply};
use hp_base::{Answer, Config, File, Index, Op, Vpn};
use hp_shared::{CallFault, CutFault, Open, Seat, Shared, call};
use std::alloc::Global;
use std::io;
use std::sync::Wait;
use std::sync::ledger::{Blank, Ledger};

/// Cuts the journal, and tells the part.
fn cut<L: Ledger, R: Wait + Print>(
    rt: &R,
    alloc: Global,
    shared: &Shared<L>,
    seats: &mut [Seat<L>],
) -> io::Result<()> {
    let mut first = shared.cut(rt, alloc, seats);
    if matches!(first, Err(CutFault::Memory)) {
        println!(rt; "cut: out of memory")?;
        first = shared.cut(rt, alloc, seats);
    }
    match first {
        Ok(part) => println!(rt; "cut: first {} entries {}", part.first, part.entries.len()),
        Err(fault) => println!(rt; "cut: {fault}"),
    }
}

/// Makes a call of the seat at this place. While it is in flight for want of memory the journal isn't cut, which is told too.
fn call_of<L: Ledger, R: Wait + Print>(
    rt: &R,
    alloc: Global,
    shared: &Shared<L>,
    seats: &mut [Seat<L>],
    place: usize,
    name: &str,
    op: Op,
) -> io::Result<()> {
    // The checker of borrows asks for a mention of the type that a reply may hold.
    let _none: Option<Answer> = None;
    let Some(seat) = seats.get_mut(place) else {
        return Ok(());
    };
    let first = call(shared, rt, seat, op, &Open);
    tell_reply(rt, name, &first)?;
    let Err(CallFault::Memory { begun }) = first else {
        return Ok(());
    };
    if begun {
        cut(rt, alloc, shared, seats)?;
    }
    let Some(seat) = seats.get_mut(place) else {
        return Ok(());
    };
    let then = again(rt, shared, seat, &op, &Open, begun);
    tell_reply(rt, name, &then)
}

fn map() -> Op {
    Op::Map {
        file: File::new(0),
        from: Index::new(0),
        len: 2,
    }
}

fn store() -> Op {
    Op::Store {
        vpn: Vpn::new(0),
        word: 41,
    }
}

/// Both tasks map, one stores, the other loads; the journal is cut before and behind the store. Returns whether there was a pool.
pub(crate) fn tell<L: Ledger + Send + Sync, R: Wait + Print>(
    rt: &R,
    alloc: Global,
    blank: Blank,
    config: Config,
) -> io::Result<bool>
    requires name { blank.name ≡ L.name }
    requires parts { (blank.parts ≡ L.parts) × (blank.parts ≡ config.tasks) }
{
    let Ok((shared, mut seats)) = Shared::<L>::new(alloc, blank, config) else {
        println!(rt; "open: out of memory")?;
        return Ok(false);
    };
    let pool = &shared;
    call_of(rt, alloc, pool, &mut seats, 0, "map of 1", map())?;
    call_of(rt, alloc, pool, &mut seats, 1, "map of 2", map())?;
    cut(rt, alloc, &shared, &mut seats)?;
    call_of(rt, alloc, pool, &mut seats, 0, "store of 1", store())?;
    cut(rt, alloc, &shared, &mut seats)?;
    let load = Op::Load { vpn: Vpn::new(0) };
    call_of(rt, alloc, pool, &mut seats, 1, "load of 2", load)?;
    end(rt, alloc, shared, seats)?;
    Ok(true)
}
