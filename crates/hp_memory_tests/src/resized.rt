//! A running pool that is resized.
ghost use Rattle.std.specs.Prelude.{◌≡◌};

use crate::seats::end;
use hp_base::Config;
use hp_shared::{Seat, Shared};
use std::alloc::Global;
use std::io;
use std::sync::Wait;
use std::sync::ledger::{Blank, Ledger};

/// Asks for so many frames.
fn resize<L: Ledger, R: Wait + Print>(
    rt: &R,
    shared: &Shared<L>,
    seat: &mut Seat<L>,
    frames: u32,
) -> io::Result<()> {
    let mut told = shared.resize(rt, seat, frames);
    if told.is_err() {
        println!(rt; "resize: out of memory")?;
        told = shared.resize(rt, seat, frames);
    }
    match told {
        Ok(outcome) => println!(rt; "{outcome}"),
        Err(fault) => println!(rt; "resize: {fault}"),
    }
}

/// Two of four frames go, and then there are to be nine. Returns whether there was a pool.
pub(crate) fn tell<L: Ledger + Send + Sync, R: Wait + Print>(
    rt: &R,
    alloc: Global,
    blank: Blank,
    config: Config,
) -> io::Result<bool>
    requires name { blank.name ≡ L.name }
    requires parts { (blank.parts ≡ L.parts) × (blank.parts ≡ config.tasks) }
{
    let Ok((shared, mut seats)) = Shared::<L>::new(alloc, blank, config) else {
        println!(rt; "open: out of memory")?;
        return Ok(false);
    };
    if let Some(seat) = seats.first_mut() {
        resize(rt, &shared, seat, 2)?;
        resize(rt, &shared, seat, 9)?;
    }
    end(rt, alloc, shared, seats)?;
    Ok(true)
}
