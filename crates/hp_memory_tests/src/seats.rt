//! Calls of tasks on a running pool: one to which memory is refused goes on, or is made again where it hadn't begun.
use hp_base::{Answer, Op};
use hp_shared::{CallFault, CloseFault, Gate, Hold, Open, Reply, Seat, Shared, call, resume};
use std::alloc::Global;
use std::io;
use std::sync::Wait;
use std::sync::ledger::Ledger;

/// What a call came to, and what then, where it found no memory.
#[derive(Drop)]
pub(crate) struct Made {
    first: Result<Reply, CallFault>,
    then: Option<Result<Reply, CallFault>>,
}

/// Goes on with a call that found no memory.
pub(crate) fn again<L: Ledger, H: Hold<L>, G: Gate, R: Wait>(
    rt: &R,
    hold: &H,
    seat: &mut Seat<L>,
    op: &Op,
    gate: &G,
    begun: bool,
) -> Result<Reply, CallFault> {
    if begun {
        resume(hold, rt, seat, gate)
    } else {
        call(hold, rt, seat, *op, gate)
    }
}

/// Makes a call, again where it found no memory.
pub(crate) fn try_call<L: Ledger, H: Hold<L>, G: Gate, R: Wait>(
    rt: &R,
    hold: &H,
    seat: &mut Seat<L>,
    op: &Op,
    gate: &G,
) -> Made {
    let first = call(hold, rt, seat, *op, gate);
    let then = match first {
        Err(CallFault::Memory { begun }) => Some(again(rt, hold, seat, op, gate, begun)),
        Ok(_) => None,
    };
    Made { first, then }
}

/// Tells what a call came to.
pub(crate) fn tell(
    rt: &impl Print,
    name: &str,
    reply: &Result<Reply, CallFault>,
) -> io::Result<()> {
    match reply {
        Ok(Reply::Ended(answer)) => println!(rt; "{name}: {answer}"),
        Ok(Reply::Refused(refusal)) => println!(rt; "{name}: refused {refusal}"),
        Err(fault) => println!(rt; "{name}: {fault}"),
    }
}

/// Prints what was replied to a call, and then to the one that was made again where it found no memory.
pub(crate) fn tell_made(rt: &impl Print, name: &str, made: &Made) -> io::Result<()> {
    tell(rt, name, &made.first)?;
    match &made.then {
        Some(then) => tell(rt, name, then),
        None => Ok(()),
    }
}

/// Makes a call, and tells what came of it.
pub(crate) fn make<L: Ledger, R: Wait + Print>(
    rt: &R,
    shared: &Shared<L>,
    seat: &mut Seat<L>,
    name: &str,
    op: &Op,
) -> io::Result<()> {
    // The checker of borrows asks for a mention of the type that a reply may hold.
    let _none: Option<Answer> = None;
    let made = try_call(rt, shared, seat, op, &Open);
    tell_made(rt, name, &made)
}

/// Ends the pool, and tells its entries and numbers. Where there is no memory to compare, it is asked to end again.
pub(crate) fn end<L: Ledger>(
    rt: &impl Print,
    alloc: Global,
    shared: Shared<L>,
    seats: Vec<Seat<L>>,
) -> io::Result<()> {
    let refused = match shared.close(alloc, seats) {
        Ok(closed) => {
            let (free, resv) = (closed.core.free(), closed.core.resv());
            return println!(rt;
                "closed: entries {} free {free} resv {resv}",
                closed.entries
            );
        }
        Err(refused) => refused,
    };
    println!(rt; "close: {}", refused.fault)?;
    match (refused.fault, refused.back) {
        (CloseFault::Memory, Some((shared, seats))) => match shared.close(alloc, seats) {
            Ok(closed) => {
                let (free, resv) = (closed.core.free(), closed.core.resv());
                println!(rt;
                    "closed: entries {} free {free} resv {resv}",
                    closed.entries
                )
            }
            Err(refused) => println!(rt; "close: {}", refused.fault),
        },
        _ => Ok(()),
    }
}
