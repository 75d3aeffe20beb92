//! Cutting the journal: what was compared need not be kept.
ghost use Rattle.std.specs.Prelude.{◌≡◌, ◌+◌, ◌<◌, ◌≤◌, ◌^◌, IfOk, IfErr, OnOk, OnErr, MatchOption, MatchResult, Ok, Err, false, length, map};
ghost use Rattle.hp_core.specs.Readers.{calls_of, config_of};
ghost use Rattle.hp_shared.specs.Closing.{ClosesWith};
ghost use Rattle.hp_shared.specs.Cutting.{IsAtRest, IsCut, RefusesCut, NoneInFlight, LeastInFlight, is_in_flight};
ghost use Rattle.hp_shared.specs.Cutting.{is_seat_in_call, emptied};
ghost use Rattle.hp_shared.specs.Journal.{Interleaves};
ghost use Rattle.hp_shared.specs.Seats.{lists_of};
ghost use Rattle.hp_shared.specs.States.{next};

use crate::entry::Entry;
use crate::fault::CutFault;
use crate::pool::Pool;
use crate::seat::Seat;
use crate::shared::missing_seat;
use hp_base::Task;
use hp_core::Core;
use std::alloc::{AllocError, Global};
use std::mem;
use std::sync::ledger::{Book, Ledger};

// From 2^63 entries on no journal is cut, so that each position stays below 2^64.
const LAST: u64 = 1 << 63;

/// What was cut off: the entries since the cut before, whose positions begin at `first`.
#[derive(Debug, Drop)]
pub struct Part {
    pub first: u64,
    pub entries: Vec<Entry>,
}

fn is_seat_in_call<L: Ledger>(seats: &[Seat<L>], task: Task) -> bool
    ensures { result ≡ is_seat_in_call task seats.now }
{
    seats
        .iter()
        .any(|seat| seat.task() == task && seat.is_in_call())
}

fn is_in_flight<L: Ledger>(core: &Core, seats: &[Seat<L>], task: Task) -> bool
    requires first { 1 ≤ task }
    requires last { task ≤ (config_of core.now).tasks }
    ensures { result ≡ is_in_flight core.now seats.now task }
{
    core.phase(task).is_some() || is_seat_in_call(seats, task)
}

// The least task with a call in flight.
fn in_flight<L: Ledger>(core: &Core, seats: &[Seat<L>], tasks: u32) -> Option<Task>
    requires { tasks ≡ (config_of core.now).tasks }
    ensures { MatchOption result
        (NoneInFlight core.now seats.now tasks)
        (λ task. LeastInFlight core.now seats.now tasks task) }
{
    for number in 0..tasks {
        let task = Task::new(number + 1);
        if is_in_flight(core, seats, task) {
            return Some(task);
        }
    }
    None
}

// Makes of all seats' entries so far earlier ones. The book knows that no seat has made more than all seats.
fn empty_seats<L: Ledger>(book: &mut Book<L>, seats: &mut [Seat<L>])
    requires { book.old.total < 2 ^ 64 }
    ensures total { book.new.total ≡ book.old.total }
    ensures seats { seats.new ≡ map emptied seats.old }
{
    for seat in seats.iter_mut() {
        book.audit(&mut seat.share);
        seat.empty();
    }
}

// What a cut is answered that was compared so.
fn compared(verdict: Result<Result<(), u64>, AllocError>) -> Result<(), CutFault>
    ensures same { IfOk verdict (λ verdict. MatchResult verdict
        (λ _. result ≡ Ok tt) (λ position. result ≡ Err (CutFault.Disagree position))) }
    ensures memory { OnErr verdict (result ≡ Err CutFault.Memory) }
{
    match verdict {
        Ok(Ok(())) => Ok(()),
        Ok(Err(position)) => Err(CutFault::Disagree(position)),
        Err(AllocError) => Err(CutFault::Memory),
    }
}

impl<L: Ledger> Pool<L> {
    /// Compares the journal with the lists of all seats and, where it is their interleaving, hands it out and begins a new
    /// one: lists and journal are empty, and the pool keeps its core as it is now. No call may be in flight. On a fault
    /// nothing changed.
    pub fn cut(&mut self, alloc: Global, seats: &mut [Seat<L>]) -> Result<Part, CutFault>
        ensures cut { OnOk result (IsCut self.old seats.old self.new) }
        ensures run { IfOk result (λ part. ClosesWith seats.old self.old.core part.first part.entries.items) }
        ensures seats { OnOk result (seats.new ≡ map emptied seats.old) }
        ensures first { IfOk result (λ part. part.first ≡ self.old.first) }
        ensures entries { IfOk result (λ part. part.entries.items ≡ self.old.journal) }
        ensures refused { IfErr result (λ fault. RefusesCut self.old seats.old fault) }
        ensures err { OnErr result ((self.new ≡ self.old) × (seats.new ≡ seats.old)) }
    {
        self.is_ready_to_cut(alloc, seats)?;
        self.core.always();
        self.core.is_reached();
        hp_laws::callers_live();
        let Ok(start) = self.core.copy(alloc) else {
            return Err(CutFault::Memory);
        };
        empty_seats(&mut self.book, seats);
        let first = self.first;
        self.first += self.journal.len() as u64;
        self.start = start;
        Ok(Part {
            first,
            entries: mem::replace(&mut self.journal, Vec::new(alloc)),
        })
    }

    // Whether all is there and agrees.
    fn is_ready_to_cut(&self, alloc: Global, seats: &[Seat<L>]) -> Result<(), CutFault>
        ensures cut { OnOk result (IsAtRest self.now seats.now × (next self.now < 2 ^ 63)
            × Interleaves self.now.first self.now.journal (lists_of seats.now)) }
        ensures refused { IfErr result (λ fault. RefusesCut self.now seats.now fault) }
    {
        let tasks = self.core.config().tasks;
        if let Some(task) = missing_seat(tasks, seats) {
            return Err(CutFault::SeatMissing(task));
        }
        if let Some(task) = in_flight(&self.core, seats, tasks) {
            return Err(CutFault::InFlight(task));
        }
        if self.first + self.journal.len() as u64 >= LAST {
            return Err(CutFault::Full);
        }
        compared(self.compare(alloc, seats))
    }
}
