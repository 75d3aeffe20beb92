//! Ending a pool.
ghost use Rattle.std.specs.Prelude.{◌≡◌, ◌<◌, length, IfOk, IfErr, MatchOption};
ghost use Rattle.hp_shared.specs.Closing.{ClosesWith, Disagrees, IsClosed, IsForGood, RefusesToClose, entries_of};
ghost use Rattle.hp_shared.specs.Seats.{AllSeated};
ghost use Rattle.hp_shared.specs.Cutting.{tasks_of};

use crate::fault::CloseFault;
use crate::pool::{Closed, Pool};
use crate::seat::Seat;
use crate::shared::missing_seat;
use std::alloc::{AllocError, Global};
use std::sync::ledger::{Book, Ledger};

/// Why a pool wasn't closed, with the pool and the seats. After `Disagree` they aren't handed back.
#[derive(Drop)]
pub struct KeptOpen<L: Ledger> {
    pub fault: CloseFault,
    pub back: Option<(Pool<L>, Vec<Seat<L>>)>,
}

// Joins the shares of all seats. Where these are all parts of the ledger, the book has counted what they have, and no more.
pub(crate) fn join_shares<L: Ledger>(book: &mut Book<L>, seats: Vec<Seat<L>>)
    ensures total { book.new.total ≡ book.old.total }
    ensures sum { 0 < length seats.items → length seats.items ≡ L.parts → book.old.total ≡ entries_of seats.items }
{
    let mut seats = seats;
    let Some(last) = seats.pop() else {
        return;
    };
    let mut whole = last.into_share();
    for seat in seats {
        whole.merge(seat.into_share());
    }
    book.audit(&mut whole);
}

impl<L: Ledger> Pool<L> {
    /// Ends the pool, where the seats are all there and the journal is an interleaving of their lists. It asks first whether a
    /// seat is missing. The seats that a pool begins with have all shares of the ledger among them: so what they made comes to
    /// all entries.
    pub fn close(self, alloc: Global, seats: Vec<Seat<L>>) -> Result<Closed, KeptOpen<L>>
        ensures seated { IfOk result (λ _. AllSeated (tasks_of self) seats.items) }
        ensures closed { IfOk result (λ closed. IsClosed self seats.items closed) }
        ensures sum { IfOk result (λ closed. 0 < length seats.items → length seats.items ≡ L.parts
            → closed.entries ≡ entries_of seats.items) }
        ensures refused { IfErr result (λ kept. RefusesToClose self seats.items kept.fault) }
        ensures back { IfErr result (λ kept. MatchOption kept.back (IsForGood kept.fault) (λ back. (back.0 ≡ self) × (back.1 ≡ seats))) }
    {
        let tasks = self.core.config().tasks;
        if let Some(task) = missing_seat(tasks, seats.as_slice()) {
            return Err(KeptOpen {
                fault: CloseFault::SeatMissing(task),
                back: Some((self, seats)),
            });
        }
        self.close_seated(alloc, seats)
    }

    // The same of seats that are all there.
    pub(crate) fn close_seated(
        self,
        alloc: Global,
        seats: Vec<Seat<L>>,
    ) -> Result<Closed, KeptOpen<L>>
        ensures closed { IfOk result (λ closed. IsClosed self seats.items closed) }
        ensures run { IfOk result (λ closed. ClosesWith seats.items closed.core closed.last.first closed.last.entries.items) }
        ensures sum { IfOk result (λ closed. 0 < length seats.items → length seats.items ≡ L.parts
            → closed.entries ≡ entries_of seats.items) }
        ensures refused { IfErr result (λ kept. Disagrees self seats.items kept.fault) }
        ensures back { IfErr result (λ kept. MatchOption kept.back (IsForGood kept.fault) (λ back. (back.0 ≡ self) × (back.1 ≡ seats))) }
    {
        match self.compare(alloc, seats.as_slice()) {
            Ok(Ok(())) => Ok(self.into_closed(seats)),
            Ok(Err(position)) => Err(KeptOpen {
                fault: CloseFault::Disagree(position),
                back: None,
            }),
            Err(AllocError) => Err(KeptOpen {
                fault: CloseFault::Memory,
                back: Some((self, seats)),
            }),
        }
    }
}
