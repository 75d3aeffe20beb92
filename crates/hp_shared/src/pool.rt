//! What lies under the lock.
ghost use Rattle.std.specs.Prelude.{◌≡◌, ◌+◌, ◌<◌, ◌^◌, ◌≤◌, ◌++◌, [], ℕ, List, IfOk, OnErr, Some, None, MatchResult};
ghost use Rattle.std.specs.Prelude.{MatchBool, true, false, ◌&&◌, length};
ghost use Rattle.hp_base.specs.Text.{sizes};
ghost use Rattle.hp_core.specs.Passing.{WaitOn, may_release, task_may_leave};
ghost use Rattle.hp_core.specs.Readers.{config_of, phase_of};
ghost use Rattle.hp_core.specs.Runs.{Row, IsOpening, IsIdle, Headline};
ghost use Rattle.hp_core.specs.State.{CoreState, as_state};
ghost use Rattle.hp_core.specs.Waiting.{WaitsFor};
ghost use Rattle.hp_machine.specs.declared.outcome.Outcome.{Outcome};
ghost use Rattle.hp_shared.specs.Calls.{IsOwn};
ghost use Rattle.hp_shared.specs.Closing.{ClosesWith, entries_of};
ghost use Rattle.hp_shared.specs.Journal.{gained, is_made, IsOutcomeOf, Follows, IsFromOpening, IsCameTo, Interleaves, FirstFailsAt};
ghost use Rattle.hp_shared.specs.Seats.{lists_of};
ghost use Rattle.hp_shared.specs.States.{PoolState, next, pool_with, seat_with, tally_of};
ghost use Rattle.hp_shared.specs.Waking.{OthersWaitOn};
ghost use Rattle.hp_shared.specs.declared.entry.Entry.{Entry};

use crate::closing::join_shares;
use crate::cutting::Part;
use crate::entry::Entry;
use crate::order::compare;
use crate::seat::Seat;
use hp_base::{Config, Event, Task};
use hp_core::{Core, Outcome, Phase, Tally};
use std::alloc::{AllocError, Global};
use std::marker::Model;
use std::sync::ledger::{Book, Ledger};

/// The core, the journal of all that changed it since the last cut, and the book of the ledger that counts all entries.
#[derive(Drop)]
pub struct Pool<L: Ledger> {
    pub(crate) core: Core,
    // as the core was at the last cut
    pub(crate) start: Core,
    // how many entries were made up to that cut
    pub(crate) first: u64,
    pub(crate) journal: Vec<Entry>,
    pub(crate) book: Book<L>,
}

impl<L: Ledger> Model for Pool<L> {
    ghost use Rattle.std.specs.Prelude.{◌≡◌, ◌+◌, ◌<◌, ◌^◌, ℕ, List, length};
    ghost use Rattle.std.specs.Coded.{codes, coded_ℕ};
    ghost use Rattle.std.specs.FinMap as map;
    ghost use Rattle.std.specs.Ordering.{nat_cmp};
    ghost use Rattle.hp_shared.specs.States.{PoolState};
    ghost use Rattle.hp_shared.specs.Journal.{Follows, IsFromOpening};
    ghost use Rattle.hp_shared.specs.declared.entry.Entry.{Entry};

    ghost Value = { PoolState };

    ghost coded = { Prim.hlevel (codes, map.code {R = nat_cmp} coded_ℕ coded_ℕ) };

    ghost view = { λ p. record {
      core = p.core;
      start = p.start;
      first = p.first;
      journal = p.journal.items;
      entries = p.book.total;
    } };

    ghost invariant = { λ p. record {
      origin : (earlier : List Entry) × (length earlier ≡ p.first) × IsFromOpening earlier p.start;
      run : Follows p.start p.journal.items p.core;
      counted : p.book.total ≡ p.first + length p.journal.items;
      bound : p.first < 2 ^ 63;
    } };
}

// Whether something came of an event.
fn is_made(outcome: &Outcome) -> bool
    ensures { result ≡ is_made outcome.now }
{
    !matches!(outcome, Outcome::Blocked(_) | Outcome::Refused(_))
}

impl<L: Ledger> Pool<L> {
    // A pool that nothing has happened to.
    pub(crate) fn new(alloc: Global, config: Config, book: Book<L>) -> Result<Pool<L>, AllocError>
        requires { book.total ≡ 0 }
        ensures opening { IfOk result (λ pool. IsOpening config pool.core) }
        ensures journal { IfOk result (λ pool. pool.journal ≡ []) }
        ensures first { IfOk result (λ pool. pool.first ≡ 0) }
    {
        let core = Core::new(alloc, config)?;
        let start = core.copy(alloc)?;
        Ok(Pool {
            core,
            start,
            first: 0,
            journal: Vec::new(alloc),
            book,
        })
    }

    /// One event of the core, in one hold: its entry is the journal's and the seat's last. An event that is blocked or
    /// refused changes nothing, and is told so whatever memory there is; nor does anything change where memory is wanted.
    pub fn advance(&mut self, seat: &mut Seat<L>, event: Event) -> Result<Outcome, AllocError>
        requires { IsOwn seat.old.task event }
        ensures row { IfOk result (λ outcome. Row self.old.core event outcome self.new.core) }
        ensures pool { IfOk result (λ outcome. self.new ≡ pool_with self.old event outcome self.new.core) }
        ensures seat { IfOk result (λ outcome. seat.new ≡ seat_with seat.old (next self.old) event outcome) }
        ensures held { IfOk result (λ outcome. is_made outcome ≡ false → (self.new ≡ self.old) × (seat.new ≡ seat.old)) }
        ensures kind { IfOk result (λ outcome. IsOutcomeOf event outcome) }
        ensures err { OnErr result ((self.new ≡ self.old) × (seat.new ≡ seat.old)) }
        ensures wanted { OnErr result ((outcome : Outcome) → Row self.old.core event outcome self.old.core → IsIdle outcome → ⊥) }
    {
        // The checker of borrows asks that the event be lent.
        let lent = &event;
        if let Some(outcome) = self.core.held_back(*lent) {
            return Ok(outcome);
        }
        self.journal.reserve(1)?;
        seat.list.reserve(1)?;
        let outcome = self.core.step(*lent)?;
        let entry = Entry {
            position: self.first + self.journal.len() as u64,
            event: *lent,
            outcome,
        };
        let kept = &entry;
        self.journal.push_reserved(*kept);
        seat.list.push_reserved(*kept);
        seat.progress.note(kept);
        self.book.add(&mut seat.share, 1);
        Ok(kept.outcome)
    }

    // Whether the next step of the task may leave a slot or a lock.
    fn may_leave(&self, task: Task) -> bool
        ensures { result ≡ task_may_leave (phase_of self.now.core task) }
    {
        self.core.always();
        self.core.is_reached();
        hp_laws::callers_live();
        let number = task.number();
        if number == 0 || number > self.core.config().tasks {
            return false;
        }
        matches!(self.core.phase(task), Some(Phase::Unslot | Phase::Leave))
    }

    // Whether a task that waits may go on behind the event.
    fn may_release(&self, event: &Event) -> bool
        ensures { result ≡ may_release self.now.core event.now }
    {
        match event {
            Event::Begin(..) | Event::Resize(_) => false,
            Event::Step(task, _) => self.may_leave(*task),
            Event::Kill(_) => true,
        }
    }

    // One event, as `advance` makes it, and whether a task that waits may go on behind it: where none may, each that waited for a
    // holder waits for it still.
    pub(crate) fn hold(
        &mut self,
        seat: &mut Seat<L>,
        event: Event,
    ) -> Result<(Outcome, bool), AllocError>
        requires { IsOwn seat.old.task event }
        ensures row { IfOk result (λ held. Row self.old.core event held.0 self.new.core) }
        ensures came { IsCameTo self.old.core }
        ensures pool { IfOk result (λ held. self.new ≡ pool_with self.old event held.0 self.new.core) }
        ensures seat { IfOk result (λ held. seat.new ≡ seat_with seat.old (next self.old) event held.0) }
        ensures kind { IfOk result (λ held. IsOutcomeOf event held.0) }
        ensures released { IfOk result (λ held. held.1 ≡ (may_release self.old.core event && is_made held.0)) }
        ensures waiting { IfOk result (λ held. held.1 ≡ false → WaitOn event self.old.core self.new.core) }
        ensures others { IfOk result (λ held. held.1 ≡ false → OthersWaitOn seat.old.task self.old.core self.new.core) }
        ensures err { OnErr result ((self.new ≡ self.old) × (seat.new ≡ seat.old)) }
    {
        self.always();
        self.core.is_reached();
        let may_release = self.may_release(&event);
        let outcome = self.advance(seat, event)?;
        Ok((outcome, may_release && is_made(&outcome)))
    }

    /// What holds of every pool, whenever its lock is free: the headline of its core; the journal's events, with their
    /// outcomes, lead from the core of the last cut to this one; the entries before led to that one from an opening
    /// state, so that all together lead to this one from there; and the book counts them all. There is nothing to run.
    pub fn always(&self)
        ensures headline { Headline self.now.core }
        ensures run { Follows self.now.start self.now.journal self.now.core }
        ensures origin { (earlier : List Entry) × (length earlier ≡ self.now.first) × IsFromOpening earlier self.now.start }
        ensures came { IsCameTo self.now.core }
        ensures entries { self.now.entries ≡ next self.now }
    {
        self.core.always();
    }

    /// Whether another task's call holds up the next step of this task.
    pub fn holds_up(&self, task: Task) -> bool
        ensures held_up { MatchBool result
            ((holder : ℕ) × WaitsFor self.now.core task (Some holder))
            (1 ≤ task → task ≤ (config_of self.now.core).tasks → WaitsFor self.now.core task None) }
        ensures free { result ≡ false → WaitsFor self.now.core task None }
    {
        self.core.always();
        self.core.is_reached();
        hp_laws::callers_live();
        let number = task.number();
        if number == 0 {
            return false;
        }
        if number > self.core.config().tasks {
            return false;
        }
        self.core.waits_for(task).is_some()
    }

    /// The numbers of the pool as a whole.
    pub fn tally(&self) -> Tally
        ensures numbers { result ≡ tally_of self.now.core }
        ensures came { IsCameTo self.now.core }
    {
        self.always();
        self.core.tally()
    }

    // Whether the journal is an interleaving of the seats' lists, or the position at which it first fails to be one.
    pub(crate) fn compare(
        &self,
        alloc: Global,
        seats: &[Seat<L>],
    ) -> Result<Result<(), u64>, AllocError>
        ensures { IfOk result (λ verdict. MatchResult verdict
            (λ _. Interleaves self.now.first self.now.journal (lists_of seats.now))
            (FirstFailsAt self.now.first self.now.journal (lists_of seats.now))) }
    {
        compare(alloc, self.first, self.journal.as_slice(), seats)
    }

    // The core, the journal, and the number of all entries. These are the seats that made them.
    pub(crate) fn into_closed(self, seats: Vec<Seat<L>>) -> Closed
        ensures core { result.core ≡ self.core }
        ensures first { result.last.first ≡ self.first }
        ensures journal { result.last.entries.items ≡ self.journal }
        ensures entries { result.entries ≡ next self }
        ensures sum { 0 < length seats.items → length seats.items ≡ L.parts → result.entries ≡ entries_of seats.items }
        ensures run { Follows self.start self.journal self.core }
        ensures origin { (earlier : List Entry) × (length earlier ≡ self.first) × IsFromOpening earlier self.start }
    {
        let Pool {
            core,
            start: _,
            first,
            journal,
            mut book,
        } = self;
        join_shares(&mut book, seats);
        Closed {
            core,
            entries: first + journal.len() as u64,
            last: Part {
                first,
                entries: journal,
            },
        }
    }
}

/// What is left of a pool that was closed: its core, how many entries were made in all, and those since the last cut.
#[derive(Drop)]
pub struct Closed {
    pub core: Core,
    pub entries: u64,
    pub last: Part,
}
