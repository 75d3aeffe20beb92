//! The running pool: one lock, and a seat and a condition variable for each task.
ghost use Rattle.std.specs.Prelude.{◌≡◌, ◌+◌, ◌<◌, ◌≤◌, ℕ, length, map, IfOk, IfErr, OnOk, OnErr, MatchOption, true, false};
ghost use Rattle.std.specs.Prelude.{IfSome, Some, None, [], slice_get};
ghost use Rattle.hp_base.specs.Text.{sizes};
ghost use Rattle.hp_core.specs.Readers.{config_of};
ghost use Rattle.hp_core.specs.Runs.{IsOpening};
ghost use Rattle.hp_core.specs.State.{CoreState};
ghost use Rattle.hp_shared.specs.Journal.{IsOutcomeOf, IsCameTo, IsRowOf};
ghost use Rattle.hp_shared.specs.Calls.{IsOwn};
ghost use Rattle.hp_shared.specs.Closing.{ClosesPoolOf, ClosesWith, RefusesClose, IsForGood, entries_of};
ghost use Rattle.hp_shared.specs.Cutting.{emptied, MayRefuseCut};
ghost use Rattle.hp_shared.specs.Seats.{new_seat, has_seat as seated, AllSeated, LeastMissing, lists_of};
ghost use Rattle.hp_shared.specs.States.{seat_with, tally_of};
ghost use Rattle.hp_shared.specs.Waking.{IsAwakeIn, WasAwake};

use crate::closing::KeptOpen;
use crate::cutting::Part;
use crate::fault::{CallFault, CloseFault, CutFault};
use crate::pool::{Closed, Pool};
use crate::same::same_sizes;
use crate::seat::Seat;
use crate::waiting_room::{WaitingRoom, place_of};
use hp_base::{Config, Event, Task};
use hp_core::{Outcome, Tally};
use std::alloc::{AllocError, Global};
use std::hint::spin_loop;
use std::sync::ledger::{Blank, Ledger};
use std::sync::{Condvar, Mutex, MutexGuard, Wait};

/// How long a thread that finds the lock held pauses between its looks, before it sleeps. A hold takes about as long as two of these
/// pauses, and handing the lock over takes longer: so whoever holds it makes many holds while the others pause.
const PAUSES: [u32; 6] = [4, 16, 64, 128, 128, 128];

/// A pool that many threads use.
#[derive(Drop)]
pub struct Shared<L: Ledger> {
    /// The sizes of the pool, as it was opened.
    pub(crate) config: Config,
    pub(crate) room: Mutex<WaitingRoom<L>>,
    // one for each task, by which it is called; that of task 1 comes first
    pub(crate) wakings: Vec<Condvar>,
    // for a task that the pool doesn't have, which nobody holds up
    nobody: Condvar,
}

/// Why a pool wasn't closed, with the pool and the seats. After `Disagree` and `OtherSizes` they aren't handed back.
#[derive(Drop)]
pub struct CloseRefused<L: Ledger> {
    pub fault: CloseFault,
    pub back: Option<(Shared<L>, Vec<Seat<L>>)>,
}

/// A way to make one event of a pool, and to wait for its next.
pub trait Hold<L: Ledger> {
    /// One event, in one hold of the lock. `position` is that of its entry.
    fn attempt<R: Wait>(
        &self,
        rt: &R,
        seat: &mut Seat<L>,
        event: Event,
    ) -> Result<Outcome, CallFault>
        requires { IsOwn seat.old.task event }
        ensures kind { IfOk result (λ outcome. IsOutcomeOf event outcome) }
        ensures row { IfOk result (λ outcome. IsRowOf event outcome) }
        ensures seat { IfOk result (λ outcome. (position : ℕ) × (seat.new ≡ seat_with seat.old position event outcome)) }
        ensures err { IfErr result (λ fault. (fault ≡ CallFault.Memory false) × (seat.new ≡ seat.old)) };

    /// Waits while another task's call holds up the next step of the seat's task. It makes no step. The task doesn't sleep when it
    /// returns.
    fn pause<R: Wait>(&self, rt: &R, seat: &Seat<L>);
}

impl<L: Ledger> Hold<L> for Shared<L> {
    fn attempt<R: Wait>(
        &self,
        rt: &R,
        seat: &mut Seat<L>,
        event: Event,
    ) -> Result<Outcome, CallFault> {
        let (held, called) = self.enter(rt).hold(seat, event);
        self.wake(called);
        match held {
            Ok(outcome) => Ok(outcome),
            Err(AllocError) => Err(CallFault::Memory { begun: false }),
        }
    }

    fn pause<R: Wait>(&self, rt: &R, seat: &Seat<L>)
        ensures { WasAwake seat.now.task }
    {
        let task = seat.task();
        let mut room = self.enter(rt);
        room.lie_down(task);
        let room = self.waking(task).wait_while(
            rt,
            room,
            |room: &mut WaitingRoom<L>|
                ensures { result ≡ false → IsAwakeIn task room.new }
            { room.is_asleep(task) },
        );
        room.always();
        room.pool.always();
    }
}

impl<L: Ledger> Shared<L> {
    /// A new pool of these sizes, and a seat for each of its tasks, in order. The ledger's blank has as many parts as
    /// there are tasks.
    pub fn new(
        alloc: Global,
        blank: Blank,
        config: Config,
    ) -> Result<(Shared<L>, Vec<Seat<L>>), AllocError>
        requires name { blank.name ≡ L.name }
        requires parts { (blank.parts ≡ L.parts) × (blank.parts ≡ config.tasks) }
        ensures config { IfOk result (λ made. made.0.config ≡ config) }
        ensures count { IfOk result (λ made. length made.1.items ≡ config.tasks) }
        ensures seats { IfOk result (λ made. (k : ℕ) → k < config.tasks → slice_get made.1.items k ≡ Some (new_seat (k + 1))) }
    {
        let (book, mut rest) = blank.open::<L>();
        let pool = Pool::new(alloc, config, book)?;
        let wakings = wakings(alloc, config.tasks)?;
        let mut seats = Vec::new(alloc);
        for number in 0..config.tasks {
            let task = Task::new(number + 1);
            let seat = Seat::new(alloc, task, rest.split_off(1, 0));
            seats.push(seat)?;
        }
        Ok((Shared::opened(config, pool, wakings), seats))
    }

    // A new pool under its lock. It is the opening of that config: no clause can say so later, of what a lock holds.
    fn opened(config: Config, pool: Pool<L>, wakings: Vec<Condvar>) -> Shared<L>
        requires opening { IsOpening config pool.core }
        requires journal { (pool.first ≡ 0) × (pool.journal ≡ []) }
        ensures { result.config ≡ config }
    {
        Shared::locked(config, pool, wakings)
    }

    // A pool under a lock, beside its sizes.
    fn locked(config: Config, pool: Pool<L>, wakings: Vec<Condvar>) -> Shared<L>
        requires { config_of pool.core ≡ sizes config }
        ensures { result.config ≡ config }
    {
        Shared {
            config,
            room: Mutex::new(WaitingRoom::new(pool)),
            wakings,
            nobody: Condvar::new(),
        }
    }

    // Takes the lock, and looks for it some times before it sleeps.
    pub(crate) fn enter<R: Wait>(&self, rt: &R) -> MutexGuard<'_, WaitingRoom<L>> {
        for pauses in PAUSES {
            if let Some(room) = self.room.try_lock() {
                return room;
            }
            pause_for(pauses);
        }
        self.room.lock(rt)
    }

    // By what the task is called.
    pub(crate) fn waking(&self, task: Task) -> &Condvar {
        let Some(place) = place_of(task) else {
            return &self.nobody;
        };
        match self.wakings.get(place) {
            Some(waking) => waking,
            None => &self.nobody,
        }
    }

    // Wakes the task that was called, if one was.
    pub(crate) fn wake(&self, called: Option<Task>) {
        if let Some(task) = called {
            self.waking(task).notify_all();
        }
    }

    /// Kills a task.
    pub fn kill<R: Wait>(
        &self,
        rt: &R,
        seat: &mut Seat<L>,
        task: Task,
    ) -> Result<Outcome, CallFault>
        ensures kind { IfOk result (λ outcome. IsOutcomeOf (Event.Kill task) outcome) }
        ensures row { IfOk result (λ outcome. IsRowOf (Event.Kill task) outcome) }
        ensures seat { IfOk result (λ outcome. (position : ℕ) ×
            (seat.new ≡ seat_with seat.old position (Event.Kill task) outcome)) }
        ensures err { IfErr result (λ fault. (fault ≡ CallFault.Memory false) × (seat.new ≡ seat.old)) }
    {
        self.attempt(rt, seat, Event::Kill(task))
    }

    /// Tells the pool how many frames it is to have.
    pub fn resize<R: Wait>(
        &self,
        rt: &R,
        seat: &mut Seat<L>,
        frames: u32,
    ) -> Result<Outcome, CallFault>
        ensures kind { IfOk result (λ outcome. IsOutcomeOf (Event.Resize frames) outcome) }
        ensures row { IfOk result (λ outcome. IsRowOf (Event.Resize frames) outcome) }
        ensures seat { IfOk result (λ outcome. (position : ℕ) ×
            (seat.new ≡ seat_with seat.old position (Event.Resize frames) outcome)) }
        ensures err { IfErr result (λ fault. (fault ≡ CallFault.Memory false) × (seat.new ≡ seat.old)) }
    {
        self.attempt(rt, seat, Event::Resize(frames))
    }

    /// The numbers of the pool, read in one hold that changes nothing: those of one core that the pool came to.
    pub fn tally<R: Wait>(&self, rt: &R) -> Tally
        ensures { (core : CoreState) × IsCameTo core × (result ≡ tally_of core) }
    {
        self.enter(rt).pool.tally()
    }

    /// Cuts the journal, in one hold: see `Pool::cut`. It hands out the entries since the last cut, which interleave the
    /// seats' lists, and are a piece of a run of the pool.
    pub fn cut<R: Wait>(
        &self,
        rt: &R,
        alloc: Global,
        seats: &mut [Seat<L>],
    ) -> Result<Part, CutFault>
        ensures part { IfOk result (λ part. (core : CoreState) × ClosesWith seats.old core part.first part.entries.items) }
        ensures seats { OnOk result (seats.new ≡ map emptied seats.old) }
        ensures refused { IfErr result (λ fault. MayRefuseCut seats.old fault) }
        ensures err { OnErr result (seats.new ≡ seats.old) }
    {
        self.enter(rt).cut(alloc, seats)
    }

    /// Ends the pool, where the seats are all there and their lists make up one run of a pool of this config. It asks first whether
    /// a seat is missing. The seats that the pool began with have all parts of the ledger: what they made comes to all entries.
    pub fn close(self, alloc: Global, seats: Vec<Seat<L>>) -> Result<Closed, CloseRefused<L>>
        ensures seated { OnOk result (AllSeated self.config.tasks seats.items) }
        ensures config { IfOk result (λ closed. config_of closed.core ≡ sizes self.config) }
        ensures run { IfOk result (λ closed.
            ClosesPoolOf self.config seats.items closed.core closed.last.first closed.last.entries.items) }
        ensures entries { IfOk result (λ closed. closed.entries ≡ closed.last.first + length closed.last.entries.items) }
        ensures sum { IfOk result (λ closed. 0 < length seats.items → length seats.items ≡ L.parts
            → closed.entries ≡ entries_of seats.items) }
        ensures refused { IfErr result (λ refused. RefusesClose self.config seats.items refused.fault) }
        ensures back { IfErr result (λ refused. MatchOption refused.back (IsForGood refused.fault)
            (λ back. (back.0.config ≡ self.config) × (back.1 ≡ seats))) }
    {
        if let Some(task) = missing_seat(self.config.tasks, seats.as_slice()) {
            return Err(CloseRefused {
                fault: CloseFault::SeatMissing(task),
                back: Some((self, seats)),
            });
        }
        let Shared {
            config,
            room,
            wakings,
            nobody: _,
        } = self;
        let pool = room.into_inner().into_pool();
        if !same_sizes(&pool.core.config(), &config) {
            return Err(CloseRefused {
                fault: CloseFault::OtherSizes,
                back: None,
            });
        }
        match pool.close_seated(alloc, seats) {
            Ok(closed) => Ok(closed),
            Err(kept) => Err(reopened(config, wakings, kept)),
        }
    }
}

fn pause_for(pauses: u32) {
    for _ in 0..pauses {
        spin_loop();
    }
}

// A condition variable for each task.
fn wakings(alloc: Global, tasks: u32) -> Result<Vec<Condvar>, AllocError> {
    let mut wakings = Vec::with_capacity(alloc, tasks as usize)?;
    for _ in 0..tasks {
        wakings.push(Condvar::new())?;
    }
    Ok(wakings)
}

// Puts a pool that wasn't closed under its lock again, if it is there.
fn reopened<L: Ledger>(config: Config, wakings: Vec<Condvar>, kept: KeptOpen<L>) -> CloseRefused<L>
    requires { IfSome kept.back (λ back. config_of back.0.core ≡ sizes config) }
    ensures fault { result.fault ≡ kept.fault }
    ensures back { MatchOption kept.back (result.back ≡ None)
        (λ back. MatchOption result.back ⊥ (λ again. (again.0.config ≡ config) × (again.1 ≡ back.1))) }
{
    let KeptOpen { fault, back } = kept;
    let Some(back) = back else {
        return CloseRefused { fault, back: None };
    };
    let (pool, seats) = back;
    CloseRefused {
        fault,
        back: Some((Shared::locked(config, pool, wakings), seats)),
    }
}

/// The least task without a seat, if one of the tasks from 1 to `tasks` has none.
pub fn missing_seat<L: Ledger>(tasks: u32, seats: &[Seat<L>]) -> Option<Task>
    ensures { MatchOption result (AllSeated tasks seats.now) (λ task. LeastMissing tasks seats.now task) }
{
    for number in 0..tasks {
        let task = Task::new(number + 1);
        if !has_seat(seats, task) {
            return Some(task);
        }
    }
    None
}

fn has_seat<L: Ledger>(seats: &[Seat<L>], task: Task) -> bool
    ensures { result ≡ seated task seats.now }
{
    seats.iter().any(|seat| seat.task() == task)
}
