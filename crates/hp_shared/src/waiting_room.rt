//! The pool beside those who wait at it: who sleeps, and who was called.
ghost use Rattle.std.specs.Prelude.{◌≡◌, ◌≢◌, ◌+◌, ◌<◌, ◌≤◌, ◌⊎◌, ℕ, IfOk, OnOk, OnErr, IfErr, IfSome, MatchBool, MatchOption, None, Some, false, map};
ghost use Rattle.hp_core.specs.Runs.{Row};
ghost use Rattle.hp_core.specs.State.{CoreState};
ghost use Rattle.hp_core.specs.Waiting.{WaitsFor};
ghost use Rattle.hp_shared.specs.Calls.{IsOwn};
ghost use Rattle.hp_shared.specs.Closing.{ClosesWith};
ghost use Rattle.hp_shared.specs.Cutting.{emptied, MayRefuseCut};
ghost use Rattle.hp_shared.specs.Journal.{IsOutcomeOf, IsCameTo};
ghost use Rattle.hp_shared.specs.States.{next, pool_with, seat_with};
ghost use Rattle.hp_shared.specs.Waking.{AreHeldUp, AreHeldUpBut, AreHeldUpIn, AreWatched, HandsOut, IsCalled, IsFirstBehind, IsFree, NoneCalled};
ghost use Rattle.hp_shared.specs.Waking.{RoomState, SleepsOn, stance_in};
ghost use Rattle.hp_shared.specs.declared.waiting_room.Stance.TheVariants as stance;

use crate::cutting::Part;
use crate::fault::CutFault;
use crate::pool::Pool;
use crate::seat::Seat;
use hp_base::{Event, Task};
use hp_core::Outcome;
use std::alloc::{AllocError, Global};
use std::marker::Model;
use std::sync::ledger::Ledger;

/// The most tasks of a pool.
const PLACES: usize = 64;

/// How a task stands to the lock.
#[derive(Clone, Copy, Debug, PartialEq, Eq)]
pub(crate) enum Stance {
    /// Its thread goes its own way.
    Up,
    /// Its thread sleeps, until it is called.
    Asleep,
    /// It was called, and made no hold since.
    Called,
}

/// A pool, and how each of its tasks stands: task 1 first. Whenever the lock is free each task that sleeps is held up by another's
/// call, or some task was called that has yet to make its hold.
#[derive(Drop)]
pub(crate) struct WaitingRoom<L: Ledger> {
    pub(crate) pool: Pool<L>,
    stances: [Stance; PLACES],
}

impl<L: Ledger> Model for WaitingRoom<L> {
    ghost use Rattle.std.specs.Coded.{codes, coded_ℕ};
    ghost use Rattle.std.specs.FinMap as map;
    ghost use Rattle.std.specs.Ordering.{nat_cmp};
    ghost use Rattle.hp_shared.specs.Waking.{AreWatched, RoomState};

    ghost Value = { RoomState };

    ghost coded = { Prim.hlevel (codes, map.code {R = nat_cmp} coded_ℕ coded_ℕ) };

    ghost view = { λ r. record { pool = r.pool; stances = r.stances } };

    ghost invariant = { λ r. AreWatched r.pool.core r.stances };
}

/// The task's place, counted from 0, if it has one.
pub(crate) fn place_of(task: Task) -> Option<usize>
    ensures { MatchOption result ((place : ℕ) → place + 1 ≡ task → 64 ≤ place) (λ place. (place < 64) × (place + 1 ≡ task)) }
{
    let number = task.number() as usize;
    if number == 0 || number > PLACES {
        return None;
    }
    Some(number - 1)
}

// The first place from one to another whose task sleeps though nobody holds it up.
fn free_in<L: Ledger>(
    pool: &Pool<L>,
    stances: &[Stance; PLACES],
    from: usize,
    to: usize,
) -> Option<usize>
    requires { to ≤ 64 }
    ensures held_up { MatchOption result (AreHeldUpIn from to pool.now.core stances.now) (λ place. place < 64) }
    ensures free { IfSome result (λ place. IsFree pool.now.core stances.now place) }
    ensures first { IfSome result (λ place. (from ≤ place) × (place < to) × AreHeldUpIn from place pool.now.core stances.now) }
{
    for place in from..to {
        let task = Task::new(place as u32 + 1);
        if stances[place] == Stance::Asleep && !pool.holds_up(task) {
            return Some(place);
        }
    }
    None
}

// The same of all places, those behind the task's own first, so that each has its turn.
fn free_behind<L: Ledger>(pool: &Pool<L>, stances: &[Stance; PLACES], task: Task) -> Option<usize>
    ensures held_up { MatchOption result (AreHeldUp pool.now.core stances.now) (λ place. place < 64) }
    ensures free { IfSome result (λ place. IsFree pool.now.core stances.now place) }
    ensures first { IfSome result (λ place. IsFirstBehind task pool.now.core stances.now place) }
{
    let behind = PLACES.min(task.number() as usize);
    let found = free_in(pool, stances, behind, PLACES);
    if found.is_some() {
        return found;
    }
    free_in(pool, stances, 0, behind)
}

// Calls a task that sleeps though nobody holds it up, if there is one.
fn call_one<L: Ledger>(pool: &Pool<L>, stances: &mut [Stance; PLACES], task: Task) -> Option<Task>
    ensures watched { AreWatched pool.now.core stances.new }
    ensures called { HandsOut result stances.old stances.new }
    ensures free { IfSome result (λ called. IsCalled task pool.now.core stances.old stances.new called) }
    ensures sleep { SleepsOn task result stances.old stances.new }
{
    let place = free_behind(pool, stances, task)?;
    stances[place] = Stance::Called;
    Some(Task::new(place as u32 + 1))
}

// Whether the task of a place is up.
fn is_up(stances: &[Stance; PLACES], place: usize) -> bool
    requires { place < 64 }
    ensures { MatchBool result (stance_in stances.now place ≡ stance.Up) (stance_in stances.now place ≢ stance.Up) }
{
    stances[place] == Stance::Up
}

// Whether the task sleeps.
fn sleeps(stances: &[Stance; PLACES], task: Task) -> bool
    ensures { MatchBool result
        ((place : ℕ) × (place + 1 ≡ task) × (stance_in stances.now place ≡ stance.Asleep))
        ((place : ℕ) → place + 1 ≡ task → stance_in stances.now place ≢ stance.Asleep) }
{
    let Some(place) = place_of(task) else {
        return false;
    };
    stances[place] == Stance::Asleep
}

// The task is up. Whether it was called.
fn rise(stances: &mut [Stance; PLACES], task: Task) -> bool
    ensures others { (place : ℕ) → place + 1 ≢ task → stance_in stances.new place ≡ stance_in stances.old place }
    ensures own { (place : ℕ) → place + 1 ≡ task → stance_in stances.new place ≡ stance.Up }
    ensures called { result ≡ false → NoneCalled stances.new → NoneCalled stances.old }
{
    let Some(place) = place_of(task) else {
        return false;
    };
    let was_called = stances[place] == Stance::Called;
    stances[place] = Stance::Up;
    was_called
}

// The task is up. Where a hold released somebody, or the task was called itself, another may go on, and one is called.
fn pass_on<L: Ledger>(
    pool: &Pool<L>,
    stances: &mut [Stance; PLACES],
    task: Task,
    is_released: bool,
) -> Option<Task>
    requires { is_released ≡ false → NoneCalled stances.old → AreHeldUpBut task pool.now.core stances.old }
    ensures watched { AreWatched pool.now.core stances.new }
    ensures called { HandsOut result stances.old stances.new }
    ensures free { IfSome result (λ called. IsCalled task pool.now.core stances.old stances.new called) }
    ensures sleep { SleepsOn task result stances.old stances.new }
{
    let was_called = rise(stances, task);
    if is_released || was_called {
        return call_one(pool, stances, task);
    }
    None
}

impl<L: Ledger> WaitingRoom<L> {
    /// A pool at which nobody waits.
    pub(crate) fn new(pool: Pool<L>) -> WaitingRoom<L>
        ensures { result.pool ≡ pool }
    {
        WaitingRoom {
            pool,
            stances: [Stance::Up; PLACES],
        }
    }

    /// What holds whenever the lock is free. There is nothing to run.
    pub(crate) fn always(&self)
        ensures { AreWatched self.now.pool.core self.now.stances }
    {
        self.pool.always();
    }

    /// The pool, at which nobody waits any more.
    pub(crate) fn into_pool(self) -> Pool<L>
        ensures { result ≡ self.pool }
    {
        let WaitingRoom { pool, stances: _ } = self;
        pool
    }

    /// One event, as `Pool::hold` makes it, and the task that is called behind it.
    pub(crate) fn hold(
        &mut self,
        seat: &mut Seat<L>,
        event: Event,
    ) -> (Result<Outcome, AllocError>, Option<Task>)
        requires { IsOwn seat.old.task event }
        ensures row { IfOk result.0 (λ outcome. Row self.old.pool.core event outcome self.new.pool.core) }
        ensures came { IsCameTo self.old.pool.core }
        ensures pool { IfOk result.0 (λ outcome. self.new.pool ≡ pool_with self.old.pool event outcome self.new.pool.core) }
        ensures seat { IfOk result.0 (λ outcome. seat.new ≡ seat_with seat.old (next self.old.pool) event outcome) }
        ensures kind { IfOk result.0 (λ outcome. IsOutcomeOf event outcome) }
        ensures called { HandsOut result.1 self.old.stances self.new.stances }
        ensures free { IfSome result.1 (λ called.
            IsCalled seat.old.task self.new.pool.core self.old.stances self.new.stances called) }
        ensures sleep { SleepsOn seat.old.task result.1 self.old.stances self.new.stances }
        ensures err { OnErr result.0 ((self.new.pool ≡ self.old.pool) × (seat.new ≡ seat.old)) }
    {
        let task = seat.task();
        match self.pool.hold(seat, event) {
            Ok((outcome, is_released)) => {
                let called = pass_on(&self.pool, &mut self.stances, task, is_released);
                (Ok(outcome), called)
            }
            Err(AllocError) => {
                let called = pass_on(&self.pool, &mut self.stances, task, false);
                (Err(AllocError), called)
            }
        }
    }

    /// The task sleeps, where another's call holds its next step up.
    pub(crate) fn lie_down(&mut self, task: Task)
        ensures pool { self.new.pool ≡ self.old.pool }
        ensures called { HandsOut None self.old.stances self.new.stances }
        ensures asleep { (place holder : ℕ) → place < 64 → place + 1 ≡ task → stance_in self.old.stances place ≡ stance.Up
            → WaitsFor self.old.pool.core task (Some holder) → stance_in self.new.stances place ≡ stance.Asleep }
        ensures free { WaitsFor self.old.pool.core task None → self.new.stances ≡ self.old.stances }
        ensures others { (place : ℕ) → place + 1 ≢ task
            → stance_in self.new.stances place ≡ stance_in self.old.stances place }
    {
        let Some(place) = place_of(task) else {
            return;
        };
        if is_up(&self.stances, place) && self.pool.holds_up(task) {
            self.stances[place] = Stance::Asleep;
        }
    }

    /// Whether the task sleeps, and nobody called it.
    pub(crate) fn is_asleep(&self, task: Task) -> bool
        ensures { MatchBool result
            ((place : ℕ) × (place + 1 ≡ task) × (stance_in self.now.stances place ≡ stance.Asleep))
            ((place : ℕ) → place + 1 ≡ task → stance_in self.now.stances place ≢ stance.Asleep) }
    {
        sleeps(&self.stances, task)
    }

    /// The task makes no hold. Where it was called another is called instead.
    pub(crate) fn give_up(&mut self, task: Task) -> Option<Task>
        ensures pool { self.new.pool ≡ self.old.pool }
        ensures called { HandsOut result self.old.stances self.new.stances }
        ensures free { IfSome result (λ called.
            IsCalled task self.new.pool.core self.old.stances self.new.stances called) }
        ensures sleep { SleepsOn task result self.old.stances self.new.stances }
    {
        pass_on(&self.pool, &mut self.stances, task, false)
    }

    /// Cuts the pool's journal: see `Pool::cut`.
    pub(crate) fn cut(&mut self, alloc: Global, seats: &mut [Seat<L>]) -> Result<Part, CutFault>
        ensures run { IfOk result (λ part. (core : CoreState) × ClosesWith seats.old core part.first part.entries.items) }
        ensures seats { OnOk result (seats.new ≡ map emptied seats.old) }
        ensures refused { IfErr result (λ fault. MayRefuseCut seats.old fault) }
        ensures err { OnErr result (seats.new ≡ seats.old) }
    {
        self.pool.always();
        self.pool.cut(alloc, seats)
    }
}
