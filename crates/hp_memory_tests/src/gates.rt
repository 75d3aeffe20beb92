//! A gate at which a call is held until another thread opens it, and a hold by which that thread does so once it is held up.
ghost use Rattle.std.specs.Prelude.{◌≡◌};

use hp_base::{Event, Task};
use hp_core::{Outcome, Phase};
use hp_shared::{CallFault, Gate, Hold, Seat, Shared};
use std::sync::Wait;
use std::sync::atomic::{AtomicBool, Ordering};
use std::sync::ledger::Ledger;
use std::thread;

/// How often a thread looks whether another did what it waits for.
const TURNS: u32 = 1_000_000;

/// What had the gate opened.
#[derive(Clone, Copy)]
pub(crate) enum Opening {
    /// The other call was held up.
    Wait,
    /// The other call ended.
    End,
    /// A thread looked as often as it may: there was no second one.
    Patience,
}

/// Holds a call that comes to a phase.
#[derive(Drop)]
pub(crate) struct HeldAt {
    phase: Phase,
    is_there: AtomicBool,
    is_open: AtomicBool,
    was_held_up: AtomicBool,
    was_in_vain: AtomicBool,
}

impl HeldAt {
    pub(crate) fn new(phase: Phase) -> HeldAt {
        HeldAt {
            phase,
            is_there: AtomicBool::new(false),
            is_open: AtomicBool::new(false),
            was_held_up: AtomicBool::new(false),
            was_in_vain: AtomicBool::new(false),
        }
    }

    fn wait(&self, flag: &AtomicBool) {
        for _ in 0..TURNS {
            if flag.load(Ordering::SeqCst) {
                return;
            }
            thread::yield_now();
        }
        self.was_in_vain.store(true, Ordering::SeqCst);
    }

    /// Waits until the call came to the phase, but not forever.
    pub(crate) fn wait_for_call(&self) {
        self.wait(&self.is_there);
    }

    pub(crate) fn open(&self) {
        self.is_open.store(true, Ordering::SeqCst);
    }

    /// What had it opened, once both threads have ended.
    pub(crate) fn opening(&self) -> Opening {
        if self.was_in_vain.load(Ordering::SeqCst) {
            return Opening::Patience;
        }
        if self.was_held_up.load(Ordering::SeqCst) {
            return Opening::Wait;
        }
        Opening::End
    }
}

impl Gate for HeldAt {
    ghost may_answer = { λ gate phase answer. answer };

    fn between(&self, _task: Task, phase: Phase) {
        if phase == self.phase {
            self.is_there.store(true, Ordering::SeqCst);
            self.wait(&self.is_open);
        }
    }

    fn grant(&self, _task: Task, _phase: Phase) -> bool {
        true
    }
}

/// The holds of a pool, by which a gate is opened once one of them is blocked.
#[derive(Drop)]
pub(crate) struct Opener<'a, L: Ledger> {
    pub(crate) shared: &'a Shared<L>,
    pub(crate) gate: &'a HeldAt,
}

impl<'a, L: Ledger> Hold<L> for Opener<'a, L> {
    fn attempt<R: Wait>(
        &self,
        rt: &R,
        seat: &mut Seat<L>,
        event: Event,
    ) -> Result<Outcome, CallFault> {
        let told = self.shared.attempt(rt, seat, event);
        if matches!(told, Ok(Outcome::Blocked(_))) {
            self.gate.was_held_up.store(true, Ordering::SeqCst);
            self.gate.open();
        }
        told
    }

    fn pause<R: Wait>(&self, rt: &R, seat: &Seat<L>) {
        self.shared.pause(rt, seat);
    }
}
