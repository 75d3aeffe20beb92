//! Holds that stop for all once one of them finds no memory.
ghost use Rattle.std.specs.Prelude.{◌≡◌};

use crate::fault::CallFault;
use crate::seat::Seat;
use crate::shared::{Hold, Shared};
use hp_base::Event;
use hp_core::Outcome;
use std::sync::Wait;
use std::sync::atomic::{AtomicBool, Ordering};
use std::sync::ledger::Ledger;

/// The holds of a running pool, until one of them finds no memory: from then on none is made, and nobody waits. The call that
/// found none stays in flight, and who waits for what it holds would wait until somebody goes on with it.
#[derive(Drop)]
pub struct Halting<'a, L: Ledger> {
    shared: &'a Shared<L>,
    halted: AtomicBool,
}

impl<'a, L: Ledger> Halting<'a, L> {
    /// The holds of this pool.
    pub fn new(shared: &'a Shared<L>) -> Halting<'a, L>
        ensures { result.shared.now ≡ shared.now }
    {
        Halting {
            shared,
            halted: AtomicBool::new(false),
        }
    }

    // Under the lock, so that nobody who found it unset begins to wait behind the call to all who wait.
    fn halt<R: Wait>(&self, rt: &R) {
        let held = self.shared.enter(rt);
        self.halted.store(true, Ordering::SeqCst);
        for waking in &self.shared.wakings {
            waking.notify_all();
        }
        drop(held);
    }
}

impl<'a, L: Ledger> Hold<L> for Halting<'a, L> {
    fn attempt<R: Wait>(
        &self,
        rt: &R,
        seat: &mut Seat<L>,
        event: Event,
    ) -> Result<Outcome, CallFault> {
        if self.halted.load(Ordering::SeqCst) {
            return Err(CallFault::Memory { begun: false });
        }
        let held = self.shared.attempt(rt, seat, event);
        if held.is_err() {
            self.halt(rt);
        }
        held
    }

    fn pause<R: Wait>(&self, rt: &R, seat: &Seat<L>) {
        let task = seat.task();
        let halted = &self.halted;
        let waking = self.shared.waking(task);
        let mut room = self.shared.enter(rt);
        room.lie_down(task);
        let mut room = waking.wait_while(
            rt,
            room,
            |room| !halted.load(Ordering::SeqCst) && room.is_asleep(task),
        );
        if halted.load(Ordering::SeqCst) {
            let called = room.give_up(task);
            drop(room);
            self.shared.wake(called);
        }
    }
}
