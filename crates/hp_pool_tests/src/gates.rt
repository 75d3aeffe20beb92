//! Gates by which threads meet, one that looks what it is asked, and holds by which it is told who waits.
ghost use Rattle.std.specs.Prelude.{◌≡◌, true};

use hp_base::{Event, Task};
use hp_core::Outcome;
use hp_machine::Phase;
use hp_shared::{CallFault, Gate, Hold, Seat};
use std::sync::Wait;
use std::sync::atomic::{AtomicBool, AtomicUsize, Ordering};
use std::sync::ledger::Ledger;
use std::{hint, thread};

/// How often a thread looks whether a signal was given.
const TURNS: u32 = 1_000_000;

/// How often others go first, and how long each time, so that one who is about to sleep does. On a busy processor a turn takes
/// milliseconds, so there are few.
const TURNS_TO_SLEEP: u32 = 100;

const SPINS: u32 = 200;

/// Lets others go first so often that one who is about to sleep does.
pub fn let_sleep() {
    for _ in 0..TURNS_TO_SLEEP {
        thread::yield_now();
        for _ in 0..SPINS {
            hint::spin_loop();
        }
    }
}

/// What one thread tells another.
#[derive(Drop)]
pub struct Signal {
    given: AtomicBool,
    ran_out: AtomicBool,
}

impl Signal {
    pub fn new() -> Signal {
        Signal {
            given: AtomicBool::new(false),
            ran_out: AtomicBool::new(false),
        }
    }

    pub fn give(&self) {
        self.given.store(true, Ordering::SeqCst);
    }

    /// Waits until it is given, but not forever.
    pub fn wait(&self) {
        for _ in 0..TURNS {
            if self.given.load(Ordering::SeqCst) {
                return;
            }
            thread::yield_now();
        }
        self.ran_out.store(true, Ordering::SeqCst);
    }

    /// Whether nobody waited for it in vain.
    pub fn came(&self) -> bool {
        !self.ran_out.load(Ordering::SeqCst)
    }
}

/// Tells when the call came to a phase, and holds it there until it is released.
#[derive(Drop)]
pub struct HeldAt {
    pub phase: Phase,
    pub there: Signal,
    pub released: Signal,
}

impl HeldAt {
    pub fn new(phase: Phase) -> HeldAt {
        HeldAt {
            phase,
            there: Signal::new(),
            released: Signal::new(),
        }
    }
}

impl Gate for HeldAt {
    ghost may_answer = { λ gate phase answer. answer };

    fn between(&self, _task: Task, phase: Phase) {
        if phase == self.phase {
            self.there.give();
            self.released.wait();
        }
    }

    fn grant(&self, _task: Task, _phase: Phase) -> bool {
        true
    }
}

/// Two stores that cross, once they are told to: task 1 is held where it has changed the regions until task 2 is about to leave,
/// and task 2 where it wants a slot until task 1 has changed them. So neither comes to its end before the other has begun.
#[derive(Drop)]
pub struct Crossing {
    begun: AtomicBool,
    changed: Signal,
    leaving: Signal,
}

impl Crossing {
    pub fn new() -> Crossing {
        Crossing {
            begun: AtomicBool::new(false),
            changed: Signal::new(),
            leaving: Signal::new(),
        }
    }

    /// From now on calls are held.
    pub fn begin(&self) {
        self.begun.store(true, Ordering::SeqCst);
    }

    /// Whether neither task waited in vain.
    pub fn came(&self) -> bool {
        self.changed.came() && self.leaving.came()
    }
}

impl Gate for Crossing {
    ghost may_answer = { λ gate phase answer. answer };

    fn between(&self, task: Task, phase: Phase) {
        if !self.begun.load(Ordering::SeqCst) {
            return;
        }
        match (task.number(), phase) {
            (1, Phase::Changed) => {
                self.changed.give();
                self.leaving.wait();
            }
            (2, Phase::Want) => self.changed.wait(),
            (2, Phase::Leave) => self.leaving.give(),
            _ => {}
        }
    }

    fn grant(&self, _task: Task, _phase: Phase) -> bool {
        true
    }
}

/// Looks whether one call asks it, and tells it, as it should: it is asked in each of the phases once, in their order, where it
/// was told last that the call stands there, and for the call's task. It refuses growth in one of them.
#[derive(Drop)]
pub struct Asked<'a> {
    task: Task,
    phases: &'a [Phase],
    denied: Option<Phase>,
    moves: AtomicUsize,
    asked: AtomicUsize,
    astray: AtomicBool,
}

impl<'a> Asked<'a> {
    /// For a call of this task that stands in these phases, one after the other.
    pub fn new(task: Task, phases: &'a [Phase], denied: Option<Phase>) -> Asked<'a> {
        Asked {
            task,
            phases,
            denied,
            moves: AtomicUsize::new(0),
            asked: AtomicUsize::new(0),
            astray: AtomicBool::new(false),
        }
    }

    /// Whether it was asked in all phases, and nowhere else.
    pub fn is_through(&self) -> bool {
        let asked = self.asked.load(Ordering::SeqCst);
        asked == self.phases.len() && !self.astray.load(Ordering::SeqCst)
    }

    // Whether the call stands there, after so many moves.
    fn stands(&self, moves: usize, task: Task, phase: Phase) -> bool {
        match self.phases.get(moves) {
            Some(there) => task == self.task && phase == *there,
            None => false,
        }
    }

    fn look(&self, is_right: bool) {
        if !is_right {
            self.astray.store(true, Ordering::SeqCst);
        }
    }
}

impl<'a> Gate for Asked<'a> {
    ghost may_answer = { λ gate phase answer. true };

    fn between(&self, task: Task, phase: Phase) {
        self.moves.fetch_add(1, Ordering::SeqCst);
        let moves = self.moves.load(Ordering::SeqCst);
        self.look(self.stands(moves, task, phase));
    }

    fn grant(&self, task: Task, phase: Phase) -> bool {
        let moves = self.moves.load(Ordering::SeqCst);
        let asked = self.asked.fetch_add(1, Ordering::SeqCst);
        self.look(asked == moves);
        self.look(self.stands(moves, task, phase));
        self.denied != Some(phase)
    }
}

/// Holds each of so many stores, once they are told to, where it is about to take a slot, until all are there.
#[derive(Drop)]
pub struct Meeting {
    all: usize,
    begun: AtomicBool,
    there: AtomicUsize,
    in_vain: AtomicBool,
}

impl Meeting {
    pub fn new(all: usize) -> Meeting {
        Meeting {
            all,
            begun: AtomicBool::new(false),
            there: AtomicUsize::new(0),
            in_vain: AtomicBool::new(false),
        }
    }

    /// From now on calls are held.
    pub fn begin(&self) {
        self.begun.store(true, Ordering::SeqCst);
    }

    /// Whether all were there at once.
    pub fn met(&self) -> bool {
        self.is_full() && !self.in_vain.load(Ordering::SeqCst)
    }

    fn is_full(&self) -> bool {
        self.there.load(Ordering::SeqCst) >= self.all
    }

    // Where one waits in vain nobody waits any more.
    fn wait(&self) {
        for _ in 0..TURNS {
            if self.is_full() || self.in_vain.load(Ordering::SeqCst) {
                return;
            }
            thread::yield_now();
        }
        self.in_vain.store(true, Ordering::SeqCst);
    }
}

impl Gate for Meeting {
    ghost may_answer = { λ gate phase answer. answer };

    fn between(&self, _task: Task, phase: Phase) {
        if phase == Phase::Want && self.begun.load(Ordering::SeqCst) {
            self.there.fetch_add(1, Ordering::SeqCst);
            self.wait();
        }
    }

    fn grant(&self, _task: Task, _phase: Phase) -> bool {
        true
    }
}

/// Holds a call of several pages where it has the slot of the first, until another call waits for that slot; and again where it
/// has let the slot go and wants the next, until the other call has ended.
#[derive(Drop)]
pub struct BetweenSlots {
    was_held: AtomicBool,
    pub there: Signal,
    pub waiting: Signal,
    pub ended: Signal,
}

impl BetweenSlots {
    pub fn new() -> BetweenSlots {
        BetweenSlots {
            was_held: AtomicBool::new(false),
            there: Signal::new(),
            waiting: Signal::new(),
            ended: Signal::new(),
        }
    }

    /// Whether nobody waited in vain.
    pub fn came(&self) -> bool {
        self.there.came() && self.waiting.came() && self.ended.came()
    }

    fn hold(&self) {
        self.was_held.store(true, Ordering::SeqCst);
        self.there.give();
        self.waiting.wait();
        let_sleep();
    }
}

impl Gate for BetweenSlots {
    ghost may_answer = { λ gate phase answer. answer };

    fn between(&self, _task: Task, phase: Phase) {
        let was_held = self.was_held.load(Ordering::SeqCst);
        match phase {
            Phase::Locked if !was_held => self.hold(),
            Phase::Want if was_held => self.ended.wait(),
            _ => {}
        }
    }

    fn grant(&self, _task: Task, _phase: Phase) -> bool {
        true
    }
}

/// The holds of a pool, by which it is told that somebody waits, and counted how often one was blocked.
#[derive(Drop)]
pub struct Telling<'a, H> {
    hold: &'a H,
    waiting: &'a Signal,
    blocked: AtomicUsize,
}

impl<'a, H> Telling<'a, H> {
    pub fn new(hold: &'a H, waiting: &'a Signal) -> Telling<'a, H> {
        Telling {
            hold,
            waiting,
            blocked: AtomicUsize::new(0),
        }
    }

    pub fn blocked(&self) -> usize {
        self.blocked.load(Ordering::SeqCst)
    }
}

impl<'a, L: Ledger, H: Hold<L>> Hold<L> for Telling<'a, H> {
    fn attempt<R: Wait>(
        &self,
        rt: &R,
        seat: &mut Seat<L>,
        event: Event,
    ) -> Result<Outcome, CallFault> {
        let told = self.hold.attempt(rt, seat, event);
        if matches!(told, Ok(Outcome::Blocked(_))) {
            self.blocked.fetch_add(1, Ordering::SeqCst);
        }
        told
    }

    fn pause<R: Wait>(&self, rt: &R, seat: &Seat<L>) {
        self.waiting.give();
        self.hold.pause(rt, seat);
    }
}
