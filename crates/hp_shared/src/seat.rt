//! What a task keeps of a running pool.
ghost use Rattle.std.specs.Prelude.{◌≡◌, ◌+◌, ◌<◌, ◌^◌, ◌++◌, ◌∷◌, [], length, if◌then◌else◌};
ghost use Rattle.hp_machine.specs.Events.{first, is_begun, word_of};
ghost use Rattle.hp_machine.specs.declared.phase.Phase.TheVariants.{Start};
ghost use Rattle.hp_shared.specs.Calls.{in_call, is_ended, phase_after, phase_of};
ghost use Rattle.hp_shared.specs.Cutting.{emptied};
ghost use Rattle.hp_shared.specs.Seats.{new_seat};

use crate::entry::Entry;
use crate::order::Listed;
use hp_base::{Event, Op, Task};
use hp_machine::{Outcome, Phase};
use std::alloc::Global;
use std::marker::Model;
use std::sync::ledger::{Ledger, Share};

// How many calls were begun and ended since the last cut, and where the last one stands.
#[derive(Clone, Copy, Debug)]
pub(crate) struct Progress {
    begun: usize,
    ended: usize,
    phase: Phase,
}

// Where a call of the operation begins.
fn first_phase(op: &Op) -> Phase
    ensures { result ≡ word_of (first op.now) }
{
    match op {
        Op::Load { .. } | Op::Store { .. } => Phase::Look,
        _ => Phase::Start,
    }
}

// Where a call stands after the event, which found it in that phase.
fn phase_after(phase: Phase, event: &Event, outcome: &Outcome) -> Phase
    ensures { result ≡ phase_after phase event.now outcome.now }
{
    match event {
        Event::Begin(_, op) => first_phase(op),
        Event::Step(..) => match outcome {
            Outcome::Moved(new) => *new,
            _ => phase,
        },
        Event::Kill(_) | Event::Resize(_) => phase,
    }
}

impl Progress {
    pub(crate) fn note(&mut self, entry: &Entry)
        requires { (self.old.begun < 2 ^ 63) × (self.old.ended < 2 ^ 63) }
        ensures begun { self.new.begun ≡ self.old.begun + (if is_begun entry.now.outcome then 1 else 0) }
        ensures ended { self.new.ended ≡ self.old.ended + (if is_ended entry.now.outcome then 1 else 0) }
        ensures phase { self.new.phase ≡ phase_after self.old.phase entry.now.event entry.now.outcome }
    {
        match entry.outcome {
            Outcome::Begun => self.begun += 1,
            Outcome::Ended(_) => self.ended += 1,
            _ => {}
        }
        self.phase = phase_after(self.phase, &entry.event, &entry.outcome);
    }
}

/// What a task keeps: the entries that it made since the last cut, and a share of the ledger that counts all of them. It
/// is moved into the thread that makes the task's calls; there is one for each task of the pool.
#[derive(Drop)]
pub struct Seat<L: Ledger> {
    pub(crate) task: Task,
    pub(crate) earlier: u64,
    pub(crate) list: Vec<Entry>,
    pub(crate) progress: Progress,
    pub(crate) share: Share<L>,
}

impl<L: Ledger> Model for Seat<L> {
    ghost use Rattle.std.specs.Prelude.{◌≡◌, ◌+◌, length};
    ghost use Rattle.hp_shared.specs.States.{SeatState};
    ghost use Rattle.hp_shared.specs.Calls.{count_begun, count_ended, phase_of};

    ghost Value = { SeatState };

    ghost view = { λ s. record { task = s.task; earlier = s.earlier; list = s.list.items; entries = s.share.amount } };

    ghost invariant = { λ s. record {
      part : s.share.parts ≡ 1;
      counted : s.share.amount ≡ s.earlier + length s.list.items;
      begun : s.progress.begun ≡ count_begun s.list.items;
      ended : s.progress.ended ≡ count_ended s.list.items;
      phase : s.progress.phase ≡ phase_of s.list.items;
    } };
}

impl<L: Ledger> Seat<L> {
    // The seat of a task that made no entry yet.
    pub(crate) fn new(alloc: Global, task: Task, share: Share<L>) -> Seat<L>
        requires { (share.parts ≡ 1) × (share.amount ≡ 0) }
        ensures { result ≡ new_seat task }
    {
        Seat {
            task,
            earlier: 0,
            list: Vec::new(alloc),
            progress: Progress {
                begun: 0,
                ended: 0,
                phase: Phase::Start,
            },
            share,
        }
    }

    /// The seat's task.
    pub fn task(&self) -> Task
        ensures { result ≡ self.now.task }
    {
        self.task
    }

    /// The entries that the seat made since the last cut.
    pub fn list(&self) -> &[Entry]
        ensures { result.now ≡ self.now.list }
    {
        self.list.as_slice()
    }

    /// Where the last call of the seat stands.
    pub fn phase(&self) -> Phase
        ensures { result ≡ phase_of self.now.list }
    {
        self.progress.phase
    }

    /// Whether a call is in flight, by the seat's list: more were begun than ended.
    pub fn is_in_call(&self) -> bool
        ensures { result ≡ in_call self.now.list }
    {
        self.progress.ended < self.progress.begun
    }

    /// What holds of every seat: its share of the ledger counts all entries that it made. There is nothing to run.
    pub fn always(&self)
        ensures { self.now.entries ≡ self.now.earlier + length self.now.list }
    {
        let _ = &self.list;
    }

    // What it has of the ledger.
    pub(crate) fn into_share(self) -> Share<L>
        ensures parts { result.parts ≡ 1 }
        ensures amount { result.amount ≡ self.entries }
    {
        let Seat {
            task: _,
            earlier: _,
            list: _,
            progress: _,
            share,
        } = self;
        share
    }

    // Makes of its entries so far earlier ones.
    pub(crate) fn empty(&mut self)
        requires { self.old.earlier + length self.old.list < 2 ^ 64 }
        ensures { self.new ≡ emptied self.old }
    {
        self.earlier += self.list.len() as u64;
        self.list.clear();
        self.progress = Progress {
            begun: 0,
            ended: 0,
            phase: Phase::Start,
        };
    }
}

impl<L: Ledger> Listed for Seat<L> {
    ghost listed = { λ s. s.list };

    fn listed(&self) -> &[Entry] {
        self.list.as_slice()
    }
}
