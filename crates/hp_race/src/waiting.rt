//! Calls that wait in a race until other tasks have ended theirs.
//!
//! Each call waits for what it waits for in a schedule. A thread that waits makes no hold. How it waits is proved of no thread: that calls
//! waited is seen of the journal, when the race is closed (`keeping`).
ghost use Rattle.std.specs.Prelude.{◌≡◌, IfOk};
ghost use Rattle.hp_race.specs.Waiting.{AreNeeds, is_met, needs_at, noted};

use crate::starting_line::StartingLine;
use hp_base::Task;
use hp_text::{Need, Script, needs_of};
use std::alloc::{AllocError, Global};
use std::cell::Cell;
use std::sync::{Condvar, Mutex, Wait};
use std::thread;

/// What the calls of a script wait for, and how many calls each task of a race has ended.
#[derive(Drop)]
pub(crate) struct Board {
    // of each call of each task
    pub(crate) needs: Vec<Vec<Vec<Need>>>,
    ended: Mutex<Vec<usize>>,
    moved: Condvar,
}

// The task has ended so many calls. Of one that isn't there nothing is noted.
fn note_ended(ended: &mut [usize], task: Task, calls: usize)
    ensures { ended.new ≡ noted ended.old task calls }
{
    let task = task.number() as usize;
    if 1 <= task && task <= ended.len() {
        ended[task - 1] = calls;
    }
}

// Whether the need is met where the tasks have ended so many calls. Nobody waits for a task that isn't there.
fn is_met(ended: &[usize], need: Need) -> bool
    ensures { result ≡ is_met ended.now need }
{
    match ended.get(need.place as usize) {
        Some(calls) => *calls >= need.calls,
        None => true,
    }
}

/// What the task's call of this number waits for.
pub(crate) fn needs_at(needs: &[Vec<Vec<Need>>], task: Task, number: usize) -> &[Need]
    ensures { result.now ≡ needs_at needs.now task number }
{
    match needs.get((task.number() as usize).saturating_sub(1)) {
        Some(calls) => match calls.get(number) {
            Some(needs) => needs.as_slice(),
            None => &[],
        },
        None => &[],
    }
}

impl Board {
    /// Before the calls from that number on. A task that has fewer calls has ended all.
    pub(crate) fn new(alloc: Global, script: &Script, from: usize) -> Result<Board, AllocError>
        ensures { IfOk result (λ board. AreNeeds script.now board.needs.items) }
    {
        Ok(Board {
            needs: needs_of(alloc, script)?,
            ended: Mutex::new(vec![in alloc; from; script.config.tasks as usize]?),
            moved: Condvar::new(),
        })
    }

    // What the task's call of this number waits for.
    fn needs(&self, task: Task, number: usize) -> &[Need]
        ensures { result.now ≡ needs_at self.now.needs.items task number }
    {
        needs_at(self.needs.as_slice(), task, number)
    }

    fn is_met<R: Wait>(&self, rt: &R, need: Need) -> bool {
        is_met(self.ended.lock(rt).as_slice(), need)
    }

    fn wait_for<R: Wait>(&self, rt: &R, need: Need) {
        self.moved.wait_while(
            rt,
            self.ended.lock(rt),
            |ended| !is_met(ended.as_slice(), need),
        );
    }

    fn note<R: Wait>(&self, rt: &R, task: Task, calls: usize) {
        let mut ended = self.ended.lock(rt);
        note_ended(ended.as_mut_slice(), task, calls);
        self.moved.notify_all();
    }
}

/// How often a thread looks whether all others have come, or whether what it waits for has ended, before it gives up.
const LOOKS: u32 = 20_000_000;

/// When the calls of a task may begin.
#[derive(Drop)]
pub(crate) struct Turns<'a> {
    line: &'a StartingLine,
    pub(crate) board: &'a Board,
    pub(crate) task: Task,
    // how many calls have ended
    ended: Cell<usize>,
}

impl<'a> Turns<'a> {
    /// Those of a task whose calls are made from that number on.
    pub(crate) fn new(
        line: &'a StartingLine,
        board: &'a Board,
        task: Task,
        from: usize,
    ) -> Turns<'a>
        ensures task { result.task ≡ task }
        ensures board { result.board.now ≡ board.now }
    {
        Turns {
            line,
            board,
            task,
            ended: Cell::new(from),
        }
    }

    // Whether the need is met. Once all others have come it is waited for.
    fn has_met<R: Wait>(&self, rt: &R, need: Need) -> bool {
        if !self.line.have_all_come() {
            return self.board.is_met(rt, need);
        }
        self.board.wait_for(rt, need);
        true
    }

    // Waits until the need is met. Whether it is: one whose thread doesn't come isn't waited for for good.
    fn wait_for<R: Wait>(&self, rt: &R, need: &Need) -> bool {
        for _ in 0..LOOKS {
            if self.has_met(rt, *need) {
                return true;
            }
            thread::yield_now();
        }
        false
    }

    /// Waits for what the next call waits for. Whether it may begin.
    pub(crate) fn come<R: Wait>(&self, rt: &R) -> bool {
        for need in self.board.needs(self.task, self.ended.get()) {
            if !self.wait_for(rt, need) {
                return false;
            }
        }
        true
    }

    /// One more call has ended.
    pub(crate) fn pass<R: Wait>(&self, rt: &R) {
        self.ended.set(self.ended.get().saturating_add(1));
        self.board.note(rt, self.task, self.ended.get());
    }

    /// The task makes no call any more, so nobody has to wait for it.
    pub(crate) fn leave<R: Wait>(&self, rt: &R) {
        self.board.note(rt, self.task, usize::MAX);
    }
}
