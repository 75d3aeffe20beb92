//! What the threads of a race go by: they begin together, let others go first, and draw which steps are denied and who is killed.
ghost use Rattle.std.specs.Prelude.{◌≡◌, ◌||◌, IfSome, Some, nat_lt};

use crate::chances::Draws;
use crate::waiting::{Board, Turns};
use hp_base::{Config, Task};
use hp_machine::Phase;
use hp_shared::Gate;
use std::sync::Wait;
use std::sync::atomic::{AtomicUsize, Ordering};
use std::thread;

/// How often a thread looks whether all others have come, before it begins without them.
const LOOKS: u32 = 10_000;

/// How many threads race, how many of them have come to the start, and on what they note the ends of calls that are waited for.
#[derive(Drop)]
pub(crate) struct StartingLine {
    racers: usize,
    came: AtomicUsize,
    pub(crate) board: Option<Board>,
}

impl StartingLine {
    pub(crate) fn new(racers: usize, board: Option<Board>) -> StartingLine
        ensures { result.board ≡ board }
    {
        StartingLine {
            racers,
            came: AtomicUsize::new(0),
            board,
        }
    }

    /// Whether all racers have come.
    pub(crate) fn have_all_come(&self) -> bool {
        self.came.load(Ordering::SeqCst) >= self.racers
    }

    /// Waits until all racers have come, so that they begin together; but not for good, since where no thread can be made
    /// they come one after the other.
    fn gather(&self) {
        self.came.fetch_add(1, Ordering::SeqCst);
        for _ in 0..LOOKS {
            if self.have_all_come() {
                return;
            }
            thread::yield_now();
        }
    }

    /// Waits for the others. When the calls of the task from that number on may begin, where calls wait.
    pub(crate) fn line_up(&self, task: Task, from: usize) -> Option<Turns<'_>>
        ensures task { IfSome result (λ turns. turns.task ≡ task) }
        ensures board { IfSome result (λ turns. self.now.board ≡ Some turns.board.now) }
    {
        self.gather();
        let board = self.board.as_ref()?;
        Some(Turns::new(self, board, task, from))
    }
}

/// What one thread goes by behind the start.
#[derive(Drop)]
pub(crate) struct Course<'a> {
    pub(crate) draws: Draws,
    /// The pool's sizes.
    pub(crate) config: Config,
    /// When its calls may begin, where calls of the script wait.
    pub(crate) turns: Option<Turns<'a>>,
}

impl Course<'_> {
    /// Waits until the next call may begin. Whether it may.
    pub(crate) fn come<R: Wait>(&self, rt: &R) -> bool {
        match &self.turns {
            Some(turns) => turns.come(rt),
            None => true,
        }
    }

    /// One more call has ended.
    pub(crate) fn pass<R: Wait>(&self, rt: &R) {
        if let Some(turns) = &self.turns {
            turns.pass(rt);
        }
    }

    /// No call is made any more.
    pub(crate) fn leave<R: Wait>(&self, rt: &R) {
        if let Some(turns) = &self.turns {
            turns.leave(rt);
        }
    }
}

/// Between two holds others go first, where they can. A step is denied only where some may be.
impl Gate for Course<'_> {
    ghost use Rattle.std.specs.Prelude.{◌||◌, nat_lt};

    ghost may_answer = { λ course phase answer. answer || nat_lt 0 course.draws.deny };

    fn between(&self, _task: Task, _phase: Phase) {
        thread::yield_now();
    }

    fn grant(&self, _task: Task, _phase: Phase) -> bool {
        self.draws.grants()
    }
}
