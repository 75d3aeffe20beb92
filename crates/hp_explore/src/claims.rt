//! The lines of many runs, made by several workers.
ghost use Rattle.std.specs.Prelude.{◌+◌, ◌<◌, IfOk};
ghost use Rattle.hp_explore.specs.Claims.{AreLinesOf, AreRuns, IsLineOf};

use crate::exploring::{Audit, explore_one};
use crate::line::RunLine;
use crate::plan::Plan;
use hp_text::Script;
use hp_workers::{Work, all_made};
use std::alloc::{AllocError, Global};
use std::thread::Threads;

/// Which runs are explored, and what each goes by.
#[derive(Clone, Copy, Drop)]
pub(crate) struct RunRange<'a> {
    pub(crate) script: &'a Script,
    pub(crate) plan: &'a Plan,
    pub(crate) seed: u64,
    pub(crate) first: u32,
    pub(crate) count: u32,
    pub(crate) audit: Audit,
}

impl Work for RunRange<'_> {
    type Made = RunLine;

    ghost can_make = { λ runs place. AreRuns runs × (place < runs.count) };

    ghost is_right = { λ runs place line. IsLineOf runs (runs.first + place) line };

    /// The line of the run at this place.
    fn make(&self, alloc: Global, place: u32) -> Result<RunLine, AllocError> {
        explore_one(
            alloc,
            self.script,
            self.plan,
            self.seed,
            self.first + place,
            self.audit,
        )
    }

    /// All lines are wanted.
    fn is_last(&self, _line: &RunLine) -> bool {
        false
    }
}

/// The lines of the runs, in order, whoever made them.
pub(crate) fn lines_of(
    rt: &(impl Threads + Sync),
    alloc: Global,
    runs: RunRange,
) -> Result<Vec<RunLine>, AllocError>
    requires { AreRuns runs }
    ensures { IfOk result (λ lines. AreLinesOf runs.entry lines.items) }
{
    all_made(rt, alloc, &runs, runs.count)
}
