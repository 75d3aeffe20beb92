//! What every run of an exploration goes by.
ghost use Rattle.std.specs.Prelude.{◌≡◌, ◌+◌, ◌-◌, ◌<◌, ◌≤◌, ◌^◌, false, IsSome, [], IfOk, slice_get, slice_index_or, map};
ghost use Rattle.hp_text.specs.Scripts.{calls_of};
ghost use Rattle.hp_explore.specs.Schedule.{plan_of, queues_of};

use crate::remainders::Remainders;
use hp_base::{Op, Task};
use hp_text::{Need, Script, needs_of};
use std::alloc::{AllocError, Global};
use std::marker::Model;

/// Of a thousand steps how many are denied, and of a thousand turns how many are kills, by chance.
#[derive(Clone, Copy, Debug, PartialEq, Eq)]
pub struct Chances {
    pub deny: u32,
    pub kill: u32,
}

/// The calls of each task, in order, what each waits for, and the chances. It is made once, and no run changes it.
#[derive(Drop)]
pub struct Plan {
    queues: Vec<Vec<Op>>,
    // of each call of each task; none where no call waits
    needs: Vec<Vec<Vec<Need>>>,
    pub(crate) chances: Chances,
    pub(crate) remainders: Remainders,
}

impl Model for Plan {
    ghost use Rattle.std.specs.Prelude.{map};
    ghost use Rattle.hp_explore.specs.Schedule as schedule;

    ghost Value = { schedule.Plan };

    ghost view = { λ p. record {
      queues = map (λ v. v.items) p.queues.items;
      needs = map (λ queue. map (λ v. v.items) queue.items) p.needs.items;
      deny = p.chances.deny;
      kill = p.chances.kill;
    } };
}

impl Plan {
    /// The plan of a script's runs.
    pub fn new(alloc: Global, script: &Script, chances: Chances) -> Result<Plan, AllocError>
        ensures { IfOk result (λ plan. plan ≡ plan_of script.now chances.deny chances.kill) }
    {
        let queues = queues_of(alloc, script)?;
        let needs = needs_of(alloc, script)?;
        Ok(Plan {
            queues,
            needs,
            chances,
            remainders: Remainders::new(),
        })
    }

    /// The call of the task at this place.
    #[inline(always)]
    pub(crate) fn call(&self, task: u32, place: usize) -> Option<Op>
        requires { 1 ≤ task }
        ensures call { result ≡ slice_get (slice_index_or self.now.queues (task - 1) []) place }
        ensures more { IsSome result → place + 1 < 2 ^ 64 }
    {
        let queue = self.queues.get(task as usize - 1)?;
        queue.get(place).copied()
    }

    /// Whether calls wait for tasks.
    #[inline(always)]
    pub(crate) fn has_waits(&self) -> bool
        ensures { result ≡ false → self.now.needs ≡ [] }
    {
        !self.needs.is_empty()
    }

    /// What the call of the task at this place waits for.
    #[inline(always)]
    pub(crate) fn needs(&self, task: u32, place: usize) -> &[Need]
        requires { 1 ≤ task }
        ensures { result.now ≡ slice_index_or (slice_index_or self.now.needs (task - 1) []) place [] }
    {
        match self.needs.get(task as usize - 1) {
            Some(queue) => match queue.get(place) {
                Some(needs) => needs.as_slice(),
                None => &[],
            },
            None => &[],
        }
    }
}

fn queues_of(alloc: Global, script: &Script) -> Result<Vec<Vec<Op>>, AllocError>
    ensures { IfOk result (λ v. map (λ q. q.items) v.items ≡ queues_of script.now.calls.items script.now.config.tasks) }
{
    let mut queues = Vec::new(alloc);
    for task in 1..script.config.tasks + 1 {
        queues.push(script.calls_of(alloc, Task::new(task))?)?;
    }
    Ok(queues)
}
