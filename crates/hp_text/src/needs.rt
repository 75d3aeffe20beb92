//! What the calls of a script wait for.
ghost use Rattle.std.specs.Prelude.{◌≡◌, ◌+◌, ◌-◌, ◌<◌, ◌≤◌, ◌^◌, ℕ, IfOk, filter, length, map, slice_index};
ghost use Rattle.std.specs.List.Sorted.{IsNonDecreasingBy};
ghost use Rattle.hp_text.specs.Scripts.{calls_of};
ghost use Rattle.hp_text.specs.Needs.{is_wait_of, needs_of, task_needs};
ghost use Rattle.hp_text.specs.CountedCalls.{SplitsAt, counted_need, counts_with};

use crate::script::{Script, Wait};
use hp_base::Task;
use std::alloc::{AllocError, Global};

/// What a call waits for: the task at this place, from 0, is to have ended so many calls.
#[derive(Clone, Copy, Debug, PartialEq, Eq)]
pub struct Need {
    /// The task's number less one: its place among those of the pool.
    pub place: u32,
    /// So many of its calls.
    pub calls: usize,
}

/// What the call at this place waits for, and how many waits stand up to it. So many calls of each task stand before the call.
fn needs_at(
    alloc: Global,
    waits: &[Wait],
    before: usize,
    call: usize,
    counts: &[usize],
) -> Result<(Vec<Need>, usize), AllocError>
    requires in_order { IsNonDecreasingBy (λ wait. wait.call) waits.now }
    requires split { SplitsAt waits.now before call }
    ensures needs { IfOk result (λ found.
        found.0.items ≡ map (counted_need counts.now) (filter (is_wait_of call (length counts.now)) waits.now)) }
    ensures split { IfOk result (λ found. SplitsAt waits.now found.1 (call + 1)) }
{
    let mut needs = Vec::new(alloc);
    let mut next = before;
    while next < waits.len() && waits[next].call as usize == call {
        let task = waits[next].task.number();
        if 1 <= task && task as usize <= counts.len() {
            let calls = counts[task as usize - 1];
            let place = task - 1;
            needs.push(Need { place, calls })?;
        }
        next += 1;
    }
    Ok((needs, next))
}

/// Counts a call of the task, where it is there.
fn count_call(counts: &mut Vec<usize>, task: Task)
    requires { (k : ℕ) → slice_index counts.old.items k + 1 < 2 ^ 64 }
    ensures { counts.new.items ≡ counts_with counts.old.items task }
{
    let task = task.number() as usize;
    if 1 <= task && task <= counts.len() {
        counts[task - 1] += 1;
    }
}

/// What each call of the task waits for.
pub fn task_needs(alloc: Global, script: &Script, task: Task) -> Result<Vec<Vec<Need>>, AllocError>
    ensures { IfOk result (λ needs. map (λ v. v.items) needs.items
        ≡ task_needs script.now.calls.items script.now.waits.items script.now.config.tasks task) }
{
    let mut needs = Vec::new(alloc);
    let mut counts = vec![in alloc; 0usize; script.config.tasks as usize]?;
    let mut waits = 0;
    for call in 0..script.calls.len() {
        let (of_call, next) = needs_at(
            alloc,
            script.waits.as_slice(),
            waits,
            call,
            counts.as_slice(),
        )?;
        waits = next;
        let (caller, _) = script.calls[call];
        if caller == task {
            needs.push(of_call)?;
        }
        count_call(&mut counts, caller);
    }
    Ok(needs)
}

/// What each call of each task waits for, from task 1; where no call waits, nothing.
pub fn needs_of(alloc: Global, script: &Script) -> Result<Vec<Vec<Vec<Need>>>, AllocError>
    ensures { IfOk result (λ v. map (λ queue. map (λ needs. needs.items) queue.items) v.items
        ≡ needs_of script.now.calls.items script.now.waits.items script.now.config.tasks) }
{
    let mut needs = Vec::new(alloc);
    if script.waits.is_empty() {
        return Ok(needs);
    }
    for task in 1..script.config.tasks + 1 {
        needs.push(task_needs(alloc, script, Task::new(task))?)?;
    }
    Ok(needs)
}
