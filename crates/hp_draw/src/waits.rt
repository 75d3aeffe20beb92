//! For whom each task waits since when, from event to event.
ghost use Rattle.std.specs.Prelude.{◌≡◌, ◌≤◌, ◌++◌, ◌+◌, ◌-◌, ◌<◌, [], OnOk, None, get_or, length};
ghost use Rattle.hp_core.specs.Acquiring.{acquired_of};
ghost use Rattle.hp_core.specs.Readers.{config_of};
ghost use Rattle.hp_draw.specs.Lists.{listed};
ghost use Rattle.hp_draw.specs.Waits.{is_for, wait_left, wait_of, waiting_after, waiting_tasks, waits_left};

use hp_base::{File, Index, Task};
use hp_core::{Acquired, Core};
use std::alloc::{AllocError, Global};
use std::mem;

/// For whom a task waits.
#[derive(Clone, Copy)]
pub(crate) struct Waiting {
    /// The moment since which it waits for that holder.
    pub(crate) since: u32,
    pub(crate) holder: Task,
    /// What it waits for.
    pub(crate) wanted: Acquired,
}

/// A wait of a task for a holder.
#[derive(Clone, Copy)]
pub(crate) struct Wait {
    pub(crate) column: usize,
    pub(crate) waiting: Waiting,
    /// The moment that ends it.
    pub(crate) until: u32,
}

/// The waits of a run, up to a moment.
#[derive(Drop)]
pub(crate) struct Waits {
    /// For whom each task waited before.
    earlier: Vec<Option<Waiting>>,
    /// For whom each task waits.
    pub(crate) now: Vec<Option<Waiting>>,
    /// The waits that ended, in the order in which they did.
    pub(crate) ended: Vec<Wait>,
}

/// Whether a task waits for that holder.
fn is_for(waiting: &Option<Waiting>, holder: Task) -> bool
    ensures { result ≡ is_for waiting.now holder }
{
    match waiting {
        Some(waiting) => waiting.holder == holder,
        None => false,
    }
}

/// For whom a task waits by whose holder, if there is one, its next step would be blocked. Where it waited for the same holder, it goes
/// on to do so.
fn waiting_after(
    before: &Option<Waiting>,
    at: u32,
    holder: Option<Task>,
    wanted: Acquired,
) -> Option<Waiting>
    ensures { result ≡ waiting_after before.now at holder wanted }
{
    let Some(holder) = holder else {
        return None;
    };
    if is_for(before, holder) {
        return *before;
    }
    Some(Waiting {
        since: at,
        holder,
        wanted,
    })
}

/// The wait of a task that waited so, if it goes on to wait for nobody, or for another.
fn wait_of(column: usize, at: u32, waiting: &Waiting, after: &Option<Waiting>) -> Option<Wait>
    ensures { result ≡ wait_of column at waiting.now after.now }
{
    if is_for(after, waiting.holder) {
        return None;
    }
    Some(Wait {
        column,
        waiting: *waiting,
        until: at,
    })
}

/// The wait that ends at that moment, if one does.
fn wait_left(
    column: usize,
    at: u32,
    before: &Option<Waiting>,
    after: &Option<Waiting>,
) -> Option<Wait>
    ensures { result ≡ wait_left column at before.now after.now }
{
    match before {
        Some(waiting) => wait_of(column, at, waiting, after),
        None => None,
    }
}

/// For whom the task in that place waits.
fn waiting_at(waiting: &[Option<Waiting>], place: usize) -> Option<Waiting>
    ensures { result ≡ get_or waiting.now place None }
{
    if place < waiting.len() {
        waiting[place]
    } else {
        None
    }
}

/// By whom the next step of the task in that place would be blocked.
fn holder_at(holders: &[Option<Task>], place: usize) -> Option<Task>
    ensures { result ≡ get_or holders.now place None }
{
    if place < holders.len() {
        holders[place]
    } else {
        None
    }
}

/// For whom the task in that place waits, where the core was led to by the event of that moment.
fn next_waiting(
    core: &Core,
    at: u32,
    holders: &[Option<Task>],
    before: &[Option<Waiting>],
    task: Task,
) -> Option<Waiting>
    requires first { 1 ≤ task }
    requires last { task ≤ (config_of core.now).tasks }
    ensures { result ≡ waiting_after (get_or before.now (task - 1) None) at (get_or holders.now (task - 1) None)
        (acquired_of core.now task) }
{
    let place = task.place();
    let wanted = core.acquiring(task);
    waiting_after(
        &waiting_at(before, place),
        at,
        holder_at(holders, place),
        wanted,
    )
}

/// Lists for whom each task waits, once the event of that moment has led to the core.
fn list_waiting(
    core: &Core,
    at: u32,
    holders: &[Option<Task>],
    before: &[Option<Waiting>],
    now: &mut Vec<Option<Waiting>>,
) -> Result<(), AllocError>
    ensures { OnOk result (now.new.items ≡ waiting_tasks core.now at holders.now before.now (config_of core.now).tasks) }
{
    // The checker of borrows asks for a mention of the types that a wait holds.
    let _inside: Option<(File, Index)> = None;
    now.clear();
    let config = core.config();
    for number in 0..config.tasks {
        now.push(next_waiting(core, at, holders, before, Task::new(number + 1)))?;
    }
    Ok(())
}

/// Adds a wait, if there is one.
fn add_wait(waits: &mut Vec<Wait>, wait: Option<Wait>) -> Result<(), AllocError>
    ensures { OnOk result (waits.new.items ≡ waits.old.items ++ listed wait) }
{
    // The checker of borrows asks for a mention of the types that a wait holds.
    let _inside: Option<(Waiting, Task, Acquired, File, Index)> = None;
    if let Some(wait) = wait {
        waits.push(wait)?;
    }
    Ok(())
}

/// Adds the wait of the task in that place, if it ends at that moment.
fn add_wait_left(
    at: u32,
    before: &[Option<Waiting>],
    now: &[Option<Waiting>],
    place: usize,
    waits: &mut Vec<Wait>,
) -> Result<(), AllocError>
    requires { place < length before.now }
    ensures { OnOk result (waits.new.items ≡ waits.old.items
        ++ listed (wait_left (place + 1) at (get_or before.now place None) (get_or now.now place None))) }
{
    let (earlier, later) = (waiting_at(before, place), waiting_at(now, place));
    add_wait(waits, wait_left(place + 1, at, &earlier, &later))
}

/// Adds the waits that end at that moment.
fn add_waits_left(
    at: u32,
    before: &[Option<Waiting>],
    now: &[Option<Waiting>],
    waits: &mut Vec<Wait>,
) -> Result<(), AllocError>
    ensures { OnOk result (waits.new.items ≡ waits.old.items ++ waits_left at before.now now.now (length before.now)) }
{
    for place in 0..before.len() {
        add_wait_left(at, before, now, place, waits)?;
    }
    Ok(())
}

impl Waits {
    pub(crate) fn new(alloc: Global) -> Waits
        ensures now { result.now.items ≡ [] }
        ensures ended { result.ended.items ≡ [] }
    {
        Waits {
            earlier: Vec::new(alloc),
            now: Vec::new(alloc),
            ended: Vec::new(alloc),
        }
    }

    /// Notes for whom each task waits, once the event of that moment has led to the core. These would block their next steps.
    pub(crate) fn follow(
        &mut self,
        core: &Core,
        at: u32,
        holders: &[Option<Task>],
    ) -> Result<(), AllocError>
        ensures now { OnOk result (self.new.now.items
            ≡ waiting_tasks core.now at holders.now self.old.now.items (config_of core.now).tasks) }
        ensures ended { OnOk result (self.new.ended.items
            ≡ self.old.ended.items ++ waits_left at self.old.now.items self.new.now.items (length self.old.now.items)) }
    {
        mem::swap(&mut self.earlier, &mut self.now);
        list_waiting(core, at, holders, self.earlier.as_slice(), &mut self.now)?;
        add_waits_left(
            at,
            self.earlier.as_slice(),
            self.now.as_slice(),
            &mut self.ended,
        )
    }

    /// Ends all waits.
    pub(crate) fn end(&mut self, at: u32) -> Result<(), AllocError>
        ensures now { self.new.now.items ≡ self.old.now.items }
        ensures ended { OnOk result (self.new.ended.items
            ≡ self.old.ended.items ++ waits_left at self.old.now.items [] (length self.old.now.items)) }
    {
        add_waits_left(at, self.now.as_slice(), &[], &mut self.ended)
    }
}
