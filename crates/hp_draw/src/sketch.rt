//! What is to be drawn of a run, before it is known where it is to stand.
ghost use Rattle.std.specs.Prelude.{◌≡◌, ◌≤◌, ◌+◌, ◌++◌, None, OnOk, IfOk, length, get_or, replicate, slice_set};
ghost use Rattle.hp_base.specs.Text.{sizes};
ghost use Rattle.hp_draw.specs.Following.{stay_in};
ghost use Rattle.hp_draw.specs.Lists.{listed};
ghost use Rattle.hp_draw.specs.Sketches.{IsDrawn, after, ended, nothing_drawn, seen, stays_in};

use crate::following::{
    Mark, Numbers, OpenStay, Stay, add_mark, add_stay, block_of, failure_of, mark_of, numbers_of,
    open_stay_after, stay_in, stay_left,
};
use crate::waits::Waits;
use hp_base::{Answer, Event, File, Index, Op, Task, Vpn};
use hp_core::{Outcome, Phase};
use hp_text::{MOST_EVENTS, Trace, column_of};
use hp_watch::{Run, phase_in};
use std::alloc::{AllocError, Global};

/// What is to be drawn of a run. Moments are counted from 0: each is an event's.
#[derive(Drop)]
pub(crate) struct Sketch {
    /// Where the call of each task stands; at 0 stands nothing.
    pub(crate) open_stays: Vec<Option<OpenStay>>,
    /// How long each call stood where, in the order in which that ended.
    pub(crate) stays: Vec<Stay>,
    /// What is marked, in the order of events.
    pub(crate) marks: Vec<Mark>,
    /// The counts behind each event.
    pub(crate) numbers: Vec<Numbers>,
    /// How long each task waited for whom.
    pub(crate) waits: Waits,
}

/// A place for each column, in which nothing stands.
fn no_open_stays(alloc: Global, tasks: u32) -> Result<Vec<Option<OpenStay>>, AllocError>
    ensures { IfOk result (λ open_stays. open_stays.items ≡ replicate (tasks + 1) None) }
{
    // The checker of borrows asks for a mention of the types that an open stay holds.
    let _inside: Option<(OpenStay, Op, File, Index, Vpn, Task, Phase)> = None;
    let mut open_stays = Vec::new(alloc);
    open_stays.push(None)?;
    for _task in 0..tasks {
        open_stays.push(None)?;
    }
    Ok(open_stays)
}

/// A pool of which nothing was seen.
fn empty_sketch(alloc: Global, tasks: u32) -> Result<Sketch, AllocError>
    ensures { IfOk result (λ sketch. seen sketch ≡ nothing_drawn tasks) }
{
    Ok(Sketch {
        open_stays: no_open_stays(alloc, tasks)?,
        stays: Vec::new(alloc),
        marks: Vec::new(alloc),
        numbers: Vec::new(alloc),
        waits: Waits::new(alloc),
    })
}

/// Where the call of a column stands.
fn open_stay_at(open_stays: &[Option<OpenStay>], column: usize) -> Option<OpenStay>
    ensures { result ≡ get_or open_stays.now column None }
{
    if column < open_stays.len() {
        open_stays[column]
    } else {
        None
    }
}

/// Notes where the call of a column stands.
fn set_open_stay(open_stays: &mut [Option<OpenStay>], column: usize, open_stay: Option<OpenStay>)
    ensures { open_stays.new ≡ slice_set open_stays.old column open_stay }
{
    if column < open_stays.len() {
        open_stays[column] = open_stay;
    }
}

/// Adds what came of an event, which led to where the run stands.
#[tactic(auto, unfolding(crate::specs::Sketches::after))]
fn add_event(
    sketch: &mut Sketch,
    at: u32,
    event: &Event,
    outcome: &Outcome,
    run: &Run,
) -> Result<(), AllocError>
    ensures { OnOk result (seen sketch.new ≡ after at (seen sketch.old) (record {
      event = event.now;
      outcome = outcome.now;
      core = run.now.core;
      holders = run.now.holders.items;
      from = run.now.from;
    })) }
{
    let core = &run.core;
    let config = core.config();
    let number = column_of(config.tasks, event);
    let column = number as usize;
    let before = open_stay_at(sketch.open_stays.as_slice(), column);
    let now = open_stay_after(&before, at, event, outcome, phase_in(core, number));
    add_stay(
        &mut sketch.stays,
        stay_left(column, at, &before, &now, outcome),
    )?;
    set_open_stay(sketch.open_stays.as_mut_slice(), column, now);
    add_mark(&mut sketch.marks, mark_of(column, at, event, outcome))?;
    add_mark(&mut sketch.marks, block_of(column, at, event, outcome))?;
    add_mark(&mut sketch.marks, failure_of(column, at, outcome))?;
    sketch.numbers.push(numbers_of(core, at))?;
    sketch.waits.follow(core, at, run.holders.as_slice())
}

/// Adds the stay of the call of a column, if it is in flight at the end.
fn add_stay_in(
    open_stays: &[Option<OpenStay>],
    column: usize,
    at: u32,
    stays: &mut Vec<Stay>,
) -> Result<(), AllocError>
    ensures { OnOk result (stays.new.items ≡ stays.old.items ++ listed (stay_in column at (get_or open_stays.now column None))) }
{
    add_stay(stays, stay_in(column, at, open_stay_at(open_stays, column)))
}

/// Adds those of all columns.
fn add_stays_in(
    open_stays: &[Option<OpenStay>],
    at: u32,
    stays: &mut Vec<Stay>,
) -> Result<(), AllocError>
    ensures { OnOk result (stays.new.items ≡ stays.old.items ++ stays_in at open_stays.now (length open_stays.now)) }
{
    for column in 0..open_stays.len() {
        add_stay_in(open_stays, column, at, stays)?;
    }
    Ok(())
}

/// Ends a sketch: adds the stays of the calls that are in flight, and the waits that go on.
fn end_sketch(sketch: &mut Sketch, at: u32) -> Result<(), AllocError>
    ensures { OnOk result (seen sketch.new ≡ ended at (seen sketch.old)) }
{
    add_stays_in(sketch.open_stays.as_slice(), at, &mut sketch.stays)?;
    sketch.waits.end(at)
}

/// Runs the trace, and keeps what is to be drawn of it.
pub(crate) fn sketch_run(alloc: Global, trace: &Trace) -> Result<Sketch, AllocError>
    requires { length trace.now.events.items ≤ MOST_EVENTS }
    ensures { IfOk result (λ sketch. IsDrawn (sizes trace.now.config) trace.now.events.items (seen sketch)) }
{
    let mut sketch = empty_sketch(alloc, trace.config.tasks)?;
    let mut run = Run::new(alloc, trace.config)?;
    let mut at = 0;
    for event in &trace.events {
        // The checker of borrows asks for a mention of the types that an outcome may hold.
        let _no_answer: Option<Answer> = None;
        let outcome: Outcome = run.happen(*event)?;
        add_event(&mut sketch, at, event, &outcome, &run)?;
        at += 1;
    }
    end_sketch(&mut sketch, at)?;
    Ok(sketch)
}
