//! Places and their holders.
ghost use Rattle.std.specs.Prelude.{◌≡◌, ◌<◌, ◌≤◌, length};

use crate::texts::each_reads;
use hp_base::{File, Index, Task};
use hp_slots::{Fault, SlotTable, slot_number};
use std::alloc::AllocError;
use std::process::Abort;

/// Asserts the place of an index of a file.
fn slot_is(rt: &impl Abort, table: &SlotTable, file: u32, index: u32, place: u32) {
    assert_eq!(rt; table.slot_of(File::new(file), Index::new(index)), place);
}

/// Asserts the place of an index of a file among so many.
fn slot_among(rt: &impl Abort, slots: u32, file: u32, index: u32, place: u32)
    requires { 1 ≤ slots }
{
    assert_eq!(rt;
        slot_number(slots, File::new(file), Index::new(index)),
        place
    );
}

/// Asserts who holds a place.
fn holder_is(rt: &impl Abort, table: &SlotTable, place: u32, holder: Option<Task>) {
    assert_eq!(rt; table.holder(place), holder);
}

// Takes a place for a task.
fn try_take(table: &mut SlotTable, place: u32, task: Task) -> Result<(), Fault>
    requires { place < length table.old }
    ensures { length table.new ≡ length table.old }
{
    table.try_take(place, task)
}

/// Asserts what it answers to take a place.
fn take(rt: &impl Abort, table: &mut SlotTable, place: u32, task: Task, answer: Result<(), Fault>)
    requires { place < length table.old }
    ensures { length table.new ≡ length table.old }
{
    let told = try_take(table, place, task);
    assert_eq!(rt; told, answer);
}

/// Asserts who holds the place that a task can't take.
fn is_busy(rt: &impl Abort, table: &mut SlotTable, place: u32, task: Task, holder: Task)
    requires { place < length table.old }
{
    let busy = try_take(table, place, task);
    assert_eq!(rt; busy.err().map(Fault::holder), Some(holder));
}

/// A task leaves the place that it holds.
fn leave(rt: &impl Abort, table: &mut SlotTable, place: u32, task: Task)
    ensures { length table.new ≡ length table.old }
{
    assert_eq!(rt; table.holder(place), Some(task));
    table.leave(place, task);
}

#[test]
fn slots_of_pages(rt: HostRuntime) -> Result<(), AllocError> {
    let table = SlotTable::new(rt.alloc(), 4)?;
    slot_is(&rt, &table, 1, 0, 3);
    slot_is(&rt, &table, 0, 5, 1);
    slot_is(&rt, &table, 2, 3, 1);
    Ok(())
}

#[test]
fn slots_among_so_many(rt: HostRuntime) {
    slot_among(&rt, 1, 9, 9, 0);
    slot_among(&rt, 3, 2, 3, 2);
    slot_among(&rt, 64, 15, 4095, 16);
}

#[test]
fn a_place_is_held(rt: HostRuntime) -> Result<(), AllocError> {
    let mut table = SlotTable::new(rt.alloc(), 4)?;
    let (one, two) = (Task::new(1), Task::new(2));
    take(&rt, &mut table, 1, one, Ok(()));
    take(&rt, &mut table, 1, two, Err(Fault::Busy(one)));
    holder_is(&rt, &table, 1, Some(one));
    holder_is(&rt, &table, 4, None);
    Ok(())
}

#[test]
fn a_place_is_left(rt: HostRuntime) -> Result<(), AllocError> {
    let mut table = SlotTable::new(rt.alloc(), 2)?;
    let (one, two) = (Task::new(1), Task::new(2));
    take(&rt, &mut table, 1, one, Ok(()));
    leave(&rt, &mut table, 1, one);
    holder_is(&rt, &table, 1, None);
    take(&rt, &mut table, 1, two, Ok(()));
    is_busy(&rt, &mut table, 1, one, two);
    Ok(())
}

/// Asserts that a copy tells the same of four places and of an index.
fn compare(rt: &impl Abort, copy: &SlotTable, source: &SlotTable) {
    for place in 0..4 {
        holder_is(rt, copy, place, source.holder(place));
    }
    slot_is(rt, copy, 0, 5, source.slot_of(File::new(0), Index::new(5)));
}

#[test]
fn a_copy_is_compared_with_its_source(rt: HostRuntime) -> Result<(), AllocError> {
    let mut source = SlotTable::new(rt.alloc(), 3)?;
    let (one, two) = (Task::new(1), Task::new(2));
    take(&rt, &mut source, 1, one, Ok(()));
    take(&rt, &mut source, 2, two, Ok(()));
    let copy = source.copy(rt.alloc())?;
    compare(&rt, &copy, &source);
    leave(&rt, &mut source, 1, one);
    holder_is(&rt, &copy, 1, Some(one));
    Ok(())
}

#[test]
fn texts(rt: HostRuntime) -> Result<(), AllocError> {
    each_reads(
        &rt,
        rt.alloc(),
        &[
            (Fault::Busy(Task::new(1)), "task 1 holds the place"),
            (Fault::Busy(Task::new(64)), "task 64 holds the place"),
        ],
    )
}
