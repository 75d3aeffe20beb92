//! Copies of a pool beside their source.
use crate::calls::{call, happens, pictured};
use hp_base::{Answer, Config, Event, File, Index, Op, Task, Vpn};
use hp_core::{Core, Life, Picture, Tally};
use std::alloc::{AllocError, Global};
use std::process::Abort;
use std::test::Fail;

// Two of the frames go, a task stores to one of two pages that it maps, another has none left for its own map and exits.
fn make_calls(core: &mut Core) -> Result<(), AllocError> {
    let (one, two) = (Task::new(1), Task::new(2));
    // The checker of borrows asks for a mention of the type that an outcome may hold.
    let _none: Option<Answer> = None;
    happens(core, Event::Resize(4))?;
    let (file, other) = (File::new(0), File::new(1));
    let from = Index::new(1);
    let vpn = Vpn::new(1);
    call(core, one, Op::Map { file, from, len: 2 })?;
    call(core, one, Op::Store { vpn, word: 41 })?;
    call(
        core,
        two,
        Op::Map {
            file: other,
            from,
            len: 2,
        },
    )?;
    call(core, two, Op::Exit)?;
    Ok(())
}

// Of six frames two are retired, a task has stored to one of two pages that it has mapped, another is dead.
fn some_calls(alloc: Global) -> Result<Core, Fail> {
    let mut core = Core::new(alloc, Config::new(6, 2, 4, 2)?.with_quota(3)?)?;
    make_calls(&mut core)?;
    Ok(core)
}

// Asserts that no call is open in the pool, and copies it.
fn copied(rt: &impl Abort, alloc: Global, source: &Core) -> Result<Core, AllocError> {
    assert_eq!(rt; source.calls(), 0);
    source.copy(alloc)
}

// What the readers of the whole pool tell: its tally.
fn tally(core: &Core) -> Tally {
    core.tally()
}

// Its sizes.
fn sizes(core: &Core) -> Config {
    core.config()
}

// And its other numbers.
fn numbers(core: &Core) -> (u32, u32, Option<u32>, u32) {
    (core.frames(), core.used(), core.quota(), core.calls())
}

// Asserts that both tell the same of the whole pool.
fn compare(rt: &impl Abort, copy: &Core, source: &Core) {
    assert_eq!(rt; tally(copy), tally(source));
    assert_eq!(rt; sizes(copy), sizes(source));
    assert_eq!(rt; numbers(copy), numbers(source));
}

#[test]
fn a_copy_is_compared_with_its_source(rt: HostRuntime) -> Result<(), Fail> {
    let source = some_calls(rt.alloc())?;
    let copy = copied(&rt, rt.alloc(), &source)?;
    compare(&rt, &copy, &source);
    assert_eq!(rt; (copy.free(), copy.resv(), copy.used()), (3, 1, 2));
    Ok(())
}

// Asserts that both show the same: two retired frames, and one translation.
fn compare_pictures(rt: &impl Abort, here: &Picture, there: &Picture) {
    assert_eq!(rt; (here.retired.len(), here.tables.len()), (2, 1));
    assert!(rt; *here == *there);
}

// The pictures of both.
fn both_pictured(
    alloc: Global,
    copy: &Core,
    source: &Core,
) -> Result<(Picture, Picture), AllocError> {
    Ok((pictured(copy, alloc)?, pictured(source, alloc)?))
}

#[test]
fn a_copys_picture_is_compared_with_its_sources(rt: HostRuntime) -> Result<(), Fail> {
    let source = some_calls(rt.alloc())?;
    let copy = copied(&rt, rt.alloc(), &source)?;
    let (here, there) = both_pictured(rt.alloc(), &copy, &source)?;
    compare_pictures(&rt, &here, &there);
    Ok(())
}

// What the readers tell of a task. Asserts that it is one of two.
fn task_told(rt: &impl Abort, core: &Core, number: u32) -> (Life, usize, usize) {
    assert_eq!(rt; core.config().tasks, 2);
    assert!(rt; number == 1 || number == 2);
    let task = Task::new(number);
    (core.life(task), core.mappings(task), core.entries(task))
}

// Asserts that both tell the same of a task, and answers its life.
fn compare_tasks(rt: &impl Abort, copy: &Core, source: &Core, number: u32) -> Life {
    let (here, there) = (task_told(rt, copy, number), task_told(rt, source, number));
    assert_eq!(rt; here, there);
    here.0
}

#[test]
fn a_copys_tasks_are_compared_with_its_sources(rt: HostRuntime) -> Result<(), Fail> {
    let source = some_calls(rt.alloc())?;
    let copy = copied(&rt, rt.alloc(), &source)?;
    compare_tasks(&rt, &copy, &source, 1);
    let life = compare_tasks(&rt, &copy, &source, 2);
    assert_eq!(rt; life, Life::Dead);
    Ok(())
}

// The word that the first task loads.
fn load(core: &mut Core) -> Result<Option<Answer>, AllocError> {
    let vpn = Vpn::new(1);
    call(core, Task::new(1), Op::Load { vpn })
}

// What a store to the source is answered, and what is loaded then of the copy and of the source.
fn store_and_load(copy: &mut Core, source: &mut Core) -> Result<[Option<Answer>; 3], AllocError> {
    let vpn = Vpn::new(1);
    let stored = call(source, Task::new(1), Op::Store { vpn, word: 42 })?;
    Ok([stored, load(copy)?, load(source)?])
}

#[test]
fn a_copy_goes_on_apart(rt: HostRuntime) -> Result<(), Fail> {
    let mut source = some_calls(rt.alloc())?;
    let mut copy = copied(&rt, rt.alloc(), &source)?;
    let told = store_and_load(&mut copy, &mut source)?;
    let wanted = [Answer::Done, Answer::Word(41), Answer::Word(42)];
    assert_eq!(rt; told, wanted.map(Some));
    Ok(())
}
