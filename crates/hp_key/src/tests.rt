//! Keys of a small pool, event by event.
use crate::push_key;
use hp_base::{Answer, Config, Event, File, Index, Op, Task, Vpn};
use hp_core::Core;
use std::alloc::{AllocError, Global};
use std::test::Fail;

// A task maps two pages of a file; behind it another begins to allocate one of them. Each of these events changes the pool.
fn events(alloc: Global) -> Result<Vec<Event>, AllocError> {
    let (one, two) = (Task::new(1), Task::new(2));
    let (file, from) = (File::new(0), Index::new(1));
    let map = Op::Map { file, from, len: 2 };
    let allocate = Op::Alloc {
        file,
        from,
        len: 1,
        keep: false,
    };
    let mut events = Vec::new(alloc);
    events.push(Event::Begin(one, map))?;
    for _ in 0..7 {
        events.push(Event::Step(one, true))?;
    }
    events.push(Event::Begin(two, allocate))?;
    for _ in 0..8 {
        events.push(Event::Step(two, true))?;
    }
    let (vpn, word) = (Vpn::new(0), 1 << 40);
    events.push(Event::Begin(one, Op::Store { vpn, word }))?;
    events.push(Event::Kill(two))?;
    events.push(Event::Resize(6))?;
    Ok(events)
}

// The key of a core.
fn key(alloc: Global, core: &Core) -> Result<Vec<u32>, AllocError> {
    let mut words = Vec::new(alloc);
    push_key(&mut words, core)?;
    Ok(words)
}

// The keys of a pool, in the beginning and behind each of the events.
fn keys(alloc: Global, events: &[Event]) -> Result<Vec<Vec<u32>>, Fail> {
    // The checker of borrows asks for a mention of the type that an outcome may hold.
    let _none: Option<Answer> = None;
    let mut core = Core::new(alloc, Config::new(8, 2, 4, 4)?)?;
    let mut keys = Vec::new(alloc);
    keys.push(key(alloc, &core)?)?;
    for event in events {
        core.step(*event)?;
        keys.push(key(alloc, &core)?)?;
    }
    Ok(keys)
}

// Whether each key differs from the one behind it.
fn all_change(keys: &[Vec<u32>]) -> bool {
    for at in 1..keys.len() {
        if keys[at - 1] == keys[at] {
            return false;
        }
    }
    true
}

#[test]
fn one_run_has_the_same_keys_twice(rt: HostRuntime) -> Result<(), Fail> {
    let events = events(rt.alloc())?;
    let once = keys(rt.alloc(), &events)?;
    let again = keys(rt.alloc(), &events)?;
    assert!(rt; once == again);
    Ok(())
}

#[test]
fn each_event_changes_the_key(rt: HostRuntime) -> Result<(), Fail> {
    let keys = keys(rt.alloc(), &events(rt.alloc())?)?;
    assert_eq!(rt; keys.len(), 21);
    assert!(rt; all_change(&keys));
    Ok(())
}
