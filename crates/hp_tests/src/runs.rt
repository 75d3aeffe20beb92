//! What no clause says and no trace shows: that ample memory meets no want of it, what is held back, and whole pictures.
use crate::calls::{call, happens, pictured, told_of};
use crate::pool::new_pool;
use hp_base::{Answer, Config, Event, File, Frame, Index, Op, Task, Vpn};
use hp_core::{Core, FilePicture, Outcome, Picture, Refusal, RunFault, Tally, audit};
use std::alloc::{AllocError, Global};
use std::process::Abort;
use std::test::Fail;

#[test]
fn nothing_happens(rt: HostRuntime) -> Result<(), Fail> {
    let mut core = new_pool(rt.alloc())?;
    let told = told_of(&mut core, rt.alloc(), &[])?;
    assert!(rt; told.is_empty());
    let tally = Tally {
        free: 4,
        resv: 0,
        reserved: 0,
        pages: 0,
    };
    assert_eq!(rt; core.tally(), tally);
    Ok(())
}

// Two tasks map the same range: the first has taken the file's lock, and the second has only begun.
fn two_maps(alloc: Global) -> Result<Core, Fail> {
    let (one, two) = (Task::new(1), Task::new(2));
    let op = Op::Map {
        file: File::new(0),
        from: Index::new(0),
        len: 2,
    };
    let mut core = Core::new(alloc, Config::new(4, 1, 4, 2)?)?;
    let events = [
        Event::Begin(one, op),
        Event::Step(one, true),
        Event::Begin(two, op),
    ];
    told_of(&mut core, alloc, events.as_slice())?;
    Ok(core)
}

// What is told of an event that changes nothing. The tests ask for no row.
fn held_back(core: &Core, event: Event) -> Option<Outcome> {
    core.held_back(event)
}

/// Asserts what is told of each event, if it changes nothing.
fn are_held_back(rt: &impl Abort, core: &Core, rows: &[(Event, Option<Outcome>)]) {
    for (event, told) in rows {
        assert_eq!(rt; held_back(core, *event), *told);
    }
}

// The second task waits for the first, there is no third, and no pool is without frames.
#[test]
fn events_that_change_nothing_are_held_back(rt: HostRuntime) -> Result<(), Fail> {
    let core = two_maps(rt.alloc())?;
    let (one, two, three) = (Task::new(1), Task::new(2), Task::new(3));
    let refused = |why| Some(Outcome::Refused(why));
    are_held_back(
        &rt,
        &core,
        &[
            (Event::Step(two, true), Some(Outcome::Blocked(one))),
            (Event::Begin(one, Op::Exit), refused(Refusal::InCall)),
            (Event::Step(three, true), refused(Refusal::NotAlive)),
            (Event::Kill(three), refused(Refusal::NotAlive)),
            (Event::Resize(0), refused(Refusal::BadSize)),
            (Event::Step(one, false), None),
            (Event::Kill(two), None),
            (Event::Resize(4), None),
        ],
    );
    Ok(())
}

// In a pool of one frame a task maps the page of file 0 and stores a word to it: what each call ends with.
fn map_and_store(core: &mut Core, task: Task) -> Result<[Option<Answer>; 2], AllocError> {
    let map = Op::Map {
        file: File::new(0),
        from: Index::new(0),
        len: 1,
    };
    let store = Op::Store {
        vpn: Vpn::new(0),
        word: 7,
    };
    Ok([call(core, task, map)?, call(core, task, store)?])
}

// A pool of one frame, whose page two tasks have mapped and stored to.
fn shared_page(alloc: Global) -> Result<Core, Fail> {
    let mut core = Core::new(alloc, Config::new(1, 1, 1, 2)?)?;
    map_and_store(&mut core, Task::new(1))?;
    map_and_store(&mut core, Task::new(2))?;
    Ok(core)
}

#[test]
fn two_tasks_share_a_page(rt: HostRuntime) -> Result<(), Fail> {
    let core = shared_page(rt.alloc())?;
    assert_eq!(rt; core.config().tasks, 2);
    for task in [Task::new(1), Task::new(2)] {
        assert_eq!(rt; core.translate(task, Vpn::new(0)), Some(Frame::new(0)));
    }
    Ok(())
}

// The picture of that pool, by the tables: its one frame is the page at index 0, which both tasks translate.
fn page_of_two(alloc: Global) -> Result<Picture, AllocError> {
    let (file, first, frame) = (File::new(0), Index::new(0), Frame::new(0));
    let shown = FilePicture {
        size: 1,
        locked: false,
        regions: vec![in alloc; (first, Index::new(1))]?,
        pages: vec![in alloc; (first, frame)]?,
    };
    let mut tables = vec![in alloc; (Task::new(1), file, first, frame)]?;
    tables.push((Task::new(2), file, first, frame))?;
    Ok(Picture {
        free: Vec::new(alloc),
        retired: Vec::new(alloc),
        resv: 0,
        owed: 0,
        used: 1,
        used_owed: 0,
        quota: None,
        hands: Vec::new(alloc),
        files: vec![in alloc; shown]?,
        tables,
    })
}

/// Asserts that a picture passes the audit, and is this one.
fn is_picture(rt: &impl Abort, picture: &Picture, wanted: &Picture) {
    assert_eq!(rt; audit(picture), Ok(()));
    assert!(rt; *picture == *wanted);
}

#[test]
fn a_picture_of_two_tasks(rt: HostRuntime) -> Result<(), Fail> {
    let picture = pictured(&shared_page(rt.alloc())?, rt.alloc())?;
    is_picture(&rt, &picture, &page_of_two(rt.alloc())?);
    Ok(())
}

// A pool of four frames, resized one time after the other.
fn resized(alloc: Global, sizes: &[u32]) -> Result<Core, Fail> {
    let mut core = new_pool(alloc)?;
    // The checker of borrows asks for a mention of the type that an outcome may hold.
    let _none: Option<Answer> = None;
    for frames in sizes {
        happens(&mut core, Event::Resize(*frames))?;
    }
    Ok(core)
}

// How many frames the picture of such a pool shows as free and as retired, where it passes the audit.
fn free_and_retired(alloc: Global, sizes: &[u32]) -> Result<Option<(usize, usize)>, Fail> {
    let picture = pictured(&resized(alloc, sizes)?, alloc)?;
    Ok(
        audit(&picture)
            .ok()
            .map(|()| (picture.free.len(), picture.retired.len())),
    )
}

#[test]
fn pictures_of_resized_pools(rt: HostRuntime) -> Result<(), Fail> {
    for (sizes, wanted) in [([4, 3], (3, 1)), ([1, 6], (6, 0))] {
        assert_eq!(rt; free_and_retired(rt.alloc(), &sizes)?, Some(wanted));
    }
    Ok(())
}

// A law has nothing to run. That each can be called of a new pool shows that none asks for anything.
#[test]
fn laws_of_frames_ask_for_nothing(rt: HostRuntime) -> Result<(), Fail> {
    let core = new_pool(rt.alloc())?;
    core.always();
    core.is_reached();
    core.never_short();
    core.a_touch_that_misses_nothing_takes_a_frame();
    core.an_alloc_that_misses_nothing_takes_a_frame();
    core.a_promised_touch_is_served();
    core.a_truncation_leaves_nothing_above();
    Ok(())
}

#[test]
fn laws_of_waiting_ask_for_nothing(rt: HostRuntime) -> Result<(), Fail> {
    let core = new_pool(rt.alloc())?;
    core.own_steps_are_few();
    core.a_blocked_step_waits_for_a_holder();
    core.a_slot_holder_is_never_blocked();
    core.a_lock_holder_waits_for_slots_alone();
    core.some_call_is_not_blocked();
    Ok(())
}

// Asserts that the fault has this text.
fn has_text(rt: &impl Abort, alloc: Global, fault: RunFault, text: &str) -> Result<(), Fail> {
    let told = format!(in alloc; "{fault}")?;
    assert_eq!(rt; told.as_str(), text);
    Ok(())
}

#[test]
fn texts(rt: HostRuntime) -> Result<(), Fail> {
    for (done, text) in [
        (3, "out of memory after 3 events"),
        (1_000_000, "out of memory after 1000000 events"),
    ] {
        has_text(&rt, rt.alloc(), RunFault { done }, text)?;
    }
    Ok(())
}
