//! Pictures, each by what is changed in a sound one, and what an audit of it answers; the texts of the findings.
use crate::texts::each_reads;
use hp_audit::{FilePicture, Finding, Picture, audit};
use hp_base::{File, Frame, Index, Task};
use std::alloc::{AllocError, Global};
use std::process::Abort;

/// What is changed in a picture of one file.
#[derive(Drop)]
enum Change {
    /// One more frame is free.
    Free(u32),
    /// One more frame is retired.
    Retired(u32),
    /// One more frame is in a hand.
    Hand(u32),
    /// The reserve count, and what calls in flight owe to it.
    Resv(u32, i64),
    /// The used count, and what calls in flight owe to it.
    Used(u32, i64),
    Quota(u32),
    /// One more range of indices is reserved.
    Region(u32, u32),
    /// One more page: its index and its frame.
    Page(u32, u32),
    /// The file's size, and whether it is locked.
    Size(u32, bool),
    /// The one translation: its file, its index and its frame.
    Translation(u32, u32, u32),
}

// A translation of task 1.
fn translation(file: u32, index: u32, frame: u32) -> (Task, File, Index, Frame) {
    (
        Task::new(1),
        File::new(file),
        Index::new(index),
        Frame::new(frame),
    )
}

// A file of one reserved page, index 0 in frame 1.
fn file_of_one(alloc: Global) -> Result<FilePicture, AllocError> {
    Ok(FilePicture {
        size: 1,
        locked: false,
        regions: vec![in alloc; (Index::new(0), Index::new(1))]?,
        pages: vec![in alloc; (Index::new(0), Frame::new(1))]?,
    })
}

// A picture of that file, whose page task 1 translates, with nothing wrong. Frame 0 is free, and no frame is retired.
fn sound(alloc: Global) -> Result<Picture, AllocError> {
    Ok(Picture {
        free: vec![in alloc; Frame::new(0)]?,
        retired: Vec::new(alloc),
        resv: 0,
        owed: 0,
        used: 1,
        used_owed: 0,
        quota: None,
        hands: Vec::new(alloc),
        files: vec![in alloc; file_of_one(alloc)?]?,
        tables: vec![in alloc; translation(0, 0, 1)]?,
    })
}

fn change_file(file: &mut FilePicture, change: &Change) -> Result<(), AllocError> {
    match change {
        Change::Region(from, to) => file.regions.push((Index::new(*from), Index::new(*to)))?,
        Change::Page(index, frame) => file.pages.push((Index::new(*index), Frame::new(*frame)))?,
        Change::Size(size, locked) => {
            file.size = *size;
            file.locked = *locked;
        }
        _ => {}
    }
    Ok(())
}

fn change_counts(picture: &mut Picture, change: &Change) {
    match change {
        Change::Resv(resv, owed) => {
            picture.resv = *resv;
            picture.owed = *owed;
        }
        Change::Used(used, owed) => {
            picture.used = *used;
            picture.used_owed = *owed;
        }
        Change::Quota(quota) => picture.quota = Some(*quota),
        _ => {}
    }
}

fn change_frames(picture: &mut Picture, change: &Change) -> Result<(), AllocError> {
    match change {
        Change::Free(frame) => picture.free.push(Frame::new(*frame))?,
        Change::Retired(frame) => picture.retired.push(Frame::new(*frame))?,
        Change::Hand(frame) => picture.hands.push(Frame::new(*frame))?,
        Change::Translation(file, index, frame) => {
            picture.tables.clear();
            picture.tables.push(translation(*file, *index, *frame))?;
        }
        _ => {}
    }
    Ok(())
}

// The sound picture with these changes.
fn changed(alloc: Global, changes: &[Change]) -> Result<Picture, AllocError> {
    let mut picture = sound(alloc)?;
    for change in changes {
        for file in picture.files.iter_mut() {
            change_file(file, change)?;
        }
        change_counts(&mut picture, change);
        change_frames(&mut picture, change)?;
    }
    Ok(picture)
}

/// Asserts what an audit answers, and whether a picture is the sound one.
fn answers(
    rt: &impl Abort,
    picture: &Picture,
    sound: &Picture,
    is_sound: bool,
    answer: Result<(), Finding>,
) {
    assert_eq!(rt; audit(picture), answer);
    assert_eq!(rt; *picture == *sound, is_sound);
}

/// Asserts what an audit of the sound picture with these changes answers.
fn finds(
    rt: &impl Abort,
    alloc: Global,
    changes: &[Change],
    answer: Result<(), Finding>,
) -> Result<(), AllocError> {
    let picture = changed(alloc, changes)?;
    let sound = sound(alloc)?;
    answers(rt, &picture, &sound, changes.is_empty(), answer);
    Ok(())
}

/// Asserts that an audit finds this in each picture.
fn each_has(
    rt: &impl Abort,
    alloc: Global,
    answer: Result<(), Finding>,
    pictures: &[&[Change]],
) -> Result<(), AllocError> {
    for changes in pictures {
        finds(rt, alloc, changes, answer)?;
    }
    Ok(())
}

#[test]
fn sound_pictures(rt: HostRuntime) -> Result<(), AllocError> {
    each_has(
        &rt,
        rt.alloc(),
        Ok(()),
        &[
            &[],
            &[Change::Retired(2)],
            &[Change::Size(0, true)],
            &[Change::Resv(1, 1)],
            // The ranges reserve three indices, of which one has its page.
            &[
                Change::Region(0, 3),
                Change::Resv(1, -1),
                Change::Used(3, 0),
            ],
            &[Change::Used(2, 1)],
            &[Change::Quota(1)],
        ],
    )
}

#[test]
fn numbers_out_of_bounds(rt: HostRuntime) -> Result<(), AllocError> {
    each_has(
        &rt,
        rt.alloc(),
        Err(Finding::Shape),
        &[
            &[Change::Translation(0, 4096, 1)],
            &[Change::Translation(1, 0, 1)],
            &[Change::Page(0, 2)],
            &[Change::Region(1, 0)],
            &[Change::Region(1, 4097)],
        ],
    )
}

#[test]
fn frames_at_two_places(rt: HostRuntime) -> Result<(), AllocError> {
    each_has(
        &rt,
        rt.alloc(),
        Err(Finding::Place),
        &[
            &[Change::Free(1)],
            &[Change::Hand(0)],
            // Frame 0 is free, frame 1 is a page, and frame 2 is in a hand.
            &[Change::Retired(0), Change::Hand(2)],
            &[Change::Retired(1), Change::Hand(2)],
            &[Change::Retired(2), Change::Hand(2)],
            &[Change::Retired(2), Change::Retired(2)],
        ],
    )
}

#[test]
fn translations_that_disagree(rt: HostRuntime) -> Result<(), AllocError> {
    let alloc = rt.alloc();
    finds(
        &rt,
        alloc,
        &[Change::Translation(0, 0, 0)],
        Err(Finding::Agree),
    )?;
    finds(&rt, alloc, &[Change::Size(0, false)], Err(Finding::Size))
}

#[test]
fn reserve_counts(rt: HostRuntime) -> Result<(), AllocError> {
    each_has(
        &rt,
        rt.alloc(),
        Err(Finding::Count),
        &[
            &[Change::Resv(1, 0)],
            // One frame is free, so that two can't be reserved.
            &[Change::Region(0, 3), Change::Resv(2, 0), Change::Used(3, 0)],
            // A retired frame isn't free.
            &[
                Change::Region(0, 3),
                Change::Resv(2, 0),
                Change::Used(3, 0),
                Change::Retired(2),
            ],
            // Where both counts are wrong, the reserve count is told.
            &[Change::Used(2, 0), Change::Resv(1, 0)],
        ],
    )
}

#[test]
fn used_counts(rt: HostRuntime) -> Result<(), AllocError> {
    each_has(
        &rt,
        rt.alloc(),
        Err(Finding::Used),
        &[
            &[Change::Used(2, 0)],
            &[Change::Used(1, 1)],
            &[Change::Quota(0)],
        ],
    )
}

#[test]
fn texts_of_shapes_and_places(rt: HostRuntime) -> Result<(), AllocError> {
    each_reads(
        &rt,
        rt.alloc(),
        &[
            (
                Finding::Shape,
                "a range, an index or a file's number is out of bounds, or an index has two pages",
            ),
            (
                Finding::Agree,
                "a translation names a frame that isn't the page of its file at that index",
            ),
            (Finding::Place, "a frame is at two places"),
        ],
    )
}

#[test]
fn texts_of_sizes_and_counts(rt: HostRuntime) -> Result<(), AllocError> {
    each_reads(
        &rt,
        rt.alloc(),
        &[
            (
                Finding::Size,
                "a translation lies at or above the size of a file that isn't locked",
            ),
            (
                Finding::Count,
                "the reserve count isn't that of the reserved indices, or is above the free frames",
            ),
            (
                Finding::Used,
                "the used count isn't that of the reserved indices, or is above the quota",
            ),
        ],
    )
}
