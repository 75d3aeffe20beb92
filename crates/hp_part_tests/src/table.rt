//! Mappings and translations of a task, as rows: one loop makes and asserts them, so that a test is literals alone.
ghost use Rattle.std.specs.Prelude.{◌≤◌};

use hp_base::{File, Frame, Index, LIMIT, Vpn};
use hp_table::Space;
use std::alloc::{AllocError, Global};
use std::process::Abort;

/// A call of a space, and what it has to answer. All mappings are of file 1, from its begin on.
#[derive(Drop)]
enum Row {
    /// Room for one mapping more is prepared.
    Prepare,
    /// Whether such room is prepared.
    Ready(bool),
    /// So many pages are mapped: from which page on.
    Map(u32, Option<u32>),
    /// Where there is room for so many pages.
    Room(u32, Option<u32>),
    /// How many mappings and how many translations there are.
    Counts(usize, usize),
    /// The index of a page, if it is mapped.
    Find(u32, Option<u32>),
    /// Where the mapping begins that has a page.
    Base(u32, Option<u32>),
    /// Where the first mapping begins.
    First(Option<u32>),
    /// A page is translated to a frame, where it is mapped and not yet translated: whether it is.
    Touch(u32, u32, bool),
    /// The translations of an index of a file are cleared.
    Clear(u32, u32),
    /// The frames of the first six pages.
    Frames([Option<u32>; 6]),
    /// The mapping that begins at a page goes, with its translations.
    Unmap(u32),
    /// A copy takes its place.
    Copy,
}

// Prepares room for one mapping more. With `--fail-alloc N` one growth is refused: nothing has changed, and the next try succeeds.
fn prepare(rt: &impl Abort, space: &mut Space) -> Result<(), AllocError> {
    let before = (space.ready(), space.mappings());
    if space.prepare().is_err() {
        assert_eq!(rt; (space.ready(), space.mappings()), before);
        space.prepare()?;
    }
    assert!(rt; space.ready());
    Ok(())
}

// Maps `len` pages of file 1 from its begin on, where they fit.
fn enter(space: &mut Space, len: u32) -> Result<Option<u32>, AllocError>
    requires some { 1 ≤ len }
    requires in_file { len ≤ LIMIT }
{
    let Some(base) = space.room(len) else {
        return Ok(None);
    };
    space.prepare()?;
    space.enter(base, File::new(1), Index::new(0), len);
    Ok(Some(base.number()))
}

/// Asserts where `len` pages are mapped.
fn maps(rt: &impl Abort, space: &mut Space, len: u32, base: Option<u32>) -> Result<(), AllocError> {
    assert!(rt; 1 <= len);
    assert!(rt; len <= LIMIT);
    assert_eq!(rt; enter(space, len)?, base);
    Ok(())
}

// Translates a page to a frame, where it is mapped and not yet translated.
fn touch(space: &mut Space, vpn: u32, frame: u32) -> Result<bool, AllocError> {
    let vpn = Vpn::new(vpn);
    if space.find(vpn).is_none() || space.translate(vpn).is_some() {
        return Ok(false);
    }
    space.install(vpn, Frame::new(frame))?;
    Ok(true)
}

// The frames of the first six pages.
fn frames(space: &Space) -> [Option<u32>; 6] {
    [0, 1, 2, 3, 4, 5].map(|vpn| space.translate(Vpn::new(vpn)).map(Frame::number))
}

/// Asserts whether a page is translated to a frame, also where a growth was refused before.
fn touches(
    rt: &impl Abort,
    space: &mut Space,
    vpn: u32,
    frame: u32,
    is_new: bool,
) -> Result<(), AllocError> {
    let before = (frames(space), space.entries());
    let told = match touch(space, vpn, frame) {
        Ok(told) => told,
        Err(_) => {
            assert_eq!(rt; (frames(space), space.entries()), before);
            touch(space, vpn, frame)?
        }
    };
    assert_eq!(rt; told, is_new);
    Ok(())
}

// Clears the entries of a mapping, and then drops it.
fn unmap(space: &mut Space, base: u32) {
    space.clear_mapping(Vpn::new(base));
    space.drop_mapping(Vpn::new(base));
}

/// Asserts where there is room for `len` pages.
fn room_is(rt: &impl Abort, space: &Space, len: u32, base: Option<u32>) {
    assert_eq!(rt; space.room(len).map(Vpn::number), base);
}

/// Asserts how many mappings and how many translations there are.
fn counts(rt: &impl Abort, space: &Space, mappings: usize, entries: usize) {
    assert_eq!(rt; (space.mappings(), space.entries()), (mappings, entries));
}

/// Asserts which index of file 1 a page stands for.
fn is_found(rt: &impl Abort, space: &Space, vpn: u32, index: Option<u32>) {
    let place = index.map(|index| (File::new(1), Index::new(index)));
    assert_eq!(rt; space.find(Vpn::new(vpn)), place);
}

/// Asserts where the mapping begins that has a page.
fn base_is(rt: &impl Abort, space: &Space, vpn: u32, base: Option<u32>) {
    assert_eq!(rt; space.base_of(Vpn::new(vpn)).map(Vpn::number), base);
}

/// Asserts where the first mapping begins.
fn first_is(rt: &impl Abort, space: &Space, base: Option<u32>) {
    assert_eq!(rt; space.first().map(Vpn::number), base);
}

/// Asserts the frames of the first six pages.
fn frames_are(rt: &impl Abort, space: &Space, told: [Option<u32>; 6]) {
    assert_eq!(rt; frames(space), told);
}

/// Asserts that a copy tells the same of a page.
fn compare_page(rt: &impl Abort, copy: &Space, source: &Space, vpn: u32) {
    let vpn = Vpn::new(vpn);
    assert_eq!(rt; copy.find(vpn), source.find(vpn));
    assert_eq!(rt; copy.base_of(vpn), source.base_of(vpn));
}

/// Asserts that a copy has the same translations.
fn compare_translations(rt: &impl Abort, copy: &Space, source: &Space) {
    frames_are(rt, copy, frames(source));
    assert!(rt; copy.translations().eq(source.translations()));
}

/// Asserts that there is room in a copy for as many pages.
fn compare_room(rt: &impl Abort, copy: &Space, source: &Space, len: u32) {
    assert_eq!(rt; copy.room(len), source.room(len));
}

// What each reader of both tells of six pages, and of the room that is left, is the same.
fn compare(rt: &impl Abort, copy: &Space, source: &Space) {
    compare_translations(rt, copy, source);
    for vpn in 0..7 {
        compare_page(rt, copy, source, vpn);
    }
    counts(rt, copy, source.mappings(), source.entries());
    compare_room(rt, copy, source, 1);
    compare_room(rt, copy, source, 3);
    compare_room(rt, copy, source, LIMIT);
    assert_eq!(rt; copy.first(), source.first());
}

// A copy, of which it asserts that it has no room prepared.
fn copied(rt: &impl Abort, alloc: Global, source: &Space) -> Result<Space, AllocError> {
    let copy = source.copy(alloc)?;
    assert!(rt; !copy.ready());
    Ok(copy)
}

// A copy that tells what its source does takes its place: it has to answer the calls that come next, too.
fn copies(rt: &impl Abort, alloc: Global, space: &mut Space) -> Result<(), AllocError> {
    let copy = copied(rt, alloc, &*space)?;
    compare(rt, &copy, &*space);
    *space = copy;
    Ok(())
}

fn holds(rt: &impl Abort, alloc: Global, space: &mut Space, row: &Row) -> Result<(), AllocError> {
    match row {
        Row::Prepare => prepare(rt, space)?,
        Row::Ready(ready) => assert_eq!(rt; space.ready(), *ready),
        Row::Map(len, base) => maps(rt, space, *len, *base)?,
        Row::Room(len, base) => room_is(rt, space, *len, *base),
        Row::Counts(mappings, entries) => counts(rt, space, *mappings, *entries),
        Row::Find(vpn, index) => is_found(rt, space, *vpn, *index),
        Row::Base(vpn, base) => base_is(rt, space, *vpn, *base),
        Row::First(base) => first_is(rt, space, *base),
        Row::Touch(vpn, frame, is_new) => touches(rt, space, *vpn, *frame, *is_new)?,
        Row::Clear(file, index) => space.clear_index(File::new(*file), Index::new(*index)),
        Row::Frames(told) => frames_are(rt, space, *told),
        Row::Unmap(base) => unmap(space, *base),
        Row::Copy => copies(rt, alloc, space)?,
    }
    Ok(())
}

/// Asserts that the calls of a space answer what the rows say.
fn hold(rt: &impl Abort, alloc: Global, space: &mut Space, rows: &[Row]) -> Result<(), AllocError> {
    for row in rows {
        holds(rt, alloc, space, row)?;
    }
    Ok(())
}

/// Asserts that of a new space.
fn new_holds(rt: &impl Abort, alloc: Global, rows: &[Row]) -> Result<(), AllocError> {
    hold(rt, alloc, &mut Space::new(alloc), rows)
}

#[test]
fn a_mapping_is_found(rt: HostRuntime) -> Result<(), AllocError> {
    new_holds(
        &rt,
        rt.alloc(),
        &[
            Row::Copy,
            Row::Room(4, Some(0)),
            Row::First(None),
            Row::Ready(false),
            Row::Prepare,
            Row::Ready(true),
            Row::Map(4, Some(0)),
            Row::Ready(false),
            Row::Room(2, Some(4)),
            Row::Find(2, Some(2)),
            Row::Find(4, None),
            Row::Base(3, Some(0)),
            Row::Base(4, None),
            Row::First(Some(0)),
            Row::Counts(1, 0),
        ],
    )
}

#[test]
fn no_address_is_left(rt: HostRuntime) -> Result<(), AllocError> {
    new_holds(
        &rt,
        rt.alloc(),
        &[
            Row::Map(4096, Some(0)),
            Row::Map(4096, Some(4096)),
            Row::Map(4096, Some(8192)),
            Row::Map(4096, Some(12_288)),
            Row::Room(4096, None),
            Row::Room(1, None),
            Row::Counts(4, 0),
            Row::Find(16_383, Some(4095)),
        ],
    )
}

#[test]
fn a_page_is_translated_once(rt: HostRuntime) -> Result<(), AllocError> {
    new_holds(
        &rt,
        rt.alloc(),
        &[
            Row::Map(4, Some(0)),
            Row::Touch(2, 7, true),
            Row::Touch(0, 9, true),
            Row::Touch(3, 8, true),
            Row::Frames([Some(9), None, Some(7), Some(8), None, None]),
            Row::Touch(4, 1, false),
            Row::Touch(2, 1, false),
            Row::Counts(1, 3),
            Row::Copy,
            Row::Frames([Some(9), None, Some(7), Some(8), None, None]),
        ],
    )
}

// Two mappings of one file, from its begin on: pages 0, 1 and 2, 3, 4. Its index 1 is pages 1 and 3.
#[test]
fn an_index_is_cleared_in_each_mapping(rt: HostRuntime) -> Result<(), AllocError> {
    new_holds(
        &rt,
        rt.alloc(),
        &[
            Row::Map(2, Some(0)),
            Row::Map(3, Some(2)),
            Row::Touch(1, 7, true),
            Row::Touch(2, 6, true),
            Row::Touch(3, 7, true),
            Row::Touch(4, 5, true),
            Row::Clear(2, 1),
            Row::Clear(1, 3),
            Row::Counts(2, 4),
            Row::Clear(1, 1),
            Row::Frames([None, None, Some(6), None, Some(5), None]),
            Row::Counts(2, 2),
        ],
    )
}

// Three mappings, of two, three and one pages, side by side, and four of these pages are translated.
#[test]
fn a_mapping_goes_with_its_entries(rt: HostRuntime) -> Result<(), AllocError> {
    new_holds(
        &rt,
        rt.alloc(),
        &[
            Row::Map(2, Some(0)),
            Row::Map(3, Some(2)),
            Row::Map(1, Some(5)),
            Row::Touch(1, 7, true),
            Row::Touch(2, 6, true),
            Row::Touch(4, 5, true),
            Row::Touch(5, 4, true),
            Row::Copy,
            Row::Unmap(3),
            Row::Counts(3, 4),
            Row::Unmap(2),
            Row::Frames([None, Some(7), None, None, None, Some(4)]),
            Row::Counts(2, 2),
            Row::Room(3, Some(2)),
            Row::Room(4, Some(6)),
        ],
    )
}

// A mapping of four pages, of which three are translated.
fn three_entries(alloc: Global) -> Result<Space, AllocError> {
    let mut space = Space::new(alloc);
    enter(&mut space, 4)?;
    for (vpn, frame) in [(2, 7), (0, 9), (3, 8)] {
        touch(&mut space, vpn, frame)?;
    }
    Ok(space)
}

#[test]
fn translations_are_told_in_order(rt: HostRuntime) -> Result<(), AllocError> {
    let space = three_entries(rt.alloc())?;
    let translations = [
        (Vpn::new(0), Frame::new(9)),
        (Vpn::new(2), Frame::new(7)),
        (Vpn::new(3), Frame::new(8)),
    ];
    assert!(rt; space.translations().eq(translations));
    Ok(())
}

// Of what the source does next, nothing shows in the copy.
#[test]
fn a_copy_stays_as_it_was(rt: HostRuntime) -> Result<(), AllocError> {
    let mut source = three_entries(rt.alloc())?;
    hold(
        &rt,
        rt.alloc(),
        &mut source,
        &[Row::Map(3, Some(4)), Row::Prepare],
    )?;
    let mut copy = copied(&rt, rt.alloc(), &source)?;
    hold(
        &rt,
        rt.alloc(),
        &mut source,
        &[Row::Ready(true), Row::Unmap(0), Row::Counts(1, 0)],
    )?;
    hold(
        &rt,
        rt.alloc(),
        &mut copy,
        &[
            Row::Frames([Some(9), None, Some(7), Some(8), None, None]),
            Row::Counts(2, 3),
            Row::Base(6, Some(4)),
            Row::Room(1, Some(7)),
        ],
    )
}
