//! Calls of a map and what they answer, as rows: one loop makes and asserts them, so that a test is literals alone. The texts of the faults.
ghost use Rattle.std.specs.Prelude.{◌<◌, ◌≤◌};

use crate::texts::each_reads;
use hp_base::{Index, LIMIT};
use hp_region::{ChangeFault, DelFault, Pending, RegionMap};
use std::alloc::{AllocError, Global};
use std::process::Abort;
use std::test::Fail;

/// A call of a map, and what it has to answer.
#[derive(Drop)]
enum Row {
    /// A change of [from, to) that may take memory: how many indices are missing.
    Change(u32, u32, u32),
    /// A change of [from, to) that may take none: how many are missing, or that it is denied.
    Kept(u32, u32, Result<u32, ChangeFault>),
    /// The change that was begun last ends: how many indices are added.
    Commit(u32),
    /// The change that was begun last is given up.
    Abort,
    /// An index is removed, with memory or without.
    Remove(bool, u32, Result<u32, DelFault>),
    /// All indices from one on are removed: how many.
    Tail(u32, u32),
    /// How many indices, regions, changes in progress, and regions for which there is room.
    Tells(u32, usize, usize, usize),
    /// Where the region at a place begins and ends.
    Region(usize, Option<(u32, u32)>),
    /// How many of [from, to) are missing.
    Missing(u32, u32, u32),
    /// Whether an index is there, how many regions end at or below it, and how many looks that took.
    Seek(u32, bool, usize, u32),
    /// A copy takes its place.
    Copy,
}

fn change(map: &mut RegionMap, grant: bool, from: u32, to: u32) -> Result<Pending, ChangeFault>
    requires some { from < to }
    requires in_limit { to ≤ LIMIT }
{
    map.change(grant, Index::new(from), Index::new(to))
}

// With `--fail-alloc N` one growth is refused: the map is as before, and the next try succeeds.
fn begin(
    rt: &impl Abort,
    map: &mut RegionMap,
    grant: bool,
    from: u32,
    to: u32,
) -> Result<Pending, ChangeFault> {
    assert!(rt; from < to);
    assert!(rt; to <= LIMIT);
    let before = (map.pending(), map.spare());
    match change(map, grant, from, to) {
        Err(ChangeFault::Memory) => {
            assert_eq!(rt; (map.pending(), map.spare()), before);
            change(map, grant, from, to)
        }
        answer => answer,
    }
}

fn opens(
    rt: &impl Abort,
    map: &mut RegionMap,
    open: &mut Vec<Pending>,
    (grant, from, to): (bool, u32, u32),
    answer: Result<u32, ChangeFault>,
) -> Result<(), AllocError> {
    match begin(rt, map, grant, from, to) {
        Ok(change) => {
            assert_eq!(rt; Ok(change.missing()), answer);
            assert_eq!(rt; (change.from().number(), change.to().number()), (from, to));
            open.push(change)?;
        }
        Err(fault) => {
            assert_eq!(rt; Err(fault), answer);
        }
    }
    Ok(())
}

fn commits(rt: &impl Abort, map: &mut RegionMap, open: &mut Vec<Pending>, added: u32) {
    assert!(rt; map.pending() > 0);
    match open.pop() {
        Some(change) => assert_eq!(rt; map.commit(change), added),
        None => assert!(rt; false),
    }
}

fn aborts(rt: &impl Abort, map: &mut RegionMap, open: &mut Vec<Pending>) {
    assert!(rt; map.pending() > 0);
    match open.pop() {
        Some(change) => map.abort(change),
        None => assert!(rt; false),
    }
}

// Where the growth is refused, the map is as before, and the next try succeeds.
fn removes(
    rt: &impl Abort,
    map: &mut RegionMap,
    grant: bool,
    index: u32,
    answer: Result<u32, DelFault>,
) {
    let before = (map.count(), map.regions());
    let told = map.remove_one(grant, Index::new(index));
    if told != Err(DelFault::Memory) {
        assert_eq!(rt; told, answer);
    } else {
        assert_eq!(rt; (map.count(), map.regions()), before);
        assert_eq!(rt; map.remove_one(grant, Index::new(index)), answer);
    }
}

fn tells(
    rt: &impl Abort,
    map: &RegionMap,
    count: u32,
    regions: usize,
    pending: usize,
    spare: usize,
) {
    assert_eq!(rt; (map.count(), map.regions()), (count, regions));
    assert_eq!(rt; (map.pending(), map.spare()), (pending, spare));
}

fn region_is(rt: &impl Abort, map: &RegionMap, place: usize, region: Option<(u32, u32)>) {
    let told = map.region(place);
    assert_eq!(rt; told.map(|(from, to)| (from.number(), to.number())), region);
}

fn misses(rt: &impl Abort, map: &RegionMap, from: u32, to: u32, missing: u32) {
    assert!(rt; from <= to);
    assert!(rt; to <= LIMIT);
    assert_eq!(rt; map.missing(Index::new(from), Index::new(to)), missing);
}

fn seeks(rt: &impl Abort, map: &RegionMap, index: u32, member: bool, place: usize, looks: u32) {
    assert_eq!(rt; map.contains(Index::new(index)), member);
    assert_eq!(rt; map.seek(Index::new(index)), (place, looks));
}

// A copy of a map with no change in progress.
fn copied(rt: &impl Abort, map: &RegionMap, alloc: Global) -> Result<RegionMap, AllocError> {
    assert_eq!(rt; map.pending(), 0);
    map.copy(alloc)
}

/// Asserts that a copy tells the same numbers.
fn compare_counts(rt: &impl Abort, copy: &RegionMap, source: &RegionMap) {
    tells(
        rt,
        copy,
        source.count(),
        source.regions(),
        source.pending(),
        source.spare(),
    );
    let (from, to) = (Index::new(0), Index::new(8));
    assert_eq!(rt; copy.missing(from, to), source.missing(from, to));
}

/// Asserts that a copy tells the same of an index.
fn compare_index(rt: &impl Abort, copy: &RegionMap, source: &RegionMap, index: u32) {
    let index = Index::new(index);
    assert_eq!(rt; copy.contains(index), source.contains(index));
    assert_eq!(rt; copy.seek(index), source.seek(index));
}

/// Asserts that a copy has the same regions.
fn compare_regions(rt: &impl Abort, copy: &RegionMap, source: &RegionMap) {
    for place in 0..3 {
        assert_eq!(rt; copy.region(place), source.region(place));
    }
}

// A copy that tells what its source does takes its place: it has to answer the calls that come next, too.
fn copies(rt: &impl Abort, map: &mut RegionMap, alloc: Global) -> Result<(), AllocError> {
    let copy = copied(rt, &*map, alloc)?;
    compare_counts(rt, &copy, &*map);
    compare_regions(rt, &copy, &*map);
    for index in 0..5 {
        compare_index(rt, &copy, &*map, index);
    }
    *map = copy;
    Ok(())
}

fn holds(
    rt: &impl Abort,
    alloc: Global,
    map: &mut RegionMap,
    open: &mut Vec<Pending>,
    row: &Row,
) -> Result<(), AllocError> {
    match row {
        Row::Change(from, to, missing) => opens(rt, map, open, (true, *from, *to), Ok(*missing))?,
        Row::Kept(from, to, answer) => opens(rt, map, open, (false, *from, *to), *answer)?,
        Row::Commit(added) => commits(rt, map, open, *added),
        Row::Abort => aborts(rt, map, open),
        Row::Remove(grant, index, answer) => removes(rt, map, *grant, *index, *answer),
        Row::Tail(index, count) => assert_eq!(rt; map.remove_tail(Index::new(*index)), *count),
        Row::Tells(count, regions, pending, spare) => tells(
            rt, map, *count, *regions, *pending, *spare,
        ),
        Row::Region(place, region) => region_is(rt, map, *place, *region),
        Row::Missing(from, to, missing) => misses(rt, map, *from, *to, *missing),
        Row::Seek(index, member, place, looks) => seeks(rt, map, *index, *member, *place, *looks),
        Row::Copy => copies(rt, map, alloc)?,
    }
    Ok(())
}

/// Asserts that the calls of a new map answer what the rows say.
fn hold(rt: &impl Abort, alloc: Global, rows: &[Row]) -> Result<(), AllocError> {
    let mut map = RegionMap::new(alloc);
    let mut open = Vec::new(alloc);
    for row in rows {
        holds(rt, alloc, &mut map, &mut open, row)?;
    }
    Ok(())
}

#[test]
fn changes_overlap(rt: HostRuntime) -> Result<(), AllocError> {
    hold(
        &rt,
        rt.alloc(),
        &[
            Row::Change(0, 2, 2),
            Row::Change(1, 4, 3),
            Row::Tells(0, 0, 2, 2),
            Row::Commit(3),
            Row::Tells(3, 1, 1, 1),
            Row::Commit(1),
            Row::Tells(4, 1, 0, 1),
            Row::Region(0, Some((0, 4))),
            Row::Copy,
            Row::Kept(9, 10, Ok(1)),
            Row::Kept(11, 12, Err(ChangeFault::Denied)),
            Row::Remove(false, 2, Err(DelFault::Denied)),
            Row::Abort,
            Row::Remove(false, 2, Ok(1)),
            Row::Tells(3, 2, 0, 0),
            Row::Region(0, Some((0, 2))),
            Row::Region(1, Some((3, 4))),
            Row::Remove(false, 1, Ok(1)),
            Row::Tail(1, 1),
            Row::Region(0, Some((0, 1))),
        ],
    )
}

#[test]
fn a_region_is_split_and_loses_its_tail(rt: HostRuntime) -> Result<(), AllocError> {
    hold(
        &rt,
        rt.alloc(),
        &[
            Row::Change(0, 4, 4),
            Row::Commit(4),
            Row::Tells(4, 1, 0, 0),
            Row::Remove(true, 2, Ok(1)),
            Row::Tells(3, 2, 0, 0),
            Row::Region(0, Some((0, 2))),
            Row::Region(1, Some((3, 4))),
            Row::Region(2, None),
            Row::Missing(0, 4, 1),
            Row::Seek(2, false, 1, 2),
            Row::Copy,
            Row::Remove(false, 1, Ok(1)),
            Row::Tail(1, 1),
            Row::Region(0, Some((0, 1))),
            Row::Tells(1, 1, 0, 0),
            Row::Seek(0, true, 0, 1),
            Row::Seek(1, false, 1, 1),
        ],
    )
}

// The indices 0 to 3 are reserved, by two changes that overlap: so there is one region, and a spare descriptor.
fn four_reserved(alloc: Global) -> Result<RegionMap, ChangeFault> {
    let mut map = RegionMap::new(alloc);
    let first = map.change(true, Index::new(0), Index::new(2))?;
    let second = map.change(true, Index::new(1), Index::new(4))?;
    map.commit(second);
    map.commit(first);
    Ok(map)
}

#[test]
fn a_copy_goes_on_apart(rt: HostRuntime) -> Result<(), Fail> {
    let mut source = four_reserved(rt.alloc())?;
    let mut copy = copied(&rt, &source, rt.alloc())?;
    copy.remove_one(false, Index::new(2))?;
    source.remove_tail(Index::new(1));
    tells(&rt, &copy, 3, 2, 0, 0);
    tells(&rt, &source, 1, 1, 0, 1);
    Ok(())
}

#[test]
fn faults_of_changes_are_told(rt: HostRuntime) -> Result<(), AllocError> {
    each_reads(
        &rt,
        rt.alloc(),
        &[
            (
                ChangeFault::Denied,
                "room for a region is wanted and was not granted",
            ),
            (ChangeFault::Memory, "no memory for a region"),
        ],
    )
}

#[test]
fn faults_of_removals_are_told(rt: HostRuntime) -> Result<(), AllocError> {
    each_reads(
        &rt,
        rt.alloc(),
        &[
            (
                DelFault::Denied,
                "room to split a region is wanted and was not granted",
            ),
            (DelFault::Memory, "no memory to split a region"),
        ],
    )
}
