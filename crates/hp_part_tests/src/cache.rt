//! Pages that come and go, in files of all sizes, with ample memory and with a growth refused.
ghost use Rattle.std.specs.Prelude.{◌<◌};

use hp_base::{Frame, Index, LIMIT};
use hp_chunks::PageCache;
use std::alloc::{AllocError, Global};
use std::process::Abort;

/// Asserts which frame an index has.
fn has(rt: &impl Abort, cache: &PageCache, index: u32, frame: Option<u32>) {
    assert_eq!(rt; cache.get(Index::new(index)).map(Frame::number), frame);
}

/// Asserts where the pages end, and how many there are.
fn ends(rt: &impl Abort, cache: &PageCache, top: u32, count: u32) {
    assert_eq!(rt; (cache.top(), cache.count()), (top, count));
}

/// Asserts that an index has no page, and puts one there.
fn place(rt: &impl Abort, cache: &mut PageCache, index: u32, frame: u32) -> Result<(), AllocError>
    requires { index < LIMIT }
{
    let index = Index::new(index);
    assert_eq!(rt; cache.get(index), None);
    cache.place(index, Frame::new(frame))
}

/// Asserts that an index has that frame, and that it is told when the page goes.
fn evict(rt: &impl Abort, cache: &mut PageCache, index: u32, frame: u32) {
    let (index, frame) = (Index::new(index), Frame::new(frame));
    assert_eq!(rt; cache.get(index), Some(frame));
    assert_eq!(rt; cache.evict(index), frame);
}

// Index 3 has frame 7, and index 1, which came later, frame 9.
fn two_pages(rt: &impl Abort, alloc: Global) -> Result<PageCache, AllocError> {
    let mut cache = PageCache::new(alloc);
    place(rt, &mut cache, 3, 7)?;
    place(rt, &mut cache, 1, 9)?;
    Ok(cache)
}

/// Asserts which pages are told.
fn tells(
    rt: &impl Abort,
    alloc: Global,
    cache: &PageCache,
    pages: &[(Index, Frame)],
) -> Result<(), AllocError> {
    assert_eq!(rt; cache.pages(alloc)?.as_slice(), pages);
    Ok(())
}

#[test]
fn pages_are_told_in_order(rt: HostRuntime) -> Result<(), AllocError> {
    let cache = two_pages(&rt, rt.alloc())?;
    let pages = [
        (Index::new(1), Frame::new(9)),
        (Index::new(3), Frame::new(7)),
    ];
    tells(&rt, rt.alloc(), &cache, &pages)
}

/// A call of a cache, and what it has to answer.
#[derive(Drop)]
enum Row {
    /// An index without a page gets one, in a frame.
    Place(u32, u32),
    /// The page of an index goes, whose frame is told.
    Evict(u32, u32),
    /// The frame of an index.
    Has(u32, Option<u32>),
    /// Where the pages end, and how many there are.
    Ends(u32, u32),
}

// With `--fail-alloc N` one growth is refused: no page is there, and the next try succeeds.
fn places(
    rt: &impl Abort,
    cache: &mut PageCache,
    index: u32,
    frame: u32,
) -> Result<(), AllocError> {
    assert!(rt; index < LIMIT);
    let before = (cache.top(), cache.count());
    if place(rt, cache, index, frame).is_err() {
        has(rt, cache, index, None);
        assert_eq!(rt; (cache.top(), cache.count()), before);
        place(rt, cache, index, frame)?;
    }
    Ok(())
}

fn holds(rt: &impl Abort, cache: &mut PageCache, row: &Row) -> Result<(), AllocError> {
    match row {
        Row::Place(index, frame) => places(rt, cache, *index, *frame)?,
        Row::Evict(index, frame) => evict(rt, cache, *index, *frame),
        Row::Has(index, frame) => has(rt, cache, *index, *frame),
        Row::Ends(top, count) => ends(rt, cache, *top, *count),
    }
    Ok(())
}

/// Asserts that the calls of a new cache answer what the rows say.
fn hold(rt: &impl Abort, alloc: Global, rows: &[Row]) -> Result<(), AllocError> {
    let mut cache = PageCache::new(alloc);
    for row in rows {
        holds(rt, &mut cache, row)?;
    }
    Ok(())
}

#[test]
fn pages_come_and_go(rt: HostRuntime) -> Result<(), AllocError> {
    hold(
        &rt,
        rt.alloc(),
        &[
            Row::Ends(0, 0),
            Row::Place(3, 7),
            Row::Has(3, Some(7)),
            Row::Has(1, None),
            Row::Ends(4, 1),
            Row::Place(1, 9),
            Row::Has(3, Some(7)),
            Row::Ends(4, 2),
            Row::Evict(3, 7),
            Row::Has(1, Some(9)),
            Row::Ends(2, 1),
            Row::Evict(1, 9),
            Row::Ends(0, 0),
        ],
    )
}

// Index i of a whole file has frame 4,096 - i.
fn whole_file(rt: &impl Abort, alloc: Global) -> Result<PageCache, AllocError> {
    let mut cache = PageCache::new(alloc);
    for number in 0..LIMIT {
        place(rt, &mut cache, number, LIMIT - number)?;
    }
    Ok(cache)
}

#[test]
fn a_whole_file_comes_and_goes(rt: HostRuntime) -> Result<(), AllocError> {
    let mut cache = whole_file(&rt, rt.alloc())?;
    ends(&rt, &cache, LIMIT, LIMIT);

    // Each index comes once, since 1,001 and 4,096 have no divisor in common.
    for turn in 0..LIMIT {
        let number = turn * 1_001 % LIMIT;
        evict(&rt, &mut cache, number, LIMIT - number);
        has(&rt, &cache, number, None);
        assert_eq!(rt; cache.count(), LIMIT - turn - 1);
    }
    assert_eq!(rt; cache.top(), 0);
    Ok(())
}

/// Asserts that a copy tells what its source does.
fn compare_with_copy(rt: &impl Abort, alloc: Global, source: &PageCache) -> Result<(), AllocError> {
    let copy = source.copy(alloc)?;
    ends(rt, &copy, source.top(), source.count());
    tells(rt, alloc, &copy, source.pages(alloc)?.as_slice())
}

#[test]
fn a_copy_is_compared_with_its_source(rt: HostRuntime) -> Result<(), AllocError> {
    compare_with_copy(&rt, rt.alloc(), &two_pages(&rt, rt.alloc())?)?;
    compare_with_copy(&rt, rt.alloc(), &whole_file(&rt, rt.alloc())?)
}

#[test]
fn a_copy_stays_as_it_was(rt: HostRuntime) -> Result<(), AllocError> {
    let mut source = two_pages(&rt, rt.alloc())?;
    let copy = source.copy(rt.alloc())?;
    evict(&rt, &mut source, 3, 7);
    ends(&rt, &source, 2, 1);
    has(&rt, &copy, 3, Some(7));
    ends(&rt, &copy, 4, 2);
    Ok(())
}
