//! A pool's limits, and the words of headers, events and answers.
use crate::texts::{each_reads, reads};
use hp_base::{Answer, Config, Event, Fault, File, Frame, Index, Op, Task, Vpn};
use std::alloc::{AllocError, Global};
use std::process::Abort;
use std::test::Fail;

/// Asserts that no pool has these sizes.
fn is_refused(rt: &impl Abort, frames: u32, files: u32, slots: u32, tasks: u32) {
    assert_eq!(rt;
        Config::new(frames, files, slots, tasks),
        Err(Fault::BadConfig)
    );
}

#[test]
fn limits_of_a_pool(rt: HostRuntime) -> Result<(), Fail> {
    let most = Config::new(4096, 16, 64, 64)?;
    assert_eq!(rt; most.frames, 4096);
    is_refused(&rt, 4097, 16, 64, 64);
    is_refused(&rt, 1, 0, 1, 1);
    reads(
        &rt,
        rt.alloc(),
        &Fault::BadConfig,
        "a pool has 1..=4096 frames, 1..=16 files, 1..=64 slots and 1..=64 tasks, and a quota of at most 65536 pages",
    )?;
    Ok(())
}

#[test]
fn limits_of_a_quota(rt: HostRuntime) -> Result<(), Fault> {
    let config = Config::new(4, 1, 4, 1)?;
    assert_eq!(rt; config.quota, None);
    assert_eq!(rt; config.with_quota(65_536)?.quota, Some(65_536));
    assert_eq!(rt; config.with_quota(65_537), Err(Fault::BadConfig));
    Ok(())
}

#[test]
fn words_of_a_header(rt: HostRuntime) -> Result<(), Fail> {
    reads(&rt, rt.alloc(), &Config::new(4, 1, 4, 2)?, "pool 4 1 4 2")?;
    reads(
        &rt,
        rt.alloc(),
        &Config::new(4096, 16, 63, 64)?,
        "pool 4096 16 63 64",
    )?;
    Ok(())
}

#[test]
fn words_of_a_header_with_a_quota(rt: HostRuntime) -> Result<(), Fail> {
    for (quota, text) in [(0, "pool 4 1 4 1 0"), (65_536, "pool 4 1 4 1 65536")] {
        let config = Config::new(4, 1, 4, 1)?.with_quota(quota)?;
        reads(&rt, rt.alloc(), &config, text)?;
    }
    Ok(())
}

/// Asserts that the words of an operation are this one and then the rest.
fn begins(
    rt: &impl Abort,
    alloc: Global,
    op: Op,
    word: &str,
    rest: &str,
) -> Result<(), AllocError> {
    let text = format!(in alloc; "{op}")?;
    assert_eq!(rt; text.as_str().strip_prefix(word), Some(rest));
    Ok(())
}

/// Asserts the words of operations on a range, which is told by the rest.
fn ranges_read(
    rt: &impl Abort,
    alloc: Global,
    [file, from, len]: [u32; 3],
    rest: &str,
) -> Result<(), AllocError> {
    let (file, from) = (File::new(file), Index::new(from));
    begins(rt, alloc, Op::Map { file, from, len }, "map ", rest)?;
    begins(
        rt,
        alloc,
        Op::MapNoReserve { file, from, len },
        "mapn ",
        rest,
    )?;
    begins(rt, alloc, Op::Punch { file, from, len }, "punch ", rest)
}

#[test]
fn words_of_ranges(rt: HostRuntime) -> Result<(), AllocError> {
    ranges_read(&rt, rt.alloc(), [0, 4095, 1], "0 4095 1")?;
    ranges_read(&rt, rt.alloc(), [12, 3, 20], "12 3 20")
}

/// Asserts the words of an allocation of a range, which is told by the rest.
fn allocation_reads(
    rt: &impl Abort,
    alloc: Global,
    [file, from, len]: [u32; 3],
    rest: &str,
    (keep, word): (bool, &str),
) -> Result<(), AllocError> {
    let op = Op::Alloc {
        file: File::new(file),
        from: Index::new(from),
        len,
        keep,
    };
    begins(rt, alloc, op, word, rest)
}

#[test]
fn words_of_allocations(rt: HostRuntime) -> Result<(), AllocError> {
    for kind in [(false, "alloc "), (true, "allock ")] {
        allocation_reads(&rt, rt.alloc(), [0, 4095, 1], "0 4095 1", kind)?;
        allocation_reads(&rt, rt.alloc(), [12, 3, 20], "12 3 20", kind)?;
    }
    Ok(())
}

#[test]
fn words_of_other_operations(rt: HostRuntime) -> Result<(), AllocError> {
    let (low, high) = (Vpn::new(7), Vpn::new(16_383));
    let word = u64::MAX;
    let file = File::new(15);
    each_reads(
        &rt,
        rt.alloc(),
        &[
            (Op::Unmap { base: low }, "unmap 7"),
            (Op::Unmap { base: high }, "unmap 16383"),
            (Op::Load { vpn: low }, "load 7"),
            (Op::Load { vpn: high }, "load 16383"),
            (Op::Store { vpn: low, word: 0 }, "store 7 0"),
            (
                Op::Store { vpn: high, word },
                "store 16383 18446744073709551615",
            ),
            (Op::Truncate { file, new: 0 }, "trunc 15 0"),
            (
                Op::Truncate {
                    file: File::new(2),
                    new: 4096,
                },
                "trunc 2 4096",
            ),
            (Op::Exit, "exit"),
        ],
    )
}

#[test]
fn words_of_events(rt: HostRuntime) -> Result<(), AllocError> {
    let (one, many) = (Task::new(1), Task::new(4_294_967_295));
    each_reads(
        &rt,
        rt.alloc(),
        &[
            (Event::Begin(one, Op::Exit), "begin 1 exit"),
            (Event::Begin(many, Op::Exit), "begin 4294967295 exit"),
            (Event::Step(one, true), "step 1"),
            (Event::Step(many, true), "step 4294967295"),
            (Event::Step(one, false), "deny 1"),
            (Event::Step(many, false), "deny 4294967295"),
            (Event::Kill(one), "kill 1"),
            (Event::Kill(many), "kill 4294967295"),
            (Event::Resize(0), "resize 0"),
            (Event::Resize(4_294_967_295), "resize 4294967295"),
        ],
    )
}

#[test]
fn words_of_an_answer(rt: HostRuntime) -> Result<(), AllocError> {
    each_reads(
        &rt,
        rt.alloc(),
        &[
            (Answer::Mapped(Vpn::new(0)), "mapped 0"),
            (Answer::Mapped(Vpn::new(4096)), "mapped 4096"),
            (Answer::Word(0), "word 0"),
            (Answer::Word(u64::MAX), "word 18446744073709551615"),
            (Answer::NoFrame, "noframe"),
            (Answer::NoQuota, "noquota"),
        ],
    )
}

#[test]
fn words_of_numbers(rt: HostRuntime) -> Result<(), AllocError> {
    for (number, text) in [(7, "7"), (4095, "4095")] {
        reads(&rt, rt.alloc(), &Frame::new(number), text)?;
        assert_eq!(rt; Frame::new(number).number(), number);
        reads(&rt, rt.alloc(), &File::new(number), text)?;
        reads(&rt, rt.alloc(), &Task::new(number), text)?;
    }
    Ok(())
}

#[test]
fn places_of_tasks(rt: HostRuntime) {
    for (number, place) in [(1, 0), (2, 1), (64, 63)] {
        assert_eq!(rt; Task::new(number).place(), place);
    }
}

#[test]
fn words_of_page_numbers(rt: HostRuntime) -> Result<(), AllocError> {
    for (number, text) in [(7, "7"), (4095, "4095")] {
        reads(&rt, rt.alloc(), &Index::new(number), text)?;
        reads(&rt, rt.alloc(), &Vpn::new(number), text)?;
    }
    Ok(())
}
