//! Client calls and workloads over a core: what no clause says, and some words of what clauses say.
use crate::byte_call::ByteCall;
use crate::byte_call::ByteCall::{Fallocate, FreeHugePages, Ftruncate, GetHugePages, Load, Store};
use crate::numbers::tally;
use hp_base::{Answer, Config, File, Index, Op, Task, Vpn};
use hp_client::bytes::gethugepagesize;
use hp_client::{
    ClientFault, CoreDriver, Driver, Workload, config_of, run_workload, workload_named,
};
use hp_core::Refusal;
use std::alloc::Global;
use std::process::Abort;
use std::test::Fail;

/// The workloads' names, with how many calls each has.
const CALLS: [(&str, u32); 11] = [
    ("readback", 3),
    ("shared", 6),
    ("truncate", 4),
    ("alloc-instantiate-race", 4),
    ("chunk-overcommit", 4),
    ("noresv-preserve-resv-page", 5),
    ("noresv-regarded-as-resv", 5),
    ("truncate_reserve_wraparound", 5),
    ("fallocate_basic", 5),
    ("fallocate_align", 3),
    ("counters", 6),
];

fn map_no_reserve(len: u32) -> Op {
    Op::MapNoReserve {
        file: File::new(0),
        from: Index::new(0),
        len,
    }
}

/// Asserts that the workload has so many calls, each of which is answered as it has to be.
fn is_ok(rt: &impl Abort, alloc: Global, workload: Workload, calls: u32) -> Result<(), Fail> {
    let mut driver = CoreDriver::open(alloc, config_of(workload))?;
    let report = run_workload(alloc, workload, &mut driver)?;
    assert_eq!(rt; (report.bad, report.calls), (None, calls));
    assert_eq!(rt; report.tally, driver.tally());
    Ok(())
}

#[test]
fn each_workload_is_ok(rt: HostRuntime) -> Result<(), Fail> {
    for (name, calls) in CALLS {
        let workload = workload_named(name).ok_or("a workload of that name")?;
        is_ok(&rt, rt.alloc(), workload, calls)?;
    }
    assert_eq!(rt; workload_named("nothing"), None);
    assert_eq!(rt; Workload::ALL.len(), CALLS.len());
    Ok(())
}

#[test]
fn another_tally_is_bad(rt: HostRuntime) -> Result<(), Fail> {
    let mut large = CoreDriver::open(rt.alloc(), Config::new(5, 1, 4, 1)?)?;
    let report = run_workload(rt.alloc(), Workload::Readback, &mut large)?;
    assert_eq!(rt; report.bad, Some(4));
    Ok(())
}

#[test]
fn another_answer_is_bad(rt: HostRuntime) -> Result<(), Fail> {
    let mut mapped = CoreDriver::open(rt.alloc(), Config::new(4, 1, 4, 1)?)?;
    mapped.call(rt.alloc(), Task::new(1), map_no_reserve(1))?;
    let report = run_workload(rt.alloc(), Workload::Readback, &mut mapped)?;
    assert_eq!(rt; report.bad, Some(1));
    Ok(())
}

#[test]
fn a_workload_without_its_second_task_is_refused(rt: HostRuntime) -> Result<(), Fail> {
    let alloc = rt.alloc();
    let mut driver = CoreDriver::open(alloc, Config::new(4, 1, 4, 1)?)?;
    let told = run_workload(alloc, Workload::Shared, &mut driver);
    assert!(rt; matches!(told, Err(ClientFault::Refused(Refusal::NotAlive))));
    assert_eq!(rt; driver.heard().len(), 1);
    Ok(())
}

/// Makes a call, which has to be told in these words.
fn make(
    rt: &impl Abort,
    alloc: Global,
    driver: &mut CoreDriver,
    call: &ByteCall,
    wanted: &str,
) -> Result<(), Fail> {
    let told = call.told(driver, alloc)?;
    assert_eq!(rt; told.as_str(), wanted, "{call:?}");
    Ok(())
}

/// Makes the calls, each of which has to be told in the words beside it.
fn make_all(
    rt: &impl Abort,
    alloc: Global,
    driver: &mut CoreDriver,
    calls: &[(ByteCall, &str)],
) -> Result<(), Fail> {
    for (call, wanted) in calls {
        make(rt, alloc, driver, call, wanted)?;
    }
    Ok(())
}

/// A file that is mapped, and then allocated by a byte of its first page.
const UP_TO_THE_PAGE: [(ByteCall, &str); 6] = [
    (GetHugePages(0, 2_097_152), "mapped 0"),
    (Ftruncate(2_097_153), "not a multiple of the page size"),
    (Fallocate(2, 0, 1), "not supported"),
    (Fallocate(4, 0, 1), "not supported"),
    (Fallocate(0, 0, 0), "badrange"),
    (Fallocate(0, 1, 1), "done"),
];

/// The punch has no whole page.
const FROM_THE_PAGE_ON: [(ByteCall, &str); 6] = [
    (Fallocate(3, 1, 2_097_152), "done"),
    (Store(5, 8), "done"),
    (Load(2_097_151), "word 8"),
    (Load(2_097_152), "segv"),
    (FreeHugePages(0), "done"),
    (Ftruncate(0), "done"),
];

#[test]
fn client_calls(rt: HostRuntime) -> Result<(), Fail> {
    let alloc = rt.alloc();
    let mut driver = CoreDriver::open(alloc, Config::new(4, 1, 4, 1)?)?;
    assert_eq!(rt; gethugepagesize(), 2_097_152);
    make_all(&rt, alloc, &mut driver, &UP_TO_THE_PAGE)?;
    assert_eq!(rt; driver.tally(), tally(3, 0, 1, 1));
    make_all(&rt, alloc, &mut driver, &FROM_THE_PAGE_ON)?;
    assert_eq!(rt; driver.tally(), tally(4, 0, 0, 0));
    assert_eq!(rt; driver.finish(alloc), Ok(()));
    assert_eq!(rt; driver.heard().len(), 7);
    Ok(())
}

/// Nothing wraps: an end above 2^64 is no small end. None of these is a call of the pool.
const BEYOND_ALL: [(ByteCall, &str); 9] = [
    (
        GetHugePages(18_446_744_073_707_454_464, 2_097_152),
        "badrange",
    ),
    (Fallocate(0, u64::MAX, u64::MAX), "badrange"),
    (Fallocate(3, 2, u64::MAX), "badrange"),
    (Ftruncate(18_446_744_073_707_454_464), "badrange"),
    (Ftruncate(u64::MAX), "not a multiple of the page size"),
    (Load(34_359_738_368), "segv"),
    (Store(u64::MAX, 1), "segv"),
    (FreeHugePages(34_359_738_368), "notmapped"),
    (Fallocate(u32::MAX, 0, 1), "not supported"),
];

#[test]
fn ends_of_the_space_and_of_numbers(rt: HostRuntime) -> Result<(), Fail> {
    let mut driver = CoreDriver::open(rt.alloc(), Config::new(1, 1, 1, 1)?)?;
    make_all(&rt, rt.alloc(), &mut driver, &BEYOND_ALL)?;
    assert!(rt; driver.heard().is_empty());
    Ok(())
}

/// The answers come in the order of the calls, and no call at all is a round too.
#[test]
fn calls_of_a_round_take_turns(rt: HostRuntime) -> Result<(), Fail> {
    let alloc = rt.alloc();
    let mut driver = CoreDriver::open(alloc, Config::new(1, 1, 4, 2)?)?;
    let maps = [
        (Task::new(2), map_no_reserve(1)),
        (Task::new(1), map_no_reserve(1)),
    ];
    let told = driver.round(alloc, &maps)?;
    assert_eq!(rt;
        told.as_slice(),
        [Answer::Mapped(Vpn::new(0)); 2].as_slice()
    );
    assert_eq!(rt; driver.heard()[0].0, Task::new(2));
    assert!(rt; driver.round(alloc, &[])?.is_empty());
    Ok(())
}

#[test]
fn texts_of_client_faults(rt: HostRuntime) -> Result<(), Fail> {
    let texts = [
        (ClientFault::Unaligned, "not a multiple of the page size"),
        (ClientFault::NotSupported, "not supported"),
        (ClientFault::Memory, "out of memory"),
        (ClientFault::Refused(Refusal::Idle), "refused"),
        (ClientFault::Stuck, "stuck"),
    ];
    for (fault, text) in texts {
        assert_eq!(rt; format!(in rt.alloc(); "{fault}")?.as_str(), text);
    }
    Ok(())
}
