//! The kill points of each workload.
use crate::run::Run;
use hp_base::{File, Op, Task};
use hp_client::{CoreDriver, Driver, Workload, config_of, run_workload};
use hp_core::{Core, Life};
use std::alloc::Global;
use std::process::Abort;
use std::test::Fail;

/// No workload has so many events.
const MOST: usize = 200;

/// How many events the calls of some workloads are, counted from the tables: so many points there are for a kill.
const POINTS: [(&str, usize); 3] = [("readback", 20), ("shared", 36), ("counters", 52)];

/// The calls of a workload, in order, as they are made where nobody is killed.
fn calls_of(alloc: Global, workload: Workload) -> Result<Vec<(Task, Op)>, Fail> {
    let mut driver = CoreDriver::open(alloc, config_of(workload))?;
    run_workload(alloc, workload, &mut driver)?;
    let mut calls = Vec::new(alloc);
    for (task, op, _) in driver.heard() {
        calls.push((*task, *op))?;
    }
    Ok(calls)
}

/// How many of the last calls are one round.
fn last_round(workload: Workload) -> usize {
    match workload {
        Workload::AllocInstantiateRace => 2,
        _ => 1,
    }
}

/// Looks whether nothing is held and nothing owed: no call is in flight, no change in progress, no task alive, and what is
/// reserved and has no page is what the reserve count tells.
fn check_end(rt: &impl Abort, core: &Core) {
    let (config, tally) = (core.config(), core.tally());
    assert_eq!(rt; core.calls(), 0);
    assert_eq!(rt;
        u64::from(tally.resv) + u64::from(tally.pages),
        u64::from(tally.reserved)
    );
    for file in 0..config.files {
        assert_eq!(rt; core.changes(File::new(file)), 0);
    }
    for task in 0..config.tasks {
        assert_eq!(rt; core.life(Task::new(task + 1)), Life::Dead);
    }
}

/// Makes the calls with a kill at this point, ends all tasks, and tells whether the kill came.
fn is_point(
    rt: &impl Abort,
    alloc: Global,
    workload: Workload,
    calls: &[(Task, Op)],
    point: usize,
) -> Result<bool, Fail> {
    let config = config_of(workload);
    let mut run = Run::new(alloc, config, point)?;
    let (single, together) = calls.split_at(calls.len().saturating_sub(last_round(workload)));
    for call in single {
        run.round(rt, alloc, &[*call])?;
    }
    run.round(rt, alloc, together)?;
    let came = run.is_killed;
    run.exit_all(rt, alloc, config.tasks)?;
    check_end(rt, &run.core);
    Ok(came)
}

/// How many points for a kill a workload has. Each is tried.
fn points_of(rt: &impl Abort, alloc: Global, workload: Workload) -> Result<usize, Fail> {
    let calls = calls_of(alloc, workload)?;
    for point in 0..MOST {
        if !is_point(rt, alloc, workload, calls.as_slice(), point)? {
            return Ok(point);
        }
    }
    Err(Fail::from("more events than any workload has"))
}

#[test]
fn each_workload_has_its_points(rt: HostRuntime) -> Result<(), Fail> {
    for workload in Workload::ALL {
        let found = points_of(&rt, rt.alloc(), workload)?;
        match POINTS.iter().find(|(name, _)| *name == workload.name()) {
            Some((name, points)) => assert_eq!(rt; found, *points, "{name}"),
            None => assert!(rt; found > 0),
        }
    }
    Ok(())
}
