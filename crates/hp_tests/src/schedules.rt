//! Explored runs of scripts: the lines that the tables tell of some, and that each is as it is alone. What the program makes of
//! scripts stands in `examples/`.
use crate::sample_texts::SCRIPT;
use hp_explore::{
    Audit, Chances, Exploration, Finish, RunLine, explore, explore_hostile, write_explored,
};
use hp_replay::{ReplayFault, Script, Watched, read_script};
use std::alloc::Global;
use std::process::Abort;
use std::test::Fail;
use std::thread::Threads;

const MAP: &[u8] = b"pool 4 1 4 1\nbegin 1 map 0 0 4\n";

const STORES: &[u8] =
    b"pool 3 1 4 2\nbegin 1 mapn 0 0 2\nbegin 2 map 0 0 2\nbegin 1 store 0 5\nbegin 2 store 1 6\n\
    begin 1 load 1\nbegin 2 load 0\nbegin 1 unmap 0\nbegin 2 exit\nbegin 1 exit\n";

fn line(run: u32, turns: u32, free: u32, resv: u32) -> RunLine {
    RunLine {
        run,
        finish: Finish::Finished,
        turns,
        free,
        resv,
    }
}

fn script_of(alloc: Global, mut text: &[u8]) -> Result<Script, ReplayFault> {
    read_script(alloc, &mut text)
}

// What is explored or written, without what the contracts promise of it: the tests ask for the lines alone.

/// Some runs from seed 1.
fn explored(
    rt: &(impl Threads + Sync),
    alloc: Global,
    script: &Script,
    runs: u32,
    deny: u32,
) -> Result<Vec<RunLine>, ReplayFault> {
    explore(rt, alloc, script, 1, runs, deny)
}

/// Some runs, with kills.
fn explored_with_kills(
    rt: &(impl Threads + Sync),
    alloc: Global,
    script: &Script,
    seed: u64,
    runs: u32,
    chances: Chances,
) -> Result<Vec<RunLine>, ReplayFault> {
    explore_hostile(rt, alloc, script, seed, runs, chances.deny, chances.kill)
}

/// Asserts that these are the lines.
fn are(rt: &impl Abort, lines: &[RunLine], told: &[RunLine]) {
    assert_eq!(rt; lines, told);
}

#[test]
fn explored_map(rt: HostRuntime) -> Result<(), Fail> {
    let script = script_of(rt.alloc(), MAP)?;
    let lines = explored(&rt, rt.alloc(), &script, 2, 0)?;
    are(&rt, lines.as_slice(), &[line(0, 8, 4, 4), line(1, 8, 4, 4)]);
    let denied = explored(&rt, rt.alloc(), &script, 1, 1000)?;
    are(&rt, denied.as_slice(), &[line(0, 4, 4, 0)]);
    Ok(())
}

#[test]
fn explored_kill(rt: HostRuntime) -> Result<(), Fail> {
    let script = script_of(rt.alloc(), SCRIPT)?;
    let chances = Chances {
        deny: 0,
        kill: 1000,
    };
    let lines = explored_with_kills(&rt, rt.alloc(), &script, 1, 1, chances)?;
    are(&rt, lines.as_slice(), &[line(0, 5, 4, 0)]);
    Ok(())
}

/// Asserts that each of the scripts has its fault.
fn have_faults(rt: &impl Abort, alloc: Global, scripts: &[(&[u8], ReplayFault)]) {
    for (text, fault) in scripts {
        assert_eq!(rt; script_of(alloc, text).err(), Some(*fault));
    }
}

#[test]
fn other_lines_are_bad(rt: HostRuntime) {
    have_faults(
        &rt,
        rt.alloc(),
        &[
            (&b""[..], ReplayFault::BadHeader),
            (b"pool 4 1 4 1\nstep 1\n", ReplayFault::BadLine(2)),
            (
                b"pool 4 1 4 1\nbegin 1 exit\nkill 1\nbegin 1\n",
                ReplayFault::BadLine(3),
            ),
            (
                b"pool 4 1 4 1\nbegin 1 exit\nresize 2\n",
                ReplayFault::BadLine(3),
            ),
            (b"pool 4 1 4 1\nbegin 1 exit", ReplayFault::BadLine(2)),
        ],
    );
}

/// Of a thousand turns some are denied, and some are kills.
const CHANCES: Chances = Chances {
    deny: 100,
    kill: 20,
};

/// Of many runs at once each line is the one that the run has alone, with its own seed, but for its number.
fn are_as_alone(
    rt: &(impl Threads + Sync),
    alloc: Global,
    script: &Script,
    seed: u64,
    lines: &[RunLine],
) -> Result<bool, ReplayFault> {
    let mut same = true;
    for whole in lines {
        let own = seed.wrapping_add(u64::from(whole.run));
        let alone = explored_with_kills(rt, alloc, script, own, 1, CHANCES)?;
        if let [first] = alone.as_slice() {
            let numbered = RunLine {
                run: whole.run,
                ..*first
            };
            same = same && numbered == *whole;
        } else {
            same = false;
        }
    }
    Ok(same)
}

/// Asserts that there are so many runs of the stores from this seed, and that each is as it is alone.
fn stores_are_as_alone(
    rt: &(impl Threads + Sync + Abort),
    alloc: Global,
    seed: u64,
    runs: u32,
) -> Result<(), ReplayFault> {
    let script = script_of(alloc, STORES)?;
    let lines = explored_with_kills(rt, alloc, &script, seed, runs, CHANCES)?;
    assert_eq!(rt; lines.len(), runs as usize);
    assert!(rt; are_as_alone(rt, alloc, &script, seed, lines.as_slice())?);
    Ok(())
}

#[test]
fn many_runs_are_as_alone(rt: HostRuntime) -> Result<(), Fail> {
    stores_are_as_alone(&rt, rt.alloc(), 7, 4096)?;
    Ok(())
}

#[test]
fn seeds_wrap(rt: HostRuntime) -> Result<(), Fail> {
    stores_are_as_alone(&rt, rt.alloc(), u64::MAX - 1, 4)?;
    Ok(())
}

fn write_explored_to(
    rt: &(impl Threads + Sync),
    alloc: Global,
    script: &Script,
    exploration: Exploration,
    out: &mut Vec<u8>,
) -> Result<bool, ReplayFault> {
    write_explored(rt, alloc, script, exploration, &mut Watched::new(out))
}

/// Asserts that all 700 runs of the map from seed 1 finish, and that the last line is this.
fn ends_with(
    rt: &(impl Threads + Sync + Abort),
    alloc: Global,
    audit: Audit,
    told: &[u8],
) -> Result<(), ReplayFault> {
    let script = script_of(alloc, MAP)?;
    let exploration = Exploration {
        seed: 1,
        runs: 700,
        chances: Chances { deny: 0, kill: 0 },
        audit,
    };
    let mut out = Vec::new(alloc);
    assert!(rt; write_explored_to(rt, alloc, &script, exploration, &mut out)?);
    assert!(rt; out.ends_with(told));
    Ok(())
}

#[test]
fn lines_come_in_parts(rt: HostRuntime) -> Result<(), Fail> {
    let told = b"\nrun 699 finished turns 8 free 4 resv 4\n";
    for audit in [Audit::LeftOut, Audit::EachTurn] {
        ends_with(&rt, rt.alloc(), audit, told)?;
    }
    Ok(())
}
