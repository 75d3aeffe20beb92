//! That different values are unequal: an equality that always holds would empty each `assert_eq!`.
use hp_base::{Answer, Task, Vpn};
use hp_core::{Life, Outcome, Phase, Refusal, RunFault, Tally};
use hp_part_tests::differing::all_differ;
use hp_phases::{PHASES, phase_at};
use hp_replay::ReplayFault;
use std::test::Fail;

#[test]
fn phases_differ(rt: HostRuntime) -> Result<(), Fail> {
    let mut phases = Vec::new(rt.alloc());
    for place in 0..PHASES {
        phases.push(phase_at(place))?;
    }
    assert!(rt; all_differ(phases.as_slice()));
    Ok(())
}

#[test]
fn outcomes_differ(rt: HostRuntime) {
    let outcomes = [
        Outcome::Begun,
        Outcome::Moved(Phase::Start),
        Outcome::Moved(Phase::Drop),
        Outcome::Blocked(Task::new(1)),
        Outcome::Blocked(Task::new(2)),
        Outcome::Ended(Answer::Done),
        Outcome::Ended(Answer::Mapped(Vpn::new(0))),
        Outcome::Ended(Answer::Mapped(Vpn::new(1))),
        Outcome::Ended(Answer::Word(0)),
        Outcome::Marked,
        Outcome::Resized(1),
        Outcome::Resized(2),
        Outcome::Refused(Refusal::NotAlive),
        Outcome::Refused(Refusal::InCall),
        Outcome::Refused(Refusal::Idle),
        Outcome::Refused(Refusal::BadSize),
    ];
    assert!(rt; all_differ(&outcomes));
}

#[test]
fn lives_and_refusals_differ(rt: HostRuntime) {
    assert!(rt; all_differ(&[Life::Alive, Life::Killed, Life::Dead]));
    assert!(rt;
        all_differ(&[
            Refusal::NotAlive,
            Refusal::InCall,
            Refusal::Idle,
            Refusal::BadSize,
        ])
    );
}

#[test]
fn faults_differ(rt: HostRuntime) {
    let faults = [
        ReplayFault::BadHeader,
        ReplayFault::BadLine(2),
        ReplayFault::BadLine(3),
        ReplayFault::Read,
        ReplayFault::Write,
        ReplayFault::Memory,
    ];
    assert!(rt; all_differ(&faults));
    assert!(rt; all_differ(&[RunFault { done: 0 }, RunFault { done: 1 }]));
}

// A tally by its four numbers.
fn tally([free, resv, reserved, pages]: [u32; 4]) -> Tally {
    Tally {
        free,
        resv,
        reserved,
        pages,
    }
}

#[test]
fn tallies_differ(rt: HostRuntime) {
    let numbers = [
        [0, 0, 0, 0],
        [1, 0, 0, 0],
        [0, 1, 0, 0],
        [0, 0, 1, 0],
        [0, 0, 0, 1],
    ];
    assert!(rt; all_differ(&numbers.map(tally)));
}
