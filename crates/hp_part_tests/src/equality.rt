//! That different values are unequal: an equality that always holds would empty each `assert_eq!`.
use crate::differing::all_differ;
use hp_audit::Finding;
use hp_base::{Answer, Config, Event, Fault, File, Frame, Index, Mapping, Op, Task, Vpn};
use hp_frames::Fault as BankFault;
use hp_region::{ChangeFault, DelFault};
use hp_slots::Fault as SlotFault;
use std::process::Abort;

#[test]
fn numbers_differ(rt: HostRuntime) {
    assert!(rt; all_differ(&[Frame::new(0), Frame::new(1), Frame::new(256)]));
    assert!(rt; all_differ(&[File::new(0), File::new(1), File::new(256)]));
    assert!(rt; all_differ(&[Task::new(0), Task::new(1), Task::new(256)]));
    assert!(rt; all_differ(&[Index::new(0), Index::new(1), Index::new(256)]));
    assert!(rt; all_differ(&[Vpn::new(0), Vpn::new(1), Vpn::new(256)]));
}

#[test]
fn answers_differ(rt: HostRuntime) {
    let answers = [
        Answer::Mapped(Vpn::new(0)),
        Answer::Mapped(Vpn::new(1)),
        Answer::Word(0),
        Answer::Word(1),
        Answer::Done,
        Answer::Segv,
        Answer::Beyond,
        Answer::NoFrame,
        Answer::NoQuota,
        Answer::NoMemory,
        Answer::Interrupted,
        Answer::Killed,
        Answer::BadFile,
        Answer::BadRange,
        Answer::NotMapped,
        Answer::NoAddress,
    ];
    assert!(rt; all_differ(&answers));
}

#[test]
fn configs_differ(rt: HostRuntime) -> Result<(), Fault> {
    let configs = [
        Config::new(1, 1, 1, 1)?,
        Config::new(2, 1, 1, 1)?,
        Config::new(1, 2, 1, 1)?,
        Config::new(1, 1, 2, 1)?,
        Config::new(1, 1, 1, 2)?,
        Config::new(1, 1, 1, 1)?.with_quota(0)?,
        Config::new(1, 1, 1, 1)?.with_quota(1)?,
    ];
    assert!(rt; all_differ(&configs));
    Ok(())
}

// A mapping by its four numbers.
fn mapping([base, file, from, len]: [u32; 4]) -> Mapping {
    Mapping {
        base: Vpn::new(base),
        file: File::new(file),
        from: Index::new(from),
        len,
    }
}

#[test]
fn mappings_differ(rt: HostRuntime) {
    let numbers = [
        [0, 0, 0, 1],
        [1, 0, 0, 1],
        [0, 1, 0, 1],
        [0, 0, 1, 1],
        [0, 0, 0, 2],
    ];
    assert!(rt; all_differ(&numbers.map(mapping)));
}

// The operations on a range, by its three numbers.
fn range_ops([file, from, len]: [u32; 3]) -> [Op; 5] {
    let (file, from) = (File::new(file), Index::new(from));
    [
        Op::Map { file, from, len },
        Op::MapNoReserve { file, from, len },
        Op::Punch { file, from, len },
        Op::Alloc {
            file,
            from,
            len,
            keep: false,
        },
        Op::Alloc {
            file,
            from,
            len,
            keep: true,
        },
    ]
}

/// Asserts that each operation on a range differs from its like on the first index of file 0.
fn differ_from_first(rt: &impl Abort, numbers: [u32; 3]) {
    for (one, other) in range_ops([0, 0, 1]).iter().zip(&range_ops(numbers)) {
        assert!(rt; one != other, "{one} and {other}");
    }
}

#[test]
fn operations_on_ranges_differ(rt: HostRuntime) {
    let [a, b, c, d, e] = range_ops([0, 0, 1]);
    assert!(rt; all_differ(&[a, b, c, d, e, Op::Exit]));
    differ_from_first(&rt, [1, 0, 1]);
    differ_from_first(&rt, [0, 1, 1]);
    differ_from_first(&rt, [0, 0, 2]);
}

#[test]
fn other_operations_differ(rt: HostRuntime) {
    let (zero, one) = (Vpn::new(0), Vpn::new(1));
    let ops = [
        Op::Unmap { base: zero },
        Op::Unmap { base: one },
        Op::Load { vpn: zero },
        Op::Load { vpn: one },
        Op::Store { vpn: zero, word: 0 },
        Op::Store { vpn: one, word: 0 },
        Op::Store { vpn: zero, word: 1 },
        Op::Exit,
    ];
    assert!(rt; all_differ(&ops));
    let cuts = [(0, 0), (1, 0), (0, 1)].map(|(file, new)| Op::Truncate {
        file: File::new(file),
        new,
    });
    assert!(rt; all_differ(&cuts));
    assert!(rt; !cuts.contains(&Op::Exit) && !ops.contains(&cuts[0]));
}

#[test]
fn events_differ(rt: HostRuntime) {
    let (one, two) = (Task::new(1), Task::new(2));
    let load = Op::Load { vpn: Vpn::new(0) };
    let events = [
        Event::Begin(one, Op::Exit),
        Event::Begin(two, Op::Exit),
        Event::Begin(one, load),
        Event::Step(one, true),
        Event::Step(two, true),
        Event::Step(one, false),
        Event::Step(two, false),
        Event::Kill(one),
        Event::Kill(two),
        Event::Resize(1),
        Event::Resize(2),
    ];
    assert!(rt; all_differ(&events));
}

#[test]
fn faults_differ(rt: HostRuntime) {
    assert!(rt; all_differ(&[BankFault::Short, BankFault::NoFrame, BankFault::Quota]));
    let busy = [Task::new(1), Task::new(2)].map(SlotFault::Busy);
    assert!(rt; all_differ(&busy));
    assert!(rt; all_differ(&[ChangeFault::Denied, ChangeFault::Memory]));
    assert!(rt; all_differ(&[DelFault::Denied, DelFault::Memory]));
    let findings = [
        Finding::Shape,
        Finding::Agree,
        Finding::Place,
        Finding::Size,
        Finding::Count,
        Finding::Used,
    ];
    assert!(rt; all_differ(&findings));
}
