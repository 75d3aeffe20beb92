//! Runs a workload over any driver.
ghost use Rattle.std.specs.Prelude.{◌≡◌, ◌≤◌, ◌<◌, ◌+◌, ◌++◌, ◌∷◌, [], OnOk, IfOk, IfErr, IfSome, IfNone, All, Some, None};
ghost use Rattle.hp_base.specs.Text.{sizes};
ghost use Rattle.hp_client.specs.Tables.{Tried, table_of, name_of, sizes_of, IsApart, calls_of, calls_in, op_of, answer_of};
ghost use Rattle.hp_client.specs.Tables.{LineRuns, LinesRun, LineStops, FrontRuns, IsFirstWrong, IsBad, IsReport};
ghost use Rattle.hp_client.specs.Driving.{IsHeard, IsUnheard};
ghost use Rattle.hp_client.specs.Judging.{Judges};

use crate::bytes::fallocate;
use crate::driver::Driver;
use crate::fault::ClientFault;
use crate::table::{Allowed, Ask, Line, Pool, Workload};
use hp_base::{Answer, Config, File, Index, Op, Task, Vpn};
use hp_core::Tally;
use std::alloc::Global;

/// What came of a workload.
#[derive(Clone, Copy, Debug, PartialEq, Eq)]
pub struct Report {
    /// How many calls it has.
    pub calls: u32,
    /// The number, from 1, of the first with another answer than the table's, or one more than there are where only the
    /// tally differs.
    pub bad: Option<u32>,
    /// The driver's tally at the end.
    pub tally: Tally,
}

/// How many calls were answered, and which was the first with another answer than the one allowed.
#[derive(Clone, Copy, Debug, PartialEq, Eq)]
pub struct Judged {
    pub calls: u32,
    pub bad: Option<u32>,
}

// An operation of a table.
fn op_of(ask: Ask) -> Op
    ensures { result ≡ op_of ask }
{
    match ask {
        Ask::Map(file, from, len) => Op::Map {
            file: File::new(file),
            from: Index::new(from),
            len,
        },
        Ask::MapNoReserve(file, from, len) => Op::MapNoReserve {
            file: File::new(file),
            from: Index::new(from),
            len,
        },
        Ask::Unmap(base) => Op::Unmap {
            base: Vpn::new(base),
        },
        Ask::Load(vpn) => Op::Load { vpn: Vpn::new(vpn) },
        Ask::Store(vpn, word) => Op::Store {
            vpn: Vpn::new(vpn),
            word,
        },
        Ask::Alloc(file, from, len, keep) => Op::Alloc {
            file: File::new(file),
            from: Index::new(from),
            len,
            keep,
        },
        Ask::Punch(file, from, len) => Op::Punch {
            file: File::new(file),
            from: Index::new(from),
            len,
        },
        Ask::Truncate(file, new) => Op::Truncate {
            file: File::new(file),
            new,
        },
    }
}

// An answer of a table.
fn answer_of(allowed: Allowed) -> Answer
    ensures { result ≡ answer_of allowed }
{
    match allowed {
        Allowed::Mapped(base) => Answer::Mapped(Vpn::new(base)),
        Allowed::Word(word) => Answer::Word(word),
        Allowed::Done => Answer::Done,
        Allowed::Beyond => Answer::Beyond,
        Allowed::NoFrame => Answer::NoFrame,
    }
}

// Judges one more answer.
fn judge(judged: &mut Judged, given: Answer, allowed: Allowed)
    requires { judged.old.calls < 100 }
    ensures calls { judged.new.calls ≡ judged.old.calls + 1 }
    ensures judges { (tried : Tried) → Judges tried judged.old → Judges (tried ++ (given, answer_of allowed) ∷ []) judged.new }
{
    judged.calls += 1;
    if given == answer_of(allowed) {
        return;
    }
    if judged.bad.is_none() {
        judged.bad = Some(judged.calls);
    }
}

// Makes the calls of a line, and judges their answers.
fn run_line<D: Driver>(
    driver: &mut D,
    alloc: Global,
    line: Line,
    judged: &mut Judged,
) -> Result<(), ClientFault>
    requires rests { D.rests_on }
    requires apart { IsApart line }
    requires few { judged.old.calls + calls_of line ≤ 100 }
    ensures run { OnOk result ((more : Tried) × LineRuns (IsHeard D.heard_by D.makes) line driver.old more driver.new
        × ((tried : Tried) → Judges tried judged.old → Judges (tried ++ more) judged.new)) }
    ensures calls { OnOk result (judged.new.calls ≡ judged.old.calls + calls_of line) }
    ensures stopped { IfErr result (λ fault. LineStops (IsUnheard D.heard_by D.stops) fault line driver.old driver.new) }
{
    match line {
        Line::Call(row) => {
            let given = driver.call(alloc, Task::new(row.0), op_of(row.1))?;
            judge(judged, given, row.2);
        }
        Line::Race(first, second) => {
            let calls = [
                (Task::new(first.0), op_of(first.1)),
                (Task::new(second.0), op_of(second.1)),
            ];
            let given = driver.round(alloc, &calls)?;
            judge(judged, given[0], first.2);
            judge(judged, given[1], second.2);
        }
        Line::Fallocate(task, file, bits, offset, len, allowed) => {
            let (task, file) = (Task::new(task), File::new(file));
            let given = fallocate(driver, alloc, task, file, bits, offset, len)?;
            judge(judged, given, allowed);
        }
    }
    Ok(())
}

// Makes the calls of the lines, one after the other, up to the first fault.
fn run_lines<D: Driver>(
    driver: &mut D,
    alloc: Global,
    lines: &[Line],
) -> Result<Judged, ClientFault>
    requires rests { D.rests_on }
    requires apart { All IsApart lines.now }
    requires few { calls_in lines.now ≤ 100 }
    ensures run { IfOk result (λ judged. (tried : Tried)
        × LinesRun (IsHeard D.heard_by D.makes) lines.now driver.old tried driver.new × Judges tried judged) }
    ensures calls { IfOk result (λ judged. judged.calls ≡ calls_in lines.now) }
    ensures stopped { IfErr result (λ fault. FrontRuns (IsHeard D.heard_by D.makes) (IsUnheard D.heard_by D.stops) fault
        lines.now driver.old driver.new) }
{
    let mut judged = Judged {
        calls: 0,
        bad: None,
    };
    for line in lines {
        run_line(driver, alloc, *line, &mut judged)?;
    }
    Ok(judged)
}

// The first call with another answer than the table's, or one more than there are where only the tally differs.
fn first_bad(judged: Judged, tally: Tally, allowed: Tally) -> Option<u32>
    requires { judged.calls ≤ 100 }
    ensures { (tried : Tried) → Judges tried judged → IsBad tried tally allowed result }
{
    match judged.bad {
        Some(number) => Some(number),
        None if tally != allowed => Some(judged.calls + 1),
        None => None,
    }
}

/// Makes all calls of a workload, and judges what came of them. A fault of the driver ends it: then a front of the lines
/// ran, and the next one stopped with that fault.
pub fn run_workload<D: Driver>(
    alloc: Global,
    workload: Workload,
    driver: &mut D,
) -> Result<Report, ClientFault>
    requires rests { D.rests_on }
    ensures report { IfOk result (λ report. IsReport (IsHeard D.heard_by D.makes) (table_of workload).lines
        (table_of workload).tally driver.old driver.new report) }
    ensures tally { IfOk result (λ report. D.can_tell driver.new report.tally) }
    ensures stopped { IfErr result (λ fault. FrontRuns (IsHeard D.heard_by D.makes) (IsUnheard D.heard_by D.stops) fault
        (table_of workload).lines driver.old driver.new) }
{
    let table = workload.table();
    let judged = run_lines(driver, alloc, table.lines)?;
    let tally = driver.tally();
    Ok(Report {
        calls: judged.calls,
        bad: first_bad(judged, tally, table.tally),
        tally,
    })
}

/// The sizes of the pool that the workload is for.
pub fn config_of(workload: Workload) -> Config
    ensures { sizes result ≡ sizes_of workload }
{
    let Pool(frames, files, tasks) = workload.table().pool;
    match Config::new(frames, files, 4, tasks) {
        Ok(config) => config,
        Err(_) => unreachable!(),
    }
}

/// The workload of that name.
pub fn workload_named(name: &str) -> Option<Workload>
    ensures found { IfSome result (λ workload. name_of workload ≡ name.now) }
    ensures none { IfNone result ((workload : _) → name_of workload ≡ name.now → ⊥) }
{
    for workload in Workload::ALL {
        if workload.name() == name {
            return Some(workload);
        }
    }
    None
}
