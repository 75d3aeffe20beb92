//! `hugepool work`: a workload over a driver.
ghost use Rattle.std.specs.Prelude.{◌≡◌, ◌≢◌, ◌≤◌, Ok, Err, OnOk, IfOk, IfErr, IfSome, IfNone, IsSome, None, length, string_bytes};
ghost use Rattle.std.specs.Io.KnownBytes.{Appends};
ghost use Rattle.std.specs.Option.{option_map};
ghost use Rattle.hp_base.specs.Text.{sizes};
ghost use Rattle.hp_client.specs.Tables.{name_of};
ghost use Rattle.hp_client.specs.declared.table.Workload.{Workload};
ghost use Rattle.hp_text.specs.Traces.{trace_text};
ghost use Rattle.hp_text.specs.Writing.{Wrote};
ghost use Rattle.hp_program.specs.Answers.{IfThere};
ghost use Rattle.hp_pool_commands.specs.Working.{work_status, carrier_name, report_line, IsAsked, IsUnknown};
ghost use Rattle.hp_pool_commands.specs.Working.{AnsweredTrace, AnsweredWork, Reports, TracesWork, Unreported, Untraced};

use crate::carrying::{Carrier, run_on};
use crate::tracing::trace_workload;
use hp_client::{ClientFault, Report, Workload, workload_named};
use hp_program::{flush_plain, flushed_answer, text_of};
use hp_text::{ReplayFault, Trace, Watched, write_text};
use std::alloc::{AllocError, Global};
use std::io::Write;
use std::sync::Wait;
use std::thread::Threads;
use thiserror::Error;

/// The words of a `work`: the workload's name and the driver's.
#[derive(Debug, Drop)]
pub struct WorkWords {
    pub name: String,
    pub driver: String,
}

/// Why a `work` ends with another status than 0.
#[derive(Debug, Drop, Error)]
pub enum WorkFault {
    #[error("hugepool: no workload {0}
hugepool: the workloads are readback, shared, truncate, alloc-instantiate-race, chunk-overcommit,
  noresv-preserve-resv-page, noresv-regarded-as-resv, truncate_reserve_wraparound, fallocate_basic,
  fallocate_align, counters
")]
    NoWorkload(String),
    #[error("hugepool: no driver {0}\nhugepool: the drivers are core, pool\n")]
    NoDriver(String),
    #[error("hugepool: {0}\n")]
    Client(ClientFault),
    /// The text couldn't be written.
    #[error("hugepool: {0}\n")]
    Stream(ReplayFault),
    /// It is told on the output.
    #[error("")]
    Bad,
}

impl WorkFault {
    /// The status that the program ends with.
    pub fn status(&self) -> u8
        ensures { result ≡ work_status self.now }
    {
        match self {
            WorkFault::NoWorkload(_) | WorkFault::NoDriver(_) => 2,
            WorkFault::Client(_) | WorkFault::Stream(_) | WorkFault::Bad => 1,
        }
    }
}

// The one of that name.
fn carrier_named(name: &str) -> Option<Carrier>
    ensures found { IfSome result (λ carrier. carrier_name carrier ≡ name.now) }
    ensures none { IfNone result ((carrier : _) → carrier_name carrier ≢ name.now) }
{
    match name {
        "core" => Some(Carrier::Core),
        "pool" => Some(Carrier::Pool),
        _ => None,
    }
}

// What the words ask for: the workload is looked up first, and then what carries its calls.
fn asked(words: WorkWords) -> Result<(Workload, Carrier), WorkFault>
    ensures ok { IfOk result (λ asked. IsAsked words asked.0 asked.1) }
    ensures err { IfErr result (λ fault. IsUnknown words fault) }
{
    let Some(workload) = workload_named(words.name.as_str()) else {
        return Err(WorkFault::NoWorkload(words.name));
    };
    let Some(carrier) = carrier_named(words.driver.as_str()) else {
        return Err(WorkFault::NoDriver(words.driver));
    };
    Ok((workload, carrier))
}

// The line that tells what came of a workload.
fn report_line(alloc: Global, workload: Workload, report: Report) -> Result<String, AllocError>
    ensures { IfOk result (λ line. string_bytes line ≡ report_line (name_of workload) report) }
{
    let name = workload.name();
    let mut line = String::new(alloc);
    match report.bad {
        None => writeln!(line, "{name} ok calls {}", report.calls)?,
        Some(number) => writeln!(line, "{name} bad call {number}")?,
    }
    Ok(line)
}

// Runs what the words ask for, and lays its line out. Nothing is written yet.
fn reported<H: Threads + Wait + Sync>(
    rt: &H,
    alloc: Global,
    words: WorkWords,
) -> Result<(Report, String), WorkFault>
    ensures ok { IfOk result (λ report. Reports words report.0 (string_bytes report.1)) }
    ensures err { IfErr result (λ fault. Unreported words fault) }
{
    let (workload, carrier) = asked(words)?;
    let report = run_on(rt, alloc, carrier, workload).map_err(WorkFault::Client)?;
    match report_line(alloc, workload, report) {
        Ok(line) => Ok((report, line)),
        Err(_) => Err(WorkFault::Client(ClientFault::Memory)),
    }
}

// What is answered once the line is written, or isn't.
fn report_answer(report: Report, written: Result<(), ReplayFault>) -> Result<(), WorkFault>
    ensures good { OnOk written (report.bad ≡ None → result ≡ Ok tt) }
    ensures bad { OnOk written (IsSome report.bad → result ≡ Err WorkFault.Bad) }
    ensures failed { IfErr written (λ fault. result ≡ Err (WorkFault.Stream fault)) }
{
    match (written, report.bad) {
        (Err(fault), _) => Err(WorkFault::Stream(fault)),
        (Ok(()), None) => Ok(()),
        (Ok(()), Some(_)) => Err(WorkFault::Bad),
    }
}

// Writes a text, and flushes it.
fn write_flushed<W: Write + Drop>(text: &[u8], out: W) -> (Result<(), ReplayFault>, W)
    ensures ok { OnOk result.0 (Appends (W.contents out) (W.contents result.1) text.now) }
    ensures err { IfErr result.0 (λ fault. (fault ≡ ReplayFault.Write) × Wrote (W.contents out) (W.contents result.1) text.now) }
{
    let mut sink = Watched::new(out);
    let written = write_text(&mut sink, text);
    let (flushed, out) = flush_plain(sink);
    (flushed_answer(written, flushed), out)
}

/// Runs a workload, and writes a line that tells what came of it.
pub fn run_work<H: Threads + Wait + Sync, W: Write + Drop>(
    rt: &H,
    alloc: Global,
    words: WorkWords,
    out: W,
) -> (Result<(), WorkFault>, Option<W>)
    ensures { IfThere (option_map W.contents result.1) (AnsweredWork words result.0 (W.contents out)) }
{
    match reported(rt, alloc, words) {
        Ok((report, line)) => {
            let (written, out) = write_flushed(line.as_bytes(), out);
            (report_answer(report, written), Some(out))
        }
        Err(fault) => (Err(fault), Some(out)),
    }
}

// Lays out the trace of a workload that was run.
fn lay_trace(alloc: Global, report: Report, trace: &Trace) -> Result<(Report, Vec<u8>), WorkFault>
    requires { length trace.now.events.items ≤ 1000000 }
    ensures report { IfOk result (λ laid. laid.0 ≡ report) }
    ensures text { IfOk result (λ laid. laid.1.items ≡ trace_text (sizes trace.now.config) trace.now.events.items) }
    ensures err { IfErr result (λ fault. fault ≡ WorkFault.Client ClientFault.Memory) }
{
    match text_of(alloc, trace) {
        Ok(text) => Ok((report, text)),
        Err(_) => Err(WorkFault::Client(ClientFault::Memory)),
    }
}

// Runs the workload that the words name, and lays its trace out. Nothing is written yet.
fn traced(alloc: Global, words: WorkWords) -> Result<(Report, Vec<u8>), WorkFault>
    ensures ok { IfOk result (λ traced. TracesWork words traced.0 traced.1.items) }
    ensures err { IfErr result (λ fault. Untraced words fault) }
{
    let Some(workload) = workload_named(words.name.as_str()) else {
        return Err(WorkFault::NoWorkload(words.name));
    };
    match trace_workload(alloc, workload) {
        Ok((report, trace)) => lay_trace(alloc, report, &trace),
        Err(fault) => Err(WorkFault::Client(fault)),
    }
}

/// Runs a workload, and writes what its calls did to a pool as a trace.
pub fn run_trace_work<W: Write + Drop>(
    alloc: Global,
    words: WorkWords,
    out: W,
) -> (Result<(), WorkFault>, Option<W>)
    ensures { IfThere (option_map W.contents result.1) (AnsweredTrace words result.0 (W.contents out)) }
{
    match traced(alloc, words) {
        Ok((report, text)) => {
            let (written, out) = write_flushed(text.as_slice(), out);
            (report_answer(report, written), Some(out))
        }
        Err(why) => (Err(why), Some(out)),
    }
}
