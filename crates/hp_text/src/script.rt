//! Scripts: the calls of tasks, read from a trace whose events are begins alone.
ghost use Rattle.std.specs.Prelude.{◌≡◌, ◌++◌, true, false, [], None, IfOk, IfErr, IfSome, IsSomeAnd, OnOk, All, length, map};
ghost use Rattle.std.specs.List.Sorted.{IsNonDecreasingBy};
ghost use Rattle.std.specs.Option.{option_map};
ghost use Rattle.hp_base.specs.Text.{sizes};
ghost use Rattle.hp_text.specs.Lines.{line_of, feed_after, lines_after};
ghost use Rattle.hp_text.specs.Collecting.{ReadsTrace};
ghost use Rattle.hp_text.specs.Streams.{TellsReads};
ghost use Rattle.hp_text.specs.Traces.{IsLineFault};
ghost use Rattle.hp_text.specs.Scripts.{AreCalls, IsCall, IsCallLine, begin_of, calls_of, HasScriptFault, PieceNotCalls, SpellsSomeScript};

use crate::fault::ReplayFault;
use crate::feed::{TraceFeed, TraceLine};
use crate::streams::{PIECE, Source};
use crate::trace::{Draft, Trace};
use hp_base::{Config, Event, Op, Task};
use std::alloc::{AllocError, Global};

/// What a call waits for: it may begin only once all calls of the task that stand on earlier lines have ended.
#[derive(Clone, Copy, Debug, PartialEq, Eq)]
pub struct Wait {
    /// The call that waits: its place among all calls of the script, from 0.
    pub call: u32,
    /// The task that is waited for. One that isn't there is not waited for.
    pub task: Task,
}

/// How large a pool is, and the calls that tasks make of it: those of a task are made in this order. Calls of a task
/// that isn't there are none. Some calls wait for other tasks.
#[derive(Debug, Drop)]
pub struct Script {
    pub config: Config,
    pub calls: Vec<(Task, Op)>,
    /// In the order of the calls that wait.
    pub waits: Vec<Wait>,
    pub ghost in_order: { IsNonDecreasingBy (λ wait. wait.call) waits.items },
}

impl Script {
    /// The calls of a task, in the order of the script's lines.
    pub fn calls_of(&self, alloc: Global, task: Task) -> Result<Vec<Op>, AllocError>
        ensures { IfOk result (λ calls. calls.items ≡ calls_of self.now.calls.items task) }
    {
        self.calls
            .iter()
            .filter(|line| line.0 == task)
            .map(|line| line.1)
            .collect(alloc)
    }
}

/// Whether the event begins a call.
fn is_call(event: Event) -> bool
    ensures can { result ≡ true → IsCall event }
    ensures cannot { result ≡ false → ¬ IsCall event }
{
    match event {
        Event::Begin(..) => true,
        Event::Step(..) | Event::Kill(_) | Event::Resize(_) => false,
    }
}

/// Whether the line that came, if one did, may stand in a script.
fn is_call_line(line: &Option<TraceLine>) -> bool
    ensures can { result ≡ true → IfSome (option_map line_of line.now) IsCallLine }
    ensures cannot { result ≡ false → IsSomeAnd (option_map line_of line.now) (λ line. ¬ IsCallLine line) }
{
    match line {
        Some(TraceLine::Event(event)) => is_call(*event),
        Some(TraceLine::Header(_)) | None => true,
    }
}

/// Adds the lines that a piece ends, as long as they begin calls.
fn add_calls(
    alloc: Global,
    feed: &mut TraceFeed,
    draft: &mut Draft,
    piece: &[u8],
) -> Result<(), ReplayFault>
    requires no_fault { feed.old.fault ≡ None }
    requires lines { feed.old.lines ≡ length draft.old }
    requires calls { AreCalls draft.old }
    ensures lines { OnOk result (draft.new ≡ draft.old ++ lines_after feed.old piece.now) }
    ensures held { OnOk result (feed.new ≡ feed_after feed.old piece.now) }
    ensures no_fault { OnOk result (feed.new.fault ≡ None) }
    ensures calls { OnOk result (AreCalls draft.new) }
    ensures err { IfErr result (λ fault. PieceNotCalls fault feed.old draft.old piece.now) }
{
    let mut rest = piece;
    while !rest.is_empty() {
        let (used, line) = feed.take(rest)?;
        (_, rest) = rest.split_at(used);
        if !is_call_line(&line) {
            return Err(ReplayFault::BadLine(feed.line()));
        }
        draft.add_taken(alloc, line)?;
    }
    Ok(())
}

/// The calls that the events begin.
fn calls_begun(alloc: Global, events: &[Event]) -> Result<Vec<(Task, Op)>, AllocError>
    requires { All IsCall events.now }
    ensures { IfOk result (λ calls. map begin_of calls.items ≡ events.now) }
{
    let mut calls = Vec::new(alloc);
    for event in events {
        if let Event::Begin(task, op) = *event {
            calls.push((task, op))?;
        }
    }
    Ok(calls)
}

/// The script of a trace whose events begin calls.
fn script_of(alloc: Global, trace: &Trace) -> Result<Script, AllocError>
    requires { All IsCall trace.now.events.items }
    ensures config { IfOk result (λ script. sizes script.config ≡ sizes trace.now.config) }
    ensures calls { IfOk result (λ script. map begin_of script.calls.items ≡ trace.now.events.items) }
    ensures waits { IfOk result (λ script. script.waits.items ≡ []) }
{
    let calls = calls_begun(alloc, trace.events.as_slice())?;
    Ok(Script {
        config: trace.config,
        calls,
        waits: Vec::new(alloc),
    })
}

/// The script that the bytes spell: a trace whose events are begins alone, and so one without waits. Any other line is a bad one.
/// Nothing is tried again after an error.
pub fn read_script<R: Source>(alloc: Global, reader: &mut R) -> Result<Script, ReplayFault>
    ensures ok { IfOk result (λ script. ReadsTrace (R.remaining reader.old) (R.remaining reader.new)
        (sizes script.config) (map begin_of script.calls.items)) }
    ensures waits { IfOk result (λ script. script.waits.items ≡ []) }
    ensures bad { IfErr result (λ fault. IfSome (R.remaining reader.old) (λ bytes. HasScriptFault bytes fault)) }
    ensures only { IfErr result (λ fault. IsLineFault fault
        → IfSome (R.remaining reader.old) (λ bytes. ¬ (SpellsSomeScript bytes))) }
    ensures reads { TellsReads result (R.failures reader.old) (R.failures reader.new) }
{
    let mut feed = TraceFeed::new();
    let mut draft = Draft::new();
    let mut piece = [0; PIECE];
    loop {
        let n = reader.read_piece(&mut piece)?;
        if n == 0 {
            feed.end()?;
            let trace = draft.whole();
            let script = script_of(alloc, &trace)?;
            return Ok(script);
        }
        add_calls(alloc, &mut feed, &mut draft, &piece[..n])?;
    }
}
