//! The lines of a script's explored runs, and one of them as a trace.
ghost use Rattle.std.specs.Prelude.{◌≡◌, ◌≤◌, ◌<◌, ◌+◌, ◌*◌, ◌/◌, ◌^◌, if◌then◌else◌, min, nat_lt, IfOk, IfErr, OnOk, All, length};
ghost use Rattle.std.specs.Io.KnownBytes.{Appends};
ghost use Rattle.std.specs.List.{AllZip, list_all, range_with_len};
ghost use Rattle.hp_base.specs.Text.{sizes};
ghost use Rattle.hp_explore.specs.Explored.{EndsWell, IsExplored, IsLine};
ghost use Rattle.hp_explore.specs.declared.line.RunLine.{RunLine};
ghost use Rattle.hp_explore.specs.Schedule.{plan_of};
ghost use Rattle.hp_explore.specs.RunLines.{is_finished, lines_text, WroteRuns, WroteSomeRuns};
ghost use Rattle.hp_text.specs.Streams.{TellsWrites};
ghost use Rattle.hp_text.specs.Writing.{IsWriteFault, Wrote};

use crate::claims::{RunRange, lines_of};
use crate::exploring::{Audit, first_run};
use crate::line::{Finish, RunLine};
use crate::plan::{Chances, Plan};
use crate::run_lines::write_lines;
use hp_text::{MOST_EVENTS, ReplayFault, Script, Sink, Trace};
use std::alloc::{AllocError, Global};
use std::thread::{Threads, join_mut};

/// Which runs of a script are explored, and how.
#[derive(Clone, Copy, Debug, PartialEq, Eq)]
pub struct Exploration {
    /// Run k goes by the generator that is seeded with this and k.
    pub seed: u64,
    pub runs: u32,
    pub chances: Chances,
    pub audit: Audit,
}

/// How many runs are explored before the first lines are written.
const FIRST_PART: u32 = 16;
/// How many lines are kept at most until they are written.
const MOST_PART: u32 = 16_384;
/// A part of fewer turns is soon done, in a pool of one task. Whose turn it is, is asked of each task: so the more tasks, the longer
/// a turn takes.
const SOON: u32 = 16_000_000;
/// How many times as many runs the next part has where one was soon done.
const GROWTH: u32 = 4;

/// The lines of the runs 0 to `runs - 1`, in order. Run k goes by the generator that is seeded with `seed + k`, wrapping; of a
/// thousand steps `deny` are denied, by chance. However many threads there are, the lines are the same.
pub fn explore(
    rt: &(impl Threads + Sync),
    alloc: Global,
    script: &Script,
    seed: u64,
    runs: u32,
    deny: u32,
) -> Result<Vec<RunLine>, ReplayFault>
    ensures lines { IfOk result (λ lines. AllZip (IsLine script.now seed deny 0) (range_with_len 0 runs) lines.items) }
    ensures ends { IfOk result (λ lines. All (λ line. EndsWell line.finish) lines.items) }
    ensures memory { IfErr result (λ fault. fault ≡ ReplayFault.Memory) }
{
    explore_hostile(rt, alloc, script, seed, runs, deny, 0)
}

/// The same, where of a thousand turns `kill` are kills, by chance.
pub fn explore_hostile(
    rt: &(impl Threads + Sync),
    alloc: Global,
    script: &Script,
    seed: u64,
    runs: u32,
    deny: u32,
    kill: u32,
) -> Result<Vec<RunLine>, ReplayFault>
    ensures lines { IfOk result (λ lines. AllZip (IsLine script.now seed deny kill) (range_with_len 0 runs) lines.items) }
    ensures ends { IfOk result (λ lines. All (λ line. EndsWell line.finish) lines.items) }
    ensures memory { IfErr result (λ fault. fault ≡ ReplayFault.Memory) }
{
    let exploration = Exploration {
        seed,
        runs,
        chances: Chances { deny, kill },
        audit: Audit::LeftOut,
    };
    let plan = &Plan::new(alloc, script, exploration.chances)?;
    match explore_runs(rt, alloc, script, plan, exploration, 0, runs) {
        Ok(lines) => Ok(lines),
        Err(_) => Err(ReplayFault::Memory),
    }
}

/// The lines of the runs `first` to `first + count - 1` of an exploration, in order. A run's line knows nothing of the other
/// runs: so the lines of many runs are those of their parts, one after the other. The plan is that of all runs. Nothing in
/// it waits.
fn explore_runs(
    rt: &(impl Threads + Sync),
    alloc: Global,
    script: &Script,
    plan: &Plan,
    exploration: Exploration,
    first: u32,
    count: u32,
) -> Result<Vec<RunLine>, AllocError>
    requires plan { plan.now ≡ plan_of script.now exploration.chances.deny exploration.chances.kill }
    requires fits { first + count < 2 ^ 32 }
    ensures lines { IfOk result (λ lines. AllZip (IsLine script.now exploration.seed exploration.chances.deny exploration.chances.kill)
        (range_with_len first count) lines.items) }
    ensures ends { IfOk result (λ lines. All (λ line. EndsWell line.finish) lines.items) }
{
    let Exploration { seed, audit, .. } = exploration;
    let runs = RunRange {
        script,
        plan,
        seed,
        first,
        count,
        audit,
    };
    lines_of(rt, alloc, runs)
}

/// Whether all runs came to their ends.
fn are_finished(lines: &[RunLine]) -> bool
    ensures { result ≡ list_all is_finished lines.now }
{
    lines.iter().all(|line| line.finish == Finish::Finished)
}

/// Whether each run was ended by fewer turns.
fn are_shorter(lines: &[RunLine], turns: u32) -> bool
    ensures { result ≡ list_all (λ line. nat_lt line.turns turns) lines.now }
{
    lines.iter().all(|line| line.turns < turns)
}

/// How many runs the next part has: more, where each was so short that all were soon done. To begin the threads of a part takes
/// as long as hundreds of short runs.
fn next_part(part: u32, tasks: u32, lines: &[RunLine]) -> u32
    requires some { 0 < part }
    requires most { part ≤ MOST_PART }
    requires tasks { 0 < tasks }
    ensures grows { result ≡ (if list_all (λ line. nat_lt line.turns (SOON / tasks / part)) lines.now
        then min (part * GROWTH) MOST_PART else part) }
    ensures some { 0 < result }
    ensures most { result ≤ MOST_PART }
{
    if are_shorter(lines, SOON / tasks / part) {
        (part * GROWTH).min(MOST_PART)
    } else {
        part
    }
}

/// Explores more runs, and writes the lines of those before meanwhile: so no processor waits until lines are written.
fn explore_beside<W: Sink>(
    rt: &(impl Threads + Sync),
    alloc: Global,
    script: &Script,
    plan: &Plan,
    exploration: Exploration,
    first: u32,
    count: u32,
    before: &[RunLine],
    writer: &mut W,
) -> Result<Vec<RunLine>, ReplayFault>
    requires plan { plan.now ≡ plan_of script.now exploration.chances.deny exploration.chances.kill }
    requires fits { first + count < 2 ^ 32 }
    ensures lines { IfOk result (λ lines. AllZip (IsLine script.now exploration.seed exploration.chances.deny exploration.chances.kill)
        (range_with_len first count) lines.items) }
    ensures ok { OnOk result (Appends (W.contents writer.old) (W.contents writer.new) (lines_text before.now)) }
    ensures err { IfErr result (λ fault. IsWriteFault fault
        × Wrote (W.contents writer.old) (W.contents writer.new) (lines_text before.now)) }
    ensures writes { TellsWrites result (W.failures writer.old) (W.failures writer.new) }
{
    let (explored, written) = join_mut(
        rt,
        &mut || -> Result<Vec<RunLine>, AllocError>
            requires plan { plan.now ≡ plan_of script.now exploration.chances.deny exploration.chances.kill }
            requires fits { first + count < 2 ^ 32 }
        { explore_runs(rt, alloc, script, plan, exploration, first, count) },
        &mut || write_lines(alloc, before, writer),
    );
    written?;
    Ok(explored?)
}

/// Explores some hundreds of runs at a time, some thousands where they are short, in order, and writes the lines of each part
/// while it explores the next: so whoever reads them sees how far it is, and memory is taken for two parts alone. Tells whether
/// all runs came to their ends.
pub fn write_explored<W: Sink>(
    rt: &(impl Threads + Sync),
    alloc: Global,
    script: &Script,
    exploration: Exploration,
    writer: &mut W,
) -> Result<bool, ReplayFault>
    ensures ok { IfOk result (λ finished. WroteRuns script.now exploration finished (W.contents writer.old) (W.contents writer.new)) }
    ensures err { IfErr result (λ fault. IsWriteFault fault
        × WroteSomeRuns script.now exploration (W.contents writer.old) (W.contents writer.new)) }
    ensures writes { TellsWrites result (W.failures writer.old) (W.failures writer.new) }
{
    let plan = &Plan::new(alloc, script, exploration.chances)?;
    let mut part = FIRST_PART;
    let mut explored = exploration.runs.min(part);
    let mut lines = explore_runs(rt, alloc, script, plan, exploration, 0, explored)?;
    let mut finished = are_finished(lines.as_slice());
    while explored < exploration.runs {
        part = next_part(part, script.config.tasks, lines.as_slice());
        let runs = (exploration.runs - explored).min(part);
        let before = lines.as_slice();
        lines = explore_beside(
            rt,
            alloc,
            script,
            plan,
            exploration,
            explored,
            runs,
            before,
            writer,
        )?;
        finished &= are_finished(lines.as_slice());
        explored += runs;
    }
    write_lines(alloc, lines.as_slice(), writer)?;
    Ok(finished)
}

/// The trace of run 0: whoever replays it sees that run, to the counts that its line tells.
pub fn schedule(
    alloc: Global,
    script: &Script,
    seed: u64,
    deny: u32,
    kill: u32,
) -> Result<Trace, ReplayFault>
    ensures line { IfOk result (λ trace. (line : RunLine) × IsExplored script.now seed deny kill 0 trace.events.items line) }
    ensures config { IfOk result (λ trace. sizes trace.config ≡ sizes script.now.config) }
    ensures few { IfOk result (λ trace. length trace.events.items ≤ MOST_EVENTS) }
    ensures memory { IfErr result (λ fault. fault ≡ ReplayFault.Memory) }
{
    let events = first_run(alloc, script, seed, Chances { deny, kill })?;
    Ok(Trace {
        config: script.config,
        events,
    })
}
