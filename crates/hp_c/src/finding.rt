//! Runs and schedules of a script that meet conditions.
ghost use Rattle.std.specs.Prelude.{◌≡◌, ⊤, IfOk, IfErr, length};
ghost use Rattle.hp_c.specs.Answers.{Answered};
ghost use Rattle.hp_c.specs.Finding.{FindsRun, FindsShortest, NotFoundAt, WhyNoRun, WhyNoSchedule, turns_of};
ghost use Rattle.hp_c.specs.Searches.{NotFound};
ghost use Rattle.hp_c.specs.Texts.{Shown};

use crate::search_words::{BoundsWords, HuntWords};
use crate::unfound::{Unfound, tell_search, trace_bytes};
use hp_conditions::read_conditions;
use hp_hunt::find_alone;
use hp_layers::{Limits, Progress};
use hp_search::{Budget, Reachability, find_every_alone};
use hp_text::read_any_script;
use std::alloc::Global;

/// No schedule has as many turns: an explored run is ended there, too.
const MOST_TURNS: u32 = 1_000_000;

/// Nobody is told how far a search is.
#[derive(Drop)]
struct Silent;

impl Progress for Silent {
    fn layer(&mut self, _turns: u32, _states: usize, _bytes: u64) {}
}

fn found_run(
    alloc: Global,
    script: &[u8],
    conditions: &[u8],
    hunt: HuntWords,
    run: &mut u32,
) -> Result<Vec<u8>, Unfound>
    ensures ok { IfOk result (λ text. FindsRun hunt script.now conditions.now run.new text.items) }
    ensures err { IfErr result (WhyNoRun hunt script.now conditions.now) }
    ensures run { IfErr result (λ why. run.new ≡ 0) }
{
    *run = 0;
    let conditions = read_conditions(alloc, conditions)?;
    let mut source = script;
    let script = read_any_script(alloc, &mut source)?;
    let found = find_alone(alloc, &script, hunt.hunt(), conditions.as_slice())?;
    let Some(found) = found else {
        return Err(Unfound::NoneMeets);
    };
    let text = trace_bytes(alloc, &found.trace)?;
    *run = found.run;
    Ok(text)
}

/// The trace of the first of these runs of the script that meets the conditions. It is put at the front of `out`, and its length and the
/// run's number are told; of conditions or a script with a bad line, the line.
#[unsafe(no_mangle)]
pub extern "C" fn hugepool_find(
    alloc: Global,
    script: &[u8],
    conditions: &[u8],
    hunt: &HuntWords,
    out: &mut [u8],
    needed: &mut usize,
    line: &mut u32,
    run: &mut u32,
) -> u32
    ensures shown { Answered result
        (Shown (FindsRun hunt.now script.now conditions.now run.new) out.old out.new needed.new line.new)
        (out.new ≡ out.old) }
    ensures code { Answered result ⊤ (NotFound (FindsRun hunt.now script.now conditions.now run.new)
        (λ why. WhyNoRun hunt.now script.now conditions.now why × (run.new ≡ 0)) (length out.old) needed.new result line.new) }
{
    let found = found_run(alloc, script, conditions, *hunt, run);
    tell_search(found, out, needed, line)
}

fn found_schedule(
    alloc: Global,
    script: &[u8],
    conditions: &[u8],
    bounds: BoundsWords,
) -> Result<Vec<u8>, Unfound>
    ensures ok { IfOk result (λ text. FindsShortest bounds script.now conditions.now text.items) }
    ensures err { IfErr result (WhyNoSchedule bounds script.now conditions.now) }
{
    let conditions = read_conditions(alloc, conditions)?;
    let mut source = script;
    let script = read_any_script(alloc, &mut source)?;
    let budget = Budget {
        denials: bounds.denials,
        kills: bounds.kills,
    };
    let limits = Limits {
        turns: MOST_TURNS,
        states: bounds.states as usize,
        bytes: None,
    };
    let every = find_every_alone(
        alloc,
        &script,
        budget,
        conditions.as_slice(),
        limits,
        &mut Silent,
    )?;
    match every {
        Reachability::Met(trace) => {
            let text = trace_bytes(alloc, &trace)?;
            Ok(text)
        }
        Reachability::Never => Err(Unfound::NoneMeets),
        Reachability::Cut { turns } => Err(Unfound::LimitReached(turns)),
    }
}

/// The turns at which the limits were reached, or 0.
fn turns_of(found: &Result<Vec<u8>, Unfound>) -> u32
    ensures ok { IfOk found.now (λ text. result ≡ 0) }
    ensures err { IfErr found.now (λ why. result ≡ turns_of why) }
{
    match found {
        Err(Unfound::LimitReached(turns)) => *turns,
        _ => 0,
    }
}

/// The trace of a shortest schedule of the script that meets the conditions. It is put at the front of `out`, and its length is told; of
/// conditions or a script with a bad line, the line; where the limits were reached, at how many turns.
#[unsafe(no_mangle)]
pub extern "C" fn hugepool_find_every(
    alloc: Global,
    script: &[u8],
    conditions: &[u8],
    bounds: &BoundsWords,
    out: &mut [u8],
    needed: &mut usize,
    line: &mut u32,
    turns: &mut u32,
) -> u32
    ensures shown { Answered result
        (Shown (FindsShortest bounds.now script.now conditions.now) out.old out.new needed.new line.new × (turns.new ≡ 0))
        (out.new ≡ out.old) }
    ensures code { Answered result ⊤ (NotFoundAt (FindsShortest bounds.now script.now conditions.now)
        (WhyNoSchedule bounds.now script.now conditions.now) (length out.old) needed.new result line.new turns.new) }
{
    let found = found_schedule(alloc, script, conditions, *bounds);
    *turns = turns_of(&found);
    tell_search(found, out, needed, line)
}
