//! What a summary says of the runs of a script.
ghost use Rattle.std.specs.Prelude.{◌≡◌, ◌<◌, ◌^◌, List, IfErr, IfOk, OnOk, length, slice_index_or};
ghost use Rattle.std.specs.List.Sorted.{IsPermutation};
ghost use Rattle.hp_summary.specs.Summaries.{AreInOrder, IsSummaryOf, IsTallyOf, Summarizes};
ghost use Rattle.hp_summary.specs.declared.facts.RunFacts.{RunFacts};

use crate::gathering::{Batch, Survey, count_batch};
use crate::tally::{Ending, Tally};
use hp_explore::Plan;
use hp_text::{ReplayFault, Script};
use hp_workers::{FIRST_PART, Progress, next_part};
use std::alloc::{AllocError, Global};
use std::cmp::Reverse;
use std::thread::Threads;

/// What a summary says of the runs of a script.
#[derive(Debug, Drop)]
pub struct Summary {
    pub runs: u32,
    /// How many came to their ends. The others were ended at the limit of turns.
    pub finished: u32,
    /// The fewest turns of a run.
    pub least: u32,
    /// Half of the runs made at most so many.
    pub median: u32,
    /// The most turns of a run.
    pub most: u32,
    /// In how many runs some task was held up at some moment.
    pub some_held: u32,
    /// In how many each task was, from task 1 on.
    pub held: Vec<u32>,
    /// In how many each two phases met.
    pub met: Vec<u32>,
    /// The ways in which runs ended, the most frequent first.
    pub endings: Vec<Ending>,
    /// How many ended in others.
    pub other: u32,
}

/// How many runs are handed to the workers at once, at most: the facts of so many are kept.
const MOST_PART: u32 = 2048;

/// The most frequent first, and of two that are as frequent the one whose first run came first.
fn sort_endings(endings: &mut Vec<Ending>) -> Result<(), AllocError>
    ensures same { IsPermutation endings.old.items endings.new.items }
    ensures order { OnOk result (AreInOrder endings.new.items) }
{
    endings.sort_by_key(|ending: &Ending| (Reverse(ending.runs), ending.first))
}

/// The number at this place, or 0 where there is none.
fn turns_at(turns: &[u32], place: usize) -> u32
    ensures { result ≡ slice_index_or turns.now place 0 }
{
    turns.get(place).copied().unwrap_or(0)
}

/// How many turns the runs from this one on made.
fn turns_since(turns: &[u32], first: u32) -> u64 {
    let mut sum: u64 = 0;
    for place in first as usize..turns.len() {
        sum = sum.saturating_add(u64::from(turns[place]));
    }
    sum
}

/// What is said of runs that were counted.
fn summary_of(tally: Tally) -> Result<Summary, AllocError>
    requires few { length tally.turns.items < 2 ^ 32 }
    requires pairs { length tally.met.items ≡ 729 }
    ensures summary { IfOk result (λ summary. (facts : List RunFacts) → IsTallyOf facts tally → IsSummaryOf facts summary) }
    ensures tasks { IfOk result (λ summary. length summary.held.items ≡ length tally.held.items) }
{
    let Tally {
        mut turns,
        finished,
        some_held,
        held,
        met,
        mut endings,
        other,
    } = tally;
    let runs = turns.len();
    let last = runs.saturating_sub(1);
    turns.sort_unstable();
    sort_endings(&mut endings)?;
    Ok(Summary {
        runs: runs as u32,
        finished,
        least: turns_at(turns.as_slice(), 0),
        median: turns_at(turns.as_slice(), last / 2),
        most: turns_at(turns.as_slice(), last),
        some_held,
        held,
        met,
        endings,
        other,
    })
}

/// The summary of a script's first runs. Run k goes by the generator that is seeded with `survey.seed + k`, wrapping. However many
/// threads there are, it is the same. After some thousands of runs, fewer where they are long, it tells how far it is. Nothing in it waits.
pub fn summarize(
    rt: &(impl Threads + Sync),
    alloc: Global,
    script: &Script,
    survey: Survey,
    progress: &mut impl Progress,
) -> Result<Summary, ReplayFault>
    ensures summary { IfOk result (Summarizes script.now survey) }
    ensures memory { IfErr result (λ fault. fault ≡ ReplayFault.Memory) }
{
    let plan = &Plan::new(alloc, script, survey.chances)?;
    let mut tally = Tally::new(alloc, script.config.tasks)?;
    let (mut first, mut part) = (0, FIRST_PART);
    while first < survey.runs {
        let count = (survey.runs - first).min(part);
        let batch = Batch {
            script,
            plan,
            seed: survey.seed,
            first,
            count,
        };
        count_batch(rt, alloc, batch, &mut tally)?;
        let made = turns_since(tally.turns.as_slice(), first);
        part = next_part(part, MOST_PART, script.config.tasks, made);
        first += count;
        progress.explored(first, survey.runs);
    }
    Ok(summary_of(tally)?)
}
