//! Runs are counted one after the other, in the order of their numbers.
ghost use Rattle.std.specs.Prelude.{◌≡◌, ◌≢◌, ◌+◌, ◌<◌, ◌≤◌, ◌^◌, ◌++◌, ℕ, false, List, [], ◌∷◌, None, All, MatchBool, if◌then◌else◌};
ghost use Rattle.std.specs.Prelude.{IfOk, IfSome, OnOk, length, slice_index_or};
ghost use Rattle.std.specs.List.{list_any};
ghost use Rattle.hp_summary.specs.Summaries.{AreEndings, IsFinished, IsSized, IsTallied, IsTallyOf};
ghost use Rattle.hp_summary.specs.declared.facts.RunFacts.{RunFacts};

use crate::facts::RunFacts;
use crate::phases::PAIRS;
use hp_base::Answer;
use hp_explore::Finish;
use hp_watch::EndedCall;
use std::alloc::{AllocError, Global};

/// How many ways in which runs end are kept apart: those of the first runs.
const MOST_ENDINGS: usize = 256;

/// A way in which runs ended.
#[derive(Debug, Drop)]
pub struct Ending {
    /// The calls that ended, task by task.
    pub ended: Vec<EndedCall>,
    /// How many runs ended so.
    pub runs: u32,
    /// The first of them.
    pub first: u32,
}

/// Runs that were counted.
#[derive(Drop)]
pub(crate) struct Tally {
    // how many turns each made
    pub(crate) turns: Vec<u32>,
    // how many came to their ends
    pub(crate) finished: u32,
    // in how many some task was held up
    pub(crate) some_held: u32,
    // in how many each task was
    pub(crate) held: Vec<u32>,
    // in how many each two phases met
    pub(crate) met: Vec<u32>,
    // the ways in which they ended, in the order of their first runs
    pub(crate) endings: Vec<Ending>,
    // how many ended in others
    pub(crate) other: u32,
}

/// Whether the run came to its end.
fn is_finished(facts: &RunFacts) -> bool
    ensures { MatchBool result (IsFinished facts.now) (¬ IsFinished facts.now) }
{
    facts.line.finish == Finish::Finished
}

/// Whether some task was held up in the run.
fn is_some_held(facts: &RunFacts) -> bool
    ensures { result ≡ list_any (λ held. held) facts.now.held.items }
{
    facts.held.iter().any(|held| *held)
}

/// One more where it is so.
fn counted(count: u32, so: bool) -> u32
    requires { count + 1 < 2 ^ 32 }
    ensures { result ≡ count + (if so then 1 else 0) }
{
    count + u32::from(so)
}

/// Counts each mark that is set. It is lent slices, so that many are counted at once.
fn add_marks(counts: &mut [u32], marks: &[bool])
    requires long { length marks.now ≡ length counts.old }
    requires room { All (λ n. n + 1 < 2 ^ 32) counts.old }
    ensures long { length counts.new ≡ length counts.old }
    ensures each { (k : ℕ) → k < length counts.old → slice_index_or counts.new k 0
        ≡ slice_index_or counts.old k 0 + (if slice_index_or marks.now k false then 1 else 0) }
{
    for place in 0..marks.len() {
        counts[place] += u32::from(marks[place]);
    }
}

/// Counts each mark that is set.
fn count_marks(counts: &mut Vec<u32>, marks: &[bool])
    requires long { length marks.now ≡ length counts.old.items }
    requires room { All (λ n. n + 1 < 2 ^ 32) counts.old.items }
    ensures long { length counts.new.items ≡ length counts.old.items }
    ensures each { (k : ℕ) → k < length counts.old.items → slice_index_or counts.new.items k 0
        ≡ slice_index_or counts.old.items k 0 + (if slice_index_or marks.now k false then 1 else 0) }
{
    add_marks(counts.as_mut_slice(), marks);
}

/// Whether calls ended in the same way.
fn is_same(one: &[EndedCall], other: &[EndedCall]) -> bool
    ensures { MatchBool result (one.now ≡ other.now) (one.now ≢ other.now) }
{
    // The checker of borrows asks for a mention of the type that is compared.
    let _none: Option<Answer> = None;
    one == other
}

/// The place of the ending in which calls ended so.
fn find_ending(endings: &[Ending], ended: &[EndedCall]) -> Option<usize>
    ensures there { IfSome result (λ place. place < length endings.now) }
    ensures same { IfSome result (λ place. (d : Ending) → (slice_index_or endings.now place d).ended.items ≡ ended.now) }
    ensures none { result ≡ None → All (λ ending. ended.now ≢ ending.ended.items) endings.now }
{
    for place in 0..endings.len() {
        if is_same(ended, endings[place].ended.as_slice()) {
            return Some(place);
        }
    }
    None
}

/// Counts in which way a run ended.
fn count_ending(
    alloc: Global,
    endings: &mut Vec<Ending>,
    other: &mut u32,
    ended: &[EndedCall],
    run: u32,
) -> Result<(), AllocError>
    requires room { (before : List RunFacts) × AreEndings before endings.old.items other.old × (length before + 1 < 2 ^ 32) }
    ensures { OnOk result ((before : List RunFacts) (facts : RunFacts) → length before ≡ run → facts.ended.items ≡ ended.now
        → AreEndings before endings.old.items other.old → AreEndings (before ++ facts ∷ []) endings.new.items other.new) }
{
    match find_ending(endings.as_slice(), ended) {
        Some(place) => endings[place].runs += 1,
        None => {
            if endings.len() < MOST_ENDINGS {
                endings.push(Ending {
                    ended: ended.to_vec(alloc)?,
                    runs: 1,
                    first: run,
                })?;
            } else {
                *other += 1;
            }
        }
    }
    Ok(())
}

impl Tally {
    /// No run has been counted yet.
    pub(crate) fn new(alloc: Global, tasks: u32) -> Result<Tally, AllocError>
        ensures sized { IfOk result (λ tally. IsSized tally tasks) }
        ensures none { IfOk result (λ tally. IsTallyOf [] tally) }
    {
        Ok(Tally {
            turns: Vec::new(alloc),
            finished: 0,
            some_held: 0,
            held: vec![in alloc; 0; tasks as usize]?,
            met: vec![in alloc; 0; PAIRS]?,
            endings: Vec::new(alloc),
            other: 0,
        })
    }

    /// One run more.
    pub(crate) fn add(&mut self, alloc: Global, facts: &RunFacts) -> Result<(), AllocError>
        requires room { IsTallied self.old }
        requires tasks { length facts.now.held.items ≡ length self.old.held.items }
        requires pairs { length facts.now.met.items ≡ length self.old.met.items }
        ensures held { length self.new.held.items ≡ length self.old.held.items }
        ensures met { length self.new.met.items ≡ length self.old.met.items }
        ensures tally { OnOk result ((before : List RunFacts) → IsTallyOf before self.old
            → IsTallyOf (before ++ facts.now ∷ []) self.new) }
    {
        let run = self.turns.len() as u32;
        count_marks(&mut self.held, facts.held.as_slice());
        count_marks(&mut self.met, facts.met.as_slice());
        self.finished = counted(self.finished, is_finished(facts));
        self.some_held = counted(self.some_held, is_some_held(facts));
        count_ending(
            alloc,
            &mut self.endings,
            &mut self.other,
            facts.ended.as_slice(),
            run,
        )?;
        self.turns.push(facts.line.turns)?;
        Ok(())
    }
}
