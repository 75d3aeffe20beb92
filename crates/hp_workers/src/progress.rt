//! How far a search is, and how many of its runs are handed out at once.
ghost use Rattle.std.specs.Prelude.{◌≡◌, ◌<◌};
ghost use Rattle.hp_workers.specs.Parts.{next_part};

/// Who is told how far a search is. It changes nothing of what comes of it.
pub trait Progress {
    /// So many of `all` runs have been explored.
    fn explored(&mut self, runs: u32, all: u32);
}

/// How many runs the first part of a search has.
pub const FIRST_PART: u32 = 64;
/// A part of fewer turns is soon done, in a pool of one task. Whose turn it is, is asked of each task: so the more tasks, the longer
/// a turn takes.
const SOON: u64 = 16_000_000;
/// How many times as many runs the next part has where one was soon done.
const GROWTH: u32 = 4;

/// How many runs the part behind this one has, whose runs of so many tasks made so many turns: more, where these were soon made, but at
/// most so many. Long runs come a few at a time, so whoever watches sees them; to begin the threads of a part takes as long as
/// hundreds of short runs.
pub fn next_part(part: u32, most: u32, tasks: u32, turns: u64) -> u32
    requires some { 0 < part }
    requires room { 0 < most }
    ensures grows { result ≡ next_part part most tasks turns }
    ensures some { 0 < result }
{
    if turns.saturating_mul(u64::from(tasks)) < SOON {
        part.saturating_mul(GROWTH).min(most)
    } else {
        part
    }
}
