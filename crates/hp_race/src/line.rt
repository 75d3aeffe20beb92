//! What is told of a race.
ghost use Rattle.std.specs.Prelude.{Some};
ghost use Rattle.hp_race.specs.Text.{race_text, verdict_text};

use std::fmt;

/// What was found of a race at its end: the first of these that applies.
#[derive(Clone, Copy, Debug, PartialEq, Eq)]
pub enum Verdict {
    /// All calls were made, and the tasks' histories make up the journal, which is a run of the script's pool.
    Closed,
    /// The position at which the journal first fails to be an interleaving of the tasks' histories.
    Disagree(u64),
    /// A call ended as none may, or what was closed isn't the pool that was opened.
    Astray,
    /// A call was left, and those behind it: what it waits for didn't end for long, while some thread hadn't come to the start.
    Late,
}

/// How a race ended, after how many entries of the journal, and what the pool's counts were then.
#[derive(Clone, Copy, Debug, PartialEq, Eq)]
pub struct Race {
    pub verdict: Verdict,
    /// The holds that changed the pool. Where histories disagree, those before.
    pub entries: u64,
    /// Free frames.
    pub free: u32,
    /// The reserve count.
    pub resv: u32,
}

impl fmt::Display for Verdict {
    ghost output = { λ verdict. Some (verdict_text verdict) };

    fn fmt<W: fmt::Write>(&self, f: &mut fmt::Formatter<W>) -> fmt::Result {
        match *self {
            Verdict::Closed => f.write_str("closed"),
            Verdict::Disagree(position) => write!(f, "disagree {position}"),
            Verdict::Astray => f.write_str("astray"),
            Verdict::Late => f.write_str("late"),
        }
    }
}

/// What a race's line says behind its number, as `closed entries 16 free 3 resv 1`.
impl fmt::Display for Race {
    ghost output = { λ race. Some (race_text race) };

    fn fmt<W: fmt::Write>(&self, f: &mut fmt::Formatter<W>) -> fmt::Result {
        let Race {
            verdict,
            entries,
            free,
            resv,
        } = *self;
        write!(f, "{verdict} entries {entries} free {free} resv {resv}")
    }
}
