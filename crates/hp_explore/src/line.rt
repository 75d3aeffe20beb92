//! What is told of a run.
ghost use Rattle.std.specs.Prelude.{Some};
ghost use Rattle.hp_explore.specs.Text.{finish_word, run_text};

use hp_audit::Finding;
use std::fmt;

/// How a run ends.
#[derive(Clone, Copy, Debug, PartialEq, Eq)]
pub enum Finish {
    /// No call is left or in flight.
    Finished,
    /// Calls are left or in flight, and none can go on.
    Stuck,
    /// A million turns were made.
    Limit,
    /// The audit found this.
    Found(Finding),
}

/// How a run ended, after how many turns, and what the pool's counts were then.
#[derive(Clone, Copy, Debug, PartialEq, Eq)]
pub struct RunLine {
    /// The run's number, from 0.
    pub run: u32,
    pub finish: Finish,
    pub turns: u32,
    /// Free frames.
    pub free: u32,
    /// The reserve count.
    pub resv: u32,
}

impl fmt::Display for Finish {
    ghost output = { λ finish. Some (finish_word finish) };

    fn fmt<W: fmt::Write>(&self, f: &mut fmt::Formatter<W>) -> fmt::Result {
        f.write_str(match self {
            Finish::Finished => "finished",
            Finish::Stuck => "stuck",
            Finish::Limit => "limit",
            Finish::Found(Finding::Shape) => "shape",
            Finish::Found(Finding::Agree) => "agree",
            Finish::Found(Finding::Place) => "place",
            Finish::Found(Finding::Size) => "size",
            Finish::Found(Finding::Count) => "count",
            Finish::Found(Finding::Used) => "used",
        })
    }
}

/// The run's line, without its end, as `run 0 finished turns 8 free 4 resv 4`.
impl fmt::Display for RunLine {
    ghost output = { λ line. Some (run_text line) };

    fn fmt<W: fmt::Write>(&self, f: &mut fmt::Formatter<W>) -> fmt::Result {
        let RunLine {
            run,
            finish,
            turns,
            free,
            resv,
        } = *self;
        write!(
            f,
            "run {run} {finish} turns {turns} free {free} resv {resv}"
        )
    }
}
