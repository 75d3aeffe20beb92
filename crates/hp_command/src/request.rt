//! What the words of a command line ask for.
use hp_explain::View;
use hp_explore::{Chances, Exploration};
use hp_hunt::{Condition, Hunt};
use hp_race as race;
use hp_summary::Survey;
use std::num::NonZeroU32;

/// Which run of a script is written as a trace.
#[derive(Clone, Copy)]
pub struct Scheduling {
    pub seed: u64,
    pub run: u32,
    pub chances: Chances,
}

/// What a run of a script is searched for.
#[derive(Drop)]
pub struct Search {
    pub hunt: Hunt,
    pub conditions: Vec<Condition>,
}

/// What all schedules of a script are searched for.
#[derive(Drop)]
pub struct EverySearch {
    /// So many steps may be denied, and so many tasks killed, in each schedule.
    pub denials: u32,
    pub kills: u32,
    /// So many states are kept at once, at most, and they take so many bytes, or as many as they do.
    pub states: u32,
    pub memory: Option<u64>,
    pub conditions: Vec<Condition>,
}

/// Which schedules of a script are told by their endings.
#[derive(Clone, Copy)]
pub struct EveryBounds {
    /// So many steps may be denied, and so many tasks killed, in each schedule.
    pub denials: u32,
    pub kills: u32,
    /// So many states are kept at once, at most, and they take so many bytes, or as many as they do.
    pub states: u32,
    pub memory: Option<u64>,
}

/// Of which way to end a schedule is written as a trace.
#[derive(Clone, Copy)]
pub struct EndingChoice {
    pub bounds: EveryBounds,
    /// The place of its line in the table of all ways to end, counted from 0.
    pub run: u32,
}

/// Which races of a script are run.
#[derive(Clone, Copy)]
pub enum Racing {
    /// So many, with a line for each. Where `cut` is a number, the journal is cut behind so many calls of each task.
    Times {
        times: u32,
        cut: Option<NonZeroU32>,
        chances: race::Chances,
    },
    /// One, which is written as a trace.
    Trace {
        chances: race::Chances,
    },
}

/// What is done with a trace.
#[derive(Drop)]
pub enum TraceRequest {
    /// To read it and run it.
    Replay,
    /// To read it, and write the state at its end as a picture that can be audited.
    State,
    /// To read it, and count its events.
    Check,
    /// To read it, and explain it.
    Explain(View),
    /// To read it, and explain it in lines of JSON.
    ExplainJson(View),
    /// To read it, and draw it.
    Draw,
    /// To read it, and write it as a page.
    Page,
    /// To read it in the loose form, and write it in the strict one.
    Format,
}

/// What is done with a script, and with a trace that a script's run left.
#[derive(Drop)]
pub enum ScriptRequest {
    /// To read a script, and print a line for each of its runs.
    Explore(Exploration),
    /// To read a script, and summarize its runs.
    Summarize(Survey),
    /// To read a script, and write all ways in which its schedules end.
    ExploreEvery(EveryBounds),
    /// To read a script, and write one run of it as a trace.
    Schedule(Scheduling),
    /// To read a script, and write a shortest schedule that ends in one way as a trace.
    ScheduleEvery(EndingChoice),
    /// To read a script, and write a run of it that meets conditions as a trace.
    Find(Search),
    /// To read a script, and write the shortest of all its schedules that meets conditions as a trace.
    FindEvery(EverySearch),
    /// To read a trace that meets conditions, and write a small one that still does.
    Minimize(Vec<Condition>),
    /// To read a script, and race its tasks.
    Race(Racing),
}

/// What is done with a pool that runs.
#[derive(Drop)]
pub enum PoolRequest {
    /// To drive it line by line. A line `save` writes the file whose lines come first, if there is one; and lines are asked for where they
    /// are typed at a terminal.
    Step {
        file: Option<String>,
        is_typed: bool,
    },
    /// To run a workload of this name over a driver.
    Work {
        name: String,
        driver: String,
    },
    /// To run a workload of this name, and write what its calls do as a trace.
    TraceWork {
        name: String,
        driver: String,
    },
}

/// What the command line asks for.
#[derive(Drop)]
pub enum Request {
    Trace(TraceRequest),
    Script(ScriptRequest),
    Pool(PoolRequest),
    /// To read a pool's state as text, and write all that is wrong with it.
    Audit,
}

/// What a command reads.
#[derive(Drop)]
pub enum Input {
    /// Standard input, of which all is read before most is answered.
    Standard,
    /// The file of this name.
    File(String),
    /// The file of this name, and behind it standard input, line by line.
    Before(String),
    /// Nothing, or standard input line by line.
    Nothing,
}

/// When words are coloured.
#[derive(Clone, Copy, Debug, PartialEq, Eq)]
pub enum When {
    /// At a terminal, unless the environment is against it.
    Auto,
    Always,
    Never,
}

/// What the command line asks for, what is read for it and whether in the loose form, when words of the output are coloured, and whether
/// its lines are written as objects of JSON.
#[derive(Drop)]
pub struct Asked {
    pub request: Request,
    pub input: Input,
    pub colours: When,
    pub is_json: bool,
    pub is_loose: bool,
}
