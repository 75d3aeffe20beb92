//! Why the program ends with another status than 0.
ghost use Rattle.std.specs.Prelude.{◌≡◌, IfSome, false};
ghost use Rattle.hp_picture_commands.specs.Auditing.{status_of_audit};
ghost use Rattle.hp_pool_commands.specs.Working.{status_of_work};
ghost use Rattle.hp_program.specs.Answers.{status_of_runs, status_of_text};
ghost use Rattle.hp_script_commands.specs.Hunting.{status_of_hunt};
ghost use Rattle.hp_script_commands.specs.Searching.{status_of_every};
ghost use Rattle.hp_trace_commands.specs.Formatting.{status_of_format};
ghost use Rattle.hugepool.specs.Status.{cut_at, searches, status_at, status_of, status_of_loose, status_unopened, table_cut_at};

use hp_command::{Request, ScriptRequest};
use hp_format::LooseFault;
use hp_picture::PictureFault;
use hp_pool_commands::WorkFault;
use hp_text::ReplayFault;
use thiserror::Error;

/// Why the program ends with another status than 0.
#[derive(Debug, Drop, Error)]
pub(crate) enum Stop {
    #[error("{0}")]
    Usage(clap::Error),
    #[error("{0}")]
    Replay(ReplayFault),
    #[error("{0}")]
    Work(WorkFault),
    #[error("{0}")]
    Missed(Missed),
    #[error("hugepool: {0}\n")]
    Loose(LooseFault),
    #[error("{0}")]
    Untold(ReplayFault),
    #[error("hugepool: {0}\n")]
    UntoldLoose(LooseFault),
    #[error("hugepool: {0}\n")]
    Picture(PictureFault),
    /// The limits ran out: no schedule of fewer events meets the conditions.
    #[error("hugepool: the limit of --states or --memory was reached: no schedule of fewer than {0} events meets all conditions\n")]
    Cut(u32),
    /// The limits ran out: endings of schedules of as many events may be missing.
    #[error("hugepool: the limit of --states or --memory was reached: not all schedules of {0} and more events were looked at\n")]
    CutTable(u32),
    /// Schedules go on up to the most events that one may have: none that is shorter meets the conditions.
    #[error("hugepool: the limit of 1000000 events was reached: no schedule of fewer events meets all conditions\n")]
    Long,
    /// They do: endings of schedules of as many events may be missing.
    #[error("hugepool: the limit of 1000000 events was reached: not all schedules of as many events were looked at\n")]
    LongTable,
}

/// No schedule has as many turns.
const MOST_TURNS: u32 = 1_000_000;

/// What was asked for, and isn't so.
#[derive(Clone, Copy, Debug, PartialEq, Eq, Error)]
pub(crate) enum Missed {
    /// All runs come to their ends. The lines of the others say so.
    #[error("")]
    Ends,
    /// Nothing is wrong with the state. The lines of findings say so.
    #[error("")]
    Findings,
    /// One of so many runs meets the conditions.
    #[error("hugepool: no run meets all conditions (runs explored: {0})\n")]
    Runs(u32),
    /// A schedule meets the conditions.
    #[error("hugepool: no schedule meets all conditions\n")]
    Schedules,
    /// The table of all ways to end has a row of that number.
    #[error("hugepool: explore --every prints no line of that number; they are counted from 0\n")]
    Row,
    /// The trace meets the conditions.
    #[error("hugepool: the trace doesn't meet all conditions\n")]
    Trace,
}

impl Stop {
    /// The status of the program.
    pub(crate) fn status(&self) -> u8
        ensures { result ≡ status_of self.now }
    {
        match self {
            Stop::Usage(_) | Stop::Untold(_) | Stop::UntoldLoose(_) | Stop::Picture(_) => 2,
            Stop::Cut(_) | Stop::CutTable(_) | Stop::Long | Stop::LongTable => 3,
            Stop::Replay(_) | Stop::Missed(_) | Stop::Loose(_) => 1,
            Stop::Work(fault) => fault.status(),
        }
    }
}

/// Of a command that writes a text.
pub(crate) fn stop_of_text(answer: Result<(), ReplayFault>) -> Result<(), Stop>
    ensures { status_at result ≡ status_of_text answer }
{
    match answer {
        Ok(()) => Ok(()),
        Err(fault) => Err(Stop::Replay(fault)),
    }
}

/// Of a command that answers whether something is so.
pub(crate) fn stop_of_runs(answer: Result<bool, ReplayFault>, missed: Missed) -> Result<(), Stop>
    ensures { status_at result ≡ status_of_runs answer }
{
    match answer {
        Ok(true) => Ok(()),
        Ok(false) => Err(Stop::Missed(missed)),
        Err(why) => Err(Stop::Replay(why)),
    }
}

/// Of a command that searches for something: a fault isn't taken for an answer.
pub(crate) fn stop_of_hunt(answer: Result<bool, ReplayFault>, missed: Missed) -> Result<(), Stop>
    ensures { status_at result ≡ status_of_hunt answer }
{
    match answer {
        Ok(is_found) => stop_of_runs(Ok(is_found), missed),
        Err(why) => Err(Stop::Untold(why)),
    }
}

/// Why a search among all schedules ends that was cut at so many turns.
fn cut_at(turns: u32) -> Stop
    ensures { result ≡ cut_at turns }
{
    if turns == MOST_TURNS {
        Stop::Long
    } else {
        Stop::Cut(turns)
    }
}

/// The same of a table of their endings.
fn table_cut_at(turns: u32) -> Stop
    ensures { result ≡ table_cut_at turns }
{
    if turns == MOST_TURNS {
        Stop::LongTable
    } else {
        Stop::CutTable(turns)
    }
}

/// Of a search among all schedules.
pub(crate) fn stop_of_every(answer: Result<bool, ReplayFault>, cut: Option<u32>) -> Result<(), Stop>
    ensures status { status_at result ≡ status_of_every cut answer }
    ensures limit { IfSome cut (λ turns. answer ≡ Ok false → result ≡ Err (cut_at turns)) }
{
    match (answer, cut) {
        (Ok(false), Some(turns)) => Err(cut_at(turns)),
        (answer, _) => stop_of_hunt(answer, Missed::Schedules),
    }
}

/// Of a table of the endings of all schedules, and of what is taken from it.
pub(crate) fn stop_of_table(
    answer: Result<bool, ReplayFault>,
    cut: Option<u32>,
    missed: Missed,
) -> Result<(), Stop>
    ensures status { status_at result ≡ status_of_every cut answer }
    ensures limit { IfSome cut (λ turns. answer ≡ Ok false → result ≡ Err (table_cut_at turns)) }
{
    match (answer, cut) {
        (Ok(false), Some(turns)) => Err(table_cut_at(turns)),
        (answer, _) => stop_of_hunt(answer, missed),
    }
}

/// Of `format`.
pub(crate) fn stop_of_format(answer: Result<(), LooseFault>) -> Result<(), Stop>
    ensures { status_at result ≡ status_of_format answer }
{
    match answer {
        Ok(()) => Ok(()),
        Err(LooseFault::Stream(why)) => Err(Stop::Replay(why)),
        Err(fault) => Err(Stop::Loose(fault)),
    }
}

/// Whether a request searches for something, so that a fault must not be taken for an answer.
pub(crate) fn searches(request: &Request) -> bool
    ensures { result ≡ searches request.now }
{
    matches!(
        request,
        Request::Script(
            ScriptRequest::Find(_)
                | ScriptRequest::FindEvery(_)
                | ScriptRequest::Minimize(_)
                | ScriptRequest::ExploreEvery(_)
                | ScriptRequest::ScheduleEvery(_)
        )
    )
}

/// Where the input can't be opened: a command whose status 1 is an answer couldn't tell.
pub(crate) fn status_unopened(request: &Request) -> u8
    ensures { result ≡ status_unopened request.now }
{
    if searches(request) || matches!(request, Request::Audit) {
        2
    } else {
        1
    }
}

/// Of a text in the loose form that can't be read.
pub(crate) fn stop_of_loose(fault: LooseFault, is_search: bool) -> Stop
    ensures { status_of result ≡ status_of_loose is_search }
{
    match (fault, is_search) {
        (LooseFault::Stream(why), false) => Stop::Replay(why),
        (LooseFault::Stream(why), true) => Stop::Untold(why),
        (fault, false) => Stop::Loose(fault),
        (fault, true) => Stop::UntoldLoose(fault),
    }
}

/// Of `audit`.
pub(crate) fn stop_of_audit(answer: Result<bool, PictureFault>) -> Result<(), Stop>
    ensures { status_at result ≡ status_of_audit answer }
{
    match answer {
        Ok(right) => stop_of_runs(Ok(right), Missed::Findings),
        Err(PictureFault::Stream(why)) => Err(Stop::Untold(why)),
        Err(fault) => Err(Stop::Picture(fault)),
    }
}

/// Of `work`.
pub(crate) fn stop_of_work(answer: Result<(), WorkFault>) -> Result<(), Stop>
    ensures { status_at result ≡ status_of_work answer }
{
    match answer {
        Ok(()) => Ok(()),
        Err(why) => Err(Stop::Work(why)),
    }
}
