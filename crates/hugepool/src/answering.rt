//! What is answered to each request: by the commands' own crates, a function for each kind (of traces in `traces.rt`).
ghost use Rattle.std.specs.Prelude.{◌≡◌};
ghost use Rattle.std.specs.Option.{option_map};
ghost use Rattle.hp_program.specs.Answers.{status_of_runs, status_of_text};
ghost use Rattle.hp_script_commands.specs.Hunting.{status_of_hunt};
ghost use Rattle.hp_command.specs.declared.request.ScriptRequest.TheVariants as script;
ghost use Rattle.hugepool.specs.Requests.{Ends, EndsPool, EndsScript};
ghost use Rattle.hugepool.specs.Status.{status_at};

use crate::stop::{
    Missed, Stop, stop_of_audit, stop_of_every, stop_of_hunt, stop_of_runs, stop_of_table,
    stop_of_text, stop_of_work,
};
use crate::traces::answer_trace;
use hp_command::{EndingChoice, EveryBounds, EverySearch, PoolRequest, Request, ScriptRequest};
use hp_picture_commands::run_audit;
use hp_pool_commands::{Stepping, WorkWords, run_step, run_trace_work, run_work};
use hp_script_commands::{
    Report, run_explore, run_explore_every, run_find, run_find_every, run_minimize, run_race,
    run_schedule, run_schedule_every, run_summarize,
};
use hp_text::{ReplayFault, Source};
use std::alloc::Global;
use std::io::Write;
use std::rt::Files;
use std::sync::Wait;
use std::thread::Threads;
use std::time::Clock;

/// What a command that writes a text answers, and its output.
pub(crate) fn text<W>(ran: (Result<(), ReplayFault>, Option<W>)) -> (Result<(), Stop>, Option<W>)
    ensures stop { status_at result.0 ≡ status_of_text ran.0 }
    ensures out { result.1 ≡ ran.1 }
{
    (stop_of_text(ran.0), ran.1)
}

// What a command answers that says whether something is so, and its output.
fn runs<W>(
    ran: (Result<bool, ReplayFault>, Option<W>),
    missed: Missed,
) -> (Result<(), Stop>, Option<W>)
    ensures stop { status_at result.0 ≡ status_of_runs ran.0 }
    ensures out { result.1 ≡ ran.1 }
{
    (stop_of_runs(ran.0, missed), ran.1)
}

// What a command answers that searches for something, and its output.
fn hunted<W>(
    ran: (Result<bool, ReplayFault>, Option<W>),
    missed: Missed,
) -> (Result<(), Stop>, Option<W>)
    ensures stop { status_at result.0 ≡ status_of_hunt ran.0 }
    ensures out { result.1 ≡ ran.1 }
{
    (stop_of_hunt(ran.0, missed), ran.1)
}

// What is answered to a request for the table of all endings.
#[tactic(auto, unfolding(crate::specs::Requests::EndsScript))]
fn answer_table<H: Clock + Threads + Sync, R: Source, W: Write + Drop>(
    rt: &H,
    alloc: Global,
    bounds: EveryBounds,
    reader: &mut R,
    out: W,
    errors: &mut impl Report,
) -> (Result<(), Stop>, Option<W>)
    ensures { EndsScript (script.ExploreEvery bounds) (status_at result.0) (R.remaining reader.old) (R.remaining reader.new)
        (R.failures reader.old) (R.failures reader.new) (W.contents out) (option_map W.contents result.1) }
{
    let mut cut = None;
    let (done, out) = run_explore_every(rt, alloc, bounds, reader, out, &mut cut, errors);
    (stop_of_table(done, cut, Missed::Schedules), out)
}

// What is answered to a request for a schedule of one line of that table.
#[tactic(auto, unfolding(crate::specs::Requests::EndsScript))]
fn answer_choice<H: Clock + Threads + Sync, R: Source, W: Write + Drop>(
    rt: &H,
    alloc: Global,
    choice: EndingChoice,
    reader: &mut R,
    out: W,
    errors: &mut impl Report,
) -> (Result<(), Stop>, Option<W>)
    ensures { EndsScript (script.ScheduleEvery choice) (status_at result.0) (R.remaining reader.old) (R.remaining reader.new)
        (R.failures reader.old) (R.failures reader.new) (W.contents out) (option_map W.contents result.1) }
{
    let mut cut = None;
    let (done, out) = run_schedule_every(rt, alloc, choice, reader, out, &mut cut, errors);
    (stop_of_table(done, cut, Missed::Row), out)
}

// What is answered to a request for a search among all schedules.
#[tactic(auto, unfolding(crate::specs::Requests::EndsScript))]
fn answer_search<H: Clock + Threads + Sync, R: Source, W: Write + Drop>(
    rt: &H,
    alloc: Global,
    search: &EverySearch,
    reader: &mut R,
    out: W,
    errors: &mut impl Report,
) -> (Result<(), Stop>, Option<W>)
    ensures { EndsScript (script.FindEvery search.now) (status_at result.0) (R.remaining reader.old) (R.remaining reader.new)
        (R.failures reader.old) (R.failures reader.new) (W.contents out) (option_map W.contents result.1) }
{
    let mut cut = None;
    let (met, out) = run_find_every(rt, alloc, search, reader, out, &mut cut, errors);
    (stop_of_every(met, cut), out)
}

// What is answered to a request for something to be done with a script, or with a trace that a run of one left.
#[tactic(auto, unfolding(crate::specs::Requests::EndsScript))]
fn answer_script<H: Clock + Threads + Wait + Sync, R: Source, W: Write + Drop>(
    rt: &H,
    alloc: Global,
    request: ScriptRequest,
    reader: &mut R,
    out: W,
    errors: &mut impl Report,
) -> (Result<(), Stop>, Option<W>)
    ensures { EndsScript request (status_at result.0) (R.remaining reader.old) (R.remaining reader.new) (R.failures reader.old)
        (R.failures reader.new) (W.contents out) (option_map W.contents result.1) }
{
    match request {
        ScriptRequest::Explore(exploration) => runs(
            run_explore(rt, alloc, exploration, reader, out, errors),
            Missed::Ends,
        ),
        ScriptRequest::Summarize(survey) => runs(
            run_summarize(rt, alloc, survey, reader, out, errors),
            Missed::Ends,
        ),
        ScriptRequest::ExploreEvery(bounds) => {
            answer_table(rt, alloc, bounds, reader, out, errors)
        }
        ScriptRequest::Schedule(scheduling) => {
            text(run_schedule(alloc, scheduling, reader, out, errors))
        }
        ScriptRequest::ScheduleEvery(choice) => {
            answer_choice(rt, alloc, choice, reader, out, errors)
        }
        ScriptRequest::Find(search) => hunted(
            run_find(rt, alloc, &search, reader, out, errors),
            Missed::Runs(search.hunt.limit),
        ),
        ScriptRequest::FindEvery(search) => {
            answer_search(rt, alloc, &search, reader, out, errors)
        }
        ScriptRequest::Minimize(conditions) => hunted(
            run_minimize(rt, alloc, conditions.as_slice(), reader, out, errors),
            Missed::Trace,
        ),
        ScriptRequest::Race(racing) => runs(
            run_race(rt, alloc, racing, reader, out, errors),
            Missed::Ends,
        ),
    }
}

// What is answered to a request for something to be done with a pool that runs.
#[tactic(auto, unfolding(crate::specs::Requests::EndsPool))]
fn answer_pool<H: Clock + Files + Threads + Wait + Sync, R: Source, W: Write + Drop>(
    rt: &H,
    alloc: Global,
    request: PoolRequest,
    reader: &mut R,
    out: W,
) -> (Result<(), Stop>, Option<W>)
    ensures { EndsPool request (status_at result.0) (R.remaining reader.old) (R.remaining reader.new) (R.failures reader.old)
        (R.failures reader.new) (W.contents out) (option_map W.contents result.1) }
{
    match request {
        PoolRequest::Step { file, is_typed } => text(run_step(
            rt,
            alloc,
            reader,
            Stepping { file, is_typed },
            out,
        )),
        PoolRequest::Work { name, driver } => {
            let (worked, out) = run_work(rt, alloc, WorkWords { name, driver }, out);
            (stop_of_work(worked), out)
        }
        PoolRequest::TraceWork { name, driver } => {
            let (worked, out) = run_trace_work(alloc, WorkWords { name, driver }, out);
            (stop_of_work(worked), out)
        }
    }
}

/// What is answered to a request, and the output, unless it went with a buffer for which there was no memory.
#[tactic(auto, unfolding(crate::specs::Requests::Ends))]
pub(crate) fn answer<H: Clock + Files + Threads + Wait + Sync, R: Source, W: Write + Drop>(
    rt: &H,
    alloc: Global,
    request: Request,
    reader: &mut R,
    out: W,
    errors: &mut impl Report,
) -> (Result<(), Stop>, Option<W>)
    ensures { Ends request (status_at result.0) (R.remaining reader.old) (R.remaining reader.new) (R.failures reader.old)
        (R.failures reader.new) (W.contents out) (option_map W.contents result.1) }
{
    match request {
        Request::Trace(request) => answer_trace(alloc, request, reader, out),
        Request::Script(request) => answer_script(rt, alloc, request, reader, out, errors),
        Request::Pool(request) => answer_pool(rt, alloc, request, reader, out),
        Request::Audit => {
            let (audited, out) = run_audit(alloc, reader, out);
            (stop_of_audit(audited), out)
        }
    }
}
