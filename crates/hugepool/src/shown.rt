//! How what is written at a request is shown: the words that are coloured, and whose lines are written as objects of JSON.
ghost use Rattle.std.specs.Prelude.{◌≡◌};
ghost use Rattle.hugepool.specs.Requests.{shown_at};
ghost use Rattle.hugepool.specs.Shown.{shown_as, shown_of_pool, shown_of_script};

use crate::traces::shown_of_trace;
use hp_command::{Asked, PoolRequest, Racing, Request, ScriptRequest};
use hp_objects::Output;
use hp_paint::Palette;

/// The words that are coloured, if any are, and whose lines are written as objects, if they can be.
#[derive(Clone, Copy, Debug, PartialEq, Eq)]
pub(crate) struct Shown {
    pub(crate) palette: Option<Palette>,
    pub(crate) output: Option<Output>,
}

/// So it is shown.
pub(crate) fn shown_as(palette: Option<Palette>, output: Option<Output>) -> Shown
    ensures { result ≡ shown_as palette output }
{
    Shown { palette, output }
}

// What is written of a script.
fn shown_of_script(request: &ScriptRequest) -> Shown
    ensures { result ≡ shown_of_script request.now }
{
    match request {
        ScriptRequest::Explore(_) => shown_as(Some(Palette::Runs), Some(Output::Explore)),
        ScriptRequest::Summarize(_) => shown_as(Some(Palette::Outcomes), Some(Output::Explore)),
        ScriptRequest::ExploreEvery(_) => shown_as(None, Some(Output::Explore)),
        ScriptRequest::Schedule(_) | ScriptRequest::ScheduleEvery(_) => {
            shown_as(None, Some(Output::Schedule))
        }
        ScriptRequest::Find(_) | ScriptRequest::FindEvery(_) => {
            shown_as(None, Some(Output::Find))
        }
        ScriptRequest::Minimize(_) => shown_as(None, Some(Output::Minimize)),
        ScriptRequest::Race(Racing::Times { .. }) => {
            shown_as(Some(Palette::Races), Some(Output::Race))
        }
        ScriptRequest::Race(Racing::Trace { .. }) => shown_as(None, Some(Output::Race)),
    }
}

// What is written of a pool.
fn shown_of_pool(request: &PoolRequest) -> Shown
    ensures { result ≡ shown_of_pool request.now }
{
    match request {
        PoolRequest::Step { .. } => shown_as(Some(Palette::Outcomes), None),
        PoolRequest::Work { .. } => shown_as(Some(Palette::Work), Some(Output::Work)),
        PoolRequest::TraceWork { .. } => shown_as(None, Some(Output::WorkTrace)),
    }
}

/// What is written at a request.
pub(crate) fn shown_at(request: &Request) -> Shown
    ensures { result ≡ shown_at request.now }
{
    match request {
        Request::Trace(request) => shown_of_trace(request),
        Request::Script(request) => shown_of_script(request),
        Request::Pool(request) => shown_of_pool(request),
        Request::Audit => shown_as(None, Some(Output::Audit)),
    }
}

/// Whose lines are written as objects, if that is asked for.
pub(crate) fn chosen_output(asked: &Result<Asked, clap::Error>) -> Option<Output> {
    match asked {
        Ok(asked) if asked.is_json => shown_at(&asked.request).output,
        _ => None,
    }
}
