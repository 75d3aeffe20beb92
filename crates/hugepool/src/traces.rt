//! What is answered to a request for something to be done with a trace, and how what is written then is shown.
ghost use Rattle.std.specs.Prelude.{◌≡◌};
ghost use Rattle.std.specs.Option.{option_map};
ghost use Rattle.hugepool.specs.Status.{status_at};
ghost use Rattle.hugepool.specs.Traces.{EndsTrace, shown_of_trace};

use crate::answering::text;
use crate::shown::{Shown, shown_as};
use crate::stop::{Stop, stop_of_format};
use hp_command::TraceRequest;
use hp_objects::Output;
use hp_paint::Palette;
use hp_picture_commands::run_state;
use hp_program::run_replay;
use hp_text::Source;
use hp_trace_commands::{run_check, run_draw, run_explain, run_explain_json, run_format, run_page};
use std::alloc::Global;
use std::io::Write;

/// What is answered to the request, and the output.
#[tactic(auto, unfolding(crate::specs::Traces::EndsTrace))]
pub(crate) fn answer_trace<R: Source, W: Write + Drop>(
    alloc: Global,
    request: TraceRequest,
    reader: &mut R,
    out: W,
) -> (Result<(), Stop>, Option<W>)
    ensures { EndsTrace request (status_at result.0) (R.remaining reader.old) (R.remaining reader.new) (R.failures reader.old)
        (R.failures reader.new) (W.contents out) (option_map W.contents result.1) }
{
    match request {
        TraceRequest::Replay => text(run_replay(alloc, reader, out)),
        TraceRequest::State => text(run_state(alloc, reader, out)),
        TraceRequest::Check => text(run_check(alloc, reader, out)),
        TraceRequest::Explain(view) => text(run_explain(alloc, &view, reader, out)),
        TraceRequest::ExplainJson(view) => text(run_explain_json(alloc, &view, reader, out)),
        TraceRequest::Draw => text(run_draw(alloc, reader, out)),
        TraceRequest::Page => text(run_page(alloc, reader, out)),
        TraceRequest::Format => {
            let (formatted, out) = run_format(alloc, reader, out);
            (stop_of_format(formatted), out)
        }
    }
}

/// How what is written of a trace is shown.
pub(crate) fn shown_of_trace(request: &TraceRequest) -> Shown
    ensures { result ≡ shown_of_trace request.now }
{
    match request {
        TraceRequest::Replay | TraceRequest::Explain(_) => {
            shown_as(Some(Palette::Outcomes), None)
        }
        TraceRequest::Check => shown_as(None, Some(Output::Check)),
        TraceRequest::State
        | TraceRequest::ExplainJson(_)
        | TraceRequest::Draw
        | TraceRequest::Page
        | TraceRequest::Format => shown_as(None, None),
    }
}
