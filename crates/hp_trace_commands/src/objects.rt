//! `hugepool explain --json` and `hugepool replay --json`: a trace in lines of JSON.
ghost use Rattle.std.specs.Prelude.{◌≡◌, Ok, Err, OnOk, Some, IfErr, IfSome};
ghost use Rattle.std.specs.Option.{option_map};
ghost use Rattle.hp_trace_commands.specs.Traces.{AnsweredJson};

use hp_explain::{View, explain_json};
use hp_program::{flush_gathered, flushed_answer, gather};
use hp_text::{ReplayFault, Source};
use std::alloc::Global;
use std::io::Write;

/// Explains a trace in lines of JSON, as far as its events are asked for. Output is buffered.
pub fn run_explain_json<R: Source, W: Write + Drop>(
    alloc: Global,
    view: &View,
    reader: &mut R,
    out: W,
) -> (Result<(), ReplayFault>, Option<W>)
    ensures { AnsweredJson view.now result.0 (R.remaining reader.old) (R.remaining reader.new) (R.failures reader.old)
        (R.failures reader.new) (W.contents out) (option_map W.contents result.1) }
{
    let Ok(mut sink) = gather(alloc, out) else {
        return (Err(ReplayFault::Memory), None);
    };
    let explained = explain_json(alloc, view, reader, &mut sink);
    let (flushed, out) = flush_gathered(sink);
    (flushed_answer(explained, flushed), Some(out))
}
