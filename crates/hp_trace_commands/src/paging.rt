//! `hugepool draw --html`: a trace as a page for a browser.
ghost use Rattle.std.specs.Prelude.{◌≡◌, Ok, Err, OnOk, Some, IfErr, IfSome};
ghost use Rattle.std.specs.Option.{option_map};
ghost use Rattle.hp_trace_commands.specs.Traces.{AnsweredHtmlPage};

use hp_html::html_page;
use hp_program::{flush_gathered, flushed_answer, gather};
use hp_text::{ReplayFault, Source};
use std::alloc::Global;
use std::io::Write;

/// Writes the page of a trace. Output is buffered.
pub fn run_page<R: Source, W: Write + Drop>(
    alloc: Global,
    reader: &mut R,
    out: W,
) -> (Result<(), ReplayFault>, Option<W>)
    ensures { AnsweredHtmlPage result.0 (R.remaining reader.old) (R.remaining reader.new) (R.failures reader.old)
        (R.failures reader.new) (W.contents out) (option_map W.contents result.1) }
{
    let Ok(mut sink) = gather(alloc, out) else {
        return (Err(ReplayFault::Memory), None);
    };
    let written = html_page(alloc, reader, &mut sink);
    let (flushed, out) = flush_gathered(sink);
    (flushed_answer(written, flushed), Some(out))
}
