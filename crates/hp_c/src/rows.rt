//! Parts of a trace, explained: in rows of words, and in lines of JSON.
ghost use Rattle.std.specs.Prelude.{◌≡◌, ⊤, IfOk, IfErr, length};
ghost use Rattle.hp_c.specs.Answers.{Answered};
ghost use Rattle.hp_c.specs.Texts.{ExplainsJson, ExplainsRows, HasFaultTold, NotShown, Shown, rows_view};

use crate::texts::tell;
use hp_explain::{View, explain, explain_json};
use hp_replay::{ReplayFault, Watched};
use std::alloc::Global;

/// The events of these lines: all in one column, with Linux's functions, and each wait in a line of its own.
fn rows_view(first: u32, last: u32) -> View
    ensures { result ≡ rows_view first last }
{
    View {
        first,
        last,
        tasks: 0,
        linux: true,
        compact: true,
    }
}

fn explained_rows(
    alloc: Global,
    trace: &[u8],
    first: u32,
    last: u32,
) -> Result<Vec<u8>, ReplayFault>
    ensures ok { IfOk result (λ text. ExplainsRows first last trace.now text.items) }
    ensures err { IfErr result (HasFaultTold trace.now) }
{
    let mut source = trace;
    let mut sink = Watched::new(Vec::new(alloc));
    explain(alloc, &rows_view(first, last), &mut source, &mut sink)?;
    Ok(sink.into_inner())
}

fn explained_json(
    alloc: Global,
    trace: &[u8],
    first: u32,
    last: u32,
) -> Result<Vec<u8>, ReplayFault>
    ensures ok { IfOk result (λ text. ExplainsJson first last trace.now text.items) }
    ensures err { IfErr result (HasFaultTold trace.now) }
{
    let mut source = trace;
    let mut sink = Watched::new(Vec::new(alloc));
    explain_json(alloc, &rows_view(first, last), &mut source, &mut sink)?;
    Ok(sink.into_inner())
}

/// The text that explains the trace from one line to another, and where the run stands behind the last. It is put at the front of `out`,
/// and its length is told; of a trace with a bad line, the line.
#[unsafe(no_mangle)]
pub extern "C" fn hugepool_explain_rows(
    alloc: Global,
    trace: &[u8],
    first: u32,
    last: u32,
    out: &mut [u8],
    needed: &mut usize,
    line: &mut u32,
) -> u32
    ensures shown { Answered result (Shown (ExplainsRows first last trace.now) out.old out.new needed.new line.new)
        (out.new ≡ out.old) }
    ensures code { Answered result ⊤
        (NotShown (ExplainsRows first last trace.now) trace.now (length out.old) needed.new result line.new) }
{
    tell(explained_rows(alloc, trace, first, last), out, needed, line)
}

/// Lines of JSON that explain the trace from one line to another: an object of the pool, one of each event in these lines, and one of the
/// state behind the last.
#[unsafe(no_mangle)]
pub extern "C" fn hugepool_explain_json(
    alloc: Global,
    trace: &[u8],
    first: u32,
    last: u32,
    out: &mut [u8],
    needed: &mut usize,
    line: &mut u32,
) -> u32
    ensures shown { Answered result (Shown (ExplainsJson first last trace.now) out.old out.new needed.new line.new)
        (out.new ≡ out.old) }
    ensures code { Answered result ⊤
        (NotShown (ExplainsJson first last trace.now) trace.now (length out.old) needed.new result line.new) }
{
    tell(explained_json(alloc, trace, first, last), out, needed, line)
}
