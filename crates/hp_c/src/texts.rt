//! Whole texts: a trace is replayed, explained, drawn or checked.
ghost use Rattle.std.specs.Prelude.{◌≡◌, ◌≤◌, ◌<◌, ⊤, IfOk, IfErr, IsTrue, IsFalse, length};
ghost use Rattle.hp_c.specs.Answers.{Answered};
ghost use Rattle.hp_c.specs.Texts.{Codes, Counts, Draws, Explains, HasFaultTold, IsBadTrace, IsFaulty, IsPut, NotShown, Replays, Shown, Tells};

use crate::codes::{BAD_HEADER, BAD_LINE, NO_MEMORY, OK, TOO_SMALL};
use hp_draw::draw;
use hp_explain::{View, explain};
use hp_replay::{ReplayFault, Watched, check_trace, replay};
use std::alloc::Global;

/// The code of a fault, and its line where it has one.
pub(crate) fn fault_code(fault: ReplayFault) -> (u32, u32)
    ensures { Codes fault result.0 result.1 }
{
    match fault {
        ReplayFault::BadLine(line) => (BAD_LINE, line),
        ReplayFault::BadHeader => (BAD_HEADER, 1),
        ReplayFault::Read | ReplayFault::Write | ReplayFault::Memory => (NO_MEMORY, 0),
    }
}

fn replayed(alloc: Global, trace: &[u8]) -> Result<Vec<u8>, ReplayFault>
    ensures ok { IfOk result (λ text. Replays trace.now text.items) }
    ensures err { IfErr result (HasFaultTold trace.now) }
{
    hp_replay::a_stopped_replay_names_the_fault();
    let mut source = trace;
    let mut sink = Watched::new(Vec::new(alloc));
    replay(alloc, &mut source, &mut sink)?;
    Ok(sink.into_inner())
}

fn explained(alloc: Global, trace: &[u8]) -> Result<Vec<u8>, ReplayFault>
    ensures ok { IfOk result (λ text. Explains trace.now text.items) }
    ensures err { IfErr result (HasFaultTold trace.now) }
{
    let mut source = trace;
    let mut sink = Watched::new(Vec::new(alloc));
    explain(alloc, &View::whole(), &mut source, &mut sink)?;
    Ok(sink.into_inner())
}

fn drawn(alloc: Global, trace: &[u8]) -> Result<Vec<u8>, ReplayFault>
    ensures ok { IfOk result (λ text. Draws trace.now text.items) }
    ensures err { IfErr result (HasFaultTold trace.now) }
{
    let mut source = trace;
    let mut sink = Watched::new(Vec::new(alloc));
    draw(alloc, &mut source, &mut sink)?;
    Ok(sink.into_inner())
}

/// Puts the text at the front of the room for it, if there is enough. Whether there is.
pub(crate) fn put(text: &[u8], out: &mut [u8]) -> bool
    ensures put { IsTrue result → IsPut text.now out.old out.new }
    ensures short { IsFalse result → length out.old < length text.now }
    ensures kept { IsFalse result → out.new ≡ out.old }
{
    if text.len() > out.len() {
        return false;
    }
    let (front, _) = out.split_at_mut(text.len());
    front.copy_from_slice(text);
    true
}

/// Tells a text.
pub(crate) fn tell_text(text: &[u8], out: &mut [u8], needed: &mut usize, line: &mut u32) -> u32
    ensures { Tells text.now out.old out.new needed.new result line.new }
{
    *needed = text.len();
    *line = 0;
    if put(text, out) { OK } else { TOO_SMALL }
}

/// Tells a text, or the fault for which there is none.
pub(crate) fn tell(
    text: Result<Vec<u8>, ReplayFault>,
    out: &mut [u8],
    needed: &mut usize,
    line: &mut u32,
) -> u32
    ensures ok { IfOk text (λ text. Tells text.items out.old out.new needed.new result line.new) }
    ensures err { IfErr text (λ fault. Codes fault result line.new × (out.new ≡ out.old) × (needed.new ≡ 0)) }
{
    match text {
        Ok(text) => tell_text(text.as_slice(), out, needed, line),
        Err(fault) => {
            let (code, bad) = fault_code(fault);
            *needed = 0;
            *line = bad;
            code
        }
    }
}

/// The text of a replay of the trace. It is put at the front of `out`, and its length is told; of a trace with a bad line, the line.
#[unsafe(no_mangle)]
pub extern "C" fn hugepool_replay(
    alloc: Global,
    trace: &[u8],
    out: &mut [u8],
    needed: &mut usize,
    line: &mut u32,
) -> u32
    ensures shown { Answered result (Shown (Replays trace.now) out.old out.new needed.new line.new) (out.new ≡ out.old) }
    ensures code { Answered result ⊤ (NotShown (Replays trace.now) trace.now (length out.old) needed.new result line.new) }
{
    tell(replayed(alloc, trace), out, needed, line)
}

/// The text that explains the trace. It is put at the front of `out`, and its length is told; of a trace with a bad line, the line.
#[unsafe(no_mangle)]
pub extern "C" fn hugepool_explain(
    alloc: Global,
    trace: &[u8],
    out: &mut [u8],
    needed: &mut usize,
    line: &mut u32,
) -> u32
    ensures shown { Answered result (Shown (Explains trace.now) out.old out.new needed.new line.new) (out.new ≡ out.old) }
    ensures code { Answered result ⊤ (NotShown (Explains trace.now) trace.now (length out.old) needed.new result line.new) }
{
    tell(explained(alloc, trace), out, needed, line)
}

/// The picture of the trace. It is put at the front of `out`, and its length is told; of a trace with a bad line, the line.
#[unsafe(no_mangle)]
pub extern "C" fn hugepool_draw(
    alloc: Global,
    trace: &[u8],
    out: &mut [u8],
    needed: &mut usize,
    line: &mut u32,
) -> u32
    ensures shown { Answered result (Shown (Draws trace.now) out.old out.new needed.new line.new) (out.new ≡ out.old) }
    ensures code { Answered result ⊤ (NotShown (Draws trace.now) trace.now (length out.old) needed.new result line.new) }
{
    tell(drawn(alloc, trace), out, needed, line)
}

/// How many events the trace has. Of a trace with a bad line, the line. It takes no memory.
#[unsafe(no_mangle)]
pub extern "C" fn hugepool_check(trace: &[u8], events: &mut u32, line: &mut u32) -> u32
    ensures counted { Answered result (Counts trace.now events.new × (line.new ≡ 0)) (events.new ≡ events.old) }
    ensures code { Answered result ⊤ (IsFaulty trace.now result line.new) }
    ensures bad { Answered result ⊤ (IsBadTrace trace.now result line.new) }
{
    let mut source = trace;
    match check_trace(&mut source) {
        Ok(count) => {
            *events = count;
            *line = 0;
            OK
        }
        Err(fault) => {
            let (code, bad) = fault_code(fault);
            *line = bad;
            code
        }
    }
}
