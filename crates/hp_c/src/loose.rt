//! Traces as people write them: with comments, and steps that are repeated.
ghost use Rattle.std.specs.Prelude.{◌≡◌, ◌⊎◌, ⊤, IfOk, IfErr, OnOk, length};
ghost use Rattle.hp_c.specs.Answers.{Answered};
ghost use Rattle.hp_c.specs.Codes.{no_memory, no_such};
ghost use Rattle.hp_c.specs.Texts.{Formats, HasLooseFault, HasNoWrongLine, HasWrongLine, IsLooseReasonKept, IsReasonPut, LooseCodes, NotFormatted, Shown};

use crate::codes::{BAD_LINE, NO_MEMORY, NO_SUCH, OK, TOO_SMALL};
use crate::texts::put;
use hp_format::{LooseFault, Reason, read_loose};
use hp_replay::Watched;
use hp_text::write_trace;
use std::alloc::Global;
use std::fmt::Write;

/// The trace that the text asks for, as a text.
fn formatted(alloc: Global, text: &[u8]) -> Result<Vec<u8>, LooseFault>
    ensures ok { IfOk result (λ trace. Formats text.now trace.items) }
    ensures err { IfErr result (HasLooseFault text.now) }
{
    let mut source = text;
    let trace = read_loose(alloc, &mut source)?;
    let mut sink = Watched::new(Vec::new(alloc));
    write_trace(alloc, &trace, &mut sink)?;
    Ok(sink.into_inner())
}

/// The code of a fault, and its line where it has one.
fn loose_code(fault: LooseFault) -> (u32, usize)
    ensures { LooseCodes fault result.0 result.1 }
{
    match fault {
        LooseFault::Line(number, _) => (BAD_LINE, number as usize),
        LooseFault::Stream(_) => (NO_MEMORY, 0),
    }
}

/// The trace that a text in the loose form asks for. It is put at the front of `out`, and its length is told; of a text with a wrong line,
/// the line.
#[unsafe(no_mangle)]
pub extern "C" fn hugepool_format(
    alloc: Global,
    text: &[u8],
    out: &mut [u8],
    needed: &mut usize,
    line: &mut usize,
) -> u32
    ensures shown { Answered result (Shown (Formats text.now) out.old out.new needed.new line.new) (out.new ≡ out.old) }
    ensures code { Answered result ⊤ (NotFormatted text.now (length out.old) needed.new result line.new) }
{
    match formatted(alloc, text) {
        Ok(trace) => {
            *needed = trace.len();
            *line = 0;
            if put(trace.as_slice(), out) {
                OK
            } else {
                TOO_SMALL
            }
        }
        Err(fault) => {
            let (code, wrong) = loose_code(fault);
            *needed = 0;
            *line = wrong;
            code
        }
    }
}

/// The words of a reason.
fn reason_words(alloc: Global, why: Reason) -> Result<String, u32>
    ensures { IfErr result (λ code. code ≡ no_memory) }
{
    let mut words = String::new(alloc);
    match write!(words, "{why}") {
        Ok(()) => Ok(words),
        Err(_) => Err(NO_MEMORY),
    }
}

/// What is wrong with the text, or the code for which that isn't known.
fn loose_reason(alloc: Global, text: &[u8]) -> Result<String, u32>
    ensures wrong { OnOk result (HasWrongLine text.now) }
    ensures err { IfErr result (λ code. (code ≡ no_memory) ⊎ (code ≡ no_such) × HasNoWrongLine text.now) }
{
    let mut source = text;
    let Err(fault) = read_loose(alloc, &mut source) else {
        return Err(NO_SUCH);
    };
    match fault {
        LooseFault::Stream(_) => Err(NO_MEMORY),
        LooseFault::Line(_, why) => reason_words(alloc, why),
    }
}

/// What is wrong with the line that `hugepool_format` told of the same text, for people to read.
#[unsafe(no_mangle)]
pub extern "C" fn hugepool_format_reason(
    alloc: Global,
    text: &[u8],
    out: &mut [u8],
    needed: &mut usize,
) -> u32
    ensures put { Answered result (IsReasonPut out.old out.new needed.new × HasWrongLine text.now) (out.new ≡ out.old) }
    ensures code { Answered result ⊤ (IsLooseReasonKept text.now (length out.old) needed.new result) }
{
    *needed = 0;
    match loose_reason(alloc, text) {
        Ok(words) => {
            *needed = words.len();
            if put(words.as_bytes(), out) {
                OK
            } else {
                TOO_SMALL
            }
        }
        Err(code) => code,
    }
}
