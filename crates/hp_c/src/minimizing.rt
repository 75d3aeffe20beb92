//! Of a trace that meets conditions a small one that still does.
ghost use Rattle.std.specs.Prelude.{◌≡◌, ⊤, IfOk, IfErr, length};
ghost use Rattle.hp_c.specs.Answers.{Answered};
ghost use Rattle.hp_c.specs.Searches.{Minimizes, NotFound, WhyNotSmall};
ghost use Rattle.hp_c.specs.Texts.{Shown};

use crate::unfound::{Unfound, tell_search, trace_bytes};
use hp_conditions::read_conditions;
use hp_hunt::{Shrinking, minimize};
use hp_text::read_trace;
use std::alloc::Global;

/// Nobody watches how a trace becomes smaller.
#[derive(Drop)]
struct Unwatched;

impl Shrinking for Unwatched {
    fn left(&mut self, _events: usize) {}
}

fn minimized(alloc: Global, trace: &[u8], conditions: &[u8]) -> Result<Vec<u8>, Unfound>
    ensures ok { IfOk result (λ text. Minimizes trace.now conditions.now text.items) }
    ensures err { IfErr result (WhyNotSmall trace.now conditions.now) }
{
    let conditions = read_conditions(alloc, conditions)?;
    let mut source = trace;
    let trace = read_trace(alloc, &mut source)?;
    let small = minimize(alloc, &trace, conditions.as_slice(), &mut Unwatched)?;
    let Some(small) = small else {
        return Err(Unfound::NoneMeets);
    };
    let text = trace_bytes(alloc, &small)?;
    Ok(text)
}

/// The trace that is left where events of this one are dropped, and their numbers made smaller, as long as it meets the conditions. It is put
/// at the front of `out`, and its length is told; of conditions or a trace with a bad line, the line.
#[unsafe(no_mangle)]
pub extern "C" fn hugepool_minimize(
    alloc: Global,
    trace: &[u8],
    conditions: &[u8],
    out: &mut [u8],
    needed: &mut usize,
    line: &mut u32,
) -> u32
    ensures shown { Answered result (Shown (Minimizes trace.now conditions.now) out.old out.new needed.new line.new)
        (out.new ≡ out.old) }
    ensures code { Answered result ⊤
        (NotFound (Minimizes trace.now conditions.now) (WhyNotSmall trace.now conditions.now) (length out.old) needed.new result line.new) }
{
    tell_search(minimized(alloc, trace, conditions), out, needed, line)
}
