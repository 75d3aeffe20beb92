//! What is wrong with a line, in words.
ghost use Rattle.std.specs.Prelude.{◌≡◌, ◌⊎◌, ⊤, IfErr, length};
ghost use Rattle.hp_c.specs.Answers.{Answered};
ghost use Rattle.hp_c.specs.Codes.{no_memory, no_such};
ghost use Rattle.hp_c.specs.Texts.{IsReasonKept, IsReasonPut};

use crate::codes::{NO_MEMORY, NO_SUCH, OK, TOO_SMALL};
use crate::texts::put;
use hp_diagnostics::{Line, Recalls, wrong_line};
use std::alloc::Global;
use std::fmt::Write;

/// The lines of bytes in memory.
#[derive(Drop)]
struct Lines<'a> {
    bytes: &'a [u8],
}

impl Recalls for Lines<'_> {
    fn line(&self, number: u64) -> Option<Line<'_>> {
        let mut rest = self.bytes;
        for _ in 1..number {
            let end = rest.iter().position(|byte| *byte == b'\n')?;
            rest = &rest[end + 1..];
        }
        let end = rest.iter().position(|byte| *byte == b'\n');
        Some(Line {
            bytes: &rest[..end.unwrap_or(rest.len())],
            is_ended: end.is_some(),
        })
    }
}

/// What is wrong with the line, or the code for which that isn't known.
fn reason(alloc: Global, bytes: &[u8], line: u32) -> Result<String, u32>
    ensures { IfErr result (λ code. (code ≡ no_memory) ⊎ (code ≡ no_such)) }
{
    let lines = Lines { bytes };
    let Some(reason) = wrong_line(&lines, u64::from(line)) else {
        return Err(NO_SUCH);
    };
    let mut text = String::new(alloc);
    match write!(text, "{reason}") {
        Ok(()) => Ok(text),
        Err(_) => Err(NO_MEMORY),
    }
}

/// What is wrong with the line of that number, for people to read: the line that another export told, of the same trace.
#[unsafe(no_mangle)]
pub extern "C" fn hugepool_reason(
    alloc: Global,
    trace: &[u8],
    line: u32,
    out: &mut [u8],
    needed: &mut usize,
) -> u32
    ensures put { Answered result (IsReasonPut out.old out.new needed.new) (out.new ≡ out.old) }
    ensures code { Answered result ⊤ (IsReasonKept (length out.old) needed.new result) }
{
    *needed = 0;
    match reason(alloc, trace, line) {
        Ok(text) => {
            *needed = text.len();
            if put(text.as_bytes(), out) {
                OK
            } else {
                TOO_SMALL
            }
        }
        Err(code) => code,
    }
}
