//! Why a search found nothing, and how a search is told.
ghost use Rattle.std.specs.Prelude.{◌≡◌, ◌≤◌, ◌<◌, IfOk, IfErr, length};
ghost use Rattle.hp_base.specs.Text.{sizes};
ghost use Rattle.hp_text.specs.Traces.{IsLineFault, trace_text};
ghost use Rattle.hp_text.specs.Writing.{IsWriteFault};
ghost use Rattle.hp_c.specs.Searches.{UnfoundCodes, unread};
ghost use Rattle.hp_c.specs.Texts.{Tells};

use crate::codes::{BAD_CONDITION, LIMIT_REACHED, NONE_MEETS};
use crate::texts::{fault_code, tell_text};
use hp_conditions::ConditionsFault;
use hp_replay::Watched;
use hp_text::{ReplayFault, Trace, write_trace};
use std::alloc::{AllocError, Global};

/// Why a search found nothing.
#[derive(Clone, Copy)]
pub enum Unfound {
    /// The conditions' line of this number says none. It is 0 where no line does.
    BadCondition(u32),
    /// The trace or the script has a fault, or there was no memory.
    Fault(ReplayFault),
    /// Nothing meets the conditions.
    NoneMeets,
    /// The limits were reached, at so many turns.
    LimitReached(u32),
}

impl From<ConditionsFault> for Unfound {
    ghost from_gives = { λ fault why. why ≡ unread fault };

    fn from(fault: ConditionsFault) -> Unfound {
        match fault {
            ConditionsFault::Line(number) => Unfound::BadCondition(number),
            ConditionsFault::Memory => Unfound::Fault(ReplayFault::Memory),
        }
    }
}

impl From<AllocError> for Unfound {
    ghost use Rattle.hp_c.specs.declared.unfound.Unfound.TheVariants.{Fault};
    ghost use Rattle.hp_text.specs.declared.fault.ReplayFault.TheVariants.{Memory};

    ghost from_gives = { λ _ why. why ≡ Fault Memory };

    fn from(_: AllocError) -> Unfound {
        Unfound::Fault(ReplayFault::Memory)
    }
}

impl From<ReplayFault> for Unfound {
    ghost use Rattle.hp_c.specs.declared.unfound.Unfound.TheVariants.{Fault};

    ghost from_gives = { λ fault why. why ≡ Fault fault };

    fn from(fault: ReplayFault) -> Unfound {
        Unfound::Fault(fault)
    }
}

/// The code of a search that found nothing, and the line, where one is at fault.
fn unfound_code(why: Unfound) -> (u32, u32)
    ensures { UnfoundCodes why result.0 result.1 }
{
    match why {
        Unfound::BadCondition(number) => (BAD_CONDITION, number),
        Unfound::Fault(fault) => fault_code(fault),
        Unfound::NoneMeets => (NONE_MEETS, 0),
        Unfound::LimitReached(_) => (LIMIT_REACHED, 0),
    }
}

/// Tells what a search found, or why it found nothing.
pub(crate) fn tell_search(
    text: Result<Vec<u8>, Unfound>,
    out: &mut [u8],
    needed: &mut usize,
    line: &mut u32,
) -> u32
    ensures ok { IfOk text (λ text. Tells text.items out.old out.new needed.new result line.new) }
    ensures err { IfErr text (λ why. UnfoundCodes why result line.new × (out.new ≡ out.old) × (needed.new ≡ 0)) }
{
    match text {
        Ok(text) => tell_text(text.as_slice(), out, needed, line),
        Err(why) => {
            let (code, bad) = unfound_code(why);
            *needed = 0;
            *line = bad;
            code
        }
    }
}

/// The text of a trace that was found.
pub(crate) fn trace_bytes(alloc: Global, trace: &Trace) -> Result<Vec<u8>, ReplayFault>
    requires { length trace.now.events.items ≤ 1000000 }
    ensures ok { IfOk result (λ text. text.items ≡ trace_text (sizes trace.now.config) trace.now.events.items) }
    ensures err { IfErr result IsWriteFault }
{
    let mut sink = Watched::new(Vec::new(alloc));
    write_trace(alloc, trace, &mut sink)?;
    Ok(sink.into_inner())
}
