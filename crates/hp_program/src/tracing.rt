//! The text of a trace, all at once.
ghost use Rattle.std.specs.Prelude.{◌≡◌, ◌≤◌, IfOk, IfErr, length};
ghost use Rattle.hp_base.specs.Text.{sizes};
ghost use Rattle.hp_text.specs.Traces.{trace_text};

use hp_text::{ReplayFault, Trace, Watched, write_trace};
use std::alloc::Global;

/// The text of a trace.
pub fn text_of(alloc: Global, trace: &Trace) -> Result<Vec<u8>, ReplayFault>
    requires { length trace.now.events.items ≤ 1000000 }
    ensures text { IfOk result (λ text. text.items ≡ trace_text (sizes trace.now.config) trace.now.events.items) }
    ensures memory { IfErr result (λ fault. fault ≡ ReplayFault.Memory) }
{
    let mut text = Watched::new(Vec::new(alloc));
    match write_trace(alloc, trace, &mut text) {
        Ok(()) => Ok(text.into_inner()),
        Err(_) => Err(ReplayFault::Memory),
    }
}
