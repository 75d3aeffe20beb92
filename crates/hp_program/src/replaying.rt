//! A replay to an output that is buffered.
ghost use Rattle.std.specs.Option.{option_map};
ghost use Rattle.hp_program.specs.Endings.{DidReplay};

use crate::flushing::{flush_gathered, flushed_answer, gather};
use hp_replay::replay;
use hp_text::{ReplayFault, Source};
use std::alloc::Global;
use std::io::Write;

/// Replays the trace that the reader gives, and hands the output back, unless it went with a buffer for which there was no memory.
///
/// What was right before a fault is still written, but what a failed write leaves in the buffer is dropped.
pub fn run_replay<R: Source, W: Write + Drop>(
    alloc: Global,
    reader: &mut R,
    out: W,
) -> (Result<(), ReplayFault>, Option<W>)
    ensures { DidReplay result.0 (R.remaining reader.old) (R.remaining reader.new) (R.failures reader.old) (R.failures reader.new)
        (W.contents out) (option_map W.contents result.1) }
{
    let Ok(mut sink) = gather(alloc, out) else {
        return (Err(ReplayFault::Memory), None);
    };
    let replayed = replay(alloc, reader, &mut sink);
    let (flushed, out) = flush_gathered(sink);
    (flushed_answer(replayed, flushed), Some(out))
}
