//! What the program does, over any streams.
ghost use Rattle.std.specs.Prelude.{◌≡◌};
ghost use Rattle.std.specs.Option.{option_map};
ghost use Rattle.replay.specs.Status.{EndsWith, status_at};

use hp_diagnostics::Recalls;
use hp_program::{Heard, has_left, run_replay, write_fault};
use hp_text::{ReplayFault, Source};
use std::alloc::Global;
use std::io::Write;

/// Replays a trace, and returns the status: 0 where the replay came to its end, 1 after a fault, whose lines are written on
/// `errors` unless the reader of the output has left. The output is handed back, unless it went with a buffer for which there was no
/// memory.
pub(crate) fn program<R: Source + Recalls, W: Heard + Drop>(
    alloc: Global,
    reader: &mut R,
    out: W,
    errors: &mut impl Write,
) -> (u8, Option<W>)
    ensures { EndsWith result.0 (R.remaining reader.old) (R.remaining reader.new) (R.failures reader.old) (R.failures reader.new)
        (W.contents out) (option_map W.contents result.1) }
{
    let (answer, out) = run_replay(alloc, reader, out);
    (end(answer, has_left(&out), &*reader, errors), out)
}

// The status of an answer, whose fault is written unless nobody listens. A failure to write it changes nothing.
fn end<R: Recalls>(
    answer: Result<(), ReplayFault>,
    has_left: bool,
    reader: &R,
    errors: &mut impl Write,
) -> u8
    ensures { result ≡ status_at answer }
{
    match answer {
        Ok(()) => 0,
        Err(fault) => {
            if !has_left {
                let _ = write_fault(fault, None, reader, errors);
            }
            1
        }
    }
}
