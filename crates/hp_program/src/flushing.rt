//! An output: what is written to it is watched, and it is flushed behind that.
ghost use Rattle.std.specs.Prelude.{◌≡◌, [], Ok, Err, true, false, IsOk, OnOk, OnErr, IfOk, IfErr};
ghost use Rattle.std.specs.Io.Buffered.{writer_buffer, writer_contents};
ghost use Rattle.std.specs.Io.KnownBytes.{Keeps};
ghost use Rattle.hp_program.specs.Output.{Flushed};
ghost use Rattle.hp_text.specs.Streams.{failures_of, has_failed, stream_of};

use hp_text::{ReplayFault, Watched};
use std::alloc::Global;
use std::io;
use std::io::{BufWriter, Write};

/// A sink in front of an output, with a buffer, so that few writes reach the output. Where there is no memory for the buffer, the output
/// is gone.
pub fn gather<W: Write + Drop>(alloc: Global, out: W) -> Result<Watched<BufWriter<W>>, ReplayFault>
    ensures contents { IfOk result (λ sink. writer_contents W.contents (stream_of sink) ≡ W.contents out) }
    ensures failures { IfOk result (λ sink. failures_of sink ≡ 0) }
    ensures err { IfErr result (λ fault. fault ≡ ReplayFault.Memory) }
{
    match BufWriter::new(alloc, out) {
        Ok(buffered) => Ok(Watched::new(buffered)),
        Err(_) => Err(ReplayFault::Memory),
    }
}

// Flushes the output unless a write failed. After a failed write nothing more is written: what is left in the buffer could
// arrive behind a gap, or all of it although a failure is reported.
fn flush_unless<W: Write>(failed: bool, out: &mut W) -> io::Result<()>
    ensures bytes { Keeps (W.contents out.old) (W.contents out.new) }
    ensures untouched { failed ≡ true → IsOk result × (out.new ≡ out.old) }
{
    if failed {
        return Ok(());
    }
    out.flush()
}

// The same of a buffer, which is empty then.
fn flush_buffer<W: Write + Drop>(failed: bool, buffered: &mut BufWriter<W>) -> io::Result<()>
    ensures bytes { Keeps (writer_contents W.contents buffered.old) (writer_contents W.contents buffered.new) }
    ensures empty { OnOk result (failed ≡ false → writer_buffer buffered.new ≡ []) }
    ensures untouched { failed ≡ true → IsOk result × (buffered.new ≡ buffered.old) }
{
    if failed {
        return Ok(());
    }
    buffered.flush()
}

/// Flushes an output without a buffer, unless a write to it failed, and hands it back.
pub fn flush_plain<W: Write>(sink: Watched<W>) -> (io::Result<()>, W)
    ensures bytes { Keeps (W.contents (stream_of sink)) (W.contents result.1) }
    ensures untouched { has_failed sink ≡ true → IsOk result.0 × (result.1 ≡ stream_of sink) }
{
    let failed = sink.has_failed();
    let mut out = sink.into_inner();
    let flushed = flush_unless(failed, &mut out);
    (flushed, out)
}

/// Flushes an output behind a buffer, unless a write to it failed, and hands it back. What a failed write leaves in the buffer is dropped.
pub fn flush_gathered<W: Write + Drop>(sink: Watched<BufWriter<W>>) -> (io::Result<()>, W)
    ensures bytes { Flushed (has_failed sink) result.0 (writer_contents W.contents (stream_of sink)) (W.contents result.1) }
    ensures untouched { has_failed sink ≡ true → IsOk result.0 }
{
    let failed = sink.has_failed();
    let mut buffered = sink.into_inner();
    let flushed = flush_buffer(failed, &mut buffered);
    let (out, _left) = buffered.into_parts();
    (flushed, out)
}

/// The answer behind which the output was flushed. A flush that fails is a failed write, and is reported before any
/// other fault, since that stands behind it.
pub fn flushed_answer<T: Drop>(
    answered: Result<T, ReplayFault>,
    flushed: io::Result<()>,
) -> Result<T, ReplayFault>
    ensures ok { OnOk flushed (result ≡ answered) }
    ensures err { OnErr flushed (result ≡ Err ReplayFault.Write) }
{
    match flushed {
        Ok(()) => answered,
        Err(_) => Err(ReplayFault::Write),
    }
}
