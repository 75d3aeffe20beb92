//! `hugepool audit`: what is wrong with a pool's state, given as text.
ghost use Rattle.std.specs.Prelude.{◌≡◌, Ok, Err, IfErr, IfOk, OnErr, OnOk};
ghost use Rattle.std.specs.Option.{option_map};
ghost use Rattle.hp_picture_commands.specs.Auditing.{AnsweredAudit, Audits, NotAudited, TellsAudit};

use hp_judge::{judge, write_findings};
use hp_picture::{PictureFault, read_picture};
use hp_program::flush_plain;
use hp_text::{ReplayFault, Sink, Source, Watched};
use std::alloc::Global;
use std::io;
use std::io::Write;

/// Reads a picture, and writes all that is wrong with it. Whether nothing is.
fn audit_text<R: Source, W: Sink>(
    alloc: Global,
    reader: &mut R,
    writer: &mut W,
) -> Result<bool, PictureFault>
    ensures ok { IfOk result (λ right. Audits right (R.remaining reader.old) (R.remaining reader.new)
        (W.contents writer.old) (W.contents writer.new)) }
    ensures err { IfErr result (λ fault. NotAudited fault (R.remaining reader.old) (R.remaining reader.new)
        (W.contents writer.old) (W.contents writer.new)) }
    ensures reads { TellsAudit result (R.failures reader.old) (R.failures reader.new) }
{
    let picture = read_picture(alloc, reader)?;
    let findings = judge(alloc, &picture)?;
    write_findings(alloc, findings.as_slice(), writer)?;
    Ok(findings.is_empty())
}

/// What is answered once the findings are written. A flush that fails is a failed write.
fn audited_answer(
    audited: Result<bool, PictureFault>,
    flushed: io::Result<()>,
) -> Result<bool, PictureFault>
    ensures ok { OnOk flushed (result ≡ audited) }
    ensures err { OnErr flushed (result ≡ Err (PictureFault.Stream ReplayFault.Write)) }
{
    match flushed {
        Ok(()) => audited,
        Err(_) => Err(PictureFault::Stream(ReplayFault::Write)),
    }
}

/// Audits a picture, and flushes what is told. Whether nothing is wrong with it.
pub fn run_audit<R: Source, W: Write + Drop>(
    alloc: Global,
    reader: &mut R,
    out: W,
) -> (Result<bool, PictureFault>, Option<W>)
    ensures { AnsweredAudit result.0 (R.remaining reader.old) (R.remaining reader.new) (R.failures reader.old)
        (R.failures reader.new) (W.contents out) (option_map W.contents result.1) }
{
    let mut sink = Watched::new(out);
    let audited = audit_text(alloc, reader, &mut sink);
    let (flushed, out) = flush_plain(sink);
    (audited_answer(audited, flushed), Some(out))
}
