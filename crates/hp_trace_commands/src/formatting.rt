//! `hugepool format`: a text in the loose form as a strict one.
ghost use Rattle.std.specs.Prelude.{◌≡◌, Ok, Err, OnOk, IfErr, OnErr};
ghost use Rattle.std.specs.Option.{option_map};
ghost use Rattle.hp_trace_commands.specs.Formatting.{AnsweredFormat, Formats, NotFormatted, TellsFormat};

use crate::strict::read_strict;
use hp_format::LooseFault;
use hp_program::flush_plain;
use hp_text::{ReplayFault, Sink, Source, Watched, write_text};
use std::alloc::Global;
use std::io;
use std::io::Write;

/// Reads a text in the loose form, and writes the strict one that it asks for, all at once.
fn format_text<R: Source, W: Sink>(
    alloc: Global,
    reader: &mut R,
    writer: &mut W,
) -> Result<(), LooseFault>
    ensures ok { OnOk result (Formats (R.remaining reader.old) (R.remaining reader.new)
        (W.contents writer.old) (W.contents writer.new)) }
    ensures err { IfErr result (λ fault. NotFormatted fault (R.remaining reader.old) (R.remaining reader.new)
        (W.contents writer.old) (W.contents writer.new)) }
    ensures reads { TellsFormat result (R.failures reader.old) (R.failures reader.new) }
{
    let strict = read_strict(alloc, reader)?;
    write_text(writer, strict.as_slice())?;
    Ok(())
}

/// What is answered once the text is written. A flush that fails is a failed write.
fn formatted_answer(
    formatted: Result<(), LooseFault>,
    flushed: io::Result<()>,
) -> Result<(), LooseFault>
    ensures ok { OnOk flushed (result ≡ formatted) }
    ensures err { OnErr flushed (result ≡ Err (LooseFault.Stream ReplayFault.Write)) }
{
    match flushed {
        Ok(()) => formatted,
        Err(_) => Err(LooseFault::Stream(ReplayFault::Write)),
    }
}

/// Formats a text, and flushes it.
pub fn run_format<R: Source, W: Write + Drop>(
    alloc: Global,
    reader: &mut R,
    out: W,
) -> (Result<(), LooseFault>, Option<W>)
    ensures { AnsweredFormat result.0 (R.remaining reader.old) (R.remaining reader.new) (R.failures reader.old)
        (R.failures reader.new) (W.contents out) (option_map W.contents result.1) }
{
    let mut sink = Watched::new(out);
    let formatted = format_text(alloc, reader, &mut sink);
    let (flushed, out) = flush_plain(sink);
    (formatted_answer(formatted, flushed), Some(out))
}
