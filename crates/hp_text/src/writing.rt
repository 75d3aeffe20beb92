//! Writes text with no retry.
ghost use Rattle.std.specs.Prelude.{◌≡◌, ◌++◌, ◌∷◌, [], OnOk, IfErr, IfSome};
ghost use Rattle.std.specs.Io.KnownBytes.{Appends};
ghost use Rattle.hp_text.specs.Streams.{TellsWrites};
ghost use Rattle.hp_text.specs.Writing.{Wrote, IsWriteFault};

use crate::fault::ReplayFault;
use crate::streams::Sink;
use std::fmt::Display;

/// Writes all of the text. An error, or a write that takes no byte, ends it.
pub fn write_text<W: Sink>(writer: &mut W, text: &[u8]) -> Result<(), ReplayFault>
    ensures ok { OnOk result (Appends (W.contents writer.old) (W.contents writer.new) text.now) }
    ensures front { IfErr result (λ fault. (fault ≡ ReplayFault.Write)
        × Wrote (W.contents writer.old) (W.contents writer.new) text.now) }
    ensures writes { TellsWrites result (W.failures writer.old) (W.failures writer.new) }
{
    let mut rest = text;
    while !rest.is_empty() {
        let taken = writer.write_piece(rest)?;
        (_, rest) = rest.split_at(taken);
    }
    Ok(())
}

/// Writes the value's text as a line. `line` is where it is laid out: its memory is used again.
pub(crate) fn write_line<W: Sink, D: Display + Drop>(
    writer: &mut W,
    value: D,
    line: &mut String,
) -> Result<(), ReplayFault>
    ensures ok { OnOk result (IfSome (D.output value) (λ text.
        Appends (W.contents writer.old) (W.contents writer.new) (text ++ 10 ∷ []))) }
    ensures front { IfErr result (λ fault. IsWriteFault fault × IfSome (D.output value) (λ text.
        Wrote (W.contents writer.old) (W.contents writer.new) (text ++ 10 ∷ []))) }
    ensures writes { TellsWrites result (W.failures writer.old) (W.failures writer.new) }
{
    line.clear();
    writeln!(line, "{value}")?;
    write_text(writer, line.as_bytes())
}
