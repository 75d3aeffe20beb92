//! The lines of explored runs, as text.
ghost use Rattle.std.specs.Prelude.{◌≡◌, ◌++◌, [], OnOk, IfErr, string_bytes};
ghost use Rattle.std.specs.Fmt.{decimal};
ghost use Rattle.std.specs.Io.KnownBytes.{Appends};
ghost use Rattle.hp_explore.specs.declared.line.Finish.{Finish};
ghost use Rattle.hp_explore.specs.RunLines.{lines_text, run_line};
ghost use Rattle.hp_text.specs.Streams.{TellsWrites};
ghost use Rattle.hp_text.specs.Writing.{Wrote, IsWriteFault};

use crate::line::{Finish, RunLine};
use hp_text::{ReplayFault, Sink, write_text};
use itoa::Buffer;
use std::alloc::{AllocError, Global};

/// Lays a number out behind a word.
fn push_field(word: &str, number: u32, text: &mut String) -> Result<(), AllocError>
    ensures { OnOk result (string_bytes text.new ≡ string_bytes text.old ++ (word.now ++ decimal number)) }
{
    text.push_str(word)?;
    text.push_str(Buffer::new().format(number))
}

/// Lays out the line of a run that came to its end, as nearly all do.
fn push_finished(line: &RunLine, text: &mut String) -> Result<(), AllocError>
    requires { line.now.finish ≡ Finish.Finished }
    ensures { OnOk result (string_bytes text.new ≡ string_bytes text.old ++ run_line line.now) }
{
    push_field("run ", line.run, text)?;
    push_field(" finished turns ", line.turns, text)?;
    push_field(" free ", line.free, text)?;
    push_field(" resv ", line.resv, text)?;
    text.push('\n')
}

/// Lays a line out.
fn push_line(line: &RunLine, text: &mut String) -> Result<(), AllocError>
    ensures { OnOk result (string_bytes text.new ≡ string_bytes text.old ++ run_line line.now) }
{
    if line.finish == Finish::Finished {
        return push_finished(line, text);
    }
    writeln!(text, "{line}")
}

/// Lays the lines out, one after the other.
fn push_lines(lines: &[RunLine], text: &mut String) -> Result<(), AllocError>
    requires { string_bytes text.old ≡ [] }
    ensures { OnOk result (string_bytes text.new ≡ lines_text lines.now) }
{
    for line in lines {
        push_line(line, text)?;
    }
    Ok(())
}

/// Writes a line for each run, in order, all at once. Nothing is tried again after an error.
pub fn write_lines<W: Sink>(
    alloc: Global,
    lines: &[RunLine],
    writer: &mut W,
) -> Result<(), ReplayFault>
    ensures ok { OnOk result (Appends (W.contents writer.old) (W.contents writer.new) (lines_text lines.now)) }
    ensures err { IfErr result (λ fault. IsWriteFault fault
        × Wrote (W.contents writer.old) (W.contents writer.new) (lines_text lines.now)) }
    ensures writes { TellsWrites result (W.failures writer.old) (W.failures writer.new) }
{
    let mut text = String::new(alloc);
    push_lines(lines, &mut text)?;
    write_text(writer, text.as_bytes())
}
