//! The strict text that a text in the loose form asks for: a trace, or a script whose calls may wait.
ghost use Rattle.std.specs.Prelude.{◌≡◌, ◌++◌, OnOk, IfOk, IfErr, codes, nat_eq};
ghost use Rattle.std.specs.List.{starts_with};
ghost use Rattle.hp_format.specs.Loose.{IsOfText, TellsLoose};
ghost use Rattle.hp_text.specs.TextLines.{lines_of};
ghost use Rattle.hp_trace_commands.specs.Strict.{IsFaultIn, IsStrictOf, IsUnread, ReadsStrict, plain_line, plain_lines};

use hp_format::{LooseFault, read_loose, tidy};
use hp_program::text_of;
use hp_text::{Source, read_all, split_line};
use std::alloc::{AllocError, Global};

/// Appends the words of a line and its end, where it has words.
fn push_line(words: &[u8], plain: &mut Vec<u8>) -> Result<(), AllocError>
    ensures { OnOk result (plain.new.items ≡ plain.old.items ++ plain_line words.now) }
{
    if !words.is_empty() {
        plain.extend_from_slice(words)?;
        plain.push(b'\n')?;
    }
    Ok(())
}

/// The words of each line that has some.
fn plain_text(alloc: Global, text: &[u8]) -> Result<Vec<u8>, AllocError>
    ensures { IfOk result (λ plain. plain.items ≡ plain_lines (lines_of text.now)) }
{
    let mut plain = Vec::new(alloc);
    let mut words = Vec::new(alloc);
    let mut rest = text;
    while !rest.is_empty() {
        let (line, behind) = split_line(rest);
        tidy(line, &mut words)?;
        push_line(words.as_slice(), &mut plain)?;
        rest = behind;
    }
    Ok(plain)
}

/// Whether a text begins as a script whose calls may wait.
fn is_script(plain: &[u8]) -> bool
    ensures { result ≡ starts_with nat_eq plain.now (codes "script ") }
{
    plain.starts_with(b"script ".as_slice())
}

/// The strict text that a text asks for.
fn strict_of(alloc: Global, text: &[u8]) -> Result<Vec<u8>, LooseFault>
    ensures ok { IfOk result (λ strict. IsStrictOf text.now strict.items) }
    ensures err { IfErr result IsOfText }
    ensures bad { IfErr result (IsFaultIn text.now) }
{
    let plain = plain_text(alloc, text)?;
    if is_script(plain.as_slice()) {
        return Ok(plain);
    }
    let mut source = text;
    let trace = read_loose(alloc, &mut source)?;
    Ok(text_of(alloc, &trace)?)
}

/// Reads a text in the loose form, all of it, and returns the strict text that it asks for. Of a script its lines are left without what
/// only people need, and not looked at; of a trace a wrong line is a fault.
pub fn read_strict<R: Source>(alloc: Global, reader: &mut R) -> Result<Vec<u8>, LooseFault>
    ensures ok { IfOk result (λ strict. ReadsStrict (R.remaining reader.old) (R.remaining reader.new) strict.items) }
    ensures bad { IfErr result (IsUnread (R.remaining reader.old) (R.remaining reader.new)) }
    ensures reads { TellsLoose result (R.failures reader.old) (R.failures reader.new) }
{
    let text = read_all(alloc, reader)?;
    strict_of(alloc, text.as_slice())
}
