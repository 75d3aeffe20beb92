//! What is left of a line without what only people need.
ghost use Rattle.std.specs.Prelude.{◌≡◌, ◌++◌, OnOk};
ghost use Rattle.hp_format.specs.Tidy.{appended, is_blank, tidy};

use std::alloc::AllocError;

/// Whether the byte parts words.
fn is_blank(byte: u8) -> bool
    ensures { result ≡ is_blank byte }
{
    byte == b' ' || byte == b'\t' || byte == b'\r'
}

/// Adds a byte of a word, behind a space where the word is another than the last.
fn add_byte(words: &mut Vec<u8>, is_behind: bool, byte: u8) -> Result<(), AllocError>
    ensures { OnOk result (words.new.items ≡ words.old.items ++ appended is_behind byte) }
{
    if is_behind {
        words.push(b' ')?;
    }
    words.push(byte)?;
    Ok(())
}

/// The words of a line, with one space between two, and without its comment.
pub fn tidy(line: &[u8], words: &mut Vec<u8>) -> Result<(), AllocError>
    ensures { OnOk result (words.new.items ≡ tidy line.now) }
{
    words.clear();
    let mut is_behind = false;
    for byte in line {
        if *byte == b'#' {
            return Ok(());
        }
        if is_blank(*byte) {
            is_behind = !words.is_empty();
            continue;
        }
        add_byte(words, is_behind, *byte)?;
        is_behind = false;
    }
    Ok(())
}
