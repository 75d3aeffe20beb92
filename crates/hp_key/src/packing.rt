//! Words as bytes.
ghost use Rattle.std.specs.Prelude.{◌≡◌, ◌++◌, IfOk, OnOk};
ghost use Rattle.hp_key.specs.Packed.{packed, word_bytes};

use std::alloc::{AllocError, Global};

// A word, in as few bytes as it takes.
fn push_word(bytes: &mut Vec<u8>, word: u32) -> Result<(), AllocError>
    ensures { OnOk result (bytes.new.items ≡ bytes.old.items ++ word_bytes word) }
{
    if word < 255 {
        bytes.push(word as u8)?;
        return Ok(());
    }
    bytes.extend_from_slice(&[
        255,
        (word % 256) as u8,
        (word / 256 % 256) as u8,
        (word / 65_536 % 256) as u8,
        (word / 16_777_216) as u8,
    ])?;
    Ok(())
}

/// The words as bytes, which are a quarter as long where the words are small. Different words are different bytes.
pub fn pack(alloc: Global, words: &[u32]) -> Result<Vec<u8>, AllocError>
    ensures { IfOk result (λ bytes. bytes.items ≡ packed words.now) }
{
    let mut bytes = Vec::with_capacity(alloc, words.len())?;
    for word in words {
        push_word(&mut bytes, *word)?;
    }
    Ok(bytes)
}
