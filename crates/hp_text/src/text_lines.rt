//! A text that is read whole, and cut into lines.
ghost use Rattle.std.specs.Prelude.{◌≡◌, ◌<◌, ◌∷◌, ◌⊎◌, IfOk, IfErr, OnOk, length};
ghost use Rattle.std.specs.Io.KnownBytes.{Consumes, IsAtEnd};
ghost use Rattle.hp_text.specs.Streams.{TellsReads};
ghost use Rattle.hp_text.specs.TextLines.{lines_of};

use crate::fault::ReplayFault;
use crate::streams::{PIECE, Source};
use memchr::memchr;
use std::alloc::Global;

/// The first line of a text, without its end, and what stands behind it.
pub fn split_line(text: &[u8]) -> (&[u8], &[u8])
    requires { 0 < length text.now }
    ensures lines { lines_of text.now ≡ result.0.now ∷ lines_of result.1.now }
    ensures shorter { length result.1.now < length text.now }
{
    match memchr(b'\n', text) {
        Some(end) => (&text[..end], &text[end + 1..]),
        None => (text, &[]),
    }
}

/// All that the reader gives.
pub fn read_all<R: Source>(alloc: Global, reader: &mut R) -> Result<Vec<u8>, ReplayFault>
    ensures reads { IfOk result (λ text. Consumes (R.remaining reader.old) (R.remaining reader.new) text.items) }
    ensures all { OnOk result (IsAtEnd (R.remaining reader.new)) }
    ensures reader { TellsReads result (R.failures reader.old) (R.failures reader.new) }
    ensures fault { IfErr result (λ fault. (fault ≡ ReplayFault.Read) ⊎ (fault ≡ ReplayFault.Memory)) }
{
    let mut text = Vec::new(alloc);
    let mut piece = [0; PIECE];
    for _ in 0..u64::MAX {
        let n = reader.read_piece(&mut piece)?;
        if n == 0 {
            return Ok(text);
        }
        text.extend_from_slice(&piece[..n])?;
    }
    Err(ReplayFault::Memory)
}
