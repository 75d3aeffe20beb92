//! Reads a picture from bytes.
ghost use Rattle.std.specs.Prelude.{◌≡◌, ◌<◌, ◌≤◌, ◌+◌, ◌^◌, ◌∷◌, ◌⊎◌, [], Ok, Err, IfOk, IfErr, OnOk, length};
ghost use Rattle.std.specs.Io.KnownBytes.{Consumes, IsAtEnd};
ghost use Rattle.hp_text.specs.Streams.{TellsReads};
ghost use Rattle.hp_text.specs.TextLines.{lines_of};
ghost use Rattle.hp_picture.specs.Pictures.{taken, opening, picture_of, IsFaultOf, IsReadOf, ReadsPicture, TellsPicture};

use crate::draft::Draft;
use crate::fault::PictureFault;
use crate::picture::Picture;
use hp_text::{Source, read_all, split_line};
use std::alloc::{AllocError, Global};

/// Takes the lines of a text.
fn take_text(mut draft: Draft, text: &[u8]) -> Result<Picture, PictureFault>
    ensures ok { IfOk result (λ picture. taken 0 draft (lines_of text.now) ≡ Ok (picture.counts, picture.places)) }
    ensures err { IfErr result (λ fault. IsFaultOf fault (taken 0 draft (lines_of text.now))) }
{
    let mut rest = text;
    let mut lines = 0;
    while !rest.is_empty() {
        let (line, behind) = split_line(rest);
        match draft.take(line, lines) {
            Ok(()) => {}
            Err(fault) => return Err(fault),
        }
        rest = behind;
        lines += 1;
    }
    draft.whole(lines)
}

/// The picture that a text spells.
#[tactic(auto, unfolding(crate::specs::Pictures::picture_of))]
fn picture_in(alloc: Global, text: &[u8]) -> Result<Picture, PictureFault>
    ensures ok { IfOk result (λ picture. picture_of text.now ≡ Ok (picture.counts, picture.places)) }
    ensures err { IfErr result (λ fault. IsFaultOf fault (picture_of text.now)) }
{
    take_text(Draft::new(alloc), text)
}

/// The picture that the reader's bytes spell, all of them, or the first line that isn't one of a picture.
pub fn read_picture<R: Source>(alloc: Global, reader: &mut R) -> Result<Picture, PictureFault>
    ensures ok { IfOk result (λ picture. ReadsPicture (R.remaining reader.old) (R.remaining reader.new) (Ok (picture.counts, picture.places))) }
    ensures bad { IfErr result (λ fault. IsReadOf fault (R.remaining reader.old) (R.remaining reader.new)) }
    ensures reads { TellsPicture result (R.failures reader.old) (R.failures reader.new) }
{
    let text = read_all(alloc, reader)?;
    picture_in(alloc, text.as_slice())
}
