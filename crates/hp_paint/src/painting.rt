//! An output whose words are coloured.
//!
//! A word is a run of letters, digits, `_` and `-`. Only the last word is held back, until it ends; no line is.
ghost use Rattle.std.specs.Prelude.{◌≡◌, ◌++◌, ◌∷◌, [], OnOk, IfOk, IfErr, IfSome, Some, None, Ok, Err, take};
ghost use Rattle.std.specs.Io.{WritesAtMost};
ghost use Rattle.std.specs.Io.KnownBytes.{Appends, Keeps, WriteAppends};
ghost use Rattle.hp_paint.specs.Palettes.{shown};
ghost use Rattle.hp_paint.specs.Painting.{Short, Long, closed, word_of, in_word, opened, open_behind, painted, painted_output, passed};
ghost use Rattle.hp_paint.specs.Painting.{unless_coloured};

use crate::palette::{PLAIN, Palette, colour_of, sequence};
use std::alloc::{AllocError, Global};
use std::io;
use std::io::Write;

/// The most bytes of a coloured word.
const LONGEST: usize = 11;

/// The most bytes that are coloured at once.
const PIECE: usize = 4096;

/// Whether a byte is one of a word.
fn in_word(byte: u8) -> bool
    ensures { result ≡ in_word byte }
{
    matches!(byte, b'a'..=b'z' | b'A'..=b'Z' | b'0'..=b'9' | b'_' | b'-')
}

/// Appends a whole word, in its colour.
fn push_word(palette: Palette, word: &[u8], text: &mut Vec<u8>) -> Result<(), AllocError>
    ensures { OnOk result (text.new.items ≡ text.old.items ++ shown palette word.now) }
{
    match colour_of(palette, word) {
        None => text.extend_from_slice(word),
        Some(colour) => {
            text.extend_from_slice(sequence(colour))?;
            text.extend_from_slice(word)?;
            text.extend_from_slice(PLAIN)
        }
    }
}

/// The last word of what was written, which may go on.
#[derive(Drop)]
pub struct OpenWord {
    bytes: Vec<u8>,
    // It is longer than any coloured word, and none of it is held back.
    is_long: bool,
}

impl OpenWord {
    fn new(alloc: Global) -> OpenWord
        ensures { word_of result ≡ Short [] }
    {
        OpenWord {
            bytes: Vec::new(alloc),
            is_long: false,
        }
    }

    // Appends the word, which ends here.
    fn end(&mut self, palette: Palette, text: &mut Vec<u8>) -> Result<(), AllocError>
        ensures text { OnOk result (text.new.items ≡ text.old.items ++ closed palette (word_of self.old)) }
        ensures held { OnOk result (word_of self.new ≡ Short []) }
    {
        if !self.is_long {
            push_word(palette, self.bytes.as_slice(), text)?;
        }
        self.bytes.clear();
        self.is_long = false;
        Ok(())
    }

    // Appends a word that has become too long for a colour, with its next byte.
    fn pass(&mut self, byte: u8, text: &mut Vec<u8>) -> Result<(), AllocError>
        ensures text { OnOk result (text.new.items ≡ text.old.items ++ self.old.bytes.items ++ byte ∷ []) }
        ensures held { OnOk result (word_of self.new ≡ Long) }
    {
        text.extend_from_slice(self.bytes.as_slice())?;
        text.push(byte)?;
        self.is_long = true;
        Ok(())
    }

    // Takes a byte, and appends what it lets go.
    fn add(&mut self, palette: Palette, byte: u8, text: &mut Vec<u8>) -> Result<(), AllocError>
        ensures text { OnOk result (text.new.items ≡ text.old.items ++ passed palette (word_of self.old) byte) }
        ensures held { OnOk result (word_of self.new ≡ opened (word_of self.old) byte) }
    {
        if !in_word(byte) {
            self.end(palette, text)?;
            text.push(byte)?;
        } else if self.is_long {
            text.push(byte)?;
        } else if self.bytes.len() < LONGEST {
            self.bytes.push(byte)?;
        } else {
            self.pass(byte, text)?;
        }
        Ok(())
    }

    // Takes a piece of what is written, and appends what it lets go.
    fn add_all(
        &mut self,
        palette: Palette,
        piece: &[u8],
        text: &mut Vec<u8>,
    ) -> Result<(), AllocError>
        ensures text { OnOk result (text.new.items ≡ text.old.items ++ painted palette (word_of self.old) piece.now) }
        ensures held { OnOk result (word_of self.new ≡ open_behind (word_of self.old) piece.now) }
    {
        for byte in piece {
            self.add(palette, *byte, text)?;
        }
        Ok(())
    }
}

/// An output in which words are coloured, if there is a palette.
#[derive(Drop)]
pub struct Painted<W> {
    out: W,
    palette: Option<Palette>,
    held: OpenWord,
    // Why a coloured write failed. Nothing more is written then.
    failed: Option<io::Error>,
    alloc: Global,
}

impl<W: Write> Painted<W> {
    /// With a palette its words are coloured, and without one nothing is.
    pub fn new(alloc: Global, out: W, palette: Option<Palette>) -> Painted<W>
        ensures out { painted_output result ≡ out }
        ensures palette { result.palette ≡ palette }
        ensures held { word_of result.held ≡ Short [] }
        ensures failed { result.failed ≡ None }
    {
        Painted {
            out,
            palette,
            held: OpenWord::new(alloc),
            failed: None,
            alloc,
        }
    }

    /// The output. A word that is held back isn't written; a flush writes it.
    pub fn into_inner(self) -> W
        ensures { result ≡ painted_output self }
    {
        self.out
    }

    /// Why a coloured write failed, if one did.
    pub fn failed(&self) -> Option<io::Error>
        ensures { result ≡ self.now.failed }
    {
        self.failed
    }

    // Writes a piece, but for a word that may go on.
    fn write_piece(&mut self, palette: Palette, piece: &[u8]) -> io::Result<()>
        ensures bytes { OnOk result (Appends (W.contents self.old.out) (W.contents self.new.out)
            (painted palette (word_of self.old.held) piece.now)) }
        ensures held { OnOk result (word_of self.new.held ≡ open_behind (word_of self.old.held) piece.now) }
        ensures palette { self.new.palette ≡ self.old.palette }
        ensures failed { self.new.failed ≡ self.old.failed }
    {
        let mut text = Vec::new(self.alloc);
        self.held.add_all(palette, piece, &mut text)?;
        self.out.write_all(text.as_slice())
    }

    // Writes the word that is held back.
    fn write_held(&mut self, palette: Palette) -> io::Result<()>
        ensures bytes { OnOk result (Appends (W.contents self.old.out) (W.contents self.new.out)
            (closed palette (word_of self.old.held))) }
        ensures held { OnOk result (word_of self.new.held ≡ Short []) }
        ensures palette { self.new.palette ≡ self.old.palette }
        ensures failed { self.new.failed ≡ self.old.failed }
    {
        let mut text = Vec::new(self.alloc);
        self.held.end(palette, &mut text)?;
        self.out.write_all(text.as_slice())
    }

    // Writes the word that is held back, and flushes the output.
    fn flush_held(&mut self, palette: Palette) -> io::Result<()>
        ensures bytes { OnOk result (Appends (W.contents self.old.out) (W.contents self.new.out)
            (closed palette (word_of self.old.held))) }
        ensures held { OnOk result (word_of self.new.held ≡ Short []) }
        ensures palette { self.new.palette ≡ self.old.palette }
        ensures failed { self.new.failed ≡ self.old.failed }
    {
        self.write_held(palette)?;
        self.out.flush()
    }
}

impl<W: Write> Write for Painted<W> {
    ghost contents = { λ painted. unless_coloured painted.palette (W.contents (painted_output painted)) };

    fn write(&mut self, buf: &[u8]) -> io::Result<usize>
        ensures bound { WritesAtMost result buf.now }
        ensures bytes { WriteAppends (unless_coloured self.old.palette (W.contents self.old.out))
            (unless_coloured self.new.palette (W.contents self.new.out)) result buf.now }
        ensures coloured { IfSome self.old.palette (λ palette. IfOk result (λ n. Appends (W.contents self.old.out)
            (W.contents self.new.out) (painted palette (word_of self.old.held) (take n buf.now)))) }
        ensures held { IfSome self.old.palette (λ palette. IfOk result (λ n.
            word_of self.new.held ≡ open_behind (word_of self.old.held) (take n buf.now))) }
        ensures palette { self.new.palette ≡ self.old.palette }
        ensures fails { IfSome self.old.palette (λ palette. IfErr result (λ error. self.new.failed ≡ Some error)) }
        ensures succeeds { OnOk result (self.new.failed ≡ self.old.failed) }
        ensures stays { IfSome self.old.palette (λ palette. IfSome self.old.failed (λ error.
            (result ≡ Err error) × (self.new ≡ self.old))) }
    {
        let Some(palette) = self.palette else {
            return self.out.write(buf);
        };
        if let Some(error) = self.failed {
            return Err(error);
        }
        let count = buf.len().min(PIECE);
        match self.write_piece(palette, &buf[..count]) {
            Ok(()) => Ok(count),
            Err(error) => {
                self.failed = Some(error);
                Err(error)
            }
        }
    }

    fn flush(&mut self) -> io::Result<()>
        ensures bytes { Keeps (unless_coloured self.old.palette (W.contents self.old.out))
            (unless_coloured self.new.palette (W.contents self.new.out)) }
        ensures coloured { IfSome self.old.palette (λ palette. OnOk result (Appends (W.contents self.old.out)
            (W.contents self.new.out) (closed palette (word_of self.old.held)))) }
        ensures held { IfSome self.old.palette (λ palette. OnOk result (word_of self.new.held ≡ Short [])) }
        ensures palette { self.new.palette ≡ self.old.palette }
        ensures fails { IfSome self.old.palette (λ palette. IfErr result (λ error. self.new.failed ≡ Some error)) }
        ensures succeeds { OnOk result (self.new.failed ≡ self.old.failed) }
        ensures stays { IfSome self.old.palette (λ palette. IfSome self.old.failed (λ error.
            (result ≡ Err error) × (self.new ≡ self.old))) }
    {
        let Some(palette) = self.palette else {
            return self.out.flush();
        };
        if let Some(error) = self.failed {
            return Err(error);
        }
        let flushed = self.flush_held(palette);
        if let Err(error) = flushed {
            self.failed = Some(error);
        }
        flushed
    }
}
