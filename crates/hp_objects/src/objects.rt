//! An output whose lines are written as objects of JSON.
//!
//! Only the last word of a line is held back, until it ends; no line is.
ghost use Rattle.std.specs.Prelude.{◌≡◌, ◌++◌, ◌∷◌, [], OnOk, IfOk, IfErr, IfSome, Some, None, Ok, Err, take};
ghost use Rattle.std.specs.Io.{WritesAtMost};
ghost use Rattle.std.specs.Io.KnownBytes.{Appends, Keeps, WriteAppends};
ghost use Rattle.hp_objects.specs.Objects.{escaped, heading, inside, line_behind, line_of, line_with, next_behind, objects, objects_output};
ghost use Rattle.hp_objects.specs.Objects.{opening_line, passed, quoted, told, unless_objects, without_colon, written};
ghost use Rattle.hp_objects.specs.Places.{closing, writing_of};

use crate::places::{
    Form, Next, Output, closing, command, is_number, opening, place_at, writing_of,
};
use std::alloc::{AllocError, Global};
use std::io;
use std::io::Write;

/// The most bytes of which objects are made at once.
const PIECE: usize = 4096;

/// Appends a byte inside a string.
fn push_escaped(byte: u8, text: &mut Vec<u8>) -> Result<(), AllocError>
    ensures { OnOk result (text.new.items ≡ text.old.items ++ escaped byte) }
{
    if byte == b'"' || byte == b'\\' {
        text.push(b'\\')?;
        text.push(byte)?;
    } else if byte >= b' ' && byte <= b'~' {
        text.push(byte)?;
    } else {
        text.push(b'?')?;
    }
    Ok(())
}

/// Appends a word inside a string.
fn push_inside(word: &[u8], text: &mut Vec<u8>) -> Result<(), AllocError>
    ensures { OnOk result (text.new.items ≡ text.old.items ++ inside word.now) }
{
    for byte in word {
        push_escaped(*byte, text)?;
    }
    Ok(())
}

/// Appends a word as a string.
fn push_quoted(word: &[u8], text: &mut Vec<u8>) -> Result<(), AllocError>
    ensures { OnOk result (text.new.items ≡ text.old.items ++ quoted word.now) }
{
    text.push(b'"')?;
    push_inside(word, text)?;
    text.push(b'"')?;
    Ok(())
}

/// A word without colons.
fn without_colon(alloc: Global, word: &[u8]) -> Result<Vec<u8>, AllocError>
    ensures { IfOk result (λ rest. rest.items ≡ without_colon word.now) }
{
    let mut rest = Vec::new(alloc);
    for byte in word {
        if *byte != b':' {
            rest.push(*byte)?;
        }
    }
    Ok(rest)
}

/// Appends a word, as it is written.
fn push_word(alloc: Global, form: Form, word: &[u8], text: &mut Vec<u8>) -> Result<(), AllocError>
    ensures { OnOk result (text.new.items ≡ text.old.items ++ written form word.now) }
{
    match form {
        Form::Nothing => Ok(()),
        Form::Inside => push_inside(word, text),
        Form::Valued if is_number(word) => text.extend_from_slice(word),
        Form::Quoted | Form::Valued => push_quoted(word, text),
        Form::Named => push_quoted(without_colon(alloc, word)?.as_slice(), text),
        Form::Numbered => text.extend_from_slice(without_colon(alloc, word)?.as_slice()),
    }
}

/// The first object.
fn heading(alloc: Global, output: Output) -> Result<Vec<u8>, AllocError>
    ensures { IfOk result (λ text. text.items ≡ heading output) }
{
    let mut text = Vec::new(alloc);
    text.extend_from_slice(b"{\"schema\":1,\"command\":\"")?;
    text.extend_from_slice(command(output).as_bytes())?;
    text.extend_from_slice(b"\"}\n")?;
    Ok(text)
}

/// What has come of a line, and may go on.
#[derive(Drop)]
pub struct OpenLine {
    next: Next,
    word: Vec<u8>,
}

impl OpenLine {
    fn new(alloc: Global, next: Next) -> OpenLine
        ensures { line_of result ≡ record { next = next; word = [] } }
    {
        OpenLine {
            next,
            word: Vec::new(alloc),
        }
    }

    // Appends the word, which ends here.
    fn end_word(&mut self, alloc: Global, text: &mut Vec<u8>) -> Result<(), AllocError>
        ensures text { OnOk result (text.new.items ≡ text.old.items ++ told (line_of self.old)) }
        ensures line { OnOk result (line_of self.new ≡ record { next = next_behind (line_of self.old); word = [] }) }
    {
        let writing = writing_of(place_at(self.next, self.word.as_slice()));
        text.extend_from_slice(writing.front.as_bytes())?;
        push_word(alloc, writing.form, self.word.as_slice(), text)?;
        self.word.clear();
        self.next = writing.next;
        Ok(())
    }

    // Appends the end of the line, whose last word ends here.
    fn end_line(
        &mut self,
        alloc: Global,
        output: Output,
        text: &mut Vec<u8>,
    ) -> Result<(), AllocError>
        ensures text { OnOk result (text.new.items ≡ text.old.items
            ++ told (line_of self.old) ++ closing (next_behind (line_of self.old)) ++ 10 ∷ []) }
        ensures line { OnOk result (line_of self.new ≡ opening_line output) }
    {
        self.end_word(alloc, text)?;
        text.extend_from_slice(closing(self.next).as_bytes())?;
        self.next = opening(output);
        text.push(b'\n')?;
        Ok(())
    }

    // Takes a byte, and appends what it lets go.
    fn add(
        &mut self,
        alloc: Global,
        output: Output,
        byte: u8,
        text: &mut Vec<u8>,
    ) -> Result<(), AllocError>
        ensures text { OnOk result (text.new.items ≡ text.old.items ++ passed (line_of self.old) byte) }
        ensures line { OnOk result (line_of self.new ≡ line_with output (line_of self.old) byte) }
    {
        match byte {
            b'\n' => self.end_line(alloc, output, text)?,
            b' ' => self.end_word(alloc, text)?,
            _ => self.word.push(byte)?,
        }
        Ok(())
    }

    // Takes a piece of what is written, and appends what it lets go.
    fn add_all(
        &mut self,
        alloc: Global,
        output: Output,
        piece: &[u8],
        text: &mut Vec<u8>,
    ) -> Result<(), AllocError>
        ensures text { OnOk result (text.new.items ≡ text.old.items ++ objects output (line_of self.old) piece.now) }
        ensures line { OnOk result (line_of self.new ≡ line_behind output (line_of self.old) piece.now) }
    {
        for byte in piece {
            self.add(alloc, output, *byte, text)?;
        }
        Ok(())
    }
}

/// An output whose lines become objects, if they are those of a command.
#[derive(Drop)]
pub struct Objects<W> {
    out: W,
    output: Option<Output>,
    held: OpenLine,
    // Why such a write failed. Nothing more is written then.
    failed: Option<io::Error>,
    alloc: Global,
}

impl<W: Write> Objects<W> {
    /// With the name of an output its lines become objects, and without one nothing does.
    pub fn new(alloc: Global, out: W, output: Option<Output>) -> Objects<W>
        ensures out { objects_output result ≡ out }
        ensures output { result.output ≡ output }
        ensures line { IfSome output (λ output. line_of result.held ≡ opening_line output) }
        ensures failed { result.failed ≡ None }
    {
        let next = match output {
            Some(output) => opening(output),
            None => Next::LineStart,
        };
        Objects {
            out,
            output,
            held: OpenLine::new(alloc, next),
            failed: None,
            alloc,
        }
    }

    /// The output. A word that is held back isn't written.
    pub fn into_inner(self) -> W
        ensures { result ≡ objects_output self }
    {
        self.out
    }

    /// Why a write of objects failed, if one did.
    pub fn failed(&self) -> Option<io::Error>
        ensures { result ≡ self.now.failed }
    {
        self.failed
    }

    /// Writes the first object, which names the version of the objects' form and the command. If that fails, all that follows does.
    pub fn begin(&mut self)
        ensures heading { IfSome self.old.output (λ output. self.new.failed ≡ None → Appends (W.contents self.old.out)
            (W.contents self.new.out) (heading output)) }
        ensures none { self.old.output ≡ None → self.new ≡ self.old }
        ensures output { self.new.output ≡ self.old.output }
        ensures held { self.new.held ≡ self.old.held }
    {
        if let Some(output) = self.output {
            if let Err(error) = self.write_heading(output) {
                self.failed = Some(error);
            }
        }
    }

    // Writes the first object.
    fn write_heading(&mut self, output: Output) -> io::Result<()>
        ensures bytes { OnOk result (Appends (W.contents self.old.out) (W.contents self.new.out) (heading output)) }
        ensures output { self.new.output ≡ self.old.output }
        ensures held { self.new.held ≡ self.old.held }
        ensures failed { self.new.failed ≡ self.old.failed }
    {
        let text = heading(self.alloc, output)?;
        self.out.write_all(text.as_slice())
    }

    // Writes what a piece lets go.
    fn write_piece(&mut self, output: Output, piece: &[u8]) -> io::Result<()>
        ensures bytes { OnOk result (Appends (W.contents self.old.out) (W.contents self.new.out)
            (objects output (line_of self.old.held) piece.now)) }
        ensures line { OnOk result (line_of self.new.held ≡ line_behind output (line_of self.old.held) piece.now) }
        ensures output { self.new.output ≡ self.old.output }
        ensures failed { self.new.failed ≡ self.old.failed }
    {
        let mut text = Vec::new(self.alloc);
        self.held.add_all(self.alloc, output, piece, &mut text)?;
        self.out.write_all(text.as_slice())
    }
}

impl<W: Write> Write for Objects<W> {
    ghost contents = { λ it. unless_objects it.output (W.contents (objects_output it)) };

    fn write(&mut self, buf: &[u8]) -> io::Result<usize>
        ensures bound { WritesAtMost result buf.now }
        ensures bytes { WriteAppends (unless_objects self.old.output (W.contents self.old.out))
            (unless_objects self.new.output (W.contents self.new.out)) result buf.now }
        ensures objects { IfSome self.old.output (λ output. IfOk result (λ n. Appends (W.contents self.old.out)
            (W.contents self.new.out) (objects output (line_of self.old.held) (take n buf.now)))) }
        ensures line { IfSome self.old.output (λ output. IfOk result (λ n.
            line_of self.new.held ≡ line_behind output (line_of self.old.held) (take n buf.now))) }
        ensures output { self.new.output ≡ self.old.output }
        ensures fails { IfSome self.old.output (λ output. IfErr result (λ error. self.new.failed ≡ Some error)) }
        ensures succeeds { OnOk result (self.new.failed ≡ self.old.failed) }
        ensures stays { IfSome self.old.output (λ output. IfSome self.old.failed (λ error.
            (result ≡ Err error) × (self.new ≡ self.old))) }
    {
        let Some(output) = self.output else {
            return self.out.write(buf);
        };
        if let Some(error) = self.failed {
            return Err(error);
        }
        let count = buf.len().min(PIECE);
        match self.write_piece(output, &buf[..count]) {
            Ok(()) => Ok(count),
            Err(error) => {
                self.failed = Some(error);
                Err(error)
            }
        }
    }

    fn flush(&mut self) -> io::Result<()>
        ensures bytes { Keeps (unless_objects self.old.output (W.contents self.old.out))
            (unless_objects self.new.output (W.contents self.new.out)) }
        ensures kept { Keeps (W.contents self.old.out) (W.contents self.new.out) }
        ensures line { self.new.held ≡ self.old.held }
        ensures output { self.new.output ≡ self.old.output }
        ensures failed { self.new.failed ≡ self.old.failed }
        ensures stays { IfSome self.old.output (λ output. IfSome self.old.failed (λ error.
            (result ≡ Err error) × (self.new ≡ self.old))) }
    {
        match (self.output, self.failed) {
            (Some(_), Some(error)) => Err(error),
            _ => self.out.flush(),
        }
    }
}
