//! Streams that move a byte a call, and break.
ghost use Rattle.std.specs.Prelude.{◌≡◌, [], Some};

use std::alloc::Global;
use std::io;
use std::io::{ErrorKind, Read, Write};

/// What a call comes to that breaks.
#[derive(Clone, Copy, Debug, PartialEq, Eq)]
pub enum Break {
    /// It answers an error.
    Error(ErrorKind),
    /// It takes no byte.
    Nothing,
}

/// Takes one byte a call, breaks once after so many, and goes on then, so that whoever tries again is seen.
#[derive(Drop)]
pub struct SmallWriter {
    taken: Vec<u8>,
    calls: usize,
    broken: Break,
}

impl SmallWriter {
    pub fn new(alloc: Global, calls: usize, broken: Break) -> SmallWriter
        ensures taken { result.taken.items ≡ [] }
        ensures calls { result.calls ≡ calls }
    {
        SmallWriter {
            taken: Vec::new(alloc),
            calls,
            broken,
        }
    }

    /// What it took.
    pub fn taken(&self) -> &[u8]
        ensures { result.now ≡ self.now.taken.items }
    {
        self.taken.as_slice()
    }
}

impl Write for SmallWriter {
    ghost contents = { λ writer. Some writer.taken.items };

    fn write(&mut self, buf: &[u8]) -> io::Result<usize> {
        let [first, ..] = buf else {
            return Ok(0);
        };
        if self.calls == 0 {
            self.calls = usize::MAX;
            return match self.broken {
                Break::Error(kind) => Err(io::Error::from(kind)),
                Break::Nothing => Ok(0),
            };
        }
        self.taken.push(*first)?;
        self.calls -= 1;
        Ok(1)
    }

    fn flush(&mut self) -> io::Result<()> {
        Ok(())
    }
}

/// Gives one byte a call, answers one error after so many calls, and goes on then.
#[derive(Drop)]
pub struct SmallReader<'a> {
    bytes: &'a [u8],
    calls: usize,
    error: ErrorKind,
}

impl<'a> SmallReader<'a> {
    pub fn new(bytes: &'a [u8], calls: usize, error: ErrorKind) -> SmallReader<'a>
        ensures bytes { result.bytes.now ≡ bytes.now }
        ensures calls { result.calls ≡ calls }
    {
        SmallReader {
            bytes,
            calls,
            error,
        }
    }
}

impl Read for SmallReader<'_> {
    fn read(&mut self, buf: &mut [u8]) -> io::Result<usize> {
        if self.calls == 0 {
            self.calls = usize::MAX;
            return Err(io::Error::from(self.error));
        }
        self.calls -= 1;
        let [first, rest @ ..] = self.bytes else {
            return Ok(0);
        };
        if buf.is_empty() {
            return Ok(0);
        }
        buf[0] = *first;
        self.bytes = rest;
        Ok(1)
    }
}
