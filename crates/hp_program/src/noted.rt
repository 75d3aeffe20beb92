//! Streams that note why the system refused a call.
ghost use Rattle.std.specs.Prelude.{◌≡◌, Ok, Err, Some, None, IfOk, IfErr};
ghost use Rattle.hp_program.specs.Noted.{noted_stream};

use std::io;
use std::io::{Read, Write};

/// A stream, and the system's error of its last read or write, where that failed, or of a flush behind it.
#[derive(Drop)]
pub struct Noted<S> {
    stream: S,
    error: Option<io::Error>,
}

// The error of a call, if it failed.
fn error_of<T>(answer: &io::Result<T>) -> Option<io::Error>
    ensures ok { IfOk answer.now (λ _. result ≡ None) }
    ensures err { IfErr answer.now (λ error. result ≡ Some error) }
{
    match answer {
        Ok(_) => None,
        Err(error) => Some(*error),
    }
}

impl<S> Noted<S> {
    pub fn new(stream: S) -> Noted<S>
        ensures stream { noted_stream result ≡ stream }
        ensures error { result.error ≡ None }
    {
        Noted {
            stream,
            error: None,
        }
    }

    /// The system's error, where the last read or write failed, or a flush behind it did.
    pub fn error(&self) -> Option<io::Error>
        ensures { result ≡ self.now.error }
    {
        self.error
    }
}

impl<R: Read> Read for Noted<R> {
    ghost remaining = { λ noted. R.remaining (noted_stream noted) };

    fn read(&mut self, buf: &mut [u8]) -> io::Result<usize> {
        let count = self.stream.read(buf);
        self.error = error_of(&count);
        count
    }
}

impl<W: Write> Write for Noted<W> {
    ghost contents = { λ noted. W.contents (noted_stream noted) };

    fn write(&mut self, buf: &[u8]) -> io::Result<usize> {
        let count = self.stream.write(buf);
        self.error = error_of(&count);
        count
    }

    fn flush(&mut self) -> io::Result<()> {
        let flushed = self.stream.flush();
        self.error = self.error.or(error_of(&flushed));
        flushed
    }
}
