//! Where a trace is read from and written to: streams that count the calls of them that failed.
ghost use Rattle.std.specs.Prelude.{◌≡◌, ◌≢◌, ◌<◌, ◌≤◌, IfOk, IfErr, OnOk, OnErr, IfSome, Ok, Err, Some, true, false, length, take};
ghost use Rattle.std.specs.Io.KnownBytes.{Appends, Consumes, IsAtEnd, Keeps};
ghost use Rattle.hp_text.specs.Streams.{stream_of, failures_of, has_failed, one_more};

use crate::fault::ReplayFault;
use std::io;
use std::io::{Read, Write};

/// The most bytes that are read at a time.
pub const PIECE: usize = 4096;

/// Where a trace is read from. Contracts see how many reads of it have failed.
pub trait Source {
    ghost use Rattle.std.specs.Prelude.{Option, List, ℕ};

    // the bytes that reads will give from here on, where they are known
    ghost remaining: { Self → Option (List ℕ) };

    // how many reads have failed
    ghost failures: { Self → ℕ };

    /// Reads once, and tells how many bytes came; none come at the end alone.
    fn read_piece(&mut self, piece: &mut [u8]) -> Result<usize, ReplayFault>
        ensures within { IfOk result (λ n. n ≤ length piece.new) }
        ensures bytes { IfOk result (λ n. Consumes (remaining self.old) (remaining self.new) (take n piece.new)) }
        ensures end { IfOk result (λ n. n ≡ 0 → 0 < length piece.old → IsAtEnd (remaining self.new)) }
        ensures ok { OnOk result (failures self.new ≡ failures self.old) }
        ensures err { IfErr result (λ fault. (fault ≡ ReplayFault.Read) × (failures self.new ≡ one_more (failures self.old))
            × Keeps (remaining self.old) (remaining self.new)) };
}

/// Where a text is written. Contracts see how many writes to it have failed.
pub trait Sink {
    ghost use Rattle.std.specs.Prelude.{Option, List, ℕ};

    // the bytes that are written, where they are known
    ghost contents: { Self → Option (List ℕ) };

    // how many writes have failed
    ghost failures: { Self → ℕ };

    /// Writes once, and tells how many bytes of the front were taken, which are some.
    fn write_piece(&mut self, piece: &[u8]) -> Result<usize, ReplayFault>
        ensures some { IfOk result (λ n. 0 < n) }
        ensures within { IfOk result (λ n. n ≤ length piece.now) }
        ensures bytes { IfOk result (λ n. Appends (contents self.old) (contents self.new) (take n piece.now)) }
        ensures ok { OnOk result (failures self.new ≡ failures self.old) }
        ensures err { IfErr result (λ fault. (fault ≡ ReplayFault.Write) × (failures self.new ≡ one_more (failures self.old))
            × Keeps (contents self.old) (contents self.new)) };
}

/// A stream, and how many reads of it answered an error, or writes an error or no byte. The count stays at its largest number.
#[derive(Drop)]
pub struct Watched<S> {
    stream: S,
    failures: u64,
}

impl<S> Watched<S> {
    pub fn new(stream: S) -> Self
        ensures stream { stream_of result ≡ stream }
        ensures failures { failures_of result ≡ 0 }
    {
        Watched {
            stream,
            failures: 0,
        }
    }

    pub fn has_failed(&self) -> bool
        ensures { result ≡ has_failed self.now }
    {
        self.failures > 0
    }

    pub fn into_inner(self) -> S
        ensures { result ≡ stream_of self }
    {
        self.stream
    }
}

/// What a read came to: its count, or a fault of reading exactly where it answered an error.
fn read_count(answer: io::Result<usize>) -> Result<usize, ReplayFault>
    ensures ok { IfOk answer (λ n. result ≡ Ok n) }
    ensures err { OnErr answer (result ≡ Err ReplayFault.Read) }
{
    answer.map_err(|_| ReplayFault::Read)
}

/// What a write came to: its count, or a fault of writing exactly where it answered an error or took no byte.
fn written_count(answer: io::Result<usize>) -> Result<usize, ReplayFault>
    ensures some { IfOk answer (λ n. n ≢ 0 → result ≡ Ok n) }
    ensures none { IfOk answer (λ n. n ≡ 0 → result ≡ Err ReplayFault.Write) }
    ensures err { OnErr answer (result ≡ Err ReplayFault.Write) }
{
    match answer {
        Ok(0) | Err(_) => Err(ReplayFault::Write),
        Ok(n) => Ok(n),
    }
}

impl<R: Read> Source for Watched<R> {
    ghost remaining = { λ watched. R.remaining (stream_of watched) };

    ghost failures = { failures_of };

    fn read_piece(&mut self, piece: &mut [u8]) -> Result<usize, ReplayFault> {
        let count = read_count(self.stream.read(piece));
        if count.is_err() {
            self.failures = self.failures.saturating_add(1);
        }
        count
    }
}

impl<W: Write> Sink for Watched<W> {
    ghost contents = { λ watched. W.contents (stream_of watched) };

    ghost failures = { failures_of };

    fn write_piece(&mut self, piece: &[u8]) -> Result<usize, ReplayFault> {
        let count = written_count(self.stream.write(piece));
        if count.is_err() {
            self.failures = self.failures.saturating_add(1);
        }
        count
    }
}

/// A read of bytes in memory never fails.
impl Source for &[u8] {
    ghost remaining = { λ bytes. Some bytes.now };

    ghost failures = { λ _. 0 };

    fn read_piece(&mut self, piece: &mut [u8]) -> Result<usize, ReplayFault> {
        read_count(self.read(piece))
    }
}
