//! A reader of the output that leaves before all is written, as `head` does. That is no fault: nobody asks for more.
ghost use Rattle.std.specs.Prelude.{◌≡◌, ◌↔◌, false, IfSome, IsTrue, None};
ghost use Rattle.std.specs.IoError.{error_kind};

use crate::noted::Noted;
use std::io;
use std::io::{ErrorKind, Write};

/// The status with which a program ends then: that of one which the signal SIGPIPE ends, as a shell gives it.
pub const LEFT: u8 = 141;

/// An output whose reader may leave.
pub trait Heard: Write {
    /// Whether it has left.
    fn has_left(&self) -> bool;
}

impl<W: Write> Heard for Noted<W> {
    fn has_left(&self) -> bool {
        is_left(self.error())
    }
}

/// Whether a call failed with this error because the reader has left.
pub fn is_left(error: Option<io::Error>) -> bool
    ensures left { IfSome error (λ e. IsTrue result ↔ (error_kind e ≡ ErrorKind.BrokenPipe)) }
    ensures none { error ≡ None → result ≡ false }
{
    match error {
        Some(error) => error.kind() == ErrorKind::BrokenPipe,
        None => false,
    }
}

/// Whether an output is there whose reader has left.
pub fn has_left<W: Heard>(out: &Option<W>) -> bool {
    match out {
        Some(out) => out.has_left(),
        None => false,
    }
}
