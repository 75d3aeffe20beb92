//! The words that the program was called with.
ghost use Rattle.std.specs.Prelude.{◌≡◌, ◌≢◌};
ghost use Rattle.std.specs.IoError.{error_kind};
ghost use Rattle.hugepool.specs.Words.{status_without};

use std::alloc::AllocError;
use std::io::{ErrorKind, Write};
use std::{env, io};
use thiserror::Error;

/// Why there are no words to read.
#[derive(Clone, Copy, Debug, PartialEq, Eq, Error)]
pub(crate) enum NoWords {
    /// There is no memory for them.
    #[error("hugepool: out of memory\n")]
    Memory,
    /// One of them isn't UTF-8.
    #[error("error: a word of the command line isn't UTF-8\n\nUsage: hugepool <COMMAND>\n\nFor more information, try '--help'.\n")]
    NoText,
}

// Why the system gave none. But for want of memory it gives all that are text.
fn why_none(error: &io::Error) -> NoWords
    ensures memory { error_kind error.now ≡ ErrorKind.OutOfMemory → result ≡ NoWords.Memory }
    ensures text { error_kind error.now ≢ ErrorKind.OutOfMemory → result ≡ NoWords.NoText }
{
    match error.kind() {
        ErrorKind::OutOfMemory => NoWords::Memory,
        _ => NoWords::NoText,
    }
}

/// All words of the command line, the program's name first.
pub(crate) fn words(rt: &HostRuntime) -> Result<Vec<String>, NoWords> {
    let given = env::args(rt).map_err(|error| why_none(&error))?;
    let words: Result<Vec<String>, AllocError> = given.collect(rt.alloc());
    words.map_err(|_| NoWords::Memory)
}

/// Tells why there are no words, and the status that the program ends with. Whether it can be told changes nothing.
pub(crate) fn end_without(why: NoWords, errors: &mut impl Write) -> u8
    ensures { result ≡ status_without why }
{
    let _ = write!(errors, "{why}");
    match why {
        NoWords::Memory => 1,
        NoWords::NoText => 2,
    }
}
