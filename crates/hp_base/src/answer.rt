//! What a call ends with.
ghost use Rattle.std.specs.Prelude.{Some};
ghost use Rattle.hp_base.specs.Text.{answer_text};

use crate::numbers::Vpn;
use std::fmt;

/// What a call ends with.
#[derive(Clone, Copy, Debug, PartialEq, Eq)]
pub enum Answer {
    /// The first virtual page of the new mapping.
    Mapped(Vpn),
    /// The word that a load read.
    Word(u64),
    Done,
    /// No mapping has that virtual page (Linux: `SIGSEGV`).
    Segv,
    /// The page lies at or above the file's size (Linux: `SIGBUS`, `VM_FAULT_SIGBUS`).
    Beyond,
    /// No frame is free, or too few are free and unreserved (Linux: `ENOSPC`, in a fault `SIGBUS`).
    NoFrame,
    /// The files together would have more pages than the pool's quota (Linux: `ENOSPC` of a mount's size, in a
    /// fault `SIGBUS`; the quota is asked first).
    NoQuota,
    /// A growth was refused (Linux: `ENOMEM`).
    NoMemory,
    /// An allocation noticed that its task was killed (Linux: `EINTR`).
    Interrupted,
    /// Another call noticed that its task was killed.
    Killed,
    /// No file has that number.
    BadFile,
    /// The range is empty or ends above the limit of a file.
    BadRange,
    /// No mapping begins there.
    NotMapped,
    /// No room for a mapping of that length (Linux: `ENOMEM` of `get_unmapped_area`).
    NoAddress,
}

/// The answer's words in an outcome line, as `mapped 0`.
impl fmt::Display for Answer {
    ghost output = { λ answer. Some (answer_text answer) };

    fn fmt<W: fmt::Write>(&self, f: &mut fmt::Formatter<W>) -> fmt::Result {
        match self {
            Answer::Mapped(base) => write!(f, "mapped {base}"),
            Answer::Word(word) => write!(f, "word {word}"),
            Answer::Done => write!(f, "done"),
            Answer::Segv => write!(f, "segv"),
            Answer::Beyond => write!(f, "beyond"),
            Answer::NoFrame => write!(f, "noframe"),
            Answer::NoQuota => write!(f, "noquota"),
            Answer::NoMemory => write!(f, "nomemory"),
            Answer::Interrupted => write!(f, "interrupted"),
            Answer::Killed => write!(f, "killed"),
            Answer::BadFile => write!(f, "badfile"),
            Answer::BadRange => write!(f, "badrange"),
            Answer::NotMapped => write!(f, "notmapped"),
            Answer::NoAddress => write!(f, "noaddress"),
        }
    }
}
