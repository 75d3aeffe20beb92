//! Calls, named as a trace names them.
ghost use Rattle.std.specs.Prelude.{◌≡◌, Some};
ghost use Rattle.hp_watch.specs.CallWords.{word_text, word_of};

use hp_base::Op;
use std::fmt;

/// Which call it is: the first word of its operation in a trace.
#[derive(Clone, Copy, Debug, PartialEq, Eq)]
pub enum CallWord {
    /// None: that of a task that has begun none.
    Nothing,
    Map,
    MapNoReserve,
    Unmap,
    Load,
    Store,
    Alloc,
    AllocKeep,
    Punch,
    Truncate,
    Exit,
}

/// The call of an operation.
pub fn word_of(op: Op) -> CallWord
    ensures { result ≡ word_of op }
{
    match op {
        Op::Map { .. } => CallWord::Map,
        Op::MapNoReserve { .. } => CallWord::MapNoReserve,
        Op::Unmap { .. } => CallWord::Unmap,
        Op::Load { .. } => CallWord::Load,
        Op::Store { .. } => CallWord::Store,
        Op::Alloc { keep: false, .. } => CallWord::Alloc,
        Op::Alloc { keep: true, .. } => CallWord::AllocKeep,
        Op::Punch { .. } => CallWord::Punch,
        Op::Truncate { .. } => CallWord::Truncate,
        Op::Exit => CallWord::Exit,
    }
}

/// The word, as `map`.
impl fmt::Display for CallWord {
    ghost output = { λ call. Some (word_text call) };

    fn fmt<W: fmt::Write>(&self, f: &mut fmt::Formatter<W>) -> fmt::Result {
        f.write_str(match self {
            CallWord::Nothing => "nothing",
            CallWord::Map => "map",
            CallWord::MapNoReserve => "mapn",
            CallWord::Unmap => "unmap",
            CallWord::Load => "load",
            CallWord::Store => "store",
            CallWord::Alloc => "alloc",
            CallWord::AllocKeep => "allock",
            CallWord::Punch => "punch",
            CallWord::Truncate => "trunc",
            CallWord::Exit => "exit",
        })
    }
}
