//! What is typed into `hugepool step`.
use hp_base::Config;
use hp_format::{Asked, asked_of, tidy};
use hp_text::{after_word, header_at, last_at};
use std::alloc::AllocError;

/// What a typed line asks for.
#[derive(Clone, Copy, Debug)]
pub(crate) enum Typed {
    /// A new pool.
    Header(Config),
    /// Events, as in a trace that is written by hand.
    Asked(Asked),
    /// What the next step of each call would come to.
    Question,
    /// To undo so many events.
    Undo(u32),
    /// To make so many undone events anew.
    Redo(u32),
    /// The pool's state.
    State,
    /// The trace so far.
    Trace,
    /// To go on from the trace in a file.
    Load,
    /// To save the trace so far in a file.
    Save,
    /// To save it in the last file.
    SaveAgain,
    Help,
    Quit,
    Unknown,
}

/// The command that the words are.
fn command_of(words: &[u8]) -> Option<Typed> {
    match words {
        b"?" => Some(Typed::Question),
        b"undo" => Some(Typed::Undo(1)),
        b"redo" => Some(Typed::Redo(1)),
        b"state" => Some(Typed::State),
        b"trace" => Some(Typed::Trace),
        b"help" => Some(Typed::Help),
        b"quit" => Some(Typed::Quit),
        b"save" => Some(Typed::SaveAgain),
        _ if words.starts_with(b"save ") => Some(Typed::Save),
        _ if words.starts_with(b"load ") => Some(Typed::Load),
        _ => counted(words),
    }
}

/// The command that a word and a number are.
fn counted(words: &[u8]) -> Option<Typed> {
    if let Some(rest) = after_word(b"undo ", words) {
        return Some(Typed::Undo(last_at(rest)?));
    }
    Some(Typed::Redo(last_at(after_word(b"redo ", words)?)?))
}

/// What a typed line asks for. `words` is where its words are laid out, with one space between two.
pub(crate) fn typed_of(line: &[u8], words: &mut Vec<u8>) -> Result<Typed, AllocError> {
    if let Some(asked) = asked_of(line, words)? {
        return Ok(Typed::Asked(asked));
    }
    tidy(line, words)?;
    if let Some(command) = command_of(words.as_slice()) {
        return Ok(command);
    }
    match header_at(words.as_slice()) {
        Some(config) => Ok(Typed::Header(config)),
        None => Ok(Typed::Unknown),
    }
}

/// The file's name behind the word save or load.
pub(crate) fn file_name(words: &[u8]) -> Option<&str> {
    let name = match words.strip_prefix(b"save ") {
        Some(name) => name,
        None => words.strip_prefix(b"load ")?,
    };
    str::from_utf8(name).ok()
}
