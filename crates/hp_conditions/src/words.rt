//! The words of conditions.
ghost use Rattle.std.specs.Prelude.{◌≡◌, ℕ, List};
ghost use Rattle.hp_machine.specs.Text.{phase_word};
ghost use Rattle.hp_phases.specs.Phases.{all_phases};
ghost use Rattle.hp_watch.specs.CallWords.{word_text};
ghost use Rattle.hp_conditions.specs.Words.{all_answers, all_calls, all_kinds, all_linux, answer_word, kind_word, linux_word, named};

use crate::kind::Kind;
use hp_core::Phase;
use hp_hunt::{AnswerWord, LinuxAnswer};
use hp_watch::CallWord;

/// What has a word.
trait Spelt: Copy {
    ghost word_of: { Self → List ℕ };

    /// Its word.
    fn word(self) -> &'static [u8]
        ensures { result.now ≡ word_of self };
}

impl Spelt for AnswerWord {
    ghost word_of = { λ answer. answer_word answer };

    fn word(self) -> &'static [u8] {
        match self {
            AnswerWord::Mapped => b"mapped",
            AnswerWord::Word => b"word",
            AnswerWord::Done => b"done",
            AnswerWord::Segv => b"segv",
            AnswerWord::Beyond => b"beyond",
            AnswerWord::NoFrame => b"noframe",
            AnswerWord::NoQuota => b"noquota",
            AnswerWord::NoMemory => b"nomemory",
            AnswerWord::Interrupted => b"interrupted",
            AnswerWord::Killed => b"killed",
            AnswerWord::BadFile => b"badfile",
            AnswerWord::BadRange => b"badrange",
            AnswerWord::NotMapped => b"notmapped",
            AnswerWord::NoAddress => b"noaddress",
        }
    }
}

impl Spelt for LinuxAnswer {
    ghost word_of = { λ linux. linux_word linux };

    fn word(self) -> &'static [u8] {
        match self {
            LinuxAnswer::Sigsegv => b"SIGSEGV",
            LinuxAnswer::Sigbus => b"SIGBUS",
            LinuxAnswer::Enospc => b"ENOSPC",
            LinuxAnswer::Enomem => b"ENOMEM",
            LinuxAnswer::Eintr => b"EINTR",
        }
    }
}

impl Spelt for CallWord {
    ghost word_of = { λ call. word_text call };

    fn word(self) -> &'static [u8] {
        match self {
            CallWord::Nothing => b"nothing",
            CallWord::Map => b"map",
            CallWord::MapNoReserve => b"mapn",
            CallWord::Unmap => b"unmap",
            CallWord::Load => b"load",
            CallWord::Store => b"store",
            CallWord::Alloc => b"alloc",
            CallWord::AllocKeep => b"allock",
            CallWord::Punch => b"punch",
            CallWord::Truncate => b"trunc",
            CallWord::Exit => b"exit",
        }
    }
}

impl Spelt for Kind {
    ghost word_of = { λ kind. kind_word kind };

    fn word(self) -> &'static [u8] {
        match self {
            Kind::Answer => b"answer",
            Kind::At => b"at",
            Kind::Blocked => b"blocked",
            Kind::Meet => b"meet",
            Kind::Final => b"final",
        }
    }
}

/// The first of these that has the text for its word.
fn named<W: Spelt>(all: &[W], text: &[u8]) -> Option<W>
    ensures { result ≡ named W.word_of all.now text.now }
{
    for one in all {
        if text == one.word() {
            return Some(*one);
        }
    }
    None
}

/// The answer of that name.
pub(crate) fn answer_named(word: &[u8]) -> Option<AnswerWord>
    ensures { result ≡ named answer_word all_answers word.now }
{
    named(
        &[
            AnswerWord::Mapped,
            AnswerWord::Word,
            AnswerWord::Done,
            AnswerWord::Segv,
            AnswerWord::Beyond,
            AnswerWord::NoFrame,
            AnswerWord::NoQuota,
            AnswerWord::NoMemory,
            AnswerWord::Interrupted,
            AnswerWord::Killed,
            AnswerWord::BadFile,
            AnswerWord::BadRange,
            AnswerWord::NotMapped,
            AnswerWord::NoAddress,
        ],
        word,
    )
}

/// What Linux says so.
pub(crate) fn linux_named(word: &[u8]) -> Option<LinuxAnswer>
    ensures { result ≡ named linux_word all_linux word.now }
{
    named(
        &[
            LinuxAnswer::Sigsegv,
            LinuxAnswer::Sigbus,
            LinuxAnswer::Enospc,
            LinuxAnswer::Enomem,
            LinuxAnswer::Eintr,
        ],
        word,
    )
}

/// The call of that name.
pub(crate) fn call_named(word: &[u8]) -> Option<CallWord>
    ensures { result ≡ named word_text all_calls word.now }
{
    named(
        &[
            CallWord::Map,
            CallWord::MapNoReserve,
            CallWord::Unmap,
            CallWord::Load,
            CallWord::Store,
            CallWord::Alloc,
            CallWord::AllocKeep,
            CallWord::Punch,
            CallWord::Truncate,
            CallWord::Exit,
        ],
        word,
    )
}

/// The option of that name.
pub(crate) fn kind_named(word: &[u8]) -> Option<Kind>
    ensures { result ≡ named kind_word all_kinds word.now }
{
    named(
        &[
            Kind::Answer,
            Kind::At,
            Kind::Blocked,
            Kind::Meet,
            Kind::Final,
        ],
        word,
    )
}

/// The phase of that name.
pub(crate) fn phase_at(word: &[u8]) -> Option<Phase>
    ensures { result ≡ named phase_word all_phases word.now }
{
    hp_phases::phase_named(word)
}
