//! The words by which outcomes name phases.
ghost use Rattle.std.specs.Prelude.{Some};
ghost use Rattle.hp_machine.specs.Text.{phase_word};

use std::fmt;

/// The word of a phase in which a call stands.
#[derive(Clone, Copy, Debug, PartialEq, Eq)]
pub enum Phase {
    Start,
    Look,
    Want,
    Locked,
    Missing,
    Changed,
    Abort,
    Taken,
    Settle,
    Committed,
    Restore,
    Found,
    Leave,
    Room,
    Accounted,
    Enter,
    Head,
    Unslot,
    Extend,
    Unmap,
    Evict,
    Delete,
    Free,
    Size,
    Tail,
    Clear,
    Drop,
}

impl fmt::Display for Phase {
    ghost output = { λ phase. Some (phase_word phase) };

    fn fmt<W: fmt::Write>(&self, f: &mut fmt::Formatter<W>) -> fmt::Result {
        f.write_str(match self {
            Phase::Start => "start",
            Phase::Look => "look",
            Phase::Want => "want",
            Phase::Locked => "locked",
            Phase::Missing => "missing",
            Phase::Changed => "changed",
            Phase::Abort => "abort",
            Phase::Taken => "taken",
            Phase::Settle => "settle",
            Phase::Committed => "committed",
            Phase::Restore => "restore",
            Phase::Found => "found",
            Phase::Leave => "leave",
            Phase::Room => "room",
            Phase::Accounted => "accounted",
            Phase::Enter => "enter",
            Phase::Head => "head",
            Phase::Unslot => "unslot",
            Phase::Extend => "extend",
            Phase::Unmap => "unmap",
            Phase::Evict => "evict",
            Phase::Delete => "delete",
            Phase::Free => "free",
            Phase::Size => "size",
            Phase::Tail => "tail",
            Phase::Clear => "clear",
            Phase::Drop => "drop",
        })
    }
}
