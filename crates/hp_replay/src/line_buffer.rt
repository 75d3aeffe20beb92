//! Lines that are collected, to be written together.
ghost use Rattle.std.specs.Prelude.{◌≡◌, ◌++◌, [], OnOk, OnErr, IfErr};
ghost use Rattle.std.specs.Io.KnownBytes.{Appends};
ghost use Rattle.hp_replay.specs.Outcomes.{outcome_line};
ghost use Rattle.hp_text.specs.Streams.{TellsWrites};
ghost use Rattle.hp_text.specs.Writing.{Wrote};

use arrayvec::ArrayVec;
use hp_machine::Outcome;
use hp_text::{ReplayFault, Sink, write_text};
use std::alloc::{AllocError, Global};
use std::marker::Model;

/// Room for the lines of most pieces of a trace.
const ROOM: usize = 8192;

/// Text that waits to be written, seen as its bytes. To write a piece's lines at once costs less than to write each by itself.
#[derive(Drop)]
pub(crate) struct LineBuffer {
    // what there was no room for behind it
    front: Vec<u8>,
    // the last of the text: most lines are put there, and want no memory
    back: ArrayVec<u8, ROOM>,
    // where a line is laid out that doesn't stand ready
    line: String,
}

impl Model for LineBuffer {
    ghost use Rattle.std.specs.Prelude.{ℕ, List, ◌++◌};

    ghost Value = { List ℕ };

    ghost view = { λ lines. lines.front.items ++ lines.back.items };
}

// Appends a line, or nothing where it finds no memory.
#[inline(always)]
fn append(front: &mut Vec<u8>, back: &mut ArrayVec<u8, ROOM>, line: &[u8]) -> Result<(), AllocError>
    ensures ok { OnOk result (front.new.items ++ back.new.items ≡ (front.old.items ++ back.old.items) ++ line.now) }
    ensures err { OnErr result (front.new.items ++ back.new.items ≡ front.old.items ++ back.old.items) }
{
    if back.try_extend_from_slice(line).is_ok() {
        return Ok(());
    }
    append_behind(front, back, line)
}

// The same where there is no room for it.
#[inline(never)]
fn append_behind(
    front: &mut Vec<u8>,
    back: &mut ArrayVec<u8, ROOM>,
    line: &[u8],
) -> Result<(), AllocError>
    ensures ok { OnOk result (front.new.items ++ back.new.items ≡ (front.old.items ++ back.old.items) ++ line.now) }
    ensures err { OnErr result (front.new.items ++ back.new.items ≡ front.old.items ++ back.old.items) }
{
    front.extend_from_slice(back.as_slice())?;
    back.clear();
    front.extend_from_slice(line)
}

impl LineBuffer {
    /// A buffer with no line.
    pub(crate) fn new(alloc: Global) -> Self
        ensures { result ≡ [] }
    {
        LineBuffer {
            front: Vec::new(alloc),
            back: ArrayVec::new(),
            line: String::new(alloc),
        }
    }

    /// Appends a line, or nothing where it finds no memory.
    #[inline(always)]
    pub(crate) fn push(&mut self, line: &[u8]) -> Result<(), AllocError>
        ensures ok { OnOk result (self.new ≡ self.old ++ line.now) }
        ensures err { OnErr result (self.new ≡ self.old) }
    {
        append(&mut self.front, &mut self.back, line)
    }

    /// Appends the line of an outcome, as it is displayed, or nothing where it finds no memory.
    #[inline(never)]
    pub(crate) fn spell(&mut self, outcome: &Outcome) -> Result<(), AllocError>
        ensures ok { OnOk result (self.new ≡ self.old ++ outcome_line outcome.now) }
        ensures err { OnErr result (self.new ≡ self.old) }
    {
        self.line.clear();
        writeln!(self.line, "{outcome}")?;
        append(&mut self.front, &mut self.back, self.line.as_bytes())
    }

    /// Forgets what was written. Its memory is used again.
    pub(crate) fn clear(&mut self)
        ensures { self.new ≡ [] }
    {
        self.front.clear();
        self.back.clear();
    }

    /// Writes all lines, one after the other.
    pub(crate) fn write<W: Sink>(&self, writer: &mut W) -> Result<(), ReplayFault>
        ensures ok { OnOk result (Appends (W.contents writer.old) (W.contents writer.new) self.now) }
        ensures front { IfErr result (λ fault. (fault ≡ ReplayFault.Write)
            × Wrote (W.contents writer.old) (W.contents writer.new) self.now) }
        ensures writes { TellsWrites result (W.failures writer.old) (W.failures writer.new) }
    {
        write_text(writer, &self.front)?;
        write_text(writer, self.back.as_slice())
    }
}
