//! Takes a trace in pieces, cut anywhere.
ghost use Rattle.std.specs.Prelude.{◌≡◌, ◌≤◌, ◌<◌, IfOk, IfErr, IfSome, OnOk, OnErr, MatchOption, take, length, [], ◌∷◌, None, Some, true};
ghost use Rattle.hp_base.specs.declared.event.Event.TheVariants.{Step};
ghost use Rattle.std.specs.Option.{option_map};
ghost use Rattle.std.specs.Io.BufRead.{take_through};
ghost use Rattle.hp_text.specs.Lines.{FeedState, IsFirstEnd, line_of, line_at, opening_feed, fault_at, with_fault, take_byte, feed_after};
ghost use Rattle.hp_text.specs.Lines.{lines_after, listed, end_of, event};
ghost use Rattle.hp_text.specs.Traces.{IsLineFault};

use crate::fault::ReplayFault;
use crate::reading::{event_at, header_at, step_at};
use hp_base::{Config, Event};
use memchr::memchr;
use std::marker::Model;

/// A line of a trace.
#[derive(Clone, Copy, Debug, PartialEq, Eq)]
pub enum TraceLine {
    Header(Config),
    Event(Event),
}

/// The longest line, without its end.
pub const LONGEST_LINE: usize = 56;

/// The most lines of a trace: its header and 1,000,000 events.
pub const MOST_LINES: u32 = 1_000_001;

/// Reads a trace that comes in pieces, cut anywhere, and takes no memory.
#[derive(Drop)]
pub struct TraceFeed {
    lines: u32,
    rest: [u8; LONGEST_LINE],
    len: usize,
    fault: Option<ReplayFault>,
}

impl Model for TraceFeed {
    ghost Value = { FeedState };

    ghost view = { λ f. record { lines = f.lines; rest = take f.len f.rest; fault = f.fault } };

    ghost invariant = { λ f. (f.len ≤ 56) × (f.lines ≤ 1000001) × IfSome f.fault IsLineFault };
}

// Where the first line of the piece ends, if it is no longer than a line may be.
fn line_end(piece: &[u8]) -> Option<usize>
    ensures end { IfSome result (λ end. IsFirstEnd piece.now end) }
    ensures short { IfSome result (λ end. end ≤ 56) }
{
    memchr(b'\n', &piece[..piece.len().min(LONGEST_LINE + 1)])
}

impl TraceFeed {
    pub fn new() -> Self
        ensures { result ≡ opening_feed }
    {
        TraceFeed {
            lines: 0,
            rest: [0; LONGEST_LINE],
            len: 0,
            fault: None,
        }
    }

    /// The lines taken so far.
    pub fn line(&self) -> u32
        ensures { result ≡ self.now.lines }
    {
        self.lines
    }

    /// Keeps the fault of the line that is being taken.
    fn fail(&mut self) -> ReplayFault
        ensures held { self.new ≡ with_fault self.old }
        ensures fault { result ≡ fault_at self.old.lines }
        ensures kind { IsLineFault result }
    {
        let fault = if self.lines == 0 {
            ReplayFault::BadHeader
        } else {
            ReplayFault::BadLine(self.lines + 1)
        };
        self.fault = Some(fault);
        fault
    }

    /// The line that the text spells behind those that were taken.
    fn line_at(&self, text: &[u8]) -> Option<TraceLine>
        ensures { option_map line_of result ≡ line_at self.now.lines text.now }
    {
        if self.lines == 0 {
            Some(TraceLine::Header(header_at(text)?))
        } else {
            Some(TraceLine::Event(event_at(text)?))
        }
    }

    /// The line that the rest spells.
    fn line_held(&self) -> Option<TraceLine>
        ensures { option_map line_of result ≡ line_at self.now.lines self.now.rest }
    {
        self.line_at(&self.rest[..self.len])
    }

    /// Takes the line with which the piece begins, where all of it is there and it is one; else nothing. It is
    /// read where it stands: so most lines come without being copied.
    fn take_whole(&mut self, piece: &[u8]) -> Option<(usize, TraceLine)>
        requires { self.old.fault ≡ None }
        ensures held { IfSome result (λ _. self.new ≡ feed_after self.old (take_through 10 piece.now)) }
        ensures used { IfSome result (λ taken. taken.0 ≡ length (take_through 10 piece.now)) }
        ensures line { IfSome result (λ taken. lines_after self.old (take_through 10 piece.now) ≡ line_of taken.1 ∷ []) }
        ensures none { MatchOption result (self.new ≡ self.old) (λ _. self.new.fault ≡ None) }
    {
        if self.len != 0 || self.lines == MOST_LINES {
            return None;
        }
        let end = line_end(piece)?;
        let line = self.line_at(&piece[..end])?;
        self.lines += 1;
        Some((end + 1, line))
    }

    /// Takes the line `step N` with which the piece begins, where all of it is there and the number is small; else nothing.
    /// Tells how many bytes that was, and the number.
    pub fn take_step(&mut self, piece: &[u8]) -> Option<(usize, u32)>
        requires { self.old.fault ≡ None }
        ensures held { IfSome result (λ _. self.new ≡ feed_after self.old (take_through 10 piece.now)) }
        ensures used { IfSome result (λ taken. taken.0 ≡ length (take_through 10 piece.now)) }
        ensures line { IfSome result
            (λ taken. lines_after self.old (take_through 10 piece.now) ≡ event (Step taken.1 true) ∷ []) }
        ensures opened { IfSome result (λ _. 0 < self.old.lines) }
        ensures none { MatchOption result (self.new ≡ self.old) (λ _. self.new.fault ≡ None) }
    {
        if self.len != 0 || self.lines == 0 || self.lines == MOST_LINES {
            return None;
        }
        let (used, number) = step_at(piece)?;
        self.lines += 1;
        Some((used, number))
    }

    fn fault(&self) -> Option<ReplayFault>
        ensures value { result ≡ self.now.fault }
        ensures kind { IfSome result IsLineFault }
    {
        self.fault
    }

    /// Takes one byte, and tells the line that it ends.
    #[tactic(auto, unfolding(crate::specs::Lines::take_byte))]
    fn push(&mut self, byte: u8) -> Result<Option<TraceLine>, ReplayFault>
        requires { self.old.fault ≡ None }
        ensures held { self.new ≡ (take_byte self.old byte).0 }
        ensures line { IfOk result (λ line. option_map line_of line ≡ (take_byte self.old byte).1) }
        ensures none { OnErr result ((take_byte self.old byte).1 ≡ None) }
        ensures ok { OnOk result (self.new.fault ≡ None) }
        ensures err { IfErr result (λ fault. self.new.fault ≡ Some fault) }
        ensures kind { IfErr result IsLineFault }
    {
        if self.lines == MOST_LINES {
            return Err(self.fail());
        }
        if byte != b'\n' {
            if self.len == LONGEST_LINE {
                return Err(self.fail());
            }
            self.rest[self.len] = byte;
            self.len += 1;
            return Ok(None);
        }
        match self.line_held() {
            Some(line) => {
                self.lines += 1;
                self.len = 0;
                Ok(Some(line))
            }
            None => Err(self.fail()),
        }
    }

    /// Takes the piece up to and with its first line end, or all of it where there is none.
    /// Tells how many bytes that was, and the line that they end. After a fault it tells that again.
    pub fn take(&mut self, piece: &[u8]) -> Result<(usize, Option<TraceLine>), ReplayFault>
        ensures held { self.new ≡ feed_after self.old (take_through 10 piece.now) }
        ensures used { IfOk result (λ taken. taken.0 ≡ length (take_through 10 piece.now)) }
        ensures line { IfOk result (λ taken. listed (option_map line_of taken.1) []
            ≡ lines_after self.old (take_through 10 piece.now)) }
        ensures none { OnErr result (lines_after self.old (take_through 10 piece.now) ≡ []) }
        ensures ok { OnOk result (self.new.fault ≡ None) }
        ensures err { IfErr result (λ fault. self.new.fault ≡ Some fault) }
        ensures kind { IfErr result IsLineFault }
    {
        if let Some(fault) = self.fault() {
            return Err(fault);
        }
        if let Some((used, line)) = self.take_whole(piece) {
            return Ok((used, Some(line)));
        }
        for (i, byte) in piece.iter().enumerate() {
            let line = self.push(*byte)?;
            if *byte == b'\n' {
                return Ok((i + 1, line));
            }
        }
        Ok((piece.len(), None))
    }

    /// What is wrong with the bytes taken so far, if they are all.
    pub fn end(&self) -> Result<(), ReplayFault>
        ensures value { result ≡ end_of self.now }
        ensures kind { IfErr result IsLineFault }
    {
        if let Some(fault) = self.fault {
            return Err(fault);
        }
        if self.lines == 0 {
            return Err(ReplayFault::BadHeader);
        }
        if self.len != 0 {
            return Err(ReplayFault::BadLine(self.lines + 1));
        }
        Ok(())
    }
}
