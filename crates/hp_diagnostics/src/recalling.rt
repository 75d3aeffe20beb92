//! A source that keeps what it gave last.
ghost use Rattle.std.specs.Prelude.{◌≡◌};
ghost use Rattle.hp_diagnostics.specs.Recalling.{source_of};

use crate::reason::LONGEST_LINE;
use hp_text::{PIECE, ReplayFault, Source, Watched};
use std::marker::Model;

// A line that is too long for a header, and its end.
const FRONT: usize = LONGEST_LINE + 2;

// As much as a reader of traces reads at once, and what may stand before it of a line.
const KEPT: usize = PIECE + LONGEST_LINE + 1;

/// Gives what its source gives, and keeps the last of it: the line at which a reader of traces stopped is in it. The header is kept, too.
#[derive(Drop)]
pub struct Recalling<S> {
    source: S,
    recent: Recent,
}

// The bytes that came first, those that came last, and how many lines ended before these.
#[derive(Drop)]
struct Recent {
    front: [u8; FRONT],
    front_len: usize,
    before: u64,
    kept: [u8; KEPT],
    len: usize,
}

/// A line that is recalled: its bytes, without the line feed, and whether there was one.
#[derive(Clone, Copy)]
pub struct Line<'a> {
    pub bytes: &'a [u8],
    pub is_ended: bool,
}

impl Model for Recent {
    ghost use Rattle.std.specs.Prelude.{ℕ, ◌≤◌};

    ghost Value = { ℕ };

    ghost view = { λ recent. recent.len };

    ghost invariant = { λ recent. (recent.len ≤ 4153) × (recent.front_len ≤ 58) };
}

// Counted in bytes, so that many are compared at once: a branch for each would take as long as most else that is done with a line.
fn lines_in(bytes: &[u8]) -> u64 {
    bytes.chunks(255).fold(0, |lines: u64, chunk| {
        let some = chunk.iter().fold(
            0u8,
            |some, byte| some.wrapping_add(u8::from(*byte == b'\n')),
        );
        lines.saturating_add(u64::from(some))
    })
}

impl Recent {
    fn new() -> Recent {
        Recent {
            front: [0; FRONT],
            front_len: 0,
            before: 0,
            kept: [0; KEPT],
            len: 0,
        }
    }

    // Keeps as much of the piece as there is room for at the front.
    fn begin(&mut self, piece: &[u8]) {
        let count = piece.len().min(FRONT - self.front_len);
        self.front[self.front_len..self.front_len + count].copy_from_slice(&piece[..count]);
        self.front_len += count;
    }

    // Keeps the piece behind what came before it, whose front goes where there is no room for all.
    fn remember(&mut self, piece: &[u8]) {
        self.begin(piece);
        let (gone, piece) = piece.split_at(piece.len().saturating_sub(KEPT));
        let surplus = (self.len + piece.len()).saturating_sub(KEPT);
        let front = lines_in(&self.kept[..surplus]);
        self.kept.copy_within(surplus..self.len, 0);
        self.len -= surplus;
        self.kept[self.len..self.len + piece.len()].copy_from_slice(piece);
        self.len += piece.len();
        self.before = self
            .before
            .saturating_add(front)
            .saturating_add(lines_in(gone));
    }

    // How many lines have ended.
    fn ended(&self) -> u64 {
        self.before.saturating_add(lines_in(&self.kept[..self.len]))
    }

    // The first line, if it is no longer than a header.
    fn first(&self) -> Option<Line<'_>> {
        let front = &self.front[..self.front_len];
        let end = front.iter().position(|byte| *byte == b'\n')?;
        Some(Line {
            bytes: &front[..end],
            is_ended: true,
        })
    }

    // The line of this number, counted from 1; none where it is not in what is kept.
    fn line(&self, number: u64) -> Option<Line<'_>> {
        if number == 1 && self.before > 0 {
            return self.first();
        }
        let mut rest = &self.kept[..self.len];
        for _ in 0..number.checked_sub(self.before)?.checked_sub(1)? {
            let end = rest.iter().position(|byte| *byte == b'\n')?;
            rest = &rest[end + 1..];
        }
        let end = rest.iter().position(|byte| *byte == b'\n');
        Some(Line {
            bytes: &rest[..end.unwrap_or(rest.len())],
            is_ended: end.is_some(),
        })
    }
}

impl<S> Recalling<S> {
    pub fn new(source: S) -> Recalling<S>
        ensures { source_of result ≡ source }
    {
        Recalling {
            source,
            recent: Recent::new(),
        }
    }

    /// The source, with the rest of its bytes.
    pub fn into_inner(self) -> S
        ensures { result ≡ source_of self }
    {
        self.source
    }
}

/// Of the lines that a source gave, those that it still knows.
pub trait Recalls {
    /// The line of this number, counted from 1.
    fn line(&self, number: u64) -> Option<Line<'_>>;

    /// How many lines have ended, where they are counted.
    fn ended(&self) -> Option<u64> {
        None
    }
}

/// The first line, and the lines that are whole in the last 4,153 bytes.
impl<S> Recalls for Recalling<S> {
    fn line(&self, number: u64) -> Option<Line<'_>> {
        self.recent.line(number)
    }

    fn ended(&self) -> Option<u64> {
        Some(self.recent.ended())
    }
}

/// None: they are gone as they are given.
impl Recalls for &[u8] {
    fn line(&self, _number: u64) -> Option<Line<'_>> {
        None
    }
}

/// None.
impl<S> Recalls for Watched<S> {
    fn line(&self, _number: u64) -> Option<Line<'_>> {
        None
    }
}

impl<S: Source> Source for Recalling<S> {
    ghost remaining = { λ recalling. S.remaining (source_of recalling) };

    ghost failures = { λ recalling. S.failures (source_of recalling) };

    fn read_piece(&mut self, piece: &mut [u8]) -> Result<usize, ReplayFault> {
        let count = self.source.read_piece(piece)?;
        self.recent.remember(&piece[..count]);
        Ok(count)
    }
}
