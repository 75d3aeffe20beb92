//! How far a search is, where somebody watches.
use hp_hunt::Shrinking;
use hp_layers as layers;
use hp_workers::Progress;
use std::io;
use std::io::{IsTerminal, Stderr, Write};
use std::time::{Clock, Duration, Instant};

/// Where errors are written, and how far a search is.
pub trait Report: Write {
    /// Whether somebody watches what is written.
    fn is_watched(&self) -> bool;
}

impl Report for Stderr {
    fn is_watched(&self) -> bool {
        self.is_terminal()
    }
}

/// A search that takes less time isn't reported.
const SOON: u64 = 500;

/// So often it is said how many events are left, at most.
const OFTEN: u64 = 100;

/// A line that says how far a search is, where somebody watches and there is a clock. It is written anew as the search goes on, and
/// erased at its end.
#[derive(Drop)]
pub(crate) struct ProgressLine<'a, C: Clock, F: Report> {
    clock: &'a C,
    errors: &'a mut F,
    began: Option<Instant>,
    is_shown: bool,
    // when it is said next how many events are left, in milliseconds
    next: u64,
    // of all schedules: how many states there were so far
    states: u64,
}

// Writes how many runs were explored in so many milliseconds, and how long the others will take.
fn write_progress(
    errors: &mut impl Write,
    runs: u32,
    all: u32,
    milliseconds: u64,
) -> io::Result<()> {
    let explored = u64::from(runs.max(1));
    let left = u64::from(all.saturating_sub(runs));
    let rate = explored.saturating_mul(1000) / milliseconds.max(1);
    let seconds = left.saturating_mul(milliseconds / 1000 + 1) / explored;
    write!(
        errors,
        "\r\x1b[Khugepool: {runs} of {all} runs, {rate} a second, "
    )?;
    if seconds < 120 {
        write!(errors, "{seconds} s left")
    } else {
        write!(errors, "{} min left", seconds / 60)
    }
}

impl<'a, C: Clock, F: Report> ProgressLine<'a, C, F> {
    /// For a search that begins now.
    pub(crate) fn new(clock: &'a C, errors: &'a mut F) -> ProgressLine<'a, C, F> {
        let began = if errors.is_watched() {
            Instant::now(clock).ok()
        } else {
            None
        };
        ProgressLine {
            clock,
            errors,
            began,
            is_shown: false,
            next: SOON,
            states: 0,
        }
    }

    /// For how many milliseconds the search goes on, where somebody watches.
    fn milliseconds(&self) -> Option<u64> {
        let elapsed = self.began?.elapsed(self.clock).unwrap_or(Duration::ZERO);
        let seconds = elapsed.as_secs().saturating_mul(1000);
        Some(seconds.saturating_add(u64::from(elapsed.subsec_millis())))
    }

    /// Erases the line.
    pub(crate) fn end(self) {
        if self.is_shown {
            let _ = self.errors.write_all(b"\r\x1b[K");
        }
    }
}

// Writes how far a search among all schedules is.
fn write_layer(
    errors: &mut impl Write,
    turns: u32,
    states: u64,
    rate: u64,
    mebibytes: u64,
) -> io::Result<()> {
    write!(
        errors,
        "\r\x1b[Khugepool: {turns} turns, {states} states, {rate} a second, {mebibytes} MiB"
    )
}

impl<'a, C: Clock, F: Report> layers::Progress for ProgressLine<'a, C, F> {
    fn layer(&mut self, turns: u32, states: usize, bytes: u64) {
        self.states = self.states.saturating_add(states as u64);
        let Some(milliseconds) = self.milliseconds() else {
            return;
        };
        if milliseconds >= SOON {
            let rate = self.states.saturating_mul(1000) / milliseconds.max(1);
            self.is_shown = write_layer(self.errors, turns, self.states, rate, bytes >> 20).is_ok();
        }
    }
}

impl<'a, C: Clock, F: Report> Progress for ProgressLine<'a, C, F> {
    fn explored(&mut self, runs: u32, all: u32) {
        let Some(milliseconds) = self.milliseconds() else {
            return;
        };
        if milliseconds >= SOON && runs < all {
            self.is_shown = write_progress(self.errors, runs, all, milliseconds).is_ok();
        }
    }
}

// Writes how many events are left after so many seconds.
fn write_left(errors: &mut impl Write, events: usize, seconds: u64) -> io::Result<()> {
    write!(
        errors,
        "\r\x1b[Khugepool: {events} events left, {seconds} s"
    )
}

impl<'a, C: Clock, F: Report> Shrinking for ProgressLine<'a, C, F> {
    fn left(&mut self, events: usize) {
        let Some(milliseconds) = self.milliseconds() else {
            return;
        };
        if milliseconds >= self.next {
            self.is_shown = write_left(self.errors, events, milliseconds / 1000).is_ok();
            self.next = milliseconds.saturating_add(OFTEN);
        }
    }
}
