//! Traces as values: read from bytes, and written to bytes.
ghost use Rattle.std.specs.Prelude.{◌≡◌, ◌≤◌, ◌<◌, ◌++◌, [], ◌∷◌, None, Some, Ok, Err, length, map, All};
ghost use Rattle.std.specs.Prelude.{IsSome, OnOk, OnErr, IfOk, IfErr, IfSome};
ghost use Rattle.std.specs.Option.{option_map};
ghost use Rattle.std.specs.Io.KnownBytes.{Appends};
ghost use Rattle.hp_base.specs.Text.{sizes};
ghost use Rattle.hp_text.specs.Lines.{header, event, line_of, listed, feed_after, lines_after, end_of};
ghost use Rattle.hp_text.specs.Fits.{EventFits};
ghost use Rattle.hp_text.specs.Traces.{HasFault, IsLineFault, IsTrace, SpellsSome, event_line, trace_text};
ghost use Rattle.hp_text.specs.Writing.{Wrote, IsWriteFault};
ghost use Rattle.hp_text.specs.Streams.{TellsReads, TellsWrites};
ghost use Rattle.hp_text.specs.Collecting.{CanFollow, CanFollowIfSome, PieceNotKept, ReadsTrace, NotRead};

use crate::fault::ReplayFault;
use crate::feed::{TraceFeed, TraceLine};
use crate::streams::{PIECE, Sink, Source};
use crate::writing::write_line;
use hp_base::{Config, Event, Op};
use std::alloc::{AllocError, Global};
use std::marker::{Model, PhantomData};

/// The most events of a trace.
pub const MOST_EVENTS: usize = 1_000_000;

/// How large a pool is, and what happens to it.
#[derive(Debug, Drop)]
pub struct Trace {
    pub config: Config,
    pub events: Vec<Event>,
}

/// Writes the event's line.
fn write_event<W: Sink>(writer: &mut W, event: Event, line: &mut String) -> Result<(), ReplayFault>
    ensures fits { EventFits event }
    ensures ok { OnOk result (Appends (W.contents writer.old) (W.contents writer.new) (event_line event)) }
    ensures err { IfErr result (λ fault. IsWriteFault fault
        × Wrote (W.contents writer.old) (W.contents writer.new) (event_line event)) }
    ensures writes { TellsWrites result (W.failures writer.old) (W.failures writer.new) }
{
    write_line(writer, event, line)
}

/// Writes the one text of the trace. Nothing is tried again after an error.
pub fn write_trace<W: Sink>(alloc: Global, trace: &Trace, writer: &mut W) -> Result<(), ReplayFault>
    requires { length trace.now.events.items ≤ MOST_EVENTS }
    ensures ok { OnOk result (Appends (W.contents writer.old) (W.contents writer.new)
        (trace_text (sizes trace.now.config) trace.now.events.items)) }
    ensures spells { OnOk result (IsTrace (sizes trace.now.config) trace.now.events.items) }
    ensures err { IfErr result (λ fault. IsWriteFault fault × Wrote (W.contents writer.old) (W.contents writer.new)
        (trace_text (sizes trace.now.config) trace.now.events.items)) }
    ensures writes { TellsWrites result (W.failures writer.old) (W.failures writer.new) }
{
    let mut line = String::new(alloc);
    write_line(writer, trace.config, &mut line)?;
    for event in &trace.events {
        write_event(writer, *event, &mut line)?;
    }
    Ok(())
}

/// A trace while it is read: contracts see the lines that it has so far.
#[derive(Drop)]
pub(crate) struct Draft {
    trace: Option<Trace>,
    /// Names for the check what it doesn't find by itself inside a trace.
    _inside: PhantomData<(Event, Op)>,
}

impl Model for Draft {
    ghost use Rattle.std.specs.Prelude.{List};
    ghost use Rattle.hp_text.specs.Lines.{Line};
    ghost use Rattle.hp_text.specs.Collecting.{draft_lines};

    ghost Value = { List Line };

    ghost view = { λ draft. draft_lines draft.trace };
}

impl Draft {
    pub(crate) fn new() -> Self
        ensures { result ≡ [] }
    {
        Draft {
            trace: None,
            _inside: PhantomData,
        }
    }

    /// Adds a line.
    fn add(&mut self, alloc: Global, line: TraceLine) -> Result<(), AllocError>
        requires { CanFollow self.old (line_of line) }
        ensures ok { OnOk result (self.new ≡ self.old ++ line_of line ∷ []) }
        ensures err { OnErr result (0 < length self.old) }
    {
        match line {
            TraceLine::Header(config) => {
                let events = Vec::new(alloc);
                self.trace = Some(Trace { config, events });
                Ok(())
            }
            TraceLine::Event(event) => match &mut self.trace {
                Some(trace) => {
                    trace.events.push(event)?;
                    Ok(())
                }
                None => unreachable!(),
            },
        }
    }

    /// Adds the line that came, if one did.
    pub(crate) fn add_taken(
        &mut self,
        alloc: Global,
        line: Option<TraceLine>,
    ) -> Result<(), AllocError>
        requires { CanFollowIfSome self.old (option_map line_of line) }
        ensures ok { OnOk result (self.new ≡ self.old ++ listed (option_map line_of line) []) }
        ensures err { OnErr result ((0 < length self.old) × IsSome (option_map line_of line)) }
    {
        match line {
            Some(line) => self.add(alloc, line),
            None => Ok(()),
        }
    }

    /// The trace, where there is a header.
    pub(crate) fn whole(self) -> Trace
        requires { 0 < length self }
        ensures { self ≡ header (sizes result.config) ∷ map event result.events.items }
    {
        let Draft { trace, _inside: _ } = self;
        match trace {
            Some(trace) => trace,
            None => unreachable!(),
        }
    }
}

/// Adds the lines that a piece ends.
fn add_piece(
    alloc: Global,
    feed: &mut TraceFeed,
    draft: &mut Draft,
    piece: &[u8],
) -> Result<(), ReplayFault>
    requires no_fault { feed.old.fault ≡ None }
    requires lines { feed.old.lines ≡ length draft.old }
    ensures lines { OnOk result (draft.new ≡ draft.old ++ lines_after feed.old piece.now) }
    ensures held { OnOk result (feed.new ≡ feed_after feed.old piece.now) }
    ensures no_fault { OnOk result (feed.new.fault ≡ None) }
    ensures err { IfErr result (λ fault. PieceNotKept fault feed.old piece.now feed.new) }
{
    let mut rest = piece;
    while !rest.is_empty() {
        let (used, line) = feed.take(rest)?;
        (_, rest) = rest.split_at(used);
        draft.add_taken(alloc, line)?;
    }
    Ok(())
}

/// The trace that the bytes spell. Nothing is tried again after an error.
pub fn read_trace<R: Source>(alloc: Global, reader: &mut R) -> Result<Trace, ReplayFault>
    ensures ok { IfOk result (λ trace. ReadsTrace (R.remaining reader.old) (R.remaining reader.new)
        (sizes trace.config) trace.events.items) }
    ensures stopped { IfErr result (λ fault. NotRead fault (R.remaining reader.old) (R.remaining reader.new)) }
    ensures bad { IfErr result (λ fault. IfSome (R.remaining reader.old) (λ bytes. HasFault bytes fault)) }
    ensures only { IfErr result (λ fault. IsLineFault fault
        → IfSome (R.remaining reader.old) (λ bytes. ¬ (SpellsSome bytes))) }
    ensures reads { TellsReads result (R.failures reader.old) (R.failures reader.new) }
{
    let mut feed = TraceFeed::new();
    let mut draft = Draft::new();
    let mut piece = [0; PIECE];
    loop {
        let n = reader.read_piece(&mut piece)?;
        if n == 0 {
            feed.end()?;
            return Ok(draft.whole());
        }
        add_piece(alloc, &mut feed, &mut draft, &piece[..n])?;
    }
}
