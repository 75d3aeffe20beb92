//! Whether bytes spell a trace.
ghost use Rattle.std.specs.Prelude.{◌≡◌, None, Some, IfOk, IfErr, IfSome, OnOk, length};
ghost use Rattle.hp_text.specs.Lines.{feed_after};
ghost use Rattle.std.specs.Io.KnownBytes.{Appends};
ghost use Rattle.hp_text.specs.Checking.{ReadsEvents, count_line};
ghost use Rattle.hp_text.specs.Writing.{Wrote, IsWriteFault};
ghost use Rattle.hp_text.specs.Streams.{IsReadFault, TellsReads, TellsWrites};
ghost use Rattle.hp_text.specs.Traces.{HasFault, IsLineFault, SpellsSome};

use crate::fault::ReplayFault;
use crate::feed::TraceFeed;
use crate::streams::{PIECE, Sink, Source};
use crate::writing::write_text;
use hp_base::{Event, Op};
use std::alloc::Global;

/// Takes all of a piece.
fn take_piece(feed: &mut TraceFeed, piece: &[u8]) -> Result<(), ReplayFault>
    requires { feed.old.fault ≡ None }
    ensures held { OnOk result (feed.new ≡ feed_after feed.old piece.now) }
    ensures no_fault { OnOk result (feed.new.fault ≡ None) }
    ensures err { IfErr result (λ fault. (feed_after feed.old piece.now).fault ≡ Some fault) }
    ensures kind { IfErr result IsLineFault }
{
    // The checker of borrows asks for a mention of the types that a line may hold.
    let _no_op: Option<Op> = None;
    let _no_event: Option<Event> = None;
    let mut rest = piece;
    while !rest.is_empty() {
        let (used, _line) = feed.take(rest)?;
        (_, rest) = rest.split_at(used);
    }
    Ok(())
}

/// Writes how many events a trace has, as `events 8`.
pub fn write_count<W: Sink>(alloc: Global, events: u32, writer: &mut W) -> Result<(), ReplayFault>
    ensures ok { OnOk result (Appends (W.contents writer.old) (W.contents writer.new) (count_line events)) }
    ensures err { IfErr result (λ fault. IsWriteFault fault
        × Wrote (W.contents writer.old) (W.contents writer.new) (count_line events)) }
    ensures writes { TellsWrites result (W.failures writer.old) (W.failures writer.new) }
{
    let mut text = String::new(alloc);
    writeln!(text, "events {events}")?;
    write_text(writer, text.as_bytes())
}

/// How many events the trace has that the bytes spell. Nothing is kept of it, so no memory is taken, whatever its length.
/// Nothing is tried again after an error.
pub fn check_trace<R: Source>(reader: &mut R) -> Result<u32, ReplayFault>
    ensures ok { IfOk result (λ n. ReadsEvents n (R.remaining reader.old) (R.remaining reader.new)) }
    ensures bad { IfErr result (λ fault. IfSome (R.remaining reader.old) (λ bytes. HasFault bytes fault)) }
    ensures only { IfErr result (λ fault. IsLineFault fault
        → IfSome (R.remaining reader.old) (λ bytes. ¬ (SpellsSome bytes))) }
    ensures kind { IfErr result IsReadFault }
    ensures reads { TellsReads result (R.failures reader.old) (R.failures reader.new) }
{
    let mut feed = TraceFeed::new();
    let mut piece = [0; PIECE];
    loop {
        let n = reader.read_piece(&mut piece)?;
        if n == 0 {
            feed.end()?;
            return Ok(feed.line() - 1);
        }
        take_piece(&mut feed, &piece[..n])?;
    }
}
