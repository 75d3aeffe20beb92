//! `hugepool replay --picture`: the state at the end of a trace, as text that `hugepool audit` reads.
ghost use Rattle.std.specs.Prelude.{◌≡◌, ◌≤◌, Ok, Err, IfErr, IfOk, IfSome, OnErr, OnOk, Some, length};
ghost use Rattle.std.specs.Option.{option_map};
ghost use Rattle.std.specs.Io.KnownBytes.{Appends};
ghost use Rattle.hp_audit.specs.Findings.{IsRight};
ghost use Rattle.hp_base.specs.Text.{sizes};
ghost use Rattle.hp_core.specs.Pictures.{IsPicture};
ghost use Rattle.hp_picture_commands.specs.States.{AnsweredState, IsEndText, IsStateText, Writes, WroteSomeState, WroteState};
ghost use Rattle.hp_program.specs.Answers.{NotDone};
ghost use Rattle.hp_text.specs.Streams.{TellsReads, TellsWrites};
ghost use Rattle.hp_text.specs.Traces.{HasFault};
ghost use Rattle.hp_text.specs.Writing.{IsWriteFault, Wrote};

use crate::flattening::{counts_of, places_of};
use hp_base::{Answer, Config, Event, Op};
use hp_core::Core;
use hp_format::core_after;
use hp_picture::{Picture, write_picture};
use hp_program::{flush_plain, flushed_answer};
use hp_text::{ReplayFault, Sink, Source, Watched, read_trace};
use std::alloc::{AllocError, Global};
use std::io::Write;

// The picture of a core, whose files are few.
fn picture(alloc: Global, core: &Core) -> Result<hp_audit::Picture, AllocError>
    ensures picture { IfOk result (λ picture. IsPicture core.now picture) }
    ensures right { IfOk result (λ picture. IsRight picture) }
    ensures few { IfOk result (λ picture. length picture.files.items ≤ 16) }
{
    let _config = core.config();
    core.always();
    core.picture(alloc)
}

// Writes the state of a core.
fn write_state<W: Sink>(alloc: Global, core: &Core, writer: &mut W) -> Result<(), ReplayFault>
    ensures ok { OnOk result (Writes (IsStateText core.now) Appends (W.contents writer.old) (W.contents writer.new)) }
    ensures err { IfErr result (λ fault. NotDone (Writes (IsStateText core.now) Wrote (W.contents writer.old) (W.contents writer.new)) fault
        (W.failures writer.old) (W.failures writer.new) (W.contents writer.old) (W.contents writer.new)) }
    ensures fault { IfErr result (λ fault. IsWriteFault fault) }
    ensures writes { OnOk result (W.failures writer.new ≡ W.failures writer.old) }
{
    let picture = picture(alloc, core)?;
    let state = Picture {
        counts: counts_of(&picture),
        places: places_of(alloc, &picture)?,
    };
    write_picture(alloc, &state, writer)
}

// Writes the state of a new pool to which these events happened.
fn write_end<W: Sink>(
    alloc: Global,
    config: Config,
    events: &[Event],
    writer: &mut W,
) -> Result<(), ReplayFault>
    ensures ok { OnOk result (Writes (IsEndText (sizes config) events.now) Appends (W.contents writer.old) (W.contents writer.new)) }
    ensures err { IfErr result (λ fault. NotDone
        (Writes (IsEndText (sizes config) events.now) Wrote (W.contents writer.old) (W.contents writer.new)) fault
        (W.failures writer.old) (W.failures writer.new) (W.contents writer.old) (W.contents writer.new)) }
    ensures fault { IfErr result (λ fault. IsWriteFault fault) }
    ensures writes { OnOk result (W.failures writer.new ≡ W.failures writer.old) }
{
    // The checker of borrows asks for a mention of the types that an event and an outcome may hold.
    let _none: (Option<Answer>, Option<Op>) = (None, None);
    let core = core_after(alloc, config, events)?;
    write_state(alloc, &core, writer)
}

// Reads a trace, and writes the state at its end.
fn write_state_of<R: Source, W: Sink>(
    alloc: Global,
    reader: &mut R,
    writer: &mut W,
) -> Result<(), ReplayFault>
    ensures ok { OnOk result (WroteState (R.remaining reader.old) (R.remaining reader.new) (W.contents writer.old) (W.contents writer.new)) }
    ensures err { IfErr result (λ fault. NotDone
        (WroteSomeState (R.remaining reader.old) (R.remaining reader.new) (W.contents writer.old) (W.contents writer.new)) fault
        (W.failures writer.old) (W.failures writer.new) (W.contents writer.old) (W.contents writer.new)) }
    ensures bad { IfErr result (λ fault. IfSome (R.remaining reader.old) (λ bytes. HasFault bytes fault)) }
    ensures reads { TellsReads result (R.failures reader.old) (R.failures reader.new) }
    ensures writes { OnOk result (W.failures writer.new ≡ W.failures writer.old) }
{
    let trace = read_trace(alloc, reader)?;
    write_end(alloc, trace.config, trace.events.as_slice(), writer)
}

/// Replays a trace, writes the state at its end, and flushes it. Nothing is written before the whole trace is read.
pub fn run_state<R: Source, W: Write + Drop>(
    alloc: Global,
    reader: &mut R,
    out: W,
) -> (Result<(), ReplayFault>, Option<W>)
    ensures { AnsweredState result.0 (R.remaining reader.old) (R.remaining reader.new) (R.failures reader.old)
        (R.failures reader.new) (W.contents out) (option_map W.contents result.1) }
{
    let mut sink = Watched::new(out);
    let written = write_state_of(alloc, reader, &mut sink);
    let (flushed, out) = flush_plain(sink);
    (flushed_answer(written, flushed), Some(out))
}
