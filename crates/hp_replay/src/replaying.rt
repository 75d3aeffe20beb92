//! Replays a trace: runs each line as it comes, and writes what comes of it.
ghost use Rattle.std.specs.Prelude.{◌≡◌, ◌<◌, ◌↔◌, ◌⊎◌, [], ◌∷◌, None, Some, OnOk, OnErr, IfOk, IfErr, IfSome, IsSome, IsTrue, Ok, Err};
ghost use Rattle.std.specs.Prelude.{length, true};
ghost use Rattle.std.specs.Option.{option_map};
ghost use Rattle.std.specs.Io.BufRead.{take_through};
ghost use Rattle.std.specs.Io.KnownBytes.{Appends, Keeps};
ghost use Rattle.hp_base.specs.declared.event.Event.TheVariants.{Step};
ghost use Rattle.hp_core.specs.Runs.{IsIdle};
ghost use Rattle.hp_text.specs.Lines.{line_of, event, listed, end_of};
ghost use Rattle.hp_replay.specs.Outcomes.{state_text};
ghost use Rattle.hp_text.specs.Traces.{IsLineFault};
ghost use Rattle.hp_text.specs.Writing.{Wrote, IsWriteFault};
ghost use Rattle.hp_replay.specs.Running.{CanRun, CanRunIfSome, IsOpened, LinesRan, PieceRan, PieceStopped};
ghost use Rattle.hp_replay.specs.Replaying.{Replayed, Stopped};
ghost use Rattle.hp_text.specs.Streams.{TellsReads, TellsWrites};

use crate::line_buffer::LineBuffer;
use crate::next::next_outcome;
use crate::outcomes::push_outcome;
use crate::state::push_state;
use hp_base::{Answer, Event, Op, Task};
use hp_core::Core;
use hp_machine::Outcome;
use hp_text::{PIECE, ReplayFault, Sink, Source, TraceFeed, TraceLine, write_text};
use std::alloc::{AllocError, Global};

/// Whether the outcome is one of an event that is held back.
fn is_held_back(outcome: &Outcome) -> bool
    ensures { IsTrue result ↔ IsIdle outcome.now }
{
    matches!(outcome, Outcome::Blocked(_) | Outcome::Refused(_))
}

/// Runs one event, and appends what came of it, or nothing where memory is wanted. `held_back` tells whether the event before
/// was held back.
#[inline(always)]
fn run_event(
    core: &mut Option<Core>,
    event: Event,
    held_back: &mut bool,
    lines: &mut LineBuffer,
) -> Result<(), AllocError>
    requires { CanRun core.old (line_of (TraceLine.Event event)) }
    ensures ok { OnOk result
        (LinesRan core.old (line_of (TraceLine.Event event) ∷ []) core.new (Some lines.old) (Some lines.new)) }
    ensures err { OnErr result (lines.new ≡ lines.old) }
{
    // The checker of borrows asks for a mention of the type that an outcome may hold.
    let _none: Option<Answer> = None;
    match core {
        Some(core) => {
            let outcome = next_outcome(core, event, *held_back)?;
            *held_back = is_held_back(&outcome);
            push_outcome(lines, outcome)
        }
        None => unreachable!(),
    }
}

/// Runs a granted step of the task of that number, and appends what came of it.
#[inline(always)]
fn run_step(
    core: &mut Option<Core>,
    number: u32,
    held_back: &mut bool,
    lines: &mut LineBuffer,
) -> Result<(), AllocError>
    requires { CanRun core.old (event (Step number true)) }
    ensures ok { OnOk result
        (LinesRan core.old (event (Step number true) ∷ []) core.new (Some lines.old) (Some lines.new)) }
    ensures err { OnErr result (lines.new ≡ lines.old) }
{
    let event = Event::Step(Task::new(number), true);
    run_event(core, event, held_back, lines)
}

/// Runs one line, and appends what came of it.
fn run_line(
    alloc: Global,
    core: &mut Option<Core>,
    line: TraceLine,
    held_back: &mut bool,
    lines: &mut LineBuffer,
) -> Result<(), AllocError>
    requires { CanRun core.old (line_of line) }
    ensures ok { OnOk result (LinesRan core.old (line_of line ∷ []) core.new (Some lines.old) (Some lines.new)) }
    ensures err { OnErr result (lines.new ≡ lines.old) }
{
    match line {
        TraceLine::Header(config) => {
            let opened = Core::new(alloc, config)?;
            *core = Some(opened);
            Ok(())
        }
        TraceLine::Event(event) => run_event(core, event, held_back, lines),
    }
}

/// Runs the line that came, if one did.
fn run_taken(
    alloc: Global,
    core: &mut Option<Core>,
    line: Option<TraceLine>,
    held_back: &mut bool,
    lines: &mut LineBuffer,
) -> Result<(), AllocError>
    requires { CanRunIfSome core.old (option_map line_of line) }
    ensures ok { OnOk result (LinesRan core.old (listed (option_map line_of line) []) core.new (Some lines.old) (Some lines.new)) }
    ensures err { OnErr result (lines.new ≡ lines.old) }
{
    match line {
        Some(line) => run_line(alloc, core, line, held_back, lines),
        None => Ok(()),
    }
}

/// Runs the line with which the piece begins, whatever it is; all of the piece is taken where no line ends in it. Tells how many
/// bytes that was.
#[inline(never)]
fn run_any(
    alloc: Global,
    feed: &mut TraceFeed,
    core: &mut Option<Core>,
    piece: &[u8],
    held_back: &mut bool,
    lines: &mut LineBuffer,
) -> Result<usize, ReplayFault>
    requires no_fault { feed.old.fault ≡ None }
    requires opened { IsOpened feed.old core.old }
    ensures used { IfOk result (λ used. used ≡ length (take_through 10 piece.now)) }
    ensures ok { OnOk result
        (PieceRan feed.old (take_through 10 piece.now) feed.new core.old core.new (Some lines.old) (Some lines.new)) }
    ensures no_fault { OnOk result (feed.new.fault ≡ None) }
    ensures opened { OnOk result (IsOpened feed.new core.new) }
    ensures err { IfErr result
        (λ fault. PieceStopped fault feed.old piece.now feed.new core.old core.new (Some lines.old) (Some lines.new)) }
{
    // The checker of borrows asks for a mention of the types that a line may hold.
    let _none: (Option<Event>, Option<Op>) = (None, None);
    let (used, line) = feed.take(piece)?;
    run_taken(alloc, core, line, held_back, lines)?;
    Ok(used)
}

/// The same, with a way of its own for what most lines are: the step of a task.
#[inline(always)]
fn run_first(
    alloc: Global,
    feed: &mut TraceFeed,
    core: &mut Option<Core>,
    piece: &[u8],
    held_back: &mut bool,
    lines: &mut LineBuffer,
) -> Result<usize, ReplayFault>
    requires no_fault { feed.old.fault ≡ None }
    requires opened { IsOpened feed.old core.old }
    ensures used { IfOk result (λ used. used ≡ length (take_through 10 piece.now)) }
    ensures ok { OnOk result
        (PieceRan feed.old (take_through 10 piece.now) feed.new core.old core.new (Some lines.old) (Some lines.new)) }
    ensures no_fault { OnOk result (feed.new.fault ≡ None) }
    ensures opened { OnOk result (IsOpened feed.new core.new) }
    ensures err { IfErr result
        (λ fault. PieceStopped fault feed.old piece.now feed.new core.old core.new (Some lines.old) (Some lines.new)) }
{
    if let Some((used, number)) = feed.take_step(piece) {
        run_step(core, number, held_back, lines)?;
        return Ok(used);
    }
    run_any(alloc, feed, core, piece, held_back, lines)
}

/// Runs the lines that a piece ends, and appends what came of them: of a bad line, and where memory is wanted, what came of
/// those before.
fn run_piece(
    alloc: Global,
    feed: &mut TraceFeed,
    core: &mut Option<Core>,
    piece: &[u8],
    held_back: &mut bool,
    lines: &mut LineBuffer,
) -> Result<(), ReplayFault>
    requires no_fault { feed.old.fault ≡ None }
    requires opened { IsOpened feed.old core.old }
    ensures ok { OnOk result (PieceRan feed.old piece.now feed.new core.old core.new (Some lines.old) (Some lines.new)) }
    ensures no_fault { OnOk result (feed.new.fault ≡ None) }
    ensures opened { OnOk result (IsOpened feed.new core.new) }
    ensures err { IfErr result
        (λ fault. PieceStopped fault feed.old piece.now feed.new core.old core.new (Some lines.old) (Some lines.new)) }
{
    let mut rest = piece;
    while !rest.is_empty() {
        let used = run_first(alloc, feed, core, rest, held_back, lines)?;
        (_, rest) = rest.split_at(used);
    }
    Ok(())
}

/// Writes the state at the end of a trace.
fn write_state<W: Sink>(alloc: Global, core: &Core, writer: &mut W) -> Result<(), ReplayFault>
    ensures ok { OnOk result (Appends (W.contents writer.old) (W.contents writer.new) (state_text core.now)) }
    ensures err { IfErr result (λ fault. IsWriteFault fault
        × Wrote (W.contents writer.old) (W.contents writer.new) (state_text core.now)) }
    ensures writes { TellsWrites result (W.failures writer.old) (W.failures writer.new) }
{
    let mut text = String::new(alloc);
    push_state(core, &mut text)?;
    write_text(writer, text.as_bytes())
}

/// Tells what the end of the trace says, and then writes the state.
fn finish<W: Sink>(
    alloc: Global,
    feed: &TraceFeed,
    core: &Option<Core>,
    writer: &mut W,
) -> Result<(), ReplayFault>
    requires { IsOpened feed.now core.now }
    ensures ended { OnOk result (end_of feed.now ≡ Ok tt) }
    ensures core { OnOk result (IsSome core.now) }
    ensures wrote { OnOk result (IfSome core.now (λ core. Appends (W.contents writer.old) (W.contents writer.new) (state_text core))) }
    ensures err { IfErr result (λ fault.
        ((end_of feed.now ≡ Err fault) × IsLineFault fault × Keeps (W.contents writer.old) (W.contents writer.new))
        ⊎ (IsWriteFault fault × (end_of feed.now ≡ Ok tt)
        × IfSome core.now (λ core. Wrote (W.contents writer.old) (W.contents writer.new) (state_text core)))) }
    ensures writes { TellsWrites result (W.failures writer.old) (W.failures writer.new) }
{
    feed.end()?;
    match core {
        Some(core) => write_state(alloc, core, writer),
        None => unreachable!(),
    }
}

/// Runs a trace as it is read, and writes a line for each outcome and then the lines of the state.
/// The lines of a piece that was read are written, together, before more is read, also where one of them is bad. Nothing is
/// tried again after an error.
pub fn replay<R: Source, W: Sink>(
    alloc: Global,
    reader: &mut R,
    writer: &mut W,
) -> Result<(), ReplayFault>
    ensures ok { OnOk result (Replayed (R.remaining reader.old) (R.remaining reader.new)
        (W.contents writer.old) (W.contents writer.new)) }
    ensures err { IfErr result (λ fault. Stopped fault (R.remaining reader.old) (R.remaining reader.new)
        (W.contents writer.old) (W.contents writer.new)) }
    ensures reads { TellsReads result (R.failures reader.old) (R.failures reader.new) }
    ensures writes { TellsWrites result (W.failures writer.old) (W.failures writer.new) }
{
    let mut feed = TraceFeed::new();
    let mut core = None;
    let mut held_back = false;
    let mut lines = LineBuffer::new(alloc);
    let mut piece = [0; PIECE];
    loop {
        let n = reader.read_piece(&mut piece)?;
        if n == 0 {
            return finish(alloc, &feed, &core, writer);
        }
        lines.clear();
        let ran = run_piece(
            alloc,
            &mut feed,
            &mut core,
            &piece[..n],
            &mut held_back,
            &mut lines,
        );
        lines.write(writer)?;
        ran?;
    }
}
