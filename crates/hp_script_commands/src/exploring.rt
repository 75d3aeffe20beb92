//! `hugepool explore`: a line for each run of a script.
ghost use Rattle.std.specs.Prelude.{IfOk, IfErr, Some, IfSome};
ghost use Rattle.std.specs.Option.{option_map};
ghost use Rattle.hp_text.specs.ScriptLines.{HasLinesFault};
ghost use Rattle.hp_text.specs.Streams.{TellsReads};
ghost use Rattle.hp_program.specs.Answers.{NotDone};
ghost use Rattle.hp_script_commands.specs.Runs.{AnsweredExplore, Explores, ExploresPartly};

use crate::scheduling::tell_ignored;
use hp_explore::{Exploration, write_explored};
use hp_program::{flush_plain, flushed_answer};
use hp_text::{ReplayFault, Sink, Source, Watched, read_any_script};
use std::alloc::Global;
use std::io::Write;
use std::thread::Threads;

/// Reads a script, and writes a line for each run.
fn explore_script<R: Source, W: Sink>(
    rt: &(impl Threads + Sync),
    alloc: Global,
    exploration: Exploration,
    reader: &mut R,
    writer: &mut W,
    errors: &mut impl Write,
) -> Result<bool, ReplayFault>
    ensures ok { IfOk result (λ finished. Explores exploration finished (R.remaining reader.old) (R.remaining reader.new)
        (W.contents writer.old) (W.contents writer.new)) }
    ensures err { IfErr result (λ fault. NotDone (ExploresPartly exploration (R.remaining reader.old) (R.remaining reader.new)
        (W.contents writer.old) (W.contents writer.new)) fault
        (W.failures writer.old) (W.failures writer.new) (W.contents writer.old) (W.contents writer.new)) }
    ensures bad { IfErr result (λ fault. IfSome (R.remaining reader.old) (λ bytes. HasLinesFault bytes fault)) }
    ensures reads { TellsReads result (R.failures reader.old) (R.failures reader.new) }
{
    let script = read_any_script(alloc, reader)?;
    tell_ignored(&script, errors);
    write_explored(rt, alloc, &script, exploration, writer)
}

/// Explores a script, and flushes the lines. Answers whether all runs came to their ends.
pub fn run_explore<R: Source, W: Write + Drop>(
    rt: &(impl Threads + Sync),
    alloc: Global,
    exploration: Exploration,
    reader: &mut R,
    out: W,
    errors: &mut impl Write,
) -> (Result<bool, ReplayFault>, Option<W>)
    ensures { AnsweredExplore exploration result.0 (R.remaining reader.old) (R.remaining reader.new) (R.failures reader.old)
        (R.failures reader.new) (W.contents out) (option_map W.contents result.1) }
{
    let mut sink = Watched::new(out);
    let explored = explore_script(rt, alloc, exploration, reader, &mut sink, errors);
    let (flushed, out) = flush_plain(sink);
    (flushed_answer(explored, flushed), Some(out))
}
