//! `hugepool explore --summary`: what the runs of a script have in common.
ghost use Rattle.std.specs.Prelude.{IfOk, IfErr, IfSome, Some};
ghost use Rattle.std.specs.Option.{option_map};
ghost use Rattle.hp_text.specs.ScriptLines.{HasLinesFault};
ghost use Rattle.hp_text.specs.Streams.{TellsReads};
ghost use Rattle.hp_program.specs.Answers.{NotDone};
ghost use Rattle.hp_script_commands.specs.Runs.{AnsweredSummary};
ghost use Rattle.hp_script_commands.specs.Summing.{SumsUp, SumsUpPartly};

use crate::progress::{ProgressLine, Report};
use crate::scheduling::tell_ignored;
use hp_program::{flush_plain, flushed_answer};
use hp_summary::{Survey, summarize, write_summary};
use hp_text::{ReplayFault, Sink, Source, Watched, read_any_script};
use std::alloc::Global;
use std::io::Write;
use std::thread::Threads;
use std::time::Clock;

/// Reads a script, and writes the summary of its runs. Tells whether all came to their ends.
fn summarize_script<R: Source, W: Sink>(
    rt: &(impl Clock + Threads + Sync),
    alloc: Global,
    survey: Survey,
    reader: &mut R,
    writer: &mut W,
    errors: &mut impl Report,
) -> Result<bool, ReplayFault>
    ensures ok { IfOk result (λ finished. SumsUp survey finished (R.remaining reader.old) (R.remaining reader.new)
        (W.contents writer.old) (W.contents writer.new)) }
    ensures err { IfErr result (λ fault. NotDone (SumsUpPartly survey (R.remaining reader.old) (R.remaining reader.new)
        (W.contents writer.old) (W.contents writer.new)) fault
        (W.failures writer.old) (W.failures writer.new) (W.contents writer.old) (W.contents writer.new)) }
    ensures bad { IfErr result (λ fault. IfSome (R.remaining reader.old) (λ bytes. HasLinesFault bytes fault)) }
    ensures reads { TellsReads result (R.failures reader.old) (R.failures reader.new) }
{
    let script = read_any_script(alloc, reader)?;
    tell_ignored(&script, errors);
    let mut progress = ProgressLine::new(rt, errors);
    let summed = summarize(rt, alloc, &script, survey, &mut progress);
    progress.end();
    let summary = summed?;
    write_summary(alloc, survey.seed, &summary, writer)?;
    Ok(summary.finished == summary.runs)
}

/// Summarizes the runs of a script, and flushes the summary. Answers whether all came to their ends.
pub fn run_summarize<R: Source, W: Write + Drop>(
    rt: &(impl Clock + Threads + Sync),
    alloc: Global,
    survey: Survey,
    reader: &mut R,
    out: W,
    errors: &mut impl Report,
) -> (Result<bool, ReplayFault>, Option<W>)
    ensures { AnsweredSummary survey result.0 (R.remaining reader.old) (R.remaining reader.new) (R.failures reader.old)
        (R.failures reader.new) (W.contents out) (option_map W.contents result.1) }
{
    let mut sink = Watched::new(out);
    let summed = summarize_script(rt, alloc, survey, reader, &mut sink, errors);
    let (flushed, out) = flush_plain(sink);
    (flushed_answer(summed, flushed), Some(out))
}
