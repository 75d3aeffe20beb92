//! `hugepool race`: a line for each race of a script.
ghost use Rattle.std.specs.Prelude.{◌≡◌, IfOk, IfErr, Some, IfSome};
ghost use Rattle.std.specs.Option.{option_map};
ghost use Rattle.hp_text.specs.Streams.{TellsReads, TellsWrites};
ghost use Rattle.hp_text.specs.Writing.{IsWriteFault};
ghost use Rattle.hp_program.specs.Answers.{NotDone};
ghost use Rattle.hp_script_commands.specs.Racing.{HasRacedFault, Races, RacesPartly, ReadsRaced, WroteRacing, WroteSomeRacing};
ghost use Rattle.hp_script_commands.specs.Runs.{AnsweredRace};

use crate::scheduling::tell_ignored;
use hp_command::Racing;
use hp_program::{flush_plain, flushed_answer};
use hp_race::{write_race_trace, write_races};
use hp_text::{ReplayFault, Script, Sink, Source, Watched, read_any_script, read_script};
use std::alloc::Global;
use std::io::Write;
use std::sync::Wait;
use std::thread::Threads;

/// Races a script, and writes a line for each race, or the trace of one.
fn write_racing<W: Sink>(
    rt: &(impl Threads + Wait + Sync),
    alloc: Global,
    script: &Script,
    racing: Racing,
    writer: &mut W,
) -> Result<bool, ReplayFault>
    ensures ok { IfOk result (λ closed. WroteRacing racing script.now closed (W.contents writer.old) (W.contents writer.new)) }
    ensures err { IfErr result (λ fault. IsWriteFault fault
        × WroteSomeRacing racing script.now (W.contents writer.old) (W.contents writer.new)) }
    ensures writes { TellsWrites result (W.failures writer.old) (W.failures writer.new) }
{
    match racing {
        Racing::Times {
            times,
            cut,
            chances,
        } => write_races(rt, alloc, script, chances, cut, times, writer),
        Racing::Trace { chances } => write_race_trace(rt, alloc, script, chances, writer),
    }
}

/// Reads the script of these races. A part of a journal that is cut may end before a call for which another waits, so then none may.
fn read_raced<R: Source>(
    alloc: Global,
    racing: Racing,
    reader: &mut R,
) -> Result<Script, ReplayFault>
    ensures ok { IfOk result (λ script. ReadsRaced racing (R.remaining reader.old) (R.remaining reader.new) script) }
    ensures bad { IfErr result (λ fault. IfSome (R.remaining reader.old) (λ bytes. HasRacedFault racing bytes fault)) }
    ensures reads { TellsReads result (R.failures reader.old) (R.failures reader.new) }
{
    match racing {
        Racing::Times { cut: Some(_), .. } => read_script(alloc, reader),
        Racing::Times { cut: None, .. } | Racing::Trace { .. } => read_any_script(alloc, reader),
    }
}

/// Reads a script, and writes a line for each race, or the trace of one.
fn race_script<R: Source, W: Sink>(
    rt: &(impl Threads + Wait + Sync),
    alloc: Global,
    racing: Racing,
    reader: &mut R,
    writer: &mut W,
    errors: &mut impl Write,
) -> Result<bool, ReplayFault>
    ensures ok { IfOk result (λ closed. Races racing closed (R.remaining reader.old) (R.remaining reader.new)
        (W.contents writer.old) (W.contents writer.new)) }
    ensures err { IfErr result (λ fault. NotDone (RacesPartly racing (R.remaining reader.old) (R.remaining reader.new)
        (W.contents writer.old) (W.contents writer.new)) fault
        (W.failures writer.old) (W.failures writer.new) (W.contents writer.old) (W.contents writer.new)) }
    ensures bad { IfErr result (λ fault. IfSome (R.remaining reader.old) (λ bytes. HasRacedFault racing bytes fault)) }
    ensures reads { TellsReads result (R.failures reader.old) (R.failures reader.new) }
{
    let script = read_raced(alloc, racing, reader)?;
    tell_ignored(&script, errors);
    write_racing(rt, alloc, &script, racing, writer)
}

/// Races a script, and flushes the lines. Answers whether all races were closed.
pub fn run_race<R: Source, W: Write + Drop>(
    rt: &(impl Threads + Wait + Sync),
    alloc: Global,
    racing: Racing,
    reader: &mut R,
    out: W,
    errors: &mut impl Write,
) -> (Result<bool, ReplayFault>, Option<W>)
    ensures { AnsweredRace racing result.0 (R.remaining reader.old) (R.remaining reader.new) (R.failures reader.old)
        (R.failures reader.new) (W.contents out) (option_map W.contents result.1) }
{
    let mut sink = Watched::new(out);
    let raced = race_script(rt, alloc, racing, reader, &mut sink, errors);
    let (flushed, out) = flush_plain(sink);
    (flushed_answer(raced, flushed), Some(out))
}
