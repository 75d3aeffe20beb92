//! `hugepool schedule`: one run of a script as a trace.
ghost use Rattle.std.specs.Prelude.{◌≡◌, Ok, Err, OnOk, IfOk, Some, IfErr, IfSome};
ghost use Rattle.std.specs.Option.{option_map};
ghost use Rattle.hp_text.specs.ScriptLines.{HasLinesFault};
ghost use Rattle.hp_text.specs.Streams.{TellsReads};
ghost use Rattle.hp_program.specs.Answers.{NotDone};
ghost use Rattle.hp_script_commands.specs.Runs.{AnsweredSchedule, Schedules, SchedulesPartly};

use hp_command::Scheduling;
use hp_explore::schedule;
use hp_program::{flush_gathered, flushed_answer, gather};
use hp_text::{ReplayFault, Script, Sink, Source, read_any_script, write_trace};
use std::alloc::Global;
use std::io::Write;

// Says of a script which tasks' lines are ignored, where some are. Whether it can be said changes nothing.
pub(crate) fn tell_ignored(script: &Script, errors: &mut impl Write) {
    let tasks = script.config.tasks;
    if script.calls.iter().any(|call| call.0.number() > tasks) {
        let _ = write!(
            errors,
            "hugepool: lines of tasks above {tasks} are ignored: the pool has no such tasks\n"
        );
    }
}

/// Reads a script, and writes the trace of one of its runs.
fn schedule_script<R: Source, W: Sink>(
    alloc: Global,
    scheduling: Scheduling,
    reader: &mut R,
    writer: &mut W,
    errors: &mut impl Write,
) -> Result<(), ReplayFault>
    ensures ok { OnOk result (Schedules scheduling (R.remaining reader.old) (R.remaining reader.new)
        (W.contents writer.old) (W.contents writer.new)) }
    ensures err { IfErr result (λ fault. NotDone (SchedulesPartly scheduling (R.remaining reader.old) (R.remaining reader.new)
        (W.contents writer.old) (W.contents writer.new)) fault
        (W.failures writer.old) (W.failures writer.new) (W.contents writer.old) (W.contents writer.new)) }
    ensures bad { IfErr result (λ fault. IfSome (R.remaining reader.old) (λ bytes. HasLinesFault bytes fault)) }
    ensures reads { TellsReads result (R.failures reader.old) (R.failures reader.new) }
    ensures writes { OnOk result (W.failures writer.new ≡ W.failures writer.old) }
{
    let Scheduling { seed, run, chances } = scheduling;
    let script = read_any_script(alloc, reader)?;
    tell_ignored(&script, errors);
    let first = seed.wrapping_add(u64::from(run));
    let trace = schedule(alloc, &script, first, chances.deny, chances.kill)?;
    write_trace(alloc, &trace, writer)
}

/// Schedules a script. Output is buffered.
pub fn run_schedule<R: Source, W: Write + Drop>(
    alloc: Global,
    scheduling: Scheduling,
    reader: &mut R,
    out: W,
    errors: &mut impl Write,
) -> (Result<(), ReplayFault>, Option<W>)
    ensures { AnsweredSchedule scheduling result.0 (R.remaining reader.old) (R.remaining reader.new) (R.failures reader.old)
        (R.failures reader.new) (W.contents out) (option_map W.contents result.1) }
{
    let Ok(mut sink) = gather(alloc, out) else {
        return (Err(ReplayFault::Memory), None);
    };
    let written = schedule_script(alloc, scheduling, reader, &mut sink, errors);
    let (flushed, out) = flush_gathered(sink);
    (flushed_answer(written, flushed), Some(out))
}
