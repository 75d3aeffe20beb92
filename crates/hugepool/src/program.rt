//! What the program does, over any streams.
ghost use Rattle.std.specs.Prelude.{◌≡◌, ◌≢◌};
ghost use Rattle.std.specs.Option.{option_map};
ghost use Rattle.clap.specs.Values.{kind_of};
ghost use Rattle.hugepool.specs.Requests.{AnsweredHelp, Ends, EndsAsAsked, EndsLoosely, EndsUnasked};
ghost use Rattle.hugepool.specs.Status.{status_at, status_of};

use crate::answering::answer;
use crate::hinting::{Counted, Hints, hint_empty, tell_loose};
use crate::input::file_of;
use crate::stop::{Stop, searches, stop_of_loose, stop_of_text};
use clap::error::ErrorKind;
use hp_command::{Asked, Input, Request};
use hp_diagnostics::{Recalling, Recalls};
use hp_program::{Heard, has_left, write_fault};
use hp_script_commands::Report;
use hp_text::{ReplayFault, Source, Watched};
use hp_trace_commands::read_strict;
use std::alloc::Global;
use std::io;
use std::io::Write;
use std::rt::Files;
use std::sync::Wait;
use std::thread::Threads;
use std::time::Clock;

/// Does on these streams what is asked for, and returns the status: 0 where it was done, 1 after a fault, 2 where nothing is asked for.
/// A fault is one line on `errors`, and behind that of a line what is wrong with it, where the reader recalls the line. If the reader of
/// the output has left, nothing is said. The output is handed back, unless it went with a buffer for which there was no memory.
pub(crate) fn program<
    H: Clock + Files + Threads + Wait + Sync,
    R: Source + Recalls,
    W: Heard + Drop,
>(
    rt: &H,
    alloc: Global,
    asked: Result<Asked, clap::Error>,
    reader: &mut R,
    out: W,
    errors: &mut impl Report,
) -> (u8, Option<W>)
    ensures { EndsAsAsked asked result.0 (R.remaining reader.old) (R.remaining reader.new) (R.failures reader.old)
        (R.failures reader.new) (W.contents out) (option_map W.contents result.1) }
{
    match asked {
        Ok(
            Asked {
                request,
                input,
                is_loose: true,
                ..
            },
        ) => carry_out_loosely(rt, alloc, request, &input, reader, out, errors),
        Ok(Asked { request, input, .. }) => {
            let lines = Counted::Read;
            carry_out(rt, alloc, request, &input, lines, reader, out, errors)
        }
        Err(error) => refuse(error, &*reader, out, errors),
    }
}

// Does what is asked for.
fn carry_out<H: Clock + Files + Threads + Wait + Sync, R: Source + Recalls, W: Heard + Drop>(
    rt: &H,
    alloc: Global,
    request: Request,
    input: &Input,
    lines: Counted,
    reader: &mut R,
    out: W,
    errors: &mut impl Report,
) -> (u8, Option<W>)
    ensures { Ends request result.0 (R.remaining reader.old) (R.remaining reader.new) (R.failures reader.old)
        (R.failures reader.new) (W.contents out) (option_map W.contents result.1) }
{
    let hints = Hints::of(&request);
    let (answer, out) = answer(rt, alloc, request, reader, out, errors);
    if has_left(&out) {
        return (status_at(&answer), out);
    }
    let status = end(&answer, file_of(input), &*reader, errors);
    lines.hint(&answer, errors);
    tell_loose(alloc, &answer, &*reader, errors);
    hint_empty(&answer, input, &*reader, errors);
    hints.give(alloc, &answer, &*reader, errors);
    (status, out)
}

// Does what is asked for with the strict text that the input asks for.
fn carry_out_loosely<
    H: Clock + Files + Threads + Wait + Sync,
    R: Source + Recalls,
    W: Heard + Drop,
>(
    rt: &H,
    alloc: Global,
    request: Request,
    input: &Input,
    reader: &mut R,
    out: W,
    errors: &mut impl Report,
) -> (u8, Option<W>)
    ensures { EndsLoosely request result.0 (R.remaining reader.old) (R.remaining reader.new) (R.failures reader.old)
        (R.failures reader.new) (W.contents out) (option_map W.contents result.1) }
{
    let strict = match read_strict(alloc, reader) {
        Ok(strict) => strict,
        Err(fault) => {
            let answer = Err(stop_of_loose(fault, searches(&request)));
            let status = end(&answer, file_of(input), &*reader, errors);
            tell_loose(alloc, &answer, &*reader, errors);
            return (status, Some(out));
        }
    };
    let mut source = Recalling::new(Watched::new(strict.as_slice()));
    let lines = Counted::Strict;
    carry_out(rt, alloc, request, input, lines, &mut source, out, errors)
}

// The status of an answer.
fn status_at(answer: &Result<(), Stop>) -> u8
    ensures { result ≡ status_at answer.now }
{
    match answer {
        Ok(()) => 0,
        Err(stop) => stop.status(),
    }
}

// The status of an answer, whose fault is told. Whether it can be told changes nothing.
fn end<R: Recalls>(
    answer: &Result<(), Stop>,
    file: Option<&str>,
    reader: &R,
    errors: &mut impl Write,
) -> u8
    ensures { result ≡ status_at answer.now }
{
    if let Err(stop) = answer {
        let _ = tell(stop, file, reader, errors);
    }
    status_at(answer)
}

// Writes the lines of a fault, which name the file that was read if there is one.
fn tell<R: Recalls>(
    stop: &Stop,
    file: Option<&str>,
    reader: &R,
    errors: &mut impl Write,
) -> io::Result<()> {
    match (stop, file) {
        (Stop::Replay(fault) | Stop::Untold(fault), file) => {
            write_fault(*fault, file, reader, errors)
        }
        (Stop::Loose(fault) | Stop::UntoldLoose(fault), Some(file)) => writeln!(
            errors,
            "hugepool: {file}: {fault}"
        ),
        (Stop::Picture(fault), Some(file)) => writeln!(errors, "hugepool: {file}: {fault}"),
        _ => write!(errors, "{stop}"),
    }
}

// Writes what is asked for as an error, help or the version, or tells why nothing is asked for.
fn refuse<R: Source + Recalls, W: Heard + Drop>(
    error: clap::Error,
    reader: &R,
    mut out: W,
    errors: &mut impl Write,
) -> (u8, Option<W>)
    ensures { EndsUnasked error result.0 (R.remaining reader.now) (R.remaining reader.now) (R.failures reader.now)
        (R.failures reader.now) (W.contents out) (option_map W.contents result.1) }
{
    match error.kind() {
        ErrorKind::DisplayHelp | ErrorKind::DisplayVersion => {
            let answer = stop_of_text(write_help(&error, &mut out));
            if out.has_left() {
                return (status_at(&answer), Some(out));
            }
            (end(&answer, None, reader, errors), Some(out))
        }
        _ => {
            let answer = Err(no_request(error));
            (end(&answer, None, reader, errors), Some(out))
        }
    }
}

// Words that clap refused, or that it had no memory to read.
fn no_request(error: clap::Error) -> Stop
    ensures memory { kind_of error ≡ ErrorKind.OutOfMemory → status_of result ≡ 1 }
    ensures usage { kind_of error ≢ ErrorKind.OutOfMemory → status_of result ≡ 2 }
{
    match error.kind() {
        ErrorKind::OutOfMemory => Stop::Replay(ReplayFault::Memory),
        _ => Stop::Usage(error),
    }
}

// Help comes from clap as an error, but is what was asked for.
fn write_help(help: &clap::Error, out: &mut impl Write) -> Result<(), ReplayFault>
    ensures { AnsweredHelp result }
{
    write!(out, "{help}").map_err(|_| ReplayFault::Write)?;
    out.flush().map_err(|_| ReplayFault::Write)
}
