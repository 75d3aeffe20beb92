//! `hugepool step`: a pool that is driven line by line.
ghost use Rattle.std.specs.Prelude.{◌≡◌, IfErr};
ghost use Rattle.std.specs.Option.{option_map};
ghost use Rattle.hp_text.specs.Streams.{TellsReads};
ghost use Rattle.hp_pool_commands.specs.Stepping.{AnsweredStep, IsStepFault};

use crate::laying::HELP;
use crate::session::Session;
use crate::typing::{Typed, typed_of};
use hp_program::{flush_plain, flushed_answer};
use hp_text::{PIECE, ReplayFault, Sink, Source, Watched, write_text};
use memchr::memchr;
use std::alloc::{AllocError, Global};
use std::io::Write;
use std::mem;
use std::rt::Files;

/// Where the lines come from.
#[derive(Drop)]
pub struct Stepping {
    /// The file whose lines come first, which a line `save` writes.
    pub file: Option<String>,
    /// Standard input is a terminal, at which lines are asked for.
    pub is_typed: bool,
}

/// Does what a line asks for, and lays out what came of it. Tells whether more lines are read.
fn lay_answer<H: Files>(
    rt: &H,
    alloc: Global,
    session: &mut Session,
    line: &[u8],
    words: &mut Vec<u8>,
    text: &mut String,
) -> Result<bool, AllocError> {
    let typed = typed_of(line, words)?;
    match &typed {
        Typed::Quit => return Ok(false),
        Typed::Help => text.push_str(HELP)?,
        _ => session.lay_answer(rt, alloc, &typed, words.as_slice(), text)?,
    }
    Ok(true)
}

/// Takes the first line out of what was read, without its end.
fn take_line(alloc: Global, pending: &mut Vec<u8>) -> Result<Option<Vec<u8>>, AllocError> {
    let Some(end) = memchr(b'\n', pending.as_slice()) else {
        return Ok(None);
    };
    let rest = pending[end + 1..].to_vec(alloc)?;
    let mut line = mem::replace(pending, rest);
    line.truncate(end);
    Ok(Some(line))
}

/// The next line, as soon as it is there: none at the end of the input.
fn read_line<R: Source>(
    alloc: Global,
    reader: &mut R,
    pending: &mut Vec<u8>,
) -> Result<Option<Vec<u8>>, ReplayFault>
    ensures reads { TellsReads result (R.failures reader.old) (R.failures reader.new) }
    ensures fault { IfErr result IsStepFault }
{
    let mut piece = [0; PIECE];
    for _ in 0..u64::MAX {
        if let Some(line) = take_line(alloc, pending)? {
            return Ok(Some(line));
        }
        let n = reader.read_piece(&mut piece)?;
        if n == 0 {
            break;
        }
        pending.extend_from_slice(&piece[..n])?;
    }
    let last = mem::replace(pending, Vec::new(alloc));
    Ok(if last.is_empty() { None } else { Some(last) })
}

/// What was read and isn't answered yet, the words of a line, and what is laid out.
#[derive(Drop)]
struct Lines {
    pending: Vec<u8>,
    words: Vec<u8>,
    text: String,
}

/// Answers the next line, if there is one. Tells whether more lines are read.
fn answer_line<H: Files, R: Source, W: Sink>(
    rt: &H,
    alloc: Global,
    reader: &mut R,
    session: &mut Session,
    lines: &mut Lines,
    writer: &mut W,
) -> Result<bool, ReplayFault>
    ensures reads { TellsReads result (R.failures reader.old) (R.failures reader.new) }
    ensures fault { IfErr result IsStepFault }
{
    let Some(line) = read_line(alloc, reader, &mut lines.pending)? else {
        return Ok(false);
    };
    lines.text.clear();
    let goes_on = lay_answer(
        rt,
        alloc,
        session,
        line.as_slice(),
        &mut lines.words,
        &mut lines.text,
    )?;
    // Lines that are there already aren't asked for.
    if goes_on && lines.pending.is_empty() {
        session.push_prompt(&mut lines.text)?;
    }
    write_text(writer, lines.text.as_bytes())?;
    Ok(goes_on)
}

/// Answers each line before the next is read.
fn answer_lines<H: Files, R: Source, W: Sink>(
    rt: &H,
    alloc: Global,
    reader: &mut R,
    session: &mut Session,
    lines: &mut Lines,
    writer: &mut W,
) -> Result<(), ReplayFault>
    ensures reads { TellsReads result (R.failures reader.old) (R.failures reader.new) }
    ensures fault { IfErr result IsStepFault }
{
    session.push_first_prompt(&mut lines.text)?;
    write_text(writer, lines.text.as_bytes())?;
    for _ in 0..u64::MAX {
        if !answer_line(rt, alloc, reader, session, lines, writer)? {
            break;
        }
    }
    Ok(())
}

/// Drives a pool by the lines that are read.
fn step_lines<H: Files, R: Source, W: Sink>(
    rt: &H,
    alloc: Global,
    reader: &mut R,
    stepping: Stepping,
    writer: &mut W,
) -> Result<(), ReplayFault>
    ensures reads { TellsReads result (R.failures reader.old) (R.failures reader.new) }
    ensures fault { IfErr result IsStepFault }
{
    let mut session = Session::new(stepping.file, stepping.is_typed);
    let mut lines = Lines {
        pending: Vec::new(alloc),
        words: Vec::new(alloc),
        text: String::new(alloc),
    };
    answer_lines(rt, alloc, reader, &mut session, &mut lines, writer)
}

/// Drives a pool, line by line.
pub fn run_step<H: Files, R: Source, W: Write + Drop>(
    rt: &H,
    alloc: Global,
    reader: &mut R,
    stepping: Stepping,
    out: W,
) -> (Result<(), ReplayFault>, Option<W>)
    ensures { AnsweredStep result.0 (R.failures reader.old) (R.failures reader.new) (option_map W.contents result.1) }
{
    let mut sink = Watched::new(out);
    let stepped = step_lines(rt, alloc, reader, stepping, &mut sink);
    let (flushed, out) = flush_plain(sink);
    (flushed_answer(stepped, flushed), Some(out))
}
