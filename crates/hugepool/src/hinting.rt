//! Hints on standard error: what else would serve.
use crate::input::file_of;
use crate::stop::Stop;
use hp_base::{Event, Op};
use hp_command::{Input, Request, ScriptRequest, TraceRequest};
use hp_diagnostics::{Line, Recalls, WrongLine};
use hp_format::{Asked, LooseFault, Reason, asked_of, tidy};
use hp_text::{ReplayFault, header_at};
use std::alloc::{AllocError, Global};
use std::io::Write;

// The number of the line at which the reader stopped, if it stopped at one.
fn line_of(answer: &Result<(), Stop>) -> Option<u64> {
    match answer {
        Err(Stop::Replay(fault) | Stop::Untold(fault)) => match fault {
            ReplayFault::BadHeader => Some(1),
            ReplayFault::BadLine(number) => Some(u64::from(*number)),
            _ => None,
        },
        _ => None,
    }
}

// The first line without a byte order mark.
fn unmarked(line: &[u8]) -> &[u8] {
    if line.starts_with(b"\xEF\xBB\xBF") {
        &line[3..]
    } else {
        line
    }
}

// What a command reads.
#[derive(Clone, Copy, PartialEq, Eq)]
enum Reads {
    // a strict trace
    Trace,
    // a strict script, whose events are all begins
    Script,
    // neither
    Other,
}

// Whether a line of the loose form asks for what such a command reads.
fn is_read(asked: &Asked, reads: Reads) -> bool {
    match asked {
        Asked::Nothing | Asked::Times(Event::Begin(_, _), _) => reads != Reads::Other,
        Asked::Times(_, _) | Asked::Until(_, _) => reads == Reads::Trace,
    }
}

// Whether words are a line that scripts have alone.
fn is_of_script(words: &[u8], number: u64) -> bool {
    match number {
        1 => words.starts_with(b"script "),
        _ => words.starts_with(b"after "),
    }
}

// Whether the line of that number is right in the loose form of a script whose calls may wait, and not as it is.
fn is_loose_in_script(alloc: Global, line: Line, number: u64) -> Result<bool, AllocError> {
    let mut words = Vec::new(alloc);
    tidy(line.bytes, &mut words)?;
    Ok(is_of_script(words.as_slice(), number) && is_tidied(alloc, line)?)
}

// Whether the line of that number is right in the loose form. Nothing at all isn't.
fn is_loose(alloc: Global, line: Line, number: u64, reads: Reads) -> Result<bool, AllocError> {
    // The checker of borrows asks for a mention of the types that a line may ask for.
    let _none: (Option<Event>, Option<Op>) = (None, None);
    let mut words = Vec::new(alloc);
    if reads == Reads::Script && is_loose_in_script(alloc, line, number)? {
        return Ok(true);
    }
    if number > 1 {
        return Ok(match asked_of(line.bytes, &mut words)? {
            Some(asked) => is_read(&asked, reads),
            None => false,
        });
    }
    tidy(unmarked(line.bytes), &mut words)?;
    let is_blank = line.is_ended && words.is_empty();
    Ok(is_blank || header_at(words.as_slice()).is_some())
}

// Whether the first line is the header of a script whose calls wait.
fn waits<R: Recalls>(reader: &R) -> bool {
    match reader.line(1) {
        Some(line) => line.bytes.starts_with(b"script "),
        None => false,
    }
}

// Whether the strict form has the line otherwise, or not at all.
fn is_tidied(alloc: Global, line: Line) -> Result<bool, AllocError> {
    let mut words = Vec::new(alloc);
    tidy(line.bytes, &mut words)?;
    Ok(words.as_slice() != line.bytes || words.is_empty() && line.is_ended)
}

// Whether the reader gave nothing, and the command that reads it stopped at that.
fn is_empty<R: Recalls>(answer: &Result<(), Stop>, reader: &R) -> bool {
    let stopped = match answer {
        Err(Stop::Replay(_) | Stop::Untold(_)) => line_of(answer) == Some(1),
        Err(Stop::Loose(_) | Stop::UntoldLoose(_) | Stop::Picture(_)) => true,
        _ => false,
    };
    match reader.line(1) {
        Some(line) => stopped && line.bytes.is_empty() && !line.is_ended,
        None => false,
    }
}

/// Says what may have gone wrong before, if nothing was read from standard input.
pub(crate) fn hint_empty<R: Recalls>(
    answer: &Result<(), Stop>,
    input: &Input,
    reader: &R,
    errors: &mut impl Write,
) {
    if file_of(input).is_none() && is_empty(answer, reader) {
        let _ = errors.write_all(EMPTY);
    }
}

const EMPTY: &[u8] = b"hugepool: if another command writes it, that command may have failed\n";

// Whether the header is wrong, or else an event, if one of them is.
fn wrong_header(why: &Reason) -> Option<bool> {
    match why {
        Reason::Header => Some(true),
        Reason::NoEvent => Some(false),
        _ => None,
    }
}

/// Says what is wrong with the line of the loose form at which its reader stopped, if the line is recalled.
pub(crate) fn tell_loose<R: Recalls>(
    alloc: Global,
    answer: &Result<(), Stop>,
    reader: &R,
    errors: &mut impl Write,
) {
    let Err(Stop::Loose(fault) | Stop::UntoldLoose(fault)) = answer else {
        return;
    };
    let LooseFault::Line(number, why) = fault else {
        return;
    };
    let (Some(is_header), Some(line)) = (wrong_header(why), reader.line(*number)) else {
        return;
    };
    let mut words = Vec::new(alloc);
    if tidy(unmarked(line.bytes), &mut words).is_err() {
        return;
    }
    if let Some(wrong) = WrongLine::of_loose(words.as_slice(), *number, is_header) {
        let _ = writeln!(errors, "hugepool: {wrong}");
    }
}

// Names `hugepool format`, if it reads the line at which the strict reader stopped.
fn hint_format<R: Recalls>(
    alloc: Global,
    reads: Reads,
    answer: &Result<(), Stop>,
    reader: &R,
    errors: &mut impl Write,
) {
    let Some(number) = line_of(answer) else {
        return;
    };
    let Some(line) = reader.line(number) else {
        return;
    };
    // (a call that waits may be wrong where its line is right)
    if waits(reader) && !matches!(is_tidied(alloc, line), Ok(true)) {
        return;
    }
    let is_loose = matches!(is_loose(alloc, line, number, reads), Ok(true));
    if is_loose && reads != Reads::Other {
        let _ = errors.write_all(LOOSE);
    }
}

const LOOSE: &[u8] =
    b"hugepool: hugepool format accepts this line, and prints a trace that this command accepts\n";

/// Of which text the lines are counted.
#[derive(Clone, Copy)]
pub(crate) enum Counted {
    /// Of that which was read.
    Read,
    /// Of the strict one that it asks for.
    Strict,
}

const STRICT: &[u8] =
    b"hugepool: lines are counted in the strict form, which hugepool format prints\n";

impl Counted {
    /// Says so, if the number of a line was told.
    pub(crate) fn hint(self, answer: &Result<(), Stop>, errors: &mut impl Write) {
        if matches!(self, Counted::Strict) && line_of(answer).is_some() {
            let _ = errors.write_all(STRICT);
        }
    }
}

// More lines than are ever recalled.
const LINES: u64 = 1_000;

// Whether each event begins a call. Of a trace whose first events aren't recalled any more that isn't known, and the answer is no.
fn begins_alone<R: Recalls>(reader: &R) -> bool {
    for number in 2..LINES {
        match reader.line(number) {
            Some(line) if line.bytes.starts_with(b"begin ") => (),
            Some(line) => return number > 2 && line.bytes.is_empty(),
            None => return number > 2,
        }
    }
    false
}

// Names the commands that run a script, if a trace was shown that has begins alone.
fn hint_script<R: Recalls>(answer: &Result<(), Stop>, reader: &R, errors: &mut impl Write) {
    if answer.is_ok() && begins_alone(reader) {
        let _ = errors.write_all(SCRIPT);
    }
}

const SCRIPT: &[u8] =
    b"hugepool: no event is a step; if this is a script, hugepool explore and hugepool schedule run it\n";

// More events than a picture shows well.
const MANY: u64 = 5_000;

// Names the page, if a picture of many events was drawn.
fn hint_page<R: Recalls>(answer: &Result<(), Stop>, reader: &R, errors: &mut impl Write) {
    if answer.is_ok() && reader.ended().is_some_and(|lines| lines > MANY + 1) {
        let _ = errors.write_all(PAGE);
    }
}

const PAGE: &[u8] =
    b"hugepool: a page shows a trace of so many events better: hugepool draw --html\n";

// The last task of those that are asked for.
fn last_task(tasks: u64) -> u32 {
    64 - tasks.leading_zeros()
}

// Says which tasks the pool has, if rows of another were asked for.
fn hint_tasks<R: Recalls>(
    tasks: u64,
    answer: &Result<(), Stop>,
    reader: &R,
    errors: &mut impl Write,
) {
    let (Ok(()), Some(line)) = (answer, reader.line(1)) else {
        return;
    };
    let last = last_task(tasks);
    match header_at(line.bytes) {
        Some(config) if last > config.tasks => {
            let _ = writeln!(
                errors,
                "hugepool: the pool has no task {last}, its tasks are 1 to {}",
                config.tasks
            );
        }
        _ => {}
    }
}

/// Which hints a request may need, once it is answered.
#[derive(Clone, Copy)]
pub(crate) struct Hints {
    reads: Reads,
    // it is shown how a trace runs
    shows_run: bool,
    // a picture is drawn
    draws: bool,
    // the tasks of which rows are asked for, as bits
    tasks: u64,
}

// The tasks of which rows are asked for, as bits.
fn tasks_of(request: &TraceRequest) -> u64 {
    match request {
        TraceRequest::Explain(view) | TraceRequest::ExplainJson(view) => view.tasks,
        _ => 0,
    }
}

// Of what is done with a trace.
fn of_trace(request: &TraceRequest) -> Hints {
    let (reads, shows_run) = match request {
        TraceRequest::Replay | TraceRequest::Explain(_) | TraceRequest::Draw | TraceRequest::Page =>
            (Reads::Trace, true),
        TraceRequest::Format => (Reads::Other, false),
        _ => (Reads::Trace, false),
    };
    Hints {
        reads,
        shows_run,
        draws: matches!(request, TraceRequest::Draw),
        tasks: tasks_of(request),
    }
}

// What is read for a request that is none for something to be done with a trace.
fn reads_of(request: &Request) -> Reads {
    match request {
        Request::Script(ScriptRequest::Minimize(_)) => Reads::Trace,
        Request::Script(_) => Reads::Script,
        _ => Reads::Other,
    }
}

impl Hints {
    /// Those of a request.
    pub(crate) fn of(request: &Request) -> Hints {
        match request {
            Request::Trace(request) => of_trace(request),
            other => Hints {
                reads: reads_of(other),
                shows_run: false,
                draws: false,
                tasks: 0,
            },
        }
    }

    /// Gives those that serve. Whether they can be given changes nothing.
    pub(crate) fn give<R: Recalls>(
        self,
        alloc: Global,
        answer: &Result<(), Stop>,
        reader: &R,
        errors: &mut impl Write,
    ) {
        hint_format(alloc, self.reads, answer, reader, errors);
        if self.shows_run {
            hint_script(answer, reader, errors);
        }
        if self.draws {
            hint_page(answer, reader, errors);
        }
        hint_tasks(self.tasks, answer, reader, errors);
    }
}
