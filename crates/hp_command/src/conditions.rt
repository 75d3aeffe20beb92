//! The conditions of `find` and of `minimize`.
use crate::choices::{ANSWER, ANYWHERE, AT, BLOCKED, FINAL, MEET, REST};
use crate::commands::{Row, complaint, invalid};
use crate::options::Choice;
use clap::error::ErrorKind;
use clap::{ArgMatches, Error};
use hp_base::{File, Task};
use hp_conditions::{Kind, at_rest, must_rest, next_choice, push_alternatives};
use hp_core::Phase;
use hp_hunt::{
    AnswerName, AnswerWord, CallChoice, Comparison, Condition, LinuxAnswer, PoolCount, Sought,
    SoughtAnswer,
};
use hp_watch::CallWord;
use std::alloc::Global;

const KINDS: [Kind; 5] = [
    Kind::Answer,
    Kind::At,
    Kind::Blocked,
    Kind::Meet,
    Kind::Final,
];

// What the value of an option may be.
const ANSWERS: &str =
    "T is a task or *, and K the number of its call, from 1, the name of a call (map, mapn, unmap, load, store, \
alloc, allock, punch, trunc or exit) or *; WORD is mapped, word, done, segv, beyond, noframe, noquota, nomemory, \
interrupted, killed, badfile, badrange, notmapped or noaddress, or what Linux says: SIGSEGV, SIGBUS, ENOSPC, ENOMEM \
or EINTR";

const COUNTED_ANSWERS: &str =
    "an answer as for --answer, a space, and a count as for --final: '1:2=noframe free>0'";

const TASKS: &str = "T is a task, from 1, or *";

const MEETINGS: &str =
    "T and U are tasks, and P and Q the phases of their calls, as a replay prints them after moved: \
start, look, want, locked, missing, changed, abort, taken, settle, committed, restore, found, \
leave, room, accounted, enter, head, unslot, extend, unmap, evict, delete, free, size, tail, \
clear or drop";

const COUNTS: &str =
    "COUNT is resv, free or used, or of file F reserved:F or pages:F; then comes =, <, <=, > or >=, and N a number; \
no count is below 0";

fn choice(kind: Kind) -> Choice {
    match kind {
        Kind::Answer => ANSWER,
        Kind::At => AT,
        Kind::Blocked => BLOCKED,
        Kind::Meet => MEET,
        Kind::Final => FINAL,
    }
}

fn values(kind: Kind) -> &'static str {
    match kind {
        Kind::Answer => ANSWERS,
        Kind::At => COUNTED_ANSWERS,
        Kind::Blocked => TASKS,
        Kind::Meet => MEETINGS,
        Kind::Final => COUNTS,
    }
}

// Adds the conditions that the option says.
fn push_conditions(
    alloc: Global,
    given: &ArgMatches,
    row: &Row,
    kind: Kind,
    conditions: &mut Vec<Condition>,
) -> Result<(), Error> {
    let Some(texts) = given.get_strs(choice(kind).name) else {
        return Ok(());
    };
    for text in texts {
        if !push_alternatives(kind, text.as_bytes(), conditions)? {
            return Err(invalid(alloc, row, &choice(kind), values(kind), text)?);
        }
    }
    Ok(())
}

// Whether calls in flight at the end are excluded: that is said, or counts at the end are asked for and nothing else is said.
fn is_at_rest(given: &ArgMatches) -> bool {
    let counts = given.get_strs(FINAL.name).is_some();
    must_rest(
        given.get_flag(REST.name),
        counts,
        given.get_flag(ANYWHERE.name),
    )
}

/// The conditions that are given to that command, of which there is one at least.
pub(crate) fn read_conditions(
    alloc: Global,
    given: &ArgMatches,
    row: &Row,
) -> Result<Vec<Condition>, Error> {
    // The checker of borrows asks for a mention of the types that a condition may hold.
    let _parts: (Option<Task>, Option<File>, Option<Phase>, Option<Sought>) = (
        None, None, None, None,
    );
    let _counts: (Option<PoolCount>, Option<Comparison>) = (None, None);
    let _answers: (Option<SoughtAnswer>, Option<CallChoice>, Option<AnswerName>) = (
        None, None, None,
    );
    let _names: (Option<CallWord>, Option<AnswerWord>, Option<LinuxAnswer>) = (None, None, None);
    let mut conditions = Vec::new(alloc);
    for kind in KINDS {
        push_conditions(alloc, given, row, kind, &mut conditions)?;
    }
    if is_at_rest(given) {
        conditions.push(at_rest(next_choice(conditions.as_slice())))?;
    }
    if conditions.is_empty() {
        return Err(complaint(
            alloc,
            row,
            ErrorKind::MissingRequiredArgument,
            "at least one condition is needed: --answer, --at, --blocked, --meet, --final or --rest",
        )?);
    }
    Ok(conditions)
}
