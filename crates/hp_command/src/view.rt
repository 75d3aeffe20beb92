//! Which rows of an explanation are asked for.
use crate::choices::{LINES, TASKS};
use crate::commands::{EXPLAIN, invalid};
use clap::{ArgMatches, Error};
use hp_explain::View;
use std::alloc::Global;

const LINE_VALUES: &str =
    "A and B are lines of the trace, the header is line 1, and A is at most B; A alone, A.. and ..B are allowed, too";

const TASK_VALUES: &str = "tasks are numbers from 1 to 64, with commas between them";

// A line, or where none is named the one that is meant then.
fn line_of(text: &str, unnamed: u32) -> Option<u32> {
    match text {
        "" => Some(unnamed),
        text => text.parse().ok(),
    }
}

// The lines from one to another, or that one alone.
fn lines_of(text: &str) -> Option<(u32, u32)> {
    let (first, last) = text.split_once("..").unwrap_or((text, text));
    let (first, last) = match (first, last) {
        ("", "") => return None,
        (first, last) => (line_of(first, 1)?, line_of(last, u32::MAX)?),
    };
    if first == 0 || first > last {
        return None;
    }
    Some((first, last))
}

// The bit of a task in a set.
fn task_bit(text: &str) -> Option<u64> {
    let number: u32 = text.parse().ok()?;
    if number == 0 || number > 64 {
        return None;
    }
    Some(1 << (number - 1))
}

fn tasks_of(text: &str) -> Option<u64> {
    let mut tasks = 0;
    for word in text.split(',') {
        tasks |= task_bit(word)?;
    }
    Some(tasks)
}

fn read_lines(alloc: Global, given: &ArgMatches, view: &mut View) -> Result<(), Error> {
    let Some(text) = given.get_str("lines") else {
        return Ok(());
    };
    let Some((first, last)) = lines_of(text) else {
        return Err(invalid(alloc, &EXPLAIN, &LINES, LINE_VALUES, text)?);
    };
    view.first = first;
    view.last = last;
    Ok(())
}

fn read_tasks(alloc: Global, given: &ArgMatches, view: &mut View) -> Result<(), Error> {
    let Some(text) = given.get_str("tasks") else {
        return Ok(());
    };
    let Some(tasks) = tasks_of(text) else {
        return Err(invalid(alloc, &EXPLAIN, &TASKS, TASK_VALUES, text)?);
    };
    view.tasks = tasks;
    Ok(())
}

/// The rows that are asked for.
pub(crate) fn read_view(alloc: Global, given: &ArgMatches) -> Result<View, Error> {
    let mut view = View::whole();
    view.linux = given.get_flag("linux");
    view.compact = given.get_flag("compact");
    read_lines(alloc, given, &mut view)?;
    read_tasks(alloc, given, &mut view)?;
    Ok(view)
}
