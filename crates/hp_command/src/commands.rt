//! The commands that there are, as a table, and the command line that clap makes of it.
use crate::choices::*;
use crate::options::{Choice, with_choices};
use crate::texts::{FINDS, LOOSE, MINIMIZES, PICTURES, RACES, SCRIPTS, STEPS, TRACES, WORKLOADS};
use clap::error::ErrorKind;
use clap::{Arg, Command, Error};
use std::alloc::{AllocError, Global};

/// What `--version` prints. It goes up where a form of text or a status changes.
const VERSION: &str = "0.1.0";

/// What stands behind a command's options.
#[derive(Clone, Copy)]
pub(crate) enum Operand {
    /// A file, or none: standard input is read.
    File,
    /// The name of a workload.
    Workload,
}

/// A command.
#[derive(Clone, Copy)]
pub(crate) struct Row {
    pub(crate) name: &'static str,
    pub(crate) about: &'static str,
    /// How it is called. clap writes it where it is empty.
    pub(crate) usage: &'static str,
    /// What help tells below the options.
    pub(crate) told: &'static str,
    pub(crate) operand: Operand,
    pub(crate) choices: &'static [Choice],
}

const REPLAY: Row = Row {
    name: "replay",
    about: "Replays a trace: prints the outcome of each event, and then the state",
    usage: "hugepool replay [OPTIONS] [FILE]",
    told: TRACES,
    operand: Operand::File,
    choices: &[REPLAY_JSON, PICTURE, LOOSE_FORM, COLOR],
};

pub(crate) const EXPLAIN: Row = Row {
    name: "explain",
    about: "Explains a trace: prints a row for each event, who waits for whom, and then the state",
    usage: "hugepool explain [OPTIONS] [FILE]",
    told: TRACES,
    operand: Operand::File,
    choices: &[LINES, TASKS, LINUX, COMPACT, JSON, LOOSE_FORM, COLOR],
};

const DRAW: Row = Row {
    name: "draw",
    about: "Draws a trace: prints an SVG picture, or a page for a long one",
    usage: "hugepool draw [OPTIONS] [FILE]",
    told: TRACES,
    operand: Operand::File,
    choices: &[HTML, LOOSE_FORM],
};

pub(crate) const EXPLORE: Row = Row {
    name: "explore",
    about: "Explores a script: runs it in many random orders, and prints a line for each run",
    usage: "hugepool explore [OPTIONS] [FILE]",
    told: SCRIPTS,
    operand: Operand::File,
    choices: &[
        SEED, RUNS, DENY, KILL, AUDIT, SUMMARY, ALL, DENIALS, KILLS, STATES, MEMORY, OBJECTS,
        LOOSE_FORM, COLOR,
    ],
};

const CHECK: Row = Row {
    name: "check",
    about: "Counts the events of a trace",
    usage: "hugepool check [OPTIONS] [FILE]",
    told: TRACES,
    operand: Operand::File,
    choices: &[OBJECTS, LOOSE_FORM],
};

pub(crate) const SCHEDULE: Row = Row {
    name: "schedule",
    about: "Prints one run of a script as a trace",
    usage: "hugepool schedule [OPTIONS] [FILE]",
    told: SCRIPTS,
    operand: Operand::File,
    choices: &[
        SEED, RUN, DENY, KILL, ENDING, DENIALS, KILLS, STATES, MEMORY, OBJECTS, LOOSE_FORM,
    ],
};

pub(crate) const FIND: Row = Row {
    name: "find",
    about: "Prints the first run of a script that meets all conditions, as a trace",
    usage: "hugepool find CONDITION.. [OPTIONS] [FILE]",
    told: FINDS,
    operand: Operand::File,
    choices: &[
        ANSWER, AT, BLOCKED, MEET, FINAL, REST, ANYWHERE, LIMIT, SEED, DENY, KILL, EVERY, DENIALS,
        KILLS, STATES, MEMORY, OBJECTS, LOOSE_FORM,
    ],
};

pub(crate) const MINIMIZE: Row = Row {
    name: "minimize",
    about: "Prints a small trace that still meets all conditions",
    usage: "hugepool minimize CONDITION.. [OPTIONS] [FILE]",
    told: MINIMIZES,
    operand: Operand::File,
    choices: &[
        ANSWER, AT, BLOCKED, MEET, FINAL, REST, ANYWHERE, OBJECTS, LOOSE_FORM,
    ],
};

const FORMAT: Row = Row {
    name: "format",
    about: "Prints the strict form of a trace or script that has comments or repeated steps",
    usage: "hugepool format [FILE]",
    told: LOOSE,
    operand: Operand::File,
    choices: &[],
};

const AUDIT_STATE: Row = Row {
    name: "audit",
    about: "Audits a pool's state: prints all that is wrong with it, also with a kernel's",
    usage: "hugepool audit [OPTIONS] [FILE]",
    told: PICTURES,
    operand: Operand::File,
    choices: &[OBJECTS],
};

const STEP: Row = Row {
    name: "step",
    about: "Drives a pool line by line: each event is answered at once, and can be undone",
    usage: "hugepool step [OPTIONS] [FILE]",
    told: STEPS,
    operand: Operand::File,
    choices: &[COLOR],
};

pub(crate) const RACE: Row = Row {
    name: "race",
    about: "Races a script: runs its tasks in threads, and prints a line for each race",
    usage: "hugepool race [OPTIONS] [FILE]",
    told: RACES,
    operand: Operand::File,
    choices: &[
        TIMES, SEED, DENY, RACE_KILL, CUT, RACE_TRACE, OBJECTS, LOOSE_FORM, COLOR,
    ],
};

const WORK: Row = Row {
    name: "work",
    about: "Runs a workload, and checks each answer and the counts at the end",
    usage: "",
    told: WORKLOADS,
    operand: Operand::Workload,
    choices: &[DRIVER, WORK_TRACE, OBJECTS, COLOR],
};

/// The commands, in the order in which help lists them.
#[derive(Clone, Copy)]
enum Name {
    Replay,
    Explain,
    Draw,
    Explore,
    Check,
    Schedule,
    Find,
    Minimize,
    Format,
    Audit,
    Step,
    Race,
    Work,
}

const NAMES: &[Name] = &[
    Name::Replay,
    Name::Explain,
    Name::Draw,
    Name::Explore,
    Name::Check,
    Name::Schedule,
    Name::Find,
    Name::Minimize,
    Name::Format,
    Name::Audit,
    Name::Step,
    Name::Race,
    Name::Work,
];

// (one slice of all rows would be a constant larger than the prover computes with)
fn row_of(name: Name) -> Row {
    match name {
        Name::Replay => REPLAY,
        Name::Explain => EXPLAIN,
        Name::Draw => DRAW,
        Name::Explore => EXPLORE,
        Name::Check => CHECK,
        Name::Schedule => SCHEDULE,
        Name::Find => FIND,
        Name::Minimize => MINIMIZE,
        Name::Format => FORMAT,
        Name::Audit => AUDIT_STATE,
        Name::Step => STEP,
        Name::Race => RACE,
        Name::Work => WORK,
    }
}

fn operand_argument<'a>(alloc: Global, operand: Operand) -> Arg<'a> {
    match operand {
        Operand::File => Arg::new(alloc, "FILE").help("File to read [default: standard input]"),
        Operand::Workload => Arg::new(alloc, "NAME")
            .help("Workload to run")
            .required(true),
    }
}

fn with_usage<'a>(command: Command<'a>, usage: &'a str) -> Command<'a> {
    match usage {
        "" => command,
        usage => command.override_usage(usage),
    }
}

fn subcommand<'a>(alloc: Global, row: &Row) -> Result<Command<'a>, AllocError> {
    let named = Command::new(alloc, row.name)
        .about(row.about)
        .after_help(row.told);
    let command = with_usage(named, row.usage).arg(operand_argument(alloc, row.operand))?;
    with_choices(alloc, command, row.choices)
}

/// The command line of the program.
pub(crate) fn program<'a>(alloc: Global) -> Result<Command<'a>, AllocError> {
    let mut command = Command::new(alloc, "hugepool")
        .about("A pool of huge pages: Linux's hugetlbfs reservations, step by step")
        .version(VERSION)
        .after_help(TRACES)
        .subcommand_required(true);
    for name in NAMES {
        command = command.subcommand(subcommand(alloc, &row_of(*name))?)?;
    }
    Ok(command)
}

/// An error of that command, with its usage.
pub(crate) fn complaint(
    alloc: Global,
    row: &Row,
    kind: ErrorKind,
    message: &str,
) -> Result<Error, AllocError> {
    subcommand(alloc, row)?.error(kind, message)
}

/// The error that the text behind an option is none of these values.
pub(crate) fn invalid(
    alloc: Global,
    row: &Row,
    choice: &Choice,
    values: &str,
    text: &str,
) -> Result<Error, AllocError> {
    let Choice { name, form, .. } = *choice;
    let message = format!(in alloc; "invalid value '{text}' for '--{name} <{form}>': {values}")?;
    complaint(alloc, row, ErrorKind::InvalidValue, message.as_str())
}
