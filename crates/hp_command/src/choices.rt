//! The options that there are.
use crate::options::{Choice, Takes};

pub(crate) const COLOR: Choice = Choice {
    name: "color",
    form: "WHEN",
    takes: Takes::Name("auto", &["auto", "always", "never"]),
    help: "Colours words of failure and waiting; JSON and traces stay plain",
    conflicts: &[],
    needs: &[],
};

pub(crate) const REPLAY_JSON: Choice = Choice {
    name: "json",
    form: "",
    takes: Takes::Nothing,
    help: "Prints lines of JSON, as explain --json does; reads the whole trace first",
    conflicts: &[],
    needs: &[],
};

pub(crate) const OBJECTS: Choice = Choice {
    name: "json",
    form: "",
    takes: Takes::Nothing,
    help: "Prints a JSON object instead of each line, and one before them that names the version of their form",
    conflicts: &[],
    needs: &[],
};

pub(crate) const LOOSE_FORM: Choice = Choice {
    name: "loose",
    form: "",
    takes: Takes::Nothing,
    help: "Reads the form that hugepool format reads: comments, blank lines, repeated steps; reads the whole input first",
    conflicts: &[],
    needs: &[],
};

pub(crate) const PICTURE: Choice = Choice {
    name: "picture",
    form: "",
    takes: Takes::Nothing,
    help: "Prints only the state, as text that hugepool audit reads; reads the whole trace first",
    conflicts: &["json"],
    needs: &[],
};

pub(crate) const JSON: Choice = Choice {
    name: "json",
    form: "",
    takes: Takes::Nothing,
    help: "Prints lines of JSON instead of rows: an object for the pool, for each event, and for the state",
    conflicts: &["linux", "compact"],
    needs: &[],
};

pub(crate) const LINES: Choice = Choice {
    name: "lines",
    form: "A..B",
    takes: Takes::Text(None),
    help: "Prints only the rows of lines A to B of the trace, and the state after line B; also A alone, A.. or ..B",
    conflicts: &[],
    needs: &[],
};

pub(crate) const TASKS: Choice = Choice {
    name: "tasks",
    form: "T,U,..",
    takes: Takes::Text(None),
    help: "Prints only the rows of these tasks' events",
    conflicts: &[],
    needs: &[],
};

pub(crate) const LINUX: Choice = Choice {
    name: "linux",
    form: "",
    takes: Takes::Nothing,
    help: "Prints after each phase the Linux function that does what the step did",
    conflicts: &[],
    needs: &[],
};

pub(crate) const COMPACT: Choice = Choice {
    name: "compact",
    form: "",
    takes: Takes::Nothing,
    help: "Prints one column for all tasks, and waits on lines of their own",
    conflicts: &[],
    needs: &[],
};

pub(crate) const HTML: Choice = Choice {
    name: "html",
    form: "",
    takes: Takes::Nothing,
    help: "Prints an HTML page that scrolls and zooms; events can be picked and searched",
    conflicts: &[],
    needs: &[],
};

pub(crate) const SEED: Choice = Choice {
    name: "seed",
    form: "N",
    takes: Takes::Long("1"),
    help: "Seed of run 0, a 64-bit number",
    conflicts: &[],
    needs: &[],
};

pub(crate) const RUNS: Choice = Choice {
    name: "runs",
    form: "N",
    takes: Takes::Number(Some("10"), 1, 65_536),
    help: "Number of runs, at most 65536",
    conflicts: &[],
    needs: &[],
};

pub(crate) const RUN: Choice = Choice {
    name: "run",
    form: "N",
    takes: Takes::Number(Some("0"), 0, 4_294_967_295),
    help: "Number of the run, or with --every of the line, counted from 0",
    conflicts: &[],
    needs: &[],
};

pub(crate) const LIMIT: Choice = Choice {
    name: "limit",
    form: "N",
    takes: Takes::Number(Some("65536"), 1, 4_294_967_295),
    help: "Maximum number of runs",
    conflicts: &[],
    needs: &[],
};

pub(crate) const DENY: Choice = Choice {
    name: "deny",
    form: "N",
    takes: Takes::Number(Some("0"), 0, 1000),
    help: "Chance in 1000 that a step's allocation fails",
    conflicts: &[],
    needs: &[],
};

pub(crate) const KILL: Choice = Choice {
    name: "kill",
    form: "N",
    takes: Takes::Number(Some("0"), 0, 1000),
    help: "Chance in 1000 that a turn kills its task",
    conflicts: &[],
    needs: &[],
};

pub(crate) const AUDIT: Choice = Choice {
    name: "audit",
    form: "",
    takes: Takes::Nothing,
    help: "Audits the pool after each turn, up to thousands of times slower; the audit is proved to pass, so the lines stay the same",
    conflicts: &[],
    needs: &[],
};

pub(crate) const SUMMARY: Choice = Choice {
    name: "summary",
    form: "",
    takes: Takes::Nothing,
    help: "Prints one summary of all runs instead of a line for each: turns, tasks held up, phases that met, and answers",
    conflicts: &["audit"],
    needs: &[],
};

pub(crate) const ANSWER: Choice = Choice {
    name: "answer",
    form: "T:K=WORD",
    takes: Takes::Texts,
    help: "The K-th call of task T ends with the answer WORD; T and K may be *, K a call's name, WORD an errno or signal",
    conflicts: &[],
    needs: &[],
};

pub(crate) const AT: Choice = Choice {
    name: "at",
    form: "'T:K=WORD COUNT=N'",
    takes: Takes::Texts,
    help: "Such an answer comes, and behind it the count compares so with N",
    conflicts: &[],
    needs: &[],
};

pub(crate) const BLOCKED: Choice = Choice {
    name: "blocked",
    form: "T",
    takes: Takes::Texts,
    help: "At some moment the next step of task T is blocked; T may be *",
    conflicts: &[],
    needs: &[],
};

pub(crate) const MEET: Choice = Choice {
    name: "meet",
    form: "T:P,U:Q",
    takes: Takes::Texts,
    help: "At some moment the call of task T is in phase P and that of task U in phase Q",
    conflicts: &[],
    needs: &[],
};

pub(crate) const FINAL: Choice = Choice {
    name: "final",
    form: "COUNT=N",
    takes: Takes::Texts,
    help: "At the end no call is in flight, and resv, free, used, reserved:F or pages:F is N; also <, <=, > and >=",
    conflicts: &[],
    needs: &[],
};

pub(crate) const ANYWHERE: Choice = Choice {
    name: "anywhere",
    form: "",
    takes: Takes::Nothing,
    help: "With --final: calls may be in flight at the end",
    conflicts: &["rest"],
    needs: &[],
};

pub(crate) const REST: Choice = Choice {
    name: "rest",
    form: "",
    takes: Takes::Nothing,
    help: "At the end no call is in flight",
    conflicts: &[],
    needs: &[],
};

pub(crate) const EVERY: Choice = Choice {
    name: "every",
    form: "",
    takes: Takes::Nothing,
    help: "Searches all schedules instead of random runs: prints the shortest, or says that none meets the conditions",
    conflicts: &["limit", "seed", "deny", "kill"],
    needs: &[],
};

pub(crate) const ALL: Choice = Choice {
    name: "every",
    form: "",
    takes: Takes::Nothing,
    help: "Prints all ways in which schedules end, and how many schedules end so, in place of random runs",
    conflicts: &["seed", "runs", "deny", "kill", "audit", "summary"],
    needs: &[],
};

pub(crate) const ENDING: Choice = Choice {
    name: "every",
    form: "",
    takes: Takes::Nothing,
    help: "Prints a shortest schedule that ends as line N of explore --every says, in place of random run N",
    conflicts: &["seed", "deny", "kill"],
    needs: &[],
};

pub(crate) const DENIALS: Choice = Choice {
    name: "denials",
    form: "N",
    takes: Takes::Number(Some("0"), 0, 1000),
    help: "With --every: at most N allocations fail, anywhere",
    conflicts: &[],
    needs: &["every"],
};

pub(crate) const KILLS: Choice = Choice {
    name: "kills",
    form: "N",
    takes: Takes::Number(Some("0"), 0, 64),
    help: "With --every: at most N tasks are killed, anywhere",
    conflicts: &[],
    needs: &["every"],
};

pub(crate) const STATES: Choice = Choice {
    name: "states",
    form: "N",
    takes: Takes::Number(None, 1, 4_294_967_295),
    help: "With --every: maximum number of states kept at once, some 500 bytes each",
    conflicts: &[],
    needs: &["every"],
};

pub(crate) const MEMORY: Choice = Choice {
    name: "memory",
    form: "M",
    takes: Takes::Number(None, 1, 4_294_967_295),
    help: "With --every: maximum memory for states, in MiB [default: half of what is free]",
    conflicts: &[],
    needs: &["every"],
};

pub(crate) const TIMES: Choice = Choice {
    name: "times",
    form: "N",
    takes: Takes::Number(Some("10"), 1, 65_536),
    help: "Number of races",
    conflicts: &[],
    needs: &[],
};

pub(crate) const CUT: Choice = Choice {
    name: "cut",
    form: "N",
    takes: Takes::Number(None, 1, 65_536),
    help: "Cuts the journal after each N calls of each task",
    conflicts: &[],
    needs: &[],
};

pub(crate) const RACE_KILL: Choice = Choice {
    name: "kill",
    form: "N",
    takes: Takes::Number(Some("0"), 0, 1000),
    help: "Chance in 1000 that a task is killed before a call",
    conflicts: &[],
    needs: &[],
};

pub(crate) const RACE_TRACE: Choice = Choice {
    name: "trace",
    form: "",
    takes: Takes::Nothing,
    help: "Races once, and prints the pool's events as a trace",
    conflicts: &["times", "cut"],
    needs: &[],
};

pub(crate) const DRIVER: Choice = Choice {
    name: "on",
    form: "DRIVER",
    takes: Takes::Text(Some("core")),
    help: "Driver that makes its calls: core or pool",
    conflicts: &[],
    needs: &[],
};

pub(crate) const WORK_TRACE: Choice = Choice {
    name: "trace",
    form: "",
    takes: Takes::Nothing,
    help: "Prints what the calls did to a pool, as a trace",
    conflicts: &["on"],
    needs: &[],
};
