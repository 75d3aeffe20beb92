//! Of a page, the functions that read a run, and search it.

/// Of a page, the functions that read a run, and search it.
pub(crate) const RUN_SCRIPT: &str =
    r###"// The run, read from lines of JSON into arrays that answer fast what stands where. Nothing here touches the page.

// answers of a call that did what it was to do; all others are failures
const SUCCESSES = new Set(["mapped", "word", "done"]);
const MARKS = ["blocked", "refused", "denied", "killed", "failed", "resized"];
// counts are summed up in blocks of so many events
const BLOCK = 64;
const LONG_NUMBER = /\d{16}/;
const LONG_NUMBERS = /([[:,])(\d{16,})(?=[\],}])/g;

// ---- searching in sorted lists

/** How many of the numbers, which grow, are below the bound. */
function countBelow(numbers, bound) {
  let low = 0;
  let high = numbers.length;
  while (low < high) {
    const middle = (low + high) >> 1;
    if (numbers[middle] < bound) low = middle + 1;
    else high = middle;
  }
  return low;
}

/** The place of the last number that is at most the bound, or -1. */
const lastUpTo = (numbers, bound) => countBelow(numbers, bound + 1) - 1;

// ---- counts

/** A count behind each event, with the least and the greatest of each block. */
function seriesOf(values, count = values.length) {
  const series = { values, least: [], greatest: [], top: 0 };
  followSeries(series, values, 0, count);
  return series;
}

/** Sums up the blocks from that of an event on; values before it are as they were. */
function followSeries(series, values, from, count) {
  series.values = values;
  const blocks = Math.ceil(count / BLOCK);
  series.least.length = series.greatest.length = blocks;
  for (let block = Math.floor(from / BLOCK); block < blocks; block++) {
    const part = values.subarray(block * BLOCK, Math.min((block + 1) * BLOCK, count));
    series.least[block] = part.reduce((one, other) => Math.min(one, other));
    series.greatest[block] = part.reduce((one, other) => Math.max(one, other));
  }
  series.top = series.greatest.reduce((one, other) => Math.max(one, other), 0);
}

/** The least and the greatest value behind the events from one to before another. */
function rangeOf(series, from, to) {
  let least = series.values[from];
  let greatest = least;
  for (let at = from; at < to; ) {
    const isWholeBlock = at % BLOCK === 0 && at + BLOCK <= to;
    const block = at / BLOCK;
    least = Math.min(least, isWholeBlock ? series.least[block] : series.values[at]);
    greatest = Math.max(greatest, isWholeBlock ? series.greatest[block] : series.values[at]);
    at += isWholeBlock ? BLOCK : 1;
  }
  return [least, greatest];
}

// ---- lanes

/** What happens in the lane of a task, or, as task 0, what is of no task of the pool. Lists grow with the run. */
function newLane(task) {
  return {
    task,
    name: task === 0 ? "pool" : `task ${task}`,
    events: [],
    stays: { since: [], until: [], phase: [], operation: [] },
    calls: { since: [], until: [], operation: [], isOver: [] },
    waits: { since: [], until: [], holder: [] },
    marks: Object.fromEntries(MARKS.map((kind) => [kind, []])),
    standing: null,
    waiting: null,
  };
}

function endStay(lane, at) {
  const { since, phase, operation } = lane.standing;
  lane.stays.since.push(since);
  lane.stays.until.push(at);
  lane.stays.phase.push(phase);
  lane.stays.operation.push(operation);
}

function endCall(lane, at, isOver) {
  const { begun, operation } = lane.standing;
  lane.calls.since.push(begun);
  lane.calls.until.push(at);
  lane.calls.operation.push(operation);
  lane.calls.isOver.push(isOver);
  lane.standing = null;
}

function endWait(lane, at) {
  if (!lane.waiting) return;
  lane.waits.since.push(lane.waiting.since);
  lane.waits.until.push(at);
  lane.waits.holder.push(lane.waiting.holder);
  lane.waiting = null;
}

/** Follows where the task's call stands. */
function followCall(lane, at, event) {
  if (event.outcome === "begun") lane.standing = { begun: at, since: at, phase: event.at, operation: event.op };
  if (!lane.standing) return;
  if (event.outcome === "moved") {
    endStay(lane, at);
    lane.standing.since = at;
    lane.standing.phase = event.phase;
  }
  if (event.outcome === "ended") {
    endStay(lane, at);
    endCall(lane, at, true);
  }
}

/** The mark of an event; a failure is marked besides. */
function markOf(event) {
  if (event.outcome === "refused") return "refused";
  if (event.event === "deny") return "denied";
  if (event.event === "kill") return "killed";
  return event.outcome === "resized" || event.outcome === "blocked" ? event.outcome : null;
}

function followMarks(lane, at, event) {
  const mark = markOf(event);
  if (mark) lane.marks[mark].push(at);
  if (event.outcome === "ended" && !SUCCESSES.has(event.answer)) lane.marks.failed.push(at);
}

function followWaits(laneOf, at, event) {
  for (const { task, for: holder } of event.waits ?? []) {
    const lane = laneOf(task);
    endWait(lane, at);
    if (holder !== null) lane.waiting = { since: at, holder };
  }
}

/** What is in flight at the end stays so up to there. */
function endLane(lane, at) {
  endWait(lane, at);
  if (!lane.standing) return;
  endStay(lane, at);
  endCall(lane, at, false);
}

/** Ends a list's spans at an event: forgets those behind it, and returns the one that goes on there, which is taken off the list. */
function reopenSpan(spans, at) {
  const place = countBelow(spans.until, at);
  const goesOn = place < spans.since.length && spans.since[place] < at;
  const open = goesOn ? Object.fromEntries(Object.entries(spans).map(([name, list]) => [name, list[place]])) : null;
  for (const list of Object.values(spans)) list.length = place;
  return open;
}

/** Forgets what came behind so many events; what was in flight there is so again. */
function cutLane(lane, at) {
  for (const list of [lane.events, ...Object.values(lane.marks)]) list.length = countBelow(list, at);
  const stay = reopenSpan(lane.stays, at);
  const call = reopenSpan(lane.calls, at);
  lane.standing = stay && { begun: call.since, since: stay.since, phase: stay.phase, operation: stay.operation };
  lane.waiting = reopenSpan(lane.waits, at);
}

const isEmptyLane = (lane) => lane.events.length === 0 && lane.waits.since.length === 0 && !lane.waiting;

// ---- words, as small numbers

/** Numbers words from 1 on; 0 stands for none. */
function newDictionary() {
  const words = [""];
  const codes = new Map([["", 0]]);
  const codeOf = (word) => {
    if (word === undefined) return 0;
    if (!codes.has(word)) codes.set(word, words.push(word) - 1);
    return codes.get(word);
  };
  return { words, codes, codeOf };
}

// ---- reading

/** Places for what is known of so many events. */
function newColumns(count) {
  const numbers = () => new Int32Array(count);
  const codes = () => new Uint8Array(count);
  return {
    task: new Float64Array(count),
    event: codes(), operation: codes(), call: codes(), outcome: codes(), word: codes(), linux: codes(), lane: codes(), waits: codes(),
    file: numbers().fill(-1), index: numbers().fill(-1),
    free: numbers(), resv: numbers(), bare: numbers(), owed: numbers(), used: numbers(),
  };
}

function noteWords(run, at, event, lane) {
  const { columns, dictionary } = run;
  columns.task[at] = event.task ?? -1;
  columns.event[at] = dictionary.codeOf(event.event);
  columns.operation[at] = dictionary.codeOf(event.op);
  columns.call[at] = dictionary.codeOf(lane.standing?.operation);
  columns.outcome[at] = dictionary.codeOf(event.outcome);
  columns.word[at] = dictionary.codeOf(event.phase ?? event.answer ?? event.reason);
  columns.waits[at] = event.waits ? 1 : 0;
  columns.file[at] = event.file ?? -1;
  columns.index[at] = event.index ?? -1;
  columns.linux[at] = dictionary.codeOf(event.linux);
  if (event.linux) run.functions.set(`${lane.standing.operation} ${lane.standing.phase}`, event.linux);
}

function noteCounts(columns, at, event) {
  columns.free[at] = event.free;
  columns.resv[at] = event.resv;
  columns.owed[at] = event.owed;
  columns.bare[at] = event.resv - event.owed;
  columns.used[at] = event.used ?? 0;
}

function noteEvent(run, laneOf, at, event) {
  const isOfPool = event.task >= 1 && event.task <= run.pool.tasks;
  const lane = laneOf(isOfPool ? event.task : 0);
  lane.events.push(at);
  run.columns.lane[at] = lane.task;
  if (event.outcome === "begun") followCall(lane, at, event);
  noteWords(run, at, event, lane);
  if (event.outcome !== "begun") followCall(lane, at, event);
  noteCounts(run.columns, at, event);
  followMarks(lane, at, event);
  followWaits(laneOf, at, event);
}

/** What a line says, or null where it is cut or says nothing. Numbers that are too long for JavaScript's become strings. */
function parsed(line) {
  try {
    const value = JSON.parse(LONG_NUMBER.test(line) ? line.replace(LONG_NUMBERS, '$1"$2"') : line);
    return typeof value === "object" ? value : null;
  } catch {
    return null;
  }
}

/** Makes room for so many events: columns keep what they have. */
function widen(run, count) {
  if (count <= run.columns.free.length) return;
  const wider = newColumns(Math.max(count, 2 * run.columns.free.length));
  for (const [name, list] of Object.entries(wider)) list.set(run.columns[name]);
  run.columns = wider;
}

/** Reads the lines up to the object of the end, or up to the first that is no event's. */
function readEvents(run, lines) {
  const laneOf = (task) => run.laneOf.get(task) ?? run.laneOf.set(task, newLane(task)).get(task);
  for (const line of lines) {
    const said = parsed(line);
    if (said?.end) run.end = said.end;
    if (typeof said?.event !== "string") return;
    noteEvent(run, laneOf, run.count, said);
    run.lines.push(line);
    run.count++;
  }
}

/** Forgets what came behind so many events. */
function cutRun(run, count) {
  run.lines.length = run.count = count;
  run.end = null;
  for (const lane of run.laneOf.values()) {
    cutLane(lane, count);
    if (isEmptyLane(lane)) run.laneOf.delete(lane.task);
  }
}

/** Reads lines of events that come behind so many events, in place of what came there. */
function extendRun(run, count, lines) {
  cutRun(run, count);
  widen(run, count + lines.length);
  readEvents(run, lines);
  for (const lane of run.laneOf.values()) endLane(lane, run.count);
  run.lanes = [...run.laneOf.values()].sort((one, other) => one.task - other.task);
  for (const [name, series] of Object.entries(run.counts)) followSeries(series, run.columns[name], count, run.count);
}

/** The run that the lines tell of, or null where they tell of none. Where they end too soon, the run has no `end`. */
function readRun(text) {
  const [first, ...lines] = text.split("\n").filter((line) => line !== "");
  const pool = parsed(first ?? "")?.pool;
  if (!pool) return null;
  const columns = newColumns(lines.length);
  const counts = Object.fromEntries(["free", "resv", "bare", "used"].map((name) => [name, seriesOf(columns[name], 0)]));
  const run = { pool, lines: [], count: 0, end: null, columns, dictionary: newDictionary(), functions: new Map(), laneOf: new Map(), lanes: [], counts };
  extendRun(run, 0, lines);
  return run;
}
// What is so behind an event of a run, in numbers and in words. Nothing here touches the page.

// the functions of Linux by which calls begin and end, where no move of the run names them (docs/MACHINE.md, "The phases in Linux")
const OUTER_FUNCTIONS = {
  look: "hugetlb_fault", start: "inode_lock", "unmap start": "find_vma", "exit start": "find_vma",
  leave: "inode_unlock", "load leave": "mutex_unlock", "store leave": "mutex_unlock", "exit leave": "do_exit",
};

// ---- asking

const lineOf = (at) => at + 2;
const eventAt = (run, at) => parsed(run.lines[at]);
const laneOfEvent = (run, at) => run.laneOf.get(run.columns.lane[at]);

/** The call of a lane that is in flight behind an event: its place in the list of calls, or -1. */
function callAt(lane, at) {
  const place = lastUpTo(lane.calls.since, at);
  return place >= 0 && at < lane.calls.until[place] ? place : -1;
}

/** Where the call of a lane stands behind an event, as the task's last event says; null where none is in flight. */
function standingAt(run, lane, at) {
  const place = callAt(lane, at);
  if (place < 0) return null;
  const begun = lane.calls.since[place];
  const last = eventAt(run, lane.events[lastUpTo(lane.events, at)]);
  return { task: lane.task, begun, call: eventAt(run, begun), phase: last.at, holds: last.holds ?? {}, wants: last.wants ?? {}, owes: last.owes ?? 0 };
}

/** The function of Linux that does what the next step of a call does, or nothing where the run doesn't say. */
function functionOf(run, operation, phase) {
  const both = `${operation} ${phase}`;
  return run.functions.get(both) ?? OUTER_FUNCTIONS[both] ?? OUTER_FUNCTIONS[phase] ?? "";
}

/** For whom a lane's task waits behind an event, since when and for what; null where it doesn't. */
function waitAt(run, lane, at) {
  const place = lastUpTo(lane.waits.since, at);
  if (place < 0 || at >= lane.waits.until[place]) return null;
  const since = lane.waits.since[place];
  const wanted = eventAt(run, since).waits.find((wait) => wait.task === lane.task);
  return { task: lane.task, holder: lane.waits.holder[place], since, wanted };
}

/** Who waits behind an event: lists of waits, each for one thing that one task holds. */
function waitGroups(run, at) {
  const groups = new Map();
  for (const lane of run.lanes) {
    const wait = waitAt(run, lane, at);
    if (!wait) continue;
    const key = `${wait.holder} ${thingWords(wait.wanted)}`;
    if (groups.has(key)) groups.get(key).push(wait);
    else groups.set(key, [wait]);
  }
  return [...groups.values()];
}

/** The pool's counts behind an event; before the first one, at -1, those of a new pool. */
function countsAt(run, at) {
  if (at < 0) return { free: run.pool.frames, resv: 0, bare: 0, owed: 0, used: 0 };
  const { free, resv, bare, owed, used } = run.columns;
  return { free: free[at], resv: resv[at], bare: bare[at], owed: owed[at], used: used[at] };
}

/** How a lane's task lives behind an event. */
function lifeAt(lane, at) {
  const { since, until, operation, isOver } = lane.calls;
  const place = lastUpTo(since, at);
  if (place >= 0 && operation[place] === "exit" && isOver[place] && until[place] <= at) return "dead";
  return countBelow(lane.marks.killed, at + 1) > 0 ? "killed" : "alive";
}

// ---- words

const slotWords = ({ slot, file, index }) => `slot ${slot}, file ${file} index ${index}`;

/** What is held or wanted, in words. */
function thingWords(things) {
  const parts = [];
  if (things.lock !== undefined) parts.push(`lock of file ${things.lock}`);
  if (things.slot !== undefined) parts.push(slotWords(things));
  return parts.join(" and ") || "nothing";
}

/** A wait, or the waits of several tasks for one thing that one task holds. */
function groupWords(waits) {
  const [{ holder, wanted }] = waits;
  return waits.length === 1 ? waitWords(waits[0]) : `${waits.length} wait for task ${holder}: ${thingWords(wanted)}`;
}

const callWords = (event) => [event.op, ...event.numbers].join(" ");

/** An event, as the line of a trace. */
function eventWords(event) {
  const words = event.event === "resize" ? [event.frames] : [event.task];
  if (event.event === "begin") words.push(callWords(event));
  return [event.event, ...words].join(" ");
}

/** What came of an event, as `explain` prints it. */
function outcomeWords(event) {
  switch (event.outcome) {
    case "moved": return `moved ${event.phase}${event.index === undefined ? "" : `, index ${event.index}`}`;
    case "ended": return event.number === undefined ? `ended ${event.answer}` : `ended ${event.answer} ${event.number}`;
    case "blocked": return `blocked by ${event.by}: ${thingWords(event.wants ?? {})}`;
    case "refused": return `refused ${event.reason}`;
    case "resized": return event.number === undefined ? "resized" : `resized ${event.number}`;
    default: return event.outcome;
  }
}

const waitWords = ({ task, holder, wanted }) => `task ${task} waits for ${holder}: ${thingWords(wanted)}`;
// Searching the events of a run by the words of their rows. Nothing here touches the page.

// words behind which a number stands
const NUMBERED = new Set(["task", "file", "index", "line"]);

/** The parts of a query: `{ word }`, `{ name, number }` and `{ of }`; null where a number or a word is missing. */
function readQuery(text) {
  const words = text.toLowerCase().split(/[\s,:]+/).filter((word) => word !== "");
  const parts = [];
  for (let place = 0; place < words.length; place++) {
    const word = words[place];
    const takesNext = NUMBERED.has(word) || word === "of";
    const next = takesNext ? words[++place] : undefined;
    if (word === "of" ? next === undefined : takesNext && !/^\d+$/.test(next ?? "")) return null;
    if (/^\d+$/.test(word)) parts.push({ name: "line", number: Number(word) });
    else if (word === "of") parts.push({ of: next });
    else parts.push(takesNext ? { name: word, number: Number(next) } : { word });
  }
  return parts;
}

/** Whether the word stands in the row of an event, as a function of the event. */
function wordTest(run, word) {
  const { event, operation, outcome, word: last, linux, waits } = run.columns;
  if (word === "waits") return (at) => waits[at] === 1;
  const code = run.dictionary.codes.get(word);
  if (code === undefined) return () => false;
  return (at) => [event, operation, outcome, last, linux].some((column) => column[at] === code);
}

function partTest(run, part) {
  if (part.word !== undefined) return wordTest(run, part.word);
  if (part.of !== undefined) {
    const code = run.dictionary.codes.get(part.of);
    return (at) => code !== undefined && run.columns.call[at] === code;
  }
  if (part.name === "line") return (at) => lineOf(at) === part.number;
  const numbers = run.columns[part.name];
  return (at) => numbers[at] === part.number;
}

/** The events in whose rows all that the query asks for stands, in order; none of an empty query, null where it can't be read. */
function findEvents(run, text) {
  const parts = readQuery(text);
  if (!parts) return null;
  if (parts.length === 0) return [];
  const tests = parts.map((part) => partTest(run, part));
  const found = [];
  for (let at = 0; at < run.count; at++) if (tests.every((test) => test(at))) found.push(at);
  return found;
}

/** The match behind an event, or before it, and from the last on to the first again; -1 where there is none. */
function nextMatch(found, at, isForward) {
  if (found.length === 0) return -1;
  if (isForward) return found[countBelow(found, at + 1) % found.length];
  return found[(countBelow(found, at) + found.length - 1) % found.length];
}
"###;
