//! Of a page, the functions of the page around the picture, and what stands between them and the data.

/// Of a page, the functions of the page around the picture, and what stands between them and the data.
pub(crate) const PAGE_SCRIPT: &str = r###"// What is said of the picked event, beside the picture.

// rows that are shown before and behind the picked one
const NEARBY = 5;

function link(words, at) {
  return element("button", { type: "button", className: "link", textContent: words, title: `Line ${lineOf(at)}`, onclick: () => pick(at) });
}

function sayCounts(at) {
  const { free, resv, bare, owed, used } = countsAt(view.run, at);
  const entries = [["free", free], ["resv", resv], ["no page", bare], ["owed", owed]];
  if (view.run.pool.quota !== undefined) entries.push(["used of the quota", `${used} of ${view.run.pool.quota}`]);
  pairs($("counts"), entries);
}

const waitItem = (wait, words) => element("li", {}, `${words}, since `, link(`line ${lineOf(wait.since)}`, wait.since));

/** The waits for one thing: a line each, or where they are many a line for all, which opens. */
function waitItems(waits) {
  if (waits.length <= FEW_WAITS) return waits.map((wait) => waitItem(wait, waitWords(wait)));
  const each = element("ul", {}, ...waits.map((wait) => waitItem(wait, `task ${wait.task}`)));
  return [element("li", {}, element("details", {}, element("summary", { textContent: groupWords(waits) }), each))];
}

function sayWaits(at) {
  const items = waitGroups(view.run, at).flatMap(waitItems);
  $("waits").replaceChildren(...(items.length > 0 ? items : [element("li", { className: "none", textContent: "nobody waits" })]));
}

/** A call in flight: where it stands, and what does in Linux what its next step does. */
function callCard(standing, isPicked) {
  const { call, phase, holds, wants, owes, begun, task } = standing;
  const entries = [["at", phase], ["Linux", functionOf(view.run, call.op, phase)], ["holds", thingWords(holds)], ["wants", thingWords(wants)], ["owes", owes]];
  const facts = entries.flatMap(([name, words]) => [element("dt", { textContent: name }), element("dd", { textContent: words })]);
  const title = element("p", {}, element("b", { textContent: `task ${task}` }), ": ", link(callWords(call), begun));
  const card = element("div", { className: isPicked ? "call is-picked" : "call" }, title, element("dl", {}, ...facts));
  card.style.borderLeftColor = view.colours[call.op];
  return card;
}

function sayCalls(at) {
  const { run } = view;
  const own = run.columns.lane[at];
  const standings = run.lanes.map((lane) => standingAt(run, lane, at)).filter((standing) => standing);
  standings.sort((one, other) => (other.task === own) - (one.task === own));
  const cards = standings.map((standing) => callCard(standing, standing.task === own));
  const ill = run.lanes.filter((lane) => lane.task > 0 && lifeAt(lane, at) !== "alive").map((lane) => `task ${lane.task} is ${lifeAt(lane, at)}`);
  if (cards.length === 0) cards.push(element("p", { className: "soft", textContent: "none" }));
  if (ill.length > 0) cards.push(element("p", { className: "soft", textContent: ill.join(", ") }));
  $("calls").replaceChildren(...cards);
}

function sayRows(at) {
  const rows = [];
  for (let near = Math.max(0, at - NEARBY); near <= Math.min(view.run.count - 1, at + NEARBY); near++) {
    const event = eventAt(view.run, near);
    const cells = [`${lineOf(near)}`, link(eventWords(event), near), outcomeWords(event)];
    const row = element("tr", {}, ...cells.map((cell) => element("td", {}, cell)));
    if (near === at) row.setAttribute("aria-current", "true");
    rows.push(row);
  }
  $("rows").replaceChildren(...rows);
}

/** The function of Linux behind a move, and the waits that the event changed, as `explain` prints them. */
function sayMore(event) {
  const changeWords = (wait) => (wait.for === null ? `task ${wait.task} waits no more` : waitWords({ ...wait, holder: wait.for, wanted: wait }));
  const words = (event.waits ?? []).map(changeWords);
  if (event.linux) words.unshift(`in Linux: ${event.linux}`);
  $("done").textContent = words.join("; ");
}

function say(at) {
  const event = eventAt(view.run, at);
  $("row").textContent = `line ${lineOf(at)}: ${eventWords(event)}: ${outcomeWords(event)}`;
  sayMore(event);
  sayCounts(at);
  sayWaits(at);
  sayCalls(at);
  sayRows(at);
  if (document.activeElement !== $("line")) $("line").value = lineOf(at);
}
// The page around the picture: its address, its help, and the beginning.

// the address follows when nothing else is picked for so many milliseconds
const PAUSE = 250;

let pause = 0;

// ---- the picked event

/** Shows the event as picked; the address follows. */
function picks(at) {
  showPicked(at);
  clearTimeout(pause);
  pause = setTimeout(() => history.replaceState(null, "", `#line=${lineOf(view.picked)}`), PAUSE);
}

/** Picks the line that the address names, and shows it from near by; whether it names one. */
function pickAddressed() {
  const number = /^#line=(\d+)$/.exec(location.hash)?.[1];
  if (number === undefined || view.run.count === 0) return false;
  zoomNear();
  pick(Number(number) - 2);
  return true;
}

// ---- help

function showHelp(isShown) {
  if ($("help").contains(document.activeElement)) $("ask").focus();
  $("help").hidden = !isShown;
  $("legend").classList.toggle("is-long", isShown);
  $("ask").setAttribute("aria-expanded", `${isShown}`);
  lay();
}

const ask = () => showHelp($("help").hidden);

/** Escape closes the help, and leads from the field of a line back to the picture. */
function escape(event) {
  if (event.key !== "Escape") return;
  if (!$("help").hidden) showHelp(false);
  else if (event.target === $("line")) view.scroller.focus();
}

/** The wheel alone scrolls on where all lanes are in sight. */
function roll(event) {
  const { scroller } = view;
  if (event.ctrlKey || event.shiftKey || scroller.scrollHeight > scroller.clientHeight || Math.abs(event.deltaY) <= Math.abs(event.deltaX)) return;
  event.preventDefault();
  scroller.scrollLeft += event.deltaY * (event.deltaMode === 0 ? 1 : 20);
}

function listen() {
  KEYS["?"] = ask;
  Object.assign(hooks, { picks, says: say });
  listenToPicture();
  for (const [id, does] of Object.entries({ back: KEYS.ArrowLeft, on: KEYS.ArrowRight, ask })) $(id).addEventListener("click", does);
  $("line").addEventListener("change", () => pick(Number($("line").value) - 2));
  view.scroller.addEventListener("wheel", roll, { passive: false });
  document.addEventListener("keydown", escape);
  window.addEventListener("hashchange", pickAddressed);
}

// ---- the beginning

/** A table of objects, with a column for each key. */
function table(name, list) {
  const keys = [...new Set(list.flatMap((item) => Object.keys(item)))];
  const wordsOf = (value) => (typeof value === "object" ? thingWords(value) : `${value ?? ""}`);
  const head = element("tr", {}, ...keys.map((key) => element("th", { scope: "col", textContent: key })));
  const rows = list.map((item) => element("tr", {}, ...keys.map((key) => element("td", { textContent: wordsOf(item[key] ?? "") }))));
  const made = element("table", {}, element("thead", {}, head), element("tbody", {}, ...rows));
  made.setAttribute("aria-label", name);
  return made;
}

/** The state at the end: its numbers, and its lists as tables. */
function sayEnd(end) {
  const isList = ([, value]) => Array.isArray(value);
  const numbers = Object.entries(end).filter((entry) => !isList(entry));
  const lists = Object.entries(end).filter(isList);
  $("state").append(element("p", { className: "soft", textContent: numbers.map(([name, value]) => `${name} ${value}`).join(", ") }));
  for (const [name, list] of lists) $("state").append(table(name, list));
}

function sayPool({ pool, count }) {
  const parts = [plural(pool.frames, "frame"), plural(pool.files, "file"), plural(pool.slots, "slot"), plural(pool.tasks, "task")];
  if (pool.quota !== undefined) parts.push(`a quota of ${plural(pool.quota, "page")}`);
  $("sizes").textContent = `${plural(count, "event")} in a pool of ${parts.join(", ")}`;
}

function notice(words) {
  $("notice").textContent = words;
  $("notice").hidden = false;
}

function begin() {
  const run = readRun($("run")?.textContent ?? "");
  $("sizes").textContent = "";
  if (!run) return notice("This page holds no run: it was cut short, or its data are of another kind.");
  sayPool(run);
  if (!run.end) notice(`The data of this page end before the run does: ${plural(run.count, "event")} can be shown, and there may be more.`);
  else sayEnd(run.end);
  $("end").hidden = !run.end;
  if (run.count === 0) return run.end ? notice("This run has no events.") : undefined;
  $("tools").hidden = $("main").hidden = false;
  $("line").max = lineOf(run.count - 1);
  readColours(view);
  showRun(run);
  listen();
  if (!pickAddressed()) showWhole();
  drawPicture(view);
  performance.mark("drawn");
  return undefined;
}

document.addEventListener("DOMContentLoaded", begin);
</script>
<script type="application/json" id="run">
"###;
