//! Of a page, the functions that move the picture.

/// Of a page, the functions that move the picture.
pub(crate) const VIEWER_SCRIPT: &str = r###"// What makes elements of a page.

const $ = (id) => document.getElementById(id);

function element(tag, properties = {}, ...children) {
  const made = Object.assign(document.createElement(tag), properties);
  made.append(...children);
  return made;
}

const plural = (count, word) => `${count.toLocaleString("en")} ${word}${count === 1 ? "" : "s"}`;

/** Names with what they have, for a list of definitions. */
function pairs(list, entries) {
  list.replaceChildren(...entries.map(([name, words]) => element("div", {}, element("dt", { textContent: name }), element("dd", { textContent: words }))));
}
// What moves a picture: it is zoomed and searched, and events are picked, by buttons, keys and fingers. A page says by its hooks what else
// follows from that.

// how wide an event is where an address leads to it
const NEAR_STEP = 24;
// more tasks than these that wait for one thing are folded into a line
const FEW_WAITS = 3;

const view = newView($("picture"), $("extent"), $("canvas"));
// `picks` is called with the event that somebody picks, and `says` before the first frame that shows another one as picked
const hooks = { picks: () => {}, says: () => {} };
// the event that may be picked first: -1 where a page shows what is before all events, too
let firstPicked = 0;
let isAsked = false;
let said = null;
let fingers = 0;

// ---- drawing

/** Draws, and says what is picked, before the next frame, once. */
function draw() {
  if (isAsked) return;
  isAsked = true;
  requestAnimationFrame(() => {
    isAsked = false;
    drawPicture(view);
    if (said !== view.picked) hooks.says(view.picked);
    said = view.picked;
  });
}

function lay() {
  if (!view.run) return;
  layOut(view);
  draw();
}

/** Shows another run, or one that has grown: all that is kept of the old one goes. */
function showRun(run) {
  view.run = run;
  $("used-key").hidden = run.pool.quota === undefined;
  view.labels.clear();
  view.tiles.clear();
  said = null;
  search();
  lay();
}

/** Makes events so many times as wide. What is picked stays where it is, if it is in sight; else what is in the midst. */
function zoom(times, x) {
  const picked = xOf(view, view.picked + 0.5);
  const isSeen = picked >= view.gutter && picked <= view.width;
  zoomTo(view, view.step * times, x ?? (isSeen ? picked : (view.gutter + view.width) / 2));
  draw();
}

const showWhole = () => zoom(0, view.gutter);

/** Events are at least so wide, as where somebody looks at one of them. */
function zoomNear() {
  if (view.step < NEAR_STEP) zoomTo(view, NEAR_STEP, view.gutter);
}

// ---- picking

/** Picks an event, the nearest that there is. */
function pick(at) {
  const last = view.run.count - 1;
  if (Number.isFinite(at) && last >= firstPicked) hooks.picks(Math.min(Math.max(Math.round(at), firstPicked), last));
}

/** Shows an event as picked, and brings it into sight. */
function showPicked(at) {
  view.picked = at;
  showEvent(view, at);
  sayFound();
  draw();
}

/** Picks the event so many further among those of the picked one's task. */
function pickOfTask(further) {
  if (view.picked < 0) return pick(view.picked + further);
  const { events } = laneOfEvent(view.run, view.picked);
  const place = countBelow(events, view.picked) + further;
  return place >= 0 && place < events.length ? pick(events[place]) : undefined;
}

const pickScreen = (further) => pick(view.picked + further * Math.max(1, Math.floor((view.width - view.gutter) / view.step) - 1));

/** Picks what is pressed: in a lane, where events are narrow, that lane's event nearby. */
function pickAt(x, y) {
  const at = eventIn(view, x);
  if (at < 0) return;
  const events = laneIn(view, y)?.events ?? [];
  const place = countBelow(events, at);
  const near = [events[place - 1], events[place]].filter((it) => it !== undefined && Math.abs(it - at) * view.step <= 4);
  near.sort((one, other) => Math.abs(one - at) - Math.abs(other - at));
  pick(view.step < 8 && near.length > 0 ? near[0] : at);
}

// ---- searching

/** How many events match, and which of them is picked. */
function foundWords(query, found, picked) {
  if (query.trim() === "") return "";
  if (!found) return "a number or a word is missing";
  if (found.length === 0) return "no match";
  const count = `${found.length.toLocaleString("en")} ${found.length === 1 ? "match" : "matches"}`;
  const place = countBelow(found, picked);
  return found[place] === picked ? `${(place + 1).toLocaleString("en")} of ${count}` : count;
}

const sayFound = () => { $("found").textContent = foundWords($("query").value, view.found, view.picked); };

function search() {
  view.found = findEvents(view.run, $("query").value);
  sayFound();
  draw();
}

function pickMatch(isForward) {
  const at = nextMatch(view.found ?? [], view.picked, isForward);
  if (at >= 0) pick(at);
}

// ---- keys, buttons and fingers

const KEYS = {
  ArrowLeft: () => pick(view.picked - 1),
  ArrowRight: () => pick(view.picked + 1),
  ArrowUp: () => pickOfTask(-1),
  ArrowDown: () => pickOfTask(1),
  PageUp: () => pickScreen(-1),
  PageDown: () => pickScreen(1),
  Home: () => pick(firstPicked),
  End: () => pick(view.run.count - 1),
  "+": () => zoom(2),
  "=": () => zoom(2),
  "-": () => zoom(0.5),
  0: showWhole,
  n: () => pickMatch(true),
  p: () => pickMatch(false),
  "/": () => $("query").focus(),
};
// the buttons that do what a key does
const BUTTONS = { whole: "0", out: "-", in: "+", "task-back": "ArrowUp", "task-on": "ArrowDown", "match-back": "p" };

/** Does what a key means, but for fields, and for what has arrows and longer keys of its own. */
function press(event) {
  if (event.key === "Escape" && event.target === $("query")) view.scroller.focus();
  if (event.ctrlKey || event.metaKey || event.altKey || !view.run || !Object.hasOwn(KEYS, event.key)) return;
  if (event.target.closest("input, select, textarea") || (event.key.length > 1 && event.target.closest(".own-keys"))) return;
  event.preventDefault();
  KEYS[event.key]();
}

/** Where the pointer is in the picture. */
function placeOf(event) {
  const frame = view.scroller.getBoundingClientRect();
  return { x: event.clientX - frame.left - view.scroller.clientLeft, y: event.clientY - frame.top - view.scroller.clientTop };
}

/** Ctrl and the wheel, which is also what two fingers on a pad send, zoom. */
function turn(event) {
  if (!event.ctrlKey) return;
  event.preventDefault();
  zoom(Math.exp(-event.deltaY * (event.deltaMode === 0 ? 0.005 : 0.1)), placeOf(event).x);
}

/** Two fingers zoom. */
function touch(event) {
  if (event.touches.length !== 2) {
    fingers = 0;
    return;
  }
  const [one, other] = event.touches;
  const apart = Math.hypot(one.clientX - other.clientX, one.clientY - other.clientY);
  const middle = placeOf({ clientX: (one.clientX + other.clientX) / 2, clientY: 0 });
  if (fingers > 0) {
    event.preventDefault();
    zoom(apart / fingers, middle.x);
  }
  fingers = apart;
}

/** What the pointer rests on. */
function hover(event) {
  const { x, y } = placeOf(event);
  const at = view.run ? eventIn(view, x) : -1;
  if (at < 0) return void (view.canvas.title = "");
  const happened = eventAt(view.run, at);
  const lane = laneIn(view, y);
  const standing = lane && lane.task > 0 ? standingAt(view.run, lane, at) : null;
  const words = [`line ${lineOf(at)}: ${eventWords(happened)}: ${outcomeWords(happened)}`];
  if (standing) {
    const { call, phase } = standing;
    words.push(`task ${lane.task}: ${callWords(call)} at ${phase} (Linux: ${functionOf(view.run, call.op, phase)})`);
  }
  view.canvas.title = words.join("\n");
}

/** Listens to all that moves the picture. */
function listenToPicture() {
  const { scroller, canvas } = view;
  for (const [id, key] of Object.entries(BUTTONS)) $(id).addEventListener("click", KEYS[key]);
  $("query").addEventListener("input", search);
  $("search").addEventListener("submit", (event) => { event.preventDefault(); pickMatch(true); });
  scroller.addEventListener("scroll", draw, { passive: true });
  scroller.addEventListener("wheel", turn, { passive: false });
  for (const kind of ["touchstart", "touchmove", "touchend"]) scroller.addEventListener(kind, touch, { passive: false });
  canvas.addEventListener("click", (event) => { const { x, y } = placeOf(event); pickAt(x, y); });
  canvas.addEventListener("pointermove", hover);
  document.addEventListener("keydown", press);
  new ResizeObserver(lay).observe(scroller);
  matchMedia("(prefers-color-scheme: dark)").addEventListener("change", () => {
    readColours(view);
    said = null;
    draw();
  });
}
"###;
