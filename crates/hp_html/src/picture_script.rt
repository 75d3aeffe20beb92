//! Of a page, the functions that draw a run.

/// Of a page, the functions that draw a run.
pub(crate) const PICTURE_SCRIPT: &str =
    r###"// Where things of a run stand on a canvas, and what is painted there.

const RULER = 26;
// room behind the last event
const RIGHT = 24;
const LEAST_PITCH = 60;
const MOST_PITCH = 104;
// room for curves
const MOST_BELOW = 360;
// room in a lane above its boxes, for calls, and below them, for marks
const ABOVE = 16;
const BELOW = 16;
const LETTERS = "11px ui-monospace, Menlo, Consolas, 'DejaVu Sans Mono', monospace";
const MOST_STEP = 120;
// browsers lay out nothing that is much wider
const MOST_WIDTH = 16_000_000;
const COLOURS = [
  "ink", "soft", "paper", "lane", "grid", "accent", "on-accent", "map", "mapn", "unmap", "load", "store", "alloc", "allock", "punch", "trunc", "exit",
  "wait", "blocked", "refused", "denied", "killed", "failed", "resized", "free", "resv", "bare", "used", "owed", "sum",
];
// how wide an event has to be for all marks to have their shape, and for curves to be lines
const SHAPED = 5;
const CURVED = 1;
// how wide tiles are, how many are kept, and how far shapes reach into the next one
const TILE = 512;
// a lane of so many events is painted as fast as tiles for it are made
const FEW_EVENTS = 1000;
const MOST_TILES = 400;
const TOUCH = 8;

// ---- places

function newView(scroller, extent, canvas) {
  const context = canvas.getContext("2d", { alpha: false });
  context.font = LETTERS;
  const letter = context.measureText("0000000000").width / 10;
  return {
    scroller, extent, canvas, context, letter, run: null, step: 0, least: 0, left: 0, picked: 0, found: [], labels: new Map(), tiles: new Map(),
  };
}

/** How wide an event is where all are in sight. */
const leastStep = (view) => Math.max(view.width - view.gutter - RIGHT, 50) / Math.max(view.run.count, 1);

const mostStep = (view) => Math.max(leastStep(view), Math.min(MOST_STEP, MOST_WIDTH / Math.max(view.run.count, 1)));

/** How wide the names of lanes and of curves are, with the largest count behind these. */
function gutterOf(view) {
  const most = Math.max(...Object.values(view.run.counts).map((series) => series.top), view.run.pool.frames);
  return Math.ceil(26 + view.letter * `no page ${most}`.length);
}

/** Lays the picture out for the room that it has. */
function layOut(view) {
  const { scroller, extent, canvas, run } = view;
  view.width = scroller.clientWidth;
  view.height = scroller.clientHeight;
  view.gutter = gutterOf(view);
  const lanes = Math.max(run.lanes.length, 1);
  const spare = view.height - RULER - lanes * MOST_PITCH;
  view.below = Math.round(Math.min(MOST_BELOW, Math.max(spare, Math.min(230, Math.max(130, view.height * 0.4)))));
  view.curvesTop = view.height - view.below;
  view.pitch = Math.min(MOST_PITCH, Math.max(LEAST_PITCH, (view.curvesTop - RULER) / lanes));
  view.tall = view.pitch - ABOVE - BELOW;
  // (the whole run stays whole where the room changes)
  const isWhole = view.step <= view.least;
  view.least = leastStep(view);
  view.step = isWhole ? view.least : Math.min(mostStep(view), Math.max(view.least, view.step));
  extent.style.width = `${view.gutter + run.count * view.step + RIGHT}px`;
  extent.style.height = `${Math.max(view.height, RULER + lanes * view.pitch + view.below)}px`;
  sizeCanvas(view, canvas, window.devicePixelRatio || 1);
}

/** As large as the room, in the screen's own pixels. */
function sizeCanvas(view, canvas, scale) {
  const [width, height] = [Math.round(view.width * scale), Math.round(view.height * scale)];
  view.scale = scale;
  if (canvas.width === width && canvas.height === height) return;
  Object.assign(canvas, { width, height });
  Object.assign(canvas.style, { width: `${view.width}px`, height: `${view.height}px` });
}

/** The next edge of the screen's own pixels, so that what is painted side by side leaves no gap. */
const snapped = (view, x) => Math.round(x * view.scale) / view.scale;

const xOf = (view, at) => view.gutter + at * view.step - view.left;
const momentAt = (view, x) => (x - view.gutter + view.left) / view.step;
const topOf = (view, row) => RULER + row * view.pitch - view.scroller.scrollTop + ABOVE;

/** The events in sight, with those that are so near to it. */
function sightOf(view, near) {
  return { from: Math.max(0, Math.floor(momentAt(view, view.gutter - near))), to: Math.min(view.run.count, Math.ceil(momentAt(view, view.width + near))) };
}

/** The event at that place, or -1. */
function eventIn(view, x) {
  const at = Math.floor(momentAt(view, x + (view.step < 1 ? 0.5 : 0)));
  return x >= view.gutter && at >= 0 && at < view.run.count ? at : -1;
}

/** The lane at that height, or undefined. */
function laneIn(view, y) {
  if (y < RULER || y >= view.curvesTop) return undefined;
  return view.run.lanes[Math.floor((y - RULER + view.scroller.scrollTop) / view.pitch)];
}

/** Scrolls so that an event, and the lane that it is in, are in sight. */
function showEvent(view, at) {
  const { scroller } = view;
  const room = view.width - view.gutter - RIGHT;
  const x = at * view.step;
  const edge = Math.min(room / 4, 60);
  if (x < scroller.scrollLeft + edge || x + view.step > scroller.scrollLeft + room - edge) scroller.scrollLeft = x + view.step / 2 - room / 2;
  if (at < 0) return;
  const row = view.run.lanes.indexOf(laneOfEvent(view.run, at));
  const seen = view.curvesTop - RULER;
  if (row * view.pitch < scroller.scrollTop || (row + 1) * view.pitch > scroller.scrollTop + seen) scroller.scrollTop = (row + 0.5) * view.pitch - seen / 2;
}

/** Makes events so wide; what stands at `x` stays there. */
function zoomTo(view, step, x) {
  const moment = momentAt(view, x);
  view.step = step;
  layOut(view);
  view.scroller.scrollLeft = moment * view.step - (x - view.gutter);
  view.left = view.scroller.scrollLeft;
}

// ---- colours and letters

function readColours(view) {
  const style = getComputedStyle(document.documentElement);
  view.colours = Object.fromEntries(COLOURS.map((name) => [name, style.getPropertyValue(`--${name}`).trim()]));
  const tile = document.createElement("canvas");
  tile.width = tile.height = 8;
  const context = tile.getContext("2d");
  context.strokeStyle = view.colours.wait;
  context.globalAlpha = 0.6;
  context.lineWidth = 1.5;
  for (const shift of [-8, 0, 8]) {
    context.moveTo(shift, 8);
    context.lineTo(shift + 8, 0);
  }
  context.stroke();
  view.hatch = view.context.createPattern(tile, "repeat");
}

function write(view, words, x, y, colour, align = "left") {
  const { context } = view;
  context.fillStyle = colour;
  context.textAlign = align;
  context.fillText(words, x, y);
}

function box(view, colour, left, top, width, height) {
  view.context.fillStyle = colour;
  view.context.fillRect(left, top, width, height);
}

/** Strokes a path, or the one that was begun last. */
function stroke(view, colour, width, dashes = [], path = undefined) {
  const { context } = view;
  context.strokeStyle = colour;
  context.lineWidth = width;
  context.setLineDash(dashes);
  if (path) context.stroke(path);
  else context.stroke();
  context.setLineDash([]);
}

function line(view, colour, width, fromX, fromY, toX, toY, dashes) {
  view.context.beginPath();
  view.context.moveTo(fromX, fromY);
  view.context.lineTo(toX, toY);
  stroke(view, colour, width, dashes);
}
// The lanes of a picture: boxes of calls, waits and their holders, and words, as tiles where events share pixels.

// ---- tiles, where events share pixels

/** Draws a stretch of the run. */
function newTile(view, place, height, paint) {
  const canvas = document.createElement("canvas");
  canvas.width = Math.round(TILE * view.scale);
  canvas.height = Math.ceil(height * view.scale);
  const part = { ...view, context: canvas.getContext("2d"), gutter: 0, left: place * TILE, width: TILE };
  part.context.scale(view.scale, view.scale);
  part.sight = sightOf(part, TOUCH);
  paint(part);
  return canvas;
}

/** Draws what `paint` draws by stretches, which are kept, so that scrolling draws only what comes into sight. */
function drawTiles(view, name, top, height, paint) {
  const end = Math.min(view.left + view.width - view.gutter, view.run.count * view.step);
  for (let place = Math.floor(view.left / TILE); place * TILE < end; place++) {
    const key = `${name} ${place}`;
    if (!view.tiles.has(key)) view.tiles.set(key, newTile(view, place, height, paint));
    const tile = view.tiles.get(key);
    const left = snapped(view, view.gutter + place * TILE - view.left);
    const right = snapped(view, view.gutter + (place + 1) * TILE - view.left);
    view.context.drawImage(tile, left, snapped(view, top), right - left, tile.height / view.scale);
  }
}

/** Forgets tiles where they are out of date, or many. */
function keepTiles(view) {
  const key = [view.step, view.pitch, view.below, view.scale, view.colours.paper].join();
  if (key !== view.tilesOf || view.tiles.size > MOST_TILES) view.tiles.clear();
  view.tilesOf = key;
}

// ---- lanes

/** Calls `paint` for each span in sight, with its place in the lists and its edges. Of those that begin within a pixel and end there, it
 *  is called for the last. */
function eachSpan(view, { since, until }, paint) {
  const { from, to } = view.sight;
  for (let place = countBelow(until, from + 1); place < since.length && since[place] < to; place++) {
    const first = place;
    let left = xOf(view, since[place]);
    const pixel = Math.floor(left) + 1;
    if (xOf(view, until[place]) < pixel) {
      place = Math.max(place, countBelow(since, momentAt(view, pixel)) - 1);
      left = pixel - 1;
    }
    paint(place, left, Math.max(xOf(view, until[place]), left + 1), first);
  }
}

/** The boxes of calls; those of one colour that touch are painted at once where they are too narrow for edges. */
function drawStays(view, lane, top) {
  const { stays } = lane;
  const edge = view.step >= 4 ? 1 : 0;
  let open = null;
  const close = () => open && box(view, view.colours[open.operation], open.left, top, open.right - open.left, view.tall);
  eachSpan(view, stays, (place, left, right) => {
    const operation = stays.operation[place];
    if (open && edge === 0 && open.operation === operation && left <= open.right + 0.01) {
      open.right = Math.max(open.right, right);
      return;
    }
    close();
    open = { operation, left, right: right - edge };
  });
  close();
}

/** Whether waits take at least half of the pixel that they share. */
function areMostlyWaits(view, waits, first, last) {
  let sum = 0;
  for (let place = first; place <= last; place++) sum += waits.until[place] - waits.since[place];
  return sum * view.step >= 0.5;
}

/** The hatch over the boxes; where waits touch or share pixels it is painted at once. */
function drawHatch(view, lane, top) {
  const edges = new Path2D();
  let open = { left: 0, right: 0 };
  const close = () => box(view, view.hatch, open.left, top, open.right - open.left, view.tall);
  eachSpan(view, lane.waits, (place, left, right, first) => {
    if (right - left <= 1 && !areMostlyWaits(view, lane.waits, first, place)) return;
    if (right - left >= 6) edges.rect(left + 0.5, top + 0.5, right - left - 1, view.tall - 1);
    if (left <= open.right + 0.01) {
      open.right = Math.max(open.right, right);
    } else {
      close();
      open = { left, right };
    }
  });
  close();
  stroke(view, view.colours.wait, 1, [], edges);
}

/** The line from where a wait begins to the lane of the holder. */
function drawHolder(view, lane, place, left, top) {
  const { context, colours } = view;
  const row = view.run.lanes.indexOf(view.run.laneOf.get(lane.waits.holder[place]));
  if (row < 0) return;
  const isAbove = topOf(view, row) < top;
  const end = isAbove ? topOf(view, row) + view.tall : topOf(view, row);
  line(view, colours.wait, 1.5, left + 4, isAbove ? top : top + view.tall, left + 4, end);
  context.beginPath();
  context.arc(left + 4, end, 3, 0, 7);
  context.fillStyle = colours.wait;
  context.fill();
}

function drawWaits(view, lane, top) {
  drawHatch(view, lane, top);
  if (view.step < 4) return;
  eachSpan(view, lane.waits, (place, left) => {
    if (left >= view.gutter - 4) drawHolder(view, lane, place, left, top);
  });
}

/** Words of a thing of the run, which are made when they are first seen. */
function labelOf(view, key, make) {
  if (!view.labels.has(key)) view.labels.set(key, make());
  return view.labels.get(key);
}

/** Words in the midst of what is in sight of a box, upright where they have no other room. */
function writeIn(view, words, left, right, top, height) {
  const { context, colours, letter } = view;
  const from = Math.max(left, view.gutter);
  const to = Math.min(right, view.width);
  const room = words.length * letter + 4;
  if (to - from >= room) return write(view, words, (from + to) / 2, top + height / 2 + 4, colours.ink, "center");
  if (right - left < 12 || height < room || left < view.gutter) return undefined;
  context.save();
  context.translate((left + right) / 2 + 4, top + height / 2);
  context.rotate(-Math.PI / 2);
  write(view, words, 0, 0, colours.ink, "center");
  return context.restore();
}

const waitLabel = (view, lane, place) => {
  const { holder, wanted } = waitAt(view.run, lane, lane.waits.since[place]);
  const thing = wanted.lock === undefined ? `slot ${wanted.slot}` : `lock ${wanted.lock}`;
  return [`waits for ${holder}: ${thingWords(wanted)}`, `for ${holder}: ${thing}`, `for ${holder}`];
};

/** On a plate, for whom a task waits and for what, as there is room; whether there was. */
function writeWait(view, lane, place, left, right, top) {
  const from = Math.max(left, view.gutter);
  const room = (Math.min(right, view.width) - from - 14) / view.letter;
  if (room < 5) return;
  const words = labelOf(view, `wait ${lane.task} ${place}`, () => waitLabel(view, lane, place)).find((it) => it.length <= room);
  if (!words) return;
  const y = top + view.tall - 14;
  box(view, view.colours.paper, from + 9, y - 1, words.length * view.letter + 4, 13);
  write(view, words, from + 11, y + 9, view.colours.wait);
}

function writePhases(view, lane, top) {
  const { stays } = lane;
  eachSpan(view, stays, (place, left, right) => {
    if (right - left < 12) return;
    const isHatched = waitsIn(lane, stays.since[place], stays.until[place]);
    writeIn(view, stays.phase[place], left, right, top, isHatched ? view.tall - 15 : view.tall);
  });
}

/** Whether the lane's task waits between two moments. */
function waitsIn(lane, from, to) {
  const place = countBelow(lane.waits.until, from + 1);
  return place < lane.waits.since.length && lane.waits.since[place] < to;
}

function callLabel(run, lane, place) {
  const words = callWords(eventAt(run, lane.calls.since[place]));
  if (!lane.calls.isOver[place]) return [words];
  return [`${words}: ${outcomeWords(eventAt(run, lane.calls.until[place])).replace("ended ", "")}`, words];
}

function writeCalls(view, lane, top) {
  eachSpan(view, lane.calls, (place, left, right) => {
    const from = Math.max(left, view.gutter);
    const room = (Math.min(right, view.width) - from) / view.letter;
    if (room < 4) return;
    const words = labelOf(view, `call ${lane.task} ${place}`, () => callLabel(view.run, lane, place)).find((it) => it.length <= room);
    if (words) write(view, words, from + 1, top - 4, view.colours.ink);
  });
}

/** What of a lane has no words, where events share pixels. */
function drawShared(view, lane) {
  drawStays(view, lane, ABOVE);
  drawHatch(view, lane, ABOVE);
  for (const kind of MARKS) drawMarks(view, lane, kind, ABOVE);
}

const isTiled = (view, lane) => view.step < CURVED && lane.events.length > FEW_EVENTS;

function drawLane(view, lane, top) {
  const left = Math.max(view.gutter, xOf(view, 0));
  box(view, view.colours.lane, left, top, Math.min(view.width, xOf(view, view.run.count)) - left, view.tall);
  if (isTiled(view, lane)) return drawTiles(view, lane.name, top - ABOVE, view.pitch, (part) => drawShared(part, lane));
  drawStays(view, lane, top);
  if (view.step < CURVED) drawHatch(view, lane, top);
  return undefined;
}

function writeLane(view, lane, top) {
  if (view.step >= CURVED) writePhases(view, lane, top);
  writeCalls(view, lane, top);
  eachSpan(view, lane.waits, (place, left, right) => writeWait(view, lane, place, left, right, top));
  if (!isTiled(view, lane)) for (const kind of MARKS) drawMarks(view, lane, kind, top);
}

/** Calls `paint` with each lane in sight, and where its boxes begin. */
function eachLane(view, paint) {
  view.run.lanes.forEach((lane, row) => {
    const top = topOf(view, row);
    if (top - ABOVE < view.curvesTop && top + view.tall + BELOW > RULER) paint(lane, top);
  });
}

/** The boxes, over them the waits, whose lines may lead from lane to lane, and over these the words. */
function drawLanes(view) {
  eachLane(view, (lane, top) => drawLane(view, lane, top));
  if (view.step >= CURVED) view.run.lanes.forEach((lane, row) => drawWaits(view, lane, topOf(view, row)));
  eachLane(view, (lane, top) => writeLane(view, lane, top));
}
// The marks of a picture, in its lanes and down all of it.

/** Adds the lines between corners, which are given as pairs, round a place. */
function addLines(path, x, y, corners, isClosed) {
  corners.forEach(([right, down], place) => (place === 0 ? path.moveTo(x + right, y + down) : path.lineTo(x + right, y + down)));
  if (isClosed) path.closePath();
}

const SHAPES = {
  blocked: (path, x, y) => addLines(path, x, y, [[-4, 0], [4, 0]], false),
  refused: (path, x, y) => { path.moveTo(x + 4, y); path.arc(x, y, 4, 0, 7); },
  denied: (path, x, y) => addLines(path, x, y, [[-5, -4], [5, -4], [0, 5]], true),
  killed: (path, x, y) => { addLines(path, x, y, [[-4, -4], [4, 4]], false); addLines(path, x, y, [[4, -4], [-4, 4]], false); },
  failed: (path, x, y) => addLines(path, x, y, [[0, -5], [5, 0], [0, 5], [-5, 0]], true),
};
const FILLED = new Set(["denied", "failed"]);

function drawShapes(view, lane, kind, first, last, y) {
  const path = new Path2D();
  for (let place = first; place < last; place++) SHAPES[kind](path, xOf(view, lane.marks[kind][place]) + view.step / 2, y);
  if (!FILLED.has(kind)) return stroke(view, view.colours[kind], kind === "blocked" ? 3 : 2, [], path);
  view.context.fillStyle = view.colours[kind];
  view.context.fill(path);
  return stroke(view, view.colours.paper, 1, [], path);
}

/** Where marks are too many for their shapes: a tick in each pixel, as high as is their share of the lane's events there. */
function drawTicks(view, lane, kind, first, last, y) {
  const marks = lane.marks[kind];
  const path = new Path2D();
  for (let place = first; place < last; ) {
    const x = Math.floor(xOf(view, marks[place]));
    const end = momentAt(view, x + 1);
    const next = Math.max(place + 1, countBelow(marks, end));
    const events = countBelow(lane.events, end) - countBelow(lane.events, momentAt(view, x));
    const high = 2 + 8 * Math.min(1, (next - place) / Math.max(events, 1));
    path.rect(x, y - high / 2, 1, high);
    place = next;
  }
  view.context.fillStyle = view.colours[kind];
  view.context.fill(path);
}

function drawMarks(view, lane, kind, top) {
  const marks = lane.marks[kind];
  const first = countBelow(marks, view.sight.from);
  const last = countBelow(marks, view.sight.to);
  if (kind === "resized" || first === last) return;
  const y = kind === "failed" ? top + view.tall / 2 : top + view.tall + 8;
  const areShaped = view.step >= SHAPED || marks.length * 20 <= view.run.count * view.step;
  (areShaped ? drawShapes : drawTicks)(view, lane, kind, first, last, y);
}

/** Dashed lines down the picture; the numbers of frames beside them, where they have room. */
function drawResizes(view) {
  const lane = view.run.laneOf.get(0);
  const marks = lane?.marks.resized ?? [];
  const first = countBelow(marks, view.sight.from);
  const last = countBelow(marks, view.sight.to);
  let previous = -Infinity;
  for (let place = first; place < last; place++) {
    const x = Math.round(xOf(view, marks[place])) + 0.5;
    if (x === previous) continue;
    line(view, view.colours.resized, view.step < CURVED ? 0.7 : 1.5, x, RULER, x, view.height, [5, 3]);
    if (x - previous >= 36) {
      const frames = labelOf(view, `resize ${marks[place]}`, () => frameWords(eventAt(view.run, marks[place])));
      box(view, view.colours.paper, x + 2, RULER + 1, frames.length * view.letter + 4, 13);
      write(view, frames, x + 4, RULER + 11, view.colours.resized);
    }
    previous = x;
  }
}

const frameWords = (event) => `${event.number ?? event.frames}`;
// The curves of a picture: the pool's counts behind each event.

const PANELS = [
  { curves: ["free", "resv", "used"], widths: [1.5, 2.5, 1.5] },
  { curves: ["resv", "bare"], widths: [2.5, 1.5] },
];

/** Where the two panels of curves stand, and how much they show. A quota that is far above the counts isn't shown. */
function panelsOf(view) {
  const { counts, pool } = view.run;
  const most = Math.max(1, counts.free.top, counts.resv.top, counts.used.top);
  const isNear = pool.quota !== undefined && pool.quota <= 4 * most;
  const tops = [isNear ? Math.max(most, pool.quota) : most, Math.max(1, counts.resv.top, counts.bare.top)];
  const height = (view.below - 52) / 2;
  return PANELS.map((panel, place) => ({ ...panel, most: tops[place], height, base: view.curvesTop + 16 + height + place * (height + 20) }));
}

const levelOf = (panel, count) => panel.base - (count * panel.height) / panel.most;

function drawLine(view, panel, { values }, colour, width, dashes) {
  const { context, sight } = view;
  if (sight.from >= sight.to) return;
  context.beginPath();
  context.moveTo(xOf(view, sight.from), levelOf(panel, values[sight.from]));
  for (let at = sight.from; at < sight.to; at++) {
    if (at + 1 < sight.to && values[at + 1] === values[at]) continue;
    context.lineTo(xOf(view, at + 1), levelOf(panel, values[at]));
    if (at + 1 < sight.to) context.lineTo(xOf(view, at + 1), levelOf(panel, values[at + 1]));
  }
  stroke(view, colour, width, dashes);
}

/** Where events share pixels: from the least to the greatest value in each. Pixels with the same are painted at once. */
function drawBand(view, panel, series, colour) {
  const end = Math.min(view.width, xOf(view, view.run.count));
  let open = null;
  const close = (x) => {
    if (!open) return;
    const [top, foot] = [levelOf(panel, open.greatest) - 0.75, levelOf(panel, open.least) + 0.75];
    box(view, colour, open.x, top, x - open.x, foot - top);
  };
  view.context.globalAlpha = 0.7;
  for (let x = Math.max(view.gutter, Math.floor(xOf(view, 0))); x < end; x++) {
    const from = Math.max(0, Math.floor(momentAt(view, x)));
    const to = Math.min(view.run.count, Math.max(from + 1, Math.floor(momentAt(view, x + 1))));
    if (from >= to) continue;
    // (a step up or down leads from the value before)
    const [least, greatest] = rangeOf(series, Math.max(from - 1, 0), to);
    if (open && least === open.least && greatest === open.greatest) continue;
    close(x);
    open = { x, least, greatest };
  }
  close(Math.ceil(end));
  view.context.globalAlpha = 1;
}

/** What is owed: the place between the reserve count and the reserved indices without a page, and the number below it. */
function drawOwed(view, panel) {
  const { resv, bare, owed } = view.run.columns;
  for (let at = view.sight.from; at < view.sight.to; at++) {
    if (owed[at] === 0) continue;
    const [one, other] = [levelOf(panel, resv[at]), levelOf(panel, bare[at])];
    box(view, view.colours.owed, xOf(view, at), Math.min(one, other), view.step, Math.abs(one - other));
    if (view.step >= 18) write(view, `${owed[at]}`, xOf(view, at) + view.step / 2, panel.base + 13, view.colours.sum, "center");
  }
}

function drawLevels(view, panel) {
  const end = Math.min(view.width, xOf(view, view.run.count));
  for (const count of [0, panel.most]) {
    const y = Math.round(levelOf(panel, count)) + 0.5;
    line(view, view.colours.grid, 1, view.gutter, y, end, y);
    write(view, `${count}`, view.gutter - 5, y + 3, view.colours.soft, "right");
  }
}

function drawQuota(view, panel) {
  const { quota } = view.run.pool;
  if (quota === undefined || quota > panel.most) return;
  const y = Math.round(levelOf(panel, quota)) + 0.5;
  line(view, view.colours.used, 1.5, view.gutter, y, Math.min(view.width, xOf(view, view.run.count)), y, [2, 3]);
  const words = `quota ${quota}`;
  box(view, view.colours.paper, view.gutter + 6, y + 2, words.length * view.letter + 4, 12);
  write(view, words, view.gutter + 8, y + 12, view.colours.used);
}

function curvesOf(view, panel) {
  return panel.curves.filter((name) => name !== "used" || view.run.pool.quota !== undefined);
}

/** The bands of a panel, where events share pixels. */
function drawBands(view, panel) {
  view.context.translate(0, -view.curvesTop);
  for (const name of curvesOf(view, panel)) drawBand(view, panel, view.run.counts[name], view.colours[name]);
}

function drawPanel(view, panel) {
  const isLower = panel.curves.includes("bare");
  if (!isLower) drawQuota(view, panel);
  if (view.step < CURVED) return drawTiles(view, panel.curves.join(), view.curvesTop, view.below, (part) => drawBands(part, panel));
  if (isLower) drawOwed(view, panel);
  curvesOf(view, panel).forEach((name, place) => {
    drawLine(view, panel, view.run.counts[name], view.colours[name], panel.widths[place], name === "bare" ? [4, 3] : []);
  });
  return undefined;
}

function drawCurves(view) {
  box(view, view.colours.paper, 0, view.curvesTop, view.width, view.below);
  line(view, view.colours.grid, 1, 0, view.curvesTop + 0.5, view.width, view.curvesTop + 0.5);
  view.panels = panelsOf(view);
  view.panels.forEach((panel) => drawLevels(view, panel));
  clipped(view, view.gutter, view.curvesTop, view.width, view.below, () => view.panels.forEach((panel) => drawPanel(view, panel)));
}
// The picture: what is in sight of a run, on a canvas, and no more.

function clipped(view, left, top, width, height, paint) {
  const { context } = view;
  context.save();
  context.beginPath();
  context.rect(left, top, width, height);
  context.clip();
  paint();
  context.restore();
}

/** Each how many lines has its number, so that numbers don't touch: 1, 2, 5, 10 and so on. */
function tickOf(view) {
  const least = (`${view.run.count}`.length * view.letter + 16) / view.step;
  const power = 10 ** Math.floor(Math.log10(Math.max(least, 1)));
  return [1, 2, 5, 10].map((it) => it * power).find((it) => it >= least);
}

function drawGrid(view) {
  const tick = tickOf(view);
  const first = Math.ceil(lineOf(view.sight.from) / tick) * tick;
  for (let number = first; number - 2 < view.sight.to; number += tick) {
    const x = Math.round(xOf(view, number - 2)) + 0.5;
    if (number >= 2 && x >= view.gutter) line(view, view.colours.grid, 1, x, RULER - 4, x, view.height);
  }
}

function drawRuler(view) {
  const { colours, sight } = view;
  box(view, colours.paper, 0, 0, view.width, RULER);
  const tick = tickOf(view);
  for (let number = Math.ceil(lineOf(sight.from) / tick) * tick; number - 2 < sight.to; number += tick) {
    const x = xOf(view, number - 2) + Math.max(view.step / 2, 1);
    if (number >= 2 && x >= view.gutter) write(view, `${number}`, x, 15, colours.soft, "center");
  }
}

/** A tick at each match. */
function drawFound(view) {
  const found = view.found ?? [];
  let previous = -1;
  for (let place = countBelow(found, view.sight.from); place < found.length && found[place] < view.sight.to; place++) {
    const x = Math.floor(xOf(view, found[place]) + view.step / 2);
    if (x > previous) box(view, view.colours.accent, x - 1, RULER - 6, 2, 6);
    previous = x;
  }
}

/** The picked event, from its number down the picture. */
function drawPicked(view) {
  const { context, colours } = view;
  if (view.picked < 0) return;
  const left = xOf(view, view.picked);
  if (left + view.step < view.gutter || left > view.width) return;
  const width = Math.max(view.step, 2);
  context.globalAlpha = 0.16;
  box(view, colours.accent, left, RULER, width, view.height - RULER);
  context.globalAlpha = 1;
  for (const x of view.step >= 4 ? [left, left + width] : [left + width / 2]) line(view, colours.accent, 1, x, RULER, x, view.height);
  const words = `${lineOf(view.picked)}`;
  const room = words.length * view.letter + 8;
  const middle = Math.min(Math.max(left + width / 2, view.gutter + room / 2), view.width - room / 2);
  box(view, colours.accent, middle - room / 2, 3, room, 16);
  write(view, words, middle, 15, colours["on-accent"], "center");
}

function drawNames(view) {
  const { colours, context } = view;
  box(view, colours.paper, 0, RULER, view.gutter, view.curvesTop - RULER);
  view.run.lanes.forEach((lane, row) => {
    const y = topOf(view, row) + view.tall / 2;
    if (y < RULER - 20 || y > view.curvesTop + 20) return;
    context.font = `bold ${LETTERS}`;
    write(view, lane.name, 8, y + 4, colours.ink);
    context.font = LETTERS;
  });
}

/** The names of the curves, with the counts behind the picked event. */
function drawLegend(view) {
  const { colours, run } = view;
  const behind = countsAt(run, view.picked);
  const entries = [["free", "free"], ["resv", "resv"], ...(run.pool.quota === undefined ? [] : [["used", "used"]])];
  const lower = [["resv", "resv"], ["bare", "no page"], ["owed", "owed"]];
  [entries, lower].forEach((list, place) => {
    const panel = view.panels[place];
    const pitch = Math.min(14, panel.height / 3);
    const from = panel.base - panel.height / 2 - ((list.length - 1) * pitch) / 2 + 4;
    list.forEach(([name, words], row) => {
      const y = from + row * pitch;
      box(view, colours[name], 6, y - (name === "owed" ? 7 : 5), 10, name === "owed" ? 8 : name === "resv" ? 3 : 2);
      write(view, `${words} ${behind[name]}`, 20, y, colours.ink);
    });
  });
}

/** Draws what is in sight. */
function drawPicture(view) {
  const { context, run } = view;
  if (!run || view.width === 0) return;
  view.left = view.scroller.scrollLeft;
  context.setTransform(view.scale, 0, 0, view.scale, 0, 0);
  context.font = LETTERS;
  view.sight = sightOf(view, 0);
  keepTiles(view);
  box(view, view.colours.paper, 0, 0, view.width, view.height);
  clipped(view, view.gutter, RULER, view.width, view.curvesTop - RULER, () => {
    drawGrid(view);
    drawLanes(view);
  });
  drawCurves(view);
  drawRuler(view);
  clipped(view, view.gutter, 0, view.width, view.height, () => {
    drawFound(view);
    drawResizes(view);
    drawPicked(view);
  });
  clipped(view, 0, RULER, view.gutter, view.curvesTop - RULER, () => drawNames(view));
  drawLegend(view);
}
"###;
