//! Of a page, the help on the picture, which the library's page has, too.

/// Of a page, the help on the picture, which the library's page has, too.
pub(crate) const HELP: &str = r###"  <h2 id="help-title">The picture</h2>
  <p>Time runs to the right, one step for each event. The numbers at the top are lines of the trace. Each task that the trace mentions has a
    lane; the lane <i>pool</i> has resizes, and events of tasks that the pool doesn't have. Below the lanes are the counts after each event.
    The legend above explains colours, marks and curves.</p>
  <p>A box is a call in a phase, in the colour of the call. If several boxes share a pixel, it has the colour of the last one, and a hatch if
    waits take at least half of it. If marks are too close for their shapes, a bar stands for them: the more of the events there they mark,
    the higher it is. If events share pixels, a curve is a band from its least to its greatest value there, and what calls owe isn't
    filled.</p>
  <h2>Keys</h2>
  <dl class="keys">
    <dt><kbd>&larr;</kbd> <kbd>&rarr;</kbd></dt><dd>the event before, the next event</dd>
    <dt><kbd>&uarr;</kbd> <kbd>&darr;</kbd></dt><dd>the event before, the next event, of the same task</dd>
    <dt><kbd>Page Up</kbd> <kbd>Page Down</kbd></dt><dd>a screen back, a screen on</dd>
    <dt><kbd>Home</kbd> <kbd>End</kbd></dt><dd>the first event, the last event</dd>
    <dt><kbd>+</kbd> <kbd>-</kbd> <kbd>0</kbd></dt><dd>zoom in, out, to the whole run; also Ctrl with the wheel, or two fingers</dd>
    <dt><kbd>/</kbd></dt><dd>to the search field</dd>
    <dt><kbd>n</kbd> <kbd>p</kbd></dt><dd>the next match, the match before</dd>
    <dt><kbd>Esc</kbd></dt><dd>closes this help; from a field back to the picture</dd>
    <dt><kbd>?</kbd></dt><dd>this help</dd>
  </dl>
  <h2>Search</h2>
  <p>An event matches if its row has all the words: of the event (<i>begin</i>, <i>step</i>, <i>deny</i>, <i>kill</i>, <i>resize</i>), of the
    call that it begins (<i>punch</i>), of its outcome (<i>blocked</i>), its phase (<i>taken</i>), its answer (<i>beyond</i>), its reason
    (<i>incall</i>), or of Linux's function for its phase (<i>region_chg</i>). <i>waits</i> matches where a wait begins, changes or ends.
    <i>task 3</i>, <i>file 0</i>, <i>index 2</i> and <i>line 120</i> match numbers, and <i>of store</i> all events of such calls:
    <i>of store task 3 blocked</i>.</p>
"###;

/// What begins the help.
pub(crate) const HELP_BEGIN: &str =
    r###"<section id="help" class="own-keys" aria-labelledby="help-title" hidden>
"###;
