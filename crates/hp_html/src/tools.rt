//! Of a page, the buttons above the picture.

/// Of a page, the buttons above the picture.
pub(crate) const TOOLS: &str = r###"</style>
</head>
<body>
<header>
  <h1>Kirvessa</h1>
  <p id="sizes">The run is being read. If this stays, the page was cut short.</p>
</header>
<p id="notice" class="alarm" role="alert" hidden></p>
<noscript><p class="alarm">This page draws the run by JavaScript, which is switched off here. hugepool explain prints it as text.</p></noscript>
<div id="tools" hidden>
  <div role="group" aria-label="Zoom and help">
    <button type="button" id="whole" title="The whole run (key 0)">whole run</button>
    <button type="button" id="out" title="Events half as wide (key -)" aria-label="Zoom out">&minus;</button>
    <button type="button" id="in" title="Events twice as wide (key +)" aria-label="Zoom in">+</button>
    <button type="button" id="ask" aria-expanded="false" aria-controls="help" title="How to read and move the picture (key ?)">help</button>
  </div>
  <div role="group" aria-label="Picked event">
    <button type="button" id="back" title="An event back (left arrow)">&lsaquo; back</button>
    <button type="button" id="on" title="An event on (right arrow)">on &rsaquo;</button>
    <button type="button" id="task-back" title="The same task's event before (up arrow)">&laquo; task</button>
    <button type="button" id="task-on" title="The same task's next event (down arrow)">task &raquo;</button>
    <label>line <input id="line" type="number" min="2" inputmode="numeric"></label>
  </div>
"###;

/// What ends the box of these buttons, behind the search field.
pub(crate) const TOOLS_END: &str = r###"</div>
"###;
