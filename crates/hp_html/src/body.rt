//! Of a page, the picture, and what stands beside it.

/// Of a page, the picture, and what stands beside it.
pub(crate) const BODY: &str =
    r###"  <p>The address of the page ends with the picked line, <i>#line=120</i>, so it leads back there.</p>
</section>
<main id="main" hidden>
  <div id="picture" tabindex="0" role="application" aria-label="The run, drawn: arrow keys pick an event, which is described beside" aria-describedby="row">
    <div id="extent"><canvas id="canvas" aria-hidden="true"></canvas></div>
  </div>
  <aside class="own-keys" aria-label="The picked event">
    <h2 id="row" aria-live="polite"></h2>
    <p id="done"></p>
    <dl id="counts"></dl>
    <h3>Who waits for whom</h3>
    <ul id="waits"></ul>
    <h3>Calls in flight</h3>
    <div id="calls"></div>
    <h3>Rows nearby</h3>
    <div class="scroll"><table aria-label="Rows nearby">
      <thead><tr><th scope="col">line</th><th scope="col">event</th><th scope="col">outcome</th></tr></thead>
      <tbody id="rows"></tbody>
    </table></div>
    <details id="end"><summary>The state at the end of the run</summary><div id="state" class="scroll"></div></details>
  </aside>
</main>
<script>
"use strict";
"###;
