//! Of a page, the style of the rest.

/// Of a page, the style of the rest.
pub(crate) const PAGE_STYLE: &str = r###"/* The page around a picture. */
:root {
  color-scheme: light dark;
  --ink: #222; --soft: #666; --paper: #fff; --accent: #1257b0; --on-accent: #fff; --alarm: #b00020; --alarm-ground: #fdeef0;
}
@media (prefers-color-scheme: dark) {
  :root { --ink: #e6e6ea; --soft: #9a9aa5; --paper: #16161a; --accent: #6aa9ff; --on-accent: #10151d; --alarm: #ff6b7d; --alarm-ground: #3a1a20; }
}
* { box-sizing: border-box; }
html { height: 100%; }
body {
  margin: 0; height: 100vh; height: 100dvh; display: flex; flex-direction: column; color: var(--ink); background: var(--paper);
  font: 14px/1.45 system-ui, sans-serif;
}
h1 { font-size: 16px; margin: 0; }
h2 { font-size: 15px; margin: 0 0 4px; }
h3 { font-size: 12px; font-weight: 600; margin: 14px 0 4px; color: var(--soft); }
p { margin: 0 0 8px; }
code, td, #row, #waits, #counts dd, #done { font-family: ui-monospace, Menlo, Consolas, "DejaVu Sans Mono", monospace; }
header { display: flex; flex-wrap: wrap; gap: 0 14px; align-items: baseline; padding: 8px 14px 0; }
header p { margin: 0; color: var(--soft); }
.alarm { margin: 8px 14px 0; padding: 6px 10px; color: var(--alarm); background: var(--alarm-ground); border-left: 3px solid var(--alarm); }

/* tools */
#tools { display: flex; flex-wrap: wrap; gap: 6px 18px; align-items: center; padding: 8px 14px; border-bottom: 1px solid var(--grid); }
#tools > div, #search { display: flex; flex-wrap: wrap; gap: 4px; align-items: center; }
button, input { font: inherit; font-size: 13px; color: inherit; background: var(--lane); border: 1px solid var(--grid); border-radius: 5px; padding: 2px 9px; }
button { cursor: pointer; white-space: nowrap; }
button:hover { border-color: var(--accent); }
input { background: var(--paper); }
label { font-size: 13px; color: var(--soft); }
#line { width: 92px; }
#query { width: 190px; }
#found { font-size: 13px; color: var(--soft); min-width: 9ch; }
:focus-visible { outline: 2px solid var(--accent); outline-offset: 1px; }

body > #legend { padding: 5px 14px; border-bottom: 1px solid var(--grid); }

/* the picture, and what stands beside it */
main { flex: 1; min-height: 0; display: grid; grid-template-columns: minmax(0, 1fr) 390px; }
aside { overflow: auto; padding: 12px 14px 24px; border-left: 1px solid var(--grid); }
#row { overflow-wrap: anywhere; }
#done { overflow-wrap: anywhere; color: var(--soft); }
#counts { display: flex; flex-wrap: wrap; gap: 4px 18px; margin: 0; }
#counts div { display: flex; flex-direction: column-reverse; }
#counts dt { font-size: 12px; color: var(--soft); }
#counts dd { margin: 0; font-size: 18px; font-variant-numeric: tabular-nums; }
#waits { list-style: none; margin: 0; padding: 0; font-size: 13px; max-height: 10em; overflow: auto; }
#waits ul { list-style: none; margin: 0; padding: 0 0 0 14px; }
#waits details { margin: 0; }
#waits summary { color: inherit; }
#waits li { color: var(--wait); padding: 1px 0; }
#waits li.none { color: var(--soft); }
.call { border-left: 4px solid var(--grid); padding: 1px 0 1px 8px; margin: 0 0 8px; }
.call.is-picked { background: var(--lane); }
.call p { margin: 0; font-size: 13px; }
.call dl, .keys { display: grid; grid-template-columns: max-content minmax(0, 1fr); gap: 0 10px; margin: 0; font-size: 13px; }
.call dt { color: var(--soft); }
.call dd, .keys dd { margin: 0; overflow-wrap: anywhere; }
.link { border: 0; background: none; padding: 0; color: var(--accent); text-decoration: underline; font: inherit; text-align: left; white-space: normal; }
.soft { color: var(--soft); font-size: 13px; }
.scroll { overflow-x: auto; }
table { border-collapse: collapse; width: 100%; font-size: 12.5px; }
th { text-align: left; font-weight: 500; color: var(--soft); padding: 0 10px 2px 0; }
td { padding: 2px 10px 2px 0; border-top: 1px solid var(--grid); vertical-align: top; }
tr[aria-current] td { background: var(--lane); box-shadow: inset 0 1px var(--accent), inset 0 -1px var(--accent); }
details { margin-top: 14px; }
summary { cursor: pointer; color: var(--accent); }

/* help */
#help { padding: 12px 14px; border-bottom: 1px solid var(--grid); max-height: 60vh; overflow: auto; flex: none; }
#help p, #help .keys { max-width: 110ch; margin-bottom: 10px; }
@media (max-width: 900px) {
  body { height: auto; min-height: 100%; }
  main { display: block; }
  #picture { height: 62vh; height: 62dvh; min-height: 300px; border-bottom: 1px solid var(--grid); }
  aside { border-left: 0; }
  #tools { padding: 8px 10px; gap: 6px 12px; }
  header { padding: 8px 10px 0; }
  #help { max-height: none; }
}
"###;
