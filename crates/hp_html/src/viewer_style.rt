//! Of a page, the style of the picture and its legend, which the library's page has, too.

/// Of a page, the style of the picture and its legend, which the library's page has, too.
pub(crate) const VIEWER_STYLE: &str =
    r###"/* The picture of a run and its legend, as both pages have them; each page has its own ink, paper and accent. */
:root {
  --lane: #f3f3f5; --grid: #dcdce2;
  --map: #a9cdee; --mapn: #93d8cd; --unmap: #cdbfec; --load: #c0e2a8; --store: #f7d778; --alloc: #f6b78c; --allock: #f6b78c; --punch: #f5adbc;
  --trunc: #dfb0df; --exit: #ccc;
  --wait: #b00020; --blocked: #b00020; --refused: #777; --denied: #e07000; --killed: #d00000; --failed: #b00020; --resized: #0a7a5a;
  --free: #1f7a34; --resv: #1257b0; --bare: #d05a00; --used: #8a6d00; --owed: #9b4dca59; --sum: #7a2fb0;
}
@media (prefers-color-scheme: dark) {
  :root {
    --lane: #202027; --grid: #34343d;
    --map: #2b5f92; --mapn: #1d7167; --unmap: #5d4b9c; --load: #417a2e; --store: #7f6506; --alloc: #93501d; --allock: #93501d; --punch: #93374e;
    --trunc: #80407f; --exit: #5c5c62;
    --wait: #ff6b7d; --blocked: #ff6b7d; --refused: #9a9aa5; --denied: #ff9a3c; --killed: #ff5050; --failed: #ff6b7d; --resized: #3fd0a0;
    --free: #5ec878; --resv: #6aa9ff; --bare: #ff9a4d; --used: #d9b93b; --owed: #b980e659; --sum: #cfa3f2;
  }
}
[hidden] { display: none !important; }

/* the picture */
#picture { overflow: auto; touch-action: pan-x pan-y; overscroll-behavior: contain; position: relative; }
#picture:focus-visible { outline-offset: -2px; }
#extent { position: relative; }
#canvas { position: sticky; left: 0; top: 0; display: block; }

/* the legend */
#legend { list-style: none; display: flex; flex-wrap: wrap; gap: 1px 14px; margin: 0; padding: 0; font-size: 12px; color: var(--soft); }
#legend li { display: flex; gap: 5px; align-items: center; }
#legend li span:not(.swatch) { margin-left: -5px; }
#legend:not(.is-long) .more { display: none; }
#legend svg { flex: none; fill: none; overflow: hidden; }
.swatch { width: 14px; height: 12px; flex: none; background: var(--exit); }
.swatch.map { background: var(--map); }
.swatch.mapn { background: var(--mapn); }
.swatch.unmap { background: var(--unmap); }
.swatch.load { background: var(--load); }
.swatch.store { background: var(--store); }
.swatch.alloc { background: var(--alloc); }
.swatch.punch { background: var(--punch); }
.swatch.trunc { background: var(--trunc); }
.swatch.owed { background: var(--owed); }
#legend .held, #legend .hatch { stroke: var(--wait); }
#legend .blocked { stroke: var(--blocked); stroke-width: 3; }
#legend .failed { fill: var(--failed); }
#legend .denied { fill: var(--denied); }
#legend .killed { stroke: var(--killed); stroke-width: 2; }
#legend .refused { stroke: var(--refused); stroke-width: 2; }
#legend .resized { stroke: var(--resized); stroke-width: 1.5; stroke-dasharray: 3 2; }
#legend .free { stroke: var(--free); stroke-width: 1.5; }
#legend .resv { stroke: var(--resv); stroke-width: 2.5; }
#legend .bare { stroke: var(--bare); stroke-width: 1.5; stroke-dasharray: 4 3; }
#legend .used { stroke: var(--used); stroke-width: 1.5; }
kbd { font: 12px ui-monospace, Menlo, Consolas, monospace; border: 1px solid var(--grid); border-radius: 4px; padding: 0 5px; background: var(--lane); }
"###;
