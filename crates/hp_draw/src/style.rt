//! How the picture looks: the colours, by light and by dark.

/// The looks of each class, and the hatch of what waits.
pub(crate) const STYLE: &str = "<style>
text{font:10px ui-monospace,Menlo,Consolas,'DejaVu Sans Mono',monospace;fill:#222;pointer-events:none}
.background{fill:#fff}
.lane{fill:#f3f3f5}
.grid{stroke:#dcdce2;fill:none}
.name{font-size:12px;font-weight:bold}
.number{fill:#777;text-anchor:end}
.at{fill:#777;text-anchor:middle}
.in{text-anchor:middle}
.call{font-weight:bold}
.stay{stroke:#fff;stroke-width:1}
.map{fill:#a9cdee}
.mapn{fill:#93d8cd}
.unmap{fill:#cdbfec}
.load{fill:#c0e2a8}
.store{fill:#f7d778}
.alloc{fill:#f6b78c}
.punch{fill:#f5adbc}
.trunc{fill:#dfb0df}
.exit{fill:#cccccc}
.held{fill:url(#hatch);stroke:#b00020;stroke-width:1}
.hatch{stroke:#b00020;stroke-width:1.5;stroke-opacity:.55}
.wait{stroke:#b00020;stroke-width:1.5;fill:none}
.holder{fill:#b00020}
.killed{stroke:#d00000;stroke-width:2.5;fill:none}
.denied{fill:#e07000}
.blocked{stroke:#b00020;stroke-width:3;fill:none}
.failed{fill:#b00020;stroke:#fff;stroke-width:1}
.refused{stroke:#777;stroke-width:1.5;fill:none}
.resized{stroke:#0a7a5a;stroke-width:1.5;stroke-dasharray:5 3;fill:none}
.free{stroke:#1f7a34;stroke-width:1.5;fill:none}
.resv{stroke:#1257b0;stroke-width:2.5;fill:none}
.bare{stroke:#d05a00;stroke-width:1.5;stroke-dasharray:4 3;fill:none}
.used{stroke:#8a6d00;stroke-width:1.5;fill:none}
.quota{stroke:#8a6d00;stroke-width:1.5;stroke-dasharray:2 3;fill:none}
.owed{fill:#9b4dca;fill-opacity:.35}
.sum{fill:#7a2fb0;text-anchor:middle;font-size:8px}
.hit{fill-opacity:0}
.hit:hover{fill:#888;fill-opacity:.15}
@media (prefers-color-scheme:dark){
text{fill:#e6e6ea}
.background{fill:#16161a}
.lane{fill:#202027}
.grid{stroke:#34343d}
.number,.at{fill:#9a9aa5}
.stay{stroke:#16161a}
.map{fill:#2b5f92}
.mapn{fill:#1d7167}
.unmap{fill:#5d4b9c}
.load{fill:#417a2e}
.store{fill:#7f6506}
.alloc{fill:#93501d}
.punch{fill:#93374e}
.trunc{fill:#80407f}
.exit{fill:#5c5c62}
.held{stroke:#ff6b7d}
.hatch,.wait{stroke:#ff6b7d}
.holder{fill:#ff6b7d}
.killed{stroke:#ff5050}
.denied{fill:#ff9a3c}
.blocked{stroke:#ff6b7d}
.failed{fill:#ff6b7d;stroke:#16161a}
.refused{stroke:#9a9aa5}
.resized{stroke:#3fd0a0}
.free{stroke:#5ec878}
.resv{stroke:#6aa9ff}
.bare{stroke:#ff9a4d}
.used,.quota{stroke:#d9b93b}
.owed{fill:#b980e6}
.sum{fill:#cfa3f2}
}
</style>
<defs><pattern id='hatch' width='6' height='6' patternUnits='userSpaceOnUse' patternTransform='rotate(45)'><path class='hatch' d='M0 0V6'/></pattern></defs>
";
