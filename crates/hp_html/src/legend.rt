//! Of a page, the legend, which the library's page has, too.

/// Of a page, the legend, which the library's page has, too.
pub(crate) const LEGEND: &str = r###"<ul id="legend" aria-label="Legend of the picture">
  <li><span class="swatch map"></span>map</li>
  <li><span class="swatch mapn"></span>mapn</li>
  <li><span class="swatch unmap"></span>unmap</li>
  <li><span class="swatch load"></span>load</li>
  <li><span class="swatch store"></span>store</li>
  <li><span class="swatch alloc"></span>alloc, allock</li>
  <li><span class="swatch punch"></span>punch</li>
  <li><span class="swatch trunc"></span>trunc</li>
  <li><span class="swatch exit"></span>exit</li>
  <li><svg width="18" height="12" aria-hidden="true">
    <rect class="held" x=".5" y=".5" width="17" height="11"/><path class="hatch" d="M0 8l8-8M4 12l12-12M12 12l6-6"/></svg>waits<span
    class="more">; the line leads to the holder</span></li>
  <li><svg width="12" height="12" aria-hidden="true"><path class="blocked" d="M2 6h8"/></svg>blocked<span class="more">: the step did
    nothing</span></li>
  <li><svg width="12" height="12" aria-hidden="true"><path class="failed" d="M6 1l5 5l-5 5l-5-5z"/></svg>failed<span class="more">: the call
    ended with any answer but mapped, word and done</span></li>
  <li><svg width="12" height="12" aria-hidden="true"><path class="denied" d="M1 2h10l-5 9z"/></svg>deny<span class="more">: if the step
    wanted memory, that allocation failed</span></li>
  <li><svg width="12" height="12" aria-hidden="true"><path class="killed" d="M2 2l8 8m0-8l-8 8"/></svg>killed</li>
  <li><svg width="12" height="12" aria-hidden="true"><circle class="refused" cx="6" cy="6" r="4"/></svg>refused<span class="more">: nothing
    changed</span></li>
  <li><svg width="12" height="12" aria-hidden="true"><path class="resized" d="M6 0v12"/></svg>resized<span class="more">: the pool has another
    number of frames</span></li>
  <li><svg width="18" height="12" aria-hidden="true"><path class="free" d="M0 6h18"/></svg>free<span class="more"> frames</span></li>
  <li><svg width="18" height="12" aria-hidden="true"><path class="resv" d="M0 6h18"/></svg>resv<span class="more">, the reserve count</span></li>
  <li><svg width="18" height="12" aria-hidden="true"><path class="bare" d="M0 6h18"/></svg>no page<span class="more">: indices that are
    reserved and have no page</span></li>
  <li><span class="swatch owed"></span>owed<span class="more"> by calls in flight: resv less no page</span></li>
  <li id="used-key"><svg width="18" height="12" aria-hidden="true"><path class="used" d="M0 6h18"/></svg>used<span class="more"> pages of a quota, which is
    the dotted line, unless it is more than four times what the curves show</span></li>
</ul>
"###;
