//! Of a page, the search field, which the library's page has, too.

/// Of a page, the search field, which the library's page has, too.
pub(crate) const SEARCH_FORM: &str = r###"  <form id="search" role="search">
    <label>find <input id="query" type="search" placeholder="task 3 blocked" aria-describedby="found"
      autocomplete="off" autocapitalize="off" spellcheck="false"></label>
    <button type="button" id="match-back" title="The match before (key p)" aria-label="Previous match">&lsaquo;</button>
    <button id="match-on" title="The next match (Enter, or key n)" aria-label="Next match">&rsaquo;</button>
    <span id="found" role="status"></span>
  </form>
"###;
