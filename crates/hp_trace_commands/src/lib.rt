//! Commands that read a trace: `check`, `explain`, `draw` and `format`, with their forms in JSON and HTML.
//!
//! It stands on the crates that explain, draw and format, and on hp_program's frame for outputs. It promises of each command what is
//! answered, and what was read and written then (`Traces.antt`, `Formatting.antt`), and which strict text a loose one asks for
//! (`Strict.antt`). It knows no words of a command line.
#![tactic(auto)]

mod checking;
mod drawing;
mod explaining;
mod formatting;
mod objects;
mod paging;
mod strict;

pub use checking::run_check;
pub use drawing::run_draw;
pub use explaining::run_explain;
pub use formatting::run_format;
pub use objects::run_explain_json;
pub use paging::run_page;
pub use strict::read_strict;
