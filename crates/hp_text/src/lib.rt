//! Traces and scripts as text: lines are read and written, and what is wrong with them is named.
//!
//! It stands on hp_base alone. A trace is read by one engine, the feed, which takes bytes cut anywhere and needs no
//! memory; reading and checking a trace, and reading a script, are loops over it. Scripts whose calls may wait are read line
//! by line by a draft of their own. It promises that what is read is what the bytes spell, that the first bad line is named,
//! and that a fault of a stream is returned exactly where that stream failed. It knows no pool, and no files: it works over
//! any source and sink.
#![tactic(auto)]

mod checking;
mod columns;
mod fault;
mod feed;
mod laws;
mod needs;
mod reading;
mod script;
mod script_draft;
mod script_lines;
mod streams;
mod text_lines;
mod trace;
mod waiting_script;
mod writing;

pub use checking::{check_trace, write_count};
pub use columns::column_of;
pub use fault::ReplayFault;
pub use feed::{TraceFeed, TraceLine};
pub use laws::{
    a_plain_script_is_a_trace, bytes_have_one_reading, pieces_do_not_show, what_is_held_is_spelled,
};
pub use needs::{Need, needs_of, task_needs};
pub use reading::{after_word, event_at, field_at, header_at, last_at, short_at};
pub use script::{Script, Wait, read_script};
pub use streams::{PIECE, Sink, Source, Watched};
pub use text_lines::{read_all, split_line};
pub use trace::{MOST_EVENTS, Trace, read_trace, write_trace};
pub use waiting_script::read_any_script;
pub use writing::write_text;
