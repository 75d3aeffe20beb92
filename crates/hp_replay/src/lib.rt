//! Replays: a trace is run as it is read, and what comes of it is written.
//!
//! It stands on hp_core, which runs events, and on hp_text, whose feed reads the lines. It promises that a replay writes
//! the outcomes of a run of the trace and then its state, that the first bad line is named, and that a fault of a stream is
//! returned exactly where that stream failed. It knows of the core only its rows and its readers, and no files: it works
//! over any source and sink. What else is done with traces it offers from hp_text.
#![tactic(auto)]

mod laws;
mod line_buffer;
mod next;
mod outcomes;
mod replaying;
mod state;

pub use hp_text::{
    MOST_EVENTS, ReplayFault, Script, Sink, Source, Trace, TraceFeed, TraceLine, Watched,
    bytes_have_one_reading, check_trace, pieces_do_not_show, read_script, read_trace,
    what_is_held_is_spelled, write_count, write_text, write_trace,
};
pub use laws::{a_replay_is_one, a_stopped_replay_names_the_fault};
pub use next::next_outcome;
pub use replaying::replay;
pub use state::push_state;
