//! Traces in words: for each event a row that a person can follow.
//!
//! It stands on hp_text, which reads traces, on hp_core, which runs them, on hp_replay, which lays out a pool's state,
//! and on hp_watch, which follows a run. It promises that what is written is the explanation of a run of the trace that
//! was read, as far as a `View` asks for it: a row for each event, in its order, with its outcome and the pool's counts
//! behind it, and with the tasks whose wait for another's slot or lock began, changed or ended by it; then each call in
//! flight, and the state. Each such event's column is shown, with what stands over it, and is wider than the event; how
//! much wider is found by eye. The same facts are written as lines of JSON, too, an object an event. It knows of the
//! core only its rows and its readers, and no files: it works over any source and sink.
#![tactic(auto)]

mod ending;
mod explaining;
mod json;
mod json_calls;
mod json_end;
mod json_events;
mod layout;
mod measuring;
mod rows;
mod view;
mod waits;
mod words;

pub use explaining::{explain, explain_trace};
pub use json::{explain_json, write_objects};
pub use view::View;
