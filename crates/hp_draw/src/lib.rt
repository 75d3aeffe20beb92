//! Pictures of traces: an SVG in which the headline can be seen.
//!
//! It stands on hp_text, which reads traces, on hp_watch, which follows a run. It promises
//! that what is written is the picture of a run of the trace that was read: the stays of each call in each phase, who
//! waits for whom, blocked steps, failures, kills, denials and refusals, and the counts behind each event. All has its
//! place in the picture; where that is is laid out by eye. It knows of the core only its rows and its readers, and no
//! files: it works over any source and sink.
#![tactic(auto)]

mod curves;
mod drawing;
mod following;
mod frame;
mod hatches;
mod lanes;
mod layout;
mod marks;
mod shapes;
mod sketch;
mod style;
mod waits;

pub use drawing::{draw, draw_trace};
