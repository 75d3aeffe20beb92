//! A trace as a page for a browser, in which its run scrolls and zooms.
//!
//! It stands on hp_text, which reads traces, and on hp_explain, which writes a run as lines of JSON. It promises that what is written
//! is the head of the page, these lines of a run of the trace that was read, and the tail, and that no line has a `<`, by which the tail
//! begins. It knows nothing of the core (proofs alone know which words a line has), and of the page only that it is text: what the page
//! shows of the lines is not proved.
#![tactic(auto)]

mod body;
mod front;
mod help;
mod legend;
mod page_script;
mod page_style;
mod paging;
mod picture_script;
mod run_script;
mod search_form;
mod tail;
mod tools;
mod viewer_script;
mod viewer_style;

pub use paging::{html_page, write_html_page};
