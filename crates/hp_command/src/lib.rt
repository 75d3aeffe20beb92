//! The command line of the program: the commands and their options, and what the words ask for.
//!
//! It stands on clap, and on the crates whose types say what is asked for. Commands and options are rows of tables
//! (`commands.rt`, `choices.rt`), of which clap makes the command line, once a call. Which words ask for what, and the texts of help, are
//! shown by the rows of `examples/commands`; no clause says it. It reads no stream and runs nothing.
#![tactic(auto)]

mod choices;
mod commands;
mod conditions;
mod options;
mod reading;
mod request;
mod texts;
mod view;

pub use reading::read_words;
pub use request::{
    Asked, EndingChoice, EveryBounds, EverySearch, Input, PoolRequest, Racing, Request, Scheduling,
    ScriptRequest, Search, TraceRequest, When,
};
