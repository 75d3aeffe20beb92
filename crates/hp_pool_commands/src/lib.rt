//! Commands that drive a pool: `step`, line by line, and `work`, by a workload, with its trace.
//!
//! It stands on hp_format, whose drafts keep events, on hp_client, whose workloads run over a core or a running pool, and on hp_program's
//! frame for outputs. It promises of a workload that its line or trace is of a run of it (`Working.antt`); the answers of `step` are only
//! tested. It knows no words of a command line but a workload's and a driver's names.
#![tactic(auto)]

mod carrying;
mod laying;
mod session;
mod stepping;
mod tracing;
mod typing;
mod working;

pub use stepping::{Stepping, run_step};
pub use working::{WorkFault, WorkWords, run_trace_work, run_work};
