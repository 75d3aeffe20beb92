//! Schedules of a script: its tasks take turns as the words of a generator say, run by run.
//!
//! It stands on hp_core, on the laws of the machine, and on hp_text, which reads scripts and writes text. It promises that
//! each line is that of the stated schedule, whatever the number of threads, and that there is one such line although a
//! take may give any free frame; that lines are written as they are spelled, in order; that the events of a run lead to
//! what its line says; and that no run finishes stuck or with a finding of the audit, which is why the audit is left out
//! unless it is asked for. It works over any sink.
#![tactic(auto)]

mod claims;
mod exploration;
mod exploring;
mod laws;
mod line;
mod plan;
mod remainders;
mod run_lines;
mod runnable_tasks;
mod scheduled_run;
mod turned;
mod walk;

pub use exploration::{Exploration, explore, explore_hostile, schedule, write_explored};
pub use exploring::Audit;
pub use hp_audit::Finding;
pub use laws::{a_line_is_one, a_replayed_run_has_its_line};
pub use line::{Finish, RunLine};
pub use plan::{Chances, Plan};
pub use run_lines::write_lines;
pub use scheduled_run::ScheduledRun;
pub use turned::Turned;
pub use walk::Walk;
