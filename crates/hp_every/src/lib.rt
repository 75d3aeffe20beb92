//! All schedules of a script: whatever its tasks may do next, in any order, with so many denied steps and killed tasks.
//!
//! It stands on hp_explore and hp_hunt, whose plans and conditions it takes, on hp_key, and on the laws of the machine. It has laws, and the
//! turns of which they speak.
//! `specs/Schedules.antt` says what a schedule is without any explorer, what it is that none meets conditions, and that one is a shortest
//! that does. Its laws promise that each run of an explorer is a schedule, and that places with equal words have equal futures. It makes no
//! search, and knows no stream.
#![tactic(auto)]

mod laws;
mod turn;

pub use laws::{
    a_begin_may_come_first, a_private_step_may_come_first, a_schedule_is_a_run,
    a_shortest_schedule_is_a_run, an_explored_run_is_a_schedule, equal_places_have_equal_futures,
    events_lead_to_one_place, names_of_frames_change_no_turn,
    what_no_schedule_meets_explored_runs_miss,
};
pub use turn::Turn;

#[cfg(test)]
mod tests;
