//! The laws are there to be cited.
use crate::{
    a_begin_may_come_first, a_private_step_may_come_first, a_schedule_is_a_run,
    a_shortest_schedule_is_a_run, an_explored_run_is_a_schedule, equal_places_have_equal_futures,
    events_lead_to_one_place, names_of_frames_change_no_turn,
    what_no_schedule_meets_explored_runs_miss,
};
use std::test::Fail;

#[test]
fn laws_are_cited() -> Result<(), Fail> {
    a_begin_may_come_first();
    a_private_step_may_come_first();
    a_schedule_is_a_run();
    a_shortest_schedule_is_a_run();
    an_explored_run_is_a_schedule();
    equal_places_have_equal_futures();
    events_lead_to_one_place();
    names_of_frames_change_no_turn();
    what_no_schedule_meets_explored_runs_miss();
    Ok(())
}
