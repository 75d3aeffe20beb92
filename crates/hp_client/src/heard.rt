//! What a driver notes of the calls that it carried.
ghost use Rattle.std.specs.Prelude.{◌≡◌, ◌+◌, ◌≤◌, ◌++◌, length, vec_len, vec_capacity};
ghost use Rattle.hp_client.specs.Heard.{heard_of};

use hp_base::{Answer, Op, Task};

/// Adds the calls with their answers to what was heard, in room that was made before.
pub fn note_calls(heard: &mut Vec<(Task, Op, Answer)>, calls: &[(Task, Op)], answers: &[Answer])
    requires each { length answers.now ≡ length calls.now }
    requires room { vec_len heard.old + length calls.now ≤ vec_capacity heard.old }
    ensures { heard.new.items ≡ heard.old.items ++ heard_of calls.now answers.now }
{
    for (index, (task, op)) in calls.iter().enumerate() {
        heard.push_reserved((*task, *op, answers[index]));
    }
}
