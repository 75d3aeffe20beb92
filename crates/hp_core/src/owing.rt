//! What the calls in flight owe to the reserve count, and to the used count.
ghost use Rattle.std.specs.Prelude.{◌≡◌, ◌≤◌, ◌*◌, ◌^◌, ◌-ℤ◌, pos, length, sum_by};
ghost use Rattle.hp_machine.specs.Views.{behind, ahead, used_ahead};
ghost use Rattle.hp_core.specs.Readers.{config_of, owed_of, used_owed_of};
ghost use Rattle.hp_core.specs.Acquiring.{owed_by_of};

use crate::core_state::Core;
use crate::standing::standing_of;
use crate::task_state::TaskState;
use hp_base::Task;

// The sum over all calls in flight.
fn all_uses(task_states: &[TaskState]) -> u64
    requires { length task_states.now ≤ 64 }
    ensures sum { result ≡ sum_by (λ task_state. used_ahead task_state.call) task_states.now }
    ensures few { result ≤ 2 ^ 33 * 64 }
{
    let mut all_uses = 0;
    for task_state in task_states {
        all_uses += standing_of(&task_state.call).used_ahead;
    }
    all_uses
}

// The sums over all calls in flight, both ways.
fn sums(task_states: &[TaskState]) -> (u64, u64)
    requires { length task_states.now ≤ 64 }
    ensures behind { result.0 ≡ sum_by (λ task_state. behind task_state.call) task_states.now }
    ensures ahead { result.1 ≡ sum_by (λ task_state. ahead task_state.call) task_states.now }
    ensures few_behind { result.0 ≤ 2 ^ 32 * 64 }
    ensures few_ahead { result.1 ≤ 2 ^ 32 * 64 }
{
    let (mut all_behind, mut all_ahead) = (0, 0);
    for task_state in task_states {
        let standing = standing_of(&task_state.call);
        all_behind += u64::from(standing.behind);
        all_ahead += u64::from(standing.ahead);
    }
    (all_behind, all_ahead)
}

fn difference(ahead: u64, behind: u64) -> i64
    requires ahead { ahead ≤ 2 ^ 32 * 64 }
    requires behind { behind ≤ 2 ^ 32 * 64 }
    ensures { result ≡ pos ahead -ℤ pos behind }
{
    ahead as i64 - behind as i64
}

// The sum as what it is owed, which has no other way.
fn signed(uses: u64) -> i64
    requires { uses ≤ 2 ^ 33 * 64 }
    ensures { result ≡ pos uses }
{
    uses as i64
}

impl Core {
    /// What the calls in flight owe to the reserve count: it is this much above the reserved indices
    /// without a page.
    pub fn owed(&self) -> i64
        ensures { result ≡ owed_of self.now }
    {
        let (behind, ahead) = sums(&self.task_states);
        difference(ahead, behind)
    }

    /// What the call of the task alone owes to the reserve count; without one in flight it is nothing.
    pub fn owed_by(&self, task: Task) -> i64
        requires first { 1 ≤ task }
        requires last { task ≤ (config_of self.now).tasks }
        ensures { result ≡ owed_by_of self.now task }
    {
        let standing = standing_of(&self.task_states[task.place()].call);
        difference(u64::from(standing.ahead), u64::from(standing.behind))
    }

    /// What the calls in flight owe to the used count: it is this much above the reserved indices.
    pub fn used_owed(&self) -> i64
        ensures { result ≡ used_owed_of self.now }
    {
        signed(all_uses(&self.task_states))
    }
}
