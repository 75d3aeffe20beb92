//! With what the calls of each task ended.
ghost use Rattle.std.specs.Prelude.{◌≡◌, ◌<◌, ◌≤◌, [], ℕ, IfSome, None, OnOk, length, slice_index_or};
ghost use Rattle.hp_every.specs.Endings.{among};
ghost use Rattle.hp_watch.specs.declared.calls.EndedCall.{EndedCall};

use hp_base::Task;
use hp_watch::EndedCall;
use std::alloc::{AllocError, Global};

/// The calls that ended, task by task, those of a task in the order in which they did.
#[derive(Drop)]
pub(crate) struct Answers {
    pub(crate) ended: Vec<EndedCall>,
}

/// The place behind the calls of the task and of those before it.
fn place_behind(ended: &[EndedCall], task: Task) -> usize
    ensures there { result ≤ length ended.now }
    ensures before { (k : ℕ) (d : EndedCall) → k < result → (slice_index_or ended.now k d).task ≤ task }
    ensures behind { (d : EndedCall) → result < length ended.now → task < (slice_index_or ended.now result d).task }
{
    for (place, call) in ended.iter().enumerate() {
        if task.number() < call.task.number() {
            return place;
        }
    }
    ended.len()
}

impl Answers {
    /// Before any call has ended.
    pub(crate) fn new(alloc: Global) -> Answers
        ensures { result.ended.items ≡ [] }
    {
        Answers {
            ended: Vec::new(alloc),
        }
    }

    /// One moment more, in which this call ended, if one did.
    pub(crate) fn see(&mut self, ended: Option<EndedCall>) -> Result<(), AllocError>
        ensures some { OnOk result (IfSome ended (λ call. self.new.ended.items ≡ among call self.old.ended.items)) }
        ensures none { OnOk result (ended ≡ None → self.new.ended.items ≡ self.old.ended.items) }
    {
        if let Some(call) = ended {
            let place = place_behind(&self.ended, call.task);
            self.ended.insert(place, call)?;
        }
        Ok(())
    }
}
