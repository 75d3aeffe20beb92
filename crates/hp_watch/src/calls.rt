//! Which calls tasks have begun, and with what their calls end.
ghost use Rattle.std.specs.Prelude.{◌≡◌, ◌&&◌, ◌<◌, ℕ, false, List, [], ◌∷◌, IfSome, OnErr, OnOk, None, length, slice_index_or};
ghost use Rattle.hp_core.specs.State.{CoreState};
ghost use Rattle.hp_machine.specs.Events.{is_begun};
ghost use Rattle.hp_watch.specs.Calls.{AreCalls, calls_of, ended_by, is_begin};
ghost use Rattle.hp_watch.specs.Moments.{Moment};

use crate::call_word::{CallWord, word_of};
use hp_base::{Answer, Event, Op, Task};
use hp_core::Outcome;
use std::alloc::{AllocError, Global};

/// A call that ended: whose it was, which it was, and its answer.
#[derive(Clone, Copy, Debug, PartialEq, Eq)]
pub struct EndedCall {
    pub task: Task,
    pub call: CallWord,
    pub answer: Answer,
}

/// The call that a task has begun last, and how many it has begun.
#[derive(Clone, Copy, Debug, PartialEq, Eq)]
pub struct TaskCalls {
    pub last: CallWord,
    pub begun: u32,
}

const NONE_BEGUN: TaskCalls = TaskCalls {
    last: CallWord::Nothing,
    begun: 0,
};

/// Of each task the call that it has begun last, and how many it has begun.
#[derive(Debug, Drop)]
pub struct Calls {
    // at the place of the task's number
    tasks: Vec<TaskCalls>,
}

/// A call that begins: whose it is, and what it asks for.
#[derive(Clone, Copy)]
struct Begun {
    task: Task,
    op: Op,
}

/// The call that begins by this event.
fn begun_by(event: &Event, outcome: &Outcome) -> Option<Begun>
    ensures some { IfSome result (λ begun. (event.now ≡ Event.Begin begun.task begun.op) × (outcome.now ≡ Outcome.Begun)) }
    ensures none { result ≡ None → (t : ℕ) → (is_begin t event.now && is_begun outcome.now) ≡ false }
{
    match (event, outcome) {
        (Event::Begin(task, op), Outcome::Begun) => Some(Begun {
            task: *task,
            op: *op,
        }),
        _ => None,
    }
}

impl Calls {
    /// Before any event.
    pub fn new(alloc: Global) -> Calls
        ensures { AreCalls result.tasks.items [] }
    {
        Calls {
            tasks: Vec::new(alloc),
        }
    }

    /// Those of all tasks, each at the place of its number.
    pub fn tasks(&self) -> &[TaskCalls]
        ensures { result.now ≡ self.now.tasks.items }
    {
        self.tasks.as_slice()
    }

    /// Those of the task.
    pub fn of(&self, task: Task) -> TaskCalls
        ensures { result ≡ calls_of self.now.tasks.items task }
    {
        self.tasks
            .get(task.number() as usize)
            .copied()
            .unwrap_or(NONE_BEGUN)
    }

    /// Makes room for those of the task.
    fn make_room(&mut self, task: Task) -> Result<(), AllocError>
        ensures there { OnOk result (task < length self.new.tasks.items) }
        ensures kept { (t : ℕ) → calls_of self.new.tasks.items t ≡ calls_of self.old.tasks.items t }
    {
        let place = task.number() as usize;
        if self.tasks.len() <= place {
            self.tasks.resize(place + 1, NONE_BEGUN)?;
        }
        Ok(())
    }

    /// One moment more: this event came, with this outcome. Without memory nothing that is known changes.
    pub fn see(&mut self, event: &Event, outcome: &Outcome) -> Result<(), AllocError>
        ensures knows { OnOk result ((before : List Moment) (core : CoreState) → AreCalls self.old.tasks.items before
            → AreCalls self.new.tasks.items (record { event = event.now; outcome = outcome.now; core = core } ∷ before)) }
        ensures err { OnErr result ((t : ℕ) → calls_of self.new.tasks.items t ≡ calls_of self.old.tasks.items t) }
    {
        let Some(begun) = begun_by(event, outcome) else {
            return Ok(());
        };
        self.make_room(begun.task)?;
        let place = begun.task.number() as usize;
        let Some(count) = self.tasks[place].begun.checked_add(1) else {
            return Err(AllocError);
        };
        self.tasks[place] = TaskCalls {
            last: word_of(begun.op),
            begun: count,
        };
        Ok(())
    }

    /// The call that ends by this event, and what with.
    pub fn ended_by(&self, event: &Event, outcome: &Outcome) -> Option<EndedCall>
        ensures some { IfSome result (λ ended. (before : List Moment) → AreCalls self.now.tasks.items before
            → ended_by before event.now outcome.now ≡ ended ∷ []) }
        ensures none { result ≡ None → (before : List Moment) → ended_by before event.now outcome.now ≡ [] }
    {
        // The checker of borrows asks for a mention of the types that an event and an outcome may hold.
        let _none: (Option<Op>, Option<Answer>) = (None, None);
        match (event, outcome) {
            (Event::Step(task, _), Outcome::Ended(answer)) => Some(EndedCall {
                task: *task,
                call: self.of(*task).last,
                answer: *answer,
            }),
            _ => None,
        }
    }
}
