//! A run of calls on a core, with a kill before one of their events.
use crate::counting::is_of_a_call;
use hp_base::{Config, Event, Op, Task};
use hp_core::{Core, Outcome, audit};
use std::alloc::Global;
use std::process::Abort;
use std::test::Fail;

/// No round of calls takes so many turns.
const TURNS: u32 = 100;

/// The core, and what its events were told.
#[derive(Drop)]
pub(crate) struct Run {
    pub(crate) core: Core,
    /// Those that say that a call went on.
    told: Vec<Outcome>,
    /// How many of these come before the kill.
    point: usize,
    pub(crate) is_killed: bool,
}

impl Run {
    /// On a new pool of these sizes.
    pub(crate) fn new(alloc: Global, config: Config, point: usize) -> Result<Run, Fail> {
        Ok(Run {
            core: Core::new(alloc, config)?,
            told: Vec::new(alloc),
            point,
            is_killed: false,
        })
    }

    // Makes an event, and audits the pool.
    fn make(&mut self, rt: &impl Abort, alloc: Global, event: Event) -> Result<Outcome, Fail> {
        let outcome = self.core.step(event)?;
        let picture = self.core.picture(alloc)?;
        assert_eq!(rt; audit(&picture), Ok(()));
        Ok(outcome)
    }

    // The same of an event of a task's call, with a kill of the task before it where that is due.
    fn go_on(
        &mut self,
        rt: &impl Abort,
        alloc: Global,
        task: Task,
        event: Event,
    ) -> Result<Outcome, Fail> {
        if !self.is_killed && self.told.len() == self.point {
            self.is_killed = true;
            assert_eq!(rt; self.make(rt, alloc, Event::Kill(task))?, Outcome::Marked);
        }
        let outcome = self.make(rt, alloc, event)?;
        if is_of_a_call(outcome) {
            self.told.push(outcome)?;
        }
        Ok(outcome)
    }

    // Begins calls, and tells whose began. One that is refused, as its task was killed, is left out.
    fn begin(
        &mut self,
        rt: &impl Abort,
        alloc: Global,
        calls: &[(Task, Op)],
    ) -> Result<Vec<Task>, Fail> {
        let mut begun = Vec::new(alloc);
        for (task, op) in calls {
            if self.go_on(rt, alloc, *task, Event::Begin(*task, *op))? == Outcome::Begun {
                begun.push(*task)?;
            }
        }
        Ok(begun)
    }

    // A granted step of each call, in turn, and whose haven't ended.
    fn turn(&mut self, rt: &impl Abort, alloc: Global, tasks: &[Task]) -> Result<Vec<Task>, Fail> {
        let mut left = Vec::new(alloc);
        for task in tasks {
            match self.go_on(rt, alloc, *task, Event::Step(*task, true))? {
                Outcome::Ended(_) => {}
                _ => left.push(*task)?,
            }
        }
        Ok(left)
    }

    /// A round of calls, one event of each in turn, up to their ends.
    pub(crate) fn round(
        &mut self,
        rt: &impl Abort,
        alloc: Global,
        calls: &[(Task, Op)],
    ) -> Result<(), Fail> {
        let mut tasks = self.begin(rt, alloc, calls)?;
        for _ in 0..TURNS {
            if tasks.is_empty() {
                return Ok(());
            }
            tasks = self.turn(rt, alloc, tasks.as_slice())?;
        }
        Err(Fail::from("a round doesn't end"))
    }

    /// Ends the tasks, one after the other. No kill comes any more.
    pub(crate) fn exit_all(
        &mut self,
        rt: &impl Abort,
        alloc: Global,
        tasks: u32,
    ) -> Result<(), Fail> {
        self.is_killed = true;
        for number in 1..=tasks {
            let task = Task::new(number);
            self.round(rt, alloc, &[(task, Op::Exit)])?;
        }
        Ok(())
    }
}
