//! A run between two events.
ghost use Rattle.std.specs.Prelude.{◌≡◌, ◌≤◌, IfOk, OnOk};
ghost use Rattle.hp_core.specs.Readers.{config_of};
ghost use Rattle.hp_core.specs.Runs.{IsOpening, Row};
ghost use Rattle.hp_watch.specs.Holders.{AreHolders};
ghost use Rattle.hp_watch.specs.Happenings.{phase_in, stood_at};

use hp_base::{Config, Event, Op, Task};
use hp_core::{Answer, Core, Outcome, Phase};
use hp_text::column_of;
use std::alloc::{AllocError, Global};
use std::mem;

/// A run between two events.
#[derive(Drop)]
pub struct Run {
    pub core: Core,
    /// By whom the next step of each task would be blocked there, from task 1 on: also of those that make none, and so are never told.
    pub holders: Vec<Option<Task>>,
    /// By whom it would have been before the last event.
    pub before: Vec<Option<Task>>,
    /// Where the call of the last event's task stood before it.
    pub from: Option<Phase>,
}

/// Lists by whom each task's next step would be blocked.
fn list_holders(core: &Core, holders: &mut Vec<Option<Task>>) -> Result<(), AllocError>
    ensures { OnOk result (AreHolders core.now holders.new.items) }
{
    holders.clear();
    let config = core.config();
    for number in 0..config.tasks {
        holders.push(core.waits_for(Task::new(number + 1)))?;
    }
    Ok(())
}

/// The phase in which the call of the task in that column stands.
pub fn phase_in(core: &Core, column: u32) -> Option<Phase>
    requires { column ≤ (config_of core.now).tasks }
    ensures { result ≡ phase_in core.now column }
{
    if column == 0 {
        return None;
    }
    core.phase(Task::new(column))
}

/// The phase in which the call of the event's task stands.
pub fn stood_at(core: &Core, event: &Event) -> Option<Phase>
    ensures { result ≡ stood_at core.now event.now }
{
    let config = core.config();
    phase_in(core, column_of(config.tasks, event))
}

impl Run {
    pub fn new(alloc: Global, config: Config) -> Result<Run, AllocError>
        ensures opening { IfOk result (λ run. IsOpening config run.core) }
        ensures holders { IfOk result (λ run. AreHolders run.core run.holders.items) }
    {
        let core = Core::new(alloc, config)?;
        let mut holders = Vec::new(alloc);
        list_holders(&core, &mut holders)?;
        Ok(Run {
            core,
            holders,
            before: Vec::new(alloc),
            from: None,
        })
    }

    /// Lets an event happen.
    pub fn happen(&mut self, event: Event) -> Result<Outcome, AllocError>
        ensures row { IfOk result (λ outcome. Row self.old.core event outcome self.new.core) }
        ensures config { OnOk result (config_of self.new.core ≡ config_of self.old.core) }
        ensures before { OnOk result (self.new.before.items ≡ self.old.holders.items) }
        ensures holders { OnOk result (AreHolders self.new.core self.new.holders.items) }
        ensures from { OnOk result (self.new.from ≡ stood_at self.old.core event) }
    {
        // The checker of borrows asks for a mention of the types that an event and an outcome may hold.
        let _none: (Option<Answer>, Option<Op>) = (None, None);
        self.from = stood_at(&self.core, &event);
        let outcome = self.core.step(event)?;
        mem::swap(&mut self.before, &mut self.holders);
        list_holders(&self.core, &mut self.holders)?;
        Ok(outcome)
    }
}
