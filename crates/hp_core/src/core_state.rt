//! The state of a pool.
ghost use Rattle.std.specs.Prelude.{◌≡◌, IfOk, OnErr, All};
ghost use Rattle.hp_base.specs.Text.{sizes};
ghost use Rattle.hp_core.specs.State.{CoreState};
ghost use Rattle.hp_core.specs.Runs.{Row, Run, IsOpening, IsOfConfig, IsIdle, Headline, WantsGrowth, TakesNoMemory};
ghost use Rattle.hp_core.specs.Readers.{calls_of, config_of};

use crate::events::step_event;
use crate::opening::{new_files, new_spaces, new_task_states};
use crate::task_state::TaskState;
use hp_base::{Config, Event};
use hp_frames::Bank;
use hp_machine::Outcome;
use hp_parts::Parts;
use hp_slots::SlotTable;
use std::alloc::{AllocError, Global};
use std::marker::Model;

/// The state of a pool: its parts, and the state of each task.
#[derive(Drop)]
pub struct Core {
    pub(crate) config: Config,
    pub(crate) parts: Parts,
    pub(crate) task_states: Vec<TaskState>,
}

impl Model for Core {
    ghost use Rattle.std.specs.Prelude.{vec_capacity};
    ghost use Rattle.std.specs.Coded.{codes, coded_ℕ};
    ghost use Rattle.std.specs.FinMap as map;
    ghost use Rattle.std.specs.Ordering.{nat_cmp};
    ghost use Rattle.hp_base.specs.Text.{sizes};
    ghost use Rattle.hp_parts.specs.State.{state_of};
    ghost use Rattle.hp_core.specs.State.{CoreState};
    ghost use Rattle.hp_core.specs.Sound.{IsSound};

    ghost Value = { CoreState };

    ghost coded = { Prim.hlevel (codes, map.code {R = nat_cmp} coded_ℕ coded_ℕ) };

    ghost view = { λ c. record {
      sizes = sizes c.config;
      parts = state_of c.parts;
      task_states = c.task_states.items;
      capacity = vec_capacity c.task_states;
    } };

    ghost invariant = { λ c. IsSound (record {
      sizes = sizes c.config;
      parts = state_of c.parts;
      task_states = c.task_states.items;
      capacity = vec_capacity c.task_states;
    }) };
}

impl Core {
    /// A pool of these sizes that nothing has happened to.
    pub fn new(alloc: Global, config: Config) -> Result<Self, AllocError>
        ensures opening { IfOk result (λ core. IsOpening config core) }
        ensures config { IfOk result (λ core. config_of core ≡ sizes config) }
        ensures calls { IfOk result (λ core. calls_of core ≡ 0) }
    {
        let parts = Parts {
            bank: Bank::new(alloc, config.frames, config.quota)?,
            files: new_files(alloc, config.files)?,
            slots: SlotTable::new(alloc, config.slots)?,
            locks: SlotTable::new(alloc, config.files)?,
            spaces: new_spaces(alloc, config.tasks)?,
        };
        let task_states = new_task_states(alloc, config.tasks)?;
        Ok(Core {
            config,
            parts,
            task_states,
        })
    }

    /// One event. After want of memory nothing changed; it comes only in a granted step whose row wants
    /// growth, and in a resize that brings in new numbers. A step that is blocked and an event that is
    /// refused change nothing either.
    pub fn step(&mut self, event: Event) -> Result<Outcome, AllocError>
        ensures row { IfOk result (λ outcome. Row self.old event outcome self.new) }
        ensures err { OnErr result (self.new ≡ self.old) }
        ensures growth { OnErr result (WantsGrowth self.old.parts self.old.task_states event) }
        ensures idle { IfOk result (λ outcome. IsIdle outcome → self.new ≡ self.old) }

        // A begin, a kill, a step that isn't granted and one whose row wants no growth take no memory, nor
        // does a resize without new numbers.
        ensures capacity { ¬ WantsGrowth self.old.parts self.old.task_states event → TakesNoMemory self.old self.new }
        ensures headline { Headline self.new }
        ensures config { config_of self.new ≡ config_of self.old }
    {
        step_event(&mut self.parts, &mut self.task_states, event)
    }

    /// What holds of every pool, whatever happened to it: the headline; and that its state is of the sizes that `config`
    /// tells. There is nothing to run.
    pub fn always(&self)
        ensures headline { Headline self.now }
        ensures config { IsOfConfig self.now }
    {
        let _ = &self.config;
    }

    /// The sizes of the pool.
    pub fn config(&self) -> Config
        ensures { sizes result ≡ config_of self.now }
    {
        self.config
    }
}
