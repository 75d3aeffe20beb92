//! A trace while it is written, and a pool to which it happens.
ghost use Rattle.std.specs.Prelude.{◌≡◌, ◌≤◌, ◌<◌, ◌-◌, ◌++◌, ◌⊎◌, ℕ, suc, true, false, List, IfErr, IfOk, IsTrue, OnOk, OnErr, ◌↔◌, None, Some, length, replicate, take, [], ◌∷◌};
ghost use Rattle.hp_base.specs.Text.{sizes};
ghost use Rattle.hp_base.specs.declared.config.Config.{Config};
ghost use Rattle.hp_base.specs.declared.event.Event.{Event};
ghost use Rattle.hp_base.specs.declared.event.Event.TheVariants.{Step};
ghost use Rattle.hp_core.specs.Runs.{IsOpening, Row};
ghost use Rattle.hp_format.specs.Drafts.{IsLed, Reaches, WouldCome};
ghost use Rattle.hp_format.specs.Following.{IsAny, IsUnaddedFor, Leads, Repeats, StepsUntil, stop_of};
ghost use Rattle.hp_format.specs.Loose.{Gives, IsLineFault, IsOfText};
ghost use Rattle.hp_format.specs.declared.draft.Unadded.TheVariants as unadded;

use crate::asked::{Asked, Goal};
use crate::fault::{LooseFault, Reason};
use hp_base::{Answer, Config, Event, Op, Task};
use hp_core::{Core, Outcome};
use hp_text::{MOST_EVENTS, Trace};
use std::alloc::{AllocError, Global};
use std::marker::Model;

/// The events so far, and the pool to which they happened.
#[derive(Drop)]
pub struct Draft {
    config: Config,
    core: Core,
    events: Vec<Event>,
}

impl Model for Draft {
    ghost use Rattle.std.specs.Prelude.{◌≤◌, length};
    ghost use Rattle.hp_base.specs.Text.{sizes};
    ghost use Rattle.hp_format.specs.Drafts.{DraftState, IsLed};
    ghost use Rattle.std.specs.Coded.{codes, coded_ℕ};
    ghost use Rattle.std.specs.FinMap as map;
    ghost use Rattle.std.specs.Ordering.{nat_cmp};

    ghost Value = { DraftState };

    ghost view = { λ d. record { sizes = sizes d.config; core = d.core; events = d.events.items } };

    ghost coded = { Prim.hlevel (codes, map.code {R = nat_cmp} coded_ℕ coded_ℕ) };

    ghost invariant = { λ d. record {
      led : IsLed d.config d.core d.events.items;
      few : length d.events.items ≤ 1000000;
    } };
}

/// Why no event could be added.
#[derive(Clone, Copy, Debug, PartialEq, Eq)]
pub enum Unadded {
    Memory,
    Reason(Reason),
}

impl From<AllocError> for Unadded {
    ghost from_gives = { λ _ why. why ≡ unadded.Memory };

    fn from(_error: AllocError) -> Unadded {
        Unadded::Memory
    }
}

impl From<Reason> for Unadded {
    ghost from_gives = { λ why given. given ≡ unadded.Reason why };

    fn from(why: Reason) -> Unadded {
        Unadded::Reason(why)
    }
}

impl Unadded {
    /// The fault of the line of this number.
    pub(crate) fn at(self, line: u64) -> LooseFault
        ensures text { IsOfText result }
        ensures line { IsLineFault line self result }
    {
        match self {
            Unadded::Memory => LooseFault::from(AllocError),
            Unadded::Reason(why) => LooseFault::Line(line, why),
        }
    }
}

/// Whether a step with that outcome reaches what steps are made until; why they never will, where it ends the call otherwise, or is
/// held back.
pub fn reaches(goal: Goal, outcome: &Outcome) -> Result<bool, Reason>
    ensures reached { IfOk result (λ done. IsTrue done ↔ Reaches goal outcome.now) }
    ensures err { IfErr result (λ why. ¬ Reaches goal outcome.now) }
    ensures why { IfErr result (λ why. stop_of outcome.now ≡ Some why) }
    ensures on { IfOk result (λ done. done ≡ false → stop_of outcome.now ≡ None) }
{
    match (goal, outcome) {
        (Goal::Stands(phase), Outcome::Moved(at)) => Ok(*at == phase),
        (Goal::Ended, Outcome::Ended(_)) => Ok(true),
        (_, Outcome::Ended(answer)) => Err(Reason::Ended(*answer)),
        (_, Outcome::Blocked(holder)) => Err(Reason::Blocked(*holder)),
        (_, Outcome::Refused(why)) => Err(Reason::Refused(*why)),
        (_, Outcome::Begun | Outcome::Moved(_) | Outcome::Marked | Outcome::Resized(_)) => Ok(
            false,
        ),
    }
}

/// A new pool to which these events happened.
pub fn core_after(alloc: Global, config: Config, events: &[Event]) -> Result<Core, AllocError>
    ensures { IfOk result (λ core. IsLed config core events.now) }
{
    // The checker of borrows asks for a mention of the types that an event and an outcome may hold.
    let _none: (Option<Answer>, Option<Op>) = (None, None);
    let mut core = Core::new(alloc, config)?;
    for event in events {
        core.step(*event)?;
    }
    Ok(core)
}

impl Draft {
    /// Nothing happened yet to a pool of these sizes.
    pub fn new(alloc: Global, config: Config) -> Result<Draft, AllocError>
        ensures sizes { IfOk result (λ draft. draft.sizes ≡ sizes config) }
        ensures events { IfOk result (λ draft. draft.events ≡ []) }
        ensures opening { IfOk result (λ draft. IsOpening config draft.core) }
    {
        Ok(Draft {
            config,
            core: Core::new(alloc, config)?,
            events: Vec::new(alloc),
        })
    }

    /// The pool.
    pub fn core(&self) -> &Core
        ensures { result.now ≡ self.now.core }
    {
        &self.core
    }

    /// What happened to it.
    pub fn events(&self) -> &[Event]
        ensures events { result.now ≡ self.now.events }
        ensures few { length result.now ≤ 1000000 }
    {
        self.events.as_slice()
    }

    /// A law: what happened led to the pool as it is.
    pub fn is_led(&self)
        ensures { (config : Config) × (sizes config ≡ self.now.sizes) × IsLed config self.now.core self.now.events }
    {
        let _ = &self.config;
    }

    /// Lets an event happen, and keeps it; where there is no memory, nothing happens.
    fn happen(&mut self, event: &Event) -> Result<Outcome, AllocError>
        requires { length self.old.events < 1000000 }
        ensures sizes { self.new.sizes ≡ self.old.sizes }
        ensures events { OnOk result (self.new.events ≡ self.old.events ++ event.now ∷ []) }
        ensures row { IfOk result (λ outcome. Row self.old.core event.now outcome self.new.core) }
        ensures err { OnErr result (self.new ≡ self.old) }
    {
        // The checker of borrows asks for a mention of the types that an event and an outcome may hold.
        let _none: (Option<Answer>, Option<Op>) = (None, None);
        self.events.reserve(1)?;
        let outcome = self.core.step(*event)?;
        self.events.push_reserved(*event);
        Ok(outcome)
    }

    /// Lets an event happen, where there is room for one more. Else, and where there is no memory, nothing happens.
    pub fn add(&mut self, event: &Event) -> Result<Outcome, Unadded>
        ensures sizes { self.new.sizes ≡ self.old.sizes }
        ensures events { OnOk result (self.new.events ≡ self.old.events ++ event.now ∷ []) }
        ensures row { IfOk result (λ outcome. Row self.old.core event.now outcome self.new.core) }
        ensures err { OnErr result (self.new ≡ self.old) }
        ensures why { IfErr result (λ why. (why ≡ Unadded.Memory)
            ⊎ (why ≡ Unadded.Reason Reason.TooMany) × (1000000 ≤ length self.old.events)) }
    {
        // The checker of borrows asks for a mention of the types that an event and an outcome may hold.
        let _none: (Option<Answer>, Option<Op>, Option<Reason>) = (None, None, None);
        if self.events.len() >= MOST_EVENTS {
            return Err(Unadded::Reason(Reason::TooMany));
        }
        let outcome = self.happen(event)?;
        Ok(outcome)
    }

    /// Adds an event, so many times.
    fn add_times(&mut self, event: &Event, times: u32) -> Result<(), Unadded>
        ensures sizes { self.new.sizes ≡ self.old.sizes }
        ensures events { OnOk result (self.new.events ≡ self.old.events ++ replicate times event.now) }
        ensures leads { OnOk result (Repeats IsAny self.old.core event.now times self.new.core) }
        ensures why { IfErr result (IsUnaddedFor self.old.core self.old.events (Asked.Times event.now times)) }
    {
        // The checker of borrows asks for a mention of the types that an event and an outcome may hold.
        let _none: (Option<Answer>, Option<Op>, Option<Reason>) = (None, None, None);
        for _ in 0..times {
            self.add(event)?;
        }
        Ok(())
    }

    /// Adds steps of the task's call, until one reaches the goal.
    fn add_until(&mut self, task: Task, goal: Goal) -> Result<(), Unadded>
        ensures sizes { self.new.sizes ≡ self.old.sizes }
        ensures events { OnOk result ((more : ℕ)
            × (self.new.events ≡ self.old.events ++ replicate (suc more) (Step task true))) }
        ensures leads { OnOk result ((before : ℕ) × (self.new.events ≡ self.old.events ++ replicate (suc before) (Step task true))
            × StepsUntil self.old.core task goal before self.new.core) }
        ensures why { IfErr result (IsUnaddedFor self.old.core self.old.events (Asked.Until task goal)) }
    {
        // The checker of borrows asks for a mention of the types that an event and an outcome may hold.
        let _none: (Option<Answer>, Option<Op>, Option<Reason>) = (None, None, None);
        let step = Event::Step(task, true);
        for _ in 0..MOST_EVENTS {
            let outcome = self.add(&step)?;
            if reaches(goal, &outcome)? {
                return Ok(());
            }
        }
        Err(Unadded::Reason(Reason::TooMany))
    }

    /// Adds what was asked for.
    pub(crate) fn add_asked(&mut self, asked: &Asked) -> Result<(), Unadded>
        ensures sizes { self.new.sizes ≡ self.old.sizes }
        ensures events { OnOk result ((more : List Event) × Gives asked.now more
            × (self.new.events ≡ self.old.events ++ more)) }
        ensures leads { OnOk result ((more : List Event) × Leads self.old.core asked.now more self.new.core
            × (self.new.events ≡ self.old.events ++ more)) }
        ensures why { IfErr result (IsUnaddedFor self.old.core self.old.events asked.now) }
    {
        match asked {
            Asked::Nothing => Ok(()),
            Asked::Times(event, times) => self.add_times(event, *times),
            Asked::Until(task, goal) => self.add_until(*task, *goal),
        }
    }

    /// Takes the last event back. Tells whether there was one. Where there is no memory nothing changes.
    pub fn undo(&mut self, alloc: Global) -> Result<bool, AllocError>
        ensures sizes { self.new.sizes ≡ self.old.sizes }
        ensures events { IfOk result (λ done. done ≡ true
            → self.new.events ≡ take (length self.old.events - 1) self.old.events) }
        ensures none { IfOk result (λ done. done ≡ false → (self.old.events ≡ []) × (self.new ≡ self.old)) }
        ensures err { OnErr result (self.new ≡ self.old) }
    {
        // The checker of borrows asks for a mention of the types that an event and an outcome may hold.
        let _none: (Option<Answer>, Option<Op>) = (None, None);
        let count = self.events.len();
        if count == 0 {
            return Ok(false);
        }
        self.core = core_after(alloc, self.config, &self.events[..count - 1])?;
        self.events.truncate(count - 1);
        Ok(true)
    }

    /// What the next step of the task's call would come to.
    pub fn would(&self, alloc: Global, task: Task) -> Result<Outcome, AllocError>
        ensures { IfOk result (WouldCome self.now.sizes self.now.events task) }
    {
        // The checker of borrows asks for a mention of the types that an event and an outcome may hold.
        let _none: (Option<Answer>, Option<Op>) = (None, None);
        let mut core = core_after(alloc, self.config, self.events.as_slice())?;
        let outcome = core.step(Event::Step(task, true))?;
        Ok(outcome)
    }

    /// The trace.
    pub fn into_trace(self) -> Trace
        ensures sizes { sizes result.config ≡ self.sizes }
        ensures events { result.events.items ≡ self.events }
        ensures few { length result.events.items ≤ 1000000 }
    {
        let Draft { config, events, .. } = self;
        Trace { config, events }
    }
}
