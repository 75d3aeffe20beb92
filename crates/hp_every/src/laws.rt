//! Laws of all schedules, each said by the contract of a function that does nothing.
ghost use Rattle.std.specs.Prelude.{◌≡◌, ◌≤◌, ◌<◌, ℕ, List, length};
ghost use Rattle.hp_base.specs.declared.event.Event.{Event};
ghost use Rattle.hp_machine.specs.declared.outcome.Outcome.{Outcome};
ghost use Rattle.hp_core.specs.State.{CoreState};
ghost use Rattle.hp_core.specs.Runs.{Row};
ghost use Rattle.hp_text.specs.declared.script.Script.{Script};
ghost use Rattle.hp_watch.specs.Moments.{IsRunOf, Moment, events_of};
ghost use Rattle.hp_explore.specs.Explored.{IsExplored};
ghost use Rattle.hp_explore.specs.declared.line.Finish.TheVariants.{Finished};
ghost use Rattle.hp_explore.specs.declared.line.RunLine.{RunLine};
ghost use Rattle.hp_hunt.specs.Conditions.{SomeRunMeets, SomeRunMisses};
ghost use Rattle.hp_hunt.specs.declared.condition.Condition.{Condition};
ghost use Rattle.hp_every.specs.Places.{AreAlike, HasFuture, IsPlaceOf, outcomes_of, place_words};
ghost use Rattle.hp_every.specs.Scheduled.{IsScheduled, how_many, is_denied, is_kill};
ghost use Rattle.hp_every.specs.Schedules.{AnyTurn, Ends, IsSchedule, IsShortest, Leads, NoScheduleMeets, Place, plan_for};
ghost use Rattle.hp_every.specs.Eager.{BeginsFirst, IsCalm, MayBegin, MayStepAlone, StepsFirst};

/// The moments of a schedule are those of a run of the machine, from a new core of the script's config on. So whatever holds of every run
/// holds of every schedule.
pub fn a_schedule_is_a_run()
    ensures { (script : Script) (denials kills : ℕ) (first : CoreState) (moments : List Moment) (last : Place)
        → IsSchedule script denials kills first moments last → IsRunOf script.config (events_of moments) first moments }
{}

/// Each run that an explorer makes is one of the schedules, if so many denials and kills are allowed as it has: they have the same outcomes
/// and states, moment by moment. So what no schedule does no explorer finds, whatever its seed and its chances.
pub fn an_explored_run_is_a_schedule()
    ensures { (script : Script) (seed deny kill run : ℕ) (events : List Event) (line : RunLine) (denials kills : ℕ)
        → IsExplored script seed deny kill run events line → how_many is_denied events ≤ denials → how_many is_kill events ≤ kills
        → IsScheduled script denials kills events line.finish }
{}

/// Where no schedule meets the conditions, each run that an explorer makes and finishes, with at most so many denials and kills, misses one
/// of them, whatever its seed and its chances.
pub fn what_no_schedule_meets_explored_runs_miss()
    ensures { (script : Script) (seed deny kill run : ℕ) (events : List Event) (line : RunLine) (denials kills : ℕ)
        (conditions : List Condition)
        → NoScheduleMeets script denials kills conditions → IsExplored script seed deny kill run events line
        → how_many is_denied events ≤ denials → how_many is_kill events ≤ kills → line.finish ≡ Finished
        → SomeRunMisses script.config events conditions }
{}

/// A shortest schedule that meets the conditions is a run of the machine that meets them, and all shortest have as many events. Each run
/// that an explorer makes and finishes with fewer events, and with at most so many denials and kills, misses a condition.
pub fn a_shortest_schedule_is_a_run()
    ensures meets { (script : Script) (denials kills : ℕ) (conditions : List Condition) (events : List Event)
        → IsShortest script denials kills conditions events → SomeRunMeets script.config events conditions }
    ensures length { (script : Script) (denials kills : ℕ) (conditions : List Condition) (events others : List Event)
        → IsShortest script denials kills conditions events → IsShortest script denials kills conditions others
        → length events ≡ length others }
    ensures fewer { (script : Script) (seed deny kill run : ℕ) (events others : List Event) (line : RunLine) (denials kills : ℕ)
        (conditions : List Condition)
        → IsShortest script denials kills conditions events → IsExplored script seed deny kill run others line
        → how_many is_denied others ≤ denials → how_many is_kill others ≤ kills → line.finish ≡ Finished
        → length others < length events → SomeRunMisses script.config others conditions }
{}

/// Two places with equal words differ in the names of frames alone, by whatever schedules they are reached: what follows from the one
/// follows from the other, by the same events with the same outcomes, and leads to places that differ so again. So a search that has seen the
/// words of a place has seen its whole future.
pub fn equal_places_have_equal_futures()
    ensures alike { (script : Script) (p q : Place) → IsPlaceOf script p → IsPlaceOf script q → place_words p ≡ place_words q → AreAlike p q }
    ensures futures { (script : Script) (p q : Place) (moments : List Moment) (last : Place)
        → IsPlaceOf script p → IsPlaceOf script q → place_words p ≡ place_words q → Leads (plan_for script) p moments last
        → HasFuture (plan_for script) q moments last }
{}

/// Which free frame is taken doesn't show in a schedule: two of the same events have the same outcomes, and lead to places that differ in
/// the names of frames alone. So a list of events tells the place, up to these names.
pub fn events_lead_to_one_place()
    ensures { (script : Script) (denials kills : ℕ) (first other : CoreState) (moments others : List Moment) (p q : Place)
        → IsSchedule script denials kills first moments p → IsSchedule script denials kills other others q
        → events_of moments ≡ events_of others → (outcomes_of moments ≡ outcomes_of others) × AreAlike p q }
{}

/// Nor does it show in what may be done: where two places differ in the names of frames alone, each turn of the one is a turn of the other,
/// has the same outcome there, and leads to places that differ so again. The core that it leads to is whatever the machine's row allows.
pub fn names_of_frames_change_no_turn()
    ensures { (script : Script) (p q r : Place) (event : Event) (outcome other : Outcome) (core : CoreState)
        → IsPlaceOf script p → IsPlaceOf script q → AreAlike p q → AnyTurn (plan_for script) p event outcome r
        → Row q.core event other core
        → AnyTurn (plan_for script) q event other (record r { core = core }) × (other ≡ outcome)
        × AreAlike r (record r { core = core }) }
{}

/// Where no step may be denied any more and no task killed, a task that may begin its next call may as well begin it first. For each schedule to
/// its end from there another begins so: it has as many moments, leads to the same place, and the calls of each task have the same answers in it.
pub fn a_begin_may_come_first()
    ensures { (script : Script) (p last : Place) (task : ℕ) (moments : List Moment)
        → MayBegin (plan_for script) p task → IsCalm p → Leads (plan_for script) p moments last → Ends (plan_for script) last
        → BeginsFirst (plan_for script) p task moments last }
{}

/// So may a private step of a call: one that looks at what its own task alone changes, and changes nothing but where the call stands.
pub fn a_private_step_may_come_first()
    ensures { (script : Script) (p last : Place) (task : ℕ) (moments : List Moment)
        → IsPlaceOf script p → MayStepAlone p task → IsCalm p → Leads (plan_for script) p moments last → Ends (plan_for script) last
        → StepsFirst (plan_for script) p task moments last }
{}
