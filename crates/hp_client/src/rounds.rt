//! Rounds of calls over a core: they begin in order, and then make one step each in turn.
ghost use Rattle.std.specs.Prelude.{◌≡◌, ◌≢◌, ◌+◌, ◌≤◌, ◌↔◌, ℕ, true, false, All, IsSome, IsTrue, None, vec_capacity, IfOk};
ghost use Rattle.std.specs.Prelude.{OnOk, IfErr, OnErr, Ok, Err};
ghost use Rattle.std.specs.Prelude.{List, [], ◌∷◌, length};
ghost use Rattle.hp_base.specs.Numbers.{bit};
ghost use Rattle.hp_base.specs.declared.event.Event.TheVariants.{Begin, Step};
ghost use Rattle.hp_machine.specs.declared.outcome.Outcome.TheVariants.{Begun, Refused};
ghost use Rattle.hp_core.specs.Readers.{calls_of};
ghost use Rattle.hp_core.specs.Runs.{Row, WantsGrowth};
ghost use Rattle.hp_core.specs.State.{CoreState, as_state};
ghost use Rattle.hp_laws.specs.StepsLeft.{left_to_all};
ghost use Rattle.hp_client.specs.Heard.{AreApart};
ghost use Rattle.hp_client.specs.Rounds.{Begins, BeginsRefused, Advance, Turn, TurnStops, TurnsFail, TurnsEnd, AreBlocked};
ghost use Rattle.hp_client.specs.Rounds.{AreEnded, Ends};
ghost use Rattle.hp_client.specs.Rounds.{Round, RoundStops, FinishStops, in_flight, asked_of, IsInFlight, AreInFlight};
ghost use Rattle.hp_client.specs.Rounds.{AreAll, AreOfDistinctTasks};
ghost use Rattle.hp_client.specs.declared.fault.ClientFault.TheVariants.{Stuck};

use crate::fault::ClientFault;
use hp_base::{Answer, Event, Op, Task};
use hp_core::{Core, Outcome, Refusal};
use std::alloc::{AllocError, Global};

/// A call of a round, and what it ended with, if it has.
#[derive(Clone, Copy, Debug, PartialEq, Eq)]
pub struct Asked {
    pub task: Task,
    pub answer: Option<Answer>,
}

// Begins a call.
fn begin(core: &mut Core, task: Task, op: Op) -> Result<(), Refusal>
    ensures ok { OnOk result (Row core.old (Begin task op) Begun core.new) }
    ensures refused { IfErr result (λ why. Row core.old (Begin task op) (Refused why) core.new) }
{
    hp_laws::a_begin_begins_or_is_refused();
    // The checker of borrows asks for a mention of the type that an outcome may hold.
    let _none: Option<Answer> = None;
    let Ok(outcome) = core.step(Event::Begin(task, op)) else {
        unreachable!()
    };
    match outcome {
        Outcome::Begun => Ok(()),
        Outcome::Refused(why) => Err(why),
        _ => unreachable!(),
    }
}

// Begins the calls, in the list's order, up to the first that is refused.
fn begin_calls(core: &mut Core, calls: &[(Task, Op)]) -> Result<(), Refusal>
    ensures ok { OnOk result (Begins core.old calls.now core.new) }
    ensures refused { IfErr result (λ why. BeginsRefused why core.old calls.now core.new) }
{
    for (task, op) in calls {
        begin(core, *task, *op)?;
    }
    Ok(())
}

// One granted step of a call that hasn't ended. Tells whether the call went on.
fn advance(core: &mut Core, asked: &mut Asked) -> Result<bool, AllocError>
    requires { asked.old.answer ≡ None → IsInFlight core.old asked.old.task }
    ensures ok { OnOk result (Advance core.old asked.old core.new asked.new) }
    ensures blocked { result ≡ Ok false → AreBlocked core.old (asked.old ∷ []) core.new }
    ensures nearer { IfOk result (λ moved. left_to_all (as_state core.new) + bit moved ≤ left_to_all (as_state core.old)) }
    ensures same { OnErr result (core.new ≡ core.old) }
    ensures wanted { OnErr result (WantsGrowth core.old.parts core.old.task_states (Step asked.old.task true)) }
{
    if asked.answer.is_some() {
        return Ok(false);
    }
    core.is_reached();
    hp_laws::a_call_in_flight_makes_its_step();
    hp_laws::steps_run_out();
    match core.step(Event::Step(asked.task, true))? {
        Outcome::Moved(_) => Ok(true),
        Outcome::Ended(answer) => {
            asked.answer = Some(answer);
            Ok(true)
        }
        Outcome::Blocked(_) => Ok(false),
        _ => unreachable!(),
    }
}

// One step of each call that hasn't ended, in turn. Tells whether any call went on.
fn turn(core: &mut Core, asked: &mut [Asked]) -> Result<bool, AllocError>
    requires apart { AreOfDistinctTasks asked.old }
    requires in_flight { AreInFlight core.old asked.old }
    ensures ok { OnOk result (Turn core.old asked.old core.new asked.new) }
    ensures blocked { result ≡ Ok false → AreBlocked core.old asked.old core.new }
    ensures nearer { IfOk result (λ moved. left_to_all (as_state core.new) + bit moved ≤ left_to_all (as_state core.old)) }
    ensures apart { OnOk result (AreOfDistinctTasks asked.new) }
    ensures in_flight { OnOk result (AreInFlight core.new asked.new) }
    ensures all { OnOk result (AreAll core.old asked.old → AreAll core.new asked.new) }
    ensures err { OnErr result (TurnStops core.old asked.old core.new) }
{
    let mut moved = false;
    for call in asked.iter_mut() {
        core.is_reached();
        hp_laws::others_stay();
        hp_laws::a_call_in_flight_makes_its_step();
        if advance(core, call)? {
            moved = true;
        }
    }
    Ok(moved)
}

// Whether each call has ended.
fn all_ended(asked: &[Asked]) -> bool
    ensures { IsTrue result ↔ All (λ call. IsSome call.answer) asked.now }
{
    asked.iter().all(|call| call.answer.is_some())
}

// Turn after turn, until each call has ended.
fn take_turns(core: &mut Core, asked: &mut [Asked]) -> Result<(), ClientFault>
    requires apart { AreOfDistinctTasks asked.old }
    requires in_flight { AreInFlight core.old asked.old }
    ensures ok { OnOk result (TurnsEnd core.old asked.old core.new asked.new) }
    ensures all { OnOk result (AreAll core.old asked.old → AreAll core.new asked.new) }
    ensures err { IfErr result (λ fault. TurnsFail fault core.old asked.old core.new) }
    ensures free { IfErr result (λ fault. AreAll core.old asked.old → fault ≢ Stuck) }
{
    'turns: while !all_ended(asked) {
        core.some_call_is_not_blocked();
        core.a_blocked_step_waits_for_a_holder();
        if !turn(core, asked)? {
            return Err(ClientFault::Stuck);
        }
    }
    Ok(())
}

// Tells what each call ended with, in room that was made before.
fn tell_answers(asked: &[Asked], answers: &mut Vec<Answer>)
    requires ended { All (λ call. IsSome call.answer) asked.now }
    requires empty { answers.old.items ≡ [] }
    requires room { length asked.now ≤ vec_capacity answers.old }
    ensures answers { AreEnded asked.now answers.new.items }
    ensures each { length answers.new.items ≡ length asked.now }
{
    for call in asked {
        match call.answer {
            Some(answer) => answers.push_reserved(answer),
            None => unreachable!(),
        }
    }
}

/// The calls as they are asked, in the list's order: none has ended.
#[tactic(auto, unfolding(crate::specs::Rounds::asked_of))]
pub fn ask(alloc: Global, calls: &[(Task, Op)]) -> Result<Vec<Asked>, AllocError>
    ensures asked { IfOk result (λ asked. asked.items ≡ asked_of calls.now) }
    ensures each { IfOk result (λ asked. length asked.items ≡ length calls.now) }
{
    calls
        .iter()
        .map(|call| Asked {
            task: call.0,
            answer: None,
        })
        .collect(alloc)
}

/// A round: its calls begin in the list's order, and then each that hasn't ended makes one granted step in turn.
/// Tells what they ended with, in the list's order.
pub(crate) fn run_round(
    core: &mut Core,
    alloc: Global,
    calls: &[(Task, Op)],
) -> Result<Vec<Answer>, ClientFault>
    requires { AreApart calls.now }
    ensures ok { IfOk result (λ answers. Round core.old calls.now answers.items core.new) }
    ensures each { IfOk result (λ answers. length answers.items ≡ length calls.now) }
    ensures err { IfErr result (λ fault. RoundStops fault core.old calls.now core.new) }
    ensures free { calls_of core.old ≡ 0 → IfErr result (λ fault. fault ≢ Stuck) }
    ensures done { calls_of core.old ≡ 0 → OnOk result (calls_of core.new ≡ 0) }
{
    core.is_reached();
    hp_laws::callers_live();
    let mut asked = ask(alloc, calls)?;
    let mut answers = Vec::with_capacity(alloc, asked.len())?;
    hp_laws::a_begin_begins_or_is_refused();
    hp_laws::others_stay();
    if let Err(why) = begin_calls(core, calls) {
        return Err(ClientFault::Refused(why));
    }
    take_turns(core, &mut asked)?;
    tell_answers(&asked, &mut answers);
    Ok(answers)
}

// The calls in flight, in the order of their tasks.
#[tactic(auto, unfolding(crate::specs::Rounds::in_flight))]
fn ask_in_flight(alloc: Global, core: &Core) -> Result<Vec<Asked>, AllocError>
    ensures { IfOk result (λ asked. asked.items ≡ in_flight core.now) }
{
    let end = core.config().tasks + 1;
    (1..end)
        .filter(|number| core.phase(Task::new(*number)).is_some())
        .map(|number| Asked {
            task: Task::new(number),
            answer: None,
        })
        .collect(alloc)
}

/// Takes the calls in flight to their ends, one granted step each in turn, and drops their answers.
pub(crate) fn end_calls(core: &mut Core, alloc: Global) -> Result<(), ClientFault>
    ensures ended { OnOk result (Ends core.old (in_flight core.old) core.new) }
    ensures calls { OnOk result (calls_of core.new ≡ 0) }
    ensures stopped { IfErr result (λ fault. FinishStops fault core.old core.new) }
{
    core.is_reached();
    core.always();
    hp_laws::callers_live();
    let mut asked = ask_in_flight(alloc, core)?;
    take_turns(core, &mut asked)?;
    Ok(())
}
