//! `hugepool work --trace`: what a workload's calls do to a pool, as a trace.
ghost use Rattle.std.specs.Prelude.{◌≡◌, ◌≤◌, ℕ, true, IfOk, OnOk, length};
ghost use Rattle.hp_base.specs.declared.event.Event.TheVariants.{Begin};
ghost use Rattle.hp_machine.specs.declared.outcome.Outcome.TheVariants.{Begun};
ghost use Rattle.hp_core.specs.Runs.{Row};
ghost use Rattle.hp_client.specs.Rounds.{Advance, AreEnded, Begins, Round, Turn, Turns};
ghost use Rattle.hp_pool_commands.specs.Working.{IsTraced};

use hp_base::{Answer, Event, Op, Task};
use hp_client::{
    Asked, ClientFault, Driver, Report, Workload, ask, config_of, note_calls, run_workload,
};
use hp_core::{Outcome, Tally};
use hp_format::{Draft, Reason, Unadded};
use hp_text::{MOST_EVENTS, Trace};
use std::alloc::Global;

/// A driver of a pool that it has to itself, all of whose events it keeps.
#[derive(Drop)]
struct Tracer {
    draft: Draft,
    heard: Vec<(Task, Op, Answer)>,
}

/// Lets an event happen. The calls of a workload make far fewer than a trace has room for.
fn happen(draft: &mut Draft, event: &Event) -> Result<Outcome, ClientFault>
    ensures sizes { draft.new.sizes ≡ draft.old.sizes }
    ensures row { IfOk result (λ outcome. Row draft.old.core event.now outcome draft.new.core) }
{
    // The checker of borrows asks for a mention of the types that an event and an outcome may hold.
    let _none: (Option<Answer>, Option<Op>, Option<Reason>) = (None, None, None);
    match draft.add(event) {
        Ok(outcome) => Ok(outcome),
        Err(Unadded::Memory) => Err(ClientFault::Memory),
        Err(Unadded::Reason(_)) => Err(ClientFault::Stuck),
    }
}

/// Begins a call.
fn begin(draft: &mut Draft, task: Task, op: Op) -> Result<(), ClientFault>
    ensures sizes { draft.new.sizes ≡ draft.old.sizes }
    ensures row { OnOk result (Row draft.old.core (Begin task op) Begun draft.new.core) }
{
    // The checker of borrows asks for a mention of the type that an outcome may hold.
    let _none: Option<Answer> = None;
    match happen(draft, &Event::Begin(task, op))? {
        Outcome::Begun => Ok(()),
        Outcome::Refused(why) => Err(ClientFault::Refused(why)),
        _ => Err(ClientFault::Stuck),
    }
}

/// Begins the calls, in the list's order, up to the first that is refused.
fn begin_calls(draft: &mut Draft, calls: &[(Task, Op)]) -> Result<(), ClientFault>
    ensures sizes { draft.new.sizes ≡ draft.old.sizes }
    ensures begins { OnOk result (Begins draft.old.core calls.now draft.new.core) }
{
    for (task, op) in calls {
        begin(draft, *task, *op)?;
    }
    Ok(())
}

/// One granted step of a call that hasn't ended.
fn advance(draft: &mut Draft, asked: &mut Asked) -> Result<(), ClientFault>
    ensures sizes { draft.new.sizes ≡ draft.old.sizes }
    ensures step { OnOk result (Advance draft.old.core asked.old draft.new.core asked.new) }
{
    if asked.answer.is_some() {
        return Ok(());
    }
    match happen(draft, &Event::Step(asked.task, true))? {
        Outcome::Moved(_) | Outcome::Blocked(_) => Ok(()),
        Outcome::Ended(answer) => {
            asked.answer = Some(answer);
            Ok(())
        }
        _ => Err(ClientFault::Stuck),
    }
}

/// One step of each call that hasn't ended, in turn.
fn turn(draft: &mut Draft, asked: &mut [Asked]) -> Result<(), ClientFault>
    ensures sizes { draft.new.sizes ≡ draft.old.sizes }
    ensures turn { OnOk result (Turn draft.old.core asked.old draft.new.core asked.new) }
{
    for call in asked.iter_mut() {
        advance(draft, call)?;
    }
    Ok(())
}

/// Turn after turn, until all calls have ended.
fn take_turns(draft: &mut Draft, asked: &mut [Asked]) -> Result<(), ClientFault>
    ensures sizes { draft.new.sizes ≡ draft.old.sizes }
    ensures turns { OnOk result ((turns : ℕ) × Turns turns draft.old.core asked.old draft.new.core asked.new) }
{
    for _ in 0..MOST_EVENTS {
        if asked.iter().all(|call| call.answer.is_some()) {
            return Ok(());
        }
        turn(draft, asked)?;
    }
    Err(ClientFault::Stuck)
}

/// The answers. A call that has none is stuck.
fn answers_of(alloc: Global, asked: &[Asked]) -> Result<Vec<Answer>, ClientFault>
    ensures ended { IfOk result (λ given. AreEnded asked.now given.items) }
    ensures each { IfOk result (λ given. length given.items ≡ length asked.now) }
{
    let mut given = Vec::with_capacity(alloc, asked.len())?;
    for call in asked {
        let Some(answer) = call.answer else {
            return Err(ClientFault::Stuck);
        };
        let Ok(()) = given.push(answer) else {
            return Err(ClientFault::Memory);
        };
    }
    Ok(given)
}

/// Makes a round, and gives the answers.
fn make_round(
    draft: &mut Draft,
    alloc: Global,
    calls: &[(Task, Op)],
) -> Result<Vec<Answer>, ClientFault>
    ensures sizes { draft.new.sizes ≡ draft.old.sizes }
    ensures round { IfOk result (λ given. Round draft.old.core calls.now given.items draft.new.core) }
    ensures each { IfOk result (λ given. length given.items ≡ length calls.now) }
{
    let mut asked = ask(alloc, calls)?;
    begin_calls(draft, calls)?;
    take_turns(draft, &mut asked)?;
    let answers = answers_of(alloc, &asked)?;
    Ok(answers)
}

/// A round begins its calls in the list's order, and then gives each call that hasn't ended one granted step in turn, until all have.
impl Driver for Tracer {
    ghost use Rattle.std.specs.Prelude.{◌≡◌};
    ghost use Rattle.hp_shared.specs.States.{tally_of};
    ghost use Rattle.hp_client.specs.Rounds.{Round};

    ghost heard_by = { λ tracer. tracer.heard.items };

    ghost makes = { λ old calls answers new.
        (new.draft.sizes ≡ old.draft.sizes) × Round old.draft.core calls answers new.draft.core };

    ghost stops = { λ fault old calls new. Unit {0} };

    ghost can_tell = { λ tracer tally. tally ≡ tally_of tracer.draft.core };

    fn round(&mut self, alloc: Global, calls: &[(Task, Op)]) -> Result<Vec<Answer>, ClientFault> {
        self.heard.reserve(calls.len())?;
        let answers = make_round(&mut self.draft, alloc, calls)?;
        note_calls(&mut self.heard, calls, answers.as_slice());
        Ok(answers)
    }

    /// No round leaves a call in flight, unless memory was refused to it.
    fn finish(&mut self, _alloc: Global) -> Result<(), ClientFault> {
        Ok(())
    }

    fn tally(&self) -> Tally {
        self.draft.core().tally()
    }

    fn heard(&self) -> &[(Task, Op, Answer)] {
        self.heard.as_slice()
    }
}

/// Runs a workload over a new pool of its sizes: what came of it, and what happened to the pool.
pub(crate) fn trace_workload(
    alloc: Global,
    workload: Workload,
) -> Result<(Report, Trace), ClientFault>
    ensures traced { IfOk result (λ ran. IsTraced workload ran.0 ran.1) }
    ensures few { IfOk result (λ ran. length ran.1.events.items ≤ 1000000) }
{
    let mut tracer = Tracer {
        draft: Draft::new(alloc, config_of(workload))?,
        heard: Vec::new(alloc),
    };
    let report = run_workload(alloc, workload, &mut tracer)?;
    tracer.draft.is_led();
    Ok((report, tracer.draft.into_trace()))
}
