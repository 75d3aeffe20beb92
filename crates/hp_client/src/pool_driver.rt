//! A driver of a running pool.
ghost use Rattle.std.specs.Prelude.{◌≡◌, ◌++◌, ◌≤◌, [], length, map, IfOk, OnOk, IfErr, OnErr, vec_capacity};
ghost use Rattle.hp_core.specs.State.{CoreState};
ghost use Rattle.hp_shared.specs.Journal.{IsCameTo};
ghost use Rattle.hp_shared.specs.States.{tally_of};
ghost use Rattle.hp_client.specs.Crew.{AllRun};
ghost use Rattle.hp_client.specs.Heard.{heard_of, AreApart};
ghost use Rattle.hp_client.specs.PoolRounds.{PoolRound, PoolRoundStops, AreAnswers, FirstUnanswered, Finished, FinishFails};

use crate::crew::Team;
use crate::driver::Driver;
use crate::fault::ClientFault;
use crate::heard::note_calls;
use hp_base::{Answer, Op, Task};
use hp_core::Tally;
use std::alloc::Global;
use std::sync::Wait;

/// A driver of a running pool. What it runs its crew with starts a thread for each call of a round.
#[derive(Drop)]
pub struct PoolDriver<'a, C, R, F> {
    rt: &'a R,
    crew: C,
    run: F,
    heard: Vec<(Task, Op, Answer)>,
}

// What the calls came to, in their order, in room that was made before; or why the first that has no answer has none.
fn tell_answers<C: Team>(
    crew: &C,
    calls: &[(Task, Op)],
    answers: &mut Vec<Answer>,
) -> Result<(), ClientFault>
    requires empty { answers.old.items ≡ [] }
    requires room { length calls.now ≤ vec_capacity answers.old }
    ensures ok { OnOk result (AreAnswers (C.members crew.now) calls.now answers.new.items) }
    ensures each { OnOk result (length answers.new.items ≡ length calls.now) }
    ensures err { IfErr result (λ fault. FirstUnanswered (C.members crew.now) calls.now fault) }
{
    for call in calls {
        answers.push_reserved(crew.answer_of(call.0)?);
    }
    Ok(())
}

impl<'a, C, R, F: Drop> PoolDriver<'a, C, R, F> {
    /// A driver of this crew, which `run` takes through its work: `|crew, rt| crew.run(rt)`.
    pub fn new(alloc: Global, rt: &'a R, crew: C, run: F) -> Self
        ensures crew { result.crew ≡ crew }
        ensures heard { result.heard.items ≡ [] }
    {
        PoolDriver {
            rt,
            crew,
            run,
            heard: Vec::new(alloc),
        }
    }

    /// The crew.
    pub fn crew(&self) -> &C
        ensures { result.now ≡ self.now.crew }
    {
        &self.crew
    }

    /// The crew, with nothing more to carry.
    pub fn into_crew(self) -> C
        ensures { result ≡ self.entry.crew }
    {
        self.crew
    }
}

/// A round makes room for what will be heard, gives each call to its task's seat, and makes them all at once, each in a
/// thread of its own; it returns when each came to an end. It is for the pool to say how they interleave.
impl<'a, C: Team, R: Wait, F: Fn(&mut C, &R)> Driver for PoolDriver<'a, C, R, F> {
    ghost heard_by = { λ driver. driver.heard.items };

    ghost makes = { λ old calls answers new. PoolRound (C.members old.crew) calls answers (C.members new.crew) };

    ghost stops = { λ fault old calls new. PoolRoundStops fault (C.members old.crew) calls (C.members new.crew) };

    ghost can_tell = { λ driver tally. (core : CoreState) × IsCameTo core × (tally ≡ tally_of core) };

    ghost rests_on = { AllRun F.Fn C.members };

    fn round(&mut self, alloc: Global, calls: &[(Task, Op)]) -> Result<Vec<Answer>, ClientFault>
        requires apart { AreApart calls.now }
        requires rests { AllRun F.Fn C.members }
        ensures answers { IfOk result (λ answers. length answers.items ≡ length calls.now) }
        ensures heard { IfOk result (λ answers. self.new.heard.items ≡ self.old.heard.items ++ heard_of calls.now answers.items) }
        ensures err { OnErr result (self.new.heard.items ≡ self.old.heard.items) }
        ensures round { IfOk result (λ answers. PoolRound (C.members self.old.crew) calls.now answers.items (C.members self.new.crew)) }
        ensures stopped { IfErr result (λ fault. PoolRoundStops fault (C.members self.old.crew) calls.now (C.members self.new.crew)) }
    {
        self.heard.reserve(calls.len())?;
        let mut answers = Vec::with_capacity(alloc, calls.len())?;
        if let Err(why) = self.crew.give(calls) {
            return Err(ClientFault::Refused(why));
        }
        (self.run)(&mut self.crew, self.rt);
        tell_answers(&self.crew, calls, &mut answers)?;
        note_calls(&mut self.heard, calls, &answers);
        Ok(answers)
    }

    fn finish(&mut self, _alloc: Global) -> Result<(), ClientFault>
        requires rests { AllRun F.Fn C.members }
        ensures heard { self.new.heard.items ≡ self.old.heard.items }
        ensures ended { OnOk result (Finished (C.members self.old.crew) (C.members self.new.crew)) }
        ensures stopped { IfErr result (λ fault. FinishFails fault (C.members self.old.crew) (C.members self.new.crew)) }
    {
        self.crew.resume_all();
        (self.run)(&mut self.crew, self.rt);
        self.crew.finished()
    }

    fn tally(&self) -> Tally {
        self.crew.tally(self.rt)
    }

    fn heard(&self) -> &[(Task, Op, Answer)] {
        self.heard.as_slice()
    }
}
