//! A crew: the seats of a running pool, each with what it is to do next, and threads that do it at once.
ghost use Rattle.std.specs.Prelude.{◌≡◌, ◌≤◌, ◌↔◌, [], map, length, IsTrue, IfOk, IfErr, OnOk, All, vec_capacity};
ghost use Rattle.std.specs.Thread.{IsSync, IsSend};
ghost use Rattle.hp_core.specs.State.{CoreState};
ghost use Rattle.hp_shared.specs.Journal.{IsCameTo};
ghost use Rattle.hp_shared.specs.Seats.{AllSeated, new_seat};
ghost use Rattle.hp_shared.specs.States.{tally_of};
ghost use Rattle.hp_client.specs.Crew.{AllWork, Works, given, resuming, has_member, work_at, work_for, members_of, new_seats, seats_at};
ghost use Rattle.hp_client.specs.PoolRounds.{AreSeated, answer_of, end_of, AreEnded, FirstUnended};

use crate::fault::ClientFault;
use hp_base::{Answer, Config, Op, Task};
use hp_core::{Refusal, Tally};
use hp_shared::{CallFault, Gate, Halting, Reply, Seat, Shared, call, resume};
use std::alloc::{AllocError, Global};
use std::marker::Model;
use std::sync::Wait;
use std::sync::ledger::{Blank, Ledger};
use std::thread::{Threads, join_mut};

/// What a seat is to do, or what came of it.
#[derive(Clone, Copy, Debug, PartialEq, Eq)]
pub enum Work {
    Idle,
    /// To make this call.
    Call(Op),
    /// To go on with the call that it has in flight.
    Resume,
    /// It was done, and came to this.
    Came(Result<Reply, CallFault>),
}

// A seat, and its work.
#[derive(Drop)]
struct Member<L: Ledger> {
    seat: Seat<L>,
    work: Work,
}

impl<L: Ledger> Model for Member<L> {
    ghost use Rattle.hp_client.specs.Crew.{MemberState};

    ghost Value = { MemberState };

    ghost view = { λ d. record { seat = d.seat; work = d.work } };
}

impl<L: Ledger> Member<L> {
    // Does the member's work, hold by hold.
    fn run<G: Gate, R: Wait>(&mut self, hold: &Halting<'_, L>, gate: &G, rt: &R)
        ensures { Works self.old self.new }
    {
        let Member { seat, work } = self;
        match *work {
            Work::Call(op) => *work = Work::Came(call(hold, rt, seat, op, gate)),
            Work::Resume => *work = Work::Came(resume(hold, rt, seat, gate)),
            Work::Idle | Work::Came(_) => {}
        }
    }
}

/// Seats with what each is to do: who gives them calls, and asks what came of them, needs to know no more.
pub trait Team {
    ghost use Rattle.std.specs.Prelude.{List};
    ghost use Rattle.hp_client.specs.Crew.{MemberState};

    ghost members: { Self → List MemberState };

    /// Gives each call to the seat of its task, and nothing to the others. Where a task has no seat, nothing is given.
    fn give(&mut self, calls: &[(Task, Op)]) -> Result<(), Refusal>
        ensures ok { OnOk result (members self.new ≡ map (given calls.now) (members self.old)) }
        ensures seated { OnOk result (AreSeated (members self.old) calls.now) }
        ensures err { IfErr result (λ why. (why ≡ Refusal.NotAlive) × (members self.new ≡ members self.old)) }
        ensures unseated { IfErr result (λ _. ¬ (AreSeated (members self.old) calls.now)) };

    /// Tells each seat to go on with its call in flight.
    fn resume_all(&mut self)
        ensures { members self.new ≡ map resuming (members self.old) };

    /// What came of the task's call: its answer, or why there is none.
    fn answer_of(&self, task: Task) -> Result<Answer, ClientFault>
        ensures { result ≡ answer_of (work_at task (members self.now)) };

    /// Whether each call in flight came to its end, or why the first, in the seats' order, didn't.
    fn finished(&self) -> Result<(), ClientFault>
        ensures ok { OnOk result (AreEnded (members self.now)) }
        ensures err { IfErr result (λ fault. FirstUnended (members self.now) fault) };

    /// The numbers of the pool, read in one hold that changes nothing.
    fn tally<R: Wait>(&self, rt: &R) -> Tally
        ensures { (core : CoreState) × IsCameTo core × (result ≡ tally_of core) };
}

/// A running pool with all its seats, and the gate that their calls go through.
#[derive(Drop)]
pub struct Crew<L: Ledger, G> {
    shared: Shared<L>,
    gate: G,
    members: Vec<Member<L>>,
}

// The first call of the task among these, if there is one.
fn work_for(task: Task, calls: &[(Task, Op)]) -> Work
    ensures { result ≡ work_for task calls.now }
{
    for (caller, op) in calls {
        if *caller == task {
            return Work::Call(*op);
        }
    }
    Work::Idle
}

// Whether the task has a member.
fn has_member<L: Ledger>(members: &[Member<L>], task: Task) -> bool
    ensures { result ≡ has_member task members.now }
{
    members.iter().any(|member| member.seat.task() == task)
}

// Whether each of the calls' tasks has a member.
fn are_seated<L: Ledger>(members: &[Member<L>], calls: &[(Task, Op)]) -> bool
    ensures { IsTrue result ↔ AreSeated members.now calls.now }
{
    calls.iter().all(|call| has_member(members, call.0))
}

// Gives each member the call of its task, or nothing.
fn give_calls<L: Ledger>(members: &mut [Member<L>], calls: &[(Task, Op)])
    ensures { members.new ≡ map (given calls.now) members.old }
{
    for member in members.iter_mut() {
        member.work = work_for(member.seat.task(), calls);
    }
}

// Tells each member to go on with its call in flight.
fn resume_members<L: Ledger>(members: &mut [Member<L>])
    ensures { members.new ≡ map resuming members.old }
{
    for member in members.iter_mut() {
        member.work = Work::Resume;
    }
}

// The work at the task's member.
fn work_at<L: Ledger>(members: &[Member<L>], task: Task) -> Work
    ensures { result ≡ work_at task members.now }
{
    for member in members {
        if member.seat.task() == task {
            return member.work;
        }
    }
    Work::Idle
}

// What came of a call.
fn answer_of(work: Work) -> Result<Answer, ClientFault>
    ensures { result ≡ answer_of work }
{
    match work {
        Work::Came(Ok(Reply::Ended(answer))) => Ok(answer),
        Work::Came(Ok(Reply::Refused(why))) => Err(ClientFault::Refused(why)),
        Work::Came(Err(_)) => Err(ClientFault::Memory),
        Work::Call(_) | Work::Resume => Err(ClientFault::Refused(Refusal::Idle)),
        Work::Idle => Err(ClientFault::Refused(Refusal::NotAlive)),
    }
}

// Whether a call in flight came to its end, or there was none.
fn end_of(work: Work) -> Result<(), ClientFault>
    ensures { result ≡ end_of work }
{
    match work {
        Work::Idle | Work::Came(Ok(Reply::Ended(_) | Reply::Refused(Refusal::Idle))) => Ok(()),
        Work::Came(Ok(Reply::Refused(why))) => Err(ClientFault::Refused(why)),
        Work::Came(Err(_)) => Err(ClientFault::Memory),
        Work::Call(_) | Work::Resume => Err(ClientFault::Refused(Refusal::InCall)),
    }
}

// Whether all came to their ends, or why the first didn't.
fn all_ended<L: Ledger>(members: &[Member<L>]) -> Result<(), ClientFault>
    ensures ok { OnOk result (AreEnded members.now) }
    ensures err { IfErr result (λ fault. FirstUnended members.now fault) }
{
    for member in members {
        end_of(member.work)?;
    }
    Ok(())
}

// Does the work of all members at once, that of each in a thread of its own. Who has nothing to do needs none.
#[cycle(members)]
fn run_members<L: Ledger + Send + Sync, G: Gate + Sync, R: Threads + Wait + Sync>(
    hold: &Halting<'_, L>,
    gate: &G,
    members: &mut [Member<L>],
    rt: &R,
)
    ensures { AllWork members.old members.new }
{
    let Some((first, rest)) = members.split_first_mut() else {
        return;
    };
    if matches!(first.work, Work::Idle | Work::Came(_)) {
        run_members(hold, gate, rest, rt);
        return;
    }
    join_mut(
        rt,
        &mut ||
            requires { IsSync R.row × IsSync G.row × IsSend L.row × IsSync L.row }
            ensures { Works first.entry.now first.exit.now }
        { first.run(hold, gate, rt) },
        &mut ||
            requires { IsSync R.row × IsSync G.row × IsSend L.row × IsSync L.row }
            ensures { AllWork rest.entry.now rest.exit.now }
        { run_members(hold, gate, rest, rt) },
    );
}

// A member for each seat, with nothing to do.
fn members_of<L: Ledger>(alloc: Global, seats: Vec<Seat<L>>) -> Result<Vec<Member<L>>, AllocError>
    ensures { IfOk result (λ members. members.items ≡ members_of seats.items) }
{
    seats
        .into_iter()
        .map(|seat| Member {
            seat,
            work: Work::Idle,
        })
        .collect(alloc)
}

// The seats of the members, in room that was made before.
fn seats_at<L: Ledger>(members: Vec<Member<L>>, seats: &mut Vec<Seat<L>>)
    requires empty { seats.old.items ≡ [] }
    requires room { length members.items ≤ vec_capacity seats.old }
    ensures { seats.new.items ≡ seats_at members.items }
{
    for member in members {
        let Member { seat, work: _ } = member;
        seats.push_reserved(seat);
    }
}

impl<L: Ledger, G: Drop> Crew<L, G> {
    /// The crew of a pool, with all its seats.
    pub fn new(
        alloc: Global,
        shared: Shared<L>,
        seats: Vec<Seat<L>>,
        gate: G,
    ) -> Result<Crew<L, G>, AllocError>
        requires { AllSeated shared.config.tasks seats.items }
        ensures members { IfOk result (λ crew. crew.members.items ≡ members_of seats.items) }
        ensures config { IfOk result (λ crew. crew.shared.config ≡ shared.config) }
        ensures gate { IfOk result (λ crew. crew.gate ≡ gate) }
    {
        let members = members_of(alloc, seats)?;
        Ok(Crew {
            shared,
            gate,
            members,
        })
    }

    /// The crew of a new pool of these sizes. The ledger's blank has as many parts as there are tasks.
    pub fn open(
        alloc: Global,
        blank: Blank,
        config: Config,
        gate: G,
    ) -> Result<Crew<L, G>, AllocError>
        requires name { blank.name ≡ L.name }
        requires parts { (blank.parts ≡ L.parts) × (blank.parts ≡ config.tasks) }
        ensures config { IfOk result (λ crew. crew.shared.config ≡ config) }
        ensures members { IfOk result (λ crew. crew.members.items ≡ members_of (new_seats config.tasks)) }
        ensures gate { IfOk result (λ crew. crew.gate ≡ gate) }
    {
        let (shared, seats) = Shared::new(alloc, blank, config)?;
        Crew::new(alloc, shared, seats, gate)
    }

    /// The gate that the calls go through.
    pub fn gate(&self) -> &G
        ensures { result.now ≡ self.now.gate }
    {
        &self.gate
    }

    /// The pool, its seats, and the gate. Where there is no memory for the list of seats, the crew is as it was.
    pub fn into_parts(self, alloc: Global) -> Result<(Shared<L>, Vec<Seat<L>>, G), Crew<L, G>>
        ensures pool { IfOk result (λ parts. parts.0 ≡ self.shared) }
        ensures seats { IfOk result (λ parts. parts.1.items ≡ seats_at self.members.items) }
        ensures gate { IfOk result (λ parts. parts.2 ≡ self.gate) }
        ensures err { IfErr result (λ back. back ≡ self) }
    {
        let Ok(mut seats) = Vec::with_capacity(alloc, self.members.len()) else {
            return Err(self);
        };
        let Crew {
            shared,
            gate,
            members,
        } = self;
        seats_at(members, &mut seats);
        Ok((shared, seats, gate))
    }
}

impl<L: Ledger + Send + Sync, G: Gate + Sync> Crew<L, G> {
    /// Does what each seat was given, at once. It returns when all came to an end. Where one finds no memory all others stop, since
    /// some may wait for it: they stay in flight.
    pub fn run<R: Threads + Wait + Sync>(&mut self, rt: &R)
        ensures { AllWork self.old.members.items self.new.members.items }
    {
        let Crew {
            shared,
            gate,
            members,
        } = self;
        run_members(&Halting::new(shared), gate, members.as_mut_slice(), rt);
    }
}

impl<L: Ledger, G> Team for Crew<L, G> {
    ghost members = { λ crew. crew.members.items };

    fn give(&mut self, calls: &[(Task, Op)]) -> Result<(), Refusal> {
        if !are_seated(self.members.as_slice(), calls) {
            return Err(Refusal::NotAlive);
        }
        give_calls(self.members.as_mut_slice(), calls);
        Ok(())
    }

    fn resume_all(&mut self) {
        resume_members(self.members.as_mut_slice());
    }

    fn answer_of(&self, task: Task) -> Result<Answer, ClientFault> {
        answer_of(work_at(self.members.as_slice(), task))
    }

    fn finished(&self) -> Result<(), ClientFault> {
        all_ended(self.members.as_slice())
    }

    fn tally<R: Wait>(&self, rt: &R) -> Tally {
        self.shared.tally(rt)
    }
}
