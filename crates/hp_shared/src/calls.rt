//! A whole call on a running pool, hold by hold.
ghost use Rattle.std.specs.Prelude.{◌≡◌, ℕ, IfOk, IfErr, true, false, Ok};
ghost use Rattle.hp_shared.specs.Calls.{Gained, AllMoved, AreAnswered, in_call, is_blocked, phase_of};
ghost use Rattle.hp_shared.specs.Journal.{IsOutcomeOf, IsRowOf};
ghost use Rattle.hp_shared.specs.Replies.{Steps, IsCall, IsResumed, StoppedCall};
ghost use Rattle.hp_shared.specs.States.{seat_with};

use crate::fault::{CallFault, Reply};
use crate::seat::Seat;
use crate::shared::Hold;
use hp_base::{Event, Op, Task};
use hp_machine::{Outcome, Phase, Refusal};
use std::sync::Wait;
use std::sync::ledger::Ledger;

/// What happens between the holds of a call, while no lock is held.
pub trait Gate {
    ghost use Rattle.std.specs.Prelude.{Bool};
    ghost use Rattle.hp_machine.specs.declared.phase.Phase.{Phase};

    // whether it may answer so where a call stands in that phase
    ghost may_answer: { Self → Phase → Bool → Bool };

    /// After each hold that moved the call, to that phase.
    fn between(&self, task: Task, phase: Phase);

    /// Before each step, which finds the call in that phase: whether growth that the step wants is granted.
    fn grant(&self, task: Task, phase: Phase) -> bool
        ensures answer { may_answer self.now phase result ≡ true };
}

/// A gate that holds nobody up and grants each growth.
#[derive(Clone, Copy, Debug, Drop)]
pub struct Open;

impl Gate for Open {
    ghost may_answer = { λ gate phase answer. answer };

    fn between(&self, _task: Task, _phase: Phase) {}

    fn grant(&self, _task: Task, _phase: Phase) -> bool {
        true
    }
}

/// Makes a call, from its beginning to its end. It reaches the pool by `attempt` and `pause` alone. Where the seat has a call
/// in flight it is refused, and where memory is wanted `resume` goes on with it.
pub fn call<L: Ledger, H: Hold<L>, G: Gate, R: Wait>(
    hold: &H,
    rt: &R,
    seat: &mut Seat<L>,
    op: Op,
    gate: &G,
) -> Result<Reply, CallFault>
    ensures ok { IfOk result (λ reply. IsCall seat.old.task op reply seat.old.list seat.new.list) }
    ensures err { IfErr result (λ fault. StoppedCall seat.old.task op fault seat.old.list seat.new.list) }
    ensures answered { Gained seat.old.list seat.new.list (AreAnswered (G.may_answer gate.now) (phase_of seat.old.list)) }
    ensures task { seat.new.task ≡ seat.old.task }
    ensures earlier { seat.new.earlier ≡ seat.old.earlier }
    ensures in_flight { in_call seat.old.list ≡ true
        → (result ≡ Ok (Reply.Refused Refusal.InCall)) × (seat.new ≡ seat.old) }
{
    if seat.is_in_call() {
        return Ok(Reply::Refused(Refusal::InCall));
    }
    match hold.attempt(rt, seat, Event::Begin(seat.task(), op)) {
        Ok(Outcome::Begun) => go_on(hold, rt, seat, gate),
        Ok(Outcome::Refused(refusal)) => Ok(Reply::Refused(refusal)),
        Ok(_) => unreachable!(),
        Err(fault) => Err(fault),
    }
}

/// Goes on with the call that the seat has in flight. Where it has none it is refused.
pub fn resume<L: Ledger, H: Hold<L>, G: Gate, R: Wait>(
    hold: &H,
    rt: &R,
    seat: &mut Seat<L>,
    gate: &G,
) -> Result<Reply, CallFault>
    ensures ok { IfOk result (λ reply. IsResumed seat.old.task reply seat.old.list seat.new.list) }
    ensures err { IfErr result
        (λ fault. (fault ≡ CallFault.Memory true) × Gained seat.old.list seat.new.list (AllMoved seat.old.task)) }
    ensures answered { Gained seat.old.list seat.new.list (AreAnswered (G.may_answer gate.now) (phase_of seat.old.list)) }
    ensures task { seat.new.task ≡ seat.old.task }
    ensures earlier { seat.new.earlier ≡ seat.old.earlier }
    ensures idle { in_call seat.old.list ≡ false
        → (result ≡ Ok (Reply.Refused Refusal.Idle)) × (seat.new ≡ seat.old) }
{
    if !seat.is_in_call() {
        return Ok(Reply::Refused(Refusal::Idle));
    }
    go_on(hold, rt, seat, gate)
}

// Steps until the call ends, is refused or lacks memory.
fn go_on<L: Ledger, H: Hold<L>, G: Gate, R: Wait>(
    hold: &H,
    rt: &R,
    seat: &mut Seat<L>,
    gate: &G,
) -> Result<Reply, CallFault>
    ensures ok { IfOk result (λ reply. Gained seat.old.list seat.new.list (Steps seat.old.task reply)) }
    ensures err { IfErr result
        (λ fault. (fault ≡ CallFault.Memory true) × Gained seat.old.list seat.new.list (AllMoved seat.old.task)) }
    ensures answered { Gained seat.old.list seat.new.list (AreAnswered (G.may_answer gate.now) (phase_of seat.old.list)) }
    ensures task { seat.new.task ≡ seat.old.task }
    ensures earlier { seat.new.earlier ≡ seat.old.earlier }
{
    let task = seat.task();
    'steps: for _ in rt.forever() {
        let grant = gate.grant(task, seat.phase());
        match step(hold, rt, seat, grant) {
            Ok(Outcome::Moved(phase)) => gate.between(task, phase),
            Ok(Outcome::Ended(answer)) => return Ok(Reply::Ended(answer)),
            Ok(Outcome::Refused(refusal)) => return Ok(Reply::Refused(refusal)),
            Ok(Outcome::Begun | Outcome::Blocked(_) | Outcome::Marked | Outcome::Resized(_)) =>
                unreachable!(),
            Err(_) => return Err(CallFault::Memory { begun: true }),
        }
    }
    unreachable!()
}

// One step, granted or denied. While another task's call holds it up it waits: whoever was called makes the step at once, since
// others may wait for the same.
fn step<L: Ledger, H: Hold<L>, R: Wait>(
    hold: &H,
    rt: &R,
    seat: &mut Seat<L>,
    grant: bool,
) -> Result<Outcome, CallFault>
    ensures kind { IfOk result (λ outcome. IsOutcomeOf (Event.Step seat.old.task grant) outcome) }
    ensures free { IfOk result (λ outcome. is_blocked outcome ≡ false) }
    ensures row { IfOk result (λ outcome. IsRowOf (Event.Step seat.old.task grant) outcome) }
    ensures seat { IfOk result (λ outcome. (position : ℕ) ×
        (seat.new ≡ seat_with seat.old position (Event.Step seat.old.task grant) outcome)) }
    ensures err { IfErr result (λ fault. (fault ≡ CallFault.Memory false) × (seat.new ≡ seat.old)) }
{
    let event = Event::Step(seat.task(), grant);
    let lent = &event;
    for _ in rt.forever() {
        match hold.attempt(rt, seat, *lent) {
            Ok(Outcome::Blocked(_)) => hold.pause(rt, seat),
            held => return held,
        }
    }
    unreachable!()
}
