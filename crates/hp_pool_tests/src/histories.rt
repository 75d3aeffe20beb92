//! Ends that are refused, journals that are no interleaving, and the texts of faults.
ghost use Rattle.std.specs.Prelude.{◌≡◌};

use hp_base::{Answer, Config, Event, Op, Task};
use hp_core::{Outcome, Refusal};
use hp_shared::{CloseFault, CutFault, Entry, Open, Reply, Shared, interleaved, resume};
use std::alloc::Global;
use std::marker::Brand;
use std::sync::Wait;
use std::sync::ledger::{Blank, Ledger};
use std::test::Fail;

// What a resume of a task without a call is told, why a pool isn't closed without a seat, whether both are handed back
// then, and how many entries there are once all seats are there.
fn ends<L: Ledger + Send + Sync, R: Wait>(
    rt: &R,
    alloc: Global,
    blank: Blank,
    config: Config,
) -> Result<(Reply, CloseFault, usize, u64), Fail>
    requires name { blank.name ≡ L.name }
    requires parts { (blank.parts ≡ L.parts) × (blank.parts ≡ config.tasks) }
{
    let (shared, mut seats) = Shared::<L>::new(alloc, blank, config)?;
    let second = seats.pop().ok_or("a seat")?;
    let mut first = seats.pop().ok_or("a seat")?;
    let idle = resume(&shared, rt, &mut first, &Open)?;
    seats.push(first)?;
    let refused = shared.close(alloc, seats).err().ok_or("a seat is missing")?;
    let (shared, mut seats) = refused.back.ok_or("they are handed back")?;
    let back = seats.len();
    seats.push(second)?;
    let closed = shared
        .close(alloc, seats)
        .ok()
        .ok_or("the histories agree")?;
    Ok((idle, refused.fault, back, closed.entries))
}

#[test]
fn a_missing_seat_is_told(rt: HostRuntime) -> Result<(), Fail> {
    // The checker of borrows asks for a mention of the type that a reply may hold.
    let _none: Option<Answer> = None;
    let config = Config::new(1, 1, 1, 2)?;
    let (idle, fault, back, entries) = ends::<Brand, _>(&rt, rt.alloc(), Blank::new(2), config)?;
    assert_eq!(rt; idle, Reply::Refused(Refusal::Idle));
    assert_eq!(rt; fault, CloseFault::SeatMissing(Task::new(2)));
    assert_eq!(rt; back, 1);
    assert_eq!(rt; entries, 0);
    Ok(())
}

// What is told of a resize to nothing, of one beyond the most frames, of a kill of a task that isn't there, and of two kills
// of one task.
fn resizes_and_kills<L: Ledger + Send + Sync, R: Wait>(
    rt: &R,
    alloc: Global,
    blank: Blank,
    config: Config,
) -> Result<(Outcome, Outcome, Outcome, Outcome, Outcome), Fail>
    requires name { blank.name ≡ L.name }
    requires parts { (blank.parts ≡ L.parts) × (blank.parts ≡ config.tasks) }
{
    let (shared, mut seats) = Shared::<L>::new(alloc, blank, config)?;
    let first = seats.get_mut(0).ok_or("a seat")?;
    let nothing = shared.resize(rt, first, 0)?;
    let too_many = shared.resize(rt, first, Config::MAX_FRAMES + 1)?;
    let nobody = shared.kill(rt, first, Task::new(3))?;
    let once = shared.kill(rt, first, Task::new(2))?;
    let again = shared.kill(rt, first, Task::new(2))?;
    Ok((nothing, too_many, nobody, once, again))
}

#[test]
fn resizes_and_kills_are_refused(rt: HostRuntime) -> Result<(), Fail> {
    // The checker of borrows asks for a mention of the type that an outcome may hold.
    let _none: Option<Answer> = None;
    let config = Config::new(1, 1, 1, 2)?;
    let told = resizes_and_kills::<Brand, _>(&rt, rt.alloc(), Blank::new(2), config)?;
    let (nothing, too_many, nobody, once, again) = told;
    assert_eq!(rt; nothing, Outcome::Refused(Refusal::BadSize));
    assert_eq!(rt; too_many, Outcome::Refused(Refusal::BadSize));
    assert_eq!(rt; nobody, Outcome::Refused(Refusal::NotAlive));
    assert_eq!(rt; once, Outcome::Marked);
    assert_eq!(rt; again, Outcome::Refused(Refusal::NotAlive));
    Ok(())
}

#[test]
fn a_journal_that_is_no_interleaving(rt: HostRuntime) -> Result<(), Fail> {
    let alloc = rt.alloc();
    let a = Entry {
        position: 0,
        event: Event::Begin(Task::new(1), Op::Exit),
        outcome: Outcome::Begun,
    };
    let b = Entry {
        position: 1,
        event: Event::Kill(Task::new(2)),
        outcome: Outcome::Marked,
    };
    let c = Entry {
        position: 1,
        event: Event::Kill(Task::new(2)),
        outcome: Outcome::Refused(Refusal::NotAlive),
    };
    let lists = vec![in alloc; vec![in alloc; a]?, vec![in alloc; c]?]?;
    assert_eq!(rt; interleaved(alloc, &[a, b], lists.as_slice())?, Err(1));
    let lists = vec![in alloc; vec![in alloc; a]?, vec![in alloc; b]?]?;
    assert_eq!(rt; interleaved(alloc, &[a, b], lists.as_slice())?, Ok(()));
    assert_eq!(rt; interleaved(alloc, &[b, a], lists.as_slice())?, Err(0));
    assert_eq!(rt; interleaved(alloc, &[a], lists.as_slice())?, Err(1));
    Ok(())
}

#[test]
fn why_a_pool_is_not_closed(rt: HostRuntime) -> Result<(), Fail> {
    for (fault, text) in [
        (
            CloseFault::SeatMissing(Task::new(2)),
            "the seat of task 2 is missing",
        ),
        (
            CloseFault::Disagree(7),
            "the seats' lists and the journal disagree at position 7",
        ),
        (
            CloseFault::OtherSizes,
            "the pool isn't of the sizes that it was opened with",
        ),
        (CloseFault::Memory, "out of memory"),
    ] {
        assert_eq!(rt; format!(in rt.alloc(); "{fault}")?.as_str(), text);
    }
    Ok(())
}

#[test]
fn why_a_journal_is_not_cut(rt: HostRuntime) -> Result<(), Fail> {
    for (fault, text) in [
        (
            CutFault::SeatMissing(Task::new(2)),
            "the seat of task 2 is missing",
        ),
        (
            CutFault::InFlight(Task::new(2)),
            "task 2 has a call in flight",
        ),
        (CutFault::Full, "no position is left"),
        (
            CutFault::Disagree(7),
            "the seats' lists and the journal disagree at position 7",
        ),
        (CutFault::Memory, "out of memory"),
    ] {
        assert_eq!(rt; format!(in rt.alloc(); "{fault}")?.as_str(), text);
    }
    Ok(())
}
