//! A journal that is cut, and a pool that is resized.
ghost use Rattle.std.specs.Prelude.{◌≡◌};

use hp_base::{Answer, Config, Event, File, Index, Op, Task, Vpn};
use hp_core::Outcome;
use hp_shared::{CutFault, Hold, Open, Reply, Seat, Shared, call, interleaved_from, resume};
use std::alloc::Global;
use std::marker::Brand;
use std::process::Abort;
use std::sync::Wait;
use std::sync::ledger::{Blank, Ledger};
use std::test::Fail;

fn map(len: u32) -> Op {
    Op::Map {
        file: File::new(0),
        from: Index::new(0),
        len,
    }
}

fn store(word: u64) -> Op {
    Op::Store {
        vpn: Vpn::new(0),
        word,
    }
}

fn load() -> Op {
    Op::Load { vpn: Vpn::new(0) }
}

// What came of a journal that is cut twice: where each part begins and how long it is, the answer of the store between
// them, and whether the second part is one list's, from its own place and from 0.
#[derive(Drop)]
struct Cuts {
    parts: [(u64, usize); 2],
    stored: Reply,
    from_its_place: Result<(), u64>,
    from_0: Result<(), u64>,
}

fn call_of<L: Ledger, R: Wait>(
    rt: &R,
    shared: &Shared<L>,
    seats: &mut [Seat<L>],
    index: usize,
    op: Op,
) -> Result<Reply, Fail> {
    let seat = seats.get_mut(index).ok_or("a seat")?;
    Ok(call(shared, rt, seat, op, &Open)?)
}

fn cut_twice<L: Ledger, R: Wait>(
    rt: &R,
    alloc: Global,
    shared: &Shared<L>,
    seats: &mut [Seat<L>],
) -> Result<Cuts, Fail> {
    call_of(rt, shared, seats, 0, map(2))?;
    call_of(rt, shared, seats, 1, map(2))?;
    let one = shared.cut(rt, alloc, seats)?;
    let stored = call_of(rt, shared, seats, 0, store(41))?;
    let two = shared.cut(rt, alloc, seats)?;
    let parts = [
        (one.first, one.entries.len()),
        (two.first, two.entries.len()),
    ];
    let lists = vec![in alloc; two.entries]?;
    Ok(Cuts {
        parts,
        stored,
        from_its_place: interleaved_from(alloc, 16, lists[0].as_slice(), lists.as_slice())?,
        from_0: interleaved_from(alloc, 0, lists[0].as_slice(), lists.as_slice())?,
    })
}

// What came of a load after that, and of the end.
#[derive(Drop)]
struct End {
    loaded: Reply,
    entries: u64,
    free: u32,
    resv: u32,
}

fn cut_and_ended<L: Ledger + Send + Sync, R: Wait>(
    rt: &R,
    alloc: Global,
    blank: Blank,
    config: Config,
) -> Result<(Cuts, End), Fail>
    requires name { blank.name ≡ L.name }
    requires parts { (blank.parts ≡ L.parts) × (blank.parts ≡ config.tasks) }
{
    let (shared, mut seats) = Shared::<L>::new(alloc, blank, config)?;
    let cuts = cut_twice(rt, alloc, &shared, &mut seats)?;
    let loaded = call_of(rt, &shared, &mut seats, 1, load())?;
    match shared.close(alloc, seats) {
        Ok(closed) => {
            let end = End {
                loaded,
                entries: closed.entries,
                free: closed.core.free(),
                resv: closed.core.resv(),
            };
            Ok((cuts, end))
        }
        Err(_) => Err("the histories agree".into()),
    }
}

fn cuts_are_right(rt: &impl Abort, told: &Cuts) {
    assert_eq!(rt; told.parts, [(0, 16), (16, 10)]);
    assert_eq!(rt; told.stored, Reply::Ended(Answer::Done));
    assert_eq!(rt; told.from_its_place, Ok(()));
    assert_eq!(rt; told.from_0, Err(0));
}

#[test]
fn a_journal_is_cut(rt: HostRuntime) -> Result<(), Fail> {
    let config = Config::new(4, 1, 4, 2)?;
    let (told, end) = cut_and_ended::<Brand, _>(&rt, rt.alloc(), Blank::new(2), config)?;
    cuts_are_right(&rt, &told);
    assert_eq!(rt; end.loaded, Reply::Ended(Answer::Word(41)));
    assert_eq!(rt; end.entries, 32);
    assert_eq!(rt; (end.free, end.resv), (3, 1));
    Ok(())
}

// Why a journal isn't cut without a seat, and while a call is in flight; and the position and length of the part once
// that call has ended.
#[derive(Drop)]
struct Refusals {
    without_a_seat: Option<CutFault>,
    in_flight: Option<CutFault>,
    begun: Outcome,
    ended: Reply,
    part: (u64, usize),
}

fn cuts_refused<L: Ledger, R: Wait>(
    rt: &R,
    alloc: Global,
    shared: &Shared<L>,
    seats: &mut [Seat<L>],
) -> Result<Refusals, Fail> {
    let alone = seats.get_mut(..1).ok_or("a seat")?;
    let without_a_seat = shared.cut(rt, alloc, alone).err();
    let second = seats.get_mut(1).ok_or("a seat")?;
    let begin = Event::Begin(second.task(), map(1));
    let begun = shared.attempt(rt, second, begin)?;
    let in_flight = shared.cut(rt, alloc, seats).err();
    let second = seats.get_mut(1).ok_or("a seat")?;
    let ended = resume(shared, rt, second, &Open)?;
    let part = shared.cut(rt, alloc, seats)?;
    Ok(Refusals {
        without_a_seat,
        in_flight,
        begun,
        ended,
        part: (part.first, part.entries.len()),
    })
}

fn a_pool_of_two<L: Ledger + Send + Sync, R: Wait>(
    rt: &R,
    alloc: Global,
    blank: Blank,
    config: Config,
) -> Result<Refusals, Fail>
    requires name { blank.name ≡ L.name }
    requires parts { (blank.parts ≡ L.parts) × (blank.parts ≡ config.tasks) }
{
    let (shared, mut seats) = Shared::<L>::new(alloc, blank, config)?;
    cuts_refused(rt, alloc, &shared, &mut seats)
}

#[test]
fn a_journal_that_cannot_be_cut(rt: HostRuntime) -> Result<(), Fail> {
    let config = Config::new(4, 1, 4, 2)?;
    let told = a_pool_of_two::<Brand, _>(&rt, rt.alloc(), Blank::new(2), config)?;
    assert_eq!(rt;
        told.without_a_seat,
        Some(CutFault::SeatMissing(Task::new(2)))
    );
    assert_eq!(rt; told.begun, Outcome::Begun);
    assert_eq!(rt; told.in_flight, Some(CutFault::InFlight(Task::new(2))));
    assert_eq!(rt; told.ended, Reply::Ended(Answer::Mapped(Vpn::new(0))));
    assert_eq!(rt; told.part, (0, 8));
    Ok(())
}

fn resize<L: Ledger, R: Wait>(
    rt: &R,
    shared: &Shared<L>,
    seats: &mut [Seat<L>],
) -> Result<Outcome, Fail> {
    let first = seats.get_mut(0).ok_or("a seat")?;
    Ok(shared.resize(rt, first, 2)?)
}

// A pool that is resized, and its end.
fn resized<L: Ledger + Send + Sync, R: Wait>(
    rt: &R,
    alloc: Global,
    blank: Blank,
    config: Config,
) -> Result<(Outcome, u64, u32, u32), Fail>
    requires name { blank.name ≡ L.name }
    requires parts { (blank.parts ≡ L.parts) × (blank.parts ≡ config.tasks) }
{
    let (shared, mut seats) = Shared::<L>::new(alloc, blank, config)?;
    let outcome = resize(rt, &shared, &mut seats)?;
    match shared.close(alloc, seats) {
        Ok(closed) => Ok((
            outcome,
            closed.entries,
            closed.core.free(),
            closed.core.resv(),
        )),
        Err(_) => Err("the histories agree".into()),
    }
}

#[test]
fn a_running_pool_is_resized(rt: HostRuntime) -> Result<(), Fail> {
    let config = Config::new(4, 1, 4, 1)?;
    let told = resized::<Brand, _>(&rt, rt.alloc(), Blank::new(1), config)?;
    assert_eq!(rt; told, (Outcome::Resized(2), 1, 2, 0));
    Ok(())
}
