//! What a call asks of its gate: in each phase in which it stands, and nowhere else, for its own task; and what comes of it where
//! the gate refuses it growth.
ghost use Rattle.std.specs.Prelude.{◌≡◌};

use crate::gates::Asked;
use crate::numbers::tally;
use crate::scenes::{Ask, DENIED, GRANTED, MAPPING, Scene};
use hp_base::{Answer, Config, Event, Vpn};
use hp_core::Tally;
use hp_shared::{Hold, Reply, Seat, Shared, call, resume};
use std::alloc::Global;
use std::marker::Brand;
use std::process::Abort;
use std::sync::Wait;
use std::sync::ledger::{Blank, Ledger};
use std::test::Fail;

// What came of a call, the pool's numbers behind it, and whether its gate was asked as it should be.
#[derive(Drop)]
struct Told {
    reply: Reply,
    tally: Tally,
    asked: bool,
}

fn comes_to<L: Ledger, R: Wait>(
    rt: &R,
    shared: &Shared<L>,
    seat: &mut Seat<L>,
    scene: &Scene,
) -> Result<Told, Fail> {
    let gate = Asked::new(seat.task(), scene.phases, scene.denied);
    let reply = call(shared, rt, seat, scene.ask.op(), &gate)?;
    Ok(Told {
        reply,
        tally: shared.tally(rt),
        asked: gate.is_through(),
    })
}

fn is_wanted(rt: &impl Abort, scene: &Scene, told: &Told) {
    assert!(rt; told.asked, "asked elsewhere: {scene:?}");
    assert_eq!(rt;
        told.reply,
        Reply::Ended(scene.wanted.answer()),
        "{scene:?}"
    );
    let (free, resv, reserved, pages) = scene.numbers;
    assert_eq!(rt; told.tally, tally(free, resv, reserved, pages), "{scene:?}");
}

fn plays_all<L: Ledger, R: Abort + Wait>(
    rt: &R,
    shared: &Shared<L>,
    seats: &mut [Seat<L>],
    scenes: &[Scene],
) -> Result<(), Fail> {
    for scene in scenes {
        let seat = seats.get_mut(scene.seat).ok_or("a seat")?;
        let told = comes_to(rt, shared, seat, scene)?;
        is_wanted(rt, scene, &told);
    }
    Ok(())
}

// A story of a new pool of two tasks.
fn a_pool_of_two<L: Ledger, R: Abort + Wait>(
    rt: &R,
    alloc: Global,
    blank: Blank,
    config: Config,
    scenes: &[Scene],
) -> Result<(), Fail>
    requires name { blank.name ≡ L.name }
    requires parts { (blank.parts ≡ L.parts) × (blank.parts ≡ config.tasks) }
{
    let (shared, mut seats) = Shared::<L>::new(alloc, blank, config)?;
    plays_all(rt, &shared, &mut seats, scenes)
}

#[test]
fn a_gate_is_asked_where_the_call_stands(rt: HostRuntime) -> Result<(), Fail> {
    let config = Config::new(4, 1, 4, 2)?;
    a_pool_of_two::<Brand, _>(&rt, rt.alloc(), Blank::new(2), config, &GRANTED)
}

#[test]
fn a_gate_refuses_growth(rt: HostRuntime) -> Result<(), Fail> {
    let config = Config::new(4, 1, 4, 2)?;
    a_pool_of_two::<Brand, _>(&rt, rt.alloc(), Blank::new(2), config, &DENIED)
}

// A map that was begun and made one step, by single events: how the rest of it ends, and whether its gate was asked.
fn gone_on_with<L: Ledger, R: Wait>(
    rt: &R,
    shared: &Shared<L>,
    seat: &mut Seat<L>,
) -> Result<(Reply, bool), Fail> {
    let task = seat.task();
    shared.attempt(rt, seat, Event::Begin(task, Ask::Map(2).op()))?;
    shared.attempt(rt, seat, Event::Step(task, true))?;
    let behind = MAPPING.get(1..).ok_or("phases behind the first")?;
    let gate = Asked::new(task, behind, None);
    let reply = resume(shared, rt, seat, &gate)?;
    Ok((reply, gate.is_through()))
}

fn resumed<L: Ledger, R: Wait>(
    rt: &R,
    alloc: Global,
    blank: Blank,
    config: Config,
) -> Result<(Reply, bool), Fail>
    requires name { blank.name ≡ L.name }
    requires parts { (blank.parts ≡ L.parts) × (blank.parts ≡ config.tasks) }
{
    let (shared, mut seats) = Shared::<L>::new(alloc, blank, config)?;
    let second = seats.get_mut(1).ok_or("a seat")?;
    gone_on_with(rt, &shared, second)
}

#[test]
fn a_call_gone_on_with_asks_from_where_it_stands(rt: HostRuntime) -> Result<(), Fail> {
    let config = Config::new(4, 1, 4, 2)?;
    let (reply, asked) = resumed::<Brand, _>(&rt, rt.alloc(), Blank::new(2), config)?;
    assert_eq!(rt; reply, Reply::Ended(Answer::Mapped(Vpn::new(0))));
    assert!(rt; asked);
    Ok(())
}
