//! Kills by each seat of each task, over each kind of hold: who is alive is marked, and nobody else.
ghost use Rattle.std.specs.Prelude.{◌≡◌};
ghost use Rattle.hp_shared.specs.Calls.{IsOwn};

use hp_base::{Answer, Config, Event, File, Index, Op, Task};
use hp_core::{Outcome, Refusal};
use hp_shared::{CallFault, Halting, Hold, Seat, Shared};
use std::alloc::Global;
use std::marker::Brand;
use std::sync::Wait;
use std::sync::ledger::{Blank, Ledger};
use std::test::Fail;

/// Tasks of the pool, as many as there can be.
const TASKS: u32 = 64;

/// By what a kill reaches the pool.
#[derive(Clone, Copy, Debug)]
enum Way {
    Kill,
    Hold,
    Halting,
}

fn begin(task: Task) -> Event
    ensures { IsOwn task result }
{
    let map = Op::Map {
        file: File::new(0),
        from: Index::new(0),
        len: 1,
    };
    Event::Begin(task, map)
}

// Each task begins a call.
fn all_begin<L: Ledger, R: Wait>(
    rt: &R,
    shared: &Shared<L>,
    seats: &mut [Seat<L>],
) -> Result<(), CallFault> {
    for seat in seats.iter_mut() {
        let event = begin(seat.task());
        shared.attempt(rt, seat, event)?;
    }
    Ok(())
}

fn kill<L: Ledger, R: Wait>(
    rt: &R,
    shared: &Shared<L>,
    seat: &mut Seat<L>,
    task: Task,
    way: Way,
) -> Result<Outcome, CallFault> {
    match way {
        Way::Kill => shared.kill(rt, seat, task),
        Way::Hold => shared.attempt(rt, seat, Event::Kill(task)),
        Way::Halting => Halting::new(shared).attempt(rt, seat, Event::Kill(task)),
    }
}

// Whether the seat kills each task once, and nobody that isn't there.
fn kills_all<L: Ledger, R: Wait>(
    rt: &R,
    shared: &Shared<L>,
    seat: &mut Seat<L>,
    way: Way,
) -> Result<bool, CallFault> {
    for number in 0..=TASKS + 1 {
        let task = Task::new(number);
        let is_there = (1..=TASKS).contains(&number);
        let is_marked = kill(rt, shared, seat, task, way)? == Outcome::Marked;
        let again = kill(rt, shared, seat, task, way)?;
        if is_marked != is_there || again != Outcome::Refused(Refusal::NotAlive) {
            return Ok(false);
        }
    }
    Ok(true)
}

// Whether the seat of this place does so, where all tasks have a call in flight or none has.
fn a_pool<L: Ledger + Send + Sync, R: Wait>(
    rt: &R,
    alloc: Global,
    blank: Blank,
    config: Config,
    place: usize,
    are_in_flight: bool,
    way: Way,
) -> Result<bool, Fail>
    requires name { blank.name ≡ L.name }
    requires parts { (blank.parts ≡ L.parts) × (blank.parts ≡ config.tasks) }
{
    let (shared, mut seats) = Shared::<L>::new(alloc, blank, config)?;
    if are_in_flight {
        all_begin(rt, &shared, seats.as_mut_slice())?;
    }
    let seat = seats.get_mut(place).ok_or("a seat")?;
    Ok(kills_all(rt, &shared, seat, way)?)
}

#[test]
fn each_seat_kills_each_task(rt: HostRuntime) -> Result<(), Fail> {
    // The checker of borrows asks for a mention of the type that an outcome may hold.
    let _none: Option<Answer> = None;
    let config = Config::new(1, 1, 1, TASKS)?;
    let alloc = rt.alloc();
    for place in 0..TASKS as usize {
        for are_in_flight in [false, true] {
            for way in [Way::Kill, Way::Hold, Way::Halting] {
                let blank = Blank::new(u64::from(TASKS));
                let is_so = a_pool::<Brand, _>(
                    &rt,
                    alloc,
                    blank,
                    config,
                    place,
                    are_in_flight,
                    way,
                )?;
                assert!(rt; is_so, "{place} {are_in_flight} {way:?}");
            }
        }
    }
    Ok(())
}
