//! A task's place in a race: its seat, and the calls that it is to make.
ghost use Rattle.std.specs.Prelude.{◌≡◌, ◌+◌, Bool, IfOk, OnOk, All, true, false, length, nat_lt, [], ◌&&◌, not};
ghost use Rattle.std.specs.List.{list_any};
ghost use Rattle.hp_text.specs.Scripts.{calls_of};
ghost use Rattle.hp_machine.specs.Events.{is_exit};
ghost use Rattle.hp_race.specs.Calls.{CallEndsBy, EndsBy, MayKill, ending_of, is_mortal, may_end, met};
ghost use Rattle.hp_race.specs.Racers.{AreFoundIn, HasMadeIn, HasRun, IsNew, IsSet, calls_in, is_gone};
ghost use Rattle.hp_race.specs.Waiting.{IsBoardOf};

use crate::call_range::CallRange;
use crate::chances::{Chances, Draws, stream};
use crate::starting_line::{Course, StartingLine};
use crate::waiting::{Board, Turns};
use hp_base::{Event, Op, Task};
use hp_core::{Refusal, is_exit};
use hp_shared::{CallFault, Halting, Hold, Reply, Seat, Shared, call};
use hp_text::Script;
use std::alloc::{AllocError, Global};
use std::sync::Wait;
use std::sync::ledger::Ledger;
use std::thread;
use std::thread::Threads;

/// What came of a task's calls.
#[derive(Clone, Copy, Debug, PartialEq, Eq)]
pub(crate) enum RacerResult {
    /// All were made, and each ended as it may.
    Made,
    /// The same, but some were refused, as those of a dead or killed task are.
    Killed,
    /// One ended as none may, and the others were left.
    Astray,
    /// What one waits for didn't end for long, while some thread hadn't come to the start: it and the others were left.
    Late,
    /// Memory was wanted.
    Memory,
}

/// The pool of a race, and what happens to it by chance.
#[derive(Drop)]
pub(crate) struct Track<'a, L: Ledger> {
    pub(crate) shared: &'a Shared<L>,
    pub(crate) chances: Chances,
}

/// What was found of the calls of all tasks.
#[derive(Drop)]
pub(crate) struct Found {
    /// Some call ended as none may.
    pub(crate) astray: bool,
    /// Some were left.
    pub(crate) late: bool,
    /// The tasks of which calls were refused.
    pub(crate) refused: Vec<Task>,
}

impl Found {
    /// Whether all were made, each as it may end.
    pub(crate) fn is_made(&self) -> bool
        ensures { result ≡ not self.now.astray && not self.now.late }
    {
        !self.astray && !self.late
    }
}

/// The seats of a race, and what was found of their calls.
#[derive(Drop)]
pub(crate) struct Ran<L: Ledger> {
    pub(crate) seats: Vec<Seat<L>>,
    pub(crate) found: Found,
}

/// A task's seat, its calls, and what came of them.
#[derive(Drop)]
pub(crate) struct Racer<L: Ledger> {
    pub(crate) seat: Seat<L>,
    pub(crate) calls: Vec<Op>,
    pub(crate) ending: RacerResult,
}

// Whether one of the calls is an exit. (A function of another crate that is passed by name gets no proof here.)
fn has_exit(calls: &[Op]) -> bool
    ensures { result ≡ list_any is_exit calls.now }
{
    calls.iter().any(|op| is_exit(op))
}

// Whether a call may end so, of a task that may have been killed or not, and has exited or not, where its seat had so many
// entries before and has so many now.
fn may_end(mortal: bool, gone: bool, reply: &Reply, before: usize, after: usize) -> bool
    ensures { result ≡ may_end mortal gone reply.now before after }
{
    match reply {
        Reply::Ended(_) => !gone,
        Reply::Refused(Refusal::NotAlive) => (mortal || gone) && after == before,
        Reply::Refused(_) => false,
    }
}

// What came of a call that ended as it may.
fn met(gone: bool, reply: &Reply) -> RacerResult
    ensures { result ≡ met gone reply.now }
{
    match reply {
        Reply::Refused(_) if !gone => RacerResult::Killed,
        _ => RacerResult::Made,
    }
}

// What came of calls of which some were refused, or none.
fn ending_of(refused: bool) -> RacerResult
    ensures { result ≡ ending_of refused }
{
    if refused {
        RacerResult::Killed
    } else {
        RacerResult::Made
    }
}

// Kills a task, where one is drawn. If it isn't alive the pool refuses that, and nothing happens.
fn strike<L: Ledger, R: Wait>(
    rt: &R,
    hold: &Halting<'_, L>,
    course: &Course<'_>,
    seat: &mut Seat<L>,
) -> Result<(), CallFault>
    ensures task { seat.new.task ≡ seat.old.task }
    ensures never { course.now.draws.kill ≡ 0 → seat.new.list ≡ seat.old.list }
    ensures kill { OnOk result (MayKill course.now.config.tasks seat.old.list seat.new.list) }
{
    if let Some(victim) = course.draws.victim(course.config.tasks) {
        hold.attempt(rt, seat, Event::Kill(victim))?;
    }
    Ok(())
}

// Makes a call, behind the kill that is drawn, if one is. The task may have exited before.
fn make_call<L: Ledger, R: Wait>(
    rt: &R,
    hold: &Halting<'_, L>,
    course: &Course<'_>,
    seat: &mut Seat<L>,
    gone: bool,
    op: Op,
) -> RacerResult
    ensures task { seat.new.task ≡ seat.old.task }
    ensures call { CallEndsBy result (nat_lt 0 course.now.draws.kill) course.now.config.tasks seat.old.task gone op
        seat.old.list seat.new.list }
{
    if strike(rt, hold, course, seat).is_err() {
        return RacerResult::Memory;
    }
    let before = seat.list().len();
    let Ok(reply) = call(hold, rt, seat, op, course) else {
        return RacerResult::Memory;
    };
    let after = seat.list().len();
    if !may_end(course.draws.is_mortal(), gone, &reply, before, after) {
        return RacerResult::Astray;
    }
    met(gone, &reply)
}

// Makes the calls, one after the other, until one ends as none may or memory is wanted. The task may have exited before.
fn make_calls<L: Ledger, R: Wait>(
    rt: &R,
    hold: &Halting<'_, L>,
    course: &Course<'_>,
    seat: &mut Seat<L>,
    had_exited: bool,
    calls: &[Op],
) -> RacerResult
    ensures task { seat.new.task ≡ seat.old.task }
    ensures calls { EndsBy result (nat_lt 0 course.now.draws.kill) course.now.config.tasks seat.old.task had_exited calls.now
        seat.old.list seat.new.list }
{
    let mut gone = had_exited;
    let mut refused = false;
    for op in calls {
        if !course.come(rt) {
            return RacerResult::Late;
        }
        match make_call(rt, hold, course, seat, gone, *op) {
            RacerResult::Made => {}
            RacerResult::Killed => refused = true,
            RacerResult::Astray => return RacerResult::Astray,
            RacerResult::Late => return RacerResult::Late,
            RacerResult::Memory => return RacerResult::Memory,
        }
        course.pass(rt);
        gone |= is_exit(op);
    }
    ending_of(refused)
}

// Makes the calls of the racer that are in the range.
fn run_racer<L: Ledger, R: Wait>(
    rt: &R,
    hold: &Halting<'_, L>,
    starting_line: &StartingLine,
    script: &Script,
    call_range: CallRange,
    chances: Chances,
    racer: &mut Racer<L>,
)
    requires set { IsSet script.now racer.old.calls.items racer.old.seat }
    requires board { IsBoardOf script.now starting_line.now.board }
    ensures { HasRun (is_mortal chances) script.now call_range racer.new.ending racer.new.seat }
{
    let Racer {
        seat,
        calls,
        ending,
    } = racer;
    let task = seat.task();
    let turns = starting_line.line_up(task, call_range.from);
    let course = Course {
        draws: Draws::new(chances, stream(call_range, task)),
        config: script.config,
        turns,
    };
    let (before, calls) = call_range.split(calls.as_slice());
    *ending = make_calls(rt, hold, &course, seat, has_exit(before), calls);
    course.leave(rt);
}

// A racer for each seat whose task has calls in the range, and the other seats.
fn set_racers<L: Ledger>(
    alloc: Global,
    script: &Script,
    call_range: CallRange,
    seats: Vec<Seat<L>>,
) -> Result<(Vec<Racer<L>>, Vec<Seat<L>>), AllocError>
    requires { All IsNew seats.items }
    ensures racers { IfOk result (λ set. All (λ d. IsSet script.now d.calls.items d.seat) set.0.items) }
    ensures idle { IfOk result (λ set. (mortal : Bool) → All (HasMadeIn mortal false script.now call_range) set.1.items) }
    ensures count { IfOk result (λ set. length set.0.items + length set.1.items ≡ length seats.items) }
{
    let mut racers = Vec::new(alloc);
    let mut idle = Vec::new(alloc);
    for seat in seats {
        let calls = script.calls_of(alloc, seat.task())?;
        if calls.len() <= call_range.from {
            idle.push(seat)?;
        } else {
            let ending = RacerResult::Memory;
            racers.push(Racer {
                seat,
                calls,
                ending,
            })?;
        }
    }
    Ok((racers, idle))
}

// Makes the calls of all racers that are in the range at once, each racer's in a thread of its own. Where one finds no memory all
// stop: whoever waits for what its call holds would wait for good.
fn run_racers<L: Ledger + Send + Sync, R: Threads + Wait + Sync>(
    rt: &R,
    track: &Track<'_, L>,
    board: Option<Board>,
    script: &Script,
    call_range: CallRange,
    racers: &mut [Racer<L>],
)
    requires set { All (λ d. IsSet script.now d.calls.items d.seat) racers.old }
    requires board { IsBoardOf script.now board }
    ensures ran { All (λ d. HasRun (is_mortal track.now.chances) script.now call_range d.ending d.seat) racers.new }
    ensures count { length racers.new ≡ length racers.old }
{
    let count = racers.len();
    if count == 0 {
        return;
    }
    let (hold, starting_line) = (Halting::new(track.shared), StartingLine::new(count, board));
    let chances = track.chances;
    thread::for_each_mut(
        rt,
        racers,
        count,
        &|_: usize, racer: &mut Racer<L>|
            requires set { IsSet script.now racer.old.calls.items racer.old.seat }
            requires board { IsBoardOf script.now starting_line.board }
            ensures { HasRun (is_mortal chances) script.entry.now call_range racer.new.ending racer.new.seat }
        {
            run_racer(
                rt,
                &hold,
                &starting_line,
                script,
                call_range,
                chances,
                racer,
            )
        },
    );
}

// The seats of the racers beside the others, and what was found of their calls.
fn gather_seats<L: Ledger>(
    alloc: Global,
    chances: Chances,
    script: &Script,
    call_range: CallRange,
    racers: Vec<Racer<L>>,
    idle: Vec<Seat<L>>,
) -> Result<Ran<L>, AllocError>
    requires ran { All (λ d. HasRun (is_mortal chances) script.now call_range d.ending d.seat) racers.items }
    requires idle { All (HasMadeIn (is_mortal chances) false script.now call_range) idle.items }
    ensures calls { IfOk result (λ ran. AreFoundIn (is_mortal chances) script.now call_range ran.found ran.seats.items) }
    ensures count { IfOk result (λ ran. length ran.seats.items ≡ length racers.items + length idle.items) }
{
    let _ = chances;
    let _ = script;
    let _ = call_range;
    let mut seats = idle;
    let mut refused = Vec::new(alloc);
    let (mut astray, mut late) = (false, false);
    for racer in racers {
        let Racer {
            seat,
            calls: _,
            ending,
        } = racer;
        match ending {
            RacerResult::Made => {}
            RacerResult::Killed => refused.push(seat.task())?,
            RacerResult::Astray => astray = true,
            RacerResult::Late => late = true,
            RacerResult::Memory => return Err(AllocError),
        }
        seats.push(seat)?;
    }
    let found = Found {
        astray,
        late,
        refused,
    };
    Ok(Ran { seats, found })
}

// On which the ends of calls are noted, where calls of the script wait.
fn board_of(
    alloc: Global,
    script: &Script,
    call_range: CallRange,
) -> Result<Option<Board>, AllocError>
    ensures { IfOk result (IsBoardOf script.now) }
{
    if script.waits.is_empty() {
        return Ok(None);
    }
    let board = Board::new(alloc, script, call_range.from)?;
    Ok(Some(board))
}

/// Makes the calls of a range, each task's in a thread of its own.
pub(crate) fn make_range<L: Ledger + Send + Sync, R: Threads + Wait + Sync>(
    rt: &R,
    alloc: Global,
    track: &Track<'_, L>,
    script: &Script,
    call_range: CallRange,
    seats: Vec<Seat<L>>,
) -> Result<Ran<L>, AllocError>
    requires { All IsNew seats.items }
    ensures count { IfOk result (λ ran. length ran.seats.items ≡ length seats.items) }
    ensures calls { IfOk result (λ ran.
        AreFoundIn (is_mortal track.now.chances) script.now call_range ran.found ran.seats.items) }
{
    let (mut racers, idle) = set_racers(alloc, script, call_range, seats)?;
    let board = board_of(alloc, script, call_range)?;
    run_racers(rt, track, board, script, call_range, &mut racers);
    gather_seats(alloc, track.chances, script, call_range, racers, idle)
}
