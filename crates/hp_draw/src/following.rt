//! What an event changes of what is drawn.
ghost use Rattle.std.specs.Prelude.{◌≡◌, ◌++◌, Bool, OnOk};
ghost use Rattle.hp_core.specs.Readers.{quota_of};
ghost use Rattle.hp_draw.specs.Following.{begun, block_of, counted_use, failure_of, has_moved, is_failure, mark_of, moved, next_of, numbers_of};
ghost use Rattle.hp_draw.specs.Following.{sign_of, open_stay_after, stay_in, stay_left, stay_of};
ghost use Rattle.hp_draw.specs.Lists.{listed};

use hp_base::{Answer, Event, File, Index, Op, Task, Vpn};
use hp_core::{Core, Outcome, Phase, Refusal};
use std::alloc::AllocError;

/// Where a call stands.
#[derive(Clone, Copy)]
pub(crate) struct OpenStay {
    pub(crate) op: Op,
    /// The moment at which the call began.
    pub(crate) begun: u32,
    /// The moment since which it stands so.
    pub(crate) since: u32,
    pub(crate) phase: Phase,
}

/// What comes behind a stay.
#[derive(Clone, Copy)]
pub(crate) enum Next {
    /// Another stay of the same call.
    GoesOn,
    /// The end of the call.
    Ended(Answer),
    /// The end of the trace.
    InFlight,
}

/// A stay of a call in a phase.
#[derive(Clone, Copy)]
pub(crate) struct Stay {
    pub(crate) column: usize,
    pub(crate) open_stay: OpenStay,
    /// The moment that ends it.
    pub(crate) until: u32,
    pub(crate) next: Next,
}

/// What is marked.
#[derive(Clone, Copy)]
pub(crate) enum Sign {
    Denied,
    Killed,
    /// A step was blocked by that task.
    Blocked(Task),
    /// A call ended so.
    Failed(Answer),
    Resized(u32),
    Refused(Refusal),
}

/// A mark at a moment, in the lane of a task or in that of what is of none.
#[derive(Clone, Copy)]
pub(crate) struct Mark {
    pub(crate) column: usize,
    pub(crate) at: u32,
    pub(crate) sign: Sign,
}

/// The counts behind an event.
#[derive(Clone, Copy)]
pub(crate) struct Numbers {
    pub(crate) at: u32,
    /// Free frames.
    pub(crate) free: u32,
    /// The reserve count.
    pub(crate) resv: u32,
    /// Reserved indices without a page.
    pub(crate) bare: u32,
    /// What calls in flight owe to the reserve count.
    pub(crate) owed: i64,
    /// The used count, and 0 where the pool has no quota.
    pub(crate) used: u32,
}

/// Where a call stands that begins.
fn begun(at: u32, event: &Event, phase: Option<Phase>) -> Option<OpenStay>
    ensures { result ≡ begun at event.now phase }
{
    match (event, phase) {
        (Event::Begin(_task, op), Some(phase)) => Some(OpenStay {
            op: *op,
            begun: at,
            since: at,
            phase,
        }),
        _ => None,
    }
}

/// Where a call stands that moved.
fn moved(before: &Option<OpenStay>, at: u32, phase: Phase) -> Option<OpenStay>
    ensures { result ≡ moved before.now at phase }
{
    match before {
        Some(open_stay) => Some(OpenStay {
            since: at,
            phase,
            ..*open_stay
        }),
        None => None,
    }
}

/// Where a task's call stands after an event of it. `phase` is the one in which it stands then.
pub(crate) fn open_stay_after(
    before: &Option<OpenStay>,
    at: u32,
    event: &Event,
    outcome: &Outcome,
    phase: Option<Phase>,
) -> Option<OpenStay>
    ensures { result ≡ open_stay_after before.now at event.now outcome.now phase }
{
    match outcome {
        Outcome::Begun => begun(at, event, phase),
        Outcome::Moved(phase) => moved(before, at, *phase),
        Outcome::Ended(_answer) => None,
        Outcome::Blocked(_) | Outcome::Marked | Outcome::Resized(_) | Outcome::Refused(_) => {
            *before
        }
    }
}

/// What comes behind a stay that such an outcome ends.
fn next_of(outcome: &Outcome) -> Next
    ensures { result ≡ next_of outcome.now }
{
    match outcome {
        Outcome::Ended(answer) => Next::Ended(*answer),
        _ => Next::GoesOn,
    }
}

/// Whether it stands since another moment.
fn has_moved(open_stay: &OpenStay, after: &Option<OpenStay>) -> bool
    ensures { result ≡ has_moved open_stay.now after.now }
{
    match after {
        Some(other) => other.since != open_stay.since,
        None => true,
    }
}

/// The stay of a call that stood so, if it doesn't stand so after the event.
fn stay_of(
    column: usize,
    at: u32,
    open_stay: &OpenStay,
    after: &Option<OpenStay>,
    outcome: &Outcome,
) -> Option<Stay>
    ensures { result ≡ stay_of column at open_stay.now after.now outcome.now }
{
    if !has_moved(open_stay, after) {
        return None;
    }
    Some(Stay {
        column,
        open_stay: *open_stay,
        until: at,
        next: next_of(outcome),
    })
}

/// The stay that an event ends, if it ends one.
pub(crate) fn stay_left(
    column: usize,
    at: u32,
    before: &Option<OpenStay>,
    after: &Option<OpenStay>,
    outcome: &Outcome,
) -> Option<Stay>
    ensures { result ≡ stay_left column at before.now after.now outcome.now }
{
    match before {
        Some(open_stay) => stay_of(column, at, open_stay, after, outcome),
        None => None,
    }
}

/// The stay of a call that is in flight at the end.
pub(crate) fn stay_in(column: usize, at: u32, open_stay: Option<OpenStay>) -> Option<Stay>
    ensures { result ≡ stay_in column at open_stay }
{
    match open_stay {
        Some(open_stay) => Some(Stay {
            column,
            open_stay,
            until: at,
            next: Next::InFlight,
        }),
        None => None,
    }
}

/// Adds a stay, if there is one.
pub(crate) fn add_stay(stays: &mut Vec<Stay>, stay: Option<Stay>) -> Result<(), AllocError>
    ensures { OnOk result (stays.new.items ≡ stays.old.items ++ listed stay) }
{
    // The checker of borrows asks for a mention of the types that a stay holds.
    let _inside: Option<(OpenStay, Next, Op, File, Index, Vpn, Task, Phase, Answer)> = None;
    if let Some(stay) = stay {
        stays.push(stay)?;
    }
    Ok(())
}

/// Adds a mark, if there is one.
pub(crate) fn add_mark(marks: &mut Vec<Mark>, mark: Option<Mark>) -> Result<(), AllocError>
    ensures { OnOk result (marks.new.items ≡ marks.old.items ++ listed mark) }
{
    // The checker of borrows asks for a mention of the types that a mark holds.
    let _inside: Option<(Sign, Task, Answer, Vpn, Refusal)> = None;
    if let Some(mark) = mark {
        marks.push(mark)?;
    }
    Ok(())
}

/// What is marked of an event.
fn sign_of(event: &Event, outcome: &Outcome) -> Option<Sign>
    ensures { result ≡ sign_of event.now outcome.now }
{
    match (event, outcome) {
        (_, Outcome::Refused(why)) => Some(Sign::Refused(*why)),
        (Event::Step(_task, false), _) => Some(Sign::Denied),
        (Event::Kill(_task), _) => Some(Sign::Killed),
        (_, Outcome::Resized(frames)) => Some(Sign::Resized(*frames)),
        (_, Outcome::Blocked(holder)) => Some(Sign::Blocked(*holder)),
        _ => None,
    }
}

/// The mark of an event, if it has one.
pub(crate) fn mark_of(column: usize, at: u32, event: &Event, outcome: &Outcome) -> Option<Mark>
    ensures { result ≡ mark_of column at event.now outcome.now }
{
    match sign_of(event, outcome) {
        Some(sign) => Some(Mark { column, at, sign }),
        None => None,
    }
}

/// The mark of a denied step that was blocked, beside the one of its denial.
pub(crate) fn block_of(column: usize, at: u32, event: &Event, outcome: &Outcome) -> Option<Mark>
    ensures { result ≡ block_of column at event.now outcome.now }
{
    match (event, outcome) {
        (Event::Step(_task, false), Outcome::Blocked(holder)) => Some(Mark {
            column,
            at,
            sign: Sign::Blocked(*holder),
        }),
        _ => None,
    }
}

/// Whether a call that ends so did not do what it was to do.
fn is_failure(answer: Answer) -> bool
    ensures { result ≡ is_failure answer }
{
    match answer {
        Answer::Mapped(_) | Answer::Word(_) | Answer::Done => false,
        Answer::Segv
        | Answer::Beyond
        | Answer::NoFrame
        | Answer::NoQuota
        | Answer::NoMemory
        | Answer::Interrupted
        | Answer::Killed
        | Answer::BadFile
        | Answer::BadRange
        | Answer::NotMapped
        | Answer::NoAddress => true,
    }
}

/// The mark of a call that ends in a failure by an event.
pub(crate) fn failure_of(column: usize, at: u32, outcome: &Outcome) -> Option<Mark>
    ensures { result ≡ failure_of column at outcome.now }
{
    match outcome {
        Outcome::Ended(answer) if is_failure(*answer) => Some(Mark {
            column,
            at,
            sign: Sign::Failed(*answer),
        }),
        _ => None,
    }
}

/// The used count, and 0 where the pool has no quota.
fn counted_use(core: &Core) -> u32
    ensures { result ≡ counted_use (quota_of core.now) core.now }
{
    match core.quota() {
        Some(_) => core.used(),
        None => 0,
    }
}

/// The counts of a core.
pub(crate) fn numbers_of(core: &Core, at: u32) -> Numbers
    ensures { result ≡ numbers_of core.now at }
{
    let tally = core.tally();
    Numbers {
        at,
        free: tally.free,
        resv: tally.resv,
        bare: tally.reserved.saturating_sub(tally.pages),
        owed: core.owed(),
        used: counted_use(core),
    }
}
