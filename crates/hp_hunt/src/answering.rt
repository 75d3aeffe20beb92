//! Answers of calls, moment by moment.
ghost use Rattle.std.specs.Prelude.{◌≡◌, ◌↔◌, ℕ, List, ◌∷◌, IfSome, IsTrue, None};
ghost use Rattle.hp_base.specs.declared.answer.Answer.{Answer};
ghost use Rattle.hp_hunt.specs.Conditions.{IsAllocation, IsAnswered, IsCallOf, IsEnd, IsFault, IsLinux, IsMapping, IsNamed, IsShort, IsSoughtEnd, IsStepOf};
ghost use Rattle.hp_hunt.specs.Conditions.{IsTaskOf, word_of};
ghost use Rattle.hp_watch.specs.Calls.{AreCalls};
ghost use Rattle.hp_watch.specs.Moments.{Moment};

use crate::comparing::has_counts;
use crate::condition::{AnswerName, AnswerWord, CallChoice, LinuxAnswer, SoughtAnswer};
use hp_base::{Answer, Event, Op, Task};
use hp_core::{Core, Outcome};
use hp_watch::{CallWord, Calls, TaskCalls};

/// The answer's first word.
fn word_of(answer: Answer) -> AnswerWord
    ensures { result ≡ word_of answer }
{
    match answer {
        Answer::Mapped(_) => AnswerWord::Mapped,
        Answer::Word(_) => AnswerWord::Word,
        Answer::Done => AnswerWord::Done,
        Answer::Segv => AnswerWord::Segv,
        Answer::Beyond => AnswerWord::Beyond,
        Answer::NoFrame => AnswerWord::NoFrame,
        Answer::NoQuota => AnswerWord::NoQuota,
        Answer::NoMemory => AnswerWord::NoMemory,
        Answer::Interrupted => AnswerWord::Interrupted,
        Answer::Killed => AnswerWord::Killed,
        Answer::BadFile => AnswerWord::BadFile,
        Answer::BadRange => AnswerWord::BadRange,
        Answer::NotMapped => AnswerWord::NotMapped,
        Answer::NoAddress => AnswerWord::NoAddress,
    }
}

/// Whether it lacks frames or quota.
fn is_short(word: AnswerWord) -> bool
    ensures { IsTrue result ↔ IsShort word }
{
    matches!(word, AnswerWord::NoFrame | AnswerWord::NoQuota)
}

fn is_fault(call: CallWord) -> bool
    ensures { IsTrue result ↔ IsFault call }
{
    matches!(call, CallWord::Load | CallWord::Store)
}

fn is_mapping(call: CallWord) -> bool
    ensures { IsTrue result ↔ IsMapping call }
{
    matches!(call, CallWord::Map | CallWord::MapNoReserve)
}

fn is_allocation(call: CallWord) -> bool
    ensures { IsTrue result ↔ IsAllocation call }
{
    matches!(call, CallWord::Alloc | CallWord::AllocKeep)
}

/// Whether Linux tells a program this where such a call ends with that word.
fn is_linux(linux: LinuxAnswer, call: CallWord, word: AnswerWord) -> bool
    ensures { IsTrue result ↔ IsLinux linux call word }
{
    match linux {
        LinuxAnswer::Sigsegv => word == AnswerWord::Segv,
        LinuxAnswer::Sigbus => is_fault(call) && (word == AnswerWord::Beyond || is_short(word)),
        LinuxAnswer::Enospc => is_allocation(call) && is_short(word),
        LinuxAnswer::Enomem => {
            word == AnswerWord::NoAddress
                || is_mapping(call) && is_short(word)
                || !is_fault(call) && word == AnswerWord::NoMemory
        }
        LinuxAnswer::Eintr => word == AnswerWord::Interrupted,
    }
}

/// Whether that is the name of the word, where such a call ends with it.
fn is_named(name: AnswerName, call: CallWord, word: AnswerWord) -> bool
    ensures { IsTrue result ↔ IsNamed name call word }
{
    match name {
        AnswerName::Word(asked) => word == asked,
        AnswerName::Linux(linux) => is_linux(linux, call, word),
    }
}

/// Whether the task is the one that is asked for, if one is.
fn is_task_of(asked: Option<Task>, task: Task) -> bool
    ensures { IsTrue result ↔ IsTaskOf asked task }
{
    match asked {
        Some(one) => one.number() == task.number(),
        None => true,
    }
}

/// Whether the last call that was begun is the one that is asked for.
fn is_call_of(asked: CallChoice, calls: TaskCalls) -> bool
    ensures { IsTrue result ↔ IsCallOf asked calls.last calls.begun }
{
    match asked {
        CallChoice::Any => true,
        CallChoice::Number(number) => calls.begun == number,
        CallChoice::Named(word) => calls.last == word,
    }
}

/// A call that ends: whose it is, and with what.
#[derive(Clone, Copy)]
struct End {
    task: Task,
    answer: Answer,
}

/// The call that ends by this event.
fn end_of(event: &Event, outcome: &Outcome) -> Option<End>
    ensures some { IfSome result (λ end. IsStepOf end.task event.now × IsEnd end.answer outcome.now) }
    ensures one { IfSome result (λ end. (t : ℕ) (a : Answer) → IsStepOf t event.now → IsEnd a outcome.now
        → (t ≡ end.task) × (a ≡ end.answer)) }
    ensures none { result ≡ None → (t : ℕ) (a : Answer) → IsStepOf t event.now → ¬ IsEnd a outcome.now }
{
    // The checker of borrows asks for a mention of the types that an event and an outcome may hold.
    let _none: (Option<Op>, Option<Answer>) = (None, None);
    match (event, outcome) {
        (Event::Step(task, _), Outcome::Ended(answer)) => Some(End {
            task: *task,
            answer: *answer,
        }),
        _ => None,
    }
}

/// Whether the call, the last that its task has begun, is sought, and so is its end.
fn is_sought_end(sought: SoughtAnswer, known: TaskCalls, end: End, core: &Core) -> bool
    ensures { IsTrue result ↔ IsSoughtEnd sought known.last known.begun end.task end.answer core.now }
{
    is_task_of(sought.task, end.task)
        && is_call_of(sought.call, known)
        && is_named(sought.name, known.last, word_of(end.answer))
        && has_counts(core, sought.counted)
}

/// Whether this event ends a call with the answer that is sought. The calls are those before it.
pub(crate) fn is_answered(
    sought: SoughtAnswer,
    calls: &Calls,
    event: &Event,
    outcome: &Outcome,
    core: &Core,
) -> bool
    ensures { (before : List Moment) → AreCalls calls.now.tasks.items before
        → (IsTrue result ↔ IsAnswered sought before (record { event = event.now; outcome = outcome.now; core = core.now })) }
{
    let Some(end) = end_of(event, outcome) else {
        return false;
    };
    is_sought_end(sought, calls.of(end.task), end, core)
}
