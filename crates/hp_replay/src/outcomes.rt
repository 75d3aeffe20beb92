//! The lines of outcomes. Those without a number stand ready.
ghost use Rattle.std.specs.Prelude.{◌≡◌, ◌++◌, ◌<◌, ◌≤◌, OnOk, OnErr, IfSome};
ghost use Rattle.hp_replay.specs.Outcomes.{outcome_line};

use crate::line_buffer::LineBuffer;
use hp_base::{Answer, Task};
use hp_machine::{Outcome, Refusal};
use hp_phases::moved_line;
use std::alloc::AllocError;

// The line of an end, where its answer has no number.
#[inline(always)]
fn ended_line(answer: Answer) -> Option<&'static [u8]>
    ensures { IfSome result (λ line. line.now ≡ outcome_line (Outcome.Ended answer)) }
{
    match answer {
        Answer::Mapped(_) | Answer::Word(_) => None,
        Answer::Done => Some(b"ended done\n"),
        Answer::Segv => Some(b"ended segv\n"),
        Answer::Beyond => Some(b"ended beyond\n"),
        Answer::NoFrame => Some(b"ended noframe\n"),
        Answer::NoQuota => Some(b"ended noquota\n"),
        Answer::NoMemory => Some(b"ended nomemory\n"),
        Answer::Interrupted => Some(b"ended interrupted\n"),
        Answer::Killed => Some(b"ended killed\n"),
        Answer::BadFile => Some(b"ended badfile\n"),
        Answer::BadRange => Some(b"ended badrange\n"),
        Answer::NotMapped => Some(b"ended notmapped\n"),
        Answer::NoAddress => Some(b"ended noaddress\n"),
    }
}

#[inline(always)]
fn refused_line(refusal: Refusal) -> &'static [u8]
    ensures { result.now ≡ outcome_line (Outcome.Refused refusal) }
{
    match refusal {
        Refusal::NotAlive => b"refused notalive\n",
        Refusal::InCall => b"refused incall\n",
        Refusal::Idle => b"refused idle\n",
        Refusal::BadSize => b"refused badsize\n",
    }
}

// The line of an outcome that has no number.
#[inline(always)]
fn ready_line(outcome: Outcome) -> Option<&'static [u8]>
    ensures { IfSome result (λ line. line.now ≡ outcome_line outcome) }
{
    match outcome {
        Outcome::Begun => Some(b"begun\n"),
        Outcome::Moved(phase) => Some(moved_line(phase)),
        Outcome::Ended(answer) => ended_line(answer),
        Outcome::Marked => Some(b"marked\n"),
        Outcome::Refused(refusal) => Some(refused_line(refusal)),
        Outcome::Blocked(_) | Outcome::Resized(_) => None,
    }
}

// The line of a step that is blocked by a task whose number has one digit.
fn blocked_by_digit(task: Task) -> [u8; 10]
    requires { task < 10 }
    ensures { result ≡ outcome_line (Outcome.Blocked task) }
{
    let digit = b'0' + task.number() as u8;
    [b'b', b'l', b'o', b'c', b'k', b'e', b'd', b' ', digit, b'\n']
}

// The same where it has two.
fn blocked_by_two_digits(task: Task) -> [u8; 11]
    requires few { task < 100 }
    requires two { 10 ≤ task }
    ensures { result ≡ outcome_line (Outcome.Blocked task) }
{
    let ten = b'0' + (task.number() / 10) as u8;
    let digit = b'0' + (task.number() % 10) as u8;
    [
        b'b', b'l', b'o', b'c', b'k', b'e', b'd', b' ', ten, digit, b'\n',
    ]
}

// Appends the line of a step that is blocked, which most lines of a busy pool are.
#[inline(always)]
fn push_blocked(lines: &mut LineBuffer, task: Task) -> Result<(), AllocError>
    ensures ok { OnOk result (lines.new ≡ lines.old ++ outcome_line (Outcome.Blocked task)) }
    ensures err { OnErr result (lines.new ≡ lines.old) }
{
    let number = task.number();
    if number < 10 {
        return lines.push(&blocked_by_digit(task));
    }
    if number < 100 {
        return lines.push(&blocked_by_two_digits(task));
    }
    lines.spell(&Outcome::Blocked(task))
}

/// Appends the outcome's line, or nothing where it finds no memory.
#[inline(always)]
pub(crate) fn push_outcome(lines: &mut LineBuffer, outcome: Outcome) -> Result<(), AllocError>
    ensures ok { OnOk result (lines.new ≡ lines.old ++ outcome_line outcome) }
    ensures err { OnErr result (lines.new ≡ lines.old) }
{
    if let Outcome::Blocked(task) = outcome {
        return push_blocked(lines, task);
    }
    let Some(line) = ready_line(outcome) else {
        return lines.spell(&outcome);
    };
    lines.push(line)
}
