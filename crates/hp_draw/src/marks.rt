//! Kills, denials, refusals, blocked steps, failures and resizes.
ghost use Rattle.std.specs.Prelude.{◌≡◌, ◌++◌, ◌<◌, ◌^◌, OnOk, string_bytes};
ghost use Rattle.hp_draw.specs.Marks.{mark_line, mark_text, mark_x, mark_y, resized_line, resized_number, said, sign_text};
ghost use Rattle.hp_draw.specs.Shapes.{texts};

use crate::following::{Mark, Sign};
use crate::layout::{Layout, TOP};
use std::alloc::AllocError;

/// Appends what a mark says where the pointer rests on it.
#[tactic(auto, unfolding(crate::specs::Marks::said))]
fn push_said(sign: Sign, text: &mut String) -> Result<(), AllocError>
    ensures { OnOk result (string_bytes text.new ≡ string_bytes text.old ++ said sign) }
{
    match sign {
        Sign::Denied => text.push_str("denied its memory"),
        Sign::Killed => text.push_str("killed"),
        Sign::Blocked(holder) => write!(text, "blocked by task {holder}"),
        Sign::Failed(answer) => write!(text, "ended {answer}"),
        Sign::Resized(frames) => write!(text, "resized to {frames} frames"),
        Sign::Refused(why) => write!(text, "refused {why}"),
    }
}

/// Appends the line down the picture at which the pool was resized.
#[tactic(auto, unfolding(crate::specs::Marks::resized_line))]
fn push_resized_line(layout: &Layout, x: u64, text: &mut String) -> Result<(), AllocError>
    ensures { OnOk result (string_bytes text.new ≡ string_bytes text.old ++ resized_line layout.now x) }
{
    let foot = layout.lower_base();
    write!(text, "<path class='resized' d='M{x} {TOP}V{foot}'/>")
}

/// Appends how many frames it has, upright beside the line, where an event is wide enough.
fn push_resized_number(
    layout: &Layout,
    frames: u32,
    x: u64,
    y: u64,
    text: &mut String,
) -> Result<(), AllocError>
    requires { x < 2 ^ 49 }
    ensures { OnOk result (string_bytes text.new ≡ string_bytes text.old ++ resized_number layout.now frames x y) }
{
    if layout.step < 12 {
        return Ok(());
    }
    let x = x + 10;
    write!(
        text,
        "<text class='in' transform='translate({x} {y})rotate(-90)'>{frames}</text>"
    )
}

/// Appends the sign of a mark at that place.
#[tactic(auto, unfolding(crate::specs::Marks::sign_text))]
fn push_sign(
    layout: &Layout,
    sign: Sign,
    x: u64,
    y: u64,
    text: &mut String,
) -> Result<(), AllocError>
    requires { x < 2 ^ 49 }
    ensures { OnOk result (string_bytes text.new ≡ string_bytes text.old ++ sign_text layout.now sign x y) }
{
    match sign {
        Sign::Denied => write!(text, "<path class='denied' d='M{x} {y}m-5 -4h10l-5 9z'/>"),
        Sign::Killed => write!(
            text,
            "<path class='killed' d='M{x} {y}m-4 -4l8 8m0 -8l-8 8'/>"
        ),
        Sign::Resized(frames) => {
            push_resized_line(layout, x, text)?;
            push_resized_number(layout, frames, x, y, text)
        }
        Sign::Blocked(_holder) => write!(text, "<path class='blocked' d='M{x} {y}m-4 0h8'/>"),
        Sign::Failed(_answer) => {
            write!(
                text,
                "<path class='failed' d='M{x} {y}m0 -5l5 5l-5 5l-5 -5z'/>"
            )
        }
        Sign::Refused(_why) => write!(text, "<circle class='refused' cx='{x}' cy='{y}' r='4'/>"),
    }
}

/// Appends the line of a mark, as it is told where the pointer rests on it.
#[tactic(auto, unfolding(crate::specs::Marks::mark_line))]
fn push_mark_line(at: u32, text: &mut String) -> Result<(), AllocError>
    ensures { OnOk result (string_bytes text.new ≡ string_bytes text.old ++ mark_line at) }
{
    let line = u64::from(at) + 2;
    write!(text, "<g><title>line {line}: ")
}

/// How far from the left a mark stands: at the moment of a resize, and in the midst of other events.
#[tactic(auto, unfolding(crate::specs::Marks::mark_x))]
fn mark_x(layout: &Layout, mark: &Mark) -> u64
    ensures is { result ≡ mark_x layout.now mark.now }
    ensures within { result < 2 ^ 49 }
{
    let x = layout.x(mark.at);
    match mark.sign {
        Sign::Resized(_) => x,
        Sign::Denied | Sign::Killed | Sign::Blocked(_) | Sign::Failed(_) | Sign::Refused(_) => {
            x + u64::from(layout.step) / 2
        }
    }
}

/// How far from above a mark stands: in the lane where a call failed or the pool was resized, and else below it.
#[tactic(auto, unfolding(crate::specs::Marks::mark_y))]
fn mark_y(layout: &Layout, mark: &Mark) -> u64
    ensures { result ≡ mark_y layout.now mark.now }
{
    let top = layout.top(mark.column);
    let tall = u64::from(layout.tall);
    match mark.sign {
        Sign::Resized(_) | Sign::Failed(_) => top + tall / 2,
        Sign::Denied | Sign::Killed | Sign::Blocked(_) | Sign::Refused(_) => top + tall + 8,
    }
}

/// Appends a mark.
fn push_mark(layout: &Layout, mark: &Mark, text: &mut String) -> Result<(), AllocError>
    ensures { OnOk result (string_bytes text.new ≡ string_bytes text.old ++ mark_text layout.now mark.now) }
{
    let (x, y) = (mark_x(layout, mark), mark_y(layout, mark));
    push_mark_line(mark.at, text)?;
    push_said(mark.sign, text)?;
    text.push_str("</title>")?;
    push_sign(layout, mark.sign, x, y, text)?;
    text.push_str("</g>\n")
}

/// Appends all marks.
pub(crate) fn push_marks(
    layout: &Layout,
    marks: &[Mark],
    text: &mut String,
) -> Result<(), AllocError>
    ensures { OnOk result (string_bytes text.new ≡ string_bytes text.old ++ texts (mark_text layout.now) marks.now) }
{
    for mark in marks {
        push_mark(layout, mark, text)?;
    }
    Ok(())
}
