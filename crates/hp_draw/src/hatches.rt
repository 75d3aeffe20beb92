//! The waits of tasks, hatched over the lanes.
ghost use Rattle.std.specs.Prelude.{◌≡◌, ◌++◌, ◌<◌, ◌^◌, OnOk, string_bytes};
ghost use Rattle.hp_draw.specs.Hatches.{between_text, hatch_place, hatch_text, holder_text};
ghost use Rattle.hp_draw.specs.Hatches.{line_to_holder, wait_told, waits_words, wanted_words};
ghost use Rattle.hp_draw.specs.Shapes.{texts};

use crate::layout::Layout;
use crate::shapes::{Place, push_box, push_line};
use crate::waits::{Wait, Waiting};
use hp_core::Acquired;
use std::alloc::AllocError;

/// Appends what a task waits for.
fn push_wanted(wanted: Acquired, text: &mut String) -> Result<(), AllocError>
    ensures { OnOk result (string_bytes text.new ≡ string_bytes text.old ++ wanted_words wanted) }
{
    match wanted {
        Acquired::Nothing => Ok(()),
        Acquired::Lock(file) => write!(text, ": lock of file {file}"),
        Acquired::Slot(file, index) => write!(text, ": slot of file {file} index {index}"),
    }
}

/// Appends who waits for whom.
#[tactic(auto, unfolding(crate::specs::Hatches::waits_words))]
fn push_waits_words(column: usize, waiting: &Waiting, text: &mut String) -> Result<(), AllocError>
    ensures { OnOk result (string_bytes text.new ≡ string_bytes text.old ++ waits_words column waiting.now) }
{
    let line = u64::from(waiting.since) + 2;
    let holder = waiting.holder;
    write!(
        text,
        "<g><title>line {line}: task {column} waits for task {holder}"
    )
}

/// Appends what is told of a wait where the pointer rests on it.
#[tactic(auto, unfolding(crate::specs::Hatches::wait_told))]
fn push_wait_told(wait: &Wait, text: &mut String) -> Result<(), AllocError>
    ensures { OnOk result (string_bytes text.new ≡ string_bytes text.old ++ wait_told wait.now) }
{
    push_waits_words(wait.column, &wait.waiting, text)?;
    push_wanted(wait.waiting.wanted, text)?;
    text.push_str("</title>")
}

/// Where a wait is hatched.
#[tactic(auto, unfolding(crate::specs::Hatches::hatch_place))]
fn hatch_place(layout: &Layout, wait: &Wait) -> Place
    ensures { result ≡ hatch_place layout.now wait.now }
{
    Place {
        x: layout.x(wait.waiting.since),
        y: layout.top(wait.column),
        width: layout.width(wait.waiting.since, wait.until),
        height: u64::from(layout.tall),
    }
}

/// Appends the end of a line at its holder.
#[tactic(auto, unfolding(crate::specs::Hatches::holder_text))]
fn push_holder(x: u64, y: u64, text: &mut String) -> Result<(), AllocError>
    ensures { OnOk result (string_bytes text.new ≡ string_bytes text.old ++ holder_text x y) }
{
    writeln!(text, "<circle class='holder' cx='{x}' cy='{y}' r='3'/>")
}

/// Appends a line from the edge of the lane `own` to that of another.
fn push_between(
    x: u64,
    own: u64,
    other: u64,
    tall: u16,
    text: &mut String,
) -> Result<(), AllocError>
    requires own { own < 2 ^ 32 }
    requires other { other < 2 ^ 32 }
    ensures { OnOk result (string_bytes text.new ≡ string_bytes text.old ++ between_text x own other tall) }
{
    let tall = u64::from(tall);
    if other < own {
        push_line("wait", x, own, other + tall, text)?;
        return push_holder(x, other + tall, text);
    }
    push_line("wait", x, own + tall, other, text)?;
    push_holder(x, other, text)
}

/// Appends the line from a wait to its holder.
fn push_line_to_holder(layout: &Layout, wait: &Wait, text: &mut String) -> Result<(), AllocError>
    ensures { OnOk result (string_bytes text.new ≡ string_bytes text.old ++ line_to_holder layout.now wait.now) }
{
    let x = layout.x(wait.waiting.since) + 4;
    let own = layout.top(wait.column);
    let other = layout.top(wait.waiting.holder.number() as usize);
    push_between(x, own, other, layout.tall, text)
}

/// Appends a wait: its hatch, what is told of it, and the line to the holder.
fn push_hatch(layout: &Layout, wait: &Wait, text: &mut String) -> Result<(), AllocError>
    ensures { OnOk result (string_bytes text.new ≡ string_bytes text.old ++ hatch_text layout.now wait.now) }
{
    push_wait_told(wait, text)?;
    push_box("held", hatch_place(layout, wait), text)?;
    push_line_to_holder(layout, wait, text)?;
    text.push_str("</g>\n")
}

/// Appends all waits.
pub(crate) fn push_hatches(
    layout: &Layout,
    waits: &[Wait],
    text: &mut String,
) -> Result<(), AllocError>
    ensures { OnOk result (string_bytes text.new ≡ string_bytes text.old ++ texts (hatch_text layout.now) waits.now) }
{
    for wait in waits {
        push_hatch(layout, wait, text)?;
    }
    Ok(())
}
