//! What stands round the picture: its head, its legend, and the numbers of lines.
ghost use Rattle.std.specs.Prelude.{◌≡◌, ◌++◌, OnOk, string_bytes};
ghost use Rattle.hp_draw.specs.Frames.{background, head_text, legend_text, lines_text, number_at, number_text, numbers_text, quota_legend};
ghost use Rattle.hp_draw.specs.Frames.{size_text, style_text, view_text, whole_height_of, whole_width_of};

use crate::layout::{Layout, TOP};
use crate::shapes::{Place, push_box, push_count, push_line, push_words};
use crate::style::STYLE;
use std::alloc::AllocError;

/// The operations, each with its colour.
const LEGEND: &str =
    "<rect class='map' x='72' y='36' width='14' height='12'/><text x='90' y='46'>map</text>
<rect class='mapn' x='130' y='36' width='14' height='12'/><text x='148' y='46'>mapn</text>
<rect class='unmap' x='194' y='36' width='14' height='12'/><text x='212' y='46'>unmap</text>
<rect class='load' x='264' y='36' width='14' height='12'/><text x='282' y='46'>load</text>
<rect class='store' x='328' y='36' width='14' height='12'/><text x='346' y='46'>store</text>
<rect class='alloc' x='398' y='36' width='14' height='12'/><text x='416' y='46'>alloc</text>
<rect class='punch' x='468' y='36' width='14' height='12'/><text x='486' y='46'>punch</text>
<rect class='trunc' x='538' y='36' width='14' height='12'/><text x='556' y='46'>trunc</text>
<rect class='exit' x='608' y='36' width='14' height='12'/><text x='626' y='46'>exit</text>
<rect class='held' x='72' y='58' width='14' height='12'/><text x='90' y='68'>waits, and for whom</text>
<path class='wait' d='M224 58V70'/><circle class='holder' cx='224' cy='70' r='3'/>
<path class='denied' d='M250 60h10l-5 9z'/><text x='266' y='68'>denied its memory</text>
<path class='killed' d='M388 60l8 8m0 -8l-8 8'/><text x='404' y='68'>killed</text>
<circle class='refused' cx='464' cy='64' r='4'/><text x='474' y='68'>refused</text>
<path class='resized' d='M540 58V71'/><text x='548' y='68'>resized</text>
<path class='blocked' d='M612 64h8'/><text x='626' y='68'>blocked</text>
<path class='failed' d='M692 59l5 5l-5 5l-5 -5z'/><text x='704' y='68'>failed</text>
<path class='free' d='M72 86h22'/><text x='98' y='90'>free</text>
<path class='resv' d='M140 86h22'/><text x='166' y='90'>resv: the reserve count</text>
<path class='bare' d='M322 86h22'/><text x='348' y='90'>reserved without a page</text>
<rect class='owed' x='506' y='80' width='22' height='12'/><text x='532' y='90'>owed by calls in flight: resv less reserved without a page</text>
";

/// The curve and the line of a pool with a quota.
const QUOTA_LEGEND: &str = "<path class='used' d='M680 42h22'/><text x='706' y='46'>used</text>
<path class='quota' d='M748 42h22'/><text x='774' y='46'>quota</text>
";

/// How wide the picture is: at least as wide as its legend.
fn whole_width(layout: &Layout) -> u64
    ensures { result ≡ whole_width_of layout.now }
{
    (layout.x(layout.events) + 40).max(900)
}

/// How high it is.
fn whole_height(layout: &Layout) -> u64
    ensures { result ≡ whole_height_of layout.now }
{
    layout.lower_base() + 48
}

/// The ground of the picture.
#[tactic(auto, unfolding(crate::specs::Frames::background))]
fn background(layout: &Layout) -> Place
    ensures { result ≡ background layout.now }
{
    Place {
        x: 0,
        y: 0,
        width: whole_width(layout),
        height: whole_height(layout),
    }
}

/// Appends how large the picture is.
#[tactic(auto, unfolding(crate::specs::Frames::size_text))]
fn push_size(width: u64, height: u64, text: &mut String) -> Result<(), AllocError>
    ensures { OnOk result (string_bytes text.new ≡ string_bytes text.old ++ size_text width height) }
{
    write!(
        text,
        "<svg xmlns='http://www.w3.org/2000/svg' width='{width}' height='{height}'"
    )
}

/// Appends the same, as what is seen of it.
#[tactic(auto, unfolding(crate::specs::Frames::view_text))]
fn push_view(width: u64, height: u64, text: &mut String) -> Result<(), AllocError>
    ensures { OnOk result (string_bytes text.new ≡ string_bytes text.old ++ view_text width height) }
{
    writeln!(text, " viewBox='0 0 {width} {height}'>")
}

/// Appends the looks of what is in it.
#[tactic(auto, unfolding(crate::specs::Frames::style_text))]
fn push_style(text: &mut String) -> Result<(), AllocError>
    ensures { OnOk result (string_bytes text.new ≡ string_bytes text.old ++ style_text) }
{
    text.push_str(STYLE)
}

/// Appends what stands before all else.
#[tactic(auto, unfolding(crate::specs::Frames::head_text))]
pub(crate) fn push_head(layout: &Layout, text: &mut String) -> Result<(), AllocError>
    ensures { OnOk result (string_bytes text.new ≡ string_bytes text.old ++ head_text layout.now) }
{
    let width = whole_width(layout);
    let height = whole_height(layout);
    push_size(width, height, text)?;
    push_view(width, height, text)?;
    push_style(text)?;
    push_box("background", background(layout), text)
}

/// Appends the legend of the quota, where the pool has one.
fn push_quota_legend(quota: Option<u32>, text: &mut String) -> Result<(), AllocError>
    ensures { OnOk result (string_bytes text.new ≡ string_bytes text.old ++ quota_legend quota) }
{
    match quota {
        Some(_) => text.push_str(QUOTA_LEGEND),
        None => Ok(()),
    }
}

/// Appends the title and the legend.
#[tactic(auto, unfolding(crate::specs::Frames::legend_text))]
pub(crate) fn push_legend(
    title: &str,
    quota: Option<u32>,
    text: &mut String,
) -> Result<(), AllocError>
    ensures { OnOk result (string_bytes text.new ≡ string_bytes text.old ++ legend_text title.now quota) }
{
    push_words("name", 8, 20, title, text)?;
    text.push_str(LEGEND)?;
    push_quota_legend(quota, text)
}

/// Appends the number of a moment's line in the trace, whose header is line 1, and a thin line down the picture.
fn push_number(
    layout: &Layout,
    at: u32,
    word: &mut String,
    text: &mut String,
) -> Result<(), AllocError>
    ensures { OnOk result (string_bytes text.new ≡ string_bytes text.old ++ number_text layout.now at) }
{
    let x = layout.x(at);
    let middle = x + u64::from(layout.step) / 2;
    push_line("grid", x, u64::from(TOP), layout.lower_base(), text)?;
    push_count("at", middle, 124, u64::from(at) + 2, word, text)
}

/// Appends the same at each so many events.
fn push_number_at(
    layout: &Layout,
    at: u32,
    word: &mut String,
    text: &mut String,
) -> Result<(), AllocError>
    ensures { OnOk result (string_bytes text.new ≡ string_bytes text.old ++ number_at layout.now at) }
{
    if at % u32::from(layout.tick).max(1) == 0 {
        return push_number(layout, at, word, text);
    }
    Ok(())
}

/// Appends the numbers of lines.
fn push_numbers(layout: &Layout, word: &mut String, text: &mut String) -> Result<(), AllocError>
    ensures { OnOk result (string_bytes text.new ≡ string_bytes text.old ++ numbers_text layout.now layout.now.events) }
{
    for at in 0..layout.events {
        push_number_at(layout, at, word, text)?;
    }
    Ok(())
}

/// Appends the same, and what they are.
#[tactic(auto, unfolding(crate::specs::Frames::lines_text))]
pub(crate) fn push_lines(
    layout: &Layout,
    word: &mut String,
    text: &mut String,
) -> Result<(), AllocError>
    ensures { OnOk result (string_bytes text.new ≡ string_bytes text.old ++ lines_text layout.now) }
{
    push_words("number", 64, 124, "line", text)?;
    push_numbers(layout, word, text)
}
