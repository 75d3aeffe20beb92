//! The counts, as curves.
ghost use Rattle.std.specs.Prelude.{◌≡◌, ◌++◌, ◌<◌, ◌^◌, OnOk, string_bytes};
ghost use Rattle.hp_draw.specs.Curves.{base_of, between_text, class_of, counts_text, curve_head, curve_text, curves_text};
ghost use Rattle.hp_draw.specs.Curves.{bare_told, counts_front, four_text, height_of, start_of, hit_place, level_line};
ghost use Rattle.hp_draw.specs.Curves.{level_text};
ghost use Rattle.hp_draw.specs.Curves.{levels_text, owed_text, owed_told, point_text, quota_level, quota_line, quota_text};
ghost use Rattle.hp_draw.specs.Curves.{quota_words, shown_text, sum_text, sums_text, used_told};
ghost use Rattle.hp_draw.specs.Shapes.{texts};

use crate::following::Numbers;
use crate::layout::{LEFT, LOWER, Layout, UPPER};
use crate::shapes::{Place, push_box, push_count, push_words};
use std::alloc::AllocError;

/// A curve.
#[derive(Clone, Copy)]
pub(crate) enum Curve {
    /// Free frames, among the upper curves.
    Free,
    /// The reserve count, among them.
    Taken,
    /// The same, among the lower curves.
    Resv,
    /// Reserved indices without a page.
    Bare,
    /// The used count, among the upper curves.
    Used,
}

/// The class of a curve's looks.
fn class_of(curve: Curve) -> &'static str
    ensures { result.now ≡ class_of curve }
{
    match curve {
        Curve::Free => "free",
        Curve::Taken | Curve::Resv => "resv",
        Curve::Bare => "bare",
        Curve::Used => "used",
    }
}

/// How far from above a curve runs.
fn height_of(layout: &Layout, curve: Curve, counts: &Numbers) -> u64
    ensures { result ≡ height_of layout.now curve counts.now }
{
    match curve {
        Curve::Free => layout.upper(counts.free),
        Curve::Taken => layout.upper(counts.resv),
        Curve::Resv => layout.lower(counts.resv),
        Curve::Bare => layout.lower(counts.bare),
        Curve::Used => layout.upper(counts.used),
    }
}

/// Where a curve without a moment stands.
fn base_of(layout: &Layout, curve: Curve) -> u64
    ensures { result ≡ base_of layout.now curve }
{
    match curve {
        Curve::Free | Curve::Taken | Curve::Used => layout.upper_base(),
        Curve::Resv | Curve::Bare => layout.lower_base(),
    }
}

/// Where a curve begins: as far from above as in its first moment.
fn start_of(layout: &Layout, curve: Curve, numbers: &[Numbers]) -> u64
    ensures { result ≡ start_of layout.now curve numbers.now }
{
    match numbers.first() {
        Some(first) => height_of(layout, curve, first),
        None => base_of(layout, curve),
    }
}

/// Appends the next points of a curve: it runs there, and on to the end of that moment.
fn push_point(
    layout: &Layout,
    curve: Curve,
    counts: &Numbers,
    text: &mut String,
) -> Result<(), AllocError>
    ensures { OnOk result (string_bytes text.new ≡ string_bytes text.old ++ point_text layout.now curve counts.now) }
{
    let y = height_of(layout, curve, counts);
    let x = layout.next_x(counts.at);
    write!(text, "V{y}H{x}")
}

/// Appends the points of a curve.
fn push_points(
    layout: &Layout,
    curve: Curve,
    numbers: &[Numbers],
    text: &mut String,
) -> Result<(), AllocError>
    ensures { OnOk result (string_bytes text.new ≡ string_bytes text.old ++ texts (point_text layout.now curve) numbers.now) }
{
    for counts in numbers {
        push_point(layout, curve, counts, text)?;
    }
    Ok(())
}

/// Appends the front of a curve.
#[tactic(auto, unfolding(crate::specs::Curves::curve_head))]
fn push_curve_head(
    layout: &Layout,
    curve: Curve,
    start: u64,
    text: &mut String,
) -> Result<(), AllocError>
    ensures { OnOk result (string_bytes text.new ≡ string_bytes text.old ++ curve_head layout.now curve start) }
{
    let class = class_of(curve);
    write!(text, "<path class='{class}' d='M{LEFT} {start}")
}

/// Appends a curve.
#[tactic(auto, unfolding(crate::specs::Curves::curve_text))]
fn push_curve(
    layout: &Layout,
    curve: Curve,
    numbers: &[Numbers],
    text: &mut String,
) -> Result<(), AllocError>
    ensures { OnOk result (string_bytes text.new ≡ string_bytes text.old ++ curve_text layout.now curve numbers.now) }
{
    push_curve_head(layout, curve, start_of(layout, curve, numbers), text)?;
    push_points(layout, curve, numbers, text)?;
    text.push_str("'/>\n")
}

/// Appends the place between the reserve count and the reserved indices without a page, where they differ.
fn push_between(layout: &Layout, counts: &Numbers, text: &mut String) -> Result<(), AllocError>
    ensures { OnOk result (string_bytes text.new ≡ string_bytes text.old ++ between_text layout.now counts.now) }
{
    if counts.resv == counts.bare {
        return Ok(());
    }
    let from = layout.x(counts.at);
    let to = layout.next_x(counts.at);
    let resv = layout.lower(counts.resv);
    let bare = layout.lower(counts.bare);
    write!(text, "M{from} {resv}H{to}V{bare}H{from}Z")
}

/// Appends these places of all events.
fn push_betweens(layout: &Layout, numbers: &[Numbers], text: &mut String) -> Result<(), AllocError>
    ensures { OnOk result (string_bytes text.new ≡ string_bytes text.old ++ texts (between_text layout.now) numbers.now) }
{
    for counts in numbers {
        push_between(layout, counts, text)?;
    }
    Ok(())
}

/// Appends what is owed, as a place between two curves.
#[tactic(auto, unfolding(crate::specs::Curves::owed_text))]
fn push_owed(layout: &Layout, numbers: &[Numbers], text: &mut String) -> Result<(), AllocError>
    ensures { OnOk result (string_bytes text.new ≡ string_bytes text.old ++ owed_text layout.now numbers.now) }
{
    text.push_str("<path class='owed' d='")?;
    push_betweens(layout, numbers, text)?;
    text.push_str("'/>\n")
}

/// Appends what is owed, as a number where there is room and something is owed.
fn push_sum(layout: &Layout, counts: &Numbers, text: &mut String) -> Result<(), AllocError>
    ensures { OnOk result (string_bytes text.new ≡ string_bytes text.old ++ sum_text layout.now counts.now) }
{
    let owed = counts.owed;
    if counts.resv == counts.bare || layout.step < 12 {
        return Ok(());
    }
    let x = layout.x(counts.at) + u64::from(layout.step) / 2;
    let y = layout.lower_base() + 16;
    writeln!(text, "<text class='sum' x='{x}' y='{y}'>{owed}</text>")
}

/// Appends what is owed behind each event.
fn push_each_sum(layout: &Layout, numbers: &[Numbers], text: &mut String) -> Result<(), AllocError>
    ensures { OnOk result (string_bytes text.new ≡ string_bytes text.old ++ texts (sum_text layout.now) numbers.now) }
{
    for counts in numbers {
        push_sum(layout, counts, text)?;
    }
    Ok(())
}

/// Appends the same, and what it is.
#[tactic(auto, unfolding(crate::specs::Curves::sums_text))]
fn push_sums(layout: &Layout, numbers: &[Numbers], text: &mut String) -> Result<(), AllocError>
    ensures { OnOk result (string_bytes text.new ≡ string_bytes text.old ++ sums_text layout.now numbers.now) }
{
    push_words("number", 64, layout.lower_base() + 16, "owed", text)?;
    push_each_sum(layout, numbers, text)
}

/// Where the pointer rests on the counts behind an event.
#[tactic(auto, unfolding(crate::specs::Curves::hit_place))]
fn hit_place(layout: &Layout, at: u32) -> Place
    ensures { result ≡ hit_place layout.now at }
{
    Place {
        x: layout.x(at),
        y: layout.upper_base().saturating_sub(UPPER),
        width: u64::from(layout.step),
        height: UPPER + LOWER + 28,
    }
}

/// Appends the first half of what is told of them there.
#[tactic(auto, unfolding(crate::specs::Curves::counts_front))]
fn push_counts_front(counts: &Numbers, text: &mut String) -> Result<(), AllocError>
    ensures { OnOk result (string_bytes text.new ≡ string_bytes text.old ++ counts_front counts.now) }
{
    let Numbers { at, free, resv, .. } = *counts;
    let line = u64::from(at) + 2;
    write!(text, "<g><title>line {line}: free {free}, resv {resv}")
}

/// Appends what is owed, at the end of the same.
#[tactic(auto, unfolding(crate::specs::Curves::owed_told))]
fn push_owed_told(owed: i64, text: &mut String) -> Result<(), AllocError>
    ensures { OnOk result (string_bytes text.new ≡ string_bytes text.old ++ owed_told owed) }
{
    write!(text, ", owed {owed}</title>")
}

/// Appends the reserved indices without a page, in the midst of it.
#[tactic(auto, unfolding(crate::specs::Curves::bare_told))]
fn push_bare_told(bare: u32, text: &mut String) -> Result<(), AllocError>
    ensures { OnOk result (string_bytes text.new ≡ string_bytes text.old ++ bare_told bare) }
{
    write!(text, ", reserved without a page {bare}")
}

/// Appends how many pages are used of how many, where the pool has a quota.
fn push_used_told(quota: Option<u32>, used: u32, text: &mut String) -> Result<(), AllocError>
    ensures { OnOk result (string_bytes text.new ≡ string_bytes text.old ++ used_told quota used) }
{
    match quota {
        Some(quota) => write!(text, ", used {used} of {quota}"),
        None => Ok(()),
    }
}

/// Appends the same, and where it is told.
fn push_counts(
    layout: &Layout,
    quota: Option<u32>,
    counts: &Numbers,
    text: &mut String,
) -> Result<(), AllocError>
    ensures { OnOk result (string_bytes text.new ≡ string_bytes text.old ++ counts_text layout.now quota counts.now) }
{
    push_counts_front(counts, text)?;
    push_bare_told(counts.bare, text)?;
    push_used_told(quota, counts.used, text)?;
    push_owed_told(counts.owed, text)?;
    push_box("hit", hit_place(layout, counts.at), text)?;
    text.push_str("</g>\n")
}

/// Appends the same of each event.
fn push_all_counts(
    layout: &Layout,
    quota: Option<u32>,
    numbers: &[Numbers],
    text: &mut String,
) -> Result<(), AllocError>
    ensures { OnOk result (string_bytes text.new ≡ string_bytes text.old ++ texts (counts_text layout.now quota) numbers.now) }
{
    for counts in numbers {
        push_counts(layout, quota, counts, text)?;
    }
    Ok(())
}

/// Appends the line of a level.
#[tactic(auto, unfolding(crate::specs::Curves::level_line))]
fn push_level_line(y: u64, width: u64, text: &mut String) -> Result<(), AllocError>
    ensures { OnOk result (string_bytes text.new ≡ string_bytes text.old ++ level_line y width) }
{
    writeln!(text, "<path class='grid' d='M{LEFT} {y}h{width}'/>")
}

/// Appends a level of the curves, with its number. `word` is where that is laid out.
#[tactic(auto, unfolding(crate::specs::Curves::level_text))]
fn push_level(
    y: u64,
    count: u32,
    width: u64,
    word: &mut String,
    text: &mut String,
) -> Result<(), AllocError>
    requires { y < 2 ^ 33 }
    ensures { OnOk result (string_bytes text.new ≡ string_bytes text.old ++ level_text y count width) }
{
    push_level_line(y, width, text)?;
    push_count("number", 64, y + 3, u64::from(count), word, text)
}

/// Appends the levels at 0 and at the most of both kinds of curves.
#[tactic(auto, unfolding(crate::specs::Curves::levels_text))]
fn push_levels(layout: &Layout, word: &mut String, text: &mut String) -> Result<(), AllocError>
    ensures { OnOk result (string_bytes text.new ≡ string_bytes text.old ++ levels_text layout.now) }
{
    let width = layout.width(0, layout.events);
    let (most_free, most_resv) = (layout.most_free, layout.most_resv);
    push_level(layout.upper_base(), 0, width, word, text)?;
    push_level(layout.upper(most_free), most_free, width, word, text)?;
    push_level(layout.lower_base(), 0, width, word, text)?;
    push_level(layout.lower(most_resv), most_resv, width, word, text)
}

/// Appends the four curves.
#[tactic(auto, unfolding(crate::specs::Curves::four_text))]
fn push_four(layout: &Layout, numbers: &[Numbers], text: &mut String) -> Result<(), AllocError>
    ensures { OnOk result (string_bytes text.new ≡ string_bytes text.old ++ four_text layout.now numbers.now) }
{
    push_curve(layout, Curve::Free, numbers, text)?;
    push_curve(layout, Curve::Taken, numbers, text)?;
    push_curve(layout, Curve::Resv, numbers, text)?;
    push_curve(layout, Curve::Bare, numbers, text)
}

/// Appends the line of the quota.
#[tactic(auto, unfolding(crate::specs::Curves::quota_line))]
fn push_quota_line(y: u64, width: u64, text: &mut String) -> Result<(), AllocError>
    ensures { OnOk result (string_bytes text.new ≡ string_bytes text.old ++ quota_line y width) }
{
    writeln!(text, "<path class='quota' d='M{LEFT} {y}h{width}'/>")
}

/// Appends what stands over it.
#[tactic(auto, unfolding(crate::specs::Curves::quota_words))]
fn push_quota_words(quota: u32, y: u64, text: &mut String) -> Result<(), AllocError>
    ensures { OnOk result (string_bytes text.new ≡ string_bytes text.old ++ quota_words quota y) }
{
    writeln!(text, "<text x='76' y='{y}'>quota {quota}</text>")
}

/// Appends the line of a quota, if the upper curves show as much.
fn push_quota_level(layout: &Layout, quota: u32, text: &mut String) -> Result<(), AllocError>
    ensures { OnOk result (string_bytes text.new ≡ string_bytes text.old ++ quota_level layout.now quota) }
{
    if quota > layout.most_free {
        return Ok(());
    }
    let y = layout.upper(quota);
    push_quota_line(y, layout.width(0, layout.events), text)?;
    push_quota_words(quota, y.saturating_sub(3), text)
}

/// Appends the used count and the line of the quota, where the pool has one.
fn push_quota(
    layout: &Layout,
    quota: Option<u32>,
    numbers: &[Numbers],
    text: &mut String,
) -> Result<(), AllocError>
    ensures { OnOk result (string_bytes text.new ≡ string_bytes text.old ++ quota_text layout.now quota numbers.now) }
{
    let Some(quota) = quota else {
        return Ok(());
    };
    push_curve(layout, Curve::Used, numbers, text)?;
    push_quota_level(layout, quota, text)
}

/// Appends the curves, and what is owed.
#[tactic(auto, unfolding(crate::specs::Curves::shown_text))]
fn push_shown(
    layout: &Layout,
    quota: Option<u32>,
    numbers: &[Numbers],
    text: &mut String,
) -> Result<(), AllocError>
    ensures { OnOk result (string_bytes text.new ≡ string_bytes text.old ++ shown_text layout.now quota numbers.now) }
{
    push_owed(layout, numbers, text)?;
    push_quota(layout, quota, numbers, text)?;
    push_four(layout, numbers, text)
}

/// Appends all of it.
#[tactic(auto, unfolding(crate::specs::Curves::curves_text))]
pub(crate) fn push_curves(
    layout: &Layout,
    quota: Option<u32>,
    numbers: &[Numbers],
    word: &mut String,
    text: &mut String,
) -> Result<(), AllocError>
    ensures { OnOk result (string_bytes text.new ≡ string_bytes text.old ++ curves_text layout.now quota numbers.now) }
{
    push_levels(layout, word, text)?;
    push_shown(layout, quota, numbers, text)?;
    push_sums(layout, numbers, text)?;
    push_all_counts(layout, quota, numbers, text)
}
