//! Where things stand in the picture.
ghost use Rattle.std.specs.Prelude.{◌≡◌, ◌≤◌, ◌<◌, ◌^◌, ◌⊎◌, All, IfOk, IsTrue, None, false, true, get_or, is_some, length, map, slice_set};
ghost use Rattle.std.specs.Prelude.{unwrap_or};
ghost use Rattle.hp_draw.specs.Layouts.{x_of, next_x_of, width_of, top_of, upper_base_of, lower_base_of, upper_of, lower_of};
ghost use Rattle.hp_draw.specs.Places.{FindsNoOther, FitsOrIsFar, HasPlaces, HaveRoom, InColumns, IsLower, IsNear, IsUpper, StandBelow};
ghost use Rattle.hp_draw.specs.Sketches.{seen};

use crate::following::Numbers;
use crate::sketch::Sketch;
use hp_base::Event;
use hp_text::MOST_EVENTS;
use std::alloc::{AllocError, Global};

/// How far from the left the first event stands.
pub(crate) const LEFT: u64 = 72;
/// How far from above the lanes begin, below the legend.
pub(crate) const TOP: u32 = 128;
/// How high the upper curves are, and the lower ones.
pub(crate) const UPPER: u64 = 80;

pub(crate) const LOWER: u64 = 112;

/// Where things stand in the picture. All has its place there; where that is is laid out by eye.
#[derive(Drop)]
pub(crate) struct Layout {
    /// How many events there are.
    pub(crate) events: u32,
    /// How wide an event is.
    pub(crate) step: u16,
    /// The line of each so many events has its number.
    pub(crate) tick: u16,
    /// How high a box is.
    pub(crate) tall: u16,
    /// Where the lane of each task begins, and at 0 that of what is of no task; one without events has none.
    pub(crate) tops: Vec<Option<u32>>,
    /// Where the last lane ends.
    pub(crate) foot: u32,
    /// The most that the upper curves show, and the lower ones.
    pub(crate) most_free: u32,
    pub(crate) most_resv: u32,
}

/// How wide an event is: a few are wide enough for words, many are narrow, and of very many the picture isn't too wide.
fn step_of(events: u32) -> u16
    ensures { 0 < result }
{
    if events <= 2000 {
        (1440 / events.max(1)).max(14).min(60) as u16
    } else {
        (28000 / events).max(2).min(14) as u16
    }
}

/// Each how many events a line is numbered, so that numbers don't touch.
fn tick_of(step: u16) -> u16 {
    if step >= 40 {
        1
    } else if step >= 10 {
        5
    } else {
        50
    }
}

/// How high a box is: where events are narrow, words stand upright in it.
fn tall_of(step: u16) -> u16
    ensures some { 0 < result }
    ensures most { result ≤ 66 }
{
    if step >= 60 { 32 } else { 66 }
}

/// Notes that a column has events.
fn appear(seen: &mut [bool], column: usize)
    ensures { seen.new ≡ slice_set seen.old column true }
{
    if column < seen.len() {
        seen[column] = true;
    }
}

/// Which columns have something in them.
fn columns_seen(alloc: Global, sketch: &Sketch) -> Result<Vec<bool>, AllocError>
    requires { InColumns (seen sketch.now) }
    ensures count { IfOk result (λ found. length found.items ≡ length sketch.now.open_stays.items) }
    ensures stays { IfOk result (λ found. All (λ s. IsTrue (get_or found.items s.column false)) sketch.now.stays.items) }
    ensures marks { IfOk result (λ found. All (λ m. IsTrue (get_or found.items m.column false)) sketch.now.marks.items) }
    ensures waits { IfOk result (λ found. All (λ w. IsTrue (get_or found.items w.column false)) sketch.now.waits.ended.items) }
    ensures others { IfOk result (λ found. FindsNoOther (seen sketch.now) found.items) }
{
    let mut seen = Vec::new(alloc);
    for _column in 0..sketch.open_stays.len() {
        seen.push(false)?;
    }
    for stay in &sketch.stays {
        appear(seen.as_mut_slice(), stay.column);
    }
    for mark in &sketch.marks {
        appear(seen.as_mut_slice(), mark.column);
    }
    for wait in &sketch.waits.ended {
        appear(seen.as_mut_slice(), wait.column);
    }
    Ok(seen)
}

/// Where each lane begins, and where the last ends.
fn place_lanes(
    alloc: Global,
    seen: &[bool],
    tall: u16,
) -> Result<(Vec<Option<u32>>, u32), AllocError>
    requires few { length seen.now ≤ 65 }
    requires tall { tall ≤ 66 }
    ensures each { IfOk result (λ placed. map is_some placed.0.items ≡ seen.now) }
    ensures lanes { IfOk result (λ placed. StandBelow tall TOP placed.0.items placed.1) }
{
    let mut tops = Vec::new(alloc);
    let mut foot = TOP;
    for is_seen in seen {
        if *is_seen {
            tops.push(Some(foot + 18))?;
            foot += u32::from(tall) + 36;
        } else {
            tops.push(None)?;
        }
    }
    Ok((tops, foot))
}

/// The most of each kind of count, and at least 1.
fn most_of(numbers: &[Numbers]) -> (u32, u32)
    ensures room { All (HaveRoom result.0 result.1) numbers.now }
    ensures upper { IsUpper numbers.now result.0 }
    ensures lower { IsLower numbers.now result.1 }
{
    let (mut most_free, mut most_resv) = (1_u32, 1_u32);
    for counts in numbers {
        most_free = most_free.max(counts.free).max(counts.resv).max(counts.used);
        most_resv = most_resv.max(counts.resv).max(counts.bare);
    }
    (most_free, most_resv)
}

/// The most that the upper curves show, with the quota unless that is more than four times as much as the counts.
fn with_quota(most_free: u32, quota: Option<u32>) -> u32
    ensures more { most_free ≤ result }
    ensures quota { FitsOrIsFar (unwrap_or quota 0) result }
    ensures least { (result ≡ most_free) ⊎ IsNear quota most_free result }
{
    match quota {
        Some(quota) if quota <= most_free.saturating_mul(4) => most_free.max(quota),
        _ => most_free,
    }
}

/// Lays the picture out.
pub(crate) fn lay_out(
    alloc: Global,
    events: &[Event],
    quota: Option<u32>,
    sketch: &Sketch,
) -> Result<Layout, AllocError>
    requires events { length events.now ≤ MOST_EVENTS }
    requires columns { InColumns (seen sketch.now) }
    requires few { length sketch.now.open_stays.items ≤ 65 }
    ensures { IfOk result (HasPlaces quota (length events.now) (seen sketch.now)) }
{
    let events = events.len() as u32;
    let step = step_of(events);
    let tall = tall_of(step);
    let seen = columns_seen(alloc, sketch)?;
    let (tops, foot) = place_lanes(alloc, seen.as_slice(), tall)?;
    let (most_free, most_resv) = most_of(sketch.numbers.as_slice());
    Ok(Layout {
        events,
        step,
        tick: tick_of(step),
        tall,
        tops,
        foot,
        most_free: with_quota(most_free, quota),
        most_resv,
    })
}

impl Layout {
    /// Where a moment begins.
    pub(crate) fn x(&self, at: u32) -> u64
        ensures is { result ≡ x_of self.now at }
        ensures within { result < 2 ^ 49 }
    {
        LEFT + u64::from(self.step) * u64::from(at)
    }

    /// Where a moment ends.
    pub(crate) fn next_x(&self, at: u32) -> u64
        ensures { result ≡ next_x_of self.now at }
    {
        LEFT + u64::from(self.step) * (u64::from(at) + 1)
    }

    /// How wide the time between two moments is.
    pub(crate) fn width(&self, from: u32, until: u32) -> u64
        ensures is { result ≡ width_of self.now from until }
        ensures within { result < 2 ^ 49 }
    {
        u64::from(self.step) * u64::from(until.saturating_sub(from))
    }

    /// How far from above the boxes of a column begin, where it has a lane.
    pub(crate) fn lane(&self, column: usize) -> Option<u32>
        ensures { result ≡ get_or self.now.tops.items column None }
    {
        if column < self.tops.len() {
            self.tops[column]
        } else {
            None
        }
    }

    /// The same, and 0 where it has none.
    pub(crate) fn top(&self, column: usize) -> u64
        ensures is { result ≡ top_of self.now column }
        ensures within { result < 2 ^ 32 }
    {
        match self.lane(column) {
            Some(top) => u64::from(top),
            None => 0,
        }
    }

    /// The line on which the upper curves stand.
    pub(crate) fn upper_base(&self) -> u64
        ensures is { result ≡ upper_base_of self.now }
        ensures within { result < 2 ^ 33 }
    {
        u64::from(self.foot) + 24 + UPPER
    }

    /// The line on which the lower curves stand.
    pub(crate) fn lower_base(&self) -> u64
        ensures is { result ≡ lower_base_of self.now }
        ensures within { result < 2 ^ 33 }
    {
        u64::from(self.foot) + 52 + UPPER + LOWER
    }

    /// How far from above the point of an upper curve stands.
    pub(crate) fn upper(&self, count: u32) -> u64
        ensures is { result ≡ upper_of self.now count }
        ensures within { result < 2 ^ 33 }
    {
        let most = self.most_free;
        let scale = u64::from(most) + 1;
        let height = u64::from(count) * UPPER / scale;
        self.upper_base().saturating_sub(height)
    }

    /// How far from above the point of a lower curve stands.
    pub(crate) fn lower(&self, count: u32) -> u64
        ensures is { result ≡ lower_of self.now count }
        ensures within { result < 2 ^ 33 }
    {
        let most = self.most_resv;
        let scale = u64::from(most) + 1;
        let height = u64::from(count) * LOWER / scale;
        self.lower_base().saturating_sub(height)
    }
}
