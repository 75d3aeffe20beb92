//! The gaps between mappings, kept in order, so that room is found without a look at each mapping.
ghost use Rattle.std.specs.Prelude.{◌≡◌, ◌+◌, ◌-◌, ◌++◌, ◌<◌, ◌≤◌, length, vec_len, vec_capacity, IfOk, nat_lt};
ghost use Rattle.std.specs.List.{prefix_len, insert, remove};
ghost use Rattle.std.specs.List.Sorted.{IsNonDecreasingBy};
ghost use Rattle.hp_base.specs.Mappings.{IsRoom, IsSpread};
ghost use Rattle.hp_table.specs.Gaps.{between, gaps_of, is_below, listed, swapped, up_to};

use crate::search;
use hp_base::{Mapping, VPNS, Vpn};
use std::alloc::{AllocError, Global};

// Pages that no mapping has, up to the base of one.
#[derive(Clone, Copy, Debug, PartialEq, Eq)]
pub struct Gap {
    pub base: Vpn,
    pub len: u32,
}

// The gap from a page up to another, where there is one.
fn gap_between(from: Vpn, to: Vpn) -> Option<Gap>
    ensures { listed result ≡ between from to }
{
    if from < to {
        Some(Gap {
            base: from,
            len: to.number() - from.number(),
        })
    } else {
        None
    }
}

// The gap from a page up to the mapping at a place, where there are both.
fn gap_up_to(mappings: &[Mapping], at: usize, from: Vpn) -> Option<Gap>
    ensures { listed result ≡ up_to mappings.now at from }
{
    let next = mappings.get(at)?;
    gap_between(from, next.base)
}

// How many gaps begin below a page.
fn below(gaps: &[Gap], vpn: Vpn) -> usize
    requires { IsNonDecreasingBy (λ g. g.base) gaps.now }
    ensures { result ≡ prefix_len (is_below vpn) gaps.now }
{
    gaps.partition_point(|gap| gap.base < vpn)
}

// The least base at which a mapping of that length fits: that of the first gap which is long enough, else the end of
// the mappings.
pub fn room(gaps: &[Gap], mappings: &[Mapping], len: u32) -> Option<Vpn>
    requires spread { IsSpread VPNS 0 mappings.now }
    requires gaps { gaps.now ≡ gaps_of 0 mappings.now }
    ensures { IsRoom VPNS mappings.now len result }
{
    if len == 0 {
        return Some(Vpn::new(0));
    }
    for gap in gaps {
        if len <= gap.len {
            return Some(gap.base);
        }
    }
    let end = search::end_of(mappings, mappings.len());
    (len <= VPNS - end.number()).then_some(end)
}

// Puts at most two gaps in place of those that begin at a page from `from` to `end`.
fn swap(gaps: &mut Vec<Gap>, from: Vpn, end: Vpn, first: Option<Gap>, second: Option<Gap>)
    requires rises { IsNonDecreasingBy (λ g. g.base) gaps.old.items }
    requires in_order { from ≤ end }
    requires in_space { end ≤ VPNS }
    requires capacity { length (swapped gaps.old.items from end (listed first ++ listed second)) ≤ vec_capacity gaps.old }
    ensures items { gaps.new.items ≡ swapped gaps.old.items from end (listed first ++ listed second) }
    ensures capacity { vec_capacity gaps.new ≡ vec_capacity gaps.old }
{
    let at = below(gaps, from);
    let past = below(gaps, Vpn::new(end.number() + 1));
    gaps.drain(at..past);
    if let Some(gap) = second {
        gaps.insert(at, gap).unwrap();
    }
    if let Some(gap) = first {
        gaps.insert(at, gap).unwrap();
    }
}

// A mapping has come: of the gap that it fell into stays what is below it and what is above it.
pub fn fill(gaps: &mut Vec<Gap>, mappings: &[Mapping], at: usize)
    requires gaps { gaps.old.items ≡ gaps_of 0 (remove mappings.now at) }
    requires spread { IsSpread VPNS 0 mappings.now }
    requires in_range { at < length mappings.now }
    requires capacity { length mappings.now ≤ vec_capacity gaps.old }
    ensures gaps { gaps.new.items ≡ gaps_of 0 mappings.now }
    ensures capacity { vec_capacity gaps.new ≡ vec_capacity gaps.old }
{
    let from = search::end_of(mappings, at);
    let end = search::end_of(mappings, at + 1);
    let below = gap_between(from, mappings[at].base);
    let above = gap_up_to(mappings, at + 1, end);
    swap(gaps, from, end, below, above);
}

// A mapping is about to go: its pages and the gaps beside it become one gap, where another mapping is above them.
pub fn merge(gaps: &mut Vec<Gap>, mappings: &[Mapping], at: usize)
    requires gaps { gaps.old.items ≡ gaps_of 0 mappings.now }
    requires spread { IsSpread VPNS 0 mappings.now }
    requires in_range { at < length mappings.now }
    requires capacity { length mappings.now ≤ vec_capacity gaps.old }
    ensures gaps { gaps.new.items ≡ gaps_of 0 (remove mappings.now at) }
    ensures capacity { vec_capacity gaps.new ≡ vec_capacity gaps.old }
{
    let from = search::end_of(mappings, at);
    let end = search::end_of(mappings, at + 1);
    let merged = gap_up_to(mappings, at + 1, from);
    swap(gaps, from, end, merged, None);
}

// The same gaps, in memory of their own that is enough for that many.
pub fn copy(gaps: &[Gap], places: usize, alloc: Global) -> Result<Vec<Gap>, AllocError>
    ensures { IfOk result (λ copy. (copy.items ≡ gaps.now) × (places ≤ vec_capacity copy)) }
{
    let mut copy = Vec::with_capacity(alloc, places)?;
    copy.extend_from_slice(gaps)?;
    Ok(copy)
}
