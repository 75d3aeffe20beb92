//! Walks over a sorted list of regions.
ghost use Rattle.std.specs.Prelude.{◌≡◌, ℕ, ◌^◌, ◌+◌, ◌++◌, ◌∷◌, take, drop, ◌-◌, ◌<◌, ◌≤◌, ◌↔◌, true, false, min, max, not};
ghost use Rattle.std.specs.Prelude.{nat_le, length, count_by, IsTrue, IsSome, IfSome, slice_index_or, vec_len, vec_capacity};
ghost use Rattle.std.specs.Prelude.{if◌then◌else◌};
ghost use Rattle.hp_base.specs.Indices.{is_within, count_within, missing, add_range, cut_tail, touches, splits};
ghost use Rattle.hp_base.specs.Numbers.{put};
ghost use Rattle.hp_region.specs.Regions.{is_member, IsApartFrom};
ghost use Rattle.hp_region.specs.declared.region.Region.{Region};

use crate::region::Region;
use hp_base::{Index, LIMIT};

// How many regions end at or below an index, which is the place of the first that ends above it, and
// how many regions were looked at.
pub fn seek(regions: &[Region], index: Index) -> (usize, u32)
    requires apart { IsApartFrom 0 regions.now }
    ensures ended { result.0 ≡ count_by (λ r. nat_le r.to index) regions.now }
    ensures in_range { result.0 ≤ length regions.now }
    ensures above { (d : Region) → result.0 < length regions.now → index < (slice_index_or regions.now result.0 d).to }

    // The number of looks that is told: at most the binary digits of the number of regions.
    ensures looked { (digits : ℕ) → length regions.now < 2 ^ digits → result.1 ≤ digits }
{
    let mut low = 0;
    let mut high = regions.len();
    let mut looked = 0;
    while low < high {
        let middle = low + (high - low) / 2;
        looked += 1;
        if regions[middle].to <= index {
            low = middle + 1;
        } else {
            high = middle;
        }
    }
    (low, looked)
}

// How many indices of a region lie in [from, to).
fn overlap(region: Region, from: Index, to: Index) -> u32
    ensures { result ≡ min to region.to - max region.from from }
{
    let first = region.from.max(from).number();
    let end = region.to.min(to).number();
    end.saturating_sub(first)
}

// How many indices of [from, to) the regions hold.
pub fn held(regions: &[Region], from: Index, to: Index) -> u32
    requires apart { IsApartFrom 0 regions.now }
    requires in_limit { to ≤ LIMIT }
    ensures counted { result ≡ count_within (is_member regions.now) from to }
{
    let (mut at, _) = seek(regions, from);
    let mut held = 0;
    while at < regions.len() && regions[at].from < to {
        held += overlap(regions[at], from, to);
        at += 1;
    }
    held
}

// How many indices of [from, to) the regions lack.
pub fn missing(regions: &[Region], from: Index, to: Index) -> u32
    requires apart { IsApartFrom 0 regions.now }
    requires in_order { from ≤ to }
    requires in_limit { to ≤ LIMIT }
    ensures { result ≡ missing (is_member regions.now) from to }
{
    to.number() - from.number() - held(regions, from, to)
}

// Adds [from, to) to the regions, merged with those that it overlaps or touches. Answers whether
// there was none of these.
pub fn add(regions: &mut Vec<Region>, from: Index, to: Index) -> bool
    requires apart { IsApartFrom 0 regions.old.items }
    requires in_order { from < to }
    requires in_limit { to ≤ LIMIT }
    requires capacity { vec_len regions.old < vec_capacity regions.old }
    ensures apart { IsApartFrom 0 regions.new.items }
    ensures members { is_member regions.new.items ≡ add_range (is_member regions.old.items) from to }
    ensures alone { result ≡ not (touches (is_member regions.old.items) from to) }

    // There is one region more at most, and only where none was merged. The block stays.
    ensures len { vec_len regions.new ≤ (if result then vec_len regions.old + 1 else vec_len regions.old) }
    ensures capacity { vec_capacity regions.new ≡ vec_capacity regions.old }
{
    let before = Index::new(from.number().saturating_sub(1));
    let (at, _) = seek(regions, before);
    let mut merged = Region { from, to };
    let mut end = at;
    while end < regions.len() && regions[end].from <= merged.to {
        merged.from = merged.from.min(regions[end].from);
        merged.to = merged.to.max(regions[end].to);
        end += 1;
    }
    replace(regions, at, end, merged);
    end == at
}

// Puts a region in place of those from `at` up to `end`.
fn replace(regions: &mut Vec<Region>, at: usize, end: usize, region: Region)
    requires in_order { at ≤ end }
    requires in_range { end ≤ vec_len regions.old }
    requires capacity { at ≡ end → vec_len regions.old < vec_capacity regions.old }
    ensures items { regions.new.items ≡ take at regions.old.items ++ region ∷ drop end regions.old.items }
    ensures len { vec_len regions.new ≡ vec_len regions.old + 1 - (end - at) }
    ensures capacity { vec_capacity regions.new ≡ vec_capacity regions.old }
{
    if at == end {
        regions.insert(at, region).unwrap();
    } else {
        regions[at] = region;
        regions.drain(at + 1..end);
    }
}

// The place of the region that holds an index.
pub fn find(regions: &[Region], index: Index) -> Option<usize>
    requires apart { IsApartFrom 0 regions.now }
    ensures found { IsSome result ↔ IsTrue (is_member regions.now index) }
    ensures in_range { IfSome result (λ at. at < length regions.now) }
    ensures holds { IfSome result
        (λ at. (d : Region) → is_within (slice_index_or regions.now at d).from (slice_index_or regions.now at d).to index ≡ true) }
{
    let (at, _) = seek(regions, index);
    if at < regions.len() && regions[at].from <= index {
        Some(at)
    } else {
        None
    }
}

// Whether the region at `at`, which holds the index, falls apart without it.
pub fn is_split(regions: &[Region], at: usize, index: Index) -> bool
    requires apart { IsApartFrom 0 regions.now }
    requires in_range { at < length regions.now }
    requires holds { (d : Region) → is_within (slice_index_or regions.now at d).from (slice_index_or regions.now at d).to index ≡ true }
    ensures { result ≡ splits (is_member regions.now) index }
{
    let region = regions[at];
    region.from < index && region.to.number() - index.number() > 1
}

// Takes an index out of the region at `at`, which holds it.
pub fn carve(regions: &mut Vec<Region>, at: usize, index: Index)
    requires apart { IsApartFrom 0 regions.old.items }
    requires in_range { at < vec_len regions.old }
    requires holds { (d : Region)
        → is_within (slice_index_or regions.old.items at d).from (slice_index_or regions.old.items at d).to index ≡ true }
    requires capacity { IsTrue (splits (is_member regions.old.items) index) → vec_len regions.old < vec_capacity regions.old }
    ensures apart { IsApartFrom 0 regions.new.items }
    ensures members { is_member regions.new.items ≡ put (is_member regions.old.items) index false }
    ensures len { vec_len regions.new
        ≤ (if splits (is_member regions.old.items) index then vec_len regions.old + 1 else vec_len regions.old) }
    ensures capacity { vec_capacity regions.new ≡ vec_capacity regions.old }
{
    let Region { from, to } = regions[at];
    let next = Index::new(index.number() + 1);
    match (from < index, next < to) {
        (false, false) => {
            regions.remove(at);
        }
        (false, true) => regions[at] = Region { from: next, to },
        (true, false) => regions[at] = Region { from, to: index },
        (true, true) => {
            regions[at] = Region { from, to: index };
            regions.insert(at + 1, Region { from: next, to }).unwrap();
        }
    }
}

// Takes out every index at or above `from`.
pub fn cut(regions: &mut Vec<Region>, from: Index)
    requires apart { IsApartFrom 0 regions.old.items }
    ensures apart { IsApartFrom 0 regions.new.items }
    ensures members { is_member regions.new.items ≡ cut_tail (is_member regions.old.items) from }
    ensures len { vec_len regions.new ≤ vec_len regions.old }
    ensures capacity { vec_capacity regions.new ≡ vec_capacity regions.old }
{
    let (at, _) = seek(regions, from);
    if at < regions.len() && regions[at].from < from {
        regions[at].to = from;
        regions.truncate(at + 1);
    } else {
        regions.truncate(at);
    }
}
