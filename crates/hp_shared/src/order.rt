//! Whether a journal is an interleaving of lists.
ghost use Rattle.std.specs.Prelude.{◌≡◌, ◌+◌, ◌^◌, ◌<◌, ◌≤◌, ℕ, List, [], map, length, drop, IfOk, MatchResult, MatchOption};
ghost use Rattle.std.specs.Prelude.{MatchBool, slice_index_or, ◌≢◌};
ghost use Rattle.hp_shared.specs.Journal.{Interleaves, FirstFailsAt, BeginsWith, IsNextOf, AllUsed};
ghost use Rattle.hp_shared.specs.Unused.{unused};
ghost use Rattle.hp_shared.specs.declared.entry.Entry.{Entry};

use crate::entry::Entry;
use crate::same::same_entry;
use std::alloc::{AllocError, Global};

/// What has a list of entries: a list itself, and a seat.
pub trait Listed {
    ghost listed: { Self → List Entry };

    fn listed(&self) -> &[Entry]
        ensures { result.now ≡ listed self.now };
}

impl Listed for Vec<Entry> {
    ghost listed = { λ v. v.items };

    fn listed(&self) -> &[Entry] {
        self.as_slice()
    }
}

/// Whether the journal is an interleaving of the lists: each of its entries bears its place as position, counted from 0, and
/// is the next unused entry of exactly one list, and no list has an entry left. Else the first position at which that
/// fails, or the journal's length where only a list has more.
pub fn interleaved(
    alloc: Global,
    journal: &[Entry],
    lists: &[Vec<Entry>],
) -> Result<Result<(), u64>, AllocError>
    requires { length journal.now < 2 ^ 64 }
    ensures { IfOk result (λ compared. MatchResult compared
        (λ _. Interleaves 0 journal.now (map (λ v. v.items) lists.now))
        (FirstFailsAt 0 journal.now (map (λ v. v.items) lists.now))) }
{
    compare(alloc, 0, journal, lists)
}

/// As [`interleaved`], of a part of a journal, whose positions begin at `first`.
pub fn interleaved_from(
    alloc: Global,
    first: u64,
    journal: &[Entry],
    lists: &[Vec<Entry>],
) -> Result<Result<(), u64>, AllocError>
    requires { first + length journal.now < 2 ^ 64 }
    ensures { IfOk result (λ compared. MatchResult compared
        (λ _. Interleaves first journal.now (map (λ v. v.items) lists.now))
        (FirstFailsAt first journal.now (map (λ v. v.items) lists.now))) }
{
    compare(alloc, first, journal, lists)
}

/// As [`interleaved_from`], of anything that has a list.
pub fn compare<S: Listed>(
    alloc: Global,
    first: u64,
    journal: &[Entry],
    lists: &[S],
) -> Result<Result<(), u64>, AllocError>
    requires { first + length journal.now < 2 ^ 64 }
    ensures { IfOk result (λ compared. MatchResult compared
        (λ _. Interleaves first journal.now (map S.listed lists.now))
        (FirstFailsAt first journal.now (map S.listed lists.now))) }
{
    let mut used = vec![in alloc; 0usize; lists.len()]?;
    for k in 0..journal.len() {
        let entry = &journal[k];
        let position = first + k as u64;
        if entry.position != position {
            return Ok(Err(position));
        }
        let Some(i) = next_of(lists, used.as_slice(), entry) else {
            return Ok(Err(position));
        };
        used[i] += 1;
    }
    if all_used(lists, used.as_slice()) {
        Ok(Ok(()))
    } else {
        Ok(Err(first + journal.len() as u64))
    }
}

// The one list whose next unused entry is this one.
fn next_of<S: Listed>(lists: &[S], used: &[usize], entry: &Entry) -> Option<usize>
    requires { length used.now ≡ length lists.now }
    ensures { MatchOption result
        ((i : ℕ) → ¬ (IsNextOf entry.now (unused (map S.listed lists.now) used.now) i))
        (IsNextOf entry.now (unused (map S.listed lists.now) used.now)) }
{
    let mut found = None;
    for i in 0..lists.len() {
        if is_next_at(lists, used, i, entry) {
            if found.is_some() {
                return None;
            }
            found = Some(i);
        }
    }
    found
}

fn is_next_at<S: Listed>(lists: &[S], used: &[usize], i: usize, entry: &Entry) -> bool
    requires same { length used.now ≡ length lists.now }
    requires bound { i < length lists.now }
    ensures { MatchBool result
        (BeginsWith entry.now (slice_index_or (unused (map S.listed lists.now) used.now) i []))
        (¬ (BeginsWith entry.now (slice_index_or (unused (map S.listed lists.now) used.now) i []))) }
{
    begins_with(lists[i].listed(), used[i], entry)
}

fn begins_with(list: &[Entry], used: usize, entry: &Entry) -> bool
    ensures { MatchBool result (BeginsWith entry.now (drop used list.now)) (¬ (BeginsWith entry.now (drop used list.now))) }
{
    used < list.len() && same_entry(&list[used], entry)
}

fn all_used<S: Listed>(lists: &[S], used: &[usize]) -> bool
    requires { length used.now ≡ length lists.now }
    ensures { MatchBool result
        (AllUsed (unused (map S.listed lists.now) used.now))
        (¬ (AllUsed (unused (map S.listed lists.now) used.now))) }
{
    for i in 0..lists.len() {
        if !is_used_at(lists, used, i) {
            return false;
        }
    }
    true
}

fn is_used_at<S: Listed>(lists: &[S], used: &[usize], i: usize) -> bool
    requires same { length used.now ≡ length lists.now }
    requires bound { i < length lists.now }
    ensures { MatchBool result
        (slice_index_or (unused (map S.listed lists.now) used.now) i [] ≡ [])
        (slice_index_or (unused (map S.listed lists.now) used.now) i [] ≢ []) }
{
    used[i] >= lists[i].listed().len()
}

/// A journal is never both an interleaving and one that fails: the answer of `interleaved` is decided by its arguments.
pub fn one_verdict()
    ensures { (p : ℕ) (journal : List Entry) (lists : List (List Entry)) (n : ℕ)
        → Interleaves p journal lists → ¬ (FirstFailsAt p journal lists n) }
{}
