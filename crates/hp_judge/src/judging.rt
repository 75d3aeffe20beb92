//! All that is wrong with a picture.
ghost use Rattle.std.specs.Prelude.{◌≡◌, ◌≢◌, ◌↔◌, ◌<ℤ◌, pos, All, Contains, None, IfOk, IfSome, IsSomeAnd, IsTrue, OnOk, length};
ghost use Rattle.hp_judge.specs.Counts.{wanted_count, wanted_used};
ghost use Rattle.hp_judge.specs.Findings.{Adds, AddsCounts, AddsIf, AddsSome, IsAboveFree, IsAboveQuota, IsBoundFinding, IsCountFinding, IsFinding, IsLineFinding};
ghost use Rattle.hp_judge.specs.Lines.{AllKeep, HasExactly};
ghost use Rattle.hp_judge.specs.declared.finding.Clause.TheVariants as Clause;
ghost use Rattle.hp_judge.specs.declared.finding.Finding.{Finding};
ghost use Rattle.hp_judge.specs.declared.finding.Finding.TheVariants as Finding;

use crate::counts::{reserved, reserved_pages};
use crate::finding::{Clause, Finding};
use crate::frames::add_frames;
use crate::lines::{Page, add_lines, all_keep, pages_of};
use hp_picture::{Counts, Picture, Places};
use std::alloc::{AllocError, Global};
use std::collections::HashSet;

// Adds a finding for each line that doesn't keep what it has to.
fn add_all_lines(
    places: &Places,
    pages: &HashSet<Page>,
    findings: &mut Vec<Finding>,
) -> Result<(), AllocError>
    requires { HasExactly pages.now places.now.pages }
    ensures { OnOk result (Adds (IsLineFinding places.now) findings.old.items findings.new.items) }
{
    add_lines(places, pages, Clause::Region, findings)?;
    add_lines(places, pages, Clause::Page, findings)?;
    add_lines(places, pages, Clause::File, findings)?;
    add_lines(places, pages, Clause::Agree, findings)?;
    add_lines(places, pages, Clause::Size, findings)
}

// Adds the finding, where it is one.
fn add_if(is_wrong: bool, finding: Finding, findings: &mut Vec<Finding>) -> Result<(), AllocError>
    ensures { OnOk result (AddsIf is_wrong finding findings.old.items findings.new.items) }
{
    if is_wrong {
        findings.push(finding)?;
    }
    Ok(())
}

// What the reserve count has to be.
fn wanted_count(counts: Counts, places: &Places) -> i128
    requires { AllKeep places.now Clause.Region }
    ensures { result ≡ wanted_count counts places.now }
{
    let pages = reserved_pages(places) as i128;
    reserved(places) as i128 - pages + i128::from(counts.owed)
}

// Whether a count isn't the one that is wanted.
fn is_other(count: i64, wanted: i128) -> bool
    ensures { IsTrue result ↔ (count ≢ wanted) }
{
    i128::from(count) != wanted
}

// What the used count has to be.
fn wanted_used(counts: Counts, places: &Places) -> i128
    ensures { result ≡ wanted_used counts places.now }
{
    reserved(places) as i128 + i128::from(counts.used_owed)
}

// The finding where the reserve count isn't what it has to be.
fn wrong_count(counts: Counts, places: &Places) -> Option<Finding>
    requires { AllKeep places.now Clause.Region }
    ensures some { IfSome result (λ f. (f ≡ Finding.Count (wanted_count counts places.now)) × (counts.resv ≢ wanted_count counts places.now)) }
    ensures none { result ≡ None → counts.resv ≡ wanted_count counts places.now }
{
    let wanted = wanted_count(counts, places);
    if is_other(counts.resv, wanted) {
        Some(Finding::Count { wanted })
    } else {
        None
    }
}

// The finding where the used count isn't what it has to be.
fn wrong_used(counts: Counts, places: &Places) -> Option<Finding>
    ensures some { IfSome result (λ f. (f ≡ Finding.Used (wanted_used counts places.now)) × (counts.used ≢ wanted_used counts places.now)) }
    ensures none { result ≡ None → counts.used ≡ wanted_used counts places.now }
{
    let wanted = wanted_used(counts, places);
    if is_other(counts.used, wanted) {
        Some(Finding::Used { wanted })
    } else {
        None
    }
}

// Adds the finding, if there is one.
fn add_some(finding: Option<Finding>, findings: &mut Vec<Finding>) -> Result<(), AllocError>
    ensures { OnOk result (AddsSome finding findings.old.items findings.new.items) }
{
    if let Some(finding) = finding {
        findings.push(finding)?;
    }
    Ok(())
}

// Adds a finding for each count that isn't what it has to be.
fn add_counts(
    counts: Counts,
    places: &Places,
    findings: &mut Vec<Finding>,
) -> Result<(), AllocError>
    requires { AllKeep places.now Clause.Region }
    ensures { OnOk result (Adds (IsCountFinding counts places.now) findings.old.items findings.new.items) }
{
    add_some(wrong_count(counts, places), findings)?;
    add_some(wrong_used(counts, places), findings)
}

// The same, where all regions and pages are right.
fn add_counts_that_can_be(
    counts: Counts,
    places: &Places,
    pages: &HashSet<Page>,
    findings: &mut Vec<Finding>,
) -> Result<(), AllocError>
    requires { HasExactly pages.now places.now.pages }
    ensures { OnOk result (AddsCounts counts places.now findings.old.items findings.new.items) }
{
    if all_keep(places, pages, Clause::Region) && all_keep(places, pages, Clause::Page) {
        add_counts(counts, places, findings)?;
    }
    Ok(())
}

// Whether the reserve count is below zero, or above the free frames.
fn is_above_free(counts: Counts, places: &Places) -> bool
    ensures { IsTrue result ↔ IsAboveFree counts places.now }
{
    counts.resv < 0 || i128::from(counts.resv) > places.free.len() as i128
}

// Whether the used count is above the quota, if there is one.
fn is_above(used: i64, quota: Option<u32>) -> bool
    ensures { IsTrue result ↔ IsSomeAnd quota (λ most. pos most <ℤ used) }
{
    match quota {
        Some(most) => used > i64::from(most),
        None => false,
    }
}

// Whether the used count is below zero, or above the quota.
fn is_above_quota(counts: Counts) -> bool
    ensures { IsTrue result ↔ IsAboveQuota counts }
{
    counts.used < 0 || is_above(counts.used, counts.quota)
}

// Adds a finding for each count that is below zero, or above what it may be.
fn add_bounds(
    counts: Counts,
    places: &Places,
    findings: &mut Vec<Finding>,
) -> Result<(), AllocError>
    ensures { OnOk result (Adds (IsBoundFinding counts places.now) findings.old.items findings.new.items) }
{
    add_if(is_above_free(counts, places), Finding::Free, findings)?;
    add_if(is_above_quota(counts), Finding::Quota, findings)
}

/// What is wrong with a picture: all of it, lines first, then frames, then counts. It takes time for as much as is there, times the
/// logarithm of the number of regions for each page, and memory for the pages and frames.
pub fn judge(alloc: Global, picture: &Picture) -> Result<Vec<Finding>, AllocError>
    ensures each { IfOk result (λ found. All (IsFinding picture.now.counts picture.now.places) found.items) }
    ensures every { IfOk result (λ found. (f : Finding) → IsFinding picture.now.counts picture.now.places f → Contains found.items f) }
{
    let places = &picture.places;
    let pages = pages_of(alloc, places)?;
    let mut findings = Vec::new(alloc);
    add_all_lines(places, &pages, &mut findings)?;
    add_frames(alloc, places, &mut findings)?;
    add_counts_that_can_be(picture.counts, places, &pages, &mut findings)?;
    add_bounds(picture.counts, places, &mut findings)?;
    Ok(findings)
}
