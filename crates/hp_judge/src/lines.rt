//! Looks at each line of a picture by itself.
ghost use Rattle.std.specs.Prelude.{◌≡◌, ◌↔◌, ◌<◌, Contains, IfOk, IsTrue, OnOk, length};
ghost use Rattle.hp_judge.specs.Findings.{Adds, AddsOne, IsUnkept};
ghost use Rattle.hp_judge.specs.Lines.{Agrees, AllKeep, HasExactly, HasFile, IsBelow, IsPage, IsPageBehind, IsRegion, IsRegionBehind, Keeps, lines_of, translation_at};

use crate::finding::{Clause, Finding};
use hp_picture::Places;
use std::alloc::{AllocError, Global};
use std::collections::HashSet;

/// The indices of a file lie below this.
const MOST_INDICES: u32 = 1 << 31;

/// A page: its file, its index and its frame.
pub(crate) type Page = (u32, u32, u32);

// Whether the other of two regions lies behind the first.
fn is_region_behind(region: (u32, u32, u32), other: (u32, u32, u32)) -> bool
    ensures { IsTrue result ↔ IsRegionBehind region other }
{
    region.0 < other.0 || region.0 == other.0 && region.2 < other.1
}

// Whether the other of two pages lies behind the first.
fn is_page_behind(page: Page, other: Page) -> bool
    ensures { IsTrue result ↔ IsPageBehind page other }
{
    page.0 < other.0 || page.0 == other.0 && page.1 < other.1
}

// Whether the region of this number is right.
fn is_region(places: &Places, number: usize) -> bool
    requires { number < length places.now.regions }
    ensures { IsTrue result ↔ IsRegion places.now number }
{
    let region = places.regions[number];
    let is_behind = number == 0 || is_region_behind(places.regions[number - 1], region);
    let is_some = region.1 < region.2 && region.2 <= MOST_INDICES;
    (region.0 as usize) < places.files.len() && is_some && is_behind
}

// Whether the page of this number is right.
fn is_page(places: &Places, number: usize) -> bool
    requires { number < length places.now.pages }
    ensures { IsTrue result ↔ IsPage places.now number }
{
    let page = places.pages[number];
    let is_behind = number == 0 || is_page_behind(places.pages[number - 1], page);
    (page.0 as usize) < places.files.len() && page.1 < MOST_INDICES && is_behind
}

// Whether the file of the translation of this number is there.
fn has_file(places: &Places, number: usize) -> bool
    requires { number < length places.now.tables }
    ensures { IsTrue result ↔ HasFile places.now number }
{
    (places.tables[number].1 as usize) < places.files.len()
}

// Whether the translation of this number lies below the size of its file, where that is there and isn't locked.
fn is_below(places: &Places, number: usize) -> bool
    requires { number < length places.now.tables }
    ensures { IsTrue result ↔ IsBelow places.now number }
{
    let translation = places.tables[number];
    match places.files.get(translation.1 as usize) {
        Some(file) => file.1 || translation.2 < file.0,
        None => true,
    }
}

/// The pages of a picture, as a set.
pub(crate) fn pages_of(alloc: Global, places: &Places) -> Result<HashSet<Page>, AllocError>
    ensures { IfOk result (λ pages. HasExactly pages places.now.pages) }
{
    let mut pages = HashSet::new(alloc);
    for page in &places.pages {
        pages.insert(*page)?;
    }
    Ok(pages)
}

// Whether the picture has the page. These are its pages.
fn has_page(places: &Places, pages: &HashSet<Page>, page: Page) -> bool
    requires { HasExactly pages.now places.now.pages }
    ensures { IsTrue result ↔ Contains places.now.pages page }
{
    let _ = places;
    pages.contains(&page)
}

// The translation of this number.
fn translation(places: &Places, number: usize) -> (u32, u32, u32, u32)
    requires { number < length places.now.tables }
    ensures { result ≡ translation_at places.now number }
{
    places.tables[number]
}

// Whether the translation of this number names its file's page.
fn agrees(places: &Places, pages: &HashSet<Page>, number: usize) -> bool
    requires there { number < length places.now.tables }
    requires pages { HasExactly pages.now places.now.pages }
    ensures { IsTrue result ↔ Agrees places.now number }
{
    let (_, file, index, frame) = translation(places, number);
    has_page(places, pages, (file, index, frame))
}

// Whether the line of this number keeps the clause.
fn keeps(places: &Places, pages: &HashSet<Page>, clause: Clause, number: usize) -> bool
    requires there { number < lines_of places.now clause }
    requires pages { HasExactly pages.now places.now.pages }
    ensures { IsTrue result ↔ Keeps places.now clause number }
{
    match clause {
        Clause::Region => is_region(places, number),
        Clause::Page => is_page(places, number),
        Clause::File => has_file(places, number),
        Clause::Agree => agrees(places, pages, number),
        Clause::Size => is_below(places, number),
    }
}

// How many lines have to keep the clause.
fn lines_of(places: &Places, clause: Clause) -> usize
    ensures { result ≡ lines_of places.now clause }
{
    match clause {
        Clause::Region => places.regions.len(),
        Clause::Page => places.pages.len(),
        Clause::File | Clause::Agree | Clause::Size => places.tables.len(),
    }
}

// Adds a finding for the line of this number, if it doesn't keep the clause.
fn add_line(
    places: &Places,
    pages: &HashSet<Page>,
    clause: Clause,
    number: usize,
    findings: &mut Vec<Finding>,
) -> Result<(), AllocError>
    requires there { number < lines_of places.now clause }
    requires pages { HasExactly pages.now places.now.pages }
    ensures { OnOk result (AddsOne places.now clause number findings.old.items findings.new.items) }
{
    if !keeps(places, pages, clause, number) {
        findings.push(Finding::Line { clause, number })?;
    }
    Ok(())
}

/// Adds a finding for each line that doesn't keep the clause.
pub(crate) fn add_lines(
    places: &Places,
    pages: &HashSet<Page>,
    clause: Clause,
    findings: &mut Vec<Finding>,
) -> Result<(), AllocError>
    requires { HasExactly pages.now places.now.pages }
    ensures { OnOk result (Adds (IsUnkept places.now clause) findings.old.items findings.new.items) }
{
    for number in 0..lines_of(places, clause) {
        add_line(places, pages, clause, number, findings)?;
    }
    Ok(())
}

/// Whether all lines keep the clause.
pub(crate) fn all_keep(places: &Places, pages: &HashSet<Page>, clause: Clause) -> bool
    requires { HasExactly pages.now places.now.pages }
    ensures { IsTrue result ↔ AllKeep places.now clause }
{
    for number in 0..lines_of(places, clause) {
        if !keeps(places, pages, clause, number) {
            return false;
        }
    }
    true
}
