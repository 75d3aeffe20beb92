//! Counts what is reserved in a picture.
ghost use Rattle.std.specs.Prelude.{◌≡◌, ◌<◌, ◌≤◌, ◌^◌, false, length, true};
ghost use Rattle.std.specs.List.Sorted.{IsPartitionPoint};
ghost use Rattle.hp_judge.specs.Counts.{begins_by, has_index, is_reserved, reserved_in, reserved_pages_in};
ghost use Rattle.hp_judge.specs.Lines.{AllKeep, region_at};
ghost use Rattle.hp_judge.specs.declared.finding.Clause.TheVariants as Clause;

use hp_picture::Places;

/// A region: its file, where it begins, and one more than its last index.
type Region = (u32, u32, u32);

// Whether the region has the index of the file.
fn has_index(region: Region, file: u32, index: u32) -> bool
    ensures { result ≡ has_index file index region }
{
    region.0 == file && region.1 <= index && index < region.2
}

// Whether the region begins at or before the index of the file.
fn begins_by(region: Region, file: u32, index: u32) -> bool
    ensures { result ≡ begins_by file index region }
{
    region.0 < file || region.0 == file && region.1 <= index
}

// How many regions begin at or before the index of the file: these are the first ones.
fn begun(places: &Places, file: u32, index: u32) -> usize
    requires { AllKeep places.now Clause.Region }
    ensures few { result ≤ length places.now.regions }
    ensures point { IsPartitionPoint (λ r. begins_by file index r ≡ true) (λ r. begins_by file index r ≡ false) places.now.regions result }
{
    places
        .regions
        .partition_point(|region| begins_by(*region, file, index))
}

// The region of this number.
fn region(places: &Places, number: usize) -> Region
    requires { number < length places.now.regions }
    ensures { result ≡ region_at places.now number }
{
    places.regions[number]
}

// Whether some region has the index of the file: if one has it, the last does that begins at or before it.
fn is_reserved(places: &Places, file: u32, index: u32) -> bool
    requires { AllKeep places.now Clause.Region }
    ensures { result ≡ is_reserved places.now.regions file index }
{
    match begun(places, file, index).checked_sub(1) {
        Some(last) => has_index(region(places, last), file, index),
        None => false,
    }
}

/// How many indices are reserved.
pub(crate) fn reserved(places: &Places) -> u128
    ensures counted { result ≡ reserved_in places.now }
    ensures in_range { result < 2 ^ 100 }
{
    let mut reserved = 0;
    for region in &places.regions {
        reserved += u128::from(region.2.saturating_sub(region.1));
    }
    reserved
}

/// How many pages have an index that is reserved.
pub(crate) fn reserved_pages(places: &Places) -> u128
    requires { AllKeep places.now Clause.Region }
    ensures counted { result ≡ reserved_pages_in places.now }
    ensures in_range { result < 2 ^ 100 }
{
    let mut pages = 0;
    for page in &places.pages {
        pages += u128::from(is_reserved(places, page.0, page.1));
    }
    pages
}
