//! Questions to the lists of a file.
ghost use Rattle.std.specs.Prelude.{◌≡◌, ◌≢◌, ◌<◌, ◌≤◌, ◌↔◌, IsTrue, All, AllPairs, Contains};
ghost use Rattle.hp_audit.specs.Findings.{has_page, is_reserved, is_vacant, pages_in, times_in, reserved_of, vacant_of, IsFileShaped};

use crate::picture::FilePicture;
use hp_base::{Frame, Index, LIMIT};

// Whether some range has an index.
fn is_reserved(regions: &[(Index, Index)], index: Index) -> bool
    ensures { result ≡ is_reserved regions.now index }
{
    regions
        .iter()
        .any(|region| region.0 <= index && index < region.1)
}

// Whether some page has an index.
fn has_page(pages: &[(Index, Frame)], index: Index) -> bool
    ensures { result ≡ has_page pages.now index }
{
    pages.iter().any(|page| page.0 == index)
}

// Whether an index is reserved and has no page.
fn is_vacant(file: &FilePicture, index: Index) -> bool
    ensures { result ≡ is_vacant file.now index }
{
    is_reserved(&file.regions, index) && !has_page(&file.pages, index)
}

// How many indices are reserved and have no page.
pub fn vacant(file: &FilePicture) -> u32
    ensures counted { result ≡ vacant_of file.now }
    ensures in_limit { result ≤ LIMIT }
{
    let mut vacant = 0;
    for number in 0..LIMIT {
        if is_vacant(file, Index::new(number)) {
            vacant += 1;
        }
    }
    vacant
}

// How many indices are reserved: each once, though several ranges may have it.
pub fn reserved(file: &FilePicture) -> u32
    ensures counted { result ≡ reserved_of file.now }
    ensures in_limit { result ≤ LIMIT }
{
    let mut reserved = 0;
    for number in 0..LIMIT {
        if is_reserved(&file.regions, Index::new(number)) {
            reserved += 1;
        }
    }
    reserved
}

// Whether no index has two pages.
fn is_once(pages: &[(Index, Frame)]) -> bool
    ensures { IsTrue result ↔ AllPairs (λ page other. page.0 ≢ other.0) pages.now }
{
    for (at, page) in pages.iter().enumerate() {
        if has_page(&pages[..at], page.0) {
            return false;
        }
    }
    true
}

// Whether each range begins at or below its end, and ends at or below the limit.
fn are_ranges(regions: &[(Index, Index)]) -> bool
    ensures { IsTrue result
        ↔ All (λ region. (region.0 ≤ region.1) × (region.1 ≤ LIMIT)) regions.now }
{
    regions.iter().all(|region| region.0 <= region.1 && region.1.number() <= LIMIT)
}

// Whether each page has an index below the limit.
fn are_in_limit(pages: &[(Index, Frame)]) -> bool
    ensures { IsTrue result ↔ All (λ page. page.0 < LIMIT) pages.now }
{
    pages.iter().all(|page| page.0.number() < LIMIT)
}

// Whether the ranges and pages of a file lie below the limit, and no index has two pages.
pub fn is_shaped(file: &FilePicture) -> bool
    ensures { IsTrue result ↔ IsFileShaped file.now }
{
    are_ranges(&file.regions) && are_in_limit(&file.pages) && is_once(&file.pages)
}

// Whether a file has a page at an index, in a frame.
pub fn has_page_in(file: &FilePicture, index: Index, frame: Frame) -> bool
    ensures { IsTrue result ↔ Contains file.now.pages.items (index, frame) }
{
    file.pages.contains(&(index, frame))
}

// How often a frame is in a list.
pub fn times_in(frames: &[Frame], frame: Frame) -> usize
    ensures { result ≡ times_in frames.now frame }
{
    frames.iter().filter(|&&other| other == frame).count()
}

// How many pages are in a frame.
pub fn pages_in(pages: &[(Index, Frame)], frame: Frame) -> usize
    ensures { result ≡ pages_in pages.now frame }
{
    pages.iter().filter(|page| page.1 == frame).count()
}
