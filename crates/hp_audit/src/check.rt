//! The audit of a picture.
ghost use Rattle.std.specs.Prelude.{◌≡◌, ◌<◌, ◌≤◌, ◌^◌, ◌↔◌, length, All, Contains, slice_get, IsTrue, IsSomeAnd, IsOk, IsErrOf};
ghost use Rattle.hp_audit.specs.Findings.{place_count, vacant_in, reserved_in};
ghost use Rattle.hp_audit.specs.Findings.{IsFileShaped, IsShaped, Agrees, IsOnePlace, IsBelow, IsCounted, IsUsedCounted, IsRight};
ghost use Rattle.hp_audit.specs.declared.finding.Finding.TheVariants as Finding;

use crate::file;
use crate::finding::Finding;
use crate::picture::{FilePicture, Picture};
use hp_base::{File, Frame, Index, LIMIT};

// Whether each file is as it has to be.
fn are_files_shaped(files: &[FilePicture]) -> bool
    ensures { IsTrue result ↔ All IsFileShaped files.now }
{
    files.iter().all(|file| file::is_shaped(file))
}

// Whether each translation is of an index below the limit, and of a file that is there.
fn are_tables_shaped(picture: &Picture) -> bool
    ensures { IsTrue result
        ↔ All (λ entry. (entry.1 < length picture.now.files.items) × (entry.2 < LIMIT))
        picture.now.tables.items }
{
    picture.tables.iter().all(|entry| {
        (entry.1.number() as usize) < picture.files.len() && entry.2.number() < LIMIT
    })
}

// Whether the files and the translations lie within their bounds.
fn is_shaped(picture: &Picture) -> bool
    ensures { IsTrue result ↔ IsShaped picture.now }
{
    are_files_shaped(&picture.files) && are_tables_shaped(picture)
}

// Whether a file has a page at an index, in a frame.
fn is_page(files: &[FilePicture], file: File, index: Index, frame: Frame) -> bool
    ensures { IsTrue result
        ↔ IsSomeAnd (slice_get files.now file) (λ f. Contains f.pages.items (index, frame)) }
{
    match files.get(file.number() as usize) {
        Some(file) => file::has_page_in(file, index, frame),
        None => false,
    }
}

// Whether each translation is to its file's page at its index.
fn agrees(picture: &Picture) -> bool
    ensures { IsTrue result ↔ Agrees picture.now }
{
    picture
        .tables
        .iter()
        .all(|entry| is_page(&picture.files, entry.1, entry.2, entry.3))
}

// How many places have a frame.
fn places(picture: &Picture, frame: Frame) -> u128
    ensures { result ≡ place_count picture.now frame }
{
    let mut places = file::times_in(&picture.free, frame) as u128;
    places += file::times_in(&picture.retired, frame) as u128;
    places += file::times_in(&picture.hands, frame) as u128;
    for file in &picture.files {
        places += file::pages_in(&file.pages, frame) as u128;
    }
    places
}

// Whether each of the frames is at one place at most.
fn are_alone(picture: &Picture, frames: &[Frame]) -> bool
    ensures { IsTrue result ↔ All (λ x. place_count picture.now x ≤ 1) frames.now }
{
    frames.iter().all(|frame| places(picture, *frame) <= 1)
}

// Whether each frame of the pages is at one place at most.
fn are_pages_alone(picture: &Picture, pages: &[(Index, Frame)]) -> bool
    ensures { IsTrue result ↔ All (λ page. place_count picture.now page.1 ≤ 1) pages.now }
{
    pages.iter().all(|page| places(picture, page.1) <= 1)
}

// Whether each frame of the files is at one place at most.
fn are_files_alone(picture: &Picture) -> bool
    ensures { IsTrue result
        ↔ All (λ file. All (λ page. place_count picture.now page.1 ≤ 1) file.pages.items)
        picture.now.files.items }
{
    picture
        .files
        .iter()
        .all(|file| are_pages_alone(picture, &file.pages))
}

// Whether no frame is at two places.
fn is_one_place(picture: &Picture) -> bool
    ensures { IsTrue result ↔ IsOnePlace picture.now }
{
    are_alone(picture, &picture.free)
        && are_alone(picture, &picture.retired)
        && are_alone(picture, &picture.hands)
        && are_files_alone(picture)
}

// Whether each translation of a file that isn't locked lies below the file's size.
fn is_below(picture: &Picture) -> bool
    ensures { IsTrue result ↔ IsBelow picture.now }
{
    picture.tables.iter().all(|entry| match picture.files.get(entry.1.number() as usize) {
        Some(file) => file.locked || entry.2.number() < file.size,
        None => true,
    })
}

// How many indices of all files are reserved and have no page.
fn vacant(picture: &Picture) -> u128
    ensures counted { result ≡ vacant_in picture.now }
    ensures in_range { result < 2 ^ 76 }
{
    let mut vacant = 0;
    for file in &picture.files {
        vacant += u128::from(file::vacant(file));
    }
    vacant
}

// Whether the reserve count is what it has to be, and has its free frames.
fn is_counted(picture: &Picture) -> bool
    ensures { IsTrue result ↔ IsCounted picture.now }
{
    i128::from(picture.resv) == vacant(picture) as i128 + i128::from(picture.owed)
        && picture.resv as usize <= picture.free.len()
}

// How many indices of all files are reserved.
fn reserved(picture: &Picture) -> u128
    ensures counted { result ≡ reserved_in picture.now }
    ensures in_range { result < 2 ^ 76 }
{
    let mut reserved = 0;
    for file in &picture.files {
        reserved += u128::from(file::reserved(file));
    }
    reserved
}

// Whether the used count is what it has to be, and within the quota.
fn is_used_counted(picture: &Picture) -> bool
    ensures { IsTrue result ↔ IsUsedCounted picture.now }
{
    i128::from(picture.used) == reserved(picture) as i128 + i128::from(picture.used_owed)
        && picture.quota.is_none_or(|quota| picture.used <= quota)
}

/// Whether nothing is wrong with a picture, and else the first thing that is, in the order of
/// `Finding`. It takes no memory, and so looks by plain scans: of n frames it looks at n * n, of a
/// file with p pages and r ranges at p * p pages, at p for each translation and at p + 2 * r for each
/// index below `LIMIT`.
pub fn audit(picture: &Picture) -> Result<(), Finding>
    ensures ok { IsOk result ↔ IsRight picture.now }

    // A finding comes where what is named for it fails, and what is named for those before it holds.
    ensures shape { IsErrOf result Finding.Shape ↔ ¬ IsShaped picture.now }
    ensures agree { IsErrOf result Finding.Agree ↔ (IsShaped picture.now × ¬ Agrees picture.now) }
    ensures place { IsErrOf result Finding.Place ↔ (IsShaped picture.now × Agrees picture.now
        × ¬ IsOnePlace picture.now) }
    ensures size { IsErrOf result Finding.Size ↔ (IsShaped picture.now × Agrees picture.now
        × IsOnePlace picture.now × ¬ IsBelow picture.now) }
    ensures count { IsErrOf result Finding.Count ↔ (IsShaped picture.now × Agrees picture.now
        × IsOnePlace picture.now × IsBelow picture.now × ¬ IsCounted picture.now) }
    ensures used { IsErrOf result Finding.Used ↔ (IsShaped picture.now × Agrees picture.now
        × IsOnePlace picture.now × IsBelow picture.now × IsCounted picture.now
        × ¬ IsUsedCounted picture.now) }
{
    if !is_shaped(picture) {
        return Err(Finding::Shape);
    }
    if !agrees(picture) {
        return Err(Finding::Agree);
    }
    if !is_one_place(picture) {
        return Err(Finding::Place);
    }
    if !is_below(picture) {
        return Err(Finding::Size);
    }
    if !is_counted(picture) {
        return Err(Finding::Count);
    }
    if !is_used_counted(picture) {
        return Err(Finding::Used);
    }
    Ok(())
}
