//! A core's picture, whose files have lists of their own, as one of lines.
ghost use Rattle.std.specs.Prelude.{◌≡◌, ◌≤◌, ◌++◌, IfOk, IfSome, OnOk, length, map, pos};
ghost use Rattle.hp_audit.specs.Findings.{IsRight};
ghost use Rattle.hp_picture.specs.Text.{AreShortCounts};
ghost use Rattle.hp_text.specs.Fits.{IsShort};
ghost use Rattle.hp_agree.specs.Flat.{counts_of, numbered, places_of};

use hp_audit::{FilePicture, Picture};
use hp_base::{File, Frame, Index, Task};
use hp_picture::{Counts, Places};
use std::alloc::{AllocError, Global};

// Counts of these numbers, each of which but what is owed has 32 bits.
fn counts(resv: u32, owed: i64, used: u32, used_owed: i64, quota: Option<u32>) -> Counts
    ensures is { result ≡ record { resv = pos resv; owed = owed; used = pos used; used_owed = used_owed; quota = quota } }
    ensures resv { IsShort resv }
    ensures used { IsShort used }
    ensures quota { IfSome quota IsShort }
{
    Counts {
        resv: i64::from(resv),
        owed,
        used: i64::from(used),
        used_owed,
        quota,
    }
}

/// The counts. Where nothing is wrong with the picture, they have 32 bits.
pub(crate) fn counts_of(picture: &Picture) -> Counts
    ensures is { result ≡ counts_of picture.now }
    ensures short { IsRight picture.now → length picture.now.files.items ≤ 16 → AreShortCounts result }
{
    counts(
        picture.resv,
        picture.owed,
        picture.used,
        picture.used_owed,
        picture.quota,
    )
}

// The numbers of frames.
fn numbers(alloc: Global, frames: &[Frame]) -> Result<Vec<u32>, AllocError>
    ensures { IfOk result (λ numbers. numbers.items ≡ frames.now) }
{
    let mut numbers = Vec::new(alloc);
    for frame in frames {
        numbers.push(frame.number())?;
    }
    Ok(numbers)
}

// The sizes of files, and whether they are locked.
fn files(alloc: Global, files: &[FilePicture]) -> Result<Vec<(u32, bool)>, AllocError>
    ensures { IfOk result (λ sizes. sizes.items ≡ map (λ file. (file.size, file.locked)) files.now) }
{
    let mut sizes = Vec::new(alloc);
    for file in files {
        sizes.push((file.size, file.locked))?;
    }
    Ok(sizes)
}

// Adds a file's regions.
fn add_regions(
    number: u32,
    file: &FilePicture,
    regions: &mut Vec<(u32, u32, u32)>,
) -> Result<(), AllocError>
    ensures { OnOk result (regions.new.items ≡ regions.old.items ++ map (λ r. (number, r.0, r.1)) file.now.regions.items) }
{
    for (from, to) in &file.regions {
        regions.push((number, from.number(), to.number()))?;
    }
    Ok(())
}

// Adds a file's pages.
fn add_pages(
    number: u32,
    file: &FilePicture,
    pages: &mut Vec<(u32, u32, u32)>,
) -> Result<(), AllocError>
    ensures { OnOk result (pages.new.items ≡ pages.old.items ++ map (λ page. (number, page.0, page.1)) file.now.pages.items) }
{
    for (index, frame) in &file.pages {
        pages.push((number, index.number(), frame.number()))?;
    }
    Ok(())
}

// The regions of all files.
fn regions(alloc: Global, files: &[FilePicture]) -> Result<Vec<(u32, u32, u32)>, AllocError>
    requires { length files.now ≤ 16 }
    ensures { IfOk result (λ regions. regions.items ≡ numbered (λ file. file.regions.items) 0 files.now) }
{
    let mut regions = Vec::new(alloc);
    for (number, file) in files.iter().enumerate() {
        add_regions(number as u32, file, &mut regions)?;
    }
    Ok(regions)
}

// The pages of all files.
fn pages(alloc: Global, files: &[FilePicture]) -> Result<Vec<(u32, u32, u32)>, AllocError>
    requires { length files.now ≤ 16 }
    ensures { IfOk result (λ pages. pages.items ≡ numbered (λ file. file.pages.items) 0 files.now) }
{
    let mut pages = Vec::new(alloc);
    for (number, file) in files.iter().enumerate() {
        add_pages(number as u32, file, &mut pages)?;
    }
    Ok(pages)
}

// The translations.
fn translations(
    alloc: Global,
    tables: &[(Task, File, Index, Frame)],
) -> Result<Vec<(u32, u32, u32, u32)>, AllocError>
    ensures { IfOk result (λ entries. entries.items ≡ tables.now) }
{
    let mut entries = Vec::new(alloc);
    for (task, file, index, frame) in tables {
        entries.push((task.number(), file.number(), index.number(), frame.number()))?;
    }
    Ok(entries)
}

/// Where the frames are, and what the files have reserved.
pub(crate) fn places_of(alloc: Global, picture: &Picture) -> Result<Places, AllocError>
    requires { length picture.now.files.items ≤ 16 }
    ensures { IfOk result (λ places. places ≡ places_of picture.now) }
{
    Ok(Places {
        free: numbers(alloc, &picture.free)?,
        retired: numbers(alloc, &picture.retired)?,
        hands: numbers(alloc, &picture.hands)?,
        files: files(alloc, &picture.files)?,
        regions: regions(alloc, &picture.files)?,
        pages: pages(alloc, &picture.files)?,
        tables: translations(alloc, &picture.tables)?,
    })
}
