//! A core as plain data.
ghost use Rattle.std.specs.Prelude.{◌≡◌, ℕ, ◌<◌, ◌≤◌, ◌++◌, ◌∷◌, [], ◌==◌, cond, IfOk, OnOk, All, HoldsAt, length, count_by};
ghost use Rattle.std.specs.Prelude.{is_some, slice_index_or, map};
ghost use Rattle.std.specs.FinMap.{entries};
ghost use Rattle.hp_base.specs.Numbers.{bit};
ghost use Rattle.hp_base.specs.declared.limits.TheConstants.{LIMIT};
ghost use Rattle.hp_frames.specs.Bank.{free_frames, frame_at, is_free, is_retired};
ghost use Rattle.hp_region.specs.Regions.{IsApartFrom};
ghost use Rattle.hp_slots.specs.Holders.{holder_of};
ghost use Rattle.hp_audit.specs.Findings.{IsRight};
ghost use Rattle.hp_audit.specs.declared.picture.FilePicture.{FilePicture};
ghost use Rattle.hp_parts.specs.View.{no_file};
ghost use Rattle.hp_core.specs.Copies.{IsCopy, translations, all_translations};
ghost use Rattle.hp_core.specs.Pictures.{IsPicture};

use crate::core_state::Core;
use crate::hands::hands;
use hp_audit::{FilePicture, Picture};
use hp_base::{File, Frame, Index, Task};
use hp_frames::Bank;
use hp_parts::FileState;
use hp_region::RegionMap;
use hp_slots::SlotTable;
use hp_table::Space;
use std::alloc::{AllocError, Global};

// Adds the frame where it is one of those.
fn add_if(frames: &mut Vec<Frame>, frame: Frame, is_one: bool) -> Result<(), AllocError>
    ensures { OnOk result (frames.new.items ≡ frames.old.items ++ cond is_one (frame ∷ []) []) }
{
    if is_one {
        frames.push(frame)?;
    }
    Ok(())
}

// The free frames and the retired ones, each in order of their numbers.
fn unused_frames(alloc: Global, bank: &Bank) -> Result<(Vec<Frame>, Vec<Frame>), AllocError>
    ensures free { IfOk result (λ lists. (x : ℕ)
        → count_by (λ frame. frame == x) lists.0.items ≡ bit (is_free (frame_at bank.now.frames x))) }
    ensures count { IfOk result (λ lists. length lists.0.items ≡ free_frames bank.now.frames) }
    ensures retired { IfOk result (λ lists. (x : ℕ)
        → count_by (λ frame. frame == x) lists.1.items ≡ bit (is_retired (frame_at bank.now.frames x))) }
{
    let (mut free, mut retired) = (Vec::new(alloc), Vec::new(alloc));
    for number in 0..bank.numbers() {
        let frame = Frame::new(number);
        add_if(&mut free, frame, bank.is_free(frame))?;
        add_if(&mut retired, frame, bank.is_retired(frame))?;
    }
    Ok((free, retired))
}

// The regions of a map, as pairs.
fn ranges(alloc: Global, reserved: &RegionMap) -> Result<Vec<(Index, Index)>, AllocError>
    ensures ranges { IfOk result (λ ranges.
        ranges.items ≡ map (λ r. (r.from, r.to)) reserved.now.regions) }
    ensures apart { IsApartFrom 0 reserved.now.regions }
{
    let mut ranges = Vec::new(alloc);
    for place in 0..reserved.regions() {
        ranges.push(reserved.region(place).unwrap())?;
    }
    Ok(ranges)
}

// A file, which some call has locked, or none.
fn file_picture(alloc: Global, file: &FileState, locked: bool) -> Result<FilePicture, AllocError>
    ensures { IfOk result (λ picture. IsCopy file.now locked picture) }
{
    Ok(FilePicture {
        size: file.size,
        locked,
        regions: ranges(alloc, &file.map)?,
        pages: file.cache.pages(alloc)?,
    })
}

// The files in order of their numbers.
fn file_pictures(
    alloc: Global,
    files: &[FileState],
    locks: &SlotTable,
) -> Result<Vec<FilePicture>, AllocError>
    requires { length files.now ≤ 16 }
    ensures count { IfOk result (λ pictures. length pictures.items ≡ length files.now) }
    ensures each { IfOk result (λ pictures. (f : ℕ) → f < length files.now → HoldsAt
        (IsCopy (slice_index_or files.now f no_file) (is_some (holder_of locks.now f)))
        pictures.items f) }
{
    let mut pictures = Vec::new(alloc);
    for (number, file) in files.iter().enumerate() {
        let locked = locks.holder(number as u32).is_some();
        pictures.push(file_picture(alloc, file, locked)?)?;
    }
    Ok(pictures)
}

// Adds the translations of a task.
fn add_translations(
    tables: &mut Vec<(Task, File, Index, Frame)>,
    task: Task,
    space: &Space,
) -> Result<(), AllocError>
    ensures { OnOk result (tables.new.items
        ≡ tables.old.items ++ translations task space.now) }
{
    for (vpn, frame) in space.translations() {
        if let Some((file, index)) = space.find(vpn) {
            tables.push((task, file, index, frame))?;
        }
    }
    Ok(())
}

// The translations of all tasks.
fn tables(alloc: Global, spaces: &[Space]) -> Result<Vec<(Task, File, Index, Frame)>, AllocError>
    requires { length spaces.now ≤ 64 }
    ensures { IfOk result (λ tables.
        tables.items ≡ all_translations spaces.now (length spaces.now)) }
{
    let mut tables = Vec::new(alloc);
    for (place, space) in spaces.iter().enumerate() {
        add_translations(&mut tables, Task::new(place as u32 + 1), space)?;
    }
    Ok(tables)
}

impl Core {
    /// The state as plain data, which `audit` checks. Each frame, file and task is looked at once, and
    /// of these each region, page and translation; so it takes time for as much as is there, and memory
    /// for the lists alone.
    pub fn picture(&self, alloc: Global) -> Result<Picture, AllocError>
        ensures picture { IfOk result (λ picture. IsPicture self.now picture) }
        // The audit passes it.
        ensures audited { IfOk result (λ picture. IsRight picture) }
    {
        let (free, retired) = unused_frames(alloc, &self.parts.bank)?;
        Ok(Picture {
            free,
            retired,
            resv: self.resv(),
            owed: self.owed(),
            used: self.used(),
            used_owed: self.used_owed(),
            quota: self.quota(),
            hands: hands(alloc, &self.task_states)?,
            files: file_pictures(alloc, &self.parts.files, &self.parts.locks)?,
            tables: tables(alloc, &self.parts.spaces)?,
        })
    }
}
