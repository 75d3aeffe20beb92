//! The lists of a core, thing by thing.
ghost use Rattle.std.specs.Prelude.{◌≡◌, ◌≢◌, ◌↔◌, ◌+◌, ◌<◌, ◌≤◌, ◌++◌, ℕ, All, IsTrue, OnOk, Some, length, slice_index_or};
ghost use Rattle.std.specs.FinMap.{entries, get};
ghost use Rattle.std.specs.List.{flat_map};
ghost use Rattle.hp_base.specs.declared.limits.TheConstants.{VPNS};
ghost use Rattle.hp_base.specs.Mappings.{base_of};
ghost use Rattle.hp_chunks.specs.Framed.{entry_at};
ghost use Rattle.hp_frames.specs.Bank.{IsPlaced};
ghost use Rattle.hp_key.specs.Carried.{call_words, carried_numbers, carried_words};
ghost use Rattle.hp_key.specs.Key.{entry_words, file_words, frames_words, mapping_words, page_words, region_words};
ghost use Rattle.hp_key.specs.Key.{space_words, task_words};
ghost use Rattle.hp_key.specs.Numbers.{counted, life_number, maybe, number_words};

use crate::carried::{Carried, carried_by};
use crate::numbers::{push_access, push_change, push_maybe, push_pending_answer, push_wide};
use hp_base::{Index, Mapping, VPNS, Vpn};
use hp_chunks::PageCache;
use hp_core::TaskState;
use hp_frames::Bank;
use hp_machine::{Call, Life};
use hp_parts::FileState;
use hp_region::RegionMap;
use hp_slots::SlotTable;
use hp_table::Space;
use std::alloc::AllocError;

/// How many frames there are, how many of them are in the pool, and how many are free.
pub(crate) fn push_frames(words: &mut Vec<u32>, bank: &Bank) -> Result<(), AllocError>
    ensures { OnOk result (words.new.items ≡ words.old.items ++ frames_words bank.now.frames) }
{
    words.push(bank.numbers())?;
    words.push(bank.frames())?;
    words.push(bank.free())?;
    Ok(())
}

/// Who holds each of so many places.
pub(crate) fn push_holders(
    words: &mut Vec<u32>,
    table: &SlotTable,
    places: u32,
) -> Result<(), AllocError>
    requires { places ≡ length table.now }
    ensures { OnOk result (words.new.items ≡ words.old.items ++ counted (maybe number_words) table.now) }
{
    words.push(places)?;
    for place in 0..places {
        let holder = table.holder(place).map(|task| task.number());
        push_maybe(words, holder)?;
    }
    Ok(())
}

// The regions of a file's map, in order.
fn push_regions(words: &mut Vec<u32>, map: &RegionMap) -> Result<(), AllocError>
    ensures { OnOk result (words.new.items ≡ words.old.items ++ counted region_words map.now.regions) }
{
    words.push(map.regions() as u32)?;
    for place in 0..map.regions() {
        let (from, to) = map.region(place).unwrap();
        words.push(from.number())?;
        words.push(to.number())?;
    }
    Ok(())
}

// The page of an index, if it has one.
fn push_page(
    words: &mut Vec<u32>,
    cache: &PageCache,
    bank: &Bank,
    index: Index,
) -> Result<(), AllocError>
    requires { (i x : ℕ) → get cache.now.pages i ≡ Some x → IsPlaced bank.now x }
    ensures { OnOk result (words.new.items
        ≡ words.old.items ++ flat_map (page_words bank.now.frames) (entry_at index (get cache.now.pages index))) }
{
    if let Some(frame) = cache.get(index) {
        words.push(index.number())?;
        push_wide(words, bank.load(frame))?;
    }
    Ok(())
}

// The pages of a file, each with its word.
fn push_pages(words: &mut Vec<u32>, cache: &PageCache, bank: &Bank) -> Result<(), AllocError>
    requires { (i x : ℕ) → get cache.now.pages i ≡ Some x → IsPlaced bank.now x }
    ensures { OnOk result (words.new.items ≡ words.old.items ++ counted (page_words bank.now.frames) (entries cache.now.pages)) }
{
    words.push(cache.count())?;
    for number in 0..cache.top() {
        push_page(words, cache, bank, Index::new(number))?;
    }
    Ok(())
}

// A file.
fn push_file(words: &mut Vec<u32>, file: &FileState, bank: &Bank) -> Result<(), AllocError>
    requires { (i x : ℕ) → get file.now.cache.pages i ≡ Some x → IsPlaced bank.now x }
    ensures { OnOk result (words.new.items ≡ words.old.items ++ file_words bank.now.frames file.now) }
{
    words.push(file.size)?;
    push_wide(words, file.map.pending() as u64)?;
    push_wide(words, file.map.spare() as u64)?;
    push_regions(words, &file.map)?;
    push_pages(words, &file.cache, bank)?;
    Ok(())
}

/// The files, whose pages lie in the bank's frames.
pub(crate) fn push_files(
    words: &mut Vec<u32>,
    files: &[FileState],
    bank: &Bank,
) -> Result<(), AllocError>
    requires few { length files.now ≤ 16 }
    requires placed { All (λ file. (i x : ℕ) → get file.cache.pages i ≡ Some x → IsPlaced bank.now x) files.now }
    ensures { OnOk result (words.new.items ≡ words.old.items ++ counted (file_words bank.now.frames) files.now) }
{
    words.push(files.len() as u32)?;
    for file in files {
        push_file(words, file, bank)?;
    }
    Ok(())
}

// Whether the page lies in the mapping with that base.
fn lies_in(space: &Space, page: u32, base: u32) -> bool
    ensures { IsTrue result ↔ (base_of space.now.mappings page ≡ Some base) }
{
    match space.base_of(Vpn::new(page)) {
        Some(found) => found.number() == base,
        None => false,
    }
}

// The first page from that one on at which a mapping begins, or the end of the space.
fn next_base(space: &Space, from: u32) -> u32
    requires { from ≤ VPNS }
    ensures above { from ≤ result }
    ensures none { (v : ℕ) → from ≤ v → v < result → base_of space.now.mappings v ≢ Some v }
    ensures begins { result < VPNS → base_of space.now.mappings result ≡ Some result }
{
    for page in from..VPNS {
        if lies_in(space, page, page) {
            return page;
        }
    }
    VPNS
}

// The first page behind the mapping with that base.
fn end_of(space: &Space, base: u32) -> u32
    requires { base < VPNS }
    ensures above { base < result }
    ensures within { result ≤ VPNS }
    ensures all { (v : ℕ) → base < v → v < result → base_of space.now.mappings v ≡ Some base }
    ensures ends { result < VPNS → base_of space.now.mappings result ≢ Some base }
{
    for page in base + 1..VPNS {
        if !lies_in(space, page, base) {
            return page;
        }
    }
    VPNS
}

fn push_mapping(words: &mut Vec<u32>, mapping: Mapping) -> Result<(), AllocError>
    ensures { OnOk result (words.new.items ≡ words.old.items ++ mapping_words mapping) }
{
    words.push(mapping.base.number())?;
    words.push(mapping.file.number())?;
    words.push(mapping.from.number())?;
    words.push(mapping.len)?;
    Ok(())
}

// The mappings of a task, in order. A space says of a page in which mapping it lies: so the pages are looked at one by one, up to the end
// of the last mapping.
fn push_mappings(words: &mut Vec<u32>, space: &Space) -> Result<(), AllocError>
    ensures { OnOk result (words.new.items ≡ words.old.items ++ counted mapping_words space.now.mappings) }
{
    let count = space.mappings();
    words.push(count as u32)?;
    let mut end = 0;
    for _ in 0..count {
        let base = next_base(space, end);
        end = end_of(space, base);
        let (file, from) = space.find(Vpn::new(base)).unwrap();
        let mapping = Mapping {
            base: Vpn::new(base),
            file,
            from,
            len: end - base,
        };
        push_mapping(words, mapping)?;
    }
    Ok(())
}

// The translations of a task, in order of the virtual pages.
fn push_translations(words: &mut Vec<u32>, space: &Space) -> Result<(), AllocError>
    ensures { OnOk result (words.new.items ≡ words.old.items ++ counted entry_words (entries space.now.entries)) }
{
    words.push(space.entries() as u32)?;
    for (vpn, _) in space.translations() {
        words.push(vpn.number())?;
    }
    Ok(())
}

// The space of a task.
fn push_space(words: &mut Vec<u32>, space: &Space) -> Result<(), AllocError>
    ensures { OnOk result (words.new.items ≡ words.old.items ++ space_words space.now) }
{
    words.push(u32::from(space.ready()))?;
    push_mappings(words, space)?;
    push_translations(words, space)?;
    Ok(())
}

/// The spaces of the tasks.
pub(crate) fn push_spaces(words: &mut Vec<u32>, spaces: &[Space]) -> Result<(), AllocError>
    requires { length spaces.now ≤ 64 }
    ensures { OnOk result (words.new.items ≡ words.old.items ++ counted space_words spaces.now) }
{
    words.push(spaces.len() as u32)?;
    for space in spaces {
        push_space(words, space)?;
    }
    Ok(())
}

// The numbers among what a call carries.
fn push_numbers(words: &mut Vec<u32>, carried: &Carried) -> Result<(), AllocError>
    ensures { OnOk result (words.new.items ≡ words.old.items ++ carried_numbers carried.now) }
{
    words.extend_from_slice(&[
        carried.operation,
        carried.phase,
        carried.page.number(),
        carried.file.number(),
        carried.from.number(),
        carried.len,
        carried.index.number(),
        carried.task.number(),
        carried.evicted,
        carried.excess,
        u32::from(carried.flag),
    ])?;
    Ok(())
}

// What a call in flight carries.
fn push_carried(words: &mut Vec<u32>, carried: &Carried) -> Result<(), AllocError>
    ensures { OnOk result (words.new.items ≡ words.old.items ++ carried_words carried.now) }
{
    push_numbers(words, carried)?;
    push_access(words, carried.access)?;
    push_change(words, carried.change)?;
    words.push(u32::from(carried.frame.is_some()))?;
    push_pending_answer(words, carried.answer)?;
    Ok(())
}

// A call in flight, if there is one.
fn push_call(words: &mut Vec<u32>, call: &Option<Call>) -> Result<(), AllocError>
    ensures { OnOk result (words.new.items ≡ words.old.items ++ maybe call_words call.now) }
{
    match call {
        None => words.push(0)?,
        Some(call) => {
            words.push(1)?;
            push_carried(words, &carried_by(call))?;
        }
    }
    Ok(())
}

// How a task lives, as a number.
fn life_number(life: Life) -> u32
    ensures { result ≡ life_number life }
{
    match life {
        Life::Alive => 0,
        Life::Killed => 1,
        Life::Dead => 2,
    }
}

// A task.
fn push_task(words: &mut Vec<u32>, task_state: &TaskState) -> Result<(), AllocError>
    ensures { OnOk result (words.new.items ≡ words.old.items ++ task_words task_state.now) }
{
    words.push(life_number(task_state.life))?;
    push_call(words, &task_state.call)?;
    Ok(())
}

/// The tasks.
pub(crate) fn push_tasks(words: &mut Vec<u32>, task_states: &[TaskState]) -> Result<(), AllocError>
    requires { length task_states.now ≤ 64 }
    ensures { OnOk result (words.new.items ≡ words.old.items ++ counted task_words task_states.now) }
{
    words.push(task_states.len() as u32)?;
    for task_state in task_states {
        push_task(words, task_state)?;
    }
    Ok(())
}
