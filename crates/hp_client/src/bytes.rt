//! Calls with byte offsets over a driver, after those of libhugetlbfs and of the system whose names they bear. Each is
//! planned first, and is then one operation of the pool or none.
ghost use Rattle.std.specs.Prelude.{◌≡◌, ◌%◌, ◌==◌, IfOk, IfErr};
ghost use Rattle.hp_base.specs.declared.event.Op.TheVariants.{Load, Store};
ghost use Rattle.hp_client.specs.Bytes.{page, is_whole, punch_pages, map_plan, unmap_plan, truncate_plan, fallocate_plan};
ghost use Rattle.hp_client.specs.Bytes.{touch_plan, IsAnswered, IsUnanswered};
ghost use Rattle.hp_client.specs.Driving.{IsHeard, IsUnheard};

use crate::driver::Driver;
use crate::fault::ClientFault;
use hp_base::{Answer, File, Index, LIMIT, Mode, Op, Task, VPNS, Vpn};
use std::alloc::Global;

/// How a call with byte offsets is answered.
#[derive(Clone, Copy, Debug, PartialEq, Eq)]
pub enum Plan {
    /// With no call of the pool.
    Replies(Answer),
    /// By this operation.
    Calls(Op),
}

const PAGE: u64 = 2_097_152;

const MOST_BYTES: u64 = LIMIT as u64 * PAGE;

const MOST_ADDRESSES: u64 = VPNS as u64 * PAGE;

// Whether so many bytes are whole pages.
fn is_whole(bytes: u64) -> bool
    ensures { result ≡ is_whole bytes }
{
    bytes % PAGE == 0
}

// The map that `get_huge_pages` is.
fn map_plan(file: File, offset: u64, len: u64, reserve: bool) -> Result<Plan, ClientFault>
    ensures { result ≡ map_plan file offset len reserve }
{
    if !(is_whole(offset) && is_whole(len)) {
        return Err(ClientFault::Unaligned);
    }
    let within = matches!(offset.checked_add(len), Some(end) if end <= MOST_BYTES);
    if !within {
        return Ok(Plan::Replies(Answer::BadRange));
    }
    let (from, len) = (Index::new((offset / PAGE) as u32), (len / PAGE) as u32);
    Ok(Plan::Calls(if reserve {
        Op::Map { file, from, len }
    } else {
        Op::MapNoReserve { file, from, len }
    }))
}

// The unmap that `free_huge_pages` is.
fn unmap_plan(address: u64) -> Result<Plan, ClientFault>
    ensures { result ≡ unmap_plan address }
{
    if !is_whole(address) {
        return Err(ClientFault::Unaligned);
    }
    if address >= MOST_ADDRESSES {
        return Ok(Plan::Replies(Answer::NotMapped));
    }
    Ok(Plan::Calls(Op::Unmap {
        base: Vpn::new((address / PAGE) as u32),
    }))
}

// The truncation that `ftruncate` is.
fn truncate_plan(file: File, length: u64) -> Result<Plan, ClientFault>
    ensures { result ≡ truncate_plan file length }
{
    if !is_whole(length) {
        return Err(ClientFault::Unaligned);
    }
    if length > MOST_BYTES {
        return Ok(Plan::Replies(Answer::BadRange));
    }
    Ok(Plan::Calls(Op::Truncate {
        file,
        new: (length / PAGE) as u32,
    }))
}

// The allocation or the punch that `fallocate` is.
fn fallocate_plan(bits: u32, file: File, offset: u64, len: u64) -> Result<Plan, ClientFault>
    ensures { result ≡ fallocate_plan bits file offset len }
{
    let mode = match Mode::from_bits(bits) {
        Some(mode) if mode.keeps_size() || !mode.punches() => mode,
        _ => return Err(ClientFault::NotSupported),
    };
    let end = match offset.checked_add(len) {
        Some(end) if len != 0 && end <= MOST_BYTES => end,
        _ => return Ok(Plan::Replies(Answer::BadRange)),
    };
    if mode.punches() {
        let (from, to) = (offset.div_ceil(PAGE) as u32, (end / PAGE) as u32);
        return Ok(punch_plan(file, from, to));
    }
    let (from, to) = ((offset / PAGE) as u32, end.div_ceil(PAGE) as u32);
    Ok(Plan::Calls(Op::Alloc {
        file,
        from: Index::new(from),
        len: to - from,
        keep: mode.keeps_size(),
    }))
}

// A punch of these pages, if there are any.
fn punch_plan(file: File, from: u32, to: u32) -> Plan
    ensures { result ≡ punch_pages file from to }
{
    if from >= to {
        return Plan::Replies(Answer::Done);
    }
    Plan::Calls(Op::Punch {
        file,
        from: Index::new(from),
        len: to - from,
    })
}

// The load that `load` is.
fn load_plan(address: u64) -> Result<Plan, ClientFault>
    ensures { result ≡ touch_plan address (λ vpn. Load vpn) }
{
    if address >= MOST_ADDRESSES {
        return Ok(Plan::Replies(Answer::Segv));
    }
    Ok(Plan::Calls(Op::Load {
        vpn: Vpn::new((address / PAGE) as u32),
    }))
}

// The store that `store` is.
fn store_plan(address: u64, word: u64) -> Result<Plan, ClientFault>
    ensures { result ≡ touch_plan address (λ vpn. Store vpn word) }
{
    if address >= MOST_ADDRESSES {
        return Ok(Plan::Replies(Answer::Segv));
    }
    Ok(Plan::Calls(Op::Store {
        vpn: Vpn::new((address / PAGE) as u32),
        word,
    }))
}

// Answers a call as planned.
fn perform<D: Driver>(
    driver: &mut D,
    alloc: Global,
    task: Task,
    plan: Result<Plan, ClientFault>,
) -> Result<Answer, ClientFault>
    requires rests { D.rests_on }
    ensures answered { IfOk result (λ answer. IsAnswered (IsHeard D.heard_by D.makes) plan task driver.old answer driver.new) }
    ensures unanswered { IfErr result (λ fault. IsUnanswered (IsUnheard D.heard_by D.stops)
        plan task driver.old fault driver.new) }
{
    match plan {
        Ok(Plan::Replies(answer)) => Ok(answer),
        Ok(Plan::Calls(op)) => driver.call(alloc, task, op),
        Err(fault) => Err(fault),
    }
}

/// The size of a huge page in bytes.
pub fn gethugepagesize() -> u64
    ensures { result ≡ page }
{
    PAGE
}

/// Maps a range of bytes of a file, with a reservation or without (`mmap`, `MAP_NORESERVE`). Offset and length have to be
/// whole pages.
pub fn get_huge_pages<D: Driver>(
    driver: &mut D,
    alloc: Global,
    task: Task,
    file: File,
    offset: u64,
    len: u64,
    reserve: bool,
) -> Result<Answer, ClientFault>
    requires rests { D.rests_on }
    ensures answered { IfOk result (λ answer. IsAnswered (IsHeard D.heard_by D.makes)
        (map_plan file offset len reserve) task driver.old answer driver.new) }
    ensures unanswered { IfErr result (λ fault. IsUnanswered (IsUnheard D.heard_by D.stops)
        (map_plan file offset len reserve) task driver.old fault driver.new) }
{
    perform(driver, alloc, task, map_plan(file, offset, len, reserve))
}

/// Unmaps the mapping that begins at the address (`munmap`).
pub fn free_huge_pages<D: Driver>(
    driver: &mut D,
    alloc: Global,
    task: Task,
    address: u64,
) -> Result<Answer, ClientFault>
    requires rests { D.rests_on }
    ensures answered { IfOk result (λ answer. IsAnswered (IsHeard D.heard_by D.makes)
        (unmap_plan address) task driver.old answer driver.new) }
    ensures unanswered { IfErr result (λ fault. IsUnanswered (IsUnheard D.heard_by D.stops)
        (unmap_plan address) task driver.old fault driver.new) }
{
    perform(driver, alloc, task, unmap_plan(address))
}

/// Sets the size of a file to so many bytes, which have to be whole pages.
pub fn ftruncate<D: Driver>(
    driver: &mut D,
    alloc: Global,
    task: Task,
    file: File,
    length: u64,
) -> Result<Answer, ClientFault>
    requires rests { D.rests_on }
    ensures answered { IfOk result (λ answer. IsAnswered (IsHeard D.heard_by D.makes)
        (truncate_plan file length) task driver.old answer driver.new) }
    ensures unanswered { IfErr result (λ fault. IsUnanswered (IsUnheard D.heard_by D.stops)
        (truncate_plan file length) task driver.old fault driver.new) }
{
    perform(driver, alloc, task, truncate_plan(file, length))
}

/// Allocates the pages that a range of bytes touches, or punches those that lie within it, as the bits of its mode say
/// (`Mode`).
pub fn fallocate<D: Driver>(
    driver: &mut D,
    alloc: Global,
    task: Task,
    file: File,
    bits: u32,
    offset: u64,
    len: u64,
) -> Result<Answer, ClientFault>
    requires rests { D.rests_on }
    ensures answered { IfOk result (λ answer. IsAnswered (IsHeard D.heard_by D.makes)
        (fallocate_plan bits file offset len) task driver.old answer driver.new) }
    ensures unanswered { IfErr result (λ fault. IsUnanswered (IsUnheard D.heard_by D.stops)
        (fallocate_plan bits file offset len) task driver.old fault driver.new) }
{
    perform(driver, alloc, task, fallocate_plan(bits, file, offset, len))
}

/// Reads the word of the page that holds the address.
pub fn load<D: Driver>(
    driver: &mut D,
    alloc: Global,
    task: Task,
    address: u64,
) -> Result<Answer, ClientFault>
    requires rests { D.rests_on }
    ensures answered { IfOk result (λ answer. IsAnswered (IsHeard D.heard_by D.makes)
        (touch_plan address (λ vpn. Load vpn)) task driver.old answer driver.new) }
    ensures unanswered { IfErr result (λ fault. IsUnanswered (IsUnheard D.heard_by D.stops)
        (touch_plan address (λ vpn. Load vpn)) task driver.old fault driver.new) }
{
    perform(driver, alloc, task, load_plan(address))
}

/// Writes the word of the page that holds the address.
pub fn store<D: Driver>(
    driver: &mut D,
    alloc: Global,
    task: Task,
    address: u64,
    word: u64,
) -> Result<Answer, ClientFault>
    requires rests { D.rests_on }
    ensures answered { IfOk result (λ answer. IsAnswered (IsHeard D.heard_by D.makes)
        (touch_plan address (λ vpn. Store vpn word)) task driver.old answer driver.new) }
    ensures unanswered { IfErr result (λ fault. IsUnanswered (IsUnheard D.heard_by D.stops)
        (touch_plan address (λ vpn. Store vpn word)) task driver.old fault driver.new) }
{
    perform(driver, alloc, task, store_plan(address, word))
}
