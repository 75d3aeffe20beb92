//! Frames that go from hand to hand and what they leave of a quota, as rows; the words of pages, copies, and the texts of the faults.
ghost use Rattle.std.specs.Prelude.{◌≡◌, ℕ, IfOk};
ghost use Rattle.hp_frames.specs.Bank.{HasWord, IsPlaced};

use crate::texts::each_reads;
use hp_base::Frame;
use hp_frames::{Bank, Fault};
use std::alloc::{AllocError, Global};
use std::process::Abort;
use std::test::Fail;

/// A call of a bank, and what it has to answer.
#[derive(Drop)]
enum Row {
    /// So many pages more are reserved.
    Account(u32, Result<(), Fault>),
    /// No unreserved frame is to be had, and why.
    NoFrame(Fault),
    /// A reserved frame is taken and restored: what is free and reserved in between.
    Restore(u32, u32),
    /// An unreserved frame, the last of a quota, is taken and given: what is free and used in between.
    Give(u32, u32),
    /// So many reservations are given back.
    Settle(u32),
    /// So many pages are no longer used.
    Drop(u32),
    Retire(u32),
    Grow(u32),
    /// How many frames are free, and how many pages are reserved and used.
    Counts(u32, u32, u32),
    /// How many frames there are, how many are retired, and how many have numbers.
    Frames(u32, usize, u32),
    /// Whether a frame is free.
    Free(u32, bool),
}

/// Asserts how many frames are free, and how many pages are reserved.
fn free_and_reserved(rt: &impl Abort, bank: &Bank, free: u32, resv: u32) {
    assert_eq!(rt; (bank.free(), bank.resv()), (free, resv));
}

/// Asserts how many frames are free, and how many pages are used.
fn free_and_used(rt: &impl Abort, bank: &Bank, free: u32, used: u32) {
    assert_eq!(rt; (bank.free(), bank.used()), (free, used));
}

/// Asserts how many pages are reserved, and how many are used.
fn reserved_and_used(rt: &impl Abort, bank: &Bank, resv: u32, used: u32) {
    assert_eq!(rt; (bank.resv(), bank.used()), (resv, used));
}

/// Asserts what it answers to reserve n pages more.
fn account(rt: &impl Abort, bank: &mut Bank, n: u32, answer: Result<(), Fault>) {
    assert!(rt; n <= u32::MAX - bank.used());
    assert_eq!(rt; bank.account(n), answer);
}

/// Asserts why no unreserved frame is to be had.
fn take_is_refused(rt: &impl Abort, bank: &mut Bank, fault: Fault)
    ensures { bank.new ≡ bank.old }
{
    assert!(rt; bank.used() < u32::MAX);
    match bank.take_unreserved() {
        Err(why) => assert_eq!(rt; why, fault),
        Ok(_) => panic!(rt; "a frame was taken"),
    }
}

/// Asserts what is free and reserved while a reserved frame is in a hand.
fn take_and_restore(rt: &impl Abort, bank: &mut Bank, free: u32, resv: u32) {
    assert!(rt; bank.resv() >= 1);
    let held = bank.take_reserved();
    free_and_reserved(rt, bank, free, resv);
    bank.restore(held);
}

/// Asserts that no reservation of n pages more is to be had, and why.
fn account_is_refused(rt: &impl Abort, bank: &mut Bank, n: u32, fault: Fault)
    ensures { bank.new ≡ bank.old }
{
    assert!(rt; n <= u32::MAX - bank.used());
    match bank.account(n) {
        Err(why) => assert_eq!(rt; why, fault),
        Ok(()) => panic!(rt; "pages were reserved"),
    }
}

/// Takes the one frame of a quota and gives it back. In between no other is to be had.
fn take_and_give(rt: &impl Abort, bank: &mut Bank, free: u32, used: u32) {
    assert!(rt; bank.used() < u32::MAX);
    match bank.take_unreserved() {
        Ok(held) => {
            free_and_used(rt, bank, free, used);
            take_is_refused(rt, bank, Fault::Quota);
            account_is_refused(rt, bank, 1, Fault::Quota);
            bank.give(held);
        }
        Err(_) => panic!(rt; "no frame is to be had"),
    }
}

/// Gives n reservations back.
fn settle(rt: &impl Abort, bank: &mut Bank, n: u32) {
    assert!(rt; n <= bank.resv() && n <= bank.used());
    bank.settle(n);
}

/// So many pages are no longer used.
fn drop_used(rt: &impl Abort, bank: &mut Bank, n: u32) {
    assert!(rt; bank.used() >= n);
    bank.drop_used(n);
}

/// Retires k frames.
fn retire(rt: &impl Abort, bank: &mut Bank, k: u32) {
    assert!(rt; bank.free() - bank.resv() >= k);
    bank.retire(k);
}

/// Lets a bank of few frames have k more.
fn grow(rt: &impl Abort, bank: &mut Bank, k: u32) -> Result<(), AllocError> {
    assert!(rt; k <= 4096 && bank.frames() <= 4096 - k);
    bank.grow(k)
}

/// Asserts how many frames there are, how many are free, and how many are retired.
fn frames_are(rt: &impl Abort, bank: &Bank, frames: u32, free: u32, retired: usize) {
    assert_eq!(rt;
        (bank.frames(), bank.free(), bank.retired().count()),
        (frames, free, retired)
    );
}

/// Asserts how many frames there are, retired and numbered, and that the retired ones aren't told as free.
fn numbers_are(rt: &impl Abort, bank: &Bank, frames: u32, retired: usize, numbers: u32) {
    frames_are(rt, bank, frames, bank.free(), retired);
    assert_eq!(rt; bank.numbers(), numbers);
    assert!(rt;
        bank.retired()
            .all(|frame| bank.is_retired(frame) && !bank.is_free(frame))
    );
}

/// Asserts how many frames are free, and how many pages are reserved and used.
fn counts_are(rt: &impl Abort, bank: &Bank, free: u32, resv: u32, used: u32) {
    free_and_reserved(rt, bank, free, resv);
    assert_eq!(rt; bank.used(), used);
}

fn holds(rt: &impl Abort, bank: &mut Bank, row: &Row) -> Result<(), AllocError> {
    match row {
        Row::Account(n, answer) => account(rt, bank, *n, *answer),
        Row::NoFrame(fault) => take_is_refused(rt, bank, *fault),
        Row::Restore(free, resv) => take_and_restore(rt, bank, *free, *resv),
        Row::Give(free, used) => take_and_give(rt, bank, *free, *used),
        Row::Settle(n) => settle(rt, bank, *n),
        Row::Drop(n) => drop_used(rt, bank, *n),
        Row::Retire(k) => retire(rt, bank, *k),
        Row::Grow(k) => grow(rt, bank, *k)?,
        Row::Counts(free, resv, used) => counts_are(rt, bank, *free, *resv, *used),
        Row::Frames(frames, retired, numbers) => {
            numbers_are(rt, bank, *frames, *retired, *numbers)
        }
        Row::Free(number, is_free) => {
            assert_eq!(rt; bank.is_free(Frame::new(*number)), *is_free)
        }
    }
    Ok(())
}

/// Asserts that the calls of a new bank of so many frames answer what the rows say.
fn hold(
    rt: &impl Abort,
    alloc: Global,
    frames: u32,
    quota: Option<u32>,
    rows: &[Row],
) -> Result<(), AllocError> {
    let mut bank = Bank::new(alloc, frames, quota)?;
    assert_eq!(rt; bank.quota(), quota);
    for row in rows {
        holds(rt, &mut bank, row)?;
    }
    Ok(())
}

#[test]
fn reservations_are_counted(rt: HostRuntime) -> Result<(), AllocError> {
    hold(
        &rt,
        rt.alloc(),
        2,
        None,
        &[
            Row::Account(3, Err(Fault::Short)),
            Row::Account(2, Ok(())),
            Row::Counts(2, 2, 2),
            Row::NoFrame(Fault::NoFrame),
            Row::Restore(1, 1),
            Row::Counts(2, 2, 2),
            Row::Settle(2),
            Row::Counts(2, 0, 0),
        ],
    )
}

#[test]
fn a_quota_limits_what_is_used(rt: HostRuntime) -> Result<(), AllocError> {
    hold(
        &rt,
        rt.alloc(),
        2,
        Some(1),
        &[
            Row::Give(1, 1),
            Row::Counts(2, 0, 1),
            Row::Drop(1),
            Row::Counts(2, 0, 0),
            Row::Account(1, Ok(())),
            Row::Counts(2, 1, 1),
        ],
    )
}

#[test]
fn the_quota_is_asked_before_the_frames(rt: HostRuntime) -> Result<(), AllocError> {
    for (quota, more, last) in [
        (1, Fault::Quota, Fault::Quota),
        (2, Fault::Short, Fault::NoFrame),
    ] {
        hold(
            &rt,
            rt.alloc(),
            1,
            Some(quota),
            &[
                Row::Account(2, Err(more)),
                Row::Account(1, Ok(())),
                Row::NoFrame(last),
            ],
        )?;
    }
    Ok(())
}

#[test]
fn a_bank_shrinks_and_grows(rt: HostRuntime) -> Result<(), AllocError> {
    hold(
        &rt,
        rt.alloc(),
        4,
        None,
        &[
            Row::Account(1, Ok(())),
            Row::Retire(3),
            Row::Counts(1, 1, 1),
            Row::Frames(1, 3, 4),
            Row::Grow(2),
            Row::Counts(3, 1, 1),
            Row::Frames(3, 1, 4),
            Row::Grow(3),
            Row::Counts(6, 1, 1),
            Row::Frames(6, 0, 6),
            Row::Free(5, true),
            Row::Free(6, false),
        ],
    )
}

// A page with that word, in a frame that nobody reserved.
fn new_page(rt: &impl Abort, bank: &mut Bank, word: u64) -> Result<Frame, Fault>
    ensures { IfOk result (λ frame. HasWord bank.new frame word) }
{
    assert!(rt; bank.used() < u32::MAX);
    let held = bank.take_unreserved()?;
    assert_eq!(rt; bank.hands(), 1);
    let page = bank.place(held);
    bank.store(page, word);
    Ok(page)
}

// A copy of a bank no frame of which is in a hand.
fn copied(rt: &impl Abort, bank: &Bank, alloc: Global) -> Result<Bank, AllocError>
    ensures { IfOk result (λ copy. (page word : ℕ) → HasWord bank.now page word → HasWord copy page word) }
{
    assert_eq!(rt; bank.hands(), 0);
    bank.copy(alloc)
}

/// Asserts the word of a page.
fn reads_word(rt: &impl Abort, bank: &Bank, page: Frame, word: u64)
    requires { IsPlaced bank.now page }
    ensures { HasWord bank.now page word }
{
    assert_eq!(rt; bank.load(page), word);
}

/// Asserts that a copy tells the same counts.
fn compare_counts(rt: &impl Abort, copy: &Bank, bank: &Bank) {
    frames_are(rt, copy, bank.frames(), bank.free(), bank.retired().count());
    reserved_and_used(rt, copy, bank.resv(), bank.used());
    assert_eq!(rt; copy.numbers(), bank.numbers());
    assert_eq!(rt; copy.hands(), bank.hands());
    assert_eq!(rt; copy.quota(), bank.quota());
}

/// Asserts that a copy tells the same of each frame.
fn compare_frames(rt: &impl Abort, copy: &Bank, bank: &Bank) {
    for number in 0..bank.numbers() {
        let frame = Frame::new(number);
        assert_eq!(rt; copy.is_free(frame), bank.is_free(frame));
        assert_eq!(rt; copy.is_retired(frame), bank.is_retired(frame));
    }
    assert!(rt; copy.retired().eq(bank.retired()));
}

#[test]
fn a_copy_tells_the_same(rt: HostRuntime) -> Result<(), Fail> {
    let mut bank = Bank::new(rt.alloc(), 5, Some(9))?;
    account(&rt, &mut bank, 1, Ok(()));
    retire(&rt, &mut bank, 2);
    let page = new_page(&rt, &mut bank, 9)?;
    let copy = copied(&rt, &bank, rt.alloc())?;
    reads_word(&rt, &copy, page, 9);
    compare_counts(&rt, &copy, &bank);
    compare_frames(&rt, &copy, &bank);
    Ok(())
}

/// A page goes, and its frame is free.
fn evict(bank: &mut Bank, page: Frame)
    requires { IsPlaced bank.old page }
{
    let held = bank.evict(page);
    bank.give(held);
}

#[test]
fn a_copy_goes_on_apart(rt: HostRuntime) -> Result<(), Fail> {
    let mut bank = Bank::new(rt.alloc(), 3, None)?;
    let page = new_page(&rt, &mut bank, 9)?;
    let mut copy = copied(&rt, &bank, rt.alloc())?;
    bank.store(page, 8);
    reads_word(&rt, &bank, page, 8);
    reads_word(&rt, &copy, page, 9);
    evict(&mut copy, page);
    assert_eq!(rt; (copy.free(), copy.hands()), (3, 0));
    free_and_used(&rt, &bank, 2, 1);
    Ok(())
}

#[test]
fn a_page_keeps_its_word(rt: HostRuntime) -> Result<(), Fail> {
    let mut bank = Bank::new(rt.alloc(), 2, None)?;
    let held = bank.take_unreserved()?;
    let number = held.frame();
    let frame = bank.place(held);
    assert_eq!(rt; frame, number);
    assert!(rt; !bank.is_free(frame));
    bank.store(frame, 9);
    reads_word(&rt, &bank, frame, 9);
    Ok(())
}

// Two free frames, of which one was a page with the word 9.
fn once_used(rt: &impl Abort, alloc: Global) -> Result<Bank, Fail> {
    let mut bank = Bank::new(alloc, 2, None)?;
    let page = new_page(rt, &mut bank, 9)?;
    evict(&mut bank, page);
    drop_used(rt, &mut bank, 1);
    Ok(bank)
}

/// Asserts that a page has the word 0 before one was written.
fn new_page_reads_0(rt: &impl Abort, bank: &mut Bank) -> Result<(), Fault> {
    assert!(rt; bank.used() < u32::MAX);
    let held = bank.take_unreserved()?;
    let page = bank.place(held);
    reads_word(rt, bank, page, 0);
    Ok(())
}

#[test]
fn new_pages_have_the_word_0(rt: HostRuntime) -> Result<(), Fail> {
    let mut bank = once_used(&rt, rt.alloc())?;
    assert_eq!(rt; bank.free(), 2);
    new_page_reads_0(&rt, &mut bank)?;
    new_page_reads_0(&rt, &mut bank)?;
    Ok(())
}

#[test]
fn texts(rt: HostRuntime) -> Result<(), AllocError> {
    each_reads(
        &rt,
        rt.alloc(),
        &[
            (Fault::Short, "too few unreserved frames are free"),
            (Fault::NoFrame, "no unreserved frame is free"),
            (Fault::Quota, "the quota of pages is used up"),
        ],
    )
}
