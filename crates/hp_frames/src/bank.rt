//! The bank: a record of each frame, and the counts of free, retired, reserved and used ones.
ghost use Rattle.std.specs.Prelude.{◌≡◌, ℕ, ◌+◌, ◌-◌, ◌^◌, ◌<◌, ◌≤◌, ◌↔◌, ◌⊎◌, false, length, replicate, slice_set, vec_capacity};
ghost use Rattle.std.specs.Prelude.{IfOk, OnOk, OnErr, IsErr, IsErrOf, IsTrue};
ghost use Rattle.hp_frames.specs.Bank.{BankState, free_count, hand_count, IsFree, InHands, HasWord, IsPlaced, with_frame};
ghost use Rattle.hp_frames.specs.Bank.{with_resv, with_used, exceeds, is_used_up, IsWithinQuota, CanCount};

mod resize;

use crate::fault::Fault;
use crate::frame::FrameState;
use crate::record::{Chain, Record, move_frame};
use hp_base::Frame;
pub use resize::Retired;
use std::alloc::{AllocError, Global};
use std::marker::Model;

/// A frame in a call's hand. Only a bank makes one, and the call that gives it back spends it.
#[derive(Debug, Drop)]
pub struct Held {
    frame: Frame,
}

impl Model for Held {
    ghost Value = { ℕ };

    ghost view = { λ held. held.frame };
}

impl Held {
    /// The number of the frame.
    pub fn frame(&self) -> Frame
        ensures { result ≡ self.now }
    {
        let Held { frame } = self;
        *frame
    }
}

/// The frames of a pool, how many pages of it are reserved and not yet there, and how many its files use of the
/// quota.
#[derive(Drop)]
pub struct Bank {
    records: Vec<Record>,
    // The free frames, and the retired ones. Both are linked through their records, so that a frame goes from the
    // ones to the others without memory.
    free: Chain,
    retired: Chain,
    // How many frames are in hands.
    hands: u32,
    resv: u32,
    used: u32,
    quota: Option<u32>,
}

impl Model for Bank {
    ghost use Rattle.std.specs.Prelude.{◌≤◌, vec_capacity};
    ghost use Rattle.hp_frames.specs.Bank.{BankState, IsWithinQuota};
    ghost use Rattle.hp_frames.specs.Records.{states, IsKept};

    ghost Value = { BankState };

    ghost view = { λ b. record {
      frames = states b.records.items;
      resv = b.resv;
      used = b.used;
      quota = b.quota;
      capacity = vec_capacity b.records;
    } };

    ghost invariant = { λ b. record {
      kept : IsKept b.records.items b.free b.retired b.hands;
      reserved : b.resv ≤ b.free.count;
      within : IsWithinQuota b.quota b.used;
    } };
}

impl Bank {
    /// So many frames, all of them free, no page reserved or used, and a maximum for those used, if any.
    pub fn new(alloc: Global, frames: u32, quota: Option<u32>) -> Result<Self, AllocError>
        ensures frames { IfOk result (λ bank. bank.frames ≡ replicate frames FrameState.Free) }
        ensures resv { IfOk result (λ bank. bank.resv ≡ 0) }
        ensures used { IfOk result (λ bank. bank.used ≡ 0) }
        ensures quota { IfOk result (λ bank. bank.quota ≡ quota) }
    {
        let mut bank = Bank {
            records: Vec::new(alloc),
            free: Chain::new(),
            retired: Chain::new(),
            hands: 0,
            resv: 0,
            used: 0,
            quota,
        };
        bank.widen(frames)?;
        Ok(bank)
    }

    /// Copies frames, words and counts into a bank of its own, for which it takes memory. A running pool whose journal
    /// is cut keeps the core of its last cut so, to compare histories from there on. No frame may be in a hand, since its
    /// token could be given back to only one of the two banks.
    pub fn copy(&self, alloc: Global) -> Result<Bank, AllocError>
        requires { hand_count self.now ≡ 0 }
        ensures { IfOk result (λ copy. copy ≡ record self.now { capacity = copy.capacity }) }
    {
        let mut records = Vec::with_capacity(alloc, self.records.len())?;
        records.extend_from_slice(&self.records)?;
        Ok(Bank {
            records,
            free: self.free,
            retired: self.retired,
            hands: self.hands,
            resv: self.resv,
            used: self.used,
            quota: self.quota,
        })
    }

    /// How many frames are free (Linux: `free_huge_pages`).
    pub fn free(&self) -> u32
        ensures { result ≡ free_count self.now }
    {
        self.free.count()
    }

    /// How many frames are in hands: taken or evicted, and not yet placed or given back.
    pub fn hands(&self) -> u32
        ensures { result ≡ hand_count self.now }
    {
        let Bank { hands, .. } = self;
        *hands
    }

    /// How many pages are reserved (Linux: `resv_huge_pages`).
    pub fn resv(&self) -> u32
        ensures resv { result ≡ self.now.resv }
        ensures within { self.now.resv ≤ free_count self.now }
    {
        self.resv
    }

    /// How many pages are used: what the files have reserved, and what calls count on besides (Linux:
    /// `used_hpages` of a subpool). It is counted without a quota, too.
    pub fn used(&self) -> u32
        ensures used { result ≡ self.now.used }
        ensures within { IsWithinQuota self.now.quota self.now.used }
    {
        let Bank { used, .. } = self;
        *used
    }

    /// How many pages may be used, where that is limited (Linux: `max_hpages` of a subpool).
    pub fn quota(&self) -> Option<u32>
        ensures { result ≡ self.now.quota }
    {
        self.quota
    }

    /// Whether that frame is free; false for a number that isn't there.
    pub fn is_free(&self, frame: Frame) -> bool
        ensures { IsTrue result ↔ IsFree self.now frame }
    {
        matches!(
            self.records.get(frame.number() as usize),
            Some(Record::Free { .. })
        )
    }

    /// Reserves n more pages, which are used from now on. The quota is asked first, and then the frames (Linux:
    /// `hugepage_subpool_get_pages`, `hugetlb_acct_memory`).
    pub fn account(&mut self, n: u32) -> Result<(), Fault>
        requires { CanCount self.old n }
        ensures quota { IsErrOf result Fault.Quota ↔ IsTrue (exceeds self.old.quota self.old.used n) }
        ensures short { IsErrOf result Fault.Short
            ↔ ((exceeds self.old.quota self.old.used n ≡ false) × (free_count self.old - self.old.resv < n)) }
        ensures only { IsErr result → IsErrOf result Fault.Quota ⊎ IsErrOf result Fault.Short }
        ensures ok { OnOk result (self.new ≡ with_used (with_resv self.old (self.old.resv + n)) (self.old.used + n)) }
        ensures err { OnErr result (self.new ≡ self.old) }
    {
        if self.exceeds(n) {
            return Err(Fault::Quota);
        }
        if n > self.free() - self.resv {
            return Err(Fault::Short);
        }
        self.resv += n;
        self.used += n;
        Ok(())
    }

    /// Gives n reservations back, whose pages are no longer used (Linux: `hugetlb_acct_memory` of a negative
    /// number, `hugepage_subpool_put_pages`).
    pub fn settle(&mut self, n: u32)
        requires resv { n ≤ self.old.resv }
        requires used { n ≤ self.old.used }
        ensures { self.new ≡ with_used (with_resv self.old (self.old.resv - n)) (self.old.used - n) }
    {
        self.resv -= n;
        self.drop_used(n);
    }

    /// n pages that weren't reserved any more are no longer used (Linux: `hugepage_subpool_put_pages`).
    pub fn drop_used(&mut self, n: u32)
        requires { n ≤ self.old.used }
        ensures { self.new ≡ with_used self.old (self.old.used - n) }
    {
        self.used -= n;
    }

    /// Takes a free frame for a reservation that the caller has (Linux: `dequeue_huge_page_vma`
    /// with `gbl_chg` 0). Its word is 0 once it is placed.
    pub fn take_reserved(&mut self) -> Held
        requires { 1 ≤ self.old.resv }
        ensures free { IsFree self.old result }
        ensures held { InHands self.new result }
        ensures after { self.new ≡ with_resv (with_frame self.old result FrameState.Hand) (self.old.resv - 1) }
    {
        self.resv -= 1;
        self.take_free()
    }

    /// Takes a free frame that nobody reserved, for a page that is used from now on. The quota is asked first,
    /// and then the frames. Its word is 0 once it is placed.
    pub fn take_unreserved(&mut self) -> Result<Held, Fault>
        requires { CanCount self.old 1 }
        ensures quota { IsErrOf result Fault.Quota ↔ IsTrue (is_used_up self.old.quota self.old.used) }
        ensures none { IsErrOf result Fault.NoFrame
            ↔ ((is_used_up self.old.quota self.old.used ≡ false) × (free_count self.old ≡ self.old.resv)) }
        ensures only { IsErr result → IsErrOf result Fault.Quota ⊎ IsErrOf result Fault.NoFrame }
        ensures free { IfOk result (λ held. IsFree self.old held) }
        ensures held { IfOk result (λ held. InHands self.new held) }
        ensures after { IfOk result (λ held. self.new ≡ with_used (with_frame self.old held FrameState.Hand) (self.old.used + 1)) }
        ensures err { OnErr result (self.new ≡ self.old) }
    {
        if self.exceeds(1) {
            return Err(Fault::Quota);
        }
        if self.free() == self.resv {
            return Err(Fault::NoFrame);
        }
        self.used += 1;
        Ok(self.take_free())
    }

    /// The frame becomes a page, with the word 0.
    #[tactic(auto, using(crate::proofs::States::places))]
    pub fn place(&mut self, held: Held) -> Frame
        requires { InHands self.old held }
        ensures same { result ≡ held }
        ensures word { HasWord self.new held 0 }
        ensures after { self.new ≡ with_frame self.old held (FrameState.Placed 0) }
    {
        let Held { frame } = held;
        move_frame(&mut self.records, frame, Record::Placed(0));
        self.hands -= 1;
        frame
    }

    /// The page's frame comes into the caller's hand.
    #[tactic(auto, using(crate::proofs::States::places))]
    pub fn evict(&mut self, frame: Frame) -> Held
        requires { IsPlaced self.old frame }
        ensures same { result ≡ frame }
        ensures held { InHands self.new frame }
        ensures after { self.new ≡ with_frame self.old frame FrameState.Hand }
    {
        hold(&mut self.records, &mut self.hands, frame)
    }

    /// The frame is free again (Linux: `free_huge_page`).
    #[tactic(auto, using(crate::proofs::States::places))]
    pub fn give(&mut self, held: Held)
        requires { InHands self.old held }
        ensures { self.new ≡ with_frame self.old held FrameState.Free }
    {
        let Held { frame } = held;
        let next = self.free.put(frame);
        move_frame(&mut self.records, frame, Record::Free { next });
        self.hands -= 1;
    }

    /// The frame is free again, and reserved (Linux: `free_huge_page` with `restore_reserve`).
    pub fn restore(&mut self, held: Held)
        requires { InHands self.old held }
        ensures { self.new ≡ with_resv (with_frame self.old held FrameState.Free) (self.old.resv + 1) }
    {
        let resv = self.resv + 1;
        self.give(held);
        self.resv = resv;
    }

    /// The word of a page.
    pub fn load(&self, frame: Frame) -> u64
        requires { IsPlaced self.now frame }
        ensures { HasWord self.now frame result }
    {
        match self.records[frame.number() as usize] {
            Record::Placed(word) => word,
            Record::Free { .. } | Record::Hand | Record::Retired { .. } => unreachable!(),
        }
    }

    /// Writes the word of a page.
    #[tactic(auto, using(crate::proofs::States::places))]
    pub fn store(&mut self, frame: Frame, word: u64)
        requires { IsPlaced self.old frame }
        ensures word { HasWord self.new frame word }
        ensures after { self.new ≡ with_frame self.old frame (FrameState.Placed word) }
    {
        move_frame(&mut self.records, frame, Record::Placed(word));
    }

    // A free and unreserved frame comes into the caller's hand.
    #[tactic(auto, using(crate::proofs::States::places))]
    fn take_free(&mut self) -> Held
        requires { self.old.resv < free_count self.old }
        ensures free { IsFree self.old result }
        ensures held { InHands self.new result }
        ensures after { self.new ≡ with_frame self.old result FrameState.Hand }
    {
        let frame = self.free.take(&self.records);
        hold(&mut self.records, &mut self.hands, frame)
    }

    // Whether n more pages are more than the quota has left.
    fn exceeds(&self, n: u32) -> bool
        ensures { result ≡ exceeds self.now.quota self.now.used n }
    {
        match self.quota {
            None => false,
            Some(most) => n > most - self.used,
        }
    }
}

// The frame comes into the caller's hand.
fn hold(records: &mut Vec<Record>, hands: &mut u32, frame: Frame) -> Held
    requires there { frame < length records.old.items }
    requires few { hands.old + 1 < 2 ^ 32 }
    ensures same { result ≡ frame }
    ensures items { records.new.items ≡ slice_set records.old.items frame Record.Hand }
    ensures capacity { vec_capacity records.new ≡ vec_capacity records.old }
    ensures more { hands.new ≡ hands.old + 1 }
{
    move_frame(records, frame, Record::Hand);
    *hands += 1;
    Held { frame }
}
