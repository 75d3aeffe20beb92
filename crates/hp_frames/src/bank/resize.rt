//! A bank that grows and shrinks.
ghost use Rattle.std.specs.Prelude.{◌≡◌, ◌↔◌, ◌+◌, ◌-◌, ◌^◌, ◌<◌, ◌≤◌, ◌++◌, ◌∷◌, [], length, slice_get};
ghost use Rattle.std.specs.Prelude.{IsOk, IsTrue, OnErr, OnOk, Some, replicate};
ghost use Rattle.std.specs.Iterator.{YieldsFirst, item_count};
ghost use Rattle.hp_frames.specs.Bank.{BankState, free_count, retired_frames, active_frames, is_retired, IsFree, with_frame};
ghost use Rattle.hp_frames.specs.Bank.{AreThose, HasGrown, HasShrunk};

use super::Bank;
use crate::frame::FrameState;
use crate::record::{Chain, Record, move_frame};
use hp_base::Frame;
use std::alloc::AllocError;
use std::marker::Model;

impl Bank {
    /// How many frames there are with the retired ones: they are numbered from 0 on.
    pub fn numbers(&self) -> u32
        ensures { result ≡ length self.now.frames }
    {
        self.records.len() as u32
    }

    /// How many frames aren't retired (Linux: `nr_huge_pages`).
    pub fn frames(&self) -> u32
        ensures { result ≡ active_frames self.now.frames }
    {
        self.numbers() - self.retired.count()
    }

    /// The retired frames, in no order.
    pub fn retired(&self) -> Retired<'_>
        ensures those { AreThose is_retired self.now.frames result }
        ensures count { length result ≡ retired_frames self.now.frames }
    {
        Retired {
            records: &self.records,
            left: self.retired,
        }
    }

    /// Whether that frame is retired; false for a number that isn't there.
    pub fn is_retired(&self, frame: Frame) -> bool
        ensures { IsTrue result ↔ (slice_get self.now.frames frame ≡ Some FrameState.Retired) }
    {
        matches!(
            self.records.get(frame.number() as usize),
            Some(Record::Retired { .. })
        )
    }

    /// k free frames more: retired ones come in first, and then new numbers. Only new numbers take memory (Linux:
    /// `set_max_huge_pages`).
    pub fn grow(&mut self, k: u32) -> Result<(), AllocError>
        requires { active_frames self.old.frames + k ≤ 4096 }
        ensures grown { OnOk result (HasGrown self.old.frames self.new.frames k) }
        ensures rest { OnOk result (self.new ≡ record self.old { frames = self.new.frames; capacity = self.new.capacity }) }
        ensures capacity { k ≤ retired_frames self.old.frames → IsOk result × (self.new.capacity ≡ self.old.capacity) }
        ensures err { OnErr result (self.new ≡ self.old) }
    {
        let back = k.min(self.retired.count());
        self.widen(k - back)?;
        for _ in 0..back {
            self.bring_back();
        }
        Ok(())
    }

    /// k of the free and unreserved frames are retired (Linux: `set_max_huge_pages`, `remove_pool_huge_page`).
    pub fn retire(&mut self, k: u32)
        requires { k ≤ free_count self.old - self.old.resv }
        ensures shrunk { HasShrunk self.old.frames self.new.frames k }
        ensures free { free_count self.new + k ≡ free_count self.old }
        ensures rest { self.new ≡ record self.old { frames = self.new.frames } }
    {
        for _ in 0..k {
            self.retire_one();
        }
    }

    // A retired frame is free again.
    #[tactic(auto, using(crate::proofs::States::places))]
    fn bring_back(&mut self) -> Frame
        requires { 1 ≤ retired_frames self.old.frames }
        ensures retired { slice_get self.old.frames result ≡ Some FrameState.Retired }
        ensures after { self.new ≡ with_frame self.old result FrameState.Free }
    {
        let frame = self.retired.take(&self.records);
        let next = self.free.put(frame);
        move_frame(&mut self.records, frame, Record::Free { next });
        frame
    }

    // A free and unreserved frame is retired.
    #[tactic(auto, using(crate::proofs::States::places))]
    fn retire_one(&mut self) -> Frame
        requires { self.old.resv < free_count self.old }
        ensures free { IsFree self.old result }
        ensures after { self.new ≡ with_frame self.old result FrameState.Retired }
    {
        let frame = self.free.take(&self.records);
        let next = self.retired.put(frame);
        move_frame(&mut self.records, frame, Record::Retired { next });
        frame
    }

    // So many new numbers, of free frames. Capacity for all is reserved before the first of them comes in.
    pub(super) fn widen(&mut self, more: u32) -> Result<(), AllocError>
        requires { length self.old.frames + more < 2 ^ 32 }
        ensures wider { OnOk result (self.new ≡ record self.old {
          frames = self.old.frames ++ replicate more FrameState.Free;
          capacity = self.new.capacity;
        }) }
        ensures capacity { more ≡ 0 → IsOk result × (self.new.capacity ≡ self.old.capacity) }
        ensures err { OnErr result (self.new ≡ self.old) }
    {
        if more == 0 {
            return Ok(());
        }
        self.records.reserve(more as usize)?;
        for _ in 0..more {
            self.add_one();
        }
        Ok(())
    }

    // One more number, of a free frame. There is capacity for it.
    fn add_one(&mut self)
        requires capacity { length self.old.frames < self.old.capacity }
        requires few { length self.old.frames + 1 < 2 ^ 32 }
        ensures { self.new ≡ record self.old { frames = self.old.frames ++ FrameState.Free ∷ [] } }
    {
        let number = self.numbers();
        let next = self.free.put(Frame::new(number));
        self.records.push_reserved(Record::Free { next });
    }
}

/// The retired frames of a bank, in no order.
#[derive(Drop)]
pub struct Retired<'a> {
    records: &'a [Record],
    left: Chain,
}

impl<'a> Model for Retired<'a> {
    ghost use Rattle.std.specs.Prelude.{◌≡◌, List, ℕ, length};
    ghost use Rattle.hp_frames.specs.Records.{chained, AreLinked, AreWithin};

    ghost Value = { List ℕ };

    ghost view = { λ r. chained r.records.now r.left.count r.left.first };

    ghost invariant = { λ r. record {
      within : AreWithin (length r.records.now) (chained r.records.now r.left.count r.left.first);
      counted : length (chained r.records.now r.left.count r.left.first) ≡ r.left.count;
    } };
}

impl<'a> Iterator for Retired<'a> {
    type Item = Frame;

    ghost next_gives = { YieldsFirst (λ frames. frames) };

    ghost remaining = { item_count (λ frames. frames) };

    fn next(&mut self) -> Option<Frame> {
        if self.left.count() == 0 {
            return None;
        }
        Some(self.left.take(self.records))
    }
}
