//! The laws of the machine, said of a core. There is nothing to run: a body names the theorem that it stands
//! on, and looks at a field, which brings to hand what always holds of a core.
ghost use Rattle.hp_audit.specs.Findings.{IsRight};
ghost use Rattle.hp_audit.specs.declared.picture.Picture.{Picture};
ghost use Rattle.hp_machine.specs.Events.{IsReached};
ghost use Rattle.hp_core.specs.Pictures.{IsPicture};
ghost use Rattle.hp_core.specs.State.{as_state};
ghost use Rattle.hp_laws.specs.Laws.{AllocNeverLacks, AllocTakes, BlockedByHolders, EvictedStays, EvictsFew};
ghost use Rattle.hp_laws.specs.Laws.{LockHoldersWaitForSlots, LosesUnderLock, NeverShort, SlotHoldersGoOn, SomeCallGoesOn};
ghost use Rattle.hp_laws.specs.Laws.{TouchNeverLacks, TouchTakes, TruncationCuts};
ghost use Rattle.hp_laws.specs.Protocol.{BareWhereMade, ChangesAreCalls, HandsApart, LiesWithin, PagesAreReserved, PassedIsBare};
ghost use Rattle.hp_laws.specs.Protocol.{SparesSuffice};

use crate::core_state::Core;

impl Core {
    /// A run of the machine reached this core: so every theorem on such states holds of it.
    pub fn is_reached(&self)
        ensures { IsReached (as_state self.now) }
    {
        let _ = &self.config;
    }

    /// Every picture of this core passes the audit: so whoever takes one need not look.
    pub fn every_picture_is_right(&self)
        ensures { (picture : Picture) → IsPicture self.now picture → IsRight picture }
    {
        let _ = &self.config;
    }

    /// Whenever a call is about to lower the reserve count, the count is at least what it takes, so that no
    /// step is ever short of a reservation.
    pub fn never_short(&self)
        ensures { NeverShort (as_state self.now) }
    {
        hp_laws::never_short();
        let _ = &self.config;
    }

    /// A touch whose change found nothing missing takes a frame at its next step, unless a kill is noticed
    /// there.
    pub fn a_touch_that_misses_nothing_takes_a_frame(&self)
        ensures { TouchTakes (as_state self.now) }
    {
        hp_laws::a_touch_that_misses_nothing_takes_a_frame();
        let _ = &self.config;
    }

    /// So does an allocation.
    pub fn an_alloc_that_misses_nothing_takes_a_frame(&self)
        ensures { AllocTakes (as_state self.now) }
    {
        hp_laws::an_alloc_that_misses_nothing_takes_a_frame();
        let _ = &self.config;
    }

    /// Where a truncation ends, nothing of its file at or above the new size is translated, cached or reserved.
    pub fn a_truncation_leaves_nothing_above(&self)
        ensures { TruncationCuts (as_state self.now) }
    {
        hp_laws::a_truncation_leaves_nothing_above();
        let _ = &self.config;
    }

    /// A step is blocked only by another task, whose call in flight holds the slot or the file lock that the
    /// step would take.
    pub fn a_blocked_step_waits_for_a_holder(&self)
        ensures { BlockedByHolders (as_state self.now) }
    {
        hp_laws::a_blocked_step_waits_for_a_holder();
        let _ = &self.config;
    }

    /// A call that holds a slot is never blocked.
    pub fn a_slot_holder_is_never_blocked(&self)
        ensures { SlotHoldersGoOn (as_state self.now) }
    {
        hp_laws::a_slot_holder_is_never_blocked();
        let _ = &self.config;
    }

    /// A call that holds a file lock is blocked only by one that holds a slot.
    pub fn a_lock_holder_waits_for_slots_alone(&self)
        ensures { LockHoldersWaitForSlots (as_state self.now) }
    {
        hp_laws::a_lock_holder_waits_for_slots_alone();
        let _ = &self.config;
    }

    /// Where calls are in flight, the next step of one of them isn't blocked.
    pub fn some_call_is_not_blocked(&self)
        ensures { SomeCallGoesOn (as_state self.now) }
    {
        hp_laws::some_call_is_not_blocked();
        let _ = &self.config;
    }

    /// The pending changes of a file's map are the calls that stand at changed, abort, taken or accounted on it.
    pub fn pending_changes_are_calls(&self)
        ensures { ChangesAreCalls (as_state self.now) }
    {
        hp_laws::pending_changes_are_calls();
        let _ = &self.config;
    }

    /// A file's map has a spare descriptor for each pending change.
    pub fn each_change_has_a_spare(&self)
        ensures { SparesSuffice (as_state self.now) }
    {
        hp_laws::each_change_has_a_spare();
        let _ = &self.config;
    }

    /// An index that has a page is reserved.
    pub fn pages_are_reserved(&self)
        ensures { PagesAreReserved (as_state self.now) }
    {
        hp_laws::pages_are_reserved();
        let _ = &self.config;
    }

    /// What is reserved or has a page lies below the limit of a file that is there: so what `reserved` and `pages`
    /// count is all there is.
    pub fn nothing_lies_beyond_the_limits(&self)
        ensures { LiesWithin (as_state self.now) }
    {
        hp_laws::nothing_lies_beyond_the_limits();
        let _ = &self.config;
    }

    /// Two calls that hold a frame stand at different indices.
    pub fn hands_are_apart(&self)
        ensures { HandsApart (as_state self.now) }
    {
        hp_laws::hands_are_apart();
        let _ = &self.config;
    }

    /// Where a call makes a page there is none yet.
    pub fn pages_are_made_where_none_is(&self)
        ensures { BareWhereMade (as_state self.now) }
    {
        hp_laws::pages_are_made_where_none_is();
        let _ = &self.config;
    }

    /// An index that a truncation has passed has no page, and no other call works there.
    pub fn passed_indices_stay_bare(&self)
        ensures { PassedIsBare (as_state self.now) }
    {
        hp_laws::passed_indices_stay_bare();
        let _ = &self.config;
    }

    /// A reserved index goes only at a delete or a tail, under the file lock, and never one on which another call
    /// counts.
    pub fn reservations_go_under_the_lock(&self)
        ensures { LosesUnderLock (as_state self.now) }
    {
        hp_laws::reservations_go_under_the_lock();
        let _ = &self.config;
    }

    /// A touch whose change found nothing missing never answers that there is no frame, whatever comes between.
    pub fn a_touch_that_misses_nothing_never_lacks_a_frame(&self)
        ensures { TouchNeverLacks (as_state self.now) }
    {
        hp_laws::a_touch_that_misses_nothing_never_lacks_a_frame();
        let _ = &self.config;
    }

    /// An allocation whose change found nothing missing at an index doesn't leave that index for want of a frame,
    /// whatever comes between.
    pub fn an_alloc_that_misses_nothing_never_lacks_a_frame(&self)
        ensures { AllocNeverLacks (as_state self.now) }
    {
        hp_laws::an_alloc_that_misses_nothing_never_lacks_a_frame();
        let _ = &self.config;
    }

    /// An index from which a truncation takes the page stays reserved until the truncation takes its tail out of
    /// the reserve map.
    pub fn an_evicted_index_stays_reserved(&self)
        ensures { EvictedStays (as_state self.now) }
    {
        hp_laws::an_evicted_index_stays_reserved();
        let _ = &self.config;
    }

    /// A truncation evicted no more pages than its tail takes indices out.
    pub fn a_truncation_evicts_no_more_than_it_removes(&self)
        ensures { EvictsFew (as_state self.now) }
    {
        hp_laws::a_truncation_evicts_no_more_than_it_removes();
        let _ = &self.config;
    }
}
