//! The protocol's rules are needed: machines that differ from the right one in one row, and of each a run that breaks
//! a law of the right one.
//!
//! It stands on the machine (hp_machine), whose rows of calls and of resizes it replaces one at a time, and on the laws
//! of hp_laws. Each function is a theorem: by those rows this list of events, which is short, ends with a wrong count,
//! a frame in two places, a translation that is astray, or a change without its descriptor. `docs/NEEDED.md` tells the
//! rules; `examples/needed/` has the same events for the right machine. It knows no code.
#![tactic(auto)]

ghost use Rattle.std.specs.Prelude.{◌↔◌, List};
ghost use Rattle.hp_base.specs.declared.event.Event.{Event};
ghost use Rattle.hp_machine.specs.State.{State};
ghost use Rattle.hp_machine.specs.Resizes.{ResizeRow};
ghost use Rattle.hp_machine.specs.Events.{CallRow, IsReached, Run, RunBy};
ghost use Rattle.hp_machine.specs.declared.outcome.Outcome.{Outcome};
ghost use Rattle.hp_machine.specs.Headline.{Agrees, IsBelow};
ghost use Rattle.hp_laws.specs.Laws.{NeverShort};
ghost use Rattle.hp_laws.specs.Protocol.{ChangesAreCalls, SparesSuffice};
ghost use Rattle.hp_counterexamples.specs.Runs.{bounded, small, with_calls, with_resizes, Breaks, Miscounts, Misuses, Lacks, Strands};
ghost use Rattle.hp_counterexamples.specs.Runs.{FramesAreInOnePlace, FreeFramesSuffice, QuotaSuffices};
ghost use Rattle.hp_counterexamples.specs.Counting.{MapKeepsExcess, map_settles_run, TouchKeepsExcess, touch_settles_run};
ghost use Rattle.hp_counterexamples.specs.Counting.{MapKeepsUsed, TouchKeepsUsed, RestoresUncounted, restore_run};
ghost use Rattle.hp_counterexamples.specs.Counting.{RestoresUnmarked, ForgetsDenial, UnusesDenied, IgnoresRefusal, denial_run};
ghost use Rattle.hp_counterexamples.specs.Counting.{GivesNothingBack};
ghost use Rattle.hp_counterexamples.specs.Counting.{nothing_back_run, GivesBackEvicted, KeepsEvictedUsed, evicted_run, evicted_used_run};
ghost use Rattle.hp_counterexamples.specs.Promising.{TakesAnyFrame, any_frame_run, PromisesAnyFrame, any_promise_run};
ghost use Rattle.hp_counterexamples.specs.Promising.{AsksNoQuota, quota_run, RetiresReserved, resize_reserved_run, RetiresHands};
ghost use Rattle.hp_counterexamples.specs.Promising.{resize_hand_run};
ghost use Rattle.hp_counterexamples.specs.Cutting.{VisitsPagesOnly, pages_only_run, short_run, SweepsFromSize, low_top_run};
ghost use Rattle.hp_counterexamples.specs.Cutting.{LooksNoMore, late_touch_run, SizesLast};
ghost use Rattle.hp_counterexamples.specs.Locking.{UnlocksEarly, unlock_run, unlock_count_run, BreaksLock, lock_run};
ghost use Rattle.hp_counterexamples.specs.Locking.{PunchBreaksLock, punch_lock_run, TruncateBreaksLock, truncate_lock_run};
ghost use Rattle.hp_counterexamples.specs.Locking.{TouchBreaksSlot, touch_slot_run, PunchBreaksSlot, punch_slot_run};
ghost use Rattle.hp_counterexamples.specs.Locking.{TruncateBreaksSlot, truncate_slot_run, PunchesEarly, punch_early_run};
ghost use Rattle.hp_counterexamples.specs.Locking.{TruncatesEarly, truncate_early_run};
ghost use Rattle.hp_counterexamples.specs.Changing.{two_slots, TakesAnySpare, split_run, SharesSpare, shared_spare_run};
ghost use Rattle.hp_counterexamples.specs.Changing.{DropsChange, drop_run};

/// With the right rows, a machine with other rows is the machine.
pub fn the_right_rows_are_the_machine()
    ensures calls { (s n : State) (events : List (Event × Outcome)) → RunBy (with_calls CallRow) s events n ↔ Run s events n }
    ensures resizes { (s n : State) (events : List (Event × Outcome)) → RunBy (with_resizes ResizeRow) s events n ↔ Run s events n }
{}

/// The right machine has each of the laws that the machines below break.
pub fn the_right_machine_has_these_laws()
    ensures headline { (s : State) → IsReached s
        → Agrees s × FramesAreInOnePlace s × IsBelow s × FreeFramesSuffice s × QuotaSuffices s }
    ensures others { (s : State) → IsReached s → NeverShort s × SparesSuffice s × ChangesAreCalls s }
{}

/// A map has to give back what it counted and didn't add.
pub fn a_map_settles()
    ensures { Miscounts (with_calls MapKeepsExcess) (small 2 1) 2 map_settles_run 1 0 }
{}

/// A touch has to give back what it counted and didn't add.
pub fn a_touch_settles()
    ensures { Miscounts (with_calls TouchKeepsExcess) (small 2 1) 2 touch_settles_run 1 0 }
{}

/// What a map gives back it has to take off the used count, too.
pub fn a_map_settles_the_used_count()
    ensures { Misuses (with_calls MapKeepsUsed) (bounded 2 1 2) 2 map_settles_run 2 1 }
{}

/// What a touch gives back it has to take off the used count, too.
pub fn a_touch_settles_the_used_count()
    ensures { Misuses (with_calls TouchKeepsUsed) (bounded 2 1 2) 2 touch_settles_run 2 1 }
{}

/// A touch that gives its frame back has to raise the count.
pub fn a_touch_restores_the_count()
    ensures { Miscounts (with_calls RestoresUncounted) (small 1 1) 1 restore_run 0 1 }
{}

/// A touch that gives its frame back has to leave the index in the reserve map.
pub fn a_restored_index_stays_reserved()
    ensures { Miscounts (with_calls RestoresUnmarked) (small 1 1) 1 restore_run 1 0 }
{}

/// A punch whose delete was denied has to raise the count.
pub fn a_denied_delete_is_counted()
    ensures { Miscounts (with_calls ForgetsDenial) (small 1 5) 4 denial_run 3 4 }
{}

/// A punch whose delete was denied has to free its frame before it raises the count: a raise that is refused is never made up for.
pub fn a_raise_always_fits()
    ensures { Miscounts (with_calls IgnoresRefusal) (small 1 5) 4 denial_run 3 4 }
{}

/// A punch whose delete was denied has to leave the used count.
pub fn a_denied_delete_stays_used()
    ensures { Misuses (with_calls UnusesDenied) (bounded 1 5 4) 4 denial_run 3 4 }
{}

/// A truncation has to give back the indices that had no page.
pub fn a_truncation_settles()
    ensures { Miscounts (with_calls GivesNothingBack) (small 1 1) 1 nothing_back_run 1 0 }
{}

/// A truncation has to give back no index whose page it took away.
pub fn evicted_pages_are_not_given_back()
    ensures { Miscounts (with_calls GivesBackEvicted) (small 1 2) 2 evicted_run 0 1 }
{}

/// A truncation has to take the pages that it took away off the used count, too.
pub fn evicted_pages_are_no_longer_used()
    ensures { Misuses (with_calls KeepsEvictedUsed) (bounded 1 1 1) 1 evicted_used_run 1 0 }
{}

/// A touch without a reservation has to leave promised frames alone.
pub fn promised_frames_are_left_alone()
    ensures { Breaks (with_calls TakesAnyFrame) (small 1 2) 1 any_frame_run FreeFramesSuffice }
{}

/// A map has to promise only frames that nobody was promised.
pub fn promised_frames_are_not_promised_again()
    ensures { Breaks (with_calls PromisesAnyFrame) (small 1 2) 1 any_promise_run FreeFramesSuffice }
{}

/// A map has to ask the quota.
pub fn the_quota_is_asked()
    ensures { Breaks (with_calls AsksNoQuota) (bounded 1 2 1) 2 quota_run QuotaSuffices }
{}

/// A resize has to leave reserved frames.
pub fn reserved_frames_are_not_retired()
    ensures { Breaks (with_resizes RetiresReserved) (small 1 2) 2 resize_reserved_run FreeFramesSuffice }
{}

/// A resize has to leave frames in hands.
pub fn frames_in_hands_are_not_retired()
    ensures { Breaks (with_resizes RetiresHands) (small 1 1) 2 resize_hand_run FramesAreInOnePlace }
{}

/// A truncation has to visit the slots of indices without a page.
pub fn bare_indices_are_visited()
    ensures { Miscounts (with_calls VisitsPagesOnly) (small 2 1) 1 pages_only_run 0 1 }
{}

/// Where a truncation passes an index without a page, its settling can want more than the count is.
pub fn the_count_stays_above_zero()
    ensures { Breaks (with_calls VisitsPagesOnly) (small 2 1) 1 short_run NeverShort }
{}

/// A truncation has to sweep pages above the size too.
pub fn pages_above_the_size_are_swept()
    ensures { Miscounts (with_calls SweepsFromSize) (small 1 2) 2 low_top_run 0 1 }
{}

/// A touch has to look at the size once it has the slot.
pub fn the_size_is_looked_at_under_the_slot()
    ensures { Miscounts (with_calls LooksNoMore) (small 2 1) 2 late_touch_run 0 1 }
{}

/// A truncation has to set the size before it sweeps.
pub fn the_size_is_set_first()
    ensures { Miscounts (with_calls SizesLast) (small 2 1) 2 late_touch_run 0 1 }
{}

/// A truncation has to hold its file lock to the end: else a translation lies beyond the size of an unlocked file.
pub fn the_lock_is_held()
    ensures { Breaks (with_calls UnlocksEarly) (small 1 1) 1 unlock_run IsBelow }
{}

/// A truncation that leaves its file lock early leaves a wrong count.
pub fn the_lock_is_held_for_the_count()
    ensures { Miscounts (with_calls UnlocksEarly) (small 2 1) 1 unlock_count_run 0 1 }
{}

/// A map has to wait for the file lock.
pub fn a_map_waits_for_the_lock()
    ensures { Miscounts (with_calls BreaksLock) (small 2 1) 1 lock_run 0 1 }
{}

/// A punch has to wait for the file lock.
pub fn a_punch_waits_for_the_lock()
    ensures { Miscounts (with_calls PunchBreaksLock) (small 2 1) 1 punch_lock_run 0 1 }
{}

/// A truncation has to wait for the file lock.
pub fn a_truncation_waits_for_the_lock()
    ensures { Miscounts (with_calls TruncateBreaksLock) (small 2 1) 1 truncate_lock_run 0 1 }
{}

/// A touch has to wait for its slot: else it translates a page that a punch takes away.
pub fn a_touch_waits_for_its_slot()
    ensures { Breaks (with_calls TouchBreaksSlot) (small 2 1) 1 touch_slot_run Agrees }
{}

/// A punch has to wait for its slot: else it takes the page away that a touch translates.
pub fn a_punch_waits_for_its_slot()
    ensures { Breaks (with_calls PunchBreaksSlot) (small 2 1) 1 punch_slot_run Agrees }
{}

/// A truncation has to wait for its slots: else it passes a touch that is about to place its page.
pub fn a_truncation_waits_for_its_slots()
    ensures { Miscounts (with_calls TruncateBreaksSlot) (small 2 1) 1 truncate_slot_run 0 1 }
{}

/// A punch has to clear all tasks' entries of the page before it goes.
pub fn entries_of_all_tasks_are_cleared()
    ensures { Breaks (with_calls PunchesEarly) (small 2 1) 1 punch_early_run Agrees }
{}

/// A truncation has to clear all tasks' entries of the page before it goes.
pub fn pages_are_unmapped_before_they_go()
    ensures { Breaks (with_calls TruncatesEarly) (small 2 1) 1 truncate_early_run Agrees }
{}

/// A punch that splits a region has to leave the spare descriptors of pending changes alone.
pub fn promised_spares_are_left_alone()
    ensures { Lacks (with_calls TakesAnySpare) (two_slots 2 5) 4 split_run 2 }
{}

/// A change has to have a spare descriptor of its own.
pub fn each_change_has_its_own_spare()
    ensures { Lacks (with_calls SharesSpare) (small 2 3) 2 shared_spare_run 1 }
{}

/// A map that notices a kill has to take its change back.
pub fn a_killed_map_takes_its_change_back()
    ensures { Strands (with_calls DropsChange) (small 1 1) 1 drop_run 0 1 }
{}
