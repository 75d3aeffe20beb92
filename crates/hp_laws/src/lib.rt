//! The theorems of the machine, each the contract of a public function with an empty body.
//!
//! It stands on the machine's rows (hp_machine) and on the words that these are written in (hp_base, hp_frames,
//! hp_region): what is proved here holds after every list of events by any number of tasks, with kills,
//! resizes of the pool and refused memory anywhere. It knows no code; the crates above prove that their steps
//! are the machine's rows, and have these theorems then.
#![tactic(auto)]

ghost use Rattle.std.specs.Prelude.{◌≡◌, ◌≢◌, ◌↔◌, ◌≤◌, ◌<◌, ℕ, Bool, true, false, Some, List, ◌∷◌, ◌++◌, length};
ghost use Rattle.hp_base.specs.Mappings.{find};
ghost use Rattle.hp_frames.specs.declared.frame.FrameState.TheVariants.{Free};
ghost use Rattle.hp_base.specs.declared.answer.Answer.{Answer};
ghost use Rattle.hp_base.specs.declared.answer.Answer.TheVariants.{Done, Word};
ghost use Rattle.hp_base.specs.declared.event.Op.{Op};
ghost use Rattle.hp_base.specs.declared.event.Event.{Event};
ghost use Rattle.hp_base.specs.declared.event.Event.TheVariants.{Begin, Step, Resize};
ghost use Rattle.hp_machine.specs.State.{Geometry, State, actives, pool_of, is_dead, is_killed};
ghost use Rattle.hp_machine.specs.Events.{IsReached, IsReachedFrom, Row, Run, first, opening, word_of};
ghost use Rattle.hp_machine.specs.Headline.{Headline};
ghost use Rattle.hp_machine.specs.Resizes.{is_size};
ghost use Rattle.hp_machine.specs.Wants.{Wants};
ghost use Rattle.hp_machine.specs.Views.{slot_held, locked_file};
ghost use Rattle.hp_machine.specs.declared.call.Call.{Call};
ghost use Rattle.hp_machine.specs.declared.call.Call.TheVariants as call;
ghost use Rattle.hp_machine.specs.declared.outcome.Outcome.{Outcome};
ghost use Rattle.hp_machine.specs.declared.outcome.Outcome.TheVariants.{Begun, Moved, Blocked, Ended};
ghost use Rattle.hp_machine.specs.declared.outcome.Life.TheVariants.{Alive};
ghost use Rattle.hp_machine.specs.declared.phase.Phase.{Phase};
ghost use Rattle.hp_machine.specs.declared.phase.Phase.TheVariants as word;
ghost use Rattle.hp_machine.specs.declared.alloc.AllocPhase.TheVariants as alloc;
ghost use Rattle.hp_machine.specs.declared.alloc.Changed as alloc_changed;
ghost use Rattle.hp_machine.specs.declared.alloc.Unslot.{Unslot};
ghost use Rattle.hp_machine.specs.declared.touch.Changed as touch_changed;
ghost use Rattle.hp_machine.specs.declared.touch.Look.{Look};
ghost use Rattle.hp_machine.specs.declared.touch.Missing.{Missing};
ghost use Rattle.hp_machine.specs.declared.touch.TouchPhase.TheVariants as touch;
ghost use Rattle.hp_machine.specs.declared.truncate.TruncatePhase.{TruncatePhase};
ghost use Rattle.hp_machine.specs.declared.truncate.TruncatePhase.TheVariants as truncate;
ghost use Rattle.hp_machine.specs.declared.truncate.Evict.{Evict};
ghost use Rattle.hp_machine.specs.declared.truncate.Tail.{Tail};
ghost use Rattle.hp_laws.specs.Sweep.{gone};
ghost use Rattle.hp_base.specs.Indices.{count_within};
ghost use Rattle.hp_laws.specs.HistoryLaws.{HasHistory, FewOwnSteps, KeepsPromises, PromisedNeverLacks, PromisedIsServed};
ghost use Rattle.hp_laws.specs.HistoryLaws.{LoadsTellLastWords, LoadsEndWithLastWords};
ghost use Rattle.hp_laws.specs.Laws.{NeverShort, HasNoDeadEnd, LosesUnderLock, MovesTellPhases, TouchTakes, AllocTakes};
ghost use Rattle.hp_laws.specs.Laws.{TouchNeverLacks, AllocNeverLacks, TruncationCuts, EvictedStays, EvictsFew, BlockedByHolders};
ghost use Rattle.hp_laws.specs.Laws.{SlotHoldersGoOn, LockHoldersWaitForSlots, SomeCallGoesOn};
ghost use Rattle.hp_laws.specs.Laws.{StepsRunOut, OthersStay, BeginsBegin, CallsStep, CallersLive};
ghost use Rattle.hp_laws.specs.Histories.{Moment, History, in_order};
ghost use Rattle.hp_laws.specs.Unreached.{AllocAddsAll, AllocNeverSettles};
ghost use Rattle.hp_laws.specs.Protocol.{ChangesAreCalls, SparesSuffice, PagesAreReserved, LiesWithin, HandsApart, KeepsItsFrames, BareWhereMade};
ghost use Rattle.hp_laws.specs.Protocol.{GoesUnderLock, PassedIsBare, truncation_of, IsCut, IsAtRest, HoldsNothing};

/// After every list of events by any number of tasks, with kills and refused memory anywhere:
/// translations of one file index name one frame, no frame is free and in use or in two places, no
/// translation lies beyond the size of an unlocked file, and the reserve count is the number of
/// reserved indices without a page plus what calls in flight owe, hence exactly that number when
/// no call owes anything. The used count is the number of reserved indices plus what calls in flight
/// owe to it, and at most the quota.
pub fn headline()
    ensures { (s : State) → IsReached s → Headline s }
{}

/// Whenever a call is about to lower the reserve count or the used count, the count is at least what it takes.
pub fn never_short()
    ensures { (s : State) → IsReached s → NeverShort s }
{}

/// The pending changes of a file's map are the calls that stand at changed, abort, taken or
/// accounted on it.
pub fn pending_changes_are_calls()
    ensures { (s : State) → IsReached s → ChangesAreCalls s }
{}

/// A file's map has a spare descriptor for each pending change.
pub fn each_change_has_a_spare()
    ensures { (s : State) → IsReached s → SparesSuffice s }
{}

/// An index that has a page is reserved.
pub fn pages_are_reserved()
    ensures { (s : State) → IsReached s → PagesAreReserved s }
{}

/// What is reserved or has a page lies below the limit of a file that is there, so a count up to the limit over the
/// pool's files is the whole count.
pub fn nothing_lies_beyond_the_limits()
    ensures { (s : State) → IsReached s → LiesWithin s }
{}

/// Only a resize brings frames in or retires some: each other event leaves the pool the frames that it has.
pub fn calls_leave_the_pool_its_frames()
    ensures { (s : State) (event : Event) (outcome : Outcome) (after : State) → IsReached s → Row s event outcome after
        → ((frames : ℕ) → event ≢ Resize frames) → KeepsItsFrames (pool_of s) (pool_of after) }
{}

/// A pool that opens with 1 to 4,096 frames has 1 to 4,096 at every moment, whatever resizes come, and no
/// number of a frame, retired or not, is above these.
pub fn frames_stay_within_limits()
    ensures { (frames : ℕ) (s : State) → IsReachedFrom frames s → is_size frames ≡ true
        → (is_size (actives (pool_of s)) ≡ true) × (s.frames ≤ 4096) }
{}

/// Two calls that hold a frame stand at different indices.
pub fn hands_are_apart()
    ensures { (s : State) → IsReached s → HandsApart s }
{}

/// Where no call is in flight nothing is held: no map is being changed, no frame is in a hand, no slot and no lock is
/// taken.
pub fn a_pool_at_rest_holds_nothing()
    ensures { (s : State) → IsReached s → IsAtRest s → HoldsNothing s }
{}

/// Where a call makes a page there is none yet.
pub fn pages_are_made_where_none_is()
    ensures { (s : State) → IsReached s → BareWhereMade s }
{}

/// An index that a truncation has passed has no page, and no other call works there.
pub fn passed_indices_stay_bare()
    ensures { (s : State) → IsReached s → PassedIsBare s }
{}

/// Each event has an outcome, and leads to a state.
pub fn no_dead_ends()
    ensures { (s : State) → IsReached s → HasNoDeadEnd s }
{}

/// A reserved index goes only at a delete or a tail, under the file lock, and never one on which
/// another call counts.
pub fn reservations_go_under_the_lock()
    ensures { (s : State) → IsReached s → LosesUnderLock s }
{}

/// An outcome that moved a call tells the word of the phase at which the call stands then.
pub fn a_move_tells_its_phase()
    ensures { (s : State) → IsReached s → MovesTellPhases s }
{}

/// Of one call, from its begin on, the steps that moved or ended it are at most so many. Of a truncation that has set
/// the size the top counts, where its sweep began.
pub fn own_steps_are_few()
    ensures { (s : State) → FewOwnSteps s }
{}

/// Each step that moves or ends a call leaves it a step fewer at least, and every other call as many. So whoever
/// makes such steps comes to an end, whatever the calls are.
pub fn steps_run_out()
    ensures { (s : State) → IsReached s → StepsRunOut s }
{}

/// An event of one task leaves the calls and the lives of the others as they were; a resize leaves all of them.
pub fn others_stay()
    ensures { (s : State) → OthersStay s }
{}

/// Whoever has a call in flight is a task that is there and isn't dead.
pub fn callers_live()
    ensures { (s : State) → IsReached s → CallersLive s }
{}

/// A begin is begun, and the call stands where its operation begins, or it is refused and changes nothing.
pub fn a_begin_begins_or_is_refused()
    ensures { (s : State) → BeginsBegin s }
{}

/// A step of a call in flight is never refused: the call goes on, or waits, and nothing changes, or it has ended and is in
/// flight no more.
pub fn a_call_in_flight_makes_its_step()
    ensures { (s : State) → IsReached s → CallsStep s }
{}

/// A step is blocked only by another task, whose call in flight holds the slot or the file lock
/// that the step would take, and it changes nothing.
pub fn a_blocked_step_waits_for_a_holder()
    ensures { (s : State) → IsReached s → BlockedByHolders s }
{}

/// A denied step does what a granted one does, where its row wants no growth. Where it wants growth,
/// the two never leave the call at the same place.
pub fn a_denial_shows_where_growth_is_wanted()
    ensures unwanted { (s : State) (t : ℕ) (c : Call) (o : Outcome) (after : State) → s.calls t ≡ Some c → ¬ Wants (pool_of s) t c
        → Row s (Step t false) o after ↔ Row s (Step t true) o after }
    ensures wanted { (s : State) (t : ℕ) (c : Call) (denied granted : Outcome) (after other : State)
        → s.calls t ≡ Some c → is_dead (s.life t) ≡ false → Wants (pool_of s) t c
        → Row s (Step t false) denied after → Row s (Step t true) granted other → after.calls t ≢ other.calls t }
{}

/// A call that holds a slot is never blocked.
pub fn a_slot_holder_is_never_blocked()
    ensures { (s : State) → IsReached s → SlotHoldersGoOn s }
{}

/// A call that holds a file lock is blocked only by a call that holds a slot.
pub fn a_lock_holder_waits_for_slots_alone()
    ensures { (s : State) → IsReached s → LockHoldersWaitForSlots s }
{}

/// Where a call is in flight, the next step of some call in flight isn't blocked, and its task
/// isn't dead.
pub fn some_call_is_not_blocked()
    ensures { (s : State) → IsReached s → SomeCallGoesOn s }
{}

/// Where a truncation ends with Done, nothing of its file at or above the new size is translated,
/// cached or reserved.
pub fn a_truncation_leaves_nothing_above()
    ensures { (s : State) → IsReached s → TruncationCuts s }
{}

/// An index from which a truncation takes the page stays reserved until the truncation takes its tail out of the
/// reserve map: so the page's reservation is counted once, there.
pub fn an_evicted_index_stays_reserved()
    ensures { (s : State) → IsReached s → EvictedStays s }
{}

/// A truncation evicted no more pages than its tail takes indices out: what is settled is the one minus the other, with
/// nothing cut off.
pub fn a_truncation_evicts_no_more_than_it_removes()
    ensures { (s : State) → IsReached s → EvictsFew s }
{}

/// An allocation adds all that its change found missing to the reserve map, so no run takes it to settle: it holds its
/// file's lock and the slot of its index, and whoever adds an index holds one of the two.
pub fn an_alloc_never_settles()
    ensures adds { (s : State) → IsReached s → AllocAddsAll s }
    ensures settles { (s : State) → IsReached s → AllocNeverSettles s }
{}

/// What a map has promised is reserved and below the size, until a punch or a truncation takes it
/// back.
pub fn what_is_promised_is_reserved()
    ensures { (s : State) → KeepsPromises s }
{}

/// A touch whose change found nothing missing takes a frame, unless a kill is noticed there.
pub fn a_touch_that_misses_nothing_takes_a_frame()
    ensures { (s : State) → IsReached s → TouchTakes s }
{}

/// An allocation whose change found nothing missing takes a frame, unless a kill is noticed there.
pub fn an_alloc_that_misses_nothing_takes_a_frame()
    ensures { (s : State) → IsReached s → AllocTakes s }
{}

/// A touch whose change found nothing missing never answers that there is no frame, nor that the quota
/// is used up, whatever comes between.
pub fn a_touch_that_misses_nothing_never_lacks_a_frame()
    ensures { (s : State) → IsReached s → TouchNeverLacks s }
{}

/// An allocation whose change found nothing missing at an index doesn't leave that index for want
/// of a frame or of quota, whatever comes between.
pub fn an_alloc_that_misses_nothing_never_lacks_a_frame()
    ensures { (s : State) → IsReached s → AllocNeverLacks s }
{}

/// A touch whose index is promised where it asks what is missing never answers that there is no
/// frame, nor that the quota is used up.
pub fn a_promised_touch_never_lacks_a_frame()
    ensures { (s : State) → PromisedNeverLacks s }
{}

/// A load or store of a mapped page, whose index is promised from its begin to its end, with no
/// step denied and its task not killed, answers with the word or done.
pub fn a_promised_touch_is_served()
    ensures { (s : State) → PromisedIsServed s }
{}

/// Each run has its history: its events with the states around them.
pub fn a_run_has_its_history()
    ensures { (g : Geometry) (frames : ℕ) (events : List (Event × Outcome)) (s : State)
        → Run (opening g frames) events s → (moments : List Moment) × History g frames moments s × (in_order moments ≡ events) }
{}

/// So each reached state has a history.
pub fn a_reached_state_has_a_history()
    ensures { (frames : ℕ) (s : State) → IsReachedFrom frames s → HasHistory frames s }
{}

/// A load tells the last word of its page at the step that reads it: that of the last store that
/// wrote there since the page was placed, else 0. No other word is the last one.
pub fn a_load_tells_the_last_word()
    ensures { (s : State) → LoadsTellLastWords s }
{}

/// The word with which a load ends is the last word of its page at the step that read it, a step of the same call.
pub fn a_load_ends_with_the_last_word()
    ensures { (s : State) → LoadsEndWithLastWords s }
{}
