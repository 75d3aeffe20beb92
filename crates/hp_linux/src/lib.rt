//! Runs of the machine with rows of Linux's: how a kernel was recorded to lose its reserve count, and what comes of it.
//!
//! It stands on the machine (hp_machine), some of whose rows it replaces, and on the search for runs of hp_counterexamples.
//! Each function is a theorem: by these rows this list of events goes on to its end, and ends so. Three recordings are followed line by
//! line: `specs/Lines.antt` is written from them, and the counts behind each line are the kernel's. `docs/LINUX.md` tells the recordings
//! and the rules, by their letters. It says nothing of what any run of these rules keeps, and knows no code.
#![tactic(auto)]

ghost use Rattle.hp_machine.specs.Headline.{IsBelow};
ghost use Rattle.hp_laws.specs.Laws.{NeverShort};
ghost use Rattle.hp_counterexamples.specs.Runs.{small, with_calls, Breaks, Miscounts};
ghost use Rattle.hp_counterexamples.specs.Cutting.{VisitsPagesOnly};
ghost use Rattle.hp_linux.specs.Rows.{BacksOut, FreesLate, LinuxRows, LooksForPagesFirst, PassesAndPlaces};
ghost use Rattle.hp_linux.specs.Whole.{Overdraws};
ghost use Rattle.hp_linux.specs.Following.{IsFollowed};
ghost use Rattle.hp_linux.specs.Lines.{back_out_lines, commit_lines, raise_lines};
ghost use Rattle.hp_linux.specs.Promises.{LeavesWaiting, TakesBack, FindsNoFrame};
ghost use Rattle.hp_linux.specs.Recordings.{above_the_size, lost_at_a_commit, lost_by_a_back_out, lost_by_a_refused_raise, short_at_a_take};
ghost use Rattle.hp_linux.specs.Recordings.{two_files, promise_lost, promise_made, promise_taken_back, promise_touched};

/// By S and T each line of the recording (a) leads to the counts that the kernel had behind it, down to -1.
pub fn a_lost_commit_is_followed()
    ensures { IsFollowed (with_calls PassesAndPlaces) (small 2 1) 1 commit_lines }
{}

/// By P, S, T, N and F each line of the recording (b) does, down to -1: a punched page's frame is left, and becomes free later.
pub fn a_lost_raise_is_followed()
    ensures { IsFollowed (with_calls FreesLate) (small 2 1) 1 raise_lines }
{}

/// By U each line of the recording (c) does.
pub fn a_lost_back_out_is_followed()
    ensures { IsFollowed (with_calls BacksOut) (small 2 1) 2 back_out_lines }
{}

/// By S and T, with a count that is a whole number, the events of (a) lead to rest at -1, where no index waits.
pub fn the_count_is_lost_at_a_commit()
    ensures { Overdraws (with_calls PassesAndPlaces) (small 2 1) 1 lost_at_a_commit 1 0 }
{}

/// So they do by P, S, T and N.
pub fn the_count_is_lost_at_a_commit_by_all_rows()
    ensures { Overdraws (with_calls LinuxRows) (small 2 1) 1 lost_at_a_commit 1 0 }
{}

/// By T alone the events of (a) lead to a touch that is to take a reserved frame, while none is counted.
pub fn a_reserved_take_falls_short()
    ensures { Breaks (with_calls VisitsPagesOnly) (small 2 1) 1 short_at_a_take NeverShort }
{}

/// By P, S, T and N the events of (b) lead to rest at -1, with no page and nothing reserved.
pub fn the_count_is_lost_by_a_refused_raise()
    ensures { Overdraws (with_calls LinuxRows) (small 2 1) 1 lost_by_a_refused_raise 1 0 }
{}

/// By U alone the events of (c) lead to rest at 0, while an index that a map was promised waits.
pub fn the_count_is_lost_by_a_back_out()
    ensures { Miscounts (with_calls BacksOut) (small 2 1) 2 lost_by_a_back_out 0 1 }
{}

/// By P, and S where a touch translates, a translation lies beyond the size of an unlocked file, though one task alone makes calls.
pub fn pages_above_the_size_are_translated()
    ensures { Breaks (with_calls LooksForPagesFirst) (small 1 1) 1 above_the_size IsBelow }
{}

/// By S and T a promise is broken: at rest no frame is free, and an index that a map was promised waits for one.
pub fn a_promise_is_broken()
    ensures { LeavesWaiting (with_calls PassesAndPlaces) (two_files 2 2) 2 promise_lost 0 1 }
{}

/// By U a promise is taken back: a map has answered with its index reserved, and then the index is neither reserved nor counted.
pub fn a_promise_is_taken_back()
    ensures { TakesBack (with_calls BacksOut) (two_files 2 1) 1 promise_made promise_taken_back 1 }
{}

/// So its task's touch finds no frame, once another call has taken the last one.
pub fn a_promised_touch_finds_no_frame()
    ensures { FindsNoFrame (with_calls BacksOut) (two_files 2 1) 1 promise_made promise_taken_back promise_touched 1 }
{}
