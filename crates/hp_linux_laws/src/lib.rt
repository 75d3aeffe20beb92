//! What no schedule breaks by rows that leave open Linux's rules B, D, F, N, P, S, T and U (`docs/LINUX.md`), and that repaired rows
//! keep the reserve count right.
//!
//! It stands on rows of Linux's (hp_linux) and on what any list of entries in a pool's books keeps (hp_accounts).
//! `specs/MayRows.antt` is a machine whose steps may be the right machine's or Linux's; `specs/RepairedRows.antt` the same with two
//! repairs. Each run of theirs is shown to be a list of entries, and so has the laws of such lists: for any number of frames, files and
//! tasks, and for any order of steps, kills, resizes, and frames that become free late. That a kernel's steps are these rows isn't
//! proved: recordings are replayed by rows in Python that are written beside these.
#![tactic(auto)]

ghost use Rattle.std.specs.Prelude.{◌↔◌};
ghost use Rattle.hp_machine.specs.Events.{CallRow};
ghost use Rattle.hp_machine.specs.Headline.{Headline, IsBelow};
ghost use Rattle.hp_machine.specs.State.{State};
ghost use Rattle.hp_laws.specs.Laws.{NeverShort};
ghost use Rattle.hp_laws.specs.Protocol as protocol;
ghost use Rattle.hp_laws.specs.Protocol.{BareWhereMade, ChangesAreCalls, HandsApart, PassedIsBare, SparesSuffice};
ghost use Rattle.hp_counterexamples.specs.Runs.{small, with_calls};
ghost use Rattle.hp_linux.specs.Recordings.{lost_by_a_back_out};
ghost use Rattle.hp_linux.specs.Rows.{BacksOut, FreesLate, LinuxRows, LooksForPagesFirst, PassesAndPlaces};
ghost use Rattle.hp_linux_laws.specs.MayRows.{MayRow};
ghost use Rattle.hp_linux_laws.specs.RepairedRows.{AccountedRow, RepairedRow};
ghost use Rattle.hp_linux_laws.specs.RepairedRaces.{EndsRight, raced_at_a_commit};
ghost use Rattle.hp_linux_laws.specs.RelaxedRows.{AllButBelow, IsKeptBy, LookingEitherWay, RelaxedRow};
ghost use Rattle.hp_linux_laws.specs.Laws.{Always, HaveTheMachinesRuns, RunsAreAmong, IsListed, IsListedCarefully, TranslationsAgree, FramesAreInOnePlace};
ghost use Rattle.hp_linux_laws.specs.Laws.{IsBalanced, IsBalancedAtRest, IsExact, IsNeverTooHigh, IsOnlyLost, IsRight, PagesAreReserved};

/// Each run of the machine is one of the rows that Linux may have.
pub fn the_machines_runs_are_among_them()
    ensures { RunsAreAmong CallRow MayRow }
{}

/// So is each from an opening pool by the machine's own word for a run, in which no count can go below zero: nothing is owed behind it.
pub fn runs_of_the_machine_are_among_them()
    ensures { HaveTheMachinesRuns MayRow }
{}

/// So is each by P, S, T and N.
pub fn runs_of_all_rows_are_among_them()
    ensures { RunsAreAmong LinuxRows MayRow }
{}

/// So is each by P, S, T, N and F, in which frames become free late.
pub fn runs_that_free_late_are_among_them()
    ensures { RunsAreAmong FreesLate MayRow }
{}

/// So is each by S and T.
pub fn runs_that_pass_and_place_are_among_them()
    ensures { RunsAreAmong PassesAndPlaces MayRow }
{}

/// So is each by U.
pub fn runs_that_back_out_are_among_them()
    ensures { RunsAreAmong BacksOut MayRow }
{}

/// So is each by P, and S where a touch translates.
pub fn runs_that_look_for_pages_first_are_among_them()
    ensures { RunsAreAmong LooksForPagesFirst MayRow }
{}

/// Each run is a list of entries in the books, which show the state behind it.
pub fn a_run_is_a_list_of_entries()
    ensures { Always MayRow IsListed }
{}

/// Translations of one index name one frame.
pub fn translations_agree_on_every_schedule()
    ensures { Always MayRow TranslationsAgree }
{}

/// No frame is in two places.
pub fn frames_are_in_one_place_on_every_schedule()
    ensures { Always MayRow FramesAreInOnePlace }
{}

/// The count with the pages is at most what is reserved, but for what the calls in flight owe.
pub fn a_count_is_never_too_high()
    ensures { Always MayRow IsNeverTooHigh }
{}

/// At rest it is at most the reserved indices less the pages: it may be lost, and is never leaked.
pub fn a_count_at_rest_is_only_lost()
    ensures { Always MayRow IsOnlyLost }
{}

/// Where each result is accounted the count with the pages is just what is reserved, but for what the calls in flight owe.
pub fn an_accounted_count_balances()
    ensures { Always AccountedRow IsBalanced }
{}

/// And at rest it is just that.
pub fn an_accounted_count_at_rest_balances()
    ensures { Always AccountedRow IsBalancedAtRest }
{}

/// Each run of repaired rows is a list of careful entries that ignore nothing.
pub fn a_repaired_run_is_careful()
    ensures { Always RepairedRow IsListedCarefully }
{}

/// Its translations agree, too.
pub fn repaired_translations_agree()
    ensures { Always RepairedRow TranslationsAgree }
{}

/// And its frames are in one place.
pub fn repaired_frames_are_in_one_place()
    ensures { Always RepairedRow FramesAreInOnePlace }
{}

/// A page's index stays in its file's map.
pub fn repaired_pages_stay_reserved()
    ensures { Always RepairedRow PagesAreReserved }
{}

/// The count is how many indices wait for their page, but for what the calls in flight owe.
pub fn a_repaired_count_is_exact()
    ensures { Always RepairedRow IsExact }
{}

/// At rest it is just that number, and not below zero.
pub fn a_repaired_count_at_rest_is_right()
    ensures { Always RepairedRow IsRight }
{}

/// The calls of a recorded loss, (a), have a run by repaired rows to rest, where the count is 0 and no index waits.
pub fn a_repaired_truncation_waits()
    ensures { EndsRight (with_calls RepairedRow) (small 2 1) 1 raced_at_a_commit 0 }
{}

/// The events of another, (c), have one to rest, where the count is 1 and one index waits for its page.
pub fn a_repaired_back_out_is_counted()
    ensures { EndsRight (with_calls RepairedRow) (small 2 1) 2 lost_by_a_back_out 1 }
{}

/// Where a touch doesn't look at the size as it places its page and as it translates it, and a punch passes any of its indices, the
/// machine keeps its headline.
pub fn relaxed_rows_keep_the_headline()
    ensures { IsKeptBy RelaxedRow Headline }
{}

/// Nor does a count ever lack what a call is about to take.
pub fn relaxed_rows_never_fall_short()
    ensures { IsKeptBy RelaxedRow NeverShort }
{}

/// Where it looks for its page first, too, and at the size only where there is none, the machine keeps its headline but for the clause
/// on translations beyond the size: with that one, these are the headline.
pub fn rows_that_look_for_pages_first_keep_the_rest()
    ensures kept { IsKeptBy LookingEitherWay AllButBelow }
    ensures rest { (s : State) → Headline s ↔ (AllButBelow s × IsBelow s) }
{}

/// Nor does a count ever lack what a call is about to take.
pub fn rows_that_look_for_pages_first_never_fall_short()
    ensures { IsKeptBy LookingEitherWay NeverShort }
{}

/// Nor do its calls lose what they stand on: each pending change is a call's and has a spare descriptor, a page's index is reserved,
/// frames in hands are for different indices, and a page is made, or a truncation has passed, only where there is none.
pub fn rows_that_look_for_pages_first_keep_what_calls_stand_on()
    ensures changes { IsKeptBy LookingEitherWay ChangesAreCalls }
    ensures spares { IsKeptBy LookingEitherWay SparesSuffice }
    ensures reserved { IsKeptBy LookingEitherWay protocol.PagesAreReserved }
    ensures apart { IsKeptBy LookingEitherWay HandsApart }
    ensures made { IsKeptBy LookingEitherWay BareWhereMade }
    ensures passed { IsKeptBy LookingEitherWay PassedIsBare }
{}
