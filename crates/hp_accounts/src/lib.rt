//! What any code of a pool of huge pages keeps that goes by slots, and books what it does: whatever its calls look like, in whatever order.
//!
//! It stands on the machine's words (hp_machine), and on what hp_laws knows of frames that go from place to place. Code is read as a list
//! of entries in the pool's books: a slot that is taken, a page that is placed, a count that is raised. `specs/Entries.antt` says what each
//! wants, and what it leaves; nothing says in which order they come. It knows no phases, no rows and no code.
#![tactic(auto)]

ghost use Rattle.std.specs.Prelude.{◌≡◌, ◌+◌, ℕ, List};
ghost use Rattle.hp_machine.specs.State.{Geometry};
ghost use Rattle.hp_accounts.specs.Books.{opens, paged_in, reserved_in};
ghost use Rattle.hp_accounts.specs.Entries.{AllMay, Entry, ends, ignored_in};
ghost use Rattle.hp_accounts.specs.Laws.{Agrees, AllCareful, Always, Balances, FramesAreInOnePlace, IsAtRest, PagesAreReserved, vacant_in};

/// Translations of one index name one frame.
pub fn translations_agree()
    ensures { Always (λ b es. Agrees b) }
{}

/// No frame is in two places.
pub fn frames_are_in_one_place()
    ensures { Always (λ b es. FramesAreInOnePlace b) }
{}

/// The books balance: what was ignored is missing in the count, and nothing else.
pub fn the_books_balance()
    ensures { Always (λ b es. Balances b (ignored_in es)) }
{}

/// At rest the count is the reserved indices less the pages, less what was ever ignored: it is only lost, and never leaked.
pub fn a_count_is_only_lost()
    ensures { Always (λ b es. IsAtRest b → b.count + paged_in b + ignored_in es ≡ reserved_in b + b.debt) }
{}

/// Careful code keeps each page's index in its file's map.
pub fn pages_stay_reserved()
    ensures { (g : Geometry) (frames : ℕ) (es : List Entry) → AllMay (opens g frames) es → AllCareful (opens g frames) es
        → PagesAreReserved (ends (opens g frames) es) }
{}

/// If it ignores nothing, either, the count at rest is how many indices wait for their page.
pub fn a_careful_count_is_right()
    ensures { (g : Geometry) (frames : ℕ) (es : List Entry) → AllMay (opens g frames) es → AllCareful (opens g frames) es → ignored_in es ≡ 0
        → IsAtRest (ends (opens g frames) es)
        → ((ends (opens g frames) es).count ≡ vacant_in (ends (opens g frames) es)) × ((ends (opens g frames) es).debt ≡ 0) }
{}
