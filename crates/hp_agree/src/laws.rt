//! Laws of the two audits, each said by the contract of a function that does nothing.
ghost use Rattle.std.specs.Prelude.{◌↔◌, ◌≤◌, ◌⊎◌, ℕ};
ghost use Rattle.hp_audit.specs.Findings.{Agrees, IsBelow, IsCounted, IsOnePlace, IsRight, IsShaped, IsUsedCounted, place_count};
ghost use Rattle.hp_audit.specs.declared.picture.Picture.{Picture};
ghost use Rattle.hp_judge.specs.declared.finding.Clause.TheVariants as Clause;
ghost use Rattle.hp_judge.specs.declared.finding.Finding.TheVariants as Finding;
ghost use Rattle.hp_agree.specs.Agreement.{Finds, FindsCount, FindsLine, FindsNothing, FindsPlace, FindsUsed};
ghost use Rattle.hp_agree.specs.Listed.{IsInLimit, IsListed};

/// The audits agree. Of a picture whose files are listed in order, hp_audit finds nothing wrong exactly where all indices lie below the
/// limit and hp_judge finds nothing. So that order, and indices above the limit, are all that the two see differently.
pub fn the_audits_agree()
    ensures listed { (p : Picture) → IsListed p → IsRight p ↔ (IsInLimit p × FindsNothing p) }
    ensures in_limit { (p : Picture) → IsInLimit p → FindsNothing p ↔ (IsRight p × IsListed p) }
{}

/// Kind by kind, what one finds wrong the other does; and a line of a region or a page is wrong exactly where the order is.
pub fn they_find_the_same()
    ensures order { (p : Picture) → IsInLimit p → (¬ IsListed p) ↔ (FindsLine p Clause.Region ⊎ FindsLine p Clause.Page) }
    ensures shape { (p : Picture) → IsListed p → IsInLimit p → (¬ IsShaped p) ↔ FindsLine p Clause.File }
    ensures agree { (p : Picture) → (¬ Agrees p) ↔ FindsLine p Clause.Agree }
    ensures frame { (p : Picture) (x : ℕ) → (2 ≤ place_count p x) ↔ Finds p (Finding.Place x) }
    ensures place { (p : Picture) → (¬ IsOnePlace p) ↔ FindsPlace p }
    ensures size { (p : Picture) → (¬ IsBelow p) ↔ FindsLine p Clause.Size }
    ensures count { (p : Picture) → IsListed p → IsInLimit p → (¬ IsCounted p) ↔ FindsCount p }
    ensures used { (p : Picture) → IsListed p → IsInLimit p → (¬ IsUsedCounted p) ↔ FindsUsed p }
{}
