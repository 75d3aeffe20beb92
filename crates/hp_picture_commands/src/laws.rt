//! Laws of states as text, each said by the contract of a function that does nothing.
ghost use Rattle.std.specs.Prelude.{◌≡◌, Bool, List, Ok, Option, Some, [], true, ℕ};
ghost use Rattle.std.specs.Io.KnownBytes.{Appends};
ghost use Rattle.hp_agree.specs.Listed.{IsListed};
ghost use Rattle.hp_audit.specs.declared.picture.Picture.{Picture};
ghost use Rattle.hp_core.specs.Pictures.{IsPicture};
ghost use Rattle.hp_core.specs.State.{CoreState};
ghost use Rattle.hp_judge.specs.Findings.{IsFinding};
ghost use Rattle.hp_judge.specs.Text.{findings_text};
ghost use Rattle.hp_judge.specs.declared.finding.Finding.{Finding};
ghost use Rattle.hp_picture.specs.Pictures.{PlacesState, picture_of};
ghost use Rattle.hp_picture.specs.declared.picture.Counts.{Counts};
ghost use Rattle.hp_picture_commands.specs.Auditing.{Audits};
ghost use Rattle.hp_picture_commands.specs.States.{IsStateText};

/// A core's picture lists the regions and pages of each file in order, as a text of lines has to.
pub fn a_cores_picture_is_listed()
    ensures { (core : CoreState) (picture : Picture) → IsPicture core picture → IsListed picture }
{}

/// In what the text of a core's state is read as, nothing is found wrong.
pub fn a_state_has_no_finding()
    ensures { (core : CoreState) (text : List ℕ) (counts : Counts) (places : PlacesState) (finding : Finding) → IsStateText core text
        → picture_of text ≡ Ok (counts, places) → ¬ IsFinding counts places finding }
{}

/// So an audit of that text says that nothing is wrong, and writes the text of no finding.
pub fn a_state_passes_the_audit()
    ensures right { (core : CoreState) (text : List ℕ) (right : Bool) (to before after : Option (List ℕ)) → IsStateText core text
        → Audits right (Some text) to before after → right ≡ true }
    ensures wrote { (core : CoreState) (text : List ℕ) (right : Bool) (to before after : Option (List ℕ)) → IsStateText core text
        → Audits right (Some text) to before after → Appends before after (findings_text []) }
{}
