//! What is proved of objects.
ghost use Rattle.std.specs.Prelude.{◌≡◌, ◌≢◌, ◌++◌, ◌∷◌, [], ℕ, List, All};
ghost use Rattle.hp_objects.specs.Objects.{Line, line_behind, objects, opening_line};
ghost use Rattle.hp_objects.specs.declared.places.Output.{Output};

/// It doesn't matter how a text is cut into pieces.
pub fn pieces_are_one_text()
    ensures text { (o : Output) (l : Line) (xs ys : List ℕ) → objects o l (xs ++ ys) ≡ objects o l xs ++ objects o (line_behind o l xs) ys }
    ensures line { (o : Output) (l : Line) (xs ys : List ℕ) → line_behind o l (xs ++ ys) ≡ line_behind o (line_behind o l xs) ys }
{}

/// Behind the end of a line nothing is left of it: the object of a line is its own.
pub fn each_line_is_an_object()
    ensures { (o : Output) (line rest : List ℕ) → objects o (opening_line o) (line ++ 10 ∷ rest)
        ≡ objects o (opening_line o) (line ++ 10 ∷ []) ++ objects o (opening_line o) rest }
{}
