//! What is proved of colours.
ghost use Rattle.std.specs.Prelude.{◌≡◌, ◌≢◌, ◌≤◌, ◌++◌, ◌∷◌, [], ℕ, List, All, true, false, length};
ghost use Rattle.hp_paint.specs.Painting.{Open, Short, closed, held, in_word, open_behind, painted, unpainted};
ghost use Rattle.hp_paint.specs.Palettes.{shown};
ghost use Rattle.hp_paint.specs.declared.palette.Palette.{Palette};

/// Without the sequences of colours, what is written is the text, unless that has a byte 27 itself.
pub fn colours_add_nothing_else()
    ensures { (p : Palette) (o : Open) (text : List ℕ) → All (λ b. b ≢ 27) (held o) → All (λ b. b ≢ 27) text
        → unpainted (painted p o text ++ closed p (open_behind o text)) ≡ held o ++ text }
{}

/// It doesn't matter how a text is cut into pieces.
pub fn pieces_make_no_difference()
    ensures text { (p : Palette) (o : Open) (xs ys : List ℕ) → painted p o (xs ++ ys) ≡ painted p o xs ++ painted p (open_behind o xs) ys }
    ensures held { (o : Open) (xs ys : List ℕ) → open_behind o (xs ++ ys) ≡ open_behind (open_behind o xs) ys }
{}

/// A whole word, behind which another byte stands, is shown in its colour.
pub fn whole_words_have_their_colours()
    ensures { (p : Palette) (word : List ℕ) (b : ℕ) (rest : List ℕ) → All (λ x. in_word x ≡ true) word → length word ≤ 11
        → in_word b ≡ false → painted p (Short []) (word ++ b ∷ rest) ≡ shown p word ++ b ∷ painted p (Short []) rest }
{}
