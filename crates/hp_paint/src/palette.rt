//! The words that are coloured, and their colours.
ghost use Rattle.std.specs.Prelude.{◌≡◌, bytes_eq, map};
ghost use Rattle.std.specs.List.{list_any};
ghost use Rattle.hp_paint.specs.Palettes.{colour_of, is_among, sequence, words};

/// Whose words are coloured.
#[derive(Clone, Copy, Debug, PartialEq, Eq)]
pub enum Palette {
    /// Those of outcomes and waits.
    Outcomes,
    /// Those that say how a run of a script ended.
    Runs,
    /// Those that say how a race ended.
    Races,
    /// That of a workload that went wrong.
    Work,
}

/// The colour of a word.
#[derive(Clone, Copy, Debug, PartialEq, Eq)]
pub enum Colour {
    /// Of a failure.
    Red,
    /// Of a wait.
    Yellow,
}

/// What ends a colour.
pub(crate) const PLAIN: &[u8] = b"\x1b[0m";

/// What begins a colour.
pub(crate) fn sequence(colour: Colour) -> &'static [u8]
    ensures { result.now ≡ sequence colour }
{
    match colour {
        Colour::Red => b"\x1b[31m",
        Colour::Yellow => b"\x1b[33m",
    }
}

/// The words of a colour.
fn words(palette: Palette, colour: Colour) -> &'static [&'static str]
    ensures { map (λ word. word.now) result.now ≡ words palette colour }
{
    match (palette, colour) {
        (Palette::Outcomes, Colour::Red) => &[
            "segv",
            "beyond",
            "noframe",
            "noquota",
            "nomemory",
            "interrupted",
            "killed",
            "badfile",
            "badrange",
            "notmapped",
            "noaddress",
            "refused",
            "notalive",
            "incall",
            "idle",
            "badsize",
        ],
        (Palette::Outcomes, Colour::Yellow) => &["blocked", "waits"],
        (Palette::Runs, Colour::Red) => &[
            "limit", "stuck", "shape", "agree", "place", "size", "count", "used",
        ],
        (Palette::Races, Colour::Red) => &["disagree", "astray", "late"],
        (Palette::Work, Colour::Red) => &["bad"],
        (Palette::Runs | Palette::Races | Palette::Work, Colour::Yellow) => &[],
    }
}

// Whether a word is one of those.
fn is_among(word: &[u8], words: &[&str]) -> bool
    ensures { result ≡ list_any (λ other. bytes_eq other.now word.now) words.now }
{
    words.iter().any(|other| other.as_bytes() == word)
}

// Whether a word has that colour.
fn has_colour(palette: Palette, colour: Colour, word: &[u8]) -> bool
    ensures { result ≡ is_among word.now (words palette colour) }
{
    is_among(word, words(palette, colour))
}

/// The colour of a word, if it has one.
pub(crate) fn colour_of(palette: Palette, word: &[u8]) -> Option<Colour>
    ensures { result ≡ colour_of palette word.now }
{
    if has_colour(palette, Colour::Red, word) {
        Some(Colour::Red)
    } else if has_colour(palette, Colour::Yellow, word) {
        Some(Colour::Yellow)
    } else {
        None
    }
}
