//! The few shapes that a picture is made of, as elements of SVG.
ghost use Rattle.std.specs.Prelude.{◌≡◌, ◌++◌, OnOk, string_bytes};
ghost use Rattle.std.specs.Fmt.{decimal};
ghost use Rattle.hp_draw.specs.Shapes.{box_text, words_text, upright_text, line_text};

use std::alloc::AllocError;

/// Where a box stands, and how large it is.
#[derive(Clone, Copy)]
pub(crate) struct Place {
    pub(crate) x: u64,
    pub(crate) y: u64,
    pub(crate) width: u64,
    pub(crate) height: u64,
}

/// Appends a box.
#[tactic(auto, unfolding(crate::specs::Shapes::box_text))]
pub(crate) fn push_box(class: &str, place: Place, text: &mut String) -> Result<(), AllocError>
    ensures { OnOk result (string_bytes text.new ≡ string_bytes text.old ++ box_text class.now place) }
{
    let Place {
        x,
        y,
        width,
        height,
    } = place;
    writeln!(
        text,
        "<rect class='{class}' x='{x}' y='{y}' width='{width}' height='{height}'/>"
    )
}

/// Appends words that begin there.
#[tactic(auto, unfolding(crate::specs::Shapes::words_text))]
pub(crate) fn push_words(
    class: &str,
    x: u64,
    y: u64,
    words: &str,
    text: &mut String,
) -> Result<(), AllocError>
    ensures { OnOk result (string_bytes text.new ≡ string_bytes text.old ++ words_text class.now x y words.now) }
{
    writeln!(text, "<text class='{class}' x='{x}' y='{y}'>{words}</text>")
}

/// Appends a number as words. `word` is where it is laid out.
pub(crate) fn push_count(
    class: &str,
    x: u64,
    y: u64,
    count: u64,
    word: &mut String,
    text: &mut String,
) -> Result<(), AllocError>
    ensures { OnOk result (string_bytes text.new ≡ string_bytes text.old ++ words_text class.now x y (decimal count)) }
{
    word.clear();
    write!(word, "{count}")?;
    push_words(class, x, y, word.as_str(), text)
}

/// Appends words that stand upright there.
#[tactic(auto, unfolding(crate::specs::Shapes::upright_text))]
pub(crate) fn push_upright(
    class: &str,
    x: u64,
    y: u64,
    words: &str,
    text: &mut String,
) -> Result<(), AllocError>
    ensures { OnOk result (string_bytes text.new ≡ string_bytes text.old ++ upright_text class.now x y words.now) }
{
    writeln!(
        text,
        "<text class='{class}' transform='translate({x} {y})rotate(-90)'>{words}</text>"
    )
}

/// Appends a line from one height to another.
#[tactic(auto, unfolding(crate::specs::Shapes::line_text))]
pub(crate) fn push_line(
    class: &str,
    x: u64,
    from: u64,
    to: u64,
    text: &mut String,
) -> Result<(), AllocError>
    ensures { OnOk result (string_bytes text.new ≡ string_bytes text.old ++ line_text class.now x from to) }
{
    writeln!(text, "<path class='{class}' d='M{x} {from}V{to}'/>")
}
