//! A text is cut at a sign.
ghost use Rattle.std.specs.Prelude.{◌≡◌, ◌<◌, ◌∷◌, [], None, IfSome, length};
ghost use Rattle.std.specs.Option.{option_map};
ghost use Rattle.hp_conditions.specs.Pieces.{alternatives_of, split};

use hp_text::after_word;

/// What stands before the word's first place in the text, and what stands behind it.
pub(crate) fn split<'a>(word: &[u8], text: &'a [u8]) -> Option<(&'a [u8], &'a [u8])>
    ensures { option_map (λ s. (s.0.now, s.1.now)) result ≡ split word.now text.now }
{
    for place in 0..text.len() {
        if let Some(rest) = after_word(word, &text[place..]) {
            return Some((&text[..place], rest));
        }
    }
    None
}

/// The first alternative of a text, and the others, if there are any.
pub(crate) fn split_alternative(text: &[u8]) -> (&[u8], Option<&[u8]>)
    ensures one { result.1 ≡ None → alternatives_of text.now ≡ result.0.now ∷ [] }
    ensures more { IfSome result.1 (λ rest. alternatives_of text.now ≡ result.0.now ∷ alternatives_of rest.now) }
    ensures shorter { IfSome result.1 (λ rest. length rest.now < length text.now) }
{
    match split(b"|", text) {
        Some((first, rest)) => (first, Some(rest)),
        None => (text, None),
    }
}
