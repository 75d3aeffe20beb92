//! The lines of a text that people wrote.
ghost use Rattle.std.specs.Prelude.{◌≡◌, ◌<◌, ◌∷◌, [], None, IfSome, length};
ghost use Rattle.hp_format.specs.Lines.{AreFew, lines_in_all, unmarked};
ghost use Rattle.hp_text.specs.TextLines.{lines_of};

use hp_text::split_line;

/// What is left of a text, and how many lines came before.
#[derive(Drop)]
pub(crate) struct Lines<'a> {
    rest: &'a [u8],
    number: u64,
}

/// The text without a byte order mark at its front.
fn unmarked(text: &[u8]) -> &[u8]
    ensures { result.now ≡ unmarked text.now }
{
    if text.starts_with(b"\xEF\xBB\xBF") {
        &text[3..]
    } else {
        text
    }
}

impl<'a> Lines<'a> {
    /// The lines of a text.
    pub(crate) fn new(text: &'a [u8]) -> Lines<'a>
        ensures rest { result.rest.now ≡ unmarked text.now }
        ensures number { result.number ≡ 0 }
        ensures few { AreFew result.number result.rest.now }
    {
        Lines {
            rest: unmarked(text),
            number: 0,
        }
    }

    /// The number of the line that came last, counted from 1.
    pub(crate) fn number(&self) -> u64
        ensures { result ≡ self.now.number }
    {
        self.number
    }

    /// The next line, without its end.
    pub(crate) fn next_line(&mut self) -> Option<&'a [u8]>
        requires { AreFew self.old.number self.old.rest.now }
        ensures line { IfSome result (λ line. lines_of self.old.rest.now ≡ line.now ∷ lines_of self.new.rest.now) }
        ensures shorter { IfSome result (λ line. length self.new.rest.now < length self.old.rest.now) }
        ensures none { result ≡ None → lines_of self.old.rest.now ≡ [] }
        ensures left { result ≡ None → lines_of self.new.rest.now ≡ [] }
        ensures counted { lines_in_all self.new.number self.new.rest.now ≡ lines_in_all self.old.number self.old.rest.now }
    {
        if self.rest.is_empty() {
            return None;
        }
        let (line, rest) = split_line(self.rest);
        self.rest = rest;
        self.number += 1;
        Some(line)
    }
}
