//! A wrong line, as it is shown.
use crate::reason::{LONGEST_LINE, Reason, loose_reason_of, reason_of};
use crate::recalling::Recalls;
use std::fmt;

/// What is wrong with a line, and the line, with odd bytes escaped.
#[derive(Clone, Copy)]
pub struct WrongLine<'a> {
    reason: Reason<'a>,
    bytes: &'a [u8],
}

/// What is wrong with the line of this number, where the source still knows it and that can be told.
pub fn wrong_line<R: Recalls>(reader: &R, number: u64) -> Option<WrongLine<'_>> {
    let line = reader.line(number)?;
    let reason = reason_of(line.bytes, line.is_ended, number)?;
    Some(WrongLine {
        reason,
        bytes: line.bytes,
    })
}

impl<'a> WrongLine<'a> {
    /// What is wrong with a line in the loose form, if that can be told: its words, its number, and whether it is to be the header.
    pub fn of_loose(words: &'a [u8], number: u64, is_header: bool) -> Option<WrongLine<'a>> {
        let reason = loose_reason_of(words, number, is_header)?;
        Some(WrongLine {
            reason,
            bytes: words,
        })
    }
}

/// As `the line has 5 words; an alloc has 6: "begin 1 alloc 0 0"`. Of a line that is too long the front is shown.
impl fmt::Display for WrongLine<'_> {
    fn fmt<W: fmt::Write>(&self, f: &mut fmt::Formatter<W>) -> fmt::Result {
        let shown = &self.bytes[..self.bytes.len().min(LONGEST_LINE)];
        let more = if shown.len() < self.bytes.len() {
            ".."
        } else {
            ""
        };
        write!(f, "{}", self.reason)?;
        if shown.is_empty() {
            return Ok(());
        }
        let colon = if self.reason.is_question() { "" } else { ":" };
        write!(f, "{colon} \"{}\"{more}", shown.escape_ascii())
    }
}
