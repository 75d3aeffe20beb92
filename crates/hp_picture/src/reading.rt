//! Reads a line of a picture, a word or a number at a time. Each line has one spelling.
ghost use Rattle.std.specs.Prelude.{◌≡◌};
ghost use Rattle.std.specs.Option.{option_map};
ghost use Rattle.hp_text.specs.Reading.{last_at};
ghost use Rattle.hp_picture.specs.Reading.{count_at, count_field_at, counts_at, quota_at, locked_at, lock_at, size_at, three_at, four_at, frame_line_at, line_at};

use crate::line::PictureLine;
use crate::picture::Counts;
use hp_text::{after_word, field_at, last_at, short_at};

/// A number of 32 bits, which may stand below zero.
#[tactic(auto, unfolding(crate::specs::Reading::count_at))]
fn count_at(bytes: &[u8]) -> Option<(i64, &[u8])>
    ensures { option_map (λ found. (found.0, found.1.now)) result ≡ count_at bytes.now }
{
    match after_word(b"-", bytes) {
        Some(rest) => {
            let (number, rest) = short_at(rest)?;
            Some((0 - i64::from(number), rest))
        }
        None => {
            let (number, rest) = short_at(bytes)?;
            Some((i64::from(number), rest))
        }
    }
}

/// A space, and such a number.
#[tactic(auto, unfolding(crate::specs::Reading::count_field_at))]
fn count_field_at(bytes: &[u8]) -> Option<(i64, &[u8])>
    ensures { option_map (λ found. (found.0, found.1.now)) result ≡ count_field_at bytes.now }
{
    count_at(after_word(b" ", bytes)?)
}

/// A quota, if there is one, as the last of a line.
#[tactic(auto, unfolding(crate::specs::Reading::quota_at))]
fn quota_at(bytes: &[u8]) -> Option<Option<u32>>
    ensures { result ≡ quota_at bytes.now }
{
    match bytes {
        [] => Some(None),
        _ => Some(Some(last_at(after_word(b" ", bytes)?)?)),
    }
}

/// The counts, as the last of a line.
#[tactic(auto, unfolding(crate::specs::Reading::counts_at))]
fn counts_at(bytes: &[u8]) -> Option<Counts>
    ensures { result ≡ counts_at bytes.now }
{
    let (resv, rest) = count_at(bytes)?;
    let (owed, rest) = count_field_at(rest)?;
    let (used, rest) = count_field_at(rest)?;
    let (used_owed, rest) = count_field_at(rest)?;
    let quota = quota_at(rest)?;
    Some(Counts {
        resv,
        owed,
        used,
        used_owed,
        quota,
    })
}

/// The word `locked`, as the last of a line.
#[tactic(auto, unfolding(crate::specs::Reading::locked_at))]
fn locked_at(bytes: &[u8]) -> Option<bool>
    ensures { result ≡ locked_at bytes.now }
{
    match after_word(b" locked", bytes)? {
        [] => Some(true),
        _ => None,
    }
}

/// Whether that word stands there, as the last of a line.
#[tactic(auto, unfolding(crate::specs::Reading::lock_at))]
fn lock_at(bytes: &[u8]) -> Option<bool>
    ensures { result ≡ lock_at bytes.now }
{
    match bytes {
        [] => Some(false),
        _ => locked_at(bytes),
    }
}

/// A size, and whether `locked` stands behind it, as the last of a line.
#[tactic(auto, unfolding(crate::specs::Reading::size_at))]
fn size_at(bytes: &[u8]) -> Option<(u32, bool)>
    ensures { option_map (λ found. (found.0, found.1)) result ≡ size_at bytes.now }
{
    let (size, rest) = short_at(bytes)?;
    let locked = lock_at(rest)?;
    Some((size, locked))
}

/// Three numbers, as the last of a line.
#[tactic(auto, unfolding(crate::specs::Reading::three_at))]
fn three_at(bytes: &[u8]) -> Option<(u32, u32, u32)>
    ensures { option_map (λ r. (r.0, r.1, r.2)) result ≡ three_at bytes.now }
{
    let (first, rest) = short_at(bytes)?;
    let (second, rest) = field_at(rest)?;
    let (third, rest) = field_at(rest)?;
    if !rest.is_empty() {
        return None;
    }
    Some((first, second, third))
}

/// Four numbers, as the last of a line.
#[tactic(auto, unfolding(crate::specs::Reading::four_at))]
fn four_at(bytes: &[u8]) -> Option<(u32, u32, u32, u32)>
    ensures { option_map (λ r. (r.0, r.1, r.2, r.3)) result ≡ four_at bytes.now }
{
    let (first, rest) = short_at(bytes)?;
    let (second, rest) = field_at(rest)?;
    let (third, rest) = field_at(rest)?;
    let (fourth, rest) = field_at(rest)?;
    if !rest.is_empty() {
        return None;
    }
    Some((first, second, third, fourth))
}

/// A frame that is in no file, or the end.
#[tactic(auto, unfolding(crate::specs::Reading::frame_line_at))]
fn frame_line_at(bytes: &[u8]) -> Option<PictureLine>
    ensures { result ≡ frame_line_at bytes.now }
{
    if let Some(rest) = after_word(b"free ", bytes) {
        let frame = last_at(rest)?;
        Some(PictureLine::Free(frame))
    } else if let Some(rest) = after_word(b"retired ", bytes) {
        let frame = last_at(rest)?;
        Some(PictureLine::Retired(frame))
    } else if let Some(rest) = after_word(b"hand ", bytes) {
        let frame = last_at(rest)?;
        Some(PictureLine::Hand(frame))
    } else {
        match after_word(b"end", bytes)? {
            [] => Some(PictureLine::End),
            _ => None,
        }
    }
}

/// What a line says, without its end.
#[tactic(auto, unfolding(crate::specs::Reading::line_at))]
pub fn line_at(bytes: &[u8]) -> Option<PictureLine>
    ensures { result ≡ line_at bytes.now }
{
    if let Some(rest) = after_word(b"page ", bytes) {
        let (file, index, frame) = three_at(rest)?;
        Some(PictureLine::Page(file, index, frame))
    } else if let Some(rest) = after_word(b"region ", bytes) {
        let (file, from, to) = three_at(rest)?;
        Some(PictureLine::Region(file, from, to))
    } else if let Some(rest) = after_word(b"translation ", bytes) {
        let (task, file, index, frame) = four_at(rest)?;
        Some(PictureLine::Translation(task, file, index, frame))
    } else if let Some(rest) = after_word(b"file ", bytes) {
        let (size, locked) = size_at(rest)?;
        Some(PictureLine::File(size, locked))
    } else if let Some(rest) = after_word(b"picture ", bytes) {
        let counts = counts_at(rest)?;
        Some(PictureLine::Head(counts))
    } else {
        frame_line_at(bytes)
    }
}
