//! Reads a line from its front, a word or a number at a time. Each line has one spelling.
ghost use Rattle.std.specs.Prelude.{◌≡◌, ◌≤◌, ◌<◌, ◌++◌, ◌+◌, ◌∷◌, true, take, length, IfSome};
ghost use Rattle.std.specs.Fmt.{decimal};
ghost use Rattle.std.specs.Option.{option_map};
ghost use Rattle.hp_base.specs.Text.{sizes};
ghost use Rattle.hp_base.specs.declared.event.Event.TheVariants.{Step};
ghost use Rattle.hp_text.specs.Traces.{event_line};
ghost use Rattle.hp_text.specs.Reading.{header_at, sizes_at, quota_at, last_field_at, after_word, number_at, field_at, last_at, range_at};
ghost use Rattle.hp_text.specs.Reading.{pair_at, range_op_at, plain_op_at, op_at, event_at, limit, word_limit, header_behind};
ghost use Rattle.hp_text.specs.ScriptLines.{call_at, line_in};

use crate::script_lines::{ScriptForm, ScriptLine};
use hp_base::{Config, Event, File, Index, Op, Task, Vpn};

/// The bytes behind the word, where they begin with it.
pub fn after_word<'a>(word: &[u8], bytes: &'a [u8]) -> Option<&'a [u8]>
    ensures { option_map (λ rest. rest.now) result ≡ after_word word.now bytes.now }
{
    if bytes.starts_with(word) {
        Some(&bytes[word.len()..])
    } else {
        None
    }
}

/// The number that the bytes begin with, in its one spelling, and the bytes behind it.
#[tactic(auto, unfolding(crate::specs::Reading::number_at, crate::specs::Reading::number_from))]
fn number_at(most: u64, bytes: &[u8]) -> Option<(u64, &[u8])>
    requires { 9 ≤ most }
    ensures found { option_map (λ found. (found.0, found.1.now)) result ≡ number_at most bytes.now }
    ensures most { IfSome result (λ found. found.0 ≤ most) }
{
    let [first, rest @ ..] = bytes else {
        return None;
    };
    if *first == b'0' {
        return Some((0, rest));
    }
    if !first.is_ascii_digit() {
        return None;
    }
    let mut value = u64::from(*first - b'0');
    let mut rest = rest;
    while let [digit, after @ ..] = rest {
        if !digit.is_ascii_digit() {
            break;
        }
        value = value
            .checked_mul(10)?
            .checked_add(u64::from(*digit - b'0'))?;
        if value > most {
            return None;
        }
        rest = after;
    }
    Some((value, rest))
}

/// A number of 32 bits.
pub fn short_at(bytes: &[u8]) -> Option<(u32, &[u8])>
    ensures { option_map (λ found. (found.0, found.1.now)) result ≡ number_at limit bytes.now }
{
    let (number, rest) = number_at(u64::from(u32::MAX), bytes)?;
    Some((number as u32, rest))
}

/// A space, and a number of 32 bits.
#[tactic(auto, unfolding(crate::specs::Reading::field_at))]
pub fn field_at(bytes: &[u8]) -> Option<(u32, &[u8])>
    ensures { option_map (λ found. (found.0, found.1.now)) result ≡ field_at limit bytes.now }
{
    short_at(after_word(b" ", bytes)?)
}

/// The last number of a line.
#[tactic(auto, unfolding(crate::specs::Reading::last_at))]
pub fn last_at(bytes: &[u8]) -> Option<u32>
    ensures { result ≡ last_at bytes.now }
{
    match short_at(bytes)? {
        (number, []) => Some(number),
        _ => None,
    }
}

/// A file, an index of it, and a number of pages, as the last of a line.
#[tactic(auto, unfolding(crate::specs::Reading::range_at))]
fn range_at(bytes: &[u8]) -> Option<(File, Index, u32)>
    ensures { option_map (λ r. (r.0, r.1, r.2)) result ≡ range_at bytes.now }
{
    let (file, rest) = short_at(bytes)?;
    let (from, rest) = field_at(rest)?;
    let (len, rest) = field_at(rest)?;
    if !rest.is_empty() {
        return None;
    }
    Some((File::new(file), Index::new(from), len))
}

/// A virtual page and the word that is stored there, as the last of a line.
#[tactic(auto, unfolding(crate::specs::Reading::pair_at, crate::specs::Reading::field_at))]
fn store_at(bytes: &[u8]) -> Option<(Vpn, u64)>
    ensures { option_map (λ s. (s.0, s.1)) result ≡ pair_at word_limit bytes.now }
{
    let (vpn, rest) = short_at(bytes)?;
    let (word, rest) = number_at(u64::MAX, after_word(b" ", rest)?)?;
    if !rest.is_empty() {
        return None;
    }
    Some((Vpn::new(vpn), word))
}

/// A file and its new size, as the last of a line.
#[tactic(auto, unfolding(crate::specs::Reading::pair_at))]
fn truncation_at(bytes: &[u8]) -> Option<(File, u32)>
    ensures { option_map (λ s. (s.0, s.1)) result ≡ pair_at limit bytes.now }
{
    let (file, rest) = short_at(bytes)?;
    let (new, rest) = field_at(rest)?;
    if !rest.is_empty() {
        return None;
    }
    Some((File::new(file), new))
}

/// An operation on a range of a file.
#[tactic(auto, unfolding(crate::specs::Reading::range_op_at))]
fn range_op_at(bytes: &[u8]) -> Option<Op>
    ensures { result ≡ range_op_at bytes.now }
{
    if let Some(rest) = after_word(b"map ", bytes) {
        let (file, from, len) = range_at(rest)?;
        Some(Op::Map { file, from, len })
    } else if let Some(rest) = after_word(b"mapn ", bytes) {
        let (file, from, len) = range_at(rest)?;
        Some(Op::MapNoReserve { file, from, len })
    } else if let Some(rest) = after_word(b"alloc ", bytes) {
        let (file, from, len) = range_at(rest)?;
        Some(alloc(file, from, len, false))
    } else if let Some(rest) = after_word(b"allock ", bytes) {
        let (file, from, len) = range_at(rest)?;
        Some(alloc(file, from, len, true))
    } else if let Some(rest) = after_word(b"punch ", bytes) {
        let (file, from, len) = range_at(rest)?;
        Some(Op::Punch { file, from, len })
    } else {
        None
    }
}

fn alloc(file: File, from: Index, len: u32, keep: bool) -> Op
    ensures { result ≡ Op.Alloc file from len keep }
{
    Op::Alloc {
        file,
        from,
        len,
        keep,
    }
}

/// An operation on something else.
#[tactic(auto, unfolding(crate::specs::Reading::plain_op_at))]
fn plain_op_at(bytes: &[u8]) -> Option<Op>
    ensures { result ≡ plain_op_at bytes.now }
{
    if let Some(rest) = after_word(b"load ", bytes) {
        let vpn = Vpn::new(last_at(rest)?);
        Some(Op::Load { vpn })
    } else if let Some(rest) = after_word(b"store ", bytes) {
        let (vpn, word) = store_at(rest)?;
        Some(Op::Store { vpn, word })
    } else if let Some(rest) = after_word(b"unmap ", bytes) {
        let base = Vpn::new(last_at(rest)?);
        Some(Op::Unmap { base })
    } else if let Some(rest) = after_word(b"trunc ", bytes) {
        let (file, new) = truncation_at(rest)?;
        Some(Op::Truncate { file, new })
    } else {
        match after_word(b"exit", bytes)? {
            [] => Some(Op::Exit),
            _ => None,
        }
    }
}

/// The operation that the rest of a line spells.
#[tactic(auto, unfolding(crate::specs::Reading::op_at))]
fn op_at(bytes: &[u8]) -> Option<Op>
    ensures { result ≡ op_at bytes.now }
{
    match plain_op_at(bytes) {
        Some(op) => Some(op),
        None => range_op_at(bytes),
    }
}

/// The event that a line spells.
#[tactic(auto, unfolding(crate::specs::Reading::event_at))]
pub fn event_at(bytes: &[u8]) -> Option<Event>
    ensures { result ≡ event_at bytes.now }
{
    if let Some(rest) = after_word(b"begin ", bytes) {
        let (task, rest) = short_at(rest)?;
        let op = op_at(after_word(b" ", rest)?)?;
        Some(Event::Begin(Task::new(task), op))
    } else if let Some(rest) = after_word(b"step ", bytes) {
        let task = Task::new(last_at(rest)?);
        Some(Event::Step(task, true))
    } else if let Some(rest) = after_word(b"deny ", bytes) {
        let task = Task::new(last_at(rest)?);
        Some(Event::Step(task, false))
    } else if let Some(rest) = after_word(b"kill ", bytes) {
        let task = Task::new(last_at(rest)?);
        Some(Event::Kill(task))
    } else if let Some(rest) = after_word(b"resize ", bytes) {
        let frames = last_at(rest)?;
        Some(Event::Resize(frames))
    } else {
        None
    }
}

/// The digit that the bytes begin with, and the bytes behind it.
fn digit_at(bytes: &[u8]) -> Option<(u32, &[u8])>
    ensures digit { IfSome result (λ found. bytes.now ≡ (48 + found.0) ∷ found.1.now) }
    ensures small { IfSome result (λ found. found.0 < 10) }
{
    match bytes {
        [digit, rest @ ..] if digit.is_ascii_digit() => Some((u32::from(*digit - b'0'), rest)),
        _ => None,
    }
}

/// The number of one digit or two that the bytes begin with, and the bytes behind it.
fn small_at(bytes: &[u8]) -> Option<(u32, &[u8])>
    ensures number { IfSome result (λ found. bytes.now ≡ decimal found.0 ++ found.1.now) }
    ensures small { IfSome result (λ found. found.0 < 100) }
{
    let (first, rest) = digit_at(bytes)?;
    if first == 0 {
        return Some((first, rest));
    }
    match digit_at(rest) {
        Some((second, rest)) => Some((10 * first + second, rest)),
        None => Some((first, rest)),
    }
}

/// The line `step N` with which the bytes begin: its length with its end, and the number. It is told where the number has one
/// digit or two, as that of each task of a pool has. Most lines of a trace are such lines, so they are read here at once.
pub(crate) fn step_at(bytes: &[u8]) -> Option<(usize, u32)>
    ensures line { IfSome result (λ step. take step.0 bytes.now ≡ event_line (Step step.1 true)) }
    ensures within { IfSome result (λ step. step.0 ≤ length bytes.now) }
    ensures small { IfSome result (λ step. step.1 < 100) }
{
    let (number, rest) = small_at(after_word(b"step ", bytes)?)?;
    let rest = after_word(b"\n", rest)?;
    Some((bytes.len() - rest.len(), number))
}

/// The last number of a line, behind a space.
#[tactic(auto, unfolding(crate::specs::Reading::last_field_at))]
fn last_field_at(bytes: &[u8]) -> Option<u32>
    ensures { result ≡ last_field_at bytes.now }
{
    match field_at(bytes)? {
        (number, []) => Some(number),
        _ => None,
    }
}

/// A quota, if there is one, as the last of a line.
#[tactic(auto, unfolding(crate::specs::Reading::quota_at))]
fn quota_at(bytes: &[u8]) -> Option<Option<u32>>
    ensures { result ≡ quota_at bytes.now }
{
    match bytes {
        [] => Some(None),
        _ => Some(Some(last_field_at(bytes)?)),
    }
}

/// Four numbers, and a quota if there is one, as the last of a line.
#[tactic(auto, unfolding(crate::specs::Reading::sizes_at))]
fn sizes_at(bytes: &[u8]) -> Option<(u32, u32, u32, u32, Option<u32>)>
    ensures { option_map (λ s. record { frames = s.0; files = s.1; slots = s.2; tasks = s.3; quota = s.4 }) result
        ≡ sizes_at bytes.now }
{
    let (frames, rest) = short_at(bytes)?;
    let (files, rest) = field_at(rest)?;
    let (slots, rest) = field_at(rest)?;
    let (tasks, rest) = field_at(rest)?;
    let quota = quota_at(rest)?;
    Some((frames, files, slots, tasks, quota))
}

/// The config that a first line with this word spells.
#[tactic(auto, unfolding(crate::specs::Reading::header_behind))]
pub(crate) fn header_behind(word: &[u8], bytes: &[u8]) -> Option<Config>
    ensures { option_map sizes result ≡ header_behind word.now bytes.now }
{
    let (frames, files, slots, tasks, quota) = sizes_at(after_word(word, bytes)?)?;
    let config = Config::new(frames, files, slots, tasks).ok()?;
    match quota {
        None => Some(config),
        Some(quota) => config.with_quota(quota).ok(),
    }
}

/// The config that the first line of a trace spells.
#[tactic(auto, unfolding(crate::specs::Reading::header_at, crate::specs::Reading::header_behind))]
pub fn header_at(bytes: &[u8]) -> Option<Config>
    ensures { option_map sizes result ≡ header_at bytes.now }
{
    header_behind(b"pool ", bytes)
}

/// The call that a line begins.
fn call_at(bytes: &[u8]) -> Option<ScriptLine>
    ensures { result ≡ call_at bytes.now }
{
    match event_at(bytes)? {
        Event::Begin(task, op) => Some(ScriptLine::Call(task, op)),
        Event::Step(..) | Event::Kill(_) | Event::Resize(_) => None,
    }
}

/// The line of a script of this form.
pub(crate) fn script_line_at(form: ScriptForm, bytes: &[u8]) -> Option<ScriptLine>
    ensures { result ≡ line_in form bytes.now }
{
    match form {
        ScriptForm::Plain => call_at(bytes),
        ScriptForm::Waiting => match after_word(b"after ", bytes) {
            Some(rest) => {
                let task = Task::new(last_at(rest)?);
                Some(ScriptLine::After(task))
            }
            None => call_at(bytes),
        },
    }
}
