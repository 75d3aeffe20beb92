//! What is wrong with a line.
use crate::near::near;
use hp_base::Config;
use hp_text::MOST_EVENTS;
use std::fmt;

// The longest line, without its end.
pub(crate) const LONGEST_LINE: usize = 56;

/// What is wrong with a line of a trace or of a script.
#[derive(Clone, Copy)]
pub enum Reason<'a> {
    Nothing,
    HeaderMissing,
    TooLong,
    Unended,
    CarriageReturn,
    ByteOrderMark,
    Byte(u8),
    Empty,
    Spaces,
    TooMany,
    NoHeader(&'a str),
    NoEvent(&'a str),
    /// A call where an event must stand, which would begin it.
    NoBeginOf(&'a str),
    NoCall(&'a str),
    /// So many words, where such a line has others: what it is, and how many it has.
    Words(usize, &'a str, &'a str),
    NoNumber(&'a str),
    LeadingZero(&'a str),
    /// A number above the one that such a field may have.
    Above(&'a str, u64),
    /// A size that no pool has: how many there are, of what, and the least and the most.
    Size(u64, &'a str, u64, u64),
    /// Steps in none of the ways in which the loose form has them.
    NoSteps,
    NoBegin,
    /// A header of a script that may wait, where a trace is read or a script without waits.
    Waits,
    NoWaits,
    OwnWait,
    NoCallBehind,
}

impl fmt::Display for Reason<'_> {
    fn fmt<W: fmt::Write>(&self, f: &mut fmt::Formatter<W>) -> fmt::Result {
        match *self {
            Reason::Nothing => f.write_str("the input is empty"),
            Reason::HeaderMissing => f.write_str("the input ends before a header"),
            Reason::TooLong => write!(f, "the line is longer than {LONGEST_LINE} bytes"),
            Reason::Unended => f.write_str("the last line has no line feed"),
            Reason::CarriageReturn => f.write_str("the line ends with a carriage return"),
            Reason::ByteOrderMark => f.write_str("the header begins with a byte order mark"),
            Reason::Byte(byte) => write!(f, "byte {byte} is not allowed in a line"),
            Reason::Empty => f.write_str("the line is empty"),
            Reason::Spaces => f.write_str(
                "words must be separated by exactly one space, with no other spaces",
            ),
            Reason::TooMany => write!(f, "a trace has at most {MOST_EVENTS} events"),
            Reason::NoHeader(word) => write!(f, "a header begins with pool, not with {word}"),
            Reason::NoEvent(word) => {
                write!(f, "{word} is not an event")?;
                write_meant(f, near(word, EVENTS))
            }
            Reason::NoBeginOf(call) => {
                write!(f, "{call} is not an event: did you mean begin TASK {call}?")
            }
            Reason::NoCall(word) => {
                write!(f, "{word} is not a call")?;
                write_meant(f, near(word, CALLS))
            }
            Reason::Words(1, what, wanted) => write!(f, "the line has 1 word; {what} has {wanted}"),
            Reason::Words(count, what, wanted) => {
                write!(f, "the line has {count} words; {what} has {wanted}")
            }
            Reason::NoNumber(word) => write!(f, "{word} is not a number"),
            Reason::LeadingZero(word) => write!(f, "{word} begins with a zero"),
            Reason::Above(word, most) => write!(f, "{word} is above {most}"),
            Reason::Size(number, what, least, most) => {
                write!(
                    f,
                    "the header gives {number} {what}; a pool has {least} to {most}"
                )
            }
            Reason::NoSteps => f.write_str(
                "steps are step TASK, step TASK *N with N from 1 to 1000000, step TASK until PHASE or until ended, and deny TASK *N",
            ),
            Reason::NoBegin => f.write_str("every event of a script must be a begin"),
            Reason::Waits => {
                f.write_str(
                    "only explore, schedule, find and race without --cut accept a script whose header begins with script",
                )
            }
            Reason::NoWaits => {
                f.write_str("after is allowed only in a script whose header begins with script")
            }
            Reason::OwnWait => f.write_str("a call can't wait for its own task"),
            Reason::NoCallBehind => f.write_str("an after must be followed by a begin"),
        }
    }
}

// The first words of the lines of events.
const EVENTS: &[&str] = &["begin", "step", "deny", "kill", "resize", "after"];

// The calls.
const CALLS: &[&str] = &[
    "map", "mapn", "unmap", "load", "store", "alloc", "allock", "punch", "trunc", "exit",
];

// Asks whether this name was meant.
fn write_meant<W: fmt::Write>(f: &mut fmt::Formatter<W>, name: Option<&str>) -> fmt::Result {
    match name {
        Some(name) => write!(f, ": did you mean {name}?"),
        None => Ok(()),
    }
}

impl Reason<'_> {
    /// Whether what is said ends with a question.
    pub(crate) fn is_question(&self) -> bool {
        match *self {
            Reason::NoEvent(word) => near(word, EVENTS).is_some(),
            Reason::NoBeginOf(_) => true,
            Reason::NoCall(word) => near(word, CALLS).is_some(),
            _ => false,
        }
    }
}

/// What is wrong with a line in the loose form, if that can be told: its words, with one space between two, its number, counted from 1,
/// and whether it is to be the header. No line without words is wrong, but one is missing behind the last.
pub fn loose_reason_of(words: &[u8], number: u64, is_header: bool) -> Option<Reason<'_>> {
    if words.is_empty() {
        return Some(if number == 1 {
            Reason::Nothing
        } else {
            Reason::HeaderMissing
        });
    }
    let is_step = words.starts_with(b"step ") || words.starts_with(b"deny ");
    match reason_of(words, true, if is_header { 1 } else { 2 }) {
        Some(Reason::Words(3 | 4, _, _)) if is_step && !is_header => Some(Reason::NoSteps),
        reason => reason,
    }
}

/// What is wrong with a line, if that can be told: its bytes, whether a line feed ended it, and its number, counted from 1.
pub fn reason_of(bytes: &[u8], is_ended: bool, number: u64) -> Option<Reason<'_>> {
    if bytes.is_empty() && !is_ended {
        return Some(if number == 1 {
            Reason::Nothing
        } else {
            Reason::NoCallBehind
        });
    }
    if number > MOST_EVENTS as u64 + 1 {
        return Some(Reason::TooMany);
    }
    if bytes.len() > LONGEST_LINE {
        return Some(Reason::TooLong);
    }
    if !is_ended {
        return Some(Reason::Unended);
    }
    if number == 1 && bytes.starts_with(b"\xEF\xBB\xBF") {
        return Some(Reason::ByteOrderMark);
    }
    if let Some(wrong) = wrong_byte(bytes) {
        return Some(wrong);
    }
    let line = str::from_utf8(bytes).ok()?;
    if line.is_empty() {
        return Some(Reason::Empty);
    }
    if line.split(' ').any(|word| word.is_empty()) {
        return Some(Reason::Spaces);
    }
    if number == 1 {
        return wrong_header(line);
    }
    wrong_event(line)
}

// A byte that is neither a space nor printed.
fn wrong_byte<'a>(bytes: &[u8]) -> Option<Reason<'a>> {
    if bytes.ends_with(b"\r") {
        return Some(Reason::CarriageReturn);
    }
    let wrong = bytes.iter().find(|byte| !(b' '..=b'~').contains(*byte))?;
    Some(Reason::Byte(*wrong))
}

fn wrong_header(line: &str) -> Option<Reason<'_>> {
    let sizes = [
        ("frames", 1, Config::MAX_FRAMES),
        ("files", 1, Config::MAX_FILES),
        ("slots", 1, Config::MAX_SLOTS),
        ("tasks", 1, Config::MAX_TASKS),
        ("quota pages", 0, Config::MAX_QUOTA),
    ];
    let first = line.split(' ').next()?;
    if first != "pool" && first != "script" {
        return Some(Reason::NoHeader(first));
    }
    let count = line.split(' ').count();
    if count != 5 && count != 6 {
        return Some(Reason::Words(count, "a header", "5, or 6 with a quota"));
    }
    for (word, (what, least, most)) in line.split(' ').skip(1).zip(sizes) {
        if let Some(wrong) = wrong_number(word, u64::from(u32::MAX)) {
            return Some(wrong);
        }
        let number = word.parse::<u64>().ok()?;
        if number < least || number > u64::from(most) {
            return Some(Reason::Size(number, what, least, u64::from(most)));
        }
    }
    // such a header is bad where no call may wait
    if first == "script" {
        Some(Reason::Waits)
    } else {
        None
    }
}

fn wrong_event(line: &str) -> Option<Reason<'_>> {
    let first = line.split(' ').next()?;
    let wrong = match first {
        // such a begin is bad behind an after of its own task alone
        "begin" => return wrong_begin(line).or(Some(Reason::OwnWait)),
        "after" => return wrong_fields(line, 1, 2, "an after", "2").or(Some(Reason::NoWaits)),
        "step" => wrong_fields(line, 1, 2, "a step", "2"),
        "deny" => wrong_fields(line, 1, 2, "a deny", "2"),
        "kill" => wrong_fields(line, 1, 2, "a kill", "2"),
        "resize" => wrong_fields(line, 1, 2, "a resize", "2"),
        _ if CALLS.contains(&first) => Some(Reason::NoBeginOf(first)),
        _ => Some(Reason::NoEvent(first)),
    };
    // such a line is bad in a script alone
    wrong.or(Some(Reason::NoBegin))
}

fn wrong_begin(line: &str) -> Option<Reason<'_>> {
    let count = line.split(' ').count();
    let mut words = line.split(' ').skip(1);
    let (Some(task), Some(call)) = (words.next(), words.next()) else {
        return Some(Reason::Words(count, "a begin", "3 or more"));
    };
    if let Some(wrong) = wrong_number(task, u64::from(u32::MAX)) {
        return Some(wrong);
    }
    match call {
        "map" => wrong_fields(line, 3, 6, "a map", "6"),
        "mapn" => wrong_fields(line, 3, 6, "a mapn", "6"),
        "alloc" => wrong_fields(line, 3, 6, "an alloc", "6"),
        "allock" => wrong_fields(line, 3, 6, "an allock", "6"),
        "punch" => wrong_fields(line, 3, 6, "a punch", "6"),
        "trunc" => wrong_fields(line, 3, 5, "a trunc", "5"),
        "store" => wrong_store(line),
        "load" => wrong_fields(line, 3, 4, "a load", "4"),
        "unmap" => wrong_fields(line, 3, 4, "an unmap", "4"),
        "exit" => wrong_fields(line, 3, 3, "an exit", "3"),
        _ => Some(Reason::NoCall(call)),
    }
}

fn wrong_store(line: &str) -> Option<Reason<'_>> {
    let count = line.split(' ').count();
    let mut words = line.split(' ').skip(3);
    let (Some(page), Some(word), None) = (words.next(), words.next(), words.next()) else {
        return Some(Reason::Words(count, "a store", "5"));
    };
    wrong_number(page, u64::from(u32::MAX)).or(wrong_number(word, u64::MAX))
}

// A line of so many words, of which those from `from` on are numbers of 32 bits.
fn wrong_fields<'a>(
    line: &'a str,
    from: usize,
    wanted: usize,
    what: &'a str,
    wanted_word: &'a str,
) -> Option<Reason<'a>> {
    let count = line.split(' ').count();
    if count != wanted {
        return Some(Reason::Words(count, what, wanted_word));
    }
    line.split(' ')
        .skip(from)
        .find_map(|word| wrong_number(word, u64::from(u32::MAX)))
}

fn wrong_number(word: &str, most: u64) -> Option<Reason<'_>> {
    if !word.bytes().all(|byte| byte.is_ascii_digit()) {
        return Some(Reason::NoNumber(word));
    }
    if word.len() > 1 && word.starts_with('0') {
        return Some(Reason::LeadingZero(word));
    }
    match word.parse::<u64>() {
        Ok(number) if number <= most => None,
        _ => Some(Reason::Above(word, most)),
    }
}
