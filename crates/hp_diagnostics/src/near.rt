//! Words that are nearly right.

// One byte of the front of both, if they share it.
fn behind_same<'a>(one: &'a [u8], other: &'a [u8]) -> Option<(&'a [u8], &'a [u8])> {
    match (one.split_first(), other.split_first()) {
        (Some((first, one)), Some((same, other))) if *first == *same => Some((one, other)),
        _ => None,
    }
}

// The same of their ends.
fn before_same<'a>(one: &'a [u8], other: &'a [u8]) -> Option<(&'a [u8], &'a [u8])> {
    match (one.split_last(), other.split_last()) {
        (Some((last, one)), Some((same, other))) if *last == *same => Some((one, other)),
        _ => None,
    }
}

// What is left of both without the front that they share.
fn without_front<'a>(one: &'a [u8], other: &'a [u8]) -> (&'a [u8], &'a [u8]) {
    let (mut left, mut beside) = (one, other);
    for _ in 0..one.len() {
        match behind_same(left, beside) {
            Some((shorter, also)) => (left, beside) = (shorter, also),
            None => break,
        }
    }
    (left, beside)
}

// What is left of both without the end that they share.
fn without_end<'a>(one: &'a [u8], other: &'a [u8]) -> (&'a [u8], &'a [u8]) {
    let (mut left, mut beside) = (one, other);
    for _ in 0..one.len() {
        match before_same(left, beside) {
            Some((shorter, also)) => (left, beside) = (shorter, also),
            None => break,
        }
    }
    (left, beside)
}

// Whether one byte that is added, left out or another makes one word of the other, or two that stand the other way round.
fn is_typo(word: &str, name: &str) -> bool {
    let (word, name) = without_front(word.as_bytes(), name.as_bytes());
    match without_end(word, name) {
        ([], []) | ([_], []) | ([], [_]) | ([_], [_]) => true,
        ([first, second], [one, other]) => *first == *other && *second == *one,
        _ => false,
    }
}

// Whether the word is the name with more behind it, as truncate is.
fn is_longer(word: &str, name: &str) -> bool {
    name.len() > 2 && word.starts_with(name)
}

/// The first of these names that the word nearly is.
pub(crate) fn near<'a>(word: &str, names: &[&'a str]) -> Option<&'a str> {
    let typo = names.iter().find(|name| is_typo(word, name));
    let longer = names.iter().find(|name| is_longer(word, name));
    typo.or(longer).copied()
}
