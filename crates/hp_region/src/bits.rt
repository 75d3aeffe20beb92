//! A set of page indices, a bit each: how many lie in a range is counted a word at a time.
ghost use Rattle.std.specs.Prelude.{◌≡◌, ℕ, ◌+◌, ◌-◌, ◌*◌, ◌/◌, ◌<◌, ◌≤◌, Bool, false};
ghost use Rattle.hp_base.specs.Indices.{is_within, count_below, count_within, add_range, cut_tail};
ghost use Rattle.hp_base.specs.Numbers.{put};
ghost use Rattle.hp_region.specs.Bits.{is_on, has_bit, put_range};

use hp_base::{Index, LIMIT};
use std::marker::Model;

/// How many words there are, of 64 bits each: a bit for each index below the limit.
pub const WORDS: usize = 64;

/// The set: an index is in it where its bit is 1, the lowest of the first word for index 0.
#[derive(Drop)]
pub struct Bits {
    words: [u64; WORDS],
}

impl Model for Bits {
    ghost use Rattle.std.specs.Prelude.{◌≡◌, ℕ, List, length};
    ghost use Rattle.hp_region.specs.declared.bits.TheConstants.{WORDS};

    ghost Value = { List ℕ };

    ghost view = { λ b. b.words };

    ghost invariant = { λ b. length b.words ≡ WORDS };
}

impl Bits {
    /// The empty set.
    pub fn new() -> Self
        ensures { has_bit result ≡ (λ (k : ℕ). false) }
    {
        Bits { words: [0; WORDS] }
    }

    /// The same set.
    pub fn copy(&self) -> Self
        ensures { result ≡ self.now }
    {
        Bits { words: self.words }
    }

    /// Whether an index is in the set.
    pub fn has(&self, index: Index) -> bool
        ensures { result ≡ has_bit self.now index }
    {
        let words = &self.words;
        let index = index.number();
        if index >= LIMIT {
            return false;
        }
        (words[(index / 64) as usize] >> (index % 64)) & 1 == 1
    }

    /// How many of [from, to) are in the set.
    pub fn count(&self, from: Index, to: Index) -> u32
        requires in_order { from ≤ to }
        requires in_limit { to ≤ LIMIT }
        ensures { result ≡ count_within (has_bit self.now) from to }
    {
        let first = from.number() / 64;
        let last = to.number() / 64;
        let mut count = 0;
        for word in first..last {
            count += self.words[word as usize].count_ones();
        }
        count + self.before(to) - self.before(from)
    }

    // How many of the indices before that one, in its word, are in the set.
    fn before(&self, index: Index) -> u32
        requires { index ≤ LIMIT }
        ensures { count_below (has_bit self.now) index ≡ count_below (has_bit self.now) (index / 64 * 64) + result }
    {
        let index = index.number();
        let bit = index % 64;
        if bit == 0 {
            return 0;
        }
        let earlier = (1 << bit) - 1;
        (self.words[(index / 64) as usize] & earlier).count_ones()
    }

    /// Adds [from, to).
    pub fn add_range(&mut self, from: Index, to: Index)
        requires in_order { from < to }
        requires in_limit { to ≤ LIMIT }
        ensures { has_bit self.new ≡ add_range (has_bit self.old) from to }
    {
        let first = from.number();
        let end = to.number();
        self.put(first, end, true);
    }

    /// Removes an index.
    pub fn take(&mut self, index: Index)
        requires { index < LIMIT }
        ensures { has_bit self.new ≡ put (has_bit self.old) index false }
    {
        let index = index.number();
        self.put_in_word(index, index + 1, false);
    }

    /// Removes every index at or above `from`.
    pub fn cut_tail(&mut self, from: Index)
        ensures { has_bit self.new ≡ cut_tail (has_bit self.old) from }
    {
        let _ = &self.words;
        let first = from.number();
        if first >= LIMIT {
            return;
        }
        self.put(first, LIMIT, false);
    }

    // Adds or removes all of [from, to).
    fn put(&mut self, from: u32, to: u32, value: bool)
        requires in_order { from < to }
        requires in_limit { to ≤ LIMIT }
        ensures { has_bit self.new ≡ put_range (has_bit self.old) from to value }
    {
        let first = from / 64;
        let last = (to - 1) / 64;
        if first == last {
            self.put_in_word(from, to, value);
        } else {
            self.put_in_word(from, (first + 1) * 64, value);
            self.put_words(first + 1, last, value);
            self.put_in_word(last * 64, to, value);
        }
    }

    // Adds or removes all of [from, to), which lie in one word.
    fn put_in_word(&mut self, from: u32, to: u32, value: bool)
        requires in_order { from < to }
        requires in_limit { to ≤ LIMIT }
        requires in_word { from / 64 ≡ (to - 1) / 64 }
        ensures { has_bit self.new ≡ put_range (has_bit self.old) from to value }
    {
        let mask = mask(from % 64, (to - 1) % 64 + 1);
        let word = (from / 64) as usize;
        if value {
            self.words[word] |= mask;
        } else {
            self.words[word] &= !mask;
        }
    }

    // Adds or removes all indices of these words.
    fn put_words(&mut self, first: u32, last: u32, value: bool)
        requires in_order { first ≤ last }
        requires in_range { last ≤ WORDS }
        ensures { has_bit self.new ≡ put_range (has_bit self.old) (first * 64) (last * 64) value }
    {
        let all = all(value);
        for word in first..last {
            self.words[word as usize] = all;
        }
    }
}

// A word whose bits are all 1, or all 0.
fn all(value: bool) -> u64
    ensures { (bit : ℕ) → bit < 64 → is_on result bit ≡ value }
{
    if value { u64::MAX } else { 0 }
}

// A word whose bits from `low` up to `high` are 1.
fn mask(low: u32, high: u32) -> u64
    requires in_order { low < high }
    requires in_word { high ≤ 64 }
    ensures { (bit : ℕ) → bit < 64 → is_on result bit ≡ is_within low high bit }
{
    (u64::MAX << low) & (u64::MAX >> (64 - high))
}
