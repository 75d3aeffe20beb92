//! Remainders by the number of tasks, by two multiplications: a turn would wait for a division.
ghost use Rattle.std.specs.Prelude.{◌≡◌, ◌%◌, ◌≤◌, ◌-◌};
ghost use Rattle.hp_explore.specs.Inverses.{inverse_of};

use std::marker::Model;

/// No pool has more tasks.
pub(crate) const MOST_TASKS: usize = 64;

/// The number by which a word is multiplied to find its remainder: 2^64 over `count`, rounded up. It wraps for 1, which
/// leaves no remainder.
fn inverse(count: u32) -> u64
    requires { 1 ≤ count }
    ensures { result ≡ inverse_of count }
{
    (u64::MAX / u64::from(count)).wrapping_add(1)
}

/// The remainder of a word by a number that has this inverse.
#[inline(always)]
fn remainder(word: u32, count: u32, inverse: u64) -> u32
    requires one { 1 ≤ count }
    requires few { count ≤ 64 }
    requires inverse { inverse ≡ inverse_of count }
    ensures { result ≡ word % count }
{
    let fraction = inverse.wrapping_mul(u64::from(word));
    ((u128::from(fraction) * u128::from(count)) >> 64) as u32
}

/// The inverses of the numbers from 1 on.
#[derive(Drop)]
pub(crate) struct Remainders {
    inverses: [u64; MOST_TASKS],
}

impl Model for Remainders {
    ghost use Rattle.std.specs.Prelude.{◌≡◌, ◌+◌, EachIndex, slice_index};
    ghost use Rattle.hp_explore.specs.Inverses.{inverse_of};

    ghost Value = { Unit {0} };

    ghost view = { λ r. tt };

    ghost invariant = { λ r. EachIndex r.inverses (λ place. slice_index r.inverses place ≡ inverse_of (place + 1)) };
}

impl Remainders {
    pub(crate) fn new() -> Self {
        let mut inverses = [0; MOST_TASKS];
        for place in 0..MOST_TASKS {
            inverses[place] = inverse(place as u32 + 1);
        }
        Remainders { inverses }
    }

    /// The remainder of a word.
    #[inline(always)]
    pub(crate) fn of(&self, word: u32, count: u32) -> u32
        requires one { 1 ≤ count }
        requires few { count ≤ 64 }
        ensures { result ≡ word % count }
    {
        remainder(word, count, self.inverses[count as usize - 1])
    }
}
