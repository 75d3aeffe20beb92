//! Squares of numbers.
ghost use Rattle.std.specs.Prelude.{◌≡◌, ◌*◌, ◌^◌, ◌<◌};

use crate::ahead::{made_ahead, take_or_make};
use crate::claims::{all_made, found_or_made, side_by_side};
use crate::progress::next_part;
use crate::work::Work;
use std::alloc::{AllocError, Global};
use std::test::Fail;

/// The square of each place is made. None behind one that is large is wanted.
#[derive(Drop)]
struct Squares {
    large: u64,
}

impl Work for Squares {
    type Made = u64;

    ghost can_make = { λ work place. place < 2 ^ 32 };

    ghost is_right = { λ work place made. made ≡ place * place };

    fn make(&self, alloc: Global, place: u32) -> Result<u64, AllocError> {
        let _ = alloc;
        Ok(u64::from(place) * u64::from(place))
    }

    fn is_last(&self, made: &u64) -> bool {
        *made >= self.large
    }
}

#[test]
fn all_squares(rt: HostRuntime) -> Result<(), Fail> {
    let all = all_made(&rt, rt.alloc(), &Squares { large: 1000 }, 5)?;
    assert_eq!(rt; all.as_slice(), [0, 1, 4, 9, 16].as_slice());
    Ok(())
}

// Each worker stops at its first place.
#[test]
fn none_behind_a_large_one(rt: HostRuntime) -> Result<(), Fail> {
    let squares = Squares { large: 0 };
    let mut slots = side_by_side(&rt, rt.alloc(), &squares, 100_000)?;
    assert_eq!(rt; slots.pop(), Some(None));
    let made = found_or_made(rt.alloc(), &squares, 3, None)?;
    assert_eq!(rt; made, 9);
    let found = found_or_made(rt.alloc(), &squares, 3, Some(made))?;
    assert_eq!(rt; found, 9);
    Ok(())
}

#[test]
fn parts_grow(rt: HostRuntime) {
    assert_eq!(rt; next_part(64, 2048, 4, 3_999_999), 256);
    assert_eq!(rt; next_part(1024, 2048, 4, 3_999_999), 2048);
    assert_eq!(rt; next_part(64, 2048, 4, 4_000_000), 64);
}

// Of many places workers make all, of few none: what nobody made is made when it is asked for.
#[test]
fn places_are_made_ahead(rt: HostRuntime) -> Result<(), Fail> {
    let squares = Squares { large: 1_000_000 };
    for (places, made) in [(64, 64), (63, 0)] {
        let mut slots = made_ahead(&rt, rt.alloc(), &squares, places)?;
        assert_eq!(rt; slots.len(), made);
        let first = take_or_make(rt.alloc(), &squares, &mut slots, 3)?;
        let again = take_or_make(rt.alloc(), &squares, &mut slots, 3)?;
        assert_eq!(rt; (first, again), (9, 9));
    }
    Ok(())
}
