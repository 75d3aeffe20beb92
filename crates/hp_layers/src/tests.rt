//! A counter that goes up to three.
ghost use Rattle.std.specs.Prelude.{◌≡◌, ◌≤◌};
ghost use Rattle.hp_layers.specs.Counted.{end_of, ends_alike_counts};
ghost use Rattle.hp_layers.specs.Counted.{Goes, Steps, as_good_counts, named_counts, same_count};

use crate::ending::{EndingTable, Ends, endings};
use crate::limits::Limits;
use crate::progress::Progress;
use crate::searching::search;
use crate::turns::Turns;
use crate::verdict::Verdict;
use std::alloc::{AllocError, Global};
use std::thread::Threads;

/// Where the counter is to stand.
#[derive(Drop)]
struct Wanted {
    count: u32,
}

impl Turns for Wanted {
    type State = u32;

    type Key = u32;

    ghost valid = { λ m s. s ≤ 3 };

    ghost turn = { λ m s t. Goes s t };

    ghost meets = { λ m s. s ≡ m.count };

    ghost alike = { λ m s t. s ≡ t };

    ghost key_of = { λ m s. s };

    ghost bytes_of = { λ m s. 8 };

    fn after(&self, alloc: Global, state: &u32) -> Result<Vec<u32>, AllocError> {
        let mut next = Vec::new(alloc);
        if *state >= 3 {
            return Ok(next);
        }
        next.push(*state + 1)?;
        Ok(next)
    }

    fn key(&self, alloc: Global, state: &u32) -> Result<u32, AllocError> {
        let _ = alloc;
        Ok(*state)
    }

    fn bytes(&self, state: &u32) -> u64 {
        let _ = state;
        8
    }

    fn is_met(&self, state: &u32) -> bool {
        *state == self.count
    }

    ghost as_good = { λ m. as_good_counts m.count };

    ghost same_key = { λ m. same_count };
}

// It goes up in two ways, which lead to one state.
impl Ends for Wanted {
    type Ending = u32;

    type Name = u32;

    ghost ending_of = { λ m s. end_of s };

    ghost step = { λ m s name t. Steps s name t };

    fn ending(&self, alloc: Global, state: &u32) -> Result<Option<u32>, AllocError> {
        let _ = alloc;
        if *state >= 3 {
            return Ok(Some(*state));
        }
        Ok(None)
    }

    fn each_after(&self, alloc: Global, state: &u32) -> Result<Vec<u32>, AllocError> {
        let mut next = Vec::new(alloc);
        if *state >= 3 {
            return Ok(next);
        }
        next.push(*state + 1)?;
        next.push(*state + 1)?;
        Ok(next)
    }

    ghost ends_alike = { λ m. ends_alike_counts };

    ghost are_named = { λ m. named_counts };
}

/// How many layers were told, and the last of them.
#[derive(Drop)]
struct Told {
    layers: u32,
    last: u32,
}

impl Progress for Told {
    fn layer(&mut self, turns: u32, states: usize, bytes: u64) {
        let _ = (states, bytes);
        self.layers = self.layers.saturating_add(1);
        self.last = turns;
    }
}

/// What a search says of a count: where it stands then, or how far it came, or that it never does.
fn found(
    rt: &(impl Threads + Sync),
    alloc: Global,
    count: u32,
    limits: Limits,
) -> Result<(u32, u32), AllocError> {
    let mut told = Told { layers: 0, last: 0 };
    match search(rt, alloc, &Wanted { count }, 0, limits, &mut told)? {
        Verdict::Met { state, turns } => Ok((state, turns)),
        Verdict::Never => Ok((100, told.layers)),
        Verdict::Cut { turns } => Ok((200, turns)),
    }
}

#[test]
fn counts(rt: HostRuntime) {
    let wide = Limits {
        turns: 9,
        states: 9,
        bytes: None,
    };
    let met = found(&rt, rt.alloc(), 2, wide);
    assert!(rt; matches!(met, Ok((2, 2))));
    let never = found(&rt, rt.alloc(), 4, wide);
    assert!(rt; matches!(never, Ok((100, 4))));
}

#[test]
fn limits_run_out(rt: HostRuntime) {
    let few_turns = Limits {
        turns: 2,
        states: 9,
        bytes: None,
    };
    let cut = found(&rt, rt.alloc(), 3, few_turns);
    assert!(rt; matches!(cut, Ok((200, 2))));
    let few_states = Limits {
        turns: 9,
        states: 1,
        bytes: None,
    };
    let narrow = found(&rt, rt.alloc(), 3, few_states);
    assert!(rt; matches!(narrow, Ok((200, 1))));
    let few_bytes = Limits {
        turns: 9,
        states: 9,
        bytes: Some(15),
    };
    let light = found(&rt, rt.alloc(), 3, few_bytes);
    assert!(rt; matches!(light, Ok((200, 1))));
}

/// The only ending that there is, and in how many ways the counter comes there, if the table is whole and has one.
fn only_ending(
    rt: &(impl Threads + Sync),
    alloc: Global,
    limits: Limits,
) -> Result<Option<(u32, u128)>, AllocError> {
    let mut told = Told { layers: 0, last: 0 };
    match endings(rt, alloc, &Wanted { count: 2 }, 0, limits, &mut told)? {
        EndingTable::Whole(counts) => Ok(if counts.states.len() == 1 && counts.ways.len() == 1 {
            Some((counts.states[0], counts.ways[0]))
        } else {
            None
        }),
        EndingTable::Cut { .. } => Ok(None),
    }
}

#[test]
fn ends(rt: HostRuntime) {
    let wide = Limits {
        turns: 9,
        states: 9,
        bytes: None,
    };
    let ended = only_ending(&rt, rt.alloc(), wide);
    assert!(rt; matches!(ended, Ok(Some((3, 8)))));
    let few_turns = Limits {
        turns: 2,
        states: 9,
        bytes: None,
    };
    let cut = only_ending(&rt, rt.alloc(), few_turns);
    assert!(rt; matches!(cut, Ok(None)));
}
