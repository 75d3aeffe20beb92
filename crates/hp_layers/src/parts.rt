//! Parts of a layer, of whose states several workers go on at once.
ghost use Rattle.std.specs.Prelude.{◌≡◌, ◌+◌, ◌-◌, ◌<◌, ◌≤◌, ◌⊎◌, length};
ghost use Rattle.hp_layers.specs.Layers.{AreAllAfter, HoldsAt};
ghost use Rattle.hp_layers.specs.Named.{AreEach};

use crate::ending::Ends;
use crate::turns::Turns;
use hp_workers::Work;
use std::alloc::{AllocError, Global};

/// A part has so many states. What comes after those of two parts is in memory at once.
const PART: usize = 1024;

/// Where the part ends that begins here.
pub(crate) fn part_end(begin: usize, all: usize) -> usize
    requires { begin ≤ all }
    ensures from { begin ≤ result }
    ensures few { result ≤ begin + 1024 }
    ensures within { result ≤ all }
    ensures some { begin < all → begin < result }
{
    begin + (all - begin).min(PART)
}

/// The states behind those of a part of a layer.
#[derive(Clone, Copy)]
pub(crate) struct After<'a, M: Turns> {
    pub(crate) system: &'a M,
    pub(crate) layer: &'a [M::State],
    pub(crate) begin: usize,
}

impl<M: Turns + Sync> Work for After<'_, M> {
    type Made = Vec<M::State>;

    ghost can_make = { λ w place. (w.begin + place < length w.layer.now) × HoldsAt (M.valid w.system.now) w.layer.now (w.begin + place) };

    ghost is_right = { λ w place made. HoldsAt (λ s. AreAllAfter (M.turn w.system.now) (M.alike w.system.now) s made.items) w.layer.now
        (w.begin + place) };

    fn make(&self, alloc: Global, place: u32) -> Result<Vec<M::State>, AllocError> {
        self.system
            .after(alloc, &self.layer[self.begin + place as usize])
    }

    fn is_last(&self, made: &Vec<M::State>) -> bool {
        let _ = made;
        false
    }
}

/// The states behind those of a part of a layer, one for each turn.
#[derive(Clone, Copy)]
pub(crate) struct EachAfter<'a, M: Ends> {
    pub(crate) system: &'a M,
    pub(crate) layer: &'a [M::State],
    pub(crate) begin: usize,
}

impl<M: Ends + Sync> Work for EachAfter<'_, M> {
    type Made = Vec<M::State>;

    ghost can_make = { λ w place. (w.begin + place < length w.layer.now) × HoldsAt (M.valid w.system.now) w.layer.now (w.begin + place) };

    ghost is_right = { λ w place made. HoldsAt (λ s. AreEach (M.step w.system.now) s made.items) w.layer.now (w.begin + place) };

    fn make(&self, alloc: Global, place: u32) -> Result<Vec<M::State>, AllocError> {
        self.system
            .each_after(alloc, &self.layer[self.begin + place as usize])
    }

    fn is_last(&self, made: &Vec<M::State>) -> bool {
        let _ = made;
        false
    }
}
