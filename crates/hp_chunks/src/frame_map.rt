//! A map from numbers to frames.
ghost use Rattle.std.specs.Prelude.{◌≡◌, ◌*◌, ◌^◌, ◌<◌, ◌≤◌, OnOk, OnErr, IfOk, Some, None, IsSome, is_some, All};
ghost use Rattle.std.specs.FinMap as map;
ghost use Rattle.std.specs.Iterator.{YieldsFirst, item_count};
ghost use Rattle.hp_base.specs.Indices.{count_below};
ghost use Rattle.hp_base.specs.Pages.{IsPagesEnd};
ghost use Rattle.hp_chunks.specs.Framed.{no_chunks, NoMoreChunks, IsFirstWithin};

use crate::chunk::{Chunk, PLACES, first_in, take_from};
use crate::chunk_list::{copy_all, put_at};
use hp_base::Frame;
use std::alloc::{AllocError, Global};
use std::marker::Model;

/// The frame of each number below `CHUNKS * PLACES` that has one.
#[derive(Drop)]
pub struct FrameMap<const CHUNKS: usize> {
    // The place of a number is in the chunk `number / PLACES`, at `number % PLACES`. A chunk is there where one of its
    // places has a frame. The list ends with the last chunk that was ever there: so a new map takes no memory, and is small.
    chunks: Vec<Option<Box<Chunk>>>,
    // how many places of all chunks have a frame
    count: usize,
    // where chunks come from
    alloc: Global,
}

impl<const CHUNKS: usize> Model for FrameMap<CHUNKS> {
    ghost use Rattle.std.specs.Prelude.{◌≡◌, ◌*◌, ◌^◌, ◌≤◌, All, is_some, length, vec_capacity};
    ghost use Rattle.hp_base.specs.Indices.{count_below};
    ghost use Rattle.hp_chunks.specs.declared.chunk.TheConstants.{PLACES};
    ghost use Rattle.hp_chunks.specs.Framed.{Framed, framed_code};
    ghost use Rattle.hp_chunks.specs.Chunks.{IsKept, frame_of, seen_as};

    ghost Value = { Framed };

    ghost coded = { framed_code };

    ghost view = { λ m. seen_as CHUNKS m.chunks.items (vec_capacity m.chunks) };

    ghost invariant = { λ m. record {
      few : length m.chunks.items ≤ CHUNKS;
      small : CHUNKS * PLACES ≤ 2 ^ 31;
      kept : All IsKept m.chunks.items;
      counted : m.count ≡ count_below (λ k. is_some (frame_of m.chunks.items k)) (CHUNKS * PLACES);
    } };
}

impl<const CHUNKS: usize> FrameMap<CHUNKS> {
    /// A map in which no number has a frame.
    pub fn new(alloc: Global) -> Self
        requires { CHUNKS * PLACES ≤ 2 ^ 31 }
        ensures frames { result.frames ≡ map.empty }
        ensures capacity { result.capacity ≡ no_chunks }
    {
        FrameMap {
            chunks: Vec::new(alloc),
            count: 0,
            alloc,
        }
    }

    /// The frame of a number, where it has one. It takes a look at one chunk.
    pub fn get(&self, number: u32) -> Option<Frame>
        ensures { result ≡ map.get self.now.frames number }
    {
        let number = number as usize;
        let chunk = self.chunks.get(number / PLACES)?.as_ref()?;
        chunk.get(number % PLACES)
    }

    /// Gives a frame to a number that has none. Memory is wanted for the first number of a chunk, and to list the chunk.
    pub fn insert(&mut self, number: u32, frame: Frame) -> Result<(), AllocError>
        requires vacant { map.get self.old.frames number ≡ None }
        requires within { number < CHUNKS * PLACES }
        ensures ok { OnOk result (self.new.frames ≡ map.insert self.old.frames number frame) }
        ensures err { OnErr result (self.new ≡ self.old) }
    {
        let (at, place) = (number as usize / PLACES, number as usize % PLACES);
        put_at(self.alloc, &mut self.chunks, at, place, frame)?;
        self.count += 1;
        Ok(())
    }

    /// Takes its frame from a number. With the last number of a chunk its memory is given back.
    pub fn remove(&mut self, number: u32) -> Frame
        requires present { IsSome (map.get self.old.frames number) }
        ensures frame { map.get self.old.frames number ≡ Some result }
        ensures frames { self.new.frames ≡ map.remove self.old.frames number }
        ensures capacity { NoMoreChunks self.new.capacity self.old.capacity }
    {
        let number = number as usize;
        let frame = take_from(&mut self.chunks[number / PLACES], number % PLACES);
        self.count -= 1;
        frame
    }

    /// One more than the highest number that has a frame, 0 where none has. It looks for the highest chunk, and in it
    /// for the highest place.
    pub fn end(&self) -> u32
        ensures end { IsPagesEnd (map.get self.now.frames) result }
        ensures within { result ≤ CHUNKS * PLACES }
    {
        for at in (0..self.chunks.len()).rev() {
            if let Some(chunk) = &self.chunks[at] {
                return (at * PLACES + chunk.highest()) as u32 + 1;
            }
        }
        0
    }

    /// The first number from `from` on and before `to` that has a frame, and its frame. It looks for the next chunk,
    /// and in it for the next place.
    pub fn first_within(&self, from: u32, to: u32) -> Option<(u32, Frame)>
        requires { to ≤ CHUNKS * PLACES }
        ensures { IsFirstWithin (map.get self.now.frames) from to result }
    {
        let mut place = from as usize % PLACES;
        let listed = (to as usize).div_ceil(PLACES).min(self.chunks.len());
        for at in from as usize / PLACES..listed {
            if let Some(found) = first_in(&self.chunks[at], place) {
                let number = (at * PLACES + found.0) as u32;
                return (number < to).then_some((number, found.1));
            }
            place = 0;
        }
        None
    }

    /// The numbers that have a frame, in order, each with its frame. No memory is taken.
    pub fn iter(&self) -> Frames<'_, CHUNKS>
        ensures frames { result ≡ map.entries self.now.frames }
        ensures within { All (λ entry. entry.0 < CHUNKS * PLACES) result }
    {
        let _chunks: &[Option<Box<Chunk>>] = &self.chunks;
        Frames {
            frames: self,
            next: 0,
        }
    }

    /// How many numbers have a frame.
    pub fn count(&self) -> u32
        ensures len { result ≡ map.len self.now.frames }
        ensures count { result ≡ count_below (λ k. is_some (map.get self.now.frames k)) (CHUNKS * PLACES) }
        ensures within { result ≤ CHUNKS * PLACES }
    {
        let _chunks: &[Option<Box<Chunk>>] = &self.chunks;
        self.count as u32
    }

    /// A map with the same frames, for which memory is taken.
    pub fn copy(&self, alloc: Global) -> Result<Self, AllocError>
        ensures { IfOk result (λ copy. copy.frames ≡ self.now.frames) }
    {
        Ok(FrameMap {
            chunks: copy_all(alloc, &self.chunks)?,
            count: self.count,
            alloc,
        })
    }
}

/// The numbers that have a frame, in order, each with its frame, seen as the list of those that are left.
#[derive(Drop)]
pub struct Frames<'a, const CHUNKS: usize> {
    frames: &'a FrameMap<CHUNKS>,
    // the number before which none is left
    next: u32,
}

impl<'a, const CHUNKS: usize> Model for Frames<'a, CHUNKS> {
    ghost use Rattle.std.specs.Prelude.{◌*◌, ◌-◌, ◌^◌, ◌≤◌, ℕ, List};
    ghost use Rattle.std.specs.FinMap as map;
    ghost use Rattle.hp_chunks.specs.declared.chunk.TheConstants.{PLACES};
    ghost use Rattle.hp_chunks.specs.Framed.{listed};

    ghost Value = { List (ℕ × ℕ) };

    ghost view = { λ it. listed (map.get it.frames.now.frames) it.next (CHUNKS * PLACES - it.next) };

    ghost invariant = { λ it. CHUNKS * PLACES ≤ 2 ^ 31 };
}

impl<'a, const CHUNKS: usize> Iterator for Frames<'a, CHUNKS> {
    type Item = (u32, Frame);

    ghost next_gives = { YieldsFirst (λ entries. entries) };

    ghost remaining = { item_count (λ entries. entries) };

    fn next(&mut self) -> Option<(u32, Frame)> {
        let (number, frame) = self
            .frames
            .first_within(self.next, (CHUNKS * PLACES) as u32)?;
        self.next = number + 1;
        Some((number, frame))
    }
}
