//! A chunk: places that stand next to each other.
ghost use Rattle.std.specs.Prelude.{◌≡◌, ℕ, ◌<◌, ◌↔◌, IsTrue, OnOk, OnErr, Some, None, IsSome, is_some};
ghost use Rattle.std.specs.Prelude.{slice_index_or, slice_set, count_by, replicate};
ghost use Rattle.hp_base.specs.Numbers.{put};
ghost use Rattle.hp_chunks.specs.Chunks.{HasFrame, IsKept, frame_in};
ghost use Rattle.hp_chunks.specs.Framed.{IsFirstWithin};

use hp_base::Frame;
use std::alloc::{AllocError, Global};
use std::marker::Model;

/// How many places a chunk has.
pub const PLACES: usize = 64;

/// The frame of each of its places that has one. For which numbers they stand it doesn't know.
#[derive(Drop)]
pub(crate) struct Chunk {
    // a bit for each place that has a frame, the lowest for the first: a frame takes 4 bytes so, where an option takes 8
    present: u64,
    // the frame of each of these, and of the others any
    frames: [Frame; PLACES],
}

impl Model for Chunk {
    ghost use Rattle.std.specs.Prelude.{◌≡◌, ℕ, List, Option, length};
    ghost use Rattle.hp_chunks.specs.declared.chunk.TheConstants.{PLACES};
    ghost use Rattle.hp_chunks.specs.Chunks.{where_present};

    ghost Value = { List (Option ℕ) };

    ghost view = { λ c. where_present c.present c.frames };

    ghost invariant = { λ c. length c.frames ≡ PLACES };
}

impl Chunk {
    /// A chunk with no frame.
    pub(crate) fn new() -> Self
        ensures { result ≡ replicate PLACES None }
    {
        Chunk {
            present: 0,
            frames: [Frame::new(0); PLACES],
        }
    }

    /// The frame of a place, where it has one.
    pub(crate) fn get(&self, place: usize) -> Option<Frame>
        requires { place < PLACES }
        ensures { result ≡ slice_index_or self.now place None }
    {
        let present = (self.present >> place) & 1 == 1;
        present.then_some(self.frames[place])
    }

    /// Puts a frame into a place that has none.
    pub(crate) fn put(&mut self, place: usize, frame: Frame)
        requires in_chunk { place < PLACES }
        requires vacant { slice_index_or self.old place None ≡ None }
        ensures { self.new ≡ slice_set self.old place (Some frame) }
    {
        self.present |= 1 << place;
        self.frames[place] = frame;
    }

    /// Takes the frame out of a place that has one.
    pub(crate) fn take(&mut self, place: usize) -> Frame
        requires in_chunk { place < PLACES }
        requires present { IsSome (slice_index_or self.old place None) }
        ensures frame { slice_index_or self.old place None ≡ Some result }
        ensures rest { self.new ≡ slice_set self.old place None }
    {
        self.present &= !(1 << place);
        self.frames[place]
    }

    /// Whether no place has a frame.
    pub(crate) fn is_empty(&self) -> bool
        ensures { IsTrue result ↔ (count_by is_some self.now ≡ 0) }
    {
        self.present == 0
    }

    /// The highest place that has a frame.
    pub(crate) fn highest(&self) -> usize
        requires { HasFrame self.now }
        ensures in_chunk { result < PLACES }
        ensures present { IsSome (slice_index_or self.now result None) }
        ensures none_above { (k : ℕ) → result < k → slice_index_or self.now k None ≡ None }
    {
        self.present.ilog2() as usize
    }

    /// The first place at or after that one that has a frame, and its frame.
    pub(crate) fn first_from(&self, place: usize) -> Option<(usize, Frame)>
        requires { place < PLACES }
        ensures { IsFirstWithin (λ k. slice_index_or self.now k None) place PLACES result }
    {
        let later = self.present >> place;
        if later == 0 {
            return None;
        }
        let at = place + later.trailing_zeros() as usize;
        Some((at, self.frames[at]))
    }

    /// A chunk with the same frames.
    pub(crate) fn copy(&self) -> Self
        ensures { result ≡ self.now }
    {
        Chunk {
            present: self.present,
            frames: self.frames,
        }
    }
}

/// The first place of a chunk at or after that one that has a frame, where the chunk is there.
pub(crate) fn first_in(slot: &Option<Box<Chunk>>, place: usize) -> Option<(usize, Frame)>
    requires kept { IsKept slot.now }
    requires in_chunk { place < PLACES }
    ensures { IsFirstWithin (frame_in slot.now) place PLACES result }
{
    let chunk = slot.as_ref()?;
    chunk.first_from(place)
}

/// Puts a frame into a place that has none. A chunk is made for its first frame.
pub(crate) fn put_into(
    alloc: Global,
    slot: &mut Option<Box<Chunk>>,
    place: usize,
    frame: Frame,
) -> Result<(), AllocError>
    requires kept { IsKept slot.old }
    requires in_chunk { place < PLACES }
    requires vacant { frame_in slot.old place ≡ None }
    ensures kept { OnOk result (IsKept slot.new) }
    ensures ok { OnOk result ((k : ℕ) → k < PLACES → frame_in slot.new k ≡ put (frame_in slot.old) place (Some frame) k) }
    ensures err { OnErr result (slot.new ≡ slot.old) }
{
    if let Some(chunk) = slot {
        chunk.put(place, frame);
    } else {
        let mut chunk = Box::new(alloc, Chunk::new())?;
        chunk.put(place, frame);
        *slot = Some(chunk);
    }
    Ok(())
}

/// Takes the frame out of a place that has one. A chunk goes with its last frame.
pub(crate) fn take_from(slot: &mut Option<Box<Chunk>>, place: usize) -> Frame
    requires kept { IsKept slot.old }
    requires in_chunk { place < PLACES }
    requires present { IsSome (frame_in slot.old place) }
    ensures frame { frame_in slot.old place ≡ Some result }
    ensures kept { IsKept slot.new }
    ensures rest { (k : ℕ) → k < PLACES → frame_in slot.new k ≡ put (frame_in slot.old) place None k }
    ensures capacity { IsSome slot.new → IsSome slot.old }
{
    let chunk = slot.as_mut().unwrap();
    let frame = chunk.take(place);
    if chunk.is_empty() {
        *slot = None;
    }
    frame
}
