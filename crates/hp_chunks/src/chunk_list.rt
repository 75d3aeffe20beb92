//! Chunks in a list, which is no longer than it has to be.
ghost use Rattle.std.specs.Prelude.{◌≡◌, ◌+◌, ◌*◌, ◌^◌, ◌<◌, ◌≤◌, ℕ, OnOk, OnErr, IfOk, Some, None, All, length, max, vec_len, vec_capacity};
ghost use Rattle.hp_base.specs.Numbers.{put};
ghost use Rattle.hp_chunks.specs.Chunks.{IsKept, frame_of, AreCopies};

use crate::chunk::{Chunk, PLACES, put_into};
use hp_base::Frame;
use std::alloc::{AllocError, Global};

// Puts a frame into a place of the chunk of number `at`, which is listed behind all that are.
fn put_behind(
    alloc: Global,
    chunks: &mut Vec<Option<Box<Chunk>>>,
    at: usize,
    place: usize,
    frame: Frame,
) -> Result<(), AllocError>
    requires behind { vec_len chunks.old ≤ at }
    requires few { at < 2 ^ 31 }
    requires in_chunk { place < PLACES }
    ensures listed { OnOk result (vec_len chunks.new ≡ at + 1) }
    ensures kept { OnOk result (All IsKept chunks.old.items → All IsKept chunks.new.items) }
    ensures frames { OnOk result
        ((k : ℕ) → frame_of chunks.new.items k ≡ put (frame_of chunks.old.items) (at * PLACES + place) (Some frame) k) }
    ensures err { OnErr result (chunks.new.items ≡ chunks.old.items) }
    ensures capacity { OnErr result (vec_capacity chunks.new ≡ vec_capacity chunks.old) }
{
    let mut slot = None;
    put_into(alloc, &mut slot, place, frame)?;
    chunks.reserve(at + 1 - chunks.len())?;
    for _ in chunks.len()..at {
        chunks.push(None).unwrap();
    }
    chunks.push(slot).unwrap();
    Ok(())
}

/// Puts a frame into a place of the chunk of number `at` that has none. The chunk is made for its first frame, and listed.
pub(crate) fn put_at(
    alloc: Global,
    chunks: &mut Vec<Option<Box<Chunk>>>,
    at: usize,
    place: usize,
    frame: Frame,
) -> Result<(), AllocError>
    requires few { at < 2 ^ 31 }
    requires in_chunk { place < PLACES }
    requires kept { All IsKept chunks.old.items }
    requires vacant { frame_of chunks.old.items (at * PLACES + place) ≡ None }
    ensures listed { OnOk result (length chunks.new.items ≡ max (length chunks.old.items) (at + 1)) }
    ensures kept { OnOk result (All IsKept chunks.new.items) }
    ensures frames { OnOk result
        ((k : ℕ) → frame_of chunks.new.items k ≡ put (frame_of chunks.old.items) (at * PLACES + place) (Some frame) k) }
    ensures err { OnErr result (chunks.new.items ≡ chunks.old.items) }
    ensures capacity { OnErr result (vec_capacity chunks.new ≡ vec_capacity chunks.old) }
{
    if at >= chunks.len() {
        return put_behind(alloc, chunks, at, place, frame);
    }
    put_into(alloc, &mut chunks[at], place, frame)
}

/// Copies all chunks, for which it takes memory.
pub(crate) fn copy_all(
    alloc: Global,
    chunks: &[Option<Box<Chunk>>],
) -> Result<Vec<Option<Box<Chunk>>>, AllocError>
    ensures { IfOk result (λ copies. AreCopies copies.items chunks.now) }
{
    let mut copies = Vec::with_capacity(alloc, chunks.len())?;
    for chunk in chunks {
        let copy = match chunk {
            Some(chunk) => Some(Box::new(alloc, chunk.copy())?),
            None => None,
        };
        copies.push(copy)?;
    }
    Ok(copies)
}
