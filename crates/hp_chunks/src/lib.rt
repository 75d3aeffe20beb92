//! Frames by number, in chunks that come and go: a map from numbers below a limit to frames, of which places that stand
//! next to each other are kept together; and the page cache of a file, which is such a map over the file's indices.
//!
//! It stands on hp_base. A map is seen as the finite map from number to frame, a cache as that from index to frame, each
//! beside how many places it has taken memory for. A chunk has 64 places, and is there as long as one of them has a frame.
//! So each call on a number looks at one chunk, whatever else is there; contracts don't show chunks. Who owns a frame it
//! doesn't know.
#![tactic(auto)]

pub mod cache;
mod chunk;
mod chunk_list;
pub mod frame_map;

pub use cache::PageCache;
pub use chunk::PLACES;
pub use frame_map::{FrameMap, Frames};
