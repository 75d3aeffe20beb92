//! What a task has mapped, and which of its virtual pages are translated (Linux: the VMAs of an
//! `mm_struct`, and its page table).
//!
//! It stands on hp_base and hp_chunks. A space is seen as the list of its mappings in order of their bases, the
//! finite map of its entries from virtual page to frame, whether capacity for a mapping is prepared, and
//! for how many mappings and entries it has taken memory.
//! Its mappings share no page and end within the space, and each entry lies in one of them. Beside the entries it keeps
//! for which index of which file each stands, so that those of an index are found. It knows neither what a file holds
//! nor who owns a frame.
#![tactic(auto)]

mod gaps;
mod places;
mod search;
mod space;

pub use space::{Space, Translations};
