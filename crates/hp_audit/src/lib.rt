//! The state of a pool as plain data, and a check of it that knows nothing of how a core keeps it.
//!
//! It stands on hp_base. A picture is any lists of frames, files and translations, in any order, and
//! the audit tells the first thing that is wrong with it: its shape, a translation that the file
//! doesn't bear out, a frame at two places (free, retired, in a hand or in a page), a translation past
//! a file's end, the reserve count, or the used count. It passes exactly the pictures with which
//! nothing is wrong, and takes no memory. It knows no core, no region map and no page cache: only
//! numbers in lists.
#![tactic(auto)]

mod check;
mod file;
mod finding;
mod picture;

pub use check::audit;
pub use finding::Finding;
pub use picture::{FilePicture, Picture};
