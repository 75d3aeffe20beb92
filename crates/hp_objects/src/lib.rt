//! Lines of an output as objects of JSON: which word stands under which key, and a writer that makes an object of each line.
//!
//! It stands on nothing but std. It promises that without an output's name what is written is the inner writer's; with one, that a write
//! passes on the objects of its lines by one table of places (`Places.antt`), that it doesn't matter how a text is cut into pieces, and
//! that no line's object depends on another line. That an object is JSON is only tested.
#![tactic(auto)]

mod laws;
mod objects;
mod places;

pub use laws::{each_line_is_an_object, pieces_are_one_text};
pub use objects::Objects;
pub use places::{Form, Output, Place};
