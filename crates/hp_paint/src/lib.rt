//! Words of an output in colours: which words, and a writer that colours them.
//!
//! It stands on nothing but std. It promises that without a palette the output is the inner writer's; with one, that a write passes on the
//! painted text, that without the sequences of colours this is the text, and that it doesn't matter how a text is cut into pieces. It
//! knows no commands, and not when colours are wanted.
#![tactic(auto)]

mod laws;
mod painting;
mod palette;

pub use laws::{
    colours_add_nothing_else, pieces_make_no_difference, whole_words_have_their_colours,
};
pub use painting::Painted;
pub use palette::{Colour, Palette};
