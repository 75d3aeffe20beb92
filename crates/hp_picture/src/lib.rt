//! A pool's state as lines of text: read, with the first bad line named, and written.
//!
//! It stands on hp_text, whose streams and words of a line it takes. A picture is numbers in lists, of any pool: also of a
//! kernel's, whose files may have more indices than the machine's. It promises that what is read is what the lines say, and
//! that what is written is read as what it was. It knows no core.
#![tactic(auto)]

mod draft;
mod fault;
mod line;
mod picture;
mod reading;
mod text;
mod writing;

pub use fault::PictureFault;
pub use line::PictureLine;
pub use picture::{Counts, Picture, Places};
pub use reading::line_at;
pub use text::read_picture;
pub use writing::write_picture;
