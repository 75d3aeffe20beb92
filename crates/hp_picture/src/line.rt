//! A line of a picture.
ghost use Rattle.std.specs.Prelude.{◌≡◌, Some};
ghost use Rattle.hp_picture.specs.Text.{counts_text, line_text};

use crate::picture::Counts;
use std::fmt;

/// What a line says.
#[derive(Clone, Copy, Debug, PartialEq, Eq)]
pub enum PictureLine {
    /// `picture RESV OWED USED USED_OWED [QUOTA]`, the first line.
    Head(Counts),
    /// `free FRAME`
    Free(u32),
    /// `retired FRAME`
    Retired(u32),
    /// `hand FRAME`
    Hand(u32),
    /// `file SIZE [locked]`
    File(u32, bool),
    /// `region FILE FROM TO`
    Region(u32, u32, u32),
    /// `page FILE INDEX FRAME`
    Page(u32, u32, u32),
    /// `translation TASK FILE INDEX FRAME`
    Translation(u32, u32, u32, u32),
    /// `end`, the last line.
    End,
}

/// `RESV OWED USED USED_OWED`, and behind it the quota where there is one.
impl fmt::Display for Counts {
    ghost output = { λ counts. Some (counts_text counts) };

    fn fmt<W: fmt::Write>(&self, f: &mut fmt::Formatter<W>) -> fmt::Result {
        let Counts {
            resv,
            owed,
            used,
            used_owed,
            quota,
        } = *self;
        match quota {
            None => write!(f, "{resv} {owed} {used} {used_owed}"),
            Some(quota) => write!(f, "{resv} {owed} {used} {used_owed} {quota}"),
        }
    }
}

/// The one spelling of a line, without its end.
impl fmt::Display for PictureLine {
    ghost output = { λ line. Some (line_text line) };

    fn fmt<W: fmt::Write>(&self, f: &mut fmt::Formatter<W>) -> fmt::Result {
        match *self {
            PictureLine::Head(counts) => write!(f, "picture {counts}"),
            PictureLine::Free(frame) => write!(f, "free {frame}"),
            PictureLine::Retired(frame) => write!(f, "retired {frame}"),
            PictureLine::Hand(frame) => write!(f, "hand {frame}"),
            PictureLine::File(size, false) => write!(f, "file {size}"),
            PictureLine::File(size, true) => write!(f, "file {size} locked"),
            PictureLine::Region(file, from, to) => write!(f, "region {file} {from} {to}"),
            PictureLine::Page(file, index, frame) => write!(f, "page {file} {index} {frame}"),
            PictureLine::Translation(task, file, index, frame) => {
                write!(f, "translation {task} {file} {index} {frame}")
            }
            PictureLine::End => write!(f, "end"),
        }
    }
}
