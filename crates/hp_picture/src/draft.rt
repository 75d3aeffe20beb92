//! A picture while it is read.
ghost use Rattle.std.specs.Prelude.{◌≡◌, ◌+◌, Some, None, Ok, Err, true, false, IfOk, IfErr, OnOk, OnErr, IfSome, ◌<◌, ◌^◌, ◌⊎◌};
ghost use Rattle.hp_picture.specs.Pictures.{opening, with_place, next, behind_head, is_end, finished};

use crate::fault::PictureFault;
use crate::line::PictureLine;
use crate::picture::{Counts, Picture, Places};
use crate::reading::line_at;
use hp_text::ReplayFault;
use std::alloc::{AllocError, Global};
use std::marker::Model;

/// The lines so far.
#[derive(Drop)]
pub(crate) struct Draft {
    head: Option<Counts>,
    places: Places,
    ended: bool,
}

impl Model for Draft {
    ghost use Rattle.hp_picture.specs.Pictures.{DraftState};

    ghost Value = { DraftState };

    ghost view = { λ d. record { head = d.head; places = d.places; ended = d.ended } };
}

impl Places {
    fn new(alloc: Global) -> Self
        ensures { result ≡ opening.places }
    {
        Places {
            free: Vec::new(alloc),
            retired: Vec::new(alloc),
            hands: Vec::new(alloc),
            files: Vec::new(alloc),
            regions: Vec::new(alloc),
            pages: Vec::new(alloc),
            tables: Vec::new(alloc),
        }
    }

    /// Adds what a line says, and tells whether it says a place.
    #[tactic(auto, unfolding(crate::specs::Pictures::with_place))]
    fn add(&mut self, line: PictureLine) -> Result<bool, AllocError>
        ensures added { IfOk result (λ is_place. is_place ≡ true → with_place self.old line ≡ Some self.new) }
        ensures none { IfOk result (λ is_place. is_place ≡ false → (with_place self.old line ≡ None) × (self.new ≡ self.old)) }
    {
        match line {
            PictureLine::Head(_) | PictureLine::End => return Ok(false),
            PictureLine::Free(frame) => self.free.push(frame)?,
            PictureLine::Retired(frame) => self.retired.push(frame)?,
            PictureLine::Hand(frame) => self.hands.push(frame)?,
            PictureLine::File(size, locked) => self.files.push((size, locked))?,
            PictureLine::Region(file, from, to) => self.regions.push((file, from, to))?,
            PictureLine::Page(file, index, frame) => self.pages.push((file, index, frame))?,
            PictureLine::Translation(task, file, index, frame) => self
                .tables
                .push((task, file, index, frame))?,
        }
        Ok(true)
    }
}

/// Whether a line is the end.
fn is_end(line: PictureLine) -> bool
    ensures { result ≡ is_end line }
{
    match line {
        PictureLine::End => true,
        PictureLine::Head(_)
        | PictureLine::Free(_)
        | PictureLine::Retired(_)
        | PictureLine::Hand(_)
        | PictureLine::File(..)
        | PictureLine::Region(..)
        | PictureLine::Page(..)
        | PictureLine::Translation(..) => false,
    }
}

/// Why nothing more is read: the line behind so many others is a bad one.
fn bad_line(lines: u64) -> PictureFault
    requires { lines < 2 ^ 63 }
    ensures { result ≡ PictureFault.Line (lines + 1) }
{
    PictureFault::Line(lines + 1)
}

impl Draft {
    pub(crate) fn new(alloc: Global) -> Self
        ensures { result ≡ opening }
    {
        Draft {
            head: None,
            places: Places::new(alloc),
            ended: false,
        }
    }

    /// Takes what a line behind the first says.
    fn take_behind(&mut self, line: PictureLine, lines: u64) -> Result<(), PictureFault>
        requires { lines < 2 ^ 63 }
        ensures ok { OnOk result (behind_head self.old line ≡ Some self.new) }
        ensures err { IfErr result (λ fault. (fault ≡ PictureFault.Stream ReplayFault.Memory)
            ⊎ ((fault ≡ PictureFault.Line (lines + 1)) × (behind_head self.old line ≡ None))) }
    {
        if is_end(line) {
            self.ended = true;
            return Ok(());
        }
        let is_place = self.places.add(line)?;
        if is_place {
            Ok(())
        } else {
            Err(bad_line(lines))
        }
    }

    /// Takes the line that comes behind so many others.
    #[tactic(auto, unfolding(crate::specs::Pictures::next))]
    pub(crate) fn take(&mut self, bytes: &[u8], lines: u64) -> Result<(), PictureFault>
        requires { lines < 2 ^ 63 }
        ensures ok { OnOk result (next self.old bytes.now ≡ Some self.new) }
        ensures err { IfErr result (λ fault. (fault ≡ PictureFault.Stream ReplayFault.Memory)
            ⊎ ((fault ≡ PictureFault.Line (lines + 1)) × (next self.old bytes.now ≡ None))) }
    {
        let Some(line) = line_at(bytes) else {
            return Err(bad_line(lines));
        };
        match (self.head, self.ended) {
            (Some(_), false) => self.take_behind(line, lines),
            (Some(_), true) => Err(bad_line(lines)),
            (None, _) => match line {
                PictureLine::Head(counts) => {
                    self.head = Some(counts);
                    Ok(())
                }
                _ => Err(bad_line(lines)),
            },
        }
    }

    /// The picture, where all its lines are there.
    pub(crate) fn whole(self, lines: u64) -> Result<Picture, PictureFault>
        requires { lines < 2 ^ 63 }
        ensures ok { IfOk result (λ picture. finished lines self.head self.ended self.places ≡ Ok (picture.counts, picture.places)) }
        ensures err { IfErr result (λ fault. (fault ≡ PictureFault.Line (lines + 1))
            × (finished lines self.head self.ended self.places ≡ Err (lines + 1))) }
    {
        let Draft {
            head,
            places,
            ended,
        } = self;
        match (head, ended) {
            (Some(counts), true) => Ok(Picture { counts, places }),
            _ => Err(bad_line(lines)),
        }
    }
}
