//! Looks where frames are.
ghost use Rattle.std.specs.Prelude.{◌≡◌, IfOk, OnOk};
ghost use Rattle.hp_judge.specs.Findings.{frames_of};
ghost use Rattle.hp_judge.specs.Frames.{AddsTwice, NotesFrame};

use crate::finding::Finding;
use hp_picture::Places;
use std::alloc::{AllocError, Global};
use std::collections::HashSet;

// The frames of all places, each as often as it is at one.
fn frames_of(alloc: Global, places: &Places) -> Result<Vec<u32>, AllocError>
    ensures { IfOk result (λ frames. frames.items ≡ frames_of places.now) }
{
    let mut frames = Vec::new(alloc);
    frames.extend_from_slice(places.free.as_slice())?;
    frames.extend_from_slice(places.retired.as_slice())?;
    frames.extend_from_slice(places.hands.as_slice())?;
    for page in &places.pages {
        frames.push(page.2)?;
    }
    Ok(frames)
}

// Notes that the frame is at a place: where it was at one before, that is a finding.
fn note_frame(
    seen: &mut HashSet<u32>,
    frame: u32,
    findings: &mut Vec<Finding>,
) -> Result<(), AllocError>
    ensures { OnOk result (NotesFrame seen.old seen.new frame findings.old.items findings.new.items) }
{
    if !seen.insert(frame)? {
        findings.push(Finding::Place { frame })?;
    }
    Ok(())
}

// Adds a finding for each of these frames that is among them twice, and one more for each further time.
fn add_twice(alloc: Global, frames: &[u32], findings: &mut Vec<Finding>) -> Result<(), AllocError>
    ensures { OnOk result (AddsTwice frames.now findings.old.items findings.new.items) }
{
    let mut seen = HashSet::new(alloc);
    for frame in frames {
        note_frame(&mut seen, *frame, findings)?;
    }
    Ok(())
}

/// Adds a finding for each frame that is at two places, and one more for each further place.
pub(crate) fn add_frames(
    alloc: Global,
    places: &Places,
    findings: &mut Vec<Finding>,
) -> Result<(), AllocError>
    ensures { OnOk result (AddsTwice (frames_of places.now) findings.old.items findings.new.items) }
{
    let frames = frames_of(alloc, places)?;
    add_twice(alloc, frames.as_slice(), findings)
}
