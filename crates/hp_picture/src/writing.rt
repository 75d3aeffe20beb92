//! Writes a picture, a line at a time. Each line has one spelling.
ghost use Rattle.std.specs.Prelude.{◌≡◌, ◌++◌, ◌⊎◌, [], All, Ok, Err, OnOk, IfErr, string_bytes};
ghost use Rattle.std.specs.Io.KnownBytes.{Appends, Keeps};
ghost use Rattle.hp_text.specs.Streams.{TellsWrites};
ghost use Rattle.hp_text.specs.Writing.{Wrote, IsWriteFault};
ghost use Rattle.hp_picture.specs.Pictures.{picture_of};
ghost use Rattle.hp_picture.specs.Text.{AreShortCounts, IsLine, LineFits, PlacesFit, lines_text, places_text, picture_text, spelled};
ghost use Rattle.hp_picture.specs.Text.{file_lines, free_lines, hand_lines, page_lines, region_lines, retired_lines, translation_lines};

use crate::line::PictureLine;
use crate::picture::{Picture, Places};
use hp_text::{ReplayFault, Sink, write_text};
use std::alloc::{AllocError, Global};

// Lays out a line.
fn push_line(line: PictureLine, text: &mut String) -> Result<(), AllocError>
    ensures fits { IsLine line }
    ensures text { OnOk result (string_bytes text.new ≡ string_bytes text.old ++ spelled line) }
{
    writeln!(text, "{line}")
}

// Lays out a line for each place of a kind.

fn push_free(places: &Places, text: &mut String) -> Result<(), AllocError>
    ensures text { OnOk result (string_bytes text.new ≡ string_bytes text.old ++ lines_text (free_lines places.now)) }
    ensures fits { OnOk result (All LineFits (free_lines places.now)) }
{
    for frame in &places.free {
        push_line(PictureLine::Free(*frame), text)?;
    }
    Ok(())
}

fn push_retired(places: &Places, text: &mut String) -> Result<(), AllocError>
    ensures text { OnOk result (string_bytes text.new ≡ string_bytes text.old ++ lines_text (retired_lines places.now)) }
    ensures fits { OnOk result (All LineFits (retired_lines places.now)) }
{
    for frame in &places.retired {
        push_line(PictureLine::Retired(*frame), text)?;
    }
    Ok(())
}

fn push_hands(places: &Places, text: &mut String) -> Result<(), AllocError>
    ensures text { OnOk result (string_bytes text.new ≡ string_bytes text.old ++ lines_text (hand_lines places.now)) }
    ensures fits { OnOk result (All LineFits (hand_lines places.now)) }
{
    for frame in &places.hands {
        push_line(PictureLine::Hand(*frame), text)?;
    }
    Ok(())
}

fn push_files(places: &Places, text: &mut String) -> Result<(), AllocError>
    ensures text { OnOk result (string_bytes text.new ≡ string_bytes text.old ++ lines_text (file_lines places.now)) }
    ensures fits { OnOk result (All LineFits (file_lines places.now)) }
{
    for (size, locked) in &places.files {
        push_line(PictureLine::File(*size, *locked), text)?;
    }
    Ok(())
}

fn push_regions(places: &Places, text: &mut String) -> Result<(), AllocError>
    ensures text { OnOk result (string_bytes text.new ≡ string_bytes text.old ++ lines_text (region_lines places.now)) }
    ensures fits { OnOk result (All LineFits (region_lines places.now)) }
{
    for (file, from, to) in &places.regions {
        push_line(PictureLine::Region(*file, *from, *to), text)?;
    }
    Ok(())
}

fn push_pages(places: &Places, text: &mut String) -> Result<(), AllocError>
    ensures text { OnOk result (string_bytes text.new ≡ string_bytes text.old ++ lines_text (page_lines places.now)) }
    ensures fits { OnOk result (All LineFits (page_lines places.now)) }
{
    for (file, index, frame) in &places.pages {
        push_line(PictureLine::Page(*file, *index, *frame), text)?;
    }
    Ok(())
}

fn push_translations(places: &Places, text: &mut String) -> Result<(), AllocError>
    ensures text { OnOk result (string_bytes text.new ≡ string_bytes text.old ++ lines_text (translation_lines places.now)) }
    ensures fits { OnOk result (All LineFits (translation_lines places.now)) }
{
    for (task, file, index, frame) in &places.tables {
        push_line(PictureLine::Translation(*task, *file, *index, *frame), text)?;
    }
    Ok(())
}

// Lays out all places, kind by kind.
#[tactic(auto, unfolding(crate::specs::Text::places_text))]
fn push_places(places: &Places, text: &mut String) -> Result<(), AllocError>
    ensures text { OnOk result (string_bytes text.new ≡ string_bytes text.old ++ places_text places.now) }
    ensures fits { OnOk result (PlacesFit places.now) }
{
    push_free(places, text)?;
    push_retired(places, text)?;
    push_hands(places, text)?;
    push_files(places, text)?;
    push_regions(places, text)?;
    push_pages(places, text)?;
    push_translations(places, text)
}

// Lays out a picture.
#[tactic(auto, unfolding(crate::specs::Text::picture_text))]
fn push_picture(picture: &Picture, text: &mut String) -> Result<(), AllocError>
    requires { string_bytes text.old ≡ [] }
    ensures text { OnOk result (string_bytes text.new ≡ picture_text picture.now.counts picture.now.places) }
    ensures fits { OnOk result (PlacesFit picture.now.places) }
{
    push_line(PictureLine::Head(picture.counts), text)?;
    push_places(&picture.places, text)?;
    push_line(PictureLine::End, text)
}

/// Writes the one text of a picture, all at once. Where its counts have 32 bits, `read_picture` reads just this picture from it. Where
/// memory is wanted, nothing is written. Nothing is tried again after an error.
pub fn write_picture<W: Sink>(
    alloc: Global,
    picture: &Picture,
    writer: &mut W,
) -> Result<(), ReplayFault>
    ensures ok { OnOk result (Appends (W.contents writer.old) (W.contents writer.new)
        (picture_text picture.now.counts picture.now.places)) }
    ensures again { (result ≡ Err ReplayFault.Memory) ⊎ (AreShortCounts picture.now.counts
        → picture_of (picture_text picture.now.counts picture.now.places) ≡ Ok (picture.now.counts, picture.now.places)) }
    ensures none { result ≡ Err ReplayFault.Memory → Keeps (W.contents writer.old) (W.contents writer.new) }
    ensures err { IfErr result (λ fault. IsWriteFault fault × Wrote (W.contents writer.old) (W.contents writer.new)
        (picture_text picture.now.counts picture.now.places)) }
    ensures writes { TellsWrites result (W.failures writer.old) (W.failures writer.new) }
{
    let mut text = String::new(alloc);
    push_picture(picture, &mut text)?;
    write_text(writer, text.as_bytes())
}
