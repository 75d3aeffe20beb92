//! Draws a trace.
ghost use Rattle.std.specs.Prelude.{◌≡◌, ◌≤◌, ◌++◌, OnOk, IfOk, IfErr, IfSome, length, string_bytes};
ghost use Rattle.hp_base.specs.Text.{sizes};
ghost use Rattle.hp_draw.specs.Drawing.{IsDrawing, NotDrawn, PartlyDrawn, PictureOf, WrotePicture};
ghost use Rattle.hp_draw.specs.Pictures.{picture_text, tasks_text};
ghost use Rattle.hp_draw.specs.Sketches.{seen};
ghost use Rattle.hp_text.specs.Streams.{TellsReads, TellsWrites};
ghost use Rattle.hp_text.specs.Traces.{HasFault};
ghost use Rattle.hp_text.specs.Writing.{IsWriteFault};

use crate::curves::push_curves;
use crate::frame::{push_head, push_legend, push_lines};
use crate::hatches::push_hatches;
use crate::lanes::{push_calls, push_lanes, push_phases, push_stays};
use crate::layout::{Layout, lay_out};
use crate::marks::push_marks;
use crate::sketch::{Sketch, sketch_run};
use hp_base::Config;
use hp_text::{MOST_EVENTS, ReplayFault, Sink, Source, Trace, read_trace, write_text};
use std::alloc::{AllocError, Global};

/// Appends the lanes, and what is in them.
#[tactic(auto, unfolding(crate::specs::Pictures::tasks_text))]
fn push_tasks(
    layout: &Layout,
    sketch: &Sketch,
    word: &mut String,
    text: &mut String,
) -> Result<(), AllocError>
    ensures { OnOk result (string_bytes text.new ≡ string_bytes text.old ++ tasks_text layout.now (seen sketch.now)) }
{
    push_lanes(layout, word, text)?;
    push_stays(layout, sketch.stays.as_slice(), text)?;
    push_hatches(layout, sketch.waits.ended.as_slice(), text)?;
    push_phases(layout, sketch.stays.as_slice(), word, text)?;
    push_calls(layout, sketch.stays.as_slice(), word, text)?;
    push_marks(layout, sketch.marks.as_slice(), text)
}

/// Appends the whole picture.
#[tactic(auto, unfolding(crate::specs::Pictures::picture_text))]
fn push_picture(
    config: Config,
    layout: &Layout,
    sketch: &Sketch,
    word: &mut String,
    text: &mut String,
) -> Result<(), AllocError>
    ensures { OnOk result (string_bytes text.new ≡ string_bytes text.old ++ picture_text layout.now (sizes config) (seen sketch.now)) }
{
    push_head(layout, text)?;
    word.clear();
    write!(word, "{config}")?;
    push_legend(word.as_str(), config.quota, text)?;
    push_lines(layout, word, text)?;
    push_tasks(layout, sketch, word, text)?;
    push_curves(layout, config.quota, sketch.numbers.as_slice(), word, text)?;
    text.push_str("</svg>\n")
}

/// Lays out the whole picture.
fn lay_text(
    alloc: Global,
    config: Config,
    layout: &Layout,
    sketch: &Sketch,
) -> Result<String, AllocError>
    ensures { IfOk result (λ text. string_bytes text ≡ picture_text layout.now (sizes config) (seen sketch.now)) }
{
    let mut word = String::new(alloc);
    let mut text = String::new(alloc);
    push_picture(config, layout, sketch, &mut word, &mut text)?;
    Ok(text)
}

/// Runs the trace, and lays out its picture.
fn lay_picture(alloc: Global, trace: &Trace) -> Result<String, AllocError>
    requires { length trace.now.events.items ≤ MOST_EVENTS }
    ensures { IfOk result (λ text. PictureOf (sizes trace.now.config) trace.now.events.items (string_bytes text)) }
{
    let sketch = sketch_run(alloc, trace)?;
    let layout = lay_out(alloc, trace.events.as_slice(), trace.config.quota, &sketch)?;
    let text = lay_text(alloc, trace.config, &layout, &sketch)?;
    Ok(text)
}

/// Runs the trace, and writes its picture. Nothing is tried again after an error.
pub fn draw_trace<W: Sink>(alloc: Global, trace: &Trace, writer: &mut W) -> Result<(), ReplayFault>
    requires { length trace.now.events.items ≤ MOST_EVENTS }
    ensures ok { OnOk result (WrotePicture (sizes trace.now.config) trace.now.events.items
        (W.contents writer.old) (W.contents writer.new)) }
    ensures err { IfErr result (λ fault. IsWriteFault fault × PartlyDrawn (sizes trace.now.config) trace.now.events.items
        (W.contents writer.old) (W.contents writer.new)) }
    ensures writes { TellsWrites result (W.failures writer.old) (W.failures writer.new) }
{
    let text = lay_picture(alloc, trace)?;
    write_text(writer, text.as_bytes())
}

/// Reads the trace that the bytes spell, all of it, and then draws it.
pub fn draw<R: Source, W: Sink>(
    alloc: Global,
    reader: &mut R,
    writer: &mut W,
) -> Result<(), ReplayFault>
    ensures ok { OnOk result (IsDrawing (R.remaining reader.old) (R.remaining reader.new)
        (W.contents writer.old) (W.contents writer.new)) }
    ensures err { IfErr result (λ fault. NotDrawn fault (R.remaining reader.old) (R.remaining reader.new)
        (W.contents writer.old) (W.contents writer.new)) }
    ensures bad { IfErr result (λ fault. IfSome (R.remaining reader.old) (λ bytes. HasFault bytes fault)) }
    ensures reads { TellsReads result (R.failures reader.old) (R.failures reader.new) }
    ensures writes { TellsWrites result (W.failures writer.old) (W.failures writer.new) }
{
    let trace = read_trace(alloc, reader)?;
    draw_trace(alloc, &trace, writer)
}
