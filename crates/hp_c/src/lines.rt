//! One line of a trace as numbers, and numbers as a line.
ghost use Rattle.std.specs.Prelude.{◌≡◌, ◌⊎◌, ⊤, Some, None, IfErr, IfOk, IsSome, length, string_bytes};
ghost use Rattle.std.specs.Option.{option_map};
ghost use Rattle.hp_base.specs.Text.{event_text};
ghost use Rattle.hp_machine.specs.Text.{outcome_text};
ghost use Rattle.hp_text.specs.Reading.{event_at, header_at};
ghost use Rattle.hp_words.specs.Words.{config_words, event_named, event_words, outcome_named};
ghost use Rattle.hp_c.specs.Answers.{Answered};
ghost use Rattle.hp_c.specs.Codes.{no_memory, no_such};
ghost use Rattle.hp_c.specs.Lines.{IsLineKept, IsLinePut};
ghost use Rattle.hp_c.specs.Texts.{Tells};

use crate::codes::{NO_MEMORY, NO_SUCH, OK, TOO_SMALL};
use crate::texts::put;
use hp_base::{Answer, Op};
use hp_text::{event_at, header_at};
use hp_words::{ConfigWords, EventWords, OutcomeWords};
use std::alloc::Global;
use std::fmt::Write;

/// The sizes that the first line of a trace spells, which stands here without its end.
#[unsafe(no_mangle)]
pub extern "C" fn hugepool_read_config(line: &[u8], config: &mut ConfigWords) -> u32
    ensures read { Answered result (header_at line.now ≡ Some (config_words config.new)) (config.new ≡ config.old) }
    ensures code { Answered result ⊤ ((result ≡ no_such) × (header_at line.now ≡ None)) }
{
    match header_at(line) {
        Some(read) => {
            *config = ConfigWords::of(read);
            OK
        }
        None => NO_SUCH,
    }
}

/// The event that a line of a trace spells, which stands here without its end.
#[unsafe(no_mangle)]
pub extern "C" fn hugepool_read_event(line: &[u8], event: &mut EventWords) -> u32
    ensures read { Answered result (option_map event_words (event_at line.now) ≡ Some event.new) (event.new ≡ event.old) }
    ensures code { Answered result ⊤ ((result ≡ no_such) × (event_at line.now ≡ None)) }
{
    // The checker of borrows asks for a mention of the type that an event may hold.
    let _none: Option<Op> = None;
    match event_at(line) {
        Some(read) => {
            *event = EventWords::of(read);
            OK
        }
        None => NO_SUCH,
    }
}

/// The event's line, or the code for which there is none.
fn event_line(alloc: Global, event: &EventWords) -> Result<String, u32>
    ensures ok { IfOk result (λ text. option_map event_text (event_named event.now) ≡ Some (string_bytes text)) }
    ensures err { IfErr result (λ code. (code ≡ no_memory) × IsSome (option_map event_text (event_named event.now))
        ⊎ (code ≡ no_such) × (event_named event.now ≡ None)) }
{
    // The checker of borrows asks for a mention of the type that an event may hold.
    let _none: Option<Op> = None;
    let Some(event) = event.event() else {
        return Err(NO_SUCH);
    };
    let mut text = String::new(alloc);
    match write!(text, "{event}") {
        Ok(()) => Ok(text),
        Err(_) => Err(NO_MEMORY),
    }
}

/// The line of the outcome that numbers name.
fn outcome_line(alloc: Global, outcome: &OutcomeWords) -> Result<String, u32>
    ensures ok { IfOk result (λ text. option_map outcome_text (outcome_named outcome.now) ≡ Some (string_bytes text)) }
    ensures err { IfErr result (λ code. (code ≡ no_memory) × IsSome (option_map outcome_text (outcome_named outcome.now))
        ⊎ (code ≡ no_such) × (outcome_named outcome.now ≡ None)) }
{
    // The checker of borrows asks for a mention of the type that an outcome may hold.
    let _none: Option<Answer> = None;
    let Some(outcome) = outcome.outcome() else {
        return Err(NO_SUCH);
    };
    let mut text = String::new(alloc);
    match write!(text, "{outcome}") {
        Ok(()) => Ok(text),
        Err(_) => Err(NO_MEMORY),
    }
}

/// Tells a line, or the code for which there is none.
fn tell_line(line: Result<String, u32>, out: &mut [u8], needed: &mut usize) -> u32
    ensures ok { IfOk line (λ text. Tells (string_bytes text) out.old out.new needed.new result 0) }
    ensures err { IfErr line (λ code. (result ≡ code) × (out.new ≡ out.old) × (needed.new ≡ 0)) }
{
    match line {
        Ok(text) => {
            *needed = text.len();
            if put(text.as_bytes(), out) {
                OK
            } else {
                TOO_SMALL
            }
        }
        Err(code) => {
            *needed = 0;
            code
        }
    }
}

/// The line of the event, without its end.
#[unsafe(no_mangle)]
pub extern "C" fn hugepool_write_event(
    alloc: Global,
    event: &EventWords,
    out: &mut [u8],
    needed: &mut usize,
) -> u32
    ensures put { Answered result (IsLinePut (option_map event_text (event_named event.now)) out.old out.new needed.new)
        (out.new ≡ out.old) }
    ensures code { Answered result ⊤
        (IsLineKept (option_map event_text (event_named event.now)) (length out.old) needed.new result) }
{
    tell_line(event_line(alloc, event), out, needed)
}

/// The line of the outcome, without its end, as a replay writes it.
#[unsafe(no_mangle)]
pub extern "C" fn hugepool_write_outcome(
    alloc: Global,
    outcome: &OutcomeWords,
    out: &mut [u8],
    needed: &mut usize,
) -> u32
    ensures put { Answered result (IsLinePut (option_map outcome_text (outcome_named outcome.now)) out.old out.new needed.new)
        (out.new ≡ out.old) }
    ensures code { Answered result ⊤
        (IsLineKept (option_map outcome_text (outcome_named outcome.now)) (length out.old) needed.new result) }
{
    tell_line(outcome_line(alloc, outcome), out, needed)
}
