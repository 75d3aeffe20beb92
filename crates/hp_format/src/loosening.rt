//! Reads a trace in the loose form.
ghost use Rattle.std.specs.Prelude.{◌≡◌, ◌≤◌, ◌++◌, ◌∷◌, ◌⊎◌, ℕ, List, IfOk, IfErr, IfSome, MatchOption, OnOk, All, Some, [], length};
ghost use Rattle.std.specs.Io.KnownBytes.{Consumes, IsAtEnd};
ghost use Rattle.hp_base.specs.Text.{sizes};
ghost use Rattle.hp_base.specs.declared.event.Event.{Event};
ghost use Rattle.hp_core.specs.State.{CoreState};
ghost use Rattle.hp_format.specs.Lines.{AreFew, lines_in_all, unmarked};
ghost use Rattle.hp_text.specs.TextLines.{lines_of};
ghost use Rattle.hp_format.specs.Loose.{AreGiven, HasNoWords, IsHeader, IsLoose, IsLooseFault, IsOfText, ReadsLoose, TellsLoose};
ghost use Rattle.hp_format.specs.Loose.{HasWrongLine, IsFaultBy, IsFaultRead, IsNoHeader, IsRun, IsWrong, IsWrongAt, LacksHeader, LinesLead, ReadsRun};
ghost use Rattle.hp_text.specs.Streams.{TellsReads};

use crate::asked::asked_of;
use crate::draft::Draft;
use crate::fault::{LooseFault, Reason};
use crate::lines::Lines;
use crate::tidying::tidy;
use hp_base::{Answer, Config, Event, Op};
use hp_text::{Source, Trace, header_at, read_all};
use std::alloc::{AllocError, Global};

/// The pool's header that a line is, if it is one; a line without words is none.
fn header_of(line: &[u8], number: u64, words: &mut Vec<u8>) -> Result<Option<Config>, LooseFault>
    ensures found { IfOk result (λ found. MatchOption found (HasNoWords line.now) (λ config. IsHeader line.now (sizes config))) }
    ensures err { IfErr result IsOfText }
    ensures bad { IfErr result (IsFaultBy (λ n why. (n ≡ number) × (why ≡ Reason.Header) × IsNoHeader line.now)) }
{
    if let Some(config) = header_at(line) {
        return Ok(Some(config));
    }
    tidy(line, words)?;
    if words.is_empty() {
        return Ok(None);
    }
    match header_at(words.as_slice()) {
        Some(config) => Ok(Some(config)),
        None => Err(LooseFault::Line(number, Reason::Header)),
    }
}

/// Goes over the lines up to the header.
fn find_header(lines: &mut Lines, words: &mut Vec<u8>) -> Result<Config, LooseFault>
    requires { AreFew lines.old.number lines.old.rest.now }
    ensures found { IfOk result (λ config. (front : List (List ℕ)) × (header : List ℕ) × All HasNoWords front
        × IsHeader header (sizes config) × (lines_of lines.old.rest.now ≡ front ++ header ∷ lines_of lines.new.rest.now)) }
    ensures counted { lines_in_all lines.new.number lines.new.rest.now ≡ lines_in_all lines.old.number lines.old.rest.now }
    ensures err { IfErr result IsOfText }
    ensures bad { IfErr result (IsFaultBy (LacksHeader lines.old.number (lines_of lines.old.rest.now))) }
{
    while let Some(line) = lines.next_line() {
        match header_of(line, lines.number(), words)? {
            Some(config) => return Ok(config),
            None => {}
        }
    }
    Err(LooseFault::Line(lines.number() + 1, Reason::Header))
}

/// Adds what a line asks for.
fn add_line(
    draft: &mut Draft,
    line: &[u8],
    number: u64,
    words: &mut Vec<u8>,
) -> Result<(), LooseFault>
    ensures sizes { draft.new.sizes ≡ draft.old.sizes }
    ensures events { OnOk result ((lines : List (List ℕ)) → AreGiven lines draft.old.events
        → AreGiven (lines ++ line.now ∷ []) draft.new.events) }
    ensures leads { OnOk result ((first : CoreState) (lines : List (List ℕ)) → LinesLead first lines draft.old.events draft.old.core
        → LinesLead first (lines ++ line.now ∷ []) draft.new.events draft.new.core) }
    ensures err { IfErr result IsOfText }
    ensures bad { IfErr result (IsFaultBy (λ n why. (n ≡ number) × IsWrong draft.old.core draft.old.events line.now why)) }
{
    // The checker of borrows asks for a mention of the types that an event and an outcome may hold.
    let _none: (Option<Answer>, Option<Event>, Option<Op>, Option<Reason>) = (
        None, None, None, None,
    );
    let Some(asked) = asked_of(line, words)? else {
        return Err(LooseFault::Line(number, Reason::NoEvent));
    };
    match draft.add_asked(&asked) {
        Ok(()) => Ok(()),
        Err(why) => Err(why.at(number)),
    }
}

/// Adds what the lines ask for.
fn add_lines(draft: &mut Draft, lines: &mut Lines, words: &mut Vec<u8>) -> Result<(), LooseFault>
    requires none { draft.old.events ≡ [] }
    requires few { AreFew lines.old.number lines.old.rest.now }
    ensures sizes { draft.new.sizes ≡ draft.old.sizes }
    ensures events { OnOk result (AreGiven (lines_of lines.old.rest.now) draft.new.events) }
    ensures leads { OnOk result (LinesLead draft.old.core (lines_of lines.old.rest.now) draft.new.events draft.new.core) }
    ensures err { IfErr result IsOfText }
    ensures bad { IfErr result (IsFaultBy (HasWrongLine draft.old.core lines.old.number (lines_of lines.old.rest.now))) }
{
    // The checker of borrows asks for a mention of the types that an event and an outcome may hold.
    let _none: (Option<Answer>, Option<Event>, Option<Op>, Option<Reason>) = (
        None, None, None, None,
    );
    while let Some(line) = lines.next_line() {
        add_line(draft, line, lines.number(), words)?;
    }
    Ok(())
}

/// The trace that a text asks for.
fn loosen(alloc: Global, text: &[u8]) -> Result<Trace, LooseFault>
    ensures loose { IfOk result (λ trace. IsLoose text.now (sizes trace.config) trace.events.items) }
    ensures few { IfOk result (λ trace. length trace.events.items ≤ 1000000) }
    ensures run { IfOk result (λ trace. IsRun text.now (sizes trace.config) trace.events.items) }
    ensures err { IfErr result IsOfText }
    ensures bad { IfErr result (IsFaultBy (IsWrongAt text.now)) }
{
    // The checker of borrows asks for a mention of the types that an event and an outcome may hold.
    let _none: (Option<Answer>, Option<Event>, Option<Op>, Option<Reason>) = (
        None, None, None, None,
    );
    let mut words = Vec::new(alloc);
    let mut lines = Lines::new(text);
    let config = find_header(&mut lines, &mut words)?;
    let mut draft = Draft::new(alloc, config)?;
    add_lines(&mut draft, &mut lines, &mut words)?;
    Ok(draft.into_trace())
}

/// Reads a trace in the loose form, all of it. The lines are counted from 1, blank ones too.
pub fn read_loose<R: Source>(alloc: Global, reader: &mut R) -> Result<Trace, LooseFault>
    ensures loose { IfOk result (λ trace. ReadsLoose (R.remaining reader.old) (R.remaining reader.new)
        (sizes trace.config) trace.events.items) }
    ensures few { IfOk result (λ trace. length trace.events.items ≤ 1000000) }
    ensures run { IfOk result (λ trace. ReadsRun (R.remaining reader.old) (R.remaining reader.new)
        (sizes trace.config) trace.events.items) }
    ensures fault { IfErr result IsLooseFault }
    ensures bad { IfErr result (IsFaultRead (R.remaining reader.old) (R.remaining reader.new)) }
    ensures reads { TellsLoose result (R.failures reader.old) (R.failures reader.new) }
{
    let text = read_all(alloc, reader)?;
    loosen(alloc, text.as_slice())
}
