//! A pool that is driven: its events, those that were undone, and the file of its trace.
use crate::laying::{
    lay_all_next, lay_asked, lay_event, lay_wrong, push_bytes, push_prompt, trace_of,
};
use crate::typing::{Typed, file_name};
use hp_base::{Answer, Config, Event, Op};
use hp_format::{Asked, Draft, Reason, read_loose};
use hp_replay::push_state;
use hp_text::Watched;
use std::alloc::{AllocError, Global};
use std::fs;
use std::fs::File;
use std::io::Write;
use std::rt::Files;

const OPEN_FIRST: &str = "open a pool first: pool FRAMES FILES SLOTS TASKS [QUOTA]\n";

/// A pool, and what was undone of it.
#[derive(Drop)]
struct Driven {
    draft: Draft,
    // The event that was undone last is the last.
    undone: Vec<Event>,
    // Nothing happened since the trace was written or read.
    is_kept: bool,
}

impl Driven {
    fn new(alloc: Global, draft: Draft) -> Driven {
        Driven {
            draft,
            undone: Vec::new(alloc),
            is_kept: true,
        }
    }

    // Lets what was asked for happen.
    fn lay_asked(&mut self, asked: &Asked, text: &mut String) -> Result<(), AllocError> {
        self.undone.clear();
        self.is_kept = false;
        lay_asked(&mut self.draft, asked, text)
    }

    // Undoes so many events, and says which.
    fn lay_undo(&mut self, alloc: Global, count: u32, text: &mut String) -> Result<(), AllocError> {
        // The checker of borrows asks for a mention of the types that an event may hold.
        let _none: (Option<Answer>, Option<Op>) = (None, None);
        let events = self.draft.events();
        if events.is_empty() {
            return text.push_str("nothing to undo\n");
        }
        let left = events.len().saturating_sub(count as usize);
        let draft = draft_of(alloc, self.draft.core().config(), &events[..left])?;
        for event in events[left..].iter().rev() {
            writeln!(text, "undone: {event}")?;
            self.undone.push(*event)?;
        }
        self.draft = draft;
        self.is_kept = false;
        Ok(())
    }

    // Makes so many undone events anew.
    fn lay_redo(&mut self, count: u32, text: &mut String) -> Result<(), AllocError> {
        // The checker of borrows asks for a mention of the types that an event may hold.
        let _none: (Option<Answer>, Option<Op>, Option<Reason>) = (None, None, None);
        if self.undone.is_empty() {
            return text.push_str("nothing to redo\n");
        }
        self.is_kept = false;
        for _ in 0..count {
            let Some(event) = self.undone.pop() else {
                return Ok(());
            };
            lay_event(&mut self.draft, &event, text)?;
        }
        Ok(())
    }

    // Writes the trace so far into a file, and says whether that worked.
    fn lay_save<H: Files>(
        &mut self,
        rt: &H,
        alloc: Global,
        name: &str,
        text: &mut String,
    ) -> Result<(), AllocError> {
        let trace = trace_of(alloc, &self.draft)?;
        match fs::write(rt, name, trace.as_slice()) {
            Ok(()) => {
                self.is_kept = true;
                writeln!(text, "saved: {name}")
            }
            Err(error) => writeln!(text, "{name}: {error}"),
        }
    }
}

/// A pool to which these events have happened.
fn draft_of(alloc: Global, config: Config, events: &[Event]) -> Result<Draft, AllocError> {
    // The checker of borrows asks for a mention of the types that an event may hold.
    let _none: (Option<Answer>, Option<Op>, Option<Reason>) = (None, None, None);
    let mut draft = Draft::new(alloc, config)?;
    for event in events {
        if draft.add(event).is_err() {
            return Err(AllocError);
        }
    }
    Ok(draft)
}

/// The pool that is driven now, if there is one, and the file that its trace was read from or written into.
#[derive(Drop)]
pub(crate) struct Session {
    driven: Option<Driven>,
    file: Option<String>,
    // Lines are typed at a terminal.
    is_typed: bool,
    // The line before would have dropped events.
    is_warned: bool,
}

impl Session {
    pub(crate) fn new(file: Option<String>, is_typed: bool) -> Session {
        Session {
            driven: None,
            file,
            is_typed,
            is_warned: false,
        }
    }

    /// Appends what asks for the first line, where it is typed.
    pub(crate) fn push_first_prompt(&self, text: &mut String) -> Result<(), AllocError> {
        match self.file {
            None => self.push_prompt(text),
            Some(_) => Ok(()),
        }
    }

    /// Appends what asks for the next line, where lines are typed.
    pub(crate) fn push_prompt(&self, text: &mut String) -> Result<(), AllocError> {
        match &self.driven {
            _ if !self.is_typed => Ok(()),
            Some(driven) => push_prompt(Some(&driven.draft), text),
            None => push_prompt(None, text),
        }
    }

    // Whether another pool would drop events that are in no file, which is said once.
    fn warns(&mut self, text: &mut String) -> Result<bool, AllocError> {
        let Some(driven) = &self.driven else {
            return Ok(false);
        };
        if !self.is_typed || self.is_warned || driven.is_kept || driven.draft.events().is_empty() {
            return Ok(false);
        }
        self.is_warned = true;
        text.push_str(
            "the events so far are in no file: save FILE keeps them, the line again drops them\n",
        )?;
        Ok(true)
    }

    // Opens a new pool, in place of the one that there was.
    fn open(&mut self, alloc: Global, config: Config, text: &mut String) -> Result<(), AllocError> {
        if self.warns(text)? {
            return Ok(());
        }
        self.is_warned = false;
        self.driven = Some(Driven::new(alloc, Draft::new(alloc, config)?));
        writeln!(text, "{config}")
    }

    // Goes on from the trace in a file, and says whether it could be read.
    fn load<H: Files>(
        &mut self,
        rt: &H,
        alloc: Global,
        name: &str,
        text: &mut String,
    ) -> Result<(), AllocError> {
        // The checker of borrows asks for a mention of the types that an event may hold.
        let _none: (Option<Answer>, Option<Op>, Option<Reason>) = (None, None, None);
        if self.warns(text)? {
            return Ok(());
        }
        self.is_warned = false;
        let file = match File::open(rt, name) {
            Ok(file) => file,
            Err(error) => return writeln!(text, "{name}: {error}"),
        };
        let trace = match read_loose(alloc, &mut Watched::new(file)) {
            Ok(trace) => trace,
            Err(fault) => return writeln!(text, "{name}: {fault}"),
        };
        let draft = draft_of(alloc, trace.config, trace.events.as_slice())?;
        writeln!(text, "loaded: {name}, events {}", draft.events().len())?;
        self.driven = Some(Driven::new(alloc, draft));
        self.file = Some(String::from_str(alloc, name)?);
        Ok(())
    }

    // Saves the trace so far in the file of that name, or in the last one.
    fn save<H: Files>(
        &mut self,
        rt: &H,
        alloc: Global,
        name: Option<&str>,
        text: &mut String,
    ) -> Result<(), AllocError> {
        if let Some(name) = name {
            self.file = Some(String::from_str(alloc, name)?);
        }
        match (&mut self.driven, &self.file) {
            (None, _) => text.push_str(OPEN_FIRST),
            (Some(_), None) => text.push_str("there is no file yet: save FILE\n"),
            (Some(driven), Some(file)) => driven.lay_save(rt, alloc, file.as_str(), text),
        }
    }

    // Does what a line asks for that needs a pool.
    fn lay_driven(
        &mut self,
        alloc: Global,
        typed: &Typed,
        words: &[u8],
        text: &mut String,
    ) -> Result<(), AllocError> {
        let Some(driven) = &mut self.driven else {
            return text.push_str(OPEN_FIRST);
        };
        match typed {
            Typed::Asked(asked) => driven.lay_asked(asked, text),
            Typed::Question => lay_all_next(alloc, &driven.draft, text),
            Typed::Undo(count) => driven.lay_undo(alloc, *count, text),
            Typed::Redo(count) => driven.lay_redo(*count, text),
            Typed::State => push_state(driven.draft.core(), text),
            Typed::Trace => push_bytes(text, trace_of(alloc, &driven.draft)?.as_slice()),
            _ => lay_wrong(words, text),
        }
    }

    /// Does what a line asks for, and lays out what came of it.
    pub(crate) fn lay_answer<H: Files>(
        &mut self,
        rt: &H,
        alloc: Global,
        typed: &Typed,
        words: &[u8],
        text: &mut String,
    ) -> Result<(), AllocError> {
        match (typed, file_name(words)) {
            (Typed::Asked(Asked::Nothing), _) => Ok(()),
            (Typed::Header(config), _) => self.open(alloc, *config, text),
            (Typed::Load, Some(name)) => self.load(rt, alloc, name, text),
            (Typed::Save, Some(name)) => self.save(rt, alloc, Some(name), text),
            (Typed::SaveAgain, _) => self.save(rt, alloc, None, text),
            (Typed::Load | Typed::Save, None) => text.push_str("the file's name isn't UTF-8\n"),
            _ => {
                self.is_warned = false;
                self.lay_driven(alloc, typed, words, text)
            }
        }
    }
}
