//! A script of either form while it is read.
ghost use Rattle.std.specs.Prelude.{◌≡◌, ◌+◌, ◌<◌, ◌≤◌, ◌⊎◌, ◌∷◌, ◌++◌, [], None, Some, true, false, not, IfOk, IfErr, IfSome, OnOk};
ghost use Rattle.std.specs.Prelude.{IsSome};
ghost use Rattle.std.specs.Prelude.{length, MatchOption};
ghost use Rattle.std.specs.List.Sorted.{IsNonDecreasingBy};
ghost use Rattle.std.specs.Option.{option_map};
ghost use Rattle.hp_base.specs.Text.{sizes};
ghost use Rattle.hp_text.specs.ScriptLines.{opening_script, lines_of, next_fault, head_at, next_line, with_line, ended_line, is_awaited};
ghost use Rattle.hp_text.specs.ScriptLines.{may_come};
ghost use Rattle.hp_text.specs.ScriptTaking.{IsCut, IsWholeAs, script_room};

use crate::fault::ReplayFault;
use crate::feed::LONGEST_LINE;
use crate::reading::{header_behind, script_line_at};
use crate::script::{Script, Wait};
use crate::script_lines::{ScriptForm, ScriptHead, ScriptLine};
use crate::trace::MOST_EVENTS;
use hp_base::{Op, Task};
use std::alloc::{AllocError, Global};
use std::marker::Model;

/// The header, what the lines behind it say, and what has come of the next line.
#[derive(Drop)]
pub(crate) struct ScriptDraft {
    head: Option<ScriptHead>,
    calls: Vec<(Task, Op)>,
    waits: Vec<Wait>,
    /// For which tasks the next call waits.
    awaited: Vec<Task>,
    rest: Vec<u8>,
}

impl Model for ScriptDraft {
    ghost use Rattle.std.specs.Prelude.{◌≤◌, ◌+◌, length};
    ghost use Rattle.std.specs.Option.{option_map};
    ghost use Rattle.hp_base.specs.Text.{sizes};
    ghost use Rattle.hp_text.specs.ScriptLines.{ScriptState};

    ghost Value = { ScriptState };

    ghost view = { λ d. record {
      head = option_map (λ head. record { form = head.form; sizes = sizes head.config }) d.head;
      calls = d.calls.items;
      waits = d.waits.items;
      awaited = d.awaited.items;
      rest = d.rest.items;
    } };

    ghost invariant = { λ d. record {
      few : length d.calls.items + length d.waits.items ≤ 1000000;
      short : length d.rest.items ≤ 56;
    } };
}

/// The header that a first line spells.
fn head_at(bytes: &[u8]) -> Option<ScriptHead>
    ensures { option_map (λ head. record { form = head.form; sizes = sizes head.config }) result ≡ head_at bytes.now }
{
    match header_behind(b"pool ", bytes) {
        Some(config) => Some(ScriptHead {
            form: ScriptForm::Plain,
            config,
        }),
        None => {
            let config = header_behind(b"script ", bytes)?;
            Some(ScriptHead {
                form: ScriptForm::Waiting,
                config,
            })
        }
    }
}

impl ScriptDraft {
    pub(crate) fn new(alloc: Global) -> Self
        ensures { result ≡ opening_script }
    {
        ScriptDraft {
            head: None,
            calls: Vec::new(alloc),
            waits: Vec::new(alloc),
            awaited: Vec::new(alloc),
            rest: Vec::new(alloc),
        }
    }

    /// The fault of the line that comes next.
    fn fault(&self) -> ReplayFault
        ensures { result ≡ next_fault self.now }
    {
        match self.head {
            None => ReplayFault::BadHeader,
            Some(_) => ReplayFault::BadLine((self.calls.len() + self.waits.len() + 2) as u32),
        }
    }

    /// Adds bytes to the line that comes next.
    pub(crate) fn extend(&mut self, bytes: &[u8]) -> Result<(), ReplayFault>
        ensures ok { OnOk result (self.new ≡ record self.old { rest = self.old.rest ++ bytes.now }) }
        ensures room { OnOk result (script_room self.new + length bytes.now ≤ script_room self.old) }
        ensures err { IfErr result (λ fault. (fault ≡ ReplayFault.Memory)
            ⊎ ((fault ≡ next_fault self.old) × (56 < length self.old.rest + length bytes.now))) }
    {
        if bytes.len() > LONGEST_LINE - self.rest.len() {
            return Err(self.fault());
        }
        self.rest.extend_from_slice(bytes)?;
        Ok(())
    }

    /// Whether the next call waits for the task.
    fn is_awaited(&self, task: Task) -> bool
        ensures { result ≡ is_awaited self.now.awaited task }
    {
        self.awaited.iter().any(|other| *other == task)
    }

    /// Whether the line may come next, in a script that has waits.
    fn may_come(&self, line: &ScriptLine) -> bool
        ensures { result ≡ may_come self.now.awaited line.now }
    {
        match line {
            ScriptLine::Call(task, _) => !self.is_awaited(*task),
            ScriptLine::After(_) => true,
        }
    }

    /// The line behind a header of this form that the rest spells.
    fn next_line(&self, form: ScriptForm) -> Option<ScriptLine>
        ensures line { result ≡ next_line self.now form }
        ensures room { IfSome result (λ _. lines_of self.now < 1000000) }
    {
        if self.calls.len() + self.waits.len() == MOST_EVENTS {
            return None;
        }
        let line = script_line_at(form, self.rest.as_slice())?;
        if self.may_come(&line) {
            Some(line)
        } else {
            None
        }
    }

    /// Adds what the line says.
    fn push_line(&mut self, line: ScriptLine) -> Result<(), AllocError>
        requires { lines_of self.old < 1000000 }
        ensures { OnOk result (self.new ≡ with_line self.old line) }
    {
        match line {
            ScriptLine::Call(task, op) => {
                self.calls.push((task, op))?;
                self.awaited.clear();
            }
            ScriptLine::After(task) => {
                let call = self.calls.len() as u32;
                self.awaited.push(task)?;
                self.waits.push(Wait { call, task })?;
            }
        }
        self.rest.clear();
        Ok(())
    }

    /// Takes the end of the line that comes next.
    pub(crate) fn end_line(&mut self) -> Result<(), ReplayFault>
        ensures ok { OnOk result (ended_line self.old.head self.old ≡ Some self.new) }
        ensures room { OnOk result (script_room self.new + 1 ≤ script_room self.old) }
        ensures err { IfErr result (λ fault. (fault ≡ ReplayFault.Memory)
            ⊎ ((fault ≡ next_fault self.old) × (ended_line self.old.head self.old ≡ None))) }
    {
        match self.head {
            None => {
                let Some(head) = head_at(self.rest.as_slice()) else {
                    return Err(self.fault());
                };
                self.head = Some(head);
                self.rest.clear();
            }
            Some(head) => {
                let Some(line) = self.next_line(head.form) else {
                    return Err(self.fault());
                };
                self.push_line(line)?;
            }
        }
        Ok(())
    }

    /// The script, where no line has begun and no call is awaited.
    pub(crate) fn whole(self) -> Result<Script, ReplayFault>
        requires { IsNonDecreasingBy (λ wait. wait.call) self.waits }
        ensures ok { IfOk result (λ script. IsWholeAs self (sizes script.config) script.calls.items script.waits.items) }
        ensures err { IfErr result (λ fault. (fault ≡ next_fault self) × IsCut self) }
    {
        let fault = self.fault();
        if !self.rest.is_empty() || !self.awaited.is_empty() {
            return Err(fault);
        }
        let ScriptDraft {
            head,
            calls,
            waits,
            awaited: _,
            rest: _,
        } = self;
        match head {
            Some(ScriptHead { form: _, config }) => Ok(Script {
                config,
                calls,
                waits,
            }),
            None => Err(fault),
        }
    }
}
