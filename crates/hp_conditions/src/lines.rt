//! Conditions as a text: a line for each.
ghost use Rattle.std.specs.Prelude.{◌≡◌, ◌||◌, Some, None, Ok, IfOk, IfErr, MatchBool};
ghost use Rattle.hp_conditions.specs.Lines.{IsFaultOf, all_said, conditions_of, is_final, nothing, said, with_line, with_option};

use crate::alternatives::{at_rest, must_rest, next_choice, push_alternatives};
use crate::kind::Kind;
use crate::pieces::split;
use crate::words::kind_named;
use hp_base::{File, Task};
use hp_core::Phase;
use hp_hunt::{
    AnswerName, AnswerWord, CallChoice, Comparison, Condition, LinuxAnswer, PoolCount, Sought,
    SoughtAnswer,
};
use hp_text::split_line;
use hp_watch::CallWord;
use std::alloc::{AllocError, Global};

/// Why no conditions are read.
#[derive(Clone, Copy, Debug, PartialEq, Eq)]
pub enum ConditionsFault {
    /// The line of this number says none, the first of such lines. It is 0 where no line is at fault, but they say no condition.
    Line(u32),
    /// There was no memory.
    Memory,
}

impl From<AllocError> for ConditionsFault {
    ghost use Rattle.hp_conditions.specs.declared.lines.ConditionsFault.TheVariants.{Memory};

    ghost from_gives = { λ _ fault. fault ≡ Memory };

    fn from(_: AllocError) -> ConditionsFault {
        ConditionsFault::Memory
    }
}

/// No text has more lines.
pub const MOST_LINES: u32 = 65_536;

/// What lines say.
#[derive(Drop)]
pub(crate) struct Draft {
    pub(crate) conditions: Vec<Condition>,
    // whether a count at the end is asked for; that no call is in flight there; that calls may be
    pub(crate) counts: bool,
    pub(crate) rest: bool,
    pub(crate) anywhere: bool,
}

/// Whether a count at the end is asked for, once this option is given, too.
fn counts_with(counts: bool, kind: Kind) -> bool
    ensures { result ≡ (counts || is_final kind) }
{
    counts || matches!(kind, Kind::Final)
}

impl Draft {
    /// Adds a line with an option's value. Tells whether it is one.
    #[tactic(auto, unfolding(crate::specs::Lines::with_option))]
    fn add_option(&mut self, line: &[u8]) -> Result<bool, AllocError>
        ensures { IfOk result (λ read. MatchBool read (with_option (said self.old) line.now ≡ Some (said self.new))
            (with_option (said self.old) line.now ≡ None)) }
    {
        let Some((word, text)) = split(b" ", line) else {
            return Ok(false);
        };
        let Some(kind) = kind_named(word) else {
            return Ok(false);
        };
        let read = push_alternatives(kind, text, &mut self.conditions)?;
        self.counts = counts_with(self.counts, kind);
        Ok(read)
    }

    /// Adds a line. Tells whether it says something.
    #[tactic(auto, unfolding(crate::specs::Lines::with_line))]
    fn add_line(&mut self, line: &[u8]) -> Result<bool, AllocError>
        ensures { IfOk result (λ read. MatchBool read (with_line (said self.old) line.now ≡ Some (said self.new))
            (with_line (said self.old) line.now ≡ None)) }
    {
        if line == b"rest".as_slice() {
            self.rest = true;
        } else if line == b"anywhere".as_slice() {
            self.anywhere = true;
        } else {
            return self.add_option(line);
        }
        Ok(true)
    }

    /// All conditions that are said.
    fn whole(self) -> Result<Vec<Condition>, AllocError>
        ensures { IfOk result (λ conditions. conditions.items ≡ all_said (said self)) }
    {
        let Draft {
            mut conditions,
            counts,
            rest,
            anywhere,
        } = self;
        if must_rest(rest, counts, anywhere) {
            let choice = next_choice(conditions.as_slice());
            conditions.push(at_rest(choice))?;
        }
        Ok(conditions)
    }
}

/// The conditions that a text says, of which there is one at least. Each line is an option of `hugepool find` without its dashes, with its
/// value, if it has one.
pub fn read_conditions(alloc: Global, text: &[u8]) -> Result<Vec<Condition>, ConditionsFault>
    ensures ok { IfOk result (λ conditions. conditions_of text.now ≡ Ok conditions.items) }
    ensures err { IfErr result (λ fault. IsFaultOf text.now fault) }
{
    let mut draft = Draft {
        conditions: Vec::new(alloc),
        counts: false,
        rest: false,
        anywhere: false,
    };
    let mut number = 0;
    let mut left = text;
    while !left.is_empty() {
        let (line, behind) = split_line(left);
        if number == MOST_LINES {
            return Err(ConditionsFault::Line(number + 1));
        }
        number += 1;
        if !draft.add_line(line)? {
            return Err(ConditionsFault::Line(number));
        }
        left = behind;
    }
    let conditions = draft.whole()?;
    if conditions.is_empty() {
        return Err(ConditionsFault::Line(0));
    }
    Ok(conditions)
}
