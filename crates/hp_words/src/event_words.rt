//! An event as numbers.
ghost use Rattle.std.specs.Prelude.{◌≡◌, true, false};
ghost use Rattle.hp_words.specs.Words.{event_named, event_words, no_event, op_named, op_words};

use hp_base::{Event, File, Index, Op, Task, Vpn};

/// What happens to a pool. `kind` says which event it is, and of a begin `op` says which call. The other numbers are what the event or
/// the call names; those that it doesn't name aren't looked at.
#[repr(C)]
#[derive(Clone, Copy)]
pub struct EventWords {
    pub word: u64,
    pub kind: u32,
    pub task: u32,
    pub op: u32,
    pub file: u32,
    pub from: u32,
    pub len: u32,
    pub page: u32,
}

/// All of it 0, but for the kind and the task.
fn no_event(kind: u32, task: u32) -> EventWords
    ensures { result ≡ no_event kind task }
{
    EventWords {
        word: 0,
        kind,
        task,
        op: 0,
        file: 0,
        from: 0,
        len: 0,
        page: 0,
    }
}

/// A call over indices of a file, in numbers.
fn range_words(begin: EventWords, op: u32, file: File, from: Index, len: u32) -> EventWords
    ensures { result ≡ record begin { op = op; file = file; from = from; len = len } }
{
    EventWords {
        op,
        file: file.number(),
        from: from.number(),
        len,
        ..begin
    }
}

/// The call that a task begins, in numbers.
fn op_words(task: Task, op: Op) -> EventWords
    ensures { result ≡ op_words task op }
{
    let begin = no_event(0, task.number());
    match op {
        Op::Map { file, from, len } => range_words(begin, 0, file, from, len),
        Op::MapNoReserve { file, from, len } => range_words(begin, 1, file, from, len),
        Op::Unmap { base } => EventWords {
            op: 2,
            page: base.number(),
            ..begin
        },
        Op::Load { vpn } => EventWords {
            op: 3,
            page: vpn.number(),
            ..begin
        },
        Op::Store { vpn, word } => EventWords {
            op: 4,
            page: vpn.number(),
            word,
            ..begin
        },
        Op::Alloc {
            file,
            from,
            len,
            keep,
        } => range_words(begin, if keep { 6 } else { 5 }, file, from, len),
        Op::Punch { file, from, len } => range_words(begin, 7, file, from, len),
        Op::Truncate { file, new } => EventWords {
            op: 8,
            file: file.number(),
            len: new,
            ..begin
        },
        Op::Exit => EventWords { op: 9, ..begin },
    }
}

impl EventWords {
    /// The event in numbers: what it doesn't name is 0.
    pub fn of(event: Event) -> EventWords
        ensures { result ≡ event_words event }
    {
        match event {
            Event::Begin(task, op) => op_words(task, op),
            Event::Step(task, grant) => no_event(if grant { 1 } else { 2 }, task.number()),
            Event::Kill(task) => no_event(3, task.number()),
            Event::Resize(frames) => EventWords {
                len: frames,
                ..no_event(4, 0)
            },
        }
    }

    fn op(&self) -> Option<Op>
        ensures { result ≡ op_named self.now }
    {
        let file = File::new(self.file);
        let from = Index::new(self.from);
        let vpn = Vpn::new(self.page);
        let len = self.len;
        match self.op {
            0 => Some(Op::Map { file, from, len }),
            1 => Some(Op::MapNoReserve { file, from, len }),
            2 => Some(Op::Unmap { base: vpn }),
            3 => Some(Op::Load { vpn }),
            4 => Some(Op::Store {
                vpn,
                word: self.word,
            }),
            5 => Some(Op::Alloc {
                file,
                from,
                len,
                keep: false,
            }),
            6 => Some(Op::Alloc {
                file,
                from,
                len,
                keep: true,
            }),
            7 => Some(Op::Punch { file, from, len }),
            8 => Some(Op::Truncate { file, new: len }),
            9 => Some(Op::Exit),
            _ => None,
        }
    }

    /// The event that the numbers name, if they name one.
    pub fn event(&self) -> Option<Event>
        ensures { result ≡ event_named self.now }
    {
        let task = Task::new(self.task);
        match self.kind {
            0 => match self.op() {
                Some(op) => Some(Event::Begin(task, op)),
                None => None,
            },
            1 => Some(Event::Step(task, true)),
            2 => Some(Event::Step(task, false)),
            3 => Some(Event::Kill(task)),
            4 => Some(Event::Resize(self.len)),
            _ => None,
        }
    }
}
