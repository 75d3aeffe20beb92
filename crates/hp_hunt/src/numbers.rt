//! The numbers of an event's line, so that they can be made smaller.
ghost use Rattle.std.specs.Prelude.{◌≡◌, ◌≤◌};
ghost use Rattle.hp_hunt.specs.Numbers.{AreWithin, at, numbers_of, op_numbers, put, replaced, with_numbers, with_op_numbers};

use hp_base::{Event, File, Index, Op, Vpn};

/// The numbers of an event's line but for the task, in the order in which they are spelt. Where there are fewer, the others are 0.
#[derive(Clone, Copy, Debug, PartialEq, Eq)]
pub(crate) struct Numbers {
    pub(crate) first: u64,
    pub(crate) second: u64,
    pub(crate) third: u64,
}

/// One of them.
#[derive(Clone, Copy, Debug, PartialEq, Eq)]
pub(crate) enum Which {
    First,
    Second,
    Third,
}

const fn three(first: u32, second: u32, third: u32) -> Numbers
    ensures first { result.first ≡ first }
    ensures second { result.second ≡ second }
    ensures third { result.third ≡ third }
{
    Numbers {
        first: first as u64,
        second: second as u64,
        third: third as u64,
    }
}

fn op_numbers(op: &Op) -> Numbers
    ensures { result ≡ op_numbers op.now }
{
    match *op {
        Op::Map { file, from, len }
        | Op::MapNoReserve { file, from, len }
        | Op::Punch { file, from, len }
        | Op::Alloc {
            file,
            from,
            len,
            ..
        } => three(file.number(), from.number(), len),
        Op::Unmap { base } => three(base.number(), 0, 0),
        Op::Load { vpn } => three(vpn.number(), 0, 0),
        Op::Store { vpn, word } => Numbers {
            second: word,
            ..three(vpn.number(), 0, 0)
        },
        Op::Truncate { file, new } => three(file.number(), new, 0),
        Op::Exit => three(0, 0, 0),
    }
}

/// The number, which is at most the other.
fn narrow(number: u64, most: u32) -> u32
    requires { number ≤ most }
    ensures { result ≡ number }
{
    number as u32
}

/// The numbers of a range of a file, each at most as large as its own.
fn narrow_range(numbers: Numbers, file: File, from: Index, len: u32) -> (File, Index, u32)
    requires file { numbers.first ≤ file }
    requires from { numbers.second ≤ from }
    requires len { numbers.third ≤ len }
    ensures file { result.0 ≡ numbers.first }
    ensures from { result.1 ≡ numbers.second }
    ensures len { result.2 ≡ numbers.third }
{
    (
        File::new(narrow(numbers.first, file.number())),
        Index::new(narrow(numbers.second, from.number())),
        narrow(numbers.third, len),
    )
}

/// The number of a page, at most as large as its own.
fn narrow_page(numbers: Numbers, vpn: Vpn) -> Vpn
    requires { numbers.first ≤ vpn }
    ensures { result ≡ numbers.first }
{
    Vpn::new(narrow(numbers.first, vpn.number()))
}

/// The operation with these numbers, each at most as large as its own.
fn with_op_numbers(op: &Op, numbers: Numbers) -> Op
    requires { AreWithin numbers (op_numbers op.now) }
    ensures { result ≡ with_op_numbers op.now numbers }
{
    match *op {
        Op::Map { file, from, len } => {
            let (file, from, len) = narrow_range(numbers, file, from, len);
            Op::Map { file, from, len }
        }
        Op::MapNoReserve { file, from, len } => {
            let (file, from, len) = narrow_range(numbers, file, from, len);
            Op::MapNoReserve { file, from, len }
        }
        Op::Alloc {
            file,
            from,
            len,
            keep,
        } => {
            let (file, from, len) = narrow_range(numbers, file, from, len);
            Op::Alloc {
                file,
                from,
                len,
                keep,
            }
        }
        Op::Punch { file, from, len } => {
            let (file, from, len) = narrow_range(numbers, file, from, len);
            Op::Punch { file, from, len }
        }
        Op::Unmap { base } => Op::Unmap {
            base: narrow_page(numbers, base),
        },
        Op::Load { vpn } => Op::Load {
            vpn: narrow_page(numbers, vpn),
        },
        Op::Store { vpn, .. } => Op::Store {
            vpn: narrow_page(numbers, vpn),
            word: numbers.second,
        },
        Op::Truncate { file, new } => Op::Truncate {
            file: File::new(narrow(numbers.first, file.number())),
            new: narrow(numbers.second, new),
        },
        Op::Exit => Op::Exit,
    }
}

fn numbers_of(event: &Event) -> Numbers
    ensures { result ≡ numbers_of event.now }
{
    match event {
        Event::Begin(_, op) => op_numbers(op),
        Event::Step(..) | Event::Kill(_) => three(0, 0, 0),
        Event::Resize(frames) => three(*frames, 0, 0),
    }
}

fn with_numbers(event: &Event, numbers: Numbers) -> Event
    requires { AreWithin numbers (numbers_of event.now) }
    ensures { result ≡ with_numbers event.now numbers }
{
    match event {
        Event::Begin(task, op) => Event::Begin(*task, with_op_numbers(op, numbers)),
        Event::Step(task, granted) => Event::Step(*task, *granted),
        Event::Kill(task) => Event::Kill(*task),
        Event::Resize(frames) => Event::Resize(narrow(numbers.first, *frames)),
    }
}

impl Numbers {
    fn at(self, which: Which) -> u64
        ensures { result ≡ at which self }
    {
        match which {
            Which::First => self.first,
            Which::Second => self.second,
            Which::Third => self.third,
        }
    }

    fn put(self, which: Which, number: u64) -> Numbers
        ensures { result ≡ put which number self }
    {
        match which {
            Which::First => Numbers {
                first: number,
                ..self
            },
            Which::Second => Numbers {
                second: number,
                ..self
            },
            Which::Third => Numbers {
                third: number,
                ..self
            },
        }
    }
}

/// That number of the event.
pub(crate) fn number_of(event: &Event, which: Which) -> u64
    ensures { result ≡ at which (numbers_of event.now) }
{
    numbers_of(event).at(which)
}

/// The event with a smaller number there.
pub(crate) fn replaced(event: &Event, which: Which, number: u64) -> Event
    requires { number ≤ at which (numbers_of event.now) }
    ensures { result ≡ replaced event.now which number }
{
    with_numbers(event, numbers_of(event).put(which, number))
}
