//! What a task may ask of the pool, and what may happen to it.
ghost use Rattle.std.specs.Prelude.{Some};
ghost use Rattle.hp_base.specs.Text.{op_text, event_text};

use crate::numbers::{File, Index, Task, Vpn};
use std::fmt;

/// What a task asks of the pool. Lengths and sizes are in huge pages.
#[derive(Clone, Copy, Debug, PartialEq, Eq)]
pub enum Op {
    /// `mmap` of a shared range, with its reservation (`hugetlb_reserve_pages`).
    Map {
        file: File,
        from: Index,
        len: u32,
    },
    /// `mmap` with `MAP_NORESERVE`.
    MapNoReserve {
        file: File,
        from: Index,
        len: u32,
    },
    /// `munmap` of the whole mapping that begins at `base`.
    Unmap {
        base: Vpn,
    },
    /// A read of the page's word (`hugetlb_fault`).
    Load {
        vpn: Vpn,
    },
    /// A write of the page's word (`hugetlb_fault`).
    Store {
        vpn: Vpn,
        word: u64,
    },
    /// `fallocate` (`hugetlbfs_fallocate`); `keep` is `FALLOC_FL_KEEP_SIZE`.
    Alloc {
        file: File,
        from: Index,
        len: u32,
        keep: bool,
    },
    /// `fallocate` with `FALLOC_FL_PUNCH_HOLE` (`hugetlbfs_punch_hole`).
    Punch {
        file: File,
        from: Index,
        len: u32,
    },
    /// `ftruncate` to `new` pages, fewer or more than there are (`hugetlbfs_setattr`,
    /// `hugetlb_vmtruncate`).
    Truncate {
        file: File,
        new: u32,
    },
    /// The end of the task (`exit_mmap`).
    Exit,
}

/// What happens to a pool in one hold of its lock.
#[derive(Clone, Copy, Debug, PartialEq, Eq)]
pub enum Event {
    /// The task begins a call.
    Begin(Task, Op),
    /// One step of the task's call. The flag says whether growth that the step wants is granted.
    Step(Task, bool),
    /// The task is killed. Its call goes on, and notices the kill where it looks for one.
    Kill(Task),
    /// The pool is told how many frames it is to have (`nr_hugepages`, `set_max_huge_pages`). It is of no task.
    Resize(u32),
}

/// The operation's words in a trace, as `map 0 0 4`.
impl fmt::Display for Op {
    ghost output = { λ op. Some (op_text op) };

    fn fmt<W: fmt::Write>(&self, f: &mut fmt::Formatter<W>) -> fmt::Result {
        match self {
            Op::Map { file, from, len } => write!(f, "map {file} {from} {len}"),
            Op::MapNoReserve { file, from, len } => write!(f, "mapn {file} {from} {len}"),
            Op::Unmap { base } => write!(f, "unmap {base}"),
            Op::Load { vpn } => write!(f, "load {vpn}"),
            Op::Store { vpn, word } => write!(f, "store {vpn} {word}"),
            Op::Alloc {
                file,
                from,
                len,
                keep: false,
            } => write!(f, "alloc {file} {from} {len}"),
            Op::Alloc {
                file,
                from,
                len,
                keep: true,
            } => write!(f, "allock {file} {from} {len}"),
            Op::Punch { file, from, len } => write!(f, "punch {file} {from} {len}"),
            Op::Truncate { file, new } => write!(f, "trunc {file} {new}"),
            Op::Exit => write!(f, "exit"),
        }
    }
}

/// The event's line in a trace, without its end, as `begin 1 map 0 0 4`.
impl fmt::Display for Event {
    ghost output = { λ event. Some (event_text event) };

    fn fmt<W: fmt::Write>(&self, f: &mut fmt::Formatter<W>) -> fmt::Result {
        match self {
            Event::Begin(task, op) => write!(f, "begin {task} {op}"),
            Event::Step(task, true) => write!(f, "step {task}"),
            Event::Step(task, false) => write!(f, "deny {task}"),
            Event::Kill(task) => write!(f, "kill {task}"),
            Event::Resize(frames) => write!(f, "resize {frames}"),
        }
    }
}
