//! Numbers that are not to be mixed up. A contract sees each as the number itself.
ghost use Rattle.std.specs.Prelude.{◌≡◌, ◌≤◌, ◌-◌, Some};
ghost use Rattle.std.specs.Fmt.{decimal};

use std::fmt;
use std::marker::Model;

/// A page frame of the pool, counted from 0.
#[derive(Clone, Copy, Debug, PartialEq, Eq, PartialOrd, Ord)]
pub struct Frame {
    number: u32,
}

impl Model for Frame {
    ghost use Rattle.std.specs.Prelude.{ℕ};

    ghost Value = { ℕ };

    ghost view = { λ frame. frame.number };

    ghost inverse = { λ number. record { number = number } };
}

impl Frame {
    pub const fn new(number: u32) -> Self
        ensures { result ≡ number }
    {
        Frame { number }
    }

    pub const fn number(self) -> u32
        ensures { result ≡ self }
    {
        self.number
    }
}

impl fmt::Display for Frame {
    ghost output = { λ number. Some (decimal number) };

    fn fmt<W: fmt::Write>(&self, f: &mut fmt::Formatter<W>) -> fmt::Result {
        self.number.fmt(f)
    }
}

/// A hugetlbfs file of the pool, counted from 0.
#[derive(Clone, Copy, Debug, PartialEq, Eq, PartialOrd, Ord)]
pub struct File {
    number: u32,
}

impl Model for File {
    ghost use Rattle.std.specs.Prelude.{ℕ};

    ghost Value = { ℕ };

    ghost view = { λ file. file.number };

    ghost inverse = { λ number. record { number = number } };
}

impl File {
    pub const fn new(number: u32) -> Self
        ensures { result ≡ number }
    {
        File { number }
    }

    pub const fn number(self) -> u32
        ensures { result ≡ self }
    {
        self.number
    }
}

impl fmt::Display for File {
    ghost output = { λ number. Some (decimal number) };

    fn fmt<W: fmt::Write>(&self, f: &mut fmt::Formatter<W>) -> fmt::Result {
        self.number.fmt(f)
    }
}

/// A task, counted from 1. Its number stands for the holder of a slot or of a file lock.
#[derive(Clone, Copy, Debug, PartialEq, Eq, PartialOrd, Ord)]
pub struct Task {
    number: u32,
}

impl Model for Task {
    ghost use Rattle.std.specs.Prelude.{ℕ};

    ghost Value = { ℕ };

    ghost view = { λ task. task.number };

    ghost inverse = { λ number. record { number = number } };
}

impl Task {
    pub const fn new(number: u32) -> Self
        ensures { result ≡ number }
    {
        Task { number }
    }

    pub const fn number(self) -> u32
        ensures { result ≡ self }
    {
        self.number
    }

    /// The place of the task in a list of all tasks, which begins with the first of them.
    pub const fn place(self) -> usize
        requires { 1 ≤ self }
        ensures { result ≡ self - 1 }
    {
        (self.number - 1) as usize
    }
}

impl fmt::Display for Task {
    ghost output = { λ number. Some (decimal number) };

    fn fmt<W: fmt::Write>(&self, f: &mut fmt::Formatter<W>) -> fmt::Result {
        self.number.fmt(f)
    }
}

/// The index of a page in a file, counted from 0 in huge pages (`pgoff` of Linux), or an end of a range of such indices.
#[derive(Clone, Copy, Debug, PartialEq, Eq, PartialOrd, Ord)]
pub struct Index {
    number: u32,
}

impl Model for Index {
    ghost use Rattle.std.specs.Prelude.{ℕ};

    ghost Value = { ℕ };

    ghost view = { λ index. index.number };

    ghost inverse = { λ number. record { number = number } };
}

impl Index {
    pub const fn new(number: u32) -> Self
        ensures { result ≡ number }
    {
        Index { number }
    }

    pub const fn number(self) -> u32
        ensures { result ≡ self }
    {
        self.number
    }
}

impl fmt::Display for Index {
    ghost output = { λ number. Some (decimal number) };

    fn fmt<W: fmt::Write>(&self, f: &mut fmt::Formatter<W>) -> fmt::Result {
        self.number.fmt(f)
    }
}

/// The number of a virtual huge page of a task, counted from 0.
#[derive(Clone, Copy, Debug, PartialEq, Eq, PartialOrd, Ord)]
pub struct Vpn {
    number: u32,
}

impl Model for Vpn {
    ghost use Rattle.std.specs.Prelude.{ℕ};

    ghost Value = { ℕ };

    ghost view = { λ vpn. vpn.number };

    ghost inverse = { λ number. record { number = number } };
}

impl Vpn {
    pub const fn new(number: u32) -> Self
        ensures { result ≡ number }
    {
        Vpn { number }
    }

    pub const fn number(self) -> u32
        ensures { result ≡ self }
    {
        self.number
    }
}

impl fmt::Display for Vpn {
    ghost output = { λ number. Some (decimal number) };

    fn fmt<W: fmt::Write>(&self, f: &mut fmt::Formatter<W>) -> fmt::Result {
        self.number.fmt(f)
    }
}
