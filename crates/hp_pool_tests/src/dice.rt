//! Calls that are drawn.
use hp_base::{File, Index, Op, Task, Vpn};

/// Files of the pool, and pages that calls are about.
pub const FILES: u32 = 3;

const PAGES: u32 = 12;

const VPNS: u32 = 40;

pub const TASKS: u32 = 32;

/// Numbers of a linear congruential generator (those of Knuth's MMIX).
#[derive(Clone, Copy)]
pub struct Dice {
    state: u64,
}

impl Dice {
    pub fn new(seed: u64) -> Dice {
        Dice { state: seed }
    }

    /// A number below this one, which isn't 0.
    pub fn below(&mut self, most: u32) -> u32 {
        self.state = self
            .state
            .wrapping_mul(6_364_136_223_846_793_005)
            .wrapping_add(1_442_695_040_888_963_407);
        ((self.state >> 33) % u64::from(most.max(1))) as u32
    }

    fn file(&mut self) -> File {
        File::new(self.below(FILES))
    }

    fn index(&mut self) -> Index {
        Index::new(self.below(PAGES))
    }

    fn len(&mut self) -> u32 {
        self.below(4).saturating_add(1)
    }

    fn vpn(&mut self) -> Vpn {
        Vpn::new(self.below(VPNS))
    }

    pub fn task(&mut self) -> Task {
        Task::new(self.below(TASKS).saturating_add(1))
    }

    /// A call of any kind, an exit but seldom.
    pub fn op(&mut self) -> Op {
        if self.below(20_000) == 0 {
            return Op::Exit;
        }
        match self.below(8) {
            0 => self.map(),
            1 => self.map_no_reserve(),
            2 => Op::Unmap { base: self.vpn() },
            3 => Op::Load { vpn: self.vpn() },
            4 => self.alloc(),
            5 => self.punch(),
            6 => self.truncate(),
            _ => self.store(),
        }
    }

    fn map(&mut self) -> Op {
        let (file, from, len) = (self.file(), self.index(), self.len());
        Op::Map { file, from, len }
    }

    fn map_no_reserve(&mut self) -> Op {
        let (file, from, len) = (self.file(), self.index(), self.len());
        Op::MapNoReserve { file, from, len }
    }

    fn alloc(&mut self) -> Op {
        let (file, from, len) = (self.file(), self.index(), self.len());
        let keep = self.below(2) == 0;
        Op::Alloc {
            file,
            from,
            len,
            keep,
        }
    }

    fn punch(&mut self) -> Op {
        let (file, from, len) = (self.file(), self.index(), self.len());
        Op::Punch { file, from, len }
    }

    fn truncate(&mut self) -> Op {
        let (file, new) = (self.file(), self.below(PAGES));
        Op::Truncate { file, new }
    }

    fn store(&mut self) -> Op {
        let (vpn, word) = (self.vpn(), u64::from(self.below(1_000)));
        Op::Store { vpn, word }
    }
}
