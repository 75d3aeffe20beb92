//! Calls as the tables of docs/MACHINE.md tell them: the phases in which each stands, and what comes of it, where growth is
//! granted and where it is refused.
use Ask::{Alloc, Exit, Map, Punch, Store, Truncate, UnmapFirst};
use Phase::{
    Abort, Accounted, Changed, Clear, Committed, Delete, Enter, Evict, Extend, Found, Free, Head,
    Leave, Locked, Look, Missing, Restore, Room, Settle, Size, Start, Tail, Taken, Unmap, Unslot,
    Want,
};
use Wanted::{Done, Mapped, NoFrame, NoMemory};
use hp_base::{Answer, File, Index, Op, Vpn};
use hp_core::Phase;

/// A map of so many pages from the file's begin on, a store to that virtual page, an allocation or a punch of that index alone, a
/// truncation to that size, the end of the mapping at virtual page 0, or the task's end.
#[derive(Clone, Copy, Debug)]
pub enum Ask {
    Map(u32),
    Store(u32),
    Alloc(u32),
    Punch(u32),
    Truncate(u32),
    UnmapFirst,
    Exit,
}

/// What a call has to end with. A map begins at virtual page 0.
#[derive(Clone, Copy, Debug)]
pub enum Wanted {
    Mapped,
    Done,
    NoFrame,
    NoMemory,
}

/// A call by the task of the first seat or of the second: the phases in which it stands, one after the other; that in which it is
/// refused growth; what it ends with; and the pool's numbers behind it: free frames, the reserve count, reserved indices and pages.
#[derive(Clone, Copy, Debug)]
pub struct Scene {
    pub seat: usize,
    pub ask: Ask,
    pub phases: &'static [Phase],
    pub denied: Option<Phase>,
    pub wanted: Wanted,
    pub numbers: (u32, u32, u32, u32),
}

impl Ask {
    pub fn op(self) -> Op {
        let file = File::new(0);
        match self {
            Ask::Map(len) => Op::Map {
                file,
                from: Index::new(0),
                len,
            },
            Ask::Store(vpn) => Op::Store {
                vpn: Vpn::new(vpn),
                word: 7,
            },
            Ask::Alloc(index) => Op::Alloc {
                file,
                from: Index::new(index),
                len: 1,
                keep: false,
            },
            Ask::Punch(index) => Op::Punch {
                file,
                from: Index::new(index),
                len: 1,
            },
            Ask::Truncate(new) => Op::Truncate { file, new },
            Ask::UnmapFirst => Op::Unmap { base: Vpn::new(0) },
            Ask::Exit => Op::Exit,
        }
    }
}

impl Wanted {
    pub fn answer(self) -> Answer {
        match self {
            Wanted::Mapped => Answer::Mapped(Vpn::new(0)),
            Wanted::Done => Answer::Done,
            Wanted::NoFrame => Answer::NoFrame,
            Wanted::NoMemory => Answer::NoMemory,
        }
    }
}

pub const MAPPING: [Phase; 7] = [Start, Room, Missing, Changed, Accounted, Enter, Leave];

const STORING: [Phase; 9] = [
    Look, Want, Locked, Missing, Changed, Taken, Committed, Found, Leave,
];

/// Of a page, in a pool of two tasks: its translations go, one task a step.
const PUNCHING: [Phase; 10] = [
    Start, Want, Locked, Unmap, Unmap, Evict, Delete, Free, Unslot, Leave,
];

/// In a pool of four frames, all growth is granted. Behind the punch four more pages are one more than are free. The truncation visits
/// the index without a page, and then the one with it.
pub const GRANTED: [Scene; 9] = [
    Scene {
        seat: 0,
        ask: Map(2),
        phases: &MAPPING,
        denied: None,
        wanted: Mapped,
        numbers: (4, 2, 2, 0),
    },
    Scene {
        seat: 1,
        ask: Map(2),
        phases: &MAPPING,
        denied: None,
        wanted: Mapped,
        numbers: (4, 2, 2, 0),
    },
    Scene {
        seat: 0,
        ask: Store(1),
        phases: &STORING,
        denied: None,
        wanted: Done,
        numbers: (3, 1, 2, 1),
    },
    Scene {
        seat: 1,
        ask: Alloc(0),
        phases: &[
            Start, Head, Want, Locked, Missing, Changed, Taken, Committed, Unslot, Extend, Leave,
        ],
        denied: None,
        wanted: Done,
        numbers: (2, 0, 2, 2),
    },
    Scene {
        seat: 1,
        ask: Punch(1),
        phases: &PUNCHING,
        denied: None,
        wanted: Done,
        numbers: (3, 0, 1, 1),
    },
    Scene {
        seat: 0,
        ask: Map(5),
        phases: &[Start, Room, Missing, Changed, Abort, Leave],
        denied: None,
        wanted: NoFrame,
        numbers: (3, 0, 1, 1),
    },
    Scene {
        seat: 0,
        ask: Truncate(0),
        phases: &[
            Start, Size, Want, Locked, Unslot, Want, Locked, Unmap, Unmap, Evict, Free, Unslot,
            Tail, Settle, Leave,
        ],
        denied: None,
        wanted: Done,
        numbers: (4, 0, 0, 0),
    },
    Scene {
        seat: 1,
        ask: UnmapFirst,
        phases: &[Start, Clear, Phase::Drop],
        denied: None,
        wanted: Done,
        numbers: (4, 0, 0, 0),
    },
    Scene {
        seat: 0,
        ask: Exit,
        phases: &[Start, Clear, Phase::Drop, Leave],
        denied: None,
        wanted: Done,
        numbers: (4, 0, 0, 0),
    },
];

/// In such a pool, some growth is refused. A map wants room for a mapping, and a descriptor for its change. So does a store where
/// no descriptor is spare; then it wants a place for its page, without which the frame goes back, and one for the translation,
/// without which the page stays. An allocation of an index that nobody reserved leaves it reserved, without its page; its change
/// has used up the spare descriptor, so the next one wants one. So does the punch of an index between two reserved ones: it ends
/// without, and that index stays reserved. A store behind all that is granted what it wants.
pub const DENIED: [Scene; 10] = [
    Scene {
        seat: 0,
        ask: Map(3),
        phases: &[Start, Room, Leave],
        denied: Some(Room),
        wanted: NoMemory,
        numbers: (4, 0, 0, 0),
    },
    Scene {
        seat: 0,
        ask: Map(3),
        phases: &[Start, Room, Missing, Leave],
        denied: Some(Missing),
        wanted: NoMemory,
        numbers: (4, 0, 0, 0),
    },
    Scene {
        seat: 0,
        ask: Map(3),
        phases: &MAPPING,
        denied: None,
        wanted: Mapped,
        numbers: (4, 3, 3, 0),
    },
    Scene {
        seat: 0,
        ask: Store(1),
        phases: &[Look, Want, Locked, Missing, Leave],
        denied: Some(Missing),
        wanted: NoMemory,
        numbers: (4, 3, 3, 0),
    },
    Scene {
        seat: 0,
        ask: Store(1),
        phases: &[
            Look, Want, Locked, Missing, Changed, Taken, Committed, Restore, Leave,
        ],
        denied: Some(Committed),
        wanted: NoMemory,
        numbers: (4, 3, 3, 0),
    },
    Scene {
        seat: 0,
        ask: Store(1),
        phases: &STORING,
        denied: Some(Found),
        wanted: NoMemory,
        numbers: (3, 2, 3, 1),
    },
    Scene {
        seat: 1,
        ask: Alloc(5),
        phases: &[
            Start, Head, Want, Locked, Missing, Changed, Taken, Committed, Restore, Unslot, Leave,
        ],
        denied: Some(Committed),
        wanted: NoMemory,
        numbers: (3, 3, 4, 1),
    },
    Scene {
        seat: 1,
        ask: Alloc(5),
        phases: &[Start, Head, Want, Locked, Missing, Unslot, Leave],
        denied: Some(Missing),
        wanted: NoMemory,
        numbers: (3, 3, 4, 1),
    },
    Scene {
        seat: 1,
        ask: Punch(1),
        phases: &PUNCHING,
        denied: Some(Delete),
        wanted: Done,
        numbers: (4, 4, 4, 0),
    },
    Scene {
        seat: 0,
        ask: Store(1),
        phases: &STORING,
        denied: None,
        wanted: Done,
        numbers: (3, 3, 4, 1),
    },
];
