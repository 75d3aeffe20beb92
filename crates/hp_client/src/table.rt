//! The eleven workloads as data, after tests of libhugetlbfs whose names they bear; their contents are ours.
ghost use Rattle.std.specs.Prelude.{◌≡◌, ◌≤◌, All};
ghost use Rattle.hp_base.specs.Limits.{IsWithinLimits};
ghost use Rattle.hp_client.specs.Tables.{name_of, table_of, calls_in, IsApart};

use hp_core::Tally;

/// An operation, with its numbers.
#[derive(Clone, Copy, Debug, PartialEq, Eq)]
pub enum Ask {
    Map(u32, u32, u32),
    MapNoReserve(u32, u32, u32),
    Unmap(u32),
    Load(u32),
    Store(u32, u64),
    Alloc(u32, u32, u32, bool),
    Punch(u32, u32, u32),
    Truncate(u32, u32),
}

/// An answer, with its number.
#[derive(Clone, Copy, Debug, PartialEq, Eq)]
pub enum Allowed {
    Mapped(u32),
    Word(u64),
    Done,
    Beyond,
    NoFrame,
}

/// A task's call, and the one answer that is allowed.
#[derive(Clone, Copy, Debug, PartialEq, Eq)]
pub struct Row(pub u32, pub Ask, pub Allowed);

/// A line of a table: a round of one call, or of two, or a `fallocate` with its task, file, mode, offset and length.
#[derive(Clone, Copy, Debug, PartialEq, Eq)]
pub enum Line {
    Call(Row),
    Race(Row, Row),
    Fallocate(u32, u32, u32, u64, u64, Allowed),
}

/// The sizes of the pool that a workload is for: its frames, files and tasks. All have four slots.
#[derive(Clone, Copy, Debug, PartialEq, Eq)]
pub struct Pool(pub u32, pub u32, pub u32);

/// A workload's table: its name, the pool that it is for, its lines, and the numbers of the pool at their
/// end.
#[derive(Clone, Copy, Debug)]
pub(crate) struct Table {
    pub name: &'static str,
    pub pool: Pool,
    pub tally: Tally,
    pub lines: &'static [Line],
}

use Allowed::{Beyond, Done, Mapped, NoFrame, Word};
use Ask::{Alloc, Load, Map, MapNoReserve, Punch, Store, Truncate, Unmap};
use Line::{Call, Fallocate, Race};

const READBACK: Table = Table {
    name: "readback",
    pool: Pool(4, 1, 1),
    tally: Tally {
        free: 3,
        resv: 0,
        reserved: 1,
        pages: 1,
    },
    lines: &[
        Call(Row(1, Map(0, 0, 1), Mapped(0))),
        Call(Row(1, Store(0, 77), Done)),
        Call(Row(1, Load(0), Word(77))),
    ],
};

const SHARED: Table = Table {
    name: "shared",
    pool: Pool(4, 1, 2),
    tally: Tally {
        free: 3,
        resv: 0,
        reserved: 1,
        pages: 1,
    },
    lines: &[
        Call(Row(1, Map(0, 0, 1), Mapped(0))),
        Call(Row(2, Map(0, 0, 1), Mapped(0))),
        Call(Row(1, Store(0, 11), Done)),
        Call(Row(2, Load(0), Word(11))),
        Call(Row(2, Store(0, 12), Done)),
        Call(Row(1, Load(0), Word(12))),
    ],
};

const TRUNCATE: Table = Table {
    name: "truncate",
    pool: Pool(4, 1, 1),
    tally: Tally {
        free: 4,
        resv: 0,
        reserved: 0,
        pages: 0,
    },
    lines: &[
        Call(Row(1, Map(0, 0, 1), Mapped(0))),
        Call(Row(1, Store(0, 5), Done)),
        Call(Row(1, Truncate(0, 0), Done)),
        Call(Row(1, Load(0), Beyond)),
    ],
};

const ALLOC_INSTANTIATE_RACE: Table = Table {
    name: "alloc-instantiate-race",
    pool: Pool(1, 1, 2),
    tally: Tally {
        free: 0,
        resv: 0,
        reserved: 1,
        pages: 1,
    },
    lines: &[
        Call(Row(1, Map(0, 0, 1), Mapped(0))),
        Call(Row(2, Map(0, 0, 1), Mapped(0))),
        Race(Row(1, Store(0, 5), Done), Row(2, Store(0, 6), Done)),
    ],
};

const CHUNK_OVERCOMMIT: Table = Table {
    name: "chunk-overcommit",
    pool: Pool(4, 2, 1),
    tally: Tally {
        free: 3,
        resv: 3,
        reserved: 4,
        pages: 1,
    },
    lines: &[
        Call(Row(1, Map(0, 0, 3), Mapped(0))),
        Call(Row(1, Map(1, 0, 2), NoFrame)),
        Call(Row(1, Map(1, 0, 1), Mapped(3))),
        Call(Row(1, Load(0), Word(0))),
    ],
};

const NORESV_PRESERVE_RESV_PAGE: Table = Table {
    name: "noresv-preserve-resv-page",
    pool: Pool(2, 2, 2),
    tally: Tally {
        free: 0,
        resv: 0,
        reserved: 2,
        pages: 2,
    },
    lines: &[
        Call(Row(1, Map(0, 0, 1), Mapped(0))),
        Call(Row(2, MapNoReserve(1, 0, 2), Mapped(0))),
        Call(Row(2, Store(0, 1), Done)),
        Call(Row(2, Store(1, 1), NoFrame)),
        Call(Row(1, Store(0, 2), Done)),
    ],
};

const NORESV_REGARDED_AS_RESV: Table = Table {
    name: "noresv-regarded-as-resv",
    pool: Pool(2, 1, 1),
    tally: Tally {
        free: 2,
        resv: 2,
        reserved: 2,
        pages: 0,
    },
    lines: &[
        Call(Row(1, MapNoReserve(0, 0, 1), Mapped(0))),
        Call(Row(1, Store(0, 3), Done)),
        Call(Row(1, Unmap(0), Done)),
        Call(Row(1, Truncate(0, 0), Done)),
        Call(Row(1, Map(0, 0, 2), Mapped(0))),
    ],
};

const TRUNCATE_RESERVE_WRAPAROUND: Table = Table {
    name: "truncate_reserve_wraparound",
    pool: Pool(4, 1, 1),
    tally: Tally {
        free: 4,
        resv: 0,
        reserved: 0,
        pages: 0,
    },
    lines: &[
        Call(Row(1, Map(0, 0, 2), Mapped(0))),
        Call(Row(1, Store(0, 1), Done)),
        Call(Row(1, Store(1, 1), Done)),
        Call(Row(1, Truncate(0, 0), Done)),
        Call(Row(1, Load(0), Beyond)),
    ],
};

const FALLOCATE_BASIC: Table = Table {
    name: "fallocate_basic",
    pool: Pool(4, 1, 1),
    tally: Tally {
        free: 1,
        resv: 0,
        reserved: 3,
        pages: 3,
    },
    lines: &[
        Call(Row(1, Alloc(0, 0, 3, false), Done)),
        Call(Row(1, Punch(0, 1, 1), Done)),
        Call(Row(1, Alloc(0, 3, 1, true), Done)),
        Call(Row(1, MapNoReserve(0, 0, 4), Mapped(0))),
        Call(Row(1, Load(0), Word(0))),
    ],
};

const FALLOCATE_ALIGN: Table = Table {
    name: "fallocate_align",
    pool: Pool(4, 1, 1),
    tally: Tally {
        free: 3,
        resv: 0,
        reserved: 1,
        pages: 1,
    },
    lines: &[
        Fallocate(1, 0, 0, 1, 2_097_152, Done),
        Fallocate(1, 0, 3, 1, 4_194_303, Done),
        Fallocate(1, 0, 3, 1, 2_097_151, Done),
    ],
};

const COUNTERS: Table = Table {
    name: "counters",
    pool: Pool(8, 1, 1),
    tally: Tally {
        free: 8,
        resv: 4,
        reserved: 4,
        pages: 0,
    },
    lines: &[
        Call(Row(1, Map(0, 0, 4), Mapped(0))),
        Call(Row(1, Store(0, 1), Done)),
        Call(Row(1, Punch(0, 0, 1), Done)),
        Call(Row(1, Truncate(0, 2), Done)),
        Call(Row(1, Unmap(0), Done)),
        Call(Row(1, Map(0, 0, 4), Mapped(0))),
    ],
};

/// The workloads.
#[derive(Clone, Copy, Debug, PartialEq, Eq)]
pub enum Workload {
    Readback,
    Shared,
    Truncate,
    AllocInstantiateRace,
    ChunkOvercommit,
    NoresvPreserveResvPage,
    NoresvRegardedAsResv,
    TruncateReserveWraparound,
    FallocateBasic,
    FallocateAlign,
    Counters,
}

impl Workload {
    /// All of them.
    pub const ALL: [Workload; 11] = [
        Workload::Readback,
        Workload::Shared,
        Workload::Truncate,
        Workload::AllocInstantiateRace,
        Workload::ChunkOvercommit,
        Workload::NoresvPreserveResvPage,
        Workload::NoresvRegardedAsResv,
        Workload::TruncateReserveWraparound,
        Workload::FallocateBasic,
        Workload::FallocateAlign,
        Workload::Counters,
    ];

    /// Its table.
    #[tactic(auto, unfolding(crate::specs::Tables::table_of))]
    pub(crate) fn table(self) -> Table
        ensures name { result.name.now ≡ (table_of self).name }
        ensures pool { result.pool ≡ (table_of self).pool }
        ensures tally { result.tally ≡ (table_of self).tally }
        ensures lines { result.lines.now ≡ (table_of self).lines }
        ensures within { IsWithinLimits result.pool.0 result.pool.1 4 result.pool.2 }
        ensures apart { All IsApart result.lines.now }
        ensures few { calls_in result.lines.now ≤ 6 }
    {
        match self {
            Workload::Readback => READBACK,
            Workload::Shared => SHARED,
            Workload::Truncate => TRUNCATE,
            Workload::AllocInstantiateRace => ALLOC_INSTANTIATE_RACE,
            Workload::ChunkOvercommit => CHUNK_OVERCOMMIT,
            Workload::NoresvPreserveResvPage => NORESV_PRESERVE_RESV_PAGE,
            Workload::NoresvRegardedAsResv => NORESV_REGARDED_AS_RESV,
            Workload::TruncateReserveWraparound => TRUNCATE_RESERVE_WRAPAROUND,
            Workload::FallocateBasic => FALLOCATE_BASIC,
            Workload::FallocateAlign => FALLOCATE_ALIGN,
            Workload::Counters => COUNTERS,
        }
    }

    /// Its name, as `readback`.
    pub fn name(self) -> &'static str
        ensures { result.now ≡ name_of self }
    {
        self.table().name
    }
}
