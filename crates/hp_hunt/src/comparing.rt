//! Counts of a pool, compared with numbers.
ghost use Rattle.std.specs.Prelude.{◌≡◌, ◌↔◌, IsTrue, IfSome};
ghost use Rattle.hp_hunt.specs.Conditions.{Compares, HasCount, count_of};

use crate::condition::{Comparison, PoolCount, Relation};
use hp_base::File;
use hp_core::Core;

/// How many indices of the file are reserved.
fn reserved_in(core: &Core, file: File) -> u32
    ensures { result ≡ count_of (PoolCount.Reserved file) core.now }
{
    core.nothing_lies_beyond_the_limits();
    core.always();
    if file.number() < core.config().files {
        return core.reserved(file);
    }
    0
}

/// How many pages the file has.
fn pages_in(core: &Core, file: File) -> u32
    ensures { result ≡ count_of (PoolCount.Pages file) core.now }
{
    core.nothing_lies_beyond_the_limits();
    core.always();
    if file.number() < core.config().files {
        return core.pages(file);
    }
    0
}

/// The count of the pool.
fn count_of(core: &Core, count: PoolCount) -> u32
    ensures { result ≡ count_of count core.now }
{
    match count {
        PoolCount::Resv => core.resv(),
        PoolCount::Free => core.free(),
        PoolCount::Used => core.used(),
        PoolCount::Calls => core.calls(),
        PoolCount::Reserved(file) => reserved_in(core, file),
        PoolCount::Pages(file) => pages_in(core, file),
    }
}

/// Whether the two compare so.
fn compares(relation: Relation, count: u32, number: u32) -> bool
    ensures { IsTrue result ↔ Compares relation count number }
{
    match relation {
        Relation::Below => count < number,
        Relation::AtMost => count <= number,
        Relation::Equal => count == number,
        Relation::AtLeast => count >= number,
        Relation::Above => count > number,
    }
}

/// Whether the pool stands so.
pub(crate) fn has_count(core: &Core, comparison: Comparison) -> bool
    ensures { IsTrue result ↔ HasCount comparison core.now }
{
    compares(
        comparison.relation,
        count_of(core, comparison.count),
        comparison.number,
    )
}

/// Whether the pool stands so, where that is asked.
pub(crate) fn has_counts(core: &Core, counted: Option<Comparison>) -> bool
    ensures { IsTrue result ↔ IfSome counted (λ comparison. HasCount comparison core.now) }
{
    match counted {
        Some(comparison) => has_count(core, comparison),
        None => true,
    }
}
