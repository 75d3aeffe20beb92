//! Counts of a pool, and what they are compared with.
ghost use Rattle.std.specs.Prelude.{◌≡◌};
ghost use Rattle.std.specs.Option.{option_map};
ghost use Rattle.hp_conditions.specs.Sought.{comparison_at, count_at, file_count, pool_count, signed, signed_by};
ghost use Rattle.hp_conditions.specs.Words.{sign};

use crate::numbers::number_at;
use crate::pieces::split;
use hp_base::File;
use hp_hunt::{Comparison, PoolCount, Relation};

/// The count of a file that is called so.
#[tactic(auto, unfolding(crate::specs::Sought::file_count))]
fn file_count(name: &[u8], file: File) -> Option<PoolCount>
    ensures { result ≡ file_count name.now file }
{
    if name == b"reserved".as_slice() {
        Some(PoolCount::Reserved(file))
    } else if name == b"pages".as_slice() {
        Some(PoolCount::Pages(file))
    } else {
        None
    }
}

/// The count of the pool that is called so.
#[tactic(auto, unfolding(crate::specs::Sought::pool_count))]
fn pool_count(name: &[u8]) -> Option<PoolCount>
    ensures { result ≡ pool_count name.now }
{
    match name {
        b"resv" => Some(PoolCount::Resv),
        b"free" => Some(PoolCount::Free),
        b"used" => Some(PoolCount::Used),
        _ => None,
    }
}

/// `COUNT`.
#[tactic(auto, unfolding(crate::specs::Sought::count_at))]
fn count_at(text: &[u8]) -> Option<PoolCount>
    ensures { result ≡ count_at text.now }
{
    match split(b":", text) {
        Some((name, number)) => {
            let file = File::new(number_at(number)?);
            file_count(name, file)
        }
        None => pool_count(text),
    }
}

/// How a comparison is spelt.
fn sign(relation: Relation) -> &'static [u8]
    ensures { result.now ≡ sign relation }
{
    match relation {
        Relation::Below => b"<",
        Relation::AtMost => b"<=",
        Relation::Equal => b"=",
        Relation::AtLeast => b">=",
        Relation::Above => b">",
    }
}

/// That comparison, what stands before its sign, and what stands behind it.
fn signed_by(relation: Relation, text: &[u8]) -> Option<(Relation, &[u8], &[u8])>
    ensures { option_map (λ s. (s.0, s.1.now, s.2.now)) result ≡ signed_by relation text.now }
{
    let (count, number) = split(sign(relation), text)?;
    Some((relation, count, number))
}

/// The same of any comparison. Longer signs are looked for before those that they begin with.
#[tactic(auto, unfolding(crate::specs::Sought::signed))]
fn signed(text: &[u8]) -> Option<(Relation, &[u8], &[u8])>
    ensures { option_map (λ s. (s.0, s.1.now, s.2.now)) result ≡ signed text.now }
{
    if let Some(found) = signed_by(Relation::AtMost, text) {
        Some(found)
    } else if let Some(found) = signed_by(Relation::AtLeast, text) {
        Some(found)
    } else if let Some(found) = signed_by(Relation::Below, text) {
        Some(found)
    } else if let Some(found) = signed_by(Relation::Above, text) {
        Some(found)
    } else {
        signed_by(Relation::Equal, text)
    }
}

/// `COUNT=N`, and the like with other signs. No count is below 0.
#[tactic(auto, unfolding(crate::specs::Sought::comparison_at))]
pub(crate) fn comparison_at(text: &[u8]) -> Option<Comparison>
    ensures { result ≡ comparison_at text.now }
{
    let (relation, count, number) = signed(text)?;
    let number = number_at(number)?;
    let count = count_at(count)?;
    if relation == Relation::Below && number == 0 {
        return None;
    }
    Some(Comparison {
        count,
        relation,
        number,
    })
}
