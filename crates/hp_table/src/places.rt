//! Which virtual pages with an entry stand for an index of a file.
ghost use Rattle.std.specs.Prelude.{◌≡◌, ◌+◌, ◌^◌, ◌<◌, ◌&&◌, ◌||◌, ℕ, true, false, not, IfSome, IfNone, IfOk, OnOk, OnErr};
ghost use Rattle.std.specs.BTreeSet.{btree_set_len};
ghost use Rattle.hp_table.specs.Places.{is_place, stands};

use hp_base::{File, Index, Vpn};
use std::alloc::{AllocError, Global};
use std::collections::BTreeSet;

// An index of a file, and a page that stands for it.
#[derive(Clone, Copy, Debug, PartialEq, Eq, PartialOrd, Ord)]
pub struct Place {
    pub file: File,
    pub index: Index,
    pub vpn: Vpn,
}

// The first page that stands for that index of the file.
pub fn first(places: &BTreeSet<Place, Global>, file: File, index: Index) -> Option<Vpn>
    ensures found { IfSome result (λ vpn.
        stands places.now (record { file = file; index = index; vpn = vpn }) ≡ true) }
    ensures none { IfNone result ((vpn : ℕ) → vpn < 2 ^ 32
        → stands places.now (record { file = file; index = index; vpn = vpn }) ≡ false) }
{
    let from = Place {
        file,
        index,
        vpn: Vpn::new(0),
    };
    let to = Place {
        file,
        index,
        vpn: Vpn::new(u32::MAX),
    };
    let place = places.range(from..=to).next()?;
    Some(place.vpn)
}

// Adds the place of a page.
pub fn add(
    places: &mut BTreeSet<Place, Global>,
    file: File,
    index: Index,
    vpn: Vpn,
) -> Result<(), AllocError>
    requires { stands places.old (record { file = file; index = index; vpn = vpn }) ≡ false }
    ensures ok { OnOk result ((q : Place) → stands places.new q ≡ (is_place (record { file = file; index = index; vpn = vpn }) q || stands places.old q)) }
    ensures len { OnOk result (btree_set_len places.new ≡ btree_set_len places.old + 1) }
    ensures err { OnErr result (places.new ≡ places.old) }
{
    places.insert(Place { file, index, vpn })?;
    Ok(())
}

// Takes the place of a page out.
pub fn take(places: &mut BTreeSet<Place, Global>, file: File, index: Index, vpn: Vpn)
    requires { stands places.old (record { file = file; index = index; vpn = vpn }) ≡ true }
    ensures rest { (q : Place) → stands places.new q ≡ (not (is_place (record { file = file; index = index; vpn = vpn }) q) && stands places.old q) }
    ensures len { btree_set_len places.new + 1 ≡ btree_set_len places.old }
{
    places.remove(&Place { file, index, vpn });
}

// The same places, in memory of their own.
pub fn copy(places: &BTreeSet<Place, Global>) -> Result<BTreeSet<Place, Global>, AllocError>
    ensures { IfOk result (λ copy. copy ≡ places.now) }
{
    let copy = places.clone()?;
    Ok(copy)
}
