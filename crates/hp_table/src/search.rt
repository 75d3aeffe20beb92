//! Searches in a list of mappings that are in order.
ghost use Rattle.std.specs.Prelude.{◌≡◌, ◌==◌, ◌&&◌, ◌+◌, ◌-◌, ◌≤◌, length, nat_le, if◌then◌else◌, None, Some};
ghost use Rattle.std.specs.List.{position, prefix_len};
ghost use Rattle.std.specs.List as list;
ghost use Rattle.hp_base.specs.Indices.{is_within};
ghost use Rattle.hp_base.specs.Mappings.{covers, IsSpread};
ghost use Rattle.hp_table.specs.Gaps.{end_of};

use hp_base::{File, Index, Mapping, VPNS, Vpn};

// How many mappings begin at or below a page.
pub fn begun(mappings: &[Mapping], vpn: Vpn) -> usize
    requires { IsSpread VPNS 0 mappings.now }
    ensures { result ≡ prefix_len (λ m. nat_le m.base vpn) mappings.now }
{
    mappings.partition_point(|mapping| mapping.base <= vpn)
}

// The mapping that has a page.
pub fn holder(mappings: &[Mapping], vpn: Vpn) -> Option<Mapping>
    requires { IsSpread VPNS 0 mappings.now }
    ensures { result ≡ list.find (λ m. covers m vpn) mappings.now }
{
    let last = begun(mappings, vpn).checked_sub(1)?;
    let mapping = mappings[last];
    (vpn.number() - mapping.base.number() < mapping.len).then_some(mapping)
}

// The place of the mapping that begins at a page.
pub fn place_of(mappings: &[Mapping], base: Vpn) -> Option<usize>
    requires { IsSpread VPNS 0 mappings.now }
    ensures { result ≡ position (λ m. m.base == base) mappings.now }
{
    let last = begun(mappings, base).checked_sub(1)?;
    (mappings[last].base == base).then_some(last)
}

// Where the last of the first mappings ends, and 0 where there is none.
pub fn end_of(mappings: &[Mapping], count: usize) -> Vpn
    requires spread { IsSpread VPNS 0 mappings.now }
    requires in_range { count ≤ length mappings.now }
    ensures value { result ≡ end_of 0 mappings.now count }
    ensures in_space { result ≤ VPNS }
{
    let Some(last) = count.checked_sub(1) else {
        return Vpn::new(0);
    };
    let mapping = mappings[last];
    Vpn::new(mapping.base.number() + mapping.len)
}
