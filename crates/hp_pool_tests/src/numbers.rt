//! The numbers of a pool.
ghost use Rattle.std.specs.Prelude.{◌≡◌};

use hp_core::Tally;

/// Free frames, the reserve count, reserved indices and pages.
pub fn tally(free: u32, resv: u32, reserved: u32, pages: u32) -> Tally
    ensures { result ≡ record { free = free; resv = resv; reserved = reserved; pages = pages } }
{
    Tally {
        free,
        resv,
        reserved,
        pages,
    }
}
