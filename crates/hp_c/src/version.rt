//! Which library this is.
ghost use Rattle.std.specs.Prelude.{◌≡◌};
ghost use Rattle.hp_c.specs.Codes.{version};

/// The version of the library: its first number times 1,000,000, its second times 1,000, and its third.
#[unsafe(no_mangle)]
pub extern "C" fn hugepool_version() -> u32
    ensures { result ≡ version }
{
    1_000
}
