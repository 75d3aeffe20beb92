//! How `fallocate` is to change a range of a file.
ghost use Rattle.std.specs.Prelude.{◌≡◌, ◌↔◌, ◌<◌, ◌==◌, IfSome, IsSome};
ghost use Rattle.std.specs.Int.RustNames.{bit_and};

use bitflags::{Flag, Flags, bitflag_items};

/// How `fallocate` is to change a range of a file: a set of these bits.
#[derive(Clone, Copy, Debug, PartialEq, Eq)]
pub struct Mode(u32);

bitflag_items! {
    impl Mode: u32 {
        const KEEP_SIZE = 1;
        const PUNCH_HOLE = 2;
    }
}

impl Flags for Mode {
    ghost use Rattle.std.specs.Prelude.{⊤, [], ◌∷◌, codes};

    type Bits = u32;

    ghost exact = { ⊤ };

    ghost table = { (codes "KEEP_SIZE", 1) ∷ (codes "PUNCH_HOLE", 2) ∷ [] };

    ghost set_of = { λ mode. mode.0 };

    fn flags<'a>() -> &'a [Flag<Mode>] {
        Mode::FLAGS
    }

    fn bits(&self) -> u32 {
        self.0
    }

    fn from_bits_retain(bits: u32) -> Mode {
        Mode(bits)
    }
}

impl Mode {
    /// The mode of these bits, where no other bit than the two is set.
    pub fn from_bits(bits: u32) -> Option<Mode>
        ensures known { IsSome result ↔ (bits < 4) }
        ensures value { IfSome result (λ mode. mode.0 ≡ bits) }
    {
        <Mode as Flags>::from_bits(bits)
    }

    /// Whether the file keeps its size (Linux: `FALLOC_FL_KEEP_SIZE`).
    pub fn keeps_size(self) -> bool
        ensures { result ≡ (bit_and self.0 1 == 1) }
    {
        self.contains(Mode::KEEP_SIZE)
    }

    /// Whether the pages of the range go (Linux: `FALLOC_FL_PUNCH_HOLE`).
    pub fn punches(self) -> bool
        ensures { result ≡ (bit_and self.0 2 == 2) }
    {
        self.contains(Mode::PUNCH_HOLE)
    }
}
