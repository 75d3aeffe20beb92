//! What is searched, as numbers.
ghost use Rattle.std.specs.Prelude.{◌≡◌};
ghost use Rattle.hp_c.specs.Finding.{hunt_of};

use hp_explore::Chances;
use hp_hunt::Hunt;

/// Runs of a script.
#[repr(C)]
#[derive(Clone, Copy)]
pub struct HuntWords {
    pub seed: u64,
    pub limit: u32,
    pub deny: u32,
    pub kill: u32,
}

/// All schedules of a script, and how many states are kept.
#[repr(C)]
#[derive(Clone, Copy)]
pub struct BoundsWords {
    pub denials: u32,
    pub kills: u32,
    pub states: u32,
}

impl HuntWords {
    /// The runs that these numbers name.
    pub(crate) fn hunt(self) -> Hunt
        ensures { result ≡ hunt_of self }
    {
        Hunt {
            seed: self.seed,
            limit: self.limit,
            chances: Chances {
                deny: self.deny,
                kill: self.kill,
            },
        }
    }
}
