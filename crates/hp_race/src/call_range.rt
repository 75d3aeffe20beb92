//! Which of its calls each task makes.
ghost use Rattle.std.specs.Prelude.{◌≡◌, take};
ghost use Rattle.hp_race.specs.Racers.{calls_in};

use hp_base::Op;

/// So many of each task's calls, from this one on.
#[derive(Clone, Copy, Debug, PartialEq, Eq)]
pub(crate) struct CallRange {
    pub(crate) from: usize,
    pub(crate) most: usize,
}

// So many of the calls, or all.
fn front(calls: &[Op], most: usize) -> &[Op]
    ensures { result.now ≡ take most calls.now }
{
    if calls.len() <= most {
        calls
    } else {
        &calls[..most]
    }
}

impl CallRange {
    /// The calls before the range, and those of it.
    pub(crate) fn split(self, calls: &[Op]) -> (&[Op], &[Op])
        ensures before { result.0.now ≡ take self.from calls.now }
        ensures within { result.1.now ≡ calls_in self calls.now }
    {
        let (before, rest) = calls.split_at(self.from.min(calls.len()));
        (before, front(rest, self.most))
    }
}
