//! All ways in which the schedules of a script end.
ghost use Rattle.std.specs.Prelude.{◌≡◌, IfOk};

use hp_base::Event;
use hp_watch::EndedCall;

/// One way in which schedules end.
#[derive(Debug, Drop)]
pub struct EndingRow {
    /// The calls that ended with their answers, task by task, those of a task in the order in which they did.
    pub ended: Vec<EndedCall>,
    /// The free frames, the reserve count and the pages of the pool, in the end.
    pub free: u32,
    pub resv: u32,
    pub used: u32,
    /// How many schedules end so. The largest number says that many or more.
    pub schedules: u128,
    /// The events of a shortest one.
    pub events: Vec<Event>,
}

/// All ways in which the schedules of a script end.
#[derive(Debug, Drop)]
pub enum EndingRows {
    /// Each of them, those of the shortest schedules first.
    Whole(Vec<EndingRow>),
    /// The limits ran out before: those of schedules of fewer turns than so many were found.
    Cut { turns: u32 },
}
