//! What a search among all schedules says.
use hp_text::Trace;

/// What is said of all schedules.
#[derive(Debug, Drop)]
pub enum Reachability {
    /// No schedule meets the conditions.
    Never,
    /// A schedule that meets them in the fewest turns.
    Met(Trace),
    /// The limits ran out before: none of fewer turns than so many meets them.
    Cut { turns: u32 },
}
