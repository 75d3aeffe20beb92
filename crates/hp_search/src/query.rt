//! What a search looks for.
use hp_explore::Plan;
use hp_hunt::Condition;
use hp_text::Script;

/// Schedules of a script, and what they are to meet.
#[derive(Clone, Copy, Drop)]
pub(crate) struct Query<'a> {
    pub(crate) script: &'a Script,
    /// What each task calls, and what its calls wait for.
    pub(crate) plan: &'a Plan,
    pub(crate) conditions: &'a [Condition],
    /// So many steps may be denied, and so many tasks killed.
    pub(crate) denials: u32,
    pub(crate) kills: u32,
    /// Whether no turn is tried beside that of a task that is eager to go first.
    pub(crate) eager: bool,
}
