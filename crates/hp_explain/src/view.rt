//! Which rows an explanation has, and how they are laid out.
ghost use Rattle.std.specs.Prelude.{◌≡◌, take};
ghost use Rattle.hp_explain.specs.Views.{column_in, events_until, has_task, is_asked, is_shown, task_of, tasks_apart, whole_view};

use hp_base::{Event, Task};
use hp_text::column_of;

/// Which rows an explanation has, and how they are laid out.
#[derive(Clone, Copy, Debug)]
pub struct View {
    /// The first line of the trace that has a row.
    pub first: u32,
    /// The last one: the run ends with it.
    pub last: u32,
    /// The tasks whose events have rows: bit T - 1 is set for task T. Where none is set all events have.
    pub tasks: u64,
    /// Whether Linux's function stands behind each phase.
    pub linux: bool,
    /// Whether all events share one column, and waits have lines of their own.
    pub compact: bool,
}

/// Whether the set has that task.
fn has_task(tasks: u64, task: Task) -> bool
    ensures { result ≡ has_task tasks task }
{
    let number = task.number();
    number >= 1 && number <= 64 && (tasks >> (number - 1)) % 2 == 1
}

/// The task of an event, if it is of one.
fn task_of(event: &Event) -> Option<Task>
    ensures { result ≡ task_of event.now }
{
    match event {
        Event::Begin(task, _) | Event::Step(task, _) | Event::Kill(task) => Some(*task),
        Event::Resize(_) => None,
    }
}

/// Whether the events of that task, or of none, have rows.
fn is_asked(tasks: u64, task: Option<Task>) -> bool
    ensures { result ≡ is_asked tasks task }
{
    match task {
        Some(task) => tasks == 0 || has_task(tasks, task),
        None => tasks == 0,
    }
}

/// The column of an event.
pub(crate) fn column_in(compact: bool, tasks: u32, event: &Event) -> usize
    ensures { result ≡ column_in compact tasks event.now }
{
    if compact {
        return 0;
    }
    column_of(tasks, event) as usize
}

/// How many tasks have a column of their own.
pub(crate) fn tasks_apart(compact: bool, tasks: u32) -> u32
    ensures { result ≡ tasks_apart compact tasks }
{
    if compact { 0 } else { tasks }
}

impl View {
    /// All rows, as they are laid out where nothing else is asked for.
    pub fn whole() -> View
        ensures { result ≡ whole_view }
    {
        View {
            first: 2,
            last: u32::MAX,
            tasks: 0,
            linux: false,
            compact: false,
        }
    }

    /// Whether the event of that line has a row.
    pub(crate) fn shows(&self, line: u32, event: &Event) -> bool
        ensures { result ≡ is_shown self.now line event.now }
    {
        self.first <= line && is_asked(self.tasks, task_of(event))
    }

    /// The events up to the last line that is asked for.
    pub(crate) fn until<'a>(&self, events: &'a [Event]) -> &'a [Event]
        ensures { result.now ≡ events_until self.now events.now }
    {
        let count = (self.last as usize).saturating_sub(1).min(events.len());
        &events[..count]
    }
}
