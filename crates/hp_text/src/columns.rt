//! In which column of a table, or lane of a picture, an event stands.
ghost use Rattle.std.specs.Prelude.{◌≡◌, ◌≤◌};
ghost use Rattle.hp_text.specs.Columns.{column_of, column_of_task};

use hp_base::{Event, Task};

/// The column of a task: its number, or 0 where the pool has no such task.
fn column_of_task(tasks: u32, task: Task) -> u32
    ensures is { result ≡ column_of_task tasks task }
    ensures within { result ≤ tasks }
{
    let number = task.number();
    if 1 <= number && number <= tasks {
        number
    } else {
        0
    }
}

/// The column of an event: that of its task. A resize is of no task.
pub fn column_of(tasks: u32, event: &Event) -> u32
    ensures is { result ≡ column_of tasks event.now }
    ensures within { result ≤ tasks }
{
    match event {
        Event::Begin(task, _op) => column_of_task(tasks, *task),
        Event::Step(task, _granted) => column_of_task(tasks, *task),
        Event::Kill(task) => column_of_task(tasks, *task),
        Event::Resize(_frames) => 0,
    }
}
