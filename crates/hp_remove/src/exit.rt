//! One function for each phase of the end of a task (Linux: `exit_mmap`).
ghost use Rattle.hp_machine.specs.ExitRows.{ExitRow, ExitStartRow, ExitClearRow, ExitDropRow};
ghost use Rattle.hp_parts.specs.View.{view};
ghost use Rattle.hp_parts.specs.Capacity.{MemoryStays};
ghost use Rattle.hp_parts.specs.Fits.{IsTaskOf};
ghost use Rattle.hp_remove.specs.Fits.{ExitFits, IsCleared};

use crate::pages::{clear_mapping, drop_mapping};
use hp_base::{Answer, Task};
use hp_machine::Turn;
pub use hp_machine::exit::{Clear, Drop, ExitPhase};
use hp_parts::Parts;

/// One step of an exit. It wants no memory, and no kill is noticed in it: `killed` and `grant` are taken as every
/// step takes them, and change nothing.
pub fn step_exit(
    parts: &mut Parts,
    task: Task,
    killed: bool,
    grant: bool,
    phase: ExitPhase,
) -> Turn<ExitPhase>
    requires { ExitFits (view parts.old) task phase }
    ensures row { ExitRow (view parts.old) task killed grant phase result (view parts.new) }
    ensures memory { MemoryStays parts.old parts.new }
{
    let _ = (killed, grant);
    match phase {
        ExitPhase::Start => from_start(parts, task),
        ExitPhase::Clear(phase) => from_clear(parts, task, phase),
        ExitPhase::Drop(phase) => from_drop(parts, task, phase),
        ExitPhase::Leave => Turn::Ended(Answer::Done),
    }
}

#[tactic(auto, using(hp_parts::proofs::Laws::look_laws))]
fn from_start(parts: &mut Parts, task: Task) -> Turn<ExitPhase>
    requires { IsTaskOf (view parts.old) task }
    ensures row { ExitStartRow (view parts.old) task result (view parts.new) }
    ensures memory { MemoryStays parts.old parts.new }
{
    match parts.spaces[task.place()].first() {
        Some(base) => Turn::Moved(ExitPhase::Clear(Clear { base })),
        None => Turn::Moved(ExitPhase::Leave),
    }
}

fn from_clear(parts: &mut Parts, task: Task, phase: Clear) -> Turn<ExitPhase>
    requires { IsTaskOf (view parts.old) task }
    ensures row { ExitClearRow (view parts.old) task phase result (view parts.new) }
    ensures memory { MemoryStays parts.old parts.new }
{
    let Clear { base } = phase;
    clear_mapping(parts, task, base);
    Turn::Moved(ExitPhase::Drop(Drop { base }))
}

#[tactic(auto, using(hp_parts::proofs::Laws::look_laws, hp_base::proofs::Puts::put_same))]
fn from_drop(parts: &mut Parts, task: Task, phase: Drop) -> Turn<ExitPhase>
    requires task { IsTaskOf (view parts.old) task }
    requires bare { IsCleared (view parts.old) task phase.base }
    ensures row { ExitDropRow (view parts.old) task phase result (view parts.new) }
    ensures memory { MemoryStays parts.old parts.new }
{
    let Drop { base } = phase;
    drop_mapping(parts, task, base);
    from_start(parts, task)
}
