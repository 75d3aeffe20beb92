//! One function for each phase of an unmap of a whole mapping (Linux: `do_munmap`).
ghost use Rattle.hp_machine.specs.UnmapRows.{UnmapRow, UnmapStartRow, UnmapClearRow, UnmapDropRow};
ghost use Rattle.hp_parts.specs.View.{view};
ghost use Rattle.hp_parts.specs.Capacity.{MemoryStays};
ghost use Rattle.hp_parts.specs.Fits.{IsTaskOf};
ghost use Rattle.hp_remove.specs.Fits.{UnmapFits, IsCleared};

use crate::pages::{clear_mapping, drop_mapping};
use hp_base::{Answer, Task};
use hp_machine::Turn;
pub use hp_machine::unmap::{Clear, Drop, Start, UnmapPhase};
use hp_parts::Parts;

/// One step of an unmap. It wants no memory, and no kill is noticed in it: `killed` and `grant` are taken as every
/// step takes them, and change nothing.
pub fn step_unmap(
    parts: &mut Parts,
    task: Task,
    killed: bool,
    grant: bool,
    phase: UnmapPhase,
) -> Turn<UnmapPhase>
    requires { UnmapFits (view parts.old) task phase }
    ensures row { UnmapRow (view parts.old) task killed grant phase result (view parts.new) }
    ensures memory { MemoryStays parts.old parts.new }
{
    let _ = (killed, grant);
    match phase {
        UnmapPhase::Start(phase) => from_start(parts, task, phase),
        UnmapPhase::Clear(phase) => from_clear(parts, task, phase),
        UnmapPhase::Drop(phase) => from_drop(parts, task, phase),
    }
}

#[tactic(auto, using(hp_parts::proofs::Laws::look_laws))]
fn from_start(parts: &mut Parts, task: Task, phase: Start) -> Turn<UnmapPhase>
    requires { IsTaskOf (view parts.old) task }
    ensures row { UnmapStartRow (view parts.old) task phase result (view parts.new) }
    ensures memory { MemoryStays parts.old parts.new }
{
    let Start { base } = phase;
    let space = &parts.spaces[task.place()];
    if space.base_of(base) == Some(base) {
        Turn::Moved(UnmapPhase::Clear(Clear { base }))
    } else {
        Turn::Ended(Answer::NotMapped)
    }
}

fn from_clear(parts: &mut Parts, task: Task, phase: Clear) -> Turn<UnmapPhase>
    requires { IsTaskOf (view parts.old) task }
    ensures row { UnmapClearRow (view parts.old) task phase result (view parts.new) }
    ensures memory { MemoryStays parts.old parts.new }
{
    let Clear { base } = phase;
    clear_mapping(parts, task, base);
    Turn::Moved(UnmapPhase::Drop(Drop { base }))
}

fn from_drop(parts: &mut Parts, task: Task, phase: Drop) -> Turn<UnmapPhase>
    requires task { IsTaskOf (view parts.old) task }
    requires bare { IsCleared (view parts.old) task phase.base }
    ensures row { UnmapDropRow (view parts.old) task phase result (view parts.new) }
    ensures memory { MemoryStays parts.old parts.new }
{
    let Drop { base } = phase;
    drop_mapping(parts, task, base);
    Turn::Ended(Answer::Done)
}
