//! A pool that gets more frames, or fewer.
ghost use Rattle.std.specs.Prelude.{◌≡◌, ◌<◌, ◌≤◌, true, IfOk, OnErr};
ghost use Rattle.hp_machine.specs.Resizes.{ResizeRow, is_size};
ghost use Rattle.hp_parts.specs.State.{state_of, SizesStay};
ghost use Rattle.hp_parts.specs.Capacity.{CapacityStays};
ghost use Rattle.hp_parts.specs.View.{pool_of};
ghost use Rattle.hp_core.specs.Turns.{IfOutcomeBlocked};

use hp_machine::Outcome;
use hp_parts::Parts;
use std::alloc::AllocError;

// A Resize to a size that a pool may have. More frames than there are come in at once. Of fewer, as many are retired as
// are free and nobody reserved (Linux: `set_max_huge_pages`, which leaves surplus pages there).
pub fn resize(parts: &mut Parts, frames: u32) -> Result<Outcome, AllocError>
    requires some { 1 ≤ frames }
    requires most { frames ≤ 4096 }
    ensures row { IfOk result (λ outcome. ResizeRow (pool_of (state_of parts.old)) frames outcome (pool_of (state_of parts.new))) }
    ensures outcome { IfOk result (λ outcome. IfOutcomeBlocked outcome ⊥) }
    ensures sizes { SizesStay (state_of parts.old) (state_of parts.new) }
    ensures capacity { ¬ ((is_size frames ≡ true) × ((pool_of (state_of parts.old)).frames < frames))
        → CapacityStays (state_of parts.old) (state_of parts.new) }
    ensures err { OnErr result (state_of parts.new ≡ state_of parts.old) }
    ensures growth { OnErr result ((is_size frames ≡ true) × ((pool_of (state_of parts.old)).frames < frames)) }
{
    let bank = &mut parts.bank;
    let now = bank.frames();
    if now < frames {
        bank.grow(frames - now)?;
        return Ok(Outcome::Resized(frames));
    }
    let surplus = (now - frames).min(bank.free() - bank.resv());
    bank.retire(surplus);
    Ok(Outcome::Resized(now - surplus))
}
