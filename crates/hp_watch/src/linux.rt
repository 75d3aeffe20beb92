//! What an event did in Linux.
ghost use Rattle.std.specs.Prelude.{◌≡◌, ◌≤◌};
ghost use Rattle.hp_core.specs.Readers.{config_of};
ghost use Rattle.hp_watch.specs.Linux.{linux_of_op, linux_of_step, locks_held, locks_in, locks_taken};

use hp_base::{Op, Task};
use hp_core::{Core, Holding, Phase};
use hp_phases::{Kernel, Locks, linux_name};

/// Which locks a call holds.
fn locks_held(holding: Holding) -> Locks
    ensures { result ≡ locks_held holding.slot holding.lock }
{
    match (holding.slot, holding.lock) {
        (None, None) => Locks::Neither,
        (Some(_), None) => Locks::Slot,
        (None, Some(_)) => Locks::File,
        (Some(_), Some(_)) => Locks::Both,
    }
}

/// Which locks the call of the task in that column holds.
fn locks_in(core: &Core, column: u32) -> Locks
    requires { column ≤ (config_of core.now).tasks }
    ensures { result ≡ locks_in core.now column }
{
    if column == 0 {
        return Locks::Neither;
    }
    locks_held(core.holding(Task::new(column)))
}

/// The function of Linux that does what a step did from that phase, of the call of the task in that column. `core` is the one that it
/// led to.
pub fn linux_of_step(core: &Core, column: u32, from: Phase) -> &'static str
    requires { column ≤ (config_of core.now).tasks }
    ensures { result.now ≡ linux_of_step core.now column from }
{
    linux_name(Kernel::Linux6_18, from, locks_in(core, column))
}

/// Which locks a call takes.
fn locks_taken(op: &Op) -> Locks
    ensures { result ≡ locks_taken op.now }
{
    match op {
        Op::Map { .. } | Op::MapNoReserve { .. } => Locks::File,
        Op::Unmap { .. } | Op::Exit => Locks::Neither,
        Op::Load { .. } | Op::Store { .. } => Locks::Slot,
        Op::Alloc { .. } | Op::Punch { .. } | Op::Truncate { .. } => Locks::Both,
    }
}

/// The function of Linux that does what the next step of such a call does from that phase.
pub fn linux_of_op(op: &Op, phase: Phase) -> &'static str
    ensures { result.now ≡ linux_of_op op.now phase }
{
    linux_name(Kernel::Linux6_18, phase, locks_taken(op))
}
