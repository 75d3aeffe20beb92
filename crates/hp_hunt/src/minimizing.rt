//! Of a trace that meets conditions a small one that still does.
ghost use Rattle.std.specs.Prelude.{◌≡◌, None, IfErr, IfOk, IfSome, OnOk};
ghost use Rattle.hp_base.specs.Text.{sizes};
ghost use Rattle.hp_hunt.specs.Conditions.{SomeRunMeets, SomeRunMisses};
ghost use Rattle.hp_hunt.specs.Cutting.{IsSmall};

use crate::condition::Condition;
use crate::cutting::{Shrinking, cut_all};
use crate::lowering::lower_each;
use crate::meeting::meets;
use hp_base::{Config, Event};
use hp_text::{ReplayFault, Trace};
use std::alloc::{AllocError, Global};

/// Drops what can go, and makes numbers as small as may be, until neither goes on.
fn make_small(
    alloc: Global,
    config: Config,
    events: &mut Vec<Event>,
    conditions: &[Condition],
    watcher: &mut impl Shrinking,
) -> Result<(), AllocError>
    requires { SomeRunMeets config events.old.items conditions.now }
    ensures { OnOk result (IsSmall config events.old.items conditions.now events.new.items) }
{
    cut_all(alloc, config, events, conditions, watcher)?;
    while lower_each(alloc, config, events, conditions, watcher)? {
        cut_all(alloc, config, events, conditions, watcher)?;
    }
    Ok(())
}

/// What is left of the trace where events are dropped, and their numbers made smaller, as long as a run of them still meets all
/// conditions, or nothing where the trace's run doesn't. The pool and the numbers of tasks stay as they are. After each try it tells how
/// many events are left.
pub fn minimize(
    alloc: Global,
    trace: &Trace,
    conditions: &[Condition],
    watcher: &mut impl Shrinking,
) -> Result<Option<Trace>, ReplayFault>
    ensures small { IfOk result (λ result. IfSome result (λ small.
        IsSmall trace.now.config trace.now.events.items conditions.now small.events.items)) }
    ensures config { IfOk result (λ result. IfSome result (λ small. sizes small.config ≡ sizes trace.now.config)) }
    ensures none { IfOk result (λ result. result ≡ None
        → SomeRunMisses trace.now.config trace.now.events.items conditions.now) }
    ensures memory { IfErr result (λ fault. fault ≡ ReplayFault.Memory) }
{
    let config = trace.config;
    let events = trace.events.as_slice();
    if !meets(alloc, config, events, conditions)? {
        return Ok(None);
    }
    let mut events = events.to_vec(alloc)?;
    make_small(alloc, config, &mut events, conditions, watcher)?;
    Ok(Some(Trace { config, events }))
}
