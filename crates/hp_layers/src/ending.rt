//! All endings of runs: of each a shortest run, and how many runs end so.
ghost use Rattle.std.specs.Prelude.{◌≡◌, ◌∷◌, [], IfOk, OnOk, Option, Some, length};
ghost use Rattle.std.specs.HashMap.{get};
ghost use Rattle.hp_layers.specs.Ended.{AreCutAtLimits, AreRight, AreTaken, EndsAlike, TakesOne, has_place};
ghost use Rattle.hp_layers.specs.Layers.{AreBytes};
ghost use Rattle.hp_layers.specs.Named.{AddsSeat, AreAllTold, AreEach, AreNamed, IsIndexed, TakesWays};

use crate::counting::{CountedLayer, RunCounts, add_ways, next_counts, no_counts};
use crate::layer::room_behind;
use crate::limits::Limits;
use crate::progress::Progress;
use crate::turns::Turns;
use std::alloc::{AllocError, Global};
use std::collections::HashMap;
use std::hash::Hash;
use std::thread::Threads;

/// A system whose runs end in some way, and are counted.
pub trait Ends: Turns {
    /// How a run ends.
    type Ending: Eq + Hash + Drop + Send + Sync;

    /// What tells the turns from a state apart.
    type Name;

    // how the state ends, if no turn comes after it
    ghost ending_of: { Self → Self.State → Option Self.Ending };

    // one turn of that name leads from the one state to the other
    ghost step: { Self → Self.State → Self.Name → Self.State → Type 0 };

    /// How the state ends, if no turn comes after it.
    fn ending(&self, alloc: Global, state: &Self::State) -> Result<Option<Self::Ending>, AllocError>
        ensures { IfOk result (λ ending. ending ≡ ending_of self.now state.now) };

    /// The states behind the state, one for each turn. It is called once for each state of a layer.
    fn each_after(&self, alloc: Global, state: &Self::State) -> Result<Vec<Self::State>, AllocError>
        requires { Self.valid self.now state.now }
        ensures { IfOk result (λ next. AreEach (step self.now) state.now next.items) };

    ghost ends_alike: { (m : Self) → EndsAlike Self.Ending.eq (Self.alike m) (ending_of m) };

    ghost are_named: { (m : Self) → AreNamed (Self.turn m) (Self.alike m) (step m) };
}

/// Adds so many ways to the state's ending, if it has one. The state is put into the table, if its ending isn't there yet.
fn take_way<M: Ends>(
    alloc: Global,
    system: &M,
    places: &mut HashMap<M::Ending, usize>,
    table: &mut RunCounts<M::State>,
    state: M::State,
    more: u128,
) -> Result<(), AllocError>
    requires long { length table.old.ways.items ≡ length table.old.states.items }
    requires indexed { IsIndexed M.Ending.eq (λ s e. M.ending_of system.now s ≡ Some e) (get M.Ending.eq places.old) table.old.states.items }
    ensures long { OnOk result (length table.new.ways.items ≡ length table.new.states.items) }
    ensures indexed { OnOk result
        (IsIndexed M.Ending.eq (λ s e. M.ending_of system.now s ≡ Some e) (get M.Ending.eq places.new) table.new.states.items) }
    ensures taken { OnOk result (TakesOne (M.ending_of system.now) (has_place (get M.Ending.eq places.old))
        (has_place (get M.Ending.eq places.new)) table.old.states.items state table.new.states.items) }
    ensures seat { OnOk result (AddsSeat (M.ending_of system.now state) (get M.Ending.eq places.old) (get M.Ending.eq places.new) more
        table.old table.new) }
{
    let Some(ending) = system.ending(alloc, &state)? else {
        return Ok(());
    };
    add_ways(places, table, ending, state, more)?;
    Ok(())
}

/// Adds the ways of a layer to the endings of its states.
fn take_counts<M: Ends>(
    alloc: Global,
    system: &M,
    places: &mut HashMap<M::Ending, usize>,
    table: &mut RunCounts<M::State>,
    layer: RunCounts<M::State>,
) -> Result<(), AllocError>
    requires layer { length layer.ways.items ≡ length layer.states.items }
    requires long { length table.old.ways.items ≡ length table.old.states.items }
    requires indexed { IsIndexed M.Ending.eq (λ s e. M.ending_of system.now s ≡ Some e) (get M.Ending.eq places.old) table.old.states.items }
    ensures long { OnOk result (length table.new.ways.items ≡ length table.new.states.items) }
    ensures indexed { OnOk result
        (IsIndexed M.Ending.eq (λ s e. M.ending_of system.now s ≡ Some e) (get M.Ending.eq places.new) table.new.states.items) }
    ensures taken { OnOk result (AreTaken (M.ending_of system.now) (has_place (get M.Ending.eq places.old))
        (has_place (get M.Ending.eq places.new)) table.old.states.items layer.states.items table.new.states.items) }
    ensures ways { OnOk result (TakesWays (M.ending_of system.now) (get M.Ending.eq places.old) (get M.Ending.eq places.new) layer
        table.old table.new) }
{
    let RunCounts {
        mut states,
        mut ways,
    } = layer;
    while let Some(state) = states.pop() {
        let more = ways.pop().unwrap();
        take_way(alloc, system, places, table, state, more)?;
    }
    Ok(())
}

/// The endings that were found, each as a state that ends so and that is reached in the fewest turns, with how many runs end so.
#[derive(Debug, Drop)]
pub enum EndingTable<S> {
    /// Every ending of every run.
    Whole(RunCounts<S>),
    /// The limits ran out: every ending of the runs of fewer turns than so many.
    Cut { counts: RunCounts<S>, turns: u32 },
}

/// The layer of the first state, to which there is one way.
fn first_counts<M: Turns>(
    alloc: Global,
    system: &M,
    first: M::State,
) -> Result<CountedLayer<M::State>, AllocError>
    ensures states { IfOk result (λ layer. layer.counts.states.items ≡ first ∷ []) }
    ensures ways { IfOk result (λ layer. layer.counts.ways.items ≡ 1 ∷ []) }
    ensures bytes { IfOk result (λ layer. AreBytes (M.bytes_of system.now) layer.counts.states.items layer.bytes) }
{
    let bytes = system.bytes(&first);
    let mut counts = no_counts(alloc);
    counts.states.push(first)?;
    counts.ways.push(1)?;
    Ok(CountedLayer { counts, bytes })
}

/// The endings of all runs, in the order of their turns, up to the limits.
pub fn endings<M: Ends + Sync>(
    rt: &(impl Threads + Sync),
    alloc: Global,
    system: &M,
    first: M::State,
    limits: Limits,
    progress: &mut impl Progress,
) -> Result<EndingTable<M::State>, AllocError>
    requires { M.valid system.now first }
    ensures right { IfOk result (AreRight (M.turn system.now) (M.ending_of system.now) first) }
    ensures counted { IfOk result (AreAllTold (M.step system.now) (M.ending_of system.now) first) }
    // It doesn't give up before.
    ensures cut { IfOk result (AreCutAtLimits M.Key.eq (M.key_of system.now) (M.turn system.now) (M.bytes_of system.now) first limits) }
{
    let mut places = HashMap::new(alloc);
    let mut counts = no_counts(alloc);
    let mut layer = first_counts(alloc, system, first)?;
    for turns in 0..limits.turns {
        if layer.counts.states.is_empty() {
            return Ok(EndingTable::Whole(counts));
        }
        progress.layer(turns, layer.counts.states.len(), layer.bytes);
        let room = room_behind(limits, layer.counts.states.len(), layer.bytes);
        let next = next_counts(rt, alloc, system, &layer.counts, room)?;
        take_counts(alloc, system, &mut places, &mut counts, layer.counts)?;
        let Some(next) = next else {
            let turns = turns + 1;
            return Ok(EndingTable::Cut { counts, turns });
        };
        layer = next;
    }
    let turns = limits.turns;
    Ok(EndingTable::Cut { counts, turns })
}
