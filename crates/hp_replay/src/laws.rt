//! Laws of replays, each said by the contract of a function that does nothing.
ghost use Rattle.std.specs.Prelude.{◌≡◌, ℕ, List, Option, Some};
ghost use Rattle.hp_base.specs.Text.{Sizes};
ghost use Rattle.hp_base.specs.declared.event.Event.{Event};
ghost use Rattle.hp_core.specs.State.{CoreState};
ghost use Rattle.hp_machine.specs.declared.outcome.Outcome.{Outcome};
ghost use Rattle.hp_text.specs.declared.fault.ReplayFault.{ReplayFault};
ghost use Rattle.hp_text.specs.Traces.{HasFault, IsLineFault};
ghost use Rattle.hp_replay.specs.Outcomes.{RunOf, state_text};
ghost use Rattle.hp_replay.specs.Replaying.{Replayed, Stopped};

/// The fault of a replay names the first bad line of what the reader had.
pub fn a_stopped_replay_names_the_fault()
    ensures { (all left : List ℕ) (before after : Option (List ℕ)) (fault : ReplayFault)
        → IsLineFault fault → Stopped fault (Some all) (Some left) before after → HasFault all fault }
{}

/// A take may give any free frame, and yet a trace has one text of its replay: its runs have the same outcomes, and end in states
/// whose lines are the same.
pub fn a_replay_is_one()
    ensures run { (sizes : Sizes) (events : List Event) (outcomes others : List Outcome) (core other : CoreState)
        → RunOf sizes events outcomes core → RunOf sizes events others other
        → (others ≡ outcomes) × (state_text other ≡ state_text core) }
    ensures text { (all left more before text other : List ℕ)
        → Replayed (Some all) (Some left) (Some before) (Some text) → Replayed (Some all) (Some more) (Some before) (Some other)
        → other ≡ text }
{
    hp_text::bytes_have_one_reading();
}
