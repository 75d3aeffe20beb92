//! Laws of explored runs, each said by the contract of a function that does nothing.
ghost use Rattle.std.specs.Prelude.{◌≡◌, ℕ, List, length};
ghost use Rattle.hp_base.specs.declared.event.Event.{Event};
ghost use Rattle.hp_machine.specs.declared.outcome.Outcome.{Outcome};
ghost use Rattle.hp_core.specs.State.{CoreState};
ghost use Rattle.hp_core.specs.Readers.{free_of, resv_of};
ghost use Rattle.hp_core.specs.Runs.{IsOpening, Run};
ghost use Rattle.hp_explore.specs.Explored.{IsExplored, IsLine};
ghost use Rattle.hp_explore.specs.declared.line.RunLine.{RunLine};
ghost use Rattle.hp_text.specs.declared.script.Script.{Script};

/// A take may give any free frame, and yet a run has one line, and makes the same events each time.
pub fn a_line_is_one()
    ensures line { (script : Script) (seed deny kill run : ℕ) (l m : RunLine)
        → IsLine script seed deny kill run l → IsLine script seed deny kill run m → m ≡ l }
    ensures events { (script : Script) (seed deny kill run : ℕ) (l m : RunLine) (es fs : List Event)
        → IsExplored script seed deny kill run es l → IsExplored script seed deny kill run fs m → fs ≡ es }
{}

/// Whoever replays the events of a run, from a new core on, ends with the counts that its line tells, and made as many turns.
pub fn a_replayed_run_has_its_line()
    ensures { (script : Script) (seed deny kill run : ℕ) (events : List Event) (line : RunLine)
        (first new : CoreState) (outcomes : List Outcome)
        → IsExplored script seed deny kill run events line → IsOpening script.config first → Run first events outcomes new
        → (line.free ≡ free_of new) × (line.resv ≡ resv_of new) × (line.turns ≡ length events) }
{}
