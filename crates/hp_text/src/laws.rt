//! Laws of traces and of the feed, each said by the contract of a function that does nothing.
ghost use Rattle.std.specs.Prelude.{◌≡◌, ◌++◌, ℕ, List, [], None, Some, Ok, Err, map};
ghost use Rattle.std.specs.List.{flat_map};
ghost use Rattle.hp_base.specs.Text.{Sizes};
ghost use Rattle.hp_base.specs.declared.event.Event.{Event};
ghost use Rattle.hp_base.specs.declared.event.Op.{Op};
ghost use Rattle.hp_text.specs.declared.script_lines.ScriptForm.TheVariants.{Plain};
ghost use Rattle.hp_text.specs.declared.script_lines.ScriptLine.{ScriptLine};
ghost use Rattle.hp_text.specs.ScriptLines.{SpellsLines, call_line, calls_in, waits_from};
ghost use Rattle.hp_text.specs.Scripts.{SpellsScript};
ghost use Rattle.hp_text.specs.declared.fault.ReplayFault.{ReplayFault};
ghost use Rattle.hp_text.specs.Lines.{FeedState, opening_feed, feed_after, lines_after, line_text, AreLines, end_of};
ghost use Rattle.hp_text.specs.Traces.{Spells, SpellsSome, HasFault, HasBadLine, IsLineFault};

/// However the bytes are cut: a and then b give what a followed by b gives.
pub fn pieces_do_not_show()
    ensures held { (h : FeedState) (a b : List ℕ) → feed_after h (a ++ b) ≡ feed_after (feed_after h a) b }
    ensures lines { (h : FeedState) (a b : List ℕ)
        → lines_after h (a ++ b) ≡ lines_after h a ++ lines_after (feed_after h a) b }
{}

/// What a feed holds is what the bytes spell. Its fault names their first bad line, whatever follows.
pub fn what_is_held_is_spelled()
    ensures text { (bytes : List ℕ) → (feed_after opening_feed bytes).fault ≡ None
        → flat_map line_text (lines_after opening_feed bytes) ++ (feed_after opening_feed bytes).rest ≡ bytes }
    ensures lines { (bytes : List ℕ) → (feed_after opening_feed bytes).fault ≡ None
        → AreLines 0 (lines_after opening_feed bytes) }
    ensures fault { (bytes : List ℕ) (fault : ReplayFault) (later : List ℕ)
        → (feed_after opening_feed bytes).fault ≡ Some fault → HasFault (bytes ++ later) fault }
    ensures end_ok { (bytes : List ℕ) → end_of (feed_after opening_feed bytes) ≡ Ok tt → SpellsSome bytes }
    ensures end_err { (bytes : List ℕ) (fault : ReplayFault)
        → end_of (feed_after opening_feed bytes) ≡ Err fault → HasFault bytes fault }
{}

/// Bytes spell one trace at most, or have one first bad line.
pub fn bytes_have_one_reading()
    ensures trace { (bytes : List ℕ) (s t : Sizes) (es fs : List Event)
        → Spells bytes s es → Spells bytes t fs → (s ≡ t) × (es ≡ fs) }
    ensures line { (bytes : List ℕ) (m n : ℕ) → HasBadLine m bytes → HasBadLine n bytes → m ≡ n }
    ensures header { (bytes : List ℕ) (n : ℕ) → HasFault bytes ReplayFault.BadHeader → HasBadLine n bytes → ⊥ }
    ensures either { (bytes : List ℕ) (fault : ReplayFault) (s : Sizes) (es : List Event)
        → IsLineFault fault → HasFault bytes fault → Spells bytes s es → ⊥ }
{}

/// A script that begins with the word `pool` is a trace of begins alone, without waits, and each such trace is one: so
/// `read_any_script` reads it as `read_script` does.
pub fn a_plain_script_is_a_trace()
    ensures trace { (bytes : List ℕ) (s : Sizes) (lines : List ScriptLine)
        → SpellsLines bytes Plain s lines → SpellsScript bytes s (calls_in lines) }
    ensures waits { (bytes : List ℕ) (s : Sizes) (lines : List ScriptLine)
        → SpellsLines bytes Plain s lines → waits_from 0 lines ≡ [] }
    ensures script { (bytes : List ℕ) (s : Sizes) (calls : List (ℕ × Op))
        → SpellsScript bytes s calls → SpellsLines bytes Plain s (map call_line calls) }
{}
