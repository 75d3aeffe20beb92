//! Scripts of either form, read from bytes.
ghost use Rattle.std.specs.Prelude.{◌≡◌, ◌++◌, ◌∷◌, ◌+◌, ◌≤◌, None, IfOk, IfErr, IfSome, IfNone, OnOk, length};
ghost use Rattle.hp_base.specs.Text.{sizes};
ghost use Rattle.hp_text.specs.Streams.{TellsReads};
ghost use Rattle.hp_text.specs.Traces.{HasNoEnd, IsLineFault};
ghost use Rattle.hp_text.specs.ScriptLines.{HasLinesFault, ReadsScript, SpellsSomeLines};
ghost use Rattle.hp_text.specs.ScriptTaking.{FaultsAt, IsTakeFault, Takes, script_room};

use crate::fault::ReplayFault;
use crate::script::Script;
use crate::script_draft::ScriptDraft;
use crate::streams::{PIECE, Source};
use memchr::memchr;
use std::alloc::Global;

/// The bytes before the first line's end, and those behind it.
fn split_line(piece: &[u8]) -> Option<(&[u8], &[u8])>
    ensures parts { IfSome result (λ parts. piece.now ≡ parts.0.now ++ 10 ∷ parts.1.now) }
    ensures line { IfSome result (λ parts. HasNoEnd parts.0.now) }
    ensures none { IfNone result (HasNoEnd piece.now) }
{
    match memchr(b'\n', piece) {
        Some(end) => Some((&piece[..end], &piece[end + 1..])),
        None => None,
    }
}

/// Takes a piece of a script, cut anywhere.
fn take_piece(draft: &mut ScriptDraft, piece: &[u8]) -> Result<(), ReplayFault>
    ensures takes { OnOk result (Takes draft.old piece.now draft.new) }
    ensures room { OnOk result (script_room draft.new + length piece.now ≤ script_room draft.old) }
    ensures err { IfErr result (λ fault. FaultsAt draft.old piece.now fault) }
    ensures kind { IfErr result IsTakeFault }
{
    let mut left = piece;
    while let Some((line, behind)) = split_line(left) {
        draft.extend(line)?;
        draft.end_line()?;
        left = behind;
    }
    draft.extend(left)
}

/// The script that the bytes spell, in either of its forms: calls alone, or calls that may wait. Any other line is a bad one.
/// Nothing is tried again after an error.
pub fn read_any_script<R: Source>(alloc: Global, reader: &mut R) -> Result<Script, ReplayFault>
    ensures ok { IfOk result (λ script. ReadsScript (R.remaining reader.old) (R.remaining reader.new)
        (sizes script.config) script.calls.items script.waits.items) }
    ensures bad { IfErr result (λ fault. IfSome (R.remaining reader.old) (λ bytes. HasLinesFault bytes fault)) }
    ensures only { IfErr result (λ fault. IsLineFault fault
        → IfSome (R.remaining reader.old) (λ bytes. ¬ (SpellsSomeLines bytes))) }
    ensures reads { TellsReads result (R.failures reader.old) (R.failures reader.new) }
{
    let mut draft = ScriptDraft::new(alloc);
    let mut piece = [0; PIECE];
    loop {
        let n = reader.read_piece(&mut piece)?;
        if n == 0 {
            return draft.whole();
        }
        take_piece(&mut draft, &piece[..n])?;
    }
}
