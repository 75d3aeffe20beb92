//! How a page comes into a file, and is used: what loads, stores and allocations have in common.
ghost use Rattle.std.specs.Prelude.{◌≡◌, ◌≢◌, ◌<◌, ◌≤◌, ◌+◌, ◌-◌, ◌↔◌, ◌⊎◌, ◌==◌, ℕ, false};
ghost use Rattle.std.specs.Prelude.{None, OnOk, OnErr, IfOk, IfErr, IsErr, IsErrOf, IsTrue, length, if◌then◌else◌};
ghost use Rattle.hp_frames.specs.Bank.{HasWord, IsPlaced, IsFree, CanCount, frame_at, free_count, is_used_up};
ghost use Rattle.hp_frames.specs.Bank.{with_frame, with_resv, with_used};
ghost use Rattle.hp_frames.specs.declared.frame.FrameState.TheVariants.{Hand};
ghost use Rattle.hp_machine.specs.Parts.{answer_of, frame_after, placed};
ghost use Rattle.hp_parts.specs.View.{view};
ghost use Rattle.hp_parts.specs.State.{state_of, SizesStay};
ghost use Rattle.hp_parts.specs.Fits.{IsFileOf, IsHeld};

use hp_base::{Answer, File, Frame, Index, LIMIT};
use hp_frames::{Bank, Fault, Held};
use hp_machine::touch::Access;
use hp_parts::Parts;

/// A frame for one page: a reserved one where the change missed nothing, else one that isn't reserved, for a page
/// that is used from now on. The quota is asked first, and then the frames (Linux: `hugepage_subpool_get_pages`,
/// `dequeue_huge_page_vma`).
#[tactic(auto, using(hp_parts::proofs::Laws::take_laws))]
pub fn take_frame(bank: &mut Bank, missing: u32) -> Result<Held, Answer>
    requires reserved { missing ≡ 0 → 1 ≤ bank.old.resv }
    requires used { CanCount bank.old 1 }
    ensures quota { IsErrOf result Answer.NoQuota ↔ ((0 < missing) × IsTrue (is_used_up bank.old.quota bank.old.used)) }
    ensures none { IsErrOf result Answer.NoFrame
        ↔ ((0 < missing) × (is_used_up bank.old.quota bank.old.used ≡ false) × (free_count bank.old ≡ bank.old.resv)) }
    ensures only { IsErr result → IsErrOf result Answer.NoQuota ⊎ IsErrOf result Answer.NoFrame }
    ensures free { IfOk result (λ held. IsFree bank.old held) }
    ensures taken { IfOk result (λ held. bank.new ≡ (if missing == 0
        then with_resv (with_frame bank.old held Hand) (bank.old.resv - 1)
        else with_used (with_frame bank.old held Hand) (bank.old.used + 1))) }
    ensures err { OnErr result (bank.new ≡ bank.old) }
{
    if missing == 0 {
        return Ok(bank.take_reserved());
    }
    bank.take_unreserved().map_err(refused)
}

/// What a call is told where the bank refuses it pages.
pub fn refused(fault: Fault) -> Answer
    ensures quota { fault ≡ Fault.Quota → result ≡ Answer.NoQuota }
    ensures frames { fault ≢ Fault.Quota → result ≡ Answer.NoFrame }
{
    match fault {
        Fault::Quota => Answer::NoQuota,
        Fault::Short | Fault::NoFrame => Answer::NoFrame,
    }
}

/// The frame becomes the page of an index that has none (Linux: `hugetlb_add_to_page_cache`). Without memory
/// for it the frame is handed back, and nothing changed.
#[tactic(auto, using(hp_parts::proofs::Laws::place_laws))]
pub fn place_page(parts: &mut Parts, file: File, index: Index, held: Held) -> Result<(), Held>
    requires file { IsFileOf (view parts.old) file }
    requires in_limit { index < LIMIT }
    requires bare { (view parts.old).pages file index ≡ None }
    requires held { IsHeld (view parts.old) held }
    ensures ok { OnOk result (view parts.new ≡ placed (view parts.old) file index held) }
    ensures sizes { SizesStay (state_of parts.old) (state_of parts.new) }
    ensures held { IfErr result (λ again. again ≡ held) }
    ensures err { OnErr result (state_of parts.new ≡ state_of parts.old) }
{
    let cache = &mut parts.files[file.number() as usize].cache;
    if cache.place(index, held.frame()).is_err() {
        return Err(held);
    }
    parts.bank.place(held);
    Ok(())
}

/// Reads or writes the word of a page: a load answers the word, a store `Done`.
#[tactic(auto, using(hp_parts::proofs::Laws::frame_laws))]
pub fn use_page(bank: &mut Bank, frame: Frame, access: Access) -> Answer
    requires { IsPlaced bank.old frame }
    ensures answer { (word : ℕ) × HasWord bank.old frame word × (result ≡ answer_of access word) }
    ensures frames { frame_at bank.new.frames ≡ frame_after access (frame_at bank.old.frames) frame }
    ensures count { length bank.new.frames ≡ length bank.old.frames }
    ensures resv { bank.new.resv ≡ bank.old.resv }
    ensures used { bank.new.used ≡ bank.old.used }
    ensures quota { bank.new.quota ≡ bank.old.quota }
    ensures capacity { bank.new.capacity ≡ bank.old.capacity }
{
    match access {
        Access::Load => Answer::Word(bank.load(frame)),
        Access::Store(word) => {
            bank.store(frame, word);
            Answer::Done
        }
    }
}
