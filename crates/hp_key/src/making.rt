//! The key of a core.
ghost use Rattle.std.specs.Prelude.{◌≡◌, ◌++◌, OnOk};
ghost use Rattle.hp_key.specs.Key.{key_words};

use crate::lists::{push_files, push_frames, push_holders, push_spaces, push_tasks};
use crate::numbers::push_maybe;
use hp_core::Core;
use std::alloc::AllocError;

/// Puts the key of the core behind the words. It takes time for as much as is there: each holder, region, page, mapping, translation and call
/// is looked at once, each index of a file up to its last page, and each virtual page of a task up to its last mapping.
pub fn push_key(words: &mut Vec<u32>, core: &Core) -> Result<(), AllocError>
    ensures { OnOk result (words.new.items ≡ words.old.items ++ key_words core.now) }
{
    core.is_reached();
    let config = core.config();
    let parts = core.parts();
    push_maybe(words, parts.bank.quota())?;
    words.push(parts.bank.resv())?;
    words.push(parts.bank.used())?;
    push_frames(words, &parts.bank)?;
    push_holders(words, &parts.slots, config.slots)?;
    push_holders(words, &parts.locks, config.files)?;
    push_files(words, &parts.files, &parts.bank)?;
    push_spaces(words, &parts.spaces)?;
    push_tasks(words, core.task_states())?;
    Ok(())
}
