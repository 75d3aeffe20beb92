//! A pool is opened, copied and closed.
ghost use Rattle.std.specs.Prelude.{◌≡◌, ⊤, Some, None, IfOk, IfErr};
ghost use Rattle.hp_core.specs.State.{CoreState};
ghost use Rattle.hp_words.specs.Words.{config_words};
ghost use Rattle.hp_handle.specs.Held.{held};
ghost use Rattle.hp_c.specs.Answers.{Answered, Opened, Copied, IsCopyRefused, IsOpenRefused};

use crate::codes::{IN_FLIGHT, IS_CLOSED, NO_MEMORY, NO_SUCH, OK};
use hp_core::Core;
use hp_handle::Handle;
use hp_words::ConfigWords;
use std::alloc::Global;

/// A core of these sizes that nothing has happened to.
fn boxed_core(alloc: Global, config: &ConfigWords) -> Result<Box<Core>, u32>
    ensures ok { IfOk result (λ core. Opened (config_words config.now) (Some core.value)) }
    ensures err { IfErr result (λ code. IsOpenRefused (config_words config.now) code) }
{
    let Some(config) = config.config() else {
        return Err(NO_SUCH);
    };
    let Ok(core) = Core::new(alloc, config) else {
        return Err(NO_MEMORY);
    };
    match Box::new(alloc, core) {
        Ok(core) => Ok(core),
        Err(_) => Err(NO_MEMORY),
    }
}

/// A pool of these sizes that nothing has happened to. One that was open there before is closed.
#[unsafe(no_mangle)]
pub extern "C" fn hugepool_open(alloc: Global, pool: &mut Handle, config: &ConfigWords) -> u32
    ensures opened { Answered result (Opened (config_words config.now) (held pool.new)) (held pool.new ≡ held pool.old) }
    ensures code { Answered result ⊤ (IsOpenRefused (config_words config.now) result) }
{
    match boxed_core(alloc, config) {
        Ok(core) => {
            let _before = pool.take(alloc);
            *pool = Handle::open(core);
            OK
        }
        Err(code) => code,
    }
}

fn boxed_copy(alloc: Global, core: &Core) -> Result<Box<Core>, u32>
    ensures ok { IfOk result (λ copy. Copied (Some core.now) (Some copy.value)) }
    ensures err { IfErr result (λ code. IsCopyRefused (Some core.now) code) }
{
    if core.calls() != 0 {
        return Err(IN_FLIGHT);
    }
    let Ok(copy) = core.copy(alloc) else {
        return Err(NO_MEMORY);
    };
    match Box::new(alloc, copy) {
        Ok(copy) => Ok(copy),
        Err(_) => Err(NO_MEMORY),
    }
}

/// A copy of a pool in which no call is in flight. From here on neither sees what happens to the other. One that was open where the
/// copy comes is closed.
#[unsafe(no_mangle)]
pub extern "C" fn hugepool_copy(alloc: Global, pool: &mut Handle, copy: &mut Handle) -> u32
    ensures pool { held pool.new ≡ held pool.old }
    ensures copied { Answered result (Copied (held pool.old) (held copy.new)) (held copy.new ≡ held copy.old) }
    ensures code { Answered result ⊤ (IsCopyRefused (held pool.old) result) }
{
    match pool.read(alloc, |core| boxed_copy(alloc, core)) {
        None => IS_CLOSED,
        Some(Err(code)) => code,
        Some(Ok(copied)) => {
            let _before = copy.take(alloc);
            *copy = Handle::open(copied);
            OK
        }
    }
}

/// The end of a pool: its memory is given back, and it is closed. To close it again does nothing.
#[unsafe(no_mangle)]
pub extern "C" fn hugepool_close(alloc: Global, pool: &mut Handle)
    ensures { held pool.new ≡ None }
{
    let _core = pool.take(alloc);
}
