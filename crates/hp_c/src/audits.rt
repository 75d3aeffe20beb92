//! An audit of a pool.
ghost use Rattle.std.specs.Prelude.{◌≡◌, ⊤, IsSomeAnd, IfErr, IfOk};
ghost use Rattle.hp_handle.specs.Held.{held};
ghost use Rattle.hp_c.specs.Answers.{Answered};
ghost use Rattle.hp_c.specs.Audits.{IsAuditRefused, IsAudited, finding_number};

use crate::codes::{IS_CLOSED, NO_MEMORY, OK};
use hp_audit::{Finding, audit};
use hp_core::Core;
use hp_handle::Handle;
use std::alloc::Global;

/// The number of a finding, counted from 1. Of none it is 0.
fn finding_number(found: Result<(), Finding>) -> u32
    ensures { result ≡ finding_number found }
{
    match found {
        Ok(()) => 0,
        Err(Finding::Shape) => 1,
        Err(Finding::Agree) => 2,
        Err(Finding::Place) => 3,
        Err(Finding::Size) => 4,
        Err(Finding::Count) => 5,
        Err(Finding::Used) => 6,
    }
}

/// What an audit of the core's picture finds.
fn found(alloc: Global, core: &Core) -> Result<u32, u32>
    ensures nothing { IfOk result (λ number. number ≡ 0) }
    ensures audited { IfOk result (λ number. IsAudited core.now) }
    ensures err { IfErr result (λ code. code ≡ NO_MEMORY) }
{
    match core.picture(alloc) {
        Ok(picture) => Ok(finding_number(audit(&picture))),
        Err(_) => Err(NO_MEMORY),
    }
}

/// Looks at all of a pool: whether translations, frames and counts are as they have to be. `finding` is 0, since of a pool that was
/// reached by events nothing else can be found; another number says that its memory was damaged. The pool is as it was.
#[unsafe(no_mangle)]
pub extern "C" fn hugepool_audit(alloc: Global, pool: &mut Handle, finding: &mut u32) -> u32
    ensures pool { held pool.new ≡ held pool.old }
    ensures audited { Answered result (IsSomeAnd (held pool.old) IsAudited) ⊤ }
    ensures nothing { Answered result (finding.new ≡ 0) (finding.new ≡ finding.old) }
    ensures code { Answered result ⊤ (IsAuditRefused (held pool.old) result) }
{
    match pool.read(alloc, |core| found(alloc, core)) {
        None => IS_CLOSED,
        Some(Err(code)) => code,
        Some(Ok(number)) => {
            *finding = number;
            OK
        }
    }
}
