//! How large a pool is.
ghost use Rattle.std.specs.Prelude.{◌≡◌, ◌≤◌, ◌↔◌, IfOk, IsOk, Some, None};
ghost use Rattle.hp_base.specs.Limits.{IsWithinLimits, IsQuota, is_in};

use std::fmt;
use thiserror::Error;

/// Why a pool of these sizes isn't to be had.
#[derive(Clone, Copy, Debug, PartialEq, Eq, Error)]
pub enum Fault {
    #[error("a pool has 1..=4096 frames, 1..=16 files, 1..=64 slots and 1..=64 tasks, and a quota of at most 65536 pages")]
    BadConfig,
}

/// How large a pool is: its frames, its files, the slots of its fault mutex table and its tasks, and how many
/// pages all files together may have, where that is limited (Linux: the size option of a hugetlbfs mount).
/// Files are numbered from 0 and tasks from 1.
#[derive(Clone, Copy, Debug, PartialEq, Eq)]
pub struct Config {
    pub frames: u32,
    pub files: u32,
    pub slots: u32,
    pub tasks: u32,
    pub quota: Option<u32>,
    pub ghost within_limits: { IsWithinLimits frames files slots tasks },
    pub ghost within_quota: { IsQuota quota },
}

impl Config {
    pub const MAX_FRAMES: u32 = 4096;

    pub const MAX_FILES: u32 = 16;

    pub const MAX_SLOTS: u32 = 64;

    pub const MAX_TASKS: u32 = 64;

    pub const MAX_QUOTA: u32 = 65_536;

    /// The sizes, where each is within its limits, and no quota.
    pub fn new(frames: u32, files: u32, slots: u32, tasks: u32) -> Result<Self, Fault>
        ensures within { IsOk result ↔ IsWithinLimits frames files slots tasks }
        ensures frames { IfOk result (λ config. config.frames ≡ frames) }
        ensures files { IfOk result (λ config. config.files ≡ files) }
        ensures slots { IfOk result (λ config. config.slots ≡ slots) }
        ensures tasks { IfOk result (λ config. config.tasks ≡ tasks) }
        ensures quota { IfOk result (λ config. config.quota ≡ None) }
    {
        let within = is_in(1, Self::MAX_FRAMES, frames)
            && is_in(1, Self::MAX_FILES, files)
            && is_in(1, Self::MAX_SLOTS, slots)
            && is_in(1, Self::MAX_TASKS, tasks);
        if !within {
            return Err(Fault::BadConfig);
        }
        Ok(Config {
            frames,
            files,
            slots,
            tasks,
            quota: None,
        })
    }

    /// Gives the pool a quota: how many pages its files together may have, reserved indices and what calls count
    /// on besides. No more than 65,536, which are all that sixteen files can have.
    pub fn with_quota(self, quota: u32) -> Result<Self, Fault>
        ensures within { IsOk result ↔ (quota ≤ 65536) }
        ensures quota { IfOk result (λ config. config.quota ≡ Some quota) }
        ensures frames { IfOk result (λ config. config.frames ≡ self.frames) }
        ensures files { IfOk result (λ config. config.files ≡ self.files) }
        ensures slots { IfOk result (λ config. config.slots ≡ self.slots) }
        ensures tasks { IfOk result (λ config. config.tasks ≡ self.tasks) }
    {
        if quota > Self::MAX_QUOTA {
            return Err(Fault::BadConfig);
        }
        Ok(Config {
            frames: self.frames,
            files: self.files,
            slots: self.slots,
            tasks: self.tasks,
            quota: Some(quota),
        })
    }
}

/// Whether a number is at least `low` and at most `high`.
fn is_in(low: u32, high: u32, number: u32) -> bool
    ensures { result ≡ is_in low high number }
{
    (low..=high).contains(&number)
}

/// The header of a trace: `pool F N S T`, or `pool F N S T Q` with a quota.
impl fmt::Display for Config {
    ghost use Rattle.hp_base.specs.Text.{config_text};

    ghost output = { λ config. Some (config_text config) };

    fn fmt<W: fmt::Write>(&self, f: &mut fmt::Formatter<W>) -> fmt::Result {
        let Config {
            frames,
            files,
            slots,
            tasks,
            quota,
        } = self;
        match quota {
            None => write!(f, "pool {frames} {files} {slots} {tasks}"),
            Some(quota) => write!(f, "pool {frames} {files} {slots} {tasks} {quota}"),
        }
    }
}
