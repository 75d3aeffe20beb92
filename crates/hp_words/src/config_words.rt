//! The sizes of a pool as numbers.
ghost use Rattle.std.specs.Prelude.{◌≡◌, ◌↔◌, ◌≤◌, IfSome, IsSome, Some, None, true, if◌then◌else◌};
ghost use Rattle.hp_base.specs.Text.{are_sizes, sizes};
ghost use Rattle.hp_words.specs.Words.{config_words};

use hp_base::Config;

/// How large a pool is. `quota` counts only where `has_quota` is true.
#[repr(C)]
#[derive(Clone, Copy)]
pub struct ConfigWords {
    pub frames: u32,
    pub files: u32,
    pub slots: u32,
    pub tasks: u32,
    pub quota: u32,
    pub has_quota: bool,
}

impl ConfigWords {
    /// The sizes of the config.
    pub fn of(config: Config) -> ConfigWords
        ensures { config_words result ≡ sizes config }
    {
        let (has_quota, quota) = match config.quota {
            Some(quota) => (true, quota),
            None => (false, 0),
        };
        ConfigWords {
            frames: config.frames,
            files: config.files,
            slots: config.slots,
            tasks: config.tasks,
            quota,
            has_quota,
        }
    }

    /// The config of these sizes, if each is within its limits.
    pub fn config(&self) -> Option<Config>
        ensures within { IsSome result ↔ (are_sizes (config_words self.now) ≡ true) }
        ensures sizes { IfSome result (λ config. sizes config ≡ config_words self.now) }
    {
        let config = Config::new(self.frames, self.files, self.slots, self.tasks).ok()?;
        if self.has_quota {
            config.with_quota(self.quota).ok()
        } else {
            Some(config)
        }
    }
}
