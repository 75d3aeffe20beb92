//! Readers: the numbers of a core, and of each file and task.
ghost use Rattle.std.specs.Prelude.{◌≡◌, ◌≤◌, ◌<◌, ◌+◌, ℕ, Bool, true, Some, None, MatchOption, IfSome, length, count_by, is_some};
ghost use Rattle.hp_base.specs.Numbers.{total};
ghost use Rattle.hp_base.specs.Indices.{count_below};
ghost use Rattle.hp_parts.specs.View.{sets_of};
ghost use Rattle.hp_core.specs.State.{CoreState, task_state_at};
ghost use Rattle.hp_core.specs.Readers.{config_of, frames_of, free_of, resv_of, used_of, quota_of, calls_of, size_of};
ghost use Rattle.hp_core.specs.Readers.{reserved_of, regions_of, pages_of};
ghost use Rattle.hp_core.specs.Readers.{changes_of, spare_of, life_of, mappings_of, entries_of, translation_of, phase_of};
ghost use Rattle.hp_core.specs.Readers.{all_reserved_of, all_pages_of};
ghost use Rattle.hp_core.specs.Runs.{Headline};
ghost use Rattle.hp_machine.specs.Resizes.{is_size};

use crate::core_state::Core;
use crate::task_state::TaskState;
use crate::words::phase_word;
use hp_base::{File, Frame, LIMIT, Task, Vpn};
use hp_machine::{Life, Phase};

/// The numbers of a pool as a whole.
#[derive(Clone, Copy, Debug, PartialEq, Eq)]
pub struct Tally {
    /// Free frames.
    pub free: u32,
    /// The reserve count.
    pub resv: u32,
    /// The reserved indices of all files.
    pub reserved: u32,
    /// The indices of all files that have a page.
    pub pages: u32,
}

// The calls in flight.
fn count_calls(task_states: &[TaskState]) -> usize
    ensures { result ≡ count_by (λ task_state. is_some task_state.call) task_states.now }
{
    let mut calls = 0;
    for task_state in task_states {
        if task_state.call.is_some() {
            calls += 1;
        }
    }
    calls
}

/// Readers of the pool.
impl Core {
    /// How many frames the pool has, free or in use; retired ones don't count (Linux: `nr_huge_pages`). They are
    /// 1 to 4,096 at every moment.
    pub fn frames(&self) -> u32
        ensures frames { result ≡ frames_of self.now }
        ensures within { is_size result ≡ true }
    {
        hp_laws::frames_stay_within_limits();
        self.parts.bank.frames()
    }

    /// How many frames are free (Linux: `free_huge_pages`).
    pub fn free(&self) -> u32
        ensures { result ≡ free_of self.now }
    {
        self.parts.bank.free()
    }

    /// The reserve count (Linux: `resv_huge_pages`).
    pub fn resv(&self) -> u32
        ensures { result ≡ resv_of self.now }
    {
        self.parts.bank.resv()
    }

    /// The used count: the reserved indices of all files, and what calls count on besides (Linux: `used_hpages`
    /// of a subpool). It is counted without a quota, too.
    pub fn used(&self) -> u32
        ensures { result ≡ used_of self.now }
    {
        self.parts.bank.used()
    }

    /// How many pages the files may use together, where that is limited (Linux: `max_hpages` of a subpool).
    pub fn quota(&self) -> Option<u32>
        ensures { result ≡ quota_of self.now }
    {
        self.parts.bank.quota()
    }

    /// How many calls are in flight.
    pub fn calls(&self) -> u32
        ensures { result ≡ calls_of self.now }
    {
        count_calls(&self.task_states) as u32
    }

    /// The numbers of the pool as a whole. At every moment the headline holds of it: entries agree, each
    /// frame is in one place, nothing is translated beyond the size of an unlocked file, and the reserve
    /// count is the reserved indices without a page plus what calls in flight owe.
    pub fn tally(&self) -> Tally
        ensures free { result.free ≡ free_of self.now }
        ensures resv { result.resv ≡ resv_of self.now }
        ensures reserved { result.reserved ≡ all_reserved_of self.now }
        ensures pages { result.pages ≡ all_pages_of self.now }
        ensures headline { Headline self.now }
    {
        self.always();
        let (mut reserved, mut pages) = (0, 0);
        for number in 0..self.config().files {
            let file = File::new(number);
            reserved += self.reserved(file);
            pages += self.pages(file);
        }
        Tally {
            free: self.free(),
            resv: self.resv(),
            reserved,
            pages,
        }
    }
}

/// Readers of a file.
impl Core {
    /// Its size in pages.
    pub fn size(&self, file: File) -> u32
        requires { file < (config_of self.now).files }
        ensures { result ≡ size_of self.now file }
    {
        self.parts.files[file.number() as usize].size
    }

    /// How many of its indices are reserved.
    pub fn reserved(&self, file: File) -> u32
        requires { file < (config_of self.now).files }
        ensures count { result ≡ reserved_of self.now file }
        ensures in_limit { result ≤ LIMIT }
    {
        self.parts.files[file.number() as usize].map.count()
    }

    /// How many regions these are.
    pub fn regions(&self, file: File) -> usize
        requires { file < (config_of self.now).files }
        ensures { result ≡ regions_of self.now file }
    {
        self.parts.files[file.number() as usize].map.regions()
    }

    /// How many of its indices have a page.
    pub fn pages(&self, file: File) -> u32
        requires { file < (config_of self.now).files }
        ensures count { result ≡ pages_of self.now file }
        ensures in_limit { result ≤ LIMIT }
    {
        self.parts.files[file.number() as usize].cache.count()
    }

    /// The changes of its reserve map that are in progress.
    pub fn changes(&self, file: File) -> usize
        requires { file < (config_of self.now).files }
        ensures { result ≡ changes_of self.now file }
    {
        self.parts.files[file.number() as usize].map.pending()
    }

    /// The spare descriptors of its reserve map.
    pub fn spare(&self, file: File) -> usize
        requires { file < (config_of self.now).files }
        ensures { result ≡ spare_of self.now file }
    {
        self.parts.files[file.number() as usize].map.spare()
    }
}

/// Readers of a task.
impl Core {
    /// Whether it is alive, killed or dead.
    pub fn life(&self, task: Task) -> Life
        requires first { 1 ≤ task }
        requires last { task ≤ (config_of self.now).tasks }
        ensures { result ≡ life_of self.now task }
    {
        self.task_states[task.place()].life
    }

    /// The number of its mappings.
    pub fn mappings(&self, task: Task) -> usize
        requires first { 1 ≤ task }
        requires last { task ≤ (config_of self.now).tasks }
        ensures { result ≡ mappings_of self.now task }
    {
        self.parts.spaces[task.place()].mappings()
    }

    /// How many of its virtual pages are translated.
    pub fn entries(&self, task: Task) -> usize
        requires first { 1 ≤ task }
        requires last { task ≤ (config_of self.now).tasks }
        ensures { result ≡ entries_of self.now task }
    {
        self.parts.spaces[task.place()].entries()
    }

    /// The frame that a virtual page of it is translated to, if it is.
    pub fn translate(&self, task: Task, vpn: Vpn) -> Option<Frame>
        requires first { 1 ≤ task }
        requires last { task ≤ (config_of self.now).tasks }
        ensures { result ≡ translation_of self.now task vpn }
    {
        self.parts.spaces[task.place()].translate(vpn)
    }

    /// The word of the phase in which its call stands, where one is in flight.
    pub fn phase(&self, task: Task) -> Option<Phase>
        requires first { 1 ≤ task }
        requires last { task ≤ (config_of self.now).tasks }
        ensures { result ≡ phase_of self.now task }
    {
        match &self.task_states[task.place()].call {
            Some(call) => Some(phase_word(call)),
            None => None,
        }
    }
}
