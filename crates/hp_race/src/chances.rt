//! By which chances a race's steps are denied and its tasks killed, and what its threads draw.
ghost use Rattle.std.specs.Prelude.{◌≡◌, ◌+◌, ◌*◌, ◌<◌, ◌≤◌, ◌%◌, ◌^◌, ◌||◌, ◌↔◌, IfSome, IsTrue, MatchOption, None, nat_lt, true};
ghost use Rattle.rand_pcg.specs.Lcg.{increment_of, started};
ghost use Rattle.rand_pcg.specs.Pcg.{multiplier_64};
ghost use Rattle.hp_race.specs.Draws.{behind_victim, victim};

use crate::call_range::CallRange;
use hp_base::Task;
use rand_core::utils::NextWord;
use rand_pcg::Lcg64Xsh32;
use std::cell::Cell;

/// What happens to a race by chance: steps are denied, and tasks are killed. Where a number is 0 nothing of its kind happens.
#[derive(Clone, Copy, Debug, PartialEq, Eq)]
pub struct Chances {
    /// The seed of race 0.
    pub seed: u64,
    /// Of a thousand steps, how many are denied the memory that they want.
    pub deny: u32,
    /// Of a thousand calls, before how many a task of the pool is killed, the caller or another.
    pub kill: u32,
}

impl Chances {
    /// The same of a later race, whose seed is so much larger. It wraps.
    pub(crate) fn of_race(self, race: u32) -> Chances
        ensures seed { result.seed ≡ (self.seed + race) % 2 ^ 64 }
        ensures deny { result.deny ≡ self.deny }
        ensures kill { result.kill ≡ self.kill }
    {
        Chances {
            seed: self.seed.wrapping_add(u64::from(race)),
            deny: self.deny,
            kill: self.kill,
        }
    }
}

/// The stream from which the task draws in that range of calls: no other task draws from it, nor does the task in another range.
pub(crate) fn stream(call_range: CallRange, task: Task) -> u64
    ensures { result ≡ (call_range.from * 128 + task) % 2 ^ 64 }
{
    (call_range.from as u64)
        .wrapping_mul(128)
        .wrapping_add(u64::from(task.number()))
}

// By what one thread draws: nothing where no step is denied and no task killed.
fn generator(chances: Chances, stream: u64) -> Option<Lcg64Xsh32>
    ensures { MatchOption result ((chances.deny ≡ 0) × (chances.kill ≡ 0))
        (λ generator. generator ≡ started 64 multiplier_64 chances.seed (increment_of 64 stream)) }
{
    if chances.deny == 0 && chances.kill == 0 {
        None
    } else {
        Some(Lcg64Xsh32::new(chances.seed, stream))
    }
}

// Whether the word grants a step the memory that it wants.
fn is_granted(word: u32, deny: u32) -> bool
    ensures { IsTrue result ↔ (deny ≤ word % 1000) }
{
    word % 1000 >= deny
}

// Which task of a pool of so many is killed before the next call, if one is: a word says whether, and the next word which.
fn draw_victim(generator: &mut Lcg64Xsh32, kill: u32, tasks: u32) -> Option<Task>
    requires { 0 < tasks }
    ensures victim { result ≡ victim kill tasks generator.old }
    ensures left { generator.new ≡ behind_victim kill generator.old }
{
    if generator.next_word() % 1000 >= kill {
        return None;
    }
    Some(Task::new(1 + generator.next_word() % tasks))
}

/// What one thread draws. It is the thread's own: which words come depends on no other.
#[derive(Drop)]
pub(crate) struct Draws {
    deny: u32,
    kill: u32,
    generator: Cell<Option<Lcg64Xsh32>>,
}

impl Draws {
    /// Those of a stream of the generator, which the seed starts.
    pub(crate) fn new(chances: Chances, stream: u64) -> Draws
        ensures deny { result.deny ≡ chances.deny }
        ensures kill { result.kill ≡ chances.kill }
    {
        Draws {
            deny: chances.deny,
            kill: chances.kill,
            generator: Cell::new(generator(chances, stream)),
        }
    }

    /// Draws whether the next step is granted the memory that it wants. Without chances each is.
    pub(crate) fn grants(&self) -> bool
        ensures { (result || nat_lt 0 self.now.deny) ≡ true }
    {
        if self.deny == 0 {
            return true;
        }
        let Some(mut generator) = self.generator.take() else {
            return true;
        };
        let word = generator.next_word();
        self.generator.set(Some(generator));
        is_granted(word, self.deny)
    }

    /// Whether tasks may be killed.
    pub(crate) fn is_mortal(&self) -> bool
        ensures { result ≡ nat_lt 0 self.now.kill }
    {
        self.kill > 0
    }

    /// Draws which task of a pool of so many is killed before the next call, if one is. Without chances none is.
    pub(crate) fn victim(&self, tasks: u32) -> Option<Task>
        requires { 0 < tasks }
        ensures never { self.now.kill ≡ 0 → result ≡ None }
        ensures task { IfSome result (λ task. (1 ≤ task) × (task ≤ tasks)) }
    {
        if !self.is_mortal() {
            return None;
        }
        let mut generator = self.generator.take()?;
        let victim = draw_victim(&mut generator, self.kill, tasks);
        self.generator.set(Some(generator));
        victim
    }
}
