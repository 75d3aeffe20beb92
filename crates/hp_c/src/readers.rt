//! The numbers of a pool, of a file and of a task, and an audit.
ghost use Rattle.std.specs.Prelude.{◌≡◌, ◌≤◌, ◌<◌, ◌↔◌, ⊤, Some, None, IfSome, IsSomeAnd, IsTrue, is_some};
ghost use Rattle.hp_core.specs.Acquiring.{acquired_of};
ghost use Rattle.hp_core.specs.Readers.{config_of, translation_of};
ghost use Rattle.hp_handle.specs.Held.{held};
ghost use Rattle.hp_c.specs.Answers.{Answered};
ghost use Rattle.hp_c.specs.Numbers.{TellsPool, TellsFile, TellsTask, TellsFrame, acquired_words, flagged, is_task, phase_or_none};
ghost use Rattle.hp_c.specs.Numbers.{IsClosed, IsFileRefused, IsTaskRefused, IsUntold, TellsAcquired};

use crate::codes::{IS_CLOSED, NO_SUCH, OK};
use hp_base::{File, Frame, Task, Vpn};
use hp_core::{Acquired, Core};
use hp_handle::Handle;
use hp_machine::Phase;
use hp_phases::phase_number;
use hp_words::outcome_words::life_number;
use std::alloc::Global;

/// The numbers of a pool. `quota` counts only where `has_quota` is true.
#[repr(C)]
#[derive(Clone, Copy)]
pub struct PoolWords {
    pub owed: i64,
    pub used_owed: i64,
    pub frames: u32,
    pub free: u32,
    pub resv: u32,
    pub used: u32,
    pub quota: u32,
    pub calls: u32,
    pub files: u32,
    pub tasks: u32,
    pub has_quota: bool,
}

/// The numbers of a file.
#[repr(C)]
#[derive(Clone, Copy)]
pub struct FileWords {
    pub regions: usize,
    pub changes: usize,
    pub spare: usize,
    pub size: u32,
    pub reserved: u32,
    pub pages: u32,
}

/// The numbers of a task. `phase` is 0 where no call is in flight, and `holder` counts only where `is_blocked` is true.
#[repr(C)]
#[derive(Clone, Copy)]
pub struct TaskWords {
    pub mappings: usize,
    pub entries: usize,
    pub life: u32,
    pub phase: u32,
    pub holder: u32,
    pub is_blocked: bool,
}

/// What the next step of a task's call has to take: nothing where `kind` is 0, the lock of `file` where it is 1, and where it is 2 the
/// slot of `index` of `file`.
#[repr(C)]
#[derive(Clone, Copy)]
pub struct AcquiredWords {
    pub kind: u32,
    pub file: u32,
    pub index: u32,
}

/// The frame that a virtual page is translated to, which counts only where `is_there` is true.
#[repr(C)]
#[derive(Clone, Copy)]
pub struct FrameWords {
    pub frame: u32,
    pub is_there: bool,
}

fn flag(number: Option<u32>) -> (bool, u32)
    ensures { flagged result.0 result.1 ≡ number }
{
    match number {
        Some(number) => (true, number),
        None => (false, 0),
    }
}

fn pool_words(core: &Core) -> PoolWords
    ensures { TellsPool core.now result }
{
    let config = core.config();
    let (has_quota, quota) = flag(core.quota());
    PoolWords {
        owed: core.owed(),
        used_owed: core.used_owed(),
        frames: core.frames(),
        free: core.free(),
        resv: core.resv(),
        used: core.used(),
        quota,
        calls: core.calls(),
        files: config.files,
        tasks: config.tasks,
        has_quota,
    }
}

fn file_words(core: &Core, file: u32) -> Option<FileWords>
    ensures there { IsTrue (is_some result) ↔ (file < (config_of core.now).files) }
    ensures words { IfSome result (λ words. TellsFile core.now file words) }
{
    if file >= core.config().files {
        return None;
    }
    let file = File::new(file);
    Some(FileWords {
        regions: core.regions(file),
        changes: core.changes(file),
        spare: core.spare(file),
        size: core.size(file),
        reserved: core.reserved(file),
        pages: core.pages(file),
    })
}

fn phase_or_none(phase: Option<Phase>) -> u32
    ensures { result ≡ phase_or_none phase }
{
    match phase {
        Some(phase) => phase_number(phase),
        None => 0,
    }
}

fn number_of(task: Option<Task>) -> Option<u32>
    ensures { result ≡ task }
{
    match task {
        Some(task) => Some(task.number()),
        None => None,
    }
}

fn is_task(core: &Core, task: u32) -> bool
    ensures { result ≡ is_task core.now task }
{
    task >= 1 && task <= core.config().tasks
}

fn task_words(core: &Core, task: u32) -> Option<TaskWords>
    ensures there { is_some result ≡ is_task core.now task }
    ensures words { IfSome result (λ words. TellsTask core.now task words) }
{
    if !is_task(core, task) {
        return None;
    }
    let task = Task::new(task);
    let (is_blocked, holder) = flag(number_of(core.waits_for(task)));
    Some(TaskWords {
        mappings: core.mappings(task),
        entries: core.entries(task),
        life: life_number(core.life(task)),
        phase: phase_or_none(core.phase(task)),
        holder,
        is_blocked,
    })
}

fn acquired_words(acquired: Acquired) -> AcquiredWords
    ensures { result ≡ acquired_words acquired }
{
    match acquired {
        Acquired::Nothing => AcquiredWords {
            kind: 0,
            file: 0,
            index: 0,
        },
        Acquired::Lock(file) => AcquiredWords {
            kind: 1,
            file: file.number(),
            index: 0,
        },
        Acquired::Slot(file, index) => AcquiredWords {
            kind: 2,
            file: file.number(),
            index: index.number(),
        },
    }
}

fn task_acquires(core: &Core, task: u32) -> Option<AcquiredWords>
    ensures there { is_some result ≡ is_task core.now task }
    ensures words { IfSome result (λ words. TellsAcquired core.now task words) }
{
    if !is_task(core, task) {
        return None;
    }
    Some(acquired_words(core.acquiring(Task::new(task))))
}

fn frame_words(core: &Core, task: u32, page: u32) -> Option<FrameWords>
    ensures there { is_some result ≡ is_task core.now task }
    ensures words { IfSome result (λ words. TellsFrame core.now task page words) }
{
    if !is_task(core, task) {
        return None;
    }
    let translated = core.translate(Task::new(task), Vpn::new(page));
    let (is_there, frame) = flag(frame_number(translated));
    Some(FrameWords { frame, is_there })
}

fn frame_number(frame: Option<Frame>) -> Option<u32>
    ensures { result ≡ frame }
{
    match frame {
        Some(frame) => Some(frame.number()),
        None => None,
    }
}

/// Tells what was read of an open pool. Where nothing was, `words` stay as they were.
fn tell<W: Copy>(read: Option<Option<W>>, words: &mut W) -> u32
    ensures told { Answered result (read ≡ Some (Some words.new)) (words.new ≡ words.old) }
    ensures code { Answered result ⊤ (IsUntold read result) }
{
    match read {
        None => IS_CLOSED,
        Some(None) => NO_SUCH,
        Some(Some(read)) => {
            *words = read;
            OK
        }
    }
}

/// The numbers of the pool. The pool is as it was.
#[unsafe(no_mangle)]
pub extern "C" fn hugepool_pool_numbers(
    alloc: Global,
    pool: &mut Handle,
    numbers: &mut PoolWords,
) -> u32
    ensures pool { held pool.new ≡ held pool.old }
    ensures told { Answered result (IsSomeAnd (held pool.old) (λ core. TellsPool core numbers.new)) (numbers.new ≡ numbers.old) }
    ensures code { Answered result ⊤ (IsClosed (held pool.old) result) }
{
    tell(pool.read(alloc, |core| Some(pool_words(core))), numbers)
}

/// The numbers of the file. The pool is as it was.
#[unsafe(no_mangle)]
pub extern "C" fn hugepool_file_numbers(
    alloc: Global,
    pool: &mut Handle,
    file: u32,
    numbers: &mut FileWords,
) -> u32
    ensures pool { held pool.new ≡ held pool.old }
    ensures told { Answered result (IsSomeAnd (held pool.old) (λ core. TellsFile core file numbers.new))
        (numbers.new ≡ numbers.old) }
    ensures code { Answered result ⊤ (IsFileRefused (held pool.old) file result) }
{
    tell(pool.read(alloc, |core| file_words(core, file)), numbers)
}

/// The numbers of the task, and whom it waits for. The pool is as it was.
#[unsafe(no_mangle)]
pub extern "C" fn hugepool_task_numbers(
    alloc: Global,
    pool: &mut Handle,
    task: u32,
    numbers: &mut TaskWords,
) -> u32
    ensures pool { held pool.new ≡ held pool.old }
    ensures told { Answered result (IsSomeAnd (held pool.old) (λ core. TellsTask core task numbers.new))
        (numbers.new ≡ numbers.old) }
    ensures code { Answered result ⊤ (IsTaskRefused (held pool.old) task result) }
{
    tell(pool.read(alloc, |core| task_words(core, task)), numbers)
}

/// What the next step of the task's call has to take. The pool is as it was.
#[unsafe(no_mangle)]
pub extern "C" fn hugepool_acquires(
    alloc: Global,
    pool: &mut Handle,
    task: u32,
    acquired: &mut AcquiredWords,
) -> u32
    ensures pool { held pool.new ≡ held pool.old }
    ensures told { Answered result (IsSomeAnd (held pool.old) (λ core. TellsAcquired core task acquired.new))
        (acquired.new ≡ acquired.old) }
    ensures code { Answered result ⊤ (IsTaskRefused (held pool.old) task result) }
{
    tell(pool.read(alloc, |core| task_acquires(core, task)), acquired)
}

/// The frame that the task's virtual page is translated to, if it is. The pool is as it was.
#[unsafe(no_mangle)]
pub extern "C" fn hugepool_translate(
    alloc: Global,
    pool: &mut Handle,
    task: u32,
    page: u32,
    translated: &mut FrameWords,
) -> u32
    ensures pool { held pool.new ≡ held pool.old }
    ensures told { Answered result (IsSomeAnd (held pool.old) (λ core. TellsFrame core task page translated.new))
        (translated.new ≡ translated.old) }
    ensures code { Answered result ⊤ (IsTaskRefused (held pool.old) task result) }
{
    tell(
        pool.read(alloc, |core| frame_words(core, task, page)),
        translated,
    )
}
