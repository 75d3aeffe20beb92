//! How much memory a search among all schedules may take, where its words don't say.
ghost use Rattle.std.specs.Prelude.{◌≡◌, ◌*◌, ◌-◌, ◌^◌, min};

use hp_command::{Asked, Request, ScriptRequest};
use std::fs;

/// What Linux says of memory, in lines of a name, a colon and a number of KiB.
const MEMORY: &str = "/proc/meminfo";

const FREE: &str = "MemAvailable:";

// The limit of a search among all schedules, if that is what is asked for.
fn limit_of(asked: &mut Asked) -> Option<&mut Option<u64>> {
    match &mut asked.request {
        Request::Script(ScriptRequest::ExploreEvery(bounds)) => Some(&mut bounds.memory),
        Request::Script(ScriptRequest::ScheduleEvery(choice)) => Some(&mut choice.bounds.memory),
        Request::Script(ScriptRequest::FindEvery(search)) => Some(&mut search.memory),
        _ => None,
    }
}

// How many KiB are free, by the lines of the system.
fn free_kibibytes(lines: &str) -> Option<u64> {
    let line = lines.lines().find(|line| line.starts_with(FREE))?;
    line.split_whitespace().nth(1)?.parse::<u64>().ok()
}

// Half of so many KiB, in bytes.
fn half_of(free: u64) -> u64
    ensures { result ≡ min (free * 512) (2 ^ 64 - 1) }
{
    free.saturating_mul(512)
}

/// Where no limit is given, it is half of what is free. Where the system doesn't tell that, there is none.
pub(crate) fn limit_memory(rt: &HostRuntime, asked: &mut Asked) {
    let Some(limit) = limit_of(asked) else {
        return;
    };
    if limit.is_some() {
        return;
    }
    let Ok(lines) = fs::read_to_string(rt, MEMORY) else {
        return;
    };
    *limit = free_kibibytes(lines.as_str()).map(|free| half_of(free));
}
