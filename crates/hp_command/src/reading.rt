//! The words of a command line, read.
use crate::choices::SEED;
use crate::commands::{EXPLORE, FIND, MINIMIZE, RACE, Row, SCHEDULE, invalid, program};
use crate::conditions::read_conditions;
use crate::request::{
    Asked, EndingChoice, EveryBounds, EverySearch, Input, PoolRequest, Racing, Request, Scheduling,
    ScriptRequest, Search, TraceRequest, When,
};
use crate::view::read_view;
use clap::{ArgMatches, Error};
use hp_explain::View;
use hp_explore::{Audit, Chances, Exploration};
use hp_hunt::Hunt;
use hp_race as race;
use hp_summary::Survey;
use std::alloc::{AllocError, Global};
use std::convert::AsStr;
use std::num::NonZeroU32;

const SEEDS: &str = "a seed is a number from 0 to 18446744073709551615";

fn seed(alloc: Global, given: &ArgMatches, row: &Row) -> Result<u64, Error> {
    let text = given.get_str("seed").unwrap_or("1");
    match text.parse::<u64>() {
        Ok(seed) => Ok(seed),
        Err(_) => Err(invalid(alloc, row, &SEED, SEEDS, text)?),
    }
}

fn number(given: &ArgMatches, name: &str, default: u32) -> u32 {
    given.get_one::<u32>(name).unwrap_or(default)
}

fn chances(given: &ArgMatches) -> Chances {
    Chances {
        deny: number(given, "deny", 0),
        kill: number(given, "kill", 0),
    }
}

fn audit(given: &ArgMatches) -> Audit {
    if given.get_flag("audit") {
        Audit::EachTurn
    } else {
        Audit::LeftOut
    }
}

fn bounds(given: &ArgMatches) -> EveryBounds {
    EveryBounds {
        denials: number(given, "denials", 0),
        kills: number(given, "kills", 0),
        states: number(given, "states", u32::MAX),
        memory: match given.get_one::<u32>("memory") {
            Some(mebibytes) => Some(u64::from(mebibytes) << 20),
            None => None,
        },
    }
}

fn exploring(alloc: Global, given: &ArgMatches) -> Result<ScriptRequest, Error> {
    if given.get_flag("every") {
        return Ok(ScriptRequest::ExploreEvery(bounds(given)));
    }
    let seed = seed(alloc, given, &EXPLORE)?;
    let (runs, chances) = (number(given, "runs", 10), chances(given));
    if given.get_flag("summary") {
        return Ok(ScriptRequest::Summarize(Survey {
            seed,
            runs,
            chances,
        }));
    }
    Ok(ScriptRequest::Explore(Exploration {
        seed,
        runs,
        chances,
        audit: audit(given),
    }))
}

fn scheduling(alloc: Global, given: &ArgMatches) -> Result<ScriptRequest, Error> {
    let run = number(given, "run", 0);
    if given.get_flag("every") {
        let bounds = bounds(given);
        return Ok(ScriptRequest::ScheduleEvery(EndingChoice { bounds, run }));
    }
    Ok(ScriptRequest::Schedule(Scheduling {
        seed: seed(alloc, given, &SCHEDULE)?,
        run,
        chances: chances(given),
    }))
}

fn finding(alloc: Global, given: &ArgMatches) -> Result<ScriptRequest, Error> {
    let conditions = read_conditions(alloc, given, &FIND)?;
    if given.get_flag("every") {
        let EveryBounds {
            denials,
            kills,
            states,
            memory,
        } = bounds(given);
        return Ok(ScriptRequest::FindEvery(EverySearch {
            denials,
            kills,
            states,
            memory,
            conditions,
        }));
    }
    let hunt = Hunt {
        seed: seed(alloc, given, &FIND)?,
        limit: number(given, "limit", 65_536),
        chances: chances(given),
    };
    Ok(ScriptRequest::Find(Search { hunt, conditions }))
}

fn racing(alloc: Global, given: &ArgMatches) -> Result<ScriptRequest, Error> {
    let chances = race::Chances {
        seed: seed(alloc, given, &RACE)?,
        deny: number(given, "deny", 0),
        kill: number(given, "kill", 0),
    };
    if given.get_flag("trace") {
        return Ok(ScriptRequest::Race(Racing::Trace { chances }));
    }
    Ok(ScriptRequest::Race(Racing::Times {
        times: number(given, "times", 10),
        cut: given.get_one::<u32>("cut").and_then(NonZeroU32::new),
        chances,
    }))
}

fn working(alloc: Global, given: &ArgMatches) -> Result<PoolRequest, AllocError> {
    let name = String::from_str(alloc, given.get_str("NAME").unwrap_or(""))?;
    let driver = String::from_str(alloc, given.get_str("on").unwrap_or("core"))?;
    if given.get_flag("trace") {
        return Ok(PoolRequest::TraceWork { name, driver });
    }
    Ok(PoolRequest::Work { name, driver })
}

fn explaining(alloc: Global, given: &ArgMatches) -> Result<TraceRequest, Error> {
    let view = read_view(alloc, given)?;
    if given.get_flag("json") {
        return Ok(TraceRequest::ExplainJson(view));
    }
    Ok(TraceRequest::Explain(view))
}

fn replaying(given: &ArgMatches) -> TraceRequest {
    if given.get_flag("json") {
        return TraceRequest::ExplainJson(View::whole());
    }
    if given.get_flag("picture") {
        return TraceRequest::State;
    }
    TraceRequest::Replay
}

fn drawing(given: &ArgMatches) -> TraceRequest {
    if given.get_flag("html") {
        return TraceRequest::Page;
    }
    TraceRequest::Draw
}

// A file of the name `-` is standard input.
fn file(alloc: Global, given: &ArgMatches) -> Result<Option<String>, AllocError> {
    match given.get_str("FILE") {
        Some(path) if path != "-" => Ok(Some(String::from_str(alloc, path)?)),
        _ => Ok(None),
    }
}

fn request(
    alloc: Global,
    name: &str,
    given: &ArgMatches,
    is_typed: bool,
) -> Result<Request, Error> {
    Ok(match name {
        "explore" => Request::Script(exploring(alloc, given)?),
        "check" => Request::Trace(TraceRequest::Check),
        "explain" => Request::Trace(explaining(alloc, given)?),
        "draw" => Request::Trace(drawing(given)),
        "schedule" => Request::Script(scheduling(alloc, given)?),
        "find" => Request::Script(finding(alloc, given)?),
        "minimize" => Request::Script(ScriptRequest::Minimize(read_conditions(
            alloc, given, &MINIMIZE,
        )?)),
        "format" => Request::Trace(TraceRequest::Format),
        "audit" => Request::Audit,
        "step" => Request::Pool(PoolRequest::Step {
            file: file(alloc, given)?,
            is_typed,
        }),
        "race" => Request::Script(racing(alloc, given)?),
        "work" => Request::Pool(working(alloc, given)?),
        _ => Request::Trace(replaying(given)),
    })
}

fn input(alloc: Global, name: &str, given: &ArgMatches) -> Result<Input, AllocError> {
    if name == "work" {
        return Ok(Input::Nothing);
    }
    let file = file(alloc, given)?;
    Ok(match (name, file) {
        ("step", Some(path)) => Input::Before(path),
        ("step", None) => Input::Nothing,
        (_, Some(path)) => Input::File(path),
        (_, None) => Input::Standard,
    })
}

// A command that has nothing to colour has no such option.
fn colours(given: &ArgMatches) -> When {
    match given.get_str("color") {
        Some("always") => When::Always,
        Some("auto") => When::Auto,
        _ => When::Never,
    }
}

/// Reads the words of a command line, the program's name first. `is_typed` says whether standard input is a terminal. Help and the version
/// come as an error, as clap has them.
pub fn read_words<S: AsStr>(alloc: Global, words: &[S], is_typed: bool) -> Result<Asked, Error> {
    let matches = program(alloc)?.try_get_matches_from(words)?;
    let (name, given) = matches.subcommand().unwrap_or(("replay", &matches));
    Ok(Asked {
        request: request(alloc, name, given, is_typed)?,
        input: input(alloc, name, given)?,
        colours: colours(given),
        // (a command without such an option has no such flag; explain and replay have objects of their own)
        is_json: given.get_flag("json"),
        is_loose: given.get_flag("loose"),
    })
}
