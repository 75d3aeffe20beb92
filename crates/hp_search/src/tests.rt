//! Two tasks that each map a page, in a pool that has one. By the phases of a map, one that is mapped has 8 events with its begin, one that
//! finds no frame 7, and one that is denied its descriptor 4.
use crate::{Budget, Reachability, find_every};
use hp_base::Task;
use hp_hunt::{
    AnswerName, AnswerWord, CallChoice, Comparison, Condition, PoolCount, Relation, Sought,
    SoughtAnswer,
};
use hp_layers::{Limits, Progress};
use hp_text::{ReplayFault, read_any_script};
use std::alloc::Global;
use std::test::Fail;
use std::thread::Threads;

const MAPS: &str = "pool 1 1 4 2\nbegin 1 map 0 0 1\nbegin 2 map 0 1 1\n";

/// How many layers were told.
#[derive(Drop)]
struct Told {
    layers: u32,
}

impl Progress for Told {
    fn layer(&mut self, turns: u32, states: usize, bytes: u64) {
        let _ = (turns, states, bytes);
        self.layers = self.layers.saturating_add(1);
    }
}

/// How the first call of a task is to end.
fn answered(number: u32, word: AnswerWord) -> Condition {
    Condition {
        sought: Sought::Answer(SoughtAnswer {
            task: Some(Task::new(number)),
            call: CallChoice::Number(1),
            name: AnswerName::Word(word),
            counted: None,
        }),
        wanted: true,
        choice: number,
    }
}

/// How the first calls of both tasks are to end.
fn both(one: AnswerWord, other: AnswerWord) -> [Condition; 2] {
    [answered(1, one), answered(2, other)]
}

/// What is said of all schedules: the number of events of a shortest; 1000 if there is none; 2000 if there are too many states.
fn said(
    rt: &(impl Threads + Sync),
    alloc: Global,
    conditions: &[Condition],
    budget: Budget,
    states: usize,
) -> Result<usize, ReplayFault> {
    let script = read_any_script(alloc, &mut MAPS.as_bytes())?;
    let limits = Limits {
        turns: 1000,
        states,
        bytes: None,
    };
    let mut told = Told { layers: 0 };
    match find_every(rt, alloc, &script, budget, conditions, limits, &mut told)? {
        Reachability::Met(trace) => Ok(trace.events.len()),
        Reachability::Never => Ok(1000),
        Reachability::Cut { .. } => Ok(2000),
    }
}

/// No call is in flight at the end.
const AT_REST: Condition = Condition {
    sought: Sought::Final(Comparison {
        count: PoolCount::Calls,
        relation: Relation::Equal,
        number: 0,
    }),
    wanted: true,
    choice: 3,
};

const NOTHING: Budget = Budget {
    denials: 0,
    kills: 0,
};

#[test]
fn one_of_two_gets_the_page(rt: HostRuntime) -> Result<(), Fail> {
    let met = both(AnswerWord::Mapped, AnswerWord::NoFrame);
    let turns = said(&rt, rt.alloc(), &met, NOTHING, 1000);
    assert!(rt; matches!(turns, Ok(15)));
    let never = said(
        &rt,
        rt.alloc(),
        &both(AnswerWord::Mapped, AnswerWord::Mapped),
        NOTHING,
        1000,
    );
    assert!(rt; matches!(never, Ok(1000)));
    Ok(())
}

#[test]
fn an_eager_search_says_the_same(rt: HostRuntime) -> Result<(), Fail> {
    let [one, other] = both(AnswerWord::Mapped, AnswerWord::NoFrame);
    let met = said(&rt, rt.alloc(), &[one, other, AT_REST], NOTHING, 1000);
    assert!(rt; matches!(met, Ok(15)));
    let [one, other] = both(AnswerWord::Mapped, AnswerWord::Mapped);
    let never = said(&rt, rt.alloc(), &[one, other, AT_REST], NOTHING, 1000);
    assert!(rt; matches!(never, Ok(1000)));
    Ok(())
}

#[test]
fn a_denial_is_made_where_one_is_allowed(rt: HostRuntime) -> Result<(), Fail> {
    let denied = both(AnswerWord::Mapped, AnswerWord::NoMemory);
    let never = said(&rt, rt.alloc(), &denied, NOTHING, 1000);
    assert!(rt; matches!(never, Ok(1000)));
    let budget = Budget {
        denials: 1,
        kills: 0,
    };
    let met = said(&rt, rt.alloc(), &denied, budget, 1000);
    assert!(rt; matches!(met, Ok(12)));
    Ok(())
}

#[test]
fn too_many_states_are_told(rt: HostRuntime) -> Result<(), Fail> {
    let never = both(AnswerWord::Mapped, AnswerWord::Mapped);
    let cut = said(&rt, rt.alloc(), &never, NOTHING, 2);
    assert!(rt; matches!(cut, Ok(2000)));
    Ok(())
}
