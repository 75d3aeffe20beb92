//! A trace, event by event: one to which memory is refused is tried again.
use hp_base::{Config, Event};
use hp_core::{Core, Outcome};
use hp_replay::{TraceFeed, TraceLine, push_state};
use std::alloc::Global;
use std::io;
use std::io::Read;

/// Makes an event.
fn step(rt: &impl Print, core: &mut Core, event: Event) -> io::Result<Outcome> {
    if let Ok(outcome) = core.step(event) {
        return Ok(outcome);
    }
    println!(rt; "step: out of memory")?;
    Ok(core.step(event)?)
}

/// Opens a pool for which there was no memory at first.
fn open_again(rt: &impl Print, alloc: Global, config: Config) -> io::Result<Core> {
    println!(rt; "open: out of memory")?;
    Ok(Core::new(alloc, config)?)
}

/// Opens a pool.
fn open(rt: &impl Print, alloc: Global, config: Config) -> io::Result<Core> {
    match Core::new(alloc, config) {
        Ok(core) => Ok(core),
        Err(_) => open_again(rt, alloc, config),
    }
}

/// Runs a line, and tells what came of it.
fn run(
    rt: &impl Print,
    alloc: Global,
    core: &mut Option<Core>,
    line: Option<TraceLine>,
) -> io::Result<()> {
    match line {
        Some(TraceLine::Header(config)) => {
            let opened = open(rt, alloc, config)?;
            *core = Some(opened);
            Ok(())
        }
        Some(TraceLine::Event(event)) => match core {
            Some(core) => {
                let outcome = step(rt, core, event)?;
                println!(rt; "{outcome}")
            }
            None => Ok(()),
        },
        None => Ok(()),
    }
}

/// Tells the state.
fn tell_state(rt: &impl Print, alloc: Global, core: &Core) -> io::Result<()> {
    let mut text = String::new(alloc);
    if push_state(core, &mut text).is_err() {
        println!(rt; "state: out of memory")?;
        text.clear();
        push_state(core, &mut text)?;
    }
    print!(rt; "{text}")
}

/// Runs the lines that a piece ends. Whether all of them are lines of a trace.
fn run_piece(
    rt: &impl Print,
    alloc: Global,
    feed: &mut TraceFeed,
    core: &mut Option<Core>,
    piece: &[u8],
) -> io::Result<bool> {
    let mut rest = piece;
    for _ in 0..piece.len() {
        let Ok((used, line)) = feed.take(rest) else {
            return Ok(false);
        };
        rest = rest.get(used..).unwrap_or(&[]);
        run(rt, alloc, core, line)?;
    }
    Ok(true)
}

/// The story that a trace tells: its outcomes, and its state at the end. The first piece of it was read.
pub(crate) fn tell(
    rt: &impl Print,
    alloc: Global,
    first: &[u8],
    reader: &mut impl Read,
) -> io::Result<()> {
    let mut feed = TraceFeed::new();
    let mut core = None;
    let mut is_trace = run_piece(rt, alloc, &mut feed, &mut core, first)?;
    let mut piece = [0; 1000];
    for _ in 0..u64::MAX {
        let read = reader.read(&mut piece)?;
        if read == 0 || !is_trace {
            break;
        }
        let bytes = piece.get(..read).unwrap_or(&[]);
        is_trace = run_piece(rt, alloc, &mut feed, &mut core, bytes)?;
    }
    match &core {
        Some(core) if is_trace => tell_state(rt, alloc, core),
        _ => println!(rt; "no trace"),
    }
}
