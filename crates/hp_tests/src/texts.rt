//! Traces as texts: read, replayed, checked and written without what the contracts promise of that. A proof that doesn't
//! ask for it is many times as fast.
use hp_replay::{
    MOST_EVENTS, ReplayFault, Trace, Watched, check_trace, read_trace, replay, write_trace,
};
use std::alloc::{AllocError, Global};
use std::process::Abort;

/// What a replay of the bytes answers, and what it writes.
pub(crate) fn replayed(alloc: Global, mut bytes: &[u8]) -> (Result<(), ReplayFault>, Vec<u8>) {
    let mut out = Vec::new(alloc);
    let answer = replay(alloc, &mut bytes, &mut Watched::new(&mut out));
    (answer, out)
}

/// The trace that the bytes are.
pub(crate) fn read(alloc: Global, mut bytes: &[u8]) -> Result<Trace, ReplayFault> {
    read_trace(alloc, &mut bytes)
}

/// How many events the trace has that the bytes are.
pub(crate) fn checked(mut bytes: &[u8]) -> Result<u32, ReplayFault> {
    check_trace(&mut bytes)
}

fn write_to(
    rt: &impl Abort,
    alloc: Global,
    trace: &Trace,
    out: &mut Vec<u8>,
) -> Result<(), ReplayFault> {
    assert!(rt; trace.events.len() <= MOST_EVENTS);
    write_trace(alloc, trace, &mut Watched::new(out))
}

/// Asserts that the trace isn't too long, and that it is written, as this.
pub(crate) fn is_written(rt: &impl Abort, alloc: Global, trace: &Trace, told: &[u8]) {
    let mut out = Vec::new(alloc);
    let answer = write_to(rt, alloc, trace, &mut out);
    assert_eq!(rt; answer, Ok(()));
    assert_eq!(rt; out.as_slice(), told);
}

/// How many lines end in the text.
pub(crate) fn lines(text: &[u8]) -> usize {
    text.iter().filter(|byte| **byte == 10).count()
}

/// Adds a line so many times.
pub(crate) fn add_lines(text: &mut Vec<u8>, line: &[u8], times: usize) -> Result<(), AllocError> {
    for _ in 0..times {
        text.extend_from_slice(line)?;
    }
    Ok(())
}
