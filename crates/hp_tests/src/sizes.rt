//! Long traces and runs: with ample memory none of them meets a want of it. The largest sizes are rows of `examples/commands`.
use crate::calls::told_of;
use crate::texts::{is_written, read};
use hp_core::Core;
use hp_replay::Trace;
use std::alloc::{AllocError, Global};
use std::test::Fail;

/// Adds so many steps of the only task.
fn add_steps(text: &mut String, times: u32) -> Result<(), AllocError> {
    for _ in 0..times {
        text.push_str("step 1\n")?;
    }
    Ok(())
}

/// A page at every other index of a file, each by a call of its own.
fn every_other_index(alloc: Global) -> Result<String, AllocError> {
    let mut text = String::new(alloc);
    text.push_str("pool 4096 1 1 1\n")?;
    for half in 0..2048_u32 {
        let line = format!(in alloc; "begin 1 alloc 0 {} 1\n", half.saturating_mul(2))?;
        text.push_str(line.as_str())?;
        add_steps(&mut text, 12)?;
    }
    Ok(text)
}

/// 26,624 events are read, and written again.
#[test]
fn a_long_trace(rt: HostRuntime) -> Result<(), Fail> {
    let text = every_other_index(rt.alloc())?;
    let trace = read(rt.alloc(), text.as_bytes())?;
    assert_eq!(rt; trace.events.len(), 26_624);
    is_written(&rt, rt.alloc(), &trace, text.as_bytes());
    Ok(())
}

/// How many outcomes a run of the trace tells, and how many frames are free then.
fn run_whole(alloc: Global, trace: &Trace) -> Result<(usize, u32), Fail> {
    let mut core = Core::new(alloc, trace.config)?;
    let told = told_of(&mut core, alloc, trace.events.as_slice())?;
    Ok((told.len(), core.free()))
}

/// Those events in one run: each has its outcome.
#[test]
fn a_long_run(rt: HostRuntime) -> Result<(), Fail> {
    let text = every_other_index(rt.alloc())?;
    let trace = read(rt.alloc(), text.as_bytes())?;
    let (told, free) = run_whole(rt.alloc(), &trace)?;
    assert_eq!(rt; told, 26_624);
    assert_eq!(rt; free, 2048);
    Ok(())
}
