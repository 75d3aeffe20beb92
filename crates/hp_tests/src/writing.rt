//! Writers that break.
use crate::sample_texts::{EXPLORED, REPLAYED, SCRIPT, TRACE};
use crate::streams::{Break, SmallWriter};
use hp_explore::{Audit, Chances, Exploration, Finish, RunLine, write_explored, write_lines};
use hp_replay::{
    ReplayFault, Watched, read_script, read_trace, replay, write_count, write_text, write_trace,
};
use std::alloc::{AllocError, Global};
use std::io::ErrorKind;
use std::process::Abort;
use std::test::Fail;
use std::thread::Threads;

/// What is written.
#[derive(Clone, Copy, Debug)]
enum Writing {
    /// What comes of a trace.
    Replay,
    /// A trace.
    Trace,
    /// Lines of runs.
    Lines,
    /// The same, run by run.
    Explored,
    /// How many events there are.
    Count,
    /// Any text.
    Text,
}

/// The line of a run.
const LINE: RunLine = RunLine {
    run: 0,
    finish: Finish::Finished,
    turns: 5,
    free: 4,
    resv: 0,
};

/// A run in which each turn is a kill.
const EXPLORATION: Exploration = Exploration {
    seed: 1,
    runs: 1,
    chances: Chances {
        deny: 0,
        kill: 1000,
    },
    audit: Audit::LeftOut,
};

/// Each, with its text.
const ALL: [(Writing, &[u8]); 6] = [
    (Writing::Replay, REPLAYED),
    (Writing::Trace, TRACE),
    (Writing::Lines, EXPLORED),
    (Writing::Explored, EXPLORED),
    (Writing::Count, b"events 8\n"),
    (Writing::Text, SCRIPT),
];

/// Writes it.
fn write(
    rt: &(impl Threads + Sync),
    alloc: Global,
    writing: Writing,
    sink: &mut Watched<&mut SmallWriter>,
) -> Result<(), ReplayFault> {
    match writing {
        Writing::Replay => replay(alloc, &mut &TRACE[..], sink),
        Writing::Trace => {
            let trace = read_trace(alloc, &mut &TRACE[..])?;
            write_trace(alloc, &trace, sink)
        }
        Writing::Lines => write_lines(alloc, &[LINE], sink),
        Writing::Explored => {
            let script = read_script(alloc, &mut &SCRIPT[..])?;
            write_explored(rt, alloc, &script, EXPLORATION, sink).map(|_| ())
        }
        Writing::Count => write_count(alloc, 8, sink),
        Writing::Text => write_text(sink, SCRIPT),
    }
}

/// Writes it through a writer that breaks after so many calls: all before that is written, and nothing else.
fn check_break(
    rt: &(impl Threads + Abort + Sync),
    alloc: Global,
    (writing, text): (Writing, &[u8]),
    calls: usize,
    broken: Break,
) {
    let mut writer = SmallWriter::new(alloc, calls, broken);
    let mut sink = Watched::new(&mut writer);
    let answer = write(rt, alloc, writing, &mut sink);
    assert_eq!(rt; answer, Err(ReplayFault::Write), "{writing:?}");
    assert!(rt; sink.has_failed());
    assert_eq!(rt; Some(writer.taken()), text.get(..calls), "{writing:?}");
}

#[test]
fn a_writer_that_takes_a_byte_a_call_gets_all(rt: HostRuntime) -> Result<(), Fail> {
    for (writing, text) in ALL {
        let mut writer = SmallWriter::new(rt.alloc(), usize::MAX, Break::Nothing);
        let mut sink = Watched::new(&mut writer);
        write(&rt, rt.alloc(), writing, &mut sink)?;
        assert!(rt; !sink.has_failed());
        assert_eq!(rt; writer.taken(), text, "{writing:?}");
    }
    Ok(())
}

#[test]
fn a_write_that_breaks_is_told(rt: HostRuntime) {
    let breaks = [
        Break::Nothing,
        Break::Error(ErrorKind::Interrupted),
        Break::Error(ErrorKind::BrokenPipe),
        Break::Error(ErrorKind::StorageFull),
    ];
    for broken in breaks {
        for (writing, text) in ALL {
            for calls in 0..text.len() {
                check_break(&rt, rt.alloc(), (writing, text), calls, broken);
            }
        }
    }
}

/// What comes of a trace of these lines, each of which is refused.
fn replayed(alloc: Global, lines: usize) -> Result<Vec<u8>, ReplayFault> {
    let mut trace = b"pool 1 1 1 1\n".to_vec(alloc)?;
    for _ in 0..lines {
        trace.extend_from_slice(b"step 99\n")?;
    }
    let mut out = Vec::new(alloc);
    replay(alloc, &mut trace.as_slice(), &mut Watched::new(&mut out))?;
    Ok(out)
}

/// And what has to come of it.
fn refused(alloc: Global, lines: usize) -> Result<Vec<u8>, AllocError> {
    let mut text = Vec::new(alloc);
    for _ in 0..lines {
        text.extend_from_slice(b"refused notalive\n")?;
    }
    text.extend_from_slice(
        b"free 1 resv 0 calls 0\nfile 0 size 0 reserved 0 regions 0 pages 0 changes 0 spare 0\n\
        task 1 alive mappings 0 entries 0\n",
    )?;
    Ok(text)
}

/// A piece of 4,096 bytes comes to more than 8,192 here, which is all that a replay has room for in itself.
#[test]
fn a_piece_may_come_to_much_text(rt: HostRuntime) -> Result<(), Fail> {
    let told = replayed(rt.alloc(), 2_000)?;
    let wanted = refused(rt.alloc(), 2_000)?;
    assert_eq!(rt; told.len(), wanted.len());
    assert!(rt; told == wanted);
    Ok(())
}
