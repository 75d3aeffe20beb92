//! Readers that break.
use crate::sample_texts::{REPLAYED, SCRIPT, TRACE};
use crate::streams::SmallReader;
use hp_replay::{ReplayFault, Source, Watched, check_trace, read_script, read_trace, replay};
use std::alloc::Global;
use std::io::ErrorKind;
use std::process::Abort;
use std::test::Fail;

/// What is read.
#[derive(Clone, Copy, Debug)]
enum Reading {
    /// A trace that is run.
    Replay,
    /// A trace whose events are counted.
    Check,
    /// A trace.
    Trace,
    /// A script.
    Script,
}

/// Each, with what is read and what is written then.
const ALL: [(Reading, &[u8], &[u8]); 4] = [
    (Reading::Replay, TRACE, REPLAYED),
    (Reading::Check, TRACE, b""),
    (Reading::Trace, TRACE, b""),
    (Reading::Script, SCRIPT, b""),
];

/// Reads it. A replay writes what comes of it.
fn read(
    alloc: Global,
    reading: Reading,
    source: &mut Watched<SmallReader<'_>>,
    written: &mut Vec<u8>,
) -> Result<(), ReplayFault> {
    match reading {
        Reading::Replay => replay(alloc, source, &mut Watched::new(written)),
        Reading::Check => check_trace(source).map(|_| ()),
        Reading::Trace => read_trace(alloc, source).map(|_| ()),
        Reading::Script => read_script(alloc, source).map(|_| ()),
    }
}

/// Reads it through a reader that breaks after so many calls: what was written is a front of what is right.
fn check_break(
    rt: &impl Abort,
    alloc: Global,
    (reading, bytes, right): (Reading, &[u8], &[u8]),
    calls: usize,
    error: ErrorKind,
) {
    let mut source = Watched::new(SmallReader::new(bytes, calls, error));
    let mut written = Vec::new(alloc);
    let answer = read(alloc, reading, &mut source, &mut written);
    assert_eq!(rt; answer, Err(ReplayFault::Read), "{reading:?}");
    assert!(rt; source.has_failed());
    assert!(rt; right.starts_with(written.as_slice()), "{reading:?}");
}

#[test]
fn a_reader_that_gives_a_byte_a_call_is_read(rt: HostRuntime) -> Result<(), Fail> {
    for (reading, bytes, right) in ALL {
        let mut source = Watched::new(SmallReader::new(bytes, usize::MAX, ErrorKind::Other));
        let mut written = Vec::new(rt.alloc());
        read(rt.alloc(), reading, &mut source, &mut written)?;
        assert!(rt; !source.has_failed());
        assert_eq!(rt; written.as_slice(), right, "{reading:?}");
    }
    Ok(())
}

/// Behind a read that broke the next one is made, and its bytes are given.
#[test]
fn a_source_goes_on_behind_a_failure(rt: HostRuntime) {
    let mut source = Watched::new(SmallReader::new(b"ab", 1, ErrorKind::Other));
    let mut piece = [0; 8];
    assert_eq!(rt; source.read_piece(&mut piece), Ok(1));
    assert_eq!(rt; source.read_piece(&mut piece), Err(ReplayFault::Read));
    assert_eq!(rt; source.read_piece(&mut piece), Ok(1));
    assert_eq!(rt; piece[0], b'b');
    assert_eq!(rt; source.read_piece(&mut piece), Ok(0));
}

/// The call that would tell the end breaks, too.
#[test]
fn a_read_that_breaks_is_told(rt: HostRuntime) {
    for error in [ErrorKind::Interrupted, ErrorKind::UnexpectedEof] {
        for (reading, bytes, right) in ALL {
            for calls in 0..=bytes.len() {
                check_break(&rt, rt.alloc(), (reading, bytes, right), calls, error);
            }
        }
    }
}
