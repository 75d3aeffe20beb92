//! What no clause says of traces: that they are read, counted and replayed, which fault each wrong one has, and the texts of
//! the faults.
use crate::texts::{add_lines, checked, is_written, lines, read, replayed};
use hp_base::{Config, Event, File, Index, Op, Task};
use hp_replay::{
    MOST_EVENTS, ReplayFault, Trace, TraceFeed, TraceLine, a_stopped_replay_names_the_fault,
    bytes_have_one_reading, pieces_do_not_show, what_is_held_is_spelled,
};
use std::alloc::{AllocError, Global};
use std::process::Abort;
use std::test::Fail;

const TRACE: &[u8] = b"pool 1 1 1 1\nbegin 1 map 0 0 1\ndeny 1\ndeny 1\n";

/// Asserts that these are the trace's events.
fn has_events(rt: &impl Abort, trace: &Trace, events: &[Event]) {
    assert_eq!(rt; trace.events.as_slice(), events);
}

/// Asserts that the trace that the bytes are is written as these bytes.
fn is_one_text(rt: &impl Abort, alloc: Global, bytes: &[u8]) -> Result<(), ReplayFault> {
    let trace = read(alloc, bytes)?;
    is_written(rt, alloc, &trace, bytes);
    Ok(())
}

#[test]
fn a_trace_has_one_text(rt: HostRuntime) -> Result<(), Fail> {
    let trace = read(rt.alloc(), TRACE)?;
    assert_eq!(rt; trace.config, Config::new(1, 1, 1, 1)?);
    let op = Op::Map {
        file: File::new(0),
        from: Index::new(0),
        len: 1,
    };
    let task = Task::new(1);
    let events = [
        Event::Begin(task, op),
        Event::Step(task, false),
        Event::Step(task, false),
    ];
    has_events(&rt, &trace, events.as_slice());
    is_written(&rt, rt.alloc(), &trace, TRACE);
    is_one_text(
        &rt,
        rt.alloc(),
        b"pool 1 1 1 1\nbegin 1 exit\ndeny 1\ndeny 1\n",
    )?;
    Ok(())
}

/// Asserts that a replay, a reading and a check of the bytes have this fault. What the replay writes is the answer.
fn has_fault(rt: &impl Abort, alloc: Global, bytes: &[u8], fault: ReplayFault) -> Vec<u8> {
    let (answer, written) = replayed(alloc, bytes);
    assert_eq!(rt; answer, Err(fault), "{bytes:?}");
    assert_eq!(rt; read(alloc, bytes).err(), Some(fault), "{bytes:?}");
    assert_eq!(rt; checked(bytes), Err(fault), "{bytes:?}");
    written
}

/// Asserts that each of the texts has no header, and that a replay of it writes nothing.
fn have_bad_headers(rt: &impl Abort, alloc: Global, texts: &[&[u8]]) {
    for bytes in texts {
        let written = has_fault(rt, alloc, bytes, ReplayFault::BadHeader);
        assert!(rt; written.is_empty());
    }
}

#[test]
fn a_bad_header_is_named(rt: HostRuntime) {
    have_bad_headers(
        &rt,
        rt.alloc(),
        &[
            &b""[..],
            b"pool 1 1 1 1",
            b"pool 4097 1 1 1\n",
            b"pool 04 1 4 1\n",
            b"pool 4 1 4 1 65537\n",
            b"pool 4 1 4 1 00\n",
            b"pool 1 1 1 1\r\n",
            b"step 1\n",
        ],
    );
}

/// The trace with this line at its end.
fn trace_and(alloc: Global, line: &[u8]) -> Result<Vec<u8>, AllocError> {
    let mut bytes = TRACE.to_vec(alloc)?;
    bytes.extend_from_slice(line)?;
    Ok(bytes)
}

/// Asserts that each of the lines is bad at the end of the trace, of which a replay writes the three outcomes.
fn are_bad_lines(rt: &impl Abort, alloc: Global, added: &[&[u8]]) -> Result<(), AllocError> {
    for line in added {
        let bytes = trace_and(alloc, line)?;
        let written = has_fault(rt, alloc, bytes.as_slice(), ReplayFault::BadLine(5));
        assert_eq!(rt; lines(written.as_slice()), 3, "{line:?}");
    }
    Ok(())
}

#[test]
fn the_first_bad_line_is_named(rt: HostRuntime) -> Result<(), Fail> {
    are_bad_lines(
        &rt,
        rt.alloc(),
        &[
            &b"\n"[..],
            b"step 01\n",
            b"step  1\n",
            b"step 1 \n",
            b"step 4294967296\n",
            b"resize\n",
            b"resize \n",
            b"resize 01\n",
            b"resize 4294967296\n",
            b"begin 1 store 0 18446744073709551616\n",
            b"pool 1 1 1 1\n",
            b"aaaaaaaaaaaaaaaaaaaaaaaaaaaaaaaaaaaaaaaaaaaaaaaaaaaaaaaaa",
            b"step",
        ],
    )?;
    Ok(())
}

#[test]
fn a_cut_trace_is_run_up_to_its_end(rt: HostRuntime) {
    let fault = ReplayFault::BadLine(3);
    let written = has_fault(&rt, rt.alloc(), b"pool 1 1 1 1\nbegin 1 exit\nstep", fault);
    assert_eq!(rt; written.as_slice(), b"begun\n".as_slice());
}

/// Asserts that a replay of the bytes has no fault, and writes this.
fn writes(rt: &impl Abort, alloc: Global, bytes: &[u8], told: &[u8]) {
    let (answer, written) = replayed(alloc, bytes);
    assert_eq!(rt; answer, Ok(()));
    assert_eq!(rt; written.as_slice(), told);
}

#[test]
fn a_replay_writes_outcomes_and_the_state(rt: HostRuntime) {
    writes(
        &rt,
        rt.alloc(),
        b"pool 3 2 1 2\nstep 2\nstep 4294967295\n",
        b"refused idle\nrefused notalive\nfree 3 resv 0 calls 0\n\
        file 0 size 0 reserved 0 regions 0 pages 0 changes 0 spare 0\n\
        file 1 size 0 reserved 0 regions 0 pages 0 changes 0 spare 0\n\
        task 1 alive mappings 0 entries 0\ntask 2 alive mappings 0 entries 0\n",
    );
}

#[test]
fn the_longest_numbers_are_read(rt: HostRuntime) -> Result<(), Fail> {
    let bytes = b"pool 4096 16 64 64\nbegin 1 map 0 4294967295 4294967295\n";
    let trace = read(rt.alloc(), bytes)?;
    let op = Op::Map {
        file: File::new(0),
        from: Index::new(u32::MAX),
        len: u32::MAX,
    };
    has_events(&rt, &trace, &[Event::Begin(Task::new(1), op)]);
    Ok(())
}

/// Asserts that each of the texts has so many events, and that a replay of it has no fault and writes this first.
fn are_counted(rt: &impl Abort, alloc: Global, texts: &[(&[u8], u32, &[u8])]) {
    for (bytes, events, outcomes) in texts {
        assert_eq!(rt; checked(bytes), Ok(*events), "{bytes:?}");
        let (answer, written) = replayed(alloc, bytes);
        assert_eq!(rt; answer, Ok(()), "{bytes:?}");
        assert!(rt; written.starts_with(outcomes), "{bytes:?}");
    }
}

#[test]
fn traces_of_the_longest_numbers_are_counted_and_replayed(rt: HostRuntime) {
    are_counted(
        &rt,
        rt.alloc(),
        &[
            (
                &b"pool 1 1 1 1\nstep 4294967295\n"[..],
                1,
                b"refused notalive\nfree 1 ",
            ),
            (
                b"pool 1 1 1 1\nbegin 1 store 0 18446744073709551615\nstep 1\n",
                2,
                b"begun\nended segv\nfree 1 ",
            ),
            (
                b"pool 1 1 1 1\nbegin 1 map 0 4294967295 4294967295\nstep 1\n",
                2,
                b"begun\nended badrange\nfree 1 ",
            ),
        ],
    );
}

/// What a feed tells of some bytes: the headers, the events and the lines.
#[derive(Clone, Copy, Debug, PartialEq, Eq)]
struct Fed {
    headers: u32,
    events: u32,
    lines: u32,
}

/// What a feed takes of a piece. The tests ask for what it tells alone.
fn take(feed: &mut TraceFeed, piece: &[u8]) -> Result<(usize, Option<TraceLine>), ReplayFault> {
    feed.take(piece)
}

/// Adds what it tells of a piece.
fn add_piece(feed: &mut TraceFeed, piece: &[u8], told: &mut Fed) -> Result<(), ReplayFault> {
    let mut rest = piece;
    for _ in 0..piece.len() {
        let (used, line) = take(feed, rest)?;
        rest = rest.get(used..).unwrap_or(&[]);
        match line {
            Some(TraceLine::Header(_)) => told.headers = told.headers.saturating_add(1),
            Some(TraceLine::Event(_)) => told.events = told.events.saturating_add(1),
            None => {}
        }
    }
    Ok(())
}

/// What it tells of the bytes, in pieces of at most `most` bytes.
fn told_of(feed: &mut TraceFeed, bytes: &[u8], most: usize) -> Result<Fed, ReplayFault> {
    let mut told = Fed {
        headers: 0,
        events: 0,
        lines: 0,
    };
    for piece in bytes.chunks(most.max(1)) {
        add_piece(feed, piece, &mut told)?;
    }
    feed.end()?;
    told.lines = feed.line();
    Ok(told)
}

/// Asserts what feeds tell of a whole trace of three events, of all of it but its last byte, and of nothing.
fn are_taken(rt: &impl Abort, bytes: &[u8], cut: &[u8], most: usize) {
    let whole = told_of(&mut TraceFeed::new(), bytes, most);
    let told = Fed {
        headers: 1,
        events: 3,
        lines: 4,
    };
    assert_eq!(rt; whole, Ok(told));
    let cut = told_of(&mut TraceFeed::new(), cut, most);
    assert_eq!(rt; cut, Err(ReplayFault::BadLine(4)));
    let nothing = told_of(&mut TraceFeed::new(), b"", most);
    assert_eq!(rt; nothing, Err(ReplayFault::BadHeader));
}

/// Asserts that a feed that has failed takes nothing more.
fn stays_failed(rt: &impl Abort, bytes: &[u8]) {
    let mut feed = TraceFeed::new();
    let bad = told_of(&mut feed, b"pool\n", 5);
    assert_eq!(rt; bad, Err(ReplayFault::BadHeader));
    let more = told_of(&mut feed, bytes, 1);
    assert_eq!(rt; more, Err(ReplayFault::BadHeader));
    assert_eq!(rt; feed.end(), Err(ReplayFault::BadHeader));
}

#[test]
fn a_feed_takes_any_pieces(rt: HostRuntime) -> Result<(), Fail> {
    let bytes = b"pool 1 1 1 1\nbegin 1 exit\ndeny 1\ndeny 1\n";
    let (used, line) = take(&mut TraceFeed::new(), bytes)?;
    assert_eq!(rt; used, 13);
    assert!(rt; matches!(line, Some(TraceLine::Header(_))));
    for most in [bytes.len(), 3, 1] {
        are_taken(&rt, bytes, &bytes[..bytes.len() - 1], most);
    }
    stays_failed(&rt, bytes);
    Ok(())
}

/// Asserts that the bytes have so many events, and that a replay of them has no fault, and writes so many lines.
fn writes_lines(rt: &impl Abort, alloc: Global, bytes: &[u8], events: u32, count: usize) {
    assert_eq!(rt; checked(bytes), Ok(events));
    let (answer, written) = replayed(alloc, bytes);
    assert_eq!(rt; answer, Ok(()));
    assert_eq!(rt; lines(written.as_slice()), count);
}

#[test]
fn a_million_events_are_enough(rt: HostRuntime) -> Result<(), Fail> {
    let alloc = rt.alloc();
    let mut bytes = b"pool 1 1 1 1\n".to_vec(alloc)?;
    add_lines(&mut bytes, b"step 1\n", MOST_EVENTS)?;
    writes_lines(&rt, alloc, bytes.as_slice(), 1_000_000, MOST_EVENTS + 3);
    add_lines(&mut bytes, b"step 1\n", 1)?;
    let fault = ReplayFault::BadLine(1_000_002);
    let written = has_fault(&rt, alloc, bytes.as_slice(), fault);
    assert_eq!(rt; written.len(), 13 * MOST_EVENTS);
    Ok(())
}

/// Asserts that the fault has this text.
fn has_text(
    rt: &impl Abort,
    alloc: Global,
    fault: ReplayFault,
    text: &str,
) -> Result<(), AllocError> {
    let told = format!(in alloc; "{fault}")?;
    assert_eq!(rt; told.as_str(), text);
    Ok(())
}

#[test]
fn faults_have_texts(rt: HostRuntime) -> Result<(), Fail> {
    for (fault, text) in [
        (ReplayFault::BadHeader, "line 1 is not a pool header"),
        (ReplayFault::BadLine(7), "line 7 is not allowed here"),
        (
            ReplayFault::BadLine(1_000_002),
            "line 1000002 is not allowed here",
        ),
        (ReplayFault::Read, "reading failed"),
        (ReplayFault::Write, "writing failed"),
        (ReplayFault::Memory, "out of memory"),
    ] {
        has_text(&rt, rt.alloc(), fault, text)?;
    }
    Ok(())
}

// A law has nothing to run. That each can be called shows that none asks for anything.
#[test]
fn laws_ask_for_nothing() {
    pieces_do_not_show();
    what_is_held_is_spelled();
    bytes_have_one_reading();
    a_stopped_replay_names_the_fault();
}
