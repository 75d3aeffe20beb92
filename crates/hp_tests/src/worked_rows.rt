//! The worked rows, from end to end: each is a trace, and what its tasks see of it. One test reads them all, so that a further row
//! costs no further proof. Line by line the same traces stand in `examples/`, where `./check examples` replays them by the program.
use crate::texts::replayed;
use std::alloc::{AllocError, Global};
use std::process::Abort;
use std::test::Fail;

/// The text of a trace, in which a line `step 1 x7` stands for seven lines `step 1`.
fn trace_of(alloc: Global, short: &str) -> Result<String, Fail> {
    let mut text = String::new(alloc);
    for line in short.lines() {
        let (line, times) = match line.split_once(" x") {
            Some((line, times)) => (line, times.parse::<u32>()?),
            None => (line, 1),
        };
        add_lines(&mut text, line, times)?;
    }
    Ok(text)
}

fn add_lines(text: &mut String, line: &str, times: u32) -> Result<(), AllocError> {
    for _ in 0..times {
        text.push_str(line)?;
        text.push_str("\n")?;
    }
    Ok(())
}

/// What tasks see of an output: all but the beginnings and the phases of their calls.
fn seen_of(alloc: Global, out: &str) -> Result<String, AllocError> {
    let mut seen = String::new(alloc);
    for line in out.lines() {
        if line != "begun" && !line.starts_with("moved ") {
            add_lines(&mut seen, line, 1)?;
        }
    }
    Ok(seen)
}

/// Asserts that a replay of the trace has no fault, and that this is what tasks see of it.
fn shows(rt: &impl Abort, alloc: Global, short: &str, wanted: &str) -> Result<(), Fail> {
    let trace = trace_of(alloc, short)?;
    let (answer, out) = replayed(alloc, trace.as_bytes());
    assert_eq!(rt; answer, Ok(()));
    let text = str::from_utf8(out.as_slice()).ok().ok_or("no text")?;
    let seen = seen_of(alloc, text)?;
    assert_eq!(rt; seen.as_str(), wanted, "{short}");
    Ok(())
}

/// Asserts that of each row.
fn each_shows(rt: &impl Abort, alloc: Global, rows: &[(&str, &str)]) -> Result<(), Fail> {
    for (short, wanted) in rows {
        shows(rt, alloc, short, wanted)?;
    }
    Ok(())
}

#[test]
fn worked_rows(rt: HostRuntime) -> Result<(), Fail> {
    each_shows(
        &rt,
        rt.alloc(),
        &[
            // A map of five pages of four.
            (
                "pool 4 1 4 1\nbegin 1 map 0 0 5\nstep 1 x6\n",
                "ended noframe\nfree 4 resv 0 calls 0\n\
                file 0 size 0 reserved 0 regions 0 pages 0 changes 0 spare 1\n\
                task 1 alive mappings 0 entries 0\n",
            ),
            // A map commits while a store holds its change: the store gives the reservation back that nobody needs.
            (
                "pool 2 1 4 2\nbegin 1 mapn 0 0 1\nstep 1 x4\nbegin 1 store 0 7\nstep 1 x4\n\
                begin 2 map 0 0 1\nstep 2 x4\nstep 1\nstep 2\nstep 1 x5\nstep 2 x2\n",
                "ended mapped 0\nended done\nended mapped 0\nfree 1 resv 0 calls 0\n\
                file 0 size 1 reserved 1 regions 1 pages 1 changes 0 spare 1\n\
                task 1 alive mappings 1 entries 1\ntask 2 alive mappings 1 entries 0\n",
            ),
            // The store commits first: the map gives it back.
            (
                "pool 2 1 4 2\nbegin 1 mapn 0 0 1\nstep 1 x4\nbegin 1 store 0 7\nstep 1 x4\n\
                begin 2 map 0 0 1\nstep 2 x4\nstep 1 x2\nstep 2 x4\nstep 1 x3\n",
                "ended mapped 0\nended mapped 0\nended done\nfree 1 resv 0 calls 0\n\
                file 0 size 1 reserved 1 regions 1 pages 1 changes 0 spare 1\n\
                task 1 alive mappings 1 entries 1\ntask 2 alive mappings 1 entries 0\n",
            ),
            // Two stores share one page.
            (
                "pool 1 1 4 2\nbegin 1 map 0 0 1\nstep 1 x7\nbegin 2 map 0 0 1\nstep 2 x7\n\
                begin 1 store 0 5\nstep 1 x2\nbegin 2 store 0 6\nstep 2 x2\nstep 1 x7\nstep 2 x4\n\
                begin 1 load 0\nstep 1\n",
                "ended mapped 0\nended mapped 0\nblocked 1\nended done\nended done\nended word 6\n\
                free 0 resv 0 calls 0\n\
                file 0 size 1 reserved 1 regions 1 pages 1 changes 0 spare 1\n\
                task 1 alive mappings 1 entries 1\ntask 2 alive mappings 1 entries 1\n",
            ),
            // A truncation overtakes a store at taken.
            (
                "pool 4 1 4 2\nbegin 1 map 0 0 4\nstep 1 x7\nbegin 1 store 3 9\nstep 1 x5\n\
                begin 2 trunc 0 2\nstep 2 x3\nstep 1 x4\nstep 2 x9\n",
                "ended mapped 0\nblocked 1\nended beyond\nended done\nfree 4 resv 2 calls 0\n\
                file 0 size 2 reserved 2 regions 1 pages 0 changes 0 spare 1\n\
                task 1 alive mappings 1 entries 0\ntask 2 alive mappings 0 entries 0\n",
            ),
            // A truncation of two mapped pages.
            (
                "pool 4 1 4 2\nbegin 1 map 0 0 4\nstep 1 x7\nbegin 2 map 0 0 4\nstep 2 x7\n\
                begin 1 store 1 5\nstep 1 x9\nbegin 1 store 3 6\nstep 1 x9\nbegin 2 load 1\n\
                step 2 x5\nbegin 2 load 3\nstep 2 x5\nbegin 1 trunc 0 2\nstep 1 x15\n\
                begin 2 load 3\nstep 2 x4\n",
                "ended mapped 0\nended mapped 0\nended done\nended done\nended word 5\n\
                ended word 6\nended done\nended beyond\nfree 3 resv 1 calls 0\n\
                file 0 size 2 reserved 2 regions 1 pages 1 changes 0 spare 1\n\
                task 1 alive mappings 1 entries 1\ntask 2 alive mappings 1 entries 1\n",
            ),
            // A punch with a denied delete.
            (
                "pool 4 1 4 2\nbegin 1 map 0 0 3\nstep 1 x7\nbegin 2 map 0 0 3\nstep 2 x7\n\
                begin 1 store 1 5\nstep 1 x9\nbegin 2 store 0 4\nstep 2 x4\nbegin 1 punch 0 1 1\n\
                step 1 x6\ndeny 1\nstep 1 x3\n",
                "ended mapped 0\nended mapped 0\nended done\nended done\nfree 4 resv 3 calls 1\n\
                file 0 size 3 reserved 3 regions 1 pages 0 changes 1 spare 1\n\
                task 1 alive mappings 1 entries 0\ntask 2 alive mappings 1 entries 0\n",
            ),
            // An unreserved touch leaves the reservation of another file.
            (
                "pool 1 2 4 2\nbegin 1 map 0 0 1\nstep 1 x7\nbegin 2 mapn 1 0 1\nstep 2 x4\n\
                begin 2 store 0 3\nstep 2 x7\nbegin 1 store 0 4\nstep 1 x9\n",
                "ended mapped 0\nended mapped 0\nended noframe\nended done\n\
                free 0 resv 0 calls 0\n\
                file 0 size 1 reserved 1 regions 1 pages 1 changes 0 spare 1\n\
                file 1 size 1 reserved 0 regions 0 pages 0 changes 0 spare 1\n\
                task 1 alive mappings 1 entries 1\ntask 2 alive mappings 1 entries 0\n",
            ),
            // A kill at changed is noticed: nothing is lost but the call. A killed task can only exit.
            (
                "pool 4 1 4 1\nbegin 1 map 0 0 4\nstep 1 x7\nbegin 1 store 2 8\nstep 1 x4\n\
                kill 1\nstep 1 x3\nbegin 1 load 2\nbegin 1 exit\nstep 1 x4\n",
                "ended mapped 0\nmarked\nended killed\nrefused notalive\nended done\n\
                free 4 resv 4 calls 0\n\
                file 0 size 4 reserved 4 regions 1 pages 0 changes 0 spare 1\n\
                task 1 dead mappings 0 entries 0\n",
            ),
            // A kill at taken comes too late to be noticed: the page stays.
            (
                "pool 4 1 4 1\nbegin 1 map 0 0 4\nstep 1 x7\nbegin 1 store 2 8\nstep 1 x5\n\
                kill 1\nstep 1 x4\nbegin 1 exit\nstep 1 x4\n",
                "ended mapped 0\nmarked\nended done\nended done\nfree 3 resv 3 calls 0\n\
                file 0 size 4 reserved 4 regions 1 pages 1 changes 0 spare 1\n\
                task 1 dead mappings 0 entries 0\n",
            ),
            // A store is denied the place of its page.
            (
                "pool 2 1 4 1\nbegin 1 mapn 0 0 1\nstep 1 x4\nbegin 1 store 0 1\nstep 1 x6\n\
                deny 1\nstep 1 x2\n",
                "ended mapped 0\nended nomemory\nfree 2 resv 1 calls 0\n\
                file 0 size 1 reserved 1 regions 1 pages 0 changes 0 spare 0\n\
                task 1 alive mappings 1 entries 0\n",
            ),
            // An allocation beyond the pool.
            (
                "pool 2 1 4 1\nbegin 1 alloc 0 0 3\nstep 1 x25\n",
                "ended noframe\nfree 0 resv 0 calls 0\n\
                file 0 size 0 reserved 2 regions 1 pages 2 changes 0 spare 1\n\
                task 1 alive mappings 0 entries 0\n",
            ),
            // Steps that want no growth are the same denied.
            (
                "pool 1 1 1 1\nbegin 1 exit\nstep 1 x2\n",
                "ended done\nfree 1 resv 0 calls 0\n\
                file 0 size 0 reserved 0 regions 0 pages 0 changes 0 spare 0\n\
                task 1 dead mappings 0 entries 0\n",
            ),
            (
                "pool 1 1 1 1\nbegin 1 exit\ndeny 1 x2\n",
                "ended done\nfree 1 resv 0 calls 0\n\
                file 0 size 0 reserved 0 regions 0 pages 0 changes 0 spare 0\n\
                task 1 dead mappings 0 entries 0\n",
            ),
            // No address is left.
            (
                "pool 1 1 1 1\nbegin 1 mapn 0 0 4096\nstep 1 x4\nbegin 1 mapn 0 0 4096\n\
                step 1 x4\nbegin 1 mapn 0 0 4096\nstep 1 x4\nbegin 1 mapn 0 0 4096\nstep 1 x4\n\
                begin 1 mapn 0 0 4096\nstep 1 x3\nbegin 1 unmap 4096\nstep 1 x3\n\
                begin 1 mapn 0 0 1\nstep 1 x4\n",
                "ended mapped 0\nended mapped 4096\nended mapped 8192\nended mapped 12288\n\
                ended noaddress\nended done\nended mapped 4096\nfree 1 resv 0 calls 0\n\
                file 0 size 4096 reserved 0 regions 0 pages 0 changes 0 spare 0\n\
                task 1 alive mappings 4 entries 0\n",
            ),
            // Refusals.
            (
                "pool 1 1 1 1\nbegin 1 map 1 0 1\nstep 1\nbegin 1 punch 0 0 0\nstep 1\n\
                begin 1 alloc 0 4095 2\nstep 1\nbegin 1 trunc 0 4097\nstep 1\nbegin 1 unmap 3\n\
                step 1\nbegin 1 load 9\nstep 1\nstep 1\nkill 2\nbegin 1 trunc 0 4096\nstep 1 x5\n\
                begin 1 exit x2\n",
                "ended badfile\nended badrange\nended badrange\nended badrange\nended notmapped\n\
                ended segv\nrefused idle\nrefused notalive\nended done\nrefused incall\n\
                free 1 resv 0 calls 1\n\
                file 0 size 4096 reserved 0 regions 0 pages 0 changes 0 spare 0\n\
                task 1 alive mappings 0 entries 0\n",
            ),
            // A truncation from the top of a file: its fourth step frees the page at the last index, some 12,000 find none.
            (
                "pool 2 1 1 1\nbegin 1 allock 0 4095 1\nstep 1 x10\nbegin 1 mapn 0 0 1\n\
                step 1 x4\nbegin 1 trunc 0 1\nstep 1 x12293\n",
                "ended done\nended mapped 0\nended done\nfree 2 resv 0 calls 0\n\
                file 0 size 1 reserved 0 regions 0 pages 0 changes 0 spare 0\n\
                task 1 alive mappings 1 entries 0\n",
            ),
        ],
    )
}
