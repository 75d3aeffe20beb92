//! What is read and written.

/// A trace in which one task maps four of four pages.
pub(crate) const TRACE: &[u8] =
    b"pool 4 1 4 1\nbegin 1 map 0 0 4\nstep 1\nstep 1\nstep 1\nstep 1\nstep 1\nstep 1\nstep 1\n";

/// What its replay writes.
pub(crate) const REPLAYED: &[u8] =
    b"begun\nmoved room\nmoved missing\nmoved changed\nmoved accounted\nmoved enter\nmoved leave\n\
    ended mapped 0\nfree 4 resv 4 calls 0\nfile 0 size 4 reserved 4 regions 1 pages 0 changes 0 spare 0\n\
    task 1 alive mappings 1 entries 0\n";

/// A script: the calls of that task, and its end.
pub(crate) const SCRIPT: &[u8] = b"pool 4 1 4 1\nbegin 1 map 0 0 4\nbegin 1 exit\n";

/// The line of its run in which each turn is a kill.
pub(crate) const EXPLORED: &[u8] = b"run 0 finished turns 5 free 4 resv 0\n";
