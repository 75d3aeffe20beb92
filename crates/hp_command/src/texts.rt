//! What help tells below the options of the commands.

/// Of those that read a trace.
pub(crate) const TRACES: &str = "A trace is lines of text. The first is the pool:
  pool FRAMES FILES SLOTS TASKS  1..=4096 frames, 1..=16 files, 1..=64 slots, 1..=64 tasks
  pool FRAMES FILES SLOTS TASKS QUOTA
                                 the same, and at most QUOTA pages for all files, 0..=65536
Each other line is an event; a trace has at most a million:
  begin TASK CALL                a task, counted from 1, begins a call
  step TASK                      its call makes one step
  deny TASK                      the same, but the step's allocation, if any, fails
  kill TASK                      the task is killed
  resize FRAMES                  sets the number of the pool's frames, 1..=4096
The calls, of files counted from 0, whose pages are 0 to 4095:
  map FILE FROM LEN, mapn FILE FROM LEN, unmap BASE, load PAGE, store PAGE WORD, exit,
  alloc FILE FROM LEN, allock FILE FROM LEN, punch FILE FROM LEN, trunc FILE SIZE
Examples, each beside its output:
  hugepool replay examples/map-four-of-four.trace
  hugepool explain examples/truncate-overtakes-a-store.trace
  hugepool draw examples/truncate-overtakes-a-store.trace > run.svg
  hugepool check examples/map-four-of-four.trace
docs/TRACES.md describes traces and outcomes.";

/// Of those that read a script.
pub(crate) const SCRIPTS: &str =
    "A script is a trace of begins alone: the calls of each task, in order. At each turn the scheduler picks a task at
random, and begins its next call or makes a step of its call in flight. Run K is seeded with SEED + K, so it is
the same each time. A script whose header begins with script, in place of pool, can have lines
  after TASK
before a begin of another task: that call begins once all calls of TASK on earlier lines have ended.
With --every, explore prints a line for each way in which schedules end, of all orders in which the tasks can make their
steps: how many schedules end so, the events of a shortest one, the counts, and each call with its answer. If the limit
of --states or --memory is reached first, nothing is printed, and the status is 3. schedule --every --run K prints
a shortest schedule of line K of them, counted from 0; the status is 1 where there are no more than K lines.
docs/TRACES.md and hugepool replay --help describe traces. Examples:
  hugepool explore --seed 7 --runs 3 examples/truncate-against-store.script
  hugepool explore --every examples/truncate-against-fault.script
  hugepool schedule --seed 7 examples/truncate-against-store.script | hugepool replay
  hugepool schedule --every --run 1 examples/truncate-against-fault.script | hugepool explain";

/// Of the loose form.
pub(crate) const LOOSE: &str = "The loose form is a trace as people write it:
  # begins a comment, up to the end of the line; blank lines are ignored
  words may be separated by any spaces and tabs; a line may end in CR LF
  step TASK *N                   N steps, 1..=1000000
  deny TASK *N                   N denied steps
  step TASK until PHASE          steps up to the first that moves the call to PHASE, as replay prints it
  step TASK until ended          steps up to the end of the call
Of a script whose header begins with script, comments, blank lines and spaces go, and the rest stays as it is.
A strict trace stays as it is. If a phase can't be reached, since the call ends before it or waits for another
task, nothing is printed, standard error names the line, and the status is 1.
  hugepool format notes.trace | hugepool explain";

/// Of auditing a state.
pub(crate) const PICTURES: &str =
    "A state is lines of text. The first has the counts, the last is the word end:
  picture RESV OWED USED USED_OWED [QUOTA]  the reserve count, what others owe to it, the used count, what others owe to
                                         that, and the most that may be used
  free FRAME, retired FRAME, hand FRAME  a frame that is free, taken out of the pool, or in use and in no file
  file SIZE, file SIZE locked            a file, counted from 0, and whether a call holds its lock
  region FILE FROM TO                    a reserved range: its first index, and one more than its last
  page FILE INDEX FRAME                  a page
  translation TASK FILE INDEX FRAME      a translation of a task to a file's page
Regions and pages stand in the order of their files and indices. What is wrong is printed line by line, with the places of
regions, pages and translations counted from 0, and then how many findings there are. The status is 0 where there is none,
1 where there are some, and 2 where the text couldn't be read.
  ./kernel audit --core vmcore --vmlinux vmlinux --pictures FOLDER    writes the state of a kernel
  hugepool audit FOLDER/2048kB.picture
docs/AUDIT.md describes kernels' states.";

/// Of driving a pool.
pub(crate) const STEPS: &str =
    "Each line is answered at once, so that a pool can be driven from a terminal:
  pool FRAMES FILES SLOTS TASKS [QUOTA]  a new pool
  begin, step, deny, kill, resize ..     an event, as in a trace; prints its outcome
  step TASK *N, step TASK until PHASE    several steps, as in the input of hugepool format
  ?                                      prints where each call stands, and the outcome of its next step
  undo, redo, undo N, redo N             undo the last event or the last N, or make them anew
  state, trace                           print the pool's state, and the trace so far
  load FILE                              goes on from the trace in a file
  save FILE, save                        writes the trace so far into a file, or into the last one
  help, quit
With FILE its lines are answered first, and then those of standard input. At a terminal each line is asked for by the
counts and by who waits for whom, and a line that would drop events which are in no file has to be given twice.
rlwrap hugepool step gives lines a history, and lets them be edited.
A line that isn't understood is reported, and the next is read.";

/// Of finding a run.
pub(crate) const FINDS: &str =
    "Runs are explored in order, as hugepool explore does, until one meets all conditions. Its trace is printed as
hugepool schedule prints it, and standard error names the run and its seed. If no run meets them, no trace is
printed and the status is 1. At least one condition is needed. A condition on a task, call or phase that never
occurs is not an error; no run meets it. A value may have alternatives, with | between them, of which one suffices;
an alternative behind 'not ' is met where what it says isn't found in the whole run.
With --every all schedules of the script are searched: every order in which the tasks can make their steps, with at
most --denials failed allocations and --kills killed tasks at any place. The trace is one of the shortest. If no
schedule meets the conditions, standard error says so and the status is 1: no seed and no number of runs finds one.
If the limit of --states or --memory is reached first, standard error says in how many events none does, and the
status is 3.
Whole schedules are asked where --final, --rest or not is given, else their beginnings, too. After a fault the
status is 2.
A script has the calls that tasks make (hugepool explore --help). Some stand in examples/:
  hugepool find --answer 1:2=beyond examples/truncate-against-store.script > run.trace
  hugepool find --every --answer 1:1=done --answer 2:1=done examples/two-files-one-quota.script
  hugepool find --every --at '*:*=SIGBUS resv>0' examples/balloon-against-guest.script
  hugepool find --blocked 2 --final resv=0 examples/truncate-against-store.script | hugepool explain";

/// Of minimizing a trace.
pub(crate) const MINIMIZES: &str =
    "Drops events and lowers their numbers as long as the trace still meets all conditions, until no event can be
dropped and no number lowered by one. The pool and the numbers of tasks stay. The result depends on the input alone.
If the trace doesn't meet all conditions, none is printed and the status is 1. At least one condition is needed;
hugepool find --help says what a value may be.
  hugepool find --answer 1:2=beyond examples/truncate-against-store.script > run.trace
  hugepool minimize --answer 1:2=beyond run.trace | hugepool replay";

/// Of races.
pub(crate) const RACES: &str =
    "A script is a trace of begins alone: the calls of each task, in order. Each task that has calls makes them in a
thread of its own, all on one pool. The scheduler decides which task goes first, so two races may differ. At the end
each task's history is compared with the pool's:
  closed       all calls were made, and the tasks' histories make up the pool's
  disagree P   the histories differ from the pool's at position P
  astray       a call ended in a way that no call may
  late         a call waited long for one of a task whose thread hadn't started
An entry is a hold of the pool's lock that changed it. A trace has the events of all entries, in their order, a million
at most; if the race isn't closed, nothing is printed.
With --cut N the journal is compared and emptied each time every task has made N calls. The removed events are run
again on a pool with one thread; if an outcome differs, the race is astray. Entries of all parts count.
With --deny N each task draws before each of its steps whether an allocation of the step fails. With --kill N it draws
before each of its calls whether a task is killed, and which: any task of the pool, itself included. A kill strikes the
call that its victim has in flight; after it all calls of the victim but exit are refused. The draws depend on the seed,
the race's number and the task alone; their timing depends on the scheduler.
A script whose header begins with script, so that its calls may wait, is accepted without --cut: a thread waits before a
call until the calls that it waits for have ended.
docs/TRACES.md and hugepool replay --help describe traces. Examples:
  hugepool race --times 3 examples/truncate-against-store.script
  hugepool race --cut 2 examples/truncate-against-store.script
  hugepool race --trace examples/truncate-against-store.script | hugepool replay";

/// Of workloads.
pub(crate) const WORKLOADS: &str =
    "Examples: on a running pool with one thread for each call of a round, and the calls explained:
  hugepool work readback --on pool
  hugepool work readback --trace | hugepool explain

The workloads, after tests of libhugetlbfs:
  readback                     a word that was stored is loaded again
  shared                       two tasks that map one page see each other's words
  truncate                     a page that was cut off is beyond the end of its file
  alloc-instantiate-race       two first stores to the last free page both succeed
  chunk-overcommit             a map of more than is left unreserved is refused, and a smaller one isn't
  noresv-preserve-resv-page    a task that maps without a reservation can't take a page that another task reserved
  noresv-regarded-as-resv      a page without a reservation that goes leaves the reserve count alone
  truncate_reserve_wraparound  cutting off pages in use doesn't take the reserve count below zero
  fallocate_basic              pages are allocated, punched and allocated past the end, and then mapped
  fallocate_align              an allocation rounds its range of bytes outward to pages, a punch inward
  counters                     the counts follow a map, a store, a punch, a truncation and an unmap";
