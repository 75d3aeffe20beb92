//! The pool for programs that aren't Rattle: C, and whatever calls C. The header is `library/include/hugepool.h`.
//!
//! It stands on hp_core, for texts on hp_replay, hp_explain, hp_draw, hp_format and hp_diagnostics, and for searches on hp_conditions,
//! hp_hunt and hp_search. A pool is a handle that C keeps and never looks into. Each export says what its call says: an event is a row of the machine, the
//! readers tell the state's numbers, texts are of the trace that the bytes spell, and a line is that of its numbers. No export has a
//! condition: where numbers name nothing, or a pool is closed, it answers with a code, and nothing changes.
#![tactic(auto)]

mod audits;
mod codes;
mod events;
mod finding;
mod lines;
mod loose;
mod minimizing;
mod pool;
mod readers;
mod reasons;
mod rows;
mod search_words;
mod texts;
mod unfound;
mod version;
