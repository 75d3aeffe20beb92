//! What two runs of one list of events have in common: all but the names of frames.
//!
//! It stands on hp_core and on the laws of the machine. It has lemmas alone: two states that runs reached, and that differ in the names of
//! frames alone, are twins; whatever happens to both has one outcome and leaves twins (`proofs/Twins.antt`). So a replay has one text, and
//! a run of a script one line. It knows of the core only its rows.
#![tactic(auto)]
