//! A program for `bench/pool.sh`: threads that make calls on a running pool as fast as they can, and one that waits.
//!
//! It stands on hp_shared. By the words `THREADS one|own PARTS TURNS` each of so many tasks has a thread, in which it makes so
//! many turns of calls, on one file or on a file of its own, and so in each part; the journal is cut between two parts. By
//! no words a task waits for another's call until the input ends. It writes how many entries were made.
#![tactic(auto)]

mod turns;
mod waiting;

use anyhow::{Context, Result, ensure};
use std::env;

fn main(rt: HostRuntime) -> Result<()> {
    let words: Vec<String> = env::args(&rt)?.collect(rt.alloc())?;
    let entries = if words.len() < 2 {
        waiting::wait(&rt, rt.alloc())?
    } else {
        ensure!(words.len() == 5, "four words are wanted");
        let asked = turns::Asked {
            threads: words[1].parse::<u32>().context("threads")?,
            is_one_file: words[2].as_str() == "one",
            parts: words[3].parse::<u32>().context("parts")?,
            turns: words[4].parse::<u32>().context("turns")?,
        };
        turns::race(&rt, rt.alloc(), asked)?
    };
    println!(rt; "entries {entries}")?;
    Ok(())
}
