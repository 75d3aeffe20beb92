//! The program `replay`: what `hugepool replay` does, and nothing else, so that it compiles in a quarter of the time.
//!
//! It stands on hp_program. It promises of its streams what `hugepool` promises where its words were read as `replay`, and a
//! status that says whether the replay came to its end (`EndsWith`). It reads no words.
#![tactic(auto)]

mod program;

use hp_diagnostics::Recalling;
use hp_program::{LEFT, Noted, has_left, write_error};
use hp_text::Watched;
use program::program;
use std::io;
use std::process::ExitCode;

fn main(rt: HostRuntime) -> io::Result<ExitCode> {
    let mut errors = rt.stderr();
    let mut reader = Recalling::new(Watched::new(Noted::new(rt.stdin())));
    let out = Noted::new(rt.stdout());
    let (status, out) = program(rt.alloc(), &mut reader, out, &mut errors);
    if has_left(&out) {
        return Ok(ExitCode::from(LEFT));
    }
    if status != 0 {
        let reading = reader.into_inner().into_inner().error();
        let writing = out.and_then(|out| out.error());
        let _ = write_error(reading, writing, &mut errors);
    }
    Ok(ExitCode::from(status))
}
