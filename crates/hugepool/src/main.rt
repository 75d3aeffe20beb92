//! The program `hugepool`: a pool of huge pages on the command line.
//!
//! It stands on hp_command, which reads its words, and on the crates that do what commands ask for. It promises of what is
//! read and written what their contracts say, and a status that tells which (`Ends`); which words ask for what, and the texts,
//! are shown by the rows of `examples/commands`. It knows nothing of pools.
#![tactic(auto)]

mod answering;
mod colouring;
mod hinting;
mod input;
mod memory;
mod program;
mod shown;
mod stop;
mod traces;
mod words;

use colouring::chosen_palette;
use hp_command::read_words;
use hp_diagnostics::Recalling;
use hp_objects::Objects;
use hp_paint::Painted;
use hp_program::{LEFT, Noted, has_left, write_error};
use hp_text::Watched;
use input::open_input;
use memory::limit_memory;
use program::program;
use shown::chosen_output;
use std::io;
use std::io::IsTerminal;
use std::process::ExitCode;
use words::{end_without, words};

fn main(rt: HostRuntime) -> io::Result<ExitCode> {
    let mut errors = rt.stderr();
    let words = match words(&rt) {
        Ok(words) => words,
        Err(why) => return Ok(ExitCode::from(end_without(why, &mut errors))),
    };
    let mut asked = read_words(rt.alloc(), words.as_slice(), rt.stdin().is_terminal());
    if let Ok(asked) = &mut asked {
        limit_memory(&rt, asked);
    }
    let input = match open_input(&rt, &asked, &mut errors) {
        Ok(input) => input,
        Err(status) => return Ok(ExitCode::from(status)),
    };
    let mut reader = Recalling::new(Watched::new(Noted::new(input)));
    let palette = chosen_palette(&rt, &asked);
    let painted = Painted::new(rt.alloc(), rt.stdout(), palette);
    let mut objects = Objects::new(rt.alloc(), painted, chosen_output(&asked));
    objects.begin();
    let out = Noted::new(objects);
    let (status, out) = program(&rt, rt.alloc(), asked, &mut reader, out, &mut errors);
    if has_left(&out) {
        return Ok(ExitCode::from(LEFT));
    }
    if status != 0 {
        let reading = reader.into_inner().into_inner().error();
        let writing = out.and_then(|out| out.error());
        let _ = write_error(reading, writing, &mut errors);
    }
    Ok(ExitCode::from(status))
}
