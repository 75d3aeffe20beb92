//! What a command reads: standard input, or the file that its words name.
use crate::stop::status_unopened;
use hp_command::{Asked, Input};
use std::fs::File;
use std::io;
use std::io::{IsTerminal, Read, Stdin, Write};

const TERMINAL: &[u8] =
    b"hugepool: reads from the terminal up to the end of input (Ctrl-D); hugepool step answers each line at once\n";

/// What is read.
#[derive(Drop)]
pub(crate) enum Opened {
    Standard(Stdin),
    File(File),
    Before(Before),
}

/// A file, and behind it standard input. The file's last line ends where the file does.
#[derive(Drop)]
pub(crate) struct Before {
    file: File,
    is_over: bool,
    is_ended: bool,
    stdin: Stdin,
}

impl Read for Before {
    fn read(&mut self, buf: &mut [u8]) -> io::Result<usize> {
        if self.is_over || buf.is_empty() {
            return self.stdin.read(buf);
        }
        let count = self.file.read(buf)?;
        if count > 0 {
            self.is_ended = buf.get(count - 1) == Some(&b'\n');
            return Ok(count);
        }
        self.is_over = true;
        if self.is_ended {
            return self.stdin.read(buf);
        }
        buf[0] = b'\n';
        Ok(1)
    }
}

impl Read for Opened {
    fn read(&mut self, buf: &mut [u8]) -> io::Result<usize> {
        match self {
            Opened::Standard(stdin) => stdin.read(buf),
            Opened::File(file) => file.read(buf),
            Opened::Before(before) => before.read(buf),
        }
    }
}

/// The name of the file that is read, if one is.
pub(crate) fn file_of(input: &Input) -> Option<&str> {
    match input {
        Input::File(path) | Input::Before(path) => Some(path.as_str()),
        Input::Standard | Input::Nothing => None,
    }
}

/// What is asked for is opened. If the file can't be opened, that is reported, and the program's status returned.
pub(crate) fn open_input(
    rt: &HostRuntime,
    asked: &Result<Asked, clap::Error>,
    errors: &mut impl Write,
) -> Result<Opened, u8> {
    let Ok(asked) = asked else {
        return Ok(Opened::Standard(rt.stdin()));
    };
    let status = status_unopened(&asked.request);
    match &asked.input {
        Input::File(path) => Ok(Opened::File(open_file(rt, path.as_str(), status, errors)?)),
        Input::Before(path) => Ok(Opened::Before(Before {
            file: open_file(rt, path.as_str(), status, errors)?,
            is_over: false,
            is_ended: true,
            stdin: rt.stdin(),
        })),
        Input::Nothing => Ok(Opened::Standard(rt.stdin())),
        Input::Standard => Ok(Opened::Standard(standard(rt, errors))),
    }
}

// Standard input, all of which is read before most is answered: at a terminal that looks as if nothing went on.
fn standard(rt: &HostRuntime, errors: &mut impl Write) -> Stdin {
    let stdin = rt.stdin();
    if stdin.is_terminal() {
        let _ = errors.write_all(TERMINAL);
    }
    stdin
}

// The file of that name, or this status.
fn open_file(
    rt: &HostRuntime,
    path: &str,
    status: u8,
    errors: &mut impl Write,
) -> Result<File, u8> {
    match File::open(rt, path) {
        Ok(file) => Ok(file),
        Err(error) => {
            let _ = writeln!(errors, "hugepool: {path}: {error}");
            Err(status)
        }
    }
}
