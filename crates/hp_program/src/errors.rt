//! The lines of a fault.
use hp_diagnostics::{Recalls, wrong_line};
use hp_text::ReplayFault;
use std::io;
use std::io::Write;

/// Writes a fault in one line, which names the file that was read if there is one, and in a second one what is wrong with the line that
/// is not allowed, where the reader recalls it.
pub fn write_fault<R: Recalls>(
    fault: ReplayFault,
    file: Option<&str>,
    reader: &R,
    errors: &mut impl Write,
) -> io::Result<()> {
    match file {
        Some(file) if is_of_input(fault) => writeln!(errors, "hugepool: {file}: {fault}")?,
        _ => writeln!(errors, "hugepool: {fault}")?,
    }
    let Some(number) = bad_line(fault) else {
        return Ok(());
    };
    match wrong_line(reader, number) {
        Some(line) => writeln!(errors, "hugepool: {line}"),
        None => Ok(()),
    }
}

/// Writes why the system refused the last read or the last write, where it did.
pub fn write_error(
    reading: Option<io::Error>,
    writing: Option<io::Error>,
    errors: &mut impl Write,
) -> io::Result<()> {
    match reading.or(writing) {
        Some(error) => writeln!(errors, "hugepool: {error}"),
        None => Ok(()),
    }
}

// Whether the input is at fault.
fn is_of_input(fault: ReplayFault) -> bool {
    match fault {
        ReplayFault::BadHeader | ReplayFault::BadLine(_) | ReplayFault::Read => true,
        ReplayFault::Write | ReplayFault::Memory => false,
    }
}

// The number of the line that is not allowed, if the fault is one of a line.
fn bad_line(fault: ReplayFault) -> Option<u64> {
    match fault {
        ReplayFault::BadHeader => Some(1),
        ReplayFault::BadLine(number) => Some(u64::from(number)),
        _ => None,
    }
}
