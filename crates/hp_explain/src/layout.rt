//! Columns of text.
ghost use Rattle.std.specs.Prelude.{◌≡◌, ◌++◌, ◌<◌, ◌==◌, OnOk, length, string_bytes, replicate};
ghost use Rattle.hp_explain.specs.Layout.{spaces, field, column, columns, title, titled, titles};

use std::alloc::AllocError;

/// Appends so many spaces.
fn push_spaces(count: usize, line: &mut String) -> Result<(), AllocError>
    ensures { OnOk result (string_bytes line.new ≡ string_bytes line.old ++ spaces count) }
{
    for _space in 0..count {
        line.push_str(" ")?;
    }
    Ok(())
}

/// Appends the text, spaces up to the width, and one space.
fn push_field(width: usize, text: &str, line: &mut String) -> Result<(), AllocError>
    ensures { OnOk result (string_bytes line.new ≡ string_bytes line.old ++ field width text.now) }
{
    line.push_str(text)?;
    push_spaces(width.saturating_sub(text.len()), line)?;
    line.push_str(" ")
}

/// Appends a column of a row: its text, if it is the one where the text stands. One of no width is not shown else.
fn push_column(width: usize, own: bool, text: &str, line: &mut String) -> Result<(), AllocError>
    ensures { OnOk result (string_bytes line.new ≡ string_bytes line.old ++ column width own text.now) }
{
    if own {
        return push_field(width, text, line);
    }
    if width == 0 {
        return Ok(());
    }
    push_field(width, "", line)
}

/// Appends the columns of a row whose text stands in the column `own`.
pub(crate) fn push_columns(
    widths: &[usize],
    own: usize,
    text: &str,
    line: &mut String,
) -> Result<(), AllocError>
    ensures { OnOk result (string_bytes line.new ≡ string_bytes line.old ++ columns widths.now own text.now (length widths.now)) }
{
    for number in 0..widths.len() {
        push_column(widths[number], number == own, text, line)?;
    }
    Ok(())
}

/// Lays out what stands over a column.
fn lay_title(compact: bool, number: usize, word: &mut String) -> Result<(), AllocError>
    ensures { OnOk result (string_bytes word.new ≡ title compact number) }
{
    word.clear();
    if compact {
        return word.push_str("event");
    }
    if number == 0 {
        return write!(word, "pool");
    }
    write!(word, "task {number}")
}

/// Appends what stands over a column. `word` is where it is laid out.
fn push_title(
    compact: bool,
    width: usize,
    number: usize,
    word: &mut String,
    line: &mut String,
) -> Result<(), AllocError>
    ensures { OnOk result (string_bytes line.new ≡ string_bytes line.old ++ titled compact width number) }
{
    if width == 0 {
        return Ok(());
    }
    lay_title(compact, number, word)?;
    push_field(width, word.as_str(), line)
}

/// Appends what stands over the columns.
pub(crate) fn push_titles(
    compact: bool,
    widths: &[usize],
    word: &mut String,
    line: &mut String,
) -> Result<(), AllocError>
    ensures { OnOk result (string_bytes line.new ≡ string_bytes line.old ++ titles compact widths.now (length widths.now)) }
{
    for number in 0..widths.len() {
        push_title(compact, widths[number], number, word, line)?;
    }
    Ok(())
}
