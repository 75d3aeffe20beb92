//! The text of findings.
ghost use Rattle.std.specs.Prelude.{◌≡◌, ◌++◌, [], OnOk, IfErr, Some, string_bytes, length};
ghost use Rattle.std.specs.List.{flat_map};
ghost use Rattle.std.specs.Io.KnownBytes.{Appends};
ghost use Rattle.hp_judge.specs.Text.{finding_line, finding_text, findings_text};
ghost use Rattle.hp_text.specs.Streams.{TellsWrites};
ghost use Rattle.hp_text.specs.Writing.{Wrote, IsWriteFault};

use crate::finding::{Clause, Finding};
use hp_text::{ReplayFault, Sink, write_text};
use std::alloc::{AllocError, Global};
use std::fmt;

/// A line, without its end, as `frame 8: at two places`.
impl fmt::Display for Finding {
    ghost output = { λ finding. Some (finding_text finding) };

    fn fmt<W: fmt::Write>(&self, f: &mut fmt::Formatter<W>) -> fmt::Result {
        match *self {
            Finding::Line {
                clause: Clause::Region,
                number,
            } => write!(
                f,
                "region {number}: of no file, empty, too long, or not behind the region before it"
            ),
            Finding::Line {
                clause: Clause::Page,
                number,
            } => write!(
                f,
                "page {number}: of no file, or not behind the page before it"
            ),
            Finding::Line {
                clause: Clause::File,
                number,
            } => write!(f, "translation {number}: of no file"),
            Finding::Line {
                clause: Clause::Agree,
                number,
            } => write!(
                f,
                "translation {number}: not to its file's page at that index"
            ),
            Finding::Line {
                clause: Clause::Size,
                number,
            } => write!(
                f,
                "translation {number}: at or above the size of an unlocked file"
            ),
            Finding::Place { frame } => write!(f, "frame {frame}: at two places"),
            Finding::Count { wanted } => write!(f, "resv: should be {wanted}"),
            Finding::Free => write!(f, "resv: below zero, or above the free frames"),
            Finding::Used { wanted } => write!(f, "used: should be {wanted}"),
            Finding::Quota => write!(f, "used: below zero, or above the quota"),
        }
    }
}

// Lays out a line for each finding.
fn push_lines(findings: &[Finding], text: &mut String) -> Result<(), AllocError>
    requires { string_bytes text.old ≡ [] }
    ensures { OnOk result (string_bytes text.new ≡ flat_map finding_line findings.now) }
{
    for finding in findings {
        writeln!(text, "{finding}")?;
    }
    Ok(())
}

// Lays out the findings, and how many there are.
#[tactic(auto, unfolding(crate::specs::Text::findings_text))]
fn push_findings(findings: &[Finding], text: &mut String) -> Result<(), AllocError>
    requires { string_bytes text.old ≡ [] }
    ensures { OnOk result (string_bytes text.new ≡ findings_text findings.now) }
{
    push_lines(findings, text)?;
    let count = findings.len();
    writeln!(text, "findings {count}")
}

/// Writes a line for each finding, and then how many there are, all at once. Nothing is tried again after an error.
pub fn write_findings<W: Sink>(
    alloc: Global,
    findings: &[Finding],
    writer: &mut W,
) -> Result<(), ReplayFault>
    ensures ok { OnOk result (Appends (W.contents writer.old) (W.contents writer.new) (findings_text findings.now)) }
    ensures err { IfErr result (λ fault. IsWriteFault fault
        × Wrote (W.contents writer.old) (W.contents writer.new) (findings_text findings.now)) }
    ensures writes { TellsWrites result (W.failures writer.old) (W.failures writer.new) }
{
    let mut text = String::new(alloc);
    push_findings(findings, &mut text)?;
    write_text(writer, text.as_bytes())
}
