//! Pieces of the reports of several commands. Want of memory is the only error of each.

ghost use Rattle.std.specs.Prelude.{◌≡◌, IfOk, string_bytes};
ghost use Rattle.trips_requests.specs.Texts.{on_line, output_and};

use std::alloc::{AllocError, Global};

// The line of a fault.
fn line_text(alloc: Global, name: &str, line: u32) -> Result<String, AllocError>
    ensures { IfOk result (λ text. string_bytes text ≡ on_line name.now line) }
{
    format!(in alloc; "{name} line {line}\n")
}

/// The stage that refuses a text, a fault's number and its name, and its line.
pub fn on_line(alloc: Global, name: &str, line: u32) -> Result<Vec<u8>, AllocError>
    ensures ok { IfOk result (λ text. text.items ≡ on_line name.now line) }
{
    let text = line_text(alloc, name, line)?;
    Vec::from_slice(alloc, text.as_bytes())
}

/// The output's length, the output, and a line.
pub fn output_text(alloc: Global, output: &[u8], line: &str) -> Result<Vec<u8>, AllocError>
    ensures ok { IfOk result (λ report. report.items ≡ output_and output.now line.now) }
{
    let count = output.len();
    let head = format!(in alloc; "output {count}\n")?;
    let mut report = Vec::from_slice(alloc, head.as_bytes())?;
    report.extend_from_slice(output)?;
    report.extend_from_slice(b"\n")?;
    report.extend_from_slice(line.as_bytes())?;
    report.extend_from_slice(b"\n")?;
    Ok(report)
}
