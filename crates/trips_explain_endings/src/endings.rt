//! What is told of how an evaluation ended.

ghost use Rattle.std.specs.Prelude.{◌≡◌, ◌<◌, ◌++◌, OnOk, IfOk, length, string_bytes};
ghost use Rattle.trips_explain_endings.specs.Endings as specs;

use crate::calls::put_calls;
use crate::places::{place, put_line};
use std::alloc::{AllocError, Global};

// Writes the output so far, and before it how many bytes it has.
fn put_output(alloc: Global, out: &mut Vec<u8>, output: &[u8]) -> Result<(), AllocError>
    ensures ok { OnOk result (out.new.items ≡ out.old.items ++ specs.output_told output.now) }
{
    let count = output.len();
    let head = format!(in alloc; "output: {count} bytes\n")?;
    out.extend_from_slice(head.as_bytes())?;
    out.extend_from_slice(output)
}

// How an evaluation is done, and in how many steps.
fn done_head(alloc: Global, ending: &str, steps: u64) -> Result<String, AllocError>
    ensures { IfOk result (λ told. string_bytes told ≡ specs.done_head ending.now steps) }
{
    format!(in alloc; "{ending} in {steps} steps\n")
}

/// What is told of an evaluation that is done, with the line of its ending.
pub fn done_text(
    alloc: Global,
    ending: &str,
    steps: u64,
    output: &[u8],
) -> Result<Vec<u8>, AllocError>
    ensures { IfOk result (λ told. told.items ≡ specs.done_told ending.now steps output.now) }
{
    let head = done_head(alloc, ending, steps)?;
    let mut out = Vec::from_slice(alloc, head.as_bytes())?;
    put_output(alloc, &mut out, output)?;
    Ok(out)
}

// Writes the line of a place and a mark under it, if there is one.
fn put_line_at(out: &mut Vec<u8>, text: &[u8], at: Option<u32>) -> Result<(), AllocError>
    ensures ok { OnOk result (out.new.items ≡ out.old.items ++ specs.line_at text.now at) }
{
    match at {
        None => Ok(()),
        Some(offset) => put_line(out, text, offset),
    }
}

// Writes where an evaluation stopped, the open calls, and the output so far.
fn put_stopped(
    alloc: Global,
    out: &mut Vec<u8>,
    file: &str,
    text: &[u8],
    definitions: &[u32],
    at: Option<u32>,
    calls: &[u32],
    output: &[u8],
) -> Result<(), AllocError>
    requires short { length text.now < 4_294_967_295 }
    ensures ok { OnOk result (out.new.items ≡ out.old.items
        ++ specs.stopped_told file.now text.now definitions.now at calls.now output.now) }
{
    put_line_at(out, text, at)?;
    put_calls(alloc, out, file, text, definitions, calls)?;
    put_output(alloc, out, output)
}

// The first line of an evaluation that is undefined, with its reason.
fn undefined_head(
    alloc: Global,
    file: &str,
    text: &[u8],
    reason: &str,
    at: Option<u32>,
) -> Result<String, AllocError>
    requires short { length text.now < 4_294_967_295 }
    ensures { IfOk result (λ told. string_bytes told ≡ specs.undefined_head file.now text.now reason.now at) }
{
    match at {
        None => format!(in alloc; "{file}: {reason}\n"),
        Some(offset) => {
            let place = place(alloc, file, text, offset)?;
            format!(in alloc; "{place}: {reason}\n")
        }
    }
}

/// What is told of an evaluation that is undefined, of a text with these definitions: its place with the reason, the
/// line, the open calls, and the output so far.
pub fn undefined_text(
    alloc: Global,
    file: &str,
    text: &[u8],
    definitions: &[u32],
    reason: &str,
    at: Option<u32>,
    calls: &[u32],
    output: &[u8],
) -> Result<Vec<u8>, AllocError>
    requires short { length text.now < 4_294_967_295 }
    ensures { IfOk result (λ told. told.items
        ≡ specs.undefined_told file.now text.now definitions.now reason.now at calls.now output.now) }
{
    let head = undefined_head(alloc, file, text, reason, at)?;
    let mut out = Vec::from_slice(alloc, head.as_bytes())?;
    put_stopped(alloc, &mut out, file, text, definitions, at, calls, output)?;
    Ok(out)
}

/// Why an evaluation is not done: no step is left of so many.
pub fn not_done_text(alloc: Global, steps: u32) -> Result<String, AllocError>
    ensures { IfOk result (λ told. string_bytes told ≡ specs.not_done steps) }
{
    format!(in alloc; "not done after {steps} steps")
}

/// Why an evaluation is not done: the frames of the active functions are too large.
pub fn too_deep_text() -> &'static str
    ensures { result.now ≡ specs.too_deep }
{
    "the frames are too deep"
}

// The first line of an evaluation that is not done.
fn halted_head(
    alloc: Global,
    file: &str,
    text: &[u8],
    reason: &str,
    at: Option<u32>,
) -> Result<String, AllocError>
    requires short { length text.now < 4_294_967_295 }
    ensures { IfOk result (λ told. string_bytes told ≡ specs.halted_head file.now text.now reason.now at) }
{
    match at {
        None => format!(in alloc; "{reason}\n"),
        Some(offset) => {
            let place = place(alloc, file, text, offset)?;
            format!(in alloc; "{reason}, at {place}\n")
        }
    }
}

/// What is told of an evaluation that is not done, of a text with these definitions: why and where, the line, the open
/// calls, and the output so far.
pub fn halted_text(
    alloc: Global,
    file: &str,
    text: &[u8],
    definitions: &[u32],
    reason: &str,
    at: Option<u32>,
    calls: &[u32],
    output: &[u8],
) -> Result<Vec<u8>, AllocError>
    requires short { length text.now < 4_294_967_295 }
    ensures { IfOk result (λ told. told.items
        ≡ specs.halted_told file.now text.now definitions.now reason.now at calls.now output.now) }
{
    let head = halted_head(alloc, file, text, reason, at)?;
    let mut out = Vec::from_slice(alloc, head.as_bytes())?;
    put_stopped(alloc, &mut out, file, text, definitions, at, calls, output)?;
    Ok(out)
}
