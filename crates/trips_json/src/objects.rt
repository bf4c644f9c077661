//! The object that tells a status and a report.

ghost use Rattle.std.specs.Prelude.{◌≡◌, ◌++◌, ◌<◌, IfOk, OnOk, length, Some, None, string_bytes};
ghost use Rattle.std.specs.Prelude.{if◌then◌else◌};
ghost use Rattle.trips_json.specs.Lines.{behind_line, output_size};
ghost use Rattle.trips_json.specs.Objects.{answered, ended, json_text, shown, told, word_of};

use crate::lines::{first_line, output_size};
use crate::strings::put_string;
use crate::texts::{put_all, put_others, put_values};
use base::Memory;
use std::alloc::{AllocError, Global};
use trips_requests::Status;

// The word for a status.
fn word_of(status: Status) -> &'static [u8]
    ensures { result.now ≡ word_of status }
{
    match status {
        Status::Ended => b"ended",
        Status::Usage => b"usage",
        Status::ReadFault => b"read_fault",
        Status::Refused => b"refused",
        Status::Budget => b"budget",
        Status::StackFull => b"stack_full",
        Status::WriteFault => b"write_fault",
        Status::Memory => b"memory",
        Status::Trap => b"trap",
        Status::Undefined => b"undefined",
        Status::Aborted => b"aborted",
    }
}

// Writes the status by its word and its number.
#[tactic(auto, unfolding(crate::specs::Objects::answered))]
fn put_answered(alloc: Global, out: &mut Vec<u8>, status: Status) -> Result<(), AllocError>
    ensures ok { OnOk result (out.new.items ≡ out.old.items ++ answered status) }
{
    let number = (status as u8).to_string(alloc)?;
    out.extend_from_slice(b"{\"answer\":\"")?;
    out.extend_from_slice(word_of(status))?;
    out.extend_from_slice(b"\",\"exit\":")?;
    out.extend_from_slice(number.as_bytes())?;
    Ok(())
}

// Writes the values and the other lines of what stands behind the line of an end.
#[tactic(auto, unfolding(crate::specs::Objects::shown))]
fn put_shown(out: &mut Vec<u8>, text: &[u8]) -> Result<(), AllocError>
    ensures ok { OnOk result (out.new.items ≡ out.old.items ++ shown text.now) }
{
    out.extend_from_slice(b",\"values\":{")?;
    put_values(out, text)?;
    out.extend_from_slice(b"},\"lines\":[")?;
    put_others(out, text)?;
    out.push(b']')?;
    Ok(())
}

// Writes the line of an end and what stands behind it.
#[tactic(auto, unfolding(crate::specs::Objects::ended))]
fn put_ended(out: &mut Vec<u8>, text: &[u8]) -> Result<(), AllocError>
    ensures ok { OnOk result (out.new.items ≡ out.old.items ++ ended text.now) }
{
    let (line, behind) = first_line(text);
    out.extend_from_slice(b",\"ending\":")?;
    put_string(out, line)?;
    put_shown(out, behind)
}

// Writes what is told of a report in parts, by how many bytes the program put out.
#[tactic(auto, unfolding(crate::specs::Objects::told))]
fn put_parts(out: &mut Vec<u8>, size: u64, report: &[u8]) -> Result<(), AllocError>
    requires { size < length (behind_line report.now) }
    ensures ok { OnOk result (out.new.items ≡ out.old.items ++ told (Some size) report.now) }
{
    let (_, behind) = first_line(report);
    let size = size as usize;
    out.extend_from_slice(b",\"output\":")?;
    put_string(out, &behind[..size])?;
    put_ended(out, &behind[size + 1..])
}

// Writes what is told of a report that is not told in parts.
#[tactic(auto, unfolding(crate::specs::Objects::told))]
fn put_lines(out: &mut Vec<u8>, report: &[u8]) -> Result<(), AllocError>
    ensures ok { OnOk result (out.new.items ≡ out.old.items ++ told None report.now) }
{
    out.extend_from_slice(b",\"values\":{},\"lines\":[")?;
    put_all(out, report)?;
    out.push(b']')?;
    Ok(())
}

// Writes what is told of a report.
fn put_told(out: &mut Vec<u8>, parts: bool, report: &[u8]) -> Result<(), AllocError>
    ensures ok { OnOk result (out.new.items ≡ out.old.items
        ++ told (if parts then output_size report.now else None) report.now) }
{
    if !parts {
        return put_lines(out, report);
    }
    match output_size(report) {
        Some(size) => put_parts(out, size, report),
        None => put_lines(out, report),
    }
}

// The object of a status and a report.
#[tactic(auto, unfolding(crate::specs::Objects::json_text))]
fn object(alloc: Global, parts: bool, status: Status, report: &[u8]) -> Result<Vec<u8>, AllocError>
    ensures ok { IfOk result (λ text. text.items ≡ json_text parts status report.now) }
{
    let mut out = Vec::new(alloc);
    put_answered(alloc, &mut out, status)?;
    put_told(&mut out, parts, report)?;
    out.extend_from_slice(b"}\n")?;
    Ok(out)
}

/// The object of a status and a report, on one line (`specs/Objects`). Want of memory is the only error.
pub fn json_report(
    alloc: Global,
    parts: bool,
    status: Status,
    report: &[u8],
) -> Result<Vec<u8>, Memory>
    ensures ok { IfOk result (λ text. text.items ≡ json_text parts status report.now) }
{
    let text = object(alloc, parts, status, report)?;
    Ok(text)
}
