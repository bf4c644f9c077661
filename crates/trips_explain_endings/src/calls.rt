//! The calls that were open where an evaluation stopped.

ghost use Rattle.std.specs.Prelude.{◌≡◌, ◌<◌, ◌++◌, OnOk, length};
ghost use Rattle.std.specs.List.{flat_map};
ghost use Rattle.trips_explain_endings.specs.Endings as specs;

use crate::places::{place, put_function};
use std::alloc::{AllocError, Global};

// Writes an open call.
fn put_call(
    alloc: Global,
    out: &mut Vec<u8>,
    file: &str,
    text: &[u8],
    definitions: &[u32],
    offset: u32,
) -> Result<(), AllocError>
    requires short { length text.now < 4_294_967_295 }
    ensures ok { OnOk result (out.new.items ≡ out.old.items
        ++ specs.call_told file.now text.now definitions.now offset) }
{
    let told = place(alloc, file, text, offset)?;
    out.extend_from_slice(b"called")?;
    put_function(out, text, definitions, offset)?;
    out.extend_from_slice(b" at ")?;
    out.extend_from_slice(told.as_bytes())?;
    out.extend_from_slice(b"\n")
}

// Writes each of the open calls.
fn put_each(
    alloc: Global,
    out: &mut Vec<u8>,
    file: &str,
    text: &[u8],
    definitions: &[u32],
    calls: &[u32],
) -> Result<(), AllocError>
    requires short { length text.now < 4_294_967_295 }
    ensures ok { OnOk result (out.new.items ≡ out.old.items
        ++ flat_map (specs.call_told file.now text.now definitions.now) calls.now) }
{
    for call in calls {
        put_call(alloc, out, file, text, definitions, *call)?;
    }
    Ok(())
}

// So many open calls are told at most.
const MOST_CALLS: usize = 20;

// Writes that there may be more open calls.
fn put_more(out: &mut Vec<u8>, told: usize) -> Result<(), AllocError>
    ensures ok { OnOk result (out.new.items ≡ out.old.items ++ specs.more_calls told) }
{
    if told < MOST_CALLS {
        Ok(())
    } else {
        out.extend_from_slice(b"..\n")
    }
}

/// Writes the open calls, the innermost first.
pub fn put_calls(
    alloc: Global,
    out: &mut Vec<u8>,
    file: &str,
    text: &[u8],
    definitions: &[u32],
    calls: &[u32],
) -> Result<(), AllocError>
    requires short { length text.now < 4_294_967_295 }
    ensures ok { OnOk result (out.new.items ≡ out.old.items
        ++ specs.calls_told file.now text.now definitions.now calls.now) }
{
    put_each(alloc, out, file, text, definitions, calls)?;
    put_more(out, calls.len())
}
