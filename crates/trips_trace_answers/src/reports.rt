//! The reports on traces. Want of memory is the only error.

ghost use Rattle.std.specs.Prelude.{◌≡◌, ◌++◌, IfOk, OnOk};
ghost use Rattle.isa_table.specs.Spots.{spot_text};
ghost use Rattle.trips_trace_answers.specs.TraceReports.{at_entry, trace_text, verified_report};

use isa_table::{put_number, put_spot};
use std::alloc::{AllocError, Global};
use trace_verify::VerifyFault;
use trips_isa::Spot;
use trips_report::at_place;

// Writes the number of an entry behind a fault's number and name.
fn put_entry(text: &mut Vec<u8>, entry: u32) -> Result<(), AllocError>
    ensures { OnOk result (text.new.items ≡ at_entry text.old.items entry) }
{
    text.extend_from_slice(b" entry ")?;
    put_number(text, entry as u64)?;
    text.push(b'\n')?;
    Ok(())
}

// A fault's number and name, and the number of its entry.
fn at_entry(alloc: Global, name: &[u8], entry: u32) -> Result<Vec<u8>, AllocError>
    ensures { IfOk result (λ text. text.items ≡ at_entry name.now entry) }
{
    let mut text = Vec::from_slice(alloc, name)?;
    put_entry(&mut text, entry)?;
    Ok(text)
}

// A fault's number and name, its spot, and the number of its entry.
fn at_spot(alloc: Global, name: &[u8], spot: Spot, entry: u32) -> Result<Vec<u8>, AllocError>
    ensures { IfOk result (λ text. text.items ≡ at_entry (name.now ++ spot_text spot) entry) }
{
    let mut text = Vec::from_slice(alloc, name)?;
    put_spot(&mut text, spot)?;
    put_entry(&mut text, entry)?;
    Ok(text)
}

/// The refusal of bytes that are no trace of the run.
pub fn trace_text(alloc: Global, fault: VerifyFault) -> Result<Vec<u8>, AllocError>
    ensures { IfOk result (λ text. text.items ≡ trace_text fault) }
{
    match fault {
        VerifyFault::Magic => Vec::from_slice(alloc, b"refused trace 1 Magic\n"),
        VerifyFault::Version => Vec::from_slice(alloc, b"refused trace 2 Version\n"),
        VerifyFault::Truncated(at) => at_place(alloc, b"refused trace 3 Truncated", at),
        VerifyFault::Trailing(at) => at_place(alloc, b"refused trace 4 Trailing", at),
        VerifyFault::Past(entry) => at_entry(alloc, b"refused trace 5 Past", entry),
        VerifyFault::WrongToken(entry, spot) => {
            at_spot(alloc, b"refused trace 6 WrongToken ", spot, entry)
        }
        VerifyFault::WrongBlock(entry) => at_entry(alloc, b"refused trace 7 WrongBlock", entry),
        VerifyFault::WrongExit(entry) => at_entry(alloc, b"refused trace 8 WrongExit", entry),
        VerifyFault::Faulting(entry) => at_entry(alloc, b"refused trace 9 Faulting", entry),
        VerifyFault::TooLong(entry) => at_entry(alloc, b"refused trace 10 TooLong", entry),
    }
}

/// The report on a trace of so many blocks.
pub fn verified_text(alloc: Global, blocks: u32) -> Result<Vec<u8>, AllocError>
    ensures { IfOk result (λ text. text.items ≡ verified_report blocks) }
{
    let mut text = Vec::from_slice(alloc, b"verified ")?;
    put_number(&mut text, blocks as u64)?;
    text.extend_from_slice(b" blocks\n")?;
    Ok(text)
}
