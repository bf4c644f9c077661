//! A line with a mark under one of its bytes.

ghost use Rattle.std.specs.Prelude.{◌≡◌, ◌++◌, OnOk, if◌then◌else◌, nat_eq};
ghost use Rattle.std.specs.List.{flat_map};
ghost use Rattle.trips_messages.specs.Messages as messages;

use std::alloc::AllocError;

// What stands under a byte.
fn under(b: u8) -> u8
    ensures { result ≡ (if nat_eq b 9 then 9 else 32) }
{
    if b == b'\t' { b'\t' } else { b' ' }
}

// Writes what stands under a byte.
fn put_one(out: &mut Vec<u8>, b: u8) -> Result<(), AllocError>
    ensures ok { OnOk result (out.new.items ≡ out.old.items ++ messages.under b) }
{
    let shown = under(b);
    out.push(shown)?;
    Ok(())
}

// Writes what stands under each byte.
fn put_under(out: &mut Vec<u8>, front: &[u8]) -> Result<(), AllocError>
    ensures ok { OnOk result (out.new.items ≡ out.old.items ++ flat_map messages.under front.now) }
{
    for b in front {
        put_one(out, *b)?;
    }
    Ok(())
}

/// Writes a line, of which the front stands before the byte that is marked, and the mark below.
pub fn put_marked(out: &mut Vec<u8>, front: &[u8], back: &[u8]) -> Result<(), AllocError>
    ensures ok { OnOk result (out.new.items ≡ out.old.items ++ messages.marked front.now back.now) }
{
    out.extend_from_slice(front)?;
    out.extend_from_slice(back)?;
    out.extend_from_slice(b"\n")?;
    put_under(out, front)?;
    out.extend_from_slice(b"^\n")
}
