//! What stands before the image: read.
ghost use Rattle.std.specs.Prelude.{◌≡◌, ◌<◌, ◌≤◌, ◌^◌, IfOk, length};
ghost use Rattle.trips_isa.specs.Images.{last_byte};
ghost use Rattle.machine_save.specs.inside.Reading.{Decodes, number_at, magic_at, version_at, head_at};
ghost use Rattle.machine_save.specs.inside.Reading.{list_at, stored_at, front_at, lists_of};

use crate::fault::SaveFault;
use byteorder::{BigEndian, ByteOrder};

/// The output, the bytes that data memory begins with, and the rest of the input, as they stand in a save file.
#[derive(Clone, Copy, Drop)]
pub struct Lists<'a> {
    pub output: &'a [u8],
    pub stored: &'a [u8],
    pub rest: &'a [u8],
}

#[tactic(auto, unfolding(crate::specs::inside::Reading::number_at))]
fn number(bytes: &[u8], at: usize) -> Result<u32, SaveFault>
    requires { at < 2 ^ 32 }
    ensures value { result ≡ number_at at bytes.now }
{
    if bytes.len() < at + 4 {
        return Err(SaveFault::Truncated(bytes.len() as u64));
    }
    Ok(BigEndian::read_u32(&bytes[at..]))
}

#[tactic(auto, unfolding(crate::specs::inside::Reading::magic_at))]
fn has_magic(bytes: &[u8]) -> Result<(), SaveFault>
    ensures { Decodes (λ u. tt) result (magic_at bytes.now) }
{
    if bytes.len() < 8 {
        return Err(SaveFault::Truncated(bytes.len() as u64));
    }
    if &bytes[..8] == b"TRIPSSAV".as_slice() {
        Ok(())
    } else {
        Err(SaveFault::Magic)
    }
}

#[tactic(auto, unfolding(crate::specs::inside::Reading::version_at))]
fn has_version(bytes: &[u8]) -> Result<(), SaveFault>
    ensures { Decodes (λ u. tt) result (version_at bytes.now) }
{
    match number(bytes, 8) {
        Err(fault) => Err(fault),
        Ok(version) => if version == 1 {
            Ok(())
        } else {
            Err(SaveFault::Version)
        },
    }
}

// Room for the next block and the registers.
#[tactic(auto, unfolding(crate::specs::inside::Reading::head_at))]
fn has_head(bytes: &[u8]) -> Result<(), SaveFault>
    ensures { Decodes (λ u. tt) result (head_at bytes.now) }
{
    if bytes.len() < 1040 {
        Err(SaveFault::Truncated(bytes.len() as u64))
    } else {
        Ok(())
    }
}

// A list, whose number of bytes stands at a place.
#[tactic(auto, unfolding(crate::specs::inside::Reading::list_at))]
fn list(bytes: &[u8], at: usize, most: u32) -> Result<&[u8], SaveFault>
    requires { at < 2 ^ 32 }
    ensures value { Decodes (λ x. x.now) result (list_at most at bytes.now) }
    ensures few { IfOk result (λ x. length x.now ≤ most) }
{
    let count = match number(bytes, at) {
        Err(fault) => return Err(fault),
        Ok(count) => count,
    };
    if most < count {
        return Err(SaveFault::BadField(at as u64));
    }
    let end = at + 4 + count as usize;
    if bytes.len() < end {
        return Err(SaveFault::Truncated(bytes.len() as u64));
    }
    Ok(&bytes[at + 4..end])
}

fn last(bytes: &[u8]) -> u8
    ensures value { result ≡ last_byte bytes.now }
{
    if bytes.len() == 0 {
        1
    } else {
        bytes[bytes.len() - 1]
    }
}

// The bytes that data memory begins with, the last not zero.
#[tactic(auto, unfolding(crate::specs::inside::Reading::stored_at))]
fn stored(bytes: &[u8], at: usize) -> Result<&[u8], SaveFault>
    requires { at < 2 ^ 32 }
    ensures value { Decodes (λ x. x.now) result (stored_at at bytes.now) }
    ensures few { IfOk result (λ x. length x.now ≤ 4194304) }
{
    let stored = match list(bytes, at, 4_194_304) {
        Err(fault) => return Err(fault),
        Ok(stored) => stored,
    };
    if 0 < last(stored) {
        Ok(stored)
    } else {
        Err(SaveFault::BadField(at as u64 + 3 + stored.len() as u64))
    }
}

/// What stands before the image, or the first fault of it.
#[tactic(auto, unfolding(crate::specs::inside::Reading::front_at))]
pub fn front(bytes: &[u8]) -> Result<Lists<'_>, SaveFault>
    ensures { Decodes (λ l. lists_of l.output.now l.stored.now l.rest.now) result (front_at bytes.now) }
{
    if let Err(fault) = has_magic(bytes) {
        return Err(fault);
    }
    if let Err(fault) = has_version(bytes) {
        return Err(fault);
    }
    if let Err(fault) = has_head(bytes) {
        return Err(fault);
    }
    let output = match list(bytes, 1040, 4_000_000) {
        Err(fault) => return Err(fault),
        Ok(output) => output,
    };
    let stored = match stored(bytes, 1044 + output.len()) {
        Err(fault) => return Err(fault),
        Ok(stored) => stored,
    };
    match list(bytes, 1048 + output.len() + stored.len(), 1_048_576) {
        Err(fault) => Err(fault),
        Ok(rest) => Ok(Lists {
            output,
            stored,
            rest,
        }),
    }
}
