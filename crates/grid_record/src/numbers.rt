//! Numbers as bytes, the highest first.
ghost use Rattle.std.specs.Prelude.{◌≡◌, ◌++◌, ◌∷◌, [], OnOk};
ghost use Rattle.byteorder.specs.Endian.{big_bytes};

use std::alloc::AllocError;

/// Writes a byte.
pub fn put_byte(out: &mut Vec<u8>, byte: u8) -> Result<(), AllocError>
    ensures ok { OnOk result (out.new.items ≡ out.old.items ++ byte ∷ []) }
{
    out.push(byte)?;
    Ok(())
}

/// Writes a byte, and others behind it.
pub fn put_behind(out: &mut Vec<u8>, byte: u8, bytes: &[u8]) -> Result<(), AllocError>
    ensures ok { OnOk result (out.new.items ≡ out.old.items ++ byte ∷ bytes.now) }
{
    out.push(byte)?;
    out.extend_from_slice(bytes)
}

/// Writes bytes.
pub fn put_all(out: &mut Vec<u8>, bytes: &[u8]) -> Result<(), AllocError>
    ensures ok { OnOk result (out.new.items ≡ out.old.items ++ bytes.now) }
{
    out.extend_from_slice(bytes)
}

/// Writes a number of two bytes.
pub fn put_short(out: &mut Vec<u8>, number: u16) -> Result<(), AllocError>
    ensures ok { OnOk result (out.new.items ≡ out.old.items ++ big_bytes 2 number) }
{
    let bytes = number.to_be_bytes();
    out.extend_from_slice(&bytes)
}

/// Writes a number of four bytes.
pub fn put_word(out: &mut Vec<u8>, number: u32) -> Result<(), AllocError>
    ensures ok { OnOk result (out.new.items ≡ out.old.items ++ big_bytes 4 number) }
{
    let bytes = number.to_be_bytes();
    out.extend_from_slice(&bytes)
}

/// Writes a number of eight bytes.
pub fn put_long(out: &mut Vec<u8>, number: u64) -> Result<(), AllocError>
    ensures ok { OnOk result (out.new.items ≡ out.old.items ++ big_bytes 8 number) }
{
    let bytes = number.to_be_bytes();
    out.extend_from_slice(&bytes)
}
