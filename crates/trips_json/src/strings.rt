//! Strings of JSON.

ghost use Rattle.std.specs.Prelude.{◌≡◌, ◌++◌, ◌<◌, OnOk};
ghost use Rattle.trips_json.specs.Strings.{hex_digit, is_plain, numbered, escape, escaped, string_of};

use std::alloc::AllocError;

// A hexadecimal digit.
fn hex_digit(n: u8) -> u8
    requires { n < 16 }
    ensures { result ≡ hex_digit n }
{
    if n < 10 { 48 + n } else { 87 + n }
}

// The byte stands for itself.
fn is_plain(byte: u8) -> bool
    ensures { result ≡ is_plain byte }
{
    32 <= byte && byte < 127 && byte != b'"' && byte != b'\\'
}

// Writes a byte by the number of its character.
fn put_numbered(out: &mut Vec<u8>, byte: u8) -> Result<(), AllocError>
    ensures ok { OnOk result (out.new.items ≡ out.old.items ++ numbered byte) }
{
    out.extend_from_slice(b"\\u00")?;
    out.push(hex_digit(byte / 16))?;
    out.push(hex_digit(byte % 16))?;
    Ok(())
}

// Writes a byte of a string.
#[tactic(auto, unfolding(crate::specs::Strings::escape))]
fn put_byte(out: &mut Vec<u8>, byte: u8) -> Result<(), AllocError>
    ensures ok { OnOk result (out.new.items ≡ out.old.items ++ escape byte) }
{
    if is_plain(byte) {
        out.push(byte)?;
        return Ok(());
    }
    if byte == b'\n' {
        return out.extend_from_slice(b"\\n");
    }
    if byte == b'\t' {
        return out.extend_from_slice(b"\\t");
    }
    if byte == b'"' || byte == b'\\' {
        out.push(b'\\')?;
        out.push(byte)?;
        return Ok(());
    }
    put_numbered(out, byte)
}

// Writes the bytes of a string.
fn put_bytes(out: &mut Vec<u8>, bytes: &[u8]) -> Result<(), AllocError>
    ensures ok { OnOk result (out.new.items ≡ out.old.items ++ escaped bytes.now) }
{
    for byte in bytes {
        put_byte(out, *byte)?;
    }
    Ok(())
}

/// Writes the string of bytes. Want of memory is the only error.
#[tactic(auto, unfolding(crate::specs::Strings::string_of))]
pub fn put_string(out: &mut Vec<u8>, bytes: &[u8]) -> Result<(), AllocError>
    ensures ok { OnOk result (out.new.items ≡ out.old.items ++ string_of bytes.now) }
{
    out.push(b'"')?;
    put_bytes(out, bytes)?;
    out.push(b'"')?;
    Ok(())
}
