//! Names with numbers, and words.
ghost use Rattle.std.specs.Prelude.{◌≡◌, ◌++◌, OnOk};
ghost use Rattle.trips_event_lines.specs.Lines.{cause_text, named, named_if, operation_text, three_named, two_named};
ghost use Rattle.trips_event_lines.specs.Lines.{word_if};

use grid_log::Cause;
use isa_table::{mnemonic_of, put_number};
use std::alloc::AllocError;
use trips_isa::Op;

/// Writes a name with a number.
pub fn put_named(out: &mut Vec<u8>, name: &[u8], n: u64) -> Result<(), AllocError>
    ensures { OnOk result (out.new.items ≡ out.old.items ++ named name.now n) }
{
    out.extend_from_slice(name)?;
    put_number(out, n)
}

/// Writes two names with their numbers.
pub fn put_two(out: &mut Vec<u8>, x: &[u8], m: u64, y: &[u8], n: u64) -> Result<(), AllocError>
    ensures { OnOk result (out.new.items ≡ out.old.items ++ two_named x.now m y.now n) }
{
    put_named(out, x, m)?;
    put_named(out, y, n)
}

/// Writes three names with their numbers.
pub fn put_three(
    out: &mut Vec<u8>,
    x: &[u8],
    k: u64,
    y: &[u8],
    m: u64,
    z: &[u8],
    n: u64,
) -> Result<(), AllocError>
    ensures { OnOk result (out.new.items ≡ out.old.items ++ three_named x.now k y.now m z.now n) }
{
    put_named(out, x, k)?;
    put_named(out, y, m)?;
    put_named(out, z, n)
}

/// Writes a word where it is so.
pub fn put_word_if(out: &mut Vec<u8>, is: bool, word: &[u8]) -> Result<(), AllocError>
    ensures { OnOk result (out.new.items ≡ out.old.items ++ word_if is word.now) }
{
    if is {
        out.extend_from_slice(word)
    } else {
        Ok(())
    }
}

/// Writes a name with a number, and behind it a word where it is so.
pub fn put_named_word(
    out: &mut Vec<u8>,
    name: &[u8],
    n: u64,
    is: bool,
    word: &[u8],
) -> Result<(), AllocError>
    ensures { OnOk result (out.new.items ≡ out.old.items ++ (named name.now n ++ word_if is word.now)) }
{
    put_named(out, name, n)?;
    put_word_if(out, is, word)
}

/// Writes the mnemonic of an operation behind a space, where there is one.
pub fn put_operation(out: &mut Vec<u8>, op: Option<Op>) -> Result<(), AllocError>
    ensures { OnOk result (out.new.items ≡ out.old.items ++ operation_text op) }
{
    match op {
        Some(op) => {
            out.push(b' ')?;
            out.extend_from_slice(mnemonic_of(op))
        }
        None => Ok(()),
    }
}

/// Writes a name with a number, where there is one.
pub fn put_named_if(out: &mut Vec<u8>, name: &[u8], n: Option<u32>) -> Result<(), AllocError>
    ensures { OnOk result (out.new.items ≡ out.old.items ++ named_if name.now n) }
{
    match n {
        Some(n) => put_named(out, name, n as u64),
        None => Ok(()),
    }
}

/// Writes why a frame is flushed.
pub fn put_cause(out: &mut Vec<u8>, cause: Cause) -> Result<(), AllocError>
    ensures { OnOk result (out.new.items ≡ out.old.items ++ cause_text cause) }
{
    match cause {
        Cause::Violation => out.extend_from_slice(b" cause violation"),
        Cause::WrongExit => out.extend_from_slice(b" cause wrong exit"),
        Cause::End => out.extend_from_slice(b" cause end"),
    }
}
