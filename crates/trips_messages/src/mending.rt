//! A text without a fault.

ghost use Rattle.std.specs.Prelude.{◌≡◌, ◌≤◌, [], ◌∷◌, ◌++◌, ◌-◌, OnOk, IfOk, length, replicate};
ghost use Rattle.trips_messages.specs.Mended as mends;

use crate::spans::{begin_of, end_of};
use c_tree::Lexeme;
use std::alloc::{AllocError, Global};

// Writes a blank.
fn put_blank(out: &mut Vec<u8>) -> Result<(), AllocError>
    ensures ok { OnOk result (out.new.items ≡ out.old.items ++ 32 ∷ []) }
{
    out.push(b' ')?;
    Ok(())
}

// Writes so many blanks.
fn put_blanks(out: &mut Vec<u8>, count: usize) -> Result<(), AllocError>
    ensures ok { OnOk result (out.new.items ≡ out.old.items ++ replicate count 32) }
{
    for _i in 0..count {
        put_blank(out)?;
    }
    Ok(())
}

// Writes so many bytes that are a 1.
fn put_patch(out: &mut Vec<u8>, count: usize) -> Result<(), AllocError>
    ensures ok { OnOk result (out.new.items ≡ out.old.items ++ mends.patch count) }
{
    if count == 0 {
        return Ok(());
    }
    put_blanks(out, count - 1)?;
    out.push(b'1')?;
    Ok(())
}

// The text with a 1 from one offset to another.
fn patched(alloc: Global, text: &[u8], from: usize, to: usize) -> Result<Vec<u8>, AllocError>
    requires from { from ≤ to }
    requires to { to ≤ length text.now }
    ensures ok { IfOk result (λ next. next.items ≡ mends.patched text.now from to) }
{
    let (front, _) = text.split_at(from);
    let (_, behind) = text.split_at(to);
    let mut next = Vec::from_slice(alloc, front)?;
    put_patch(&mut next, to - from)?;
    next.extend_from_slice(behind)?;
    Ok(next)
}

/// The text without the fault at an offset: the expression around it is 1. The text had these tokens before any
/// fault was mended, and each byte keeps its place.
pub fn mended(
    alloc: Global,
    text: &[u8],
    tokens: &[Lexeme],
    offset: u32,
) -> Result<Vec<u8>, AllocError>
    ensures ok { IfOk result (λ next. next.items ≡ mends.mended text.now tokens.now offset) }
    ensures same { IfOk result (λ next. length next.items ≡ length text.now) }
{
    let from = begin_of(tokens, offset);
    let to = end_of(tokens, from, text.len()).min(text.len());
    patched(alloc, text, (from as usize).min(to), to)
}
