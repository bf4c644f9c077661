//! What is left of a text.
ghost use Rattle.std.specs.Prelude.{◌≡◌, ◌++◌, IfOk, OnOk};
ghost use Rattle.target_file.specs.Bare.{bare, line_text};

use crate::first_line::first_line;
use std::alloc::{AllocError, Global};

/// Writes what is left of a line.
fn put_line(out: &mut Vec<u8>, tells: &[u8], ended: bool) -> Result<(), AllocError>
    ensures { OnOk result (out.new.items ≡ out.old.items ++ line_text ended tells.now) }
{
    out.extend_from_slice(tells)?;
    if ended && !tells.is_empty() {
        out.push(b'\n')?;
    }
    Ok(())
}

/// What is left of a text of a user's file: the text without comments, blanks at the ends of lines, and lines that
/// are empty then. Want of memory is the only error.
pub fn bare(alloc: Global, text: &[u8]) -> Result<Vec<u8>, AllocError>
    ensures { IfOk result (λ out. out.items ≡ bare text.now) }
{
    let mut out = Vec::new(alloc);
    let mut rest = text;
    while !rest.is_empty() {
        let line = first_line(rest);
        put_line(&mut out, line.tells, line.ended)?;
        rest = line.rest;
    }
    Ok(out)
}
