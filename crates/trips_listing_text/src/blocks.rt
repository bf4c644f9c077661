//! The comment lines before a block.

ghost use Rattle.std.specs.Prelude.{◌≡◌, ◌++◌, ◌≤◌, Bool, length, slice_get, OnOk};
ghost use Rattle.trips_listing_text.specs.Comments.{begun_by, part_text, told_lines, is_first, comments};

use crate::lines::{put_comment, put_function_line, put_scalar_lines};
use crate::told::Told;
use std::alloc::{AllocError, Global};

/// How many functions begin at a block or before it.
fn begun_by(k: u32, entries: &[u32]) -> usize
    ensures value { result ≡ begun_by k entries.now }
    ensures within { result ≤ length entries.now }
{
    for (i, e) in entries.iter().enumerate() {
        if *e > k {
            return i;
        }
    }
    entries.len()
}

/// What a block is for that no function has.
#[tactic(auto, unfolding(crate::specs::Comments::part_text))]
fn part_text(k: u32) -> &'static [u8]
    ensures { result.now ≡ part_text k }
{
    if k == 0 {
        b"start"
    } else if k == 1 {
        b"end"
    } else {
        b"full stack"
    }
}

/// Whether a block is the first of a function.
fn is_first(entries: &[u32], f: usize, k: u32) -> bool
    ensures { result ≡ is_first (slice_get entries.now f) k }
{
    match entries.get(f) {
        None => false,
        Some(e) => *e == k,
    }
}

/// Writes the lines of a function before a block of it.
fn put_told(
    out: &mut Vec<u8>,
    alloc: Global,
    told: &[Told],
    f: usize,
    first: bool,
) -> Result<(), AllocError>
    ensures { OnOk result (out.new.items
        ≡ out.old.items ++ told_lines (slice_get told.now f) first) }
{
    match told.get(f) {
        None => Ok(()),
        Some(t) => {
            put_function_line(out, alloc, t)?;
            if first {
                put_scalar_lines(out, alloc, t)?;
            }
            Ok(())
        }
    }
}

/// Writes the comment lines before a block.
pub fn put_comments(
    out: &mut Vec<u8>,
    alloc: Global,
    entries: &[u32],
    told: &[Told],
    k: u32,
) -> Result<(), AllocError>
    ensures { OnOk result (out.new.items ≡ out.old.items ++ comments entries.now told.now k) }
{
    let begun = begun_by(k, entries);
    if begun == 0 {
        put_comment(out, part_text(k))
    } else {
        put_told(out, alloc, told, begun - 1, is_first(entries, begun - 1, k))
    }
}
