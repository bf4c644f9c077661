//! A target text with comment lines before each of its blocks.

ghost use Rattle.std.specs.Prelude.{◌≡◌, ◌++◌, ◌≤◌, if◌then◌else◌, [], ◌∷◌, length, IfOk, OnOk};
ghost use Rattle.target_file.specs.Bare.{lines_of};
ghost use Rattle.target_file.specs.inside.Scanning.{line_size};
ghost use Rattle.trips_listing_text.specs.Comments.{comments};
ghost use Rattle.trips_listing_text.specs.Listed.{begins_block, before, behind, listed};
ghost use Rattle.trips_listing_text.specs.inside.Lines.{IsLine};

use crate::blocks::put_comments;
use crate::told::Told;
use base::Memory;
use std::alloc::{AllocError, Global};

/// How many bytes stand before the first line feed.
#[tactic(auto, unfolding(target_file::specs::inside::Scanning::line_size))]
fn line_size(text: &[u8]) -> usize
    ensures value { result ≡ line_size text.now }
    ensures within { result ≤ length text.now }
{
    for (i, b) in text.iter().enumerate() {
        if *b == b'\n' {
            return i;
        }
    }
    text.len()
}

/// Whether a block begins with a line.
#[tactic(auto, unfolding(crate::specs::Listed::begins_block))]
fn begins_block(line: &[u8]) -> bool
    ensures { result ≡ begins_block line.now }
{
    line.starts_with(b"block ")
}

/// Writes what stands before a line, and gives how many blocks begin up to it.
fn put_before(
    out: &mut Vec<u8>,
    alloc: Global,
    entries: &[u32],
    told: &[Told],
    k: u32,
    line: &[u8],
) -> Result<u32, Memory>
    ensures written { OnOk result (out.new.items ≡ out.old.items
        ++ before (begins_block line.now) (comments entries.now told.now) k) }
    ensures behind { IfOk result (λ n. n ≡ behind (begins_block line.now) k) }
{
    if begins_block(line) {
        put_comments(out, alloc, entries, told, k)?;
        match k.checked_add(1) {
            None => Err(Memory),
            Some(n) => Ok(n),
        }
    } else {
        Ok(k)
    }
}

/// Writes a line, and a line feed where one ends it.
fn put_line(out: &mut Vec<u8>, line: &[u8], ended: bool) -> Result<(), AllocError>
    ensures { OnOk result (out.new.items
        ≡ out.old.items ++ (line.now ++ (if ended then 10 ∷ [] else []))) }
{
    out.extend_from_slice(line)?;
    if ended {
        out.push(b'\n')?;
    }
    Ok(())
}

/// The first line of a text.
#[derive(Clone, Copy)]
struct FirstLine<'a> {
    line: &'a [u8],
    /// Whether a line feed ends it.
    ended: bool,
    /// What comes after it and its line feed.
    rest: &'a [u8],
}

/// The first line of a text.
fn first_line(text: &[u8]) -> FirstLine<'_>
    ensures { IsLine text.now result.line.now result.ended result.rest.now }
{
    let (line, more) = text.split_at(line_size(text));
    match more {
        [_, rest @ ..] => FirstLine {
            line,
            ended: true,
            rest,
        },
        [] => FirstLine {
            line,
            ended: false,
            rest: more,
        },
    }
}

/// A target text with the comment lines of each block before it, where functions of which this is told begin at these
/// blocks. Want of memory is the only error.
pub fn listed(
    alloc: Global,
    entries: &[u32],
    told: &[Told],
    target: &[u8],
) -> Result<Vec<u8>, Memory>
    ensures { IfOk result (λ out. out.items
        ≡ listed (comments entries.now told.now) 0 (lines_of target.now)) }
{
    let mut out = Vec::new(alloc);
    let mut k = 0;
    let mut rest = target;
    while !rest.is_empty() {
        let first = first_line(rest);
        k = put_before(&mut out, alloc, entries, told, k, first.line)?;
        put_line(&mut out, first.line, first.ended)?;
        rest = first.rest;
    }
    Ok(out)
}
