//! Comment lines.

ghost use Rattle.std.specs.Prelude.{◌≡◌, ◌++◌, ◌≤◌, [], length, IfOk, OnOk};
ghost use Rattle.ir_forms.specs.inside.Frames.{register_of};
ghost use Rattle.trips_listing_text.specs.Comments.{comment, is_shown, shown, place_text, function_line};
ghost use Rattle.trips_listing_text.specs.Comments.{scalar_text, begun, has_room, with_scalar, with_named, last_line};
ghost use Rattle.trips_listing_text.specs.Comments.{scalar_lines};

use crate::told::Told;
use base::Items;
use isa_table::put_number;
use std::alloc::{AllocError, Global};

/// How many characters a line and a scalar may take together.
const MOST_COLUMNS: usize = 116;

/// Writes a comment.
#[tactic(auto, unfolding(crate::specs::Comments::comment))]
pub fn put_comment(out: &mut Vec<u8>, text: &[u8]) -> Result<(), AllocError>
    ensures { OnOk result (out.new.items ≡ out.old.items ++ comment text.now) }
{
    out.extend_from_slice(b"# ")?;
    out.extend_from_slice(text)?;
    out.push(b'\n')?;
    Ok(())
}

fn is_shown(c: u8) -> bool
    ensures { result ≡ is_shown c }
{
    ((97 <= c && c <= 122) || (65 <= c && c <= 90))
        || ((48 <= c && c <= 57) || (c == 95 || c == 46))
}

/// How many characters of a name are shown.
fn shown_size(name: &[u8]) -> usize
    ensures value { result ≡ length (shown name.now) }
    ensures within { result ≤ length name.now }
{
    for (i, c) in name.iter().enumerate() {
        if !is_shown(*c) {
            return i;
        }
    }
    name.len()
}

/// A name up to its first other character.
fn shown(name: &[u8]) -> &[u8]
    ensures { result.now ≡ shown name.now }
{
    let (front, _) = name.split_at(shown_size(name));
    front
}

/// Writes where a function stands.
#[tactic(auto, unfolding(crate::specs::Comments::place_text))]
fn put_place(out: &mut Vec<u8>, library: bool, first: u64, last: u64) -> Result<(), AllocError>
    ensures { OnOk result (out.new.items ≡ out.old.items ++ place_text library first last) }
{
    if library {
        out.extend_from_slice(b": library")
    } else if first == last {
        out.extend_from_slice(b": line ")?;
        put_number(out, first)
    } else {
        out.extend_from_slice(b": lines ")?;
        put_number(out, first)?;
        out.extend_from_slice(b" to ")?;
        put_number(out, last)
    }
}

/// Writes the line that each block of a function has.
pub fn put_function_line(out: &mut Vec<u8>, alloc: Global, told: &Told) -> Result<(), AllocError>
    ensures { OnOk result (out.new.items ≡ out.old.items ++ function_line told.now) }
{
    let mut text = Vec::new(alloc);
    text.extend_from_slice(shown(told.name.as_slice()))?;
    put_place(&mut text, told.library, told.first, told.last)?;
    put_comment(out, &text)
}

/// The register of a scalar.
fn register_of(k: u64) -> u64
    ensures { result ≡ register_of k }
{
    if k < 80 { 12 + k } else { k - 76 }
}

/// Writes a scalar in its register.
#[tactic(auto, unfolding(crate::specs::Comments::scalar_text))]
fn put_scalar(out: &mut Vec<u8>, k: u64, name: &[u8]) -> Result<(), AllocError>
    ensures { OnOk result (out.new.items ≡ out.old.items ++ scalar_text k name.now) }
{
    out.extend_from_slice(b"G[")?;
    put_number(out, register_of(k))?;
    out.extend_from_slice(b"] ")?;
    out.extend_from_slice(name)
}

/// A line that begins with a scalar.
#[tactic(auto, unfolding(crate::specs::Comments::begun))]
fn begun(alloc: Global, name: &[u8], scalar: &[u8]) -> Result<Vec<u8>, AllocError>
    ensures { IfOk result (λ line. line.items ≡ begun name.now scalar.now) }
{
    let mut line = Vec::new(alloc);
    line.extend_from_slice(name)?;
    line.extend_from_slice(b": ")?;
    line.extend_from_slice(scalar)?;
    Ok(line)
}

/// Whether a scalar has room on a line.
fn has_room(line: &[u8], scalar: &[u8]) -> bool
    ensures { result ≡ has_room line.now scalar.now }
{
    scalar.len() <= MOST_COLUMNS && line.len() <= MOST_COLUMNS - scalar.len()
}

/// Lines that are written, and one that is not yet.
#[derive(Drop)]
struct Lines {
    out: Vec<u8>,
    line: Vec<u8>,
}

/// A scalar more.
fn put_with_scalar(
    lines: &mut Lines,
    alloc: Global,
    name: &[u8],
    scalar: &[u8],
) -> Result<(), AllocError>
    ensures written { OnOk result (lines.new.out.items ≡ lines.old.out.items
        ++ (with_scalar name.now scalar.now lines.old.line.items).written) }
    ensures line { OnOk result (lines.new.line.items
        ≡ (with_scalar name.now scalar.now lines.old.line.items).line) }
{
    if lines.line.is_empty() {
        lines.line = begun(alloc, name, scalar)?;
    } else if has_room(&lines.line, scalar) {
        lines.line.extend_from_slice(b", ")?;
        lines.line.extend_from_slice(scalar)?;
    } else {
        put_comment(&mut lines.out, &lines.line)?;
        lines.line = begun(alloc, name, scalar)?;
    }
    Ok(())
}

/// The text of a scalar.
fn scalar_text(alloc: Global, k: u64, name: &[u8]) -> Result<Vec<u8>, AllocError>
    ensures { IfOk result (λ text. text.items ≡ scalar_text k name.now) }
{
    let mut text = Vec::new(alloc);
    put_scalar(&mut text, k, name)?;
    Ok(text)
}

/// A scalar more, if it has a name.
fn put_named(
    lines: &mut Lines,
    alloc: Global,
    name: &[u8],
    k: u64,
    w: &[u8],
) -> Result<(), AllocError>
    ensures written { OnOk result (lines.new.out.items ≡ lines.old.out.items
        ++ (with_named name.now k w.now lines.old.line.items).written) }
    ensures line { OnOk result (lines.new.line.items
        ≡ (with_named name.now k w.now lines.old.line.items).line) }
{
    let w = shown(w);
    if w.is_empty() {
        Ok(())
    } else {
        let text = scalar_text(alloc, k, w)?;
        put_with_scalar(lines, alloc, shown(name), &text)
    }
}

/// Writes the line at the end.
fn put_last(out: &mut Vec<u8>, line: &[u8]) -> Result<(), AllocError>
    ensures { OnOk result (out.new.items ≡ out.old.items ++ last_line line.now) }
{
    if line.is_empty() {
        Ok(())
    } else {
        put_comment(out, line)
    }
}

/// The lines of some scalars.
fn scalar_lines(alloc: Global, name: &[u8], names: &[Items<u8>]) -> Result<Vec<u8>, AllocError>
    ensures { IfOk result (λ out. out.items ≡ scalar_lines name.now 0 names.now []) }
{
    let mut lines = Lines {
        out: Vec::new(alloc),
        line: Vec::new(alloc),
    };
    for (k, w) in names.iter().enumerate() {
        put_named(&mut lines, alloc, name, k as u64, w.as_slice())?;
    }
    let Lines { mut out, line } = lines;
    put_last(&mut out, &line)?;
    Ok(out)
}

/// Writes which registers hold the scalars of a function.
pub fn put_scalar_lines(out: &mut Vec<u8>, alloc: Global, told: &Told) -> Result<(), AllocError>
    ensures { OnOk result (out.new.items
        ≡ out.old.items ++ scalar_lines told.now.name 0 told.now.names []) }
{
    let lines = scalar_lines(alloc, told.name.as_slice(), told.names.as_slice())?;
    out.extend_from_slice(&lines)
}
