//! The types that headers declare.

ghost use Rattle.std.specs.Prelude.{◌≡◌, [], map, OnOk};
ghost use Rattle.c_names.specs.Headers as headers;

use crate::piece::Piece;
use crate::scope::{Scope, same_name};
use base::Items;
use c_tree::{Key, Word};
use std::alloc::{AllocError, Global};

/// A name, and the words that it stands for.
pub type Row = (&'static [u8], &'static [Piece]);

const CHAR: &[Piece] = &[Piece::Word(Key::Signed), Piece::Word(Key::Char)];

const SHORT: &[Piece] = &[Piece::Word(Key::Short)];

const INT: &[Piece] = &[Piece::Word(Key::Int)];

const LONG: &[Piece] = &[Piece::Word(Key::Long)];

const UCHAR: &[Piece] = &[Piece::Word(Key::Unsigned), Piece::Word(Key::Char)];

const USHORT: &[Piece] = &[Piece::Word(Key::Unsigned), Piece::Word(Key::Short)];

const UINT: &[Piece] = &[Piece::Word(Key::Unsigned), Piece::Word(Key::Int)];

const ULONG: &[Piece] = &[Piece::Word(Key::Unsigned), Piece::Word(Key::Long)];

/// The type of `sizeof`.
const SIZES: [Row; 1] = [(b"size_t", ULONG)];

/// The types of `<stddef.h>`.
const DEFINITIONS: [Row; 3] = [(b"size_t", ULONG), (b"ptrdiff_t", LONG), (b"wchar_t", INT)];

/// The types of `<stdint.h>`.
const INTEGERS: [Row; 28] = [
    (b"int8_t", CHAR),
    (b"int16_t", SHORT),
    (b"int32_t", INT),
    (b"int64_t", LONG),
    (b"uint8_t", UCHAR),
    (b"uint16_t", USHORT),
    (b"uint32_t", UINT),
    (b"uint64_t", ULONG),
    (b"int_least8_t", CHAR),
    (b"int_least16_t", SHORT),
    (b"int_least32_t", INT),
    (b"int_least64_t", LONG),
    (b"uint_least8_t", UCHAR),
    (b"uint_least16_t", USHORT),
    (b"uint_least32_t", UINT),
    (b"uint_least64_t", ULONG),
    (b"int_fast8_t", CHAR),
    (b"int_fast16_t", LONG),
    (b"int_fast32_t", LONG),
    (b"int_fast64_t", LONG),
    (b"uint_fast8_t", UCHAR),
    (b"uint_fast16_t", ULONG),
    (b"uint_fast32_t", ULONG),
    (b"uint_fast64_t", ULONG),
    (b"intptr_t", LONG),
    (b"uintptr_t", ULONG),
    (b"intmax_t", LONG),
    (b"uintmax_t", ULONG),
];

/// The type of `sizeof`.
#[tactic(auto, unfolding(crate::specs::Headers::sizes))]
pub fn sizes() -> &'static [Row]
    ensures { map (λ row. (row.0.now, row.1.now)) result.now ≡ headers.sizes }
{
    &SIZES
}

/// The types of `<stddef.h>`.
#[tactic(auto, unfolding(crate::specs::Headers::definitions))]
fn definitions() -> &'static [Row]
    ensures { map (λ row. (row.0.now, row.1.now)) result.now ≡ headers.definitions }
{
    &DEFINITIONS
}

/// The types of `<stdint.h>`.
#[tactic(auto, unfolding(crate::specs::Headers::integers))]
fn integers() -> &'static [Row]
    ensures { map (λ row. (row.0.now, row.1.now)) result.now ≡ headers.integers }
{
    &INTEGERS
}

/// Is it the token of a header, other than `<stdio.h>`?
pub fn is_header(name: &[u8]) -> bool
    ensures { result ≡ headers.is_header name.now }
{
    match name {
        [] => false,
        [first, ..] => *first == b'<',
    }
}

/// Does the header's token go?
pub fn goes(name: &[u8]) -> bool
    ensures { result ≡ headers.goes name.now }
{
    same_name(name, b"<stddef.h>") || same_name(name, b"<stdint.h>")
}

/// Does the header have `size_t` alone?
fn has_sizes(name: &[u8]) -> bool
    ensures { result ≡ headers.has_sizes name.now }
{
    same_name(name, b"<stdlib.h>") || same_name(name, b"<string.h>")
}

/// The types of the header.
pub fn types_of(name: &[u8]) -> &'static [Row]
    ensures { map (λ row. (row.0.now, row.1.now)) result.now ≡ headers.types_of name.now }
{
    if same_name(name, b"<stdint.h>") {
        integers()
    } else if same_name(name, b"<stddef.h>") {
        definitions()
    } else if has_sizes(name) {
        sizes()
    } else {
        &[]
    }
}

/// Declares types. Want of memory is the only error.
pub fn declare_types(alloc: Global, rows: &[Row], scope: &mut Scope) -> Result<(), AllocError>
    ensures { OnOk result (scope.new
        ≡ headers.with_types (map (λ row. (row.0.now, row.1.now)) rows.now) scope.old) }
{
    let mut rest = rows;
    while let [row, more @ ..] = rest {
        let pieces = Items::from_slice(alloc, row.1)?;
        scope.bind(Word::from_slice(alloc, row.0)?, pieces)?;
        rest = more;
    }
    Ok(())
}
