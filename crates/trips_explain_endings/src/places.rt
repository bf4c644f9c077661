//! The place of a byte of a text, its line, and the function that it lies in.

ghost use Rattle.std.specs.Prelude.{◌≡◌, ◌<◌, ◌++◌, OnOk, IfOk, length, string_bytes, take, drop, None, option_copied};
ghost use Rattle.trips_explain_endings.specs.Endings as specs;

use c_lex::line_of;
use std::alloc::{AllocError, Global};
use trips_messages::{column, first_line, last_line, parted, put_marked, word_length};

// The place of a byte.
fn place_by(alloc: Global, file: &str, line: u32, at: u64) -> Result<String, AllocError>
    ensures { IfOk result (λ text. string_bytes text ≡ specs.place_by file.now line at) }
{
    format!(in alloc; "{file}:{line}:{at}")
}

/// The place of a byte of a text: the file, the line and the column.
pub fn place(alloc: Global, file: &str, text: &[u8], offset: u32) -> Result<String, AllocError>
    requires short { length text.now < 4_294_967_295 }
    ensures { IfOk result (λ told. string_bytes told ≡ specs.place file.now text.now offset) }
{
    place_by(alloc, file, line_of(text, offset), column(text, offset))
}

/// Writes the line of a byte, and below it a mark under the byte.
pub fn put_line(out: &mut Vec<u8>, text: &[u8], offset: u32) -> Result<(), AllocError>
    ensures ok { OnOk result (out.new.items ≡ out.old.items ++ specs.line_told text.now offset) }
{
    let (before, rest) = parted(text, offset as usize);
    put_marked(out, last_line(before), first_line(rest))
}

// Of definitions at these offsets the last one that stands at or before an offset.
fn around(offset: u32, definitions: &[u32]) -> Option<u32>
    ensures { result ≡ specs.around offset definitions.now }
{
    let mut found = None;
    let mut rest = definitions;
    while let [definition, more @ ..] = rest {
        if *definition <= offset {
            found = Some(*definition);
        }
        rest = more;
    }
    found
}

// Does an include stand here?
fn is_include(rest: &[u8]) -> bool
    ensures { result ≡ specs.is_include rest.now }
{
    match rest {
        [] => false,
        [b, ..] => *b == b'#',
    }
}

// The function whose definition stands here.
fn function_named(rest: &[u8]) -> &[u8]
    ensures { result.now ≡ specs.function_named rest.now }
{
    if is_include(rest) {
        b"the library"
    } else {
        let (word, _) = rest.split_at(word_length(rest));
        word
    }
}

/// Writes in which function a byte lies, by the definitions of a text, if it lies in one.
pub fn put_function(
    out: &mut Vec<u8>,
    text: &[u8],
    definitions: &[u32],
    offset: u32,
) -> Result<(), AllocError>
    ensures ok { OnOk result (out.new.items ≡ out.old.items
        ++ specs.in_function text.now (specs.around offset definitions.now)) }
{
    match around(offset, definitions) {
        None => Ok(()),
        Some(definition) => {
            let (_, rest) = parted(text, definition as usize);
            out.extend_from_slice(b" in ")?;
            out.extend_from_slice(function_named(rest))
        }
    }
}
