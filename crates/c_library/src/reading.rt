//! A format (C17 7.21.6.1, paragraphs 3 and 4), as the characters and conversions that it has.

ghost use Rattle.std.specs.Prelude.{◌≡◌, ◌++◌, OnOk, IfOk};
ghost use Rattle.c_library.specs.Reading as reading;

use crate::conversion::{
    Conversion, is_defined, nothing_said, with_flag, with_point, with_precision, with_size,
    with_width,
};
use base::Items;
use std::alloc::{AllocError, Global};

/// What a format has: a byte that is written as it is, or a conversion.
#[derive(Clone, Copy, Debug, PartialEq, Eq, Drop)]
pub enum Item {
    Byte(u8),
    Conversion(Conversion),
}

/// The part of a format that the byte read last belongs to: text, a `%`, the flags, width, precision or length
/// modifier of a conversion, as far as it is read; or what no format has.
#[derive(Clone, Copy, Debug, PartialEq, Eq, Drop)]
pub enum Part {
    Text,
    Percent,
    Flags(Conversion),
    Width(Conversion),
    Precision(Conversion),
    Size(Conversion),
    Bad,
}

/// The letter of a conversion, which ends it.
fn at_letter(b: u8, c: Conversion) -> (Part, Option<Item>)
    ensures { result ≡ reading.at_letter b c }
{
    let whole = Conversion { letter: b, ..c };
    if is_defined(whole) {
        (Part::Text, Some(Item::Conversion(whole)))
    } else {
        (Part::Bad, None)
    }
}

/// A byte where the length modifier may go on.
fn at_size(b: u8, c: Conversion) -> (Part, Option<Item>)
    ensures { result ≡ reading.at_size b c }
{
    match with_size(b, c) {
        Some(c) => (Part::Size(c), None),
        None => at_letter(b, c),
    }
}

/// A byte where the precision may go on.
fn at_precision(b: u8, c: Conversion) -> (Part, Option<Item>)
    ensures { result ≡ reading.at_precision b c }
{
    match with_precision(b, c) {
        Some(c) => (Part::Precision(c), None),
        None => at_size(b, c),
    }
}

/// A byte where a precision may begin.
fn at_point(b: u8, c: Conversion) -> (Part, Option<Item>)
    ensures { result ≡ reading.at_point b c }
{
    match with_point(b, c) {
        Some(c) => (Part::Precision(c), None),
        None => at_size(b, c),
    }
}

/// A byte where the width may go on.
fn at_width(b: u8, c: Conversion) -> (Part, Option<Item>)
    ensures { result ≡ reading.at_width b c }
{
    match with_width(b, c) {
        Some(c) => (Part::Width(c), None),
        None => at_point(b, c),
    }
}

/// A byte where the flags may go on.
fn at_flags(b: u8, c: Conversion) -> (Part, Option<Item>)
    ensures { result ≡ reading.at_flags b c }
{
    match with_flag(b, c) {
        Some(c) => (Part::Flags(c), None),
        None => at_width(b, c),
    }
}

/// A byte more: the part that it belongs to, and the item that it ends.
fn moved(part: Part, b: u8) -> (Part, Option<Item>)
    ensures { result ≡ reading.moved part b }
{
    match part {
        Part::Text => {
            if b == b'%' {
                (Part::Percent, None)
            } else {
                (Part::Text, Some(Item::Byte(b)))
            }
        }
        Part::Percent => {
            if b == b'%' {
                (Part::Text, Some(Item::Byte(b)))
            } else {
                at_flags(b, nothing_said())
            }
        }
        Part::Flags(c) => at_flags(b, c),
        Part::Width(c) => at_width(b, c),
        Part::Precision(c) => at_precision(b, c),
        Part::Size(c) => at_size(b, c),
        Part::Bad => (Part::Bad, None),
    }
}

/// Adds the item, if there is one.
fn add(items: &mut Items<Item>, item: Option<Item>) -> Result<(), AllocError>
    ensures { OnOk result (items.new ≡ items.old ++ reading.listed item) }
{
    match item {
        Some(item) => items.push(item),
        None => Ok(()),
    }
}

/// The items of a format that ends within this part.
fn ended(part: Part, items: Items<Item>) -> Option<Items<Item>>
    ensures { result ≡ reading.ended part items }
{
    match part {
        Part::Text => Some(items),
        _ => None,
    }
}

/// The characters and conversions of a format, if it is one. Want of memory is the only error.
pub fn items_of(alloc: Global, format: &[u8]) -> Result<Option<Items<Item>>, AllocError>
    ensures ok { IfOk result (λ items. items ≡ reading.items_of format.now) }
{
    let mut items = Items::new(alloc);
    let mut part = Part::Text;
    let mut rest = format;
    while let [b, more @ ..] = rest {
        let (next, item) = moved(part, *b);
        add(&mut items, item)?;
        part = next;
        rest = more;
    }
    Ok(ended(part, items))
}
