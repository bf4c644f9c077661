//! The line of a place in a text.

ghost use Rattle.std.specs.Prelude.{◌≡◌, ◌<◌, ◌+◌, length};
ghost use Rattle.c_lex.specs.Bytes as bytes;

use crate::scan::feeds_of;

/// The line behind these bytes, counted from 1.
fn line_behind(before: &[u8]) -> u32
    requires short { length before.now < 4_294_967_295 }
    ensures { result ≡ 1 + bytes.feeds before.now }
{
    let mut number = 1u32;
    let mut rest = before;
    while let [b, more @ ..] = rest {
        number += feeds_of(*b);
        rest = more;
    }
    number
}

/// The line of the byte at an offset of the text, counted from 1: one more than the line feeds before it.
#[tactic(auto, using(std::proofs::lemmas::List::take_all))]
pub fn line_of(text: &[u8], offset: u32) -> u32
    requires short { length text.now < 4_294_967_295 }
    ensures { result ≡ bytes.line_of text.now offset }
{
    let place = offset as usize;
    if text.len() <= place {
        line_behind(text)
    } else {
        let (before, _) = text.split_at(place);
        line_behind(before)
    }
}
