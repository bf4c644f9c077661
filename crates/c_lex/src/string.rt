//! String literals (C17 6.4.5).

ghost use Rattle.std.specs.Prelude.{◌≡◌, ◌≤◌, ◌<◌, ◌+◌, ◌^◌, ◌∷◌, length, option_map, IfOk, IfSome};
ghost use Rattle.c_tree.specs.Limits.{most_tokens};
ghost use Rattle.c_lex.specs.Ascii as ascii;
ghost use Rattle.c_lex.specs.Constants as constants;
ghost use Rattle.c_lex.specs.Strings as strings;
ghost use Rattle.c_lex.specs.inside.Places.{place, HasRoom};
ghost use Rattle.c_lex.specs.inside.Strings as scans;
ghost use Rattle.c_lex.specs.inside.Turns.{Turned};

use crate::character::simple;
use crate::fault::LexFault;
use crate::lexer::Lexer;
use crate::number::value_of;
use crate::scan::{Class, is_digit_in, run};
use c_tree::{Form, Word};
use std::alloc::{AllocError, Global};
use std::cmp::min;

/// The values of the literal with this name.
fn string_named(name: &[u8]) -> Option<&[u8]>
    ensures { option_map (λ values. values.now) result ≡ strings.string_named name.now }
{
    match name {
        [] => None,
        [b, values @ ..] => { if *b == b'"' { Some(values) } else { None } }
    }
}

/// The values of the literal that the token is, without the 0 that ends them, if it is one.
pub fn string_of(form: &Form) -> Option<&[u8]>
    ensures { option_map (λ values. values.now) result ≡ strings.string_of form.now }
{
    match form {
        Form::Name(name) => string_named(name.as_slice()),
        _ => None,
    }
}

/// A byte that stands for itself.
fn is_ordinary(b: u8) -> bool
    ensures { result ≡ strings.is_ordinary b }
{
    ((b' ' <= b && b <= b'~') && !(b == b'"' || b == b'\\'))
        || (b == b'\t' || (128 <= b && b <= 255))
}

/// A character with so many bytes behind its first, where the value of its digits is a byte.
fn byte_of(n: usize, radix: u8, digits: &[u8]) -> Option<(usize, u8)>
    requires { 0 < radix }
    ensures { result ≡ scans.byte_of n (constants.number_of radix digits.now) }
{
    match value_of(radix, digits) {
        None => None,
        Some(value) => {
            if value <= 255 {
                Some((n, value as u8))
            } else {
                None
            }
        }
    }
}

/// An octal escape sequence, after its `\`: up to three digits.
fn octal_at(bs: &[u8]) -> Option<(usize, u8)>
    ensures { result ≡ scans.octal_at bs.now }
{
    match bs {
        [] => None,
        [d, rest @ ..] => {
            let n = min(run(Class::Digit(8), *d, rest), 2) + 1;
            let (digits, _) = bs.split_at(n);
            byte_of(n, 8, digits)
        }
    }
}

/// A hexadecimal escape sequence, after its `\x`: one digit or more.
fn hexadecimal_at(bs: &[u8]) -> Option<(usize, u8)>
    ensures { result ≡ scans.hexadecimal_at bs.now }
{
    match bs {
        [] => None,
        [d, rest @ ..] => {
            if is_digit_in(16, *d) {
                let n = run(Class::Digit(16), *d, rest) + 1;
                let (digits, _) = bs.split_at(n);
                byte_of(n + 1, 16, digits)
            } else {
                None
            }
        }
    }
}

/// A simple escape sequence, of this value.
fn simple_at(value: Option<u8>) -> Option<(usize, u8)>
    ensures { result ≡ scans.simple_at value }
{
    match value {
        None => None,
        Some(v) => Some((1, v)),
    }
}

/// An escape sequence, after its `\`.
fn escape_at(bs: &[u8]) -> Option<(usize, u8)>
    ensures { result ≡ scans.escape_at bs.now }
{
    match bs {
        [] => None,
        [b, rest @ ..] => {
            if *b == b'x' {
                hexadecimal_at(rest)
            } else if is_digit_in(8, *b) {
                octal_at(bs)
            } else {
                simple_at(simple(*b))
            }
        }
    }
}

/// The character that begins with this byte: how many bytes it has behind that, and its value.

fn character_at(b: u8, bs: &[u8]) -> Option<(usize, u8)>
    ensures value { result ≡ scans.character_at b bs.now }
    ensures within { IfSome result (λ x. x.0 ≤ length bs.now) }
{
    if b == b'\\' {
        escape_at(bs)
    } else if is_ordinary(b) {
        Some((0, b))
    } else {
        None
    }
}

/// Adds the values of a literal after its first `"` to a name, and says how many bytes stand before the closing one.
fn values(name: &mut Vec<u8>, text: &[u8]) -> Result<Option<usize>, AllocError>
    ensures ok { IfOk result (λ n. scans.with_name n name.new.items
        ≡ scans.behind 0 name.old.items (scans.values_from 0 text.now)) }
{
    let mut rest = text;
    let mut length = 0usize;
    while let [b, more @ ..] = rest {
        if *b == b'"' {
            return Ok(Some(length));
        }
        match character_at(*b, more) {
            None => return Ok(None),
            Some((n, v)) => {
                name.push(v)?;
                let (_, behind) = more.split_at(n);
                rest = behind;
                length += n + 1;
            }
        }
    }
    Ok(None)
}

/// A literal after its first `"`: how many bytes stand before the closing one, and its name.
pub fn literal_of(alloc: Global, text: &[u8]) -> Result<Option<(usize, Word)>, AllocError>
    ensures ok { IfOk result (λ literal. literal ≡ scans.literal_of text.now) }
{
    let mut name = Vec::from_slice(alloc, b"\"")?;
    match values(&mut name, text)? {
        None => Ok(None),
        Some(length) => {
            let word = Word::from_slice(alloc, name.as_slice())?;
            Ok(Some((length, word)))
        }
    }
}

impl Lexer<'_> {
    /// Takes a string literal (C17 6.4.5). A lone `"` is a bad literal.
    pub fn string(&mut self, rest: &[u8]) -> Result<(), LexFault>
        requires same { self.old.rest.now ≡ ascii.double_quote ∷ rest.now }
        requires short { self.old.offset + length self.old.rest.now < 2 ^ 32 }
        requires few { length self.old.tokens.items ≤ most_tokens }
        requires room { HasRoom most_tokens self.old }
        ensures turned { Turned most_tokens (place self.old) result (place self.new) }
        ensures room { HasRoom most_tokens self.new }
    {
        match literal_of(self.alloc, rest)? {
            None => Err(LexFault::BadLiteral(self.offset)),
            Some((n, name)) => {
                if self.is_full() {
                    return Err(LexFault::TooManyTokens(self.offset));
                }
                self.keep(n + 2, Form::Name(name));
                Ok(())
            }
        }
    }
}
