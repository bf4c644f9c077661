//! The calls of library functions in a unit.

ghost use Rattle.std.specs.Prelude.{◌≡◌, ◌≤◌, ◌<◌, ◌+◌, length, option_map, IfOk};
ghost use Rattle.c_library.specs.Calls as calls;

use crate::header::{Header, header_of, same_header, same_name};
use base::Items;
use c_lex::string_of;
use c_tree::{Form, Lexeme, Mark};
use std::alloc::{AllocError, Global};

/// Is the token this name?
pub fn is_name(name: &[u8], form: &Form) -> bool
    ensures { result ≡ calls.is_name name.now form.now }
{
    match form {
        Form::Name(word) => same_name(word.as_slice(), name),
        _ => false,
    }
}

/// Is it this punctuator?
pub fn is_mark(mark: Mark, form: &Form) -> bool
    ensures { result ≡ calls.is_mark mark form.now }
{
    match form {
        Form::Mark(other) => *other == mark,
        _ => false,
    }
}

/// Does a `(` stand first?
pub fn opens(tokens: &[Lexeme]) -> bool
    ensures { result ≡ calls.opens tokens.now }
{
    match tokens {
        [] => false,
        [token, ..] => is_mark(Mark::LeftParen, &token.form),
    }
}

/// Is the name called anywhere in these tokens?
pub fn calls(name: &[u8], tokens: &[Lexeme]) -> bool
    ensures { result ≡ calls.calls name.now tokens.now }
{
    let mut rest = tokens;
    while let [token, more @ ..] = rest {
        if is_name(name, &token.form) && opens(more) {
            return true;
        }
        rest = more;
    }
    false
}

/// Is it the header?
fn is_header(header: Header, other: Option<Header>) -> bool
    ensures { result ≡ calls.is_header header other }
{
    match other {
        None => false,
        Some(other) => same_header(other, header),
    }
}

/// The tokens behind the first token of the header.
pub fn behind(header: Header, tokens: &[Lexeme]) -> &[Lexeme]
    ensures { result.now ≡ calls.behind header tokens.now }
{
    let mut rest = tokens;
    while let [token, more @ ..] = rest {
        if is_header(header, header_of(&token.form)) {
            return more;
        }
        rest = more;
    }
    &[]
}

/// How many braces are open behind a token.
fn depth_past(depth: usize, form: &Form) -> usize
    requires few { depth < 18446744073709551615 }
    ensures value { result ≡ calls.depth_past depth form.now }
    ensures few { result ≤ depth + 1 }
{
    if is_mark(Mark::LeftBrace, form) {
        depth + 1
    } else if is_mark(Mark::RightBrace, form) {
        depth.saturating_sub(1)
    } else {
        depth
    }
}

/// Does the name stand outside of all braces?
pub fn owns(name: &[u8], tokens: &[Lexeme]) -> bool
    ensures { result ≡ calls.owns name.now 0 tokens.now }
{
    let count = tokens.len();
    let mut depth: usize = 0;
    let mut rest = tokens;
    while let [token, more @ ..] = rest {
        if depth == 0 && is_name(name, &token.form) {
            return true;
        }
        depth = depth_past(depth, &token.form);
        rest = more;
    }
    false
}

/// The literal that stands in a `(` with a `,` or `)` behind it: its place and its values.
fn literal_behind(tokens: &[Lexeme]) -> Option<(u32, &[u8])>
    ensures { option_map (λ c. (c.0, c.1.now)) result ≡ calls.literal_behind tokens.now }
{
    match tokens {
        [paren, literal, end, ..] => {
            if is_mark(Mark::LeftParen, &paren.form)
                && (is_mark(Mark::Comma, &end.form) || is_mark(Mark::RightParen, &end.form))
            {
                match string_of(&literal.form) {
                    None => None,
                    Some(values) => Some((literal.offset, values)),
                }
            } else {
                None
            }
        }
        _ => None,
    }
}

/// The call of `printf` by a literal that a token is.
pub fn format_at<'a>(form: &Form, rest: &'a [Lexeme]) -> Option<(u32, &'a [u8])>
    ensures { option_map (λ c. (c.0, c.1.now)) result ≡ calls.format_at form.now rest.now }
{
    if is_name(b"printf", form) {
        literal_behind(rest)
    } else {
        None
    }
}

/// The format of a literal's values. Want of memory is the only error.
pub fn format_of(alloc: Global, values: &[u8]) -> Result<Items<u8>, AllocError>
    ensures ok { IfOk result (λ format. format ≡ calls.format_of values.now) }
{
    let mut format = Items::new(alloc);
    let mut rest = values;
    while let [byte, more @ ..] = rest {
        if *byte == 0 {
            return Ok(format);
        }
        format.push(*byte)?;
        rest = more;
    }
    Ok(format)
}
