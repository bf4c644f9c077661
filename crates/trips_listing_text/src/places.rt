//! Lines and braces.

ghost use Rattle.std.specs.Prelude.{◌≡◌, ◌<◌, ◌≤◌, slice_get};
ghost use Rattle.trips_listing_text.specs.Functions.{feed, line_at, open_behind, is_opener, open_from, closing};
ghost use Rattle.trips_listing_text.specs.Functions.{is_include};

use c_tree::{Form, Lexeme, Mark};

/// 1 for a line feed.
fn feed(c: u8) -> u64
    ensures value { result ≡ feed c }
    ensures within { result ≤ 1 }
{
    if c == b'\n' { 1 } else { 0 }
}

/// The line on which a place of a text is, counted from 1.
pub fn line_at(text: &[u8], at: usize) -> u64
    ensures { result ≡ line_at text.now at }
{
    let mut line: u64 = 1;
    for (i, b) in text.iter().enumerate() {
        if i >= at {
            return line;
        }
        line += feed(*b);
    }
    line
}

/// How many braces are open behind a token.
fn open_behind(form: &Form, depth: usize) -> usize
    requires { depth < 18446744073709551615 }
    ensures { result ≡ open_behind form.now depth }
{
    match form {
        Form::Mark(Mark::LeftBrace) => depth + 1,
        Form::Mark(Mark::RightBrace) => depth.saturating_sub(1),
        _ => depth,
    }
}

/// Whether a token is a brace that opens.
fn is_opener(form: &Form) -> bool
    ensures { result ≡ is_opener form.now }
{
    match form {
        Form::Mark(Mark::LeftBrace) => true,
        _ => false,
    }
}

/// How many are open behind a token, where none counts before the one at a place.
fn open_from(at: u32, t: &Lexeme, depth: usize) -> usize
    requires { depth < 18446744073709551615 }
    ensures { result ≡ open_from at t.now depth }
{
    if depth == 0 {
        if is_opener(&t.form) && t.offset == at {
            1
        } else {
            0
        }
    } else {
        open_behind(&t.form, depth)
    }
}

/// The place of the brace that closes the one at a place.
pub fn closing(at: u32, tokens: &[Lexeme]) -> u32
    ensures { result ≡ closing at 0 tokens.now }
{
    let mut depth = 0;
    for t in tokens {
        let next = open_from(at, t, depth);
        if 1 <= depth && next == 0 {
            return t.offset;
        }
        depth = next;
    }
    at
}

/// Whether a place is that of an include.
pub fn is_include(text: &[u8], at: usize) -> bool
    ensures { result ≡ is_include (slice_get text.now at) }
{
    match text.get(at) {
        None => false,
        Some(b) => *b == b'#',
    }
}
