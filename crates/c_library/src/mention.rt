//! Whether a name of the library stands in front of a `(` behind a header, which few units have.

ghost use Rattle.std.specs.Prelude.{◌≡◌, ◌&&◌, not, is_none, true, false, map, IsTrue};
ghost use Rattle.c_lex.specs.Tables.{lookup};
ghost use Rattle.c_library.specs.Calls as calls;
ghost use Rattle.c_library.specs.Headers as headers;
ghost use Rattle.c_library.specs.Uncalled as uncalled;
ghost use Rattle.c_library.specs.inside.Mentions as mentions;

use crate::calls::opens;
use crate::definition::TableRow;
use crate::header::{bracketed, same_name};
use crate::table::table;
use c_tree::{Form, Lexeme};

/// Is it the name of a row?
fn is_row(name: &[u8], all: &[TableRow]) -> bool
    ensures { result ≡ mentions.is_row name.now (map (λ row. (row.0.now, row.1, row.2.now)) all.now) }
{
    let mut rest = all;
    while let [row, more @ ..] = rest {
        if same_name(name, row.0) {
            return true;
        }
        rest = more;
    }
    false
}

/// Begins a name of the library with these two bytes?
fn may_be(first: u8, second: u8) -> bool
    ensures { result ≡ mentions.may_be first second }
{
    (first == b'i' && second == b's')
        || (first == b't' && second == b'o')
        || (first == b'p' && (second == b'r' || second == b'u'))
        || (first == b's' && (second == b't' || second == b'r'))
        || ((first == b'r' || first == b'l') && second == b'a')
        || (first == b'm' && second == b'e')
        || (first == b'a' && second == b'b')
        || (first == b'e' && second == b'x')
}

/// Does the name begin as one of the library does?
fn may_name(name: &[u8]) -> bool
    ensures { result ≡ mentions.may_name name.now }
{
    match name {
        [first, second, ..] => may_be(*first, *second),
        _ => false,
    }
}

/// Is it a name of the library?
#[tactic(auto, using(crate::proofs::Mentions::begins_otherwise))]
fn is_library(name: &[u8]) -> bool
    ensures { result ≡ mentions.is_library name.now }
{
    if may_name(name) {
        same_name(name, b"printf") || is_row(name, table())
    } else {
        false
    }
}

/// Is the name nothing of the library?
fn is_other_name(seen: bool, name: &[u8], rest: &[Lexeme]) -> bool
    ensures { result ≡ (is_none (lookup name.now headers.bracketed)
        && not (seen && (calls.opens rest.now && mentions.is_library name.now))) }
{
    bracketed(name).is_none() && !(seen && opens(rest) && is_library(name))
}

/// Is the token nothing of the library?
fn is_other(seen: bool, form: &Form, rest: &[Lexeme]) -> bool
    ensures { result ≡ mentions.is_other seen form.now rest.now }
{
    match form {
        Form::Name(name) => is_other_name(seen, name.as_slice(), rest),
        _ => true,
    }
}

/// Does a header stand behind a token?
fn seen_behind(seen: bool, form: &Form) -> bool
    ensures { result ≡ mentions.seen_behind seen form.now }
{
    match form {
        Form::Include => true,
        _ => seen,
    }
}

/// Is each of these tokens nothing of the library?
fn all_other(tokens: &[Lexeme]) -> bool
    ensures { result ≡ mentions.all_other false tokens.now }
{
    let mut seen = false;
    let mut rest = tokens;
    while let [token, more @ ..] = rest {
        if !is_other(seen, &token.form, more) {
            return false;
        }
        seen = seen_behind(seen, &token.form);
        rest = more;
    }
    true
}

/// Does the unit surely call no library function that it does not have itself?
#[tactic(auto, using(crate::proofs::Mentions::others_call_none))]
pub fn calls_none(tokens: &[Lexeme]) -> bool
    ensures { IsTrue result → uncalled.calls_none tokens.now ≡ true }
{
    all_other(tokens)
}
