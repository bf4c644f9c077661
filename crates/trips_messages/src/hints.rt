//! Which sentence is said of a fault among the tokens of its text.

ghost use Rattle.std.specs.Prelude.{◌≡◌, ◌++◌, OnOk};
ghost use Rattle.trips_messages.specs.Hints as hints;

use crate::choices::{mark_saying, name_saying, saying};
use crate::fault::Fault;
use crate::nearest::{Standing, nearest, where_declared};
use crate::saying::Saying;
use crate::sight::seat_of;
use crate::wanted::wanted;
use c_tree::Lexeme;
use std::alloc::AllocError;

// Of a name that is called, by where the text declares a function of this name.
fn function_saying(known: Standing, otherwise: Saying) -> Saying
    ensures { result ≡ hints.function_saying known otherwise }
{
    match known {
        Standing::Before => Saying::Undefined,
        Standing::Behind => Saying::Late,
        Standing::Nowhere => otherwise,
    }
}

// Of a name, where one that is declared is near.
fn near_saying(otherwise: Saying, name: &[u8]) -> Saying
    ensures { result ≡ hints.near_saying otherwise name.now }
{
    match name {
        [] => otherwise,
        [_, ..] => match otherwise {
            Saying::NoName => Saying::Near,
            Saying::NoFunction => Saying::NearFunction,
            _ => otherwise,
        },
    }
}

// Of a name that is not known.
fn unknown_saying(word: &[u8], called: bool, offset: u32, tokens: &[Lexeme]) -> Saying
    ensures { result ≡ hints.unknown_saying word.now called offset tokens.now }
{
    let plain = name_saying(word, called);
    let name = nearest(word, tokens, offset);
    if called {
        near_saying(
            function_saying(where_declared(word, tokens, offset), plain),
            name,
        )
    } else {
        near_saying(plain, name)
    }
}

// Of a token with which no text goes on.
fn syntax_saying(decided: Option<Saying>, word: &[u8]) -> Saying
    ensures { result ≡ hints.syntax_saying decided word.now }
{
    match decided {
        None => mark_saying(word),
        Some(said) => said,
    }
}

/// What is said of a fault at an offset, of a word there, which may be called.
pub fn said_at(fault: Fault, word: &[u8], called: bool, offset: u32, tokens: &[Lexeme]) -> Saying
    ensures { result ≡ hints.said_at fault word.now called offset tokens.now }
{
    match fault {
        Fault::Syntax => syntax_saying(wanted(seat_of(tokens, offset)), word),
        Fault::Unknown => unknown_saying(word, called, offset, tokens),
        _ => saying(fault, word, called),
    }
}

// Writes a name behind a sentence.
fn put_name(out: &mut Vec<u8>, name: &[u8]) -> Result<(), AllocError>
    ensures ok { OnOk result (out.new.items ≡ out.old.items ++ hints.ending Saying.Near name.now) }
{
    out.extend_from_slice(b" '")?;
    out.extend_from_slice(name)?;
    out.extend_from_slice(b"'")
}

/// Writes what ends a sentence: the nearest name, where it speaks of that.
pub fn put_ending(out: &mut Vec<u8>, said: Saying, name: &[u8]) -> Result<(), AllocError>
    ensures ok { OnOk result (out.new.items ≡ out.old.items ++ hints.ending said name.now) }
{
    match said {
        Saying::Near | Saying::NearFunction => put_name(out, name),
        _ => Ok(()),
    }
}
