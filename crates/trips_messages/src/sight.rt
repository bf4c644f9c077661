//! What stands around a token.

ghost use Rattle.std.specs.Prelude.{◌≡◌};
ghost use Rattle.trips_messages.specs.Sights as sights;

use crate::class::{Class, class_of, one_less, one_more};
use c_tree::Lexeme;

/// What stands before a token: the classes of the last two tokens, how many brackets of each kind are open, whether
/// the token is one of an initialiser in braces, and whether a colon is still to come.
#[derive(Clone, Copy, Debug)]
pub struct Sight {
    pub earlier: Class,
    pub previous: Class,
    pub round: u32,
    pub square: u32,
    pub curly: u32,
    pub listed: bool,
    pub awaits: bool,
}

/// A token, what stands before it, and whether it is the last one.
#[derive(Clone, Copy, Debug)]
pub struct Seat {
    pub sight: Sight,
    pub here: Class,
    pub last: bool,
}

/// Round brackets that are open behind a token.
fn round_after(class: Class, count: u32) -> u32
    ensures { result ≡ sights.round_after class count }
{
    match class {
        Class::OpenRound => one_more(count),
        Class::CloseRound => one_less(count),
        _ => count,
    }
}

/// Square brackets that are open behind a token.
fn square_after(class: Class, count: u32) -> u32
    ensures { result ≡ sights.square_after class count }
{
    match class {
        Class::OpenSquare => one_more(count),
        Class::CloseSquare => one_less(count),
        _ => count,
    }
}

/// Braces that are open behind a token.
fn curly_after(class: Class, count: u32) -> u32
    ensures { result ≡ sights.curly_after class count }
{
    match class {
        Class::OpenCurly => one_more(count),
        Class::CloseCurly => one_less(count),
        _ => count,
    }
}

/// Is the token a `=`?
fn is_assign(class: Class) -> bool
    ensures { result ≡ sights.is_assign class }
{
    match class {
        Class::Assign => true,
        _ => false,
    }
}

/// Whether an initialiser in braces goes on behind a token.
fn listed_after(previous: Class, class: Class, listed: bool) -> bool
    ensures { result ≡ sights.listed_after previous class listed }
{
    match class {
        Class::Semicolon => false,
        Class::OpenCurly => is_assign(previous) || listed,
        _ => listed,
    }
}

/// Whether a colon is to come behind a token.
fn awaits_after(class: Class, awaits: bool) -> bool
    ensures { result ≡ sights.awaits_after class awaits }
{
    match class {
        Class::Asks => true,
        Class::Colon | Class::Semicolon => false,
        _ => awaits,
    }
}

/// What stands before the next token.
fn step(sight: Sight, class: Class) -> Sight
    ensures { result ≡ sights.step sight class }
{
    Sight {
        earlier: sight.previous,
        previous: class,
        round: round_after(class, sight.round),
        square: square_after(class, sight.square),
        curly: curly_after(class, sight.curly),
        listed: listed_after(sight.previous, class, sight.listed),
        awaits: awaits_after(class, sight.awaits),
    }
}

/// What stands before the first token.
fn start() -> Sight
    ensures { result ≡ sights.start }
{
    Sight {
        earlier: Class::Nothing,
        previous: Class::Nothing,
        round: 0,
        square: 0,
        curly: 0,
        listed: false,
        awaits: false,
    }
}

/// Is there no token?
fn is_end(tokens: &[Lexeme]) -> bool
    ensures { result ≡ sights.is_end tokens.now }
{
    match tokens {
        [] => true,
        [_, ..] => false,
    }
}

/// The first token that does not begin before the offset, and what stands around it.
pub fn seat_of(tokens: &[Lexeme], offset: u32) -> Seat
    ensures { result ≡ sights.seat_of offset tokens.now }
{
    let mut sight = start();
    let mut rest = tokens;
    while let [lexeme, more @ ..] = rest {
        let class = class_of(&lexeme.form);
        if offset <= lexeme.offset {
            return Seat {
                sight,
                here: class,
                last: is_end(more),
            };
        }
        sight = step(sight, class);
        rest = more;
    }
    Seat {
        sight,
        here: Class::Nothing,
        last: true,
    }
}
