//! Which token is wanted at a fault of the grammar, where what stands around it decides.

ghost use Rattle.std.specs.Prelude.{◌≡◌};
ghost use Rattle.trips_messages.specs.Wanted as wanting;

use crate::class::Class;
use crate::saying::Saying;
use crate::sight::{Seat, Sight};

/// May an expression end with the token?
fn ends_expression(class: Class) -> bool
    ensures { result ≡ wanting.ends_expression class }
{
    match class {
        Class::Name | Class::Number | Class::CloseRound | Class::CloseSquare | Class::Bump => true,
        _ => false,
    }
}

/// A token that closes what is not open.
fn is_unopened(here: Class, sight: Sight) -> bool
    ensures { result ≡ wanting.is_unopened here sight }
{
    match here {
        Class::CloseRound => sight.round == 0,
        Class::CloseSquare => sight.square == 0,
        Class::CloseCurly => sight.curly == 0,
        _ => false,
    }
}

/// No bracket is open, but for braces.
fn is_flat(sight: Sight) -> bool
    ensures { result ≡ wanting.is_flat sight }
{
    sight.round == 0 && sight.square == 0
}

/// Before a token that stands in no bracket.
fn stops_brackets(here: Class) -> bool
    ensures { result ≡ wanting.stops_brackets here }
{
    match here {
        Class::Semicolon | Class::OpenCurly | Class::CloseCurly => true,
        Class::Starts | Class::Leaves | Class::Return => true,
        _ => false,
    }
}

/// Before which a round bracket is to be closed, where a square one is open or not.
fn stops_round(here: Class, square: u32) -> bool
    ensures { result ≡ wanting.stops_round here square }
{
    match here {
        Class::CloseSquare => true,
        _ => square == 0 && stops_brackets(here),
    }
}

/// Before which a square bracket is to be closed, where a round one is open or not.
fn stops_square(here: Class, round: u32) -> bool
    ensures { result ≡ wanting.stops_square here round }
{
    match here {
        Class::CloseRound => true,
        _ => round == 0 && stops_brackets(here),
    }
}

/// Is a `)` wanted?
fn wants_round(here: Class, sight: Sight) -> bool
    ensures { result ≡ wanting.wants_round here sight }
{
    ends_expression(sight.previous) && (!(sight.round == 0) && stops_round(here, sight.square))
}

/// Is a `]` wanted?
fn wants_square(here: Class, sight: Sight) -> bool
    ensures { result ≡ wanting.wants_square here sight }
{
    ends_expression(sight.previous) && (!(sight.square == 0) && stops_square(here, sight.round))
}

/// Is it a name?
fn is_name(class: Class) -> bool
    ensures { result ≡ wanting.is_name class }
{
    match class {
        Class::Name => true,
        _ => false,
    }
}

/// Behind which a declaration of the file, or a parameter, begins.
fn before_type(previous: Class) -> bool
    ensures { result ≡ wanting.before_type previous }
{
    match previous {
        Class::Nothing | Class::Include | Class::Semicolon | Class::CloseCurly => true,
        Class::OpenRound | Class::Comma => true,
        _ => false,
    }
}

/// A name where a type is wanted, outside functions.
fn is_untyped(here: Class, sight: Sight) -> bool
    ensures { result ≡ wanting.is_untyped here sight }
{
    is_name(here) && (sight.curly == 0 && before_type(sight.previous))
}

/// Behind which a statement begins.
fn before_statement(class: Class) -> bool
    ensures { result ≡ wanting.before_statement class }
{
    match class {
        Class::Semicolon | Class::OpenCurly | Class::CloseCurly | Class::Colon => true,
        _ => false,
    }
}

/// A name behind another one, which begins a statement.
fn is_behind_name(here: Class, sight: Sight) -> bool
    ensures { result ≡ wanting.is_behind_name here sight }
{
    is_name(here) && (is_name(sight.previous) && before_statement(sight.earlier))
}

/// A token, not a name or a type, that no expression goes on with.
fn begins_statement(here: Class) -> bool
    ensures { result ≡ wanting.begins_statement here }
{
    match here {
        Class::Starts | Class::Asks | Class::Leaves | Class::Return => true,
        Class::Else | Class::CloseCurly => true,
        _ => false,
    }
}

/// Is the token a type, or does it begin a statement?
fn begins_line(here: Class) -> bool
    ensures { result ≡ wanting.begins_line here }
{
    match here {
        Class::Type => true,
        _ => begins_statement(here),
    }
}

/// Is the token a brace that closes?
fn is_closing(class: Class) -> bool
    ensures { result ≡ wanting.is_closing class }
{
    match class {
        Class::CloseCurly => true,
        _ => false,
    }
}

/// Is a semicolon wanted between these, of which the second may be in a function?
fn parts(previous: Class, here: Class, inside: bool) -> bool
    ensures { result ≡ wanting.parts previous here inside }
{
    match previous {
        Class::Name | Class::Number | Class::CloseSquare | Class::Bump | Class::Leaves => {
            is_name(here) || begins_line(here)
        }
        Class::Return => begins_line(here),
        Class::CloseRound => inside && (is_name(here) || begins_statement(here)),
        Class::Colon => is_closing(here),
        _ => false,
    }
}

/// Is a semicolon wanted?
fn wants_semicolon(here: Class, sight: Sight) -> bool
    ensures { result ≡ wanting.wants_semicolon here sight }
{
    !(sight.listed || sight.awaits) && parts(sight.previous, here, !(sight.curly == 0))
}

/// Is a brace wanted behind a token that is the last one?
fn wants_brace(here: Class, sight: Sight) -> bool
    ensures { result ≡ wanting.wants_brace here sight }
{
    match here {
        Class::Semicolon => !(sight.curly == 0) && ends_expression(sight.previous),
        Class::CloseCurly => 1 < sight.curly && before_statement(sight.previous),
        _ => false,
    }
}

/// What is said of a token in no bracket.
fn flat_saying(seat: Seat) -> Option<Saying>
    ensures { result ≡ wanting.flat_saying seat }
{
    if is_behind_name(seat.here, seat.sight) {
        Some(Saying::NoType)
    } else if wants_semicolon(seat.here, seat.sight) {
        Some(Saying::Semicolon)
    } else if seat.last && (!seat.sight.listed && wants_brace(seat.here, seat.sight)) {
        Some(Saying::LastBrace)
    } else {
        None
    }
}

/// What is said of a token by what stands around it, if that decides.
pub fn wanted(seat: Seat) -> Option<Saying>
    ensures { result ≡ wanting.wanted seat }
{
    if is_unopened(seat.here, seat.sight) {
        Some(Saying::NotOpened)
    } else if wants_round(seat.here, seat.sight) {
        Some(Saying::RightParen)
    } else if wants_square(seat.here, seat.sight) {
        Some(Saying::RightBracket)
    } else if is_untyped(seat.here, seat.sight) {
        Some(Saying::Untyped)
    } else if is_flat(seat.sight) {
        flat_saying(seat)
    } else {
        None
    }
}
