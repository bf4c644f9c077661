//! Classes of tokens, by which what stands around a fault is told.

ghost use Rattle.std.specs.Prelude.{◌≡◌};
ghost use Rattle.trips_messages.specs.Classes as classes;

use c_tree::{Form, Key, Mark};

/// What a token is beside a fault. `Asks` is `?`, `case` or `default`, behind which a colon comes; `Starts` another
/// keyword that begins a statement; `Nothing` is no token.
#[derive(Clone, Copy, Debug, PartialEq, Eq)]
pub enum Class {
    Nothing,
    Include,
    Type,
    Starts,
    Asks,
    Leaves,
    Return,
    Else,
    Name,
    Number,
    OpenRound,
    CloseRound,
    OpenSquare,
    CloseSquare,
    OpenCurly,
    CloseCurly,
    Semicolon,
    Comma,
    Colon,
    Assign,
    Bump,
    Other,
}

/// The class of a keyword.
fn key_class(key: Key) -> Class
    ensures { result ≡ classes.key_class key }
{
    match key {
        Key::Char | Key::Int | Key::Long | Key::Short => Class::Type,
        Key::Signed | Key::Unsigned | Key::Void | Key::Bool => Class::Type,
        Key::If | Key::While | Key::For | Key::Do | Key::Switch => Class::Starts,
        Key::Case | Key::Default => Class::Asks,
        Key::Break | Key::Continue => Class::Leaves,
        Key::Return => Class::Return,
        Key::Else => Class::Else,
        _ => Class::Other,
    }
}

/// The class of a punctuator.
fn mark_class(mark: Mark) -> Class
    ensures { result ≡ classes.mark_class mark }
{
    match mark {
        Mark::LeftParen => Class::OpenRound,
        Mark::RightParen => Class::CloseRound,
        Mark::LeftBracket => Class::OpenSquare,
        Mark::RightBracket => Class::CloseSquare,
        Mark::LeftBrace => Class::OpenCurly,
        Mark::RightBrace => Class::CloseCurly,
        Mark::Semicolon => Class::Semicolon,
        Mark::Comma => Class::Comma,
        Mark::Colon => Class::Colon,
        Mark::Question => Class::Asks,
        Mark::Assign => Class::Assign,
        Mark::PlusPlus | Mark::MinusMinus => Class::Bump,
        _ => Class::Other,
    }
}

/// The class of a token.
pub fn class_of(form: &Form) -> Class
    ensures { result ≡ classes.class_of form.now }
{
    match form {
        Form::Include => Class::Include,
        Form::Key(key) => key_class(*key),
        Form::Name(_) => Class::Name,
        Form::Number { .. } => Class::Number,
        Form::Mark(mark) => mark_class(*mark),
    }
}

/// One more that is open. No more than 1,000 are counted, and no construct is so deep.
pub fn one_more(count: u32) -> u32
    ensures { result ≡ classes.one_more count }
{
    if count < 1000 { count + 1 } else { count }
}

/// One less, or none.
pub fn one_less(count: u32) -> u32
    ensures { result ≡ classes.one_less count }
{
    if count == 0 { 0 } else { count - 1 }
}
