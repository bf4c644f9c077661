//! The types that keywords name.

ghost use Rattle.std.specs.Prelude.{◌≡◌};
ghost use Rattle.c_words.specs.Types as types;

use crate::keys::{count, few, none, one};
use c_tree::{Key, Kind, Lexeme};

/// A type that keywords name.
#[derive(Clone, Copy, Debug, PartialEq, Eq)]
pub enum Named {
    Void,
    Bool,
    Number(Kind),
}

fn no_number(words: &[Lexeme]) -> bool
    ensures { result ≡ types.no_number words.now }
{
    none(Key::Char, words)
        && none(Key::Short, words)
        && none(Key::Int, words)
        && none(Key::Long, words)
        && none(Key::Signed, words)
        && none(Key::Unsigned, words)
}

fn is_void(words: &[Lexeme]) -> bool
    ensures { result ≡ types.is_void words.now }
{
    one(Key::Void, words) && none(Key::Bool, words) && no_number(words)
}

fn is_bool(words: &[Lexeme]) -> bool
    ensures { result ≡ types.is_bool words.now }
{
    one(Key::Bool, words) && none(Key::Void, words) && no_number(words)
}

fn may_be_number(words: &[Lexeme]) -> bool
    ensures { result ≡ types.may_be_number words.now }
{
    none(Key::Void, words)
        && none(Key::Bool, words)
        && few(Key::Signed, words)
        && few(Key::Unsigned, words)
        && (none(Key::Signed, words) || none(Key::Unsigned, words))
}

fn is_char(words: &[Lexeme]) -> bool
    ensures { result ≡ types.is_char words.now }
{
    one(Key::Char, words)
        && none(Key::Short, words)
        && none(Key::Int, words)
        && none(Key::Long, words)
}

fn is_short(words: &[Lexeme]) -> bool
    ensures { result ≡ types.is_short words.now }
{
    one(Key::Short, words)
        && none(Key::Char, words)
        && none(Key::Long, words)
        && few(Key::Int, words)
}

fn is_long(words: &[Lexeme]) -> bool
    ensures { result ≡ types.is_long words.now }
{
    (one(Key::Long, words) || count(Key::Long, words) == 2)
        && none(Key::Char, words)
        && none(Key::Short, words)
        && few(Key::Int, words)
}

fn is_int(words: &[Lexeme]) -> bool
    ensures { result ≡ types.is_int words.now }
{
    none(Key::Char, words)
        && none(Key::Short, words)
        && none(Key::Long, words)
        && few(Key::Int, words)
        && (one(Key::Int, words) || one(Key::Signed, words) || one(Key::Unsigned, words))
}

/// The type without a sign.
fn sized(words: &[Lexeme]) -> Option<Kind>
    ensures { result ≡ types.sized words.now }
{
    if is_char(words) {
        Some(Kind::Char)
    } else if is_short(words) {
        Some(Kind::Short)
    } else if is_int(words) {
        Some(Kind::Int)
    } else if is_long(words) {
        Some(Kind::Long)
    } else {
        None
    }
}

/// The type of the same size without negative numbers.
fn unsigned(kind: Kind) -> Kind
    ensures { result ≡ types.unsigned kind }
{
    match kind {
        Kind::Char => Kind::UChar,
        Kind::Short => Kind::UShort,
        Kind::Int => Kind::UInt,
        Kind::Long => Kind::ULong,
        other => other,
    }
}

fn with_sign(is_unsigned: bool, kind: Option<Kind>) -> Option<Named>
    ensures { result ≡ types.with_sign is_unsigned kind }
{
    match kind {
        None => None,
        Some(kind) => {
            if is_unsigned {
                Some(Named::Number(unsigned(kind)))
            } else {
                Some(Named::Number(kind))
            }
        }
    }
}

/// The type that the words name, whatever their order.
pub fn type_of(words: &[Lexeme]) -> Option<Named>
    ensures { result ≡ types.type_of words.now }
{
    if is_void(words) {
        Some(Named::Void)
    } else if is_bool(words) {
        Some(Named::Bool)
    } else if may_be_number(words) {
        with_sign(one(Key::Unsigned, words), sized(words))
    } else {
        None
    }
}

/// The keywords by which the grammar spells it.
pub fn spelling(named: Named) -> &'static [Key]
    ensures { result.now ≡ types.spelling named }
{
    match named {
        Named::Void => &[Key::Void],
        Named::Bool => &[Key::Bool],
        Named::Number(Kind::Char) => &[Key::Char],
        Named::Number(Kind::UChar) => &[Key::Unsigned, Key::Char],
        Named::Number(Kind::Short) => &[Key::Short],
        Named::Number(Kind::UShort) => &[Key::Unsigned, Key::Short],
        Named::Number(Kind::Int) => &[Key::Int],
        Named::Number(Kind::UInt) => &[Key::Unsigned],
        Named::Number(Kind::Long) => &[Key::Long],
        Named::Number(Kind::ULong) => &[Key::Unsigned, Key::Long],
        Named::Number(Kind::Bool) => &[Key::Bool],
    }
}
