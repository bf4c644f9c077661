//! Values that may stand in braces.

ghost use Rattle.std.specs.Prelude.{◌≡◌, option_map};
ghost use Rattle.c_units.specs.Braces as braces;

use c_locals::{braced, is_mark, split};
use c_tree::{Key, Lexeme, Mark};
use c_words::is_key;

/// What stands before the comma, if there is one, and nothing behind it.
fn only_by<'a>(
    tokens: &'a [Lexeme],
    parts: Option<(&'a [Lexeme], &'a [Lexeme])>,
) -> Option<&'a [Lexeme]>
    ensures { option_map (λ v. v.now) result
        ≡ braces.only_by tokens.now (option_map (λ p. (p.0.now, p.1.now)) parts.entry) }
{
    match parts {
        None => Some(tokens),
        Some((value, [])) => Some(value),
        Some(_) => None,
    }
}

/// The only value in braces.
fn only(value: &[Lexeme]) -> Option<&[Lexeme]>
    ensures { option_map (λ v. v.now) result ≡ braces.only value.now }
{
    match braced(value) {
        None => None,
        Some(tokens) => only_by(tokens, split(Mark::Comma, tokens)),
    }
}

/// Do tokens begin with a `{`?
pub fn begins_list(tokens: &[Lexeme]) -> bool
    ensures { result ≡ braces.begins_list tokens.now }
{
    match tokens {
        [] => false,
        [token, ..] => is_mark(Mark::LeftBrace, &token.form),
    }
}

/// A value, if it is a list itself.
fn list_of(value: Option<&[Lexeme]>) -> Option<&[Lexeme]>
    ensures { option_map (λ v. v.now) result ≡ braces.list_of (option_map (λ v. v.now) value.entry) }
{
    match value {
        None => None,
        Some(tokens) => {
            if begins_list(tokens) {
                Some(tokens)
            } else {
                None
            }
        }
    }
}

/// Is one of the words `char`?
fn has_char(words: &[Lexeme]) -> bool
    ensures { result ≡ braces.has_char words.now }
{
    let mut rest = words;
    while let [token, more @ ..] = rest {
        if is_key(Key::Char, &token.form) {
            return true;
        }
        rest = more;
    }
    false
}

/// Does nothing stand behind the size?
fn is_last(parts: Option<(&[Lexeme], &[Lexeme])>) -> bool
    ensures { result ≡ braces.is_last (option_map (λ p. (p.0.now, p.1.now)) parts.entry) }
{
    match parts {
        Some((_, [])) => true,
        _ => false,
    }
}

/// Is it one size?
fn is_one_size(sizes: &[Lexeme]) -> bool
    ensures { result ≡ braces.is_one_size sizes.now }
{
    match sizes {
        [] => false,
        [token, more @ ..] => {
            is_mark(Mark::LeftBracket, &token.form) && is_last(split(Mark::RightBracket, more))
        }
    }
}

/// What stands for a value of an object with these words and these sizes, if its braces go.
pub fn unbraced<'a>(words: &[Lexeme], sizes: &[Lexeme], value: &'a [Lexeme]) -> Option<&'a [Lexeme]>
    ensures { option_map (λ v. v.now) result ≡ braces.unbraced words.now sizes.now value.now }
{
    match sizes {
        [] => only(value),
        _ => {
            if has_char(words) && is_one_size(sizes) {
                list_of(only(value))
            } else {
                None
            }
        }
    }
}
