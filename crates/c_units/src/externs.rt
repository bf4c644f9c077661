//! Objects that a block declares `extern`.

ghost use Rattle.std.specs.Prelude.{◌≡◌, ◌∷◌, option_map, IfOk};
ghost use Rattle.c_locals.specs.Brackets as brackets;
ghost use Rattle.c_units.specs.Externs as externs;

use crate::completed::is_any;
use crate::objects::{behind_words, is_object, tokens_copied, words};
use crate::same::same_form;
use base::Items;
use c_library::token_copied;
use c_locals::{first_piece, is_mark, is_word, split};
use c_tree::{Form, Lexeme, Mark};
use std::alloc::{AllocError, Global};

/// Do tokens begin with this name?
fn begins_so(name: &Form, tokens: &[Lexeme]) -> bool
    ensures { result ≡ externs.begins_so name.now tokens.now }
{
    match tokens {
        [] => false,
        [token, ..] => same_form(name, &token.form),
    }
}

/// Is the name declared in tokens?
fn is_declared(name: &Form, tokens: &[Lexeme]) -> bool
    ensures { result ≡ externs.is_declared name.now tokens.now }
{
    let mut rest = tokens;
    while let [token, more @ ..] = rest {
        if (is_word(&token.form) || is_mark(Mark::Comma, &token.form)) && begins_so(name, more) {
            return true;
        }
        rest = more;
    }
    false
}

/// Is it the declarator of an object without a value, of which no declaration in these tokens has the name?
fn is_free(before: &[Lexeme], piece: &[Lexeme]) -> bool
    ensures { result ≡ externs.is_free before.now piece.now }
{
    match piece {
        [] => false,
        [name, behind @ ..] => {
            is_object(piece)
                && split(Mark::Assign, behind).is_none()
                && !is_declared(&name.form, before)
        }
    }
}

/// Is each piece of these tokens?
fn are_free(before: &[Lexeme], tokens: &[Lexeme]) -> bool
    ensures { result ≡ externs.are_free before.now (brackets.pieces tokens.now) }
{
    let mut rest = Some(tokens);
    while let Some(tokens) = rest {
        let (piece, further) = first_piece(tokens);
        if !is_free(before, piece) {
            return false;
        }
        rest = further;
    }
    true
}

/// Are tokens the words of a type and such declarators? Want of memory is the only error, here and below.
fn are_objects(alloc: Global, before: &[Lexeme], tokens: &[Lexeme]) -> Result<bool, AllocError>
    ensures { IfOk result (λ b. b ≡ externs.are_objects before.now tokens.now) }
{
    let words = words(alloc, true, tokens)?;
    Ok(is_any(words.as_slice()) && are_free(before, behind_words(true, tokens)))
}

/// An `extern`, and tokens behind it.
fn with_extern(
    alloc: Global,
    token: &Lexeme,
    tokens: &[Lexeme],
) -> Result<Items<Lexeme>, AllocError>
    ensures { IfOk result (λ out. out ≡ token.now ∷ tokens.now) }
{
    let mut out = Items::new(alloc);
    out.push(token_copied(alloc, token)?)?;
    out.append(tokens_copied(alloc, tokens)?)?;
    Ok(out)
}

/// The declaration of an `extern` and the tokens up to its `;`.
fn external_by(
    alloc: Global,
    token: &Lexeme,
    before: &[Lexeme],
    parts: Option<(&[Lexeme], &[Lexeme])>,
) -> Result<Option<Items<Lexeme>>, AllocError>
    ensures { IfOk result (λ o. o
        ≡ externs.external_by token.now before.now (option_map (λ p. (p.0.now, p.1.now)) parts.entry)) }
{
    match parts {
        None => Ok(None),
        Some((body, _)) => {
            if are_objects(alloc, before, body)? {
                Ok(Some(with_extern(alloc, token, body)?))
            } else {
                Ok(None)
            }
        }
    }
}

/// The declaration of objects that an `extern` and the tokens behind it begin with, if none of these has its name in
/// the tokens of the item before.
pub fn external(
    alloc: Global,
    token: &Lexeme,
    before: &[Lexeme],
    behind: &[Lexeme],
) -> Result<Option<Items<Lexeme>>, AllocError>
    ensures { IfOk result (λ o. o ≡ externs.external token.now before.now behind.now) }
{
    external_by(alloc, token, before, split(Mark::Semicolon, behind))
}
