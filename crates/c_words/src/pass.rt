//! What a unit comes to behind the keywords of its declarations.

ghost use Rattle.std.specs.Prelude.{◌≡◌, true, Ok, IfOk, IfErr, IsTrue};
ghost use Rattle.c_tree.specs.Limits.{most_tokens};
ghost use Rattle.c_library.specs.Within.{within};
ghost use Rattle.c_library.specs.inside.Gives.{Refuses};
ghost use Rattle.c_words.specs.Guards as guards;
ghost use Rattle.c_words.specs.Ordered.{ordered};
ghost use Rattle.c_words.specs.Unworded as unworded;
ghost use Rattle.c_words.specs.Worded as worded;

use crate::guard::{guarded_from_start, has_const};
use crate::keys::{is_type_word, is_word};
use crate::ordered::{is_mark, may_follow, ordered};
use crate::pointers::without_pointers;
use base::Items;
use c_library::LibraryFault;
use c_tree::{Form, Lexeme, MOST_TOKENS, Mark};
use std::alloc::{AllocError, Global};

/// May the next token stand behind a word of a type as it is?
fn may_be_next(first: &Form, second: &Form) -> bool
    ensures { result ≡ unworded.may_be_next first.now second.now }
{
    !is_mark(Mark::Star, second) && (!is_word(second) || may_follow(first, second))
}

/// And these tokens?
fn may_be_behind(first: &Form, behind: &[Lexeme]) -> bool
    ensures { result ≡ unworded.may_be_behind first.now behind.now }
{
    match behind {
        [] => true,
        [token, ..] => may_be_next(first, &token.form),
    }
}

/// Is the token, before these, no keyword of declarations, or one of a type that stays as it is?
fn is_unchanged(form: &Form, behind: &[Lexeme]) -> bool
    ensures { result ≡ unworded.is_unchanged form.now behind.now }
{
    !is_word(form) || (is_type_word(form) && may_be_behind(form, behind))
}

/// Are all keywords of declarations in the order of the grammar, with no other among them, and is no parameter a
/// pointer?
pub fn has_no_words(tokens: &[Lexeme]) -> bool
    ensures { result ≡ unworded.has_no_words tokens.now }
{
    let mut rest = tokens;
    while let [token, more @ ..] = rest {
        if !is_unchanged(&token.form, more) {
            return false;
        }
        rest = more;
    }
    true
}

/// As many tokens as there may be, or the first one that is too many.
fn limited(tokens: Vec<Lexeme>) -> Result<Vec<Lexeme>, LibraryFault>
    ensures ok { IfOk result (λ out. within most_tokens tokens.items ≡ Ok out.items) }
    ensures err { IfErr result (Refuses (within most_tokens tokens.items)) }
{
    if tokens.len() <= MOST_TOKENS {
        return Ok(tokens);
    }
    Err(LibraryFault::TooManyTokens(tokens[MOST_TOKENS].offset))
}

/// The tokens in the order of the grammar, guarded where an object is const. Want of memory is the only error.
fn guarded(alloc: Global, tokens: &[Lexeme]) -> Result<Items<Lexeme>, AllocError>
    ensures ok { IfOk result (λ out. out ≡ ordered (guards.guarded tokens.now)) }
{
    if has_const(tokens) {
        let guarded = guarded_from_start(alloc, tokens)?;
        ordered(alloc, guarded.as_slice())
    } else {
        ordered(alloc, tokens)
    }
}

/// The tokens behind all passes. Want of memory is the only error.
fn reworded(alloc: Global, tokens: &[Lexeme]) -> Result<Vec<Lexeme>, AllocError>
    ensures ok { IfOk result (λ out. out.items ≡ worded.worded tokens.now) }
{
    let ordered = guarded(alloc, tokens)?;
    let out = without_pointers(alloc, ordered.as_slice())?;
    Ok(out.into_vec())
}

/// The tokens of a unit with the keywords of its declarations in the order of the grammar, or the first one that is
/// too many.
///
/// A unit that has them so is given back as it is.
pub fn worded(alloc: Global, tokens: Vec<Lexeme>) -> Result<Vec<Lexeme>, LibraryFault>
    ensures ok { IfOk result (λ out. within most_tokens (worded.worded tokens.items) ≡ Ok out.items) }
    ensures err { IfErr result (Refuses (within most_tokens (worded.worded tokens.items))) }
{
    if tokens.len() <= MOST_TOKENS && has_no_words(&tokens) {
        return Ok(tokens);
    }
    limited(reworded(alloc, &tokens)?)
}
