//! A size in brackets, and the number of values in braces.

ghost use Rattle.std.specs.Prelude.{◌≡◌, ◌≤◌, ◌<◌, ◌+◌, ◌++◌, length, OnOk};
ghost use Rattle.c_sizes.specs.Counts as counts;

use crate::mark::{begins, is_mark, rest};
use base::Items;
use c_library::form_copied;
use c_tree::{Form, Key, Lexeme, Mark};
use std::alloc::{AllocError, Global};

/// May the token stand in a size?
fn is_constant(form: &Form) -> bool
    ensures { result ≡ counts.is_constant form.now }
{
    match form {
        Form::Name(_) => false,
        Form::Key(key) => *key != Key::Sizeof,
        _ => true,
    }
}

/// Is each token up to the first `]` such a one?
pub fn is_size(tokens: &[Lexeme]) -> bool
    ensures { result ≡ counts.is_size tokens.now }
{
    let mut rest = tokens;
    while let [token, more @ ..] = rest {
        if is_mark(Mark::RightBracket, &token.form) {
            return true;
        }
        if !is_constant(&token.form) {
            return false;
        }
        rest = more;
    }
    false
}

/// Adds the tokens up to the first `]`. Want of memory is the only error.
pub fn add_size(alloc: Global, tokens: &[Lexeme], forms: &mut Items<Form>) -> Result<(), AllocError>
    ensures { OnOk result (forms.new ≡ forms.old ++ counts.size tokens.now) }
{
    let mut rest = tokens;
    while let [token, more @ ..] = rest {
        if is_mark(Mark::RightBracket, &token.form) {
            return Ok(());
        }
        forms.push(form_copied(alloc, &token.form)?)?;
        rest = more;
    }
    Ok(())
}

/// The tokens behind the first `]`.
pub fn behind_size(tokens: &[Lexeme]) -> &[Lexeme]
    ensures { result.now ≡ counts.behind_size tokens.now }
{
    let mut rest = tokens;
    while let [token, more @ ..] = rest {
        if is_mark(Mark::RightBracket, &token.form) {
            return more;
        }
        rest = more;
    }
    &[]
}

/// Does it open what a `,` may stand in?
pub fn is_opening(mark: Mark) -> bool
    ensures { result ≡ counts.is_opening mark }
{
    match mark {
        Mark::LeftParen | Mark::LeftBracket | Mark::LeftBrace | Mark::Question => true,
        _ => false,
    }
}

/// Does it close that?
pub fn is_closing(mark: Mark) -> bool
    ensures { result ≡ counts.is_closing mark }
{
    match mark {
        Mark::RightParen | Mark::RightBracket | Mark::RightBrace | Mark::Colon => true,
        _ => false,
    }
}

/// How many of these are open behind a token.
pub fn depth_past(depth: usize, form: &Form) -> usize
    requires few { depth < 18446744073709551615 }
    ensures value { result ≡ counts.depth_past depth form.now }
    ensures few { result ≤ depth + 1 }
{
    match form {
        Form::Mark(mark) => {
            if is_opening(*mark) {
                depth + 1
            } else if is_closing(*mark) {
                depth.saturating_sub(1)
            } else {
                depth
            }
        }
        _ => depth,
    }
}

/// Does a token, before these, part two values of a list?
fn parts(depth: usize, form: &Form, behind: &[Lexeme]) -> bool
    ensures { result ≡ counts.parts depth form.now behind.now }
{
    depth == 0 && is_mark(Mark::Comma, form) && !begins(Mark::RightBrace, behind)
}

/// How many tokens do, up to the brace that closes the list.
fn parted(tokens: &[Lexeme]) -> usize
    ensures value { result ≡ counts.parted 0 tokens.now }
    ensures few { result ≤ length tokens.now }
{
    let count = tokens.len();
    let mut depth: usize = 0;
    let mut number: usize = 0;
    let mut rest = tokens;
    while let [token, more @ ..] = rest {
        if depth == 0 && is_mark(Mark::RightBrace, &token.form) {
            return number;
        }
        if parts(depth, &token.form, more) {
            number += 1;
        }
        depth = depth_past(depth, &token.form);
        rest = more;
    }
    number
}

/// How many values, or rows, `= { .. }` has, where that stands first; else 0.
pub fn values(tokens: &[Lexeme]) -> usize
    ensures { result ≡ counts.values tokens.now }
{
    let list = rest(tokens);
    if begins(Mark::Assign, tokens) && begins(Mark::LeftBrace, list) {
        1 + parted(rest(list))
    } else {
        0
    }
}
