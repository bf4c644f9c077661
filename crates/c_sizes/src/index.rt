//! The indexes behind a name.

ghost use Rattle.std.specs.Prelude.{◌≡◌, option_map};
ghost use Rattle.c_sizes.specs.Indexes as indexes;

use crate::known::Known;
use crate::mark::is_mark;
use c_locals::split;
use c_tree::{Form, Lexeme, Mark};

/// Is a token in scope, if it is a name?
fn is_known(known: &Known, form: &Form) -> bool
    ensures { result ≡ indexes.is_known known.now form.now }
{
    match form {
        Form::Name(name) => known.find(name.as_slice()).is_some(),
        _ => true,
    }
}

/// Is each of these?
pub fn are_known(known: &Known, tokens: &[Lexeme]) -> bool
    ensures { result ≡ indexes.are_known known.now tokens.now }
{
    let mut rest = tokens;
    while let [token, more @ ..] = rest {
        if !is_known(known, &token.form) {
            return false;
        }
        rest = more;
    }
    true
}

/// Are they an index?
fn is_index(known: &Known, tokens: &[Lexeme]) -> bool
    ensures { result ≡ indexes.is_index known.now tokens.now }
{
    match tokens {
        [] => false,
        _ => are_known(known, tokens),
    }
}

/// The tokens behind the brackets of an index.
fn behind_by<'a>(known: &Known, parts: Option<(&'a [Lexeme], &'a [Lexeme])>) -> Option<&'a [Lexeme]>
    ensures { option_map (λ ts. ts.now) result
        ≡ indexes.behind_by known.now (option_map (λ p. (p.0.now, p.1.now)) parts.entry) }
{
    match parts {
        None => None,
        Some((index, behind)) => {
            if is_index(known, index) {
                Some(behind)
            } else {
                None
            }
        }
    }
}

/// The tokens behind an index in brackets that stands first.
fn behind_index<'a>(known: &Known, tokens: &'a [Lexeme]) -> Option<&'a [Lexeme]>
    ensures { option_map (λ ts. ts.now) result ≡ indexes.behind_index known.now tokens.now }
{
    match tokens {
        [] => None,
        [token, more @ ..] => {
            if is_mark(Mark::LeftBracket, &token.form) {
                behind_by(known, split(Mark::RightBracket, more))
            } else {
                None
            }
        }
    }
}

fn with_second<'a>(tokens: &'a [Lexeme], behind: Option<&'a [Lexeme]>) -> (usize, &'a [Lexeme])
    ensures { (result.0, result.1.now)
        ≡ indexes.with_second tokens.now (option_map (λ ts. ts.now) behind.entry) }
{
    match behind {
        None => (1, tokens),
        Some(behind) => (2, behind),
    }
}

fn with_first<'a>(
    known: &Known,
    tokens: &'a [Lexeme],
    behind: Option<&'a [Lexeme]>,
) -> (usize, &'a [Lexeme])
    ensures { (result.0, result.1.now)
        ≡ indexes.with_first known.now tokens.now (option_map (λ ts. ts.now) behind.entry) }
{
    match behind {
        None => (0, tokens),
        Some(behind) => with_second(behind, behind_index(known, behind)),
    }
}

/// The indexes that stand first, of two at most, and the tokens behind them.
pub fn indexed<'a>(known: &Known, tokens: &'a [Lexeme]) -> (usize, &'a [Lexeme])
    ensures { (result.0, result.1.now) ≡ indexes.indexed known.now tokens.now }
{
    with_first(known, tokens, behind_index(known, tokens))
}
