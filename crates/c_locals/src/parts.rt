//! The parts of a declarator, and its sizes.

ghost use Rattle.std.specs.Prelude.{◌≡◌, [], ◌∷◌, ◌++◌, option_map};
ghost use Rattle.c_tree.specs.Limits.{most_tokens};
ghost use Rattle.c_library.specs.inside.Gives.{Gives};
ghost use Rattle.c_library.specs.inside.Puts.{put_all};
ghost use Rattle.c_locals.specs.Declarators as declarators;
ghost use Rattle.c_locals.specs.Elements as elements;

use crate::brackets::{is_mark, split};
use crate::put::{put_mark, put_number, put_tokens};
use c_library::{LibraryFault, Output};
use c_tree::{Lexeme, Mark};
use std::alloc::Global;

/// What stands before the brace, if it is not nothing and if nothing stands behind.
fn whole<'a>(parts: Option<(&'a [Lexeme], &'a [Lexeme])>) -> Option<&'a [Lexeme]>
    ensures { option_map (λ v. v.now) result
        ≡ declarators.whole (option_map (λ p. (p.0.now, p.1.now)) parts.entry) }
{
    match parts {
        Some((values, [])) => {
            if values.is_empty() {
                None
            } else {
                Some(values)
            }
        }
        _ => None,
    }
}

/// What stands in the braces, if these are all.
pub fn braced(tokens: &[Lexeme]) -> Option<&[Lexeme]>
    ensures { option_map (λ v. v.now) result ≡ declarators.braced tokens.now }
{
    match tokens {
        [] => None,
        [token, more @ ..] => {
            if is_mark(Mark::LeftBrace, &token.form) {
                whole(split(Mark::RightBrace, more))
            } else {
                None
            }
        }
    }
}

/// What stands in the braces behind a `=`.
pub fn list_of(tokens: &[Lexeme]) -> Option<&[Lexeme]>
    ensures { option_map (λ v. v.now) result ≡ declarators.list_of tokens.now }
{
    match tokens {
        [] => None,
        [token, more @ ..] => {
            if is_mark(Mark::Assign, &token.form) {
                braced(more)
            } else {
                None
            }
        }
    }
}

/// What stands in the brackets, and what behind them.
pub fn sized(tokens: &[Lexeme]) -> Option<(&[Lexeme], &[Lexeme])>
    ensures { option_map (λ p. (p.0.now, p.1.now)) result ≡ declarators.sized tokens.now }
{
    match tokens {
        [] => None,
        [token, more @ ..] => {
            if is_mark(Mark::LeftBracket, &token.form) {
                split(Mark::RightBracket, more)
            } else {
                None
            }
        }
    }
}

/// Puts a size, or the number of values where it is left out.
fn put_size(
    alloc: Global,
    at: u32,
    size: &[Lexeme],
    n: usize,
    out: &mut Output,
) -> Result<(), LibraryFault>
    ensures { Gives (put_all most_tokens (declarators.size_of at size.now n) out.old) result out.new }
{
    if size.is_empty() {
        put_number(at, n, out)
    } else {
        put_tokens(alloc, size, out)
    }
}

/// Puts a size in brackets, or the number of values where it is left out.
#[tactic(auto, using(crate::proofs::PutBehind::both))]
pub fn put_bracketed(
    alloc: Global,
    at: u32,
    size: &[Lexeme],
    n: usize,
    out: &mut Output,
) -> Result<(), LibraryFault>
    ensures { Gives (put_all most_tokens (elements.bracketed at (declarators.size_of at size.now n)) out.old)
        result out.new }
{
    put_mark(at, Mark::LeftBracket, out)?;
    put_size(alloc, at, size, n, out)?;
    put_mark(at, Mark::RightBracket, out)
}

/// Puts tokens in brackets.
#[tactic(auto, using(crate::proofs::PutBehind::both))]
pub fn put_width(
    alloc: Global,
    at: u32,
    width: &[Lexeme],
    out: &mut Output,
) -> Result<(), LibraryFault>
    ensures { Gives (put_all most_tokens (elements.bracketed at width.now) out.old) result out.new }
{
    put_mark(at, Mark::LeftBracket, out)?;
    put_tokens(alloc, width, out)?;
    put_mark(at, Mark::RightBracket, out)
}
