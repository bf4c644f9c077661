//! An operand of `sizeof` that is an object, as an array, and what stands for both.

ghost use Rattle.std.specs.Prelude.{◌≡◌, option_map};
ghost use Rattle.c_sizes.specs.Objects as objects;

use crate::behind::goes_on;
use crate::index::indexed;
use crate::known::Known;
use crate::shape::Shape;
use c_locals::split;
use c_tree::{Form, Lexeme, Mark};

/// Does an operand end before these tokens?
fn is_end(tokens: &[Lexeme]) -> bool
    ensures { result ≡ objects.is_end tokens.now }
{
    match tokens {
        [] => true,
        [token, ..] => !goes_on(&token.form),
    }
}

/// What stands for `sizeof` of something with so many indexes.
fn with_indexes(count: usize, shape: &Shape) -> &[Form]
    ensures { result.now ≡ objects.with_indexes count shape.now }
{
    if count == 0 {
        shape.whole.as_slice()
    } else if count == 1 {
        shape.row.as_slice()
    } else {
        shape.element.as_slice()
    }
}

/// What stands for `sizeof` of a name with so many indexes; nothing where it stays.
fn size_of<'a>(known: &'a Known, name: &[u8], count: usize) -> &'a [Form]
    ensures { result.now ≡ objects.size_of known.now name.now count }
{
    match known.find(name) {
        None => &[],
        Some(shape) => with_indexes(count, shape),
    }
}

/// What stands for `sizeof` of a name with indexes, and the tokens behind it.
fn bare<'k, 'a>(
    known: &'k Known,
    name: &[u8],
    count: usize,
    behind: &'a [Lexeme],
) -> (&'k [Form], &'a [Lexeme])
    ensures { (result.0.now, result.1.now) ≡ objects.bare known.now name.now (count, behind.now) }
{
    if is_end(behind) {
        (size_of(known, name, count), behind)
    } else {
        (&[], &[])
    }
}

/// That of a name with indexes that is all that stands in parentheses.
fn inner_name<'a>(known: &'a Known, name: &[u8], count: usize, behind: &[Lexeme]) -> &'a [Form]
    ensures { result.now ≡ objects.inner_name known.now name.now (count, behind.now) }
{
    match behind {
        [] => size_of(known, name, count),
        _ => &[],
    }
}

fn inner<'a>(known: &'a Known, tokens: &[Lexeme]) -> &'a [Form]
    ensures { result.now ≡ objects.inner known.now tokens.now }
{
    match tokens {
        [] => &[],
        [token, more @ ..] => match &token.form {
            Form::Name(name) => {
                let (count, behind) = indexed(known, more);
                inner_name(known, name.as_slice(), count, behind)
            }
            _ => &[],
        },
    }
}

/// That of what stands in parentheses, before others.
fn grouped<'k, 'a>(
    known: &'k Known,
    parts: Option<(&'a [Lexeme], &'a [Lexeme])>,
) -> (&'k [Form], &'a [Lexeme])
    ensures { (result.0.now, result.1.now)
        ≡ objects.grouped known.now (option_map (λ p. (p.0.now, p.1.now)) parts.entry) }
{
    match parts {
        None => (&[], &[]),
        Some((group, behind)) => {
            if is_end(behind) {
                (inner(known, group), behind)
            } else {
                (&[], &[])
            }
        }
    }
}

/// That of an object, or one in parentheses, that these tokens begin with.
pub fn object<'k, 'a>(known: &'k Known, tokens: &'a [Lexeme]) -> (&'k [Form], &'a [Lexeme])
    ensures { (result.0.now, result.1.now) ≡ objects.object known.now tokens.now }
{
    match tokens {
        [] => (&[], &[]),
        [token, more @ ..] => match &token.form {
            Form::Name(name) => {
                let (count, behind) = indexed(known, more);
                bare(known, name.as_slice(), count, behind)
            }
            Form::Mark(mark) => {
                if *mark == Mark::LeftParen {
                    grouped(known, split(Mark::RightParen, more))
                } else {
                    (&[], &[])
                }
            }
            _ => (&[], &[]),
        },
    }
}
