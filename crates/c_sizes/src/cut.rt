//! An expression, cut at the operator that binds lowest.

ghost use Rattle.std.specs.Prelude.{◌≡◌, ◌<◌, length, option_map, IfSome};
ghost use Rattle.c_sizes.specs.Cuts as cuts;

use crate::behind::is_one_step;
use crate::operator::{lowest, rank};
use crate::width::Width;
use c_locals::split;
use c_tree::{Form, Key, Lexeme, Mark};

/// The rule for the size of an expression: of a constant, an object or a call; of what stands in parentheses; behind a
/// sign or `~`; behind `!`; behind a type in parentheses; beside `++` or `--`; behind `sizeof`; of a first operand that
/// is set; of a comparison and the like; of a first operand that is shifted; of two operands; of the arms of a
/// condition; of the last of two.
#[derive(Clone, Copy, Debug, PartialEq, Eq)]
pub enum Rule {
    Alone,
    Same,
    Promoted,
    Negated,
    Cast(Width),
    Stepped,
    Measured,
    Assigned,
    Truth,
    Left,
    Larger,
    Choice,
    Last,
}

/// Neither an operator nor a group.
fn uncut<'a>() -> (Rule, &'a [Lexeme], &'a [Lexeme], &'a [Lexeme])
    ensures { (result.0, (result.1.now, (result.2.now, result.3.now))) ≡ cuts.uncut }
{
    (Rule::Alone, &[], &[], &[])
}

/// The rule for an operator of two operands that binds so.
fn by_rank(strength: u8) -> Rule
    ensures { result ≡ cuts.by_rank strength }
{
    if strength == 1 {
        Rule::Alone
    } else if strength == 2 {
        Rule::Last
    } else if strength == 3 {
        Rule::Assigned
    } else if strength == 5 || strength == 6 || strength == 10 || strength == 11 {
        Rule::Truth
    } else if strength == 12 {
        Rule::Left
    } else {
        Rule::Larger
    }
}

/// A condition, and its arms around the `:`.
fn with_arms<'a>(
    condition: &'a [Lexeme],
    arms: &'a [Lexeme],
    found: Option<(Mark, usize)>,
) -> (Rule, &'a [Lexeme], &'a [Lexeme], &'a [Lexeme])
    requires within { IfSome found (λ p. p.1 < length arms.now) }
    ensures { (result.0, (result.1.now, (result.2.now, result.3.now)))
        ≡ cuts.with_arms condition.now arms.now found }
{
    match found {
        Some((Mark::Colon, count)) => {
            let (first, _) = arms.split_at(count);
            let (_, second) = arms.split_at(count + 1);
            (Rule::Choice, condition, first, second)
        }
        _ => uncut(),
    }
}

/// An operator between these.
fn between<'a>(
    mark: Mark,
    first: &'a [Lexeme],
    second: &'a [Lexeme],
) -> (Rule, &'a [Lexeme], &'a [Lexeme], &'a [Lexeme])
    ensures { (result.0, (result.1.now, (result.2.now, result.3.now)))
        ≡ cuts.between mark first.now second.now }
{
    match mark {
        Mark::Question => with_arms(first, second, lowest(second)),
        _ => (by_rank(rank(mark)), first, second, &[]),
    }
}

/// Behind this type in parentheses, or something else.
fn converted(width: Option<Width>, tokens: &[Lexeme]) -> (Rule, &[Lexeme], &[Lexeme], &[Lexeme])
    ensures { (result.0, (result.1.now, (result.2.now, result.3.now)))
        ≡ cuts.converted width tokens.now }
{
    match width {
        None => uncut(),
        Some(width) => (Rule::Cast(width), &[], tokens, &[]),
    }
}

/// In parentheses, before these.
fn group_before<'a>(
    inner: &'a [Lexeme],
    behind: &'a [Lexeme],
) -> (Rule, &'a [Lexeme], &'a [Lexeme], &'a [Lexeme])
    ensures { (result.0, (result.1.now, (result.2.now, result.3.now)))
        ≡ cuts.group_before inner.now behind.now }
{
    match behind {
        [] => (Rule::Same, &[], inner, &[]),
        _ => {
            if is_one_step(behind) {
                (Rule::Stepped, &[], inner, &[])
            } else {
                converted(Width::of_type(inner), behind)
            }
        }
    }
}

fn group<'a>(
    parts: Option<(&'a [Lexeme], &'a [Lexeme])>,
) -> (Rule, &'a [Lexeme], &'a [Lexeme], &'a [Lexeme])
    ensures { (result.0, (result.1.now, (result.2.now, result.3.now)))
        ≡ cuts.group (option_map (λ p. (p.0.now, p.1.now)) parts.entry) }
{
    match parts {
        None => uncut(),
        Some((inner, behind)) => group_before(inner, behind),
    }
}

/// Behind a punctuator that stands first.
fn by_mark(mark: Mark, behind: &[Lexeme]) -> (Rule, &[Lexeme], &[Lexeme], &[Lexeme])
    ensures { (result.0, (result.1.now, (result.2.now, result.3.now)))
        ≡ cuts.by_mark mark behind.now }
{
    match mark {
        Mark::Plus | Mark::Minus | Mark::Tilde => (Rule::Promoted, &[], behind, &[]),
        Mark::Not => (Rule::Negated, &[], behind, &[]),
        Mark::PlusPlus | Mark::MinusMinus => (Rule::Stepped, &[], behind, &[]),
        Mark::LeftParen => group(split(Mark::RightParen, behind)),
        _ => uncut(),
    }
}

/// Without an operator of two operands.
fn single(tokens: &[Lexeme]) -> (Rule, &[Lexeme], &[Lexeme], &[Lexeme])
    ensures { (result.0, (result.1.now, (result.2.now, result.3.now))) ≡ cuts.single tokens.now }
{
    match tokens {
        [] => uncut(),
        [token, more @ ..] => match &token.form {
            Form::Mark(mark) => by_mark(*mark, more),
            Form::Key(Key::Sizeof) => (Rule::Measured, &[], more, &[]),
            _ => uncut(),
        },
    }
}

/// At this operator, if there is one.
fn by_lowest(
    tokens: &[Lexeme],
    found: Option<(Mark, usize)>,
) -> (Rule, &[Lexeme], &[Lexeme], &[Lexeme])
    requires within { IfSome found (λ p. p.1 < length tokens.now) }
    ensures { (result.0, (result.1.now, (result.2.now, result.3.now)))
        ≡ cuts.by_lowest tokens.now found }
{
    match found {
        None => single(tokens),
        Some((mark, count)) => {
            let (first, _) = tokens.split_at(count);
            let (_, second) = tokens.split_at(count + 1);
            between(mark, first, second)
        }
    }
}

/// The rule for an expression, and its operands: only `? :` has three, and there is no first one before a prefix.
pub fn cut(tokens: &[Lexeme]) -> (Rule, &[Lexeme], &[Lexeme], &[Lexeme])
    ensures { (result.0, (result.1.now, (result.2.now, result.3.now))) ≡ cuts.cut tokens.now }
{
    by_lowest(tokens, lowest(tokens))
}
