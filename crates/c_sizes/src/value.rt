//! What an expression comes to whose operands are known.

ghost use Rattle.std.specs.Prelude.{◌≡◌, option_map};
ghost use Rattle.c_sizes.specs.Scopes as scopes;
ghost use Rattle.c_sizes.specs.Values as values;

use crate::behind::is_one_step;
use crate::cut::{Rule, cut};
use crate::index::{are_known, indexed};
use crate::known::Known;
use crate::mark::{begins, is_empty, rest};
use crate::outcome::{
    Outcome, chosen, if_known, if_larger, if_promoted, last, measured, number, object, place, size,
};
use crate::shape::Shape;
use crate::width::Width;
use c_locals::split;
use c_tree::{Form, Lexeme, Mark};

// OBJECTS

/// An object for whose size these tokens stand.
fn of_forms(forms: &[Form]) -> Option<Outcome>
    ensures { result ≡ values.of_forms forms.now }
{
    match forms {
        [] => None,
        [form] => object(Width::of_constant(form)),
        _ => Some(Outcome::Array),
    }
}

/// The whole of an object: an array has rows or elements.
fn of_whole(whole: &[Form], row: &[Form]) -> Option<Outcome>
    ensures { result ≡ values.of_whole whole.now row.now }
{
    match row {
        [] => of_forms(whole),
        _ => Some(Outcome::Array),
    }
}

/// An object with so many indexes.
fn of_shape(count: usize, shape: &Shape) -> Option<Outcome>
    ensures { result ≡ values.of_shape count shape.now }
{
    if count == 0 {
        of_whole(shape.whole.as_slice(), shape.row.as_slice())
    } else if count == 1 {
        of_forms(shape.row.as_slice())
    } else {
        of_forms(shape.element.as_slice())
    }
}

/// A name with so many indexes.
fn of_found(known: &Known, name: &[u8], count: usize) -> Option<Outcome>
    ensures { result ≡ values.of_found count (scopes.find name.now known.now) }
{
    match known.find(name) {
        None => None,
        Some(shape) => of_shape(count, shape),
    }
}

/// A name with indexes, behind which nothing stands, or `++` or `--`.
fn of_name(known: &Known, name: &[u8], count: usize, behind: &[Lexeme]) -> Option<Outcome>
    ensures { result ≡ values.of_name known.now name.now (count, behind.now) }
{
    match behind {
        [] => of_found(known, name, count),
        _ => {
            if is_one_step(behind) {
                number(place(of_found(known, name, count)))
            } else {
                None
            }
        }
    }
}

// CALLS

/// What a function gives whose result has so many bytes.
fn of_result(bytes: Option<u8>) -> Option<Outcome>
    ensures { result ≡ values.of_result bytes }
{
    match bytes {
        None => None,
        Some(count) => {
            if count == 0 {
                Some(Outcome::Void)
            } else {
                number(Width::of_bytes(u64::from(count)))
            }
        }
    }
}

/// What a call of a name gives.
fn of_called(known: &Known, name: &[u8]) -> Option<Outcome>
    ensures { result ≡ values.of_called (scopes.find name.now known.now) }
{
    match known.find(name) {
        None => None,
        Some(shape) => of_result(shape.result),
    }
}

/// What a call of a name gives before these arguments, and what stands behind their parentheses.
fn called(known: &Known, name: &[u8], parts: Option<(&[Lexeme], &[Lexeme])>) -> Option<Outcome>
    ensures { result ≡ values.called known.now name.now
        (option_map (λ p. (p.0.now, p.1.now)) parts.entry) }
{
    match parts {
        None => None,
        Some((arguments, behind)) => {
            if are_known(known, arguments) && is_empty(behind) {
                of_called(known, name)
            } else {
                None
            }
        }
    }
}

/// A name and what stands behind it.
fn named(known: &Known, name: &[u8], tokens: &[Lexeme]) -> Option<Outcome>
    ensures { result ≡ values.named known.now name.now tokens.now }
{
    if begins(Mark::LeftParen, tokens) {
        called(known, name, split(Mark::RightParen, rest(tokens)))
    } else {
        let (count, behind) = indexed(known, tokens);
        of_name(known, name, count, behind)
    }
}

/// A constant alone, an object or a call.
fn atom(known: &Known, tokens: &[Lexeme]) -> Option<Outcome>
    ensures { result ≡ values.atom known.now tokens.now }
{
    match tokens {
        [] => None,
        [token, more @ ..] => match &token.form {
            Form::Number { value: _, kind } => match more {
                [] => Some(Outcome::Number(Width::of_kind(*kind))),
                _ => None,
            },
            Form::Name(name) => named(known, name.as_slice(), more),
            _ => None,
        },
    }
}

// EXPRESSIONS

/// By the rule, of what the operands come to.
fn joined(
    rule: Rule,
    first: Option<Outcome>,
    second: Option<Outcome>,
    third: Option<Outcome>,
) -> Option<Outcome>
    ensures { result ≡ values.joined rule first second third }
{
    let a = size(first);
    let b = size(second);
    match rule {
        Rule::Alone => None,
        Rule::Same => second,
        Rule::Promoted => number(if_promoted(b)),
        Rule::Negated => number(if_known(b, Some(Width::Four))),
        Rule::Cast(width) => number(if_known(b, Some(width))),
        Rule::Stepped => number(place(second)),
        Rule::Measured => measured(second),
        Rule::Assigned => number(if_known(b, place(first))),
        Rule::Truth => number(if_known(a, if_known(b, Some(Width::Four)))),
        Rule::Left => number(if_known(b, if_promoted(a))),
        Rule::Larger => number(if_larger(a, b)),
        Rule::Choice => chosen(a, second, third),
        Rule::Last => last(first, second),
    }
}

/// Is it no operator and no group?
fn is_alone(rule: Rule) -> bool
    ensures { result ≡ values.is_alone rule }
{
    match rule {
        Rule::Alone => true,
        _ => false,
    }
}

/// What an expression comes to with so many operators and groups one in another at most.
#[tactic(auto, using(crate::proofs::ValueFacts::at_zero, crate::proofs::ValueFacts::joined_is))]
pub fn value(known: &Known, levels: u8, tokens: &[Lexeme]) -> Option<Outcome>
    ensures { result ≡ values.value levels known.now tokens.now }
{
    if levels == 0 {
        return None;
    }
    let (rule, first, second, third) = cut(tokens);
    if is_alone(rule) {
        return atom(known, tokens);
    }
    joined(
        rule,
        value(known, levels - 1, first),
        value(known, levels - 1, second),
        value(known, levels - 1, third),
    )
}
