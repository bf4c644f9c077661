//! What an expression comes to, as far as its size is told by it.

ghost use Rattle.std.specs.Prelude.{◌≡◌};
ghost use Rattle.c_sizes.specs.Outcomes as outcomes;

use crate::width::Width;

/// What an expression comes to: nothing, as a call of a void function; a value or an object of this size; an array.
#[derive(Clone, Copy, Debug, PartialEq, Eq)]
pub enum Outcome {
    Void,
    Number(Width),
    Object(Width),
    Array,
}

/// A value of this size, if it is known.
pub fn number(width: Option<Width>) -> Option<Outcome>
    ensures { result ≡ outcomes.number width }
{
    match width {
        None => None,
        Some(width) => Some(Outcome::Number(width)),
    }
}

/// An object of this size, if it is known.
pub fn object(width: Option<Width>) -> Option<Outcome>
    ensures { result ≡ outcomes.object width }
{
    match width {
        None => None,
        Some(width) => Some(Outcome::Object(width)),
    }
}

/// The size of a value or an object.
pub fn size(outcome: Option<Outcome>) -> Option<Width>
    ensures { result ≡ outcomes.size outcome }
{
    match outcome {
        Some(Outcome::Number(width)) => Some(width),
        Some(Outcome::Object(width)) => Some(width),
        _ => None,
    }
}

/// The size of what may be set.
pub fn place(outcome: Option<Outcome>) -> Option<Width>
    ensures { result ≡ outcomes.place outcome }
{
    match outcome {
        Some(Outcome::Object(width)) => Some(width),
        _ => None,
    }
}

/// This, where an operand is known.
pub fn if_known(operand: Option<Width>, size: Option<Width>) -> Option<Width>
    ensures { result ≡ outcomes.if_known operand size }
{
    match operand {
        None => None,
        Some(_) => size,
    }
}

/// Promoted, if it is known.
pub fn if_promoted(operand: Option<Width>) -> Option<Width>
    ensures { result ≡ outcomes.if_promoted operand }
{
    match operand {
        None => None,
        Some(width) => Some(width.promoted()),
    }
}

/// Behind the usual arithmetic conversions of both, if they are known.
pub fn if_larger(first: Option<Width>, second: Option<Width>) -> Option<Width>
    ensures { result ≡ outcomes.if_larger first second }
{
    match (first, second) {
        (Some(a), Some(b)) => Some(a.larger(b)),
        _ => None,
    }
}

/// `sizeof` of it.
pub fn measured(outcome: Option<Outcome>) -> Option<Outcome>
    ensures { result ≡ outcomes.measured outcome }
{
    match outcome {
        None => None,
        Some(Outcome::Void) => None,
        Some(_) => Some(Outcome::Number(Width::Eight)),
    }
}

/// One of both arms.
fn either(first: Option<Outcome>, second: Option<Outcome>) -> Option<Outcome>
    ensures { result ≡ outcomes.either first second }
{
    match (first, second) {
        (Some(Outcome::Void), Some(Outcome::Void)) => Some(Outcome::Void),
        _ => number(if_larger(size(first), size(second))),
    }
}

/// This arm or that, where the condition has a value.
pub fn chosen(
    condition: Option<Width>,
    first: Option<Outcome>,
    second: Option<Outcome>,
) -> Option<Outcome>
    ensures { result ≡ outcomes.chosen condition first second }
{
    match condition {
        None => None,
        Some(_) => either(first, second),
    }
}

/// What it gives, which is no object.
fn given(outcome: Option<Outcome>) -> Option<Outcome>
    ensures { result ≡ outcomes.given outcome }
{
    match outcome {
        Some(Outcome::Void) => outcome,
        _ => number(size(outcome)),
    }
}

/// The last one, where the first is known.
pub fn last(first: Option<Outcome>, second: Option<Outcome>) -> Option<Outcome>
    ensures { result ≡ outcomes.last first second }
{
    match first {
        None => None,
        Some(_) => given(second),
    }
}
