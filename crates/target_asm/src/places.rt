//! Targets, read.
ghost use Rattle.std.specs.Prelude.{◌≡◌, Some};
ghost use Rattle.target_asm_spec.specs.inside.Reading.{ReadsAs};
ghost use Rattle.target_asm_spec.specs.inside.Places.{left_in, right_in, pred_in, place_in, slot_in, write_in};
ghost use Rattle.target_asm_spec.specs.Places.{spot_of, maybe_spot};
ghost use Rattle.target_asm_spec.specs.inside.Places.{target_in, next_by, next_in};

use crate::line_fields::{after, field, index, number};
use target_asm_spec::spelled::SpelledTarget;
use trips_isa::Spot;

fn left(n: i32, text: &[u8]) -> Option<(SpelledTarget, &[u8])>
    ensures { ReadsAs (λ r. (r.0, r.1.now)) result (left_in n text.now) }
{
    match after(text, b",0]") {
        None => None,
        Some(rest) => Some((SpelledTarget::Left(n), rest)),
    }
}

fn right(n: i32, text: &[u8]) -> Option<(SpelledTarget, &[u8])>
    ensures { ReadsAs (λ r. (r.0, r.1.now)) result (right_in n text.now) }
{
    match after(text, b",1]") {
        None => None,
        Some(rest) => Some((SpelledTarget::Right(n), rest)),
    }
}

fn pred(n: i32, text: &[u8]) -> Option<(SpelledTarget, &[u8])>
    ensures { ReadsAs (λ r. (r.0, r.1.now)) result (pred_in n text.now) }
{
    match after(text, b",p]") {
        None => None,
        Some(rest) => Some((SpelledTarget::Pred(n), rest)),
    }
}

/// The place of a slot, after its number.
#[tactic(auto, unfolding(target_asm_spec::specs::inside::Places::place_in))]
fn place(n: i32, text: &[u8]) -> Option<(SpelledTarget, &[u8])>
    ensures { ReadsAs (λ r. (r.0, r.1.now)) result (place_in n text.now) }
{
    if let Some(target) = left(n, text) {
        return Some(target);
    }
    if let Some(target) = right(n, text) {
        return Some(target);
    }
    pred(n, text)
}

#[tactic(auto, unfolding(target_asm_spec::specs::inside::Places::slot_in))]
fn slot(text: &[u8]) -> Option<(SpelledTarget, &[u8])>
    ensures { ReadsAs (λ r. (r.0, r.1.now)) result (slot_in text.now) }
{
    match number(text) {
        None => None,
        Some(n) => place(n.0, n.1),
    }
}

#[tactic(auto, unfolding(target_asm_spec::specs::inside::Places::write_in))]
fn write(text: &[u8]) -> Option<(SpelledTarget, &[u8])>
    ensures { ReadsAs (λ r. (r.0, r.1.now)) result (write_in text.now) }
{
    match index(text, b"W[") {
        None => None,
        Some(n) => Some((SpelledTarget::Write(n.0), n.1)),
    }
}

/// A target: `W[3]`, `N[5,p]`, `N[5,0]` or `N[5,1]`.
#[tactic(auto, unfolding(target_asm_spec::specs::inside::Places::target_in))]
pub fn target(text: &[u8]) -> Option<(SpelledTarget, &[u8])>
    ensures { ReadsAs (λ r. (r.0, r.1.now)) result (target_in text.now) }
{
    match after(text, b"N[") {
        Some(rest) => slot(rest),
        None => write(text),
    }
}

fn found(text: &[u8]) -> Option<(Option<SpelledTarget>, &[u8])>
    ensures { ReadsAs (λ r. (r.0, r.1.now)) result (next_by (Some text.now) text.now) }
{
    match target(text) {
        None => None,
        Some(t) => Some((Some(t.0), t.1)),
    }
}

/// A target after a space, if there is one.
#[tactic(auto, unfolding(target_asm_spec::specs::inside::Places::next_in))]
pub fn next(text: &[u8]) -> Option<(Option<SpelledTarget>, &[u8])>
    ensures { ReadsAs (λ r. (r.0, r.1.now)) result (next_in text.now) }
{
    match after(text, b" ") {
        None => Some((None, text)),
        Some(rest) => found(rest),
    }
}

/// The target, where its number lies in its field.
#[tactic(auto, unfolding(target_asm_spec::specs::Places::spot_of))]
pub fn spot(target: SpelledTarget) -> Option<Spot>
    ensures value { result ≡ spot_of target }
{
    match target {
        SpelledTarget::Write(n) => match field(n, 32) {
            None => None,
            Some(w) => Some(Spot::Write(w)),
        },
        SpelledTarget::Left(n) => match field(n, 128) {
            None => None,
            Some(s) => Some(Spot::Left(s)),
        },
        SpelledTarget::Right(n) => match field(n, 128) {
            None => None,
            Some(s) => Some(Spot::Right(s)),
        },
        SpelledTarget::Pred(n) => match field(n, 128) {
            None => None,
            Some(s) => Some(Spot::Pred(s)),
        },
    }
}

/// The same of a target that may be none.
#[tactic(auto, unfolding(target_asm_spec::specs::Places::maybe_spot))]
pub fn maybe_spot(target: Option<SpelledTarget>) -> Option<Option<Spot>>
    ensures value { result ≡ maybe_spot target }
{
    match target {
        None => Some(None),
        Some(target) => match spot(target) {
            None => None,
            Some(spot) => Some(Some(spot)),
        },
    }
}
