//! What the tokens at an instruction's operands are to its role, and the mark that they leave.
ghost use Rattle.std.specs.Prelude.{◌≡◌, Some, cond};
ghost use Rattle.trips_isa.specs.TrapCauses.{no_mark};
ghost use Rattle.trips_isa.specs.Faults.{own_fault};
ghost use Rattle.trips_isa.specs.Operands.{operands, one_operand, both_operands, is_guarded};
ghost use Rattle.trips_isa.specs.Marks.{least, mark_by};

use crate::faults::own_fault;
use crate::{Inst, NO_MARK, Role, Sense, Token};

/// The operands of an instruction: one is missing; none is missing, and it is said which are null; or
/// all are words, where an operand that is not taken is 0.
#[derive(Clone, Copy, Debug, PartialEq, Eq)]
pub enum Operands {
    Missing,
    Nulls(bool, bool),
    Words(u64, u64),
}

// The one operand of a role that takes the left one.
fn one_operand(left: Option<Token>) -> Operands
    ensures { result ≡ one_operand left }
{
    match left {
        None => Operands::Missing,
        Some(Token::Null) => Operands::Nulls(true, false),
        Some(Token::Word(a)) => Operands::Words(a, 0),
    }
}

// The operands of a role that takes both.
fn both_operands(left: Option<Token>, right: Option<Token>) -> Operands
    ensures { result ≡ both_operands left right }
{
    match (left, right) {
        (Some(Token::Null), Some(Token::Null)) => Operands::Nulls(true, true),
        (Some(Token::Null), Some(Token::Word(_))) => Operands::Nulls(true, false),
        (Some(Token::Word(_)), Some(Token::Null)) => Operands::Nulls(false, true),
        (Some(Token::Word(a)), Some(Token::Word(b))) => Operands::Words(a, b),
        _ => Operands::Missing,
    }
}

/// What a role takes of the tokens at its operands.
pub fn operands_of(role: Role, left: Option<Token>, right: Option<Token>) -> Operands
    ensures value { result ≡ operands role left right }
{
    match role {
        Role::Empty => Operands::Missing,
        Role::Reading | Role::Free => Operands::Words(0, 0),
        Role::Nothing => Operands::Nulls(false, false),
        Role::Copy | Role::One => one_operand(left),
        Role::Both => both_operands(left, right),
    }
}

/// Whether an instruction has a predicate.
pub fn is_guarded(sense: Sense) -> bool
    ensures value { result ≡ is_guarded sense }
{
    match sense {
        Sense::Always => false,
        Sense::OnTrue | Sense::OnFalse => true,
    }
}

/// The least of two marks other than none, or none.
pub fn least(a: u8, b: u8) -> u8
    ensures value { result ≡ least a b }
{
    if a == 0 || (b != 0 && b < a) { b } else { a }
}

/// A mark that counts only where a test holds.
pub fn only_if(test: bool, mark: u8) -> u8
    ensures { result ≡ cond test mark no_mark }
{
    if test { mark } else { NO_MARK }
}

/// The mark of an instruction's token, of the marks at its operands and its predicate.
pub fn mark_by(inst: Inst, operands: Operands, left: u8, right: u8, predicate: u8) -> u8
    ensures value { result ≡ mark_by (own_fault (Some inst)) operands left right predicate }
{
    match operands {
        Operands::Missing => NO_MARK,
        Operands::Nulls(a, b) => least(predicate, least(only_if(a, left), only_if(b, right))),
        Operands::Words(l, r) => least(predicate, least(left, least(right, own_fault(inst, l, r)))),
    }
}
