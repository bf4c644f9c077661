//! What the instruction of a slot gives of the tokens that have come, where only those that it takes are looked at.
ghost use Rattle.std.specs.Prelude.{◌≡◌, ◌+◌, None, Some, slice_index_or};
ghost use Rattle.trips_isa.specs.Alu.{alu_of};
ghost use Rattle.trips_isa.specs.Forms.{branch_role, constant_role, general_role, role_of};
ghost use Rattle.trips_isa.specs.Rule.{Answer, gives, matched, of_both, of_one, rule};
ghost use Rattle.trips_isa.specs.Blocks.{slot_computes};
ghost use Rattle.trips_isa.specs.Stores.{load_of};

use crate::rule::{immediate_of, is_matched, load_of};
use crate::spots::Spots;
use trips_isa::{Form, Inst, Op, Role, Sense, Token, alu, form_of};

// How an operation of form G takes its operands.
#[inline(always)]
fn general_role(op: Op) -> Role
    ensures { result ≡ general_role op }
{
    match op {
        Op::Extsb | Op::Extsh | Op::Extsw | Op::Extub | Op::Extuh | Op::Extuw => Role::One,
        Op::Mov => Role::Copy,
        Op::Null => Role::Nothing,
        _ => Role::Both,
    }
}

// What an operation with this right operand gives of its left one.
fn one_gives(op: Op, left: Option<Token>, right: u64) -> Option<Token>
    ensures { result ≡ of_one (λ x. alu_of op x right) left }
{
    match left {
        None => None,
        Some(Token::Null) => Some(Token::Null),
        Some(Token::Word(word)) => Some(Token::Word(alu(op, word, right))),
    }
}

// What an operation gives of both its operands.
fn both_give(op: Op, left: Option<Token>, right: Option<Token>) -> Option<Token>
    ensures { result ≡ of_both (alu_of op) left right }
{
    match (left, right) {
        (Some(Token::Word(left)), Some(Token::Word(right))) => {
            Some(Token::Word(alu(op, left, right)))
        }
        (Some(_), Some(_)) => Some(Token::Null),
        _ => None,
    }
}

// What an operation of form G gives.
#[inline(always)]
fn general_gives(spots: &Spots, op: Op, slot: u8) -> Option<Token>
    ensures { result ≡ gives (general_role op) (alu_of op)
        (slice_index_or spots.now slot None) (slice_index_or spots.now (128 + slot) None) }
{
    let slot = slot as usize;
    match general_role(op) {
        Role::Copy => spots.get(slot),
        Role::Nothing => Some(Token::Null),
        Role::One => one_gives(op, spots.get(slot), 0),
        Role::Both => both_give(op, spots.get(slot), spots.get(128 + slot)),
        Role::Reading | Role::Free => Some(Token::Word(alu(op, 0, 0))),
        Role::Empty => None,
    }
}

// What an operation of form C with this constant gives: `app` has an operand.
fn constant_gives(spots: &Spots, op: Op, slot: u8, right: u64) -> Option<Token>
    ensures { result ≡ gives (constant_role op) (λ l r. alu_of op l right)
        (slice_index_or spots.now slot None) (slice_index_or spots.now (128 + slot) None) }
{
    match op {
        Op::App => one_gives(op, spots.get(slot as usize), right),
        _ => Some(Token::Word(alu(op, 0, right))),
    }
}

// What a load gives of its operand, where its bytes make this number.
fn load_gives(inst: Inst, left: Option<Token>, bytes: u64) -> Option<Token>
    ensures { result ≡ of_one (load_of inst (λ a. bytes)) left }
{
    match left {
        None => None,
        Some(Token::Null) => Some(Token::Null),
        Some(Token::Word(word)) => Some(Token::Word(load_of(inst, bytes, word))),
    }
}

// What a store gives: its value.
fn store_gives(left: Option<Token>, right: Option<Token>) -> Option<Token>
    ensures { result ≡ of_both (λ l r. r) left right }
{
    match (left, right) {
        (Some(Token::Word(_)), Some(Token::Word(right))) => Some(Token::Word(right)),
        (Some(_), Some(_)) => Some(Token::Null),
        _ => None,
    }
}

// What a branch gives: the address to which it goes, where it has one.
#[tactic(auto, using(crate::proofs::GivingFacts::word_stays))]
fn branch_gives(op: Op, left: Option<Token>) -> Option<Token>
    ensures { (right : Answer) → result ≡ gives (branch_role op) (λ l r. l) left right }
{
    match op {
        Op::Br | Op::Ret => left,
        _ => Some(Token::Word(0)),
    }
}

// What an instruction gives whose predicate lets it fire.
#[inline(always)]
fn given(spots: &Spots, inst: Inst, slot: u8, bytes: u64) -> Option<Token>
    ensures { result ≡ gives (role_of inst.op) (slot_computes (Some inst) (λ a. bytes))
        (slice_index_or spots.now slot None) (slice_index_or spots.now (128 + slot) None) }
{
    match form_of(inst.op) {
        Form::General => general_gives(spots, inst.op, slot),
        Form::Immediate => one_gives(inst.op, spots.get(slot as usize), immediate_of(inst)),
        Form::Constant => constant_gives(spots, inst.op, slot, immediate_of(inst)),
        Form::Load => load_gives(inst, spots.get(slot as usize), bytes),
        Form::Store => store_gives(spots.get(slot as usize), spots.get(128 + slot as usize)),
        Form::Branch => branch_gives(inst.op, spots.get(slot as usize)),
    }
}

// Whether the predicate of a slot lets its instruction fire.
fn lets_fire(spots: &Spots, sense: Sense, slot: u8) -> bool
    ensures { result ≡ matched sense (slice_index_or spots.now (256 + slot) None) }
{
    match sense {
        Sense::Always => true,
        Sense::OnTrue | Sense::OnFalse => is_matched(sense, spots.get(256 + slot as usize)),
    }
}

/// The token of the instruction of a slot, of the tokens at its operands and its predicate; `bytes` is the number
/// that a load's bytes make. It is inlined, so that whoever asks for the form of the instruction too finds it once.
#[inline(always)]
pub fn slot_gives(spots: &Spots, inst: Inst, slot: u8, bytes: u64) -> Option<Token>
    ensures value { result ≡ rule (role_of inst.op) inst.sense (slot_computes (Some inst) (λ a. bytes))
        (slice_index_or spots.now slot None) (slice_index_or spots.now (128 + slot) None)
        (slice_index_or spots.now (256 + slot) None) }
{
    if lets_fire(spots, inst.sense, slot) {
        given(spots, inst, slot, bytes)
    } else {
        None
    }
}
