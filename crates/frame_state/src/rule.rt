//! What an instruction gives of the tokens at its operands and its predicate, and the mark of that.
ghost use Rattle.std.specs.Prelude.{◌≡◌, cond, Some};
ghost use Rattle.trips_isa.specs.Alu.{word};
ghost use Rattle.trips_isa.specs.Forms.{role_of, takes_left, takes_right};
ghost use Rattle.trips_isa.specs.Rule.{matched, low};
ghost use Rattle.trips_isa.specs.Stores.{address_of, is_good_address, load_of, stored_of, null_store, word_store};
ghost use Rattle.trips_isa.specs.Faults.{divides, own_fault};
ghost use Rattle.trips_isa.specs.Marks.{mark_by};
ghost use Rattle.trips_isa.specs.Operands.{operands, is_guarded};
ghost use Rattle.commit_flush_spec.specs.Memory.{taken_of};
ghost use Rattle.frame_state.specs.inside.Held as held;
ghost use Rattle.frame_state.specs.inside.Faulting.{can_fault};
ghost use Rattle.frame_state.specs.declared.parts.Took.TheVariants.{Nothing, From};

use crate::parts::Took;
use trips_isa::{
    Form, Inst, Op, Role, Sense, Stored, Token, form_of, is_guarded, loaded, mark_by, only_if,
    operands_of, role_of, size_of,
};

fn is_low(word: u64) -> bool
    ensures { result ≡ low word }
{
    word % 2 == 1
}

/// Whether a token at the predicate lets an instruction fire.
pub fn is_matched(sense: Sense, token: Option<Token>) -> bool
    ensures value { result ≡ matched sense token }
{
    match sense {
        Sense::Always => true,
        Sense::OnTrue => match token {
            Some(Token::Word(word)) => is_low(word),
            _ => false,
        },
        Sense::OnFalse => match token {
            Some(Token::Word(word)) => !is_low(word),
            _ => false,
        },
    }
}

// An immediate or a constant as a word.
fn immediate(imm: i32) -> u64
    ensures { result ≡ word imm }
{
    (imm as i64).cast_unsigned()
}

/// The immediate or the constant of an instruction as a word.
pub fn immediate_of(inst: Inst) -> u64
    ensures value { result ≡ word inst.imm }
{
    immediate(inst.imm)
}

// The address of a load or a store.
fn address_of(inst: Inst, left: u64) -> u64
    ensures { result ≡ address_of inst left }
{
    left.wrapping_add(immediate(inst.imm))
}

// Aligned and inside data memory.
fn is_good(address: u64, size: u8) -> bool
    ensures { result ≡ is_good_address address size }
{
    size > 0 && address % size as u64 == 0 && address <= 4_194_304 - size as u64
}

/// What a load gives of its operand's word, where its bytes make this number.
pub fn load_of(inst: Inst, bytes: u64, left: u64) -> u64
    ensures value { result ≡ load_of inst (λ a. bytes) left }
{
    if is_good(address_of(inst, left), size_of(inst.op)) {
        loaded(inst.op, bytes)
    } else {
        0
    }
}

fn takes_left(role: Role) -> bool
    ensures { result ≡ takes_left role }
{
    matches!(role, Role::Copy | Role::One | Role::Both)
}

fn takes_right(role: Role) -> bool
    ensures { result ≡ takes_right role }
{
    matches!(role, Role::Both)
}

/// The mark of an instruction's token, of the marks at its operands and its predicate; none where it gives no token.
pub fn mark(
    inst: Inst,
    left: Option<Token>,
    right: Option<Token>,
    predicate: Option<Token>,
    marks: (u8, u8, u8),
) -> u8
    ensures value { result ≡ cond (matched inst.sense predicate)
        (mark_by (own_fault (Some inst)) (operands (role_of inst.op) left right)
        (cond (takes_left (role_of inst.op)) marks.0 0)
        (cond (takes_right (role_of inst.op)) marks.1 0)
        (cond (is_guarded inst.sense) marks.2 0)) 0 }
{
    let role = role_of(inst.op);
    let mark = mark_by(
        inst,
        operands_of(role, left, right),
        only_if(takes_left(role), marks.0),
        only_if(takes_right(role), marks.1),
        only_if(is_guarded(inst.sense), marks.2),
    );
    only_if(is_matched(inst.sense, predicate), mark)
}

// Whether an operation divides.
fn divides(op: Op) -> bool
    ensures { result ≡ divides op }
{
    matches!(op, Op::Divs | Op::Divu)
}

/// Whether an operation can fault: a division, a load and a store can.
pub fn can_fault(op: Op) -> bool
    ensures { result ≡ can_fault op }
{
    match form_of(op) {
        Form::General => divides(op),
        Form::Load | Form::Store => true,
        Form::Immediate | Form::Branch | Form::Constant => false,
    }
}

/// What a load takes, of the token at its operand.
pub fn took(inst: Inst, left: Option<Token>) -> Took
    ensures value { held.taken_of result ≡ taken_of inst left }
{
    match left {
        Some(Token::Word(word)) => took_at(address_of(inst, word), size_of(inst.op)),
        _ => Took::Nothing,
    }
}

// What a load of this size takes at an address.
fn took_at(address: u64, size: u8) -> Took
    ensures { result ≡ cond (is_good_address address size) (From address size) Nothing }
{
    if is_good(address, size) {
        Took::From(address, size)
    } else {
        Took::Nothing
    }
}

/// What a store does, of the tokens at its operands.
pub fn stored(inst: Inst, left: Option<Token>, right: Option<Token>) -> Option<Stored>
    ensures value { result ≡ stored_of inst left right }
{
    match (left, right) {
        (Some(Token::Word(word)), Some(Token::Word(value))) => {
            Some(word_store(inst, address_of(inst, word), value))
        }
        (Some(_), Some(_)) => Some(null_store(inst)),
        _ => None,
    }
}

// A store that changes nothing.
fn null_store(inst: Inst) -> Stored
    ensures { result ≡ null_store inst }
{
    Stored {
        number: inst.number,
        address: 0,
        size: size_of(inst.op),
        value: None,
    }
}

// A store of a value at an address.
fn word_store(inst: Inst, address: u64, value: u64) -> Stored
    ensures { result ≡ word_store inst address value }
{
    let size = size_of(inst.op);
    if is_good(address, size) {
        Stored {
            number: inst.number,
            address,
            size,
            value: Some(value),
        }
    } else {
        null_store(inst)
    }
}
