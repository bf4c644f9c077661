ghost use Rattle.std.specs.Prelude.{◌≡◌, ◌↔◌, ◌<◌, Some, get_or, length};
ghost use Rattle.trips_isa.specs.declared.op.Op.{Op};
ghost use Rattle.trips_isa.specs.declared.op.Op.TheVariants.{Add};
ghost use Rattle.isa_table.specs.Codes.{code_of};
ghost use Rattle.isa_table.specs.inside.Codes.{has_numbers, op_with_numbers};
ghost use Rattle.isa_table.specs.inside.Guesses.{place_of_numbers, candidate_by_numbers, guessed_by_numbers};

use crate::lists::BY_NUMBERS;
use trips_isa::{Op, row_of};

/// The numbers of an operation.
///
/// The forms General and Immediate have one opcode each and tell their operations apart by the
/// extended opcode, which is 0 in the other forms.
#[derive(Clone, Copy, Debug, PartialEq, Eq)]
pub struct Code {
    pub opcode: u32,
    pub extended: u32,
}

/// The numbers of an operation.
#[tactic(auto, unfolding(crate::specs::Codes::code_of))]
pub fn code_of(op: Op) -> Code
    ensures value { result ≡ code_of op }
{
    let row = row_of(op);
    Code {
        opcode: row.opcode,
        extended: row.extended,
    }
}

/// Where the operation of two numbers stands in the list, if there is one.
fn place(opcode: u32, extended: u32) -> usize
    ensures bound { result < 128 }
    ensures value { result ≡ place_of_numbers opcode extended }
{
    if opcode == 1 && extended < 32 {
        extended as usize
    } else if opcode == 2 && extended < 32 {
        32 + extended as usize
    } else if opcode < 64 {
        64 + opcode as usize
    } else {
        0
    }
}

fn op_at(table: &[Op], at: usize) -> Op
    requires { at < length table.now }
    ensures value { result ≡ get_or table.now at Add }
{
    table[at]
}

#[tactic(auto, unfolding(crate::specs::inside::Guesses::candidate_by_numbers))]
fn candidate(opcode: u32, extended: u32) -> Op
    ensures value { result ≡ candidate_by_numbers opcode extended }
{
    op_at(&BY_NUMBERS, place(opcode, extended))
}

#[tactic(auto, unfolding(crate::specs::inside::Codes::has_numbers))]
fn has(op: Op, opcode: u32, extended: u32) -> bool
    ensures value { result ≡ has_numbers op opcode extended }
{
    let code = code_of(op);
    code.opcode == opcode && code.extended == extended
}

#[tactic(auto, unfolding(crate::specs::inside::Guesses::guessed_by_numbers))]
fn guessed(opcode: u32, extended: u32) -> Option<Op>
    ensures value { result ≡ guessed_by_numbers opcode extended }
{
    let op = candidate(opcode, extended);
    if has(op, opcode, extended) {
        Some(op)
    } else {
        None
    }
}

/// The operation with this opcode and this extended opcode, if there is one.
pub fn with_numbers(opcode: u32, extended: u32) -> Option<Op>
    ensures value { result ≡ op_with_numbers opcode extended }
    ensures exact { (op : Op) → (result ≡ Some op) ↔ ((code_of op).opcode ≡ opcode)
        × ((code_of op).extended ≡ extended) }
{
    guessed(opcode, extended)
}
