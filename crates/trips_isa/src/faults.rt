//! The faults of operations, as marks.
ghost use Rattle.std.specs.Prelude.{◌≡◌, ◌<◌, Some};
ghost use Rattle.trips_isa.specs.Alu.{word};
ghost use Rattle.trips_isa.specs.Stores.{address_of};
ghost use Rattle.trips_isa.specs.Faults.{fault_of, fault_at, own_fault};

use crate::{Form, Inst, NO_MARK, Op, TrapCause, form_of, number_of, size_of};

/// The mark of an operation on words: that of a division by zero, or none.
pub fn fault(op: Op, _a: u64, b: u64) -> u8
    ensures value { result ≡ fault_of op _a b }
{
    match op {
        Op::Divs | Op::Divu => if b == 0 {
            number_of(TrapCause::DivisionByZero)
        } else {
            NO_MARK
        },
        _ => NO_MARK,
    }
}

/// The mark of an access: misaligned, else outside memory, or none.
pub fn fault_at(address: u64, size: u8) -> u8
    requires { 0 < size }
    ensures value { result ≡ fault_at address size }
{
    if address % size as u64 != 0 {
        number_of(TrapCause::Misaligned)
    } else if address <= 4_194_304 - size as u64 {
        NO_MARK
    } else {
        number_of(TrapCause::OutsideMemory)
    }
}

// The address of a load or a store.
fn address_of(inst: Inst, left: u64) -> u64
    ensures { result ≡ address_of inst left }
{
    left.wrapping_add((inst.imm as i64).cast_unsigned())
}

/// An instruction's own fault, of its operands' words.
pub fn own_fault(inst: Inst, left: u64, right: u64) -> u8
    ensures value { result ≡ own_fault (Some inst) left right }
{
    match form_of(inst.op) {
        Form::General => fault(inst.op, left, right),
        Form::Load | Form::Store => fault_at(address_of(inst, left), size_of(inst.op)),
        Form::Immediate | Form::Branch | Form::Constant => NO_MARK,
    }
}
