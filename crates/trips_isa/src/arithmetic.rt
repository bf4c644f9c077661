//! What an operation gives on words.
ghost use Rattle.std.specs.Prelude.{◌≡◌, ◌%◌, int_lt, int_le};
ghost use Rattle.std.specs.Int.{int_shr};
ghost use Rattle.trips_isa.specs.Alu.{alu_of, loaded_as, quotient, signed, test, word};

use crate::Op;

/// The result of an operation on words, modulo 2^64 (docs/MACHINE.md, "Operations").
///
/// `b` is the right operand, the immediate or the constant. A division by zero gives 0, a shift takes
/// the low six bits of `b`, a test gives 1 or 0. An operation that moves a token gives the word that it
/// moves: `mov`, `br` and `ret` the left one, a constant and a store `b`; the others give 0.
pub fn alu(op: Op, a: u64, b: u64) -> u64
    ensures value { result ≡ alu_of op a b }
{
    match op {
        Op::Add | Op::Addi => a.wrapping_add(b),
        Op::Sub | Op::Subi => a.wrapping_sub(b),
        Op::Mul | Op::Muli => a.wrapping_mul(b),
        Op::Divs => signed_quotient(a, b),
        Op::Divu => if b == 0 { 0 } else { a / b },
        Op::And | Op::Andi => a & b,
        Op::Or | Op::Ori => a | b,
        Op::Xor | Op::Xori => a ^ b,
        Op::Sll | Op::Slli => a << (b % 64),
        Op::Srl | Op::Srli => a >> (b % 64),
        Op::Sra | Op::Srai => signed_shift(a, b),
        Op::Extsb => extend_byte(a),
        Op::Extsh => extend_half(a),
        Op::Extsw => extend_word(a),
        Op::Extub => a % 0x100,
        Op::Extuh => a % 0x1_0000,
        Op::Extuw => a % 0x1_0000_0000,
        Op::Teq | Op::Teqi => bit(a == b),
        Op::Tne | Op::Tnei => bit(a != b),
        Op::Tlt | Op::Tlti => signed_less(a, b),
        Op::Tle | Op::Tlei => signed_at_most(a, b),
        Op::Tgt | Op::Tgti => signed_less(b, a),
        Op::Tge | Op::Tgei => signed_at_most(b, a),
        Op::Tltu | Op::Tltui => bit(a < b),
        Op::Tleu | Op::Tleui => bit(a <= b),
        Op::Tgtu | Op::Tgtui => bit(b < a),
        Op::Tgeu | Op::Tgeui => bit(b <= a),
        Op::Mov | Op::Br | Op::Ret => a,
        Op::Genu | Op::Gens | Op::Sb | Op::Sh | Op::Sw | Op::Sd => b,
        Op::App => a.wrapping_mul(0x1_0000).wrapping_add(b),
        _ => 0,
    }
}

/// What a load makes of the bytes that it read, the first the most significant.
pub fn loaded(op: Op, bytes: u64) -> u64
    ensures value { result ≡ loaded_as op bytes }
{
    match op {
        Op::Lbs => extend_byte(bytes),
        Op::Lhs => extend_half(bytes),
        Op::Lws => extend_word(bytes),
        _ => bytes,
    }
}

fn bit(holds: bool) -> u64
    ensures { result ≡ test holds }
{
    if holds { 1 } else { 0 }
}

fn signed_quotient(a: u64, b: u64) -> u64
    ensures { result ≡ quotient a b }
{
    if b == 0 {
        0
    } else {
        a.cast_signed()
            .wrapping_div(b.cast_signed())
            .cast_unsigned()
    }
}

fn signed_shift(a: u64, b: u64) -> u64
    ensures { result ≡ word (int_shr (signed a) (b % 64)) }
{
    (a.cast_signed() >> (b % 64)).cast_unsigned()
}

fn signed_less(a: u64, b: u64) -> u64
    ensures { result ≡ test (int_lt (signed a) (signed b)) }
{
    bit(a.cast_signed() < b.cast_signed())
}

fn signed_at_most(a: u64, b: u64) -> u64
    ensures { result ≡ test (int_le (signed a) (signed b)) }
{
    bit(a.cast_signed() <= b.cast_signed())
}

fn extend_byte(a: u64) -> u64
    ensures { result ≡ alu_of Op.Extsb a 0 }
{
    let low = a % 0x100;
    if low < 0x80 {
        low
    } else {
        low + 0xffff_ffff_ffff_ff00
    }
}

fn extend_half(a: u64) -> u64
    ensures { result ≡ alu_of Op.Extsh a 0 }
{
    let low = a % 0x1_0000;
    if low < 0x8000 {
        low
    } else {
        low + 0xffff_ffff_ffff_0000
    }
}

fn extend_word(a: u64) -> u64
    ensures { result ≡ alu_of Op.Extsw a 0 }
{
    let low = a % 0x1_0000_0000;
    if low < 0x8000_0000 {
        low
    } else {
        low + 0xffff_ffff_0000_0000
    }
}
