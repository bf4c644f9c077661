//! What an operation is as an instruction.

use trips_isa::{Form, Op, Role, form_of, role_of};

/// The instructions of a constant: one for each 16 bits.
pub fn constant_size(word: u64) -> u32 {
    if word < 65_536 {
        1
    } else if word < 4_294_967_296 {
        2
    } else if word < 281_474_976_710_656 {
        3
    } else {
        4
    }
}

/// Whether an operation's word is a bit.
pub fn is_test(op: Op) -> bool {
    match op {
        Op::Teq | Op::Tne | Op::Tlt | Op::Tle | Op::Tgt | Op::Tge => true,
        Op::Tltu | Op::Tleu | Op::Tgtu | Op::Tgeu => true,
        _ => false,
    }
}

/// Whether its word is that of its first operand.
pub fn is_move(op: Op) -> bool {
    match op {
        Op::Mov => true,
        _ => false,
    }
}

/// Whether it takes a second operand.
pub fn takes_right(op: Op) -> bool {
    match role_of(op) {
        Role::Both => true,
        _ => false,
    }
}

/// How many places an instruction names.
pub fn targets_of(op: Op) -> u8 {
    match form_of(op) {
        Form::General => 2,
        _ => 1,
    }
}
