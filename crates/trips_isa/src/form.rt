//! How an operation's word is laid out, and how an operation takes its operands.
ghost use Rattle.std.specs.Prelude.{◌≡◌, ◌≤◌};
ghost use Rattle.trips_isa.specs.Forms.{form_of, role_of, size_of};

use crate::{Op, row_of};

/// The form of an operation's word (docs/MACHINE.md, "Operations").
#[derive(Clone, Copy, Debug, PartialEq, Eq)]
pub enum Form {
    /// G: two targets
    General,
    /// I: an immediate for the right operand, and a target
    Immediate,
    /// L: a number, an immediate and a target
    Load,
    /// S: a number and an immediate
    Store,
    /// B: an exit and an offset
    Branch,
    /// C: a constant and a target, without a predicate
    Constant,
}

/// How a read or an instruction makes its token of the tokens at its operands.
#[derive(Clone, Copy, Debug, PartialEq, Eq)]
pub enum Role {
    /// an empty slot: no token
    Empty,
    /// a read: a word, whatever the operands
    Reading,
    /// a word of no operand
    Free,
    /// a null token of no operand
    Nothing,
    /// the left operand's token
    Copy,
    /// a word of the left operand's word
    One,
    /// a word of both operands' words
    Both,
}

/// The form of an operation.
pub fn form_of(op: Op) -> Form
    ensures value { result ≡ form_of op }
{
    row_of(op).form
}

/// How an operation makes its token.
pub fn role_of(op: Op) -> Role
    ensures value { result ≡ role_of op }
{
    match form_of(op) {
        Form::General => match op {
            Op::Extsb | Op::Extsh | Op::Extsw | Op::Extub | Op::Extuh | Op::Extuw => Role::One,
            Op::Mov => Role::Copy,
            Op::Null => Role::Nothing,
            _ => Role::Both,
        },
        Form::Immediate | Form::Load => Role::One,
        Form::Store => Role::Both,
        Form::Branch => match op {
            Op::Br | Op::Ret => Role::One,
            _ => Role::Free,
        },
        Form::Constant => match op {
            Op::App => Role::One,
            _ => Role::Free,
        },
    }
}

/// The bytes that a load or a store moves, and 0 for any other operation.
pub fn size_of(op: Op) -> u8
    ensures value { result ≡ size_of op }
    ensures bound { result ≤ 8 }
{
    match op {
        Op::Sb | Op::Lb | Op::Lbs => 1,
        Op::Sh | Op::Lh | Op::Lhs => 2,
        Op::Sw | Op::Lw | Op::Lws => 4,
        Op::Sd | Op::Ld => 8,
        _ => 0,
    }
}
