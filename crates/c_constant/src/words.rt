//! Operations and conversions on words.

ghost use Rattle.std.specs.Prelude.{◌≡◌};
ghost use Rattle.c_constant.specs.Kinds.{converted, number, word_of};
ghost use Rattle.c_constant.specs.Operation.{operate, operate_one, c_operation};

use crate::signed::{by_sign, signed_operation, signed_unary};
use crate::unsigned::{unsigned_operation, unsigned_unary};
use c_tree::{BinaryOp, Kind, UnaryOp};

/// A word at another kind: a conversion keeps the low bits (C17 6.3.1.3), but one to `_Bool` tells
/// whether the word is not 0 (6.3.1.2).
#[tactic(auto, unfolding(crate::specs::Kinds::converted))]
pub fn convert(kind: Kind, word: u64) -> u64
    ensures { result ≡ converted kind word }
{
    match kind {
        Kind::Char => by_sign(128, word % 0x100),
        Kind::UChar => word % 0x100,
        Kind::Short => by_sign(0x8000, word % 0x1_0000),
        Kind::UShort => word % 0x1_0000,
        Kind::Int => by_sign(0x8000_0000, word % 0x1_0000_0000),
        Kind::UInt => word % 0x1_0000_0000,
        Kind::Long | Kind::ULong => word,
        Kind::Bool => if word == 0 { 0 } else { 1 },
    }
}

/// An operation on two words of a kind, or none where it is undefined (C17 6.5).
///
/// A shift's count may be a word of any kind: one that is negative, or too large, has no result at
/// each of them.
#[tactic(auto, unfolding(crate::specs::Operation::operate))]
pub fn operation(op: BinaryOp, kind: Kind, a: u64, b: u64) -> Option<u64>
    ensures { result ≡ operate op kind a b }
{
    match kind {
        Kind::Char | Kind::Short | Kind::Int | Kind::Long => {
            signed_operation(op, kind, a.cast_signed(), b.cast_signed())
        }
        Kind::UChar | Kind::UShort | Kind::UInt | Kind::ULong | Kind::Bool => {
            unsigned_operation(op, kind, a, b)
        }
    }
}

/// An operation on one word of a kind, or none where it is undefined (C17 6.5.3.3).
#[tactic(auto, unfolding(crate::specs::Operation::operate_one))]
pub fn unary(op: UnaryOp, kind: Kind, a: u64) -> Option<u64>
    ensures { result ≡ operate_one op kind a }
{
    match kind {
        Kind::Char | Kind::Short | Kind::Int | Kind::Long => signed_unary(
            op,
            kind,
            a.cast_signed(),
        ),
        Kind::UChar | Kind::UShort | Kind::UInt | Kind::ULong | Kind::Bool => {
            unsigned_unary(op, kind, a)
        }
    }
}
