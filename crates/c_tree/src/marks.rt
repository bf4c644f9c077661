//! The punctuators with their bytes, and the operators that they are. The proof compares both with the table of
//! specs/Marks, row by row.

ghost use Rattle.std.specs.Prelude.{◌≡◌, map};
ghost use Rattle.c_tree.specs.Marks as table;
ghost use Rattle.c_tree.specs.ByMark as by_mark;

use crate::{BinaryOp, Mark};

/// The punctuators of C17 6.4.6 that the profile has, with their bytes.
pub const MARKS: [(&[u8], Mark); 43] = [
    (b"(", Mark::LeftParen),
    (b")", Mark::RightParen),
    (b"{", Mark::LeftBrace),
    (b"}", Mark::RightBrace),
    (b"[", Mark::LeftBracket),
    (b"]", Mark::RightBracket),
    (b";", Mark::Semicolon),
    (b",", Mark::Comma),
    (b"?", Mark::Question),
    (b":", Mark::Colon),
    (b"~", Mark::Tilde),
    (b"!", Mark::Not),
    (b"=", Mark::Assign),
    (b"++", Mark::PlusPlus),
    (b"--", Mark::MinusMinus),
    (b"*", Mark::Star),
    (b"/", Mark::Slash),
    (b"%", Mark::Percent),
    (b"+", Mark::Plus),
    (b"-", Mark::Minus),
    (b"<<", Mark::ShiftLeft),
    (b">>", Mark::ShiftRight),
    (b"<", Mark::Less),
    (b">", Mark::Greater),
    (b"<=", Mark::LessEqual),
    (b">=", Mark::GreaterEqual),
    (b"==", Mark::Equal),
    (b"!=", Mark::NotEqual),
    (b"&", Mark::And),
    (b"^", Mark::Xor),
    (b"|", Mark::Or),
    (b"&&", Mark::AndAnd),
    (b"||", Mark::OrOr),
    (b"*=", Mark::StarAssign),
    (b"/=", Mark::SlashAssign),
    (b"%=", Mark::PercentAssign),
    (b"+=", Mark::PlusAssign),
    (b"-=", Mark::MinusAssign),
    (b"<<=", Mark::ShiftLeftAssign),
    (b">>=", Mark::ShiftRightAssign),
    (b"&=", Mark::AndAssign),
    (b"^=", Mark::XorAssign),
    (b"|=", Mark::OrAssign),
];

/// The punctuators of the code are those of the language. It does nothing when it runs.
#[tactic(auto, unfolding(crate::specs::Marks::marks))]
pub fn marks_are_the_languages()
    ensures { map (λ row. (row.0.now, row.1)) MARKS ≡ table.marks }
{}

/// The operator that a mark is between two operands, and how many levels above a cast its right side is (C17 6.5.5 to
/// 6.5.14).
#[inline(always)]
pub fn joined_by(mark: Mark) -> Option<(u8, BinaryOp)>
    ensures { result ≡ by_mark.joined_by mark }
{
    match mark {
        Mark::Star => Some((0, BinaryOp::Multiply)),
        Mark::Slash => Some((0, BinaryOp::Divide)),
        Mark::Percent => Some((0, BinaryOp::Remainder)),
        Mark::Plus => Some((1, BinaryOp::Add)),
        Mark::Minus => Some((1, BinaryOp::Subtract)),
        Mark::ShiftLeft => Some((2, BinaryOp::ShiftLeft)),
        Mark::ShiftRight => Some((2, BinaryOp::ShiftRight)),
        Mark::Less => Some((3, BinaryOp::Less)),
        Mark::Greater => Some((3, BinaryOp::Greater)),
        Mark::LessEqual => Some((3, BinaryOp::LessEqual)),
        Mark::GreaterEqual => Some((3, BinaryOp::GreaterEqual)),
        Mark::Equal => Some((4, BinaryOp::Equal)),
        Mark::NotEqual => Some((4, BinaryOp::NotEqual)),
        Mark::And => Some((5, BinaryOp::BitAnd)),
        Mark::Xor => Some((6, BinaryOp::BitXor)),
        Mark::Or => Some((7, BinaryOp::BitOr)),
        Mark::AndAnd => Some((8, BinaryOp::LogicalAnd)),
        Mark::OrOr => Some((9, BinaryOp::LogicalOr)),
        _ => None,
    }
}

/// The operator of the assignment that a mark is: none for `=`, and that of a compound one (C17 6.5.16).
pub fn assigned_by(mark: Mark) -> Option<Option<BinaryOp>>
    ensures { result ≡ by_mark.assigned_by mark }
{
    match mark {
        Mark::Assign => Some(None),
        Mark::StarAssign => Some(Some(BinaryOp::Multiply)),
        Mark::SlashAssign => Some(Some(BinaryOp::Divide)),
        Mark::PercentAssign => Some(Some(BinaryOp::Remainder)),
        Mark::PlusAssign => Some(Some(BinaryOp::Add)),
        Mark::MinusAssign => Some(Some(BinaryOp::Subtract)),
        Mark::ShiftLeftAssign => Some(Some(BinaryOp::ShiftLeft)),
        Mark::ShiftRightAssign => Some(Some(BinaryOp::ShiftRight)),
        Mark::AndAssign => Some(Some(BinaryOp::BitAnd)),
        Mark::XorAssign => Some(Some(BinaryOp::BitXor)),
        Mark::OrAssign => Some(Some(BinaryOp::BitOr)),
        _ => None,
    }
}
