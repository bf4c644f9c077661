//! The flat code of C's operations and conversions.

ghost use Rattle.std.specs.Prelude.{◌≡◌, OnOk};
ghost use Rattle.c_tree.specs.declared.UnaryOp.TheVariants.{Minus, Complement};
ghost use Rattle.ir_forms.specs.inside.FlatCode.{Then};
ghost use Rattle.flat_lower.specs.inside.Narrowing as narrowings;
ghost use Rattle.flat_lower.specs.inside.Operations as operations;
ghost use Rattle.flat_lower.specs.inside.Operations.{set_word, copied, one_done, two_done, narrowed_by};
ghost use Rattle.flat_lower.specs.inside.Operations.{converted_to, narrowed_here, converted_here};
ghost use Rattle.flat_lower.specs.inside.Operations.{reduced_here, remainder_code, binary_code};
ghost use Rattle.flat_lower.specs.inside.Operations.{unary_code, bumped};
ghost use Rattle.flat_lower.specs.inside.Emitted.{Adds};

use crate::emit::{put_let, scratch};
use base::{Items, Memory};
use c_constant::{row, width};
use c_tree::{BinaryOp, BumpOp, Kind, UnaryOp};
use ir_forms::{Arg, FlatStmt};
use trips_isa::Op;

/// A variable becomes a word.
pub fn put_word(code: &mut Items<FlatStmt>, to: u16, w: u64) -> Result<(), Memory>
    ensures { OnOk result (Adds code.old code.new (set_word to w)) }
{
    put_let(code, to, Op::Mov, Arg::Const(w), Arg::Const(0))
}

/// A variable becomes another.
pub fn put_copy(code: &mut Items<FlatStmt>, to: u16, x: u16) -> Result<(), Memory>
    ensures { OnOk result (Adds code.old code.new (copied to x)) }
{
    put_let(code, to, Op::Mov, Arg::Var(x), Arg::Const(0))
}

// An operation on one variable.
fn put_one(code: &mut Items<FlatStmt>, to: u16, op: Op, x: u16) -> Result<(), Memory>
    ensures { OnOk result (Adds code.old code.new (one_done to op x)) }
{
    put_let(code, to, op, Arg::Var(x), Arg::Const(0))
}

/// An operation on two variables.
pub fn put_two(code: &mut Items<FlatStmt>, to: u16, op: Op, x: u16, y: u16) -> Result<(), Memory>
    ensures { OnOk result (Adds code.old code.new (two_done to op x y)) }
{
    put_let(code, to, op, Arg::Var(x), Arg::Var(y))
}

// What makes a word of a type of any word, with 0 behind it; none where each word is one.
fn narrowing(kind: Kind) -> Option<Op>
    ensures { result ≡ narrowings.narrowing kind }
{
    match kind {
        Kind::Char => Some(Op::Extsb),
        Kind::UChar => Some(Op::Extub),
        Kind::Short => Some(Op::Extsh),
        Kind::UShort => Some(Op::Extuh),
        Kind::Int => Some(Op::Extsw),
        Kind::UInt => Some(Op::Extuw),
        Kind::Long => None,
        Kind::ULong => None,
        Kind::Bool => Some(Op::Tne),
    }
}

// Whether each word of a type is one of another.
fn is_within(from: Kind, kind: Kind) -> bool
    ensures { result ≡ narrowings.is_within from kind }
{
    if row(from).signed {
        row(kind).signed && width(from) <= width(kind)
    } else if row(kind).signed {
        width(from) < width(kind)
    } else {
        width(from) <= width(kind)
    }
}

// What makes a word of a type of a word of another, if this type is known; none where each word is one.
fn narrowing_from(from: Option<Kind>, kind: Kind) -> Option<Op>
    ensures { result ≡ narrowings.narrowing_from from kind }
{
    match from {
        None => narrowing(kind),
        Some(from) => {
            if is_within(from, kind) {
                None
            } else {
                narrowing(kind)
            }
        }
    }
}

// A word narrowed into another variable.
fn put_narrowed_by(
    code: &mut Items<FlatStmt>,
    op: Option<Op>,
    to: u16,
    x: u16,
) -> Result<(), Memory>
    ensures { OnOk result (Adds code.old code.new (narrowed_by op to x)) }
{
    match op {
        None => put_copy(code, to, x),
        Some(op) => put_one(code, to, op, x),
    }
}

/// A word of one type as one of another, in another variable.
pub fn put_converted_to(
    code: &mut Items<FlatStmt>,
    from: Option<Kind>,
    kind: Kind,
    to: u16,
    x: u16,
) -> Result<(), Memory>
    ensures { OnOk result (Adds code.old code.new (converted_to from kind to x)) }
{
    put_narrowed_by(code, narrowing_from(from, kind), to, x)
}

// A word narrowed where it stands.
#[tactic(auto, using(crate::proofs::Emits::nothing))]
fn put_narrowed_here(code: &mut Items<FlatStmt>, op: Option<Op>, x: u16) -> Result<(), Memory>
    ensures { OnOk result (Adds code.old code.new (narrowed_here op x)) }
{
    match op {
        None => Ok(()),
        Some(op) => put_one(code, x, op, x),
    }
}

/// A word of one type as one of another, where it stands; no code where it is one already.
pub fn put_converted_here(
    code: &mut Items<FlatStmt>,
    from: Option<Kind>,
    kind: Kind,
    x: u16,
) -> Result<(), Memory>
    ensures { OnOk result (Adds code.old code.new (converted_here from kind x)) }
{
    put_narrowed_here(code, narrowing_from(from, kind), x)
}

// An unsigned int that overflows 32 bits is narrowed.
#[tactic(auto, using(crate::proofs::Emits::nothing))]
fn put_reduced(code: &mut Items<FlatStmt>, kind: Kind, x: u16) -> Result<(), Memory>
    ensures { OnOk result (Adds code.old code.new (reduced_here kind x)) }
{
    match kind {
        Kind::UInt => put_one(code, x, Op::Extuw, x),
        Kind::Char => Ok(()),
        Kind::UChar => Ok(()),
        Kind::Short => Ok(()),
        Kind::UShort => Ok(()),
        Kind::Int => Ok(()),
        Kind::Long => Ok(()),
        Kind::ULong => Ok(()),
        Kind::Bool => Ok(()),
    }
}

// The operation of a signed type, or of an unsigned one.
fn by_sign(kind: Kind, signed: Op, unsigned: Op) -> Op
    ensures { result ≡ operations.by_sign kind signed unsigned }
{
    match kind {
        Kind::Char => signed,
        Kind::UChar => unsigned,
        Kind::Short => signed,
        Kind::UShort => unsigned,
        Kind::Int => signed,
        Kind::UInt => unsigned,
        Kind::Long => signed,
        Kind::ULong => unsigned,
        Kind::Bool => unsigned,
    }
}

// The remainder by way of the quotient.
fn put_remainder(code: &mut Items<FlatStmt>, op: Op, x: u16, y: u16) -> Result<(), Memory>
    ensures { OnOk result (Adds code.old code.new (remainder_code op x y)) }
{
    put_two(code, scratch(0), op, x, y)?;
    put_two(code, scratch(0), Op::Mul, scratch(0), y)?;
    put_two(code, x, Op::Sub, x, scratch(0))?;
    Ok(())
}

/// An operation whose result is reduced to its type.
fn put_reducing(
    code: &mut Items<FlatStmt>,
    op: Op,
    kind: Kind,
    x: u16,
    y: u16,
) -> Result<(), Memory>
    ensures { OnOk result (Adds code.old code.new
        (Then (two_done x op x y) (reduced_here kind x))) }
{
    put_two(code, x, op, x, y)?;
    put_reduced(code, kind, x)?;
    Ok(())
}

/// x becomes what an operation at a type gives on x and y.
#[tactic(auto, using(crate::proofs::Emits::nothing))]
pub fn put_binary(
    code: &mut Items<FlatStmt>,
    op: BinaryOp,
    kind: Kind,
    x: u16,
    y: u16,
) -> Result<(), Memory>
    ensures { OnOk result (Adds code.old code.new (binary_code op kind x y)) }
{
    match op {
        BinaryOp::LogicalOr => Ok(()),
        BinaryOp::LogicalAnd => Ok(()),
        BinaryOp::BitOr => put_two(code, x, Op::Or, x, y),
        BinaryOp::BitXor => put_two(code, x, Op::Xor, x, y),
        BinaryOp::BitAnd => put_two(code, x, Op::And, x, y),
        BinaryOp::Equal => put_two(code, x, Op::Teq, x, y),
        BinaryOp::NotEqual => put_two(code, x, Op::Tne, x, y),
        BinaryOp::Less => put_two(code, x, by_sign(kind, Op::Tlt, Op::Tltu), x, y),
        BinaryOp::Greater => put_two(code, x, by_sign(kind, Op::Tgt, Op::Tgtu), x, y),
        BinaryOp::LessEqual => put_two(code, x, by_sign(kind, Op::Tle, Op::Tleu), x, y),
        BinaryOp::GreaterEqual => put_two(code, x, by_sign(kind, Op::Tge, Op::Tgeu), x, y),
        BinaryOp::ShiftLeft => put_reducing(code, Op::Sll, kind, x, y),
        BinaryOp::ShiftRight => put_two(code, x, by_sign(kind, Op::Sra, Op::Srl), x, y),
        BinaryOp::Add => put_reducing(code, Op::Add, kind, x, y),
        BinaryOp::Subtract => put_reducing(code, Op::Sub, kind, x, y),
        BinaryOp::Multiply => put_reducing(code, Op::Mul, kind, x, y),
        BinaryOp::Divide => put_two(code, x, by_sign(kind, Op::Divs, Op::Divu), x, y),
        BinaryOp::Remainder => { put_remainder(code, by_sign(kind, Op::Divs, Op::Divu), x, y) }
    }
}

// The negative of a value.
fn put_minus(code: &mut Items<FlatStmt>, kind: Kind, x: u16) -> Result<(), Memory>
    ensures { OnOk result (Adds code.old code.new (unary_code Minus kind x)) }
{
    put_let(code, x, Op::Sub, Arg::Const(0), Arg::Var(x))?;
    put_reduced(code, kind, x)?;
    Ok(())
}

// The complement of a value.
fn put_complement(code: &mut Items<FlatStmt>, kind: Kind, x: u16) -> Result<(), Memory>
    ensures { OnOk result (Adds code.old code.new (unary_code Complement kind x)) }
{
    put_let(code, x, Op::Sub, Arg::Const(u64::MAX), Arg::Var(x))?;
    put_reduced(code, kind, x)?;
    Ok(())
}

/// x becomes what an operation at a type gives on x.
#[tactic(auto, using(crate::proofs::Emits::nothing))]
pub fn put_unary(code: &mut Items<FlatStmt>, op: UnaryOp, kind: Kind, x: u16) -> Result<(), Memory>
    ensures { OnOk result (Adds code.old code.new (unary_code op kind x)) }
{
    match op {
        UnaryOp::Plus => Ok(()),
        UnaryOp::Minus => put_minus(code, kind, x),
        UnaryOp::Complement => put_complement(code, kind, x),
        UnaryOp::Not => put_let(code, x, Op::Teq, Arg::Var(x), Arg::Const(0)),
    }
}

// One more, or one less.
fn bump_op(op: BumpOp) -> Op
    ensures { result ≡ operations.bump_op op }
{
    match op {
        BumpOp::PreInc => Op::Add,
        BumpOp::PreDec => Op::Sub,
        BumpOp::PostInc => Op::Add,
        BumpOp::PostDec => Op::Sub,
    }
}

// The narrowing after one more or one less.
fn bump_narrowing(kind: Kind) -> Option<Op>
    ensures { result ≡ operations.bump_narrowing kind }
{
    match kind {
        Kind::Int => None,
        Kind::Char => narrowing(kind),
        Kind::UChar => narrowing(kind),
        Kind::Short => narrowing(kind),
        Kind::UShort => narrowing(kind),
        Kind::UInt => narrowing(kind),
        Kind::Long => narrowing(kind),
        Kind::ULong => narrowing(kind),
        Kind::Bool => narrowing(kind),
    }
}

/// One more or less of x, in another variable.
pub fn put_bumped(
    code: &mut Items<FlatStmt>,
    op: BumpOp,
    kind: Kind,
    to: u16,
    x: u16,
) -> Result<(), Memory>
    ensures { OnOk result (Adds code.old code.new (bumped op kind to x)) }
{
    put_let(code, to, bump_op(op), Arg::Var(x), Arg::Const(1))?;
    put_narrowed_here(code, bump_narrowing(kind), to)?;
    Ok(())
}

/// Whether the new value is the expression's.
pub fn is_before(op: BumpOp) -> bool
    ensures { result ≡ operations.is_before op }
{
    match op {
        BumpOp::PreInc => true,
        BumpOp::PreDec => true,
        BumpOp::PostInc => false,
        BumpOp::PostDec => false,
    }
}

/// The load of a type.
pub fn load_op(kind: Kind) -> Op
    ensures { result ≡ operations.load_op kind }
{
    match kind {
        Kind::Char => Op::Lbs,
        Kind::UChar => Op::Lb,
        Kind::Short => Op::Lhs,
        Kind::UShort => Op::Lh,
        Kind::Int => Op::Lws,
        Kind::UInt => Op::Lw,
        Kind::Long => Op::Ld,
        Kind::ULong => Op::Ld,
        Kind::Bool => Op::Lb,
    }
}

/// The save of a type.
pub fn save_op(kind: Kind) -> Op
    ensures { result ≡ operations.save_op kind }
{
    match kind {
        Kind::Char => Op::Sb,
        Kind::UChar => Op::Sb,
        Kind::Short => Op::Sh,
        Kind::UShort => Op::Sh,
        Kind::Int => Op::Sw,
        Kind::UInt => Op::Sw,
        Kind::Long => Op::Sd,
        Kind::ULong => Op::Sd,
        Kind::Bool => Op::Sb,
    }
}

/// Elements have 2 to this many bytes.
pub fn shift_of(kind: Kind) -> u64
    ensures { result ≡ operations.shift_of kind }
{
    match kind {
        Kind::Char => 0,
        Kind::UChar => 0,
        Kind::Short => 1,
        Kind::UShort => 1,
        Kind::Int => 2,
        Kind::UInt => 2,
        Kind::Long => 3,
        Kind::ULong => 3,
        Kind::Bool => 0,
    }
}
