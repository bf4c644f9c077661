//! Typed nodes over typed operands, on the heap. No function that the recursion calls is put in line: what they hold
//! on the way would stand in its frames.

ghost use Rattle.std.specs.Prelude.{◌≡◌, IfOk, None, Some};
ghost use Rattle.c_type_expr.specs.Conversions as conversions;

use base::Boxed;
use c_constant::{common, left_at, result_of, right_at, unary_at, unary_result};
use c_tree::{BinaryOp, BumpOp, Kind, Place, TypedExpr, TypedNode, UnaryOp};
use std::alloc::{AllocError, Global};

pub fn kind_of(e: &TypedExpr) -> Kind
    ensures { result ≡ conversions.kind_of e.now }
{
    match e.kind {
        Some(kind) => kind,
        None => Kind::Int,
    }
}

// A node of a place and a kind, on the heap.
#[inline(always)]
pub fn boxed(
    alloc: Global,
    token: u32,
    kind: Option<Kind>,
    node: TypedNode,
) -> Result<Boxed<TypedExpr>, AllocError>
    ensures { IfOk result (λ t. t ≡ conversions.a token kind node) }
{
    Boxed::new(
        alloc,
        TypedExpr {
            kind,
            at: token,
            node,
        },
    )
}

// The conversion of an expression to a kind.
#[inline(never)]
fn converted(alloc: Global, to: Kind, e: Boxed<TypedExpr>) -> Result<Boxed<TypedExpr>, AllocError>
    ensures { IfOk result (λ t. t ≡ conversions.a e.at (Some to) (TypedNode.Convert to e)) }
{
    let token = e.get().at;
    boxed(alloc, token, Some(to), TypedNode::Convert { to, e })
}

/// An expression converted to a kind, by a node where its kind is another. Want of memory is the only error.
#[inline(always)]
pub fn with_convert(
    alloc: Global,
    to: Kind,
    e: Boxed<TypedExpr>,
) -> Result<Boxed<TypedExpr>, AllocError>
    ensures { IfOk result (λ t. t ≡ conversions.with_convert to e) }
{
    if kind_of(e.get()) == to {
        return Ok(e);
    }
    converted(alloc, to, e)
}

#[inline(never)]
pub fn unary(
    alloc: Global,
    token: u32,
    op: UnaryOp,
    e: Boxed<TypedExpr>,
) -> Result<Boxed<TypedExpr>, AllocError>
    ensures { IfOk result (λ t. t ≡ conversions.unary token op e) }
{
    let at = unary_at(op, kind_of(e.get()));
    let e = with_convert(alloc, at, e)?;
    let kind = Some(unary_result(op, at));
    boxed(alloc, token, kind, TypedNode::Unary { op, e })
}

#[inline(never)]
pub fn cast(
    alloc: Global,
    token: u32,
    to: Kind,
    e: Boxed<TypedExpr>,
) -> Result<Boxed<TypedExpr>, AllocError>
    ensures { IfOk result (λ t. t ≡ conversions.cast token to e) }
{
    let kind = Some(to);
    boxed(alloc, token, kind, TypedNode::Cast { to, e })
}

#[inline(never)]
pub fn bump(
    alloc: Global,
    token: u32,
    op: BumpOp,
    e: Boxed<TypedExpr>,
) -> Result<Boxed<TypedExpr>, AllocError>
    ensures { IfOk result (λ t. t ≡ conversions.bump token op e) }
{
    let kind = Some(kind_of(e.get()));
    boxed(alloc, token, kind, TypedNode::Bump { op, e })
}

// A binary operation whose operands convert to what it wants of them.
#[inline(never)]
fn converted_binary(
    alloc: Global,
    token: u32,
    op: BinaryOp,
    left: Boxed<TypedExpr>,
    right: Boxed<TypedExpr>,
) -> Result<Boxed<TypedExpr>, AllocError>
    ensures { IfOk result (λ t. t ≡ conversions.binary token op left right) }
{
    let (j, k) = (kind_of(left.get()), kind_of(right.get()));
    let at = left_at(op, j, k);
    let left = with_convert(alloc, at, left)?;
    let right = with_convert(alloc, right_at(op, j, k), right)?;
    let kind = Some(result_of(op, at));
    boxed(alloc, token, kind, TypedNode::Binary { op, left, right })
}

/// A binary operation. Most are of two ints, of which none converts.
#[tactic(auto, using(crate::proofs::Ints::of_ints))]
#[inline(never)]
pub fn binary(
    alloc: Global,
    token: u32,
    op: BinaryOp,
    left: Boxed<TypedExpr>,
    right: Boxed<TypedExpr>,
) -> Result<Boxed<TypedExpr>, AllocError>
    ensures { IfOk result (λ t. t ≡ conversions.binary token op left right) }
{
    if kind_of(left.get()) == Kind::Int && kind_of(right.get()) == Kind::Int {
        let kind = Some(Kind::Int);
        return boxed(alloc, token, kind, TypedNode::Binary { op, left, right });
    }
    converted_binary(alloc, token, op, left, right)
}

#[inline(never)]
pub fn choice(
    alloc: Global,
    token: u32,
    test: Boxed<TypedExpr>,
    yes: Boxed<TypedExpr>,
    no: Boxed<TypedExpr>,
) -> Result<Boxed<TypedExpr>, AllocError>
    ensures { IfOk result (λ t. t ≡ conversions.choice token test yes no) }
{
    let at = common(kind_of(yes.get()), kind_of(no.get()));
    let yes = with_convert(alloc, at, yes)?;
    let no = with_convert(alloc, at, no)?;
    let kind = Some(at);
    boxed(alloc, token, kind, TypedNode::Choice { test, yes, no })
}

fn assigned_at(op: Option<BinaryOp>, left: Kind, right: Kind) -> Kind
    ensures { result ≡ conversions.assigned_at op left right }
{
    match op {
        None => left,
        Some(op) => left_at(op, left, right),
    }
}

fn assigned_from(op: Option<BinaryOp>, left: Kind, right: Kind) -> Kind
    ensures { result ≡ conversions.assigned_from op left right }
{
    match op {
        None => left,
        Some(op) => right_at(op, left, right),
    }
}

#[inline(never)]
pub fn assign(
    alloc: Global,
    token: u32,
    op: Option<BinaryOp>,
    left: Boxed<TypedExpr>,
    right: Boxed<TypedExpr>,
) -> Result<Boxed<TypedExpr>, AllocError>
    ensures { IfOk result (λ t. t ≡ conversions.assign token op left right) }
{
    let (j, k) = (kind_of(left.get()), kind_of(right.get()));
    let right = with_convert(alloc, assigned_from(op, j, k), right)?;
    let kind = Some(j);
    boxed(
        alloc,
        token,
        kind,
        TypedNode::Assign {
            op,
            at: assigned_at(op, j, k),
            left,
            right,
        },
    )
}

#[inline(never)]
pub fn comma(
    alloc: Global,
    token: u32,
    left: Boxed<TypedExpr>,
    right: Boxed<TypedExpr>,
) -> Result<Boxed<TypedExpr>, AllocError>
    ensures { IfOk result (λ t. t ≡ conversions.comma token left right) }
{
    let kind = right.get().kind;
    boxed(alloc, token, kind, TypedNode::Comma { left, right })
}

#[inline(never)]
pub fn element(
    alloc: Global,
    token: u32,
    kind: Kind,
    array: Place,
    index: Boxed<TypedExpr>,
) -> Result<Boxed<TypedExpr>, AllocError>
    ensures { IfOk result (λ t. t ≡ conversions.a token (Some kind) (TypedNode.Element array None index)) }
{
    let kind = Some(kind);
    let row = None;
    boxed(alloc, token, kind, TypedNode::Element { array, row, index })
}

#[inline(never)]
pub fn row_element(
    alloc: Global,
    token: u32,
    kind: Kind,
    array: Place,
    row: Boxed<TypedExpr>,
    index: Boxed<TypedExpr>,
) -> Result<Boxed<TypedExpr>, AllocError>
    ensures { IfOk result (λ t. t ≡ conversions.a token (Some kind) (TypedNode.Element array (Some row) index)) }
{
    let kind = Some(kind);
    let row = Some(row);
    boxed(alloc, token, kind, TypedNode::Element { array, row, index })
}
