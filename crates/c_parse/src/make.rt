//! The nodes of expressions, each from its parts.

ghost use Rattle.std.specs.Prelude.{◌≡◌, IfOk, Some, None};
ghost use Rattle.c_grammar.specs.Operators as grammar;
ghost use Rattle.c_tree.specs.declared.tree.ExprNode.TheVariants as node;

use base::Boxed;
use c_tree::{BinaryOp, BumpOp, Expr, ExprNode, Kind, UnaryOp, Word};
use std::alloc::{AllocError, Global};

/// A node at an offset that the token at another offset names, on the heap.
#[inline(always)]
fn told(
    alloc: Global,
    offset: u32,
    operator: u32,
    node: ExprNode,
) -> Result<Boxed<Expr>, AllocError>
    ensures { IfOk result (λ e. e ≡ grammar.told_at offset operator node) }
{
    Ok(Boxed::new(
        alloc,
        Expr {
            offset,
            at: operator,
            node,
        },
    )?)
}

/// A node at an offset, on the heap.
#[inline(always)]
pub fn built(alloc: Global, offset: u32, node: ExprNode) -> Result<Boxed<Expr>, AllocError>
    ensures { IfOk result (λ e. e ≡ grammar.at offset node) }
{
    told(alloc, offset, offset, node)
}

pub fn binary(
    alloc: Global,
    operator: u32,
    op: BinaryOp,
    left: Boxed<Expr>,
    right: Boxed<Expr>,
) -> Result<Boxed<Expr>, AllocError>
    ensures { IfOk result (λ e. e ≡ grammar.joined operator (grammar.op op) left right) }
{
    let offset = left.get().offset;
    told(
        alloc,
        offset,
        operator,
        ExprNode::Binary { op, left, right },
    )
}

pub fn comma(
    alloc: Global,
    operator: u32,
    left: Boxed<Expr>,
    right: Boxed<Expr>,
) -> Result<Boxed<Expr>, AllocError>
    ensures { IfOk result (λ e. e ≡ grammar.joined operator grammar.comma left right) }
{
    let offset = left.get().offset;
    told(alloc, offset, operator, ExprNode::Comma { left, right })
}

pub fn unary(
    alloc: Global,
    offset: u32,
    op: UnaryOp,
    operand: Boxed<Expr>,
) -> Result<Boxed<Expr>, AllocError>
    ensures { IfOk result (λ e. e ≡ grammar.at offset (node.Unary op operand)) }
{
    built(alloc, offset, ExprNode::Unary { op, e: operand })
}

pub fn bump(
    alloc: Global,
    offset: u32,
    operator: u32,
    op: BumpOp,
    operand: Boxed<Expr>,
) -> Result<Boxed<Expr>, AllocError>
    ensures { IfOk result (λ e. e ≡ grammar.told_at offset operator (node.Bump op operand)) }
{
    told(alloc, offset, operator, ExprNode::Bump { op, e: operand })
}

pub fn cast(
    alloc: Global,
    offset: u32,
    to: Kind,
    operand: Boxed<Expr>,
) -> Result<Boxed<Expr>, AllocError>
    ensures { IfOk result (λ e. e ≡ grammar.at offset (node.Cast to operand)) }
{
    built(alloc, offset, ExprNode::Cast { to, e: operand })
}

pub fn group(alloc: Global, offset: u32, inner: Boxed<Expr>) -> Result<Boxed<Expr>, AllocError>
    ensures { IfOk result (λ e. e ≡ grammar.at offset (node.Group inner)) }
{
    built(alloc, offset, ExprNode::Group(inner))
}

pub fn element(
    alloc: Global,
    offset: u32,
    array: Word,
    index: Boxed<Expr>,
) -> Result<Boxed<Expr>, AllocError>
    ensures { IfOk result (λ e. e ≡ grammar.at offset (node.Element array None index)) }
{
    built(
        alloc,
        offset,
        ExprNode::Element {
            array,
            row: None,
            index,
        },
    )
}

/// An element with two indexes.
pub fn row_element(
    alloc: Global,
    offset: u32,
    array: Word,
    row: Boxed<Expr>,
    index: Boxed<Expr>,
) -> Result<Boxed<Expr>, AllocError>
    ensures { IfOk result (λ e. e ≡ grammar.at offset (node.Element array (Some row) index)) }
{
    built(
        alloc,
        offset,
        ExprNode::Element {
            array,
            row: Some(row),
            index,
        },
    )
}

pub fn choice(
    alloc: Global,
    operator: u32,
    test: Boxed<Expr>,
    yes: Boxed<Expr>,
    no: Boxed<Expr>,
) -> Result<Boxed<Expr>, AllocError>
    ensures { IfOk result (λ e. e ≡ grammar.told_at test.offset operator (node.Choice test yes no)) }
{
    let offset = test.get().offset;
    told(alloc, offset, operator, ExprNode::Choice { test, yes, no })
}

pub fn assignment(
    alloc: Global,
    operator: u32,
    op: Option<BinaryOp>,
    to: Boxed<Expr>,
    value: Boxed<Expr>,
) -> Result<Boxed<Expr>, AllocError>
    ensures { IfOk result (λ e. e ≡ grammar.told_at to.offset operator (node.Assign op to value)) }
{
    let offset = to.get().offset;
    told(
        alloc,
        offset,
        operator,
        ExprNode::Assign {
            op,
            left: to,
            right: value,
        },
    )
}
