//! How many temporaries an expression needs.

ghost use Rattle.std.specs.Prelude.{◌≡◌, ◌+◌, ◌≤◌, max, map, option_map, min, Option, Some, None};
ghost use Rattle.std.specs.Prelude.{IsTrue, ℕ};
ghost use Rattle.std.specs.Prelude.{◌↔◌};
ghost use Rattle.c_constant.specs.Need.{assign_need, indexes_need};
ghost use Rattle.c_constant.specs.inside.Need.{capped, capped_if};
ghost use Rattle.c_constant.specs.Need.{call_need};
ghost use Rattle.c_constant.specs.Need as needs;

use base::{Boxed, Items};
use c_tree::{Expr, ExprNode, MOST_NEED};

// The greater of two needs.
fn larger(a: u64, b: u64) -> u64
    ensures { result ≡ max a b }
{
    if a < b { b } else { a }
}

// A need counted further.
fn further(need: u64, by: u64) -> u64
    requires { by ≤ 17 }
    ensures { result ≡ capped (need + by) }
{
    if need < 17 { (need + by).min(17) } else { 17 }
}

// The need of an assignment, by that of its left side's index and of its right side.
fn assigned(index: Option<u64>, right: u64) -> u64
    ensures { result ≡ capped (assign_need index right) }
{
    match index {
        None => further(right, 1),
        Some(index) => larger(index, further(right, 2)).min(17),
    }
}

// The need of the indexes of an element, by that of the first one where there are two.
fn indexes(first: Option<u64>, index: u64) -> u64
    ensures { result ≡ capped (indexes_need first index) }
{
    match first {
        None => index.min(17),
        Some(first) => larger(first, further(index, 1)).min(17),
    }
}

// The need of some arguments, each after those before it.
#[cycle(need)]
fn args_need(args: &[Boxed<Expr>]) -> u64
    ensures { result ≡ capped (needs.args_need 0 (map needs.needs args.now)) }
{
    let mut most = 0;
    let mut at = 0;
    for arg in args {
        most = larger(most, further(operand(arg.get()), at));
        at = further(at, 1);
    }
    most
}

// The need of a call.
#[cycle(need)]
fn call(args: &Items<Boxed<Expr>>) -> u64
    ensures { result ≡ capped (call_need (map needs.needs args.now)) }
{
    if args.is_empty() {
        1
    } else {
        args_need(args.as_slice())
    }
}

// The need of an operand. Most are a name or a number, which asks for no call.
#[cycle(need)]
#[inline(always)]
fn operand(e: &Expr) -> u64
    ensures { result ≡ capped (needs.need e.now) }
{
    match &e.node {
        ExprNode::Number { .. } => 1,
        ExprNode::Name(_) => 1,
        _ => most_need(e, 0),
    }
}

// The need of the first of two indexes, where there is one.
#[cycle(need)]
#[inline(never)]
fn first_index(row: &Option<Boxed<Expr>>) -> Option<u64>
    ensures { result ≡ capped_if (option_map needs.need row.now) }
{
    match row {
        None => None,
        Some(row) => Some(operand(row.get())),
    }
}

// The need of an element's index, in any groups, and none of what is no element.
#[cycle(need)]
#[inline(never)]
fn index_need(e: &Expr) -> Option<u64>
    ensures { result ≡ capped_if (needs.needs e.now).index }
{
    match &e.node {
        ExprNode::Element { row, index, .. } => {
            Some(indexes(first_index(row), operand(index.get())))
        }
        ExprNode::Group(e) => index_need(e.get()),
        ExprNode::Number { .. } => None,
        ExprNode::Name(_) => None,
        ExprNode::Call { .. } => None,
        ExprNode::Unary { .. } => None,
        ExprNode::Cast { .. } => None,
        ExprNode::Bump { .. } => None,
        ExprNode::Binary { .. } => None,
        ExprNode::Choice { .. } => None,
        ExprNode::Assign { .. } => None,
        ExprNode::Comma { .. } => None,
    }
}

// The greater of a number and the need of an expression, counted up to 17. The left operands of a chain are a loop.
#[cycle(need)]
#[inline(never)]
fn most_need(e: &Expr, most: u64) -> u64
    ensures { result ≡ max most (capped (needs.need e.now)) }
{
    match &e.node {
        ExprNode::Number { .. } => larger(most, 1),
        ExprNode::Name(_) => larger(most, 1),
        ExprNode::Element { row, index, .. } => {
            larger(most, indexes(first_index(row), operand(index.get())))
        }
        ExprNode::Call { args, .. } => larger(most, call(args)),
        ExprNode::Group(e) => most_need(e.get(), most),
        ExprNode::Unary { e, .. } => most_need(e.get(), most),
        ExprNode::Cast { e, .. } => most_need(e.get(), most),
        ExprNode::Bump { e, .. } => most_need(e.get(), most),
        ExprNode::Binary { left, right, .. } => {
            most_need(left.get(), larger(most, further(operand(right.get()), 1)))
        }
        ExprNode::Choice { test, yes, no } => most_need(
            test.get(),
            larger(most, larger(operand(yes.get()), operand(no.get()))),
        ),
        ExprNode::Assign { left, right, .. } => larger(
            most,
            assigned(index_need(left.get()), operand(right.get())),
        ),
        ExprNode::Comma { left, right } => {
            most_need(left.get(), larger(most, operand(right.get())))
        }
    }
}

/// Whether the need of a full expression is within the limit.
pub fn need_fits(e: &Expr) -> bool
    ensures { result ≡ needs.need_fits e.now }
{
    most_need(e, 0) <= MOST_NEED
}
