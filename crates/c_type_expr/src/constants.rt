//! Constant expressions and full expressions.

ghost use Rattle.std.specs.Prelude.{◌≡◌, map, option_map, Option};
ghost use Rattle.std.specs.Option.{option_copied};
ghost use Rattle.c_type_expr.specs.Scope.{look_up};
ghost use Rattle.c_type_expr.specs.Constants as constants;
ghost use Rattle.c_constant.specs.Constant as sizes;
ghost use Rattle.c_type_expr.specs.Blames as blames;
ghost use Rattle.c_type_expr.specs.Trees.{tree};
ghost use Rattle.c_type_expr.specs.inside.Says.{Says};

use crate::expressions::type_expr;
use crate::fault::TypeFault;
use crate::meaning::Meaning;
use crate::role::Role;
use crate::scopes::Scopes;
use base::{Boxed, Items};
use c_constant::{constant_of, convert, need_fits};
use c_tree::{Expr, ExprNode, Kind, TypedExpr, Word};
use std::alloc::Global;

fn first(a: Option<TypeFault>, b: Option<TypeFault>) -> Option<TypeFault>
    ensures { result ≡ blames.first a b }
{
    match a {
        None => b,
        Some(_) => a,
    }
}

#[inline(never)]
fn no_constant(is_known: bool, offset: u32) -> Option<TypeFault>
    ensures { result ≡ constants.no_constant is_known offset }
{
    if is_known {
        Some(TypeFault::Mismatch(offset))
    } else {
        Some(TypeFault::Unknown(offset))
    }
}

fn mismatch(offset: u32) -> Option<TypeFault>
    ensures { result ≡ Some (TypeFault.Mismatch offset) }
{
    Some(TypeFault::Mismatch(offset))
}

#[cycle(fixed)]
fn none_fixed(scope: &Scopes, args: &[Boxed<Expr>]) -> Option<TypeFault>
    ensures { result ≡ constants.all_fixed (map constants.not_fixed args.now) scope.now }
{
    let mut found = None;
    for arg in args {
        found = first(found, not_fixed(scope, arg.get()));
    }
    found
}

// Whether a call of what was found is no call of an unknown function.
fn calls_known(found: Option<&Meaning>) -> bool
    ensures { result ≡ constants.calls_known (option_copied found.entry) }
{
    match found {
        None => false,
        Some(Meaning::Function { callee, .. }) => callee.is_some(),
        Some(_) => true,
    }
}

// The first part of a call that is no constant, or the call itself.
#[cycle(fixed)]
#[inline(never)]
fn call_fixed(
    scope: &Scopes,
    function: &Word,
    args: &Items<Boxed<Expr>>,
    offset: u32,
) -> Option<TypeFault>
    ensures { result ≡ blames.first (constants.all_fixed (map constants.not_fixed args.now)
        scope.now)
        (constants.no_constant (constants.calls_known (look_up scope.now function.now)) offset) }
{
    let found = none_fixed(scope, args.as_slice());
    first(
        found,
        no_constant(calls_known(scope.look_up(function)), offset),
    )
}

// The fault of an operand, or else one that comes after it. This and the next stand in frames of their own.
#[cycle(fixed)]
#[inline(never)]
fn before(scope: &Scopes, e: &Expr, then: Option<TypeFault>) -> Option<TypeFault>
    ensures { result ≡ blames.first (constants.not_fixed e.now scope.now) then }
{
    first(not_fixed(scope, e), then)
}

// The fault of an operand, or else that of the node at this offset.
#[cycle(fixed)]
#[inline(never)]
fn or_mismatch(scope: &Scopes, e: &Expr, offset: u32) -> Option<TypeFault>
    ensures { result ≡ blames.first (constants.not_fixed e.now scope.now)
        (Some (TypeFault.Mismatch offset)) }
{
    first(not_fixed(scope, e), mismatch(offset))
}

// A name is `EOF`, or no constant.
#[inline(never)]
fn name_fixed(found: Option<&Meaning>, offset: u32) -> Option<TypeFault>
    ensures { result ≡ constants.name_fixed (option_copied found.entry) offset }
{
    match found {
        None => Some(TypeFault::Unknown(offset)),
        Some(Meaning::EndOfFile) => None,
        Some(_) => Some(TypeFault::Mismatch(offset)),
    }
}

// The fault of the first of two indexes, where there is one, or else one that comes after it.
#[cycle(fixed)]
#[inline(never)]
fn row_before(
    scope: &Scopes,
    row: &Option<Boxed<Expr>>,
    then: Option<TypeFault>,
) -> Option<TypeFault>
    ensures { result ≡ blames.first
        (constants.row_fixed (option_map constants.not_fixed row.now) scope.now) then }
{
    match row {
        None => then,
        Some(row) => first(not_fixed(scope, row.get()), then),
    }
}

// The first part of an expression that is no constant.
#[cycle(fixed)]
fn not_fixed(scope: &Scopes, e: &Expr) -> Option<TypeFault>
    ensures { result ≡ constants.not_fixed e.now scope.now }
{
    match &e.node {
        ExprNode::Number { .. } => None,
        ExprNode::Name(word) => name_fixed(scope.look_up(word), e.offset),
        ExprNode::Element { array, row, index } => row_before(
            scope,
            row,
            before(
                scope,
                index.get(),
                no_constant(scope.look_up(array).is_some(), e.offset),
            ),
        ),
        ExprNode::Call { function, args } => call_fixed(scope, function, args, e.offset),
        ExprNode::Group(e) => not_fixed(scope, e.get()),
        ExprNode::Unary { e, .. } => not_fixed(scope, e.get()),
        ExprNode::Cast { e, .. } => not_fixed(scope, e.get()),
        ExprNode::Bump { e: operand, .. } => or_mismatch(scope, operand.get(), e.offset),
        ExprNode::Binary { left, right, .. } => {
            before(scope, left.get(), not_fixed(scope, right.get()))
        }
        ExprNode::Choice { test, yes, no } => before(
            scope,
            test.get(),
            before(scope, yes.get(), not_fixed(scope, no.get())),
        ),
        ExprNode::Assign { left, right, .. } => before(
            scope,
            left.get(),
            or_mismatch(scope, right.get(), e.offset),
        ),
        ExprNode::Comma { left, right } => before(
            scope,
            left.get(),
            or_mismatch(scope, right.get(), e.offset),
        ),
    }
}

// Nothing where nothing fails.
fn refuse(fault: Option<TypeFault>) -> Result<(), TypeFault>
    ensures { Says fault tt result }
{
    match fault {
        None => Ok(()),
        Some(fault) => Err(fault),
    }
}

/// The typed tree of a full expression: its need is judged after its nodes.
pub fn full(
    alloc: Global,
    scope: &Scopes,
    role: Role,
    e: Boxed<Expr>,
) -> Result<Boxed<TypedExpr>, TypeFault>
    ensures { Says (constants.full e role scope.now) (tree e scope.now) result }
{
    let offset = e.get().offset;
    let fits = need_fits(e.get());
    let typed = type_expr(alloc, scope, role, e)?;
    if fits {
        Ok(typed)
    } else {
        Err(TypeFault::Need(offset))
    }
}

fn value_in(value: Option<u64>, offset: u32) -> Result<u64, TypeFault>
    ensures { Says (constants.value_fault value offset) (sizes.word_in value) result }
{
    match value {
        None => Err(TypeFault::Mismatch(offset)),
        Some(word) => Ok(word),
    }
}

fn need_of(e: &Expr) -> Result<(), TypeFault>
    ensures { Says (constants.need_fault e.now) tt result }
{
    if need_fits(e) {
        Ok(())
    } else {
        Err(TypeFault::Need(e.offset))
    }
}

/// The word, at a kind, of a full expression that is a constant.
pub fn full_constant(scope: &Scopes, kind: Kind, e: &Expr) -> Result<u64, TypeFault>
    ensures { Says (constants.full_constant e.now scope.now) (constants.constant_at kind e.now)
        result }
{
    refuse(not_fixed(scope, e))?;
    let word = value_in(constant_of(e).value, e.offset)?;
    need_of(e)?;
    Ok(convert(kind, word))
}

fn length_in(kind: Kind, value: Option<u64>) -> Option<u64>
    ensures { result ≡ sizes.length_in kind value }
{
    match value {
        None => None,
        Some(word) => {
            let is_negative = match kind {
                Kind::Char | Kind::Short | Kind::Int | Kind::Long => word >= 0x8000_0000_0000_0000,
                _ => false,
            };
            if is_negative || word == 0 {
                None
            } else {
                Some(word)
            }
        }
    }
}

/// The length that a size stands for, or 0.
pub fn length_or_zero(e: &Expr) -> u64
    ensures { result ≡ sizes.word_in (sizes.length_of e.now) }
{
    let found = constant_of(e);
    match length_in(found.kind, found.value) {
        None => 0,
        Some(length) => length,
    }
}

/// The length that a size stands for: a constant of at least 1.
pub fn size_length(scope: &Scopes, e: &Expr) -> Result<u64, TypeFault>
    ensures { Says (constants.size_fault e.now scope.now)
        (sizes.word_in (sizes.length_of e.now)) result }
{
    refuse(not_fixed(scope, e))?;
    let found = constant_of(e);
    value_in(length_in(found.kind, found.value), e.offset)
}
