//! Code that is items alone.

ghost use Rattle.std.specs.Prelude.{◌≡◌, ◌&&◌, ◌||◌, OnOk};
ghost use Rattle.ir_forms.specs.inside.FlatCode.{◌▹◌, Nop};
ghost use Rattle.ir_forms.specs.inside.FlatFits as flat;
ghost use Rattle.ir_forms.specs.inside.FlatViews.{code_of, step_of};
ghost use Rattle.ir_forms.specs.inside.HyperViews.{items_of};
ghost use Rattle.hyper_build.specs.inside.Parts as parts;
ghost use Rattle.hyper_build.specs.inside.BackwardItems as code;
ghost use Rattle.hyper_build.specs.inside.Straight as annotated;
ghost use Rattle.hyper_build.specs.inside.Emitted.{rest_of};

use crate::operands::{capped, register_of, source};
use crate::rest::{Rest, closed, jump, put_load, put_save, put_set};
use crate::singles::below_arrays;
use base::{Items, Memory};
use ir_forms::{Arg, FlatStmt, HyperBlock, HyperItem, Source};
use std::alloc::Global;
use trips_isa::Op;

/// Whether both are so.
pub fn both(one: bool, other: bool) -> bool
    ensures { result ≡ one && other }
{
    one && other
}

/// Whether one of both is so.
pub fn either(one: bool, other: bool) -> bool
    ensures { result ≡ one || other }
{
    one || other
}

/// Whether a statement is items alone.
#[cycle(straight)]
fn is_straight_stmt(s: &FlatStmt) -> bool
    ensures { result ≡ code.is_straight_in (step_of s.now) }
{
    match s {
        FlatStmt::Let { .. } => true,
        FlatStmt::Frame { .. } => true,
        FlatStmt::Load { .. } => true,
        FlatStmt::Save { .. } => true,
        FlatStmt::If { yes, no, .. } => {
            let one = is_straight(yes.as_slice());
            let other = is_straight(no.as_slice());
            both(one, other)
        }
        _ => false,
    }
}

/// Whether statements are items alone.
#[cycle(straight)]
pub fn is_straight(stmts: &[FlatStmt]) -> bool
    ensures { result ≡ code.is_straight (code_of stmts.now) }
{
    let mut all = true;
    let mut at = stmts.len();
    while at > 0 {
        at -= 1;
        let one = is_straight_stmt(&stmts[at]);
        all = both(one, all);
    }
    all
}

/// Whether a statement alone is a leg of a small if.
fn is_leg(s: &FlatStmt) -> bool
    ensures { result ≡ flat.is_small_leg (step_of s.now ▹ Nop) }
{
    match s {
        FlatStmt::Let { .. } => true,
        _ => false,
    }
}

/// Whether a leg is empty or one operation.
fn is_small_leg(stmts: &[FlatStmt]) -> bool
    ensures { result ≡ flat.is_small_leg (code_of stmts.now) }
{
    let (first, rest) = match stmts.split_first() {
        None => return true,
        Some(parts) => parts,
    };
    if rest.is_empty() {
        is_leg(first)
    } else {
        false
    }
}

/// Whether a leg is empty.
pub fn is_no_leg(stmts: &[FlatStmt]) -> bool
    ensures { result ≡ flat.is_empty (code_of stmts.now) }
{
    match stmts.split_first() {
        None => true,
        Some(_) => false,
    }
}

/// Whether an if is a small one, which is an item under every plan: its legs are each empty or one operation, and
/// not both empty.
pub fn is_small_if(yes: &[FlatStmt], no: &[FlatStmt]) -> bool
    ensures { result ≡ annotated.is_small_if (code_of yes.now) (code_of no.now) }
{
    let one = is_small_leg(yes);
    let other = is_small_leg(no);
    let empty = both(is_no_leg(yes), is_no_leg(no));
    both(both(one, other), !empty)
}

/// Whether an if is an item of its block, by its legs; a small one always is.
pub fn is_if_item(joined: bool, yes: &[FlatStmt], no: &[FlatStmt]) -> bool
    ensures { result ≡ code.is_if_item joined (code_of yes.now) (code_of no.now) }
{
    if either(joined, is_small_if(yes, no)) {
        let one = is_straight(yes);
        let other = is_straight(no);
        both(one, other)
    } else {
        false
    }
}

/// The items of a rest, the first first.
fn items_in(rest: Rest) -> Items<HyperItem>
    ensures { items_of result ≡ (rest_of rest).items }
{
    let HyperBlock { items, tail: _ } = closed(rest);
    items
}

/// An if as an item before a rest.
#[tactic(auto, using(crate::proofs::Emits::if_is))]
pub fn put_if(
    rest: &mut Rest,
    test: Source,
    yes: Items<HyperItem>,
    no: Items<HyperItem>,
) -> Result<(), Memory>
    ensures { OnOk result (rest_of rest.new
        ≡ code.if_then test (items_of yes) (items_of no) (rest_of rest.old)) }
{
    rest.items.push(HyperItem::If { test, yes, no })?;
    Ok(())
}

/// A variable becomes the address of a byte of the arrays, before a rest.
fn put_frame_item(rest: &mut Rest, arrays: u64, to: u16, at: u32) -> Result<(), Memory>
    ensures { OnOk result (rest_of rest.new ≡ code.frame_then arrays to at (rest_of rest.old)) }
{
    let below = capped(below_arrays(arrays, at));
    put_set(
        rest,
        register_of(to)?,
        Op::Sub,
        Source::Reg(1),
        Source::Const(below),
    )
}

/// The items of a straight statement, before a rest.
#[cycle(items)]
pub fn put_item(s: &FlatStmt, rest: &mut Rest, alloc: Global, arrays: u64) -> Result<(), Memory>
    ensures { OnOk result (rest_of rest.new
        ≡ code.items_before (code.straight_items_in arrays (step_of s.now)) (rest_of rest.old)) }
{
    match s {
        FlatStmt::Let { to, op, a, b } => {
            put_set(rest, register_of(*to)?, *op, source(*a)?, source(*b)?)?
        }
        FlatStmt::Frame { to, at } => put_frame_item(rest, arrays, *to, *at)?,
        FlatStmt::Load { to, op, address } => {
            put_load(rest, register_of(*to)?, *op, source(*address)?)?
        }
        FlatStmt::Save { op, address, value } => {
            put_save(rest, *op, source(*address)?, source(*value)?)?
        }
        FlatStmt::Call { .. } => {}
        FlatStmt::Put(_) => {}
        FlatStmt::Get { .. } => {}
        FlatStmt::If { test, yes, no } => {
            let mut one = jump(alloc, 0);
            put_items(yes.as_slice(), &mut one, alloc, arrays)?;
            let mut other = jump(alloc, 0);
            put_items(no.as_slice(), &mut other, alloc, arrays)?;
            put_if(rest, source(*test)?, items_in(one), items_in(other))?;
        }
        FlatStmt::Loop { .. } => {}
        FlatStmt::Break => {}
        FlatStmt::Continue => {}
        FlatStmt::Return(_) => {}
        FlatStmt::Halt(_) => {}
    }
    Ok(())
}

/// The items of straight statements, before a rest.
#[cycle(items)]
pub fn put_items(
    stmts: &[FlatStmt],
    rest: &mut Rest,
    alloc: Global,
    arrays: u64,
) -> Result<(), Memory>
    ensures { OnOk result (rest_of rest.new
        ≡ code.items_before (code.straight_items arrays (code_of stmts.now)) (rest_of rest.old)) }
{
    let mut at = stmts.len();
    while at > 0 {
        at -= 1;
        put_item(&stmts[at], rest, alloc, arrays)?;
    }
    Ok(())
}
