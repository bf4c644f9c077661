//! All statements before what is put out.

ghost use Rattle.std.specs.Prelude.{◌≡◌, OnOk, IfOk, drop};
ghost use Rattle.ir_forms.specs.inside.FlatViews.{code_of, step_of};
ghost use Rattle.hyper_build.specs.inside.Backward as back;
ghost use Rattle.hyper_build.specs.inside.BackwardCode as code;
ghost use Rattle.hyper_build.specs.inside.Backward.{emission_of};
ghost use Rattle.hyper_build.specs.inside.BackwardStatements.{leaving};
ghost use Rattle.hyper_build.specs.inside.Emitted.{rest_of};
ghost use Rattle.hyper_build.specs.inside.Ground as ground;

use crate::calling::{put_back, put_call};
use crate::counting::{steps_in, steps_of};
use crate::emitting::{Emitting, cut, fall, fall_by, fallen_by, put_out, put_rest, take_note};
use crate::exits::{exit_of, goes_on, label_of};
use crate::ground::Site;
use crate::merging::{is_last, is_loop_test, put_merged};
use crate::operands::source;
use crate::posts::is_bare;
use crate::rest::{Rest, jump};
use crate::singles::{
    before_by, put_byte, put_frame, put_get, put_halt, put_jump, put_let, put_loading, put_return,
    put_storing,
};
use crate::straight::{is_if_item, is_straight, put_item, put_items};
use base::{Boxed, Items, Memory};
use ir_forms::{Arg, Exit, FlatStmt, Tail};
use std::alloc::Global;

/// A leg that has blocks begins with one.
fn put_leg(emitting: &mut Emitting, alloc: Global, exit: Option<u32>) -> Result<(), Memory>
    ensures { OnOk result (emission_of emitting.new
        ≡ code.leg_out exit (emission_of emitting.old)) }
{
    match exit {
        None => put_out(emitting, alloc),
        Some(_) => Ok(()),
    }
}

/// A test alone.
#[tactic(auto, using(crate::proofs::Emits::test_is))]
fn test(alloc: Global, arg: Arg, one: u32, other: u32) -> Result<Rest, Memory>
    ensures { IfOk result (λ rest. rest_of rest ≡ code.test_block arg one other) }
{
    let test = source(arg)?;
    let yes = Boxed::new(alloc, Tail::Leave(Exit::Jump(one)))?;
    let no = Boxed::new(alloc, Tail::Leave(Exit::Jump(other)))?;
    Ok(Rest {
        items: Items::new(alloc),
        tail: Tail::Test { test, yes, no },
    })
}

/// A test, behind which nothing is reached.
fn put_test(
    emitting: &mut Emitting,
    alloc: Global,
    arg: Arg,
    one: u32,
    other: u32,
) -> Result<(), Memory>
    ensures { OnOk result (emission_of emitting.new
        ≡ leaving (code.test_block arg one other) (emission_of emitting.old)) }
{
    let rest = test(alloc, arg, one, other)?;
    fall(emitting);
    put_rest(emitting, rest);
    Ok(())
}

/// An if that is an item, with so many statements, itself and those in it.
fn put_joined(
    s: &FlatStmt,
    emitting: &mut Emitting,
    alloc: Global,
    site: &Site,
    statements: u32,
) -> Result<(), Memory>
    ensures { OnOk result (emission_of emitting.new
        ≡ code.items_out (ground.plan site.now) site.now.arrays statements (step_of s.now)
        (emission_of emitting.old)) }
{
    before_by(emitting, alloc, site, statements)?;
    put_item(s, &mut emitting.rest, alloc, site.arrays)
}

/// What a loop's body goes on with.
fn body_end(
    alloc: Global,
    ends: bool,
    arrays: u64,
    post: &[FlatStmt],
    next: u32,
    head: u32,
) -> Result<Rest, Memory>
    ensures { IfOk result (λ rest. rest_of rest
        ≡ code.end_of_body ends arrays (code_of post.now) next head) }
{
    if ends || !is_straight(post) {
        Ok(jump(alloc, next))
    } else {
        let mut rest = jump(alloc, head);
        put_items(post, &mut rest, alloc, arrays)?;
        Ok(rest)
    }
}

/// A statement before what is put out; `last` says whether it is the last one of a loop's body, `on` whether
/// what is put out goes on.
#[cycle(emit)]
fn put_stmt(
    s: &FlatStmt,
    emitting: &mut Emitting,
    alloc: Global,
    site: &Site,
    broke: u32,
    again: u32,
    last: bool,
    on: bool,
) -> Result<(), Memory>
    ensures { OnOk result (emission_of emitting.new
        ≡ code.part_out site.now broke again last on (step_of s.now) (emission_of emitting.old)) }
{
    match s {
        FlatStmt::Let { to, op, a, b } => put_let(emitting, alloc, site, *to, *op, *a, *b)?,
        FlatStmt::Frame { to, at } => put_frame(emitting, alloc, site, *to, *at)?,
        FlatStmt::Load { to, op, address } => {
            put_loading(emitting, alloc, site, *to, *op, *address)?
        }
        FlatStmt::Save { op, address, value } => {
            put_storing(emitting, alloc, site, *op, *address, *value)?
        }
        FlatStmt::Call { function, args, to } => {
            put_back(emitting, alloc, site, *to)?;
            put_call(emitting, alloc, site, *function, args.as_slice())?;
        }
        FlatStmt::Put(value) => put_byte(emitting, alloc, *value)?,
        FlatStmt::Get { to } => put_get(emitting, alloc, site, *to)?,
        FlatStmt::If { test, yes, no } => {
            let statements = steps_in(s)?;
            let place = fallen_by(emitting.place, statements);
            let joined = site.joins(place);
            if is_loop_test(last, joined, no.as_slice()) {
                let ends = site.cuts(place);
                cut(emitting, alloc, ends)?;
                fall(emitting);
                put_stmts(yes.as_slice(), emitting, alloc, site, broke, again)?;
                put_merged(emitting, alloc, *test, broke)?;
            } else if is_if_item(joined, yes.as_slice(), no.as_slice()) {
                put_joined(s, emitting, alloc, site, statements)?;
            } else {
                put_out(emitting, alloc)?;
                let join = emitting.label;
                put_stmts(no.as_slice(), emitting, alloc, site, broke, again)?;
                let exit = exit_of(no.as_slice(), join, broke, again);
                put_leg(emitting, alloc, exit)?;
                let other = label_of(emitting.label, exit);
                put_rest(emitting, jump(alloc, join));
                put_stmts(yes.as_slice(), emitting, alloc, site, broke, again)?;
                let exit = exit_of(yes.as_slice(), join, broke, again);
                put_leg(emitting, alloc, exit)?;
                let one = label_of(emitting.label, exit);
                put_test(emitting, alloc, *test, one, other)?;
            }
        }
        FlatStmt::Loop { body, post } => {
            put_out(emitting, alloc)?;
            let behind = emitting.label;
            let note = take_note(emitting);
            let ends = site.cuts(note.place);
            let arrays = site.arrays;
            put_rest(emitting, jump(alloc, note.head));
            if is_bare(ends, body.as_slice(), post.as_slice()) {
                let statements = steps_of(post.as_slice())?;
                fall_by(emitting, statements);
                let rest = body_end(alloc, ends, arrays, post.as_slice(), note.head, note.head)?;
                put_rest(emitting, rest);
                put_turn(body.as_slice(), emitting, alloc, site, behind, note.head)?;
                put_out(emitting, alloc)?;
                fall(emitting);
            } else {
                put_stmts(post.as_slice(), emitting, alloc, site, behind, note.next)?;
                put_out(emitting, alloc)?;
                let next = emitting.label;
                let rest = body_end(alloc, ends, arrays, post.as_slice(), next, note.head)?;
                put_rest(emitting, rest);
                put_turn(body.as_slice(), emitting, alloc, site, behind, next)?;
                put_out(emitting, alloc)?;
                fall(emitting);
            }
        }
        FlatStmt::Break => put_jump(emitting, alloc, broke, on)?,
        FlatStmt::Continue => put_jump(emitting, alloc, again, on)?,
        FlatStmt::Return(value) => put_return(emitting, alloc, site, *value, on)?,
        FlatStmt::Halt(value) => put_halt(emitting, alloc, *value, on)?,
    }
    Ok(())
}

/// A loop's body before what is put out.
#[cycle(emit)]
fn put_turn(
    stmts: &[FlatStmt],
    emitting: &mut Emitting,
    alloc: Global,
    site: &Site,
    broke: u32,
    again: u32,
) -> Result<(), Memory>
    ensures { OnOk result (emission_of emitting.new
        ≡ code.emit_turn site.now broke again (code_of stmts.now) (emission_of emitting.old)) }
{
    let mut at = stmts.len();
    while at > 0 {
        let last = is_last(stmts, at);
        let on = goes_on(stmts, at);
        at -= 1;
        put_stmt(&stmts[at], emitting, alloc, site, broke, again, last, on)?;
    }
    Ok(())
}

/// Statements before what is put out, where a break and a continue lead to labels.
#[cycle(emit)]
pub fn put_stmts(
    stmts: &[FlatStmt],
    emitting: &mut Emitting,
    alloc: Global,
    site: &Site,
    broke: u32,
    again: u32,
) -> Result<(), Memory>
    ensures { OnOk result (emission_of emitting.new
        ≡ code.emit site.now broke again (code_of stmts.now) (emission_of emitting.old)) }
{
    let mut at = stmts.len();
    while at > 0 {
        let on = goes_on(stmts, at);
        at -= 1;
        put_stmt(&stmts[at], emitting, alloc, site, broke, again, false, on)?;
    }
    Ok(())
}
