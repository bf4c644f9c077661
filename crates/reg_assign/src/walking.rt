//! What is live: the second pass, backward.

ghost use Rattle.std.specs.Prelude.{◌≡◌, OnOk};
ghost use Rattle.ir_forms.specs.inside.FlatViews.{code_of, step_of};
ghost use Rattle.reg_assign.specs.inside.Pass as pass;

use crate::sets::{bit, members_of, read_by, read_if, set_by, with_read, without};
use base::{Items, Memory};
use ir_forms::{Arg, FlatStmt};
use std::alloc::Global;

/// What is live where the pass stands, what the loops that it has not met read, and the lists of
/// the calls that it has met.
#[derive(Drop)]
pub struct Walk {
    pub live: u128,
    pub loops: Items<u128>,
    pub lists: Items<Items<u16>>,
}

/// Before a statement that sets a variable.
fn set(walk: &mut Walk, to: u16)
    ensures { walk.new ≡ pass.setting walk.old to }
{
    walk.live = without(walk.live, bit(to));
}

/// Before a statement that reads an operand.
fn read(walk: &mut Walk, x: Arg)
    ensures { walk.new ≡ pass.reading_one walk.old x }
{
    walk.live = walk.live | read_by(x);
}

fn before_call(walk: &mut Walk, alloc: Global, args: &[Arg], to: Option<u16>) -> Result<(), Memory>
    ensures { OnOk result (walk.new ≡ pass.before_call walk.old to args.now) }
{
    let left = without(walk.live, set_by(to));
    let list = members_of(alloc, left)?;
    walk.lists.push(list)?;
    walk.live = with_read(left, args);
    Ok(())
}

/// Goes on where another set is live; gives the one that was.
fn live_is(walk: &mut Walk, live: u128) -> u128
    ensures before { result ≡ walk.old.live }
    ensures after { walk.new ≡ pass.living walk.old live }
{
    let was = walk.live;
    walk.live = live;
    was
}

/// Before an if whose other part begins where `other` is live.
fn before_if(walk: &mut Walk, test: Arg, other: u128)
    ensures { walk.new ≡ pass.before_if test other walk.old }
{
    walk.live = walk.live | other;
    read(walk, test);
}

fn take_last(loops: &mut Items<u128>) -> u128
    ensures last { result ≡ pass.last_of loops.old }
    ensures front { loops.new ≡ pass.front_of loops.old }
{
    match loops.pop() {
        None => 0,
        Some(reads) => reads,
    }
}

/// Goes to a loop's head; gives what is live there.
fn enter_loop(walk: &mut Walk) -> u128
    ensures head { result ≡ (pass.at_head walk.old).live }
    ensures after { walk.new ≡ pass.at_head walk.old }
{
    let reads = take_last(&mut walk.loops);
    walk.live = walk.live | reads;
    walk.live
}

#[cycle(walk)]
fn walk_stmt(
    s: &FlatStmt,
    walk: &mut Walk,
    alloc: Global,
    on_break: u128,
    on_continue: u128,
) -> Result<(), Memory>
    ensures { OnOk result (walk.new
        ≡ pass.walk_in (step_of s.now) on_break on_continue walk.old) }
{
    match s {
        FlatStmt::Let { to, a, b, .. } => {
            set(walk, *to);
            read(walk, *a);
            read(walk, *b);
        }
        FlatStmt::Frame { to, .. } => set(walk, *to),
        FlatStmt::Load { to, address, .. } => {
            set(walk, *to);
            read(walk, *address);
        }
        FlatStmt::Save { address, value, .. } => {
            read(walk, *address);
            read(walk, *value);
        }
        FlatStmt::Call { args, to, .. } => before_call(walk, alloc, args.as_slice(), *to)?,
        FlatStmt::Put(value) => read(walk, *value),
        FlatStmt::Get { to } => set(walk, *to),
        FlatStmt::If { test, yes, no } => {
            let next = walk.live;
            walk_stmts(no.as_slice(), walk, alloc, on_break, on_continue)?;
            let other = live_is(walk, next);
            walk_stmts(yes.as_slice(), walk, alloc, on_break, on_continue)?;
            before_if(walk, *test, other);
        }
        FlatStmt::Loop { body, post } => {
            let next = walk.live;
            let head = enter_loop(walk);
            walk_stmts(post.as_slice(), walk, alloc, 0, 0)?;
            walk.live = head;
            walk_stmts(body.as_slice(), walk, alloc, next, head)?;
            walk.live = head;
        }
        FlatStmt::Break => walk.live = on_break,
        FlatStmt::Continue => walk.live = on_continue,
        FlatStmt::Return(value) => walk.live = read_if(*value),
        FlatStmt::Halt(value) => walk.live = read_by(*value),
    }
    Ok(())
}

/// Goes backward over statements, where a break and a continue lead to what is live there.
#[cycle(walk)]
pub fn walk_stmts(
    stmts: &[FlatStmt],
    walk: &mut Walk,
    alloc: Global,
    on_break: u128,
    on_continue: u128,
) -> Result<(), Memory>
    ensures { OnOk result (walk.new
        ≡ pass.walk (code_of stmts.now) on_break on_continue walk.old) }
{
    let mut at = stmts.len();
    while at > 0 {
        at -= 1;
        walk_stmt(&stmts[at], walk, alloc, on_break, on_continue)?;
    }
    Ok(())
}
