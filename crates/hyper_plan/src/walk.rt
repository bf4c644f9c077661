//! The answers of a function's statements, forward: the block that is open is cut where the next statement
//! has no room in it.
//!
//! Functions that hold a second block are not put in line, so that nested statements take little of the
//! host's stack.

ghost use Rattle.std.specs.Prelude.{◌≡◌, ◌+◌, length, true, OnOk};
ghost use Rattle.ir_forms.specs.inside.FlatFits.{steps_in, steps_of};
ghost use Rattle.ir_forms.specs.inside.FlatViews.{code_of, step_of};
ghost use Rattle.hyper_plan.specs.inside.Answers.{only_cuts};

use crate::calls::call;
use crate::estimate::Estimate;
use crate::if_items::{add_item, add_items, are_items};
use crate::items::{add_statement, is_plain};
use crate::open_block::{
    Site, Walk, answer, close, cut_at, cut_last, ending, fits, get, guard, open, single,
};
use base::Memory;
use hyper_build::{is_break, is_small_if};
use ir_forms::{Arg, FlatStmt};

/// What an if is: an item of its block, a loop's test with which the block goes on, or the end of its block.
#[derive(Clone, Copy)]
enum Begun {
    Item,
    Test,
    End,
}

/// What an if may be: its legs are straight, it is a small one, or it is a loop's test.
#[derive(Clone, Copy)]
struct Shape {
    straight: bool,
    small: bool,
    ends: bool,
}

// LOOPS

/// Whether a loop's last part has room in the block with which its body ends.
#[inline(never)]
fn post_fits(walk: &Walk, post: &[FlatStmt], site: &Site) -> bool {
    if !are_items(post) {
        return false;
    }
    let mut block = walk.block;
    add_items(post, &mut block, site.frame);
    guard(walk, &mut block);
    fits(&block, site)
}

/// A loop's last part goes into the block with which its body ends, or that is cut.
fn join_post(walk: &mut Walk, at: usize, post: &[FlatStmt], site: &Site)
    ensures size { length walk.new.answers ≡ length walk.old.answers }
    ensures cuts { site.now.room ≡ 0 → only_cuts walk.old.answers ≡ true
        → only_cuts walk.new.answers ≡ true }
{
    if !post_fits(walk, post, site) {
        cut_at(walk, at, site);
    }
    open(walk, site);
}

/// A place at which a block begins, or behind which nothing is reached.
fn head(walk: &mut Walk, site: &Site) -> Result<(), Memory>
    ensures size { OnOk result (length walk.new.answers ≡ length walk.old.answers + 1) }
    ensures cuts { OnOk result (site.now.room ≡ 0 → only_cuts walk.old.answers ≡ true
        → only_cuts walk.new.answers ≡ true) }
{
    open(walk, site);
    answer(walk, site)
}

// IFS

/// An if goes as an item into the open block, or where it has no room there into another; it does not
/// where it has room in neither, unless it is a small one, which is an item under every plan.
#[inline(never)]
fn join_item(walk: &mut Walk, s: &FlatStmt, small: bool, site: &Site) -> bool
    ensures size { length walk.new.answers ≡ length walk.old.answers }
    ensures cuts { site.now.room ≡ 0 → only_cuts walk.old.answers ≡ true
        → only_cuts walk.new.answers ≡ true }
{
    let mut block = walk.block;
    add_item(s, &mut block, site.frame);
    guard(walk, &mut block);
    if !fits(&block, site) {
        block = Estimate::empty();
        add_item(s, &mut block, site.frame);
        if !small && !fits(&block, site) {
            return false;
        }
        cut_last(walk, site);
    }
    walk.block = block;
    true
}

/// The statements that follow stand in an if that is an item, at a place behind which the block may end.
fn enter_item(walk: &mut Walk, at: usize, site: &Site)
    ensures size { length walk.new.answers ≡ length walk.old.answers }
    ensures cuts { site.now.room ≡ 0 → only_cuts walk.old.answers ≡ true
        → only_cuts walk.new.answers ≡ true }
{
    if at < walk.joins.len() {
        walk.joins.set(at, true);
    }
    walk.last = Some(at);
    walk.in_item = true;
}

/// Whether a loop's test has room behind a block, with the first statement of its leg.
fn test_fits(block: &mut Estimate, test: Arg, leg: &[FlatStmt], site: &Site) -> bool {
    block.merge(test);
    let mut whole = *block;
    match leg.split_first() {
        None => {}
        Some((first, _)) => {
            if !is_plain(first) {
                return false;
            }
            add_statement(&mut whole, first, site.frame);
            whole.under_guard(block.insts);
        }
    }
    fits(&whole, site)
}

/// A loop's test goes with its leg into the open block, or where these have no room there into another; whether it
/// does.
#[inline(never)]
fn join_test(walk: &mut Walk, test: Arg, leg: &[FlatStmt], site: &Site) -> bool
    ensures size { length walk.new.answers ≡ length walk.old.answers }
    ensures cuts { site.now.room ≡ 0 → only_cuts walk.old.answers ≡ true
        → only_cuts walk.new.answers ≡ true }
{
    let mut block = walk.block;
    if !test_fits(&mut block, test, leg, site) {
        block = Estimate::empty();
        if !test_fits(&mut block, test, leg, site) {
            return false;
        }
        cut_last(walk, site);
    }
    walk.block = block;
    true
}

/// Whether an if is a loop's test that goes on in the open block.
fn is_joined_test(walk: &mut Walk, s: &FlatStmt, site: &Site) -> bool
    ensures size { length walk.new.answers ≡ length walk.old.answers }
    ensures cuts { site.now.room ≡ 0 → only_cuts walk.old.answers ≡ true
        → only_cuts walk.new.answers ≡ true }
{
    match s {
        FlatStmt::If { test, yes, .. } => join_test(walk, *test, yes.as_slice(), site),
        _ => false,
    }
}

/// The statements that follow stand under a loop's test, at a place. The block may end behind the first of them.
fn enter_test(walk: &mut Walk, at: usize, site: &Site)
    ensures size { length walk.new.answers ≡ length walk.old.answers }
    ensures cuts { site.now.room ≡ 0 → only_cuts walk.old.answers ≡ true
        → only_cuts walk.new.answers ≡ true }
{
    if at < walk.joins.len() {
        walk.joins.set(at, true);
    }
    walk.last = None;
    walk.guarded = true;
}

/// An if before its legs: whether it begins an item, or is a loop's test with which the block goes on; else the block
/// ends with its test.
fn open_if(walk: &mut Walk, s: &FlatStmt, shape: Shape, site: &Site) -> Result<Begun, Memory>
    ensures size { OnOk result (length walk.new.answers ≡ length walk.old.answers + 1) }
    ensures cuts { OnOk result (site.now.room ≡ 0 → only_cuts walk.old.answers ≡ true
        → only_cuts walk.new.answers ≡ true) }
{
    let at = walk.answers.len();
    if !walk.in_item && shape.ends && is_joined_test(walk, s, site) {
        answer(walk, site)?;
        enter_test(walk, at, site);
        Ok(Begun::Test)
    } else if !walk.in_item && shape.straight && join_item(walk, s, shape.small, site) {
        answer(walk, site)?;
        enter_item(walk, at, site);
        Ok(Begun::Item)
    } else {
        ending(walk, s, site)?;
        Ok(Begun::End)
    }
}

/// Between the legs of an if. The second leg of a loop's test is a break, which adds nothing to the block.
fn between(walk: &mut Walk, begun: Begun, site: &Site)
    ensures size { length walk.new.answers ≡ length walk.old.answers }
    ensures cuts { site.now.room ≡ 0 → only_cuts walk.old.answers ≡ true
        → only_cuts walk.new.answers ≡ true }
{
    match begun {
        Begun::Item => {}
        Begun::Test => walk.in_item = true,
        Begun::End => open(walk, site),
    }
}

/// An if behind its legs.
fn close_if(walk: &mut Walk, begun: Begun, site: &Site)
    ensures size { length walk.new.answers ≡ length walk.old.answers }
    ensures cuts { site.now.room ≡ 0 → only_cuts walk.old.answers ≡ true
        → only_cuts walk.new.answers ≡ true }
{
    match begun {
        Begun::Item => walk.in_item = false,
        Begun::Test => walk.in_item = false,
        Begun::End => open(walk, site),
    }
}

// ALL STATEMENTS

/// A statement's answers; `last` says whether it is the last one of a loop's body.
#[cycle(walk)]
fn walk_stmt(s: &FlatStmt, walk: &mut Walk, site: &Site, last: bool) -> Result<(), Memory>
    ensures size { OnOk result (length walk.new.answers
        ≡ length walk.old.answers + steps_in (step_of s.now)) }
    ensures cuts { OnOk result (site.now.room ≡ 0 → only_cuts walk.old.answers ≡ true
        → only_cuts walk.new.answers ≡ true) }
{
    match s {
        FlatStmt::Let { .. } => single(walk, s, site)?,
        FlatStmt::Frame { .. } => single(walk, s, site)?,
        FlatStmt::Load { .. } => single(walk, s, site)?,
        FlatStmt::Save { .. } => single(walk, s, site)?,
        FlatStmt::Call { args, to, .. } => call(walk, args.as_slice(), *to, site)?,
        FlatStmt::Put(_) => ending(walk, s, site)?,
        FlatStmt::Get { to } => get(walk, s, *to, site)?,
        FlatStmt::If { yes, no, .. } => {
            let straight = are_items(yes.as_slice()) && are_items(no.as_slice());
            let small = is_small_if(yes.as_slice(), no.as_slice());
            let ends = last && is_break(no.as_slice());
            let shape = Shape {
                straight,
                small,
                ends,
            };
            let begun = open_if(walk, s, shape, site)?;
            walk_stmts(yes.as_slice(), walk, site, false)?;
            between(walk, begun, site);
            walk_stmts(no.as_slice(), walk, site, false)?;
            close_if(walk, begun, site);
        }
        FlatStmt::Loop { body, post } => {
            let at = walk.answers.len();
            head(walk, site)?;
            walk_stmts(body.as_slice(), walk, site, true)?;
            join_post(walk, at, post.as_slice(), site);
            walk_stmts(post.as_slice(), walk, site, false)?;
            open(walk, site);
        }
        FlatStmt::Break => head(walk, site)?,
        FlatStmt::Continue => head(walk, site)?,
        FlatStmt::Return(_) => ending(walk, s, site)?,
        FlatStmt::Halt(_) => ending(walk, s, site)?,
    }
    Ok(())
}

/// The answers of statements, behind others; `turn` says whether they are a loop's body.
#[cycle(walk)]
pub fn walk_stmts(
    stmts: &[FlatStmt],
    walk: &mut Walk,
    site: &Site,
    turn: bool,
) -> Result<(), Memory>
    ensures size { OnOk result (length walk.new.answers
        ≡ length walk.old.answers + steps_of (code_of stmts.now)) }
    ensures cuts { OnOk result (site.now.room ≡ 0 → only_cuts walk.old.answers ≡ true
        → only_cuts walk.new.answers ≡ true) }
{
    let mut left = stmts.len();
    for s in stmts {
        left = left.saturating_sub(1);
        walk_stmt(s, walk, site, turn && left == 0)?;
    }
    Ok(())
}
