//! The block that is open: what goes into it, and where it is cut.
//!
//! Functions that hold a second block are not put in line, so that nested statements take little of the
//! host's stack.

ghost use Rattle.std.specs.Prelude.{◌≡◌, ◌+◌, length, true, OnOk};
ghost use Rattle.hyper_plan.specs.inside.Answers.{only_cuts};

use crate::estimate::Estimate;
use crate::items::{Frame, add_result, add_return, add_statement};
use base::{Items, Memory};
use ir_forms::FlatStmt;

/// What is known of a function: the instructions that a block may have, its frame, and the groups that
/// each call of the program saves.
#[derive(Drop)]
pub struct Site<'a> {
    pub room: u8,
    pub frame: Frame,
    pub groups: &'a Items<Items<Items<u16>>>,
}

/// The answers so far, to cut and to join, the last place at which the open block may end, what that block
/// comes to, whether the open block goes on under a loop's test, whether the statement stands in an if that is an
/// item, and the calls that stand before.
#[derive(Drop)]
pub struct Walk {
    pub answers: Items<bool>,
    pub joins: Items<bool>,
    pub last: Option<usize>,
    pub block: Estimate,
    pub guarded: bool,
    pub in_item: bool,
    pub calls: usize,
}

/// The block is cut at a place.
#[tactic(auto, using(crate::proofs::Growing::size_set, crate::proofs::Growing::only_set))]
pub fn cut_at(walk: &mut Walk, at: usize, site: &Site)
    ensures size { length walk.new.answers ≡ length walk.old.answers }
    ensures cuts { site.now.room ≡ 0 → only_cuts walk.old.answers ≡ true
        → only_cuts walk.new.answers ≡ true }
{
    if at < walk.answers.len() {
        walk.answers.set(at, true);
    }
}

/// Another block begins; in an if that is an item none does.
pub fn open(walk: &mut Walk, site: &Site)
    ensures size { length walk.new.answers ≡ length walk.old.answers }
    ensures cuts { site.now.room ≡ 0 → only_cuts walk.old.answers ≡ true
        → only_cuts walk.new.answers ≡ true }
{
    if walk.in_item {
        return;
    }
    walk.last = None;
    walk.block = Estimate::empty();
    walk.guarded = false;
}

/// The block is cut where it may be cut last, and another begins.
pub fn cut_last(walk: &mut Walk, site: &Site)
    ensures size { length walk.new.answers ≡ length walk.old.answers }
    ensures cuts { site.now.room ≡ 0 → only_cuts walk.old.answers ≡ true
        → only_cuts walk.new.answers ≡ true }
{
    match walk.last {
        None => {}
        Some(at) => cut_at(walk, at, site),
    }
    open(walk, site);
}

/// Whether what a block comes to is within the room.
pub fn fits(block: &Estimate, site: &Site) -> bool {
    block.fits(site.room as u32)
}

/// What was added to the open block stands under its guard, where it has one.
pub fn guard(walk: &Walk, block: &mut Estimate) {
    if walk.guarded {
        block.under_guard(walk.block.insts);
    }
}

/// A statement goes into the open block, or where it has no room there into another. One of an if that is an
/// item is there already.
#[inline(never)]
fn join(walk: &mut Walk, s: &FlatStmt, site: &Site)
    ensures size { length walk.new.answers ≡ length walk.old.answers }
    ensures cuts { site.now.room ≡ 0 → only_cuts walk.old.answers ≡ true
        → only_cuts walk.new.answers ≡ true }
{
    if walk.in_item {
        return;
    }
    let mut block = walk.block;
    add_statement(&mut block, s, site.frame);
    guard(walk, &mut block);
    if !fits(&block, site) {
        cut_last(walk, site);
        block = Estimate::empty();
        add_statement(&mut block, s, site.frame);
    }
    walk.block = block;
}

/// What ends the open block goes into it, or where it has no room there into another.
pub fn close(walk: &mut Walk, block: &Estimate, site: &Site)
    ensures size { length walk.new.answers ≡ length walk.old.answers }
    ensures cuts { site.now.room ≡ 0 → only_cuts walk.old.answers ≡ true
        → only_cuts walk.new.answers ≡ true }
{
    if !fits(block, site) {
        cut_last(walk, site);
    }
    open(walk, site);
}

/// The answer of a place: the block goes on, unless there is no room at all.
#[tactic(auto, using(crate::proofs::Growing::only_answered))]
pub fn answer(walk: &mut Walk, site: &Site) -> Result<(), Memory>
    ensures size { OnOk result (length walk.new.answers ≡ length walk.old.answers + 1) }
    ensures cuts { OnOk result (site.now.room ≡ 0 → only_cuts walk.old.answers ≡ true
        → only_cuts walk.new.answers ≡ true) }
{
    walk.answers.push(site.room == 0)?;
    walk.joins.push(false)?;
    Ok(())
}

/// The block may end behind a place, unless that stands in an if that is an item.
pub fn may_end(walk: &mut Walk, at: usize, site: &Site)
    ensures size { length walk.new.answers ≡ length walk.old.answers }
    ensures cuts { site.now.room ≡ 0 → only_cuts walk.old.answers ≡ true
        → only_cuts walk.new.answers ≡ true }
{
    if !walk.in_item {
        walk.last = Some(at);
    }
}

/// A statement behind which the block may end.
pub fn single(walk: &mut Walk, s: &FlatStmt, site: &Site) -> Result<(), Memory>
    ensures size { OnOk result (length walk.new.answers ≡ length walk.old.answers + 1) }
    ensures cuts { OnOk result (site.now.room ≡ 0 → only_cuts walk.old.answers ≡ true
        → only_cuts walk.new.answers ≡ true) }
{
    join(walk, s, site);
    let at = walk.answers.len();
    may_end(walk, at, site);
    answer(walk, site)
}

/// A statement with which the block ends.
pub fn ending(walk: &mut Walk, s: &FlatStmt, site: &Site) -> Result<(), Memory>
    ensures size { OnOk result (length walk.new.answers ≡ length walk.old.answers + 1) }
    ensures cuts { OnOk result (site.now.room ≡ 0 → only_cuts walk.old.answers ≡ true
        → only_cuts walk.new.answers ≡ true) }
{
    join(walk, s, site);
    open(walk, site);
    answer(walk, site)
}

/// What a system call took in begins a block, behind which that may end.
pub fn get(walk: &mut Walk, s: &FlatStmt, to: u16, site: &Site) -> Result<(), Memory>
    ensures size { OnOk result (length walk.new.answers ≡ length walk.old.answers + 1) }
    ensures cuts { OnOk result (site.now.room ≡ 0 → only_cuts walk.old.answers ≡ true
        → only_cuts walk.new.answers ≡ true) }
{
    let at = walk.answers.len();
    ending(walk, s, site)?;
    add_result(&mut walk.block, to);
    walk.last = Some(at);
    Ok(())
}

/// The way out behind a body that comes to its end.
#[inline(never)]
pub fn leave(walk: &mut Walk, site: &Site)
    ensures size { length walk.new.answers ≡ length walk.old.answers }
    ensures cuts { site.now.room ≡ 0 → only_cuts walk.old.answers ≡ true
        → only_cuts walk.new.answers ≡ true }
{
    let mut block = walk.block;
    add_return(&mut block, None, site.frame);
    guard(walk, &mut block);
    close(walk, &block, site);
}
