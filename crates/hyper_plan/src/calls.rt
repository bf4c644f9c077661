//! Calls: what stands before one is one block where it has room, and so what it comes back to.
//!
//! Functions that hold a second block are not put in line, so that nested statements take little of the
//! host's stack.

ghost use Rattle.std.specs.Prelude.{◌≡◌, ◌+◌, length, true, OnOk};
ghost use Rattle.hyper_plan.specs.inside.Answers.{only_cuts};

use crate::estimate::Estimate;
use crate::items::{add_call, add_restores, add_result, add_saves};
use crate::open_block::{Site, Walk, answer, close, cut_at, fits, guard};
use base::{Items, Memory};
use ir_forms::Arg;

/// The groups that a call saves, of the next call; where there are none, none.
fn next_groups<'a>(walk: &Walk, site: &Site<'a>) -> &'a [Items<u16>] {
    match site.groups.get(walk.calls) {
        None => &[],
        Some(groups) => groups.as_slice(),
    }
}

/// The saves of a call, its arguments and the call itself.
#[inline(never)]
fn add_leaving(block: &mut Estimate, args: &[Arg], groups: &[Items<u16>], site: &Site) {
    for group in groups {
        add_saves(block, group.as_slice(), site.frame);
    }
    add_call(block, args);
}

/// The restores of a call, and its result.
#[inline(never)]
fn add_coming(block: &mut Estimate, to: Option<u16>, groups: &[Items<u16>], site: &Site) {
    for group in groups {
        add_restores(block, group.as_slice(), site.frame);
    }
    match to {
        None => {}
        Some(to) => add_result(block, to),
    }
}

/// Whether what stands before a call has room in one block, and so what it comes back to.
#[inline(never)]
fn call_fits(args: &[Arg], to: Option<u16>, groups: &[Items<u16>], site: &Site) -> bool {
    let mut block = Estimate::empty();
    add_leaving(&mut block, args, groups, site);
    let leaves = fits(&block, site);
    block = Estimate::empty();
    add_coming(&mut block, to, groups, site);
    leaves && fits(&block, site)
}

/// A call's first group of saves, or where it saves nothing its arguments, go into the open block, which then ends.
#[inline(never)]
fn join_part(walk: &mut Walk, args: &[Arg], groups: &[Items<u16>], site: &Site)
    ensures size { length walk.new.answers ≡ length walk.old.answers }
    ensures cuts { site.now.room ≡ 0 → only_cuts walk.old.answers ≡ true
        → only_cuts walk.new.answers ≡ true }
{
    let mut block = walk.block;
    match groups.first() {
        None => add_call(&mut block, args),
        Some(group) => add_saves(&mut block, group.as_slice(), site.frame),
    }
    guard(walk, &mut block);
    close(walk, &block, site);
}

/// All that stands before a call goes into the open block, or another.
#[inline(never)]
fn join_call(walk: &mut Walk, args: &[Arg], groups: &[Items<u16>], site: &Site)
    ensures size { length walk.new.answers ≡ length walk.old.answers }
    ensures cuts { site.now.room ≡ 0 → only_cuts walk.old.answers ≡ true
        → only_cuts walk.new.answers ≡ true }
{
    let mut block = walk.block;
    add_leaving(&mut block, args, groups, site);
    guard(walk, &mut block);
    close(walk, &block, site);
}

/// A call that has room: the block that it comes back to goes on behind it, and may end there.
fn whole_call(
    walk: &mut Walk,
    args: &[Arg],
    to: Option<u16>,
    groups: &[Items<u16>],
    site: &Site,
) -> Result<(), Memory>
    ensures size { OnOk result (length walk.new.answers ≡ length walk.old.answers + 1) }
    ensures cuts { OnOk result (site.now.room ≡ 0 → only_cuts walk.old.answers ≡ true
        → only_cuts walk.new.answers ≡ true) }
{
    let at = walk.answers.len();
    join_call(walk, args, groups, site);
    add_coming(&mut walk.block, to, groups, site);
    walk.last = Some(at);
    answer(walk, site)
}

/// A call that has no room in one block, or comes back to what has none: it is cut small, and behind it the block
/// ends.
fn small_call(
    walk: &mut Walk,
    args: &[Arg],
    groups: &[Items<u16>],
    site: &Site,
) -> Result<(), Memory>
    ensures size { OnOk result (length walk.new.answers ≡ length walk.old.answers + 1) }
    ensures cuts { OnOk result (site.now.room ≡ 0 → only_cuts walk.old.answers ≡ true
        → only_cuts walk.new.answers ≡ true) }
{
    let at = walk.answers.len();
    join_part(walk, args, groups, site);
    answer(walk, site)?;
    cut_at(walk, at, site);
    Ok(())
}

/// A call; its result begins a block, behind which that may end.
pub fn call(walk: &mut Walk, args: &[Arg], to: Option<u16>, site: &Site) -> Result<(), Memory>
    ensures size { OnOk result (length walk.new.answers ≡ length walk.old.answers + 1) }
    ensures cuts { OnOk result (site.now.room ≡ 0 → only_cuts walk.old.answers ≡ true
        → only_cuts walk.new.answers ≡ true) }
{
    let groups = next_groups(walk, site);
    walk.calls = walk.calls.saturating_add(1);
    if call_fits(args, to, groups, site) {
        whole_call(walk, args, to, groups, site)
    } else {
        small_call(walk, args, groups, site)
    }
}
