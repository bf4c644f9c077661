//! Where the groups of guards and operands begin.
ghost use Rattle.std.specs.Prelude.{IfOk, length, ◌<◌, ◌^◌, drop};
ghost use Rattle.null_outputs.specs.inside.Groups as groups;
ghost use Rattle.null_outputs.specs.inside.Listed as listed;

use crate::ends::{guard_end, left_end, right_end};
use crate::places::{Guess, Region};
use base::{Items, Memory};
use ir_forms::FlowNode;
use std::alloc::Global;

/// The groups of the guards with this bit.
pub fn guard_region(
    alloc: Global,
    nodes: &[FlowNode],
    guess: &Guess,
    s: bool,
    first: u32,
) -> Result<Region, Memory>
    requires { length nodes.now < 2 ^ 32 }
    ensures { IfOk result (λ r. listed.IsRegion
        (groups.guard_part_size (listed.want_in_guess guess.now) nodes.now
        (listed.sure_in_guess nodes.now guess.now) s) first
        nodes.now r) }
{
    let mut starts = Items::new(alloc);
    let mut p = first;
    let mut j = 0;
    for n in nodes {
        starts.push(p)?;
        p = guard_end(alloc, nodes, guess, s, p, j, n)?;
        j += 1;
    }
    Ok(Region { starts, end: p })
}

/// The covers of left operands.
pub fn left_region(
    alloc: Global,
    nodes: &[FlowNode],
    guess: &Guess,
    first: u32,
) -> Result<Region, Memory>
    requires { length nodes.now < 2 ^ 32 }
    ensures { IfOk result (λ r. listed.IsRegion
        (groups.left_size (listed.sure_in_guess nodes.now guess.now)
        (listed.want_in_guess guess.now)) first
        nodes.now r) }
{
    let mut starts = Items::new(alloc);
    let mut p = first;
    let mut j = 0;
    for n in nodes {
        starts.push(p)?;
        p = left_end(alloc, nodes, guess, p, j, n)?;
        j += 1;
    }
    Ok(Region { starts, end: p })
}

/// The covers of right operands.
pub fn right_region(
    alloc: Global,
    nodes: &[FlowNode],
    guess: &Guess,
    first: u32,
) -> Result<Region, Memory>
    requires { length nodes.now < 2 ^ 32 }
    ensures { IfOk result (λ r. listed.IsRegion
        (groups.right_size (listed.sure_in_guess nodes.now guess.now)
        (listed.want_in_guess guess.now)) first
        nodes.now r) }
{
    let mut starts = Items::new(alloc);
    let mut p = first;
    let mut j = 0;
    for n in nodes {
        starts.push(p)?;
        p = right_end(alloc, nodes, guess, p, j, n)?;
        j += 1;
    }
    Ok(Region { starts, end: p })
}
