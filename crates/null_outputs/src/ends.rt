//! Where a group ends that begins at p.
ghost use Rattle.std.specs.Prelude.{◌≡◌, ◌+◌, IfOk, length, ◌<◌, ◌^◌};
ghost use Rattle.null_outputs.specs.inside.Groups as groups;
ghost use Rattle.null_outputs.specs.inside.Listed as listed;

use crate::cover::cover;
use crate::layout::{is_used, left_needed, list_size, right_needed};
use crate::places::{Guess, Region, Starts, plus};
use base::{Items, Memory};
use ir_forms::{FlowNode, FlowSource};
use std::alloc::Global;

// A region without groups.
fn nothing(alloc: Global) -> Region
    ensures { result ≡ listed.no_region }
{
    Region {
        starts: Items::new(alloc),
        end: 0,
    }
}

// Places that nothing depends on but how many there are.
fn nowhere(alloc: Global) -> Starts
    ensures { listed.places_in result ≡ groups.nowhere }
{
    Starts {
        on_true: nothing(alloc),
        on_false: nothing(alloc),
        left: nothing(alloc),
        right: nothing(alloc),
    }
}

// How many nodes the group of a guard has.
fn guard_size(absent: &[FlowSource]) -> usize
    ensures { result ≡ groups.guard_size absent.now }
{
    if absent.is_empty() { 1 } else { 2 }
}

/// Where the group of the guard (y, s) ends.
pub fn guard_end(
    alloc: Global,
    nodes: &[FlowNode],
    guess: &Guess,
    s: bool,
    p: u32,
    y: u32,
    n: &FlowNode,
) -> Result<u32, Memory>
    requires { length nodes.now < 2 ^ 32 }
    ensures { IfOk result (λ q. q
        ≡ p
        + groups.guard_part_size (listed.want_in_guess guess.now) nodes.now
        (listed.sure_in_guess nodes.now guess.now) s y n.now) }
{
    if is_used(guess.closed, guess.wants.as_slice(), nodes, s, y as usize) {
        let absent = cover(alloc, nodes, guess, &nowhere(alloc), FlowSource::Node(y))?;
        plus(p, guard_size(absent.as_slice()))
    } else {
        Ok(p)
    }
}

/// Where the cover of a left operand ends.
pub fn left_end(
    alloc: Global,
    nodes: &[FlowNode],
    guess: &Guess,
    p: u32,
    y: usize,
    n: &FlowNode,
) -> Result<u32, Memory>
    requires { length nodes.now < 2 ^ 32 }
    ensures { IfOk result (λ q. q
        ≡ p
        + groups.left_size (listed.sure_in_guess nodes.now guess.now)
        (listed.want_in_guess guess.now) y n.now) }
{
    if left_needed(
        alloc,
        nodes,
        guess.firm.as_slice(),
        guess.closed,
        guess.wants.as_slice(),
        y,
        n,
    )? {
        plus(plus(p, 1)?, list_size(n.left.as_slice()))
    } else {
        Ok(p)
    }
}

/// Where the cover of a right operand ends.
pub fn right_end(
    alloc: Global,
    nodes: &[FlowNode],
    guess: &Guess,
    p: u32,
    y: usize,
    n: &FlowNode,
) -> Result<u32, Memory>
    requires { length nodes.now < 2 ^ 32 }
    ensures { IfOk result (λ q. q
        ≡ p
        + groups.right_size (listed.sure_in_guess nodes.now guess.now)
        (listed.want_in_guess guess.now) y n.now) }
{
    if right_needed(
        alloc,
        nodes,
        guess.firm.as_slice(),
        guess.closed,
        guess.wants.as_slice(),
        y,
        n,
    )? {
        plus(plus(p, 1)?, list_size(n.right.as_slice()))
    } else {
        Ok(p)
    }
}
