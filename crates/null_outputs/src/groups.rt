//! The groups of nodes that are added for a guard, an operand, a write and a store number.
ghost use Rattle.std.specs.Prelude.{◌≡◌, ◌++◌, [], Some, cond, not, OnOk, length, ◌<◌, ◌^◌};
ghost use Rattle.null_outputs.specs.inside.Covers as covers;
ghost use Rattle.null_outputs.specs.inside.Groups as groups;
ghost use Rattle.null_outputs.specs.inside.Listed as listed;

use crate::cover::cover;
use crate::layout::{is_used, left_needed, right_needed};
use crate::lists::{list_top, piece, push_list};
use crate::places::{Guess, Starts, plus};
use base::{Items, Memory};
use ir_forms::{FlowNode, FlowSource, Guard};
use std::alloc::Global;
use trips_isa::{Op, Sense};

// The guard that is met where node x has this bit.
fn guard_on(s: bool, node: u32) -> Guard
    ensures { result ≡ covers.guard_on s node }
{
    Guard {
        node,
        sense: if s { Sense::OnTrue } else { Sense::OnFalse },
    }
}

// A null where node y has not this bit.
fn other_bit(alloc: Global, s: bool, y: u32) -> FlowNode
    ensures { result ≡ covers.null_under (Some (covers.guard_on (not s) y)) }
{
    piece(
        Op::Null,
        Some(guard_on(!s, y)),
        Items::new(alloc),
        Items::new(alloc),
    )
}

// Where the guard (y, s) is not met: it has the other bit, or its node is absent.
fn push_group(
    out: &mut Items<FlowNode>,
    alloc: Global,
    p: u32,
    s: bool,
    y: u32,
    absent: Items<FlowSource>,
) -> Result<(), Memory>
    ensures { OnOk result (out.new ≡ out.old ++ groups.guard_group p s y absent) }
{
    if absent.is_empty() {
        out.push(other_bit(alloc, s, y))?;
        return Ok(());
    }
    let mut either = Items::new(alloc);
    either.push(FlowSource::Node(plus(p, 1)?))?;
    either.append(absent)?;
    out.push(piece(Op::Mov, None, either, Items::new(alloc)))?;
    out.push(other_bit(alloc, s, y))?;
    Ok(())
}

/// The group of the guard (y, s), where it is used.
pub fn push_guard_part(
    out: &mut Items<FlowNode>,
    alloc: Global,
    nodes: &[FlowNode],
    guess: &Guess,
    starts: &Starts,
    s: bool,
    p: u32,
    y: u32,
) -> Result<(), Memory>
    requires { length nodes.now < 2 ^ 32 }
    ensures { OnOk result (out.new
        ≡ out.old
        ++ cond (groups.is_used (listed.want_in_guess guess.now) 0 nodes.now s y)
        (groups.guard_group p s y (listed.cover_in nodes.now guess.now starts.now (FlowSource.Node y)))
        []) }
{
    if is_used(guess.closed, guess.wants.as_slice(), nodes, s, y as usize) {
        let absent = cover(alloc, nodes, guess, starts, FlowSource::Node(y))?;
        push_group(out, alloc, p, s, y, absent)?;
    }
    Ok(())
}

/// A null where the guard is met and the left operand absent.
pub fn push_left_part(
    out: &mut Items<FlowNode>,
    alloc: Global,
    nodes: &[FlowNode],
    guess: &Guess,
    starts: &Starts,
    p: u32,
    y: usize,
    n: &FlowNode,
) -> Result<(), Memory>
    requires { length nodes.now < 2 ^ 32 }
    ensures { OnOk result (out.new
        ≡ out.old
        ++ groups.left_part (listed.sure_in_guess nodes.now guess.now)
        (listed.want_in_guess guess.now) (listed.cover_in nodes.now guess.now starts.now) p y
        n.now) }
{
    if left_needed(
        alloc,
        nodes,
        guess.firm.as_slice(),
        guess.closed,
        guess.wants.as_slice(),
        y,
        n,
    )? {
        let next = plus(p, 1)?;
        let top = list_top(alloc, nodes, guess, starts, next, n.left.as_slice())?;
        out.push(piece(Op::Mov, n.guard, top, Items::new(alloc)))?;
        push_list(out, alloc, nodes, guess, starts, next, n.left.as_slice())?;
    }
    Ok(())
}

/// A null where the guard is met, the left operand there and the right one absent.
pub fn push_right_part(
    out: &mut Items<FlowNode>,
    alloc: Global,
    nodes: &[FlowNode],
    guess: &Guess,
    starts: &Starts,
    p: u32,
    y: usize,
    n: &FlowNode,
) -> Result<(), Memory>
    requires { length nodes.now < 2 ^ 32 }
    ensures { OnOk result (out.new
        ≡ out.old
        ++ groups.right_part (listed.sure_in_guess nodes.now guess.now)
        (listed.want_in_guess guess.now) (listed.cover_in nodes.now guess.now starts.now) p y
        n.now) }
{
    if right_needed(
        alloc,
        nodes,
        guess.firm.as_slice(),
        guess.closed,
        guess.wants.as_slice(),
        y,
        n,
    )? {
        let next = plus(p, 1)?;
        let left = Items::from_slice(alloc, n.left.as_slice())?;
        let top = list_top(alloc, nodes, guess, starts, next, n.right.as_slice())?;
        out.push(piece(Op::And, n.guard, left, top))?;
        push_list(out, alloc, nodes, guess, starts, next, n.right.as_slice())?;
    }
    Ok(())
}
