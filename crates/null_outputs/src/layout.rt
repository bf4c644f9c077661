//! Which groups stand, and how large they are.

ghost use Rattle.std.specs.Prelude.{◌≡◌, IfOk, drop, length, ◌<◌, ◌≤◌, ◌^◌, ◌+◌};
ghost use Rattle.null_outputs.specs.inside.Covers as covers;
ghost use Rattle.null_outputs.specs.inside.Groups as groups;
ghost use Rattle.null_outputs.specs.inside.Surely as surely;
ghost use Rattle.null_outputs.specs.inside.Wants as wanted;
ghost use Rattle.null_outputs.specs.inside.Surely.{firm_of};

use crate::surely::{left_open, right_open};
use crate::wanting::is_marked;
use base::Memory;
use ir_forms::{FlowNode, FlowSource, Guard};
use std::alloc::Global;
use trips_isa::Sense;

// Whether the cover of a node is made: those found, or all where the test failed.
fn is_made(closed: bool, wants: &[bool], y: usize) -> bool
    ensures { result ≡ wanted.or_all closed (firm_of wants.now) y }
{
    !closed || is_marked(wants, y)
}

// Whether a sense is met by this bit.
fn sense_is(s: bool, sense: Sense) -> bool
    ensures { result ≡ groups.sense_is s sense }
{
    match sense {
        Sense::Always => false,
        Sense::OnTrue => s,
        Sense::OnFalse => !s,
    }
}

// Whether a guard asks node y for this bit.
fn guard_is(s: bool, y: usize, g: Option<Guard>) -> bool
    ensures { result ≡ groups.guard_is s y g }
{
    match g {
        None => false,
        Some(k) => k.node as usize == y && sense_is(s, k.sense),
    }
}

/// Whether a node whose cover is made is guarded so.
pub fn is_used(closed: bool, wants: &[bool], nodes: &[FlowNode], s: bool, y: usize) -> bool
    ensures { result ≡ groups.is_used (wanted.or_all closed (firm_of wants.now)) 0 nodes.now s y }
{
    let mut j = 0;
    for n in nodes {
        if is_made(closed, wants, j) && guard_is(s, y, n.guard) {
            return true;
        }
        j += 1;
    }
    false
}

/// The nodes that join the sources of a list.
pub fn list_size(sources: &[FlowSource]) -> usize
    ensures { result ≡ covers.list_size sources.now }
{
    match sources {
        [] => 1,
        [_, rest @ ..] => rest.len(),
    }
}

/// Whether the cover of a left operand is made.
pub fn left_needed(
    alloc: Global,
    nodes: &[FlowNode],
    firm: &[bool],
    closed: bool,
    wants: &[bool],
    y: usize,
    n: &FlowNode,
) -> Result<bool, Memory>
    requires { length nodes.now < 2 ^ 32 }
    ensures { IfOk result (λ yes. yes
        ≡ groups.left_needed (surely.sure_of nodes.now (firm_of firm.now))
        (wanted.or_all closed (firm_of wants.now)) y n.now) }
{
    if !is_made(closed, wants, y) {
        return Ok(false);
    }
    let open = left_open(alloc, nodes, firm, n)?;
    Ok(open)
}

/// Whether that of a right operand is.
pub fn right_needed(
    alloc: Global,
    nodes: &[FlowNode],
    firm: &[bool],
    closed: bool,
    wants: &[bool],
    y: usize,
    n: &FlowNode,
) -> Result<bool, Memory>
    requires { length nodes.now < 2 ^ 32 }
    ensures { IfOk result (λ yes. yes
        ≡ groups.right_needed (surely.sure_of nodes.now (firm_of firm.now))
        (wanted.or_all closed (firm_of wants.now)) y n.now) }
{
    if !is_made(closed, wants, y) {
        return Ok(false);
    }
    let open = right_open(alloc, nodes, firm, n)?;
    Ok(open)
}
