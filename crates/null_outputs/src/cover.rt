//! The cover of a source: what gives a null where it is absent.
ghost use Rattle.std.specs.Prelude.{◌≡◌, ◌++◌, OnOk, IfOk, length, ◌<◌, ◌^◌, slice_get};
ghost use Rattle.null_outputs.specs.inside.Covers as covers;
ghost use Rattle.null_outputs.specs.inside.Listed as listed;

use crate::places::{Guess, Region, Starts};
use crate::surely::{left_open, right_open};
use base::{Items, Memory};
use ir_forms::{FlowNode, FlowSource, Guard};
use std::alloc::Global;
use trips_isa::Sense;

// Where the group of item y begins.
fn start(region: &Region, y: usize) -> u32
    ensures { result ≡ listed.start_in region.now y }
{
    if y < region.starts.len() {
        region.starts.as_slice()[y]
    } else {
        region.end
    }
}

// Puts the node at p at the end, where it is wanted.
fn push_place(found: &mut Items<FlowSource>, yes: bool, p: u32) -> Result<(), Memory>
    ensures { OnOk result (found.new ≡ found.old ++ covers.one_if yes p) }
{
    if yes {
        found.push(FlowSource::Node(p))?;
    }
    Ok(())
}

// The cover of a guard of this sense.
fn push_sense(
    found: &mut Items<FlowSource>,
    starts: &Starts,
    sense: Sense,
    x: u32,
) -> Result<(), Memory>
    ensures { OnOk result (found.new
        ≡ found.old ++ covers.sense_cover (listed.places_in starts.now) sense x) }
{
    match sense {
        Sense::Always => Ok(()),
        Sense::OnTrue => push_place(found, true, start(&starts.on_true, x as usize)),
        Sense::OnFalse => push_place(found, true, start(&starts.on_false, x as usize)),
    }
}

// The cover of a guard.
fn push_guard(
    found: &mut Items<FlowSource>,
    starts: &Starts,
    guard: Option<Guard>,
) -> Result<(), Memory>
    ensures { OnOk result (found.new
        ≡ found.old ++ covers.guard_cover (listed.places_in starts.now) guard) }
{
    match guard {
        None => Ok(()),
        Some(g) => push_sense(found, starts, g.sense, g.node),
    }
}

// The cover of a node.
fn push_node(
    found: &mut Items<FlowSource>,
    alloc: Global,
    nodes: &[FlowNode],
    guess: &Guess,
    starts: &Starts,
    y: usize,
    n: &FlowNode,
) -> Result<(), Memory>
    requires { length nodes.now < 2 ^ 32 }
    ensures { OnOk result (found.new
        ≡ found.old ++ covers.node_cover (listed.sure_in_guess nodes.now guess.now)
        (listed.places_in starts.now) y n.now) }
{
    let left = left_open(alloc, nodes, guess.firm.as_slice(), n)?;
    let right = right_open(alloc, nodes, guess.firm.as_slice(), n)?;
    push_guard(found, starts, n.guard)?;
    push_place(found, left, start(&starts.left, y))?;
    push_place(found, right, start(&starts.right, y))
}

// The cover of node y.
fn cover_at(
    alloc: Global,
    nodes: &[FlowNode],
    guess: &Guess,
    starts: &Starts,
    y: usize,
) -> Result<Items<FlowSource>, Memory>
    requires { length nodes.now < 2 ^ 32 }
    ensures { IfOk result (λ ms. ms
        ≡ covers.cover_at (listed.sure_in_guess nodes.now guess.now) (listed.places_in starts.now)
        y (slice_get nodes.now y)) }
{
    let mut found = Items::new(alloc);
    if y < nodes.len() {
        push_node(&mut found, alloc, nodes, guess, starts, y, &nodes[y])?;
    }
    Ok(found)
}

/// What gives a null where a source is absent.
pub fn cover(
    alloc: Global,
    nodes: &[FlowNode],
    guess: &Guess,
    starts: &Starts,
    s: FlowSource,
) -> Result<Items<FlowSource>, Memory>
    requires { length nodes.now < 2 ^ 32 }
    ensures { IfOk result (λ ms. ms ≡ listed.cover_in nodes.now guess.now starts.now s) }
{
    match s {
        FlowSource::Read(_) => Ok(Items::new(alloc)),
        FlowSource::Node(y) => cover_at(alloc, nodes, guess, starts, y as usize),
    }
}
