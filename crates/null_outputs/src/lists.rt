//! The nodes that join the covers of a list.
ghost use Rattle.std.specs.Prelude.{◌≡◌, ◌++◌, ◌∷◌, [], OnOk, IfOk, length, ◌<◌, ◌^◌};
ghost use Rattle.null_outputs.specs.inside.Covers as covers;
ghost use Rattle.null_outputs.specs.inside.Listed as listed;

use crate::cover::cover;
use crate::places::{Guess, Starts, plus};
use base::{Items, Memory};
use ir_forms::{FlowNode, FlowSource, Guard};
use std::alloc::Global;
use trips_isa::Op;

/// A node without an immediate and a number.
pub fn piece(
    op: Op,
    guard: Option<Guard>,
    left: Items<FlowSource>,
    right: Items<FlowSource>,
) -> FlowNode
    ensures { result ≡ covers.piece op guard left right }
{
    FlowNode {
        op,
        imm: 0,
        number: 0,
        guard,
        left,
        right,
    }
}

// The node at p alone.
fn only(alloc: Global, p: u32) -> Result<Items<FlowSource>, Memory>
    ensures { IfOk result (λ ms. ms ≡ FlowSource.Node p ∷ []) }
{
    let mut found = Items::new(alloc);
    found.push(FlowSource::Node(p))?;
    Ok(found)
}

// What gives a null where all of a list are absent.
fn top_of(
    alloc: Global,
    nodes: &[FlowNode],
    guess: &Guess,
    starts: &Starts,
    p: u32,
    s: FlowSource,
    rest: &[FlowSource],
) -> Result<Items<FlowSource>, Memory>
    requires { length nodes.now < 2 ^ 32 }
    ensures { IfOk result (λ ms. ms
        ≡ covers.top_of (listed.cover_in nodes.now guess.now starts.now) p s rest.now) }
{
    match rest {
        [] => cover(alloc, nodes, guess, starts, s),
        [_, ..] => only(alloc, p),
    }
}

/// The same of any list.
pub fn list_top(
    alloc: Global,
    nodes: &[FlowNode],
    guess: &Guess,
    starts: &Starts,
    p: u32,
    sources: &[FlowSource],
) -> Result<Items<FlowSource>, Memory>
    requires { length nodes.now < 2 ^ 32 }
    ensures { IfOk result (λ ms. ms
        ≡ covers.list_top (listed.cover_in nodes.now guess.now starts.now) p sources.now) }
{
    match sources {
        [] => only(alloc, p),
        [s, rest @ ..] => top_of(alloc, nodes, guess, starts, p, *s, rest),
    }
}

// A null where all of a list are absent, pair by pair.
fn push_pairs(
    out: &mut Items<FlowNode>,
    alloc: Global,
    nodes: &[FlowNode],
    guess: &Guess,
    starts: &Starts,
    p: u32,
    s: FlowSource,
    rest: &[FlowSource],
) -> Result<(), Memory>
    requires { length nodes.now < 2 ^ 32 }
    ensures { OnOk result (out.new
        ≡ out.old ++ covers.pairs (listed.cover_in nodes.now guess.now starts.now) p s rest.now) }
{
    match rest {
        [] => Ok(()),
        [t, more @ ..] => {
            let next = plus(p, 1)?;
            let left = cover(alloc, nodes, guess, starts, s)?;
            let right = top_of(alloc, nodes, guess, starts, next, *t, more)?;
            out.push(piece(Op::And, None, left, right))?;
            push_pairs(out, alloc, nodes, guess, starts, next, *t, more)
        }
    }
}

/// The nodes that join the covers of a list, from number p on.
pub fn push_list(
    out: &mut Items<FlowNode>,
    alloc: Global,
    nodes: &[FlowNode],
    guess: &Guess,
    starts: &Starts,
    p: u32,
    sources: &[FlowSource],
) -> Result<(), Memory>
    requires { length nodes.now < 2 ^ 32 }
    ensures { OnOk result (out.new
        ≡ out.old
        ++ covers.list_nodes (listed.cover_in nodes.now guess.now starts.now) p sources.now) }
{
    match sources {
        [] => {
            out.push(piece(Op::Null, None, Items::new(alloc), Items::new(alloc)))?;
            Ok(())
        }
        [s, rest @ ..] => push_pairs(out, alloc, nodes, guess, starts, p, *s, rest),
    }
}
