//! Sources that take what stands behind copies.

ghost use Rattle.std.specs.Prelude.{◌≡◌, ◌++◌, ◌∷◌, [], IfOk, OnOk, slice_get};
ghost use Rattle.flow_fold.specs.inside.Draws as draws;

use crate::copies::{covers, guard_of, is_mov};
use base::{Items, Memory};
use ir_forms::{FlowNode, FlowSource, Guard};
use std::alloc::Global;

// Whether a copy of a source other than node j, under this guard, gives the source's token wherever there is one.
fn echoes(nodes: &[FlowNode], j: usize, a: Option<Guard>, x: FlowSource) -> bool
    ensures { result ≡ draws.echoes nodes.now j a x }
{
    match x {
        FlowSource::Read(_) => covers(a, None),
        FlowSource::Node(i) => !(i as usize == j) && covers(a, guard_of(nodes, i as usize)),
    }
}

// Whether it does so of all sources.
fn all_echo(nodes: &[FlowNode], j: usize, a: Option<Guard>, sources: &[FlowSource]) -> bool
    ensures { result ≡ draws.all_echo nodes.now j a sources.now }
{
    match sources {
        [] => true,
        [x, rest @ ..] => echoes(nodes, j, a, *x) && all_echo(nodes, j, a, rest),
    }
}

// Whether node k is marked.
fn is_marked(marks: &[bool], k: usize) -> bool
    ensures { result ≡ draws.is_marked (slice_get marks.now k) }
{
    match marks.get(k) {
        None => false,
        Some(b) => *b,
    }
}

// Whether a node copies, and gives the tokens of all that it takes.
fn copies_all(nodes: &[FlowNode], j: usize, c: &FlowNode) -> bool
    ensures { result ≡ draws.copies_all nodes.now j c.now }
{
    is_mov(c.op) && all_echo(nodes, j, c.guard, c.left.as_slice())
}

// One source more.
fn add(out: &mut Items<FlowSource>, s: FlowSource) -> Result<(), Memory>
    ensures { OnOk result (out.new ≡ out.old ++ s ∷ []) }
{
    out.push(s)?;
    Ok(())
}

// Some more.
fn add_all(out: &mut Items<FlowSource>, sources: &[FlowSource]) -> Result<(), Memory>
    ensures { OnOk result (out.new ≡ out.old ++ sources.now) }
{
    for s in sources {
        out.push(*s)?;
    }
    Ok(())
}

// What node k copies, unless it stays; else s.
fn add_at(
    out: &mut Items<FlowSource>,
    nodes: &[FlowNode],
    j: usize,
    stays: bool,
    s: FlowSource,
    k: usize,
) -> Result<(), Memory>
    ensures { OnOk result (out.new ≡ out.old ++ draws.behind_at nodes.now j stays s (slice_get nodes.now k)) }
{
    match nodes.get(k) {
        None => add(out, s),
        Some(c) => {
            if !stays && copies_all(nodes, j, c) {
                add_all(out, c.left.as_slice())
            } else {
                add(out, s)
            }
        }
    }
}

// What stands behind a source.
fn add_behind(
    out: &mut Items<FlowSource>,
    nodes: &[FlowNode],
    marks: &[bool],
    j: usize,
    s: FlowSource,
) -> Result<(), Memory>
    ensures { OnOk result (out.new ≡ out.old ++ draws.behind nodes.now marks.now j s) }
{
    match s {
        FlowSource::Read(r) => add(out, FlowSource::Read(r)),
        FlowSource::Node(k) => {
            let stays = k as usize == j || is_marked(marks, k as usize);
            add_at(out, nodes, j, stays, FlowSource::Node(k), k as usize)
        }
    }
}

// Whether something else stands behind a source, for a choice of which nothing is claimed.
fn is_looked_through_at(nodes: &[FlowNode], marks: &[bool], j: usize, k: usize) -> bool {
    if k == j || is_marked(marks, k) {
        return false;
    }
    match nodes.get(k) {
        None => false,
        Some(c) => copies_all(nodes, j, c),
    }
}

/// Whether something else stands behind some sources, for a choice of which nothing is claimed.
pub fn is_looked_through(
    nodes: &[FlowNode],
    marks: &[bool],
    j: usize,
    sources: &[FlowSource],
) -> bool {
    for s in sources {
        match *s {
            FlowSource::Read(_) => {}
            FlowSource::Node(k) => {
                if is_looked_through_at(nodes, marks, j, k as usize) {
                    return true;
                }
            }
        }
    }
    false
}

/// What stands behind some sources, of which node j and those that are marked are not looked at.
pub fn all_behind(
    alloc: Global,
    nodes: &[FlowNode],
    marks: &[bool],
    j: usize,
    sources: &[FlowSource],
) -> Result<Items<FlowSource>, Memory>
    ensures { IfOk result (λ ss. ss ≡ draws.all_behind nodes.now marks.now j sources.now) }
{
    let mut out = Items::new(alloc);
    for s in sources {
        add_behind(&mut out, nodes, marks, j, *s)?;
    }
    Ok(out)
}
