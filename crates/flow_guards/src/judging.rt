//! Whether marked nodes may lose their guards.
ghost use Rattle.std.specs.Prelude.{◌≡◌};
ghost use Rattle.flow_guards.specs.inside.Unguards as defined;
ghost use Rattle.flow_guards.specs.inside.Guards.{guards_of};
ghost use Rattle.flow_guards.specs.inside.Unguards.{marked};

use crate::guards::{guard_at, implies, is_pure};
use ir_forms::{FlowBlock, FlowNode, FlowSource, FlowWrite, Guard};

/// Whether node j is marked.
pub fn is_marked(marks: &[bool], j: usize) -> bool
    ensures { result ≡ marked marks.now j }
{
    j < marks.len() && marks[j]
}

// Whether a source keeps the guard that it has.
fn is_kept(marks: &[bool], x: FlowSource) -> bool
    ensures { result ≡ defined.is_kept (marked marks.now) x }
{
    match x {
        FlowSource::Read(_) => true,
        FlowSource::Node(k) => !is_marked(marks, k as usize),
    }
}

// Whether each source of a list does.
fn all_kept(marks: &[bool], sources: &[FlowSource]) -> bool
    ensures { result ≡ defined.all_kept (marked marks.now) sources.now }
{
    for x in sources {
        if !is_kept(marks, *x) {
            return false;
        }
    }
    true
}

// Whether the node of a guard does.
fn guard_kept(marks: &[bool], guard: Option<Guard>) -> bool
    ensures { result ≡ defined.guard_kept (marked marks.now) guard }
{
    match guard {
        None => true,
        Some(g) => !is_marked(marks, g.node as usize),
    }
}

// Whether a source may be the only one at an operand of a node with this guard.
fn may_stand(nodes: &[FlowNode], marks: &[bool], inner: Option<Guard>, x: FlowSource) -> bool
    ensures { result
        ≡ defined.may_stand (guards_of nodes.now) (marked marks.now) inner x }
{
    match x {
        FlowSource::Read(_) => true,
        FlowSource::Node(k) => {
            !is_marked(marks, k as usize) || implies(nodes, guard_at(nodes, k), inner)
        }
    }
}

// Whether the sources of an operand are right.
fn are_right(
    nodes: &[FlowNode],
    marks: &[bool],
    inner: Option<Guard>,
    sources: &[FlowSource],
) -> bool
    ensures { result
        ≡ defined.are_right (guards_of nodes.now) (marked marks.now) inner sources.now }
{
    match sources {
        [] => true,
        [x] => may_stand(nodes, marks, inner, *x),
        _ => all_kept(marks, sources),
    }
}

// Whether node j is right.
fn is_right(nodes: &[FlowNode], marks: &[bool], j: usize, n: &FlowNode) -> bool
    ensures { result
        ≡ defined.is_right (guards_of nodes.now) (marked marks.now) j n.now }
{
    (!is_marked(marks, j) || is_pure(n.op))
        && guard_kept(marks, n.guard)
        && are_right(nodes, marks, n.guard, n.left.as_slice())
        && are_right(nodes, marks, n.guard, n.right.as_slice())
}

// Whether each node is.
fn nodes_right(nodes: &[FlowNode], marks: &[bool]) -> bool
    ensures { result
        ≡ defined.nodes_right (guards_of nodes.now) (marked marks.now) 0 nodes.now }
{
    let mut j = 0;
    for n in nodes {
        if !is_right(nodes, marks, j, n) {
            return false;
        }
        j += 1;
    }
    true
}

// Whether no write takes a token of a marked node.
fn writes_right(marks: &[bool], writes: &[FlowWrite]) -> bool
    ensures { result ≡ defined.writes_right (marked marks.now) writes.now }
{
    for w in writes {
        if !all_kept(marks, w.sources.as_slice()) {
            return false;
        }
    }
    true
}

/// Whether the marked nodes of a block may lose their guards.
pub fn may_lose(block: &FlowBlock, marks: &[bool]) -> bool
    ensures { result ≡ defined.may_lose (marked marks.now) block.now }
{
    nodes_right(block.nodes.as_slice(), marks) && writes_right(marks, block.writes.as_slice())
}
