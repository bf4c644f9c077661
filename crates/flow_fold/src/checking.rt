//! The check that the nodes that do not stay may go.

ghost use Rattle.std.specs.Prelude.{◌≡◌};
ghost use Rattle.trips_isa.specs.Faults.{divides};
ghost use Rattle.flow_fold.specs.inside.Sweeps as sweeps;
ghost use Rattle.flow_fold.specs.inside.SweepsAll as sweep;

use ir_forms::{FlowBlock, FlowNode, FlowSource, FlowWrite, Guard};
use trips_isa::{Form, Op, form_of};

/// Whether an operation divides.
pub fn is_division(op: Op) -> bool
    ensures { result ≡ divides op }
{
    match op {
        Op::Divs | Op::Divu => true,
        _ => false,
    }
}

/// Whether an operation does nothing but give a token.
pub fn is_idle(op: Op) -> bool
    ensures { result ≡ sweeps.is_idle op }
{
    match form_of(op) {
        Form::General => !is_division(op),
        Form::Immediate | Form::Constant => true,
        Form::Load | Form::Store | Form::Branch => false,
    }
}

/// Whether node j stays, as a list says.
pub fn stays(keeps: &[bool], j: usize) -> bool
    ensures { result ≡ sweep.stays keeps.now j }
{
    match keeps.get(j) {
        None => true,
        Some(b) => *b,
    }
}

// Whether a source stays, or is a node below a bound.
fn may_name(keeps: &[bool], top: usize, s: FlowSource) -> bool
    ensures { result ≡ sweep.may_name (sweep.stays keeps.now) top s }
{
    match s {
        FlowSource::Read(_) => true,
        FlowSource::Node(i) => stays(keeps, i as usize) || (i as usize) < top,
    }
}

// Whether each of some sources does.
fn may_name_all(keeps: &[bool], top: usize, sources: &[FlowSource]) -> bool
    ensures { result ≡ sweep.may_name_all (sweep.stays keeps.now) top sources.now }
{
    for s in sources {
        if !may_name(keeps, top, *s) {
            return false;
        }
    }
    true
}

// Whether the node of a guard does.
fn may_guard(keeps: &[bool], top: usize, g: Option<Guard>) -> bool
    ensures { result ≡ sweep.may_guard (sweep.stays keeps.now) top g }
{
    match g {
        None => true,
        Some(g) => may_name(keeps, top, FlowSource::Node(g.node)),
    }
}

// Whether all that a node names does.
fn names_only(keeps: &[bool], top: usize, n: &FlowNode) -> bool
    ensures { result ≡ sweep.names_only (sweep.stays keeps.now) top n.now }
{
    may_name_all(keeps, top, n.left.as_slice())
        && (may_name_all(keeps, top, n.right.as_slice()) && may_guard(keeps, top, n.guard))
}

// Whether node j is as it may be.
fn node_may(keeps: &[bool], j: usize, n: &FlowNode) -> bool
    ensures { result ≡ sweep.node_may (sweep.stays keeps.now) j n.now }
{
    if stays(keeps, j) {
        names_only(keeps, 0, n)
    } else {
        is_idle(n.op) && names_only(keeps, j, n)
    }
}

// Whether each node is.
fn nodes_may(keeps: &[bool], nodes: &[FlowNode]) -> bool
    ensures { result ≡ sweep.nodes_may (sweep.stays keeps.now) 0 nodes.now }
{
    let mut j = 0;
    for n in nodes {
        if !node_may(keeps, j, n) {
            return false;
        }
        j += 1;
    }
    true
}

// Whether writes name only what stays.
fn writes_may(keeps: &[bool], writes: &[FlowWrite]) -> bool
    ensures { result ≡ sweep.writes_may (sweep.stays keeps.now) writes.now }
{
    for w in writes {
        if !may_name_all(keeps, 0, w.sources.as_slice()) {
            return false;
        }
    }
    true
}

/// Whether the nodes that do not stay may go.
pub fn may_sweep(keeps: &[bool], block: &FlowBlock) -> bool
    ensures { result ≡ sweep.may_sweep (sweep.stays keeps.now) block.now }
{
    nodes_may(keeps, block.nodes.as_slice()) && writes_may(keeps, block.writes.as_slice())
}
