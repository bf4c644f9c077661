//! Nodes that need no guard, since they wait for a token that comes only where the guard is met.

ghost use Rattle.std.specs.Prelude.{◌≡◌, IfOk, slice_get};
ghost use Rattle.trips_isa.specs.Forms as forms;
ghost use Rattle.flow_fold.specs.inside.Waits as waits;

use crate::copies::covers;
use base::{Items, Memory};
use ir_forms::{FlowNode, FlowSource, Guard};
use std::alloc::Global;
use trips_isa::{Form, Op, Role, form_of, role_of};

// Whether a guard is another.
fn is_under(a: Option<Guard>, g: Guard) -> bool
    ensures { result ≡ waits.is_under a g }
{
    match a {
        None => false,
        Some(a) => covers(Some(a), Some(g)),
    }
}

// Whether a role takes a left operand.
fn takes_left(role: Role) -> bool
    ensures { result ≡ forms.takes_left role }
{
    match role {
        Role::Copy | Role::One | Role::Both => true,
        _ => false,
    }
}

// Whether a role takes a right operand.
fn takes_right(role: Role) -> bool
    ensures { result ≡ forms.takes_right role }
{
    match role {
        Role::Both => true,
        _ => false,
    }
}

// No sources, where operands are not looked at.
fn none_wait(_sources: &[FlowSource]) -> bool
    ensures { result ≡ waits.none_wait _sources.now }
{
    false
}

// Whether node k gives no token where a guard is not met, by its own guard.
fn own_at(nodes: &[FlowNode], g: Guard, k: usize) -> bool
    ensures { result ≡ waits.waits_at waits.none_wait g (slice_get nodes.now k) }
{
    match nodes.get(k) {
        None => false,
        Some(n) => {
            is_under(n.guard, g)
                || ((takes_left(role_of(n.op)) && none_wait(n.left.as_slice()))
                    || (takes_right(role_of(n.op)) && none_wait(n.right.as_slice())))
        }
    }
}

// Whether a source is a node other than node j that does.
fn own_source(nodes: &[FlowNode], j: usize, g: Guard, s: FlowSource) -> bool
    ensures { result ≡ waits.source_waits waits.none_wait nodes.now j g s }
{
    match s {
        FlowSource::Read(_) => false,
        FlowSource::Node(k) => !(k as usize == j) && own_at(nodes, g, k as usize),
    }
}

// Whether all sources are such.
fn wait_once(nodes: &[FlowNode], j: usize, g: Guard, sources: &[FlowSource]) -> bool
    ensures { result ≡ waits.wait_once nodes.now j g sources.now }
{
    match sources {
        [] => true,
        [s, rest @ ..] => own_source(nodes, j, g, *s) && wait_once(nodes, j, g, rest),
    }
}

// Whether node k gives none, by what it takes too.
fn near_at(nodes: &[FlowNode], j: usize, g: Guard, k: usize) -> bool
    ensures { result ≡ waits.waits_at (waits.wait_once nodes.now j g) g (slice_get nodes.now k) }
{
    match nodes.get(k) {
        None => false,
        Some(n) => {
            is_under(n.guard, g)
                || ((takes_left(role_of(n.op)) && wait_once(nodes, j, g, n.left.as_slice()))
                    || (takes_right(role_of(n.op)) && wait_once(nodes, j, g, n.right.as_slice())))
        }
    }
}

// Whether a source is a node other than node j that does.
fn near_source(nodes: &[FlowNode], j: usize, g: Guard, s: FlowSource) -> bool
    ensures { result ≡ waits.source_waits (waits.wait_once nodes.now j g) nodes.now j g s }
{
    match s {
        FlowSource::Read(_) => false,
        FlowSource::Node(k) => !(k as usize == j) && near_at(nodes, j, g, k as usize),
    }
}

// Whether all sources are such.
fn wait_twice(nodes: &[FlowNode], j: usize, g: Guard, sources: &[FlowSource]) -> bool
    ensures { result ≡ waits.wait_twice nodes.now j g sources.now }
{
    match sources {
        [] => true,
        [s, rest @ ..] => near_source(nodes, j, g, *s) && wait_twice(nodes, j, g, rest),
    }
}

// Whether node k gives none, by what stands before what it takes too.
fn far_at(nodes: &[FlowNode], j: usize, g: Guard, k: usize) -> bool
    ensures { result ≡ waits.waits_at (waits.wait_twice nodes.now j g) g (slice_get nodes.now k) }
{
    match nodes.get(k) {
        None => false,
        Some(n) => {
            is_under(n.guard, g)
                || ((takes_left(role_of(n.op)) && wait_twice(nodes, j, g, n.left.as_slice()))
                    || (takes_right(role_of(n.op)) && wait_twice(nodes, j, g, n.right.as_slice())))
        }
    }
}

// Whether a source is a node other than node j that does.
fn far_source(nodes: &[FlowNode], j: usize, g: Guard, s: FlowSource) -> bool
    ensures { result ≡ waits.source_waits (waits.wait_twice nodes.now j g) nodes.now j g s }
{
    match s {
        FlowSource::Read(_) => false,
        FlowSource::Node(k) => !(k as usize == j) && far_at(nodes, j, g, k as usize),
    }
}

// Whether all sources are such.
fn wait_thrice(nodes: &[FlowNode], j: usize, g: Guard, sources: &[FlowSource]) -> bool
    ensures { result ≡ waits.wait_thrice nodes.now j g sources.now }
{
    match sources {
        [] => true,
        [s, rest @ ..] => far_source(nodes, j, g, *s) && wait_thrice(nodes, j, g, rest),
    }
}

// Whether a form is that of branches.
fn is_exit(form: Form) -> bool
    ensures { result ≡ waits.is_exit form }
{
    match form {
        Form::Branch => true,
        _ => false,
    }
}

// Whether node j, whose guard this is, takes an operand that comes only where it is met.
fn awaits(nodes: &[FlowNode], j: usize, n: &FlowNode, g: Guard) -> bool
    ensures { result ≡ waits.operands_wait (waits.wait_thrice nodes.now j g) n.now }
{
    (takes_left(role_of(n.op)) && wait_thrice(nodes, j, g, n.left.as_slice()))
        || (takes_right(role_of(n.op)) && wait_thrice(nodes, j, g, n.right.as_slice()))
}

/// Whether node j, which has a guard, needs none.
pub fn may_free(nodes: &[FlowNode], j: usize, n: &FlowNode) -> bool
    ensures { result ≡ waits.may_free nodes.now j n.now n.now.guard }
{
    match n.guard {
        None => false,
        Some(g) => !is_exit(form_of(n.op)) && awaits(nodes, j, n, g),
    }
}

/// A node without its guard.
pub fn without_guard(alloc: Global, n: &FlowNode) -> Result<FlowNode, Memory>
    ensures { IfOk result (λ m. m ≡ waits.without_guard n.now) }
{
    let left = Items::from_slice(alloc, n.left.as_slice())?;
    let right = Items::from_slice(alloc, n.right.as_slice())?;
    Ok(FlowNode {
        op: n.op,
        imm: n.imm,
        number: n.number,
        guard: None,
        left,
        right,
    })
}
