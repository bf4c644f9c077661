//! Which guards are met wherever others are.
ghost use Rattle.std.specs.Prelude.{◌≡◌};
ghost use Rattle.flow_guards.specs.inside.Guards as defined;
ghost use Rattle.flow_guards.specs.inside.Unguards as unguards;

use ir_forms::{FlowNode, Guard};
use trips_isa::{Form, Op, Sense, form_of};

/// How many guards around a node are looked at.
const MOST_AROUND: u32 = 8;

// Whether two senses are one.
fn same_sense(a: Sense, b: Sense) -> bool
    ensures { result ≡ defined.same_sense a b }
{
    match a {
        Sense::Always => matches!(b, Sense::Always),
        Sense::OnTrue => matches!(b, Sense::OnTrue),
        Sense::OnFalse => matches!(b, Sense::OnFalse),
    }
}

/// Whether two guards are one.
pub fn same_guard(a: Option<Guard>, b: Option<Guard>) -> bool
    ensures { result ≡ defined.same_guard a b }
{
    match a {
        None => match b {
            None => true,
            Some(_) => false,
        },
        Some(g) => match b {
            None => false,
            Some(k) => g.node == k.node && same_sense(g.sense, k.sense),
        },
    }
}

// Whether a sense is met by every token.
fn is_always(sense: Sense) -> bool
    ensures { result ≡ defined.is_always sense }
{
    matches!(sense, Sense::Always)
}

/// The guard of a node, if there is such a node.
pub fn guard_at(nodes: &[FlowNode], k: u32) -> Option<Guard>
    ensures { result ≡ defined.guards_of nodes.now k }
{
    match nodes.get(k as usize) {
        None => None,
        Some(n) => n.guard,
    }
}

// Whether the outer of two guards is the inner one, or one of d around it.
fn implies_within(nodes: &[FlowNode], d: u32, outer: Option<Guard>, inner: Option<Guard>) -> bool
    ensures { result ≡ defined.implies (defined.guards_of nodes.now) d outer inner }
{
    if same_guard(inner, outer) {
        return true;
    }
    if d == 0 {
        return false;
    }
    match inner {
        None => false,
        Some(g) => {
            !is_always(g.sense) && implies_within(nodes, d - 1, outer, guard_at(nodes, g.node))
        }
    }
}

/// Whether the outer of two guards is found to be met wherever the inner one is.
#[tactic(auto, unfolding(crate::specs::inside::Guards::most_around))]
pub fn implies(nodes: &[FlowNode], outer: Option<Guard>, inner: Option<Guard>) -> bool
    ensures { result
        ≡ defined.implies (defined.guards_of nodes.now) defined.most_around outer inner }
{
    implies_within(nodes, MOST_AROUND, outer, inner)
}

/// Whether an operation does nothing but compute a word, and cannot fault.
pub fn is_pure(op: Op) -> bool
    ensures { result ≡ unguards.is_pure op }
{
    match form_of(op) {
        Form::General => !matches!(op, Op::Divs | Op::Divu),
        Form::Immediate => !matches!(op, Op::Divs | Op::Divu),
        _ => false,
    }
}
