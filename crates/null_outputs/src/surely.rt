//! Which lists of sources surely give a token.

ghost use Rattle.std.specs.Prelude.{◌≡◌, ◌++◌, ◌||◌, ◌<◌, ◌≤◌, ◌^◌, ◌⊎◌, OnOk, IfOk, None, Some};
ghost use Rattle.std.specs.Prelude.{drop, slice_get, length};
ghost use Rattle.trips_isa.specs.Forms as forms;
ghost use Rattle.null_outputs.specs.inside.Covers as covers;
ghost use Rattle.null_outputs.specs.inside.Asked as asked;
ghost use Rattle.null_outputs.specs.inside.Surely as surely;
ghost use Rattle.null_outputs.specs.inside.Surely.{firm_of};

use base::{Items, Memory};
use ir_forms::{FlowNode, FlowSource, Guard};
use std::alloc::Global;
use trips_isa::{Role, Sense, role_of};

// Whether two senses are one.
fn same_sense(a: Sense, b: Sense) -> bool
    ensures { result ≡ surely.same_sense a b }
{
    match a {
        Sense::Always => matches!(b, Sense::Always),
        Sense::OnTrue => matches!(b, Sense::OnTrue),
        Sense::OnFalse => matches!(b, Sense::OnFalse),
    }
}

// Whether two scopes are one.
fn same_scope(a: Option<Guard>, b: Option<Guard>) -> bool
    ensures { result ≡ surely.same_scope a b }
{
    match a {
        None => match b {
            None => true,
            Some(_) => false,
        },
        Some(g) => match b {
            None => false,
            Some(k) => g.node == k.node && same_sense(g.sense, k.sense),
        },
    }
}

// Whether a scope is among some.
fn has(scopes: &[Option<Guard>], g: Option<Guard>) -> bool
    ensures { result ≡ surely.has scopes.now g }
{
    for s in scopes {
        if same_scope(*s, g) {
            return true;
        }
    }
    false
}

// The scope where node y is, if it is firm.
fn push_firm(
    scopes: &mut Items<Option<Guard>>,
    nodes: &[FlowNode],
    firm: &[bool],
    y: u32,
) -> Result<(), Memory>
    ensures { OnOk result (scopes.new
        ≡ scopes.old ++ surely.scope_at (firm_of firm.now y) (slice_get nodes.now y)) }
{
    if !is_firm_at(firm, y as usize) {
        return Ok(());
    }
    match nodes.get(y as usize) {
        None => Ok(()),
        Some(n) => {
            scopes.push(n.guard)?;
            Ok(())
        }
    }
}

// The scope where a source is, if it is surely there.
fn push_scope(
    scopes: &mut Items<Option<Guard>>,
    nodes: &[FlowNode],
    firm: &[bool],
    s: FlowSource,
) -> Result<(), Memory>
    ensures { OnOk result (scopes.new ≡ scopes.old ++ surely.scope_of nodes.now (firm_of firm.now) s) }
{
    match s {
        FlowSource::Read(_) => {
            scopes.push(None)?;
            Ok(())
        }
        FlowSource::Node(y) => push_firm(scopes, nodes, firm, y),
    }
}

// The scopes where the sources of a list are surely there.
fn scopes(
    alloc: Global,
    nodes: &[FlowNode],
    firm: &[bool],
    sources: &[FlowSource],
) -> Result<Items<Option<Guard>>, Memory>
    ensures { IfOk result (λ found. found ≡ surely.scopes nodes.now (firm_of firm.now) sources.now) }
{
    let mut found = Items::new(alloc);
    for s in sources {
        push_scope(&mut found, nodes, firm, *s)?;
    }
    Ok(found)
}

// The scope of a guard.
fn guard_on(sense: Sense, node: u32) -> Option<Guard>
    ensures { result ≡ Some (record { node = node; sense = sense }) }
{
    Some(Guard { node, sense })
}

// Whether node y was found to be firm.
fn is_firm_at(firm: &[bool], y: usize) -> bool
    ensures { result ≡ firm_of firm.now y }
{
    y < firm.len() && firm[y]
}

// Where both senses of a firm node are there, so is its own scope.
fn split(
    scopes: &mut Items<Option<Guard>>,
    firm: &[bool],
    j: u32,
    n: &FlowNode,
) -> Result<(), Memory>
    ensures { OnOk result (scopes.new ≡ surely.split (firm_of firm.now) j n.now scopes.old) }
{
    if is_firm_at(firm, j as usize)
        && has(scopes.as_slice(), guard_on(Sense::OnTrue, j))
        && has(scopes.as_slice(), guard_on(Sense::OnFalse, j))
    {
        scopes.push(n.guard)?;
    }
    Ok(())
}

// The number behind the node of a scope.
fn end_of(scope: Option<Guard>) -> usize
    ensures { result ≡ asked.end_of scope }
{
    match scope {
        None => 0,
        Some(g) => g.node as usize + 1,
    }
}

// The number behind the highest node that a scope of some names. There are no more scopes than sources of a list.
fn top_of(scopes: &[Option<Guard>]) -> usize
    ensures { result ≡ asked.top_of scopes.now }
{
    match scopes {
        [] => 0,
        [s, rest @ ..] => {
            let top = top_of(rest);
            let end = end_of(*s);
            if top < end { end } else { top }
        }
    }
}

// Behind the nodes that the scopes name no node is asked.
fn first_asked(scopes: &[Option<Guard>], count: usize) -> usize
    ensures within { result ≤ count }
    ensures above { (result ≡ count) ⊎ (asked.top_of scopes.now ≤ result) }
{
    let top = top_of(scopes);
    if top < count { top } else { count }
}

// Takes the block's nodes from the last to the first.
#[tactic(auto, using(crate::proofs::Asking::begins))]
fn close(scopes: &mut Items<Option<Guard>>, nodes: &[FlowNode], firm: &[bool]) -> Result<(), Memory>
    requires { length nodes.now < 2 ^ 32 }
    ensures { OnOk result (scopes.new ≡ surely.close (firm_of firm.now) 0 nodes.now scopes.old) }
{
    let mut at = first_asked(scopes.as_slice(), nodes.len());
    while at > 0 {
        at -= 1;
        split(scopes, firm, at as u32, &nodes[at])?;
    }
    Ok(())
}

// Whether a sense is met by every token.
fn is_always(sense: Sense) -> bool
    ensures { result ≡ surely.is_always sense }
{
    matches!(sense, Sense::Always)
}

// Whether a scope or one around it is among these, at most d of them asked.
fn reaches(nodes: &[FlowNode], scopes: &[Option<Guard>], d: usize, g: Option<Guard>) -> bool
    ensures { result ≡ surely.reaches nodes.now scopes.now d g }
{
    if has(scopes, g) {
        return true;
    }
    if d == 0 {
        return false;
    }
    match g {
        None => false,
        Some(k) => {
            if is_always(k.sense) {
                return false;
            }
            match nodes.get(k.node as usize) {
                None => false,
                Some(n) => reaches(nodes, scopes, d - 1, n.guard),
            }
        }
    }
}

// Whether a source that is there under these scopes is there where the guard is met.
fn sure_in(nodes: &[FlowNode], scopes: &[Option<Guard>], g: Option<Guard>) -> bool
    ensures { result ≡ surely.sure_in nodes.now scopes.now g }
{
    has(scopes, None) || reaches(nodes, scopes, nodes.len(), g)
}

// Whether a scope has no condition, or is this one.
fn meets(scope: Option<Guard>, g: Option<Guard>) -> bool
    ensures { result ≡ (surely.same_scope scope None || surely.same_scope scope g) }
{
    same_scope(scope, None) || same_scope(scope, g)
}

// Whether node y is firm, and its scope such a one.
fn node_meets(nodes: &[FlowNode], firm: &[bool], y: usize, g: Option<Guard>) -> bool
    ensures { result ≡ asked.meets (surely.scope_at (firm_of firm.now y) (slice_get nodes.now y)) g }
{
    if !is_firm_at(firm, y) {
        return false;
    }
    if y < nodes.len() {
        return meets(nodes[y].guard, g);
    }
    false
}

// Whether the scope of a source is.
fn source_meets(nodes: &[FlowNode], firm: &[bool], s: FlowSource, g: Option<Guard>) -> bool
    ensures { result ≡ asked.meets (surely.scope_of nodes.now (firm_of firm.now) s) g }
{
    match s {
        FlowSource::Read(_) => true,
        FlowSource::Node(y) => node_meets(nodes, firm, y as usize, g),
    }
}

// Whether that of some source of a list is, so that the list is sure.
fn any_meets(nodes: &[FlowNode], firm: &[bool], g: Option<Guard>, sources: &[FlowSource]) -> bool
    ensures { result ≡ asked.any_meets nodes.now (firm_of firm.now) g sources.now }
{
    for s in sources {
        if source_meets(nodes, firm, *s, g) {
            return true;
        }
    }
    false
}

/// Whether some source of the list is surely there where the guard is met.
#[tactic(auto, using(crate::proofs::Asking::there_is_sure))]
pub fn sure(
    alloc: Global,
    nodes: &[FlowNode],
    firm: &[bool],
    g: Option<Guard>,
    sources: &[FlowSource],
) -> Result<bool, Memory>
    requires { length nodes.now < 2 ^ 32 }
    ensures { IfOk result (λ yes. yes ≡ surely.sure_of nodes.now (firm_of firm.now) g sources.now) }
{
    if any_meets(nodes, firm, g, sources) {
        return Ok(true);
    }
    let mut found = scopes(alloc, nodes, firm, sources)?;
    close(&mut found, nodes, firm)?;
    Ok(sure_in(nodes, found.as_slice(), g))
}

/// Whether a role takes a left operand.
pub fn takes_left(role: Role) -> bool
    ensures { result ≡ forms.takes_left role }
{
    matches!(role, Role::Copy | Role::One | Role::Both)
}

/// Whether it takes a right one.
pub fn takes_right(role: Role) -> bool
    ensures { result ≡ forms.takes_right role }
{
    matches!(role, Role::Both)
}

/// Whether the left operand may be absent where the guard is met.
pub fn left_open(
    alloc: Global,
    nodes: &[FlowNode],
    firm: &[bool],
    n: &FlowNode,
) -> Result<bool, Memory>
    requires { length nodes.now < 2 ^ 32 }
    ensures { IfOk result (λ yes. yes
        ≡ covers.left_open (surely.sure_of nodes.now (firm_of firm.now)) n.now) }
{
    if !takes_left(role_of(n.op)) {
        return Ok(false);
    }
    let there = sure(alloc, nodes, firm, n.guard, n.left.as_slice())?;
    Ok(!there)
}

/// Whether the right operand may be.
pub fn right_open(
    alloc: Global,
    nodes: &[FlowNode],
    firm: &[bool],
    n: &FlowNode,
) -> Result<bool, Memory>
    requires { length nodes.now < 2 ^ 32 }
    ensures { IfOk result (λ yes. yes
        ≡ covers.right_open (surely.sure_of nodes.now (firm_of firm.now)) n.now) }
{
    if !takes_right(role_of(n.op)) {
        return Ok(false);
    }
    let there = sure(alloc, nodes, firm, n.guard, n.right.as_slice())?;
    Ok(!there)
}

// Whether both operands are found to be there.
fn is_firm(alloc: Global, nodes: &[FlowNode], firm: &[bool], n: &FlowNode) -> Result<bool, Memory>
    requires { length nodes.now < 2 ^ 32 }
    ensures { IfOk result (λ yes. yes ≡ surely.is_firm nodes.now (firm_of firm.now) n.now) }
{
    let left = left_open(alloc, nodes, firm, n)?;
    let right = right_open(alloc, nodes, firm, n)?;
    Ok(!left && !right)
}

/// The firm nodes of a block.
pub fn firms(alloc: Global, nodes: &[FlowNode]) -> Result<Items<bool>, Memory>
    requires { length nodes.now < 2 ^ 32 }
    ensures { IfOk result (λ found. found ≡ surely.firms nodes.now) }
{
    let mut found = Items::new(alloc);
    for n in nodes {
        let firm = is_firm(alloc, nodes, found.as_slice(), n)?;
        found.push(firm)?;
    }
    Ok(found)
}
