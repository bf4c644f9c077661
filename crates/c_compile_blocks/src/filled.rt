//! Whether a flow block has a guard for each filled if-item of a hyper block.
ghost use Rattle.std.specs.Prelude.{◌≡◌, ◌≤◌, ◌+◌, ◌&&◌, ◌||◌, not, true, cond, length, IfSome};
ghost use Rattle.trips_isa.specs.Forms as forms;
ghost use Rattle.ir_forms.specs.FlowFits.{is_branch};
ghost use Rattle.ir_forms.specs.inside.HyperCode as code;
ghost use Rattle.ir_forms.specs.inside.HyperFits as spec;
ghost use Rattle.ir_forms.specs.inside.HyperViews.{block_of, items_of, then_items};
ghost use Rattle.c_compile_blocks.specs.inside.Guarded.{has_sense, sensed_nodes};

use ir_forms::{FlowBlock, FlowNode, HyperBlock, HyperItem};
use trips_isa::{Form, Sense, form_of};

// Whether a node becomes a guarded instruction other than a branch.
fn is_guarded(node: &FlowNode) -> bool
    ensures { result ≡ (has_sense node.now.guard && not (is_branch (forms.form_of node.now.op))) }
{
    match node.guard {
        None => false,
        Some(guard) => guard.sense != Sense::Always && form_of(node.op) != Form::Branch,
    }
}

// 1 for a guarded node.
fn one(is_counted: bool) -> usize
    ensures { result ≡ cond is_counted 1 0 }
{
    if is_counted { 1 } else { 0 }
}

// How many nodes become guarded instructions other than branches. Of at most 128 nodes.
fn guarded(nodes: &[FlowNode]) -> usize
    ensures value { result ≡ sensed_nodes nodes.now }
    ensures low { result ≤ length nodes.now }
{
    match nodes {
        [] => 0,
        [node, rest @ ..] => one(is_guarded(node)) + guarded(rest),
    }
}

// Whether an item does something itself.
fn does(item: &HyperItem) -> bool
    ensures { (rest : code.Items) → spec.is_filled (then_items item.now rest) ≡ (result || spec.is_filled rest) }
{
    match item {
        HyperItem::Set { .. } => true,
        HyperItem::Load { .. } => true,
        HyperItem::Save { .. } => true,
        HyperItem::If { .. } => false,
    }
}

// Whether an item of a leg itself does something.
fn is_filled(leg: &[HyperItem]) -> bool
    ensures { result ≡ spec.is_filled (items_of leg.now) }
{
    match leg {
        [] => false,
        [item, rest @ ..] => does(item) || is_filled(rest),
    }
}

// Whether one of two legs is filled.
fn are_filled(yes: &[HyperItem], no: &[HyperItem]) -> bool
    ensures { result ≡ (spec.is_filled (items_of yes.now) || spec.is_filled (items_of no.now)) }
{
    is_filled(yes) || is_filled(no)
}

// One guard less, where it is counted; none where there is none to take.
fn less(guards: usize, is_counted: bool) -> Option<usize>
    ensures { IfSome result (λ left. cond is_counted 1 0 + left ≤ guards) }
{
    guards.checked_sub(one(is_counted))
}

// What is left of some guards behind one for each filled if-item of an item.
#[cycle(item)]
fn behind_item(item: &HyperItem, guards: usize) -> Option<usize>
    ensures { IfSome result (λ left. (rest : code.Items)
        → spec.filled_ifs (then_items item.now rest) + left ≤ guards + spec.filled_ifs rest) }
{
    match item {
        HyperItem::Set { .. } => Some(guards),
        HyperItem::Load { .. } => Some(guards),
        HyperItem::Save { .. } => Some(guards),
        HyperItem::If { yes, no, .. } => {
            let yes = yes.as_slice();
            let no = no.as_slice();
            let first = behind_items(yes, guards)?;
            let second = behind_items(no, first)?;
            less(second, are_filled(yes, no))
        }
    }
}

// What is left of some guards behind one for each filled if-item.
#[cycle(item)]
fn behind_items(items: &[HyperItem], guards: usize) -> Option<usize>
    ensures { IfSome result (λ left. spec.filled_ifs (items_of items.now) + left ≤ guards) }
{
    let mut left = guards;
    for item in items {
        left = behind_item(item, left)?;
    }
    Some(left)
}

/// Whether a flow block has at least as many guarded nodes other than branches as a hyper block has filled if-items.
pub fn keeps_guards(block: &HyperBlock, flow: &FlowBlock) -> bool
    ensures { result ≡ true → spec.filled_ifs (block_of block.now).items ≤ sensed_nodes flow.now.nodes }
{
    behind_items(block.items.as_slice(), guarded(flow.nodes.as_slice())).is_some()
}
