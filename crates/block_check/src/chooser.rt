//! The choosers of a block.
ghost use Rattle.std.specs.Prelude.{nat_le, nat_lt, ◌≡◌, ◌<◌, ◌≤◌, ◌+◌, ◌||◌, ◌&&◌, ◌==◌, ℕ};
ghost use Rattle.std.specs.Prelude.{length, slice_index_or, slice_get, slice_set, false, true};
ghost use Rattle.block_cases.specs.Nodes.{IsRanked, targets};
ghost use Rattle.block_cases.specs.Choosers.{leads, is_chooser, is_copy};
ghost use Rattle.block_cases.specs.Cases.{bit, deepest};
ghost use Rattle.block_cases.specs.Choosers.{names_predicate, leads_from};
ghost use Rattle.block_check.specs.inside.Pass.{InPlace, AllInPlace, Spare};
ghost use Rattle.block_check.specs.inside.Found.{Choosing};
ghost use Rattle.block_check.specs.inside.Leads.{at_slot, leads_on, leads_at, FalseFrom};
ghost use Rattle.block_check.specs.inside.Leads.{NoneNamesPredicate};

use trips_isa::{FIRST_WRITE, Node, Role};

fn is_copy(role: Role) -> bool
    ensures { result ≡ is_copy role }
{
    match role {
        Role::Copy => true,
        _ => false,
    }
}

fn mark_copy(left: &mut [bool], node: Node, lead: bool)
    requires left { length left.old ≡ 512 }
    requires in_place { InPlace node }
    ensures { (s : ℕ) → s < 512 → bit left.new s
        ≡ (bit left.old s || (is_copy node.role && ((node.slot == s) && lead))) }
{
    if is_copy(node.role) && lead {
        left[node.slot as usize] = true;
    }
}

/// Marks the slots with a mov that leads on.
fn mark_copies(nodes: &[Node], used: usize, lead: &[bool], left: &mut [bool])
    requires in_place { AllInPlace nodes.now }
    requires used { used ≤ length nodes.now }
    requires lead { length lead.now ≡ length nodes.now }
    requires rest { FalseFrom used lead.now }
    requires left { length left.old ≡ 512 }
    ensures { (s : ℕ) → s < 512 → bit left.new s ≡ at_slot nodes.now s (bit lead.now) }
{
    for mark in left.iter_mut() {
        *mark = false;
    }
    for x in 0..used {
        mark_copy(left, nodes[x], lead[x]);
    }
}

fn left_at(left: &[bool], place: u16) -> bool
    ensures { result ≡ bit left.now place }
{
    let place = place as usize;
    place < left.len() && left[place]
}

fn is_predicate(place: u16) -> bool
    ensures { result ≡ (nat_le 256 place && nat_lt place FIRST_WRITE) }
{
    256 <= place && place < FIRST_WRITE
}

fn names_predicate(node: Node) -> bool
    ensures { result ≡ names_predicate (targets node) }
{
    is_predicate(node.first) || is_predicate(node.second)
}

fn goes_on(node: Node, left: &[bool]) -> bool
    ensures { result ≡ leads_on node (bit left.now) }
{
    names_predicate(node) || left_at(left, node.first) || left_at(left, node.second)
}

fn put(lead: &mut [bool], x: usize, leads: bool) -> bool
    requires { x < length lead.old }
    ensures set { lead.new ≡ slice_set lead.old x leads }
    ensures same { result ≡ false → bit lead.old x ≡ leads }
{
    let changed = lead[x] != leads;
    lead[x] = leads;
    changed
}

/// One step further along the chains.
fn lead_on(nodes: &[Node], used: usize, left: &[bool], lead: &mut [bool]) -> bool
    requires used { used ≤ length nodes.now }
    requires lead { length lead.old ≡ length nodes.now }
    requires rest { FalseFrom used lead.old }
    ensures same { result ≡ false → (x : ℕ) → bit lead.new x ≡ bit lead.old x }
    ensures gives { (x : ℕ) → x < used → bit lead.new x ≡ leads_at (slice_get nodes.now x)
        (bit left.now) }
    ensures rest { FalseFrom used lead.new }
{
    let mut changed = false;
    for x in 0..used {
        let leads = goes_on(nodes[x], left);
        if put(lead, x, leads) {
            changed = true;
        }
    }
    changed
}

fn round(nodes: &[Node], used: usize, left: &mut [bool], lead: &mut [bool]) -> bool
    requires in_place { AllInPlace nodes.now }
    requires used { used ≤ length nodes.now }
    requires spare { Spare nodes.now used }
    requires lead { length lead.old ≡ length nodes.now }
    requires rest { FalseFrom used lead.old }
    requires left { length left.old ≡ 512 }
    ensures same { result ≡ false → (x : ℕ) → bit lead.new x ≡ bit lead.old x }
    ensures gives { (x : ℕ) → bit lead.new x ≡ leads_from nodes.now (slice_get nodes.now x)
        (bit lead.old) }
    ensures rest { FalseFrom used lead.new }
{
    mark_copies(nodes, used, lead, left);
    lead_on(nodes, used, left, lead)
}

/// Whether a node leads on by what the nodes after it in an order do.
fn guess_one(nodes: &[Node], used: usize, x: usize, left: &mut [bool], lead: &mut [bool])
    requires in_place { AllInPlace nodes.now }
    requires used { used ≤ length nodes.now }
    requires lead { length lead.old ≡ length nodes.now }
    requires rest { FalseFrom used lead.old }
    requires left { length left.old ≡ 512 }
    ensures rest { FalseFrom used lead.new }
{
    if x >= used {
        return;
    }
    let leads = goes_on(nodes[x], left);
    lead[x] = leads;
    mark_copy(left, nodes[x], leads);
}

/// A guess at the nodes that lead on, in an order of the nodes.
fn guess_leads(nodes: &[Node], used: usize, order: &[usize], left: &mut [bool], lead: &mut [bool])
    requires in_place { AllInPlace nodes.now }
    requires used { used ≤ length nodes.now }
    requires lead { length lead.old ≡ length nodes.now }
    requires left { length left.old ≡ 512 }
    ensures rest { FalseFrom used lead.new }
{
    clear(lead);
    let mut k = order.len();
    while k > 0 {
        k -= 1;
        guess_one(nodes, used, order[k], left, lead);
    }
}

/// Whether a node before `used` names a predicate.
fn any_names_predicate(nodes: &[Node], used: usize) -> bool
    requires used { used ≤ length nodes.now }
    requires spare { Spare nodes.now used }
    ensures { result ≡ false → NoneNamesPredicate nodes.now }
{
    for x in 0..used {
        if names_predicate(nodes[x]) {
            return true;
        }
    }
    false
}

fn clear(lead: &mut [bool])
    ensures { (x : ℕ) → bit lead.new x ≡ false }
{
    for mark in lead.iter_mut() {
        *mark = false;
    }
}

/// Which nodes have a chain of targets, through movs only, to a predicate.
fn find_leads(nodes: &[Node], used: usize, order: &[usize], lead: &mut [bool])
    requires ranked { IsRanked nodes.now }
    requires in_place { AllInPlace nodes.now }
    requires used { used ≤ length nodes.now }
    requires spare { Spare nodes.now used }
    requires lead { length lead.old ≡ length nodes.now }
    ensures { (x : ℕ) → bit lead.new x ≡ leads nodes.now deepest x }
{
    if !any_names_predicate(nodes, used) {
        clear(lead);
        return;
    }
    let mut table = [false; 512];
    let left = table.as_mut_slice();
    guess_leads(nodes, used, order, left, lead);
    let mut rounds: u8 = 0;
    let mut changed = true;
    while changed && rounds < 160 {
        changed = round(nodes, used, left, lead);
        rounds += 1;
    }
}

/// Which nodes are choosers.
pub(crate) fn find_choosers(nodes: &[Node], used: usize, order: &[usize], choosers: &mut [bool])
    requires ranked { IsRanked nodes.now }
    requires in_place { AllInPlace nodes.now }
    requires used { used ≤ length nodes.now }
    requires spare { Spare nodes.now used }
    requires choosers { length choosers.old ≡ length nodes.now }
    ensures { Choosing nodes.now choosers.new }
{
    find_leads(nodes, used, order, choosers);
    for x in 0..nodes.len() {
        choosers[x] = !is_copy(nodes[x].role) && choosers[x];
    }
}
