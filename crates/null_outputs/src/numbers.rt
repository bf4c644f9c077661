//! The stores of a number.

ghost use Rattle.std.specs.Prelude.{◌≡◌, ◌++◌, ◌+◌, OnOk, IfOk, drop, length, ◌<◌, ◌≤◌, ◌^◌, None};
ghost use Rattle.ir_forms.specs.inside.FlowFits as fits;
ghost use Rattle.trips_isa.specs.Forms as forms;
ghost use Rattle.null_outputs.specs.inside.Covers as covers;
ghost use Rattle.null_outputs.specs.inside.Groups as groups;
ghost use Rattle.null_outputs.specs.inside.Surely as surely;
ghost use Rattle.null_outputs.specs.inside.Wants as wanted;
ghost use Rattle.null_outputs.specs.inside.Surely.{firm_of};

use crate::surely::sure;
use base::{Items, Memory};
use ir_forms::{FlowBlock, FlowNode, FlowSource};
use std::alloc::Global;
use trips_isa::{Form, form_of, in_mask};

// Whether a node is a store of number k.
fn is_store_of(n: &FlowNode, k: u8) -> bool
    ensures { result ≡ groups.is_store_of (forms.form_of n.now.op) n.now k }
{
    match form_of(n.op) {
        Form::Store => n.number == k,
        _ => false,
    }
}

// Puts node j at the end where the test says so.
fn push_if(found: &mut Items<FlowSource>, yes: bool, j: usize) -> Result<(), Memory>
    requires { j < 2 ^ 32 }
    ensures { OnOk result (found.new ≡ found.old ++ covers.one_if yes j) }
{
    if yes {
        found.push(FlowSource::Node(j as u32))?;
    }
    Ok(())
}

/// The stores of number k.
pub fn stores_of(alloc: Global, nodes: &[FlowNode], k: u8) -> Result<Items<FlowSource>, Memory>
    requires { length nodes.now < 2 ^ 32 }
    ensures { IfOk result (λ found. found ≡ groups.stores_of 0 nodes.now k) }
{
    let mut found = Items::new(alloc);
    let mut j = 0;
    for n in nodes {
        push_if(&mut found, is_store_of(n, k), j)?;
        j += 1;
    }
    Ok(found)
}

/// Whether a number of the mask may get no store.
pub fn number_open(alloc: Global, block: &FlowBlock, firm: &[bool], k: u8) -> Result<bool, Memory>
    requires { length block.now.nodes < 2 ^ 32 }
    ensures { IfOk result (λ yes. yes
        ≡ groups.number_open (surely.sure_of block.now.nodes (firm_of firm.now)) block.now k) }
{
    if !in_mask(block.mask, k) {
        return Ok(false);
    }
    let stores = stores_of(alloc, block.nodes.as_slice(), k)?;
    let there = sure(alloc, block.nodes.as_slice(), firm, None, stores.as_slice())?;
    Ok(!there)
}

/// Whether a node is a store whose number may get none.
pub fn is_open_store(
    alloc: Global,
    block: &FlowBlock,
    firm: &[bool],
    n: &FlowNode,
) -> Result<bool, Memory>
    requires { length block.now.nodes < 2 ^ 32 }
    ensures { IfOk result (λ yes. yes
        ≡ wanted.is_open_store (surely.sure_of block.now.nodes (firm_of firm.now)) block.now
        (forms.form_of n.now.op) n.now) }
{
    match form_of(n.op) {
        Form::Store => number_open(alloc, block, firm, n.number),
        _ => Ok(false),
    }
}

/// Of each node, whether it is a store whose number may get none.
pub fn open_stores(alloc: Global, block: &FlowBlock, firm: &[bool]) -> Result<Items<bool>, Memory>
    requires { length block.now.nodes < 2 ^ 32 }
    ensures { IfOk result (λ found. found
        ≡ wanted.open_stores (surely.sure_of block.now.nodes (firm_of firm.now)) block.now
        block.now.nodes) }
{
    let mut found = Items::new(alloc);
    for n in block.nodes.as_slice() {
        let yes = is_open_store(alloc, block, firm, n)?;
        found.push(yes)?;
    }
    Ok(found)
}
