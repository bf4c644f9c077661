//! The writes, the reads and the mask of a flow block.
ghost use Rattle.std.specs.Prelude.{◌≡◌, ◌++◌, ◌∷◌, ◌||◌, [], ◌<◌, ◌≤◌, ◌+◌, ◌^◌, ℕ, cond, false, nat_eq, IfOk};
ghost use Rattle.std.specs.Prelude.{OnOk};
ghost use Rattle.trips_isa.specs.Forms as forms;
ghost use Rattle.predication.specs.inside.Environments.{member};
ghost use Rattle.predication.specs.inside.Converted as spec;
ghost use Rattle.predication.specs.inside.Converted.{among};
ghost use Rattle.predication.specs.inside.Emits.{env_of};
ghost use Rattle.predication.specs.inside.Made as made;
ghost use Rattle.predication.specs.inside.Made.{Notes, flow_of, mask_of, member_of, reads_of, write_of};
ghost use Rattle.predication.specs.inside.Made.{writes_of};

use crate::joining::is_member;
use crate::naming::entry_of;
use crate::work::{Entry, Names};
use base::{Items, Memory};
use hyper_narrow::{Lasting, outlasts};
use ir_forms::{FlowBlock, FlowNode, FlowSource, FlowWrite};
use std::alloc::Global;
use trips_isa::{Form, form_of};

// REGISTERS, FROM THE HIGHEST ON

// The number behind a register, where it is below a count and not below another number; else that number.
fn raised(top: u8, register: u8, count: u8) -> u8
    ensures low { top ≤ count → result ≤ count }
    ensures up { top ≤ result }
    ensures own { register < count → register < result }
{
    if top <= register && register < count {
        register + 1
    } else {
        top
    }
}

// The number behind the highest of some registers below a count; 0 where none is below it.
fn top_below(registers: &[u8], count: u8) -> u8
    ensures low { result ≤ count }
    ensures none { (r : ℕ) → result ≤ r → r < count → member r registers.now ≡ false }
{
    let mut top = 0;
    for register in registers {
        top = raised(top, *register, count);
    }
    top
}

// WRITES

// Whether a register is written: it is set, and outlasts the block.
fn is_written(names: &Names, lasting: Lasting, register: u8) -> bool
    ensures { result ≡ member register (among lasting names.now.sets) }
{
    is_member(register, names.sets.as_slice()) && outlasts(lasting, register)
}

// The write of one register, where it is written.
fn push_write(
    alloc: Global,
    names: &Names,
    lasting: Lasting,
    register: u8,
    to: &mut Items<FlowWrite>,
) -> Result<(), Memory>
    ensures { OnOk result (to.new
        ≡ to.old ++ write_of (env_of names.now.entries) (among lasting names.now.sets) register) }
{
    if !is_written(names, lasting, register) {
        return Ok(());
    }
    let Entry { given, kept: _ } = entry_of(alloc, names.entries.as_slice(), register)?;
    to.push(FlowWrite {
        register,
        sources: given,
    })?;
    Ok(())
}

fn writes_below(
    alloc: Global,
    names: &Names,
    lasting: Lasting,
    count: u8,
) -> Result<Items<FlowWrite>, Memory>
    ensures { IfOk result (λ ws. ws
        ≡ spec.writes_below (env_of names.now.entries) (among lasting names.now.sets) count) }
{
    let mut writes = Items::new(alloc);
    let mut register = top_below(names.sets.as_slice(), count);
    while register > 0 {
        register -= 1;
        push_write(alloc, names, lasting, register, &mut writes)?;
        register = top_below(names.sets.as_slice(), register);
    }
    Ok(writes)
}

// The writes of the registers that are set and outlast the block.
fn writes(alloc: Global, names: &Names, lasting: Lasting) -> Result<Items<FlowWrite>, Memory>
    ensures { IfOk result (λ ws. ws
        ≡ writes_of (env_of names.now.entries) (among lasting names.now.sets)) }
{
    writes_below(alloc, names, lasting, 128)
}

// READS

// A register is found.
fn note(register: u8, found: &mut Items<u8>) -> Result<(), Memory>
    ensures { OnOk result (Notes found.old found.new (λ r. nat_eq register r)) }
{
    if is_member(register, found.as_slice()) {
        return Ok(());
    }
    found.push(register)?;
    Ok(())
}

fn note_source(source: FlowSource, found: &mut Items<u8>) -> Result<(), Memory>
    ensures { OnOk result (Notes found.old found.new (λ r. spec.reads_in (source ∷ []) r)) }
{
    match source {
        FlowSource::Read(register) => note(register, found),
        FlowSource::Node(_) => Ok(()),
    }
}

fn note_sources(sources: &[FlowSource], found: &mut Items<u8>) -> Result<(), Memory>
    ensures { OnOk result (Notes found.old found.new (λ r. spec.reads_in sources.now r)) }
{
    match sources {
        [] => Ok(()),
        [source, rest @ ..] => {
            note_source(*source, found)?;
            note_sources(rest, found)
        }
    }
}

// Of at most 128 nodes.
fn note_nodes(nodes: &[FlowNode], found: &mut Items<u8>) -> Result<(), Memory>
    ensures { OnOk result (Notes found.old found.new (λ r. spec.nodes_read nodes.now r)) }
{
    match nodes {
        [] => Ok(()),
        [node, rest @ ..] => {
            note_sources(node.left.as_slice(), found)?;
            note_sources(node.right.as_slice(), found)?;
            note_nodes(rest, found)
        }
    }
}

fn note_writes(writes: &[FlowWrite], found: &mut Items<u8>) -> Result<(), Memory>
    ensures { OnOk result (Notes found.old found.new (λ r. spec.writes_read writes.now r)) }
{
    match writes {
        [] => Ok(()),
        [write, rest @ ..] => {
            note_sources(write.sources.as_slice(), found)?;
            note_writes(rest, found)
        }
    }
}

fn push_member(found: &[u8], register: u8, to: &mut Items<u8>) -> Result<(), Memory>
    ensures { OnOk result (to.new ≡ to.old ++ member_of found.now register) }
{
    if is_member(register, found) {
        to.push(register)?;
    }
    Ok(())
}

// The registers below a number that are found.
fn members_below(alloc: Global, found: &[u8], count: u8) -> Result<Items<u8>, Memory>
    ensures { IfOk result (λ rs. rs ≡ made.members_below found.now count) }
{
    let mut reads = Items::new(alloc);
    let mut register = top_below(found, count);
    while register > 0 {
        register -= 1;
        push_member(found, register, &mut reads)?;
        register = top_below(found, register);
    }
    Ok(reads)
}

// The registers that some source reads.
fn reads(alloc: Global, nodes: &[FlowNode], writes: &[FlowWrite]) -> Result<Items<u8>, Memory>
    ensures { IfOk result (λ rs. rs ≡ reads_of nodes.now writes.now) }
{
    let mut found = Items::new(alloc);
    note_nodes(nodes, &mut found)?;
    note_writes(writes, &mut found)?;
    members_below(alloc, found.as_slice(), 128)
}

// THE MASK

fn note_store(node: &FlowNode, found: &mut Items<u8>) -> Result<(), Memory>
    ensures { OnOk result (Notes found.old found.new
        (λ k. spec.stores_as (forms.form_of node.now.op) node.now k)) }
{
    match form_of(node.op) {
        Form::Store => note(node.number, found),
        _ => Ok(()),
    }
}

// The numbers of stores are found. Of at most 128 nodes.
fn note_stores(nodes: &[FlowNode], found: &mut Items<u8>) -> Result<(), Memory>
    ensures { OnOk result (Notes found.old found.new (λ k. spec.has_store nodes.now k)) }
{
    match nodes {
        [] => Ok(()),
        [node, rest @ ..] => {
            note_store(node, found)?;
            note_stores(rest, found)
        }
    }
}

// A mask with one bit more, where there is a store.
fn with_bit(mask: u64, number: u8, is_stored: bool) -> u64
    requires number { number < 32 }
    requires mask { mask < 2 ^ 32 }
    ensures { result ≡ mask + cond is_stored (2 ^ number) 0 }
{
    if is_stored {
        mask + (1 << number)
    } else {
        mask
    }
}

// The bits of the numbers below one that are found.
fn mask_below(found: &[u8], count: u8) -> u64
    requires { count ≤ 32 }
    ensures { result ≡ made.mask_members found.now count }
{
    let mut mask = 0;
    for number in 0..count {
        mask = with_bit(mask, number, is_member(number, found));
    }
    mask
}

// The numbers that stores have.
fn mask(alloc: Global, nodes: &[FlowNode]) -> Result<u32, Memory>
    ensures { IfOk result (λ m. m ≡ mask_of nodes.now) }
{
    let mut found = Items::new(alloc);
    note_stores(nodes, &mut found)?;
    Ok(mask_below(found.as_slice(), 32) as u32)
}

// THE BLOCK

/// The flow block of nodes and of what registers are named at their end. It writes those that are
/// set and outlast the block.
pub fn flow(
    alloc: Global,
    nodes: Items<FlowNode>,
    names: &Names,
    lasting: Lasting,
) -> Result<FlowBlock, Memory>
    ensures { IfOk result (λ f. f
        ≡ flow_of nodes (env_of names.now.entries) (among lasting names.now.sets)) }
{
    let writes = writes(alloc, names, lasting)?;
    let reads = reads(alloc, nodes.as_slice(), writes.as_slice())?;
    let mask = mask(alloc, nodes.as_slice())?;
    Ok(FlowBlock {
        nodes,
        reads,
        writes,
        mask,
    })
}
