//! The flow block of a narrowed block.
ghost use Rattle.std.specs.Prelude.{◌≡◌, ◌≤◌, ◌↔◌, IsTrue, length, IfOk, IfErr};
ghost use Rattle.ir_forms.specs.inside.HyperViews.{block_of, tail_of};
ghost use Rattle.predication.specs.inside.Converted.{predicated};
ghost use Rattle.predication.specs.inside.Outcomes.{HasRoomFor, IsRefusal, NamesLabel, NamesLabels};
ghost use Rattle.predication.specs.inside.Outcomes.{counts_of};
ghost use Rattle.predication.specs.inside.Tails.{labelled, labelled_block};
ghost use Rattle.hyper_narrow.specs.inside.NarrowedViews.{narrowed_of};
ghost use Rattle.predication.specs.inside.Made.{IsEmitted, counts_by, counts_in, flow_in};

use crate::branching::items;
use crate::ending::finish;
use crate::outputs::flow;
use crate::work::{Emitted, Names, Work};
use base::{Items, Memory};
use hyper_narrow::{Lasting, NarrowedBlock};
use ir_forms::{Exit, FlowBlock, FlowFault, HyperBlock, LABELS, Part, Tail};
use std::alloc::Global;

// LABELS

fn label_fits(exit: Exit) -> bool
    ensures { IsTrue result ↔ NamesLabel exit }
{
    match exit {
        Exit::Jump(to) => to < LABELS,
        Exit::Call { to, back } => to < LABELS && back < LABELS,
        Exit::Return => true,
        Exit::System(_) => true,
    }
}

/// Whether a block's labels are below `LABELS`, as `convert` wants them.
pub fn labels_fit(tail: &Tail) -> bool
    ensures { IsTrue result ↔ NamesLabels (tail_of tail.now) }
{
    match tail {
        Tail::Leave(exit) => label_fits(*exit),
        Tail::Test { yes, no, .. } => labels_fit(yes.get()) && labels_fit(no.get()),
    }
}

// THE BLOCK

// All nodes of a block.
fn emitted(alloc: Global, block: &HyperBlock) -> Result<Emitted, Memory>
    ensures { IfOk result (λ e. IsEmitted (labelled_block (block_of block.now)) e) }
{
    let mut work = Work {
        nodes: Items::new(alloc),
        number: 0,
    };
    let mut names = Names {
        entries: Items::new(alloc),
        bits: Items::new(alloc),
        sets: Items::new(alloc),
    };
    items(block.items.as_slice(), alloc, &mut work, &mut names, None)?;
    let numbers = work.number;
    work.number = 0;
    finish(&block.tail, alloc, &mut work, &mut names, None)?;
    let Work {
        nodes,
        number: exits,
    } = work;
    Ok(Emitted {
        nodes,
        names,
        numbers,
        exits,
    })
}

// A flow block whose other parts are within their limits too, or the first that is not.
fn within(block: FlowBlock, numbers: usize, exits: usize) -> Result<FlowBlock, FlowFault>
    requires { length block.nodes ≤ 128 }
    ensures ok { IfOk result (λ f. (f ≡ block) × HasRoomFor (counts_by block numbers exits)) }
    ensures err { IfErr result (λ e. IsRefusal (counts_by block numbers exits) e) }
{
    let reads = block.reads.len();
    let writes = block.writes.len();
    if reads > 32 {
        Err(FlowFault::TooBig(Part::Reads, reads))
    } else if writes > 32 {
        Err(FlowFault::TooBig(Part::Writes, writes))
    } else if numbers > 32 {
        Err(FlowFault::TooBig(Part::Numbers, numbers))
    } else if exits > 8 {
        Err(FlowFault::TooBig(Part::Exits, exits))
    } else {
        Ok(block)
    }
}

// The flow block of all that is emitted, where its nodes are not too many.
fn limited(alloc: Global, emitted: Emitted, lasting: Lasting) -> Result<FlowBlock, FlowFault>
    ensures ok { IfOk result (λ f.
        (f ≡ flow_in lasting emitted) × HasRoomFor (counts_in lasting emitted)) }
    ensures err { IfErr result (λ e. IsRefusal (counts_in lasting emitted) e) }
{
    let insts = emitted.nodes.len();
    if insts > 128 {
        return Err(FlowFault::TooBig(Part::Insts, insts));
    }
    let Emitted {
        nodes,
        names,
        numbers,
        exits,
    } = emitted;
    match flow(alloc, nodes, &names, lasting) {
        Ok(block) => within(block, numbers, exits),
        Err(_) => Err(FlowFault::Memory),
    }
}

/// The flow block of a narrowed block: guards in place of branches, and each register's sources merged.
///
/// It is `predicated` of the block, whose labels to come back to stand in constants until the blocks
/// are laid out; it writes the registers that the block sets and that outlast it. It is refused where
/// a part of it is above its limit, with the exact count: more than 128 nodes, 32 reads, 32 writes, 32
/// load/store numbers or 8 exits, the first of these in this order; or where memory is wanting.
pub fn convert(alloc: Global, block: &NarrowedBlock) -> Result<FlowBlock, FlowFault>
    requires labels { NamesLabels (tail_of block.now.block.tail) }
    ensures ok { IfOk result (λ f. f ≡ predicated (labelled (narrowed_of block.now))) }
    ensures room { IfOk result (λ f. HasRoomFor (counts_of (labelled (narrowed_of block.now)))) }
    ensures err { IfErr result (λ e. IsRefusal (counts_of (labelled (narrowed_of block.now))) e) }
{
    match emitted(alloc, &block.block) {
        Ok(emitted) => limited(alloc, emitted, block.lasting),
        Err(_) => Err(FlowFault::Memory),
    }
}
