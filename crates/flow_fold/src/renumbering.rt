//! Blocks of the nodes that stay, by new numbers.

ghost use Rattle.std.specs.Prelude.{◌≡◌, ◌<◌, ◌-◌, ◌^◌, map, length, IfOk};
ghost use Rattle.flow_fold.specs.inside.SweepsAll as sweep;

use crate::checking::stays;
use base::{Items, Memory};
use ir_forms::{FlowBlock, FlowNode, FlowSource, FlowWrite, Guard};
use std::alloc::Global;

// The new number of each node of a list.
fn numbers(alloc: Global, keeps: &[bool]) -> Result<Items<u32>, Memory>
    requires { length keeps.now < 2 ^ 32 }
    ensures { IfOk result (λ t. t ≡ sweep.numbers_to (sweep.stays keeps.now) (length keeps.now)) }
{
    let mut out = Items::from_vec(Vec::with_capacity(alloc, keeps.len())?);
    let mut next = 0u32;
    for j in 0..keeps.len() {
        out.push(next)?;
        if stays(keeps, j) {
            next += 1;
        }
    }
    Ok(out)
}

// How many of a list stay.
fn staying_count(keeps: &[bool]) -> u32
    requires { length keeps.now < 2 ^ 32 }
    ensures { result ≡ sweep.number (sweep.stays keeps.now) (length keeps.now) }
{
    let mut next = 0u32;
    for j in 0..keeps.len() {
        if stays(keeps, j) {
            next += 1;
        }
    }
    next
}

// How many of a list go.
fn going_count(keeps: &[bool]) -> u32
    requires { length keeps.now < 2 ^ 32 }
    ensures { result ≡ length keeps.now - sweep.number (sweep.stays keeps.now) (length keeps.now) }
{
    let count = keeps.len() as u32;
    count.saturating_sub(staying_count(keeps))
}

// The new number of node j by a table.
fn tabled(table: &[u32], less: u32, j: u32) -> u32
    ensures { result ≡ sweep.tabled table.now less j }
{
    match table.get(j as usize) {
        None => j.saturating_sub(less),
        Some(i) => *i,
    }
}

// A source by its new number.
fn by_source(table: &[u32], less: u32, s: FlowSource) -> FlowSource
    ensures { result ≡ sweep.by_source (sweep.tabled table.now less) s }
{
    match s {
        FlowSource::Read(r) => FlowSource::Read(r),
        FlowSource::Node(j) => FlowSource::Node(tabled(table, less, j)),
    }
}

// Sources by their new numbers.
fn by_sources(
    alloc: Global,
    table: &[u32],
    less: u32,
    sources: &[FlowSource],
) -> Result<Items<FlowSource>, Memory>
    ensures { IfOk result (λ ss. ss ≡ map (sweep.by_source (sweep.tabled table.now less)) sources.now) }
{
    let mut out = Items::from_vec(Vec::with_capacity(alloc, sources.len())?);
    for s in sources {
        out.push(by_source(table, less, *s))?;
    }
    Ok(out)
}

// A guard by its new number.
fn by_guard(table: &[u32], less: u32, g: Option<Guard>) -> Option<Guard>
    ensures { result ≡ sweep.by_guard (sweep.tabled table.now less) g }
{
    match g {
        None => None,
        Some(g) => Some(Guard {
            node: tabled(table, less, g.node),
            sense: g.sense,
        }),
    }
}

// A node that names all by their new numbers.
fn by_node(alloc: Global, table: &[u32], less: u32, n: &FlowNode) -> Result<FlowNode, Memory>
    ensures { IfOk result (λ m. m ≡ sweep.by_node (sweep.tabled table.now less) n.now) }
{
    let left = by_sources(alloc, table, less, n.left.as_slice())?;
    let right = by_sources(alloc, table, less, n.right.as_slice())?;
    Ok(FlowNode {
        op: n.op,
        imm: n.imm,
        number: n.number,
        guard: by_guard(table, less, n.guard),
        left,
        right,
    })
}

// A write that does.
fn by_write(alloc: Global, table: &[u32], less: u32, w: &FlowWrite) -> Result<FlowWrite, Memory>
    ensures { IfOk result (λ v. v ≡ sweep.by_write (sweep.tabled table.now less) w.now) }
{
    let sources = by_sources(alloc, table, less, w.sources.as_slice())?;
    Ok(FlowWrite {
        register: w.register,
        sources,
    })
}

// The writes.
fn by_writes(
    alloc: Global,
    table: &[u32],
    less: u32,
    writes: &[FlowWrite],
) -> Result<Items<FlowWrite>, Memory>
    ensures { IfOk result (λ vs. vs ≡ map (sweep.by_write (sweep.tabled table.now less)) writes.now) }
{
    let mut out = Items::from_vec(Vec::with_capacity(alloc, writes.len())?);
    for w in writes {
        out.push(by_write(alloc, table, less, w)?)?;
    }
    Ok(out)
}

// The nodes that stay.
fn staying_nodes(
    alloc: Global,
    table: &[u32],
    less: u32,
    keeps: &[bool],
    nodes: &[FlowNode],
) -> Result<Items<FlowNode>, Memory>
    ensures { IfOk result (λ ns.
        ns ≡ sweep.staying (sweep.tabled table.now less) (sweep.stays keeps.now) 0 nodes.now) }
{
    let mut out = Items::from_vec(Vec::with_capacity(alloc, nodes.len())?);
    let mut j = 0;
    for n in nodes {
        if stays(keeps, j) {
            out.push(by_node(alloc, table, less, n)?)?;
        }
        j += 1;
    }
    Ok(out)
}

// A block of the nodes that stay, by a table.
fn numbered_block(
    alloc: Global,
    table: &[u32],
    less: u32,
    keeps: &[bool],
    block: &FlowBlock,
) -> Result<FlowBlock, Memory>
    ensures { IfOk result (λ g.
        g ≡ sweep.numbered_block (sweep.tabled table.now less) (sweep.stays keeps.now) block.now) }
{
    let nodes = staying_nodes(alloc, table, less, keeps, block.nodes.as_slice())?;
    let reads = Items::from_slice(alloc, block.reads.as_slice())?;
    let writes = by_writes(alloc, table, less, block.writes.as_slice())?;
    Ok(FlowBlock {
        nodes,
        reads,
        writes,
        mask: block.mask,
    })
}

/// A block of the nodes that stay.
pub fn kept(alloc: Global, keeps: &[bool], block: &FlowBlock) -> Result<FlowBlock, Memory>
    requires { length keeps.now < 2 ^ 32 }
    ensures { IfOk result (λ g. g ≡ sweep.kept (sweep.stays keeps.now) block.now) }
{
    let table = numbers(alloc, keeps)?;
    let less = going_count(keeps);
    let made = numbered_block(alloc, table.as_slice(), less, keeps, block)?;
    Ok(made)
}
