//! A flow block as text: a line for each node, then the reads, the writes and the mask.

use ir_forms::{FlowBlock, FlowNode, FlowSource, FlowWrite, Guard};
use std::alloc::{AllocError, Global};
use trips_isa::Sense;

fn add_source(alloc: Global, text: &mut String, source: FlowSource) -> Result<(), AllocError> {
    let (kind, number) = match source {
        FlowSource::Read(register) => ("r", u32::from(register)),
        FlowSource::Node(node) => ("n", node),
    };
    text.push_str(format!(in alloc; " {kind}{number}")?.as_str())
}

fn add_sources(alloc: Global, text: &mut String, sources: &[FlowSource]) -> Result<(), AllocError> {
    text.push_str(" [")?;
    for source in sources {
        add_source(alloc, text, *source)?;
    }
    text.push_str(" ]")
}

fn add_guard(alloc: Global, text: &mut String, guard: Option<Guard>) -> Result<(), AllocError> {
    match guard {
        None => Ok(()),
        Some(guard) => {
            let node = guard.node;
            let sense = match guard.sense {
                Sense::Always => "always",
                Sense::OnTrue => "true",
                Sense::OnFalse => "false",
            };
            text.push_str(format!(in alloc; " if n{node} {sense}")?.as_str())
        }
    }
}

fn add_node(alloc: Global, text: &mut String, node: &FlowNode) -> Result<(), AllocError> {
    let (op, imm, number) = (node.op, node.imm, node.number);
    text.push_str(format!(in alloc; "{op:?} {imm} #{number}")?.as_str())?;
    add_sources(alloc, text, node.left.as_slice())?;
    add_sources(alloc, text, node.right.as_slice())?;
    add_guard(alloc, text, node.guard)?;
    text.push_str("\n")
}

fn add_write(alloc: Global, text: &mut String, write: &FlowWrite) -> Result<(), AllocError> {
    let register = write.register;
    text.push_str(format!(in alloc; "write r{register}")?.as_str())?;
    add_sources(alloc, text, write.sources.as_slice())?;
    text.push_str("\n")
}

/// The lines of a flow block.
pub fn shown(alloc: Global, block: &FlowBlock) -> Result<String, AllocError> {
    let mut text = String::new(alloc);
    for node in block.nodes.as_slice() {
        add_node(alloc, &mut text, node)?;
    }
    text.push_str("read")?;
    for register in block.reads.as_slice() {
        text.push_str(format!(in alloc; " r{register}")?.as_str())?;
    }
    text.push_str("\n")?;
    for write in block.writes.as_slice() {
        add_write(alloc, &mut text, write)?;
    }
    let mask = block.mask;
    text.push_str(format!(in alloc; "mask {mask}\n")?.as_str())?;
    Ok(text)
}
